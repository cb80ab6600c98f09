//! The commands on a file of blobs.

/// What `ls` lists.
#[derive(Clone, Copy)]
pub enum Listing<'a> {
    /// The names that stand for keys.
    Roots,
    /// All blobs.
    Blobs,
    /// The children of the blob that a word names.
    Children(&'a str),
}

/// How an answer is written.
#[derive(Clone, Copy)]
pub enum Format {
    /// As lines for people.
    Lines,
    /// As a document in JSON.
    Json,
}

/// The words of two roots that `diff` compares.
#[derive(Clone, Copy)]
pub struct Comparison<'a> {
    pub first: &'a str,
    pub second: &'a str,
    /// Whether what both share is read too.
    pub is_exact: bool,
}

/// A command that shows what a file has, and writes no byte to it. A `&str` that names a blob is
/// a key, its first digits, a root's name, or as `main~2` a version of it.
#[derive(Drop)]
pub enum Look<'a> {
    /// `ls`: lists roots or blobs.
    List(Listing<'a>, Format),
    /// `log`: lists the versions of the root of this name.
    Log(&'a str, Format),
    /// `diff`: lists the blobs that one of two roots reaches and the other doesn't.
    Diff(Comparison<'a>, Format),
    /// `cat`: writes the bytes of a blob.
    Cat(&'a str),
    /// `tree`: shows what a blob reaches, below each blob its children.
    Tree(&'a str),
    /// `dot`: shows what a blob reaches as a graph in the language of Graphviz.
    Dot(&'a str),
    /// `stat`: counts the blobs, their bytes, and the names.
    Stat(Format),
    /// `fsck`: tests the whole file, or what the root of a name reaches.
    Fsck(Option<&'a str>),
    /// `copy`: copies into the file of a path what the roots of these names reach, or of all.
    Copy(&'a str, Vec<&'a str>),
    /// `cache get`: finds the entry of a digest, and writes its content to the file of a path, or to
    /// standard output.
    CacheGet(&'a str, Option<&'a str>),
    /// `cache stat`: counts the entries of the cache.
    CacheStat(Format),
    /// `export-db`: writes a database that SQLite reads, at a path.
    ExportDb(&'a str),
}

/// Where `put` finds the bytes of a blob.
#[derive(Clone, Copy)]
pub enum Source<'a> {
    /// In standard input.
    Input,
    /// In the file of a path.
    Path(&'a str),
    /// In the word itself, two hex digits a byte, or `-` for none.
    Hex(&'a str),
}

/// A command that stores a blob or sets a name.
#[derive(Drop)]
pub enum Change<'a> {
    /// `put`: stores a blob of these bytes and children.
    Put(Source<'a>, Vec<&'a str>),
    /// `root`: makes a name stand for a blob's key.
    SetRoot(&'a str, &'a str),
    /// `drop`: makes a name stand for no key.
    DropRoot(&'a str),
}

/// A command that changes the cache, and waits for other writers.
#[derive(Clone, Copy)]
pub enum CacheChange<'a> {
    /// `cache put`: puts an entry of these bytes and this status under a digest.
    Put(&'a str, Source<'a>, u32),
    /// `cache trim`: drops the oldest entries, down to a size.
    Trim(&'a str),
}

/// What the program's arguments ask of a file.
#[derive(Drop)]
pub enum Command<'a> {
    /// Show what the file has.
    Look(Look<'a>),
    /// Change the file, and commit that.
    Change(Change<'a>),
    /// Change the cache, after waiting so many seconds at most for other writers.
    ChangeCache(CacheChange<'a>, u64),
    /// `gc`: drop what none of so many last versions of a root reaches.
    Collect(u64),
    /// `import-old`: make the file of the database at a path.
    ImportOld(&'a str),
    /// `serve`: answer the lines of the input.
    Serve,
    /// `texts`: answer lines about texts.
    Texts,
}

/// What a line of the input asks.
#[derive(Drop)]
pub enum LineCommand<'a> {
    /// Show what the file has, and what waits for a flush.
    Look(Look<'a>),
    /// Change what waits for a flush.
    Change(Change<'a>),
    /// `flush`: commit what was stored and set.
    Flush,
}
