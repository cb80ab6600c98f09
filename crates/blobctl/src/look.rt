//! What the commands answer that show a file of blobs.

ghost use Rattle.blobctl.specs.Shown.{Stays};

use crate::blobs::{Blobs, BlobsInFile};
use crate::cache::{count_entries, find_entry};
use crate::command::{Comparison, Format, Listing, Look};
use crate::copy::copy_into;
use crate::diff::{compare, difference_as_lines};
use crate::export::export_database;
use crate::find::find_key;
use crate::graph::show_graph;
use crate::json::{counts_as_json, difference_as_json};
use crate::listing::{show_blobs, show_children, show_roots};
use crate::progress::ProgressPrinter;
use crate::refusal::Refusal;
use crate::tree::show_tree;
use crate::versions::show_log;
use pagable_core::PagableData;
use pagable_file::{Flaw, ListedBlob};
use pagable_flavors::Error;
use std::alloc::{AllocError, Global};
use std::sync::Arc;

/// What a command that succeeds answers.
#[derive(Drop)]
pub enum Answer {
    /// Lines.
    Lines(String),
    /// Lines, of which some name flaws.
    Flaws(String),
    /// Lines or a document that tell how two roots differ.
    Differences(String),
    /// The bytes of a blob.
    Blob(Arc<PagableData>),
    /// An entry of the cache, and the path of the file to which it is written, if it isn't printed.
    Entry(Arc<PagableData>, Option<String>),
}

/// Adds up the bytes of blobs.
fn total(all: &[ListedBlob]) -> u64 {
    all.iter()
        .fold(0, |sum: u64, blob| sum.saturating_add(blob.bytes))
}

/// Counts the blobs, their bytes, and the names that stand for keys.
fn count<B: Blobs>(alloc: Global, blobs: &mut B, format: Format) -> Result<String, Error>
    ensures stays { Stays (B.view blobs.old) (B.view blobs.new) }
{
    let all = blobs.list(alloc)?;
    let names = blobs.root_names(alloc)?.len();
    let (count, bytes) = (all.len(), total(all.as_slice()));
    match format {
        Format::Lines => Ok(format!(in alloc; "{count} blobs, {bytes} bytes, {names} names\n")?),
        Format::Json => Ok(counts_as_json(alloc, count, bytes, names)?),
    }
}

/// Shows what `ls` lists.
fn list<B: Blobs>(
    alloc: Global,
    blobs: &mut B,
    listing: Listing<'_>,
    format: Format,
) -> Result<String, Refusal>
    ensures stays { Stays (B.view blobs.old) (B.view blobs.new) }
{
    match listing {
        Listing::Roots => Ok(show_roots(alloc, blobs, format)?),
        Listing::Blobs => Ok(show_blobs(alloc, blobs, format)?),
        Listing::Children(word) => show_children(alloc, blobs, word, format),
    }
}

/// Appends a line that describes a flaw. What isn't printable in a name is escaped.
fn write_flaw(text: &mut String, flaw: &Flaw) -> Result<(), AllocError> {
    match flaw {
        Flaw::StrayBlob(number) => {
            let digits = number.swap_bytes();
            writeln!(text, "what stands under {digits:032x} is no blob")
        }
        Flaw::WrongKey(key) => writeln!(text, "{key} has another key"),
        Flaw::MissingChild(key, child) => {
            writeln!(text, "{key} refers to {child}, which is missing")
        }
        Flaw::MissingRoot(name, key) => {
            let name = name.escape_debug();
            writeln!(text, "root {name} is {key}, which is missing")
        }
    }
}

/// Returns the lines of these flaws, of a tail of so many bytes, and of the counts.
fn answer_flaws(
    alloc: Global,
    flaws: &[Flaw],
    tail: u64,
    blobs: u64,
) -> Result<Answer, AllocError> {
    let mut text = String::new(alloc);
    for flaw in flaws {
        write_flaw(&mut text, flaw)?;
    }
    if tail > 0 {
        writeln!(text, "{tail} bytes behind the last flush are ignored")?;
    }
    writeln!(text, "{blobs} blobs, {} flaws", flaws.len())?;
    if flaws.is_empty() {
        return Ok(Answer::Lines(text));
    }
    Ok(Answer::Flaws(text))
}

/// Names each flaw of the file, and says how many bytes behind its last flush are ignored, and how many
/// blobs and flaws there are.
fn test_file<B: Blobs>(rt: &HostRuntime, blobs: &mut B) -> Result<Answer, Error>
    ensures stays { Stays (B.view blobs.old) (B.view blobs.new) }
{
    let mut progress = ProgressPrinter::new(rt);
    let flaws = blobs.fsck(rt.alloc(), &mut progress)?;
    let tail = blobs.count_tail()?;
    Ok(answer_flaws(rt.alloc(), flaws.as_slice(), tail, progress.count())?)
}

/// Names each flaw of what the root of a name reaches, and says how many blobs and flaws there are.
fn test_root<B: Blobs>(rt: &HostRuntime, blobs: &mut B, name: &str) -> Result<Answer, Refusal>
    ensures stays { Stays (B.view blobs.old) (B.view blobs.new) }
{
    if blobs.root(name)?.is_none() {
        return Err(Refusal::NoRoot(String::from_str(rt.alloc(), name)?));
    }
    let mut progress = ProgressPrinter::new(rt);
    let flaws = blobs.fsck_root(rt.alloc(), name, &mut progress)?;
    Ok(answer_flaws(rt.alloc(), flaws.as_slice(), 0, progress.count())?)
}

/// Fetches the blob that a word names.
fn fetch_named<B: Blobs>(
    alloc: Global,
    blobs: &mut B,
    word: &str,
) -> Result<Arc<PagableData>, Refusal>
    ensures stays { Stays (B.view blobs.old) (B.view blobs.new) }
{
    let key = find_key(alloc, blobs, word)?;
    Ok(blobs.fetch(alloc, key)?)
}

/// Shows what a blob reaches that a word names, as a tree.
fn tree<B: Blobs>(alloc: Global, blobs: &mut B, word: &str) -> Result<String, Refusal>
    ensures stays { Stays (B.view blobs.old) (B.view blobs.new) }
{
    let key = find_key(alloc, blobs, word)?;
    show_tree(alloc, blobs, key)
}

/// Shows what a blob reaches that a word names, as a graph.
fn graph<B: Blobs>(alloc: Global, blobs: &mut B, word: &str) -> Result<String, Refusal>
    ensures stays { Stays (B.view blobs.old) (B.view blobs.new) }
{
    let key = find_key(alloc, blobs, word)?;
    show_graph(alloc, blobs, key)
}

/// Shows the blobs that one of two roots reaches and the other one doesn't.
fn answer_comparison<B: Blobs>(
    alloc: Global,
    blobs: &mut B,
    words: Comparison<'_>,
    format: Format,
) -> Result<Answer, Refusal>
    ensures stays { Stays (B.view blobs.old) (B.view blobs.new) }
{
    let difference = compare(alloc, blobs, words)?;
    let text = match format {
        Format::Lines => difference_as_lines(alloc, &difference)?,
        Format::Json => difference_as_json(alloc, &difference)?,
    };
    if difference.is_empty() {
        return Ok(Answer::Lines(text));
    }
    Ok(Answer::Differences(text))
}

/// Finds the entry of a digest, which is written to the file of a path, or printed.
fn get_entry<B: Blobs>(
    alloc: Global,
    blobs: &mut B,
    digest: &str,
    path: Option<&str>,
) -> Result<Answer, Refusal>
    ensures stays { Stays (B.view blobs.old) (B.view blobs.new) }
{
    let blob = find_entry(alloc, blobs, digest)?;
    match path {
        Some(path) => Ok(Answer::Entry(blob, Some(String::from_str(alloc, path)?))),
        None => Ok(Answer::Entry(blob, None)),
    }
}

/// Answers a command that shows what the file has.
///
/// # Errors
///
/// - `Unknown`, `Ambiguous` if a word names no blob, or several.
/// - `NoRoot` if `fsck` or `copy` is asked for a name that stands for no key, or `log` for one that was
///   never set.
/// - `Blobs` if a call on the file fails, or one on the file that `copy` writes.
/// - `OtherFile` if the file that `copy` writes can't be opened.
/// - as `export_database`.
pub fn answer_look<B: BlobsInFile>(
    rt: &HostRuntime,
    blobs: &mut B,
    look: Look<'_>,
) -> Result<Answer, Refusal>
    ensures stays { Stays (B.Blobs.view blobs.old) (B.Blobs.view blobs.new) }
{
    let alloc = rt.alloc();
    match look {
        Look::List(listing, format) => Ok(Answer::Lines(list(alloc, blobs, listing, format)?)),
        Look::Log(name, format) => Ok(Answer::Lines(show_log(alloc, blobs, name, format)?)),
        Look::Diff(words, format) => answer_comparison(alloc, blobs, words, format),
        Look::Cat(word) => Ok(Answer::Blob(fetch_named(alloc, blobs, word)?)),
        Look::Tree(word) => Ok(Answer::Lines(tree(alloc, blobs, word)?)),
        Look::Dot(word) => Ok(Answer::Lines(graph(alloc, blobs, word)?)),
        Look::Stat(format) => Ok(Answer::Lines(count(alloc, blobs, format)?)),
        Look::Fsck(None) => Ok(test_file(rt, blobs)?),
        Look::Fsck(Some(name)) => test_root(rt, blobs, name),
        Look::Copy(path, roots) => {
            let text = copy_into(rt, blobs, path, roots.as_slice())?;
            Ok(Answer::Lines(text))
        }
        Look::CacheGet(digest, path) => get_entry(alloc, blobs, digest, path),
        Look::CacheStat(format) => Ok(Answer::Lines(count_entries(alloc, blobs, format)?)),
        Look::ExportDb(path) => Ok(Answer::Lines(export_database(rt, blobs, path)?)),
    }
}
