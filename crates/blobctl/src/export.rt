//! Writes all blobs and names as a database that SQLite reads.

ghost use Rattle.blobctl.specs.Shown.{Stays};

use crate::blobs::Blobs;
use crate::new_file::{make_file, remove};
use crate::progress::ProgressPrinter;
use crate::refusal::Refusal;
use pagable_core::PagableData;
use pagable_file::{ListedBlob, Watch};
use pagable_flavors::DataKey;
use sqlite::{Alter, Connection, params};
use std::alloc::Global;
use std::fs;
use std::io::ErrorKind;

/// How many rows are written in a transaction.
const BATCH: usize = 1_000;

/// The tables: child keys stand one after another, 16 bytes each.
const TABLES: &str = "CREATE TABLE blobs (key BLOB NOT NULL PRIMARY KEY, bytes BLOB NOT NULL, \
    children BLOB NOT NULL) STRICT; \
    CREATE TABLE roots (name TEXT NOT NULL PRIMARY KEY, key BLOB NOT NULL) STRICT";

const ADD_BLOB: &str = "INSERT INTO blobs (key, bytes, children) VALUES (?1, ?2, ?3)";

const ADD_ROOT: &str = "INSERT INTO roots (name, key) VALUES (?1, ?2)";

/// Adds the row of a blob.
fn add_blob<S: Alter>(
    alloc: Global,
    to: &mut Connection<S>,
    key: DataKey,
    blob: &PagableData,
) -> Result<(), Refusal> {
    let mut children = Vec::new(alloc);
    for child in &blob.arcs {
        children.extend_from_slice(&child.get().to_le_bytes())?;
    }
    let key = key.get().to_le_bytes();
    to.execute(ADD_BLOB, params![key.as_slice(), &blob.bytes, &children])?;
    Ok(())
}

/// Adds the row of a name.
fn add_root<S: Alter>(to: &mut Connection<S>, name: &str, key: DataKey) -> Result<(), Refusal> {
    let key = key.get().to_le_bytes();
    to.execute(ADD_ROOT, params![name, key.as_slice()])?;
    Ok(())
}

/// Runs statements without parameters.
fn run<S: Alter>(to: &mut Connection<S>, text: &str) -> Result<(), Refusal> {
    to.execute_batch(text)?;
    Ok(())
}

/// Adds the rows of these blobs in a transaction.
fn add_batch<B: Blobs, S: Alter, W: Watch>(
    alloc: Global,
    from: &mut B,
    to: &mut Connection<S>,
    batch: &[ListedBlob],
    watch: &mut W,
) -> Result<(), Refusal>
    ensures stays { Stays (B.view from.old) (B.view from.new) }
{
    run(to, "BEGIN")?;
    for listed in batch {
        let blob = from.fetch(alloc, listed.key)?;
        add_blob(alloc, to, listed.key, &blob)?;
        watch.note();
    }
    run(to, "COMMIT")
}

/// Adds the rows of all blobs, and returns how many these are. (In the order of their keys, so that no
/// page of the index is written again.)
fn add_blobs<B: Blobs, S: Alter, W: Watch>(
    alloc: Global,
    from: &mut B,
    to: &mut Connection<S>,
    watch: &mut W,
) -> Result<usize, Refusal>
    ensures stays { Stays (B.view from.old) (B.view from.new) }
{
    let mut all = from.list(alloc)?;
    all.sort_by_key(|blob| blob.key.get().swap_bytes())?;
    for batch in all.chunks(BATCH) {
        add_batch(alloc, from, to, batch, watch)?;
    }
    Ok(all.len())
}

/// Adds the rows of all names that stand for a key, and returns how many these are.
fn add_roots<B: Blobs, S: Alter>(
    alloc: Global,
    from: &mut B,
    to: &mut Connection<S>,
) -> Result<u64, Refusal>
    ensures stays { Stays (B.view from.old) (B.view from.new) }
{
    let mut count: u64 = 0;
    run(to, "BEGIN")?;
    for name in &from.root_names(alloc)? {
        if let Some(key) = from.root(name.as_str())? {
            add_root(to, name.as_str(), key)?;
            count = count.saturating_add(1);
        }
    }
    run(to, "COMMIT")?;
    Ok(count)
}

/// Makes a database of an empty file, with all blobs and names, and says how many these are.
fn fill<B: Blobs>(rt: &HostRuntime, from: &mut B, path: &str) -> Result<String, Refusal>
    ensures stays { Stays (B.view from.old) (B.view from.new) }
{
    let mut to = Connection::open(rt, path)?;
    run(&mut to, TABLES)?;
    let blobs = add_blobs(rt.alloc(), from, &mut to, &mut ProgressPrinter::new(rt))?;
    let names = add_roots(rt.alloc(), from, &mut to)?;
    to.close()?;
    Ok(format!(in rt.alloc(); "{blobs} blobs, {names} names exported\n")?)
}

/// Fails if something has the name of a path.
fn refuse_taken(rt: &HostRuntime, path: &str) -> Result<(), Refusal> {
    match fs::symlink_metadata(rt, path) {
        Err(error) if error.kind() == ErrorKind::NotFound => Ok(()),
        Err(error) => Err(Refusal::System(error)),
        Ok(_) => Err(Refusal::Taken(String::from_str(rt.alloc(), path)?)),
    }
}

/// Writes all blobs and names, also those that wait for a flush, as a new database at a path, and says
/// how many these are.
///
/// # Errors
///
/// No file is left.
///
/// - `Taken` if something has the path, or the name of the log beside it.
/// - `Blobs` if a blob can't be fetched, or for want of memory.
/// - `Database` or `System` if the database can't be made or written.
pub fn export_database<B: Blobs>(
    rt: &HostRuntime,
    from: &mut B,
    path: &str,
) -> Result<String, Refusal>
    ensures stays { Stays (B.view from.old) (B.view from.new) }
{
    let log = format!(in rt.alloc(); "{path}-wal")?;
    refuse_taken(rt, log.as_str())?;
    make_file(rt, path, 0o666)?;
    let said = fill(rt, from, path);
    // (what it held is in the file by now)
    let _removed = remove(rt, log.as_str());
    if said.is_err() {
        let _removed = remove(rt, path);
    }
    said
}
