//! The run of a command over the file of a path.

use crate::blobs::BlobsInFile;
use crate::cache_change::change_cache;
use crate::change::{answer_change, put, read_source};
use crate::collect::{collect_garbage, real_path};
use crate::command::{Change, Command, Look};
use crate::import::import_database;
use crate::look::{Answer, answer_look};
use crate::refusal::Refusal;
use crate::serve::serve_lines;
use blob_host::facts_at;
use pagable_file::OpenError;
use std::fs;

/// Returns whether two paths lead to one file.
fn lead_to_one_file(rt: &HostRuntime, path: &str, other: &str) -> bool {
    match (facts_at(rt, path), facts_at(rt, other)) {
        (Ok(Some(file)), Ok(Some(other))) => {
            file.device == other.device && file.inode == other.inode
        }
        _ => false,
    }
}

/// Returns whether a command copies the file of a path to itself.
fn copies_to_itself(rt: &HostRuntime, path: &str, look: &Look<'_>) -> bool {
    match look {
        Look::Copy(other, _) => lead_to_one_file(rt, path, other),
        _ => false,
    }
}

/// Opens a file to look at it, and answers a command that shows what it has. A cache that isn't there has
/// no entry.
fn look<B: BlobsInFile>(rt: &HostRuntime, path: &str, look: Look<'_>) -> Result<Answer, Refusal> {
    if copies_to_itself(rt, path, &look) {
        return Err(Refusal::SameFile);
    }
    match (B::read(rt, path), look) {
        (Ok(mut blobs), look) => answer_look(rt, &mut blobs, look),
        (Err(OpenError::Missing), Look::CacheGet(_, _)) => Err(Refusal::Miss),
        (Err(error), _) => Err(Refusal::File(error)),
    }
}

/// Opens a file that is there, to write it.
fn open_there<B: BlobsInFile>(rt: &HostRuntime, path: &str) -> Result<B, Refusal> {
    if !fs::exists(rt, path)? {
        return Err(Refusal::File(OpenError::Missing));
    }
    Ok(B::open(rt, path)?)
}

/// Opens or makes a file, stores a blob or sets a name, and commits that. Returns what there is to say of
/// it, a new blob's key. (The bytes are read first, so that the file isn't locked meanwhile.)
fn change<B: BlobsInFile>(
    rt: &HostRuntime,
    path: &str,
    change: Change<'_>,
) -> Result<String, Refusal> {
    match change {
        Change::Put(source, children) => {
            let bytes = read_source(rt, source)?;
            let mut blobs = B::open(rt, path)?;
            let said = put(rt.alloc(), &mut blobs, bytes, children.as_slice())?;
            blobs.flush()?;
            Ok(said)
        }
        other => {
            let mut blobs = open_there::<B>(rt, path)?;
            answer_change(rt, &mut blobs, other)?;
            blobs.flush()?;
            Ok(String::new(rt.alloc()))
        }
    }
}

/// Drops what none of so many last versions of a root of the file of a path reaches, or of the file to
/// which a link there leads, and says how many blobs are kept.
fn collect<B: BlobsInFile>(rt: &HostRuntime, path: &str, keep: u64) -> Result<String, Refusal> {
    let found = real_path(rt, path)?;
    let mut blobs = B::open(rt, found.as_str())?;
    collect_garbage(rt, &found, &mut blobs, keep)
}

/// Opens or makes a file, and answers the lines of the input.
fn serve<B: BlobsInFile>(rt: &HostRuntime, path: &str) -> Result<String, Refusal> {
    let mut blobs = B::open(rt, path)?;
    serve_lines(rt, &mut blobs)?;
    Ok(String::new(rt.alloc()))
}

/// Runs a command over the file of a path, and returns what it answers. A command that only shows what
/// the file has opens it to look at it, and writes no byte of it.
///
/// # Errors
///
/// - why the command fails. The file has what it had, but for what `serve` had flushed.
pub fn run<B: BlobsInFile>(
    rt: &HostRuntime,
    path: &str,
    command: Command<'_>,
) -> Result<Answer, Refusal> {
    let text = match command {
        Command::Look(wanted) => return look::<B>(rt, path, wanted),
        Command::Change(wanted) => change::<B>(rt, path, wanted)?,
        Command::ChangeCache(wanted, seconds) => change_cache::<B>(rt, path, wanted, seconds)?,
        Command::Collect(keep) => collect::<B>(rt, path, keep)?,
        Command::ImportOld(old) => import_database::<B>(rt, old, path)?,
        Command::Serve => serve::<B>(rt, path)?,
        Command::Texts => String::new(rt.alloc()),
    };
    Ok(Answer::Lines(text))
}
