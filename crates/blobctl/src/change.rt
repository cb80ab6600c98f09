//! What the commands answer that store a blob or set a name.

use crate::blobs::Blobs;
use crate::command::{Change, Source};
use crate::find::{find_key, find_keys};
use crate::refusal::Refusal;
use pagable_core::PagableData;
use std::alloc::Global;
use std::fs;
use std::io::Read;

/// How many bytes the line of a key has.
const KEY_LINE: usize = 33;

/// Reads bytes from a word of hex, or none from `-`.
fn bytes_of_hex(alloc: Global, word: &str) -> Result<Vec<u8>, Refusal> {
    let digits = if word == "-" { "" } else { word };
    let mut bytes = vec![in alloc; 0; digits.len() / 2]?;
    match hex::decode_to_slice(digits, bytes.as_mut_slice()) {
        Ok(()) => Ok(bytes),
        Err(_) => Err(Refusal::BadHex),
    }
}

/// Reads all bytes of standard input.
fn bytes_of_input(rt: &HostRuntime) -> Result<Vec<u8>, Refusal> {
    let mut bytes = Vec::new(rt.alloc());
    match rt.reader().read_to_end(&mut bytes) {
        Ok(_) => Ok(bytes),
        Err(error) => {
            let name = String::from_str(rt.alloc(), "standard input")?;
            Err(Refusal::Other(name, error))
        }
    }
}

/// Reads all bytes of the file of a path.
fn bytes_of_file(rt: &HostRuntime, path: &str) -> Result<Vec<u8>, Refusal> {
    match fs::read(rt, path) {
        Ok(bytes) => Ok(bytes),
        Err(error) => Err(Refusal::Other(String::from_str(rt.alloc(), path)?, error)),
    }
}

/// Reads the bytes of a blob.
///
/// # Errors
///
/// - `Other` if standard input or a file can't be read.
/// - `BadHex` if a word isn't hex.
pub fn read_source(rt: &HostRuntime, source: Source<'_>) -> Result<Vec<u8>, Refusal> {
    match source {
        Source::Input => bytes_of_input(rt),
        Source::Path(path) => bytes_of_file(rt, path),
        Source::Hex(word) => bytes_of_hex(rt.alloc(), word),
    }
}

/// Stores a blob of these bytes, and of children that words name, and returns its key's line. Nothing is
/// committed.
///
/// # Errors
///
/// - `Unknown`, `Ambiguous` if a word names no blob, or several.
/// - `Blobs` as a call on the file fails. After each error the file has what it had.
pub fn put<B: Blobs>(
    alloc: Global,
    blobs: &mut B,
    bytes: Vec<u8>,
    children: &[&str],
) -> Result<String, Refusal> {
    let arcs = find_keys(alloc, blobs, children)?;
    // (with room for the answer, so that no blob is stored of which it is said that memory ran out)
    let mut text = String::with_capacity(alloc, KEY_LINE)?;
    let key = blobs.store(alloc, PagableData { bytes, arcs })?;
    writeln!(text, "{key}")?;
    Ok(text)
}

/// Makes a name stand for the key that a word names, and says so.
fn set_root<B: Blobs>(
    alloc: Global,
    blobs: &mut B,
    name: &str,
    word: &str,
) -> Result<String, Refusal> {
    if name.is_empty() {
        return Err(Refusal::EmptyName);
    }
    let key = find_key(alloc, blobs, word)?;
    let text = String::from_str(alloc, "set\n")?;
    blobs.set_root(alloc, name, Some(key))?;
    Ok(text)
}

/// Makes a name stand for no key, and says so.
fn drop_root<B: Blobs>(alloc: Global, blobs: &mut B, name: &str) -> Result<String, Refusal> {
    if blobs.root(name)?.is_none() {
        return Err(Refusal::NoRoot(String::from_str(alloc, name)?));
    }
    let text = String::from_str(alloc, "dropped\n")?;
    blobs.set_root(alloc, name, None)?;
    Ok(text)
}

/// Stores a blob or sets a name, and says what came of it. Nothing is committed.
///
/// # Errors
///
/// - `Input` if the bytes can't be read, `BadHex` if they aren't hex.
/// - `Unknown`, `Ambiguous` if a word names no blob, or several.
/// - `EmptyName`, `NoRoot` for a name that is empty, or stands for nothing.
/// - `Blobs` as a call on the file fails. After each error the file has what it had.
pub fn answer_change<B: Blobs>(
    rt: &HostRuntime,
    blobs: &mut B,
    change: Change<'_>,
) -> Result<String, Refusal> {
    match change {
        Change::Put(source, children) => {
            let bytes = read_source(rt, source)?;
            put(rt.alloc(), blobs, bytes, children.as_slice())
        }
        Change::SetRoot(name, word) => set_root(rt.alloc(), blobs, name, word),
        Change::DropRoot(name) => drop_root(rt.alloc(), blobs, name),
    }
}
