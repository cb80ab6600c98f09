//! A cache of what commands wrote, in a file of blobs: each entry is the blob of a root whose name is
//! made of a digest of the caller's.

ghost use Rattle.blobctl.specs.{
  Entries.{IsSomeOf, entry_at, entry_in, name_of_digest},
  Shown.Stays,
};
ghost use Rattle.pagable_core.specs.Data.{blob_of};
ghost use Rattle.std.specs.{
  Arc.arc_value,
  Prelude.{IfOk, IsTrue, OnOk, Some, ◌≡◌},
  String.string_bytes,
};

use crate::blobs::Blobs;
use crate::command::Format;
use crate::entry::{EntryFacts, read_entry, write_entry};
use crate::json::entries_as_json;
use crate::refusal::Refusal;
use pagable_core::PagableData;
use pagable_flavors::Error;
use std::alloc::Global;
use std::sync::Arc;

/// The names of a cache's roots begin with this, and end in the digest.
const BEFORE: &str = "cache/";

/// An entry of a cache.
#[derive(Drop)]
struct CacheEntry {
    name: String,
    time: u64,
    /// How many bytes its content has.
    size: u64,
}

/// Returns the name of a digest's root.
///
/// # Errors
///
/// - `BadDigest` if it isn't 1 to 128 hex digits.
/// - `Blobs` for want of memory.
fn name_of(alloc: Global, digest: &str) -> Result<String, Refusal>
    ensures name { IfOk result (λ name. string_bytes name ≡ name_of_digest digest.now) }
{
    let is_hex = digest.bytes().all(|byte| byte.is_ascii_hexdigit());
    if digest.is_empty() || digest.len() > 128 || !is_hex {
        return Err(Refusal::BadDigest);
    }
    let mut name = String::from_str(alloc, BEFORE)?;
    name.push_str(digest.to_ascii_lowercase(alloc)?.as_str())?;
    Ok(name)
}

/// Finds the blob of a digest's entry, which is one of the cache's.
///
/// # Errors
///
/// - `Miss` if there is none.
/// - `BadDigest` if the digest isn't 1 to 128 hex digits.
/// - `Blobs` as a call on the file fails.
pub fn find_entry<B: Blobs>(
    alloc: Global,
    blobs: &mut B,
    digest: &str,
) -> Result<Arc<PagableData>, Refusal>
    ensures stays { Stays (B.view blobs.old) (B.view blobs.new) }
    ensures got { IsTrue (B.view blobs.new).is_honest → IfOk result
        (λ blob. IsSomeOf (entry_at (B.view blobs.old) digest.now) (entry_in (blob_of (arc_value blob)).bytes)) }
{
    let name = name_of(alloc, digest)?;
    let Some(key) = blobs.root(name.as_str())? else {
        return Err(Refusal::Miss);
    };
    let blob = blobs.fetch(alloc, key)?;
    if read_entry(blob.bytes.as_slice()).is_none() {
        return Err(Refusal::Miss);
    }
    Ok(blob)
}

/// Puts an entry under a digest, in place of the one that is there. Nothing is committed.
///
/// # Errors
///
/// - `BadDigest` if the digest isn't 1 to 128 hex digits.
/// - `Blobs` as a call on the file fails: the entry that is there stays.
pub fn put_entry<B: Blobs>(
    alloc: Global,
    blobs: &mut B,
    digest: &str,
    facts: EntryFacts,
    content: &[u8],
) -> Result<(), Refusal>
    ensures put { IsTrue (B.view blobs.new).is_honest
        → OnOk result (entry_at (B.view blobs.new) digest.now ≡ Some (facts, content.now)) }
{
    let name = name_of(alloc, digest)?;
    let bytes = write_entry(alloc, facts, content)?;
    let arcs = Vec::new(alloc);
    let key = blobs.store(alloc, PagableData { bytes, arcs })?;
    blobs.set_root(alloc, name.as_str(), Some(key))?;
    Ok(())
}

/// Reads the facts of the entry of a root, or returns None if it is none of the cache's.
fn entry_of<B: Blobs>(
    alloc: Global,
    blobs: &mut B,
    name: String,
) -> Result<Option<CacheEntry>, Error>
    ensures stays { Stays (B.view blobs.old) (B.view blobs.new) }
{
    if !name.as_str().starts_with(BEFORE) {
        return Ok(None);
    }
    let Some(key) = blobs.root(name.as_str())? else {
        return Ok(None);
    };
    let blob = blobs.fetch(alloc, key)?;
    match read_entry(blob.bytes.as_slice()) {
        Some((facts, content)) => Ok(Some(CacheEntry {
            name,
            time: facts.time,
            size: content.len() as u64,
        })),
        None => Ok(None),
    }
}

/// Lists the entries of a cache, the oldest first.
fn list_entries<B: Blobs>(alloc: Global, blobs: &mut B) -> Result<Vec<CacheEntry>, Error>
    ensures stays { Stays (B.view blobs.old) (B.view blobs.new) }
{
    let mut entries = Vec::new(alloc);
    for name in blobs.root_names(alloc)? {
        if let Some(entry) = entry_of(alloc, blobs, name)? {
            entries.push(entry)?;
        }
    }
    entries.sort_by_key(|entry| entry.time)?;
    Ok(entries)
}

/// Adds up the sizes of entries.
fn total(entries: &[CacheEntry]) -> u64 {
    entries
        .iter()
        .fold(0, |sum: u64, entry| sum.saturating_add(entry.size))
}

/// Counts the entries of a cache, and the bytes of their contents.
///
/// # Errors
///
/// - as a call on the file fails.
pub fn count_entries<B: Blobs>(
    alloc: Global,
    blobs: &mut B,
    format: Format,
) -> Result<String, Error>
    ensures stays { Stays (B.view blobs.old) (B.view blobs.new) }
{
    let entries = list_entries(alloc, blobs)?;
    let (count, bytes) = (entries.len(), total(entries.as_slice()));
    match format {
        Format::Lines => Ok(format!(in alloc; "{count} entries, {bytes} bytes\n")?),
        Format::Json => Ok(entries_as_json(alloc, count, bytes)?),
    }
}

/// Drops the entries that were put first, until the contents of the others have at most `most` bytes.
/// Returns how many it dropped, and how many stay. Nothing is committed.
///
/// # Errors
///
/// - as a call on the file fails: some entries may have been dropped.
pub fn drop_oldest<B: Blobs>(
    alloc: Global,
    blobs: &mut B,
    most: u64,
) -> Result<(usize, usize), Error> {
    let entries = list_entries(alloc, blobs)?;
    let mut left = total(entries.as_slice());
    let mut dropped: usize = 0;
    for entry in &entries {
        if left <= most {
            break;
        }
        blobs.set_root(alloc, entry.name.as_str(), None)?;
        left = left.saturating_sub(entry.size);
        dropped = dropped.saturating_add(1);
    }
    Ok((dropped, entries.len().saturating_sub(dropped)))
}
