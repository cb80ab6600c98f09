//! The entries of a cache: what a command wrote, with its status and the time of the put, as the bytes
//! of a blob.

ghost use Rattle.blobctl.specs.Entries.{entry_in};
ghost use Rattle.std.specs.Prelude.{IfOk, Some, option_map, ◌≡◌};

use std::alloc::{AllocError, Global};

/// How many bytes stand in front of the content: a status of 4 and a time of 8, low bytes first.
const FRONT: usize = 12;

/// The status and the time that stand in front of an entry's content.
#[derive(Clone, Copy, Debug, PartialEq, Eq)]
pub struct EntryFacts {
    /// The status that the caller's command ended with.
    pub status: u32,
    /// When the entry was put, in nanoseconds from 1970 on.
    pub time: u64,
}

/// Writes an entry as the bytes of a blob.
///
/// # Errors
///
/// - if memory is refused.
pub fn write_entry(alloc: Global, facts: EntryFacts, content: &[u8]) -> Result<Vec<u8>, AllocError>
    ensures { IfOk result (λ bytes. entry_in bytes.items ≡ Some (facts, content.now)) }
{
    let mut bytes = Vec::new(alloc);
    bytes.extend_from_slice(&facts.status.to_le_bytes())?;
    bytes.extend_from_slice(&facts.time.to_le_bytes())?;
    bytes.extend_from_slice(content)?;
    Ok(bytes)
}

/// Reads the facts of an entry and its content of the bytes of a blob, or returns None if these are too
/// few.
#[tactic(auto, unfolding(crate::specs::Entries::entry_in))]
pub fn read_entry(bytes: &[u8]) -> Option<(EntryFacts, &[u8])>
    ensures { option_map (λ it. (it.0, it.1.now)) result ≡ entry_in bytes.now }
{
    if bytes.len() < FRONT {
        return None;
    }
    let mut status = [0; 4];
    status.copy_from_slice(&bytes[..4]);
    let mut time = [0; 8];
    time.copy_from_slice(&bytes[4..FRONT]);
    let facts = EntryFacts {
        status: u32::from_le_bytes(status),
        time: u64::from_le_bytes(time),
    };
    Some((facts, &bytes[FRONT..]))
}
