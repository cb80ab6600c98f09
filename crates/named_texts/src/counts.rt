//! Counts of the roots of a storage.

use crate::text::TextEnv;
use crate::text_storage::TextStorage;
use pagable::{DataKey, Error, KeyHash, Roots};
use std::alloc::Global;
use std::collections::{BTreeSet, HashSet};
use std::fmt;
use std::sync::Wait;

/// The counts of a storage's roots, and of their blobs and bytes.
#[derive(Clone, Copy)]
pub struct Counts {
    /// The blobs of the roots' keys, each counted once.
    pub blobs: u64,
    /// The bytes of the blobs of the roots' keys.
    pub bytes: u64,
    /// The names that stand for keys.
    pub names: u64,
}

impl fmt::Display for Counts {
    fn fmt<W: fmt::Write>(&self, f: &mut fmt::Formatter<W>) -> fmt::Result {
        write!(
            f,
            "{} blobs, {} bytes, {} names",
            self.blobs, self.bytes, self.names
        )
    }
}

/// The counts so far, and the keys whose blobs were counted.
#[derive(Drop)]
struct RootCounter {
    counts: Counts,
    keys: HashSet<DataKey>,
}

impl RootCounter {
    /// Begins a count. It allocates nothing.
    fn new(alloc: Global) -> RootCounter {
        RootCounter {
            counts: Counts {
                blobs: 0,
                bytes: 0,
                names: 0,
            },
            keys: HashSet::new(alloc),
        }
    }

    /// Counts a name, and the blob of its key unless that was counted before.
    fn count_root<R: Wait, H: KeyHash, S: Roots<TextEnv<H>>>(
        &mut self,
        rt: &R,
        alloc: Global,
        storage: &TextStorage<H, S>,
        key: DataKey,
    ) -> Result<(), Error> {
        self.counts.names = self.counts.names.saturating_add(1);
        if !self.keys.insert(key)? {
            return Ok(());
        }
        let blob = storage.fetch_data_blocking(rt, alloc, key)?;
        self.counts.blobs = self.counts.blobs.saturating_add(1);
        self.counts.bytes = self.counts.bytes.saturating_add(blob.bytes.len() as u64);
        Ok(())
    }
}

/// Counts those of the names that stand for keys, and the blobs of these keys. A text refers to no
/// other blob.
///
/// # Errors
///
/// - `NoData` if a blob is missing.
/// - `OutOfMemory`, `Storage` as the storage fails.
pub fn count_roots<R: Wait, H: KeyHash, S: Roots<TextEnv<H>>>(
    rt: &R,
    alloc: Global,
    storage: &TextStorage<H, S>,
    names: &BTreeSet<String>,
) -> Result<Counts, Error> {
    let mut counting = RootCounter::new(alloc);
    for name in names {
        if let Some(key) = storage.root(rt, name.as_str())? {
            counting.count_root(rt, alloc, storage, key)?;
        }
    }
    Ok(counting.counts)
}
