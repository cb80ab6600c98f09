//! A list of a file's blobs, without their bytes.

ghost use Rattle.blob_file.specs.File.{stored, tail_of};
ghost use Rattle.blob_file.specs.declared.listing.ListedBlob.{ListedBlob as FileEntry};
ghost use Rattle.pagable_file.specs.{Flaws.Stays, Listed.{ListsStored, entry_of}, Settled.is_honest_file};
ghost use Rattle.pagable_value_spec.specs.Stored.{IsMemoryOrFailure};
ghost use Rattle.std.specs.Prelude.{IfErr, IfOk, IsTrue, false, length, map, ◌≡◌, ◌≤◌};

use crate::fault::Fault;
use crate::file_blobs::FileBlobs;
use crate::stats::{Stats, count_failure, count_file_error};
use blob_file::listing::ListedBlob as FileEntry;
use pagable_codec::Env;
use pagable_flavors::{DataKey, Error};
use sqlite_disk::Disk;
use std::alloc::Global;

/// A blob of the file, without its bytes.
#[derive(Clone, Copy, Debug, PartialEq, Eq)]
pub struct ListedBlob {
    pub key: DataKey,
    /// How many bytes it has, without its child keys.
    pub bytes: u64,
    /// How many child keys it has.
    pub children: u64,
}

/// Makes entries with keys of the file's entries. Fails with `Storage` if a key is 0, and with
/// `OutOfMemory`.
fn list_entries(
    alloc: Global,
    stats: &mut Stats,
    entries: &[FileEntry],
) -> Result<Vec<ListedBlob>, Error>
    ensures all { IfOk result (λ all. all.items ≡ map entry_of entries.now) }
    ensures only { IfErr result (IsMemoryOrFailure stats.old.failures stats.new.failures) }
    ensures failures_never_fall { stats.old.failures ≤ stats.new.failures }
{
    let mut all = Vec::new(alloc);
    for entry in entries {
        let Some(key) = DataKey::new(entry.key) else {
            return Err(count_failure(stats, Fault::Damaged));
        };
        all.push(ListedBlob {
            key,
            bytes: u64::from(entry.bytes),
            children: u64::from(entry.children),
        })?;
    }
    Ok(all)
}

impl<E: Env, D: Disk + Drop> FileBlobs<E, D> {
    /// Lists each blob, flushed or waiting for a flush, once, and no other, in no particular order. It
    /// reads no blob, so one that is damaged is listed too.
    ///
    /// # Errors
    ///
    /// - `OutOfMemory`.
    /// - `Storage` only if the call raised the count of failures: a blob stands under the key 0.
    pub fn list(&mut self, alloc: Global) -> Result<Vec<ListedBlob>, Error>
        ensures each { self.old.closed ≡ false → IsTrue (is_honest_file D.Disk self.old.file)
            → IfOk result (λ all. ListsStored (stored D.Disk self.old.file) all.items) }
        ensures none { IsTrue self.old.closed → IfOk result (λ all. length all.items ≡ 0) }
        ensures only { IfErr result (IsMemoryOrFailure self.old.stats.failures self.new.stats.failures) }
        ensures failures_never_fall { self.old.stats.failures ≤ self.new.stats.failures }
        ensures file { self.new.file ≡ self.old.file }
        ensures open { self.new.closed ≡ self.old.closed }
    {
        if self.closed {
            return Ok(Vec::new(alloc));
        }
        match self.file.list(alloc) {
            Ok(entries) => list_entries(alloc, &mut self.stats, entries.as_slice()),
            Err(error) => Err(count_file_error(&mut self.stats, error)),
        }
    }

    /// Counts the bytes of the file behind the gate where its flushes end. They say nothing: a crash in
    /// a flush left them, or a flush that failed, or the file was cut there. A closed storage has none.
    ///
    /// # Errors
    ///
    /// - `Storage`; the call raised the count of failures then.
    pub fn count_tail(&mut self) -> Result<u64, Error>
        ensures counted { self.old.closed ≡ false → IsTrue (is_honest_file D.Disk self.new.file)
            → IfOk result (λ count. count ≡ tail_of (D.Disk.seen self.old.file.log.disk)) }
        ensures stays { Stays D.Disk self.old.file self.new.file }
        ensures only { IfErr result (IsMemoryOrFailure self.old.stats.failures self.new.stats.failures) }
        ensures failures_never_fall { self.old.stats.failures ≤ self.new.stats.failures }
        ensures open { self.new.closed ≡ self.old.closed }
    {
        if self.closed {
            return Ok(0);
        }
        match self.file.count_tail() {
            Ok(count) => Ok(count as u64),
            Err(error) => Err(count_file_error(&mut self.stats, error)),
        }
    }
}
