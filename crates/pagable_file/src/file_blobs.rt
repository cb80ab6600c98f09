//! A storage of blobs in a file.

ghost use Rattle.blob_file.specs.{
  Appending.MayWrite,
  File.{IsSettled, Same, SameBlobs, SameNames, content, content_of, flushed, found_body, held_blobs, named, stored},
  Format.recovered,
  Opening.{KeepsBatches, KeepsBytesUnlessFailed, Refuses},
};
ghost use Rattle.pagable_core.specs.Data.{blob_of};
ghost use Rattle.pagable_file.specs.{
  Bodies.{CanBeKey, RefusesOther, RefusesRead, blob_if_some, blobs_of, body_of, roots_unless, unless},
  Settled.{is_honest_file, settled_prop},
};
ghost use Rattle.pagable_value_spec.specs.{Blob.key_of, Stored.IsMemoryOrFailure};
ghost use Rattle.sqlite_wal.specs.Reads.{IsClean, OnlyReads};
ghost use Rattle.std.specs.{
  Arc.arc_value,
  List.AllByRecursion,
  Map.update,
  Prelude.{IfErr, IfOk, IsTrue, List, MatchResult, OnErr, OnOk, Some, false, if◌then◌else◌, is_some, nat_eq, not, ℕ},
  Prelude.{◌&&◌, ◌↔◌, ◌≡◌, ◌≤◌, ◌⊎◌},
};

use crate::bodies::{read_blob, write_body};
use crate::fault::Fault;
use crate::stats::{Stats, count_failure, count_fetch, count_file_error};
use blob_file::file::{BlobFile, FoundBlob};
use blob_file::file_error::FileError;
use futures::task::{Context, Poll};
use pagable_codec::Env;
use pagable_core::{PagableData, PagableStorage};
use pagable_flavors::{DataKey, Error};
use sqlite_disk::Disk;
use std::alloc::Global;
use std::marker::PhantomData;
use std::sync::Arc;

/// A storage of blobs over one file that only grows. It holds new blobs back in memory until a
/// flush writes them all at once. One that was opened for looking alone takes no new blob and sets no
/// name.
#[derive(Drop)]
pub struct FileBlobs<E: Env, D: Disk + Drop> {
    pub(crate) file: BlobFile<D>,
    pub(crate) closed: bool,
    pub(crate) stats: Stats,
    alloc: Global,
    environment: PhantomData<E>,
    ghost settled: { IsSettled D.Disk file } by { settled_prop D.Disk file },
}

impl<E: Env, D: Disk + Drop> FileBlobs<E, D> {
    /// Opens the blobs of a file, or makes one of a file that was never made. What it finds is on
    /// the disk.
    ///
    /// # Errors
    ///
    /// With the disk back: `OutOfMemory`, `NotBlobs` and `Damaged` leave each byte as it was, and
    /// `Failed` leaves a file that stands for the same blobs.
    pub fn over(alloc: Global, disk: D) -> Result<FileBlobs<E, D>, (FileError, D)>
        requires usable { IsTrue (D.Disk.is_usable disk) }
        ensures open { IfOk result (λ blobs. blobs.closed ≡ false) }
        ensures found { IfOk result (λ blobs. IsClean D.Disk blobs.file.log.disk
            → Same (content_of (recovered (D.Disk.seen disk))) (content D.Disk blobs.file)) }
        ensures whole { IfOk result (λ blobs. MayWrite blobs.file.log) }
        ensures moment { IfOk result (λ blobs. KeepsBatches D.Disk disk blobs.file.log.disk) }
        ensures moment_err { IfErr result (λ e. KeepsBatches D.Disk disk e.1) }
        ensures refused { IfErr result (λ e. Refuses (IsClean D.Disk e.1) (D.Disk.seen disk) (D.Disk.faults disk) (D.Disk.faults e.1) e.0) }
        ensures kept { IfErr result (λ e. KeepsBytesUnlessFailed D.Disk disk e.1 e.0) }
    {
        match BlobFile::open(alloc, disk) {
            Ok(file) => Ok(FileBlobs::of_file(alloc, file)),
            Err(refused) => Err(refused),
        }
    }

    /// Opens the blobs of a file for looking alone: no byte is written then or later. The file may
    /// never have been made, or end in the middle of a flush, which doesn't count.
    ///
    /// # Errors
    ///
    /// With the disk back: `OutOfMemory`, `NotBlobs`, `Damaged` or `Failed`.
    pub fn look(alloc: Global, disk: D) -> Result<FileBlobs<E, D>, (FileError, D)>
        requires usable { IsTrue (D.Disk.is_usable disk) }
        ensures open { IfOk result (λ blobs. blobs.closed ≡ false) }
        ensures found { IfOk result (λ blobs. IsClean D.Disk blobs.file.log.disk
            → Same (content_of (recovered (D.Disk.seen disk))) (content D.Disk blobs.file)) }
        ensures whole { IfOk result (λ blobs. IsTrue blobs.file.log.is_whole × (blobs.file.log.may_write ≡ false)) }
        ensures refused { IfErr result (λ e. Refuses (IsClean D.Disk e.1) (D.Disk.seen disk) (D.Disk.faults disk)
            (D.Disk.faults e.1) e.0) }
        ensures same { MatchResult result (λ blobs. OnlyReads D.Disk disk blobs.file.log.disk)
            (λ e. OnlyReads D.Disk disk e.1) }
    {
        match BlobFile::look(alloc, disk) {
            Ok(file) => Ok(FileBlobs::of_file(alloc, file)),
            Err(refused) => Err(refused),
        }
    }

    /// Makes a storage over an open file.
    fn of_file(alloc: Global, file: BlobFile<D>) -> FileBlobs<E, D>
        requires settled { IsSettled D.Disk file }
        ensures file { result.file ≡ file }
        ensures open { result.closed ≡ false }
    {
        FileBlobs {
            file,
            closed: false,
            stats: Stats::NONE,
            alloc,
            environment: PhantomData,
        }
    }

    /// Returns the disk, and drops what waits for a flush.
    pub fn into_disk(self) -> D
        ensures { result ≡ self.file.log.disk }
    {
        self.file.log.disk
    }

    /// Returns what was asked of the storage since it was opened.
    pub fn stats(&self) -> Stats
        ensures { result ≡ self.now.stats }
    {
        self.stats
    }

    /// Has all blobs that were stored and all names that were set since the last commit on the disk,
    /// or none of them.
    ///
    /// # Errors
    ///
    /// All of them then wait as before. The file goes on if nothing but a write failed, and else it is
    /// shut until it is opened anew.
    ///
    /// - `OutOfMemory`.
    /// - `Storage` only if the call raised the count of failures.
    pub fn commit(&mut self) -> Result<(), Error>
        ensures flushed { IsTrue (is_honest_file D.Disk self.new.file)
            → OnOk result (Same (content D.Disk self.old.file) (flushed D.Disk self.new.file)) }
        ensures same { IsTrue (is_honest_file D.Disk self.new.file)
            → Same (content D.Disk self.old.file) (content D.Disk self.new.file) }
        // A crash in it or after it leaves what was flushed before, or that and all that waited.
        ensures any_moment { MayWrite self.old.file.log → IsClean D.Disk self.new.file.log.disk → (c : List ℕ)
            → D.Disk.may_leave self.new.file.log.disk c
            → Same (flushed D.Disk self.old.file) (content_of (recovered c))
            ⊎ Same (content D.Disk self.old.file) (content_of (recovered c)) }
        ensures kept { IsTrue (is_honest_file D.Disk self.new.file)
            → OnErr result (Same (flushed D.Disk self.old.file) (flushed D.Disk self.new.file)) }
        ensures whole { OnOk result (IsTrue self.old.file.log.is_whole → IsTrue self.new.file.log.is_whole) }
        ensures sure { IsTrue (is_honest_file D.Disk self.new.file) → IsTrue (is_honest_file D.Disk self.old.file) }
        ensures only { IfErr result (IsMemoryOrFailure self.old.stats.failures self.new.stats.failures) }
        ensures failures_never_fall { self.old.stats.failures ≤ self.new.stats.failures }
        ensures open { self.new.closed ≡ self.old.closed }
    {
        match self.file.flush(self.alloc) {
            Ok(()) => {
                self.stats.flushes = self.stats.flushes.saturating_add(1);
                Ok(())
            }
            Err(error) => Err(count_file_error(&mut self.stats, error)),
        }
    }

    /// Returns how many blobs wait for a flush, by a walk over all blobs in memory.
    pub fn pending(&self) -> usize
        ensures { result ≡ (if self.now.closed then 0 else held_blobs self.now.file) }
    {
        if self.closed {
            return 0;
        }
        self.file.count_held()
    }

    /// Returns whether a blob is stored under a key, without a call of the disk. It doesn't test the
    /// blob's key.
    pub fn contains(&self, key: DataKey) -> bool
        ensures { result ≡ (not self.now.closed && is_some (stored D.Disk self.now.file key)) }
    {
        !self.closed && self.file.find(key.get()).is_some()
    }
}

impl<E: Env, D: Disk + Drop> PagableStorage<E> for FileBlobs<E, D> {
    ghost stored = { λ s. unless s.closed (blobs_of (stored D.Disk s.file)) };

    ghost flushed = { λ s. unless s.closed (blobs_of (flushed D.Disk s.file).blob) };

    ghost is_closed = { λ s. s.closed };

    ghost is_honest = { λ s. is_honest_file D.Disk s.file };

    ghost failed = { λ s. s.stats.failures };

    ghost roots = { λ s. roots_unless s.closed (named s.file) };

    ghost roots_flushed = { λ s. roots_unless s.closed (flushed D.Disk s.file).key };

    #[tactic(auto, using(crate::proofs::Stored::fetching))]
    fn fetch_data_blocking(
        &mut self,
        alloc: Global,
        key: DataKey,
    ) -> Result<Arc<PagableData>, Error> {
        if self.closed {
            return Err(Error::NoData(key));
        }
        match self.file.fetch(alloc, key.get()) {
            Ok(Some(found)) => test_fetched::<E>(alloc, &mut self.stats, key, &found),
            Ok(None) => Err(Error::NoData(key)),
            Err(error) => Err(count_file_error(&mut self.stats, error)),
        }
    }

    fn fetch_data(
        &mut self,
        _cx: &mut Context<'_>,
        alloc: Global,
        key: DataKey,
    ) -> Poll<Result<Arc<PagableData>, Error>> {
        Poll::Ready(self.fetch_data_blocking(alloc, key))
    }

    #[tactic(auto, using(crate::proofs::Stored::storing))]
    fn store_data(&mut self, alloc: Global, blob: PagableData) -> Result<DataKey, Error> {
        if self.closed {
            return Err(Error::Closed);
        }
        let key = blob.compute_key::<E::Hash>();
        match self.file.fetch(alloc, key.get()) {
            Ok(Some(found)) => {
                test_same(alloc, &mut self.stats, &found, &blob)?;
                Ok(key)
            }
            Ok(None) => {
                add_blob(alloc, &mut self.file, &mut self.stats, key, &blob)?;
                Ok(key)
            }
            Err(error) => Err(count_file_error(&mut self.stats, error)),
        }
    }

    #[tactic(auto, using(crate::proofs::Stored::flushing))]
    fn flush(&mut self) -> Result<(), Error> {
        if self.closed {
            return Ok(());
        }
        self.commit()
    }

    fn close(&mut self) {
        self.closed = true;
    }

    fn has_closed(&self) -> bool {
        self.closed
    }

    fn failures(&self) -> u64 {
        self.stats.failures
    }
}

/// Returns the blob whose body was found under `key` in a new `Arc`, and counts the fetch. Fails
/// with `Storage` if the body is damaged or its blob has another key, and with `OutOfMemory`.
fn test_fetched<E: Env>(
    alloc: Global,
    stats: &mut Stats,
    key: DataKey,
    found: &FoundBlob,
) -> Result<Arc<PagableData>, Error>
    ensures ok { IfOk result (λ blob. blob_if_some (found_body (Some found.now)) ≡ Some (blob_of (arc_value blob))) }
    ensures named { IfOk result (λ blob. key_of E.Hash.digest (blob_of (arc_value blob)) ≡ key) }
    ensures only { IfErr result (RefusesRead stats.old.failures stats.new.failures) }
    ensures failures_never_fall { stats.old.failures ≤ stats.new.failures }
{
    let Some(blob) = read_blob(alloc, found)? else {
        return Err(count_failure(stats, Fault::Damaged));
    };
    if blob.compute_key::<E::Hash>() != key {
        return Err(count_failure(stats, Fault::Damaged));
    }
    count_fetch(stats, blob.bytes.len());
    Ok(Arc::new(alloc, blob)?)
}

/// Tests that the blob whose body was found is `blob`, and counts it as stored already. Fails with
/// `KeyTaken` if it is another, with `Storage` if the body is damaged, and with `OutOfMemory`.
fn test_same(
    alloc: Global,
    stats: &mut Stats,
    found: &FoundBlob,
    blob: &PagableData,
) -> Result<(), Error>
    ensures ok { OnOk result (blob_if_some (found_body (Some found.now)) ≡ Some (blob_of blob.now)) }
    ensures only { IfErr result (RefusesOther (blob_if_some (found_body (Some found.now))) (blob_of blob.now)
        stats.old.failures stats.new.failures) }
    ensures failures_never_fall { stats.old.failures ≤ stats.new.failures }
{
    let Some(there) = read_blob(alloc, found)? else {
        return Err(count_failure(stats, Fault::Damaged));
    };
    if !is_same(&there, blob) {
        return Err(Error::KeyTaken);
    }
    stats.already_stored = stats.already_stored.saturating_add(1);
    Ok(())
}

/// Returns whether two blobs have the same bytes and the same child keys.
fn is_same(one: &PagableData, other: &PagableData) -> bool
    ensures { IsTrue result ↔ (blob_of one.now ≡ blob_of other.now) }
{
    one == other
}

/// Holds a blob under its key until the next flush, and counts it as new. Fails with `OutOfMemory`,
/// and with `Storage` if it is too long or the file is shut.
fn add_blob<D: Disk + Drop>(
    alloc: Global,
    file: &mut BlobFile<D>,
    stats: &mut Stats,
    key: DataKey,
    blob: &PagableData,
) -> Result<(), Error>
    requires settled { IsSettled D.Disk file.old }
    ensures settled { IsSettled D.Disk file.new }
    ensures added { OnOk result (IsClean D.Disk file.new.log.disk → (q : _) → stored D.Disk file.new q
        ≡ update nat_eq (stored D.Disk file.old) key (Some (body_of (blob_of blob.now))) q) }
    ensures fit { OnOk result (AllByRecursion CanBeKey (blob_of blob.now).keys) }
    ensures kept { OnErr result (SameBlobs (stored D.Disk file.old) (stored D.Disk file.new)) }
    ensures names { SameNames (named file.old) (named file.new) }
    ensures log { file.new.log ≡ file.old.log }
    ensures only { IfErr result (RefusesRead stats.old.failures stats.new.failures) }
    ensures failures_never_fall { stats.old.failures ≤ stats.new.failures }
{
    let Ok(children) = u32::try_from(blob.arcs.len()) else {
        return Err(count_failure(stats, Fault::TooLong));
    };
    let body = write_body(alloc, blob)?;
    match file.add(key.get(), children, body.as_slice()) {
        Ok(()) => {
            stats.stores = stats.stores.saturating_add(1);
            Ok(())
        }
        Err(error) => Err(count_file_error(stats, error)),
    }
}
