//! What holds across a crash, as contracts of functions that go through one.

ghost use Rattle.blob_file.specs.declared.file_error.FileError.TheVariants.{Damaged, NotBlobs};
ghost use Rattle.blob_file.specs.Appending.{MayWrite};
ghost use Rattle.blob_file.specs.File.{IsSettled, NamesStand, Same, content, flushed};
ghost use Rattle.sqlite_wal.specs.Reads.{IsClean};
ghost use Rattle.std.specs.Prelude.{IfErr, IfOk, IsTrue, ◌≢◌, ◌⊎◌};

use crate::file::BlobFile;
use crate::file_error::FileError;
use sqlite_disk::Crash;
use std::alloc::Global;

/// Lets the machine crash between two calls, and opens the file anew: it has the blobs and the names
/// of the last flush.
pub fn crash_and_open<D: Crash>(
    alloc: Global,
    file: BlobFile<D>,
) -> Result<BlobFile<D>, (FileError, D)>
    requires settled { IsSettled D.Disk file }
    requires open { MayWrite file.log }
    ensures found { IfOk result (λ again. IsClean D.Disk again.log.disk
        → Same (flushed D.Disk file) (content D.Disk again)) }
    ensures not_refused { IfErr result (λ e. IsClean D.Disk e.1 → (e.0 ≢ NotBlobs) × (e.0 ≢ Damaged)) }
{
    let BlobFile { log, .. } = file;
    let mut disk = log.disk;
    disk.crash();
    BlobFile::open(alloc, disk)
}

/// Flushes a file over a disk that may stop at any call, lets the machine crash, and opens the file
/// anew. Returns whether the flush was acknowledged, and the open.
///
/// The open finds the blobs and the names of the last flush, or those of this one, all of them, and
/// those of this one if it was acknowledged. It never takes what the crash left for a file of
/// something else, or for a damaged one.
pub fn flush_crash_and_open<D: Crash>(
    alloc: Global,
    file: BlobFile<D>,
) -> (bool, Result<BlobFile<D>, (FileError, D)>)
    requires settled { IsSettled D.Disk file }
    requires open { MayWrite file.log }
    ensures acknowledged { IsTrue result.0 → IfOk result.1 (λ again. IsClean D.Disk again.log.disk
        → Same (content D.Disk file) (content D.Disk again)) }
    ensures all_or_none { IfOk result.1 (λ again. IsClean D.Disk again.log.disk
        → Same (flushed D.Disk file) (content D.Disk again) ⊎ Same (content D.Disk file) (content D.Disk again)) }
    ensures not_refused { IfErr result.1 (λ e. IsClean D.Disk e.1 → (e.0 ≢ NotBlobs) × (e.0 ≢ Damaged)) }

    // No name is found without its blob.
    ensures stand { NamesStand (flushed D.Disk file) → NamesStand (content D.Disk file)
        → IfOk result.1 (λ again. IsClean D.Disk again.log.disk → NamesStand (content D.Disk again)) }
{
    let mut file = file;
    let acknowledged = file.flush(alloc).is_ok();
    let BlobFile { log, .. } = file;
    let mut disk = log.disk;
    disk.crash();
    (acknowledged, BlobFile::open(alloc, disk))
}
