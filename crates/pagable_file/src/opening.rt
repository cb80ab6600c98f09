//! The open of a file of blobs by its path.

ghost use Rattle.blob_file.specs.{File.{Same, content, content_of}, Format.recovered};
ghost use Rattle.sqlite_wal.specs.Reads.{IsClean};
ghost use Rattle.std.specs.Prelude.{IfOk, IsTrue, false, ◌≡◌};

use crate::file_blobs::FileBlobs;
use crate::open_error::OpenError;
use blob_host::{HostDisk, HostFile, Start, Wary};
use pagable_codec::Env;
use sqlite_disk::{Disk, Memory, Modelled};
use std::alloc::Global;

/// Opens the blobs of a disk that shows these bytes.
fn open_disk<E: Env, D: Disk + Drop>(alloc: Global, disk: D) -> Result<FileBlobs<E, D>, OpenError>
    requires usable { IsTrue (D.Disk.is_usable disk) }
    ensures usable { IfOk result (λ blobs. blobs.closed ≡ false) }
    ensures found { (bytes : _) → D.Disk.seen disk ≡ bytes → IfOk result (λ blobs. IsClean D.Disk blobs.file.log.disk
        → Same (content_of (recovered bytes)) (content D.Disk blobs.file)) }
{
    match FileBlobs::over(alloc, disk) {
        Ok(blobs) => Ok(blobs),
        Err((error, _disk)) => Err(OpenError::from(error)),
    }
}

/// A storage over a file of the operating system.
pub type FileOfBlobs<E> = FileBlobs<E, HostDisk<Wary>>;

impl<E: Env> FileBlobs<E, HostDisk<Wary>> {
    /// Opens the file at a path for its one writer, or makes it. The file is locked as long as the
    /// storage lives.
    ///
    /// # Errors
    ///
    /// The causes in [`OpenError`]: no file that was there has a byte changed, but where the disk
    /// failed.
    pub fn open(rt: &HostRuntime, path: &str) -> Result<FileOfBlobs<E>, OpenError>
        ensures usable { IfOk result (λ blobs. blobs.closed ≡ false) }
    {
        FileBlobs::open_from(rt, path, Wary)
    }
}

impl<E: Env, S: Start> FileBlobs<E, HostDisk<S>> {
    /// Opens the file at a path as `open` does. `start` stands for what the file holds.
    ///
    /// # Errors
    ///
    /// - as `open`.
    pub fn open_from(
        rt: &HostRuntime,
        path: &str,
        start: S,
    ) -> Result<FileBlobs<E, HostDisk<S>>, OpenError>
        ensures usable { IfOk result (λ blobs. blobs.closed ≡ false) }
        ensures found { IfOk result (λ blobs. IsClean ⟦<Modelled<HostFile, S> as Disk>⟧ blobs.file.log.disk
            → Same (content_of (recovered S.Start.db)) (content ⟦<Modelled<HostFile, S> as Disk>⟧ blobs.file)) }
    {
        let found = blob_host::open(rt, path, start)?;
        open_disk(rt.alloc(), found.disk)
    }
}

impl<E: Env> FileBlobs<E, Memory> {
    /// Makes a storage in memory, without blobs.
    ///
    /// # Errors
    ///
    /// - `OutOfMemory`.
    pub fn in_memory(alloc: Global) -> Result<FileBlobs<E, Memory>, OpenError>
        ensures usable { IfOk result (λ blobs. blobs.closed ≡ false) }
    {
        open_disk(alloc, Memory::new(alloc))
    }
}
