//! The open of a file of blobs for looking alone, by its path.

ghost use Rattle.blob_file.specs.{File.{Same, content, content_of}, Format.recovered};
ghost use Rattle.sqlite_wal.specs.Reads.{IsClean};
ghost use Rattle.std.specs.Prelude.{IfOk, IsTrue, OnErr, OnOk, false, ◌≡◌};

use crate::file_blobs::FileBlobs;
use crate::open_error::OpenError;
use blob_file::file_error::FileError;
use blob_host::{HostDisk, HostFile, Start, Wary};
use pagable_codec::Env;
use sqlite_disk::{Disk, Modelled};
use std::alloc::Global;

/// Looks at the blobs of a disk that shows these bytes.
fn look_at<E: Env, D: Disk + Drop>(alloc: Global, disk: D) -> Result<FileBlobs<E, D>, OpenError>
    requires usable { IsTrue (D.Disk.is_usable disk) }
    ensures usable { IfOk result (λ blobs. blobs.closed ≡ false) }
    ensures looks { IfOk result (λ blobs. blobs.file.log.may_write ≡ false) }
    ensures found { (bytes : _) → D.Disk.seen disk ≡ bytes → IfOk result (λ blobs. IsClean D.Disk blobs.file.log.disk
        → Same (content_of (recovered bytes)) (content D.Disk blobs.file)) }
{
    match FileBlobs::look(alloc, disk) {
        Ok(blobs) => Ok(blobs),
        Err((error, _disk)) => Err(OpenError::from(error)),
    }
}

impl<E: Env, D: Disk + Drop> FileBlobs<E, D> {
    /// Looks at a file again, which was opened anew for that: has the blobs and names of the new disk
    /// in place of those of the old one. Does nothing if the storage was opened to write, since it has
    /// all that was flushed.
    ///
    /// # Errors
    ///
    /// `OutOfMemory`, `NotBlobs`, `Damaged` or `Failed`, as `look`: the storage stays as it was.
    pub fn look_again(&mut self, alloc: Global, disk: D) -> Result<(), FileError>
        requires usable { IsTrue (D.Disk.is_usable disk) }
        ensures found { self.old.file.log.may_write ≡ false → OnOk result (IsClean D.Disk self.new.file.log.disk
            → Same (content_of (recovered (D.Disk.seen disk))) (content D.Disk self.new.file)) }
        ensures writes { IsTrue self.old.file.log.may_write → self.new.file ≡ self.old.file }
        ensures same_may { self.new.file.log.may_write ≡ self.old.file.log.may_write }
        ensures kept { OnErr result (self.new.file ≡ self.old.file) }
        ensures open { self.new.closed ≡ self.old.closed }
        ensures stats { self.new.stats ≡ self.old.stats }
    {
        if self.file.log.may_write {
            return Ok(());
        }
        match FileBlobs::<E, D>::look(alloc, disk) {
            Ok(again) => {
                self.file = again.file;
                Ok(())
            }
            Err((error, _disk)) => Err(error),
        }
    }
}

impl<E: Env> FileBlobs<E, HostDisk<Wary>> {
    /// Opens the file at a path for looking alone: it takes no lock and writes no byte. The file may be
    /// one that may only be read, have several names, never have been made, end in the middle of a
    /// flush, and be written meanwhile. What was flushed by the open is shown.
    ///
    /// # Errors
    ///
    /// The causes in [`OpenError`]: `Missing`, `NotAFile`, `MayNotRead`, `FolderMissing`, `LinkLoop`,
    /// `NotBlobs`, `Damaged`, `OutOfMemory` or `Io`.
    pub fn read(rt: &HostRuntime, path: &str) -> Result<FileBlobs<E, HostDisk<Wary>>, OpenError>
        ensures usable { IfOk result (λ blobs. blobs.closed ≡ false) }
        ensures looks { IfOk result (λ blobs. blobs.file.log.may_write ≡ false) }
    {
        FileBlobs::read_from(rt, path, Wary)
    }

    /// Shows what was flushed into the file at the path since it was opened for looking, or since the
    /// last refresh. It opens the file anew, so it finds one that was put in its place. Does nothing if
    /// the storage was opened to write.
    ///
    /// # Errors
    ///
    /// - as `read`: the storage stays as it was.
    pub fn refresh(&mut self, rt: &HostRuntime, path: &str) -> Result<(), OpenError>
        ensures same_may { self.new.file.log.may_write ≡ self.old.file.log.may_write }
        ensures writes { IsTrue self.old.file.log.may_write → self.new.file ≡ self.old.file }
        ensures kept { OnErr result (self.new.file ≡ self.old.file) }
        ensures open { self.new.closed ≡ self.old.closed }
    {
        let found = blob_host::read_only(rt, path, Wary)?;
        match self.look_again(rt.alloc(), found.disk) {
            Ok(()) => Ok(()),
            Err(error) => Err(OpenError::from(error)),
        }
    }
}

impl<E: Env, S: Start> FileBlobs<E, HostDisk<S>> {
    /// Opens the file at a path for looking alone, as `read` does. `start` stands for what the file
    /// holds.
    ///
    /// # Errors
    ///
    /// - as `read`.
    pub fn read_from(
        rt: &HostRuntime,
        path: &str,
        start: S,
    ) -> Result<FileBlobs<E, HostDisk<S>>, OpenError>
        ensures usable { IfOk result (λ blobs. blobs.closed ≡ false) }
        ensures looks { IfOk result (λ blobs. blobs.file.log.may_write ≡ false) }
        ensures found { IfOk result (λ blobs. IsClean ⟦<Modelled<HostFile, S> as Disk>⟧ blobs.file.log.disk
            → Same (content_of (recovered S.Start.db)) (content ⟦<Modelled<HostFile, S> as Disk>⟧ blobs.file)) }
    {
        let found = blob_host::read_only(rt, path, start)?;
        look_at(rt.alloc(), found.disk)
    }
}
