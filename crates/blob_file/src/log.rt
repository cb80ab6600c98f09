//! A file of batches, open for its one writer or for looking alone.

ghost use Rattle.blob_file.specs.{Appending.{AppendFails, IsOpen, MayWrite}, Format.{recovered}, Log.{IsLeft, new_batch}};
ghost use Rattle.blob_file.specs.{Opening.{KeepsBatches, KeepsBytesUnlessFailed, Looks, Opens, Refuses}, Rows.{AreWhole}};
ghost use Rattle.sqlite_wal.specs.Reads.{IsClean, OnlyReads};
ghost use Rattle.std.specs.Prelude.{IfErr, IfOk, IsTrue, List, OnErr, OnOk, false, length, ℕ, [], ◌++◌, ◌+◌, ◌∷◌, ◌≡◌};

use crate::file_error::FileError;
use crate::index::Index;
use crate::opening::{look_over, prepare};
use crate::sealing::seal;
use crate::staging::{make_plan, write_batch};
use sqlite_disk::Disk;
use std::alloc::Global;

/// A file of batches, open for its one writer or for looking alone.
#[derive(Drop)]
pub struct Log<D: Disk> {
    pub disk: D,
    /// The place behind the last batch. A shut gate stands there, if the log may write.
    pub gate: usize,
    /// No flush has failed once it began to open its gate.
    pub is_whole: bool,
    /// The file was opened for its one writer.
    pub may_write: bool,
}

impl<D: Disk> Log<D> {
    /// Opens a file, or makes one of a file that was never made, and returns what its batches say.
    /// What it finds is on the disk. A file that rested with its gate has no byte written.
    ///
    /// # Errors
    ///
    /// With the disk back: `OutOfMemory`, `NotBlobs` and `Damaged` leave each byte as it was, and
    /// `Failed` leaves a file that stands for the same batches.
    pub fn open(alloc: Global, disk: D) -> Result<(Log<D>, Index), (FileError, D)>
        requires usable { IsTrue (D.is_usable disk) }
        ensures opens { IfOk result (λ it. Opens D.Disk disk it.0.gate it.1 it.0.disk) }
        ensures open { IfOk result (λ it. IsOpen D.Disk it.0 × IsTrue it.0.is_whole × IsTrue it.0.may_write) }
        ensures moment { IfOk result (λ it. KeepsBatches D.Disk disk it.0.disk) }
        ensures moment_err { IfErr result (λ e. KeepsBatches D.Disk disk e.1) }
        ensures refused { IfErr result (λ e. Refuses (IsClean D.Disk e.1) (D.seen disk) (D.faults disk)
            (D.faults e.1) e.0) }
        ensures kept { IfErr result (λ e. KeepsBytesUnlessFailed D.Disk disk e.1 e.0) }
    {
        let mut disk = disk;
        let mut index = Index::new(alloc);
        match prepare(alloc, &mut disk, &mut index) {
            Ok(gate) => Ok((
                Log {
                    disk,
                    gate,
                    is_whole: true,
                    may_write: true,
                },
                index,
            )),
            Err(error) => Err((error, disk)),
        }
    }

    /// Opens a file for looking alone, and returns what its batches say. No byte is written then or
    /// later. The file may never have been made, or end in the middle of a batch, which doesn't count.
    ///
    /// # Errors
    ///
    /// With the disk back: `OutOfMemory`, `NotBlobs`, `Damaged`, `Failed`.
    pub fn look(alloc: Global, disk: D) -> Result<(Log<D>, Index), (FileError, D)>
        requires usable { IsTrue (D.is_usable disk) }
        ensures looks { IfOk result (λ it. Looks D.Disk disk it.0.gate it.1 it.0.disk) }
        ensures open { IfOk result (λ it. IsOpen D.Disk it.0 × IsTrue it.0.is_whole × (it.0.may_write ≡ false)) }
        ensures refused { IfErr result (λ e. Refuses (IsClean D.Disk e.1) (D.seen disk) (D.faults disk)
            (D.faults e.1) e.0) }
        ensures same { IfErr result (λ e. OnlyReads D.Disk disk e.1) }
    {
        let mut disk = disk;
        let mut index = Index::new(alloc);
        match look_over(alloc, &mut disk, &mut index) {
            Ok(gate) => Ok((
                Log {
                    disk,
                    gate,
                    is_whole: true,
                    may_write: false,
                },
                index,
            )),
            Err(error) => Err((error, disk)),
        }
    }

    /// Adds a batch with these bodies and rows. From `Ok` on, whatever a crash leaves has it.
    ///
    /// # Errors
    ///
    /// `OutOfMemory` and `TooLong` leave the file as it was. After `Failed` the batch may count or
    /// not; the log goes on if nothing but a write failed, and else answers `Shut` from then on. A log
    /// that was opened for looking alone answers `ReadOnly`.
    pub fn append(&mut self, alloc: Global, bodies: &[u8], rows: &[u8]) -> Result<(), FileError>
        requires open { IsOpen D.Disk self.old }
        requires formed { AreWhole (length bodies.now) rows.now }
        ensures open { IsOpen D.Disk self.new }
        ensures appended { OnOk result (IsClean D.Disk self.new.disk → recovered (D.seen self.new.disk)
            ≡ recovered (D.seen self.old.disk) ++ new_batch bodies.now rows.now ∷ []) }
        ensures whole { OnOk result (IsTrue self.new.is_whole) }
        ensures gate_stays { OnErr result (self.new.gate ≡ self.old.gate) }
        ensures gate { OnOk result (self.new.gate ≡ self.old.gate + 25 + length bodies.now + length rows.now) }

        // A crash in it leaves the old batches, or these and the new one.
        ensures any_moment { MayWrite self.old → IsClean D.Disk self.new.disk → (c : List ℕ)
            → D.may_leave self.new.disk c
            → IsLeft self.old.gate (D.seen self.old.disk) (new_batch bodies.now rows.now) c }

        ensures kept { OnErr result (IsTrue self.new.is_whole → IsClean D.Disk self.new.disk
            → recovered (D.seen self.new.disk) ≡ recovered (D.seen self.old.disk)) }
        ensures was_whole { IsTrue self.new.is_whole → IsTrue self.old.is_whole }
        ensures may { OnOk result (MayWrite self.old) }
        ensures looks { self.old.may_write ≡ false → self.new ≡ self.old }
        ensures same_may { self.new.may_write ≡ self.old.may_write }
        ensures refused { IfErr result (AppendFails self.old
            (self.old.gate + 25 + length bodies.now + length rows.now) (D.faults self.old.disk)
            (D.faults self.new.disk)) }
        ensures clean { IsClean D.Disk self.new.disk → IsClean D.Disk self.old.disk }
    {
        if !self.is_whole {
            return Err(FileError::Shut);
        }
        if !self.may_write {
            return Err(FileError::ReadOnly);
        }
        let plan = make_plan(alloc, self.gate, bodies.len(), rows)?;
        write_batch(&mut self.disk, self.gate, &plan.head, bodies, &plan.tail)?;
        self.is_whole = false;
        seal(&mut self.disk, self.gate)?;
        self.is_whole = true;
        self.gate = plan.end;
        Ok(())
    }
}
