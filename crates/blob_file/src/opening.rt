//! The open of a file: it is found or made, its batches are walked over, its end is repaired.

ghost use Rattle.blob_file.specs.Opening.{KeepsBatches, KeepsBytesUnlessFailed, Looks, Opens, Refuses};
ghost use Rattle.blob_file.specs.Format.{is_made};
ghost use Rattle.blob_file.specs.Rows.{Knows};
ghost use Rattle.sqlite_disk.specs.Disk.{Only};
ghost use Rattle.sqlite_wal.specs.Reads.{IsClean, OnlyReads};
ghost use Rattle.std.specs.Prelude.{IfErr, IfOk, IsTrue, false, length, [], ◌≡◌, ◌≤◌};

use crate::file_error::FileError;
use crate::front::{create, has_header, was_never_made};
use crate::index::Index;
use crate::repair::shut_gate;
use crate::scanning::find_end;
use sqlite_disk::Disk;
use std::alloc::Global;

/// Opens a file that has the header.
fn open_made<D: Disk>(
    alloc: Global,
    disk: &mut D,
    len: usize,
    index: &mut Index,
) -> Result<usize, FileError>
    requires usable { IsTrue (D.is_usable disk.old) }
    requires len { IsClean D.Disk disk.old → len ≡ length (D.seen disk.old) }
    requires made { IsClean D.Disk disk.old → IsTrue (is_made (D.seen disk.old)) }
    requires long { 16 ≤ len }
    requires empty { Knows index.old [] }
    requires synced { Only (D.seen disk.old) (D.may_leave disk.old) }
    ensures opens { IfOk result (λ gate. Opens D.Disk disk.old gate index.new disk.new) }
    ensures moment { KeepsBatches D.Disk disk.old disk.new }
    ensures refused { IfErr result (Refuses (IsClean D.Disk disk.new) (D.seen disk.old) (D.faults disk.old)
        (D.faults disk.new)) }
    ensures kept { IfErr result (KeepsBytesUnlessFailed D.Disk disk.old disk.new) }
{
    let gate = find_end(alloc, disk, len, index)?;
    shut_gate(disk, gate, len)?;
    Ok(gate)
}

/// Makes a file that hasn't the header, if it was never made, or not to the end.
fn open_unmade<D: Disk>(disk: &mut D, len: usize, index: &Index) -> Result<usize, FileError>
    requires usable { IsTrue (D.is_usable disk.old) }
    requires len { IsClean D.Disk disk.old → len ≡ length (D.seen disk.old) }
    requires other { IsClean D.Disk disk.old → is_made (D.seen disk.old) ≡ false }
    requires empty { Knows index.now [] }
    requires synced { Only (D.seen disk.old) (D.may_leave disk.old) }
    ensures opens { IfOk result (λ gate. Opens D.Disk disk.old gate index.now disk.new) }
    ensures moment { KeepsBatches D.Disk disk.old disk.new }
    ensures refused { IfErr result (Refuses (IsClean D.Disk disk.new) (D.seen disk.old) (D.faults disk.old)
        (D.faults disk.new)) }
    ensures kept { IfErr result (KeepsBytesUnlessFailed D.Disk disk.old disk.new) }
{
    let _index = index;
    if !was_never_made(disk, len)? {
        return Err(FileError::NotBlobs);
    }
    create(disk)?;
    Ok(16)
}

/// Opens a file, or makes one of a file that was never made, and returns where its shut gate is.
/// The index, empty at first, has what the file's batches say afterwards.
///
/// What is found is on the disk: the file is synced before it is read. A file that rested with its
/// gate has no byte written.
///
/// # Errors
///
/// `OutOfMemory`, `NotBlobs` and `Damaged` leave each byte as it was, and `Failed` leaves a file
/// that stands for the same batches.
pub fn prepare<D: Disk>(alloc: Global, disk: &mut D, index: &mut Index) -> Result<usize, FileError>
    requires usable { IsTrue (D.is_usable disk.old) }
    requires empty { Knows index.old [] }
    ensures opens { IfOk result (λ gate. Opens D.Disk disk.old gate index.new disk.new) }
    ensures moment { KeepsBatches D.Disk disk.old disk.new }
    ensures refused { IfErr result (Refuses (IsClean D.Disk disk.new) (D.seen disk.old) (D.faults disk.old)
        (D.faults disk.new)) }
    ensures kept { IfErr result (KeepsBytesUnlessFailed D.Disk disk.old disk.new) }
{
    disk.sync()?;
    let len = disk.len()?;
    if has_header(disk, len)? {
        open_made(alloc, disk, len, index)
    } else {
        open_unmade(disk, len, index)
    }
}

/// Looks a file over, and returns where its batches end: at 16 if it was never made. The index, empty
/// at first, has what they say afterwards. No byte is written, and nothing is synced.
///
/// What stands behind the last whole batch doesn't count: a copy may have been cut there, or its
/// writer be in the middle of a flush.
///
/// # Errors
///
/// `OutOfMemory`, `NotBlobs`, `Damaged`, `Failed`.
pub fn look_over<D: Disk>(
    alloc: Global,
    disk: &mut D,
    index: &mut Index,
) -> Result<usize, FileError>
    requires usable { IsTrue (D.is_usable disk.old) }
    requires empty { Knows index.old [] }
    ensures looks { IfOk result (λ gate. Looks D.Disk disk.old gate index.new disk.new) }
    ensures refused { IfErr result (Refuses (IsClean D.Disk disk.new) (D.seen disk.old) (D.faults disk.old)
        (D.faults disk.new)) }
    ensures same { OnlyReads D.Disk disk.old disk.new }
{
    let len = disk.len()?;
    if has_header(disk, len)? {
        return find_end(alloc, disk, len, index);
    }
    if !was_never_made(disk, len)? {
        return Err(FileError::NotBlobs);
    }
    Ok(16)
}
