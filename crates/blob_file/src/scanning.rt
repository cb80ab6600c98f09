//! The walk over the batches of a file, from its front up to the gate behind the last.

ghost use Rattle.blob_file.specs.Format.{AreSummed, IsSummed, is_made, open_head, recovered, rows_of};
ghost use Rattle.blob_file.specs.{Log.{EndsAt, IsSound}, Opening.{FailsFor, Refuses}, Rows.{AreFormed, Knows, Learns}};
ghost use Rattle.sqlite_disk.specs.Disk.{MoreFaults};
ghost use Rattle.sqlite_wal.specs.Format.{part};
ghost use Rattle.sqlite_wal.specs.Reads.{IsClean, OnlyReads};
ghost use Rattle.std.specs.Prelude.{IfOk, IfErr, IsTrue, OnOk, Some, drop, length, [], ◌+◌, ◌<◌, ◌^◌, ◌≡◌, ◌≤◌};

use crate::file_error::FileError;
use crate::head::{HEAD, Head, batch_at};
use crate::index::{Index, take_rows};
use sqlite_disk::{Disk, digest_of};
use std::alloc::Global;

/// Reads `len` bytes from `at` on.
///
/// # Errors
///
/// `OutOfMemory`, or `Failed` where the disk failed.
#[tactic(auto, using(crate::proofs::Scans::read_there))]
pub fn read_part<D: Disk>(
    alloc: Global,
    disk: &mut D,
    at: usize,
    len: usize,
) -> Result<Vec<u8>, FileError>
    requires usable { IsTrue (D.is_usable disk.old) }
    requires within { IsClean D.Disk disk.old → at + len ≤ length (D.seen disk.old) }
    ensures bytes { IfOk result (λ bytes. IsClean D.Disk disk.new → bytes.items ≡ part (D.seen disk.old) at len) }
    ensures refused { IfErr result (FailsFor ⊥ (MoreFaults (D.faults disk.old) (D.faults disk.new))) }
    ensures faults { OnOk result (D.faults disk.new ≡ D.faults disk.old) }
    ensures same { OnlyReads D.Disk disk.old disk.new }
{
    let mut bytes = vec![in alloc; 0; len]?;
    disk.read_at(at, &mut bytes)?;
    Ok(bytes)
}

/// Reads the rows of the batch at `at`, whose head this is, and tests their sum.
///
/// # Errors
///
/// `OutOfMemory`, `Damaged` if they have another sum, or `Failed` where the disk failed.
pub fn read_rows<D: Disk>(
    alloc: Global,
    disk: &mut D,
    at: usize,
    head: Head,
) -> Result<Vec<u8>, FileError>
    requires usable { IsTrue (D.is_usable disk.old) }
    requires head { IsClean D.Disk disk.old → open_head (drop at (D.seen disk.old)) ≡ Some head }
    requires within { IsClean D.Disk disk.old → at + 25 + head.bodies + head.rows ≤ length (D.seen disk.old) }
    requires fits { at + 25 + head.bodies + head.rows < 2 ^ 64 }
    ensures rows { IfOk result (λ rows. IsClean D.Disk disk.new → rows.items ≡ rows_of (drop at (D.seen disk.old))) }
    ensures summed { OnOk result (IsClean D.Disk disk.new → IsSummed (drop at (D.seen disk.old))) }
    ensures refused { IfErr result (FailsFor (IsClean D.Disk disk.new → ¬ IsSummed (drop at (D.seen disk.old)))
        (MoreFaults (D.faults disk.old) (D.faults disk.new))) }
    ensures faults { OnOk result (D.faults disk.new ≡ D.faults disk.old) }
    ensures same { OnlyReads D.Disk disk.old disk.new }
{
    let from = at + HEAD + head.bodies as usize;
    let rows = read_part(alloc, disk, from, head.rows as usize)?;
    if digest_of(0, &rows) != head.sum {
        return Err(FileError::Damaged);
    }
    Ok(rows)
}

/// Takes what the rows of the batch at `at` say, whose head this is, into the index. Tests their
/// sum, and that the bodies are as long as they say.
fn take_batch<D: Disk>(
    alloc: Global,
    disk: &mut D,
    at: usize,
    head: Head,
    index: &mut Index,
) -> Result<(), FileError>
    requires usable { IsTrue (D.is_usable disk.old) }
    requires head { IsClean D.Disk disk.old → open_head (drop at (D.seen disk.old)) ≡ Some head }
    requires within { IsClean D.Disk disk.old → at + 25 + head.bodies + head.rows ≤ length (D.seen disk.old) }
    requires fits { at + 25 + head.bodies + head.rows < 2 ^ 64 }
    ensures sound { OnOk result (IsClean D.Disk disk.new → IsSound (drop at (D.seen disk.old))) }
    ensures learns { OnOk result (IsClean D.Disk disk.new
        → Learns (at + 25) (rows_of (drop at (D.seen disk.old))) index.old index.new) }
    ensures refused { IfErr result (FailsFor (IsClean D.Disk disk.new → ¬ IsSound (drop at (D.seen disk.old)))
        (MoreFaults (D.faults disk.old) (D.faults disk.new))) }
    ensures faults { OnOk result (D.faults disk.new ≡ D.faults disk.old) }
    ensures same { OnlyReads D.Disk disk.old disk.new }
{
    let rows = read_rows(alloc, disk, at, head)?;
    take_rows(alloc, index, &rows, at + HEAD, head.bodies)
}

/// Finds the gate behind the last batch of a file of blobs of `len` bytes: the first place where
/// no batch stands that is open and whole. Tests each batch on the way, and takes what its rows say
/// into the index, which is empty at first.
pub fn find_end<D: Disk>(
    alloc: Global,
    disk: &mut D,
    len: usize,
    index: &mut Index,
) -> Result<usize, FileError>
    requires usable { IsTrue (D.is_usable disk.old) }
    requires len { IsClean D.Disk disk.old → len ≡ length (D.seen disk.old) }
    requires made { IsClean D.Disk disk.old → IsTrue (is_made (D.seen disk.old)) }
    requires long { 16 ≤ len }
    requires empty { Knows index.old [] }
    ensures ends { IfOk result (λ gate. IsClean D.Disk disk.new → EndsAt gate (D.seen disk.old)) }
    ensures within { IfOk result (λ gate. gate ≤ len) }
    ensures summed { OnOk result (IsClean D.Disk disk.new → AreSummed (recovered (D.seen disk.old))) }
    ensures formed { OnOk result (IsClean D.Disk disk.new → AreFormed (recovered (D.seen disk.old))) }
    ensures knows { OnOk result (IsClean D.Disk disk.new → Knows index.new (recovered (D.seen disk.old))) }
    ensures refused { IfErr result (Refuses (IsClean D.Disk disk.new) (D.seen disk.old) (D.faults disk.old)
        (D.faults disk.new)) }
    ensures faults { OnOk result (D.faults disk.new ≡ D.faults disk.old) }
    ensures same { OnlyReads D.Disk disk.old disk.new }
{
    let mut at = 16;
    while let Some(head) = batch_at(disk, at, len)? {
        take_batch(alloc, disk, at, head, index)?;
        at += HEAD + head.bodies as usize + head.rows as usize;
    }
    Ok(at)
}
