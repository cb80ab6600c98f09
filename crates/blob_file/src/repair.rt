//! The end of a file at an open: a shut gate behind the last batch.

ghost use Rattle.blob_file.specs.{Format.{recovered}, Log.{EndsAt, RestsAt}};
ghost use Rattle.sqlite_disk.specs.Disk.{CountsFault, Only};
ghost use Rattle.sqlite_wal.specs.{Gate.{IsShut}, Reads.{IsClean, OnlyReads}};
ghost use Rattle.std.specs.Prelude.{IfOk, IsTrue, List, MatchBool, OnOk, length, slice_index, ℕ, ◌<◌, ◌≡◌, ◌≤◌};

use sqlite_disk::Disk;
use std::io;

/// Returns whether the file, of `len` bytes, has a shut gate at `gate`.
fn has_shut_gate<D: Disk>(disk: &mut D, gate: usize, len: usize) -> io::Result<bool>
    requires usable { IsTrue (D.is_usable disk.old) }
    requires len { IsClean D.Disk disk.old → len ≡ length (D.seen disk.old) }
    ensures found { IfOk result (λ shut. IsClean D.Disk disk.new
        → MatchBool shut (IsShut (D.seen disk.old) gate 1)
        (gate < length (D.seen disk.old) → slice_index (D.seen disk.old) gate ≡ 1)) }
    ensures faults { CountsFault result (D.faults disk.old) (D.faults disk.new) }
    ensures same { OnlyReads D.Disk disk.old disk.new }
{
    if gate >= len {
        return Ok(false);
    }
    let mut byte = [0];
    disk.read_at(gate, &mut byte)?;
    Ok(byte[0] != 1)
}

/// Leaves a shut gate at `gate`, where the batches of the file end, and has it on the disk.
///
/// A shut gate that is there is left as it is, with no byte written: a write over it might be torn,
/// and open it before old bytes. The byte is written where the file ends, or where an open gate
/// stands before fewer bytes than its head says, as in a copy that was cut short.
///
/// # Errors
///
/// The disk's. The file stands for the same batches.
pub fn shut_gate<D: Disk>(disk: &mut D, gate: usize, len: usize) -> io::Result<()>
    requires usable { IsTrue (D.is_usable disk.old) }
    requires len { IsClean D.Disk disk.old → len ≡ length (D.seen disk.old) }
    requires ends { IsClean D.Disk disk.old → EndsAt gate (D.seen disk.old) }
    requires synced { Only (D.seen disk.old) (D.may_leave disk.old) }
    ensures rests { OnOk result (IsClean D.Disk disk.new → RestsAt gate (D.seen disk.new)) }
    ensures same { IsClean D.Disk disk.new → recovered (D.seen disk.new) ≡ recovered (D.seen disk.old) }
    ensures synced { OnOk result (Only (D.seen disk.new) (D.may_leave disk.new)) }
    ensures untouched { IsClean D.Disk disk.new → RestsAt gate (D.seen disk.old) → D.seen disk.new ≡ D.seen disk.old }
    ensures crash { IsClean D.Disk disk.new → (c : List ℕ) → D.may_leave disk.new c
        → recovered c ≡ recovered (D.seen disk.old) }
    ensures faults { CountsFault result (D.faults disk.old) (D.faults disk.new) }
    ensures clean { IsClean D.Disk disk.new → IsClean D.Disk disk.old }
    ensures usable { OnOk result (IsTrue (D.is_usable disk.new)) }
{
    if has_shut_gate(disk, gate, len)? {
        return Ok(());
    }
    disk.write_at(gate, &[0])?;
    disk.sync()
}
