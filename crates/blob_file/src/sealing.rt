//! The end of a flush: three calls that make a batch count, whole or not at all, with no checksum.

ghost use Rattle.blob_file.specs.Format.{recovered, size_of};
ghost use Rattle.blob_file.specs.Log.{IsOldOrNew, IsReady, IsStaged, SameBelow, batch_behind};
ghost use Rattle.sqlite_disk.specs.Disk.{CountsFault};
ghost use Rattle.sqlite_wal.specs.Reads.{IsClean};
ghost use Rattle.std.specs.Prelude.{IsTrue, List, OnOk, drop, ℕ, [], ◌++◌, ◌+◌, ◌∷◌, ◌≡◌};

use sqlite_disk::Disk;
use std::io;

/// Makes the batch count that stands behind the shut gate, with the next shut gate behind it: has
/// it on the disk, opens the gate, and has that on the disk.
///
/// # Errors
///
/// The disk's. The batch may then count or not, and the file has to be opened anew.
pub fn seal<D: Disk>(disk: &mut D, gate: usize) -> io::Result<()>
    requires usable { IsTrue (D.is_usable disk.old) }
    requires ready { IsClean D.Disk disk.old → IsReady D.Disk gate disk.old }
    requires staged { IsClean D.Disk disk.old → IsStaged gate (D.seen disk.old) }

    // At each exit, whatever a crash leaves stands for the batches from before, or for these and this one.
    ensures any_moment { IsClean D.Disk disk.new → (c : List ℕ) → D.may_leave disk.new c
        → IsOldOrNew (recovered (D.seen disk.old)) (batch_behind gate (D.seen disk.old)) c }
    ensures below { IsClean D.Disk disk.new → (c : List ℕ) → D.may_leave disk.new c
        → SameBelow gate (D.seen disk.old) c }

    ensures acknowledged { OnOk result (IsClean D.Disk disk.new
        → recovered (D.seen disk.new) ≡ recovered (D.seen disk.old) ++ batch_behind gate (D.seen disk.old) ∷ []) }
    ensures ready { OnOk result (IsClean D.Disk disk.new
        → IsReady D.Disk (gate + size_of (drop gate (D.seen disk.old))) disk.new) }
    ensures faults { CountsFault result (D.faults disk.old) (D.faults disk.new) }
    ensures clean { IsClean D.Disk disk.new → IsClean D.Disk disk.old }
    ensures usable { OnOk result (IsTrue (D.is_usable disk.new)) }
{
    disk.sync()?;
    disk.write_at(gate, &[1])?;
    disk.sync()
}
