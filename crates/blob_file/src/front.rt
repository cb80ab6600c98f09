//! The front of a file: whether it is a file of blobs, and how one is made.

ghost use Rattle.blob_file.specs.Format.{is_faint, is_made, is_unmade, new_file};
ghost use Rattle.sqlite_disk.specs.Disk.{CountsFault, Only};
ghost use Rattle.sqlite_wal.specs.Reads.{IsClean, OnlyReads};
ghost use Rattle.std.specs.List.{list_all, zip};
ghost use Rattle.std.specs.Prelude.{IfOk, IsTrue, List, OnOk, length, ℕ, [], ◌≡◌, ◌≤◌, ◌⊎◌};

use sqlite_disk::Disk;
use std::io;

/// A file without a batch: the header, and a shut gate.
const NEW_FILE: [u8; 17] = *b"pagable blobs 2\n\0";

/// Returns whether the file, of `len` bytes, begins as a file of blobs does.
pub fn has_header<D: Disk>(disk: &mut D, len: usize) -> io::Result<bool>
    requires usable { IsTrue (D.is_usable disk.old) }
    requires len { IsClean D.Disk disk.old → len ≡ length (D.seen disk.old) }
    ensures found { IfOk result (λ it. IsClean D.Disk disk.new → it ≡ is_made (D.seen disk.old)) }
    ensures long { IfOk result (λ it. IsTrue it → 16 ≤ len) }
    ensures faults { CountsFault result (D.faults disk.old) (D.faults disk.new) }
    ensures same { OnlyReads D.Disk disk.old disk.new }
{
    if len < 16 {
        return Ok(false);
    }
    let mut front = [0; 16];
    disk.read_at(0, &mut front)?;
    Ok(front[..] == NEW_FILE[..16])
}

/// Returns whether each byte is 0, or as the new file has it.
fn are_faint(file: &[u8], new: &[u8]) -> bool
    ensures { result ≡ list_all is_faint (zip file.now new.now) }
{
    file.iter()
        .zip(new.iter())
        .all(|(byte, made)| *byte == 0 || byte == made)
}

/// Returns whether the file, of `len` bytes, was never made, or not to the end.
pub fn was_never_made<D: Disk>(disk: &mut D, len: usize) -> io::Result<bool>
    requires usable { IsTrue (D.is_usable disk.old) }
    requires len { IsClean D.Disk disk.old → len ≡ length (D.seen disk.old) }
    ensures found { IfOk result (λ it. IsClean D.Disk disk.new → it ≡ is_unmade (D.seen disk.old)) }
    ensures faults { CountsFault result (D.faults disk.old) (D.faults disk.new) }
    ensures same { OnlyReads D.Disk disk.old disk.new }
{
    if len > 17 {
        return Ok(false);
    }
    let mut bytes = [0; 17];
    let file = &mut bytes[..len];
    disk.read_at(0, file)?;
    Ok(are_faint(file, &NEW_FILE))
}

/// Makes a file without a batch of one that was never made: writes it, and syncs.
///
/// # Errors
///
/// The disk's. The file has at most 17 bytes, of which a crash may leave any.
pub fn create<D: Disk>(disk: &mut D) -> io::Result<()>
    requires usable { IsTrue (D.is_usable disk.old) }
    requires small { IsClean D.Disk disk.old → length (D.seen disk.old) ≤ 17 }
    ensures made { OnOk result (IsClean D.Disk disk.new → D.seen disk.new ≡ new_file) }
    ensures synced { OnOk result (Only (D.seen disk.new) (D.may_leave disk.new)) }
    ensures faults { CountsFault result (D.faults disk.old) (D.faults disk.new) }
    ensures clean { IsClean D.Disk disk.new → IsClean D.Disk disk.old }
    ensures usable { OnOk result (IsTrue (D.is_usable disk.new)) }
    ensures crash { (c : List ℕ) → D.may_leave disk.new c
        → (d : List ℕ) × D.may_leave disk.old d × ((c ≡ d) ⊎ (length d ≤ 17 → length c ≤ 17)) }
{
    disk.write_at(0, &NEW_FILE)?;
    disk.sync()
}
