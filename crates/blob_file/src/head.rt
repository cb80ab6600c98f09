//! The head of a batch: what its first 25 bytes say.

ghost use Rattle.blob_file.specs.Format.{head_within, number, open_head};
ghost use Rattle.sqlite_wal.specs.Reads.{IsClean, OnlyReads};
ghost use Rattle.sqlite_disk.specs.Disk.{CountsFault};
ghost use Rattle.std.specs.Prelude.{IfOk, IfSome, IsTrue, drop, length, ◌+◌, ◌≡◌, ◌≤◌};

use sqlite_disk::Disk;
use std::io;

/// How many bytes stand before the bodies of a batch: its gate, two lengths and a sum.
pub const HEAD: usize = 25;

/// What the head of a batch says.
#[derive(Clone, Copy, Debug, PartialEq, Eq)]
pub struct Head {
    /// How many bytes the bodies have.
    pub bodies: u64,
    /// How many bytes the rows have.
    pub rows: u64,
    /// The sum of the rows.
    pub sum: u64,
}

/// Reads the number whose eight bytes stand at `at`, the lowest first.
fn number_at(bytes: &[u8], at: usize) -> u64
    requires { at + 8 ≤ length bytes.now }
    ensures { result ≡ number bytes.now at }
{
    let mut low = [0; 8];
    low.copy_from_slice(&bytes[at..at + 8]);
    u64::from_le_bytes(low)
}

/// Reads the head that these 25 bytes are, if its gate is open and its batch is at most `rest`
/// bytes long.
#[tactic(auto, unfolding(crate::specs::Format::size_of))]
fn parse_head(bytes: &[u8], rest: usize) -> Option<Head>
    requires { length bytes.now ≡ 25 }
    ensures found { result ≡ head_within rest bytes.now }
    ensures fits { IfSome result (λ head. 25 + head.bodies + head.rows ≤ rest) }
{
    let head = Head {
        bodies: number_at(bytes, 1),
        rows: number_at(bytes, 9),
        sum: number_at(bytes, 17),
    };
    let size = 25 + u128::from(head.bodies) + u128::from(head.rows);
    if bytes[0] == 1 && size <= rest as u128 {
        Some(head)
    } else {
        None
    }
}

/// Reads the head of the batch at `at`, if its gate is open and the file, of `len` bytes, has all
/// of it.
pub fn batch_at<D: Disk>(disk: &mut D, at: usize, len: usize) -> io::Result<Option<Head>>
    requires usable { IsTrue (D.is_usable disk.old) }
    requires len { IsClean D.Disk disk.old → len ≡ length (D.seen disk.old) }
    requires low { at ≤ len }
    ensures found { IfOk result (λ found. IsClean D.Disk disk.new → found ≡ open_head (drop at (D.seen disk.old))) }
    ensures fits { IfOk result (λ found. IfSome found (λ head. at + 25 + head.bodies + head.rows ≤ len)) }
    ensures faults { CountsFault result (D.faults disk.old) (D.faults disk.new) }
    ensures same { OnlyReads D.Disk disk.old disk.new }
{
    let rest = len - at;
    if rest < HEAD {
        return Ok(None);
    }
    let mut bytes = [0; HEAD];
    disk.read_at(at, &mut bytes)?;
    Ok(parse_head(&bytes, rest))
}
