//! The writes of a flush behind the shut gate, which a crash leaves without effect.

ghost use Rattle.blob_file.specs.{Appending.{IsPlan, PlanFails}, Format.{head_bytes, number}};
ghost use Rattle.blob_file.specs.Log.{IsReady, IsStagedAs, StaysReady, batch_of};
ghost use Rattle.sqlite_disk.specs.{Digest.{digest}, Disk.{CountsFault}};
ghost use Rattle.sqlite_wal.specs.Reads.{IsClean};
ghost use Rattle.std.specs.Option.{SomeIff};
ghost use Rattle.std.specs.Prelude.{IfErr, IfOk, IsTrue, OnOk, length, slice_index, take, []};
ghost use Rattle.std.specs.Prelude.{◌++◌, ◌+◌, ◌-◌, ◌<◌, ◌^◌, ◌∷◌, ◌≡◌};

use crate::file_error::FileError;
use crate::head::HEAD;
use sqlite_disk::{Disk, digest_of};
use std::alloc::{AllocError, Global};
use std::io;

/// Makes the head of a batch with these rows, whose bodies have `bodies` bytes: all but the gate.
fn make_head(alloc: Global, bodies: usize, rows: &[u8]) -> Result<Vec<u8>, AllocError>
    ensures head { IfOk result (λ head. head.items ≡ head_bytes bodies rows.now) }
    ensures fits { OnOk result (digest 0 rows.now < 2 ^ 64) }
{
    let mut head = Vec::with_capacity(alloc, HEAD - 1)?;
    head.extend_from_slice(&(bodies as u64).to_le_bytes())?;
    head.extend_from_slice(&(rows.len() as u64).to_le_bytes())?;
    head.extend_from_slice(&digest_of(0, rows).to_le_bytes())?;
    Ok(head)
}

/// Makes what stands behind the bodies of a batch: its rows, and the next gate, shut.
fn make_tail(alloc: Global, rows: &[u8]) -> Result<Vec<u8>, AllocError>
    ensures { IfOk result (λ tail. tail.items ≡ rows.now ++ 0 ∷ []) }
{
    let mut tail = Vec::new(alloc);
    tail.extend_from_slice(rows)?;
    tail.push(0)?;
    Ok(tail)
}

/// Returns where a batch at `gate` ends, if it ends below 2^64.
fn end_of(gate: usize, bodies: usize, rows: usize) -> Option<usize>
    ensures { SomeIff result (gate + 25 + bodies + rows < 2 ^ 64) (gate + 25 + bodies + rows) }
{
    let end = gate as u128 + 25 + bodies as u128 + rows as u128;
    if end < 1 << 64 {
        Some(end as usize)
    } else {
        None
    }
}

/// What a flush writes beside the bodies, and where its batch ends.
#[derive(Drop)]
pub struct Plan {
    pub head: Vec<u8>,
    pub tail: Vec<u8>,
    pub end: usize,
}

/// Plans the batch at `gate` of these rows, whose bodies have `bodies` bytes.
///
/// # Errors
///
/// `OutOfMemory`, or `TooLong` if the batch would end at 2^64 or above.
pub fn make_plan(alloc: Global, gate: usize, bodies: usize, rows: &[u8]) -> Result<Plan, FileError>
    ensures planned { IfOk result (IsPlan gate bodies rows.now) }
    ensures refused { IfErr result (PlanFails gate bodies (length rows.now)) }
{
    let Some(end) = end_of(gate, bodies, rows.len()) else {
        return Err(FileError::TooLong);
    };
    let head = make_head(alloc, bodies, rows)?;
    let tail = make_tail(alloc, rows)?;
    Ok(Plan { head, tail, end })
}

/// Writes a batch behind the shut gate, all but its own gate: its bodies, its rows with the next
/// gate, and its head.
///
/// # Errors
///
/// The disk's. The file is as ready as it was.
pub fn write_batch<D: Disk>(
    disk: &mut D,
    gate: usize,
    head: &[u8],
    bodies: &[u8],
    tail: &[u8],
) -> io::Result<()>
    requires usable { IsTrue (D.is_usable disk.old) }
    requires ready { IsClean D.Disk disk.old → IsReady D.Disk gate disk.old }
    requires head { length head.now ≡ 24 }
    requires bodies { number head.now 0 ≡ length bodies.now }
    requires rows { number head.now 8 + 1 ≡ length tail.now }
    requires last { slice_index tail.now (number head.now 8) ≡ 0 }
    requires fits { gate + 25 + length bodies.now < 2 ^ 64 }
    ensures staged { OnOk result (IsClean D.Disk disk.new → IsStagedAs gate
        (batch_of head.now bodies.now (take (length tail.now - 1) tail.now)) (D.seen disk.new)) }
    ensures stays { IsClean D.Disk disk.new → StaysReady D.Disk gate disk.old disk.new }
    ensures faults { CountsFault result (D.faults disk.old) (D.faults disk.new) }
    ensures clean { IsClean D.Disk disk.new → IsClean D.Disk disk.old }
    ensures usable { IsTrue (D.is_usable disk.new) }
{
    disk.write_at(gate + HEAD, bodies)?;
    disk.write_at(gate + HEAD + bodies.len(), tail)?;
    disk.write_at(gate + 1, head)
}
