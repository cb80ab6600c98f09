//! What the batches of a file say: where the blobs stand, by their keys, and which keys the names
//! stand for.

ghost use Rattle.blob_file.specs.{Opening.{FailsFor}, Rows.{AreWhole, Knows, Learns, key_given, place_at, row_len}};
ghost use Rattle.blob_file.specs.Rows.{size_of_row};
ghost use Rattle.blob_file.specs.declared.file_error.FileError.TheVariants.{OutOfMemory};
ghost use Rattle.std.specs.HashMap.{get, get_by_text};
ghost use Rattle.std.specs.Map.{update};
ghost use Rattle.std.specs.Str.{IsUtf8, bytes_eq};
ghost use Rattle.std.specs.Prelude.{IfErr, IfOk, List, OnErr, OnOk, Some, drop, length, nat_eq, take, ℕ, []};
ghost use Rattle.std.specs.Prelude.{◌+◌, ◌-◌, ◌<◌, ◌^◌, ◌≡◌, ◌≤◌};

use crate::file_error::FileError;
use crate::rows::{Place, Row, split_row};
use std::alloc::Global;
use std::collections::HashMap;
use std::str;

/// Where blobs stand, by their keys.
pub type Places = HashMap<u128, Place>;

/// The keys that names stand for.
pub type Names = HashMap<String, u128>;

/// What the batches of a file say.
#[derive(Drop)]
pub struct Index {
    pub places: Places,
    pub names: Names,
}

impl Index {
    /// Makes the index of a file without a batch.
    pub fn new(alloc: Global) -> Index
        ensures { Knows result [] }
    {
        Index {
            places: HashMap::new(alloc),
            names: HashMap::new(alloc),
        }
    }
}

/// Lets a name stand for a key, or for none if the key is 0.
///
/// # Errors
///
/// `OutOfMemory`. Nothing changes.
pub fn set_name(alloc: Global, names: &mut Names, name: &str, key: u128) -> Result<(), FileError>
    ensures named { OnOk result ((q : List ℕ) → get_by_text names.new q
        ≡ update bytes_eq (get_by_text names.old) name.now (key_given key) q) }
    ensures kind { IfErr result (λ e. e ≡ OutOfMemory) }
    ensures kept { OnErr result ((q : List ℕ) → get_by_text names.new q ≡ get_by_text names.old q) }
{
    if key == 0 {
        names.remove(name);
    } else {
        names.insert(String::from_str(alloc, name)?, key)?;
    }
    Ok(())
}

/// Takes what the row of a name says.
fn take_name(alloc: Global, names: &mut Names, name: &[u8], key: u128) -> Result<(), FileError>
    ensures named { OnOk result ((q : List ℕ) → get_by_text names.new q
        ≡ update bytes_eq (get_by_text names.old) name.now (key_given key) q) }
    ensures text { OnOk result (IsUtf8 name.now) }
    ensures refused { IfErr result (FailsFor (¬ IsUtf8 name.now) ⊥) }
{
    match str::from_utf8(name) {
        Ok(text) => set_name(alloc, names, text, key),
        Err(_) => Err(FileError::Damaged),
    }
}

/// Takes what the row of a blob says, whose body begins at `at`, where `left` bytes are left.
/// Returns how many are left behind it.
fn take_blob(places: &mut Places, row: Row, at: usize, left: u64) -> Result<u64, FileError>
    requires fits { at + left < 2 ^ 64 }
    ensures placed { OnOk result ((q : ℕ) → get nat_eq places.new q
        ≡ update nat_eq (get nat_eq places.old) row.key (Some (place_at at row)) q) }
    ensures left { IfOk result (λ rest. rest + size_of_row row ≡ left) }
    ensures refused { IfErr result (FailsFor (left < size_of_row row) ⊥) }
{
    let size = row.size();
    if size > left {
        return Err(FileError::Damaged);
    }
    let place = Place {
        at,
        children: row.children,
        bytes: row.bytes,
    };
    places.insert(row.key, place)?;
    Ok(left - size)
}

/// Takes what the first of some rows says. If it is a blob's, its body begins at `at`, where `left`
/// bytes are left. Returns how many are left behind it, and the rows behind the first.
fn take_row<'a>(
    alloc: Global,
    index: &mut Index,
    rows: &'a [u8],
    at: usize,
    left: u64,
) -> Result<(u64, &'a [u8]), FileError>
    requires some { 0 < length rows.now }
    requires fits { at + left < 2 ^ 64 }
    ensures learns { OnOk result (Learns at (take (row_len rows.now) rows.now) index.old index.new) }
    ensures whole { IfOk result (λ it. AreWhole (left - it.0) (take (row_len rows.now) rows.now)) }
    ensures left { IfOk result (λ it. it.0 ≤ left) }
    ensures behind { IfOk result (λ it. it.1.now ≡ drop (row_len rows.now) rows.now) }
    ensures fewer { IfOk result (λ it. length it.1.now < length rows.now) }
    ensures refused { IfErr result (FailsFor (¬ AreWhole left rows.now) ⊥) }
{
    let Some((row, name, behind)) = split_row(rows) else {
        return Err(FileError::Damaged);
    };
    if row.is_name() {
        take_name(alloc, &mut index.names, name, row.key)?;
        return Ok((left, behind));
    }
    let rest = take_blob(&mut index.places, row, at, left)?;
    Ok((rest, behind))
}

/// Takes what the rows of a batch say, whose bodies begin at `first` and have `bodies` bytes.
///
/// # Errors
///
/// `OutOfMemory`, or `Damaged` if the rows aren't whole, a name isn't UTF-8, or the bodies aren't as
/// long as the rows say. Some of the rows may have been taken.
pub fn take_rows(
    alloc: Global,
    index: &mut Index,
    rows: &[u8],
    first: usize,
    bodies: u64,
) -> Result<(), FileError>
    requires fits { first + bodies < 2 ^ 64 }
    ensures learns { OnOk result (Learns first rows.now index.old index.new) }
    ensures formed { OnOk result (AreWhole bodies rows.now) }
    ensures refused { IfErr result (FailsFor (¬ AreWhole bodies rows.now) ⊥) }
{
    let mut rest = rows;
    let mut left = bodies;
    while !rest.is_empty() {
        let at = first + (bodies - left) as usize;
        let (behind, more) = take_row(alloc, index, rest, at, left)?;
        left = behind;
        rest = more;
    }
    if left != 0 {
        return Err(FileError::Damaged);
    }
    Ok(())
}
