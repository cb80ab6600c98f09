//! What is held in memory until a flush.

ghost use Rattle.blob_file.specs.Rows.{key_given, place_at, row_bytes, size_of_row};
ghost use Rattle.blob_file.specs.declared.file_error.FileError.TheVariants.{OutOfMemory};
ghost use Rattle.std.specs.{HashMap.{get, get_by_text}, Map.{update}, Option.{SomeIff}, Str.{bytes_eq}};
ghost use Rattle.std.specs.Prelude.{IfErr, List, OnErr, OnOk, Some, nat_eq, ℕ, ◌++◌, ◌+◌, ◌<◌, ◌^◌, ◌≡◌};

use crate::file_error::FileError;
use crate::index::{Names, Places, set_name};
use crate::rows::{Place, Row, push_row};
use std::alloc::Global;

/// Returns where the body of a row's blob will stand behind those that are held, if it ends below
/// 2^64.
pub fn next_place(gate: usize, held: usize, row: Row) -> Option<Place>
    ensures { SomeIff result (gate + 25 + held + size_of_row row < 2 ^ 64) (place_at (gate + 25 + held) row) }
{
    let at = gate as u128 + 25 + held as u128;
    if at + u128::from(row.size()) < 1 << 64 {
        Some(Place {
            at: at as usize,
            children: row.children,
            bytes: row.bytes,
        })
    } else {
        None
    }
}

/// Holds the row of a blob, and its place.
fn hold_row(
    places: &mut Places,
    rows: &mut Vec<u8>,
    row: Row,
    place: Place,
) -> Result<(), FileError>
    ensures rows { OnOk result (rows.new.items ≡ rows.old.items ++ row_bytes row) }
    ensures places { OnOk result ((q : ℕ) → get nat_eq places.new q
        ≡ update nat_eq (get nat_eq places.old) row.key (Some place) q) }
    ensures same_rows { OnErr result (rows.new.items ≡ rows.old.items) }
    ensures same_places { OnErr result ((q : ℕ) → get nat_eq places.new q ≡ get nat_eq places.old q) }
    ensures kind { IfErr result (λ e. e ≡ OutOfMemory) }
{
    let listed = rows.len();
    push_row(rows, row, &[])?;
    match places.insert(row.key, place) {
        Ok(_) => Ok(()),
        Err(refused) => {
            rows.truncate(listed);
            Err(FileError::from(refused))
        }
    }
}

/// Holds a blob: its body, its row and its place.
///
/// # Errors
///
/// `OutOfMemory`. Nothing changes.
pub fn hold(
    places: &mut Places,
    bodies: &mut Vec<u8>,
    rows: &mut Vec<u8>,
    row: Row,
    place: Place,
    body: &[u8],
) -> Result<(), FileError>
    ensures bodies { OnOk result (bodies.new.items ≡ bodies.old.items ++ body.now) }
    ensures rows { OnOk result (rows.new.items ≡ rows.old.items ++ row_bytes row) }
    ensures places { OnOk result ((q : ℕ) → get nat_eq places.new q
        ≡ update nat_eq (get nat_eq places.old) row.key (Some place) q) }
    ensures same_bodies { OnErr result (bodies.new.items ≡ bodies.old.items) }
    ensures same_rows { OnErr result (rows.new.items ≡ rows.old.items) }
    ensures same_places { OnErr result ((q : ℕ) → get nat_eq places.new q ≡ get nat_eq places.old q) }
    ensures kind { IfErr result (λ e. e ≡ OutOfMemory) }
{
    let held = bodies.len();
    bodies.extend_from_slice(body)?;
    match hold_row(places, rows, row, place) {
        Ok(()) => Ok(()),
        Err(refused) => {
            bodies.truncate(held);
            Err(refused)
        }
    }
}

/// Holds a name: its row, and the key that it stands for from now on.
///
/// # Errors
///
/// `OutOfMemory`. Nothing changes.
pub fn hold_name(
    alloc: Global,
    names: &mut Names,
    rows: &mut Vec<u8>,
    row: Row,
    name: &str,
) -> Result<(), FileError>
    ensures rows { OnOk result (rows.new.items ≡ rows.old.items ++ (row_bytes row ++ name.now)) }
    ensures named { OnOk result ((q : List ℕ) → get_by_text names.new q
        ≡ update bytes_eq (get_by_text names.old) name.now (key_given row.key) q) }
    ensures same_rows { OnErr result (rows.new.items ≡ rows.old.items) }
    ensures same_names { OnErr result ((q : List ℕ) → get_by_text names.new q ≡ get_by_text names.old q) }
    ensures kind { IfErr result (λ e. e ≡ OutOfMemory) }
{
    let listed = rows.len();
    push_row(rows, row, name.as_bytes())?;
    match set_name(alloc, names, name, row.key) {
        Ok(()) => Ok(()),
        Err(refused) => {
            rows.truncate(listed);
            Err(refused)
        }
    }
}
