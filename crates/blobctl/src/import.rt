//! Reads a database of blobs and names once into a new file.

use crate::blobs::{Blobs, BlobsInFile};
use crate::new_file::{make_file, remove};
use crate::progress::ProgressPrinter;
use crate::refusal::Refusal;
use pagable_core::PagableData;
use pagable_file::{OpenError, Watch};
use pagable_flavors::DataKey;
use sqlite::{Alter, Connection, Row};
use sqlite_value::value::ValueRef;
use std::alloc::Global;
use std::fs;

/// How many blobs are stored from one flush to the next.
const BATCH: u64 = 1_000;

/// Reads the bytes in a column of a row.
fn bytes_at<'a>(row: &'a Row, at: usize) -> Result<&'a [u8], Refusal> {
    match row.get_ref(at)? {
        ValueRef::Blob(bytes) | ValueRef::Text(bytes) => Ok(bytes),
        _ => Err(Refusal::OddRow),
    }
}

/// Reads a key from 16 bytes.
fn key_in(bytes: &[u8]) -> Result<DataKey, Refusal> {
    let Ok(bytes) = <[u8; 16]>::try_from(bytes) else {
        return Err(Refusal::OddRow);
    };
    match DataKey::new(u128::from_le_bytes(bytes)) {
        Some(key) => Ok(key),
        None => Err(Refusal::OddRow),
    }
}

/// Reads child keys, one after another.
fn keys_in(alloc: Global, bytes: &[u8]) -> Result<Vec<DataKey>, Refusal> {
    let mut keys = Vec::new(alloc);
    for part in bytes.chunks(16) {
        keys.push(key_in(part)?)?;
    }
    Ok(keys)
}

/// Stores the blob of a row, and tests that its key is the row's.
fn store_row<B: Blobs>(alloc: Global, to: &mut B, row: &Row) -> Result<(), Refusal> {
    let key = key_in(bytes_at(row, 0)?)?;
    let bytes = Vec::from_slice(alloc, bytes_at(row, 1)?)?;
    let arcs = keys_in(alloc, bytes_at(row, 2)?)?;
    if to.store(alloc, PagableData { bytes, arcs })? != key {
        return Err(Refusal::OtherKey(key));
    }
    Ok(())
}

/// Stores all blobs of a database, and returns how many these are.
fn store_blobs<B: Blobs, S: Alter, W: Watch>(
    alloc: Global,
    from: &mut Connection<S>,
    to: &mut B,
    watch: &mut W,
) -> Result<u64, Refusal> {
    let mut rows = from.query("SELECT key, bytes, children FROM blobs", &[])?;
    for count in 0..u64::MAX {
        if count % BATCH == 0 {
            to.flush()?;
        }
        let Some(row) = rows.next()? else {
            return Ok(count);
        };
        store_row(alloc, to, row)?;
        watch.note();
    }
    Ok(u64::MAX)
}

/// Sets the name of a row, unless it stands for no key any more. Returns whether it does.
fn set_row<B: Blobs>(alloc: Global, to: &mut B, row: &Row) -> Result<bool, Refusal> {
    let Ok(name) = str::from_utf8(bytes_at(row, 0)?) else {
        return Err(Refusal::OddRow);
    };
    let bytes = bytes_at(row, 1)?;
    if bytes.is_empty() {
        return Ok(false);
    }
    to.set_root(alloc, name, Some(key_in(bytes)?))?;
    Ok(true)
}

/// Sets all names of a database, and returns how many these are.
fn set_names<B: Blobs, S: Alter>(
    alloc: Global,
    from: &mut Connection<S>,
    to: &mut B,
) -> Result<u64, Refusal> {
    let mut rows = from.query("SELECT name, key FROM roots", &[])?;
    let mut count: u64 = 0;
    for _ in 0..u64::MAX {
        let Some(row) = rows.next()? else {
            break;
        };
        if set_row(alloc, to, row)? {
            count = count.saturating_add(1);
        }
    }
    Ok(count)
}

/// Stores all blobs and names of a database in an empty file, and says how many these are.
fn fill<B: BlobsInFile>(rt: &HostRuntime, old: &str, path: &str) -> Result<String, Refusal> {
    let mut from = Connection::open(rt, old)?;
    let mut to = B::open(rt, path)?;
    let mut progress = ProgressPrinter::new(rt);
    let blobs = store_blobs(rt.alloc(), &mut from, &mut to, &mut progress)?;
    let names = set_names(rt.alloc(), &mut from, &mut to)?;
    to.flush()?;
    from.close()?;
    Ok(format!(in rt.alloc(); "{blobs} blobs, {names} names imported\n")?)
}

/// Reads all blobs and names of the database at `old` into a new file at `path`, and says how many these
/// are. The database has a table `blobs` with the columns `key`, `bytes` and `children`, and a table
/// `roots` with `name` and `key`.
///
/// # Errors
///
/// The new file isn't left, and the database has what it had.
///
/// - `OtherFile` if there is no database, `File` if the new file can't be opened.
/// - `Taken` if something has the path of the new file.
/// - `Database` if the database can't be opened or read, or has no such tables.
/// - `OddRow` if a row is no blob's or no name's, `OtherKey` if a blob has another key than its row.
/// - `Blobs` if a call on the new file fails, or a name stands for a blob that isn't there.
/// - `System` if the new file can't be made.
pub fn import_database<B: BlobsInFile>(
    rt: &HostRuntime,
    old: &str,
    path: &str,
) -> Result<String, Refusal> {
    if !fs::exists(rt, old)? {
        return Err(Refusal::OtherFile(String::from_str(rt.alloc(), old)?, OpenError::Missing));
    }
    let log = format!(in rt.alloc(); "{old}-wal")?;
    let had_log = fs::exists(rt, log.as_str())?;
    make_file(rt, path, 0o666)?;
    let said = fill::<B>(rt, old, path);
    if !had_log {
        // (what it held is in the database, or it held nothing)
        let _removed = remove(rt, log.as_str());
    }
    if said.is_err() {
        let _removed = remove(rt, path);
    }
    said
}
