//! The history of names: which keys each of them was made to stand for, in this order.

ghost use Rattle.blob_file.specs.{File.{IsSettled, Same, content, flushed}, Format.{joined, open_head, recovered}};
ghost use Rattle.blob_file.specs.{Format.{rows_of}, History.{history_of, names_told, said_by}, Rows.{is_name, key_given, names_in}};
ghost use Rattle.sqlite_wal.specs.Reads.{IsClean, OnlyReads};
ghost use Rattle.std.specs.Prelude.{IfOk, IsTrue, List, OnOk, Option, Some, drop, if◌then◌else◌, length, map, ℕ};
ghost use Rattle.std.specs.Prelude.{[], ◌++◌, ◌+◌, ◌<◌, ◌∷◌, ◌^◌, ◌≡◌, ◌≤◌};

use crate::file::BlobFile;
use crate::file_error::FileError;
use crate::head::{HEAD, batch_at};
use crate::rows::{Row, split_row};
use crate::scanning::read_rows;
use sqlite_disk::Disk;
use std::alloc::Global;

/// A name, and the key that it stands for from then on, or None if it stands for none.
#[derive(Debug, PartialEq, Drop)]
pub struct NameRow {
    pub name: String,
    pub key: Option<u128>,
}

/// Returns the key that a number in the row of a name is: 0 is none.
fn key_of_number(number: u128) -> Option<u128>
    ensures { result ≡ key_given number }
{
    if number == 0 { None } else { Some(number) }
}

/// Reads what the row of a name says.
fn read_name(alloc: Global, name: &[u8], number: u128) -> Result<NameRow, FileError>
    ensures said { IfOk result (λ it. said_by it ≡ (name.now, key_given number)) }
{
    match str::from_utf8(name) {
        Ok(text) => Ok(NameRow {
            name: String::from_str(alloc, text)?,
            key: key_of_number(number),
        }),
        Err(_) => Err(FileError::Damaged),
    }
}

/// Appends what a row says, if it is a name's.
fn push_name(alloc: Global, told: &mut Vec<NameRow>, row: Row, name: &[u8]) -> Result<(), FileError>
    ensures told { OnOk result (map said_by told.new.items ≡ map said_by told.old.items
        ++ (if is_name row then (name.now, key_given row.key) ∷ [] else [])) }
{
    if !row.is_name() {
        return Ok(());
    }
    told.push(read_name(alloc, name, row.key)?)?;
    Ok(())
}

/// Appends what the rows of names say, in their order.
fn push_names(alloc: Global, told: &mut Vec<NameRow>, rows: &[u8]) -> Result<(), FileError>
    ensures told { OnOk result (map said_by told.new.items ≡ map said_by told.old.items ++ names_in rows.now) }
{
    let mut rest = rows;
    while !rest.is_empty() {
        let Some((row, name, behind)) = split_row(rest) else {
            return Err(FileError::Damaged);
        };
        push_name(alloc, told, row, name)?;
        rest = behind;
    }
    Ok(())
}

/// Appends what the batches up to a gate say of names.
fn read_names<D: Disk>(
    alloc: Global,
    disk: &mut D,
    gate: usize,
    told: &mut Vec<NameRow>,
) -> Result<(), FileError>
    requires usable { IsTrue (D.is_usable disk.old) }
    requires place { IsClean D.Disk disk.old → gate ≡ 16 + length (joined (recovered (D.seen disk.old))) }
    ensures told { OnOk result (IsClean D.Disk disk.new → map said_by told.new.items
        ≡ map said_by told.old.items ++ names_told (recovered (D.seen disk.old))) }
    ensures same { OnlyReads D.Disk disk.old disk.new }
{
    if gate <= 16 {
        return Ok(());
    }
    let len = disk.len()?;
    if len < gate {
        return Err(FileError::Damaged);
    }
    let mut at = 16;
    while at < gate {
        let Some(head) = batch_at(disk, at, len)? else {
            return Err(FileError::Damaged);
        };
        let rows = read_rows(alloc, disk, at, head)?;
        push_names(alloc, told, &rows)?;
        at += HEAD + head.bodies as usize + head.rows as usize;
    }
    Ok(())
}

impl<D: Disk> BlobFile<D> {
    /// Returns which key each name was made to stand for, or that it stood for none, in this order,
    /// flushed or held. It reads the rows of the file again.
    ///
    /// # Errors
    ///
    /// `OutOfMemory`, `Failed`, `Damaged` if the file has changed, or `Shut` after a flush that failed.
    /// Nothing changes.
    pub fn history(&mut self, alloc: Global) -> Result<Vec<NameRow>, FileError>
        requires settled { IsSettled D.Disk self.old }
        ensures told { IfOk result (λ told. IsClean D.Disk self.new.log.disk
            → map said_by told.items ≡ history_of D.Disk self.old) }
        ensures settled { IsSettled D.Disk self.new }
        ensures same { Same (content D.Disk self.old) (content D.Disk self.new) }
        ensures same_flushed { Same (flushed D.Disk self.old) (flushed D.Disk self.new) }
        ensures same_whole { self.new.log.is_whole ≡ self.old.log.is_whole }
        ensures same_may { self.new.log.may_write ≡ self.old.log.may_write }
        ensures clean { IsClean D.Disk self.new.log.disk → IsClean D.Disk self.old.log.disk }
    {
        if !self.log.is_whole {
            return Err(FileError::Shut);
        }
        let mut told = Vec::new(alloc);
        read_names(alloc, &mut self.log.disk, self.log.gate, &mut told)?;
        push_names(alloc, &mut told, &self.rows)?;
        Ok(told)
    }
}
