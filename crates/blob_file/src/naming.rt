//! Names in a file of blobs, each of which stands for the key of a blob.

ghost use Rattle.blob_file.specs.File.{HasNoBlob, IsSettled, Lists, NameFails, NamesStand, SameBlobs, SameNames};
ghost use Rattle.blob_file.specs.{File.{content, named, stored}, Rows.{key_given}};
ghost use Rattle.blob_file.specs.declared.file_error.FileError.TheVariants.{OutOfMemory};
ghost use Rattle.std.specs.{HashMap.{get, get_by_text}, Map.{update}, Str.{bytes_eq}, String.{string_bytes}};
ghost use Rattle.std.specs.Prelude.{IfErr, IfNone, IfOk, IfSome, IsSome, List, OnErr, OnOk, OnSome, map, nat_eq};
ghost use Rattle.std.specs.Prelude.{ℕ, ◌≡◌};

use crate::file::BlobFile;
use crate::file_error::FileError;
use crate::holding::hold_name;
use crate::index::{Names, Places};
use crate::rows::make_name_row;
use sqlite_disk::Disk;
use std::alloc::Global;

/// Returns the key that a name's row has, if the name may stand for this one: 0 for none, and else
/// one under which there is a blob.
fn key_of_row(places: &Places, key: Option<u128>) -> Option<u128>
    ensures given { IfSome result (λ it. key_given it ≡ key) }
    ensures stands { OnSome result (IfSome key (λ it. IsSome (get nat_eq places.now it))) }
    ensures refused { IfNone result (HasNoBlob (get nat_eq places.now) key) }
{
    let Some(wanted) = key else {
        return Some(0);
    };
    if wanted != 0 && places.contains_key(&wanted) {
        Some(wanted)
    } else {
        None
    }
}

/// Returns the names of a map, each once.
fn list_names(alloc: Global, names: &Names) -> Result<Vec<String>, FileError>
    ensures each { IfOk result (λ listed. Lists (get_by_text names.now) (map string_bytes listed.items)) }
    ensures kind { IfErr result (λ e. e ≡ OutOfMemory) }
{
    let mut listed = Vec::new(alloc);
    for name in names.keys() {
        listed.push(String::from_str(alloc, name.as_str())?)?;
    }
    Ok(listed)
}

impl<D: Disk> BlobFile<D> {
    /// Returns the key that a name stands for, or None if it stands for none.
    pub fn root(&self, name: &str) -> Option<u128>
        ensures { result ≡ named self.now name.now }
    {
        self.index.names.get(name).copied()
    }

    /// Lets a name stand for the key of a blob, or for none, from the next flush on.
    ///
    /// # Errors
    ///
    /// `NoSuchBlob` if no blob is stored under the key, flushed or held, or it is 0; `OutOfMemory`;
    /// `TooLong` if the name has 4 GiB or more; `Shut` after a flush that failed; `ReadOnly` if the
    /// file was opened for looking alone. Nothing changes.
    pub fn set_root(
        &mut self,
        alloc: Global,
        name: &str,
        key: Option<u128>,
    ) -> Result<(), FileError>
        requires settled { IsSettled D.Disk self.old }
        ensures named { OnOk result ((q : List ℕ) → named self.new q
            ≡ update bytes_eq (named self.old) name.now key q) }
        ensures stands { OnOk result (IfSome key (λ it. IsSome (stored D.Disk self.old it))) }
        ensures refused { IfErr result (NameFails self.old.log name.now key (stored D.Disk self.old)) }
        ensures kept { OnErr result (SameNames (named self.old) (named self.new)) }
        ensures blobs { SameBlobs (stored D.Disk self.old) (stored D.Disk self.new) }
        ensures stand { NamesStand (content D.Disk self.old) → NamesStand (content D.Disk self.new) }
        ensures settled { IsSettled D.Disk self.new }
        ensures log { self.new.log ≡ self.old.log }
    {
        if !self.log.is_whole {
            return Err(FileError::Shut);
        }
        if !self.log.may_write {
            return Err(FileError::ReadOnly);
        }
        let Some(wanted) = key_of_row(&self.index.places, key) else {
            return Err(FileError::NoSuchBlob);
        };
        let Some(row) = make_name_row(wanted, name.len()) else {
            return Err(FileError::TooLong);
        };
        hold_name(alloc, &mut self.index.names, &mut self.rows, row, name)?;
        Ok(())
    }

    /// Returns each name that stands for a key, once, and no other, in no particular order.
    ///
    /// # Errors
    ///
    /// `OutOfMemory`.
    pub fn root_names(&self, alloc: Global) -> Result<Vec<String>, FileError>
        ensures each { IfOk result (λ names. Lists (named self.now) (map string_bytes names.items)) }
        ensures kind { IfErr result (λ e. e ≡ OutOfMemory) }
    {
        list_names(alloc, &self.index.names)
    }
}
