//! The names of roots in a file of blobs.

ghost use Rattle.blob_file.specs.File.{IsSettled, SameBlobs, SameNames, named, stored};
ghost use Rattle.pagable_file.specs.Bodies.{RefusesRead};
ghost use Rattle.std.specs.{Map.update, Str.bytes_eq};
ghost use Rattle.std.specs.Prelude.{IfErr, IfOk, OnErr, OnOk, ◌≡◌, ◌≤◌};

use crate::fault::Fault;
use crate::file_blobs::FileBlobs;
use crate::stats::{Stats, count_failure, count_file_error};
use blob_file::file::BlobFile;
use pagable_codec::Env;
use pagable_core::{PagableStorage, Roots};
use pagable_flavors::{DataKey, Error};
use sqlite_disk::Disk;
use std::alloc::Global;

/// Returns the key with this number, or None for none. Fails with `Storage` if the number is 0.
pub(crate) fn key_of_number(
    stats: &mut Stats,
    number: Option<u128>,
) -> Result<Option<DataKey>, Error>
    ensures ok { IfOk result (λ key. key ≡ number) }
    ensures only { IfErr result (RefusesRead stats.old.failures stats.new.failures) }
    ensures failures_never_fall { stats.old.failures ≤ stats.new.failures }
{
    let Some(number) = number else {
        return Ok(None);
    };
    match DataKey::new(number) {
        Some(key) => Ok(Some(key)),
        None => Err(count_failure(stats, Fault::Damaged)),
    }
}

/// Returns the number of a key, or None for none.
fn number_of_key(key: Option<DataKey>) -> Option<u128>
    ensures { result ≡ key }
{
    match key {
        Some(key) => Some(key.get()),
        None => None,
    }
}

/// Holds a name's key until the next flush. Fails with `OutOfMemory`, and with `Storage` if the name
/// is too long or the file is shut.
fn hold_root<D: Disk + Drop>(
    alloc: Global,
    file: &mut BlobFile<D>,
    stats: &mut Stats,
    name: &str,
    key: Option<DataKey>,
) -> Result<(), Error>
    requires settled { IsSettled D.Disk file.old }
    ensures settled { IsSettled D.Disk file.new }
    ensures sets { OnOk result ((q : _) → named file.new q ≡ update bytes_eq (named file.old) name.now key q) }
    ensures kept { OnErr result (SameNames (named file.old) (named file.new)) }
    ensures blobs { SameBlobs (stored D.Disk file.old) (stored D.Disk file.new) }
    ensures log { file.new.log ≡ file.old.log }
    ensures only { IfErr result (RefusesRead stats.old.failures stats.new.failures) }
    ensures failures_never_fall { stats.old.failures ≤ stats.new.failures }
{
    match file.set_root(alloc, name, number_of_key(key)) {
        Ok(()) => Ok(()),
        Err(error) => Err(count_file_error(stats, error)),
    }
}

impl<E: Env, D: Disk + Drop> Roots<E> for FileBlobs<E, D> {
    #[tactic(auto, using(crate::proofs::Stored::naming))]
    fn root(&mut self, name: &str) -> Result<Option<DataKey>, Error> {
        if self.closed {
            return Ok(None);
        }
        key_of_number(&mut self.stats, self.file.root(name))
    }

    #[tactic(auto, using(crate::proofs::Stored::naming))]
    fn set_root(&mut self, alloc: Global, name: &str, key: Option<DataKey>) -> Result<(), Error> {
        if self.closed {
            return Err(Error::Closed);
        }
        match key {
            None => hold_root(alloc, &mut self.file, &mut self.stats, name, None),
            Some(wanted) => {
                let _found = self.fetch_data_blocking(alloc, wanted)?;
                hold_root(alloc, &mut self.file, &mut self.stats, name, key)
            }
        }
    }

    #[tactic(auto, using(crate::proofs::Stored::naming))]
    fn root_names(&mut self, alloc: Global) -> Result<Vec<String>, Error> {
        if self.closed {
            return Ok(Vec::new(alloc));
        }
        match self.file.root_names(alloc) {
            Ok(names) => Ok(names),
            Err(error) => Err(count_file_error(&mut self.stats, error)),
        }
    }
}
