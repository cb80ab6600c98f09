//! The check of a whole file of blobs.

ghost use Rattle.blob_file.specs.File.{IsSettled, found_body, named, stored};
ghost use Rattle.pagable_core.specs.Data.{blob_of};
ghost use Rattle.pagable_file.specs.{
  Bodies.{blob_if_some},
  Flaws.{
    IsFlaw,
    IsFlawAt,
    IsFlawOfBlobs,
    IsFlawOfNames,
    IsIfMissing,
    IsMissingChild,
    IsMissingRoot,
    IsOfSome,
    IsSoundAt,
    IsSoundName,
    IsStray,
    IsThere,
    IsTold,
    IsWhole,
    IsWrongKey,
    Stays,
    TellsFlaws,
    children_in,
  },
  Settled.is_honest_file,
};
ghost use Rattle.pagable_value_spec.specs.{Blob.key_of, Stored.IsMemoryOrFailure};
ghost use Rattle.sqlite_wal.specs.Reads.{IsClean};
ghost use Rattle.std.specs.{
  List.AllByRecursion,
  Prelude.{IfErr, IfNone, IfOk, IfSome, IsTrue, List, OnOk, Some, false, ℕ, [], ◌↔◌, ◌≡◌, ◌≢◌, ◌≤◌},
};

use crate::bodies::read_blob;
use crate::file_blobs::FileBlobs;
use crate::stats::count_file_error;
use crate::watch::Watch;
use blob_file::file::{BlobFile, FoundBlob};
use blob_file::file_error::FileError;
use pagable_codec::{Env, KeyHash};
use pagable_core::PagableData;
use pagable_flavors::{DataKey, Error};
use sqlite_disk::Disk;
use std::alloc::{AllocError, Global};

/// A flaw of a file of blobs.
#[derive(Debug, PartialEq, Drop)]
pub enum Flaw {
    /// The body under this number is no blob's, so no fetch returns one: the number is 0, or the front
    /// of the body isn't a list of keys.
    StrayBlob(u128),
    /// The blob under this key has another key.
    WrongKey(DataKey),
    /// The first key's blob refers to the second key, under which no blob is stored.
    MissingChild(DataKey, DataKey),
    /// The name stands for the key, under which no blob is stored.
    MissingRoot(String, DataKey),
}

/// Adds `flaw` if no blob is stored under `key`.
#[tactic(auto, using(crate::proofs::Flawed::missing, crate::proofs::Flawed::present))]
fn test_there<D: Disk>(
    file: &BlobFile<D>,
    flaws: &mut Vec<Flaw>,
    key: DataKey,
    flaw: Flaw,
) -> Result<(), FileError>
    ensures tested { OnOk result (TellsFlaws (IsIfMissing (stored D.Disk file.now) key flaw)
        flaws.old.items flaws.new.items (IsThere (stored D.Disk file.now) key)) }
{
    if file.find(key.get()).is_some() {
        return Ok(());
    }
    flaws.push(flaw)?;
    Ok(())
}

/// Adds a flaw for each of `children`, the children of the blob under `key`, that isn't stored.
fn test_children<D: Disk>(
    file: &BlobFile<D>,
    flaws: &mut Vec<Flaw>,
    key: DataKey,
    children: &[DataKey],
) -> Result<(), FileError>
    ensures tested { OnOk result (TellsFlaws (IsOfSome (IsMissingChild (stored D.Disk file.now) key) children.now)
        flaws.old.items flaws.new.items (AllByRecursion (IsThere (stored D.Disk file.now)) children.now)) }
{
    for child in children {
        test_there(file, flaws, *child, Flaw::MissingChild(key, *child))?;
    }
    Ok(())
}

/// Adds a flaw if the key computed from `blob` isn't `key`.
#[tactic(auto, using(crate::proofs::Flawed::other_key, crate::proofs::Flawed::own_key))]
fn test_key<H: KeyHash>(
    flaws: &mut Vec<Flaw>,
    key: DataKey,
    blob: &PagableData,
) -> Result<(), FileError>
    ensures tested { OnOk result (TellsFlaws (IsWrongKey (key_of H.digest) key (blob_of blob.now))
        flaws.old.items flaws.new.items (key_of H.digest (blob_of blob.now) ≡ key)) }
{
    if blob.compute_key::<H>() == key {
        return Ok(());
    }
    flaws.push(Flaw::WrongKey(key))?;
    Ok(())
}

/// A blob that was found under a key.
#[derive(Drop)]
struct KeyedBlob {
    key: DataKey,
    blob: PagableData,
}

/// Returns the key that this number is, and the blob whose body was found there. Returns None if
/// the number is 0 or the body is no blob's.
fn keyed_blob(
    alloc: Global,
    number: u128,
    found: &FoundBlob,
) -> Result<Option<KeyedBlob>, AllocError>
    ensures blob { IfOk result (λ it. IfSome it (λ keyed. (keyed.key ≡ number) × (number ≢ 0)
        × (blob_if_some (found_body (Some found.now)) ≡ Some (blob_of keyed.blob)))) }
    ensures stray { IfOk result (λ it. IfNone it (IsStray number
        (record { children = found.now.children; bytes = found.now.body.items }))) }
{
    let Some(key) = DataKey::new(number) else {
        return Ok(None);
    };
    match read_blob(alloc, found)? {
        Some(blob) => Ok(Some(KeyedBlob { key, blob })),
        None => Ok(None),
    }
}

/// Tests the body that was found under a number, and adds its flaws. Returns the keys of the blob's
/// children, none if the body is no blob's.
fn test_body<H: KeyHash, D: Disk>(
    alloc: Global,
    file: &BlobFile<D>,
    flaws: &mut Vec<Flaw>,
    number: u128,
    found: &FoundBlob,
) -> Result<Vec<DataKey>, FileError>
    ensures tested { stored D.Disk file.now number ≡ found_body (Some found.now)
        → OnOk result (TellsFlaws (IsFlawAt (key_of H.digest) (stored D.Disk file.now) number)
        flaws.old.items flaws.new.items (IsSoundAt (key_of H.digest) (stored D.Disk file.now) number)) }
    ensures children { stored D.Disk file.now number ≡ found_body (Some found.now) → number ≢ 0
        → IfOk result (λ keys. keys.items ≡ children_in (stored D.Disk file.now) number) }
{
    match keyed_blob(alloc, number, found)? {
        Some(keyed) => {
            test_key::<H>(flaws, keyed.key, &keyed.blob)?;
            test_children(file, flaws, keyed.key, keyed.blob.arcs.as_slice())?;
            let children = Vec::from_slice(alloc, keyed.blob.arcs.as_slice())?;
            Ok(children)
        }
        None => {
            flaws.push(Flaw::StrayBlob(number))?;
            Ok(Vec::new(alloc))
        }
    }
}

/// Fetches what stands under a number, tests it, and adds its flaws. Returns the keys of the blob's
/// children, none if there is no blob.
pub(crate) fn test_blob<H: KeyHash, D: Disk, W: Watch>(
    alloc: Global,
    file: &mut BlobFile<D>,
    flaws: &mut Vec<Flaw>,
    watch: &mut W,
    number: u128,
) -> Result<Vec<DataKey>, FileError>
    requires settled { IsSettled D.Disk file.old }
    ensures settled { IsSettled D.Disk file.new }
    ensures stays { Stays D.Disk file.old file.new }
    ensures tested { IsClean D.Disk file.new.log.disk
        → OnOk result (TellsFlaws (IsFlawAt (key_of H.digest) (stored D.Disk file.old) number)
        flaws.old.items flaws.new.items (IsSoundAt (key_of H.digest) (stored D.Disk file.old) number)) }
    ensures children { IsClean D.Disk file.new.log.disk → number ≢ 0
        → IfOk result (λ keys. keys.items ≡ children_in (stored D.Disk file.old) number) }
{
    match file.fetch(alloc, number)? {
        Some(found) => {
            watch.note();
            test_body::<H, D>(alloc, file, flaws, number, &found)
        }
        None => Ok(Vec::new(alloc)),
    }
}

/// Tests what stands under each number, and adds the flaws.
fn test_blobs<H: KeyHash, D: Disk, W: Watch>(
    alloc: Global,
    file: &mut BlobFile<D>,
    flaws: &mut Vec<Flaw>,
    watch: &mut W,
) -> Result<(), FileError>
    requires settled { IsSettled D.Disk file.old }
    ensures settled { IsSettled D.Disk file.new }
    ensures stays { Stays D.Disk file.old file.new }
    ensures tested { IsTrue (is_honest_file D.Disk file.new)
        → OnOk result (TellsFlaws (IsFlawOfBlobs (key_of H.digest) (stored D.Disk file.old))
        flaws.old.items flaws.new.items
        ((key : ℕ) → IsSoundAt (key_of H.digest) (stored D.Disk file.old) key)) }
{
    let entries = file.list(alloc)?;
    for entry in &entries {
        let _children = test_blob::<H, D, W>(alloc, file, flaws, watch, entry.key)?;
    }
    Ok(())
}

/// Returns the key that a name stands for, if it stands for one. Fails with `Damaged` if that is 0.
pub(crate) fn root_key<D: Disk>(
    file: &BlobFile<D>,
    name: &str,
) -> Result<Option<DataKey>, FileError>
    ensures key { IfOk result (λ key. key ≡ named file.now name.now) }
{
    let Some(number) = file.root(name) else {
        return Ok(None);
    };
    match DataKey::new(number) {
        Some(key) => Ok(Some(key)),
        None => Err(FileError::Damaged),
    }
}

/// Adds a flaw if the blob of the key that a name stands for isn't stored.
pub(crate) fn test_name<D: Disk>(
    alloc: Global,
    file: &BlobFile<D>,
    flaws: &mut Vec<Flaw>,
    name: &str,
) -> Result<(), FileError>
    ensures tested { OnOk result (TellsFlaws (IsMissingRoot (stored D.Disk file.now) (named file.now) name.now)
        flaws.old.items flaws.new.items (IsSoundName (stored D.Disk file.now) (named file.now) name.now)) }
{
    let Some(key) = root_key(file, name)? else {
        return Ok(());
    };
    let flaw = Flaw::MissingRoot(String::from_str(alloc, name)?, key);
    test_there(file, flaws, key, flaw)
}

/// Tests each name, and adds the flaws.
fn test_names<D: Disk>(
    alloc: Global,
    file: &BlobFile<D>,
    flaws: &mut Vec<Flaw>,
) -> Result<(), FileError>
    ensures tested { OnOk result (TellsFlaws (IsFlawOfNames (stored D.Disk file.now) (named file.now))
        flaws.old.items flaws.new.items
        ((name : List ℕ) → IsSoundName (stored D.Disk file.now) (named file.now) name)) }
{
    let names = file.root_names(alloc)?;
    for name in &names {
        test_name(alloc, file, flaws, name.as_str())?;
    }
    Ok(())
}

/// Finds all flaws of a file.
fn find_flaws<H: KeyHash, D: Disk, W: Watch>(
    alloc: Global,
    file: &mut BlobFile<D>,
    watch: &mut W,
) -> Result<Vec<Flaw>, FileError>
    requires settled { IsSettled D.Disk file.old }
    ensures settled { IsSettled D.Disk file.new }
    ensures stays { Stays D.Disk file.old file.new }
    ensures tested { IsTrue (is_honest_file D.Disk file.new) → IfOk result (λ flaws. TellsFlaws
        (IsFlaw (key_of H.digest) (stored D.Disk file.old) (named file.old)) [] flaws.items
        (IsWhole (key_of H.digest) (stored D.Disk file.old) (named file.old))) }
{
    let mut flaws = Vec::new(alloc);
    test_blobs::<H, D, W>(alloc, file, &mut flaws, watch)?;
    test_names(alloc, file, &mut flaws)?;
    Ok(flaws)
}

impl<E: Env, D: Disk + Drop> FileBlobs<E, D> {
    /// Finds all flaws of what the file has, flushed or waiting for a flush: reads each blob, computes
    /// its key again, and looks for each child and for each name's blob. A child that a blob has
    /// several times is told as often. A closed storage has no flaw.
    ///
    /// # Errors
    ///
    /// Each says nothing of the file.
    ///
    /// - `OutOfMemory`.
    /// - `Storage` only if the call raised the count of failures.
    pub fn fsck<W: Watch>(&mut self, alloc: Global, watch: &mut W) -> Result<Vec<Flaw>, Error>
        ensures exact { self.old.closed ≡ false → IsTrue (is_honest_file D.Disk self.new.file)
            → IfOk result (λ flaws. (flaws.items ≡ [])
            ↔ IsWhole (key_of E.Hash.digest) (stored D.Disk self.old.file) (named self.old.file)) }
        ensures real { IsTrue (is_honest_file D.Disk self.new.file)
            → IfOk result (λ flaws. AllByRecursion (IsFlaw (key_of E.Hash.digest) (stored D.Disk self.old.file)
            (named self.old.file)) flaws.items) }
        ensures each { self.old.closed ≡ false → IsTrue (is_honest_file D.Disk self.new.file)
            → IfOk result (λ flaws. (it : Flaw) → IsFlaw (key_of E.Hash.digest) (stored D.Disk self.old.file)
            (named self.old.file) it → IsTold flaws.items it) }
        ensures stays { Stays D.Disk self.old.file self.new.file }
        ensures only { IfErr result (IsMemoryOrFailure self.old.stats.failures self.new.stats.failures) }
        ensures failures_never_fall { self.old.stats.failures ≤ self.new.stats.failures }
        ensures open { self.new.closed ≡ self.old.closed }
    {
        if self.closed {
            return Ok(Vec::new(alloc));
        }
        match find_flaws::<E::Hash, D, W>(alloc, &mut self.file, watch) {
            Ok(flaws) => Ok(flaws),
            Err(error) => Err(count_file_error(&mut self.stats, error)),
        }
    }
}
