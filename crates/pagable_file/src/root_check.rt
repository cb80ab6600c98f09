//! The check of what one root of a file of blobs reaches.

ghost use Rattle.blob_file.specs.File.{IsSettled, named, stored};
ghost use Rattle.pagable_file.specs.{
  Bodies.{blobs_of},
  Copies.{Reaches},
  Flaws.{IsFlawOfReached, IsFlawUnder, IsSoundAt, IsTold, IsWholeUnder, Stays, TellsFlaws, children_in},
  Plans.{IsTracked, Plans},
  Settled.is_honest_file,
};
ghost use Rattle.pagable_value_spec.specs.{Blob.key_of, Stored.IsMemoryOrFailure};
ghost use Rattle.sqlite_wal.specs.Reads.{IsClean};
ghost use Rattle.std.specs.{
  List.AllByRecursion,
  Prelude.{IfErr, IfOk, IsTrue, OnOk, false, ℕ, [], ◌↔◌, ◌∷◌, ◌≡◌, ◌≤◌},
};

use crate::copy::KeySet;
use crate::file_blobs::FileBlobs;
use crate::fsck::{Flaw, root_key, test_blob, test_name};
use crate::stats::count_file_error;
use crate::watch::Watch;
use blob_file::file::BlobFile;
use blob_file::file_error::FileError;
use pagable_codec::{Env, KeyHash};
use pagable_flavors::{DataKey, Error};
use sqlite_disk::Disk;
use std::alloc::{AllocError, Global};
use std::collections::HashMap;

/// The keys that a walk visits, in order, each once.
#[derive(Drop)]
struct Plan {
    order: Vec<DataKey>,
    /// The same keys.
    planned: KeySet,
}

/// Plans a visit of a key, unless one is planned.
fn plan_key(plan: &mut Plan, key: DataKey) -> Result<(), AllocError>
    ensures plans { OnOk result (IsTracked plan.old.order.items plan.old.planned
        → Plans (key ∷ []) plan.old.order.items plan.new.order.items plan.new.planned) }
{
    if plan.planned.insert(key, ())?.is_some() {
        return Ok(());
    }
    plan.order.push(key)?;
    Ok(())
}

/// Plans a visit of each of these keys, unless one is planned.
fn plan_keys(plan: &mut Plan, keys: &[DataKey]) -> Result<(), AllocError>
    ensures plans { OnOk result (IsTracked plan.old.order.items plan.old.planned
        → Plans keys.now plan.old.order.items plan.new.order.items plan.new.planned) }
{
    for key in keys {
        plan_key(plan, *key)?;
    }
    Ok(())
}

/// Tests what stands under each key that `root` reaches, and adds the flaws. It visits each key once.
fn test_reached<H: KeyHash, D: Disk, W: Watch>(
    alloc: Global,
    file: &mut BlobFile<D>,
    flaws: &mut Vec<Flaw>,
    watch: &mut W,
    root: DataKey,
) -> Result<(), FileError>
    requires settled { IsSettled D.Disk file.old }
    ensures settled { IsSettled D.Disk file.new }
    ensures stays { Stays D.Disk file.old file.new }
    ensures tested { IsTrue (is_honest_file D.Disk file.new)
        → OnOk result (TellsFlaws (IsFlawOfReached (key_of H.digest) (stored D.Disk file.old) root)
        flaws.old.items flaws.new.items
        ((key : ℕ) → Reaches (blobs_of (stored D.Disk file.old)) root key
        → IsSoundAt (key_of H.digest) (stored D.Disk file.old) key)) }
{
    let order = Vec::new(alloc);
    let planned = HashMap::new(alloc);
    let mut plan = Plan { order, planned };
    plan_key(&mut plan, root)?;
    for at in 0..usize::MAX {
        if at >= plan.order.len() {
            break;
        }
        let key = plan.order[at].get();
        let children = test_blob::<H, D, W>(alloc, file, flaws, watch, key)?;
        plan_keys(&mut plan, children.as_slice())?;
    }
    Ok(())
}

/// Finds all flaws of what the root of a name reaches.
fn find_root_flaws<H: KeyHash, D: Disk, W: Watch>(
    alloc: Global,
    file: &mut BlobFile<D>,
    name: &str,
    watch: &mut W,
) -> Result<Vec<Flaw>, FileError>
    requires settled { IsSettled D.Disk file.old }
    ensures settled { IsSettled D.Disk file.new }
    ensures stays { Stays D.Disk file.old file.new }
    ensures tested { IsTrue (is_honest_file D.Disk file.new) → IfOk result (λ flaws. TellsFlaws
        (IsFlawUnder (key_of H.digest) (stored D.Disk file.old) (named file.old) name.now) [] flaws.items
        (IsWholeUnder (key_of H.digest) (stored D.Disk file.old) (named file.old) name.now)) }
{
    let Some(root) = root_key(file, name)? else {
        return Ok(Vec::new(alloc));
    };
    let mut flaws = Vec::new(alloc);
    test_name(alloc, file, &mut flaws, name)?;
    test_reached::<H, D, W>(alloc, file, &mut flaws, watch, root)?;
    Ok(flaws)
}

impl<E: Env, D: Disk + Drop> FileBlobs<E, D> {
    /// Finds all flaws of what the root of a name reaches, flushed or waiting for a flush: reads each
    /// of these blobs once, computes its key again, and looks for its children and for the root's own
    /// blob. A name that stands for no key has no flaw, nor has a closed storage.
    ///
    /// # Errors
    ///
    /// Each says nothing of the file.
    ///
    /// - `OutOfMemory`.
    /// - `Storage` only if the call raised the count of failures.
    pub fn fsck_root<W: Watch>(
        &mut self,
        alloc: Global,
        name: &str,
        watch: &mut W,
    ) -> Result<Vec<Flaw>, Error>
        ensures exact { self.old.closed ≡ false → IsTrue (is_honest_file D.Disk self.new.file)
            → IfOk result (λ flaws. (flaws.items ≡ []) ↔ IsWholeUnder (key_of E.Hash.digest)
            (stored D.Disk self.old.file) (named self.old.file) name.now) }
        ensures real { IsTrue (is_honest_file D.Disk self.new.file)
            → IfOk result (λ flaws. AllByRecursion (IsFlawUnder (key_of E.Hash.digest) (stored D.Disk self.old.file)
            (named self.old.file) name.now) flaws.items) }
        ensures each { self.old.closed ≡ false → IsTrue (is_honest_file D.Disk self.new.file)
            → IfOk result (λ flaws. (it : Flaw) → IsFlawUnder (key_of E.Hash.digest) (stored D.Disk self.old.file)
            (named self.old.file) name.now it → IsTold flaws.items it) }
        ensures stays { Stays D.Disk self.old.file self.new.file }
        ensures only { IfErr result (IsMemoryOrFailure self.old.stats.failures self.new.stats.failures) }
        ensures failures_never_fall { self.old.stats.failures ≤ self.new.stats.failures }
        ensures open { self.new.closed ≡ self.old.closed }
    {
        if self.closed {
            return Ok(Vec::new(alloc));
        }
        match find_root_flaws::<E::Hash, D, W>(alloc, &mut self.file, name, watch) {
            Ok(flaws) => Ok(flaws),
            Err(error) => Err(count_file_error(&mut self.stats, error)),
        }
    }
}
