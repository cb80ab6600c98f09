//! The copy of all that roots reach, from one storage into another.

ghost use Rattle.pagable_core.specs.Data.{blob_of};
ghost use Rattle.pagable_file.specs.Copies.{
  AreCopied,
  CountsCopied,
  HasCopied,
  HasWantedRoot,
  IsCopiedKey,
  IsCopiedRoot,
  StaysOrCopies,
  StaysOrSets,
};
ghost use Rattle.pagable_value_spec.specs.{Blob.key_of, Stored.Keeps};
ghost use Rattle.std.specs.{
  List.AllByRecursion,
  Prelude.{IfOk, IsTrue, List, OnOk, Option, Some, map, ℕ, ◌≡◌},
  String.string_bytes,
};

use crate::watch::Watch;
use pagable_codec::Env;
use pagable_core::{PagableData, PagableStorage, Roots};
use pagable_flavors::{DataKey, Error};
use std::alloc::Global;
use std::collections::HashMap;

/// How many blobs the copy stores between two flushes.
const BATCH: usize = 1_000;

/// A set of keys.
pub type KeySet = HashMap<DataKey, ()>;

/// A task of the copy, which copies a blob's children before the blob itself.
#[derive(Drop)]
enum CopyTask {
    /// Plan the copy of the key's children, and then of its blob.
    Plan(DataKey),
    /// Copy the key's blob; its children were copied.
    Copy(DataKey),
}

/// Tests that each child was copied. Fails with `TooDeep` if one wasn't, which happens only if
/// references make a ring.
fn test_children(copied: &KeySet, children: &[DataKey]) -> Result<(), Error>
    ensures { OnOk result (AllByRecursion (HasCopied copied.now) children.now) }
{
    for child in children {
        if !copied.contains_key(child) {
            return Err(Error::TooDeep);
        }
    }
    Ok(())
}

/// Stores a copy of a blob.
fn store_copy<E: Env, T: PagableStorage<E>>(
    alloc: Global,
    to: &mut T,
    blob: &PagableData,
) -> Result<(), Error>
    ensures stored { IsTrue (T.is_honest to.new) → OnOk result
        (T.stored to.new (key_of E.Hash.digest (blob_of blob.now)) ≡ Some (blob_of blob.now)) }
    ensures keeps { IsTrue (T.is_honest to.new) → Keeps (T.stored to.old) (T.stored to.new) }
    ensures names_stay { IsTrue (T.is_honest to.new) → T.roots to.new ≡ T.roots to.old }
    ensures honest { IsTrue (T.is_honest to.new) → IsTrue (T.is_honest to.old) }
{
    let bytes = Vec::from_slice(alloc, blob.bytes.as_slice())?;
    let arcs = Vec::from_slice(alloc, blob.arcs.as_slice())?;
    to.store_data(alloc, PagableData { bytes, arcs })?;
    Ok(())
}

/// Copies the blob under `key`. Fails with `TooDeep` if a child of the blob wasn't copied before.
#[tactic(auto, using(crate::proofs::Copying::copying))]
fn copy_blob<E: Env, S: PagableStorage<E>, T: PagableStorage<E>>(
    alloc: Global,
    from: &mut S,
    to: &mut T,
    copied: &mut KeySet,
    key: DataKey,
) -> Result<(), Error>
    ensures copied { IsTrue (S.is_honest from.new) → IsTrue (T.is_honest to.new)
        → OnOk result (AreCopied (S.stored from.old) (T.stored to.old) copied.old
        → AreCopied (S.stored from.old) (T.stored to.new) copied.new) }
    ensures same { IsTrue (S.is_honest from.new) → S.stored from.new ≡ S.stored from.old }
    ensures same_names { IsTrue (S.is_honest from.new) → S.roots from.new ≡ S.roots from.old }
    ensures keeps { IsTrue (T.is_honest to.new) → Keeps (T.stored to.old) (T.stored to.new) }
    ensures names_stay { IsTrue (T.is_honest to.new) → T.roots to.new ≡ T.roots to.old }
    ensures honest { IsTrue (S.is_honest from.new) → IsTrue (S.is_honest from.old) }
    ensures honest_copy { IsTrue (T.is_honest to.new) → IsTrue (T.is_honest to.old) }
{
    let blob = from.fetch_data_blocking(alloc, key)?;
    test_children(copied, blob.arcs.as_slice())?;
    store_copy::<E, T>(alloc, to, &blob)?;
    copied.insert(key, ())?;
    Ok(())
}

/// Plans the copy of a key's children and then of its blob, unless the key was seen before.
fn plan_copy<E: Env, S: PagableStorage<E>>(
    alloc: Global,
    from: &mut S,
    seen: &mut KeySet,
    due: &mut Vec<CopyTask>,
    key: DataKey,
) -> Result<(), Error>
    ensures same { IsTrue (S.is_honest from.new) → S.stored from.new ≡ S.stored from.old }
    ensures same_names { IsTrue (S.is_honest from.new) → S.roots from.new ≡ S.roots from.old }
    ensures honest { IsTrue (S.is_honest from.new) → IsTrue (S.is_honest from.old) }
{
    if seen.insert(key, ())?.is_some() {
        return Ok(());
    }
    let blob = from.fetch_data_blocking(alloc, key)?;
    due.push(CopyTask::Copy(key))?;
    push_children(due, blob.arcs.as_slice())
}

/// Pushes for each of these keys a task that plans its copy.
fn push_children(due: &mut Vec<CopyTask>, children: &[DataKey]) -> Result<(), Error> {
    for child in children {
        due.push(CopyTask::Plan(*child))?;
    }
    Ok(())
}

/// Flushes if the count of copied blobs is a multiple of `BATCH`.
fn flush_batch<E: Env, T: PagableStorage<E>>(to: &mut T, count: usize) -> Result<(), Error>
    ensures same { IsTrue (T.is_honest to.new) → T.stored to.new ≡ T.stored to.old }
    ensures names_stay { IsTrue (T.is_honest to.new) → T.roots to.new ≡ T.roots to.old }
    ensures honest { IsTrue (T.is_honest to.new) → IsTrue (T.is_honest to.old) }
{
    if count % BATCH == 0 {
        to.flush()?;
    }
    Ok(())
}

/// Performs one task of the copy: plans the copy of a blob and its children, or copies a blob,
/// reports it to `watch`, and flushes after each `BATCH` blobs.
#[tactic(auto, using(crate::proofs::Copying::copying))]
fn perform_task<E: Env, S: PagableStorage<E>, T: PagableStorage<E>, W: Watch>(
    alloc: Global,
    from: &mut S,
    to: &mut T,
    seen: &mut KeySet,
    copied: &mut KeySet,
    due: &mut Vec<CopyTask>,
    next: CopyTask,
    watch: &mut W,
) -> Result<(), Error>
    ensures copied { IsTrue (S.is_honest from.new) → IsTrue (T.is_honest to.new)
        → OnOk result (AreCopied (S.stored from.old) (T.stored to.old) copied.old
        → AreCopied (S.stored from.old) (T.stored to.new) copied.new) }
    ensures same { IsTrue (S.is_honest from.new) → S.stored from.new ≡ S.stored from.old }
    ensures same_names { IsTrue (S.is_honest from.new) → S.roots from.new ≡ S.roots from.old }
    ensures keeps { IsTrue (T.is_honest to.new) → Keeps (T.stored to.old) (T.stored to.new) }
    ensures names_stay { IsTrue (T.is_honest to.new) → T.roots to.new ≡ T.roots to.old }
    ensures honest { IsTrue (S.is_honest from.new) → IsTrue (S.is_honest from.old) }
    ensures honest_copy { IsTrue (T.is_honest to.new) → IsTrue (T.is_honest to.old) }
{
    match next {
        CopyTask::Plan(key) => {
            plan_copy::<E, S>(alloc, from, seen, due, key)?;
            Ok(())
        }
        CopyTask::Copy(key) => {
            copy_blob::<E, S, T>(alloc, from, to, copied, key)?;
            watch.note();
            flush_batch::<E, T>(to, copied.len())?;
            Ok(())
        }
    }
}

/// Copies all that these keys reach, children before the blobs that refer to them.
#[tactic(auto, using(crate::proofs::Copying::copying))]
fn copy_reached<E: Env, S: PagableStorage<E>, T: PagableStorage<E>, W: Watch>(
    alloc: Global,
    from: &mut S,
    to: &mut T,
    keys: Vec<CopyTask>,
    watch: &mut W,
) -> Result<KeySet, Error>
    ensures copied { IsTrue (S.is_honest from.new) → IsTrue (T.is_honest to.new)
        → IfOk result (AreCopied (S.stored from.old) (T.stored to.new)) }
    ensures same { IsTrue (S.is_honest from.new) → S.stored from.new ≡ S.stored from.old }
    ensures same_names { IsTrue (S.is_honest from.new) → S.roots from.new ≡ S.roots from.old }
    ensures keeps { IsTrue (T.is_honest to.new) → Keeps (T.stored to.old) (T.stored to.new) }
    ensures names_stay { IsTrue (T.is_honest to.new) → T.roots to.new ≡ T.roots to.old }
    ensures honest { IsTrue (S.is_honest from.new) → IsTrue (S.is_honest from.old) }
    ensures honest_copy { IsTrue (T.is_honest to.new) → IsTrue (T.is_honest to.old) }
{
    let mut due = keys;
    let mut seen = HashMap::new(alloc);
    let mut copied = HashMap::new(alloc);
    'keys: for _ in 0..u64::MAX {
        let Some(next) = due.pop() else {
            break;
        };
        perform_task::<E, S, T, W>(
            alloc,
            from,
            to,
            &mut seen,
            &mut copied,
            &mut due,
            next,
            watch,
        )?;
    }
    Ok(copied)
}

/// Reads the key that each name stands for.
#[tactic(auto, using(crate::proofs::Copying::naming))]
fn read_roots<E: Env, S: Roots<E>>(
    alloc: Global,
    from: &mut S,
    names: &[String],
) -> Result<Vec<Option<DataKey>>, Error>
    ensures read { IsTrue (S.PagableStorage.is_honest from.new)
        → IfOk result (λ keys. keys.items ≡ map (λ name. S.PagableStorage.roots from.old (string_bytes name)) names.now) }
    ensures same { IsTrue (S.PagableStorage.is_honest from.new) → S.PagableStorage.stored from.new
        ≡ S.PagableStorage.stored from.old }
    ensures same_names { IsTrue (S.PagableStorage.is_honest from.new) → S.PagableStorage.roots from.new
        ≡ S.PagableStorage.roots from.old }
    ensures honest { IsTrue (S.PagableStorage.is_honest from.new) → IsTrue (S.PagableStorage.is_honest from.old) }
{
    let mut keys = Vec::new(alloc);
    for name in names {
        keys.push(from.root(name.as_str())?)?;
    }
    Ok(keys)
}

/// Returns for each key that isn't None a task that plans its copy.
fn first_tasks(alloc: Global, keys: &[Option<DataKey>]) -> Result<Vec<CopyTask>, Error> {
    let mut due = Vec::new(alloc);
    for key in keys {
        if let Some(key) = key {
            due.push(CopyTask::Plan(*key))?;
        }
    }
    Ok(due)
}

/// Sets the root of `name` to `key`, if given. Fails with `NoData` if its blob wasn't copied.
#[tactic(auto, using(crate::proofs::Copying::naming))]
fn set_copied_root<E: Env, T: Roots<E>>(
    alloc: Global,
    to: &mut T,
    copied: &KeySet,
    name: &str,
    key: Option<DataKey>,
) -> Result<(), Error>
    ensures set { IsTrue (T.PagableStorage.is_honest to.new) → (wanted : List ℕ → Option ℕ) → key ≡ wanted name.now
        → OnOk result (HasWantedRoot copied.now wanted (T.PagableStorage.roots to.new) name.now) }
    ensures others { IsTrue (T.PagableStorage.is_honest to.new) → (wanted : List ℕ → Option ℕ) → key ≡ wanted name.now
        → OnOk result ((q : List ℕ) → HasWantedRoot copied.now wanted (T.PagableStorage.roots to.old) q
        → HasWantedRoot copied.now wanted (T.PagableStorage.roots to.new) q) }
    ensures named { IsTrue (T.PagableStorage.is_honest to.new) → (wanted : List ℕ → Option ℕ) → key ≡ wanted name.now
        → StaysOrSets name.now wanted (T.PagableStorage.roots to.old) (T.PagableStorage.roots to.new) }
    ensures same { IsTrue (T.PagableStorage.is_honest to.new) → T.PagableStorage.stored to.new
        ≡ T.PagableStorage.stored to.old }
    ensures honest { IsTrue (T.PagableStorage.is_honest to.new) → IsTrue (T.PagableStorage.is_honest to.old) }
{
    let Some(root) = key else {
        return Ok(());
    };
    if !copied.contains_key(&root) {
        return Err(Error::NoData(root));
    }
    to.set_root(alloc, name, Some(root))?;
    Ok(())
}

/// Sets the root of each name to its key in `keys`, if it has one, as `set_copied_root` does.
#[tactic(auto, using(crate::proofs::Copying::naming))]
fn set_roots<E: Env, T: Roots<E>>(
    alloc: Global,
    to: &mut T,
    copied: &KeySet,
    names: &[String],
    keys: &[Option<DataKey>],
) -> Result<(), Error>
    ensures set { IsTrue (T.PagableStorage.is_honest to.new) → (wanted : List ℕ → Option ℕ) → keys.now
        ≡ map (λ name. wanted (string_bytes name)) names.now
        → OnOk result (AllByRecursion (λ name. HasWantedRoot copied.now wanted (T.PagableStorage.roots to.new)
        (string_bytes name))
        names.now) }
    ensures named { IsTrue (T.PagableStorage.is_honest to.new) → (wanted : List ℕ → Option ℕ) → keys.now
        ≡ map (λ name. wanted (string_bytes name)) names.now
        → StaysOrCopies names.now wanted (T.PagableStorage.roots to.old) (T.PagableStorage.roots to.new) }
    ensures same { IsTrue (T.PagableStorage.is_honest to.new) → T.PagableStorage.stored to.new
        ≡ T.PagableStorage.stored to.old }
    ensures honest { IsTrue (T.PagableStorage.is_honest to.new) → IsTrue (T.PagableStorage.is_honest to.old) }
{
    for at in 0..names.len().min(keys.len()) {
        set_copied_root::<E, T>(alloc, to, copied, names[at].as_str(), keys[at])?;
    }
    Ok(())
}

/// Copies all that the roots of these names reach, and returns how many blobs that is. It copies
/// children before the blobs that refer to them, and sets the roots last. It flushes after every
/// 1,000 blobs; the caller must flush the roots. It skips a name that stands for no key, and sets no
/// name but these.
///
/// # Errors
///
/// Some blobs may have been copied, and some roots set.
///
/// - as a fetch or a `root` of `from`, or a store, a flush or a `set_root` of `to`.
/// - `TooDeep` if references make a ring.
#[tactic(auto, using(crate::proofs::Copying::whole))]
pub fn copy<E: Env, S: Roots<E>, T: Roots<E>, W: Watch>(
    alloc: Global,
    from: &mut S,
    to: &mut T,
    names: &[String],
    watch: &mut W,
) -> Result<usize, Error>
    ensures copied { IsTrue (S.PagableStorage.is_honest from.new) → IsTrue (T.PagableStorage.is_honest to.new)
        → OnOk result (AllByRecursion (λ name. IsCopiedRoot (S.PagableStorage.stored from.old)
        (T.PagableStorage.stored to.new) (S.PagableStorage.roots from.old) (T.PagableStorage.roots to.new) (string_bytes name))
        names.now) }
    ensures same { IsTrue (S.PagableStorage.is_honest from.new) → S.PagableStorage.stored from.new
        ≡ S.PagableStorage.stored from.old }
    ensures same_names { IsTrue (S.PagableStorage.is_honest from.new) → S.PagableStorage.roots from.new
        ≡ S.PagableStorage.roots from.old }
    ensures counts { IsTrue (S.PagableStorage.is_honest from.new) → IsTrue (T.PagableStorage.is_honest to.new)
        → IfOk result (CountsCopied (S.PagableStorage.stored from.old) (T.PagableStorage.stored to.new)
        (S.PagableStorage.roots from.old) names.now) }
    ensures names { IsTrue (S.PagableStorage.is_honest from.new) → IsTrue (T.PagableStorage.is_honest to.new)
        → StaysOrCopies names.now (S.PagableStorage.roots from.old) (T.PagableStorage.roots to.old)
        (T.PagableStorage.roots to.new) }
    ensures keeps { IsTrue (T.PagableStorage.is_honest to.new)
        → Keeps (T.PagableStorage.stored to.old) (T.PagableStorage.stored to.new) }
    ensures honest { IsTrue (S.PagableStorage.is_honest from.new) → IsTrue (S.PagableStorage.is_honest from.old) }
    ensures honest_copy { IsTrue (T.PagableStorage.is_honest to.new) → IsTrue (T.PagableStorage.is_honest to.old) }
{
    let keys = read_roots::<E, S>(alloc, from, names)?;
    let due = first_tasks(alloc, keys.as_slice())?;
    let copied = copy_reached::<E, S, T, W>(alloc, from, to, due, watch)?;
    set_roots::<E, T>(alloc, to, &copied, names, keys.as_slice())?;
    Ok(copied.len())
}

/// Copies all that these keys reach, as `copy` copies what roots reach, and sets no name.
///
/// # Errors
///
/// Some blobs may have been copied.
///
/// - as a fetch of `from`, or a store or a flush of `to`.
/// - `TooDeep` if references make a ring.
#[tactic(auto, using(crate::proofs::Copying::whole))]
pub fn copy_keys<E: Env, S: PagableStorage<E>, T: PagableStorage<E>, W: Watch>(
    alloc: Global,
    from: &mut S,
    to: &mut T,
    keys: &[DataKey],
    watch: &mut W,
) -> Result<(), Error>
    ensures copied { IsTrue (S.is_honest from.new) → IsTrue (T.is_honest to.new)
        → OnOk result (AllByRecursion (IsCopiedKey (S.stored from.old) (T.stored to.new)) keys.now) }
    ensures same { IsTrue (S.is_honest from.new) → S.stored from.new ≡ S.stored from.old }
    ensures same_names { IsTrue (S.is_honest from.new) → S.roots from.new ≡ S.roots from.old }
    ensures keeps { IsTrue (T.is_honest to.new) → Keeps (T.stored to.old) (T.stored to.new) }
    ensures names_stay { IsTrue (T.is_honest to.new) → T.roots to.new ≡ T.roots to.old }
    ensures honest { IsTrue (S.is_honest from.new) → IsTrue (S.is_honest from.old) }
    ensures honest_copy { IsTrue (T.is_honest to.new) → IsTrue (T.is_honest to.old) }
{
    let mut due = Vec::new(alloc);
    push_children(&mut due, keys)?;
    let copied = copy_reached::<E, S, T, W>(alloc, from, to, due, watch)?;
    test_children(&copied, keys)?;
    Ok(())
}
