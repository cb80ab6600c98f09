//! The keys of references: a cell's own key, or the key that this page-out found for another node.

ghost use Rattle.pagable_changes.specs.Changes.{AllHaveKeys, AppendsKey, IsElsewhere, IsKeyOfTarget, KeyFails};
ghost use Rattle.pagable_changes.specs.Changes.{KeysFail, LooksInVain, height_over, height_through};
ghost use Rattle.pagable_pager.specs.View.{pager_core};
ghost use Rattle.pagable_pager_spec.specs.{
  Basics.is_loose_kind,
  Calls.{KeyCall, NodeCall},
  World.one_more,
};
ghost use Rattle.pagable_tables.specs.NumberTable.{row_by};
ghost use Rattle.std.specs.Prelude.{IfErr, IfOk, IfSome, Ok, OnOk, if◌then◌else◌, slice_get, [], ◌++◌, ◌∷◌, ◌≡◌};

use crate::calls::is_handle_of;
use pagable_codec::{Env, NodeSet};
use pagable_core::PagableStorage;
use pagable_pager::Pager;
use pagable_tables::number_table::NumberTable;
use pagable_value_spec::{ArcRef, DataKey, Error, NodeNumber, OptionalDataKey};
use std::alloc::Global;

/// The greatest number of references on a path whose values are read together.
pub(crate) const LONGEST_PATH: u64 = 128;

/// The key that was found for a node, and the length of the longest path below it.
#[derive(Clone, Copy)]
pub struct FoundKey {
    pub key: DataKey,
    pub height: u64,
}

/// The keys that a page-out found for nodes which it reached by references that aren't loose, by
/// node number.
pub(crate) type FoundKeys = NumberTable<FoundKey>;

// Returns the key that the page-out found for a node, with the length of the longest path below the
// node. Returns None if it found none yet.
fn found_at(found: &FoundKeys, node: NodeNumber) -> Option<FoundKey>
    ensures { result ≡ row_by found.now node.0 }
{
    found.get(node.0).copied()
}

// Returns the key of a loose reference's cell. Fails with `NoSuchHandle` only.
fn cell_key<E: Env<Node: NodeSet<E>>, S: PagableStorage<E>>(
    pager: &Pager<E, S>,
    reference: ArcRef,
) -> Result<OptionalDataKey, Error>
    ensures of_node { IfOk result
        (λ key. NodeCall (pager_core S.PagableStorage pager.now) reference.handle (Ok reference.node)) }
    ensures key { IfOk result (λ key. KeyCall (pager_core S.PagableStorage pager.now) reference.handle (Ok key)) }
    ensures refused { IfErr result (λ e. (e ≡ Error.NoSuchHandle)
        × IsElsewhere (pager_core S.PagableStorage pager.now) reference.handle reference.node) }
{
    if !is_handle_of(pager, reference.handle, reference.node) {
        return Err(Error::NoSuchHandle);
    }
    match pager.key(reference.handle) {
        Ok(key) => Ok(key),
        Err(e) => Err(e),
    }
}

/// Returns the key of a reference's target: for a loose reference its cell's key, else the key that
/// was found before. Returns None if the target has no key yet. Fails with `NoSuchHandle` only.
pub(crate) fn find_key<E: Env<Node: NodeSet<E>>, S: PagableStorage<E>>(
    pager: &Pager<E, S>,
    found: &FoundKeys,
    reference: ArcRef,
) -> Result<Option<FoundKey>, Error>
    ensures found { IfOk result
        (λ key. IsKeyOfTarget (λ n. row_by found.now n) (pager_core S.PagableStorage pager.now) reference key) }
    ensures height { IfOk result (λ o. IfSome o (λ k. (if is_loose_kind reference.kind.0 then 0 else one_more k.height)
        ≡ height_through (λ n. row_by found.now n) reference)) }
    ensures refused { IfErr result (LooksInVain (pager_core S.PagableStorage pager.now) reference) }
{
    if !reference.kind.is_loose() {
        return Ok(found_at(found, reference.node));
    }
    let keyed = match cell_key(pager, reference) {
        Ok(keyed) => keyed,
        Err(e) => return Err(e),
    };
    match keyed {
        OptionalDataKey::Some(key) => Ok(Some(FoundKey { key, height: 0 })),
        OptionalDataKey::None => Ok(None),
    }
}

// Returns the length of the longest path from the holder of a reference through its target: 0 for a
// loose reference, else one more than the target's own longest path, whose length is `height`.
fn height_above(reference: ArcRef, height: u64) -> u64
    ensures { result ≡ (if is_loose_kind reference.kind.0 then 0 else one_more height) }
{
    if reference.kind.is_loose() {
        0
    } else {
        height.saturating_add(1)
    }
}

// Appends a key.
fn add_key(keys: &mut Vec<DataKey>, key: DataKey) -> Result<(), Error>
    ensures adds { OnOk result (keys.new.items ≡ keys.old.items ++ key ∷ []) }
    ensures refused { IfErr result (λ e. e ≡ Error.OutOfMemory) }
{
    keys.push(key)?;
    Ok(())
}

// Returns the reference at this index, if there is one.
fn reference_at(references: &Vec<ArcRef>, at: usize) -> Option<ArcRef>
    ensures { result ≡ slice_get references.now.items at }
{
    references.get(at).copied()
}

// Appends the key of a reference's target, and returns the length of the longest path through the
// reference. Fails with `TooDeep` if the target has no key yet.
fn append_key<E: Env<Node: NodeSet<E>>, S: PagableStorage<E>>(
    pager: &Pager<E, S>,
    found: &FoundKeys,
    reference: ArcRef,
    keys: &mut Vec<DataKey>,
) -> Result<u64, Error>
    ensures adds { IfOk result (AppendsKey (λ n. row_by found.now n) (pager_core S.PagableStorage pager.now) reference
        keys.old.items keys.new.items) }
    ensures fails { IfErr result (KeyFails (λ n. row_by found.now n) (pager_core S.PagableStorage pager.now) reference) }
{
    let known = match find_key(pager, found, reference) {
        Ok(known) => known,
        Err(e) => return Err(e),
    };
    match known {
        Some(key) => match add_key(keys, key.key) {
            Ok(()) => Ok(height_above(reference, key.height)),
            Err(e) => Err(e),
        },
        None => Err(Error::TooDeep),
    }
}

/// Collects the keys of the targets of these references, and returns them with the length of the
/// longest path below the node that holds the references. Fails with `TooDeep` if a target has no
/// key yet.
pub(crate) fn collect_keys<E: Env<Node: NodeSet<E>>, S: PagableStorage<E>>(
    alloc: Global,
    pager: &Pager<E, S>,
    found: &FoundKeys,
    references: &Vec<ArcRef>,
) -> Result<(Vec<DataKey>, u64), Error>
    ensures keys { IfOk result (λ r. AllHaveKeys (λ n. row_by found.now n) (pager_core S.PagableStorage pager.now)
        references.now.items r.0.items) }
    ensures height { IfOk result (λ r. r.1 ≡ height_over (λ n. row_by found.now n) references.now.items) }
    ensures fails { IfErr result
        (KeysFail (λ n. row_by found.now n) (pager_core S.PagableStorage pager.now) references.now.items) }
{
    let mut keys = Vec::with_capacity(alloc, references.len())?;
    let mut height = 0;
    let mut at = 0;
    while at < references.len() {
        let Some(reference) = reference_at(references, at) else {
            return Err(Error::TooDeep);
        };
        let above = match append_key(pager, found, reference, &mut keys) {
            Ok(above) => above,
            Err(e) => return Err(e),
        };
        height = above.max(height);
        at += 1;
    }
    Ok((keys, height))
}
