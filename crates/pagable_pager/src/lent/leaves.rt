//! Leaves of the page-out list, for who pages out behind a lock: one call takes several off the list
//! and shares their values, which are then written without the lock; another call stores them.

ghost use Rattle.pagable_core.specs.Data.{blob_of};
ghost use Rattle.pagable_load.specs.AccessView.{Acts, values_at};
ghost use Rattle.pagable_pager.specs.{
  TakenLeaves.{FinishesLeaves, HoldsBare, PutsBack, StoresLeaf, TakesLeaf, TakesLeaves, WritesEach},
  View.{pager_state},
};
ghost use Rattle.pagable_value_spec.specs.Blob.{key_of};
ghost use Rattle.std.specs.{
  Arc.arc_value,
  Prelude.{IfOk, IfSome, None, Some, if◌then◌else◌, map, vec_len, [], ◌≡◌, ◌≤◌},
};

use super::Lent;
use crate::pager::leaf_page_out::{LEAVES_AT_ONCE, write_bare};
use pagable_codec::{Env, KeyHash, NodeSet};
use pagable_core::{PagableData, PagableStorage, SessionOf, compute_keys};
use pagable_load::{Access, WorkerAccess};
use pagable_value_spec::{DataKey, Error, HandleNumber};
use std::alloc::Global;
use std::sync::Arc;

/// The handle of an entry that was taken off the page-out list, and the value of its cell, which
/// refers to nothing.
#[derive(Drop)]
pub struct TakenLeaf<N> {
    pub handle: HandleNumber,
    pub value: Arc<N>,
}

/// The blobs of taken leaves, from the first leaf on, and the blobs' keys; and why the leaf after
/// them couldn't be written, if that is so.
#[derive(Drop)]
pub struct WrittenLeaves {
    pub blobs: Vec<PagableData>,
    pub keys: Vec<DataKey>,
    pub refused: Option<Error>,
}

// Writes the values of leaves as blobs, up to the first that can't be written. Fails as writing that
// one does, or with OutOfMemory.
fn add_blobs<E: Env<Node: NodeSet<E>>>(
    env: &E,
    session: &SessionOf<E>,
    alloc: Global,
    taken: &[TakenLeaf<E::Node>],
    blobs: &mut Vec<PagableData>,
) -> Result<(), Error>
    requires { blobs.old.items ≡ [] }
    ensures { WritesEach (values_at E.Node.NodeSet E.Env E.Hash.KeyHash env.now) taken.now blobs.new.items }
{
    for leaf in taken {
        let blob = write_bare(env, session, alloc, leaf.value.as_ref())?;
        blobs.push(blob)?;
    }
    Ok(())
}

// Computes the keys of blobs, in one call of the hash. Fails with OutOfMemory alone.
fn compute_blob_keys<H: KeyHash>(
    alloc: Global,
    blobs: &[PagableData],
) -> Result<Vec<DataKey>, Error>
    ensures { IfOk result (λ keys. keys.items ≡ map (λ blob. key_of H.digest (blob_of blob)) blobs.now) }
{
    let borrowed: Vec<&PagableData> = blobs.iter().collect(alloc)?;
    compute_keys::<H>(alloc, &borrowed)
}

/// Writes the values of taken leaves as blobs, from the first leaf on, up to the first that can't be
/// written, and computes their keys in one call of the hash. Without memory for the keys there are
/// no blobs, and the first leaf is the one that can't be written.
pub fn write_leaves<E: Env<Node: NodeSet<E>>>(
    env: &E,
    session: &SessionOf<E>,
    alloc: Global,
    taken: &[TakenLeaf<E::Node>],
) -> WrittenLeaves
    ensures forms { WritesEach (values_at E.Node.NodeSet E.Env E.Hash.KeyHash env.now) taken.now result.blobs.items }
    ensures keys { result.keys.items ≡ map (λ blob. key_of E.Hash.digest (blob_of blob)) result.blobs.items }
{
    let mut blobs = Vec::new(alloc);
    let refused = add_blobs(env, session, alloc, taken, &mut blobs).err();
    match compute_blob_keys::<E::Hash>(alloc, &blobs) {
        Ok(keys) => WrittenLeaves {
            blobs,
            keys,
            refused,
        },
        Err(e) => WrittenLeaves {
            blobs: Vec::new(alloc),
            keys: Vec::new(alloc),
            refused: Some(e),
        },
    }
}

impl<'a, E: Env<Node: NodeSet<E>>, S: PagableStorage<E>> Lent<'a, E, S> {
    // Takes the entry at this place off the page-out list, for this access's owner, if its cell has no
    // key, and the cell's value is in memory and refers to nothing.
    fn take_leaf(&mut self, alloc: Global, place: usize) -> Option<TakenLeaf<E::Node>>
        ensures { Acts (λ l. if S.is_honest l.pager.now.storage then Some (pager_state S.PagableStorage l.pager.now)
            else None) (λ l. record { me = l.me; environment = l.pager.now.environment; lender = l.pager.ghost_name })
            self.old self.new (λ a. TakesLeaf (values_at E.Node.NodeSet E.Env E.Hash.KeyHash a.environment) a.me place
            result) }
    {
        let value = self.pager.bare_entry(alloc, place)?;
        let Some(handle) = self.pager.take_pending_for(self.me, place) else {
            unreachable!();
        };
        self.pager.assert_invariant();
        Some(TakenLeaf { handle, value })
    }

    /// Takes entries of the page-out list off it, for this access's owner, and shares the values of
    /// their cells: those below `left`, from the last of them on, as long as their cells have no key
    /// and their values are in memory and refer to nothing, but at most sixteen. The first leaf is that of
    /// the last entry.
    pub fn take_leaves(&mut self, alloc: Global, left: usize) -> Vec<TakenLeaf<E::Node>>
        ensures acts { Acts (λ l. if S.is_honest l.pager.now.storage then Some (pager_state S.PagableStorage l.pager.now)
            else None) (λ l. record { me = l.me; environment = l.pager.now.environment; lender = l.pager.ghost_name })
            self.old self.new (λ a. TakesLeaves (values_at E.Node.NodeSet E.Env E.Hash.KeyHash a.environment) a.me left
            result.items) }
        ensures count { vec_len result ≤ left }
    {
        let Ok(mut taken) = Vec::with_capacity(alloc, LEAVES_AT_ONCE) else {
            return Vec::new(alloc);
        };
        let mut place = left;
        while place > 0 && taken.len() < LEAVES_AT_ONCE {
            let Some(leaf) = self.take_leaf(alloc, place - 1) else {
                return taken;
            };
            taken.push_reserved(leaf);
            place -= 1;
        }
        taken
    }

    // Puts the handles of taken leaves at the end of the page-out list, that of the first leaf last.
    // Ignores an error of the list.
    fn put_back(&mut self, taken: &[TakenLeaf<E::Node>])
        ensures { Acts (λ l. if S.is_honest l.pager.now.storage then Some (pager_state S.PagableStorage l.pager.now)
            else None) (λ l. record { me = l.me; environment = l.pager.now.environment; lender = l.pager.ghost_name })
            self.old self.new (λ a. PutsBack (values_at E.Node.NodeSet E.Env E.Hash.KeyHash a.environment) a.me taken.now) }
    {
        let Some((leaf, rest)) = taken.split_first() else {
            return;
        };
        self.put_back(rest);
        let _told = self.schedule_for_paging(leaf.handle);
    }

    // Stores a blob, sets its key through this handle, and releases the handle. Fails as storing the
    // blob does.
    fn store_leaf(
        &mut self,
        alloc: Global,
        handle: HandleNumber,
        key: DataKey,
        blob: PagableData,
    ) -> Result<(), Error>
        requires { key ≡ key_of E.Hash.digest (blob_of blob) }
        ensures { Acts (λ l. if S.is_honest l.pager.now.storage then Some (pager_state S.PagableStorage l.pager.now)
            else None) (λ l. record { me = l.me; environment = l.pager.now.environment; lender = l.pager.ghost_name })
            self.old self.new (λ a. StoresLeaf (values_at E.Node.NodeSet E.Env E.Hash.KeyHash a.environment) a.me handle
            (blob_of blob) result) }
    {
        let key = self.store_keyed(alloc, key, blob)?;
        let _set = self.set_data_key(handle, key);
        let _released = self.release(handle);
        Ok(())
    }

    /// Stores the blobs of taken leaves, one after the other from the first leaf on, sets their keys
    /// through the leaves' handles and releases these. Puts the handles of leaves without a blob at the
    /// end of the page-out list, that of the first of them last.
    ///
    /// # Errors
    ///
    /// - those of storing a blob; the leaves before it are stored. Its leaf's handle and those of the
    ///   leaves after it stand at the list's end, its own last.
    pub fn finish_leaves(
        &mut self,
        alloc: Global,
        taken: &[TakenLeaf<E::Node>],
        written: WrittenLeaves,
    ) -> Result<(), Error>
        requires { written.keys.items ≡ map (λ blob. key_of E.Hash.digest (blob_of blob)) written.blobs.items }
        ensures { Acts (λ l. if S.is_honest l.pager.now.storage then Some (pager_state S.PagableStorage l.pager.now)
            else None) (λ l. record { me = l.me; environment = l.pager.now.environment; lender = l.pager.ghost_name })
            self.old self.new (λ a. FinishesLeaves (values_at E.Node.NodeSet E.Env E.Hash.KeyHash a.environment) a.me
            taken.now written.blobs.items result) }
    {
        let mut blobs = written.blobs.into_iter();
        let mut keys = written.keys.into_iter();
        let mut left = taken;
        while let Some((leaf, rest)) = left.split_first() {
            let Some(blob) = blobs.next() else {
                self.put_back(left);
                return Ok(());
            };
            let Some(key) = keys.next() else {
                unreachable!();
            };
            if let Err(e) = self.store_leaf(alloc, leaf.handle, key, blob) {
                self.put_back(left);
                return Err(e);
            }
            left = rest;
        }
        Ok(())
    }
}
