//! Entries of the page-out list whose values have no references: they are paged out without a
//! worker, with the result of a worker that takes the entry, pins, writes and stores the value, sets
//! the key, releases the cell and ends.

ghost use Rattle.pagable_core.specs.Data.{blob_of};
ghost use Rattle.pagable_load.specs.{AccessView.values_at, WorkerCalls.PagesLeaves};
ghost use Rattle.pagable_pager.specs.{
  TakenLeaves.HoldsBare,
  LeafPageOut.{AreNewFor, AreShared, AreWritten, IsBareAt, IsShared, IsWritten, PagesLeafIfThere, WritesBare},
  LeafPageOut.{WritesLeaf, leaf_keys, with_entry_paged, with_entry_relisted},
  View.{AddsNoValue, BetweenIfHonest, Calls, ChangesOnlyTables, FewerValues, KeepsWorkers, pager_core, pager_state},
};
ghost use Rattle.pagable_pager_spec.specs.{
  Calls.TakeCall,
  Kinds.{HasKinds, pins},
  Pager.{IsPagerWhole, PagerState},
  World.{Alike, greatest, row_at},
  declared.handle_row.{HandleRow.HandleRow, Owner.Owner},
};
ghost use Rattle.pagable_tables.specs.LeafEntry.{IsLeafEntry, with_worker_numbers};
ghost use Rattle.pagable_value_spec.specs.Blob.{key_of};
ghost use Rattle.std.specs.{Arc.arc_value, Prelude.{IfOk, IfSome, IsTrue, List, Some, length, map, ◌+◌, ◌<◌, ◌≡◌, ◌≤◌}};

use crate::pager::Pager;
use pagable_codec::{Env, KeyHash, NodeSet};
use pagable_core::{PagableData, PagableStorage, SerializerForPaging, SessionOf, compute_keys};
use pagable_pager_spec::handle_row::Owner;
use pagable_tables::leaf_entry::{self, LeafEntry};
use pagable_value_spec::{DataKey, Error, HandleNumber, Kind, NodeNumber, OptionalDataKey};
use std::alloc::Global;
use std::sync::Arc;

/// How many leaves are paged out at once: their hashes are made four at a time, in lanes, and threads
/// that page out meet at the lock once for so many.
pub(crate) const LEAVES_AT_ONCE: usize = 16;

/// The node of an entry of the page-out list, and its value.
#[derive(Drop)]
struct SharedLeaf<N> {
    node: NodeNumber,
    value: Arc<N>,
}

/// A node, and the blob that its value was written as.
#[derive(Drop)]
struct WrittenLeaf {
    node: NodeNumber,
    blob: PagableData,
}

// Writes a value without references as a blob. Fails as writing it does, or with WrongMode if it has
// references.
pub(crate) fn write_bare<E: Env<Node: NodeSet<E>>>(
    env: &E,
    session: &SessionOf<E>,
    alloc: Global,
    value: &E::Node,
) -> Result<PagableData, Error>
    ensures { IfOk result (λ blob. WritesBare (values_at E.Node.NodeSet E.Env E.Hash.KeyHash env.now) value.now
        (blob_of blob)) }
{
    let mut serializer = SerializerForPaging::new(alloc, env, session);
    value.write(&mut serializer)?;
    let (bytes, references) = serializer.finish();
    if !references.is_empty() {
        return Err(Error::WrongMode);
    }
    let arcs = Vec::new(alloc);
    Ok(PagableData { bytes, arcs })
}

// Writes the values of leaves as blobs, from the last on, up to the first that has references or
// can't be written. The last leaf's blob stands last.
fn write_leaves<E: Env<Node: NodeSet<E>>>(
    env: &E,
    session: &SessionOf<E>,
    alloc: Global,
    mut shared: Vec<SharedLeaf<E::Node>>,
) -> Vec<WrittenLeaf>
    ensures { (s : PagerState E.Node E) → AreShared s shared.items
        → AreWritten (values_at E.Node.NodeSet E.Env E.Hash.KeyHash env.now) s result.items }
{
    let Some(leaf) = shared.pop() else {
        return Vec::new(alloc);
    };
    let Ok(blob) = write_bare(env, session, alloc, leaf.value.as_ref()) else {
        return Vec::new(alloc);
    };
    let node = leaf.node;
    let mut written = write_leaves(env, session, alloc, shared);
    let _pushed = written.push(WrittenLeaf { node, blob });
    written
}

// Borrows the leaves' blobs.
fn borrow_blobs(alloc: Global, leaves: &[WrittenLeaf]) -> Result<Vec<&PagableData>, Error>
    ensures { IfOk result (λ blobs. map (λ blob. blob.now) blobs.items ≡ map (λ leaf. leaf.blob) leaves.now) }
{
    let mut blobs = Vec::with_capacity(alloc, leaves.len())?;
    for leaf in leaves {
        blobs.push(&leaf.blob)?;
    }
    Ok(blobs)
}

// Computes the keys of the leaves' blobs, in one call of the hash. Fails with OutOfMemory alone.
fn compute_leaf_keys<H: KeyHash>(
    alloc: Global,
    leaves: &[WrittenLeaf],
) -> Result<Vec<DataKey>, Error>
    ensures { IfOk result (λ keys. keys.items ≡ leaf_keys H.digest leaves.now) }
{
    let blobs = borrow_blobs(alloc, leaves)?;
    let keys = compute_keys::<H>(alloc, &blobs)?;
    Ok(keys)
}

impl<E: Env<Node: NodeSet<E>>, S: PagableStorage<E>> Pager<E, S> {
    /// Returns the entry at this place of the page-out list, if it may be paged out without a
    /// worker: its cell has no key, the kinds of the cell's type fit 32 bits, there is room for two
    /// more handles, and numbers are left for a worker and three handles.
    fn leaf_entry(&self, place: usize) -> Option<LeafEntry>
        ensures leaf { IfSome result (IsLeafEntry (pager_core S.PagableStorage self.now) place) }
        ensures kinds { IfSome result (λ entry. HasKinds entry.node_type) }
    {
        let entry = leaf_entry::find_unkeyed_entry(&self.tables, place)?;
        Kind::loose_of(entry.node_type)?;
        Some(entry)
    }

    /// Returns the value of the cell of the entry at this place of the page-out list, if the cell has no
    /// key, and the value is in memory and refers to nothing.
    pub(crate) fn bare_entry(&self, alloc: Global, place: usize) -> Option<Arc<E::Node>>
        ensures { IfSome result (λ value. HoldsBare (values_at E.Node.NodeSet E.Env E.Hash.KeyHash self.now.environment)
            (pager_state S.PagableStorage self.now) place (arc_value value)) }
    {
        let (row, _, OptionalDataKey::None) = self.pending_entry(place)? else {
            return None;
        };
        let value = self.values.get(row.node.0)?;
        let references = value.refs(alloc).ok()?;
        if !references.is_empty() {
            return None;
        }
        value.clone().ok()
    }

    /// Uses up the numbers of a worker and of two handles.
    fn take_worker_numbers(&mut self)
        requires worker_left { (pager_core S.PagableStorage self.old).last.worker < greatest }
        requires handles_left { (pager_core S.PagableStorage self.old).last.handle + 1 < greatest }
        ensures { Calls ChangesOnlyTables S.PagableStorage self.old (λ w w'. w' ≡ with_worker_numbers w) self.new }
    {
        leaf_entry::take_worker_numbers(&mut self.tables);
    }

    /// Takes the entry at this place off the page-out list, for the caller, and uses up the numbers
    /// of a worker and of two handles. Returns the entry's handle.
    fn take_leaf(&mut self, place: usize) -> HandleNumber
        requires worker_left { (pager_core S.PagableStorage self.old).last.worker < greatest }
        requires handles_left { (pager_core S.PagableStorage self.old).last.handle + 1 < greatest }
        requires within { place < length (pager_core S.PagableStorage self.old).list }
        ensures takes { Calls ChangesOnlyTables S.PagableStorage self.old
            (λ w w'. TakeCall (with_worker_numbers w) Owner.Caller place (Some result) w') self.new }
        ensures whole { IsPagerWhole (values_at E.Node.NodeSet E.Env E.Hash.KeyHash self.new.environment)
            (pager_state S.PagableStorage self.new) }
    {
        self.take_worker_numbers();
        let Some(handle) = self.take_pending_for(Owner::Caller, place) else {
            unreachable!();
        };
        self.assert_invariant();
        handle
    }

    /// Takes the entry at this place off the page-out list, sets the key of its cell and releases
    /// the entry's handle.
    fn finish_leaf(&mut self, place: usize, entry: LeafEntry, key: DataKey)
        requires leaf { IsLeafEntry (pager_core S.PagableStorage self.old) place entry }
        requires bare { IsBareAt (values_at E.Node.NodeSet E.Env E.Hash.KeyHash self.old.environment)
            (pager_state S.PagableStorage self.old) entry.row.node.0 }
        ensures leaves { Alike (with_entry_paged (pager_core S.PagableStorage self.old) place entry.row key)
            (pager_core S.PagableStorage self.new) }
        ensures only { AddsNoValue self.old self.new }
        ensures whole { IsPagerWhole (values_at E.Node.NodeSet E.Env E.Hash.KeyHash self.new.environment)
            (pager_state S.PagableStorage self.new) }
    {
        self.assert_invariant();
        let handle = self.take_leaf(place);
        let _set = self.set_data_key_for(Owner::Caller, handle, key);
        let _released = self.release_for(Owner::Caller, handle);
    }

    /// Returns how many handles pin the node of a live handle.
    fn pins_of(&self, handle: HandleNumber) -> u64
        ensures { (row : HandleRow) → row_at (pager_core S.PagableStorage self.now) handle ≡ Some row
            → result ≡ pins row.node.0 (pager_core S.PagableStorage self.now).rows }
    {
        match self.count(handle) {
            Ok(pins) => pins,
            Err(_) => 0,
        }
    }

    /// Takes the entry at this place off the page-out list and releases its handle. If nothing pins
    /// the entry's cell, puts a new entry for it at the list's end.
    fn relist_leaf(&mut self, place: usize, entry: LeafEntry)
        requires leaf { IsLeafEntry (pager_core S.PagableStorage self.old) place entry }
        requires bare { IsBareAt (values_at E.Node.NodeSet E.Env E.Hash.KeyHash self.old.environment)
            (pager_state S.PagableStorage self.old) entry.row.node.0 }
        ensures leaves { (entries : List HandleRow) × AreNewFor (pager_core S.PagableStorage self.old) entry.row entries
            × Alike (with_entry_relisted (pager_core S.PagableStorage self.old) place entry.row entries)
            (pager_core S.PagableStorage self.new) }
        ensures only { AddsNoValue self.old self.new }
        ensures whole { IsPagerWhole (values_at E.Node.NodeSet E.Env E.Hash.KeyHash self.new.environment)
            (pager_state S.PagableStorage self.new) }
    {
        self.assert_invariant();
        let handle = self.take_leaf(place);
        if self.pins_of(handle) == 0 {
            let Ok(new) = self.clone_for(Owner::Caller, handle) else {
                unreachable!();
            };
            self.assert_invariant();
            let _listed = self.schedule_for_paging_for(Owner::Caller, new);
        }
        let _released = self.release_for(Owner::Caller, handle);
    }

    // Returns whether a leaf is that of this entry, and its node has a value in memory that has no
    // references.
    fn is_entry_of(&self, alloc: Global, entry: LeafEntry, leaf: &WrittenLeaf) -> bool
        ensures bare { IsTrue result → IsBareAt (values_at E.Node.NodeSet E.Env E.Hash.KeyHash self.now.environment)
            (pager_state S.PagableStorage self.now) entry.row.node.0 }
        ensures written { IsTrue result
            → IsWritten (values_at E.Node.NodeSet E.Env E.Hash.KeyHash self.now.environment)
            (pager_state S.PagableStorage self.now) leaf.now
            → WritesLeaf (values_at E.Node.NodeSet E.Env E.Hash.KeyHash self.now.environment)
            (pager_state S.PagableStorage self.now) entry.row.node.0 (blob_of leaf.now.blob) }
    {
        let Some(value) = self.values.get(leaf.node.0) else {
            return false;
        };
        let Ok(references) = value.refs(alloc) else {
            return false;
        };
        if !references.is_empty() {
            return false;
        }
        entry.row.node == leaf.node
    }

    // Pages out the entry at this place of the page-out list, if it is the entry of this leaf, and
    // returns the cell's key, which is this one. Returns None, and does nothing, if the entry isn't
    // such a one. Fails as storing the blob does: the entry has left its place, and stands at the
    // list's end under a new handle if nothing pins its cell.
    fn page_out_leaf(
        &mut self,
        alloc: Global,
        place: usize,
        leaf: WrittenLeaf,
        key: DataKey,
    ) -> Result<Option<DataKey>, Error>
        requires { key ≡ key_of E.Hash.digest (blob_of leaf.blob) }
        ensures pages { BetweenIfHonest E.Node.NodeSet E.Env E.Hash.KeyHash S.PagableStorage self.old self.new
            (λ v s s'. IsWritten v s leaf → PagesLeafIfThere v s place result s') }
        ensures honest { IsTrue (S.is_honest self.new.storage) → IsTrue (S.is_honest self.old.storage) }
        ensures kept { KeepsWorkers (pager_core S.PagableStorage self.old) (pager_core S.PagableStorage self.new) }
        ensures fewer { FewerValues self.old self.new }
    {
        let Some(entry) = self.leaf_entry(place) else {
            return Ok(None);
        };
        if !self.is_entry_of(alloc, entry, &leaf) {
            return Ok(None);
        }
        self.assert_invariant();
        match self.store_keyed(alloc, key, leaf.blob) {
            Ok(key) => {
                self.finish_leaf(place, entry, key);
                Ok(Some(key))
            }
            Err(e) => {
                self.relist_leaf(place, entry);
                Err(e)
            }
        }
    }

    // Returns the node and the value of the entry at this place of the page-out list, if it may be
    // paged out without a worker and the value is in memory.
    fn share_entry(&self, place: usize) -> Option<SharedLeaf<E::Node>>
        ensures { IfSome result (IsShared (pager_state S.PagableStorage self.now)) }
    {
        let node = self.leaf_entry(place)?.row.node;
        let value = self.values.get(node.0)?.clone().ok()?;
        Some(SharedLeaf { node, value })
    }

    // Returns the nodes and values of at most so many entries below `left`, from the last of them on,
    // up to the first that can't be paged out without a worker. The last entry's stands last.
    fn share_entries(&self, alloc: Global, left: usize, most: usize) -> Vec<SharedLeaf<E::Node>>
        ensures { AreShared (pager_state S.PagableStorage self.now) result.items }
    {
        if left == 0 || most == 0 {
            return Vec::new(alloc);
        }
        let Some(leaf) = self.share_entry(left - 1) else {
            return Vec::new(alloc);
        };
        let mut leaves = self.share_entries(alloc, left - 1, most - 1);
        let _pushed = leaves.push(leaf);
        leaves
    }

    // Pages out the entries of the page-out list below `left` whose leaves these are, the last leaf
    // first, as long as each is the last entry that is left. `keys` are the keys of the leaves' blobs.
    // Returns how many entries are left below them. Fails as storing the blob of an entry does; those
    // after it in the list are paged out. The entry has left its place, and stands at the list's end
    // under a new handle if nothing pins its cell.
    fn page_out_written(
        &mut self,
        alloc: Global,
        left: usize,
        mut leaves: Vec<WrittenLeaf>,
        mut keys: Vec<DataKey>,
    ) -> Result<usize, Error>
        requires { keys.items ≡ leaf_keys E.Hash.digest leaves.items }
        ensures pages { BetweenIfHonest E.Node.NodeSet E.Env E.Hash.KeyHash S.PagableStorage self.old self.new
            (λ v s s'. AreWritten v s leaves.items → PagesLeaves v s left result s') }
        ensures rest { IfOk result (λ rest. rest ≤ left) }
        ensures honest { IsTrue (S.is_honest self.new.storage) → IsTrue (S.is_honest self.old.storage) }
        ensures kept { KeepsWorkers (pager_core S.PagableStorage self.old) (pager_core S.PagableStorage self.new) }
        ensures fewer { FewerValues self.old self.new }
    {
        let mut rest = left;
        while rest > 0 {
            let (Some(leaf), Some(key)) = (leaves.pop(), keys.pop()) else {
                return Ok(rest);
            };
            match self.page_out_leaf(alloc, rest - 1, leaf, key) {
                Ok(Some(_)) => rest -= 1,
                Ok(None) => return Ok(rest),
                Err(e) => return Err(e),
            }
        }
        Ok(rest)
    }

    /// Pages out entries of the page-out list in one call: those below `left`, from the last of them
    /// on, as long as their cells have no key and their values no references, but at most sixteen.
    /// Hashes their blobs at once, and then pages out one after the other. Returns how many entries
    /// are left below them.
    ///
    /// # Errors
    ///
    /// - those of storing the blob of an entry; those after it in the list are paged out. The entry
    ///   has left its place, and stands at the list's end under a new handle if nothing pins its cell.
    pub(crate) fn page_out_leaves(&mut self, alloc: Global, left: usize) -> Result<usize, Error>
        ensures pages { BetweenIfHonest E.Node.NodeSet E.Env E.Hash.KeyHash S.PagableStorage self.old self.new
            (λ v s s'. PagesLeaves v s left result s') }
        ensures rest { IfOk result (λ rest. rest ≤ left) }
        ensures honest { IsTrue (S.is_honest self.new.storage) → IsTrue (S.is_honest self.old.storage) }
        ensures kept { KeepsWorkers (pager_core S.PagableStorage self.old) (pager_core S.PagableStorage self.new) }
        ensures fewer { FewerValues self.old self.new }
    {
        let shared = self.share_entries(alloc, left, LEAVES_AT_ONCE);
        let leaves = write_leaves(self.env(), self.session_context(), alloc, shared);
        let Ok(keys) = compute_leaf_keys::<E::Hash>(alloc, &leaves) else {
            return Ok(left);
        };
        self.page_out_written(alloc, left, leaves, keys)
    }
}
