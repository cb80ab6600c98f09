//! Cells whose blobs have no references: they are pinned without a load's row, with the result of a
//! load that begins, fetches the blob, reads it and ends.

ghost use Rattle.pagable_core.specs.Data.{blob_of};
ghost use Rattle.pagable_load.specs.{AccessView.values_at, Decoding.IsReadAs};
ghost use Rattle.pagable_pager.specs.{
  Leaf.{LeafBegun, LeafDropped, LeafFetched, LeafPinned, LeafUnbegun},
  View.{Between, BetweenIfHonest, SameNames, pager_core, pager_state},
};
ghost use Rattle.pagable_pager_spec.specs.{Access.{IsValueOf, MakesCall, PinRun}, LoadCalls.BeginCall, World.Alike};
ghost use Rattle.pagable_tables.specs.{HandleTable.room, Leaf.IsLeaf};
ghost use Rattle.pagable_value_spec.specs.Blob.{key_of};
ghost use Rattle.std.specs.{Arc.arc_value, Prelude.{Err, IfErr, IfNone, IfOk, IfSome, IsTrue, [], ◌≡◌, ◌≤◌}};

use crate::pager::Pager;
use crate::pager::insert::put_and_share;
use pagable_codec::{Env, NodeSet};
use pagable_core::{PagableData, PagableStorage};
use pagable_load::{Access, Decoded, decode};
use pagable_pager_spec::Beginning;
use pagable_pager_spec::handle_row::Owner;
use pagable_tables::leaf::{self, Leaf};
use pagable_tables::load;
use pagable_value_spec::{Error, HandleNumber, LoadNumber};
use std::alloc::Global;
use std::sync::Arc;

/// Reads a blob without references as a value of this type without references. Returns None if
/// either has references, or the blob can't be read.
pub fn read_leaf<E: Env<Node: NodeSet<E>>, A: Access<E>>(
    access: &A,
    alloc: Global,
    blob: &PagableData,
    node_type: u32,
) -> Option<E::Node>
    ensures read { IfSome result (IsReadAs (values_at E.Node.NodeSet E.Env E.Hash.KeyHash
        (A.acting access.now).environment) node_type (blob_of blob.now) []) }
    ensures bare { IfSome result (λ x. E.Node.refs_of x ≡ []) }
{
    if !blob.arcs.is_empty() {
        return None;
    }
    let got = Vec::new(alloc);
    let lent = Vec::new(alloc);
    let read = decode(
        access,
        alloc,
        blob,
        node_type,
        got.as_slice(),
        lent.as_slice(),
    );
    let Decoded::Read(value) = read else {
        return None;
    };
    let references = value.refs(alloc).ok()?;
    references.is_empty().then_some(value)
}

impl<E: Env<Node: NodeSet<E>>, S: PagableStorage<E>> Pager<E, S> {
    /// Finds the cell of a loose handle of the caller's, if its value isn't in memory, reserves
    /// room for a pin, and fetches the cell's blob. Returns None and changes nothing if the value
    /// is in memory, or the handle can't be pinned by a load.
    ///
    /// # Errors
    ///
    /// - `OutOfMemory` if there is no room for the pin, or none for the blob: no load is left.
    /// - those of fetching the blob: no load is left.
    pub(crate) fn start_leaf(
        &mut self,
        alloc: Global,
        handle: HandleNumber,
    ) -> Result<Option<(Leaf, Arc<PagableData>)>, Error>
        ensures none { IfOk result (λ found. IfNone found (self.new ≡ self.old)) }
        ensures number { IfOk result (λ found. IfSome found (λ f. f.0.row.number ≡ handle)) }
        ensures leaf { IfOk result
            (λ found. IfSome found (λ f. IsLeaf (pager_core S.PagableStorage self.new) Owner.Caller f.0)) }
        ensures place { IfOk result (λ found. IfSome found (λ f. 1 ≤ room self.new.tables.ref_counts.handles)) }
        ensures named { IfOk result (λ found. IfSome found (λ f. key_of E.Hash.digest (blob_of (arc_value f.1)) ≡ f.0.key)) }
        ensures fetched { BetweenIfHonest E.Node.NodeSet E.Env E.Hash.KeyHash S.PagableStorage self.old self.new
            (λ v s s'. IfOk result (λ found. IfSome found (λ f. LeafFetched v s f.0 (blob_of (arc_value f.1)) s'))) }
        ensures refused { BetweenIfHonest E.Node.NodeSet E.Env E.Hash.KeyHash S.PagableStorage self.old self.new
            (λ v s s'. IfErr result (λ e. PinRun v s handle (Err e) s')) }
        ensures honest { IsTrue (S.is_honest self.new.storage) → IsTrue (S.is_honest self.old.storage) }
        ensures same_names { SameNames S.PagableStorage self.old.storage self.new.storage }
        ensures environment { self.new.environment ≡ self.old.environment }
    {
        let leaf = match leaf::prepare_pin(&mut self.tables, Owner::Caller, handle) {
            Ok(Some(leaf)) => leaf,
            Ok(None) => return Ok(None),
            Err(e) => return Err(e),
        };
        match self.fetch(alloc, leaf.key) {
            Ok(blob) => Ok(Some((leaf, blob))),
            Err(e) => {
                leaf::leave_unloaded(&mut self.tables, Owner::Caller, leaf);
                Err(e)
            }
        }
    }

    /// Finds the cell of a loose handle of the caller's, if its value isn't in memory, and reserves
    /// room for a pin. Returns None and changes nothing if the value is in memory, or the handle can't
    /// be pinned by a load.
    ///
    /// # Errors
    ///
    /// - `OutOfMemory` if there is no room for the pin: nothing changes.
    pub(crate) fn find_leaf(&mut self, handle: HandleNumber) -> Result<Option<Leaf>, Error>
        ensures number { IfOk result (λ found. IfSome found (λ leaf. leaf.row.number ≡ handle)) }
        ensures leaf { IfOk result
            (λ found. IfSome found (IsLeaf (pager_core S.PagableStorage self.new) Owner.Caller)) }
        ensures place { IfOk result (λ found. IfSome found (λ leaf. 1 ≤ room self.new.tables.ref_counts.handles)) }
        ensures stays { Between E.Node.NodeSet E.Env E.Hash.KeyHash S.PagableStorage self.old self.new
            (λ v s s'. MakesCall v (λ w'. Alike s.core w') s s') }
        ensures refused { Between E.Node.NodeSet E.Env E.Hash.KeyHash S.PagableStorage self.old self.new
            (λ v s s'. IfErr result (λ e. MakesCall v (λ w'. BeginCall s.core Owner.Caller handle (Err e) w') s s')) }
        ensures storage { self.new.storage ≡ self.old.storage }
        ensures environment { self.new.environment ≡ self.old.environment }
    {
        leaf::prepare_pin(&mut self.tables, Owner::Caller, handle)
    }

    /// Begins a load of the cell, whose blob was fetched, and returns its number.
    ///
    /// # Errors
    ///
    /// - `OutOfMemory` if the load can't be allocated: no load is left.
    pub(crate) fn begin_leaf_load(&mut self, leaf: Leaf) -> Result<LoadNumber, Error>
        requires leaf { IsLeaf (pager_core S.PagableStorage self.old) Owner.Caller leaf }
        requires place { 1 ≤ room self.old.tables.ref_counts.handles }
        ensures begun { Between E.Node.NodeSet E.Env E.Hash.KeyHash S.PagableStorage self.old self.new
            (λ v s s'. IfOk result (λ l. LeafBegun v s leaf l s')) }
        ensures dropped { Between E.Node.NodeSet E.Env E.Hash.KeyHash S.PagableStorage self.old self.new
            (λ v s s'. IfErr result (λ e. (e ≡ Error.OutOfMemory) × LeafUnbegun v s leaf s')) }
        ensures storage { self.new.storage ≡ self.old.storage }
        ensures environment { self.new.environment ≡ self.old.environment }
    {
        match load::load_begin(&mut self.tables, Owner::Caller, leaf.row.number) {
            Ok(Beginning::Load(load, _)) => Ok(load),
            Ok(Beginning::InMemory) => unreachable!(),
            Err(e) => {
                leaf::leave_unloaded(&mut self.tables, Owner::Caller, leaf);
                Err(e)
            }
        }
    }

    /// Gives the cell this value and pins it; returns the Pinned handle and the shared value.
    ///
    /// # Errors
    ///
    /// - `OutOfMemory` if the value can't be allocated: no load is left.
    pub(crate) fn pin_leaf(
        &mut self,
        alloc: Global,
        leaf: Leaf,
        value: E::Node,
    ) -> Result<(HandleNumber, Arc<E::Node>), Error>
        requires leaf { IsLeaf (pager_core S.PagableStorage self.old) Owner.Caller leaf }
        requires place { 1 ≤ room self.old.tables.ref_counts.handles }
        requires typed { E.Node.type_of value ≡ leaf.node_type }
        requires bare { E.Node.refs_of value ≡ [] }
        ensures pinned { Between E.Node.NodeSet E.Env E.Hash.KeyHash S.PagableStorage self.old self.new
            (λ v s s'. IfOk result (λ pin. LeafPinned v s leaf value pin.0 s')) }
        ensures held { IfOk result (λ pin. IsValueOf (pager_state S.PagableStorage self.new) pin.0 value) }
        ensures value { IfOk result (λ pin. arc_value pin.1 ≡ value) }
        ensures dropped { Between E.Node.NodeSet E.Env E.Hash.KeyHash S.PagableStorage self.old self.new
            (λ v s s'. IfErr result (λ e. (e ≡ Error.OutOfMemory) × LeafDropped v s leaf s')) }
        ensures storage { self.new.storage ≡ self.old.storage }
        ensures environment { self.new.environment ≡ self.old.environment }
    {
        match put_and_share(&mut self.values, alloc, leaf.row.node.0, value) {
            Ok(kept) => {
                let pinned = leaf::pin_loaded_leaf(&mut self.tables, Owner::Caller, leaf);
                Ok((pinned, kept))
            }
            Err(e) => {
                leaf::leave_unloaded(&mut self.tables, Owner::Caller, leaf);
                Err(e)
            }
        }
    }
}
