//! Pins of cells whose blobs have no references, for who pins behind a lock: one call fetches the
//! cell's blob, whose value is then read without the lock; another call gives the cell the value and
//! pins it.

ghost use Rattle.pagable_core.specs.Data.{blob_of};
ghost use Rattle.pagable_load.specs.AccessView.{Acts, values_at};
ghost use Rattle.pagable_pager.specs.{
  LeafPins.{BeginsOrFetches, IsNamedFetch, PinsReadLeaf, SharesFetch},
  View.{pager_state},
};
ghost use Rattle.pagable_pager_spec.specs.World.{result_map};
ghost use Rattle.std.specs.{
  Arc.arc_value,
  Option.option_map,
  Prelude.{IfErr, IfOk, IfSome, None, Some, if◌then◌else◌, [], ◌≡◌},
};

use super::{Lent, with_invariant};
use pagable_codec::{Env, NodeSet};
use pagable_core::{PagableData, PagableStorage};
use pagable_load::PinStart;
use pagable_pager_spec::handle_row::Owner;
use pagable_tables::leaf::Leaf;
use pagable_value_spec::{Error, HandleNumber, LoadNumber};
use std::alloc::Global;
use std::sync::Arc;

/// How a pin of a loose handle begins, if it fetches what it may have to read.
#[derive(Drop)]
pub enum BegunFetch<N> {
    /// The value is in memory: the new Pinned handle, whether the loose handle was unpinned before,
    /// and the result of sharing the value.
    Pinned(HandleNumber, bool, Result<Option<Arc<N>>, Error>),
    /// The cell's value isn't in memory: the cell, and its blob.
    Fetched(Leaf, Arc<PagableData>),
    /// A load of the cell has begun, since the last numbers are left.
    Loading(LoadNumber),
}

impl<'a, E: Env<Node: NodeSet<E>>, S: PagableStorage<E>> Lent<'a, E, S> {
    /// Fetches the blob of the cell of a loose handle of the caller's, if the cell's value isn't in
    /// memory, and makes room for a pin; else pins the cell, and shares its value. If only the numbers
    /// of a load and its handle are left, begins a load.
    ///
    /// # Errors
    ///
    /// - those of fetching the blob, and of `begin_pin`: no load is left.
    /// - `OutOfMemory` if there is no room for the pin: nothing changes.
    #[inline(always)]
    pub fn begin_pin_or_fetch(
        &mut self,
        alloc: Global,
        handle: HandleNumber,
    ) -> Result<BegunFetch<E::Node>, Error>
        requires caller { self.old.me ≡ Owner.Caller }
        ensures named { IfOk result (IsNamedFetch E.Hash.digest) }
        ensures acts { Acts (λ l. if S.is_honest l.pager.now.storage then Some (pager_state S.PagableStorage l.pager.now)
            else None) (λ l. record { me = l.me; environment = l.pager.now.environment; lender = l.pager.ghost_name })
            self.old self.new (λ a. BeginsOrFetches (values_at E.Node.NodeSet E.Env E.Hash.KeyHash a.environment) a.me
            handle result) }
        ensures shares { IfOk result (SharesFetch (pager_state S.PagableStorage self.new.pager.now)) }
    {
        if let Some((leaf, blob)) = self.pager.start_leaf(alloc, handle)? {
            return Ok(BegunFetch::Fetched(leaf, blob));
        }
        match with_invariant(self.pager.begin_pin_for(self.me, handle), self.pager)? {
            PinStart::Pinned(pinned, was_unpinned) => Ok(BegunFetch::Pinned(
                pinned,
                was_unpinned,
                self.pager.share(pinned),
            )),
            PinStart::Load(load, _, _) => Ok(BegunFetch::Loading(load)),
        }
    }

    /// Gives the cell of a leaf a value that was read from the leaf's key, and pins it by the leaf's
    /// handle; returns the Pinned handle and the shared value. Returns None, and only makes room, if
    /// the cell's value has come into memory meanwhile, the cell has another key, or the handle can't be
    /// pinned by a load any more.
    ///
    /// # Errors
    ///
    /// - `OutOfMemory` if there is no room for the pin or the value: no load is left.
    pub fn pin_read_leaf(
        &mut self,
        alloc: Global,
        leaf: Leaf,
        value: E::Node,
    ) -> Result<Option<(HandleNumber, Arc<E::Node>)>, Error>
        requires caller { self.old.me ≡ Owner.Caller }
        requires typed { E.Node.type_of value ≡ leaf.node_type }
        requires bare { E.Node.refs_of value ≡ [] }
        ensures acts { Acts (λ l. if S.is_honest l.pager.now.storage then Some (pager_state S.PagableStorage l.pager.now)
            else None) (λ l. record { me = l.me; environment = l.pager.now.environment; lender = l.pager.ghost_name })
            self.old self.new (λ a. PinsReadLeaf (values_at E.Node.NodeSet E.Env E.Hash.KeyHash a.environment) leaf value
            (result_map (option_map (λ pin. pin.0)) result)) }
        ensures value { IfOk result (λ found. IfSome found (λ pin. arc_value pin.1 ≡ value)) }
    {
        let Some(now) = self.pager.find_leaf(leaf.row.number)? else {
            return Ok(None);
        };
        if now.key != leaf.key || now.node_type != leaf.node_type {
            return Ok(None);
        }
        let pinned = self.pager.pin_leaf(alloc, now, value)?;
        Ok(Some(pinned))
    }
}
