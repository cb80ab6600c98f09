//! `Lent`: a lent pager as an access, for the caller or for a page-out worker; and the cache of a
//! pager.
#![tactic(auto, using(crate::proofs::LentCalls::lending))]

ghost use Rattle.pagable_core.specs.Data.{blob_of};
ghost use Rattle.pagable_load.specs.{
  AccessView.{Acts, IfKnown, IsReadBy, MakesCallBringing, values_at},
  Keyed.IsKeyed,
  PinStart.ended_of,
};
ghost use Rattle.pagable_pager.specs.{
  Leaf.{LeafLoads, PinsPagedOut},
  View.{AddsNoValue, BetweenIfHonest, BringsToCell, Calls, ChangesOnlyTables, may_call, pager_core, pager_state},
};
ghost use Rattle.pagable_pager_spec.specs.{
  Access.IsValueOf,
  Calls.{ClearCall, OfferCall, RecallCall},
  LoadCalls.EndCall,
  Pager.{IsCellOf, IsPagerWhole, ValueCall},
  World.result_map,
};
ghost use Rattle.pagable_tables.specs.{HandleTable.room, Leaf.IsLeaf, Soundness.is_sound};
ghost use Rattle.pagable_value_spec.specs.Blob.{key_of};
ghost use Rattle.std.specs.{Arc.arc_value, Option.option_map, Prelude.{IfErr, IfOk, IfSome, IsTrue, None, Ok, Some, if◌then◌else◌, true, ◌≡◌, ◌≤◌}};

pub mod leaf_pins;
pub mod leaves;

use crate::pager::Pager;
use crate::pager::leaf::read_leaf;
use crate::pins::{read_rest, reading_with_root};
use either::Either;
use pagable_codec::{Env, NodeSet};
use pagable_core::{PagableData, PagableStorage, SessionOf};
use pagable_load::{
    Access, EndedLoad, PinStart, PinnedOrLoading, StartedPin, TakenValue, WorkerAccess, WorkerNode,
};
use pagable_pager_spec::handle_row::Owner;
use pagable_pager_spec::{Beginning, FetchTarget};
use pagable_tables::checks;
use pagable_tables::leaf::Leaf;
use pagable_value_spec::{
    ArcRef, DataKey, Error, HandleNumber, Kind, LoadNumber, NodeNumber, OptionalDataKey,
    WorkerNumber,
};
use std::alloc::Global;
use std::sync::Arc;

/// An access to a lent pager, for the caller or for a worker at work. It tells the pager's state as
/// long as the storage is honest.
#[derive(Drop)]
pub struct Lent<'a, E: Env<Node: NodeSet<E>>, S: PagableStorage<E>> {
    pager: &'a mut Pager<E, S>,
    me: Owner,
    ghost at_work: { may_call (pager_core S.PagableStorage pager.now) me ≡ true },
}

impl<'a, E: Env<Node: NodeSet<E>>, S: PagableStorage<E>> Lent<'a, E, S> {
    /// Creates the caller's access to this pager.
    pub fn new(pager: &'a mut Pager<E, S>) -> Lent<'a, E, S>
        ensures lent { result.pager.ghost_name ≡ pager.entry.ghost_name }
        ensures same { result.pager.now ≡ pager.old }
        ensures me { result.me ≡ Owner.Caller }
    {
        Lent {
            pager,
            me: Owner::Caller,
        }
    }

    /// Creates the access of a worker. The caller makes sure that the worker is at work.
    pub fn for_worker(pager: &'a mut Pager<E, S>, worker: WorkerNumber) -> Lent<'a, E, S>
        requires { (pager_core S.PagableStorage pager.old).workers worker.0 ≡ true }
        ensures lent { result.pager.ghost_name ≡ pager.entry.ghost_name }
        ensures same { result.pager.now ≡ pager.old }
        ensures me { result.me ≡ Owner.Worker worker }
    {
        Lent {
            pager,
            me: Owner::Worker(worker),
        }
    }

    /// Creates the access of an owner, the caller or a worker, and looks up in the pager whether
    /// the worker is at work: a caller behind a lock can't know it otherwise.
    ///
    /// # Errors
    ///
    /// - `NotYours` if the worker isn't at work, or the owner is neither the caller nor a worker:
    ///   nothing changes.
    pub fn for_owner(pager: &'a mut Pager<E, S>, me: Owner) -> Result<Lent<'a, E, S>, Error>
        ensures lent { IfOk result (λ l. l.pager.ghost_name ≡ pager.entry.ghost_name) }
        ensures same { IfOk result (λ l. l.pager.now ≡ pager.old) }
        ensures me { IfOk result (λ l. l.me ≡ me) }
        ensures refused { IfErr result (λ e. e ≡ Error.NotYours) }
    {
        match me {
            Owner::Caller => Ok(Lent::new(pager)),
            Owner::Worker(worker) => {
                if pager.has_worker(worker) {
                    return Ok(Lent::for_worker(pager, worker));
                }
                Err(Error::NotYours)
            }
            _ => Err(Error::NotYours),
        }
    }
}

impl<'a, E: Env<Node: NodeSet<E>>, S: PagableStorage<E>> Lent<'a, E, S> {
    /// Computes whether the pager's tables and values agree, as `Pager::is_sound` does.
    pub fn is_sound(&self) -> bool
        ensures exact { result ≡ is_sound self.now.pager.now.tables self.now.pager.now.values }
        ensures always { result ≡ true }
    {
        self.pager.is_sound()
    }

    /// Ends a load of this access's owner with a value, as `Access::load_end` does. An access behind
    /// a lock ends its loads by this call: it can't name this pager's environment, so it asks in its
    /// own contract that the value was read.
    ///
    /// # Errors
    ///
    /// - those of `Access::load_end`.
    pub fn end_load(
        &mut self,
        alloc: Global,
        load: LoadNumber,
        value: Arc<E::Node>,
    ) -> Result<EndedLoad, (Error, Option<Arc<E::Node>>)>
        ensures step { EndCall (pager_core S.PagableStorage self.old.pager.now) self.old.me load (arc_value value)
            (E.Node.type_of (arc_value value)) (E.Node.refs_of (arc_value value)) (ended_of result)
            (pager_core S.PagableStorage self.new.pager.now) }
        ensures moves { BringsToCell S.PagableStorage load (arc_value value) self.old.pager.now self.new.pager.now }
        ensures given { IfOk result (λ ended. ended.came ≡ true
            → ValueCall (pager_state S.PagableStorage self.new.pager.now) ended.handle (Ok (Some (arc_value value)))) }
        ensures storage { self.new.pager.now.storage ≡ self.old.pager.now.storage }
        ensures lender { self.new.pager.ghost_name ≡ self.old.pager.ghost_name }
        ensures me { self.new.me ≡ self.old.me }
    {
        self.pager.load_end_for(self.me, alloc, load, value)
    }

    /// Pins the cell of a loose handle of the caller's, if its value isn't in memory. If the cell's
    /// blob has no references, pins without the steps of a load, with the same result; otherwise
    /// runs a load. Returns None if it did nothing, as when the value is in memory.
    ///
    /// # Errors
    ///
    /// - `OutOfMemory` if there is no room for the handle, the blob or its value: no load is left.
    /// - those of fetching the blob and of the load's steps: no load is left.
    pub(crate) fn pin_paged_out(
        &mut self,
        alloc: Global,
        handle: HandleNumber,
    ) -> Result<Option<PinnedAway<E::Node>>, Error>
        requires caller { self.old.me ≡ Owner.Caller }
        ensures goes { BetweenIfHonest E.Node.NodeSet E.Env E.Hash.KeyHash S.PagableStorage self.old.pager.now
            self.new.pager.now (λ v s s'. PinsPagedOut v s handle
            (result_map (option_map (λ (away : PinnedAway E.Node). away.handle)) result) s') }
        ensures held { IsTrue (S.is_honest self.new.pager.now.storage) → IfOk result (λ found. IfSome found (λ away. IfSome away.read
            (λ x. IsValueOf (pager_state S.PagableStorage self.new.pager.now) away.handle (arc_value x)))) }
        ensures keyed { IfOk result (λ found. IfSome found (λ away. IfSome away.read (λ x. IsKeyed
            (values_at E.Node.NodeSet E.Env E.Hash.KeyHash self.old.pager.now.environment) away.key
            (E.Node.type_of (arc_value x)) (arc_value x)))) }
        ensures honest { IsTrue (S.is_honest self.new.pager.now.storage)
            → IsTrue (S.is_honest self.old.pager.now.storage) }
        ensures lender { self.new.pager.ghost_name ≡ self.old.pager.ghost_name }
        ensures me { self.new.me ≡ self.old.me }
        ensures environment { self.new.pager.now.environment ≡ self.old.pager.now.environment }
    {
        let Some(started) = self.pager.start_leaf(alloc, handle)? else {
            return Ok(None);
        };
        let (leaf, blob) = started;
        let read = read_leaf(self, alloc, blob.as_ref(), leaf.node_type);
        let key = leaf.key;
        let Some(value) = read else {
            let (handle, read) = self.pin_by_load(alloc, leaf, blob)?;
            return Ok(Some(PinnedAway { handle, key, read }));
        };
        let (handle, value) = self.pager.pin_leaf(alloc, leaf, value)?;
        Ok(Some(PinnedAway {
            handle,
            key,
            read: Some(value),
        }))
    }

    // Begins a load of the cell, whose blob was fetched, and makes its steps up to its end. Returns
    // the new Pinned handle, and the value if the cell has got the one that was read.
    fn pin_by_load(
        &mut self,
        alloc: Global,
        leaf: Leaf,
        blob: Arc<PagableData>,
    ) -> Result<(HandleNumber, Option<Arc<E::Node>>), Error>
        requires caller { self.old.me ≡ Owner.Caller }
        requires leaf { IsLeaf (pager_core S.PagableStorage self.old.pager.now) Owner.Caller leaf }
        requires place { 1 ≤ room self.old.pager.now.tables.ref_counts.handles }
        requires named { key_of E.Hash.digest (blob_of (arc_value blob)) ≡ leaf.key }
        ensures loads { BetweenIfHonest E.Node.NodeSet E.Env E.Hash.KeyHash S.PagableStorage self.old.pager.now
            self.new.pager.now (λ v s s'. LeafLoads v s leaf (blob_of (arc_value blob)) (result_map (λ pin. pin.0) result) s') }
        ensures held { IsTrue (S.is_honest self.new.pager.now.storage) → IfOk result (λ pin. IfSome pin.1
            (λ x. IsValueOf (pager_state S.PagableStorage self.new.pager.now) pin.0 (arc_value x))) }
        ensures keyed { IfOk result (λ pin. IfSome pin.1 (λ x. IsKeyed
            (values_at E.Node.NodeSet E.Env E.Hash.KeyHash self.old.pager.now.environment) leaf.key
            (E.Node.type_of (arc_value x)) (arc_value x))) }
        ensures honest { IsTrue (S.is_honest self.new.pager.now.storage)
            → IsTrue (S.is_honest self.old.pager.now.storage) }
        ensures lender { self.new.pager.ghost_name ≡ self.old.pager.ghost_name }
        ensures me { self.new.me ≡ self.old.me }
        ensures environment { self.new.pager.now.environment ≡ self.old.pager.now.environment }
    {
        let key = leaf.key;
        let node_type = leaf.node_type;
        let load = self.pager.begin_leaf_load(leaf)?;
        let reading = reading_with_root(alloc, load, key, node_type, blob);
        read_rest(self, alloc, reading)
    }
}

/// A pin of a cell whose value wasn't in memory: the new Pinned handle, the cell's key, and the value
/// if the cell has got the one that was read.
#[derive(Drop)]
pub(crate) struct PinnedAway<N> {
    pub(crate) handle: HandleNumber,
    pub(crate) key: DataKey,
    pub(crate) read: Option<Arc<N>>,
}

// Returns a call's result, and states the pager's invariant after the call.
pub(crate) fn with_invariant<E: Env<Node: NodeSet<E>>, S: PagableStorage<E>, X: Drop>(
    answer: X,
    pager: &Pager<E, S>,
) -> X
    ensures same { result ≡ answer }
    ensures whole { IsPagerWhole (values_at E.Node.NodeSet E.Env E.Hash.KeyHash pager.now.environment)
        (pager_state S.PagableStorage pager.now) }
{
    pager.assert_invariant();
    answer
}

impl<'a, E: Env<Node: NodeSet<E>>, S: PagableStorage<E>> Access<E> for Lent<'a, E, S> {
    ghost use Rattle.std.specs.Prelude.{None, Some, if◌then◌else◌};
    ghost use Rattle.pagable_pager.specs.View.{pager_state};

    ghost known_state = { λ l. if S.is_honest l.pager.now.storage then Some
        (pager_state S.PagableStorage l.pager.now) else None };

    ghost acting = { λ l. record { me = l.me; environment = l.pager.now.environment; lender = l.pager.ghost_name } };

    fn env(&self) -> &E {
        self.pager.env()
    }

    fn session_context(&self) -> &SessionOf<E> {
        self.pager.session_context()
    }

    fn begin_pin(&mut self, handle: HandleNumber) -> Result<StartedPin<E::Node>, Error> {
        match with_invariant(self.pager.begin_pin_for(self.me, handle), self.pager)? {
            PinStart::Pinned(pinned, was_unpinned) => Ok(StartedPin::Pinned(
                pinned,
                was_unpinned,
                self.pager.share(pinned),
            )),
            PinStart::Load(load, key, node_type) => Ok(StartedPin::Load(load, key, node_type)),
        }
    }

    fn share(&self, handle: HandleNumber) -> Result<Option<Arc<E::Node>>, Error> {
        self.pager.share(handle)
    }

    fn store(&mut self, alloc: Global, blob: PagableData) -> Result<DataKey, Error> {
        with_invariant(self.pager.store(alloc, blob), self.pager)
    }

    fn store_keyed(
        &mut self,
        alloc: Global,
        key: DataKey,
        blob: PagableData,
    ) -> Result<DataKey, Error> {
        with_invariant(self.pager.store_keyed(alloc, key, blob), self.pager)
    }

    fn set_data_key(&mut self, handle: HandleNumber, key: DataKey) -> Result<(), Error> {
        self.pager.set_data_key_for(self.me, handle, key)
    }

    fn unpin(&mut self, handle: HandleNumber) -> Result<(), Error> {
        self.pager.unpin_for(self.me, handle)
    }

    fn release(&mut self, handle: HandleNumber) -> Result<(), Error> {
        self.pager.release_for(self.me, handle)
    }

    fn load_key(&mut self, key: DataKey) -> Result<LoadNumber, Error> {
        match with_invariant(self.pager.load_key_for(self.me, key), self.pager)? {
            Beginning::Load(load, _) => Ok(load),
            Beginning::InMemory => unreachable!(),
        }
    }

    fn load_root(
        &mut self,
        alloc: Global,
        load: LoadNumber,
        key: DataKey,
    ) -> Result<Arc<PagableData>, Error> {
        let found = self.pager.load_root_for(self.me, alloc, load, key);
        with_invariant(found, self.pager)
    }

    fn load_nested(
        &mut self,
        alloc: Global,
        load: LoadNumber,
        kind: Kind,
        key: DataKey,
    ) -> Result<Either<ArcRef, Arc<PagableData>>, Error> {
        let want = FetchTarget::Nested(kind, key);
        let found = self.pager.load_fetch_for(self.me, alloc, load, want);
        self.pager.assert_invariant();
        match found? {
            Either::Left(handle) => Ok(Either::Left(self.pager.reference(kind, handle))),
            Either::Right(blob) => Ok(Either::Right(blob)),
        }
    }

    fn load_lazy(
        &mut self,
        alloc: Global,
        load: LoadNumber,
        kind: Kind,
        key: DataKey,
    ) -> Result<ArcRef, Error> {
        let taken = self.pager.load_lazy_for(self.me, alloc, load, kind, key);
        self.pager.assert_invariant();
        Ok(self.pager.reference(kind, taken?))
    }

    fn load_adopt(
        &mut self,
        alloc: Global,
        load: LoadNumber,
        kind: Kind,
        key: DataKey,
        node: E::Node,
    ) -> Result<ArcRef, (Error, E::Node)> {
        self.pager.assert_invariant();
        let adopted = self
            .pager
            .load_adopt_for(self.me, alloc, load, kind, key, node);
        self.pager.assert_invariant();
        Ok(self.pager.reference(kind, adopted?))
    }

    fn load_end(
        &mut self,
        alloc: Global,
        load: LoadNumber,
        value: Arc<E::Node>,
    ) -> Result<EndedLoad, (Error, Option<Arc<E::Node>>)>
        requires { IsReadBy (values_at E.Node.NodeSet E.Env E.Hash.KeyHash self.old.pager.now.environment) load
            (arc_value value) }
        ensures acts { Acts (λ l. if S.is_honest l.pager.now.storage then Some (pager_state S.PagableStorage l.pager.now)
            else None) (λ l. record { me = l.me; environment = l.pager.now.environment; lender = l.pager.ghost_name })
            self.old self.new (λ a s t. MakesCallBringing
            (values_at E.Node.NodeSet E.Env E.Hash.KeyHash a.environment)
            (λ w'. EndCall s.core a.me load (arc_value value) (E.Node.type_of (arc_value value))
            (E.Node.refs_of (arc_value value)) (ended_of result) w')
            (λ n x. (x ≡ arc_value value) × IsCellOf s.core load n) s t) }
        ensures given { IfOk result (λ ended. ended.came ≡ true → IfKnown (if S.is_honest self.new.pager.now.storage
            then Some (pager_state S.PagableStorage self.new.pager.now) else None) (λ s. ValueCall s ended.handle (Ok (Some (arc_value value))))) }
    {
        let ended = self.end_load(alloc, load, value);
        with_invariant(ended, self.pager)
    }

    fn load_take(&mut self, load: LoadNumber, named: &[HandleNumber]) -> Result<(), Error> {
        self.pager.load_take_for(self.me, load, named)
    }

    fn load_drop(&mut self, load: LoadNumber) -> Result<(), Error> {
        self.pager.load_drop_for(self.me, load)
    }
}

impl<'a, E: Env<Node: NodeSet<E>>, S: PagableStorage<E>> WorkerAccess<E> for Lent<'a, E, S> {
    fn check_reference(&self, reference: ArcRef) -> Result<(), Error> {
        let pager = &*self.pager;
        match checks::claim_fault(&pager.tables, reference) {
            Some(e) => Err(e),
            None => Ok(()),
        }
    }

    fn pin_or_load_reference(&mut self, reference: ArcRef) -> Result<PinnedOrLoading, Error> {
        with_invariant(
            self.pager.pin_or_load_reference(self.me, reference),
            self.pager,
        )
    }

    fn pin_or_load_value(&mut self, reference: ArcRef) -> Result<TakenValue<E::Node>, Error> {
        match self.pin_or_load_reference(reference)? {
            PinnedOrLoading::Held(through, pin) => Ok(TakenValue::Held(
                through,
                pin,
                self.share(pin),
            )),
            PinnedOrLoading::Begun(through, load, key) => Ok(TakenValue::Begun(through, load, key)),
        }
    }

    fn release_worker_node(&mut self, worker: WorkerNumber, node: NodeNumber) {
        self.pager.release_worker_node(worker, node);
    }

    fn set_key_and_release(&mut self, at: WorkerNode, key: DataKey) -> Result<(), Error> {
        match at.loose {
            Some(handle) => self.set_data_key(handle, key)?,
            None => {}
        }
        self.release_worker_node(at.worker, at.node);
        Ok(())
    }

    fn store_node(
        &mut self,
        alloc: Global,
        blob: PagableData,
        at: WorkerNode,
    ) -> Result<DataKey, Error> {
        let key = self.store(alloc, blob)?;
        self.set_key_and_release(at, key)?;
        Ok(key)
    }

    fn store_node_keyed(
        &mut self,
        alloc: Global,
        key: DataKey,
        blob: PagableData,
        at: WorkerNode,
    ) -> Result<DataKey, Error> {
        let stored = self.store_keyed(alloc, key, blob)?;
        self.set_key_and_release(at, stored)?;
        Ok(stored)
    }

    fn schedule_for_paging(&mut self, handle: HandleNumber) -> Result<(), Error> {
        self.pager.schedule_for_paging_for(self.me, handle)
    }

    fn worker_begin(&mut self) -> Result<WorkerNumber, Error> {
        let worker = with_invariant(self.pager.worker_begin(), self.pager)?;
        self.me = Owner::Worker(worker);
        Ok(worker)
    }

    fn worker_listed(&mut self, place: usize) -> Result<(WorkerNumber, ArcRef), Error> {
        let (worker, reference) = with_invariant(self.pager.worker_listed(place), self.pager)?;
        self.me = Owner::Worker(worker);
        Ok((worker, reference))
    }

    fn worker_end(&mut self, worker: WorkerNumber) {
        self.pager.worker_end(worker);
        self.me = Owner::Caller;
    }

    fn pending(&self) -> usize {
        self.pager.pending()
    }

    fn entry_key(&self, place: usize) -> Option<OptionalDataKey> {
        let (_, _, key) = self.pager.pending_entry(place)?;
        Some(key)
    }

    fn take_pending(&mut self, place: usize) -> Option<HandleNumber> {
        with_invariant(self.pager.take_pending_for(self.me, place), self.pager)
    }

    fn release_if_keyed(&mut self, place: usize) -> Option<bool> {
        let OptionalDataKey::Some(_) = self.entry_key(place)? else {
            return Some(false);
        };
        let entry = self.take_pending(place)?;
        let _told = self.release(entry);
        Some(true)
    }

    fn page_out_leaves(&mut self, alloc: Global, left: usize) -> Result<usize, Error> {
        with_invariant(self.pager.page_out_leaves(alloc, left), self.pager)
    }
}

/// A kind and a key, with a handle of the node that is cached under them, if there is one.
#[derive(Clone, Copy)]
pub struct ArcCell {
    pub kind: Kind,
    pub key: DataKey,
    pub handle: Option<HandleNumber>,
}

/// The cache of a borrowed pager: nodes by kind and key. It owns no handle. Each call is the
/// pager's own.
#[derive(Drop)]
pub struct DeserializedArcCache<'a, E: Env<Node: NodeSet<E>>, S: PagableStorage<E>> {
    pager: &'a mut Pager<E, S>,
}

impl<'a, E: Env<Node: NodeSet<E>>, S: PagableStorage<E>> DeserializedArcCache<'a, E, S> {
    /// Creates the cache of this pager.
    pub fn new(pager: &'a mut Pager<E, S>) -> DeserializedArcCache<'a, E, S>
        ensures lent { result.pager.ghost_name ≡ pager.entry.ghost_name }
        ensures same { result.pager.now ≡ pager.old }
    {
        DeserializedArcCache { pager }
    }

    /// Returns a new handle of the cached node, as `Pager::cache_get` does.
    ///
    /// # Errors
    ///
    /// - those of `Pager::cache_get`.
    pub fn get(&mut self, kind: Kind, key: DataKey) -> Result<Option<HandleNumber>, Error>
        ensures lent { self.new.pager.ghost_name ≡ self.old.pager.ghost_name }
        ensures calls { Calls ChangesOnlyTables S.PagableStorage self.old.pager.now
            (λ w w'. RecallCall w Owner.Caller kind key result w') self.new.pager.now }
    {
        self.pager.cache_get(kind, key)
    }

    /// Returns the kind, the key and the handle that `get` returns for them. If no node is cached
    /// there, the handle is None, and nothing is stored.
    ///
    /// # Errors
    ///
    /// - those of `get`.
    pub fn get_or_create_cell(&mut self, kind: Kind, key: DataKey) -> Result<ArcCell, Error>
        ensures lent { self.new.pager.ghost_name ≡ self.old.pager.ghost_name }
        ensures place { IfOk result (λ cell. (cell.kind ≡ kind) × (cell.key ≡ key)) }
        ensures calls { Calls ChangesOnlyTables S.PagableStorage self.old.pager.now
            (λ w w'. RecallCall w Owner.Caller kind key (result_map (λ cell. cell.handle) result) w')
            self.new.pager.now }
    {
        let handle = self.pager.cache_get(kind, key)?;
        Ok(ArcCell { kind, key, handle })
    }

    /// Caches a handle's node under a kind and a key and returns None. If a usable node is cached
    /// there already, releases `handle` and returns a new handle of that node. After `close`,
    /// returns `handle`.
    ///
    /// # Errors
    ///
    /// - those of `Pager::on_arc_deserialized`.
    pub fn on_arc_deserialized(
        &mut self,
        kind: Kind,
        key: DataKey,
        handle: HandleNumber,
    ) -> Result<Option<HandleNumber>, Error>
        ensures lent { self.new.pager.ghost_name ≡ self.old.pager.ghost_name }
        ensures calls { Calls AddsNoValue S.PagableStorage self.old.pager.now
            (λ w w'. OfferCall w Owner.Caller kind key handle result w') self.new.pager.now }
    {
        self.pager.on_arc_deserialized(kind, key, handle)
    }

    /// Empties the cache. Never fails.
    pub fn clear(&mut self) -> Result<(), Error>
        ensures lent { self.new.pager.ghost_name ≡ self.old.pager.ghost_name }
        ensures calls { Calls ChangesOnlyTables S.PagableStorage self.old.pager.now
            (λ w w'. ClearCall w result w') self.new.pager.now }
    {
        self.pager.cache_clear()
    }
}
