//! Calls on live handles: cloning, pinning, releasing and queries; the list of cells that wait for
//! page-out; the cache and room; and the calls of page-out workers.
#![tactic(auto, using(crate::proofs::LentCalls::handling))]

ghost use Rattle.pagable_load.specs.{
  AccessView.{IsMade, values_at},
  PinStart.{StartsPin, is_unpinned_at},
  WorkerCalls.{EntryFault, TakesReference},
};
ghost use Rattle.pagable_pager.specs.{
  View.{AddsNoValue, Calls, CallsKeepingInvariant, ChangesOnlyTables, TakesEntry, may_call, pager_core},
};
ghost use Rattle.pagable_pager_spec.specs.{
  Calls.{ClearCall, CloneCall, CountCall, IsPagedOutCall, KeyCall, Looks, LoosenCall, NodeCall, OfferCall, PinCall},
  Calls.{RecallCall, ReleaseCall, ReserveCall, ScheduleCall, SetKeyCall, TakeCall, TypeCall, UnpinCall, room_of},
  Cascade.FallsAnyhow,
  Events.{IsEntry, reading_of_load},
  Kinds.is_loose,
  LoadCalls.{DropCall, HandOverCall},
  Workers.{WorkerEnds, is_workers_at},
  World.{Alike, Reading, key_at, row_at},
};
ghost use Rattle.pagable_tables.specs.Core.{BeginsWorker, TakesWorker};
ghost use Rattle.std.specs.{
  Option.option_map,
  Prelude.{IfErr, IfNone, IfOk, IfSome, IsSome, length, true, ◌<◌, ◌≡◌, ◌≤◌},
};

use crate::pager::{Pager, cell_type};
use pagable_codec::{Env, NodeSet};
use pagable_core::PagableStorage;
use pagable_load::{PinStart, PinnedOrLoading};
use pagable_pager_spec::handle_row::{HandleRow, Owner};
use pagable_pager_spec::{Beginning, Pinning};
use pagable_tables::{
    cache, create, handle_table, kinds, load_end, load_table, pending, queries, release, tables,
    workers,
};
use pagable_value_spec::{
    ArcRef, DataKey, Error, HandleNumber, Kind, LoadNumber, NodeNumber, OptionalDataKey,
    WorkerNumber,
};

impl<E: Env<Node: NodeSet<E>>, S: PagableStorage<E>> Pager<E, S> {
    /// Clones any live handle: makes a handle of its node and mode for the caller. A clone of a
    /// pinning handle pins.
    ///
    /// # Errors
    ///
    /// - `NoSuchHandle` if the handle isn't live.
    /// - `NumbersSpent` if no number is left for a handle.
    /// - `OutOfMemory` if the handle can't be allocated.
    pub fn clone(&mut self, handle: HandleNumber) -> Result<HandleNumber, Error>
        ensures { Calls ChangesOnlyTables S.PagableStorage self.old
            (λ w w'. CloneCall w Owner.Caller handle result w') self.new }
    {
        self.clone_for(Owner::Caller, handle)
    }

    pub(crate) fn clone_for(
        &mut self,
        me: Owner,
        handle: HandleNumber,
    ) -> Result<HandleNumber, Error>
        requires { may_call (pager_core S.PagableStorage self.old) me ≡ true }
        ensures { Calls ChangesOnlyTables S.PagableStorage self.old (λ w w'. CloneCall w me handle result w') self.new }
    {
        create::clone(&mut self.tables, me, handle)
    }

    /// Turns a Pinned handle into a loose pinned one, which keeps its number. It allocates nothing.
    ///
    /// # Errors
    ///
    /// - `NoSuchHandle` if the handle isn't live.
    /// - `NotYours` if another than the caller has it.
    /// - `WrongMode` if it isn't Pinned.
    pub fn into_pagable(&mut self, handle: HandleNumber) -> Result<HandleNumber, Error>
        ensures { Calls ChangesOnlyTables S.PagableStorage self.old
            (λ w w'. LoosenCall w Owner.Caller handle result w') self.new }
    {
        create::into_pagable(&mut self.tables, Owner::Caller, handle)
    }

    /// Pins a loose handle's cell: the handle becomes LoosePinned, and a new Pinned handle is
    /// returned. If the value isn't in memory, returns the key from which the caller has to load it
    /// first, and changes nothing.
    ///
    /// # Errors
    ///
    /// - `NoSuchHandle` if the handle isn't live.
    /// - `NotYours` if another than the caller has it.
    /// - `WrongMode` if it isn't loose.
    /// - `NumbersSpent` if no number is left for a handle.
    /// - `OutOfMemory` if the handle can't be allocated.
    pub fn pin(&mut self, handle: HandleNumber) -> Result<Pinning, Error>
        ensures { Calls ChangesOnlyTables S.PagableStorage self.old
            (λ w w'. PinCall w Owner.Caller handle result w') self.new }
    {
        self.pin_for(Owner::Caller, handle)
    }

    pub(crate) fn pin_for(&mut self, me: Owner, handle: HandleNumber) -> Result<Pinning, Error>
        requires { may_call (pager_core S.PagableStorage self.old) me ≡ true }
        ensures { Calls ChangesOnlyTables S.PagableStorage self.old (λ w w'. PinCall w me handle result w') self.new }
    {
        create::pin(&mut self.tables, me, handle)
    }

    /// Returns how many handles pin the handle's node.
    ///
    /// # Errors
    ///
    /// - `NoSuchHandle` if the handle isn't live.
    pub fn count(&self, handle: HandleNumber) -> Result<u64, Error>
        ensures { CountCall (pager_core S.PagableStorage self.now) handle result }
    {
        queries::pin_count(&self.tables, handle)
    }

    /// Returns the key of the handle's node, if it has one.
    ///
    /// # Errors
    ///
    /// - `NoSuchHandle` if the handle isn't live.
    pub fn key(&self, handle: HandleNumber) -> Result<OptionalDataKey, Error>
        ensures { KeyCall (pager_core S.PagableStorage self.now) handle result }
    {
        queries::key(&self.tables, handle)
    }

    /// Returns whether the value of the handle's node isn't in memory.
    ///
    /// # Errors
    ///
    /// - `NoSuchHandle` if the handle isn't live.
    pub fn is_paged_out(&self, handle: HandleNumber) -> Result<bool, Error>
        ensures { IsPagedOutCall (pager_core S.PagableStorage self.now) handle result }
    {
        queries::is_paged_out(&self.tables, handle)
    }

    /// Returns the node of a handle.
    ///
    /// # Errors
    ///
    /// - `NoSuchHandle` if the handle isn't live.
    pub fn node_of(&self, handle: HandleNumber) -> Result<NodeNumber, Error>
        ensures { NodeCall (pager_core S.PagableStorage self.now) handle result }
    {
        queries::node_of(&self.tables, handle)
    }

    /// Returns the number of the node's value type; None if the node is gone.
    pub fn node_live(&self, node: NodeNumber) -> Option<u32>
        ensures { TypeCall (pager_core S.PagableStorage self.now) node result }
    {
        queries::node_live(&self.tables, node)
    }

    // Makes the reference of this kind by a live handle. If the handle isn't live, the reference
    // names no node.
    pub(crate) fn reference(&self, kind: Kind, handle: HandleNumber) -> ArcRef
        ensures made { IsSome (row_at (pager_core S.PagableStorage self.now) handle) → IsMade
            (pager_core S.PagableStorage self.now) kind result }
        ensures handle { result.handle ≡ handle }
        ensures kind { result.kind ≡ kind }
    {
        let node = match self.node_of(handle) {
            Ok(node) => node,
            Err(_) => NodeNumber(0),
        };
        ArcRef { kind, node, handle }
    }

    /// Returns whether this is a live loose handle that doesn't pin its cell now (`LooseUnpinned`).
    fn is_unpinned(&self, handle: HandleNumber) -> bool
        ensures { result ≡ is_unpinned_at (pager_core S.PagableStorage self.now) handle }
    {
        match handle_table::find_live(&self.tables.ref_counts.handles, handle) {
            Some(at) => kinds::is_unpinned(at.row.mode),
            None => false,
        }
    }

    /// Returns the type as which an open load of a cell reads its root; None if it is a load of a
    /// key, or isn't open.
    pub fn load_type(&self, load: LoadNumber) -> Option<u32>
        ensures { result ≡ option_map (λ (r : Reading). r.node_type)
            (reading_of_load load ((pager_core S.PagableStorage self.now).loads load.0)) }
    {
        let row = load_table::load_of(&self.tables.loads, load.0)?;
        cell_type(row.root)
    }

    /// Pins a loose handle if its value is in memory, as `pin` does; otherwise begins a load of its
    /// cell, as `load_begin` does.
    ///
    /// # Errors
    ///
    /// - those of `pin` and `load_begin`.
    pub fn begin_pin(&mut self, handle: HandleNumber) -> Result<PinStart, Error>
        ensures { Calls ChangesOnlyTables S.PagableStorage self.old
            (λ w w'. StartsPin w Owner.Caller handle result w') self.new }
    {
        self.begin_pin_for(Owner::Caller, handle)
    }

    pub(crate) fn begin_pin_for(
        &mut self,
        me: Owner,
        handle: HandleNumber,
    ) -> Result<PinStart, Error>
        requires { may_call (pager_core S.PagableStorage self.old) me ≡ true }
        ensures { Calls ChangesOnlyTables S.PagableStorage self.old (λ w w'. StartsPin w me handle result w') self.new }
    {
        let was_unpinned = self.is_unpinned(handle);
        if let Ok(true) = self.is_paged_out(handle) {
            let Beginning::Load(load, key) = self.load_begin_for(me, handle)? else {
                unreachable!();
            };
            let Some(node_type) = self.load_type(load) else {
                unreachable!();
            };
            return Ok(PinStart::Load(load, key, node_type));
        }
        match self.pin_for(me, handle)? {
            Pinning::Pinned(pinned) => Ok(PinStart::Pinned(pinned, was_unpinned)),
            Pinning::NeedsLoad(_) => unreachable!(),
        }
    }

    /// Removes the entry at this place from the page-out list, and returns its handle, a loose
    /// unpinned one, which the caller owns from then on. Returns None past the list's end.
    pub fn take_pending(&mut self, place: usize) -> Option<HandleNumber>
        ensures { Calls ChangesOnlyTables S.PagableStorage self.old
            (λ w w'. TakeCall w Owner.Caller place result w') self.new }
    {
        self.take_pending_for(Owner::Caller, place)
    }

    pub(crate) fn take_pending_for(&mut self, me: Owner, place: usize) -> Option<HandleNumber>
        requires { may_call (pager_core S.PagableStorage self.old) me ≡ true }
        ensures { Calls ChangesOnlyTables S.PagableStorage self.old (λ w w'. TakeCall w me place result w') self.new }
    {
        pending::take_pending(&mut self.tables, me, place)
    }

    /// Puts a loose unpinned handle at the end of the list of cells that wait for page-out. If the
    /// storage is closed, releases the handle instead, as `release` does.
    ///
    /// # Errors
    ///
    /// - `NoSuchHandle` if the handle isn't live.
    /// - `NotYours` if another than the caller has it.
    /// - `WrongMode` if it isn't loose and unpinned.
    /// - `OutOfMemory` if the list can't grow.
    pub fn schedule_for_paging(&mut self, handle: HandleNumber) -> Result<(), Error>
        ensures { Calls AddsNoValue S.PagableStorage self.old
            (λ w w'. ScheduleCall w Owner.Caller handle result w') self.new }
    {
        self.schedule_for_paging_for(Owner::Caller, handle)
    }

    pub(crate) fn schedule_for_paging_for(
        &mut self,
        me: Owner,
        handle: HandleNumber,
    ) -> Result<(), Error>
        requires { may_call (pager_core S.PagableStorage self.old) me ≡ true }
        ensures { CallsKeepingInvariant S.PagableStorage (values_at E.Node.NodeSet E.Env E.Hash.KeyHash) self.old
            (λ w w'. ScheduleCall w me handle result w') self.new }
    {
        let lists = !self.storage.has_closed();
        pending::schedule_for_paging(&mut self.tables, &mut self.values, me, handle, lists)
    }

    /// Returns a new handle, in the kind's mode, of the node that is cached under a kind and a key;
    /// None if there is none, if it is gone or, for a pinned kind, if its value isn't in memory.
    ///
    /// # Errors
    ///
    /// - `NumbersSpent` if no number is left for a handle.
    /// - `OutOfMemory` if the handle can't be allocated.
    pub fn cache_get(&mut self, kind: Kind, key: DataKey) -> Result<Option<HandleNumber>, Error>
        ensures { Calls ChangesOnlyTables S.PagableStorage self.old
            (λ w w'. RecallCall w Owner.Caller kind key result w') self.new }
    {
        cache::cache_get(&mut self.tables, Owner::Caller, kind, key)
    }

    /// Caches the handle's node under a kind and a key and returns None. If a usable node is cached
    /// there already, makes a new handle of that node in the kind's mode, releases `handle` as
    /// `release` does, and returns the new one. After `close`, returns `handle`.
    ///
    /// # Errors
    ///
    /// - `NoSuchHandle` if the handle isn't live.
    /// - `NotYours` if another than the caller has it.
    /// - `WrongMode` if its mode doesn't fit the kind.
    /// - `WrongKind` if its node's type isn't the kind's.
    /// - `NumbersSpent` if no number is left for the new handle.
    /// - `OutOfMemory` if the new handle or the cache's entry can't be allocated.
    pub fn on_arc_deserialized(
        &mut self,
        kind: Kind,
        key: DataKey,
        handle: HandleNumber,
    ) -> Result<Option<HandleNumber>, Error>
        ensures { Calls AddsNoValue S.PagableStorage self.old
            (λ w w'. OfferCall w Owner.Caller kind key handle result w') self.new }
    {
        let lists = !self.storage.has_closed();
        let (tables, values) = (&mut self.tables, &mut self.values);
        cache::offer(tables, values, Owner::Caller, kind, key, handle, lists)
    }

    /// Returns how many list entries wait for page-out.
    pub fn pending(&self) -> usize
        ensures { result ≡ length (pager_core S.PagableStorage self.now).list }
    {
        queries::pending_count(&self.tables)
    }

    /// Returns how many handles, and as many entries of the page-out list, can be added even if no
    /// memory is left.
    pub fn room(&self) -> usize
        ensures { result ≡ room_of (pager_core S.PagableStorage self.now) }
    {
        tables::room(&self.tables)
    }

    /// Allocates so much that `room` returns at least `more`, and changes nothing else.
    ///
    /// # Errors
    ///
    /// - `OutOfMemory` if the allocation fails.
    pub fn reserve(&mut self, more: usize) -> Result<(), Error>
        ensures { Calls ChangesOnlyTables S.PagableStorage self.old (λ w w'. ReserveCall w more result w') self.new }
    {
        tables::reserve(&mut self.tables, more)
    }

    /// Empties the cache. Never fails.
    pub fn cache_clear(&mut self) -> Result<(), Error>
        ensures { Calls ChangesOnlyTables S.PagableStorage self.old (λ w w'. ClearCall w result w') self.new }
    {
        tables::cache_clear(&mut self.tables)
    }

    /// Unpins a loose handle, which stays live. Does nothing if the handle is unpinned. If the cell
    /// loses its last pin by this call, it loses its value if it has a key, and is listed for
    /// page-out if it has none.
    ///
    /// # Errors
    ///
    /// - `NoSuchHandle` if the handle isn't live: nothing changes.
    /// - `NotYours` if another than the caller has it: nothing changes.
    /// - `WrongMode` if it isn't loose: nothing changes.
    /// - `NumbersSpent` or `OutOfMemory` if a cell can't be listed for page-out: the handle is
    ///   unpinned all the same.
    pub fn unpin(&mut self, handle: HandleNumber) -> Result<(), Error>
        ensures { Calls AddsNoValue S.PagableStorage self.old
            (λ w w'. UnpinCall w Owner.Caller handle result w') self.new }
    {
        self.unpin_for(Owner::Caller, handle)
    }

    pub(crate) fn unpin_for(&mut self, me: Owner, handle: HandleNumber) -> Result<(), Error>
        requires { may_call (pager_core S.PagableStorage self.old) me ≡ true }
        ensures { CallsKeepingInvariant S.PagableStorage (values_at E.Node.NodeSet E.Env E.Hash.KeyHash) self.old
            (λ w w'. UnpinCall w me handle result w') self.new }
    {
        let lists = !self.storage.has_closed();
        release::unpin(&mut self.tables, &mut self.values, me, handle, lists)
    }

    /// Releases a handle; if it pins, its pin ends as by `unpin`. A node without handles is dropped
    /// with its value, which releases all handles that it owns, and so on.
    ///
    /// # Errors
    ///
    /// - `NoSuchHandle` if the handle isn't live: nothing changes.
    /// - `NotYours` if another than the caller has it: nothing changes.
    /// - `NumbersSpent` or `OutOfMemory` if a cell can't be listed for page-out: the handle is
    ///   released all the same.
    pub fn release(&mut self, handle: HandleNumber) -> Result<(), Error>
        ensures { Calls AddsNoValue S.PagableStorage self.old
            (λ w w'. ReleaseCall w Owner.Caller handle result w') self.new }
    {
        self.release_for(Owner::Caller, handle)
    }

    pub(crate) fn release_for(&mut self, me: Owner, handle: HandleNumber) -> Result<(), Error>
        requires { may_call (pager_core S.PagableStorage self.old) me ≡ true }
        ensures { CallsKeepingInvariant S.PagableStorage (values_at E.Node.NodeSet E.Env E.Hash.KeyHash) self.old
            (λ w w'. ReleaseCall w me handle result w') self.new }
    {
        let lists = !self.storage.has_closed();
        release::release(&mut self.tables, &mut self.values, me, handle, lists)
    }

    /// Sets the key of a loose handle's cell, replacing an older one, and drops the cell's value if
    /// nothing pins it. Does nothing if the handle isn't loose. The key has to read as the value.
    ///
    /// # Errors
    ///
    /// - `NoSuchHandle` if the handle isn't live: nothing changes.
    /// - `NotYours` if another than the caller has it: nothing changes.
    /// - `NumbersSpent` or `OutOfMemory` if a cell can't be listed for page-out: the key is set all
    ///   the same.
    pub fn set_data_key(&mut self, handle: HandleNumber, key: DataKey) -> Result<(), Error>
        ensures { Calls AddsNoValue S.PagableStorage self.old
            (λ w w'. SetKeyCall w Owner.Caller handle key result w') self.new }
    {
        self.set_data_key_for(Owner::Caller, handle, key)
    }

    pub(crate) fn set_data_key_for(
        &mut self,
        me: Owner,
        handle: HandleNumber,
        key: DataKey,
    ) -> Result<(), Error>
        requires { may_call (pager_core S.PagableStorage self.old) me ≡ true }
        ensures { CallsKeepingInvariant S.PagableStorage (values_at E.Node.NodeSet E.Env E.Hash.KeyHash) self.old
            (λ w w'. SetKeyCall w me handle key result w') self.new }
    {
        let lists = !self.storage.has_closed();
        release::set_data_key(&mut self.tables, &mut self.values, me, handle, key, lists)
    }

    /// Drops a load and releases all that it owns, with all that follows.
    ///
    /// # Errors
    ///
    /// - `NoSuchHandle` if the load isn't open: nothing changes.
    /// - `NotYours` if another than the caller began it: nothing changes.
    /// - `NumbersSpent` or `OutOfMemory` if a cell can't be listed for page-out: the load is
    ///   dropped all the same.
    pub fn load_drop(&mut self, load: LoadNumber) -> Result<(), Error>
        ensures { Calls AddsNoValue S.PagableStorage self.old
            (λ w w'. DropCall w Owner.Caller load result w') self.new }
    {
        self.load_drop_for(Owner::Caller, load)
    }

    pub(crate) fn load_drop_for(&mut self, me: Owner, load: LoadNumber) -> Result<(), Error>
        ensures { CallsKeepingInvariant S.PagableStorage (values_at E.Node.NodeSet E.Env E.Hash.KeyHash) self.old
            (λ w w'. DropCall w me load result w') self.new }
    {
        let lists = !self.storage.has_closed();
        load_end::load_drop(&mut self.tables, &mut self.values, me, load, lists)
    }

    /// Ends a load of a key: hands the named handles to the caller, and releases the load's other
    /// ones.
    ///
    /// # Errors
    ///
    /// - `NoSuchHandle` if the load isn't open, or a named handle isn't live.
    /// - `NotYours` if another than the caller began the load, or the load doesn't own a named
    ///   handle, or a handle is named twice.
    /// - `WrongMode` if it is a load of a cell.
    pub fn load_take(&mut self, load: LoadNumber, named: &[HandleNumber]) -> Result<(), Error>
        ensures { Calls AddsNoValue S.PagableStorage self.old
            (λ w w'. HandOverCall w Owner.Caller load named.now result w') self.new }
    {
        self.load_take_for(Owner::Caller, load, named)
    }

    pub(crate) fn load_take_for(
        &mut self,
        me: Owner,
        load: LoadNumber,
        named: &[HandleNumber],
    ) -> Result<(), Error>
        requires { may_call (pager_core S.PagableStorage self.old) me ≡ true }
        ensures { CallsKeepingInvariant S.PagableStorage (values_at E.Node.NodeSet E.Env E.Hash.KeyHash) self.old
            (λ w w'. HandOverCall w me load named.now result w') self.new }
    {
        let lists = !self.storage.has_closed();
        load_end::load_take(&mut self.tables, &mut self.values, me, load, named, lists)
    }

    /// Returns whether a handle is loose. Fails with NoSuchHandle only.
    pub(crate) fn is_loose(&self, handle: HandleNumber) -> Result<bool, Error>
        ensures { Looks (pager_core S.PagableStorage self.now) handle (λ loose row. loose ≡ is_loose row.mode) result }
    {
        queries::is_loose(&self.tables, handle)
    }

    /// Returns the handle at this place of the page-out list, with type and key of its cell; None
    /// past the list's end.
    pub(crate) fn pending_entry(&self, place: usize) -> Option<(HandleRow, u32, OptionalDataKey)>
        ensures found { IfSome result (λ e. IsEntry (pager_core S.PagableStorage self.now) place e.0.number e.0 e.1) }
        ensures keyed { IfSome result (λ e. key_at (pager_core S.PagableStorage self.now) e.0.node.0 ≡ e.2) }
        ensures past { IfNone result (length (pager_core S.PagableStorage self.now).list ≤ place) }
    {
        queries::pending_entry(&self.tables, place)
    }

    /// Begins a worker. Fails with NumbersSpent or OutOfMemory.
    pub(crate) fn worker_begin(&mut self) -> Result<WorkerNumber, Error>
        ensures { Calls ChangesOnlyTables S.PagableStorage self.old (λ w w'. BeginsWorker w result w') self.new }
    {
        workers::worker_begin(&mut self.tables)
    }

    /// Begins a worker, removes the entry at this place from the page-out list, and makes the
    /// worker the owner of the entry's handle. Fails with NumbersSpent or OutOfMemory.
    pub(crate) fn worker_begin_with_entry(&mut self, place: usize) -> Result<WorkerNumber, Error>
        requires { place < length (pager_core S.PagableStorage self.old).list }
        ensures { Calls ChangesOnlyTables S.PagableStorage self.old (λ w w'. TakesWorker w place result w') self.new }
    {
        workers::worker_begin_with_entry(&mut self.tables, place)
    }

    /// Begins a worker as `worker_begin_with_entry` does, and returns also the loose reference to
    /// the entry's cell through the entry's handle. Fails with NoSuchHandle past the list's end,
    /// with WrongKind if the kinds of the cell's type don't fit 32 bits, and with NumbersSpent or
    /// OutOfMemory.
    pub(crate) fn worker_listed(&mut self, place: usize) -> Result<(WorkerNumber, ArcRef), Error>
        ensures begins { IfOk result (λ b. TakesEntry (pager_core S.PagableStorage self.old) place b.0 b.1
            (pager_core S.PagableStorage self.new)) }
        ensures refused { IfErr result (λ e. EntryFault (pager_core S.PagableStorage self.old) place e × Alike
            (pager_core S.PagableStorage self.old) (pager_core S.PagableStorage self.new)) }
        ensures only { ChangesOnlyTables self.old self.new }
    {
        let Some((row, node_type, _)) = self.pending_entry(place) else {
            return Err(Error::NoSuchHandle);
        };
        let Some(kind) = Kind::loose_of(node_type) else {
            return Err(Error::WrongKind);
        };
        let worker = self.worker_begin_with_entry(place)?;
        let (node, handle) = (row.node, row.number);
        Ok((worker, ArcRef { kind, node, handle }))
    }

    /// Releases all handles that a worker has of a node, with all that follows.
    pub(crate) fn release_worker_node(&mut self, worker: WorkerNumber, node: NodeNumber)
        ensures { CallsKeepingInvariant S.PagableStorage (values_at E.Node.NodeSet E.Env E.Hash.KeyHash) self.old
            (λ w w'. FallsAnyhow w w (is_workers_at w worker.0 node.0) w') self.new }
    {
        let lists = !self.storage.has_closed();
        workers::release_node(&mut self.tables, &mut self.values, worker, node, lists);
    }

    /// Ends a worker: closes its loads and releases what it and they still own, with all that
    /// follows.
    pub(crate) fn worker_end(&mut self, worker: WorkerNumber)
        ensures { CallsKeepingInvariant S.PagableStorage (values_at E.Node.NodeSet E.Env E.Hash.KeyHash) self.old
            (λ w w'. WorkerEnds w worker.0 w') self.new }
    {
        let lists = !self.storage.has_closed();
        workers::worker_end(&mut self.tables, &mut self.values, worker, lists);
    }

    /// Clones a reference's handle for this owner; then pins a loose clone, or begins a load by it
    /// if the value isn't in memory. If the pin or load fails, the owner keeps the clone.
    pub(crate) fn pin_or_load_reference(
        &mut self,
        me: Owner,
        reference: ArcRef,
    ) -> Result<PinnedOrLoading, Error>
        requires { may_call (pager_core S.PagableStorage self.old) me ≡ true }
        ensures step { TakesReference (pager_core S.PagableStorage self.old) me reference result
            (pager_core S.PagableStorage self.new) }
        ensures only { ChangesOnlyTables self.old self.new }
    {
        let loose = self.is_loose(reference.handle);
        let through = self.clone_for(me, reference.handle)?;
        match loose {
            Ok(true) => match self.begin_pin_for(me, through)? {
                PinStart::Pinned(pinned, _) => Ok(PinnedOrLoading::Held(through, pinned)),
                PinStart::Load(load, key, _) => Ok(PinnedOrLoading::Begun(through, load, key)),
            },
            Ok(false) => Ok(PinnedOrLoading::Held(through, through)),
            Err(_) => unreachable!(),
        }
    }
}
