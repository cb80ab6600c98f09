//! `Access`: the calls of a pager for one owner, over a pager that is lent or behind a lock; and
//! `WorkerAccess`: what a page-out worker calls besides. Each call is one step.

ghost use Rattle.pagable_core.specs.Data.{blob_of};
ghost use Rattle.pagable_load.specs.{
  AccessView.{Acting, Acts, ActsThen, AdoptsValue, AsksFor, AsksRoot, IfKnown, IsNamedOrKind, IsReadBy},
  AccessView.{MakesCallBringing, TakesLazily},
  AccessView.{as_caller, as_worker, values_at},
  PinStart.{Shares, SharesStarted, StartsPin, ended_of, started_as},
  WorkerCalls.{PagesLeaves, RefusesEntry, ReleasesIfKeyed, SetsKeyAndReleases, SharesTaken, StartsEntry},
  WorkerCalls.{StoresNode, TakesReference, fault_in, taken_of},
};
ghost use Rattle.pagable_pager_spec.specs.{
  Access.{EntryHas, MakesCall, WorkerStarts},
  Calls.{ReleaseCall, ScheduleCall, SetKeyCall, StoreCall, TakeCall, UnpinCall},
  Cascade.FallsAnyhow,
  LoadCalls.{BeginKeyCall, DropCall, EndCall, HandOverCall},
  Pager.{IsCellOf, IsNewNode, PagerState, ValueCall},
  Refusals.WorkerFault,
  Workers.{WorkerEnds, claim_fault, is_workers_at},
  World.{Alike, result_map},
};
ghost use Rattle.pagable_value_spec.specs.{Blob.key_of, declared.numbers.HandleNumber.HandleNumber as Handle};
ghost use Rattle.std.specs.{Arc.arc_value, Prelude.{IfErr, IfNone, IfOk, IfSome, Ok, Option, Some, length, true, ◌≡◌, ◌≤◌}};

use either::Either;
use pagable_codec::{Env, NodeSet};
use pagable_core::{PagableData, SessionOf};
use pagable_pager_spec::Beginning;
use pagable_value_spec::{
    ArcRef, DataKey, Error, HandleNumber, Kind, LoadNumber, NodeNumber, OptionalDataKey,
    WorkerNumber,
};
use std::alloc::Global;
use std::sync::Arc;

/// How a pin of a loose handle begins.
#[derive(Clone, Copy)]
pub enum PinStart {
    /// The value is in memory: the new Pinned handle, and whether the loose handle was unpinned
    /// before.
    Pinned(HandleNumber, bool),
    /// The value isn't in memory, and a load of it has begun: its number, its key, and the type of
    /// the value.
    Load(LoadNumber, DataKey, u32),
}

/// How a pin of a loose handle begins, with the value if that is in memory.
#[derive(Drop)]
pub enum StartedPin<N> {
    /// The value is in memory: the new Pinned handle, whether the loose handle was unpinned before,
    /// and the result of sharing the value.
    Pinned(HandleNumber, bool, Result<Option<Arc<N>>, Error>),
    /// The value isn't in memory, and a load of it has begun: its number, its key, and the type of
    /// the value.
    Load(LoadNumber, DataKey, u32),
}

/// The pin with which a load of a cell has ended: the new Pinned handle, and whether the cell has
/// got the value that the load read. If not, it had its value already.
#[derive(Clone, Copy)]
pub struct EndedLoad {
    pub handle: HandleNumber,
    pub came: bool,
}

/// The calls of a pager for one owner: the caller, or a page-out worker. If the access knows the
/// pager's state, each call's clause says what the call does to that state; an access behind a lock
/// doesn't know it. Only `worker_begin`, `worker_listed` and `worker_end` change the owner; no call
/// changes the environment or the lender.
pub trait Access<E: Env<Node: NodeSet<E>>> {
    // The pager's state, if the access knows it.
    ghost known_state: { Self → Option (PagerState E.Node E) };

    // The owner for whom the access makes calls, the environment, and the lender of the pager.
    ghost acting: { Self → Acting E };

    /// Returns the environment.
    fn env(&self) -> &E
        ensures { result.now ≡ (acting self.now).environment };

    /// Lends the context of the one session in which all values of this pager's storage are read
    /// and written. No clause says what the context holds.
    fn session_context(&self) -> &SessionOf<E>;

    /// Pins a loose handle if its value is in memory, and shares the value; otherwise begins a load
    /// of its cell. If the value can't be shared, the handle is pinned all the same, and the error
    /// stands in the answer.
    ///
    /// # Errors
    ///
    /// - `NoSuchHandle` if the handle isn't live: nothing changes.
    /// - `NotYours` if another than this owner has it: nothing changes.
    /// - `WrongMode` if it isn't loose: nothing changes.
    /// - `NumbersSpent` if no number is left for a handle or a load: nothing changes.
    /// - `OutOfMemory` if a handle or a load can't be allocated: nothing changes.
    fn begin_pin(&mut self, handle: HandleNumber) -> Result<StartedPin<E::Node>, Error>
        ensures starts { Acts known_state acting self.old self.new (λ a s t. MakesCall
            (values_at E.Node.NodeSet E.Env E.Hash.KeyHash a.environment)
            (λ w'. StartsPin s.core a.me handle (result_map started_as result) w') s t) }
        ensures shares { IfOk result (λ started. IfKnown (known_state self.new) (λ s. SharesStarted s started)) };

    /// Shares the value that a handle pins; returns None if the handle pins none.
    ///
    /// # Errors
    ///
    /// - `NoSuchHandle` if the handle isn't live.
    /// - `OutOfMemory` if the value can't be shared.
    fn share(&self, handle: HandleNumber) -> Result<Option<Arc<E::Node>>, Error>
        ensures { IfKnown (known_state self.now) (λ s. Shares arc_value s handle result) };

    /// Stores a blob and returns its key.
    ///
    /// # Errors
    ///
    /// - `OutOfMemory` if an allocation fails: the blob isn't stored.
    /// - `Storage` if the storage fails: the blob isn't stored.
    /// - `KeyTaken` if another blob is stored under the key.
    /// - `Closed` if the storage is closed.
    fn store(&mut self, alloc: Global, blob: PagableData) -> Result<DataKey, Error>
        ensures key { IfOk result (λ key. key ≡ key_of E.Hash.digest (blob_of blob)) }
        ensures acts { Acts known_state acting self.old self.new
            (λ a s t. MakesCall (values_at E.Node.NodeSet E.Env E.Hash.KeyHash a.environment)
            (λ w'. StoreCall (key_of E.Hash.digest) s.core (blob_of blob) result w') s t) };

    /// Stores a blob under its key, which the caller has computed, for example before it takes the
    /// pager's lock.
    ///
    /// # Errors
    ///
    /// - those of `store`.
    fn store_keyed(
        &mut self,
        alloc: Global,
        key: DataKey,
        blob: PagableData,
    ) -> Result<DataKey, Error>
        requires { key ≡ key_of E.Hash.digest (blob_of blob) }
        ensures key { IfOk result (λ answer. answer ≡ key_of E.Hash.digest (blob_of blob)) }
        ensures acts { Acts known_state acting self.old self.new
            (λ a s t. MakesCall (values_at E.Node.NodeSet E.Env E.Hash.KeyHash a.environment)
            (λ w'. StoreCall (key_of E.Hash.digest) s.core (blob_of blob) result w') s t) };

    /// Sets the key of a loose handle's cell, and drops the cell's value if nothing pins it. Does
    /// nothing if the handle isn't loose.
    ///
    /// # Errors
    ///
    /// - `NoSuchHandle` if the handle isn't live: nothing changes.
    /// - `NotYours` if another than this owner has it: nothing changes.
    /// - `NumbersSpent` or `OutOfMemory` if a cell can't be listed for page-out: the key is set all
    ///   the same.
    fn set_data_key(&mut self, handle: HandleNumber, key: DataKey) -> Result<(), Error>
        ensures { Acts known_state acting self.old self.new (λ a s t. MakesCall
            (values_at E.Node.NodeSet E.Env E.Hash.KeyHash a.environment)
            (λ w'. SetKeyCall s.core a.me handle key result w') s t) };

    /// Unpins a loose handle. Does nothing if it is unpinned already.
    ///
    /// # Errors
    ///
    /// - `NoSuchHandle` if the handle isn't live: nothing changes.
    /// - `NotYours` if another than this owner has it: nothing changes.
    /// - `WrongMode` if it isn't loose: nothing changes.
    /// - `NumbersSpent` or `OutOfMemory` if a cell can't be listed for page-out: the handle is
    ///   unpinned all the same.
    fn unpin(&mut self, handle: HandleNumber) -> Result<(), Error>
        ensures { Acts known_state acting self.old self.new (λ a s t. MakesCall
            (values_at E.Node.NodeSet E.Env E.Hash.KeyHash a.environment) (λ w'. UnpinCall s.core a.me handle result w')
            s t) };

    /// Releases a handle.
    ///
    /// # Errors
    ///
    /// - `NoSuchHandle` if the handle isn't live: nothing changes.
    /// - `NotYours` if another than this owner has it: nothing changes.
    /// - `NumbersSpent` or `OutOfMemory` if a cell can't be listed for page-out: the handle is
    ///   released all the same.
    fn release(&mut self, handle: HandleNumber) -> Result<(), Error>
        ensures { Acts known_state acting self.old self.new (λ a s t. MakesCall
            (values_at E.Node.NodeSet E.Env E.Hash.KeyHash a.environment)
            (λ w'. ReleaseCall s.core a.me handle result w') s t) };

    /// Begins a load of a key.
    ///
    /// # Errors
    ///
    /// - `NumbersSpent` if no number is left for a load: nothing changes.
    /// - `OutOfMemory` if the load can't be allocated: nothing changes.
    fn load_key(&mut self, key: DataKey) -> Result<LoadNumber, Error>
        ensures { Acts known_state acting self.old self.new (λ a s t. MakesCall
            (values_at E.Node.NodeSet E.Env E.Hash.KeyHash a.environment)
            (λ w'. BeginKeyCall s.core a.me key (result_map (λ l. Beginning.Load l key) result) w') s t) };

    /// Fetches the blob of the load's own key, which has to be `key`. Whatever the storage does, the
    /// blob's hash is the key.
    ///
    /// # Errors
    ///
    /// - `NoSuchHandle` if the load isn't open, or is of another key.
    /// - `NotYours` if another than this owner began it.
    /// - `NoData`, `OutOfMemory` or `Storage`, as the storage fails.
    fn load_root(
        &mut self,
        alloc: Global,
        load: LoadNumber,
        key: DataKey,
    ) -> Result<Arc<PagableData>, Error>
        ensures acts { Acts known_state acting self.old self.new (λ a s t. MakesCall
            (values_at E.Node.NodeSet E.Env E.Hash.KeyHash a.environment)
            (λ w'. AsksRoot (λ d. blob_of (arc_value d)) s.core a.me load key result w') s t) }
        ensures named { IfOk result (λ d. key_of E.Hash.digest (blob_of (arc_value d)) ≡ key) };

    /// Gets what a reference leads to: the cached node, by a handle that the load owns, or the blob
    /// if no node is cached.
    ///
    /// # Errors
    ///
    /// - `NoSuchHandle` if the load isn't open.
    /// - `NotYours` if another than this owner began it.
    /// - `NumbersSpent` or `OutOfMemory` if the handle can't be made.
    /// - `NoData`, `OutOfMemory` or `Storage`, as the storage fails.
    fn load_nested(
        &mut self,
        alloc: Global,
        load: LoadNumber,
        kind: Kind,
        key: DataKey,
    ) -> Result<Either<ArcRef, Arc<PagableData>>, Error>
        ensures acts { Acts known_state acting self.old self.new (λ a s t. MakesCall
            (values_at E.Node.NodeSet E.Env E.Hash.KeyHash a.environment)
            (λ w'. AsksFor (λ d. blob_of (arc_value d)) s.core a.me load kind key result w') s t) }
        ensures named { IfOk result (IsNamedOrKind E.Hash.digest (λ d. blob_of (arc_value d)) kind key) };

    /// Resolves a loose reference without loading a value: returns a reference to the cached cell
    /// or to a new one, by a handle that the load owns.
    ///
    /// # Errors
    ///
    /// - `NoSuchHandle` if the load isn't open: nothing changes.
    /// - `NotYours` if another than this owner began it: nothing changes.
    /// - `WrongKind` if the kind isn't a loose one: nothing changes.
    /// - `NumbersSpent` or `OutOfMemory` if the handle or the cell can't be made: nothing changes.
    fn load_lazy(
        &mut self,
        alloc: Global,
        load: LoadNumber,
        kind: Kind,
        key: DataKey,
    ) -> Result<ArcRef, Error>
        ensures acts { Acts known_state acting self.old self.new (λ a s t. MakesCall
            (values_at E.Node.NodeSet E.Env E.Hash.KeyHash a.environment)
            (λ w'. TakesLazily s.core a.me load kind key result w') s t) }
        ensures kind { IfOk result (λ r. r.kind ≡ kind) };

    /// Makes a node of a value that the load has read, with a handle, which the load owns. If the
    /// cache has a node under the kind and key, drops the value and makes a handle of that node.
    ///
    /// # Errors
    ///
    /// Each error hands the value back, and nothing changes.
    ///
    /// - `NoSuchHandle` if the load isn't open, or a reference's handle isn't live.
    /// - `NotYours` if another than this owner began the load, or the load doesn't own a
    ///   reference's handle.
    /// - `WrongMode` if the kind is a loose one, or a reference's mode doesn't fit its kind.
    /// - `WrongKind` if the value's type isn't the kind's, or a reference's type isn't its kind's.
    /// - `NumbersSpent` or `OutOfMemory` if the handle or the node can't be made.
    fn load_adopt(
        &mut self,
        alloc: Global,
        load: LoadNumber,
        kind: Kind,
        key: DataKey,
        node: E::Node,
    ) -> Result<ArcRef, (Error, E::Node)>
        ensures acts { Acts known_state acting self.old self.new (λ a s t. MakesCallBringing
            (values_at E.Node.NodeSet E.Env E.Hash.KeyHash a.environment)
            (λ w'. AdoptsValue s.core a.me load kind key node (E.Node.type_of node) (E.Node.refs_of node) result w')
            (λ n x. (x ≡ node) × IsNewNode s.core n) s t) }
        ensures kind { IfOk result (λ r. r.kind ≡ kind) };

    /// Ends a load of a cell: pins the cell, which gets the value if it has none, and returns the
    /// new Pinned handle, and whether the cell has got the value. The value has to be the one that
    /// was read for the load's root, even if the access doesn't know the pager's state.
    ///
    /// # Errors
    ///
    /// An error that leaves the load open hands the value back. If the handle that began the load
    /// is gone or has another owner, the call closes the load and drops the value.
    ///
    /// - `NoSuchHandle` if the load isn't open, the handle that began it is gone, or a reference's
    ///   handle isn't live.
    /// - `NotYours` if another than this owner began the load or has that handle, or the load
    ///   doesn't own a reference's handle.
    /// - `WrongMode` if it is a load of a key, or a reference's mode doesn't fit its kind.
    /// - `WrongKind` if the value's type isn't the cell's, or a reference's type isn't its kind's.
    /// - `NumbersSpent` or `OutOfMemory` if the pin can't be made.
    fn load_end(
        &mut self,
        alloc: Global,
        load: LoadNumber,
        value: Arc<E::Node>,
    ) -> Result<EndedLoad, (Error, Option<Arc<E::Node>>)>
        requires { IsReadBy (values_at E.Node.NodeSet E.Env E.Hash.KeyHash (acting self.old).environment) load
            (arc_value value) }
        ensures acts { Acts known_state acting self.old self.new (λ a s t. MakesCallBringing
            (values_at E.Node.NodeSet E.Env E.Hash.KeyHash a.environment)
            (λ w'. EndCall s.core a.me load (arc_value value) (E.Node.type_of (arc_value value))
            (E.Node.refs_of (arc_value value)) (ended_of result) w')
            (λ n x. (x ≡ arc_value value) × IsCellOf s.core load n) s t) }
        ensures given { IfOk result (λ ended. ended.came ≡ true → IfKnown (known_state self.new)
            (λ s. ValueCall s ended.handle (Ok (Some (arc_value value))))) };

    /// Ends a load of a key: hands the named handles to this owner, and releases the load's other
    /// ones.
    ///
    /// # Errors
    ///
    /// - `NoSuchHandle` if the load isn't open, or a named handle isn't live: nothing changes.
    /// - `NotYours` if another than this owner began the load, or the load doesn't own a named
    ///   handle, or a handle is named twice: nothing changes.
    /// - `WrongMode` if it is a load of a cell: nothing changes.
    fn load_take(&mut self, load: LoadNumber, named: &[HandleNumber]) -> Result<(), Error>
        ensures { Acts known_state acting self.old self.new (λ a s t. MakesCall
            (values_at E.Node.NodeSet E.Env E.Hash.KeyHash a.environment)
            (λ w'. HandOverCall s.core a.me load named.now result w') s t) };

    /// Drops a load, and releases all that it owns.
    ///
    /// # Errors
    ///
    /// - `NoSuchHandle` if the load isn't open: nothing changes.
    /// - `NotYours` if another than this owner began it: nothing changes.
    /// - `NumbersSpent` or `OutOfMemory` if a cell can't be listed for page-out: the load is
    ///   dropped all the same.
    fn load_drop(&mut self, load: LoadNumber) -> Result<(), Error>
        ensures { Acts known_state acting self.old self.new (λ a s t. MakesCall
            (values_at E.Node.NodeSet E.Env E.Hash.KeyHash a.environment) (λ w'. DropCall s.core a.me load result w') s
            t) };
}

/// What a worker gets for a reference that it has claimed.
#[derive(Clone, Copy)]
pub enum PinnedOrLoading {
    /// A clone of the reference's handle, and the handle that pins the node.
    Held(HandleNumber, HandleNumber),
    /// A clone of the reference's handle, and the load of its cell that has begun, with its key.
    Begun(HandleNumber, LoadNumber, DataKey),
}

/// What a worker gets for a reference that it has claimed, with the value of the pinned node.
#[derive(Drop)]
pub enum TakenValue<N> {
    /// A clone of the reference's handle, the handle that pins the node, and the result of sharing
    /// its value.
    Held(HandleNumber, HandleNumber, Result<Option<Arc<N>>, Error>),
    /// A clone of the reference's handle, and the load of its cell that has begun, with its key.
    Begun(HandleNumber, LoadNumber, DataKey),
}

/// A node of which a worker has handles; and, if the claimed reference is a loose one, the worker's
/// loose handle by which the node's cell gets its key.
#[derive(Clone, Copy)]
pub struct WorkerNode {
    pub worker: WorkerNumber,
    pub node: NodeNumber,
    pub loose: Option<HandleNumber>,
}

/// The calls of a pager for one worker. An access behind a lock takes the lock once for each call,
/// also for one that does several things.
pub trait WorkerAccess<E: Env<Node: NodeSet<E>>>: Access<E> {
    /// Checks whether a reference can be claimed, whoever owns its handle.
    ///
    /// # Errors
    ///
    /// - `NoSuchHandle` if the handle isn't live, or isn't of the reference's node.
    /// - `WrongMode` if its mode doesn't fit the kind.
    /// - `WrongKind` if the node's type doesn't fit the kind.
    fn check_reference(&self, reference: ArcRef) -> Result<(), Error>
        ensures { IfKnown (Self.known_state self.now) (λ s. fault_in result ≡ claim_fault s.core reference) };

    /// Does what `check_reference` does, of a reference of a value that this worker pins. An access
    /// that tells no state may answer without a look: nothing changes such a reference meanwhile.
    ///
    /// # Errors
    ///
    /// - those of `check_reference`.
    fn check_own_reference(&self, reference: ArcRef) -> Result<(), Error>
        ensures { IfKnown (Self.known_state self.now) (λ s. fault_in result ≡ claim_fault s.core reference) }
    {
        self.check_reference(reference)
    }

    /// Clones a reference's handle for the worker. If the clone is loose, pins its cell, or begins
    /// a load of the cell if the value isn't in memory.
    ///
    /// # Errors
    ///
    /// - those of cloning the handle: nothing changes.
    /// - those of pinning the clone or of beginning the load: the worker keeps the clone.
    fn pin_or_load_reference(&mut self, reference: ArcRef) -> Result<PinnedOrLoading, Error>
        ensures { Acts Self.known_state Self.acting self.old self.new
            (λ a s t. MakesCall (values_at E.Node.NodeSet E.Env E.Hash.KeyHash a.environment)
            (λ w'. TakesReference s.core a.me reference result w') s t) };

    /// Does what `pin_or_load_reference` does. If the node is pinned then, also returns an `Arc` of
    /// its value, or the error of making it: the worker keeps the handles that it got in any case.
    ///
    /// # Errors
    ///
    /// - those of `pin_or_load_reference`.
    fn pin_or_load_value(&mut self, reference: ArcRef) -> Result<TakenValue<E::Node>, Error>
        ensures takes { Acts Self.known_state Self.acting self.old self.new
            (λ a s t. MakesCall (values_at E.Node.NodeSet E.Env E.Hash.KeyHash a.environment)
            (λ w'. TakesReference s.core a.me reference (result_map taken_of result) w') s t) }
        ensures shares { IfOk result (λ taken. IfKnown (Self.known_state self.new) (λ s. SharesTaken s taken)) };

    /// Releases all handles that a worker has of a node.
    fn release_worker_node(&mut self, worker: WorkerNumber, node: NodeNumber)
        ensures { Acts Self.known_state Self.acting self.old self.new
            (λ a s t. MakesCall (values_at E.Node.NodeSet E.Env E.Hash.KeyHash a.environment)
            (λ w'. FallsAnyhow s.core s.core (is_workers_at s.core worker.0 node.0) w') s t) };

    /// Sets the key of a worker's node by its loose handle, if `at` has one, and releases all
    /// handles that the worker has of the node.
    ///
    /// # Errors
    ///
    /// - those of `set_data_key`: the worker keeps its handles.
    fn set_key_and_release(&mut self, at: WorkerNode, key: DataKey) -> Result<(), Error>
        ensures { Acts Self.known_state Self.acting self.old self.new
            (λ a s t. SetsKeyAndReleases (values_at E.Node.NodeSet E.Env E.Hash.KeyHash a.environment) a.me
            at key result s t) };

    /// Stores the blob of a worker's node, sets the node's key and releases the worker's handles of
    /// the node, as `set_key_and_release` does, and returns the key.
    ///
    /// # Errors
    ///
    /// - those of `store`: no key is set, and the worker keeps its handles.
    /// - those of `set_key_and_release`: the blob is stored.
    fn store_node(
        &mut self,
        alloc: Global,
        blob: PagableData,
        at: WorkerNode,
    ) -> Result<DataKey, Error>
        ensures key { IfOk result (λ key. key ≡ key_of E.Hash.digest (blob_of blob)) }
        ensures acts { Acts Self.known_state Self.acting self.old self.new
            (λ a s t. StoresNode (values_at E.Node.NodeSet E.Env E.Hash.KeyHash a.environment) a.me at
            (blob_of blob) result s t) };

    /// Does what `store_node` does, with a key that the caller has computed, for example before it
    /// takes the pager's lock.
    ///
    /// # Errors
    ///
    /// - those of `store_node`.
    fn store_node_keyed(
        &mut self,
        alloc: Global,
        key: DataKey,
        blob: PagableData,
        at: WorkerNode,
    ) -> Result<DataKey, Error>
        requires { key ≡ key_of E.Hash.digest (blob_of blob) }
        ensures key { IfOk result (λ answer. answer ≡ key_of E.Hash.digest (blob_of blob)) }
        ensures acts { Acts Self.known_state Self.acting self.old self.new
            (λ a s t. StoresNode (values_at E.Node.NodeSet E.Env E.Hash.KeyHash a.environment) a.me at
            (blob_of blob) result s t) };

    /// Puts a loose unpinned handle at the end of the list of cells that wait for page-out; if the
    /// storage is closed, releases the handle instead.
    ///
    /// # Errors
    ///
    /// - `NoSuchHandle` if the handle isn't live: nothing changes.
    /// - `NotYours` if another than this owner has it: nothing changes.
    /// - `WrongMode` if it isn't loose and unpinned: nothing changes.
    /// - `OutOfMemory` if the list can't grow: nothing changes.
    fn schedule_for_paging(&mut self, handle: HandleNumber) -> Result<(), Error>
        ensures { Acts Self.known_state Self.acting self.old self.new
            (λ a s t. MakesCall (values_at E.Node.NodeSet E.Env E.Hash.KeyHash a.environment)
            (λ w'. ScheduleCall s.core a.me handle result w') s t) };

    /// Begins a worker, for which the access makes calls from now on.
    ///
    /// # Errors
    ///
    /// - `NumbersSpent` if no number is left for a worker: nothing changes.
    /// - `OutOfMemory` if the worker can't be allocated: nothing changes.
    fn worker_begin(&mut self) -> Result<WorkerNumber, Error>
        ensures begins { IfOk result (λ n. ActsThen Self.known_state Self.acting self.old self.new (as_worker n)
            (λ a s t. WorkerStarts (values_at E.Node.NodeSet E.Env E.Hash.KeyHash a.environment) s.core s n.0 t)) }
        ensures refused { IfErr result (λ e. Acts Self.known_state Self.acting self.old self.new
            (λ a s t. WorkerFault s.core e × MakesCall (values_at E.Node.NodeSet E.Env E.Hash.KeyHash a.environment)
            (λ w'. Alike s.core w') s t)) };

    /// Begins a worker for the entry at this place, counted from 0, of the list of cells that wait
    /// for page-out. The worker owns the entry's handle, and the access makes calls for the worker
    /// from now on. Returns also the loose reference to the entry's cell by that handle.
    ///
    /// # Errors
    ///
    /// - `NoSuchHandle` if the list has no such place: nothing changes.
    /// - `WrongKind` if the kinds of the cell's type would exceed 32 bits: nothing changes.
    /// - `NumbersSpent` if no number is left for a worker: nothing changes.
    /// - `OutOfMemory` if the worker can't be allocated: nothing changes.
    fn worker_listed(&mut self, place: usize) -> Result<(WorkerNumber, ArcRef), Error>
        ensures begins { IfOk result (λ b. ActsThen Self.known_state Self.acting self.old self.new (as_worker b.0)
            (λ a s t. StartsEntry (values_at E.Node.NodeSet E.Env E.Hash.KeyHash a.environment) s place b.0 b.1 t)) }
        ensures refused { IfErr result (λ e. Acts Self.known_state Self.acting self.old self.new
            (λ a s t. RefusesEntry (values_at E.Node.NodeSet E.Env E.Hash.KeyHash a.environment) s place e t)) };

    /// Ends a worker: releases what it still owns and closes its loads. The access makes calls for
    /// the caller again.
    fn worker_end(&mut self, worker: WorkerNumber)
        ensures { ActsThen Self.known_state Self.acting self.old self.new as_caller
            (λ a s t. MakesCall (values_at E.Node.NodeSet E.Env E.Hash.KeyHash a.environment)
            (λ w'. WorkerEnds s.core worker.0 w') s t) };

    /// Returns how many entries wait for page-out.
    fn pending(&self) -> usize
        ensures { IfKnown (Self.known_state self.now) (λ s. result ≡ length s.core.list) };

    /// Returns the key of the listed cell at this place; None past the list's end.
    fn entry_key(&self, place: usize) -> Option<OptionalDataKey>
        ensures some { IfSome result (λ key. IfKnown (Self.known_state self.now)
            (λ s. (h : Handle) × EntryHas s.core place h key)) }
        ensures none { IfNone result (IfKnown (Self.known_state self.now) (λ s. length s.core.list ≤ place)) };

    /// Removes the entry at this place from the page-out list, and returns its handle, which this
    /// owner has from now on; returns None past the list's end.
    fn take_pending(&mut self, place: usize) -> Option<HandleNumber>
        ensures { Acts Self.known_state Self.acting self.old self.new
            (λ a s t. MakesCall (values_at E.Node.NodeSet E.Env E.Hash.KeyHash a.environment)
            (λ w'. TakeCall s.core a.me place result w') s t) };

    /// Releases the list entry at this place if its cell has a key. Returns whether it did so; None
    /// past the list's end. It ignores an error of the release, which says that a cell can't be
    /// listed for page-out.
    fn release_if_keyed(&mut self, place: usize) -> Option<bool>
        ensures { Acts Self.known_state Self.acting self.old self.new
            (λ a s t. ReleasesIfKeyed (values_at E.Node.NodeSet E.Env E.Hash.KeyHash a.environment) s a.me place
            result t) };

    /// Pages out entries of the page-out list without a worker each, with the result of the worker's
    /// steps: those below `left`, from the last of them on, as long as their cells have no key and
    /// their values refer to nothing. Returns how many entries are left below them. It may stop
    /// earlier, and an access that pages out nothing so returns `left`.
    ///
    /// # Errors
    ///
    /// - those of storing the blob of an entry; those after it in the list are paged out, and those
    ///   before it are left. They leave the list as after the worker's steps: the entry has left its
    ///   place, and stands at the list's end under a new handle if nothing pins its cell.
    fn page_out_leaves(&mut self, alloc: Global, left: usize) -> Result<usize, Error>
        ensures pages { Acts Self.known_state Self.acting self.old self.new
            (λ a s t. PagesLeaves (values_at E.Node.NodeSet E.Env E.Hash.KeyHash a.environment) s left result t) }
        ensures fewer { IfOk result (λ rest. rest ≤ left) };
}
