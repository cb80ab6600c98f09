//! The pager: values in memory, in step with the tables of handles and nodes, over a storage of
//! blobs; and loads, by steps.

ghost use Rattle.futures.specs.{Poll.{IfReady, OnPending}, Task.{IsArmed, Keeps}};
ghost use Rattle.pagable_core.specs.{Data.blob_of, Roots.StaysOrTakes};
ghost use Rattle.pagable_load.specs.{AccessView.{AsksRoot, values_at}, PinStart.Shares};
ghost use Rattle.pagable_pager.specs.{
  Polling.PollCall,
  View.{AsksStorage, Calls, ChangesOnlyTables, FewerValues, FitsWant, IsNamedFor, KeepsWorkers, ReadsAs},
  View.{SameNames, SameValues, from_cache_or_store, may_call, pager_core, pager_state, type_of_root},
};
ghost use Rattle.pagable_pager_spec.specs.{
  Calls.{CloseCall, FetchCall, FlushCall, StoreCall},
  LoadCalls.{BeginCall, BeginKeyCall, LazyCall, LoadFetchCall},
  Pager.{IsNew, IsPagerWhole, ValueCall},
  Refusals.load_fault,
  World.{greatest, result_map},
};
ghost use Rattle.pagable_tables.specs.{Core.root_in, EndingLoads.AsksCache, Soundness.is_sound};
ghost use Rattle.pagable_value_spec.specs.{Blob.{Blob, key_of}, Stored.{IsMemoryOrFailure, RefusesFetch, RefusesStore}};
ghost use Rattle.std.specs.{
  Arc.arc_value,
  Option.option_map,
  Prelude.{IfErr, IfNone, IfOk, IsTrue, List, None, OnErr, OnOk, Option, Some, false, nat_lt, true, ℕ, ◌≡◌},
};

// A function whose name ends in `_for` does what the function without this ending does, for the
// owner that it is given: the caller, or a worker at work.
pub mod calls;
pub mod insert;
pub mod leaf;
pub mod leaf_page_out;
pub mod roots;
pub mod stats;

use crate::setting::PagerSetting;
use either::Either;
use futures::task::{Context, Poll};
use pagable_codec::{Env, NodeSet};
use pagable_core::{PagableData, PagableStorage, SessionOf, Setting};
use pagable_pager_spec::handle_row::Owner;
use pagable_pager_spec::{Beginning, FetchTarget};
use pagable_tables::load_table::LoadRoot;
use pagable_tables::number_table::NumberTable;
use pagable_tables::tables::Tables;
use pagable_tables::{checks, load, queries, release, soundness, tables};
use pagable_value_spec::{DataKey, Error, HandleNumber, Kind, LoadNumber, WorkerNumber};
use std::alloc::Global;
use std::marker::Model;
use std::sync::Arc;

/// Shared values, their handles and their loads, over a storage of blobs.
///
/// A call that fails changes nothing and hands back the value that it was given, except where its
/// own description says otherwise.
#[derive(Drop)]
pub struct Pager<E: Env<Node: NodeSet<E>>, S: PagableStorage<E>> {
    pub(crate) tables: Tables,
    values: NumberTable<Arc<E::Node>>,
    storage: S,
    setting: PagerSetting<E>,
}

impl<E: Env<Node: NodeSet<E>>, S: PagableStorage<E>> Model for Pager<E, S> {
    ghost use Rattle.std.specs.Coded.{codes};
    ghost use Rattle.{pagable_load.specs.AccessView.values_at, pagable_pager.specs.{Setting.environment_of, View.{PagerView, IsPager}}, indexmap.specs.Layout.hash_map_code};

    ghost Value = { PagerView E.Node S E };

    ghost coded = { Prim.hlevel (codes, hash_map_code) };

    ghost view = { λ p. record {
      tables = p.tables;
      values = p.values;
      storage = p.storage;
      environment = environment_of p.setting;
    } };

    ghost invariant = { λ p. IsPager S.PagableStorage (values_at E.Node.NodeSet E.Env E.Hash.KeyHash)
        (record {
          tables = p.tables;
          values = p.values;
          storage = p.storage;
          environment = environment_of p.setting;
        }) };
}

/// Returns the type of the cell's value, if this is the root of a load of a cell; None if it is
/// that of a load of a key.
pub(crate) fn cell_type(root: LoadRoot) -> Option<u32>
    ensures { result ≡ type_of_root (root_in root) }
{
    match root {
        LoadRoot::Cell(_, node_type, _) => Some(node_type),
        LoadRoot::Key => None,
    }
}

impl<E: Env<Node: NodeSet<E>>, S: PagableStorage<E>> Pager<E, S> {
    /// Creates an empty pager over a storage, which may hold blobs. It allocates nothing.
    pub fn new(alloc: Global, storage: S, env: E) -> Pager<E, S>
        ensures empty { IsNew (pager_state S.PagableStorage result) }
        ensures storage { result.storage ≡ storage }
        ensures environment { result.environment ≡ env }
    {
        Pager {
            tables: tables::new(alloc),
            values: NumberTable::new(alloc),
            storage,
            setting: PagerSetting::Owned(Setting::new(alloc, env)),
        }
    }

    /// Creates an empty pager over a storage, which may hold blobs, with an environment and a
    /// session that are also used without the pager, as by threads outside its lock. It allocates
    /// nothing.
    pub fn with_shared_setting(alloc: Global, storage: S, setting: Arc<Setting<E>>) -> Pager<E, S>
        ensures empty { IsNew (pager_state S.PagableStorage result) }
        ensures storage { result.storage ≡ storage }
        ensures environment { result.environment ≡ (arc_value setting).env }
    {
        Pager {
            tables: tables::new(alloc),
            values: NumberTable::new(alloc),
            storage,
            setting: PagerSetting::Shared(setting),
        }
    }

    /// Lends the value of a handle's node, if the handle pins it. Fails with NoSuchHandle only.
    fn pinned_value(&self, handle: HandleNumber) -> Result<Option<&Arc<E::Node>>, Error>
        ensures { ValueCall (pager_state S.PagableStorage self.now) handle
            (result_map (option_map (λ x. arc_value x.now)) result) }
    {
        match queries::pinned_node(&self.tables, handle) {
            Ok(Some(node)) => Ok(self.values.get(node.0)),
            Ok(None) => Ok(None),
            Err(e) => Err(e),
        }
    }

    /// Lends the value of a handle's node; returns None if the handle doesn't pin it.
    ///
    /// # Errors
    ///
    /// - `NoSuchHandle` if the handle isn't live.
    pub fn value(&self, handle: HandleNumber) -> Result<Option<&E::Node>, Error>
        ensures { ValueCall (pager_state S.PagableStorage self.now) handle
            (result_map (option_map (λ x. x.now)) result) }
    {
        match self.pinned_value(handle) {
            Ok(Some(value)) => Ok(Some(value.as_ref())),
            Ok(None) => Ok(None),
            Err(e) => Err(e),
        }
    }

    /// Shares the value of a handle's node; returns None if the handle doesn't pin it.
    ///
    /// # Errors
    ///
    /// - `NoSuchHandle` if the handle isn't live.
    /// - `OutOfMemory` if the value can't be shared once more.
    pub fn share(&self, handle: HandleNumber) -> Result<Option<Arc<E::Node>>, Error>
        ensures { Shares arc_value (pager_state S.PagableStorage self.now) handle result }
    {
        match self.pinned_value(handle) {
            Ok(Some(value)) => Ok(Some(value.clone()?)),
            Ok(None) => Ok(None),
            Err(e) => Err(e),
        }
    }

    /// Returns the environment.
    pub fn env(&self) -> &E
        ensures { result.now ≡ self.now.environment }
    {
        &self.setting.get().env
    }

    /// Lends the context of the one session in which all values of this pager's storage are read
    /// and written. No clause says what the context holds.
    pub fn session_context(&self) -> &SessionOf<E> {
        &self.setting.get().session
    }

    /// Returns whether no page-out worker is at work on this pager. A page-out ends its workers
    /// before it returns; but workers are at work between the steps of a `Machine`, and between
    /// those of a page-out that takes a lock for each step.
    pub fn is_at_rest(&self) -> bool
        ensures { result ≡ true → (v : ℕ) → (pager_core S.PagableStorage self.now).workers v ≡ false }
    {
        self.tables.workers.is_empty()
    }

    /// Returns whether this page-out worker is at work on this pager.
    pub fn has_worker(&self, worker: WorkerNumber) -> bool
        ensures { result ≡ (pager_core S.PagableStorage self.now).workers worker.0 }
    {
        self.tables.workers.get(&worker.0).is_some()
    }

    /// Returns the storage.
    pub fn storage(&self) -> &S
        ensures { result.now ≡ self.now.storage }
    {
        &self.storage
    }

    /// Returns the storage and drops the pager with its values, handles and loads. It neither
    /// closes nor flushes the storage.
    pub fn into_storage(self) -> S
    where
        E: Drop,
        ensures { result ≡ self.storage }
    {
        self.storage
    }

    /// States the invariant of every pager: each node's count is the number of its pinning handles;
    /// a value is in memory exactly if its node is pinned or has no key; and a value owns the
    /// handles of its references.
    pub fn assert_invariant(&self)
        ensures { IsPagerWhole (values_at E.Node.NodeSet E.Env E.Hash.KeyHash self.now.environment)
            (pager_state S.PagableStorage self.now) }
    {
        let _tables = &self.tables;
    }

    /// Computes, for tests, whether the pager's tables and values agree: each live handle has a
    /// node, and an owner that knows the handle; each node counts its handles, and has its value
    /// exactly if one pins it or it has no key; each value owns the handles of its references; the
    /// list owns its handles; and each cached node is of its kind. They do in every pager. It takes
    /// time quadratic in the size of the tables.
    pub fn is_sound(&self) -> bool
        ensures exact { result ≡ is_sound self.now.tables self.now.values }
        ensures always { result ≡ true }
    {
        soundness::is_sound(&self.tables, &self.values)
    }

    /// Fetches the blob under a key.
    ///
    /// # Errors
    ///
    /// - `NoData` if the storage has no blob under the key.
    /// - `OutOfMemory` if an allocation fails.
    /// - `Storage` if the storage fails.
    pub fn fetch(&mut self, alloc: Global, key: DataKey) -> Result<Arc<PagableData>, Error>
        ensures asks { AsksStorage S.PagableStorage self.old
            (λ w w'. FetchCall w key (result_map (λ d. blob_of (arc_value d)) result) w') self.new }
        ensures named { IfOk result (λ found. key_of E.Hash.digest (blob_of (arc_value found)) ≡ key) }
        ensures refused { IfErr result (RefusesFetch key None (S.failed self.old.storage) (S.failed self.new.storage)) }
        ensures same_names { SameNames S.PagableStorage self.old.storage self.new.storage }
    {
        self.storage.fetch_data_blocking(alloc, key)
    }

    /// Polls the fetch of the blob under a key. If the result is pending, the storage has kept a
    /// waker of `cx`, and only the storage's count of failures may have changed.
    ///
    /// # Errors
    ///
    /// - those of `fetch`.
    pub fn poll_fetch(
        &mut self,
        cx: &mut Context<'_>,
        alloc: Global,
        key: DataKey,
    ) -> Poll<Result<Arc<PagableData>, Error>>
        ensures asks { AsksStorage S.PagableStorage self.old
            (λ w w'. PollCall (λ d. blob_of (arc_value d)) w key result w') self.new }
        ensures named { IfReady result (λ r. IfOk r (λ found. key_of E.Hash.digest (blob_of (arc_value found)) ≡ key)) }
        ensures refused { IfReady result (λ r. IfErr r
            (RefusesFetch key None (S.failed self.old.storage) (S.failed self.new.storage))) }
        ensures same_names { SameNames S.PagableStorage self.old.storage self.new.storage }
        ensures armed { OnPending result (IsArmed cx.new) }
        ensures kept { Keeps cx.old cx.new }
    {
        self.storage.fetch_data(cx, alloc, key)
    }

    /// Stores a blob and returns its key.
    ///
    /// # Errors
    ///
    /// - `OutOfMemory` if an allocation fails: the blob isn't stored.
    /// - `Storage` if the storage fails: the blob isn't stored.
    /// - `KeyTaken` if another blob is stored under the key.
    /// - `Closed` if the storage is closed.
    pub fn store(&mut self, alloc: Global, blob: PagableData) -> Result<DataKey, Error>
        ensures asks { AsksStorage S.PagableStorage self.old
            (λ w w'. StoreCall (key_of E.Hash.digest) w (blob_of blob) result w') self.new }
        ensures key { IfOk result (λ key. key ≡ key_of E.Hash.digest (blob_of blob)) }
        ensures refused { IfErr result (λ e. (found : Option Blob)
            × RefusesStore (blob_of blob) found (S.is_closed self.old.storage) (S.failed self.old.storage)
            (S.failed self.new.storage) e) }
        ensures same_names { IsTrue (S.is_honest self.new.storage)
            → S.roots self.new.storage ≡ S.roots self.old.storage }
        ensures durable_names { IsTrue (S.is_honest self.new.storage)
            → StaysOrTakes (S.roots self.old.storage) (S.roots_flushed self.old.storage)
            (S.roots_flushed self.new.storage) }
    {
        self.storage.store_data(alloc, blob)
    }

    /// Stores a blob under its key, which the caller has computed, for example before it takes the
    /// pager's lock.
    ///
    /// # Errors
    ///
    /// - those of `store`.
    pub fn store_keyed(
        &mut self,
        alloc: Global,
        key: DataKey,
        blob: PagableData,
    ) -> Result<DataKey, Error>
        requires { key ≡ key_of E.Hash.digest (blob_of blob) }
        ensures asks { AsksStorage S.PagableStorage self.old
            (λ w w'. StoreCall (key_of E.Hash.digest) w (blob_of blob) result w') self.new }
        ensures key { IfOk result (λ answer. answer ≡ key_of E.Hash.digest (blob_of blob)) }
        ensures refused { IfErr result (λ e. (found : Option Blob)
            × RefusesStore (blob_of blob) found (S.is_closed self.old.storage) (S.failed self.old.storage)
            (S.failed self.new.storage) e) }
        ensures same_names { IsTrue (S.is_honest self.new.storage)
            → S.roots self.new.storage ≡ S.roots self.old.storage }
        ensures durable_names { IsTrue (S.is_honest self.new.storage)
            → StaysOrTakes (S.roots self.old.storage) (S.roots_flushed self.old.storage)
            (S.roots_flushed self.new.storage) }
    {
        self.storage.store_keyed(alloc, key, blob)
    }

    /// Makes the storage write what it has held back: afterwards all that is stored is persistent,
    /// and so is what each name stands for.
    ///
    /// # Errors
    ///
    /// - `OutOfMemory` if an allocation fails.
    /// - `Storage` if the storage fails.
    pub fn flush(&mut self) -> Result<(), Error>
        ensures asks { AsksStorage S.PagableStorage self.old (λ w w'. FlushCall w result w') self.new }
        ensures sure { IsTrue (S.is_honest self.new.storage)
            → OnOk result (S.flushed self.new.storage ≡ S.stored self.new.storage) }
        ensures sure_names { IsTrue (S.is_honest self.new.storage)
            → OnOk result (S.roots_flushed self.new.storage ≡ S.roots self.new.storage) }
        ensures same_names { IsTrue (S.is_honest self.new.storage)
            → S.roots self.new.storage ≡ S.roots self.old.storage }
        ensures durable_names { IsTrue (S.is_honest self.new.storage) → OnErr result
            (StaysOrTakes (S.roots self.old.storage) (S.roots_flushed self.old.storage)
            (S.roots_flushed self.new.storage)) }
        ensures refused { IfErr result (IsMemoryOrFailure (S.failed self.old.storage) (S.failed self.new.storage)) }
    {
        self.storage.flush()
    }

    /// Closes the storage, which drops all blobs. Releases the handles of the page-out list, with
    /// all that follows, and empties the list and the cache; from then on nothing is listed for
    /// page-out or cached. Never fails, and allocates nothing.
    pub fn close(&mut self) -> Result<(), Error>
        ensures calls { Calls FewerValues S.PagableStorage self.old (λ w w'. CloseCall w result w') self.new }
        ensures honest { IsTrue (S.is_honest self.new.storage) → IsTrue (S.is_honest self.old.storage) }
        ensures no_names { (name : List ℕ) → S.roots self.new.storage name ≡ None }
    {
        self.storage.close();
        release::close(&mut self.tables, &mut self.values);
        Ok(())
    }

    /// Begins a load of a key, without a cell.
    ///
    /// # Errors
    ///
    /// - `NumbersSpent` if no number is left for a load.
    /// - `OutOfMemory` if the load can't be allocated.
    pub fn load_key(&mut self, key: DataKey) -> Result<Beginning, Error>
        ensures { Calls ChangesOnlyTables S.PagableStorage self.old
            (λ w w'. BeginKeyCall w Owner.Caller key result w') self.new }
    {
        self.load_key_for(Owner::Caller, key)
    }

    pub(crate) fn load_key_for(&mut self, me: Owner, key: DataKey) -> Result<Beginning, Error>
        requires { may_call (pager_core S.PagableStorage self.old) me ≡ true }
        ensures { Calls ChangesOnlyTables S.PagableStorage self.old (λ w w'. BeginKeyCall w me key result w') self.new }
    {
        load::load_key(&mut self.tables, me, key)
    }

    /// Begins a load of a loose handle's cell. The load owns an unpinned clone of the handle.
    /// Returns `InMemory` and changes nothing if the value is in memory.
    ///
    /// # Errors
    ///
    /// - `NoSuchHandle` if the handle isn't live.
    /// - `NotYours` if another than the caller has it.
    /// - `WrongMode` if it isn't loose.
    /// - `NumbersSpent` if no number is left for the load or the clone.
    /// - `OutOfMemory` if the load or the clone can't be allocated.
    pub fn load_begin(&mut self, handle: HandleNumber) -> Result<Beginning, Error>
        ensures { Calls ChangesOnlyTables S.PagableStorage self.old
            (λ w w'. BeginCall w Owner.Caller handle result w') self.new }
    {
        self.load_begin_for(Owner::Caller, handle)
    }

    pub(crate) fn load_begin_for(
        &mut self,
        me: Owner,
        handle: HandleNumber,
    ) -> Result<Beginning, Error>
        requires { may_call (pager_core S.PagableStorage self.old) me ≡ true }
        ensures { Calls ChangesOnlyTables S.PagableStorage self.old (λ w w'. BeginCall w me handle result w') self.new }
    {
        load::load_begin(&mut self.tables, me, handle)
    }

    /// Makes a handle, which the load owns, of the node that the cache has under the kind and key;
    /// returns None if the cache has none. Fails as `load_fetch` does before it fetches a blob.
    fn load_cached(
        &mut self,
        me: Owner,
        load: LoadNumber,
        kind: Kind,
        key: DataKey,
    ) -> Result<Option<HandleNumber>, Error>
        ensures step { AsksCache (pager_core S.PagableStorage self.old) me load kind key result
            (pager_core S.PagableStorage self.new) }
        ensures none { IfOk result
            (λ found. IfNone found (pager_core S.PagableStorage self.new ≡ pager_core S.PagableStorage self.old)) }
        ensures only { ChangesOnlyTables self.old self.new }
    {
        load::load_cached(&mut self.tables, me, load, kind, key)
    }

    /// Fetches what a load needs next. `Root`: the blob of its key. `Nested`: a handle of the
    /// cached node, which the load owns, or the blob if the cache has none.
    ///
    /// # Errors
    ///
    /// - `NoSuchHandle` if the load isn't open.
    /// - `NotYours` if another than the caller began it.
    /// - `NumbersSpent` or `OutOfMemory` if the handle can't be made.
    /// - those of `fetch` for a blob.
    pub fn load_fetch(
        &mut self,
        alloc: Global,
        load: LoadNumber,
        want: FetchTarget,
    ) -> Result<Either<HandleNumber, Arc<PagableData>>, Error>
        ensures step { IsTrue (S.is_honest self.new.storage) → LoadFetchCall (pager_core S.PagableStorage self.old)
            Owner.Caller load want (result_map (from_cache_or_store (λ d. blob_of (arc_value d))) result)
            (pager_core S.PagableStorage self.new) }
        ensures honest { IsTrue (S.is_honest self.new.storage) → IsTrue (S.is_honest self.old.storage) }
        ensures kept { KeepsWorkers (pager_core S.PagableStorage self.old) (pager_core S.PagableStorage self.new) }
        ensures fits { IfOk result (FitsWant want) }
        ensures named { IfOk result (IsNamedFor E.Hash.digest (λ d. blob_of (arc_value d))
            (pager_core S.PagableStorage self.old) load want) }
        ensures only { SameValues self.old self.new }
        ensures same_names { SameNames S.PagableStorage self.old.storage self.new.storage }
    {
        self.load_fetch_for(Owner::Caller, alloc, load, want)
    }

    #[tactic(auto, using(std::proofs::lemmas::Bool::Decides::nat_tests, crate::proofs::Invariant::known_found))]
    pub(crate) fn load_fetch_for(
        &mut self,
        me: Owner,
        alloc: Global,
        load: LoadNumber,
        want: FetchTarget,
    ) -> Result<Either<HandleNumber, Arc<PagableData>>, Error>
        ensures step { IsTrue (S.is_honest self.new.storage) → LoadFetchCall (pager_core S.PagableStorage self.old) me
            load want (result_map (from_cache_or_store (λ d. blob_of (arc_value d))) result)
            (pager_core S.PagableStorage self.new) }
        ensures honest { IsTrue (S.is_honest self.new.storage) → IsTrue (S.is_honest self.old.storage) }
        ensures kept { KeepsWorkers (pager_core S.PagableStorage self.old) (pager_core S.PagableStorage self.new) }
        ensures fits { IfOk result (FitsWant want) }
        ensures named { IfOk result (IsNamedFor E.Hash.digest (λ d. blob_of (arc_value d))
            (pager_core S.PagableStorage self.old) load want) }
        ensures only { SameValues self.old self.new }
        ensures same_names { SameNames S.PagableStorage self.old.storage self.new.storage }
    {
        match want {
            FetchTarget::Root => {
                let row = checks::load_row(&self.tables, me, load)?;
                Ok(Either::Right(self.fetch(alloc, row.key)?))
            }
            FetchTarget::Nested(kind, key) => match self.load_cached(me, load, kind, key)? {
                Some(known) => Ok(Either::Left(known)),
                None => Ok(Either::Right(self.fetch(alloc, key)?)),
            },
        }
    }

    // Fetches the blob of the load's own key, which has to be this one.
    #[tactic(auto, using(std::proofs::lemmas::Bool::Decides::nat_tests))]
    pub(crate) fn load_root_for(
        &mut self,
        me: Owner,
        alloc: Global,
        load: LoadNumber,
        key: DataKey,
    ) -> Result<Arc<PagableData>, Error>
        ensures step { IsTrue (S.is_honest self.new.storage) → AsksRoot (λ d. blob_of (arc_value d))
            (pager_core S.PagableStorage self.old) me load key result (pager_core S.PagableStorage self.new) }
        ensures honest { IsTrue (S.is_honest self.new.storage) → IsTrue (S.is_honest self.old.storage) }
        ensures kept { KeepsWorkers (pager_core S.PagableStorage self.old) (pager_core S.PagableStorage self.new) }
        ensures named { IfOk result (λ found. key_of E.Hash.digest (blob_of (arc_value found)) ≡ key) }
        ensures only { SameValues self.old self.new }
        ensures same_names { SameNames S.PagableStorage self.old.storage self.new.storage }
    {
        let row = checks::load_row(&self.tables, me, load)?;
        if row.key != key {
            return Err(Error::NoSuchHandle);
        }
        Ok(self.fetch(alloc, row.key)?)
    }

    /// Resolves a loose reference without loading a value: returns a handle, which the load owns,
    /// of the cached cell, or of a new cell with this key and no value.
    ///
    /// # Errors
    ///
    /// - `NoSuchHandle` if the load isn't open.
    /// - `NotYours` if another than the caller began it.
    /// - `WrongKind` if the kind isn't a loose one.
    /// - `NumbersSpent` or `OutOfMemory` if the handle or the cell can't be made.
    pub fn load_lazy(
        &mut self,
        alloc: Global,
        load: LoadNumber,
        kind: Kind,
        key: DataKey,
    ) -> Result<HandleNumber, Error>
        ensures { Calls ChangesOnlyTables S.PagableStorage self.old
            (λ w w'. LazyCall w Owner.Caller load kind key result w') self.new }
    {
        self.load_lazy_for(Owner::Caller, alloc, load, kind, key)
    }

    pub(crate) fn load_lazy_for(
        &mut self,
        me: Owner,
        alloc: Global,
        load: LoadNumber,
        kind: Kind,
        key: DataKey,
    ) -> Result<HandleNumber, Error>
        ensures { Calls ChangesOnlyTables S.PagableStorage self.old
            (λ w w'. LazyCall w me load kind key result w') self.new }
    {
        let lists = !self.storage.has_closed();
        load::load_lazy(&mut self.tables, me, load, kind, key, lists, alloc)
    }

    /// Returns whether a number is left for a load.
    pub fn has_load_number(&self) -> bool
        ensures { result ≡ nat_lt (pager_core S.PagableStorage self.now).last.load greatest }
    {
        self.tables.last_load < u64::MAX
    }

    /// Returns the key of an open load that the caller began, and the type of its value if it is a
    /// load of a cell.
    ///
    /// # Errors
    ///
    /// - `NoSuchHandle` if the load isn't open.
    /// - `NotYours` if another than the caller began it.
    pub fn load_key_and_type(&self, load: LoadNumber) -> Result<(DataKey, Option<u32>), Error>
        ensures reads { IfOk result (λ r. ReadsAs (pager_core S.PagableStorage self.now) load r.0 r.1) }
        ensures fault { IfErr result
            (λ e. load_fault (pager_core S.PagableStorage self.now) Owner.Caller load ≡ Some e) }
    {
        let row = checks::load_row(&self.tables, Owner::Caller, load)?;
        Ok((row.key, cell_type(row.root)))
    }
}
