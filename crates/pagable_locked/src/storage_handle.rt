//! A handle of a storage that threads share: a pager behind a lock, with environment and session
//! outside of it.
#![tactic(auto, using(crate::proofs::Refusals::only, crate::proofs::Numbers::later))]

ghost use Rattle.pagable_core.specs.Data.{blob_of};
ghost use Rattle.pagable_load.specs.{AccessView.{IsNamedOrKind, values_at}, Keyed.HoldsKeyed};
ghost use Rattle.pagable_pageout.specs.{Results.IsKeyOverResults, Slots.written_of};
ghost use Rattle.pagable_pager_spec.specs.declared.handle_row.Owner.{Owner};
ghost use Rattle.pagable_locked.specs.Refusals.{
  IsOfFetch,
  IsOfGrowth,
  IsOfListing,
  IsOfOffer,
  IsOfStorage,
  IsOfStore,
};
ghost use Rattle.pagable_value_spec.specs.{Blob.key_of, Outcomes.IsOutOfMemory};
ghost use Rattle.std.specs.{Arc.arc_value, Prelude.{IfErr, IfOk, IfSome, Ok, ◌<◌, ◌≡◌, ◌≤◌}};

use crate::locked::Locked;
use crate::share::{ClaimShare, WorkerShare};
use crate::shared_claims::SharedClaims;
use crate::table::SlotTable;
use either::Either;
use pagable_codec::{Env, NodeSet, OfNode};
use pagable_core::{PagableData, PagableStorage, SerializedData, SessionOf, Setting};
use pagable_load::read_over;
use pagable_pageout::{PageOutError, page_out_item_over, page_out_pending_over};
use pagable_pager::{Pager, PagerStats};
use pagable_value_spec::{ArcRef, DataKey, Error, HandleNumber, Kind};
use std::alloc::Global;
use std::sync::ledger::Ledger;
use std::sync::{Arc, Mutex, Wait};

#[derive(Drop)]
pub(crate) struct Inner<E: Env<Node: NodeSet<E>>, S: PagableStorage<E>> {
    pub(crate) pager: Mutex<Pager<E, S>>,
    setting: Arc<Setting<E>>,
}

/// One of any number of handles of a pager, for any number of threads. Each call takes the pager's
/// lock for one step at a time; values are decoded and written with no lock held.
#[derive(Drop)]
pub struct PagableStorageHandle<E: Env<Node: NodeSet<E>>, S: PagableStorage<E>> {
    pub(crate) inner: Arc<Inner<E, S>>,
}

impl<E: Env<Node: NodeSet<E>>, S: PagableStorage<E>> PagableStorageHandle<E, S> {
    /// Makes an empty pager over a storage, and its first handle.
    ///
    /// # Errors
    ///
    /// - `OutOfMemory` if the pager can't get memory: storage and environment are dropped.
    pub fn new(alloc: Global, storage: S, env: E) -> Result<PagableStorageHandle<E, S>, Error>
    where
        E: Drop,
        S: Drop,
        ensures environment { IfOk result (λ h. (arc_value (arc_value h.inner).setting).env ≡ env) }
        ensures only { IfErr result IsOutOfMemory }
    {
        let setting = Arc::new(alloc, Setting::new(alloc, env))?;
        let pager = Pager::with_shared_setting(alloc, storage, Arc::try_clone(&setting)?);
        let pager = Mutex::new(pager);
        let inner = Arc::new(alloc, Inner { pager, setting })?;
        Ok(PagableStorageHandle { inner })
    }

    /// Makes one more handle of the same pager.
    ///
    /// # Errors
    ///
    /// - `OutOfMemory` if it is shared too often already.
    pub fn clone(&self) -> Result<PagableStorageHandle<E, S>, Error>
        ensures same { IfOk result (λ h. arc_value h.inner ≡ arc_value self.now.inner) }
        ensures only { IfErr result IsOutOfMemory }
    {
        let inner = Arc::try_clone(&self.inner)?;
        Ok(PagableStorageHandle { inner })
    }

    /// Lends the caller's access on this thread, for loads and page-outs.
    pub fn access<'a, R: Wait>(&'a self, rt: &'a R) -> Locked<'a, R, E, S>
        ensures caller { result.me ≡ Owner.Caller }
        ensures setting { result.setting.now ≡ arc_value (arc_value self.now.inner).setting }
    {
        Locked::new(rt, &self.inner.pager, self.inner.setting.as_ref())
    }

    /// Lends the environment. It takes no lock.
    pub fn env(&self) -> &E
        ensures { result.now ≡ (arc_value (arc_value self.now.inner).setting).env }
    {
        &self.inner.setting.env
    }

    /// Lends the context of the one session of all values that this pager writes and reads. It
    /// takes no lock.
    pub fn session_context(&self) -> &SessionOf<E>
        ensures { result.now ≡ (arc_value (arc_value self.now.inner).setting).session }
    {
        &self.inner.setting.session
    }

    /// Reads a key as a value of the type T, with all that is read together with it. The caller
    /// owns the handles of the value's references.
    ///
    /// # Errors
    ///
    /// - The error of a fetch or of the value's reader, or `NumbersSpent`, `OutOfMemory`, without a
    ///   node: nothing is left of the load.
    /// - `OutOfMemory`, `WrongKind` with the node, if the value can't be taken out of it or has
    ///   another type: the caller owns the handles of the node's references.
    #[tactic(auto, using(pagable_load::proofs::Keyed::held_keyed))]
    pub fn deserialize_pagable_data<R: Wait, T: OfNode<E>>(
        &self,
        rt: &R,
        alloc: Global,
        key: DataKey,
    ) -> Result<Arc<T>, (Error, Option<E::Node>)>
        ensures keyed { IfOk result (λ value. HoldsKeyed (values_at E.Node.NodeSet E.Env E.Hash.KeyHash
            (arc_value (arc_value self.now.inner).setting).env) T.held key T.TYPE (arc_value value)) }
    {
        let mut access = self.access(rt);
        match read_over(&mut access, alloc, key, T::TYPE) {
            Ok(node) => match T::from_node(alloc, &node) {
                Ok(Some(value)) => Ok(value),
                Ok(None) => Err((Error::WrongKind, Some(node))),
                Err(e) => Err((e, Some(node))),
            },
            Err(e) => Err((e, None)),
        }
    }

    /// Moves a loose handle of the caller's that pins nothing to the end of the list of cells that
    /// wait for page-out, which owns it from then on. After `close` it releases the handle instead.
    ///
    /// # Errors
    ///
    /// - `NoSuchHandle` if the handle isn't live.
    /// - `NotYours` if the caller doesn't own it.
    /// - `WrongMode` if it isn't loose and unpinned.
    /// - `OutOfMemory` if the list can't grow. After each error nothing has changed.
    pub fn schedule_for_paging<R: Wait>(&self, rt: &R, handle: HandleNumber) -> Result<(), Error>
        ensures only { IfErr result IsOfListing }
    {
        self.inner.pager.lock(rt).schedule_for_paging(handle)
    }

    /// Fetches the blob under a key.
    ///
    /// # Errors
    ///
    /// - `NoData` if there is none, and always after `close`.
    /// - `OutOfMemory`, `Storage` as the storage fails.
    pub fn fetch_data_blocking<R: Wait>(
        &self,
        rt: &R,
        alloc: Global,
        key: DataKey,
    ) -> Result<Arc<PagableData>, Error>
        ensures named { IfOk result (λ found. key_of E.Hash.digest (blob_of (arc_value found)) ≡ key) }
        ensures only { IfErr result (IsOfFetch key) }
    {
        self.inner.pager.lock(rt).fetch(alloc, key)
    }

    /// Returns a reference of the caller's to the node that is cached under a kind and a key, with
    /// a new handle; or the blob, if no usable node is cached there.
    ///
    /// # Errors
    ///
    /// - `NumbersSpent`, `OutOfMemory` if the handle can't be made.
    /// - `NoData`, `OutOfMemory`, `Storage` as the storage fails to fetch the blob.
    pub fn fetch_arc_or_data_blocking<R: Wait>(
        &self,
        rt: &R,
        alloc: Global,
        kind: Kind,
        key: DataKey,
    ) -> Result<Either<ArcRef, Arc<PagableData>>, Error>
        ensures named { IfOk result (IsNamedOrKind E.Hash.digest (λ d. blob_of (arc_value d)) kind key) }
    {
        let mut pager = self.inner.pager.lock(rt);
        match pager.cache_get(kind, key)? {
            Some(handle) => {
                let node = pager.node_of(handle)?;
                Ok(Either::Left(ArcRef { kind, node, handle }))
            }
            None => Ok(Either::Right(pager.fetch(alloc, key)?)),
        }
    }

    /// Caches the node of a handle of the caller's under a kind and a key, and returns None. If a
    /// usable node is cached there already, releases `handle` and returns a new handle of that
    /// node. After `close`, returns `handle`, which stays the caller's.
    ///
    /// # Errors
    ///
    /// - `NoSuchHandle`, `NotYours`, `WrongMode`, `WrongKind` if the handle isn't live, isn't the
    ///   caller's or doesn't fit the kind.
    /// - `NumbersSpent`, `OutOfMemory` if the new handle or the cache entry can't be made. After
    ///   each error nothing has changed.
    pub fn on_arc_deserialized<R: Wait>(
        &self,
        rt: &R,
        kind: Kind,
        key: DataKey,
        handle: HandleNumber,
    ) -> Result<Option<HandleNumber>, Error>
        ensures later { IfOk result (λ found. IfSome found (λ h. handle.0 ≤ h.0)) }
        ensures only { IfErr result IsOfOffer }
    {
        let mut pager = self.inner.pager.lock(rt);
        pager.assert_invariant();
        pager.on_arc_deserialized(kind, key, handle)
    }

    /// Stores a blob, and returns its key.
    ///
    /// # Errors
    ///
    /// - `Closed` after `close`.
    /// - `KeyTaken`, `OutOfMemory`, `Storage` as the storage fails.
    pub fn store_data<R: Wait>(
        &self,
        rt: &R,
        alloc: Global,
        blob: PagableData,
    ) -> Result<DataKey, Error>
        ensures key { IfOk result (λ key. key ≡ key_of E.Hash.digest (blob_of blob)) }
        ensures only { IfErr result IsOfStore }
    {
        let key = blob.compute_key::<E::Hash>();
        self.inner.pager.lock(rt).store_keyed(alloc, key, blob)
    }

    /// Makes the storage write what it has held back.
    ///
    /// # Errors
    ///
    /// - `OutOfMemory`, `Storage` as the storage fails.
    pub fn flush<R: Wait>(&self, rt: &R) -> Result<(), Error>
        ensures only { IfErr result IsOfStorage }
    {
        self.inner.pager.lock(rt).flush()
    }

    /// Returns a new handle of the node that is cached under a kind and a key, None if no usable
    /// node is cached there.
    ///
    /// # Errors
    ///
    /// - `NumbersSpent`, `OutOfMemory` if the handle can't be made: nothing changes.
    pub fn cache_get<R: Wait>(
        &self,
        rt: &R,
        kind: Kind,
        key: DataKey,
    ) -> Result<Option<HandleNumber>, Error>
        ensures only { IfErr result IsOfGrowth }
    {
        self.inner.pager.lock(rt).cache_get(kind, key)
    }

    /// Empties the cache. Never fails.
    pub fn cache_clear<R: Wait>(&self, rt: &R) -> Result<(), Error>
        ensures { result ≡ Ok tt }
    {
        self.inner.pager.lock(rt).cache_clear()
    }

    /// Returns how many entries the page-out list has.
    pub fn pending_paging_count<R: Wait>(&self, rt: &R) -> usize {
        self.inner.pager.lock(rt).pending()
    }

    /// Counts the pager's handles, nodes and entries of the page-out list, in constant time, as
    /// `Pager::stats` does.
    pub fn stats<R: Wait>(&self, rt: &R) -> PagerStats {
        self.inner.pager.lock(rt).stats()
    }

    /// Says whether all tables of the pager agree, as `Pager::is_sound` does, for tests to check
    /// after threads have run. It holds the lock meanwhile, and takes time for each pair of a node
    /// and a handle.
    pub fn is_sound<R: Wait>(&self, rt: &R) -> bool {
        self.inner.pager.lock(rt).is_sound()
    }

    /// Pages out what an item refers to, and then the item itself, on a table that others may use
    /// too, and returns the item's key: the hash of its bytes and of the keys of results, one for
    /// each of its references. It waits for what another thread is paging out. The caller keeps the
    /// item's handles, and must keep them until the call returns. The call needs a part of the
    /// share to spare, and merges it back with the claims that it made.
    ///
    /// # Errors
    ///
    /// - `Failed` with the error of beginning the worker, or of one of its steps; with `TooDeep` if
    ///   workers would wait for each other in a ring.
    /// - `AlreadyFailed` if another page-out on this table failed at what the item refers to.
    ///
    /// What was stored and keys that were set stay; the call leaves no claim without an outcome.
    pub fn page_out_item<R: Wait, L: Ledger>(
        &self,
        rt: &R,
        alloc: Global,
        item: Arc<SerializedData>,
        table: &SlotTable<E, L>,
        share: &mut ClaimShare<L>,
    ) -> Result<DataKey, PageOutError>
        requires spare { 1 < share.old.share.parts }
        ensures over { IfOk result (λ key. ∥ IsKeyOverResults E.Hash.digest
            (values_at E.Node.NodeSet E.Env E.Hash.KeyHash)
            (written_of (arc_value item)) key ∥₁) }
        ensures parts { share.new.share.parts ≡ share.old.share.parts }
        ensures counted { share.old.share.amount ≤ share.new.share.amount }
    {
        let walk = WorkerShare::split_off(share);
        let mut claims = SharedClaims::new(rt, alloc, table, walk);
        let mut access = self.access(rt);
        let answer = page_out_item_over(&mut access, alloc, &mut claims, item);
        share.merge(claims.into_share());
        answer
    }

    /// Pages out the cells that wait for page-out when it is called, with all that they refer to,
    /// from the last entry of the list to the first, up to the first failure. An entry whose cell
    /// has a key only leaves the list, and its handle is released. Entries that are listed
    /// meanwhile wait for the next call; but if another thread removes entries that stand before
    /// them in the list, this call may reach them.
    ///
    /// # Errors
    ///
    /// - `Failed` with the error of the first entry that fails. If no worker could begin, the entry
    ///   keeps its place. Else its cell is listed again, at the end; if it is still pinned or the
    ///   list can't grow, perhaps only when it next loses its last pin. Entries before it stay.
    pub fn page_out_pending<R: Wait>(&self, rt: &R, alloc: Global) -> Result<(), PageOutError> {
        let mut access = self.access(rt);
        page_out_pending_over(&mut access, alloc)
    }

    /// Closes the storage: there are no blobs, no cached nodes and no cells waiting for page-out
    /// from then on. Each fetch fails with `NoData`, storing fails with `Closed`, and nothing is
    /// cached or listed any more. It can't fail.
    pub fn close<R: Wait>(&self, rt: &R) -> Result<(), Error>
        ensures { result ≡ Ok tt }
    {
        self.inner.pager.lock(rt).close()
    }
}
