//! A store of records: a pager with a budget.

ghost use Rattle.pagable_changes.specs.{Changes.PagesOutChanged, Keys.KeepsTrees};
ghost use Rattle.pagable_load.specs.AccessView.{values_at};
ghost use Rattle.pagable_pager.specs.View.{BetweenIfHonest, pager_core};
ghost use Rattle.pagable_pager_spec.specs.{
  Calls.CloneCall,
  World.result_map,
  declared.handle_row.Owner.Owner,
};
ghost use Rattle.record_store.specs.{
  Handles.{InsertsOver, ReleasesEach, ReleasesEntries},
  Records.{IsRecordOver, plainly, seen_view},
  Stores.{FindsRoot, Opens, OpensLast, ReadsRecord, Saves},
};
ghost use Rattle.std.specs.Prelude.{IfOk, IsTrue, OnOk, ◌≡◌};

use crate::calls::{RecordCalls, RecordView, TEXT};
use crate::handles::{release_each, release_entries};
use crate::inserting::insert_over;
use crate::reading::{end_read, view};
use crate::store_error::StoreError;
use pagable_budget::Budget;
use pagable_calls::cells::cell_of;
use pagable_changes::page_out_changed;
use pagable_codec::{Env, KeyHash, NodeSet};
use pagable_core::{PagableData, PagableStorage, Roots, Sha256Key};
use pagable_nodes::bytes::to_bytes;
use pagable_nodes::{Record, RecordNode, Records};
use pagable_pager::Pager;
use pagable_value_spec::{DataKey, Error, HandleNumber};
use std::alloc::Global;

/// A pager of records over a storage, and a budget of the records that stay in memory.
#[derive(Drop)]
pub struct RecordStore<S: PagableStorage<Records>> {
    alloc: Global,
    pager: Pager<Records, S>,
    budget: Budget,
}

// Turns the pager's error into one of the store.
fn told<T>(of: Result<T, Error>) -> Result<T, StoreError>
    ensures { plainly result ≡ of }
{
    match of {
        Ok(value) => Ok(value),
        Err(error) => Err(StoreError { error }),
    }
}

impl<S: PagableStorage<Records>> RecordStore<S> {
    // Reads the record of a handle, as `read` of `RecordCalls` does.
    fn read_within(&mut self, handle: HandleNumber) -> Result<RecordView, Error>
        ensures { IsTrue (S.is_honest self.new.pager.storage) → ReadsRecord S.PagableStorage
            (values_at ⟦<RecordNode as NodeSet<Records>>⟧ ⟦<Records as Env>⟧ ⟦<Sha256Key as KeyHash>⟧) self.old.budget
            self.old.pager handle (result_map seen_view result) self.new.budget self.new.pager }
    {
        let (pinned, node) = match self.budget.pin(self.alloc, &mut self.pager, handle, 1) {
            Ok(pinned) => pinned,
            Err(e) => return Err(e),
        };
        let viewed = view(self.alloc, &mut self.pager, node.as_ref());
        end_read(&mut self.pager, pinned, handle, viewed)
    }
}

// Pages out a record, makes the name stand for its key, and flushes the storage.
fn save_under<S: Roots<Records>>(
    alloc: Global,
    pager: &mut Pager<Records, S>,
    name: &str,
    handle: HandleNumber,
) -> Result<(), Error>
    ensures saves { IsTrue (S.PagableStorage.is_honest pager.new.storage) → OnOk result (Saves S.PagableStorage
        S.PagableStorage.roots (values_at ⟦<RecordNode as NodeSet<Records>>⟧ ⟦<Records as Env>⟧ ⟦<Sha256Key as KeyHash>⟧)
        pager.old name.now handle pager.new) }
    ensures flushed { IsTrue (S.PagableStorage.is_honest pager.new.storage) → OnOk result
        (S.PagableStorage.flushed pager.new.storage ≡ S.PagableStorage.stored pager.new.storage) }
    ensures names_flushed { IsTrue (S.PagableStorage.is_honest pager.new.storage) → OnOk result
        (S.PagableStorage.roots_flushed pager.new.storage ≡ S.PagableStorage.roots pager.new.storage) }
{
    let key = match page_out_changed(alloc, pager, handle) {
        Ok(key) => key,
        Err(e) => return Err(e),
    };
    match pager.set_root(alloc, name, Some(key)) {
        Ok(()) => pager.flush(),
        Err(e) => Err(e),
    }
}

impl<S: Roots<Records>> RecordCalls for RecordStore<S> {
    fn alloc(&self) -> Global {
        self.alloc
    }

    fn insert(
        &mut self,
        tag: u32,
        text: &str,
        over: &[HandleNumber],
    ) -> Result<HandleNumber, StoreError>
        ensures inserts { InsertsOver S.PagableStorage (values_at ⟦<RecordNode as NodeSet<Records>>⟧
            ⟦<Records as Env>⟧ ⟦<Sha256Key as KeyHash>⟧ self.old.pager.environment) (IsRecordOver tag text.now)
            self.old.pager over.now (plainly result) self.new.pager }
        ensures budget { self.new.budget ≡ self.old.budget }
    {
        told(insert_over(self.alloc, &mut self.pager, tag, text, over))
    }

    fn read(&mut self, handle: HandleNumber) -> Result<RecordView, StoreError>
        ensures { IsTrue (S.PagableStorage.is_honest self.new.pager.storage) → ReadsRecord S.PagableStorage
            (values_at ⟦<RecordNode as NodeSet<Records>>⟧ ⟦<Records as Env>⟧ ⟦<Sha256Key as KeyHash>⟧) self.old.budget
            self.old.pager handle (result_map seen_view (plainly result)) self.new.budget self.new.pager }
    {
        told(self.read_within(handle))
    }

    fn clone_handle(&mut self, handle: HandleNumber) -> Result<HandleNumber, StoreError>
        ensures clones { CloneCall (pager_core S.PagableStorage self.old.pager) Owner.Caller handle (plainly result)
            (pager_core S.PagableStorage self.new.pager) }
        ensures budget { self.new.budget ≡ self.old.budget }
    {
        told(self.pager.clone(handle))
    }

    fn release(&mut self, handles: &[HandleNumber]) -> Result<(), StoreError>
        ensures releases { ReleasesEach S.PagableStorage self.old.pager handles.now (plainly result) self.new.pager }
        ensures budget { self.new.budget ≡ self.old.budget }
    {
        told(release_each(&mut self.pager, handles))
    }

    fn release_waiting(&mut self) -> Result<(), StoreError>
        ensures releases { ReleasesEntries S.PagableStorage self.old.pager (plainly result) self.new.pager }
        ensures budget { self.new.budget ≡ self.old.budget }
    {
        told(release_entries(&mut self.pager))
    }

    fn key(&mut self, handle: HandleNumber) -> Result<DataKey, StoreError>
        ensures pages { BetweenIfHonest ⟦<RecordNode as NodeSet<Records>>⟧ ⟦<Records as Env>⟧
            ⟦<Sha256Key as KeyHash>⟧ S.PagableStorage self.old.pager self.new.pager
            (λ v s s'. PagesOutChanged v s handle (plainly result) s') }
        ensures keeps_trees { BetweenIfHonest ⟦<RecordNode as NodeSet<Records>>⟧ ⟦<Records as Env>⟧
            ⟦<Sha256Key as KeyHash>⟧ S.PagableStorage self.old.pager self.new.pager
            (λ v s s'. KeepsTrees v s handle (plainly result) s') }
        ensures budget { self.new.budget ≡ self.old.budget }
    {
        told(page_out_changed(self.alloc, &mut self.pager, handle))
    }

    fn key_of_text(&self, text: &str) -> Result<DataKey, StoreError> {
        let record = Record::new(self.alloc, TEXT, text, Vec::new(self.alloc))?;
        let bytes = to_bytes(self.alloc, self.pager.env(), &record)?;
        let arcs = Vec::new(self.alloc);
        Ok(PagableData { bytes, arcs }.compute_key::<Sha256Key>())
    }

    fn save(&mut self, name: &str, handle: HandleNumber) -> Result<(), StoreError>
        ensures saves { IsTrue (S.PagableStorage.is_honest self.new.pager.storage) → OnOk (plainly result)
            (Saves S.PagableStorage S.PagableStorage.roots (values_at ⟦<RecordNode as NodeSet<Records>>⟧ ⟦<Records as Env>⟧
            ⟦<Sha256Key as KeyHash>⟧) self.old.pager name.now handle self.new.pager) }
        ensures flushed { IsTrue (S.PagableStorage.is_honest self.new.pager.storage)
            → OnOk (plainly result) (S.PagableStorage.flushed self.new.pager.storage
            ≡ S.PagableStorage.stored self.new.pager.storage) }
        ensures names_flushed { IsTrue (S.PagableStorage.is_honest self.new.pager.storage)
            → OnOk (plainly result) (S.PagableStorage.roots_flushed self.new.pager.storage
            ≡ S.PagableStorage.roots self.new.pager.storage) }
        ensures budget { self.new.budget ≡ self.old.budget }
    {
        told(save_under(self.alloc, &mut self.pager, name, handle))
    }
}

// Returns a handle of the record with this key, if there is a key.
fn open_found<S: PagableStorage<Records>>(
    alloc: Global,
    pager: &mut Pager<Records, S>,
    found: Option<DataKey>,
) -> Result<Option<HandleNumber>, Error>
    ensures opens { IfOk result (λ last. OpensLast S.PagableStorage pager.old found last pager.new) }
    ensures storage { pager.new.storage ≡ pager.old.storage }
{
    match found {
        None => Ok(None),
        Some(key) => match cell_of::<Record, _, _>(alloc, pager, key) {
            Ok(last) => Ok(Some(last)),
            Err(e) => Err(e),
        },
    }
}

// Returns a handle of the record whose key a root's name stands for, if it stands for one.
fn open_saved_root<S: Roots<Records>>(
    alloc: Global,
    pager: &mut Pager<Records, S>,
    name: &str,
) -> Result<Option<HandleNumber>, Error>
    ensures { IsTrue (S.PagableStorage.is_honest pager.new.storage) → IfOk result
        (λ last. FindsRoot S.PagableStorage S.PagableStorage.roots pager.old name.now last pager.new) }
{
    match pager.root(name) {
        Ok(found) => open_found(alloc, pager, found),
        Err(e) => Err(e),
    }
}

impl<S: Roots<Records> + Drop> RecordStore<S> {
    /// Returns the storage, and drops the records in memory.
    pub fn into_storage(self) -> S
        ensures { result ≡ self.pager.storage }
    {
        self.pager.into_storage()
    }

    /// Opens the records of a storage, with a budget that keeps `kept` records in memory. If the
    /// root's name stands for a key, also returns a handle of the key's record, which pins nothing;
    /// the call doesn't read the record.
    ///
    /// # Errors
    ///
    /// Each drops the storage.
    ///
    /// - as `Budget::new`, `Pager::root` and `cells::cell_of`.
    pub fn open(
        alloc: Global,
        storage: S,
        name: &str,
        kept: u64,
    ) -> Result<(RecordStore<S>, Option<HandleNumber>), StoreError>
        ensures { IfOk result (λ r. IsTrue (S.PagableStorage.is_honest r.0.pager.storage)
            → Opens S.PagableStorage S.PagableStorage.roots storage name.now r.1 r.0.pager) }
    {
        let budget = Budget::new(alloc, kept)?;
        let mut pager = Pager::new(alloc, storage, Records);
        let last = open_saved_root(alloc, &mut pager, name)?;
        let store = RecordStore {
            alloc,
            pager,
            budget,
        };
        Ok((store, last))
    }
}
