//! A storage that counts what it is asked for.

ghost use Rattle.futures.specs.{Poll.{IfReady, OnPending}, Task.{IsArmed, Keeps as KeepsPoll}};
ghost use Rattle.pagable_core.specs.{
  Counts.{nothing_counted, with_fetch, with_flush, with_poll, with_store},
  Data.blob_of,
  Roots.StaysOrTakes,
};
ghost use Rattle.pagable_value_spec.specs.{
  Blob.{Blob, key_of},
  Stored.{Adds, IsMemoryOrFailure, Keeps, RefusesFetch, RefusesStore},
};
ghost use Rattle.std.specs.{
  Arc.arc_value,
  Prelude.{IfErr, IfOk, IsTrue, List, None, OnErr, OnOk, Option, Some, false, length, true, ℕ, ◌≡◌, ◌≤◌},
};

use crate::storage::data::PagableData;
use crate::storage::storage_counts::{
    StorageCounts, count_fetch, count_flush, count_poll, count_store,
};
use crate::storage::traits::PagableStorage;
use futures::task::{Context, Poll};
use pagable_codec::Env;
use pagable_flavors::{DataKey, Error};
use std::alloc::Global;
use std::sync::Arc;

/// A storage over another one, which counts the blobs and bytes that it fetches and stores. Each
/// call passes on what the other storage answers: what is stored and named, whether the storage is
/// closed or honest and how often it has failed are the other storage's.
#[derive(Drop)]
pub struct CountedStorage<S> {
    pub(crate) inner: S,
    pub(crate) counts: StorageCounts,
}

impl<S> CountedStorage<S> {
    /// Makes a storage over another one, with every count at 0.
    pub fn new(inner: S) -> CountedStorage<S>
        ensures inner { result.inner ≡ inner }
        ensures counts { result.counts ≡ nothing_counted }
    {
        CountedStorage {
            inner,
            counts: StorageCounts::NONE,
        }
    }

    /// Returns what this storage was asked for since it was made.
    pub fn counts(&self) -> StorageCounts
        ensures { result ≡ self.now.counts }
    {
        self.counts
    }

    /// Lends the other storage.
    pub fn inner(&self) -> &S
        ensures { result.now ≡ self.now.inner }
    {
        &self.inner
    }

    /// Returns the other storage, and drops the counts.
    pub fn into_inner(self) -> S
        ensures { result ≡ self.inner }
    {
        self.inner
    }
}

impl<E: Env, S: PagableStorage<E>> PagableStorage<E> for CountedStorage<S> {
    ghost stored = { λ s. S.stored s.inner };

    ghost flushed = { λ s. S.flushed s.inner };

    ghost is_closed = { λ s. S.is_closed s.inner };

    ghost is_honest = { λ s. S.is_honest s.inner };

    ghost failed = { λ s. S.failed s.inner };

    ghost roots = { λ s. S.roots s.inner };

    ghost roots_flushed = { λ s. S.roots_flushed s.inner };

    fn fetch_data_blocking(
        &mut self,
        alloc: Global,
        key: DataKey,
    ) -> Result<Arc<PagableData>, Error>
        ensures ok { IsTrue (S.is_honest self.new.inner) → IfOk result
            (λ found. S.stored self.old.inner key ≡ Some (blob_of (arc_value found))) }
        ensures named { IfOk result (λ found. key_of E.Hash.digest (blob_of (arc_value found)) ≡ key) }
        // honest or not, the storage fails only with one of these errors
        ensures refused { IfErr result (RefusesFetch key None (S.failed self.old.inner) (S.failed self.new.inner)) }
        ensures only { IsTrue (S.is_honest self.new.inner) → IfErr result
            (RefusesFetch key (S.stored self.old.inner key) (S.failed self.old.inner) (S.failed self.new.inner)) }
        ensures same { IsTrue (S.is_honest self.new.inner) → (S.stored self.new.inner ≡ S.stored self.old.inner)
            × (S.flushed self.new.inner ≡ S.flushed self.old.inner) }
        ensures same_names { IsTrue (S.is_honest self.new.inner) → (S.roots self.new.inner ≡ S.roots self.old.inner)
            × (S.roots_flushed self.new.inner ≡ S.roots_flushed self.old.inner) }
        ensures honest { IsTrue (S.is_honest self.new.inner) → IsTrue (S.is_honest self.old.inner) }
        ensures open { S.is_closed self.new.inner ≡ S.is_closed self.old.inner }
        ensures later { S.failed self.old.inner ≤ S.failed self.new.inner }
        ensures counts { self.new.counts ≡ with_fetch result self.old.counts }
    {
        let answer = self.inner.fetch_data_blocking(alloc, key);
        self.counts = count_fetch(self.counts, &answer);
        answer
    }

    fn fetch_data(
        &mut self,
        cx: &mut Context<'_>,
        alloc: Global,
        key: DataKey,
    ) -> Poll<Result<Arc<PagableData>, Error>>
        ensures ok { IsTrue (S.is_honest self.new.inner) → IfReady result
            (λ r. IfOk r (λ found. S.stored self.old.inner key ≡ Some (blob_of (arc_value found)))) }
        ensures named { IfReady result (λ r. IfOk r (λ found. key_of E.Hash.digest (blob_of (arc_value found)) ≡ key)) }
        // honest or not, the storage fails only with one of these errors
        ensures refused { IfReady result
            (λ r. IfErr r (RefusesFetch key None (S.failed self.old.inner) (S.failed self.new.inner))) }
        ensures only { IsTrue (S.is_honest self.new.inner) → IfReady result
            (λ r. IfErr r (RefusesFetch key (S.stored self.old.inner key) (S.failed self.old.inner)
            (S.failed self.new.inner))) }
        ensures same { IsTrue (S.is_honest self.new.inner) → (S.stored self.new.inner ≡ S.stored self.old.inner)
            × (S.flushed self.new.inner ≡ S.flushed self.old.inner) }
        ensures same_names { IsTrue (S.is_honest self.new.inner) → (S.roots self.new.inner ≡ S.roots self.old.inner)
            × (S.roots_flushed self.new.inner ≡ S.roots_flushed self.old.inner) }
        ensures honest { IsTrue (S.is_honest self.new.inner) → IsTrue (S.is_honest self.old.inner) }
        ensures open { S.is_closed self.new.inner ≡ S.is_closed self.old.inner }
        ensures later { S.failed self.old.inner ≤ S.failed self.new.inner }
        ensures armed { OnPending result (IsArmed cx.new) }
        ensures kept { KeepsPoll cx.old cx.new }
        ensures counts { self.new.counts ≡ with_poll result self.old.counts }
    {
        let answer = self.inner.fetch_data(cx, alloc, key);
        self.counts = count_poll(self.counts, &answer);
        answer
    }

    fn store_data(&mut self, alloc: Global, blob: PagableData) -> Result<DataKey, Error>
        ensures key { IfOk result (λ key. key ≡ key_of E.Hash.digest (blob_of blob)) }
        ensures adds { IsTrue (S.is_honest self.new.inner) → OnOk result
            (Adds (key_of E.Hash.digest (blob_of blob)) (blob_of blob) (S.stored self.old.inner)
            (S.stored self.new.inner)) }
        ensures was_open { OnOk result (S.is_closed self.old.inner ≡ false) }
        // honest or not, the storage fails only with one of these errors; `found` is some blob, or none
        ensures refused { IfErr result (λ e. (found : Option Blob)
            × RefusesStore (blob_of blob) found (S.is_closed self.old.inner) (S.failed self.old.inner)
            (S.failed self.new.inner) e) }
        ensures only { IsTrue (S.is_honest self.new.inner) → IfErr result
            (RefusesStore (blob_of blob) (S.stored self.old.inner (key_of E.Hash.digest (blob_of blob)))
            (S.is_closed self.old.inner) (S.failed self.old.inner) (S.failed self.new.inner)) }
        ensures err { IsTrue (S.is_honest self.new.inner)
            → OnErr result (S.stored self.new.inner ≡ S.stored self.old.inner) }
        ensures keeps { IsTrue (S.is_honest self.new.inner)
            → Keeps (S.flushed self.old.inner) (S.flushed self.new.inner) }
        ensures same_names { IsTrue (S.is_honest self.new.inner) → S.roots self.new.inner ≡ S.roots self.old.inner }
        ensures durable_names { IsTrue (S.is_honest self.new.inner)
            → StaysOrTakes (S.roots self.old.inner) (S.roots_flushed self.old.inner) (S.roots_flushed self.new.inner) }
        ensures honest { IsTrue (S.is_honest self.new.inner) → IsTrue (S.is_honest self.old.inner) }
        ensures open { S.is_closed self.new.inner ≡ S.is_closed self.old.inner }
        ensures later { S.failed self.old.inner ≤ S.failed self.new.inner }
        ensures counts { self.new.counts ≡ with_store (length (blob_of blob).bytes) result self.old.counts }
    {
        let bytes = blob.bytes.len();
        let answer = self.inner.store_data(alloc, blob);
        self.counts = count_store(self.counts, bytes, &answer);
        answer
    }

    fn store_keyed(
        &mut self,
        alloc: Global,
        key: DataKey,
        blob: PagableData,
    ) -> Result<DataKey, Error>
        requires { key ≡ key_of E.Hash.digest (blob_of blob) }
        ensures key { IfOk result (λ answer. answer ≡ key_of E.Hash.digest (blob_of blob)) }
        ensures adds { IsTrue (S.is_honest self.new.inner) → OnOk result
            (Adds (key_of E.Hash.digest (blob_of blob)) (blob_of blob) (S.stored self.old.inner)
            (S.stored self.new.inner)) }
        ensures was_open { OnOk result (S.is_closed self.old.inner ≡ false) }
        // honest or not, the storage fails only with one of these errors; `found` is some blob, or none
        ensures refused { IfErr result (λ e. (found : Option Blob)
            × RefusesStore (blob_of blob) found (S.is_closed self.old.inner) (S.failed self.old.inner)
            (S.failed self.new.inner) e) }
        ensures only { IsTrue (S.is_honest self.new.inner) → IfErr result
            (RefusesStore (blob_of blob) (S.stored self.old.inner (key_of E.Hash.digest (blob_of blob)))
            (S.is_closed self.old.inner) (S.failed self.old.inner) (S.failed self.new.inner)) }
        ensures err { IsTrue (S.is_honest self.new.inner)
            → OnErr result (S.stored self.new.inner ≡ S.stored self.old.inner) }
        ensures keeps { IsTrue (S.is_honest self.new.inner)
            → Keeps (S.flushed self.old.inner) (S.flushed self.new.inner) }
        ensures same_names { IsTrue (S.is_honest self.new.inner) → S.roots self.new.inner ≡ S.roots self.old.inner }
        ensures durable_names { IsTrue (S.is_honest self.new.inner)
            → StaysOrTakes (S.roots self.old.inner) (S.roots_flushed self.old.inner) (S.roots_flushed self.new.inner) }
        ensures honest { IsTrue (S.is_honest self.new.inner) → IsTrue (S.is_honest self.old.inner) }
        ensures open { S.is_closed self.new.inner ≡ S.is_closed self.old.inner }
        ensures later { S.failed self.old.inner ≤ S.failed self.new.inner }
        ensures counts { self.new.counts ≡ with_store (length (blob_of blob).bytes) result self.old.counts }
    {
        let bytes = blob.bytes.len();
        let answer = self.inner.store_keyed(alloc, key, blob);
        self.counts = count_store(self.counts, bytes, &answer);
        answer
    }

    fn flush(&mut self) -> Result<(), Error>
        ensures sure { IsTrue (S.is_honest self.new.inner)
            → OnOk result (S.flushed self.new.inner ≡ S.stored self.new.inner) }
        ensures sure_names { IsTrue (S.is_honest self.new.inner)
            → OnOk result (S.roots_flushed self.new.inner ≡ S.roots self.new.inner) }
        ensures only { IfErr result (IsMemoryOrFailure (S.failed self.old.inner) (S.failed self.new.inner)) }
        ensures same { IsTrue (S.is_honest self.new.inner) → S.stored self.new.inner ≡ S.stored self.old.inner }
        ensures same_names { IsTrue (S.is_honest self.new.inner) → S.roots self.new.inner ≡ S.roots self.old.inner }
        ensures durable_names { IsTrue (S.is_honest self.new.inner) → OnErr result
            (StaysOrTakes (S.roots self.old.inner) (S.roots_flushed self.old.inner) (S.roots_flushed self.new.inner)) }
        ensures honest { IsTrue (S.is_honest self.new.inner) → IsTrue (S.is_honest self.old.inner) }
        ensures open { S.is_closed self.new.inner ≡ S.is_closed self.old.inner }
        ensures later { S.failed self.old.inner ≤ S.failed self.new.inner }
        ensures counts { self.new.counts ≡ with_flush result self.old.counts }
    {
        let answer = self.inner.flush();
        self.counts = count_flush(self.counts, &answer);
        answer
    }

    fn close(&mut self)
        ensures empty { (key : ℕ) → S.stored self.new.inner key ≡ None }
        ensures no_names { (name : List ℕ) → S.roots self.new.inner name ≡ None }
        ensures closed { S.is_closed self.new.inner ≡ true }
        ensures honest { IsTrue (S.is_honest self.new.inner) → IsTrue (S.is_honest self.old.inner) }
        ensures later { S.failed self.old.inner ≤ S.failed self.new.inner }
        ensures counts { self.new.counts ≡ self.old.counts }
    {
        self.inner.close();
    }

    fn has_closed(&self) -> bool {
        self.inner.has_closed()
    }

    fn failures(&self) -> u64 {
        self.inner.failures()
    }
}
