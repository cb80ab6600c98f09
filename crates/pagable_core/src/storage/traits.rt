//! The trait of a storage of blobs.

ghost use Rattle.futures.specs.{Poll.{IfReady, OnPending}, Task.{IsArmed, Keeps as KeepsPoll}};
ghost use Rattle.pagable_core.specs.{Data.blob_of, Roots.StaysOrTakes};
ghost use Rattle.pagable_value_spec.specs.{
  Blob.{Blob, key_of},
  Stored.{Adds, IsMemoryOrFailure, Keeps, RefusesFetch, RefusesStore},
};
ghost use Rattle.std.specs.{
  Arc.arc_value,
  Prelude.{Bool, IfErr, IfOk, IsTrue, List, None, OnErr, OnOk, Option, Some, false, true, ℕ, ◌≡◌, ◌≤◌},
};

use crate::storage::data::PagableData;
use futures::task::{Context, Poll};
use pagable_codec::Env;
use pagable_flavors::{DataKey, Error};
use std::alloc::Global;
use std::sync::Arc;

/// A storage of blobs: a map from keys to blobs that only grows until the storage is closed. It
/// counts its failures: a call may fail with `Storage` only if the count went up, or had reached
/// 2^64 - 1 before.
///
/// What a call promises of the stored blobs, and of names, holds as long as the storage is honest
/// after the call, that is, hasn't taken a wrong answer of a layer below for true.
/// Whatever the storage does, a call fails only with an error that it names, a fetched blob has the
/// key that was asked for, and storing returns the key of the blob's content.
pub trait PagableStorage<E: Env>: Sized {
    // The blob under each key.
    ghost stored: { Self → ℕ → Option Blob };

    // The blob under each key that a flush has made durable.
    ghost flushed: { Self → ℕ → Option Blob };

    ghost is_closed: { Self → Bool };

    // Whether the storage has never taken a wrong answer of a layer below for true. No call returns
    // it, and a storage that isn't honest never becomes honest again.
    ghost is_honest: { Self → Bool } = { λ _. true };

    // How often the storage has failed, up to 2^64 - 1.
    ghost failed: { Self → ℕ };

    // The key that each name stands for, or None; `Roots` has the calls that set and read it.
    ghost roots: { Self → List ℕ → Option ℕ } = { λ _ _. None };

    // The key that a flush has made each name stand for durably, or None.
    ghost roots_flushed: { Self → List ℕ → Option ℕ } = { λ _ _. None };

    /// Fetches the blob under a key.
    ///
    /// # Errors
    ///
    /// Each leaves what is stored as it was.
    ///
    /// - `NoData` only if the storage has no blob under the key.
    /// - `OutOfMemory`.
    /// - `Storage` only if the call raised the count of failures, or it was 2^64 - 1 before.
    fn fetch_data_blocking(
        &mut self,
        alloc: Global,
        key: DataKey,
    ) -> Result<Arc<PagableData>, Error>
        ensures ok { IsTrue (is_honest self.new) → IfOk result
            (λ found. stored self.old key ≡ Some (blob_of (arc_value found))) }
        ensures named { IfOk result (λ found. key_of E.Hash.digest (blob_of (arc_value found)) ≡ key) }
        // honest or not, the storage fails only with one of these errors
        ensures refused { IfErr result (RefusesFetch key None (failed self.old) (failed self.new)) }
        ensures only { IsTrue (is_honest self.new) → IfErr result
            (RefusesFetch key (stored self.old key) (failed self.old) (failed self.new)) }
        ensures same { IsTrue (is_honest self.new) → (stored self.new ≡ stored self.old)
            × (flushed self.new ≡ flushed self.old) }
        ensures same_names { IsTrue (is_honest self.new) → (roots self.new ≡ roots self.old)
            × (roots_flushed self.new ≡ roots_flushed self.old) }
        ensures honest { IsTrue (is_honest self.new) → IsTrue (is_honest self.old) }
        ensures open { is_closed self.new ≡ is_closed self.old }
        ensures later { failed self.old ≤ failed self.new };

    /// Polls the fetch of the blob under a key. A ready poll returns what `fetch_data_blocking`
    /// returns; a storage may be ready at every poll. A pending one has left a waker in `cx` and
    /// changed only the count of failures: whoever ends the wait wakes that waker, and the next
    /// poll asks for the fetch again.
    ///
    /// # Errors
    ///
    /// - `NoData`, `OutOfMemory`, `Storage`: as `fetch_data_blocking`.
    fn fetch_data(
        &mut self,
        cx: &mut Context<'_>,
        alloc: Global,
        key: DataKey,
    ) -> Poll<Result<Arc<PagableData>, Error>>
        ensures ok { IsTrue (is_honest self.new) → IfReady result
            (λ r. IfOk r (λ found. stored self.old key ≡ Some (blob_of (arc_value found)))) }
        ensures named { IfReady result (λ r. IfOk r (λ found. key_of E.Hash.digest (blob_of (arc_value found)) ≡ key)) }
        // honest or not, the storage fails only with one of these errors
        ensures refused { IfReady result (λ r. IfErr r (RefusesFetch key None (failed self.old) (failed self.new))) }
        ensures only { IsTrue (is_honest self.new) → IfReady result
            (λ r. IfErr r (RefusesFetch key (stored self.old key) (failed self.old) (failed self.new))) }
        ensures same { IsTrue (is_honest self.new) → (stored self.new ≡ stored self.old)
            × (flushed self.new ≡ flushed self.old) }
        ensures same_names { IsTrue (is_honest self.new) → (roots self.new ≡ roots self.old)
            × (roots_flushed self.new ≡ roots_flushed self.old) }
        ensures honest { IsTrue (is_honest self.new) → IsTrue (is_honest self.old) }
        ensures open { is_closed self.new ≡ is_closed self.old }
        ensures later { failed self.old ≤ failed self.new }
        ensures armed { OnPending result (IsArmed cx.new) }
        ensures kept { KeepsPoll cx.old cx.new };

    /// Stores a blob under its key, and returns the key. Does nothing if the same blob is stored
    /// there already. What a flush has made durable stays durable, and no name changes.
    ///
    /// # Errors
    ///
    /// Each leaves what is stored as it was.
    ///
    /// - `KeyTaken` only if another blob is stored under the key.
    /// - `Closed` only after `close`.
    /// - `OutOfMemory`.
    /// - `Storage` only if the call raised the count of failures, or it was 2^64 - 1 before.
    fn store_data(&mut self, alloc: Global, blob: PagableData) -> Result<DataKey, Error>
        ensures key { IfOk result (λ key. key ≡ key_of E.Hash.digest (blob_of blob)) }
        ensures adds { IsTrue (is_honest self.new) → OnOk result
            (Adds (key_of E.Hash.digest (blob_of blob)) (blob_of blob) (stored self.old) (stored self.new)) }
        ensures was_open { OnOk result (is_closed self.old ≡ false) }
        // honest or not, the storage fails only with one of these errors; `found` is some blob, or none
        ensures refused { IfErr result (λ e. (found : Option Blob)
            × RefusesStore (blob_of blob) found (is_closed self.old) (failed self.old) (failed self.new) e) }
        ensures only { IsTrue (is_honest self.new) → IfErr result
            (RefusesStore (blob_of blob) (stored self.old (key_of E.Hash.digest (blob_of blob))) (is_closed self.old)
            (failed self.old) (failed self.new)) }
        ensures err { IsTrue (is_honest self.new) → OnErr result (stored self.new ≡ stored self.old) }
        ensures keeps { IsTrue (is_honest self.new) → Keeps (flushed self.old) (flushed self.new) }
        ensures same_names { IsTrue (is_honest self.new) → roots self.new ≡ roots self.old }
        ensures durable_names { IsTrue (is_honest self.new)
            → StaysOrTakes (roots self.old) (roots_flushed self.old) (roots_flushed self.new) }
        ensures honest { IsTrue (is_honest self.new) → IsTrue (is_honest self.old) }
        ensures open { is_closed self.new ≡ is_closed self.old }
        ensures later { failed self.old ≤ failed self.new };

    /// Stores a blob as `store_data` does, under the key that the caller has computed: a caller who
    /// shares the storage computes the key before it takes the lock. The default implementation
    /// computes the key once more.
    ///
    /// # Errors
    ///
    /// - as `store_data`.
    fn store_keyed(
        &mut self,
        alloc: Global,
        key: DataKey,
        blob: PagableData,
    ) -> Result<DataKey, Error>
        requires { key ≡ key_of E.Hash.digest (blob_of blob) }
        ensures key { IfOk result (λ answer. answer ≡ key_of E.Hash.digest (blob_of blob)) }
        ensures adds { IsTrue (is_honest self.new) → OnOk result
            (Adds (key_of E.Hash.digest (blob_of blob)) (blob_of blob) (stored self.old) (stored self.new)) }
        ensures was_open { OnOk result (is_closed self.old ≡ false) }
        // honest or not, the storage fails only with one of these errors; `found` is some blob, or none
        ensures refused { IfErr result (λ e. (found : Option Blob)
            × RefusesStore (blob_of blob) found (is_closed self.old) (failed self.old) (failed self.new) e) }
        ensures only { IsTrue (is_honest self.new) → IfErr result
            (RefusesStore (blob_of blob) (stored self.old (key_of E.Hash.digest (blob_of blob))) (is_closed self.old)
            (failed self.old) (failed self.new)) }
        ensures err { IsTrue (is_honest self.new) → OnErr result (stored self.new ≡ stored self.old) }
        ensures keeps { IsTrue (is_honest self.new) → Keeps (flushed self.old) (flushed self.new) }
        ensures same_names { IsTrue (is_honest self.new) → roots self.new ≡ roots self.old }
        ensures durable_names { IsTrue (is_honest self.new)
            → StaysOrTakes (roots self.old) (roots_flushed self.old) (roots_flushed self.new) }
        ensures honest { IsTrue (is_honest self.new) → IsTrue (is_honest self.old) }
        ensures open { is_closed self.new ≡ is_closed self.old }
        ensures later { failed self.old ≤ failed self.new }
    {
        self.store_data(alloc, blob)
    }

    /// Writes what the storage has held back: after a call that succeeds, all that is stored is
    /// durable, and each name durably stands for what it stands for. The call changes nothing that is
    /// stored, and no name. After a failure the names durably stand for what they durably stood for,
    /// or all of them for what they stand for.
    ///
    /// # Errors
    ///
    /// - `OutOfMemory`.
    /// - `Storage` only if the call raised the count of failures, or it was 2^64 - 1 before.
    fn flush(&mut self) -> Result<(), Error>
        ensures sure { IsTrue (is_honest self.new) → OnOk result (flushed self.new ≡ stored self.new) }
        ensures sure_names { IsTrue (is_honest self.new) → OnOk result (roots_flushed self.new ≡ roots self.new) }
        ensures only { IfErr result (IsMemoryOrFailure (failed self.old) (failed self.new)) }
        ensures same { IsTrue (is_honest self.new) → stored self.new ≡ stored self.old }
        ensures same_names { IsTrue (is_honest self.new) → roots self.new ≡ roots self.old }
        ensures durable_names { IsTrue (is_honest self.new) → OnErr result
            (StaysOrTakes (roots self.old) (roots_flushed self.old) (roots_flushed self.new)) }
        ensures honest { IsTrue (is_honest self.new) → IsTrue (is_honest self.old) }
        ensures open { is_closed self.new ≡ is_closed self.old }
        ensures later { failed self.old ≤ failed self.new };

    /// Closes the storage: it drops every blob and every name, and stores nothing any more. It
    /// flushes nothing.
    fn close(&mut self)
        ensures empty { (key : ℕ) → stored self.new key ≡ None }
        ensures no_names { (name : List ℕ) → roots self.new name ≡ None }
        ensures closed { is_closed self.new ≡ true }
        ensures honest { IsTrue (is_honest self.new) → IsTrue (is_honest self.old) }
        ensures later { failed self.old ≤ failed self.new };

    /// Returns whether the storage was closed.
    fn has_closed(&self) -> bool
        ensures { result ≡ is_closed self.now };

    /// Returns how often the storage has failed; the count stops at 2^64 - 1.
    fn failures(&self) -> u64
        ensures { result ≡ failed self.now };
}
