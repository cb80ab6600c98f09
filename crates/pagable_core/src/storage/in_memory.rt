//! A storage in memory, for tests and for stores that live as long as one run.

ghost use Rattle.pagable_core.specs.Data.{blob_of, stored_in};
ghost use Rattle.pagable_value_spec.specs.{Blob.key_of, Outcomes.IsOutOfMemory, Stored.{AreNamed, IsCount}};
ghost use Rattle.std.specs.{
  HashMap.get_by_text,
  Prelude.{IfErr, IsTrue, List, None, OnErr, OnOk, Some, false, if◌then◌else◌, option_map, true, ℕ, ◌==◌, ◌↔◌, ◌≡◌},
};

use crate::storage::data::PagableData;
use crate::storage::roots::Roots;
use crate::storage::traits::PagableStorage;
use futures::task::{Context, Poll};
use pagable_codec::Env;
use pagable_flavors::{DataKey, Error};
use std::alloc::Global;
use std::collections::HashMap;
use std::marker::PhantomData;
use std::sync::Arc;

/// A storage in memory: a map of blobs by key, and one of keys by name. It refuses another blob
/// under a taken key and keeps the first. What it stores or names counts as flushed at once. It
/// stays honest (it takes no wrong answer for true), since it asks no layer below.
#[derive(Drop)]
pub struct InMemoryBlobs<E: Env> {
    blobs: HashMap<DataKey, Arc<PagableData>>,
    roots: HashMap<String, DataKey>,
    closed: bool,
    environment: PhantomData<E>,
    ghost named: { AreNamed (key_of E.Hash.digest) (stored_in blobs) },
}

impl<E: Env> InMemoryBlobs<E> {
    /// Creates an open storage without blobs and names. It allocates nothing.
    pub fn new(alloc: Global) -> InMemoryBlobs<E>
        ensures empty { (key : ℕ) → ⟦<InMemoryBlobs<E> as PagableStorage<E>>⟧.stored result key ≡ None }
        ensures no_names { (name : List ℕ) → ⟦<InMemoryBlobs<E> as PagableStorage<E>>⟧.roots result name ≡ None }
        ensures open { ⟦<InMemoryBlobs<E> as PagableStorage<E>>⟧.is_closed result ≡ false }
    {
        InMemoryBlobs {
            blobs: HashMap::new(alloc),
            roots: HashMap::new(alloc),
            closed: false,
            environment: PhantomData,
        }
    }

    /// Returns how many blobs are stored, each under its own key.
    #[tactic(auto, using(crate::proofs::Adding::counts))]
    pub fn len(&self) -> usize
        ensures { IsCount (⟦<InMemoryBlobs<E> as PagableStorage<E>>⟧.stored self.now) result }
    {
        self.blobs.len()
    }
}

/// Returns whether two blobs are equal.
fn is_same(left: &PagableData, right: &PagableData) -> bool
    ensures { IsTrue result ↔ (blob_of left.now ≡ blob_of right.now) }
{
    left == right
}

/// Returns the blob under a key, or None if none is stored there.
fn stored_under(blobs: &HashMap<DataKey, Arc<PagableData>>, key: DataKey) -> Option<&PagableData>
    ensures { option_map (λ found. blob_of found.now) result ≡ stored_in blobs.now key }
{
    match blobs.get(&key) {
        None => None,
        Some(found) => Some(found),
    }
}

/// Stores a blob under a key that has none. Fails with `OutOfMemory` only; then nothing changes.
fn put(
    alloc: Global,
    blobs: &mut HashMap<DataKey, Arc<PagableData>>,
    key: DataKey,
    blob: PagableData,
) -> Result<(), Error>
    ensures ok { OnOk result ((q : ℕ) → stored_in blobs.new q
        ≡ (if q == key then Some (blob_of blob) else stored_in blobs.old q)) }
    ensures only { IfErr result IsOutOfMemory }
    ensures err { OnErr result (stored_in blobs.new ≡ stored_in blobs.old) }
{
    let kept = Arc::new(alloc, blob)?;
    blobs.insert(key, kept)?;
    Ok(())
}

impl<E: Env> PagableStorage<E> for InMemoryBlobs<E> {
    ghost stored = { λ s. stored_in s.blobs };

    ghost flushed = { λ s. stored_in s.blobs };

    ghost is_closed = { λ s. s.closed };

    ghost failed = { λ s. 0 };

    ghost roots = { λ s. get_by_text s.roots };

    ghost roots_flushed = { λ s. get_by_text s.roots };

    fn fetch_data_blocking(
        &mut self,
        _alloc: Global,
        key: DataKey,
    ) -> Result<Arc<PagableData>, Error> {
        match self.blobs.get(&key) {
            None => Err(Error::NoData(key)),
            Some(found) => Ok(found.clone()?),
        }
    }

    fn fetch_data(
        &mut self,
        _cx: &mut Context<'_>,
        alloc: Global,
        key: DataKey,
    ) -> Poll<Result<Arc<PagableData>, Error>> {
        Poll::Ready(self.fetch_data_blocking(alloc, key))
    }

    fn store_data(&mut self, alloc: Global, blob: PagableData) -> Result<DataKey, Error> {
        let key = blob.compute_key::<E::Hash>();
        self.store_keyed(alloc, key, blob)
    }

    #[tactic(auto, using(crate::proofs::Adding::adding))]
    fn store_keyed(
        &mut self,
        alloc: Global,
        key: DataKey,
        blob: PagableData,
    ) -> Result<DataKey, Error> {
        if self.closed {
            return Err(Error::Closed);
        }
        if let Some(found) = stored_under(&self.blobs, key) {
            if is_same(found, &blob) {
                return Ok(key);
            }
            return Err(Error::KeyTaken);
        }
        put(alloc, &mut self.blobs, key, blob)?;
        Ok(key)
    }

    fn flush(&mut self) -> Result<(), Error> {
        Ok(())
    }

    fn close(&mut self) {
        self.blobs.clear();
        self.roots.clear();
        self.closed = true;
    }

    fn has_closed(&self) -> bool {
        self.closed
    }

    fn failures(&self) -> u64 {
        0
    }
}

impl<E: Env> Roots<E> for InMemoryBlobs<E> {
    fn root(&mut self, name: &str) -> Result<Option<DataKey>, Error> {
        Ok(self.roots.get(name).copied())
    }

    fn set_root(&mut self, alloc: Global, name: &str, key: Option<DataKey>) -> Result<(), Error> {
        if self.has_closed() {
            return Err(Error::Closed);
        }
        let Some(key) = key else {
            self.roots.remove(name);
            return Ok(());
        };
        if stored_under(&self.blobs, key).is_none() {
            return Err(Error::NoData(key));
        }
        self.roots.insert(String::from_str(alloc, name)?, key)?;
        Ok(())
    }

    fn root_names(&mut self, alloc: Global) -> Result<Vec<String>, Error> {
        let mut names = Vec::new(alloc);
        for name in self.roots.keys() {
            names.push(String::from_str(alloc, name.as_str())?)?;
        }
        Ok(names)
    }
}
