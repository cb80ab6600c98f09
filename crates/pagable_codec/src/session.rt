//! The values that one session of reading and writing shares: a map behind a lock.

ghost use Rattle.pagable_value_spec.specs.{
  Outcomes.IsOutOfMemory,
  Session.{IsCloneOf, IsHandedBack},
};
ghost use Rattle.std.proofs.Common.{rules};
ghost use Rattle.std.specs.{
  BTreeMap.{IsEmpty, IsUnchanged, Updates, get},
  Cmp.Rules.comparing,
  Prelude.{IfErr, IfOk, IfSome, IsSome, IsTrue, None, OnErr, OnOk, Some, refl, ◌≡◌},
};

use pagable_flavors::Error;
use std::alloc::Global;
use std::collections::BTreeMap;
use std::sync::{Arc, Mutex, Wait};

/// A value that a session keeps: its clones are equal to it.
pub trait SessionValue: Clone + Eq + Drop {
    ghost clones_equal: { (x y : Self) → Self.is_clone x y → IsTrue (Self.eq x y) };
}

impl SessionValue for () {
    ghost clones_equal = { λ x y is. refl };
}

impl SessionValue for u32 {
    ghost clones_equal = { Prim.search (comparing, rules) };
}

impl SessionValue for u64 {
    ghost clones_equal = { Prim.search (comparing, rules) };
}

impl SessionValue for String {
    ghost clones_equal = { Prim.search (comparing, rules) };
}

impl<T: Eq + Drop> SessionValue for Arc<T> {
    ghost clones_equal = { Prim.search (comparing, rules) };
}

/// A session's values by their keys. Calls return clones of the values.
#[derive(Drop)]
pub struct SessionMap<K: Ord, V> {
    pub values: BTreeMap<K, V>,
}

impl<K: Ord + Drop, V: Drop> SessionMap<K, V> {
    /// Creates a map without values.
    pub fn new(alloc: Global) -> Self
        ensures { IsEmpty result.values }
    {
        let values = BTreeMap::new(alloc);
        SessionMap { values }
    }
}

impl<K: Ord + Drop, V: SessionValue> SessionMap<K, V> {
    /// Returns a clone of the key's value, or None if the key has none.
    ///
    /// # Errors
    ///
    /// - `OutOfMemory` only, and only if the key has a value.
    pub fn get(&self, key: &K) -> Result<Option<V>, Error>
        ensures value { IfOk result (IsCloneOf V.is_clone (get K.cmp self.now.values key.now)) }
        ensures there { OnErr result (IsSome (get K.cmp self.now.values key.now)) }
        ensures only { IfErr result IsOutOfMemory }
    {
        Ok(self.values.get(key).cloned()?)
    }

    /// Sets the key's value, in place of the one that it had.
    ///
    /// # Errors
    ///
    /// - `OutOfMemory` only: the map is unchanged, and the caller gets key and value back.
    pub fn set(&mut self, key: K, value: V) -> Result<(), (Error, K, V)>
        ensures ok { OnOk result (Updates K.cmp self.old.values self.new.values key (Some value)) }
        ensures err { OnErr result (IsUnchanged self.old.values self.new.values) }
        ensures only { IfErr result (λ e. IsOutOfMemory e.0) }
        ensures back { IfErr result (λ e. (e.1 ≡ key) × (e.2 ≡ value)) }
    {
        match self.values.insert(key, value) {
            Ok(_) => Ok(()),
            Err(failed) => {
                let (refusal, (key, value)) = Error::split_failed_allocation(failed);
                Err((refusal, key, value))
            }
        }
    }

    /// Returns a clone of the key's value. If the key has none, first sets it to what `make`
    /// returns.
    ///
    /// # Errors
    ///
    /// - `OutOfMemory` only: the map is unchanged, and the caller gets the key back, with the value
    ///   if `make` was called.
    pub fn get_or_insert_with<F: FnOnce() -> V>(
        &mut self,
        key: K,
        make: F,
    ) -> Result<V, (Error, K, Option<V>)>
        requires { get K.cmp self.old.values key ≡ None → F.pre make }
        ensures kept { IfOk result (λ y. (x : V) → get K.cmp self.old.values key ≡ Some x → V.is_clone x y
            × IsUnchanged self.old.values self.new.values) }
        ensures made { IfOk result (λ y. get K.cmp self.old.values key ≡ None → (x : V) × F.post make x × V.is_clone x y
            × Updates K.cmp self.old.values self.new.values key (Some x)) }
        ensures err { OnErr result (IsUnchanged self.old.values self.new.values) }
        ensures only { IfErr result (λ e. IsOutOfMemory e.0) }
        ensures back { IfErr result (λ e. (e.1 ≡ key) × IsHandedBack (F.post make)
            (get K.cmp self.old.values key) e.2) }
    {
        match self.get(&key) {
            Err(refusal) => return Err((refusal, key, None)),
            Ok(Some(value)) => return Ok(value),
            Ok(None) => {}
        }
        let value = make();
        let answer = match value.clone() {
            Ok(answer) => answer,
            Err(refused) => return Err((refused.into(), key, Some(value))),
        };
        match self.set(key, value) {
            Ok(()) => Ok(answer),
            Err((refusal, key, value)) => Err((refusal, key, Some(value))),
        }
    }
}

/// A session's map behind a lock, shared by the values of one session of reading or writing. Each
/// call waits for the lock, and makes one call of `SessionMap` on the map.
#[derive(Drop)]
pub struct SessionContext<K: Ord, V> {
    map: Mutex<SessionMap<K, V>>,
}

impl<K: Ord, V> AsRef<SessionContext<K, V>> for SessionContext<K, V> {
    fn as_ref(&self) -> &SessionContext<K, V> {
        self
    }
}

impl<K: Ord + Drop, V: Drop> SessionContext<K, V> {
    /// Creates a context without values.
    pub fn new(alloc: Global) -> Self {
        let map = Mutex::new(SessionMap::new(alloc));
        SessionContext { map }
    }

    /// Creates a context without values, as `new` does.
    pub fn default(alloc: Global) -> Self {
        Self::new(alloc)
    }
}

impl<K: Ord + Drop, V: SessionValue> SessionContext<K, V> {
    /// Calls `SessionMap::get` under the lock.
    ///
    /// # Errors
    ///
    /// - `OutOfMemory` only.
    pub fn get<R: Wait>(&self, rt: &R, key: &K) -> Result<Option<V>, Error>
        ensures only { IfErr result IsOutOfMemory }
    {
        self.map.lock(rt).get(key)
    }

    /// Calls `SessionMap::set` under the lock.
    ///
    /// # Errors
    ///
    /// - `OutOfMemory` only: the map is unchanged, and the caller gets key and value back.
    pub fn set<R: Wait>(&self, rt: &R, key: K, value: V) -> Result<(), (Error, K, V)>
        ensures only { IfErr result (λ e. IsOutOfMemory e.0) }
        ensures back { IfErr result (λ e. (e.1 ≡ key) × (e.2 ≡ value)) }
    {
        self.map.lock(rt).set(key, value)
    }

    /// Calls `SessionMap::get_or_insert_with` under the lock; `make` runs under the lock too.
    ///
    /// # Errors
    ///
    /// - `OutOfMemory` only: the map is unchanged, and the caller gets the key back, with the value
    ///   if `make` was called.
    pub fn get_or_insert_with<R: Wait, F: FnOnce() -> V>(
        &self,
        rt: &R,
        key: K,
        make: F,
    ) -> Result<V, (Error, K, Option<V>)>
        requires { F.pre make }
        ensures only { IfErr result (λ e. IsOutOfMemory e.0) }
        ensures back { IfErr result (λ e. (e.1 ≡ key) × IfSome e.2 (F.post make)) }
    {
        self.map.lock(rt).get_or_insert_with(key, make)
    }
}
