//! Maps and sets: sorted by key, in order of insertion, and unordered.

ghost use Rattle.pagable_traits.specs.{
  Clauses.{Wrote, value as form},
  HeldValues.{lists_beside, pairs_beside},
  Meanings.{hash_maps, lists, lists_single, pairs, pairs_single, seen_by},
  OwnCauses.{reads_either, reads_memory_or, writes_either, writes_long_or, writes_memory_or},
};
ghost use Rattle.pagable_value_spec.specs.{
  Composite.MeansPair,
  Hashed.{PutsAnywhere, hash_map_single},
  Outcomes.either,
  Shape.{both, hash_map, placed_map, placed_set, sorted_map, sorted_set},
};
ghost use Rattle.std.specs.{BTreeMap.insert_entry, BTreeSet.insert_key, HashMap.spare, Prelude.{◌≡◌, ◌≤◌}};
ghost use Rattle.indexmap.specs.IndexMap as placed_maps;
ghost use Rattle.indexmap.specs.IndexSet as placed_sets;

use crate::impls::collecting::{Collects, read_collected, write_counted};
use crate::keys::{PagableKey, PagableOrdKey};
use crate::traits::{Carried, OneMeaning, PagableDeserialize, PagableSerialize};
use indexmap::{IndexMap, IndexSet};
use pagable_codec::{Env, PagableDeserializer, PagableSerializer};
use pagable_flavors::Error;
use std::alloc::Global;
use std::collections::{BTreeMap, BTreeSet, HashMap};
use std::hash::Hash;

/// Writes a key and then its value.
///
/// # Errors
///
/// - an error of the key, else an error of the value.
pub fn write_entry<E: Env, K: PagableSerialize<E>, V: PagableSerialize<E>, S: PagableSerializer<E>>(
    key: &K,
    value: &V,
    serializer: &mut S,
) -> Result<(), Error>
    ensures { Wrote E.Env S.PagableSerializer (form (MeansPair K.means.of V.means.of (key.now, value.now))
        (both (K.shape (S.environment serializer.old)) (V.shape (S.environment serializer.old))))
        (either K.write_causes.are V.write_causes.are)
        serializer.old serializer.new result }
{
    key.pagable_serialize(serializer)?;
    value.pagable_serialize(serializer)
}

/// Adding an entry with a key that the map already has replaces the value and keeps the old key.
impl<K: Ord + Drop, V: Drop> Collects<(K, V)> for BTreeMap<K, V> {
    ghost held = { λ m. m.entries };

    ghost puts = { λ es e fs. fs ≡ insert_entry K.cmp es e.0 e.1 };

    fn with_places<E: Env, D: PagableDeserializer<E>>(
        alloc: Global,
        _places: usize,
        _deserializer: &D,
    ) -> Result<Self, Error> {
        Ok(BTreeMap::new(alloc))
    }

    fn put_in(&mut self, item: (K, V)) -> Result<(), Error> {
        let (key, value) = item;
        self.insert(key, value)?;
        Ok(())
    }
}

impl<E: Env, K: PagableOrdKey<E>, V: Carried<E>> Carried<E> for BTreeMap<K, V> {
    ghost shape = { λ e. sorted_map K.order (K.shape e) (V.shape e) };

    ghost means = { seen_by (λ m. m.entries) (lists (pairs K.means V.means)) };

    ghost beside = { λ m. lists_beside (pairs_beside K.beside V.beside) m.entries };
}

impl<E: Env, K: PagableOrdKey<E>, V: OneMeaning<E>> OneMeaning<E> for BTreeMap<K, V> {
    ghost single = { λ m. lists_single (pairs K.Carried.means V.Carried.means)
        (pairs_single K.Carried.means V.Carried.means K.single V.single) m.entries };
}

impl<E: Env, K: PagableOrdKey<E> + PagableSerialize<E>, V: PagableSerialize<E>> PagableSerialize<E>
    for BTreeMap<K, V> {
    ghost write_causes = { writes_long_or (writes_memory_or (writes_either K.write_causes V.write_causes)) };

    fn pagable_serialize<S: PagableSerializer<E>>(&self, serializer: &mut S) -> Result<(), Error> {
        let entries = self.iter();
        write_counted(self.len(), entries, serializer)
    }
}

impl<
    'de,
    E: Env,
    K: PagableOrdKey<E> + PagableDeserialize<'de, E> + Drop,
    V: PagableDeserialize<'de, E> + Drop,
> PagableDeserialize<'de, E> for BTreeMap<K, V> {
    ghost read_causes = { reads_memory_or (reads_either K.read_causes V.read_causes) };

    fn pagable_deserialize<D: PagableDeserializer<E>>(
        alloc: Global,
        deserializer: &mut D,
    ) -> Result<Self, Error> {
        read_collected(alloc, deserializer)
    }
}

/// Adding an item that the set already has changes nothing.
impl<T: Ord + Drop> Collects<T> for BTreeSet<T> {
    ghost held = { λ s. s.keys };

    ghost puts = { λ ys y zs. zs ≡ insert_key T.cmp ys y };

    fn with_places<E: Env, D: PagableDeserializer<E>>(
        alloc: Global,
        _places: usize,
        _deserializer: &D,
    ) -> Result<Self, Error> {
        Ok(BTreeSet::new(alloc))
    }

    fn put_in(&mut self, item: T) -> Result<(), Error> {
        self.insert(item)?;
        Ok(())
    }
}

impl<E: Env, T: PagableOrdKey<E>> Carried<E> for BTreeSet<T> {
    ghost shape = { λ e. sorted_set T.order (T.shape e) };

    ghost means = { seen_by (λ s. s.keys) (lists T.means) };
}

impl<E: Env, T: PagableOrdKey<E>> OneMeaning<E> for BTreeSet<T> {
    ghost single = { λ s. lists_single T.Carried.means T.single s.keys };
}

impl<E: Env, T: PagableOrdKey<E> + PagableSerialize<E>> PagableSerialize<E> for BTreeSet<T> {
    ghost write_causes = { writes_long_or (writes_memory_or T.write_causes) };

    fn pagable_serialize<S: PagableSerializer<E>>(&self, serializer: &mut S) -> Result<(), Error> {
        write_counted(self.len(), self.iter(), serializer)
    }
}

impl<'de, E: Env, T: PagableOrdKey<E> + PagableDeserialize<'de, E> + Drop> PagableDeserialize<
    'de,
    E,
> for BTreeSet<T> {
    ghost read_causes = { reads_memory_or T.read_causes };

    fn pagable_deserialize<D: PagableDeserializer<E>>(
        alloc: Global,
        deserializer: &mut D,
    ) -> Result<Self, Error> {
        read_collected(alloc, deserializer)
    }
}

/// Adding an entry with a key that the map already has replaces the value, and keeps the old key in
/// its place.
impl<K: Eq + Hash + Drop, V: Drop> Collects<(K, V)> for IndexMap<K, V> {
    ghost held = { λ m. m.entries };

    ghost puts = { λ es e fs. fs ≡ placed_maps.insert_entry K.eq es e.0 e.1 };

    ghost has_room = { λ m n. n ≤ placed_maps.spare m };

    fn with_places<E: Env, D: PagableDeserializer<E>>(
        alloc: Global,
        places: usize,
        _deserializer: &D,
    ) -> Result<Self, Error> {
        Ok(IndexMap::with_capacity(alloc, places)?)
    }

    fn put_in(&mut self, item: (K, V)) -> Result<(), Error> {
        self.insert_full(item.0, item.1)?;
        Ok(())
    }
}

impl<E: Env, K: PagableKey<E> + Hash, V: Carried<E>> Carried<E> for IndexMap<K, V> {
    ghost shape = { λ e. placed_map (K.shape e) (V.shape e) };

    ghost means = { seen_by (λ m. m.entries) (lists (pairs K.means V.means)) };

    ghost beside = { λ m. lists_beside (pairs_beside K.beside V.beside) m.entries };
}

impl<E: Env, K: PagableKey<E> + Hash, V: OneMeaning<E>> OneMeaning<E> for IndexMap<K, V> {
    ghost single = { λ m. lists_single (pairs K.Carried.means V.Carried.means)
        (pairs_single K.Carried.means V.Carried.means K.single V.single) m.entries };
}

impl<
    E: Env,
    K: PagableKey<E> + Hash + PagableSerialize<E>,
    V: PagableSerialize<E>,
> PagableSerialize<E> for IndexMap<K, V> {
    ghost write_causes = { writes_long_or (writes_memory_or (writes_either K.write_causes V.write_causes)) };

    fn pagable_serialize<S: PagableSerializer<E>>(&self, serializer: &mut S) -> Result<(), Error> {
        write_counted(self.len(), self.iter(), serializer)
    }
}

impl<
    'de,
    E: Env,
    K: PagableKey<E> + Hash + PagableDeserialize<'de, E> + Drop,
    V: PagableDeserialize<'de, E> + Drop,
> PagableDeserialize<'de, E> for IndexMap<K, V> {
    ghost read_causes = { reads_memory_or (reads_either K.read_causes V.read_causes) };

    fn pagable_deserialize<D: PagableDeserializer<E>>(
        alloc: Global,
        deserializer: &mut D,
    ) -> Result<Self, Error> {
        read_collected(alloc, deserializer)
    }
}

/// Adding an item that the set already has changes nothing: the item keeps its place.
impl<T: Eq + Hash + Drop> Collects<T> for IndexSet<T> {
    ghost held = { λ s. s.keys };

    ghost puts = { λ ys y zs. zs ≡ placed_sets.insert_key T.eq ys y };

    ghost has_room = { λ s n. n ≤ placed_sets.spare s };

    fn with_places<E: Env, D: PagableDeserializer<E>>(
        alloc: Global,
        places: usize,
        _deserializer: &D,
    ) -> Result<Self, Error> {
        Ok(IndexSet::with_capacity(alloc, places)?)
    }

    fn put_in(&mut self, item: T) -> Result<(), Error> {
        self.insert_full(item)?;
        Ok(())
    }
}

impl<E: Env, T: PagableKey<E> + Hash> Carried<E> for IndexSet<T> {
    ghost shape = { λ e. placed_set (T.shape e) };

    ghost means = { seen_by (λ s. s.keys) (lists T.means) };
}

impl<E: Env, T: PagableKey<E> + Hash> OneMeaning<E> for IndexSet<T> {
    ghost single = { λ s. lists_single T.Carried.means T.single s.keys };
}

impl<E: Env, T: PagableKey<E> + Hash + PagableSerialize<E>> PagableSerialize<E> for IndexSet<T> {
    ghost write_causes = { writes_long_or (writes_memory_or T.write_causes) };

    fn pagable_serialize<S: PagableSerializer<E>>(&self, serializer: &mut S) -> Result<(), Error> {
        write_counted(self.len(), self.iter(), serializer)
    }
}

impl<'de, E: Env, T: PagableKey<E> + Hash + PagableDeserialize<'de, E> + Drop> PagableDeserialize<
    'de,
    E,
> for IndexSet<T> {
    ghost read_causes = { reads_memory_or T.read_causes };

    fn pagable_deserialize<D: PagableDeserializer<E>>(
        alloc: Global,
        deserializer: &mut D,
    ) -> Result<Self, Error> {
        read_collected(alloc, deserializer)
    }
}

/// Adding an entry with a key that the map already has replaces the value and keeps the old key.
impl<K: Eq + Hash + Drop, V: Drop> Collects<(K, V)> for HashMap<K, V> {
    ghost held = { λ m. m.entries };

    ghost puts = { λ es e fs. PutsAnywhere K.eq es e fs };

    ghost has_room = { λ m n. n ≤ spare m };

    fn with_places<E: Env, D: PagableDeserializer<E>>(
        alloc: Global,
        places: usize,
        _deserializer: &D,
    ) -> Result<Self, Error> {
        Ok(HashMap::with_capacity(alloc, places)?)
    }

    fn put_in(&mut self, item: (K, V)) -> Result<(), Error> {
        self.insert(item.0, item.1)?;
        Ok(())
    }
}

/// A map means its entries in any order, so equal maps mean the same. It may be written in any
/// order.
impl<E: Env, K: PagableKey<E> + Hash, V: Carried<E>> Carried<E> for HashMap<K, V> {
    ghost shape = { λ e. hash_map (K.shape e) (V.shape e) };

    ghost means = { seen_by (λ m. m.entries) (hash_maps K.means V.means) };

    ghost beside = { λ m. lists_beside (pairs_beside K.beside V.beside) m.entries };
}

impl<E: Env, K: PagableKey<E> + Hash, V: OneMeaning<E>> OneMeaning<E> for HashMap<K, V> {
    ghost single = { λ m. hash_map_single K.Carried.means.of V.Carried.means.of K.Carried.means.meaning
        V.Carried.means.meaning K.single V.single m.entries };
}

impl<
    E: Env,
    K: PagableKey<E> + Hash + PagableSerialize<E>,
    V: PagableSerialize<E>,
> PagableSerialize<E> for HashMap<K, V> {
    ghost write_causes = { writes_long_or (writes_memory_or (writes_either K.write_causes V.write_causes)) };

    fn pagable_serialize<S: PagableSerializer<E>>(&self, serializer: &mut S) -> Result<(), Error> {
        write_counted(self.len(), self.iter(), serializer)
    }
}

impl<
    'de,
    E: Env,
    K: PagableKey<E> + Hash + PagableDeserialize<'de, E> + Drop,
    V: PagableDeserialize<'de, E> + Drop,
> PagableDeserialize<'de, E> for HashMap<K, V> {
    ghost read_causes = { reads_memory_or (reads_either K.read_causes V.read_causes) };

    fn pagable_deserialize<D: PagableDeserializer<E>>(
        alloc: Global,
        deserializer: &mut D,
    ) -> Result<Self, Error> {
        read_collected(alloc, deserializer)
    }
}
