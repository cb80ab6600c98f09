//! Lists of each kind, slices and arrays, and the writer of a list's items.

ghost use Rattle.pagable_traits.specs.{
  Clauses.{Wrote, item_forms, value as form},
  HeldValues.lists_beside,
  Meanings.{lists, lists_single, seen_by},
  OwnCauses.{reads_memory_or, writes_long_or, writes_memory_or},
};
ghost use Rattle.pagable_value_spec.specs.{
  Composite.{MeanAll, MeansList},
  Outcomes.{long_or, memory_or},
  Shape.{array, list, run},
};
ghost use Rattle.std.specs.{Box.boxed_slice_items, Prelude.{max, [], ◌++◌, ◌∷◌, ◌≡◌}, Vec.vec_capacity};

use crate::impls::collecting::{
    Collects, collect_items, read_collected, write_counted, write_each,
};
use crate::traits::{Carried, OneMeaning, PagableDeserialize, PagableSerialize};
use pagable_codec::{Env, PagableDeserializer, PagableSerializer};
use pagable_flavors::Error;
use smallvec::SmallVec;
use std::alloc::Global;
use std::boxed::BoxedSlice;
use std::default::MadeWith;

/// Writes the items one after another, without their count.
///
/// # Errors
///
/// - the first error of an item.
pub fn write_items<E: Env, T: PagableSerialize<E>, S: PagableSerializer<E>>(
    values: &[T],
    serializer: &mut S,
) -> Result<(), Error>
    ensures { Wrote E.Env S.PagableSerializer (item_forms (MeanAll T.means.of values.now)
        (T.shape (S.environment serializer.old))) T.write_causes.are serializer.old serializer.new result }
{
    write_each(values.iter(), serializer)
}

/// Writes a slice as a list: the count of its items, and then the items.
///
/// # Errors
///
/// - `TooLong` above 4,294,967,295 items, before it looks at any item.
/// - the first error of an item.
/// - `OutOfMemory`.
pub fn serialize_slice<E: Env, T: PagableSerialize<E>, S: PagableSerializer<E>>(
    values: &[T],
    serializer: &mut S,
) -> Result<(), Error>
    ensures { Wrote E.Env S.PagableSerializer (form (MeansList T.means.of values.now)
        (list (T.shape (S.environment serializer.old)))) (long_or (memory_or T.write_causes.are))
        serializer.old serializer.new result }
{
    write_counted(values.len(), values.iter(), serializer)
}

impl<T: Drop> Collects<T> for Vec<T> {
    ghost held = { λ v. v.items };

    ghost puts = { λ xs x ys. ys ≡ xs ++ x ∷ [] };

    ghost has_room = { λ v n. vec_capacity v ≡ n };

    fn with_places<E: Env, D: PagableDeserializer<E>>(
        alloc: Global,
        places: usize,
        _deserializer: &D,
    ) -> Result<Self, Error> {
        Ok(Vec::with_capacity(alloc, places)?)
    }

    fn put_in(&mut self, item: T) -> Result<(), Error> {
        Ok(self.push(item)?)
    }
}

impl<E: Env, T: Carried<E>> Carried<E> for Vec<T> {
    ghost shape = { λ e. list (T.shape e) };

    ghost means = { seen_by (λ v. v.items) (lists T.means) };

    ghost beside = { λ v. lists_beside T.beside v.items };
}

impl<E: Env, T: OneMeaning<E>> OneMeaning<E> for Vec<T> {
    ghost single = { λ v. lists_single T.Carried.means T.single v.items };
}

impl<E: Env, T: PagableSerialize<E>> PagableSerialize<E> for Vec<T> {
    ghost write_causes = { writes_long_or (writes_memory_or T.write_causes) };

    fn pagable_serialize<S: PagableSerializer<E>>(&self, serializer: &mut S) -> Result<(), Error> {
        serialize_slice(self.as_slice(), serializer)
    }
}

impl<'de, E: Env, T: PagableDeserialize<'de, E> + Drop> PagableDeserialize<'de, E> for Vec<T> {
    ghost read_causes = { reads_memory_or T.read_causes };

    fn pagable_deserialize<D: PagableDeserializer<E>>(
        alloc: Global,
        deserializer: &mut D,
    ) -> Result<Self, Error> {
        read_collected(alloc, deserializer)
    }
}

impl<T: MadeWith<Global> + Drop, const N: usize> Collects<T> for SmallVec<T, N> {
    ghost held = { λ v. v.items };

    ghost puts = { λ xs x ys. ys ≡ xs ++ x ∷ [] };

    ghost has_room = { λ v n. v.capacity ≡ max N n };

    fn with_places<E: Env, D: PagableDeserializer<E>>(
        alloc: Global,
        places: usize,
        _deserializer: &D,
    ) -> Result<Self, Error> {
        Ok(SmallVec::with_capacity(alloc, places)?)
    }

    fn put_in(&mut self, item: T) -> Result<(), Error> {
        Ok(self.push(item)?)
    }
}

impl<E: Env, T: Carried<E>, const N: usize> Carried<E> for SmallVec<T, N> {
    ghost shape = { λ e. list (T.shape e) };

    ghost means = { seen_by (λ v. v.items) (lists T.means) };

    ghost beside = { λ v. lists_beside T.beside v.items };
}

impl<E: Env, T: OneMeaning<E>, const N: usize> OneMeaning<E> for SmallVec<T, N> {
    ghost single = { λ v. lists_single T.Carried.means T.single v.items };
}

impl<E: Env, T: PagableSerialize<E>, const N: usize> PagableSerialize<E> for SmallVec<T, N> {
    ghost write_causes = { writes_long_or (writes_memory_or T.write_causes) };

    fn pagable_serialize<S: PagableSerializer<E>>(&self, serializer: &mut S) -> Result<(), Error> {
        serialize_slice(self.as_slice(), serializer)
    }
}

impl<
    'de,
    E: Env,
    T: PagableDeserialize<'de, E> + MadeWith<Global> + Drop,
    const N: usize,
> PagableDeserialize<'de, E> for SmallVec<T, N> {
    ghost read_causes = { reads_memory_or T.read_causes };

    fn pagable_deserialize<D: PagableDeserializer<E>>(
        alloc: Global,
        deserializer: &mut D,
    ) -> Result<Self, Error> {
        read_collected(alloc, deserializer)
    }
}

// The most items that may be written one after another without their count.
const MOST_SLICE_ITEMS: usize = 4_294_967_295;

/// A borrowed slice is written as its items without their count, as in the Rust crate, so no reader
/// can read it alone.
impl<'a, E: Env, T: Carried<E>> Carried<E> for &'a [T] {
    ghost shape = { λ e. run (T.shape e) };

    ghost means = { seen_by (λ v. v.now) (lists T.means) };
}

impl<'a, E: Env, T: OneMeaning<E>> OneMeaning<E> for &'a [T] {
    ghost single = { λ v. lists_single T.Carried.means T.single v.now };
}

impl<'a, E: Env, T: PagableSerialize<E>> PagableSerialize<E> for &'a [T] {
    ghost write_causes = { writes_long_or T.write_causes };

    #[tactic(auto, using(pagable_codec::proofs::Writing::parts, crate::proofs::Items::runs))]
    fn pagable_serialize<S: PagableSerializer<E>>(&self, serializer: &mut S) -> Result<(), Error> {
        if self.len() > MOST_SLICE_ITEMS {
            return Err(Error::TooLong);
        }
        write_items(*self, serializer)
    }
}

impl<E: Env, T: Carried<E>> Carried<E> for BoxedSlice<T> {
    ghost shape = { λ e. list (T.shape e) };

    ghost means = { seen_by (λ v. boxed_slice_items v) (lists T.means) };

    ghost beside = { λ v. lists_beside T.beside (boxed_slice_items v) };
}

impl<E: Env, T: OneMeaning<E>> OneMeaning<E> for BoxedSlice<T> {
    ghost single = { λ v. lists_single T.Carried.means T.single (boxed_slice_items v) };
}

impl<E: Env, T: PagableSerialize<E>> PagableSerialize<E> for BoxedSlice<T> {
    ghost write_causes = { writes_long_or (writes_memory_or T.write_causes) };

    fn pagable_serialize<S: PagableSerializer<E>>(&self, serializer: &mut S) -> Result<(), Error> {
        serialize_slice(self.as_slice(), serializer)
    }
}

impl<'de, E: Env, T: PagableDeserialize<'de, E> + Drop> PagableDeserialize<'de, E>
    for BoxedSlice<T> {
    ghost read_causes = { reads_memory_or T.read_causes };

    #[tactic(auto, using(crate::proofs::Lent::items_hold))]
    fn pagable_deserialize<D: PagableDeserializer<E>>(
        alloc: Global,
        deserializer: &mut D,
    ) -> Result<Self, Error> {
        let values = <Vec<T>>::pagable_deserialize(alloc, deserializer)?;
        Ok(values.into_boxed_slice())
    }
}

impl<E: Env, T: Carried<E>, const N: usize> Carried<E> for [T; N] {
    ghost shape = { λ e. array N (T.shape e) };

    ghost means = { lists T.means };

    ghost beside = { lists_beside T.beside };
}

impl<E: Env, T: OneMeaning<E>, const N: usize> OneMeaning<E> for [T; N] {
    ghost single = { λ xs. lists_single T.Carried.means T.single xs };
}

impl<E: Env, T: PagableSerialize<E>, const N: usize> PagableSerialize<E> for [T; N] {
    ghost write_causes = { T.write_causes };

    #[tactic(auto, using(crate::proofs::Items::arrays))]
    fn pagable_serialize<S: PagableSerializer<E>>(&self, serializer: &mut S) -> Result<(), Error> {
        write_items(self.as_slice(), serializer)
    }
}

/// Reading an array allocates: the reader collects the items in a `Vec` first.
impl<'de, E: Env, T: PagableDeserialize<'de, E> + Drop, const N: usize> PagableDeserialize<'de, E>
    for [T; N] {
    ghost read_causes = { reads_memory_or T.read_causes };

    #[tactic(auto, unfolding(pagable_value_spec::specs::Reading::read, pagable_value_spec::specs::Reading::read_with), using(crate::proofs::Items::lists))]
    fn pagable_deserialize<D: PagableDeserializer<E>>(
        alloc: Global,
        deserializer: &mut D,
    ) -> Result<Self, Error> {
        let values: Vec<T> = collect_items(alloc, N, deserializer)?;
        Ok(<[T; N]>::try_from(values).unwrap())
    }
}
