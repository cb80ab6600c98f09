//! Values that hold others: `Option`, `Result`, `Box`, tuples (those of three to five values are
//! encoded as their first value and the tuple of the others), borrowed values, a header with a
//! list, type markers (which write nothing), and cells.
#![tactic(auto, unfolding(pagable_value_spec::specs::Reading::read, pagable_value_spec::specs::Reading::read_with), using(crate::proofs::Parts::reads, crate::proofs::Lent::lent))]

ghost use Rattle.pagable_traits.specs.{
  HeldValues.{lists_beside, options_beside, pairs_beside, results_beside},
  Meanings.{lists, lists_single, options, options_single, pairs, pairs_single, results, seen_by},
  OwnCauses.{reads_either, reads_memory_or, writes_either, writes_long_or, writes_memory_or, writes_never},
};
ghost use Rattle.pagable_value_spec.specs.{
  CarriedTypes.{atomic_i64, once_lock, thin},
  Composite.{MayHold, MeansAtomic, MeansOnce, atomic_has_meaning, once_has_meaning, result_single},
  Shape.{both, optional, outcome},
};
ghost use Rattle.std.specs.Prelude.{option_copied};

use crate::encoded_as::{DecodedAs, EncodedAs};
use crate::impls::maps::write_entry;
use crate::traits::{Carried, OneMeaning, PagableDeserialize, PagableSerialize};
use pagable_codec::parts::{read_flag, write_flag};
use pagable_codec::{Env, PagableDeserializer, PagableSerializer};
use pagable_flavors::Error;
use std::alloc::Global;
use std::marker::PhantomData;
use std::sync::OnceLock;
use std::sync::atomic::{AtomicI64, Ordering};

impl<E: Env, T: Carried<E>> Carried<E> for Option<T> {
    ghost shape = { λ e. optional (T.shape e) };

    ghost means = { options T.means };

    ghost beside = { options_beside T.beside };
}

impl<E: Env, T: OneMeaning<E>> OneMeaning<E> for Option<T> {
    ghost single = { options_single T.Carried.means T.single };
}

impl<E: Env, T: PagableSerialize<E>> PagableSerialize<E> for Option<T> {
    ghost write_causes = { writes_memory_or T.write_causes };

    fn pagable_serialize<S: PagableSerializer<E>>(&self, serializer: &mut S) -> Result<(), Error> {
        match self {
            None => write_flag(false, serializer),
            Some(value) => {
                write_flag(true, serializer)?;
                value.pagable_serialize(serializer)
            }
        }
    }
}

impl<'de, E: Env, T: PagableDeserialize<'de, E>> PagableDeserialize<'de, E> for Option<T> {
    ghost read_causes = { T.read_causes };

    fn pagable_deserialize<D: PagableDeserializer<E>>(
        alloc: Global,
        deserializer: &mut D,
    ) -> Result<Self, Error> {
        if !read_flag(deserializer)? {
            return Ok(None);
        }
        let value = T::pagable_deserialize(alloc, deserializer)?;
        Ok(Some(value))
    }
}

impl<T> EncodedAs for Box<T> {
    type Other = T;

    ghost as_other = { λ b. b.value };
}

impl<E: Env, T: PagableSerialize<E>> PagableSerialize<E> for Box<T> {
    ghost write_causes = { T.write_causes };

    fn pagable_serialize<S: PagableSerializer<E>>(&self, serializer: &mut S) -> Result<(), Error> {
        (**self).pagable_serialize(serializer)
    }
}

impl<'de, E: Env, T: PagableDeserialize<'de, E> + Drop> PagableDeserialize<'de, E> for Box<T> {
    ghost read_causes = { reads_memory_or T.read_causes };

    fn pagable_deserialize<D: PagableDeserializer<E>>(
        alloc: Global,
        deserializer: &mut D,
    ) -> Result<Self, Error> {
        let value = T::pagable_deserialize(alloc, deserializer)?;
        Ok(Box::new(alloc, value)?)
    }
}

impl<E: Env, A: Carried<E>, B: Carried<E>> Carried<E> for (A, B) {
    ghost shape = { λ e. both (A.shape e) (B.shape e) };

    ghost means = { pairs A.means B.means };

    ghost beside = { pairs_beside A.beside B.beside };
}

impl<E: Env, A: OneMeaning<E>, B: OneMeaning<E>> OneMeaning<E> for (A, B) {
    ghost single = { pairs_single A.Carried.means B.Carried.means A.single B.single };
}

impl<E: Env, A: PagableSerialize<E>, B: PagableSerialize<E>> PagableSerialize<E> for (A, B) {
    ghost write_causes = { writes_either A.write_causes B.write_causes };

    fn pagable_serialize<S: PagableSerializer<E>>(&self, serializer: &mut S) -> Result<(), Error> {
        write_entry(&self.0, &self.1, serializer)
    }
}

impl<
    'de,
    E: Env,
    A: PagableDeserialize<'de, E> + Drop,
    B: PagableDeserialize<'de, E>,
> PagableDeserialize<'de, E> for (A, B) {
    ghost read_causes = { reads_either A.read_causes B.read_causes };

    fn pagable_deserialize<D: PagableDeserializer<E>>(
        alloc: Global,
        deserializer: &mut D,
    ) -> Result<Self, Error> {
        let first = A::pagable_deserialize(alloc, deserializer)?;
        let second = B::pagable_deserialize(alloc, deserializer)?;
        Ok((first, second))
    }
}

impl<E: Env, T: Carried<E>, X: Carried<E>> Carried<E> for Result<T, X> {
    ghost shape = { λ e. outcome (T.shape e) (X.shape e) };

    ghost means = { results T.means X.means };

    ghost beside = { results_beside T.beside X.beside };
}

impl<E: Env, T: OneMeaning<E>, X: OneMeaning<E>> OneMeaning<E> for Result<T, X> {
    ghost single = { result_single T.Carried.means.of X.Carried.means.of T.Carried.means.meaning X.Carried.means.meaning
        T.single X.single };
}

impl<E: Env, T: PagableSerialize<E>, X: PagableSerialize<E>> PagableSerialize<E> for Result<T, X> {
    ghost write_causes = { writes_memory_or (writes_either T.write_causes X.write_causes) };

    #[tactic(auto, using(crate::proofs::Parts::steps))]
    fn pagable_serialize<S: PagableSerializer<E>>(&self, serializer: &mut S) -> Result<(), Error> {
        write_flag(self.is_ok(), serializer)?;
        match self {
            Ok(value) => value.pagable_serialize(serializer),
            Err(failure) => failure.pagable_serialize(serializer),
        }
    }
}

impl<'de, E: Env, T: PagableDeserialize<'de, E>, X: PagableDeserialize<'de, E>> PagableDeserialize<
    'de,
    E,
> for Result<T, X> {
    ghost read_causes = { reads_either T.read_causes X.read_causes };

    fn pagable_deserialize<D: PagableDeserializer<E>>(
        alloc: Global,
        deserializer: &mut D,
    ) -> Result<Self, Error> {
        let good = read_flag(deserializer)?;
        if good {
            let value = T::pagable_deserialize(alloc, deserializer)?;
            return Ok(Ok(value));
        }
        let failure = X::pagable_deserialize(alloc, deserializer)?;
        Ok(Err(failure))
    }
}

/// A borrowed value is written as the value itself. No reader returns one: it has no owner to
/// borrow from.
impl<'a, T> EncodedAs for &'a T {
    type Other = T;

    ghost as_other = { λ r. r.now };
}

impl<'a, E: Env, T: PagableSerialize<E>> PagableSerialize<E> for &'a T {
    ghost write_causes = { T.write_causes };

    fn pagable_serialize<S: PagableSerializer<E>>(&self, serializer: &mut S) -> Result<(), Error> {
        T::pagable_serialize(*self, serializer)
    }
}

impl<T> EncodedAs for PhantomData<T> {
    type Other = ();

    ghost as_other = { λ x. tt };
}

impl<T> DecodedAs for PhantomData<T> {
    fn from_encoded(_value: ()) -> Self {
        PhantomData
    }
}

impl<E: Env, T> PagableSerialize<E> for PhantomData<T> {
    ghost write_causes = { writes_never };

    fn pagable_serialize<S: PagableSerializer<E>>(&self, serializer: &mut S) -> Result<(), Error> {
        PagableSerialize::<E>::pagable_serialize(&(), serializer)
    }
}

/// A header and a list, to which a thin pointer refers in the Rust crate. They are written as a
/// pair.
#[derive(Debug, PartialEq, Eq, PartialOrd, Ord, Hash, Drop)]
pub struct Thin<H, T> {
    pub header: H,
    pub items: Vec<T>,
}

impl<E: Env, H: Carried<E>, T: Carried<E>> Carried<E> for Thin<H, T> {
    ghost shape = { λ e. thin (H.shape e) (T.shape e) };

    ghost means = { seen_by (λ t. (t.header, t.items)) (pairs H.means (seen_by (λ v. v.items) (lists T.means))) };

    ghost beside = { λ t. pairs_beside H.beside (λ v. lists_beside T.beside v.items) (t.header, t.items) };
}

impl<E: Env, H: OneMeaning<E>, T: OneMeaning<E>> OneMeaning<E> for Thin<H, T> {
    ghost single = { λ t. pairs_single H.Carried.means (seen_by (λ v. v.items) (lists T.Carried.means)) H.single
        (λ v. lists_single T.Carried.means T.single v.items) (t.header, t.items) };
}

impl<E: Env, H: PagableSerialize<E>, T: PagableSerialize<E>> PagableSerialize<E> for Thin<H, T> {
    ghost write_causes = { writes_either H.write_causes (writes_long_or (writes_memory_or T.write_causes)) };

    fn pagable_serialize<S: PagableSerializer<E>>(&self, serializer: &mut S) -> Result<(), Error> {
        write_entry(&self.header, &self.items, serializer)
    }
}

impl<
    'de,
    E: Env,
    H: PagableDeserialize<'de, E> + Drop,
    T: PagableDeserialize<'de, E> + Drop,
> PagableDeserialize<'de, E> for Thin<H, T> {
    ghost read_causes = { reads_either H.read_causes (reads_memory_or T.read_causes) };

    fn pagable_deserialize<D: PagableDeserializer<E>>(
        alloc: Global,
        deserializer: &mut D,
    ) -> Result<Self, Error> {
        let (header, items) = PagableDeserialize::pagable_deserialize(alloc, deserializer)?;
        Ok(Thin { header, items })
    }
}

impl<A, B, C> EncodedAs for (A, B, C) {
    type Other = (A, (B, C));

    ghost as_other = { λ p. (p.0, (p.1, p.2)) };
}

impl<A, B, C> DecodedAs for (A, B, C) {
    fn from_encoded(value: (A, (B, C))) -> Self {
        let (first, (second, third)) = value;
        (first, second, third)
    }
}

impl<A, B, C, D> EncodedAs for (A, B, C, D) {
    type Other = (A, (B, (C, D)));

    ghost as_other = { λ p. (p.0, (p.1, (p.2, p.3))) };
}

impl<A, B, C, D> DecodedAs for (A, B, C, D) {
    fn from_encoded(value: (A, (B, (C, D)))) -> Self {
        let (first, (second, (third, fourth))) = value;
        (first, second, third, fourth)
    }
}

impl<A, B, C, D, F> EncodedAs for (A, B, C, D, F) {
    type Other = (A, (B, (C, (D, F))));

    ghost as_other = { λ p. (p.0, (p.1, (p.2, (p.3, p.4)))) };
}

impl<A, B, C, D, F> DecodedAs for (A, B, C, D, F) {
    fn from_encoded(value: (A, (B, (C, (D, F))))) -> Self {
        let (first, (second, (third, (fourth, fifth)))) = value;
        (first, second, third, fourth, fifth)
    }
}

impl<
    E: Env,
    A: PagableSerialize<E>,
    B: PagableSerialize<E>,
    C: PagableSerialize<E>,
> PagableSerialize<E> for (A, B, C) {
    ghost write_causes = { writes_either A.write_causes (writes_either B.write_causes C.write_causes) };

    #[tactic(auto, using(crate::proofs::Parts::alike))]
    fn pagable_serialize<S: PagableSerializer<E>>(&self, serializer: &mut S) -> Result<(), Error> {
        write_entry(&self.0, &(&self.1, &self.2), serializer)
    }
}

impl<
    E: Env,
    A: PagableSerialize<E>,
    B: PagableSerialize<E>,
    C: PagableSerialize<E>,
    D: PagableSerialize<E>,
> PagableSerialize<E> for (A, B, C, D) {
    ghost write_causes = { writes_either A.write_causes
        (writes_either B.write_causes (writes_either C.write_causes D.write_causes)) };

    #[tactic(auto, using(crate::proofs::Parts::alike))]
    fn pagable_serialize<S: PagableSerializer<E>>(&self, serializer: &mut S) -> Result<(), Error> {
        write_entry(&self.0, &(&self.1, &self.2, &self.3), serializer)
    }
}

impl<
    E: Env,
    A: PagableSerialize<E>,
    B: PagableSerialize<E>,
    C: PagableSerialize<E>,
    D: PagableSerialize<E>,
    F: PagableSerialize<E>,
> PagableSerialize<E> for (A, B, C, D, F) {
    ghost write_causes = { writes_either A.write_causes
        (writes_either B.write_causes (writes_either C.write_causes (writes_either D.write_causes F.write_causes))) };

    #[tactic(auto, using(crate::proofs::Parts::alike))]
    fn pagable_serialize<S: PagableSerializer<E>>(&self, serializer: &mut S) -> Result<(), Error> {
        write_entry(&self.0, &(&self.1, &self.2, &self.3, &self.4), serializer)
    }
}

// ---- cells: an atomic number, and a value that is set once. Another thread may write to a cell
// while it is read, so no contract knows what a cell holds: a cell means each thing that it may
// hold, as the four functions below state.

/// Returns the number that the cell holds now.
#[tactic(auto, unfolding(pagable_value_spec::specs::Composite::MayHold))]
fn number_in(cell: &AtomicI64) -> i64
    ensures { MayHold cell.now result }
{
    cell.load(Ordering::SeqCst)
}

/// Makes a cell that holds this number.
#[tactic(auto, unfolding(pagable_value_spec::specs::Composite::MayHold))]
fn atomic_of(number: i64) -> AtomicI64
    ensures { MayHold result number }
{
    AtomicI64::new(number)
}

/// Returns the value that the cell holds now, or None. The call doesn't wait for a thread that is
/// setting the cell: until that thread is done, the cell holds none.
#[tactic(auto, unfolding(pagable_value_spec::specs::Composite::MayHold))]
fn value_in<T>(cell: &OnceLock<T>) -> Option<&T>
    ensures { MayHold cell.now (option_copied result) }
{
    cell.get()
}

/// Makes a cell that holds this value, or none if the value is None.
#[tactic(auto, unfolding(pagable_value_spec::specs::Composite::MayHold))]
fn once_lock_of<T: Drop>(value: Option<T>) -> OnceLock<T>
    ensures { MayHold result value }
{
    match value {
        Some(value) => OnceLock::from(value),
        None => OnceLock::new(),
    }
}

impl<E: Env> Carried<E> for AtomicI64 {
    ghost shape = { λ e. atomic_i64 };

    ghost means = { record {
      of = MeansAtomic;
      meaning = λ x. (atomic_has_meaning x).0;
      is = λ x. (atomic_has_meaning x).1;
    } };
}

impl<E: Env> PagableSerialize<E> for AtomicI64 {
    /// Appends the number that the cell holds now, as an `i64`.
    fn pagable_serialize<S: PagableSerializer<E>>(&self, serializer: &mut S) -> Result<(), Error> {
        let held = number_in(self);
        PagableSerialize::<E>::pagable_serialize(&held, serializer)
    }
}

impl<'de, E: Env> PagableDeserialize<'de, E> for AtomicI64 {
    fn pagable_deserialize<D: PagableDeserializer<E>>(
        alloc: Global,
        deserializer: &mut D,
    ) -> Result<Self, Error> {
        let held = PagableDeserialize::<E>::pagable_deserialize(alloc, deserializer)?;
        Ok(atomic_of(held))
    }
}

/// A handle that is put into a lock after the lock's node was made is no reference of that node's
/// value: the pager knows only the references that the value had when it was inserted.
impl<E: Env, T: Carried<E>> Carried<E> for OnceLock<T> {
    ghost shape = { λ e. once_lock (T.shape e) };

    ghost means = { record {
      of = MeansOnce T.means.of;
      meaning = λ x. (once_has_meaning T.means.of x).0;
      is = λ x. (once_has_meaning T.means.of x).1;
    } };
}

impl<E: Env, T: PagableSerialize<E>> PagableSerialize<E> for OnceLock<T> {
    ghost write_causes = { writes_memory_or T.write_causes };

    /// Appends the value that the lock holds now, or that it holds none, as an `Option`.
    fn pagable_serialize<S: PagableSerializer<E>>(&self, serializer: &mut S) -> Result<(), Error> {
        let held = value_in(self);
        PagableSerialize::<E>::pagable_serialize(&held, serializer)
    }
}

impl<'de, E: Env, T: PagableDeserialize<'de, E> + Drop> PagableDeserialize<'de, E> for OnceLock<T> {
    ghost read_causes = { T.read_causes };

    /// Reads an `Option`. The lock is set exactly if there was a value.
    fn pagable_deserialize<D: PagableDeserializer<E>>(
        alloc: Global,
        deserializer: &mut D,
    ) -> Result<Self, Error> {
        let held = <Option<T>>::pagable_deserialize(alloc, deserializer)?;
        Ok(once_lock_of(held))
    }
}
