//! Static values: a registry of the environment holds them, and each is written as its index there.
//! `T` is itself the reference to what is static, such as `&'static str`: nothing is proved yet for
//! a `&'static X` with a type parameter `X`.

ghost use Rattle.pagable_traits.specs.{
  Clauses.{Reads, Wrote, value as form},
  Meanings.exactly,
  OwnCauses.writes_memory_or,
  StaticValues.{static_is_same, static_refers_to_nothing, writes_unregistered},
};
ghost use Rattle.pagable_value_spec.specs.{
  BasicValues.longest,
  Canonical.HasNoReference,
  Cursor.{HoldsLentValues, Is},
  Lengths.long_or_memory,
  Meaning.{Meaning, lifted},
  Outcomes.{MatchesReading, memory_or, no_own_causes},
  Reading.{read, registered},
  Shape.static_value,
  Statics.{HasEqual, NoEqualBelow, StandsAt, meanings_of, unregistered},
};
ghost use Rattle.std.specs.{
  List.{Sorted.{IsPermutation, IsSorted, IsStable}, slice_get},
  Prelude.{Err, IfErr, IfNone, IfOk, IfSome, IsTrue, List, Option, Some, length, map, vec_len, ◌<◌, ◌↔◌, ◌≡◌, ◌≤◌},
};

use crate::keys::PagableKey;
use crate::traits::{Carried, OneMeaning, PagableDeserialize, PagableSerialize};
use pagable_codec::{Env, PagableDeserializer, PagableSerializer};
use pagable_flavors::Error;
use std::alloc::{AllocError, Global};
use std::fmt;
use std::hash::Hash;
use std::marker::Model;
use std::ops::Deref;

/// The greatest number of entries of one registry: an index has 32 bits.
const MOST_ENTRIES: usize = 4_294_967_295;

/// A value and its index in its registry. Two entries are equal if their values are.
#[derive_where(PartialEq, Eq, Hash; T)]
#[derive_where(Clone, Copy; T: Copy)]
pub struct StaticValueEntry<T> {
    pub value: T,
    #[derive_where(skip)]
    pub index: u32,
}

/// A value that is written as its index. Two are equal if their values are, whatever their indices.
#[derive(PartialEq, Eq, Hash)]
#[derive_where(Clone, Copy; T: Copy)]
pub struct StaticValue<T>(pub StaticValueEntry<T>);

impl<T: Copy> StaticValue<T> {
    /// Returns the value.
    pub fn value(self) -> T
        ensures { result ≡ self.0.value }
    {
        self.0.value
    }
}

impl<T> Deref for StaticValue<T> {
    type Target = T;

    ghost deref_gives = { λ x t. t ≡ x.0.value };

    fn deref(&self) -> &T {
        &self.0.value
    }
}

impl<T: fmt::Display> fmt::Display for StaticValue<T> {
    ghost output = { λ v. T.output v.0.value };

    ghost styled_output = { λ v. T.styled_output v.0.value };

    fn fmt<W: fmt::Write>(&self, f: &mut fmt::Formatter<W>) -> fmt::Result {
        fmt::Display::fmt(&self.0.value, f)
    }
}

impl<T: fmt::Debug> fmt::Debug for StaticValue<T> {
    ghost debug_output = { λ v. T.debug_output v.0.value };

    fn fmt<W: fmt::Write>(&self, f: &mut fmt::Formatter<W>) -> fmt::Result {
        fmt::Debug::fmt(&self.0.value, f)
    }
}

/// A static text.
pub type StaticStr = StaticValue<&'static str>;

impl StaticStr {
    /// Returns the text.
    pub fn as_str(self) -> &'static str
        ensures { result ≡ self.entry.0.value }
    {
        self.0.value
    }
}

/// Static bytes.
pub type StaticBytes = StaticValue<&'static [u8]>;

impl StaticBytes {
    /// Returns the static bytes, as `value` does.
    pub fn as_bytes(self) -> &'static [u8]
        ensures { result ≡ self.entry.0.value }
    {
        self.0.value
    }
}

/// The static values of a type in their order; the first has the index 0.
#[derive(Drop)]
pub struct StaticValueRegistry<T> {
    values: Vec<T>,
}

impl<T> Model for StaticValueRegistry<T> {
    ghost Value = { List T };

    ghost view = { λ r. r.values.items };

    ghost invariant = { λ r. vec_len r.values ≤ longest };
}

// Returns the values of these entries, without their indices.
fn values_of<T: Copy>(alloc: Global, entries: &[StaticValueEntry<T>]) -> Result<Vec<T>, AllocError>
    ensures { IfOk result (λ v. v.items ≡ map (λ e. e.value) entries.now) }
{
    entries.iter().map(|entry| entry.value).collect(alloc)
}

impl<T: Copy> StaticValueRegistry<T> {
    /// Makes the registry of these values in ascending order, equal ones in the order given. A
    /// value's index is its place in that order, from 0 on; the index in its entry is ignored.
    ///
    /// # Errors
    ///
    /// - `TooLong` above 4,294,967,295 entries.
    /// - `OutOfMemory`.
    #[tactic(auto, using(std::proofs::lemmas::List::Sorted::length_permutation, crate::proofs::Registered::lengths))]
    pub fn from_entries(alloc: Global, entries: Vec<StaticValueEntry<T>>) -> Result<Self, Error>
    where
        T: Ord,
        ensures values { IfOk result (λ r. IsPermutation (map (λ e. e.value) entries.items) r) }
        ensures sorted { IfOk result (λ r. IsSorted T.cmp r) }
        ensures stable { IfOk result (λ r. IsStable T.cmp (map (λ e. e.value) entries.items) r) }
        ensures few { IfOk result (λ r. length r ≤ longest) }
        ensures only { IfErr result (long_or_memory (vec_len entries)) }
    {
        if entries.len() > MOST_ENTRIES {
            return Err(Error::TooLong);
        }
        let mut values = values_of(alloc, &entries)?;
        values.sort()?;
        Ok(StaticValueRegistry { values })
    }

    /// Returns the value under this index, with the index, or None if the index has no value.
    pub fn get(&self, index: u32) -> Option<StaticValue<T>>
        ensures found { IfSome result (λ v. (v.0.index ≡ index) × (slice_get self.now index ≡ Some v.0.value)) }
        ensures missing { IfNone result (length self.now ≤ index) }
    {
        let place = index as usize;
        if place >= self.values.len() {
            return None;
        }
        let value = self.values[place];
        Some(StaticValue(StaticValueEntry { value, index }))
    }

    /// Returns the least index under which the registry has a value equal to this one, or None if
    /// it has none.
    pub fn index_of(&self, value: &T) -> Option<u32>
    where
        T: PartialEq,
        ensures equal { IfSome result (HasEqual T.eq value.now self.now) }
        ensures least { IfSome result (NoEqualBelow T.eq value.now self.now) }
        ensures missing { IfNone result (NoEqualBelow T.eq value.now self.now (length self.now)) }
    {
        let place = first_equal(&self.values, value)?;
        Some(place as u32)
    }
}

/// Returns the first place in `values` of a value equal to `value`, or None if there is none.
#[tactic(auto, using(crate::proofs::Registered::finding))]
fn first_equal<T: PartialEq>(values: &[T], value: &T) -> Option<usize>
    ensures within { IfSome result (λ i. i < length values.now) }
    ensures equal { IfSome result (HasEqual T.eq value.now values.now) }
    ensures least { IfSome result (NoEqualBelow T.eq value.now values.now) }
    ensures missing { IfNone result (NoEqualBelow T.eq value.now values.now (length values.now)) }
{
    for place in 0..values.len() {
        if *value == values[place] {
            return Some(place);
        }
    }
    None
}

/// A type whose values are in a registry of the environment.
pub trait HasStaticValueRegistry<E: Env>: Ord + Copy + Sized {
    // What a value means: a meaning without references.
    ghost plain_meaning: { Self → Meaning ⊥ };

    // The registered values, by their index.
    ghost registered_values: { E → List Self };

    /// Returns the registry of this type in the environment.
    fn registry(env: &E) -> &StaticValueRegistry<Self>
        ensures { result.now ≡ registered_values env.now };

    // Values are equal exactly if they mean the same.
    ghost same_meaning: { (x y : Self) → IsTrue (Self.eq x y) → plain_meaning x ≡ plain_meaning y };

    ghost same_value: { (x y : Self) → plain_meaning x ≡ plain_meaning y → IsTrue (Self.eq x y) };

    ghost holds_no_reference: { (x : Self) → HasNoReference (plain_meaning x) };
}

/// Returns the value that the environment's registry has under this index.
///
/// # Errors
///
/// - `BadStaticIndex` if the index has no value.
#[tactic(auto, using(crate::proofs::Registered::steps))]
pub fn registered_value<E: Env, T: HasStaticValueRegistry<E>>(
    index: u32,
    env: &E,
) -> Result<StaticValue<T>, Error>
    ensures gives { MatchesReading no_own_causes (λ v. T.plain_meaning v.0.value) result
        (registered (meanings_of T.plain_meaning (T.registered_values env.now)) index) }
    ensures same_index { IfOk result (λ v. v.0.index ≡ index) }
{
    T::registry(env).get(index).ok_or(Error::BadStaticIndex)
}

/// Returns whether the environment's registry has, under the index of this static value, a value
/// equal to it. An equal value under another index doesn't count.
#[tactic(auto, using(crate::proofs::Registered::steps))]
pub fn is_registered<E: Env, T: HasStaticValueRegistry<E>>(value: &StaticValue<T>, env: &E) -> bool
    ensures { IsTrue result ↔ StandsAt T.plain_meaning (T.registered_values env.now) value.now.0.value
        value.now.0.index }
{
    match T::registry(env).get(value.0.index) {
        None => false,
        Some(known) => *value == known,
    }
}

impl<E: Env, T: HasStaticValueRegistry<E>> Carried<E> for StaticValue<T> {
    ghost shape = { λ e. static_value (meanings_of T.plain_meaning (T.registered_values e)) };

    ghost means = { exactly (λ v. lifted (T.plain_meaning v.0.value)) };
}

impl<E: Env, T: HasStaticValueRegistry<E>> OneMeaning<E> for StaticValue<T> {
    ghost single = { λ v m is. is };
}

/// Two static values are the same key if their values are equal, whatever their indices.
impl<E: Env, T: HasStaticValueRegistry<E>> PagableKey<E> for StaticValue<T> {
    ghost key = { record {
      same = λ x y. static_is_same T.eq T.plain_meaning T.same_meaning T.same_value x.0.value y.0.value;
      refers_to_nothing = λ e. static_refers_to_nothing (E.parts e)
          (meanings_of T.plain_meaning (T.registered_values e));
    } };
}

impl<E: Env, T: HasStaticValueRegistry<E>> PagableSerialize<E> for StaticValue<T> {
    ghost write_causes = { writes_memory_or writes_unregistered };

    /// Appends the index.
    ///
    /// # Errors
    ///
    /// - `Unregistered` exactly if the environment's registry has no equal value under the index.
    /// - `OutOfMemory`.
    #[tactic(auto, using(pagable_codec::proofs::Writing::parts, crate::proofs::Registered::writes_static))]
    fn pagable_serialize<S: PagableSerializer<E>>(&self, serializer: &mut S) -> Result<(), Error>
        ensures wrote { Wrote E.Env S.PagableSerializer
            (form (Is (λ v. lifted (T.plain_meaning v.0.value)) self.now)
            (static_value (meanings_of T.plain_meaning (T.registered_values (S.environment serializer.old)))))
            (memory_or unregistered) serializer.old serializer.new result }
        ensures unregistered { IfErr result (λ e. e ≡ Error.Unregistered
            → ¬ StandsAt T.plain_meaning (T.registered_values (S.environment serializer.old)) self.now.0.value
            self.now.0.index) }
        ensures missing { ¬ StandsAt T.plain_meaning (T.registered_values (S.environment serializer.old))
            self.now.0.value self.now.0.index → result ≡ Err Error.Unregistered }
    {
        if !is_registered(self, serializer.env()) {
            return Err(Error::Unregistered);
        }
        serializer.serde().write_u32(self.0.index)
    }
}

impl<'de, E: Env, T: HasStaticValueRegistry<E>> PagableDeserialize<'de, E> for StaticValue<T> {
    /// Reads an index, and returns the value that the environment's registry has under it, with
    /// that index, so it can be written again.
    ///
    /// # Errors
    ///
    /// - `BadStaticIndex` if the index has no value.
    /// - a fault of the input.
    #[tactic(auto, unfolding(pagable_value_spec::specs::Reading::read, pagable_value_spec::specs::Reading::read_with), using(pagable_codec::proofs::Reading::parts))]
    fn pagable_deserialize<D: PagableDeserializer<E>>(
        alloc: Global,
        deserializer: &mut D,
    ) -> Result<Self, Error>
        ensures reads { Reads E.Env D.PagableDeserializer no_own_causes (Is (λ v. lifted (T.plain_meaning v.0.value)))
            (λ c. read c (static_value (meanings_of T.plain_meaning
            (T.registered_values (D.environment deserializer.old))))) deserializer.old deserializer.new result }
        ensures holds { IfOk result (HoldsLentValues (D.input_state deserializer.old) (λ v r y. Unit {0})) }
        ensures registered { IfOk result (λ v. StandsAt T.plain_meaning
            (T.registered_values (D.environment deserializer.old)) v.0.value v.0.index) }
    {
        let index = <u32 as PagableDeserialize<E>>::pagable_deserialize(alloc, deserializer)?;
        let value = registered_value::<E, T>(index, deserializer.env())?;
        Ok(value)
    }
}
