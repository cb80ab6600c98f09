//! Collections, whose items are read and written one after another: the trait of the collections
//! that a reader fills, and writers of the items that an iterator yields.

ghost use Rattle.pagable_traits.specs.{
  Clauses.{Reads, Wrote},
  HeldValues.CollectsHeld,
  Walks.{counted_forms, yielded_forms},
};
ghost use Rattle.pagable_value_spec.specs.{
  Collected.Collected,
  Cursor.MovesOn,
  Outcomes.{IsOutOfMemory, long_or, memory_or},
  Reading.{counted, items, read},
};
ghost use Rattle.std.specs.{Iterator.IsFinite, Prelude.{IfErr, IfOk, List, OnOk, length, min, ℕ, [], ◌≡◌, ◌≤◌}};

use crate::traits::{PagableDeserialize, PagableSerialize};
use pagable_codec::parts::{items_to_reserve, read_count, write_count};
use pagable_codec::{Env, PagableDeserializer, PagableSerializer};
use pagable_flavors::Error;
use std::alloc::Global;

/// A collection that a reader fills item by item.
pub trait Collects<T>: Sized {
    // The items that a collection holds, in their order.
    ghost held: { Self → List T };

    // Relates the items before `put_in`, the added item, and the items after the call.
    ghost puts: { List T → T → List T → Type 0 };

    // Says that a collection has room reserved for this many more items. By default it says
    // nothing, which fits a collection that reserves no room.
    ghost has_room: { Self → ℕ → Type 0 } = { λ c n. Unit {0} };

    /// Creates an empty collection with room for `places` items, if it reserves room. `places` is
    /// at most the number of bytes left to read, so a count alone reserves no memory.
    ///
    /// # Errors
    ///
    /// - `OutOfMemory` only.
    fn with_places<E: Env, D: PagableDeserializer<E>>(
        alloc: Global,
        places: usize,
        deserializer: &D,
    ) -> Result<Self, Error>
        requires { places ≤ length (D.rest deserializer.now).bytes }
        ensures empty { IfOk result (λ c. held c ≡ []) }
        ensures room { IfOk result (λ c. has_room c places) }
        ensures only { IfErr result IsOutOfMemory };

    /// Adds one item.
    ///
    /// # Errors
    ///
    /// - `OutOfMemory` only.
    fn put_in(&mut self, item: T) -> Result<(), Error>
        ensures ok { OnOk result (puts (held self.old) item (held self.new)) }
        ensures only { IfErr result IsOutOfMemory };
}

/// Creates an empty collection, by `with_places`, for `count` items, but at most for as many as
/// bytes are left.
///
/// # Errors
///
/// - `OutOfMemory` only.
pub fn with_room<E: Env, T, C: Collects<T>, D: PagableDeserializer<E>>(
    alloc: Global,
    count: usize,
    deserializer: &mut D,
) -> Result<C, Error>
    ensures empty { IfOk result (λ c. C.held c ≡ []) }
    ensures room { IfOk result (λ c. C.has_room c (min count (length (D.rest deserializer.old).bytes))) }
    ensures only { IfErr result IsOutOfMemory }
    ensures same_rest { D.rest deserializer.new ≡ D.rest deserializer.old }
    ensures moves { MovesOn (D.input_state deserializer.old) (D.input_state deserializer.new) }
    ensures same_env { D.environment deserializer.new ≡ D.environment deserializer.old }
    ensures same_levels { D.levels deserializer.new ≡ D.levels deserializer.old }
{
    let places = items_to_reserve(count, deserializer);
    C::with_places(alloc, places, deserializer)
}

/// Reads `count` items and adds each to a collection made by `with_room`. So room is reserved for
/// at most as many items as bytes are left; more are read only if some take no byte.
///
/// # Errors
///
/// - the first error of an item.
/// - `OutOfMemory`.
#[tactic(auto, using(crate::proofs::JsonSteps::no_room))]
pub fn collect_items<
    'de,
    E: Env,
    T: PagableDeserialize<'de, E>,
    C: Collects<T> + Drop,
    D: PagableDeserializer<E>,
>(alloc: Global, count: usize, deserializer: &mut D) -> Result<C, Error>
    ensures reads { Reads E.Env D.PagableDeserializer (memory_or T.read_causes.are)
        (λ c. Collected T.means.of C.puts (C.held c)) (λ x. items (read x (T.shape (D.environment deserializer.old)))
        count) deserializer.old deserializer.new result }
    ensures holds { IfOk result (λ c. CollectsHeld (D.input_state deserializer.old) T.beside C.puts (C.held c)) }
{
    let mut collected: C = with_room(alloc, count, deserializer)?;
    for index in 0..count {
        let value = T::pagable_deserialize(alloc, deserializer)?;
        collected.put_in(value)?;
    }
    Ok(collected)
}

/// Reads how many items follow, and then the items, as `collect_items` does.
///
/// # Errors
///
/// - `TooLong` if the count is above 4,294,967,295.
/// - as `collect_items`.
#[tactic(auto, using(crate::proofs::Parts::reads, crate::proofs::Lent::collected_so))]
pub fn read_collected<
    'de,
    E: Env,
    T: PagableDeserialize<'de, E>,
    C: Collects<T> + Drop,
    D: PagableDeserializer<E>,
>(alloc: Global, deserializer: &mut D) -> Result<C, Error>
    ensures reads { Reads E.Env D.PagableDeserializer (memory_or T.read_causes.are)
        (λ c. Collected T.means.of C.puts (C.held c)) (λ x. counted (read x (T.shape (D.environment deserializer.old))))
        deserializer.old deserializer.new result }
    ensures holds { IfOk result (λ c. CollectsHeld (D.input_state deserializer.old) T.beside C.puts (C.held c)) }
{
    let count = read_count(deserializer)?;
    collect_items(alloc, count, deserializer)
}

/// Writes each item that the iterator yields, without their count.
///
/// # Errors
///
/// - the first error of an item.
pub fn write_each<
    E: Env,
    T: PagableSerialize<E> + Drop,
    W: Iterator<Item = T>,
    S: PagableSerializer<E>,
>(walk: W, serializer: &mut S) -> Result<(), Error>
    requires can_next { W.can_next walk }
    requires ends { IsFinite (W.remaining walk) }
    ensures { Wrote E.Env S.PagableSerializer (yielded_forms W.next_gives T.means.of walk
        (T.shape (S.environment serializer.old))) T.write_causes.are serializer.old serializer.new result }
{
    for item in walk {
        item.pagable_serialize(serializer)?;
    }
    Ok(())
}

/// Writes a count, and then each item that the iterator yields.
///
/// # Errors
///
/// - `TooLong` if the count is above 4,294,967,295: nothing of the items is written.
/// - the first error of an item.
/// - `OutOfMemory`.
#[tactic(auto, using(crate::proofs::Items::writes))]
pub fn write_counted<
    E: Env,
    T: PagableSerialize<E> + Drop,
    W: Iterator<Item = T>,
    S: PagableSerializer<E>,
>(count: usize, walk: W, serializer: &mut S) -> Result<(), Error>
    requires can_next { W.can_next walk }
    requires ends { IsFinite (W.remaining walk) }
    ensures { Wrote E.Env S.PagableSerializer (counted_forms W.next_gives T.means.of walk count
        (T.shape (S.environment serializer.old))) (long_or (memory_or T.write_causes.are))
        serializer.old serializer.new result }
{
    write_count(count, serializer)?;
    write_each(walk, serializer)
}
