//! Readers of JSON values: they read the case (null, flag, number, text, array or object) and then
//! the content. What an array or an object holds is one level deeper; a reader enters the level
//! after it has read the length.

ghost use Rattle.pagable_traits.specs.{
  Clauses.{ObjectOf, Reads, value_after_case},
  JsonData.{of_key, of_value},
  Meanings.exactly,
  OwnCauses.reads_memory,
};
ghost use Rattle.pagable_value_spec.specs.{
  Composite.MeansPair,
  Cursor.{Is, MovesOn},
  Meaning.{sequence, variant},
  Numbers.unsigned_at,
  Outcomes.{IsOutOfMemory, MatchesReading, no_own_causes},
  Reading.{array_case, bytes_of, items as items_at, object_case, read, seen},
  Shape.{both, json, text},
};
ghost use Rattle.std.specs.{Int.w64, Prelude.{length, [], ◌≡◌, ◌≤◌}, Vec.vec_capacity};

use crate::impls::collecting::with_room;
use crate::traits::{Carried, OneMeaning, PagableDeserialize};
use pagable_codec::parts::{read_count, read_flag};
use pagable_codec::{Env, PagableDeserializer, Reader};
use pagable_flavors::Error;
use serde_json::Value;
use std::alloc::Global;
use std::collections::BTreeMap;

impl<E: Env> Carried<E> for Value {
    ghost shape = { λ e. json };

    ghost means = { exactly of_value };
}

impl<E: Env> OneMeaning<E> for Value {
    ghost single = { λ v m is. is };
}

impl<'de, E: Env> PagableDeserialize<'de, E> for Value {
    ghost read_causes = { reads_memory };

    fn pagable_deserialize<D: PagableDeserializer<E>>(
        alloc: Global,
        deserializer: &mut D,
    ) -> Result<Self, Error> {
        read_value(alloc, deserializer)
    }
}

// Reads the number of a JSON value's case: 0 for null, up to 5 for an object; it isn't checked.
fn read_case<E: Env, D: PagableDeserializer<E>>(deserializer: &mut D) -> Result<usize, Error>
    ensures gives { MatchesReading no_own_causes (λ n. (n, D.rest deserializer.new)) result
        (bytes_of (unsigned_at w64) (λ n. n) (D.rest deserializer.old)) }
    ensures moves { MovesOn (D.input_state deserializer.old) (D.input_state deserializer.new) }
    ensures same_env { D.environment deserializer.new ≡ D.environment deserializer.old }
    ensures same_levels { D.levels deserializer.new ≡ D.levels deserializer.old }
{
    deserializer.serde().read_usize()
}

/// Reads a JSON value.
///
/// # Errors
///
/// - `JsonCase` if the case is above 5.
/// - `JsonNumber` if a number is a float.
/// - `TooDeep` for an array or an object if 128 levels are entered.
/// - the errors of the value's parts.
#[cycle(reading_json)]
#[tactic(auto, unfolding(pagable_value_spec::specs::Reading::read, pagable_value_spec::specs::Reading::read_with), using(crate::proofs::Json::read_cases))]
pub fn read_value<E: Env, D: PagableDeserializer<E>>(
    alloc: Global,
    deserializer: &mut D,
) -> Result<Value, Error>
    ensures { Reads E.Env D.PagableDeserializer IsOutOfMemory (Is of_value) (λ c. read c json) deserializer.old
        deserializer.new result }
{
    let case = read_case(deserializer)?;
    match case {
        0 => Ok(Value::Null),
        1 => {
            let flag = bool::pagable_deserialize(alloc, deserializer)?;
            Ok(Value::Bool(flag))
        }
        2 => {
            if read_flag(deserializer)? {
                return Err(Error::JsonNumber);
            }
            let whole = i64::pagable_deserialize(alloc, deserializer)?;
            Ok(Value::from(whole))
        }
        3 => {
            let text = String::pagable_deserialize(alloc, deserializer)?;
            Ok(Value::String(text))
        }
        4 => read_array(alloc, deserializer),
        5 => read_object(alloc, deserializer),
        _ => Err(Error::JsonCase),
    }
}

// Reads a JSON array, after its case: its length, and then its items.
#[cycle(reading_json)]
#[tactic(auto, using(crate::proofs::Json::read_parts))]
fn read_array<E: Env, D: PagableDeserializer<E>>(
    alloc: Global,
    deserializer: &mut D,
) -> Result<Value, Error>
    ensures { Reads E.Env D.PagableDeserializer IsOutOfMemory (Is of_value)
        (value_after_case array_case) deserializer.old deserializer.new result }
{
    let count = read_count(deserializer)?;
    deserializer.enter()?;
    let read = read_items(alloc, count, deserializer);
    deserializer.leave();
    read
}

// Reads an array of this many items. It reserves room for at most as many items as bytes are left.
#[cycle(reading_json)]
#[tactic(auto, using(crate::proofs::JsonSteps::no_memory))]
fn read_items<E: Env, D: PagableDeserializer<E>>(
    alloc: Global,
    count: usize,
    deserializer: &mut D,
) -> Result<Value, Error>
    ensures { Reads E.Env D.PagableDeserializer IsOutOfMemory (Is of_value)
        (λ c. seen (λ ms. variant 4 (sequence ms)) (items_at (read c json) count)) deserializer.old deserializer.new
        result }
{
    let values = with_room(alloc, count, deserializer)?;
    fill_array(values, alloc, count, deserializer)
}

// Reads `count` items into an empty list, whose capacity is at most the number of bytes left.
#[cycle(reading_json)]
#[tactic(auto, using(crate::proofs::JsonSteps::no_memory))]
fn fill_array<E: Env, D: PagableDeserializer<E>>(
    mut values: Vec<Value>,
    alloc: Global,
    count: usize,
    deserializer: &mut D,
) -> Result<Value, Error>
    requires empty { values.items ≡ [] }
    requires few { vec_capacity values ≤ length (D.rest deserializer.old).bytes }
    ensures { Reads E.Env D.PagableDeserializer IsOutOfMemory (Is of_value)
        (λ c. seen (λ ms. variant 4 (sequence ms)) (items_at (read c json) count)) deserializer.old deserializer.new
        result }
{
    for index in 0..count {
        let value = read_value(alloc, deserializer)?;
        values.push(value)?;
    }
    Ok(Value::Array(values))
}

// Reads a JSON object, after its case: its length, and then its members.
#[cycle(reading_json)]
#[tactic(auto, using(crate::proofs::Json::read_parts))]
fn read_object<E: Env, D: PagableDeserializer<E>>(
    alloc: Global,
    deserializer: &mut D,
) -> Result<Value, Error>
    ensures { Reads E.Env D.PagableDeserializer IsOutOfMemory (Is of_value)
        (value_after_case object_case) deserializer.old deserializer.new result }
{
    let count = read_count(deserializer)?;
    deserializer.enter()?;
    let read = read_members(alloc, count, deserializer);
    deserializer.leave();
    read
}

// Reads `count` members of an object, and returns the object: of a repeated key the last value
// counts.
#[cycle(reading_json)]
#[tactic(auto, using(crate::proofs::JsonSteps::no_memory))]
fn read_members<E: Env, D: PagableDeserializer<E>>(
    alloc: Global,
    count: usize,
    deserializer: &mut D,
) -> Result<Value, Error>
    ensures { Reads E.Env D.PagableDeserializer IsOutOfMemory ObjectOf (λ c. items_at (read c (both text json)) count)
        deserializer.old deserializer.new result }
{
    let mut members = BTreeMap::new(alloc);
    for index in 0..count {
        let member = read_member(alloc, deserializer)?;
        let (key, value) = member;
        members.insert(key, value)?;
    }
    Ok(Value::Object(members))
}

#[cycle(reading_json)]
#[tactic(auto, unfolding(pagable_value_spec::specs::Reading::read, pagable_value_spec::specs::Reading::read_with), using(crate::proofs::Parts::reads))]
fn read_member<E: Env, D: PagableDeserializer<E>>(
    alloc: Global,
    deserializer: &mut D,
) -> Result<(String, Value), Error>
    ensures { Reads E.Env D.PagableDeserializer IsOutOfMemory (MeansPair (Is of_key) (Is of_value))
        (λ c. read c (both text json)) deserializer.old deserializer.new result }
{
    let key = String::pagable_deserialize(alloc, deserializer)?;
    let value = read_value(alloc, deserializer)?;
    Ok((key, value))
}
