//! Writers of JSON values: they write the case (null, flag, number, text, array or object) and then
//! the content. What an array or an object holds is one level deeper; a writer enters the level
//! after it has written the length.

ghost use Rattle.pagable_traits.specs.{
  Clauses.{Wrote, bytes, case_and_length, item_forms, nested_in, value as form},
  JsonData.{long_or_no_memory, of_key, of_value},
  JsonFaults.{EntryFault, Fault, ItemFault, MemberFault, json_of_value, refused_as},
  OwnCauses.writes_json,
};
ghost use Rattle.pagable_value_spec.specs.{
  Composite.{MeanAll, MeansPair},
  Cursor.Is,
  Numbers.unsigned_form,
  Outcomes.{IsOutOfMemory, json_causes},
  Refusals.is_writing_fault,
  Shape.{both, json, text},
};
ghost use Rattle.serde_json.specs.{
  Data.{array, boolean, number, object, string},
  View.{items_view, members_view, number_view, view},
};
ghost use Rattle.std.specs.{Int.w64, Prelude.{IfErr, IsTrue}, String.string_bytes};
ghost use Rattle.serde_json.specs.declared.value.Value as values;

use crate::traits::PagableSerialize;
use pagable_codec::{Env, PagableSerializer, parts};
use pagable_flavors::Error;
use serde_json::{Number, Value};
use std::collections::BTreeMap;

impl<E: Env> PagableSerialize<E> for Value {
    ghost write_causes = { writes_json };

    /// Appends the value. Fails with the value's first fault, as `write_value` does.
    fn pagable_serialize<S: PagableSerializer<E>>(&self, serializer: &mut S) -> Result<(), Error>
        ensures wrote { Wrote E.Env S.PagableSerializer (form (Is of_value self.now) json) json_causes serializer.old
            serializer.new result }
        ensures first_fault { IfErr result (λ e. IsTrue (is_writing_fault e)
            → Fault (nested_in E.Env S.PagableSerializer serializer.old) self.now e) }
    {
        write_value(self, serializer)
    }
}

// Writes the number of a JSON value's case: 0 for null, up to 5 for an object.
#[tactic(auto, using(pagable_codec::proofs::Writing::parts, pagable_codec::proofs::Writing::steps, crate::proofs::Parts::err_along))]
fn write_case<E: Env, S: PagableSerializer<E>>(case: usize, serializer: &mut S) -> Result<(), Error>
    ensures { Wrote E.Env S.PagableSerializer (bytes (unsigned_form w64 case)) IsOutOfMemory
        serializer.old serializer.new
        result }
{
    serializer.serde().write_usize(case)
}

// Writes the case of an array or an object, and its length. Fails with `TooLong` above
// 4,294,967,295 items or members.
#[tactic(auto, using(crate::proofs::Json::counting))]
fn write_case_and_length<E: Env, S: PagableSerializer<E>>(
    case: usize,
    count: usize,
    serializer: &mut S,
) -> Result<(), Error>
    ensures { Wrote E.Env S.PagableSerializer (case_and_length case count)
        (long_or_no_memory count) serializer.old serializer.new result }
{
    write_case(case, serializer)?;
    parts::write_count(count, serializer)
}

fn write_flag<E: Env, S: PagableSerializer<E>>(flag: bool, serializer: &mut S) -> Result<(), Error>
    ensures { Wrote E.Env S.PagableSerializer (json_of_value (values.Bool flag) (boolean flag)) json_causes
        serializer.old serializer.new result }
{
    write_case(1, serializer)?;
    flag.pagable_serialize(serializer)
}

// Writes a number. Fails with `JsonNumber`, before it has written anything, if the number isn't
// whole or isn't in the range of an `i64`.
fn write_number<E: Env, S: PagableSerializer<E>>(
    value: &Number,
    serializer: &mut S,
) -> Result<(), Error>
    ensures { Wrote E.Env S.PagableSerializer (json_of_value (values.Number value.now) (number (number_view value.now)))
        json_causes serializer.old serializer.new result }
{
    let Some(whole) = value.as_i64() else {
        return Err(Error::JsonNumber);
    };
    write_case(2, serializer)?;
    parts::write_flag(false, serializer)?;
    whole.pagable_serialize(serializer)
}

// Writes a text. Fails with `TooLong` above 4,294,967,295 bytes.
fn write_text<E: Env, S: PagableSerializer<E>>(
    text: &String,
    serializer: &mut S,
) -> Result<(), Error>
    ensures { Wrote E.Env S.PagableSerializer (json_of_value (values.String text.now) (string (string_bytes text.now)))
        json_causes serializer.old serializer.new result }
{
    write_case(3, serializer)?;
    text.pagable_serialize(serializer)
}

/// Writes a JSON value.
///
/// # Errors
///
/// The writer returns the first of these that it meets from the front. It checks an array or an
/// object in this order: its length, its level, its items or members.
///
/// - `TooLong` above 4,294,967,295 bytes, items or members.
/// - `JsonNumber` for a float, or a whole number that isn't in the range of an `i64`.
/// - `TooDeep` for an array or an object if 128 levels are entered.
///
/// Or `OutOfMemory`.
#[cycle(writing_json)]
pub fn write_value<E: Env, S: PagableSerializer<E>>(
    value: &Value,
    serializer: &mut S,
) -> Result<(), Error>
    ensures { Wrote E.Env S.PagableSerializer (json_of_value value.now (view value.now)) json_causes serializer.old
        serializer.new result }
{
    match value {
        Value::Null => write_case(0, serializer),
        Value::Bool(flag) => write_flag(*flag, serializer),
        Value::Number(number) => write_number(number, serializer),
        Value::String(text) => write_text(text, serializer),
        Value::Array(items) => write_array(items, serializer),
        Value::Object(members) => write_object(members, serializer),
    }
}

#[cycle(writing_json)]
fn write_array<E: Env, S: PagableSerializer<E>>(
    items: &Vec<Value>,
    serializer: &mut S,
) -> Result<(), Error>
    ensures { Wrote E.Env S.PagableSerializer (json_of_value (values.Array items.now)
        (array (items_view items.now.items))) json_causes serializer.old serializer.new result }
{
    write_case_and_length(4, items.len(), serializer)?;
    serializer.enter()?;
    let done = write_items(items, serializer);
    serializer.leave();
    done
}

#[cycle(writing_json)]
fn write_items<E: Env, S: PagableSerializer<E>>(
    items: &Vec<Value>,
    serializer: &mut S,
) -> Result<(), Error>
    ensures { Wrote E.Env S.PagableSerializer (refused_as (λ n. ItemFault n items.now.items)
        (item_forms (MeanAll (Is of_value) items.now.items) json)) json_causes serializer.old serializer.new result }
{
    for item in items {
        write_value(item, serializer)?;
    }
    Ok(())
}

#[cycle(writing_json)]
fn write_object<E: Env, S: PagableSerializer<E>>(
    members: &BTreeMap<String, Value>,
    serializer: &mut S,
) -> Result<(), Error>
    ensures { Wrote E.Env S.PagableSerializer (json_of_value (values.Object members.now)
        (object (members_view members.now.entries))) json_causes serializer.old serializer.new result }
{
    write_case_and_length(5, members.len(), serializer)?;
    serializer.enter()?;
    let done = write_members(members, serializer);
    serializer.leave();
    done
}

// Writes the members of an object in the order of their keys, in which the map keeps them.
#[cycle(writing_json)]
fn write_members<E: Env, S: PagableSerializer<E>>(
    members: &BTreeMap<String, Value>,
    serializer: &mut S,
) -> Result<(), Error>
    ensures { Wrote E.Env S.PagableSerializer (refused_as (λ n. MemberFault n members.now.entries)
        (item_forms (MeanAll (MeansPair (Is of_key) (Is of_value)) members.now.entries) (both text json))) json_causes
        serializer.old serializer.new result }
{
    for (key, value) in members.iter() {
        write_member(key, value, serializer)?;
    }
    Ok(())
}

#[cycle(writing_json)]
fn write_member<E: Env, S: PagableSerializer<E>>(
    key: &String,
    value: &Value,
    serializer: &mut S,
) -> Result<(), Error>
    ensures { Wrote E.Env S.PagableSerializer (refused_as (λ n. EntryFault n key.now value.now)
        (form (MeansPair (Is of_key) (Is of_value) (key.now, value.now)) (both text json))) json_causes serializer.old
        serializer.new result }
{
    key.pagable_serialize(serializer)?;
    write_value(value, serializer)
}
