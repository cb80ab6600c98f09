//! The parts of the impls of an enum with tags. It is encoded as the tag of its case, a text, and
//! then the fields of the case, as an enum without tags encodes them.

ghost use Rattle.pagable_nodes.specs.{
  Cases.{encoding_of, reads_of, shape_of, writes_of},
  Tags.{ReadsTag, are_tags, tag_at, tag_place, tagged_shape},
};
ghost use Rattle.pagable_traits.specs.{
  Clauses.{Reads, Wrote, value as form},
  OwnCauses.reads_memory_or,
};
ghost use Rattle.pagable_value_spec.specs.{
  CarriedTypes.of_tagged,
  Cursor.HoldsLentValues,
  Outcomes.{IsOutOfMemory, long_or, memory_or},
  Reading.read as read_shape,
  References.references_in,
  Tagged.MeansTagged,
  declared.error.Error.Error as Refusal,
};
ghost use Rattle.std.specs.Prelude.{IfErr, IfOk, List, OnOk, true, ℕ, ◌++◌, ◌≡◌};

use crate::cases::{CaseReader, HasCases};
use crate::one_node::write_with_refs;
use pagable_flavors::Error;
use pagable_traits::{
    ArcRef, Env, PagableDeserialize, PagableDeserializer, PagableSerialize, PagableSerializer,
    Refers, references_of, serialize_str,
};
use std::alloc::Global;

/// An enum whose values are encoded as the tag of their case, and then the fields of the case.
pub trait HasTags: HasCases {
    // The tags of the cases, that of the case 0 first.
    ghost tags: { List (List ℕ) };

    /// Returns the number of the case with this tag, or how many cases there are if none has it.
    fn case_of_tag(tag: &str) -> u32
        ensures { result ≡ tag_place tags tag.now };

    // There is a tag for each case, and no two are equal.
    ghost fit: { are_tags Self.HasCases.cases tags ≡ true };
}

/// Returns the references in the fields of a value's case, in the order in which they are written.
///
/// # Errors
///
/// - `OutOfMemory` only.
pub fn references_of_tagged_case<E: Env, V: HasTags, T: Refers<E>>(
    alloc: Global,
    value: &V,
    fields: &T,
) -> Result<Vec<ArcRef>, Error>
    requires { (V.HasCases.case_of value.now).meaning ≡ T.Carried.means.meaning fields.now }
    ensures ok { IfOk result (λ list. list.items ≡ references_in (of_tagged (tag_at V.tags
        (V.HasCases.case_of value.now).number) (V.HasCases.case_of value.now).meaning)) }
    ensures only { IfErr result IsOutOfMemory }
{
    let _same = value;
    references_of::<E, _>(alloc, fields)
}

/// Writes an enum with tags: the tag of the value's case, which has this number, and then the fields
/// of the case.
///
/// # Errors
///
/// - as the fields' `pagable_serialize`.
/// - `TooLong` for a tag above 4,294,967,295 bytes.
/// - `OutOfMemory`.
pub fn write_tagged_case<
    E: Env,
    V: HasTags,
    T: Refers<E> + PagableSerialize<E>,
    S: PagableSerializer<E>,
>(value: &V, number: u32, tag: &str, fields: &T, serializer: &mut S) -> Result<(), Error>
    requires number { (V.HasCases.case_of value.now).number ≡ number }
    requires tag { tag.now ≡ tag_at V.tags number }
    requires means { (V.HasCases.case_of value.now).meaning ≡ T.means.meaning fields.now }
    requires shape { shape_of V.HasCases.cases number ≡ T.shape (S.environment serializer.now) }
    requires causes { (e : Refusal) → T.write_causes.are e → (encoding_of V.HasCases.cases number).writes.are e }
    ensures wrote { Wrote E.Env S.PagableSerializer (form (MeansTagged (tag_at V.tags
        (V.HasCases.case_of value.now).number) (V.HasCases.case_of value.now).means)
        (tagged_shape V.HasCases.cases V.tags)) (long_or (memory_or (writes_of V.HasCases.cases).are))
        serializer.old serializer.new result }
    ensures listed { OnOk result ((S.out serializer.new).refs ≡ (S.out serializer.old).refs
        ++ references_in (of_tagged (tag_at V.tags (V.HasCases.case_of value.now).number)
        (V.HasCases.case_of value.now).meaning)) }
{
    let _same = value;
    let _number = number;
    serialize_str(tag, serializer)?;
    write_with_refs(fields, serializer)
}

// Reads the tag of a case, and returns the case's number, or how many cases there are if none has
// the tag. Fails by the faults of a text, and with `OutOfMemory`.
fn read_tag<E: Env, V: HasTags, D: PagableDeserializer<E>>(
    alloc: Global,
    deserializer: &mut D,
) -> Result<u32, Error>
    ensures { ReadsTag E.Env D.PagableDeserializer V.tags deserializer.old deserializer.new result }
{
    let tag = <String as PagableDeserialize<E>>::pagable_deserialize(alloc, deserializer)?;
    Ok(V::case_of_tag(tag.as_str()))
}

/// Reads an enum with tags: the tag of a case, and then the fields of the case.
///
/// # Errors
///
/// - the faults of a text.
/// - `UnknownTag` if no case has the tag.
/// - as the fields' `pagable_deserialize`.
/// - `OutOfMemory`.
pub fn read_tagged_case<E: Env, V: HasTags + CaseReader<E>, D: PagableDeserializer<E>>(
    alloc: Global,
    deserializer: &mut D,
) -> Result<V, Error>
    ensures reads { Reads E.Env D.PagableDeserializer (reads_memory_or (reads_of V.HasCases.cases)).are
        (λ x. MeansTagged (tag_at V.tags (V.HasCases.case_of x).number) (V.HasCases.case_of x).means)
        (λ c. read_shape c (tagged_shape V.HasCases.cases V.tags)) deserializer.old deserializer.new result }
    ensures holds { IfOk result (HoldsLentValues (D.input_state deserializer.old) V.beside) }
{
    let number = read_tag::<E, V, D>(alloc, deserializer)?;
    let value = V::read_fields(number, alloc, deserializer)?;
    Ok(value)
}
