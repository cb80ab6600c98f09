//! The parts of an enum's impls. An enum is encoded as the number of its case, and then the fields
//! of the case: the fields of a case with several are a tuple, and those of one without are `()`.

ghost use Rattle.pagable_nodes.specs.{
  CaseFields.ReadsFields,
  Cases.{CaseOf, Cases, MeansCase, ReadsNumber, encoding_of, is_case, reads_of, shape_of, writes_of},
};
ghost use Rattle.pagable_traits.specs.Clauses.{Reads, Wrote, bytes, value as form};
ghost use Rattle.pagable_value_spec.specs.{
  Cursor.HoldsLentValues,
  Meaning.variant,
  Numbers.unsigned_form,
  Outcomes.{IsOutOfMemory, memory_or},
  Reading.read as read_shape,
  References.references_in,
  Shape.cases,
  declared.{error.Error.Error as Refusal, numbers.ArcRef.ArcRef as Reference},
};
ghost use Rattle.std.specs.{Int.w32, Prelude.{IfErr, IfOk, OnOk, ◌++◌, ◌≡◌}};

use crate::one_node::write_with_refs;
use pagable_codec::Reader;
use pagable_flavors::Error;
use pagable_traits::{
    ArcRef, Env, PagableDeserializer, PagableSerialize, PagableSerializer, Refers,
};
use std::alloc::Global;

/// An enum whose values are encoded as the number of their case, and then the fields of the case.
pub trait HasCases: Sized {
    // How the fields of each case are encoded, those of the case 0 first.
    ghost cases: { Cases };

    // The case of a value: its number and its fields.
    ghost case_of: { Self → CaseOf cases };
}

/// An enum whose values are read by the fields of their case: `read_case` reads them behind the
/// case's number, `read_tagged_case` behind its tag.
pub trait CaseReader<E: Env>: HasCases {
    // Says that what a value holds beside this reference, wherever it holds the reference, is the
    // value of this node, as `beside` of `NodeValue` and `Carried` does.
    ghost beside: { Self → Reference → E.Node → Type 0 };

    /// Reads the fields of the case with this number.
    ///
    /// # Errors
    ///
    /// - `UnknownTag` if no case has the number: nothing is read.
    /// - as the fields' `pagable_deserialize`.
    fn read_fields<D: PagableDeserializer<E>>(
        number: u32,
        alloc: Global,
        deserializer: &mut D,
    ) -> Result<Self, Error>
        ensures reads { ReadsFields E.Env D.PagableDeserializer Self.HasCases.case_of number deserializer.old
            deserializer.new result }
        ensures holds { IfOk result (HoldsLentValues (D.input_state deserializer.old) beside) };
}

/// Appends the references in the fields of a value's case, in the order in which they are written.
///
/// # Errors
///
/// - `OutOfMemory` only: some of the references may be appended.
pub fn list_case<E: Env, V: HasCases, T: Refers<E>>(
    value: &V,
    fields: &T,
    list: &mut Vec<ArcRef>,
) -> Result<(), Error>
    requires { (V.case_of value.now).meaning ≡ T.Carried.means.meaning fields.now }
    ensures ok { OnOk result (list.new.items ≡ list.old.items
        ++ references_in (variant (V.case_of value.now).number (V.case_of value.now).meaning)) }
    ensures only { IfErr result IsOutOfMemory }
{
    let _same = value;
    fields.list_references(list)
}

/// Returns the references in the fields of a value's case, in the order in which they are written.
///
/// # Errors
///
/// - `OutOfMemory` only.
pub fn references_of_case<E: Env, V: HasCases, T: Refers<E>>(
    alloc: Global,
    value: &V,
    fields: &T,
) -> Result<Vec<ArcRef>, Error>
    requires { (V.case_of value.now).meaning ≡ T.Carried.means.meaning fields.now }
    ensures ok { IfOk result (λ list. list.items
        ≡ references_in (variant (V.case_of value.now).number (V.case_of value.now).meaning)) }
    ensures only { IfErr result IsOutOfMemory }
{
    let mut list = Vec::new(alloc);
    list_case::<E, _, _>(value, fields, &mut list)?;
    Ok(list)
}

/// Writes the number of a case, a varint. Fails with `OutOfMemory` only.
#[tactic(auto, using(pagable_codec::proofs::Writing::parts, pagable_codec::proofs::Writing::steps))]
fn write_number<E: Env, S: PagableSerializer<E>>(
    number: u32,
    serializer: &mut S,
) -> Result<(), Error>
    ensures { Wrote E.Env S.PagableSerializer (bytes (unsigned_form w32 number)) IsOutOfMemory serializer.old
        serializer.new result }
{
    serializer.serde().write_u32(number)
}

/// Writes an enum: the number of the value's case, and then the fields of the case.
///
/// # Errors
///
/// - as the fields' `pagable_serialize`.
/// - `OutOfMemory`.
pub fn write_case<E: Env, V: HasCases, T: Refers<E> + PagableSerialize<E>, S: PagableSerializer<E>>(
    value: &V,
    number: u32,
    fields: &T,
    serializer: &mut S,
) -> Result<(), Error>
    requires number { (V.case_of value.now).number ≡ number }
    requires means { (V.case_of value.now).meaning ≡ T.means.meaning fields.now }
    requires shape { shape_of V.cases number ≡ T.shape (S.environment serializer.now) }
    requires causes { (e : Refusal) → T.write_causes.are e → (encoding_of V.cases number).writes.are e }
    ensures wrote { Wrote E.Env S.PagableSerializer (form (MeansCase (V.case_of value.now))
        (cases w32 (is_case V.cases) (shape_of V.cases))) (memory_or (writes_of V.cases).are)
        serializer.old serializer.new result }
    ensures listed { OnOk result ((S.out serializer.new).refs ≡ (S.out serializer.old).refs
        ++ references_in (variant (V.case_of value.now).number (V.case_of value.now).meaning)) }
{
    let _same = value;
    write_number(number, serializer)?;
    write_with_refs(fields, serializer)
}

// Reads the number of a case. Fails as the reader's `read_u32`.
fn read_number<E: Env, D: PagableDeserializer<E>>(deserializer: &mut D) -> Result<u32, Error>
    ensures { ReadsNumber E.Env D.PagableDeserializer deserializer.old deserializer.new result }
{
    deserializer.serde().read_u32()
}

/// Reads an enum: the number of a case, and then the fields of the case.
///
/// # Errors
///
/// - `UnexpectedEnd`, `BadVarint` as the reader's `read_u32`.
/// - `UnknownTag` if no case has the number.
/// - as the fields' `pagable_deserialize`.
pub fn read_case<E: Env, V: CaseReader<E>, D: PagableDeserializer<E>>(
    alloc: Global,
    deserializer: &mut D,
) -> Result<V, Error>
    ensures reads { Reads E.Env D.PagableDeserializer (reads_of V.HasCases.cases).are
        (λ x. MeansCase (V.HasCases.case_of x))
        (λ c. read_shape c (cases w32 (is_case V.HasCases.cases) (shape_of V.HasCases.cases)))
        deserializer.old deserializer.new result }
    ensures holds { IfOk result (HoldsLentValues (D.input_state deserializer.old) V.beside) }
{
    let number = read_number(deserializer)?;
    let value = V::read_fields(number, alloc, deserializer)?;
    Ok(value)
}
