//! Raw references: a reference by the number of its kind, without the type of its value.

ghost use Rattle.pagable_traits.specs.{
  Clauses.{Reads, Wrote, value as form},
  Meanings.exactly,
  References.{plain_means, raw_reference, reference_has_one_form},
};
ghost use Rattle.pagable_value_spec.specs.{
  Cursor.{Is, IsLent},
  Meaning.reference as meaning_of,
  Outcomes.{IsOutOfMemory, no_own_causes},
  Reading.read,
  Shape.reference as reference_shape,
};
ghost use Rattle.std.specs.Prelude.{IfNone, IfOk, IfSome, Some, ◌≡◌, ◌≢◌};

use crate::{Canonical, Carried, OneMeaning, PagableDeserialize, PagableSerialize};
use pagable_codec::{
    ArcRef, Env, HandleNumber, Kind, NodeNumber, PagableDeserializer, PagableSerializer,
};
use pagable_flavors::Error;
use std::alloc::Global;

/// Writes a reference: appends it to the list of references, and writes no byte.
///
/// # Errors
///
/// - `OutOfMemory` only.
#[tactic(auto, using(pagable_codec::proofs::Writing::parts, pagable_codec::proofs::Writing::references))]
pub fn write_reference<E: Env, S: PagableSerializer<E>>(
    reference: ArcRef,
    serializer: &mut S,
) -> Result<(), Error>
    ensures { Wrote E.Env S.PagableSerializer (form (Is meaning_of reference)
        (reference_shape reference.kind.0)) IsOutOfMemory
        serializer.old serializer.new result }
{
    serializer.serialize_arc(reference)
}

/// Reads the next reference, as one of this kind. The key counts as read even if this fails.
///
/// # Errors
///
/// - `NoMoreKeys` if no key is left.
/// - an error of the reference itself.
#[tactic(auto, unfolding(pagable_value_spec::specs::Reading::read, pagable_value_spec::specs::Reading::read_with), using(pagable_codec::proofs::Reading::parts))]
pub fn read_reference<E: Env, D: PagableDeserializer<E>>(
    kind: Kind,
    deserializer: &mut D,
) -> Result<ArcRef, Error>
    ensures of_kind { IfOk result (λ r. r.kind ≡ kind) }
    ensures lent { IfOk result (λ r. (y : E.Node) → D.lends deserializer.new r ≡ Some y
        → IsLent (D.input_state deserializer.old) r y) }
    ensures reads { Reads E.Env D.PagableDeserializer no_own_causes (Is meaning_of)
        (λ c. read c (reference_shape kind.0))
        deserializer.old deserializer.new result }
{
    let reference = deserializer.deserialize_arc(kind)?;
    Ok(reference)
}

/// A reference of the kind `KIND`, for a type that can name the kind only by its number, such as
/// one that refers to its own type.
#[derive(Clone, Copy, Debug, PartialEq, Eq)]
pub struct RawRef<const KIND: u32> {
    node: NodeNumber,
    handle: HandleNumber,
}

impl<const KIND: u32> RawRef<KIND> {
    /// Returns `reference` as a raw one, or None if it is of another kind.
    pub fn from_reference(reference: ArcRef) -> Option<RawRef<KIND>>
        ensures some { IfSome result (λ a. raw_reference KIND a ≡ reference) }
        ensures none { IfNone result (reference.kind.0 ≢ KIND) }
    {
        if reference.kind.0 != KIND {
            return None;
        }
        Some(RawRef {
            node: reference.node,
            handle: reference.handle,
        })
    }

    /// Returns the reference with its kind.
    pub fn reference(&self) -> ArcRef
        ensures { result ≡ raw_reference KIND self.now }
    {
        ArcRef {
            kind: Kind(KIND),
            node: self.node,
            handle: self.handle,
        }
    }
}

impl<E: Env, const KIND: u32> Carried<E> for RawRef<KIND> {
    ghost shape = { λ e. reference_shape KIND };

    ghost means = { exactly (plain_means KIND) };
}

impl<E: Env, const KIND: u32> OneMeaning<E> for RawRef<KIND> {
    ghost single = { λ a m is. is };
}

impl<E: Env, const KIND: u32> Canonical<E> for RawRef<KIND> {
    ghost one_form = { λ e. reference_has_one_form (E.parts e) KIND };
}

impl<E: Env, const KIND: u32> PagableSerialize<E> for RawRef<KIND> {
    fn pagable_serialize<S: PagableSerializer<E>>(&self, serializer: &mut S) -> Result<(), Error> {
        write_reference(self.reference(), serializer)
    }
}

impl<'de, E: Env, const KIND: u32> PagableDeserialize<'de, E> for RawRef<KIND> {
    #[tactic(auto, using(crate::proofs::Listed::gave_held))]
    fn pagable_deserialize<D: PagableDeserializer<E>>(
        _alloc: Global,
        deserializer: &mut D,
    ) -> Result<Self, Error> {
        let reference = read_reference(Kind(KIND), deserializer)?;
        Ok(RawRef {
            node: reference.node,
            handle: reference.handle,
        })
    }
}
