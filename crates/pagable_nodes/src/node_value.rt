//! The types whose values nodes hold.

ghost use Rattle.pagable_nodes.specs.Encoding.{Encoding, empty};
ghost use Rattle.pagable_traits.specs.{
  Clauses.{Reads, Wrote, value as form},
  HeldValues.only_references,
  OwnCauses.reads_memory_or,
};
ghost use Rattle.pagable_value_spec.{
  specs.{
    Cursor.HoldsLentValues,
    Outcomes.IsOutOfMemory,
    Reading.read as read_shape,
    References.references_in,
    declared.numbers.ArcRef.ArcRef as Reference,
  },
};
ghost use Rattle.std.specs.{Arc.arc_value, Prelude.{IfErr, IfOk, OnOk, ◌++◌, ◌≡◌}};

use crate::one_node::write_with_refs;
use pagable_flavors::Error;
use pagable_traits::{
    ArcRef, Env, PagableDeserialize, PagableDeserializer, PagableSerializer, references_of,
};
use std::alloc::Global;
use std::sync::Arc;

/// A type whose values a node holds: `OneNode` and `EitherNode` require the trait. A type that
/// describes its encoding by one `Encoding`, as `Record` does, implements the three calls by
/// `references_of`, `write_with_refs` and `pagable_deserialize`.
///
/// It is a trait of its own because the environment's node is a part of the pager's type: a bound
/// there may name no lifetime, and no trait with a blanket impl.
pub trait NodeValue<E: Env>: Sized {
    // The shape of the values, the one meaning of each, and all errors of writing and reading them.
    ghost encoding: { Encoding Self };

    // Says that what the value holds beside this reference, wherever it holds the reference, is the
    // value of this node: `only_references` of a type without an `Arc` and without a pin.
    ghost beside: { Self → Reference → E.Node → Type 0 };

    /// Returns the references in the value, in the order in which they are written.
    ///
    /// # Errors
    ///
    /// - `OutOfMemory` only.
    fn list_refs(&self, alloc: Global) -> Result<Vec<ArcRef>, Error>
        ensures ok { IfOk result (λ v. v.items ≡ references_in (encoding.means.meaning self.now)) }
        ensures only { IfErr result IsOutOfMemory };

    /// Appends a form of the value, and its references in their order.
    ///
    /// # Errors
    ///
    /// - as the type's `pagable_serialize`: what was written before stays in place.
    fn write<S: PagableSerializer<E>>(&self, serializer: &mut S) -> Result<(), Error>
        ensures wrote { Wrote E.Env S.PagableSerializer (form (encoding.means.of self.now) encoding.shape)
            encoding.writes.are serializer.old serializer.new result }
        ensures listed { OnOk result ((S.out serializer.new).refs ≡ (S.out serializer.old).refs
            ++ references_in (encoding.means.meaning self.now)) };

    /// Reads the value at the start of what is left, and leaves the rest. If the value holds what
    /// its references refer to, it holds what the deserializer lent for them.
    ///
    /// # Errors
    ///
    /// - as the type's `pagable_deserialize`: the first fault from the start, or a cause of the
    ///   type's own.
    fn read<D: PagableDeserializer<E>>(alloc: Global, deserializer: &mut D) -> Result<Self, Error>
        ensures reads { Reads E.Env D.PagableDeserializer encoding.reads.are encoding.means.of
            (λ c. read_shape c encoding.shape) deserializer.old deserializer.new result }
        ensures holds { IfOk result (HoldsLentValues (D.input_state deserializer.old) beside) };
}

/// Reads a value of this type, and shares it, as the node's `read` does for each of its types.
///
/// # Errors
///
/// - as `NodeValue::read`.
/// - `OutOfMemory` if the value can't be shared.
pub fn read_shared<E: Env, T: NodeValue<E> + Drop, D: PagableDeserializer<E>>(
    alloc: Global,
    deserializer: &mut D,
) -> Result<Arc<T>, Error>
    ensures reads { Reads E.Env D.PagableDeserializer (reads_memory_or T.encoding.reads).are
        (λ a. T.encoding.means.of (arc_value a)) (λ c. read_shape c T.encoding.shape) deserializer.old
        deserializer.new result }
    ensures holds { IfOk result (λ a. HoldsLentValues (D.input_state deserializer.old) T.beside (arc_value a)) }
{
    let value = <T as NodeValue<E>>::read(alloc, deserializer)?;
    Ok(Arc::new(alloc, value)?)
}

/// `()` is the third type of an environment with two.
impl<E: Env> NodeValue<E> for () {
    ghost encoding = { empty };

    ghost beside = { only_references };

    fn list_refs(&self, alloc: Global) -> Result<Vec<ArcRef>, Error> {
        references_of::<E, ()>(alloc, self)
    }

    fn write<S: PagableSerializer<E>>(&self, serializer: &mut S) -> Result<(), Error> {
        write_with_refs(self, serializer)
    }

    fn read<D: PagableDeserializer<E>>(alloc: Global, deserializer: &mut D) -> Result<(), Error> {
        <() as PagableDeserialize<E>>::pagable_deserialize(alloc, deserializer)
    }
}
