//! The traits of types whose values can be written and read: plainly, into a box, eagerly, and as
//! the values of nodes.

ghost use Rattle.pagable_traits.specs.{
  Clauses.{Reads, Wrote, value as form},
  InNodes.Holds,
  Meanings.{AreSingle, Meanings},
  OwnCauses.{ReadCauses, WriteCauses, reads_memory_or, reads_never, writes_memory},
};
ghost use Rattle.pagable_value_spec.specs.{
  Cursor.HoldsLentValues,
  Outcomes.memory_or,
  Reading.read,
  Shape.Shape,
  declared.{error.Error.Error as Refusal, numbers.ArcRef.ArcRef as Reference},
};
ghost use Rattle.std.specs.Prelude.{IfOk, Some, ◌≡◌};

use pagable_codec::{Env, NodeSet, OfNode, PagableDeserializer, PagableSerializer};
use pagable_flavors::Error;
use std::alloc::Global;

/// A type whose values have a meaning and, in an environment, a shape by which they are written.
pub trait Carried<E: Env> {
    ghost shape: { E → Shape };

    // What a value may mean: one meaning, or several if no contract knows its content.
    ghost means: { Meanings Self };

    // Says that what the value holds beside this reference, wherever it holds the reference, is the
    // value of this node. By default it says nothing, which fits values that hold only references.
    ghost beside: { Self → Reference → E.Node → Type 0 } = { λ x r y. Unit {0} };
}

/// A type whose values can be written.
pub trait PagableSerialize<E: Env>: Carried<E> {
    // All errors of writing a value, those included that say that the value has no form. By default
    // `OutOfMemory` only.
    ghost write_causes: { WriteCauses } = { writes_memory };

    /// Appends a form of the value, and its references in their order.
    ///
    /// # Errors
    ///
    /// Each error leaves in place what was written before, and as many levels entered as before.
    ///
    /// - `TooLong`, `TooDeep`, `JsonNumber` only if the value has no form.
    /// - the type's other causes (`write_causes`).
    fn pagable_serialize<S: PagableSerializer<E>>(&self, serializer: &mut S) -> Result<(), Error>
        ensures { Wrote E.Env S.PagableSerializer (form (Self.means.of self.now)
            (Self.shape (S.environment serializer.old))) write_causes.are serializer.old serializer.new result };
}

/// A type whose values can be read.
pub trait PagableDeserialize<'de, E: Env>: Carried<E> + Sized {
    // The errors of reading other than faults of the input and errors of references: none by
    // default.
    ghost read_causes: { ReadCauses } = { reads_never };

    /// Reads the value at the start of what is left, and leaves the rest. If the value holds what
    /// its references refer to, it holds what the deserializer lent for them.
    ///
    /// # Errors
    ///
    /// The position is then at or after the old one, within the bytes and the keys, and as many
    /// levels are entered as before.
    ///
    /// - the first fault from the start, an error of a reference included.
    /// - a cause of the type's own (`read_causes`).
    fn pagable_deserialize<D: PagableDeserializer<E>>(
        alloc: Global,
        deserializer: &mut D,
    ) -> Result<Self, Error>
        ensures reads { Reads E.Env D.PagableDeserializer read_causes.are Self.means.of
            (λ c. read c (Self.shape (D.environment deserializer.old))) deserializer.old deserializer.new result }
        ensures holds { IfOk result (HoldsLentValues (D.input_state deserializer.old) Self.beside) };
}

/// A type whose values each have exactly one meaning.
pub trait OneMeaning<E: Env>: Carried<E> {
    ghost single: { AreSingle Self.Carried.means };
}

/// A type whose values are read without borrowing from the input: each type that is read at
/// `'static`. It is a marker: a function that reads such a type also requires `PagableDeserialize`
/// or `Pagable`, at a lifetime parameter of its own.
pub trait PagableDeserializeOwned<E: Env>: Carried<E> {}

impl<E: Env, T: PagableDeserialize<'static, E>> PagableDeserializeOwned<E> for T {}

/// A type whose values are written, and read without borrowing from the input. A function that does
/// both requires this trait at a lifetime parameter of its own, so its caller may choose any
/// lifetime.
pub trait Pagable<'de, E: Env>: PagableSerialize<E>
    + PagableDeserialize<'de, E>
    + PagableDeserializeOwned<E> {}

impl<
    'de,
    E: Env,
    T: PagableSerialize<E> + PagableDeserialize<'de, E> + PagableDeserializeOwned<E>,
> Pagable<'de, E> for T {}

/// A type whose values can be read into a box.
pub trait PagableBoxDeserialize<'de, E: Env>: Carried<E> + Sized {
    // The errors of reading other than faults of the input and errors of references.
    ghost box_causes: { ReadCauses };

    /// Reads the value at the start of what is left into a box, and leaves the rest. If the value
    /// holds what its references refer to, it holds what the deserializer lent for them.
    ///
    /// # Errors
    ///
    /// The position is then at or after the old one, within the bytes and the keys, and as many
    /// levels are entered as before.
    ///
    /// - the first fault from the start, an error of a reference included.
    /// - a cause of the type's own (`box_causes`).
    fn deserialize_box<D: PagableDeserializer<E>>(
        alloc: Global,
        deserializer: &mut D,
    ) -> Result<Box<Self>, Error>
        ensures reads { Reads E.Env D.PagableDeserializer box_causes.are (λ b. Self.means.of b.value)
            (λ c. read c (Self.shape (D.environment deserializer.old))) deserializer.old deserializer.new result }
        ensures holds { IfOk result (HoldsLentValues (D.input_state deserializer.old) (λ b. Self.beside b.value)) };
}

/// Allocating the box may fail with `OutOfMemory`, beside the causes of the value.
impl<'de, E: Env, T: PagableDeserialize<'de, E> + Drop> PagableBoxDeserialize<'de, E> for T {
    ghost box_causes = { reads_memory_or T.read_causes };

    fn deserialize_box<D: PagableDeserializer<E>>(
        alloc: Global,
        deserializer: &mut D,
    ) -> Result<Box<Self>, Error> {
        PagableDeserialize::<E>::pagable_deserialize(alloc, deserializer)
    }
}

// ---- eager: a second encoding of a caller's own values, without references

/// A type with an eager shape and meaning. Its values, written eagerly, hold no reference.
pub trait EagerlyCarried<E: Env> {
    ghost eager_shape: { E → Shape };

    // What a value may mean.
    ghost eager_means: { Meanings Self };
}

/// A type whose values can be written eagerly.
pub trait PagableEagerSerialize<E: Env>: EagerlyCarried<E> {
    // All errors of writing a value, those included that say that the value has no form.
    ghost eager_write_causes: { WriteCauses };

    /// Appends a form of the value, and no reference.
    ///
    /// # Errors
    ///
    /// - as `PagableSerialize::pagable_serialize`: what was written before stays in place, and as
    ///   many levels are entered as before.
    fn eager_pagable_serialize<S: PagableSerializer<E>>(
        &self,
        serializer: &mut S,
    ) -> Result<(), Error>
        ensures wrote { Wrote E.Env S.PagableSerializer
            (form (Self.eager_means.of self.now) (Self.eager_shape (S.environment serializer.old)))
            eager_write_causes.are
            serializer.old serializer.new result }
        ensures no_references { (S.out serializer.new).refs ≡ (S.out serializer.old).refs };
}

/// A type whose values can be read eagerly: from an encoding that holds no reference.
pub trait PagableEagerDeserialize<'de, E: Env>: EagerlyCarried<E> + Sized {
    // The errors of reading other than faults of the input.
    ghost eager_read_causes: { ReadCauses };

    /// Reads the value at the start of what is left, and leaves the rest, all references included.
    ///
    /// # Errors
    ///
    /// - as `PagableDeserialize::pagable_deserialize`.
    fn eager_pagable_deserialize<D: PagableDeserializer<E>>(
        alloc: Global,
        deserializer: &mut D,
    ) -> Result<Self, Error>
        ensures reads { Reads E.Env D.PagableDeserializer eager_read_causes.are Self.eager_means.of
            (λ c. read c (Self.eager_shape (D.environment deserializer.old)))
            deserializer.old deserializer.new result }
        ensures no_references { (D.rest deserializer.new).refs ≡ (D.rest deserializer.old).refs };
}

/// A value type of an environment: a node that holds a value has the value's shape and meaning.
/// Values of the type are read without borrowing from the input, so at `'static`.
pub trait InNode<E: Env<Node: NodeSet<E>>>: OfNode<E>
    + Carried<E>
    + PagableSerialize<E>
    + PagableDeserialize<'static, E> {
    // A node that holds a value is of this type and means what the value means; a node that holds
    // none is of another type.
    ghost holds: { (n : E.Node) → Holds Self.Carried.means.of Self.OfNode.TYPE (E.Node.type_of n) (E.Node.means n)
        (Self.OfNode.held n) };

    ghost shape_is: { (e : E) → E.Node.shape_of e Self.OfNode.TYPE ≡ Some (Self.Carried.shape e) };

    // A node of this type is written with the errors of writing its value, and read with those of
    // reading it or `OutOfMemory`.
    ghost writes_as: { (e : Refusal) → E.Node.write_causes Self.OfNode.TYPE e
        → Self.PagableSerialize.write_causes.are e };

    ghost reads_as: { (e : Refusal) → E.Node.read_causes Self.OfNode.TYPE e
        → memory_or Self.PagableDeserialize.read_causes.are e };
}
