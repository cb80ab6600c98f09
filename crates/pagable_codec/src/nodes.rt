//! The values of nodes: one case for each value type of an environment.

ghost use Rattle.pagable_value_spec.specs.{
  Cursor.{GivesSome, HoldsLentValues, MovesOn, SomeMeaning, handles_at},
  Meaning.Meaning,
  Reading.read_typed,
  References.{SameReferences, references_in},
  Refusals.{is_own_reading, may_refuse_writing},
  Shape.Shape,
  Writing.{Grows, Refused, WritesSome, nesting},
  declared.{error.Error.Error as Refusal, numbers.ArcRef.ArcRef as Reference},
};
ghost use Rattle.std.specs.Prelude.{IfErr, IfOk, List, OnOk, Option, Some, true, ℕ, ◌++◌, ◌<◌, ◌^◌, ◌≡◌};

use crate::deserializer::PagableDeserializer;
use crate::env::Env;
use crate::serializer::PagableSerializer;
use pagable_flavors::Error;
use pagable_value_spec::ArcRef;
use std::alloc::Global;

/// The nodes of an environment: a type with one case for each value type.
pub trait NodeSet<E: Env>: Sized {
    // The number of the node's value type.
    ghost type_of: { Self → ℕ };

    // The shape of a type's values, or None if there is no such type.
    ghost shape_of: { E → ℕ → Option Shape };

    // The shape of the node's own value.
    ghost own_shape: { E → Self → Shape };

    // What the node's value may mean.
    ghost means: { Self → Meaning Reference → Type 0 };

    // The references in the value, in the order in which they are written.
    ghost refs_of: { Self → List Reference };

    // Says that what the value holds beside this reference, wherever it holds the reference, is the
    // value of this node: nothing, if the value holds only references.
    ghost beside: { Self → Reference → E.Node → Type 0 };

    // All errors of writing a type's values, and all errors of reading them other than faults of
    // the input and errors of references.
    ghost write_causes: { ℕ → Refusal → Type 0 };

    ghost read_causes: { ℕ → Refusal → Type 0 };

    /// Returns the number of the node's value type, below 2^30.
    fn node_type(&self) -> u32
        ensures value { result ≡ type_of self.now }
        ensures small { result < 2 ^ 30 };

    /// Returns the references in the value, in the order in which `write` appends them.
    ///
    /// # Errors
    ///
    /// - `OutOfMemory` only.
    fn refs(&self, alloc: Global) -> Result<Vec<ArcRef>, Error>
        ensures ok { IfOk result (λ v. v.items ≡ refs_of self.now) }
        ensures only { IfErr result (λ e. e ≡ Error.OutOfMemory) };

    /// Writes the value as its type's `pagable_serialize` does.
    ///
    /// # Errors
    ///
    /// - as the type's `pagable_serialize`: the serializer keeps what it held before, and may hold
    ///   a part of the value.
    fn write<S: PagableSerializer<E>>(&self, serializer: &mut S) -> Result<(), Error>
        ensures ok { OnOk result (WritesSome (means self.now)
            (nesting (S.levels serializer.old) (E.parts (S.environment serializer.old)))
            (own_shape (S.environment serializer.old) self.now) (S.out serializer.old) (S.out serializer.new)) }
        ensures listed { OnOk result ((S.out serializer.new).refs ≡ (S.out serializer.old).refs ++ refs_of self.now) }
        ensures refused { IfErr result (Refused (means self.now)
            (nesting (S.levels serializer.old) (E.parts (S.environment serializer.old)))
            (own_shape (S.environment serializer.old) self.now)) }
        ensures only { IfErr result (write_causes (type_of self.now)) }
        ensures grows { Grows (S.out serializer.old) (S.out serializer.new) }
        ensures same_env { S.environment serializer.new ≡ S.environment serializer.old }
        ensures same_levels { S.levels serializer.new ≡ S.levels serializer.old };

    /// Reads a value of this type, as the type's `pagable_deserialize` does.
    ///
    /// # Errors
    ///
    /// - `WrongKind` if there is no such type.
    /// - as the type's `pagable_deserialize`.
    /// - `OutOfMemory`.
    fn read<D: PagableDeserializer<E>>(
        node_type: u32,
        alloc: Global,
        deserializer: &mut D,
    ) -> Result<Self, Error>
        ensures gives { GivesSome (read_causes node_type) means (D.rest deserializer.new) result
            (read_typed (handles_at (D.levels deserializer.old) (E.parts (D.environment deserializer.old)))
            (shape_of (D.environment deserializer.old) node_type) (D.rest deserializer.old)) }
        ensures asked { IfOk result (λ x. type_of x ≡ node_type) }
        ensures holds { IfOk result (HoldsLentValues (D.input_state deserializer.old) beside) }
        ensures moves { MovesOn (D.input_state deserializer.old) (D.input_state deserializer.new) }
        ensures same_env { D.environment deserializer.new ≡ D.environment deserializer.old }
        ensures same_levels { D.levels deserializer.new ≡ D.levels deserializer.old };

    ghost write_causes_may_refuse: { (t : ℕ) (e : Refusal) → write_causes t e → may_refuse_writing e ≡ true };

    ghost read_causes_are_own: { (t : ℕ) (e : Refusal) → read_causes t e → is_own_reading e ≡ true };

    // Each value means something, and its references are those of its meaning.
    ghost has_meaning: { (n : Self) → SomeMeaning (means n) };

    ghost refers: { (n : Self) (m : Meaning Reference) → means n m → SameReferences (refs_of n) (references_in m) };

    // The node's own type has a shape.
    ghost has_shape: { (e : E) (n : Self) → shape_of e (type_of n) ≡ Some (own_shape e n) };
}
