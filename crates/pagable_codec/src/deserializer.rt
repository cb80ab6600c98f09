//! The trait of deserializers, from which values are read.

ghost use Rattle.pagable_value_spec.specs.{
  Cursor.{Answer, InputState, IsLent, IsWithin, MovesOn, answer_at, rest_at},
  Meaning.reference as meaning_of,
  Outcomes.{IsOutOfMemory, MatchesReading, no_own_causes},
  Progress.{MovesForward, left},
  Reading.{Rest, deepest, reference_at},
  declared.numbers.ArcRef.ArcRef as Reference,
};
ghost use Rattle.std.specs.{
  Arc.arc_value,
  Borrow.{Lends, sem},
  Prelude.{IfErr, IfOk, OnOk, Option, Some, drop, option_and_then, option_map, ℕ, ◌+◌, ◌-◌, ◌<◌, ◌≡◌, ◌≤◌},
};

use crate::env::Env;
use crate::of_node::OfNode;
use crate::session::SessionContext;
use pagable_flavors::{Error, Reader};
use pagable_value_spec::{ArcRef, Kind, PagableCursor};
use std::alloc::Global;
use std::sync::Arc;

/// A deserializer: what values are read from. It holds bytes and a list of keys, and turns each key
/// into a reference.
pub trait PagableDeserializer<E: Env> {
    type Reader: Reader;

    // The deserializer's whole input, the nodes that are lent with references, and the position.
    ghost input_state: { Self → InputState E.Node };

    // The part of the input that the deserializer hasn't read yet.
    ghost rest: { Self → Rest Answer };

    // How many levels are entered.
    ghost levels: { Self → ℕ };

    ghost environment: { Self → E };

    ghost reader: { Self → Self.Reader };

    // The nodes that the deserializer lends for the references that it has read.
    ghost lends: { Self → Reference → Option E.Node };

    // The deserializer with another reader.
    ghost with_reader: { Self → Self.Reader → Self };

    /// Returns the reader of bytes, which basic types use.
    fn serde(&mut self) -> &mut Self::Reader
        // the borrowed reader's last state is the deserializer's reader afterwards
        ensures* writes_back { sem 𝓛 (Lends Self.row Self.Reader.row self.entry result (with_reader self.old)) }
        ensures value { result.now ≡ reader self.old };

    /// Takes the next key and returns its reference, read as this kind. The key counts as read also
    /// if the reference fails.
    ///
    /// # Errors
    ///
    /// - `NoMoreKeys` if no key is left.
    /// - an error of the reference itself.
    fn deserialize_arc(&mut self, kind: Kind) -> Result<ArcRef, Error>
        ensures of_kind { IfOk result (λ r. r.kind ≡ kind) }
        ensures gives { MatchesReading no_own_causes (λ r. (meaning_of r, rest self.new)) result
            (reference_at answer_at kind.0 (rest self.old).refs (rest self.old)) }
        ensures lent { IfOk result (λ r. (y : E.Node) → lends self.new r ≡ Some y → IsLent (input_state self.old) r y) }
        ensures used { rest self.new ≡ record (rest self.old) { refs = drop 1 (rest self.old).refs } }
        ensures moves { MovesOn (input_state self.old) (input_state self.new) }
        ensures same_env { environment self.new ≡ environment self.old }
        ensures same_levels { levels self.new ≡ levels self.old };

    /// Returns a shared pointer to a reference's value, if the value was read together with the
    /// reference. Returns None if the deserializer lends no value of type `T` for this reference.
    ///
    /// # Errors
    ///
    /// - `OutOfMemory` only.
    fn shared<T: OfNode<E>>(
        &self,
        alloc: Global,
        reference: ArcRef,
    ) -> Result<Option<Arc<T>>, Error>
        ensures value { IfOk result (λ found. option_map arc_value found
            ≡ option_and_then T.held (lends self.now reference)) }
        ensures only { IfErr result IsOutOfMemory };

    /// Returns how many bytes and references the deserializer has read.
    fn position(&self) -> PagableCursor
        ensures cursor { result ≡ (input_state self.now).cursor }
        ensures within { IsWithin (input_state self.now).whole result };

    /// Moves to a position that `position` returned before.
    fn seek(&mut self, cursor: PagableCursor)
        requires { IsWithin (input_state self.old).whole cursor }
        ensures moved { input_state self.new ≡ record (input_state self.old) { cursor = cursor } }
        ensures same_env { environment self.new ≡ environment self.old }
        ensures same_levels { levels self.new ≡ levels self.old };

    /// Enters one level: a value inside a value.
    ///
    /// # Errors
    ///
    /// - `TooDeep` if 128 levels are entered: nothing changes.
    fn enter(&mut self) -> Result<(), Error>
        ensures ok { OnOk result ((levels self.new ≡ levels self.old + 1) × (levels self.old < deepest)) }
        ensures err { IfErr result (λ e. (e ≡ Error.TooDeep) × (deepest ≤ levels self.old)
            × (levels self.new ≡ levels self.old)) }
        ensures same_input { input_state self.new ≡ input_state self.old }
        ensures same_rest { rest self.new ≡ rest self.old }
        ensures same_env { environment self.new ≡ environment self.old };

    /// Leaves one level.
    fn leave(&mut self)
        requires { 0 < levels self.old }
        ensures up { levels self.new ≡ levels self.old - 1 }
        ensures same_input { input_state self.new ≡ input_state self.old }
        ensures same_rest { rest self.new ≡ rest self.old }
        ensures same_env { environment self.new ≡ environment self.old };

    /// Returns the environment, which holds the registries.
    fn env(&self) -> &E
        ensures { result.now ≡ environment self.now };

    /// Returns the session's context, with which the deserializer was made: a map of values behind
    /// a lock. No clause says which context.
    fn session_context(&self) -> &SessionContext<E::CtxKey, E::CtxValue>;

    // What isn't read follows from the deserializer's position, and its reader is at the same
    // position.
    ghost rest_is: { (s : Self) → rest s ≡ rest_at (input_state s) };

    ghost bytes_are: { (s : Self) → (rest s).bytes ≡ left (Self.Reader.reader_state (reader s)) };

    // Another reader changes only the bytes that are left; a reader that has moved on moves the
    // deserializer on.
    ghost rest_of_with: { (s : Self) (r : Self.Reader) → rest (with_reader s r)
        ≡ record (rest s) { bytes = left (Self.Reader.reader_state r) } };

    ghost moves_of_with: { (s : Self) (r : Self.Reader)
        → MovesForward (Self.Reader.reader_state (reader s)) (Self.Reader.reader_state r)
        → MovesOn (input_state s) (input_state (with_reader s r)) };

    ghost levels_of_with: { (s : Self) (r : Self.Reader) → levels (with_reader s r) ≡ levels s };

    ghost environment_of_with: { (s : Self) (r : Self.Reader) → environment (with_reader s r) ≡ environment s };
}
