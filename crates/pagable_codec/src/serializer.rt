//! The trait of serializers, to which values are written.

ghost use Rattle.pagable_flavors.specs.contracts.vec_flavor.PagableVecFlavor.{the_row as writer_row};
ghost use Rattle.pagable_value_spec.specs.{Reading.deepest, Writing.{Out, added, end_of, overwritten}};
ghost use Rattle.std.specs.{
  Borrow.{Lends, sem},
  Prelude.{IfErr, List, OnErr, OnOk, length, ℕ, [], ◌+◌, ◌-◌, ◌<◌, ◌∷◌, ◌≡◌, ◌≤◌},
};

use crate::env::Env;
use crate::session::SessionContext;
use pagable_flavors::{Error, PagableVecFlavor};
use pagable_value_spec::{ArcRef, PagableCursor};

/// A serializer: what values are written to. It holds the bytes, and the references in the order in
/// which they were written.
pub trait PagableSerializer<E: Env> {
    // What was written so far.
    ghost out: { Self → Out };

    // How many levels are entered.
    ghost levels: { Self → ℕ };

    ghost environment: { Self → E };

    // The serializer with other bytes.
    ghost with_bytes: { Self → List ℕ → Self };

    /// Returns the writer of bytes, which basic types use.
    fn serde(&mut self) -> &mut PagableVecFlavor
        // the borrowed writer's last bytes are the serializer's bytes afterwards
        ensures* writes_back { sem 𝓛 (Lends Self.row writer_row self.entry result (with_bytes self.old)) }
        ensures value { result.now ≡ (out self.old).bytes };

    /// Appends a reference.
    ///
    /// # Errors
    ///
    /// - `OutOfMemory` only: nothing is appended.
    fn serialize_arc(&mut self, reference: ArcRef) -> Result<(), Error>
        ensures ok { OnOk result (out self.new ≡ added (out self.old) [] (reference ∷ [])) }
        ensures err { OnErr result (out self.new ≡ out self.old) }
        ensures only { IfErr result (λ e. e ≡ Error.OutOfMemory) }
        ensures same_env { environment self.new ≡ environment self.old }
        ensures same_levels { levels self.new ≡ levels self.old };

    /// Returns how many bytes and references were written.
    fn position(&self) -> PagableCursor
        ensures { result ≡ end_of (out self.now) };

    /// Overwrites bytes that were written before, from this position on.
    fn write_at(&mut self, position: usize, bytes: &[u8])
        requires { position + length bytes.now ≤ length (out self.old).bytes }
        ensures written { out self.new ≡ record (out self.old)
            { bytes = overwritten (out self.old).bytes position bytes.now } }
        ensures same_env { environment self.new ≡ environment self.old }
        ensures same_levels { levels self.new ≡ levels self.old };

    /// Enters one level: a value inside a value.
    ///
    /// # Errors
    ///
    /// - `TooDeep` if 128 levels are entered: nothing changes.
    fn enter(&mut self) -> Result<(), Error>
        ensures ok { OnOk result ((levels self.new ≡ levels self.old + 1) × (levels self.old < deepest)) }
        ensures err { IfErr result (λ e. (e ≡ Error.TooDeep) × (deepest ≤ levels self.old)
            × (levels self.new ≡ levels self.old)) }
        ensures same_out { out self.new ≡ out self.old }
        ensures same_env { environment self.new ≡ environment self.old };

    /// Leaves one level.
    fn leave(&mut self)
        requires { 0 < levels self.old }
        ensures up { levels self.new ≡ levels self.old - 1 }
        ensures same_out { out self.new ≡ out self.old }
        ensures same_env { environment self.new ≡ environment self.old };

    /// Returns the environment, which holds the registries.
    fn env(&self) -> &E
        ensures { result.now ≡ environment self.now };

    /// Returns the session's context, with which the serializer was made: a map of values behind a
    /// lock. No clause says which context.
    fn session_context(&self) -> &SessionContext<E::CtxKey, E::CtxValue>;

    ghost out_of_with: { (s : Self) (w : List ℕ) → out (with_bytes s w) ≡ record (out s) { bytes = w } };

    ghost levels_of_with: { (s : Self) (w : List ℕ) → levels (with_bytes s w) ≡ levels s };

    ghost environment_of_with: { (s : Self) (w : List ℕ) → environment (with_bytes s w) ≡ environment s };
}
