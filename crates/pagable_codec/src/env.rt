//! The caller's environment.

ghost use Rattle.pagable_value_spec.specs.Shape.{Shape};
ghost use Rattle.std.specs.Prelude.{ℕ};

use crate::hash::KeyHash;

/// An environment: the types that a caller provides for nodes, keys and sessions. Serializers and
/// deserializers lend its value to the types that they write and read.
pub trait Env: Sized {
    /// The nodes: one case for each value type, with the calls of `NodeSet`.
    type Node: Drop;

    /// The hash by which the keys of blobs are computed.
    type Hash: KeyHash;

    /// The keys of a session's values; `()` if no session is used.
    type CtxKey: Ord + Drop;

    /// The values of a session. The session's calls require that they are `SessionValue`s.
    type CtxValue: Drop;

    // The shapes of the value parts that have numbers. Each such part is one level deeper.
    ghost parts: { Self → ℕ → Shape };
}
