//! How a value type's values are put into nodes and taken out of them.

ghost use Rattle.pagable_value_spec.specs.Outcomes.{IsOutOfMemory};
ghost use Rattle.std.specs.{Arc.arc_value, Prelude.{IfErr, IfOk, Option, Some, option_map, ℕ, ◌<◌, ◌^◌, ◌≡◌}};

use crate::env::Env;
use pagable_flavors::Error;
use std::alloc::Global;
use std::sync::Arc;

/// A value type of an environment: its number, and how a node holds its values. The trait asks
/// nothing of how values are written, so values may refer to values of any type, their own
/// included.
pub trait OfNode<E: Env>: Sized {
    ghost TYPE: { ℕ };

    // The value in a node, or None if the node is of another type.
    ghost held: { E.Node → Option Self };

    /// The number of the type, below 2^30.
    const TYPE: u32;

    /// Makes the node that holds the value.
    fn into_node(value: Arc<Self>) -> E::Node
        ensures { held result ≡ Some (arc_value value) };

    /// Returns the value that the node holds, or None if the node is of another type.
    ///
    /// # Errors
    ///
    /// - `OutOfMemory` only.
    fn from_node(alloc: Global, node: &E::Node) -> Result<Option<Arc<Self>>, Error>
        ensures value { IfOk result (λ found. option_map arc_value found ≡ held node.now) }
        ensures only { IfErr result IsOutOfMemory };

    ghost small: { TYPE < 2 ^ 30 };
}
