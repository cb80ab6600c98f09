//! What `pin` and the begin of a load return.

use pagable_value_spec::{DataKey, HandleNumber, LoadNumber};

/// What `pin` returns.
#[derive(Clone, Copy, Debug, PartialEq)]
pub enum Pinning {
    /// A new handle, which pins the node.
    Pinned(HandleNumber),
    /// The value isn't in memory: the caller has to load this key first.
    NeedsLoad(DataKey),
}

/// What the begin of a load returns.
#[derive(Clone, Copy, Debug, PartialEq)]
pub enum Beginning {
    /// The value is in memory, and no load began.
    InMemory,
    /// A load began, which reads the value under this key.
    Load(LoadNumber, DataKey),
}
