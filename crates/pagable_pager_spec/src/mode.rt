//! How a handle holds its node.

/// How a handle holds its node.
#[derive(Clone, Copy, Debug, PartialEq, Eq)]
pub enum Mode {
    /// A loose handle that pins its cell.
    LoosePinned,
    /// A loose handle that keeps its cell alive, but not the cell's value.
    LooseUnpinned,
    /// A handle that always pins: made from a loose handle, or with the node.
    Pinned,
    /// A handle of a shared node, which never has a key.
    Shared,
}
