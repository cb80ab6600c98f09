//! The numbers by which nodes, handles, loads and workers are named, and what a reference is.

ghost use Rattle.pagable_value_spec.specs.{Height.{is_loose_kind, is_pinned_kind, is_shared_kind}, Trees.type_of};
ghost use Rattle.std.specs.Prelude.{IfNone, IfSome, ◌*◌, ◌+◌, ◌<◌, ◌^◌, ◌≡◌, ◌≤◌};

/// The kind of a reference. The value type with the number t has three kinds: 3t for an `Arc`, 3t +
/// 1 for a `PagableArc`, and 3t + 2 for a `PinnedPagableArc`.
#[derive(Clone, Copy, Debug, PartialEq, Eq, Hash)]
pub struct Kind(pub u32);

impl Kind {
    /// Returns the loose kind of a value type, or None if it doesn't fit 32 bits.
    pub fn loose_of(node_type: u32) -> Option<Kind>
        ensures some { IfSome result (λ kind. (kind.0 ≡ 3 * node_type + 1) × (3 * node_type + 1 < 2 ^ 32)) }
        ensures none { IfNone result (2 ^ 32 ≤ 3 * node_type + 1) }
    {
        let number = 3 * (node_type as u64) + 1;
        if number > u32::MAX as u64 {
            return None;
        }
        Some(Kind(number as u32))
    }

    /// Returns the number of the value type.
    pub fn node_type(self) -> u32
        ensures { result ≡ type_of self.0 }
    {
        self.0 / 3
    }

    /// Says whether references of this kind are `Arc`s.
    pub fn is_shared(self) -> bool
        ensures { result ≡ is_shared_kind self.0 }
    {
        self.0 % 3 == 0
    }

    /// Says whether references of this kind are `PagableArc`s.
    pub fn is_loose(self) -> bool
        ensures { result ≡ is_loose_kind self.0 }
    {
        self.0 % 3 == 1
    }

    /// Says whether references of this kind are `PinnedPagableArc`s.
    pub fn is_pinned(self) -> bool
        ensures { result ≡ is_pinned_kind self.0 }
    {
        self.0 % 3 == 2
    }
}

/// The number of a node in the pager's table, from 1 on. A pager never gives out a number twice.
#[derive(Clone, Copy, Debug, PartialEq, Eq, Hash)]
pub struct NodeNumber(pub u64);

/// The number of a handle, from 1 on. A pager never gives out a number twice.
#[derive(Clone, Copy, Debug, PartialEq, Eq, Hash)]
pub struct HandleNumber(pub u64);

/// The number of a load, from 1 on. A pager never gives out a number twice.
#[derive(Clone, Copy, Debug, PartialEq, Eq)]
pub struct LoadNumber(pub u64);

/// The number of a page-out worker, from 1 on. A pager never gives out a number twice.
#[derive(Clone, Copy, Debug, PartialEq, Eq)]
pub struct WorkerNumber(pub u64);

/// One node of a page-out's walk: a node together with the kind by which it is reached.
#[derive(Clone, Copy, Debug, PartialEq, Eq, Hash)]
pub struct Identity {
    pub kind: Kind,
    pub node: NodeNumber,
}

/// A reference as a value holds it: its kind, its node, and the handle by which the value owns it.
#[derive(Clone, Copy, Debug, PartialEq, Eq)]
pub struct ArcRef {
    pub kind: Kind,
    pub node: NodeNumber,
    pub handle: HandleNumber,
}

/// A position between two parts of a value that is written or read: the numbers of bytes and of
/// references before it.
#[derive(Clone, Copy, Debug, Default, PartialEq, Eq)]
pub struct PagableCursor {
    pub byte_pos: usize,
    pub arc_index: usize,
}
