//! Counts of what a pager holds, in one call without a walk.

ghost use Rattle.pagable_pager.specs.View.{pager_core};
ghost use Rattle.pagable_tables.specs.HandleTable.{AreSound, live};
ghost use Rattle.std.specs.Prelude.{length, ◌≡◌};

use crate::pager::Pager;
use pagable_codec::{Env, NodeSet};
use pagable_core::PagableStorage;
use pagable_tables::handle_table::Handles;

/// Counts of a pager at one moment.
#[derive(Clone, Copy, Debug, PartialEq, Eq)]
pub struct PagerStats {
    /// How many handles are live, whoever owns them: the caller, values in memory, open loads,
    /// workers, or the list of cells that wait for page-out.
    pub handles: usize,
    /// How many entries of that list wait for page-out.
    pub pending: usize,
    /// How many handles were made since the pager was new, live or released.
    pub handles_made: u64,
    /// How many nodes were made since the pager was new, live or gone.
    pub nodes_made: u64,
}

// Counts the live handles.
fn live_handles(handles: &Handles) -> usize
    requires { AreSound handles.now }
    ensures { result ≡ length (live handles.now.places.items) }
{
    handles.places.len() - handles.dead
}

impl<E: Env<Node: NodeSet<E>>, S: PagableStorage<E>> Pager<E, S> {
    /// Counts handles, nodes and entries of the page-out list, in constant time. A caller who has
    /// released its handles finds those that it forgot: they stay among `handles`.
    pub fn stats(&self) -> PagerStats
        ensures handles { result.handles ≡ length (pager_core S.PagableStorage self.now).rows }
        ensures pending { result.pending ≡ length (pager_core S.PagableStorage self.now).list }
        ensures handles_made { result.handles_made ≡ (pager_core S.PagableStorage self.now).last.handle }
        ensures nodes_made { result.nodes_made ≡ (pager_core S.PagableStorage self.now).last.node }
    {
        PagerStats {
            handles: live_handles(&self.tables.ref_counts.handles),
            pending: self.pending(),
            handles_made: self.tables.ref_counts.last_handle,
            nodes_made: self.tables.last_node,
        }
    }
}
