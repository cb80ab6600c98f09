//! Entries of the page-out list that can be paged out without a worker: the tables are afterwards
//! as if a worker had taken the entry, pinned its cell, set the key, released its handles and ended.

ghost use Rattle.pagable_tables.specs.{
  Core.{Does, IsWhole, StorageView, core_of},
  LeafEntry.{IsLeafEntry, with_worker_numbers},
};
ghost use Rattle.pagable_pager_spec.specs.World.{greatest};
ghost use Rattle.std.specs.Prelude.{IfSome, ◌+◌, ◌<◌, ◌≡◌};

use crate::tables::Tables;
use crate::{handle_table, queries};
use pagable_pager_spec::handle_row::HandleRow;
use pagable_value_spec::OptionalDataKey;

/// An entry of the page-out list whose cell has no key: the entry's handle, and the cell's type.
#[derive(Clone, Copy)]
pub struct LeafEntry {
    pub row: HandleRow,
    pub node_type: u32,
}

/// Returns the entry at an index of the page-out list, if its cell has no key and a value without
/// references, there is room for two more handles, and numbers are left for a worker and three
/// handles.
pub fn find_unkeyed_entry(t: &Tables, place: usize) -> Option<LeafEntry>
    requires { IsWhole t.now }
    ensures { IfSome result (λ entry. (storage : StorageView) → IsLeafEntry (core_of t.now storage) place entry) }
{
    let (row, node_type, OptionalDataKey::None) = queries::pending_entry(t, place)? else {
        return None;
    };
    if !t.ref_counts.nodes.get(row.node.0)?.references.is_empty() {
        return None;
    }
    if t.last_worker == u64::MAX || t.ref_counts.last_handle >= u64::MAX - 2 {
        return None;
    }
    if handle_table::room_of(&t.ref_counts.handles) < 2 {
        return None;
    }
    Some(LeafEntry { row, node_type })
}

/// Uses up the numbers of a worker and of two handles, as if a worker had begun, pinned a cell, and
/// ended.
pub fn take_worker_numbers(t: &mut Tables)
    requires whole { IsWhole t.old }
    requires worker_left { t.old.last_worker < greatest }
    requires handles_left { t.old.ref_counts.last_handle + 1 < greatest }
    ensures { Does t.old (λ w w'. w' ≡ with_worker_numbers w) t.new }
{
    t.last_worker += 1;
    t.ref_counts.last_handle += 2;
}
