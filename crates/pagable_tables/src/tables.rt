//! All tables of a pager together, and the room that they have for handles and list entries.

ghost use Rattle.pagable_pager_spec.specs.Calls.{ClearCall, ReserveCall, room_of};
ghost use Rattle.pagable_tables.specs.{
  Core.{Does, IsWhole, OwnLaterHandles, core_alone},
  HandleTable.room,
  Indexes.{cached_at, load_at, worker_at},
  Nodes.counts_at,
  declared.cascade.RefCounts.RefCounts,
};
ghost use Rattle.pagable_value_spec.specs.declared.numbers.NodeNumber.{NodeNumber};
ghost use Rattle.std.specs.{
  Prelude.{None, Ok, OnErr, OnOk, length, ℕ, [], ◌+◌, ◌<◌, ◌≡◌, ◌≤◌},
  VecDeque.deque_capacity,
};

use crate::cascade::RefCounts;
use crate::handle_table;
use crate::handle_table::Handles;
use crate::load_table::Loads;
use crate::number_table::NumberTable;
use indexmap::IndexMap;
use pagable_value_spec::{DataKey, Error, HandleNumber, NodeNumber};
use std::alloc::{AllocError, Global};
use std::collections::VecDeque;

/// The running workers by their numbers, with the handles that each may own.
pub type Workers = IndexMap<u64, HandleRange>;

/// The cached nodes, by kind and key.
pub type Cache = IndexMap<(u32, DataKey), NodeNumber>;

/// A range of handles: those of numbers above `since`, and the one of number `beside` (0 for none).
#[derive(Clone, Copy)]
pub struct HandleRange {
    pub since: u64,
    pub beside: u64,
}

/// All tables of a pager. The type itself guarantees nothing of them: contracts ask for `IsWhole`.
#[derive(Drop)]
pub struct Tables {
    pub ref_counts: RefCounts,
    /// The node that is cached under a kind and a key.
    pub cache: Cache,
    /// When the cache has more entries than `cache_limit`, `forget_gone` removes those whose nodes
    /// are gone.
    pub cache_limit: usize,
    pub loads: Loads,
    /// The running workers, with the handles that each may own.
    pub workers: Workers,
    pub last_node: u64,
    pub last_load: u64,
    pub last_worker: u64,
    /// The rows of the loads have taken note of all handles up to this number: see `LoadRow::last`.
    pub noted: u64,
}

/// Makes tables without a node. They take no memory.
pub fn new(alloc: Global) -> Tables
    ensures rows { result.ref_counts.handles.places.items ≡ [] }
    ensures nodes { (n : ℕ) → counts_at result.ref_counts.nodes n ≡ None }
    ensures list { result.ref_counts.list.items ≡ [] }
    ensures cache { (kind key : ℕ) → cached_at result.cache kind key ≡ None }
    ensures loads { (l : ℕ) → load_at result.loads l ≡ None }
    ensures workers { (v : ℕ) → worker_at result.workers v ≡ None }
    ensures last { (result.last_node ≡ 0) × (result.ref_counts.last_handle ≡ 0) × (result.last_load ≡ 0)
        × (result.last_worker ≡ 0) }
    ensures whole { IsWhole result }
    ensures later { OwnLaterHandles result }
{
    Tables {
        ref_counts: RefCounts {
            handles: Handles {
                places: Vec::new(alloc),
                dead: 0,
            },
            nodes: NumberTable::new(alloc),
            list: VecDeque::new(alloc),
            top: 0,
            listing_error: None,
            last_handle: 0,
        },
        cache: IndexMap::new(alloc),
        cache_limit: 0,
        loads: IndexMap::new(alloc),
        workers: IndexMap::new(alloc),
        last_node: 0,
        last_load: 0,
        last_worker: 0,
        noted: 0,
    }
}

/// Returns how many handles, and as many list entries, can still be added even if no memory is
/// left.
pub fn room(t: &Tables) -> usize
    requires { IsWhole t.now }
    ensures { result ≡ room_of (core_alone t.now) }
{
    let entries = t.ref_counts.list.capacity() - t.ref_counts.list.len();
    handle_table::room_of(&t.ref_counts.handles).min(entries)
}

// Reserves places for `more` list entries. Fails with AllocError if the list can't grow and has
// fewer free places.
fn reserve_entries(list: &mut VecDeque<HandleNumber>, more: usize) -> Result<(), AllocError>
    ensures items { list.new.items ≡ list.old.items }
    ensures capacity { deque_capacity list.old ≤ deque_capacity list.new }
    ensures ok { OnOk result (length list.new.items + more ≤ deque_capacity list.new) }
    ensures err { OnErr result (deque_capacity list.new < length list.new.items + more) }
{
    let reserved = list.reserve(more);
    if list.capacity() - list.len() >= more {
        return Ok(());
    }
    reserved
}

/// Reserves places for `more` handles and `more` list entries.
///
/// # Errors
///
/// - `OutOfMemory` if the handles or the list can't grow: neither table's content is changed.
pub fn reserve(t: &mut Tables, more: usize) -> Result<(), Error>
    requires { IsWhole t.old }
    ensures { Does t.old (λ w w'. ReserveCall w more result w') t.new }
{
    handle_table::reserve(&mut t.ref_counts.handles, more)?;
    reserve_entries(&mut t.ref_counts.list, more)?;
    Ok(())
}

/// Removes all entries of the cache.
pub fn cache_clear(t: &mut Tables) -> Result<(), Error>
    requires { IsWhole t.old }
    ensures { Does t.old (λ w w'. ClearCall w result w') t.new }
{
    t.cache.clear();
    Ok(())
}
