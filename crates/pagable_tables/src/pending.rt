//! The pending list of cells that wait for page-out: adding entries and taking them.

ghost use Rattle.pagable_pager_spec.specs.{
  Calls.{ScheduleCall, TakeCall},
  Kinds.{is_owner, is_unpinned, owner_worker},
  declared.handle_row.Owner.Owner,
};
ghost use Rattle.pagable_tables.specs.{
  Core.{AreRangesWider, DoesAndDropsValues, InReach, IsWhole, MayOwnHandle, OwnLaterHandles, StorageView, core_alone},
  Core.core_of,
  Indexes.{reach_at, worker_at},
};
ghost use Rattle.pagable_value_spec.specs.declared.numbers.LoadNumber.{LoadNumber};
ghost use Rattle.std.specs.Prelude.{List, None, Ok, Option, Some, false, is_some, true, ℕ, ◌<◌, ◌≡◌};

use crate::checks::find_owned;
use crate::handle_table;
use crate::kinds::is_unpinned;
use crate::nodes::{NodeValues, raise_bound_for};
use crate::release::try_release_at;
use crate::tables::{Tables, Workers};
use pagable_pager_spec::handle_row::Owner;
use pagable_value_spec::{Error, HandleNumber};

/// Moves a loose unpinned handle that `me` owns to the end of the list, which owns it from then on.
/// While no cells are listed (the storage is closed), releases it instead and runs the cascade.
///
/// # Errors
///
/// - `NoSuchHandle` if the handle isn't live.
/// - `NotYours` if another owns it.
/// - `WrongMode` if it isn't loose and unpinned.
/// - `OutOfMemory` if the list can't grow. After each error the tables are unchanged.
pub fn schedule_for_paging<N: Drop>(
    t: &mut Tables,
    values: &mut NodeValues<N>,
    me: Owner,
    handle: HandleNumber,
    lists: bool,
) -> Result<(), Error>
    requires whole { IsWhole t.old }
    requires holder { MayOwnHandle (core_alone t.old) me }
    ensures { DoesAndDropsValues lists t.old values.old (λ w w'. ScheduleCall w me handle result w') t.new values.new }
{
    let at = find_owned(t, me, handle)?;
    if !is_unpinned(at.row.mode) {
        return Err(Error::WrongMode);
    }
    if !lists {
        let _ = try_release_at(&mut t.ref_counts, values, at, lists);
        return Ok(());
    }
    t.ref_counts.list.reserve(1)?;
    t.ref_counts.list.push_back(handle).unwrap();
    handle_table::hand_over(&mut t.ref_counts.handles, at, Owner::List);
    Ok(())
}

/// Adds this handle, which may be older than the worker, to the range of handles that a worker may
/// own. A range has room for one added handle: a second one widens it to all handles. Does nothing
/// if `me` isn't a worker.
fn widen_range(workers: &mut Workers, me: Owner, handle: HandleNumber)
    ensures same_workers { (v : ℕ) → is_some (worker_at workers.new v) ≡ is_some (worker_at workers.old v) }
    ensures wider { AreRangesWider workers.old workers.new }
    ensures here { (v : ℕ) → 0 < handle.0 → is_owner (owner_worker v) me ≡ true
        → InReach (reach_at workers.new v) handle.0 }
{
    let Owner::Worker(worker) = me else {
        return;
    };
    if let Some(reach) = workers.get_mut(&worker.0) {
        if reach.beside != 0 {
            reach.since = 0;
        }
        reach.beside = handle.0;
    }
}

/// Removes the entry at this index of the pending list, makes `me` the owner of its handle, and
/// returns the handle; or None past the end of the list. The removal moves the entries before the
/// index or those behind it, whichever are fewer.
pub fn take_pending(t: &mut Tables, me: Owner, place: usize) -> Option<HandleNumber>
    requires whole { IsWhole t.old }
    requires holder { MayOwnHandle (core_alone t.old) me }
    ensures taken { (storage : StorageView) → TakeCall (core_of t.old storage) me place result (core_of t.new storage) }
    ensures whole { IsWhole t.new }
    ensures later { ((m : LoadNumber) → is_owner (Owner.Load m) me ≡ false) → OwnLaterHandles t.old
        → OwnLaterHandles t.new }
{
    if place >= t.ref_counts.list.len() {
        return None;
    }
    let Some(handle) = t.ref_counts.list.remove(place) else {
        unreachable!();
    };
    let Some(at) = handle_table::find_live(&t.ref_counts.handles, handle) else {
        unreachable!();
    };
    let _taken = t.ref_counts.handles.places.len();
    handle_table::hand_over(&mut t.ref_counts.handles, at, me);
    raise_bound_for(&mut t.ref_counts.nodes, at.row.node.0, me);
    widen_range(&mut t.workers, me, handle);
    Some(handle)
}
