//! Releases handles, one or all that a load, a worker or the list owns; unpins loose ones; sets
//! keys.

ghost use Rattle.indexmap.specs.IndexMap.{get};
ghost use Rattle.pagable_pager_spec.specs.{
  Calls.{CloseCall, ReleaseCall, SetKeyCall, UnpinCall},
  Cascade.{Falls, nobody, only_handle},
  Kinds.is_owner,
  LoadCalls.is_owned_in,
  World.Core,
  declared.{handle_row.{HandleRow.HandleRow, Owner.Owner}, mode.Mode.Mode},
};
ghost use Rattle.pagable_tables.specs.{
  CascadeInvariant.{BoundsWorkerHandles, IsSoundInCascade, is_value_owner, owns_nothing},
  CascadeProgress.{ReleasedSoFar, with_tables},
  Core.{DoesAndDropsValues, InReach, IsLast, IsWhole, LoadsAre, OwnLaterHandles, StorageView, contains_row, core_of},
  Core.{passes_in, shut_view},
  HandleTable.{AreSound, alive, live},
  Nodes.{counts_at, most_worker_handles_at},
  NumberTable.row_by,
  ValuesKept.DropsValues,
  declared.{cascade.RefCounts.RefCounts, release.ReleaseSet.ReleaseSet},
};
ghost use Rattle.pagable_value_spec.specs.declared.{
  numbers.{LoadNumber.LoadNumber, NodeNumber.NodeNumber, WorkerNumber.WorkerNumber},
};
ghost use Rattle.std.specs.{
  Prelude.{Bool, IfNone, IfSome, List, None, Ok, Option, Some, false, length, slice_get, true, ℕ, [], ◌&&◌, ◌<◌, ◌==◌},
  Prelude.{◌||◌, ◌≡◌, ◌≤◌},
};

use crate::cascade::{
    RefCounts, finish_cascade, first_dying_after, release_at, release_without_cascade,
};
use crate::checks::find_owned;
use crate::handle_table::{HandleAt, Handles};
use crate::kinds::{is_loose_mode, is_owner};
use crate::load_table::Loads;
use crate::nodes::{NodeValues, Nodes};
use crate::tables::{HandleRange, Tables};
use crate::{handle_table, load_table, nodes};
use pagable_pager_spec::Mode;
use pagable_pager_spec::handle_row::{HandleRow, Owner};
use pagable_value_spec::{DataKey, Error, HandleNumber, LoadNumber, NodeNumber, WorkerNumber};

/// The handles that are released together.
#[derive(Clone, Copy)]
pub enum ReleaseSet {
    /// All handles that this load owns.
    Load(LoadNumber),
    /// All handles of this node that this worker owns.
    AtNode(WorkerNumber, NodeNumber),
    /// All handles that this worker or one of its loads owns.
    Worker(WorkerNumber),
    /// All handles that the pending list owns, after the list's entries were removed.
    Listed,
}

/// Says whether the handle of this row is in the set.
fn is_in_release_set(loads: &Loads, giving: ReleaseSet, row: HandleRow) -> bool
    ensures contains { (w : Core) → LoadsAre loads.now w → result ≡ contains_row w giving row }
    ensures not_a_value { result ≡ true → is_value_owner row.owner ≡ false }
{
    match giving {
        ReleaseSet::Load(load) => is_owner(Owner::Load(load), row.owner),
        ReleaseSet::AtNode(worker, node) => {
            is_owner(Owner::Worker(worker), row.owner) && row.node.0 == node.0
        }
        ReleaseSet::Worker(worker) => match row.owner {
            Owner::Load(load) => match load_table::load_of(loads, load.0) {
                Some(row) => is_owner(Owner::Worker(worker), row.owner),
                None => false,
            },
            owner => is_owner(Owner::Worker(worker), owner),
        },
        ReleaseSet::Listed => is_owner(Owner::List, row.owner),
    }
}

/// Returns the last handle of the set with a number above `since` and at most `left`. The search
/// goes down from the index `guess`, or, if `guess` is too low, from one found by binary search.
#[tactic(auto, using(crate::proofs::OwnedByLoad::places))]
fn find_last_handle(
    handles: &Handles,
    loads: &Loads,
    giving: ReleaseSet,
    since: u64,
    left: u64,
    guess: usize,
) -> Option<HandleAt>
    requires { AreSound handles.now }
    ensures last { IfSome result (IsLast handles.now.places.items loads.now giving (λ q. since < q) left) }
    ensures none { IfNone result ((w : Core) (q : ℕ) → LoadsAre loads.now w → since < q → q ≤ left
        → passes_in (contains_row w giving) (live handles.now.places.items) q ≡ false) }
{
    let mut place = handle_table::index_above(&handles.places, left, guess);
    while place > 0 {
        place -= 1;
        let found = &handles.places[place];
        if found.number() <= since {
            return None;
        }
        let row = found.row();
        if found.is_live() && row.number.0 <= left && is_in_release_set(loads, giving, row) {
            return Some(HandleAt { place, row });
        }
    }
    None
}

/// Says whether the set is empty since it is of a node of which no worker owns a handle.
fn is_known_empty(nodes: &Nodes, giving: ReleaseSet) -> bool
    ensures { result ≡ true → (v : WorkerNumber) × (n : NodeNumber) × (giving ≡ ReleaseSet.AtNode v n)
        × (most_worker_handles_at nodes.now n.0 ≡ 0) }
{
    match giving {
        ReleaseSet::AtNode(_, node) => nodes::worker_bound_of(nodes, node.0) == 0,
        ReleaseSet::Load(_) | ReleaseSet::Worker(_) | ReleaseSet::Listed => false,
    }
}

/// Returns the last handle of the set in this range with a number of at most `left`.
fn find_last_handle_in_range(
    handles: &Handles,
    nodes: &Nodes,
    loads: &Loads,
    giving: ReleaseSet,
    reach: HandleRange,
    left: u64,
    guess: usize,
) -> Option<HandleAt>
    requires sound { AreSound handles.now }
    requires worked { BoundsWorkerHandles (live handles.now.places.items) nodes.now }
    ensures last { IfSome result (IsLast handles.now.places.items loads.now giving (InReach reach) left) }
    ensures none { IfNone result ((w : Core) (q : ℕ) → LoadsAre loads.now w → InReach reach q → q ≤ left
        → passes_in (contains_row w giving) (live handles.now.places.items) q ≡ false) }
{
    if is_known_empty(nodes, giving) {
        return None;
    }
    if let Some(at) = find_last_handle(handles, loads, giving, reach.since, left, guess) {
        return Some(at);
    }
    if reach.beside == 0 || left < reach.beside {
        return None;
    }
    match handle_table::find_live(handles, HandleNumber(reach.beside)) {
        Some(at) if is_in_release_set(loads, giving, at.row) => Some(at),
        Some(_) | None => None,
    }
}

/// Guesses the index from which on handles have numbers above `until`. The guess is right if none
/// of these numbers up to `last` is missing.
fn guess_end(handles: &Handles, last: u64, until: u64) -> usize {
    let behind = last.saturating_sub(until) as usize;
    handles.places.len().saturating_sub(behind)
}

/// Releases all handles of the set that are in this range and have numbers up to `until`, from the
/// last to the first, and runs the cascade after each.
///
/// # Errors
///
/// - `NumbersSpent`, `OutOfMemory` if a cell can't be listed for page-out: the handles are released
///   all the same.
#[tactic(auto, using(crate::proofs::CascadeEnd::dropping))]
pub fn release_owned<N: Drop>(
    t: &mut RefCounts,
    values: &mut NodeValues<N>,
    loads: &Loads,
    giving: ReleaseSet,
    reach: HandleRange,
    until: u64,
    lists: bool,
) -> Result<(), Error>
    requires steady { IsSoundInCascade t.old [] owns_nothing }
    requires listed { giving ≡ ReleaseSet.Listed → (lists ≡ false) × (t.old.list.items ≡ []) }
    ensures steady { IsSoundInCascade t.new [] owns_nothing }
    ensures falls { (before u w : Core) → LoadsAre loads.now w
        → ReleasedSoFar before u nobody lists (record t.old { listing_error = None })
        → length (live t.old.handles.places.items) ≤ length u.rows
        → ((q : ℕ) → passes_in (contains_row w giving) u.rows q ≡ true → InReach reach q × (q ≤ until))
        → Falls before u (passes_in (contains_row w giving) u.rows) result (with_tables u t.new) }
    ensures drops { DropsValues (counts_at t.old.nodes) (row_by values.old) (counts_at t.new.nodes)
        (row_by values.new) }
{
    t.listing_error = None;
    let mut left = until;
    let mut guess = guess_end(&t.handles, t.last_handle, until);
    while let Some(at) = find_last_handle_in_range(
        &t.handles, &t.nodes, loads, giving, reach, left, guess,
    ) {
        left = at.row.number.0 - 1;
        guess = at.place;
        release_at(t, values, at, lists);
    }
    finish_cascade(t, values, lists)
}

/// Empties the list and the cache when the storage is closed: releases the handles of the list's
/// entries and runs the cascade, which lists no cell here. The call allocates nothing.
pub fn close<N: Drop>(t: &mut Tables, values: &mut NodeValues<N>)
    requires whole { IsWhole t.old }
    ensures closed { (storage : StorageView) (failures : ℕ) → storage.failures ≤ failures
        → CloseCall (core_of t.old storage) (Ok tt) (core_of t.new (shut_view failures)) }
    ensures whole { IsWhole t.new }
    ensures later { OwnLaterHandles t.old → OwnLaterHandles t.new }
    ensures drops { DropsValues (counts_at t.old.ref_counts.nodes) (row_by values.old)
        (counts_at t.new.ref_counts.nodes)
        (row_by values.new) }
{
    t.cache.clear();
    t.ref_counts.list.clear();
    let giving = ReleaseSet::Listed;
    let since = 0;
    let reach = HandleRange { since, beside: 0 };
    let until = t.ref_counts.last_handle;
    let _ = release_owned(
        &mut t.ref_counts,
        values,
        &t.loads,
        giving,
        reach,
        until,
        false,
    );
}

/// Releases the handle of this number if the load owns it, and runs the cascade. Where `lists` is
/// set, the call lists each cell without a key that loses its last pin in the cascade.
pub fn release_if_owned<N: Drop>(
    t: &mut RefCounts,
    values: &mut NodeValues<N>,
    load: LoadNumber,
    handle: HandleNumber,
    lists: bool,
)
    requires { IsSoundInCascade t.old [] owns_nothing }
    ensures steady { IsSoundInCascade t.new [] owns_nothing }
    ensures fewer { length (live t.new.handles.places.items) ≤ length (live t.old.handles.places.items) }
    ensures so_far { (before w : Core) (given : ℕ → Bool) → ReleasedSoFar before w given lists t.old
        → length (live t.old.handles.places.items) ≤ length w.rows
        → ReleasedSoFar before w (λ q. given q || (q == handle.0 && is_owned_in w (Owner.Load load) q)) lists t.new }
    ensures drops { DropsValues (counts_at t.old.nodes) (row_by values.old) (counts_at t.new.nodes)
        (row_by values.new) }
{
    if let Some(at) = handle_table::find_live(&t.handles, handle) {
        if is_owner(Owner::Load(load), at.row.owner) {
            release_at(t, values, at, lists);
        }
    }
}

/// Releases the handle and runs the cascade.
///
/// # Errors
///
/// - `NumbersSpent`, `OutOfMemory` if a cell can't be listed for page-out: the handle is released
///   all the same.
#[tactic(auto, using(crate::proofs::CascadeEnd::dropping))]
pub fn try_release_at<N: Drop>(
    t: &mut RefCounts,
    values: &mut NodeValues<N>,
    at: HandleAt,
    lists: bool,
) -> Result<(), Error>
    requires steady { IsSoundInCascade t.old [] owns_nothing }
    requires place { slice_get t.old.handles.places.items at.place ≡ Some (alive at.row) }
    requires not_a_value { is_value_owner at.row.owner ≡ false }
    requires not_the_list { is_owner Owner.List at.row.owner ≡ false }
    ensures steady { IsSoundInCascade t.new [] owns_nothing }
    ensures falls { (before w : Core) → ReleasedSoFar before w nobody lists (record t.old { listing_error = None })
        → length (live t.old.handles.places.items) ≤ length w.rows
        → Falls before w (only_handle at.row.number) result (with_tables w t.new) }
    ensures drops { DropsValues (counts_at t.old.nodes) (row_by values.old) (counts_at t.new.nodes)
        (row_by values.new) }
{
    t.listing_error = None;
    release_at(t, values, at, lists);
    finish_cascade(t, values, lists)
}

/// Releases a handle that `me` owns, and runs the cascade.
///
/// # Errors
///
/// - `NoSuchHandle` if the handle isn't live: the tables are unchanged.
/// - `NotYours` if another owns it: the tables are unchanged.
/// - `NumbersSpent`, `OutOfMemory` if a cell can't be listed for page-out: the handle is released
///   all the same.
pub fn release<N: Drop>(
    t: &mut Tables,
    values: &mut NodeValues<N>,
    me: Owner,
    handle: HandleNumber,
    lists: bool,
) -> Result<(), Error>
    requires whole { IsWhole t.old }
    requires not_a_value { is_value_owner me ≡ false }
    requires not_the_list { is_owner Owner.List me ≡ false }
    ensures { DoesAndDropsValues lists t.old values.old (λ w w'. ReleaseCall w me handle result w') t.new values.new }
{
    let at = find_owned(t, me, handle)?;
    try_release_at(&mut t.ref_counts, values, at, lists)
}

/// Unpins a loose handle that `me` owns, and runs the cascade. Does nothing if it is unpinned
/// already.
///
/// # Errors
///
/// - `NoSuchHandle` if the handle isn't live: the tables are unchanged.
/// - `NotYours` if another owns it: the tables are unchanged.
/// - `WrongMode` if it isn't loose: the tables are unchanged.
/// - `NumbersSpent`, `OutOfMemory` if a cell can't be listed for page-out: the handle is unpinned
///   all the same.
pub fn unpin<N: Drop>(
    t: &mut Tables,
    values: &mut NodeValues<N>,
    me: Owner,
    handle: HandleNumber,
    lists: bool,
) -> Result<(), Error>
    requires whole { IsWhole t.old }
    requires not_a_value { is_value_owner me ≡ false }
    ensures { DoesAndDropsValues lists t.old values.old (λ w w'. UnpinCall w me handle result w') t.new values.new }
{
    let at = find_owned(t, me, handle)?;
    match at.row.mode {
        Mode::LooseUnpinned => Ok(()),
        Mode::LoosePinned => {
            t.ref_counts.listing_error = None;
            release_without_cascade(&mut t.ref_counts, at, true, lists);
            finish_cascade(&mut t.ref_counts, values, lists)
        }
        Mode::Pinned | Mode::Shared => Err(Error::WrongMode),
    }
}

/// Sets the key of the cell of a loose handle that `me` owns; if nothing pins the cell, drops its
/// value and runs the cascade. Does nothing if the handle isn't loose.
///
/// # Errors
///
/// - `NoSuchHandle` if the handle isn't live: the tables are unchanged.
/// - `NotYours` if another owns it: the tables are unchanged.
/// - `NumbersSpent`, `OutOfMemory` if a cell can't be listed for page-out: the key is set all the
///   same.
#[tactic(auto, using(crate::proofs::CascadeStep::counting))]
pub fn set_data_key<N: Drop>(
    t: &mut Tables,
    values: &mut NodeValues<N>,
    me: Owner,
    handle: HandleNumber,
    key: DataKey,
    lists: bool,
) -> Result<(), Error>
    requires whole { IsWhole t.old }
    ensures { DoesAndDropsValues lists t.old values.old (λ w w'. SetKeyCall w me handle key result w') t.new
        values.new }
{
    let at = find_owned(t, me, handle)?;
    if !is_loose_mode(at.row.mode) {
        return Ok(());
    }
    let node = at.row.node.0;
    let mut counts = nodes::counts_of(&t.ref_counts.nodes, node).unwrap();
    let is_dying = counts.pins == 0;
    counts.key = key.get();
    counts.is_dying = is_dying;
    // if the node is dying now, the cascade finishes it before the nodes that were dying already
    counts.next = first_dying_after(false, is_dying, t.ref_counts.top, counts.next);
    nodes::set_counts(&mut t.ref_counts.nodes, node, counts);
    t.ref_counts.top = first_dying_after(false, is_dying, node, t.ref_counts.top);
    t.ref_counts.listing_error = None;
    finish_cascade(&mut t.ref_counts, values, lists)
}
