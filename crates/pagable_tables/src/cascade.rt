//! Releases a handle and runs the cascade. A node that loses its last handle, or its last pin while
//! it has a key, is dying: the cascade releases the handles that its value owns, which may let
//! other nodes die, and drops its value. A cell without a key is listed for page-out when it loses
//! its last pin.

ghost use Rattle.pagable_pager_spec.specs.{
  Cascade.Falls,
  Kinds.is_owner,
  World.Core,
  declared.handle_row.{HandleRow.HandleRow, Owner.Owner},
};
ghost use Rattle.pagable_tables.specs.{
  CascadeInvariant.{IsSoundInCascade, is_value_owner, owns, owns_nothing},
  CascadeProgress.{IsApart, ReleasedSoFar, result_of_listing, with_tables},
  CascadeSteps.{AddsEntryIf, AddsWantedEntry, CantList, ReleasesWithoutCascade, RemovesOrUnpins, Steps},
  CascadeSteps.{finished_counts, is_node},
  HandleTable.{AreSound, IsNext, alive, live},
  Nodes.{counts_at, most_worker_handles_at, refs_at},
  NumberTable.row_by,
  ValuesKept.DropsValues,
  declared.cascade.RefCounts.RefCounts,
};
ghost use Rattle.pagable_value_spec.specs.declared.numbers.NodeNumber.{NodeNumber};
ghost use Rattle.std.specs.{
  Prelude.{Bool, IfErr, List, None, Ok, Option, Some, false, if◌then◌else◌, length, not, slice_get, true, ℕ},
  Prelude.{[], ◌&&◌, ◌*◌, ◌+◌, ◌<◌, ◌==◌, ◌||◌, ◌≡◌, ◌≢◌, ◌≤◌, ◌⊎◌},
  Result.is_ok,
};

use crate::handle_table::{HandleAt, Handles};
use crate::nodes::{Counts, NodeValues, Nodes};
use crate::{handle_table, nodes};
use pagable_pager_spec::Mode;
use pagable_pager_spec::handle_row::{HandleRow, Owner};
use pagable_value_spec::{Error, HandleNumber, NodeNumber};
use std::collections::VecDeque;

/// The handles, the nodes and the pending list, with the state of a cascade. The type itself
/// guarantees nothing of them: contracts ask for `IsSoundInCascade`.
#[derive(Drop)]
pub struct RefCounts {
    pub handles: Handles,
    pub nodes: Nodes,
    /// The pending list: the cells that wait for page-out, by handles that the list owns.
    pub list: VecDeque<HandleNumber>,
    /// The first dying node, 0 for none.
    pub top: u64,
    /// The first error of listing a cell since this release began.
    pub listing_error: Option<Error>,
    pub last_handle: u64,
}

/// Lists this node's cell for page-out, by a new handle that the list owns. Fails with NumbersSpent
/// if no handle number is left, and with OutOfMemory if the handles or the list can't grow: then no
/// handle or entry is added.
fn push_pending(t: &mut RefCounts, node: NodeNumber) -> Result<(), Error>
    requires sound { AreSound t.old.handles }
    requires next { IsNext (t.old.last_handle + 1) t.old.handles.places.items }
    ensures comes { AddsEntryIf t.old node (is_ok result) t.new }
    ensures told { t.new.listing_error ≡ t.old.listing_error }
    ensures only { IfErr result (CantList t.old) }
{
    if t.last_handle == u64::MAX {
        return Err(Error::NumbersSpent);
    }
    t.list.reserve(1)?;
    let number = HandleNumber(t.last_handle + 1);
    let row = HandleRow {
        number,
        node,
        mode: Mode::LooseUnpinned,
        owner: Owner::List,
    };
    handle_table::push(&mut t.handles, row)?;
    t.list.push_back(number).unwrap();
    t.last_handle = number.0;
    Ok(())
}

/// Calls `push_pending`, and says whether an entry was added. The first error is kept in
/// `listing_error`.
fn try_push_pending(t: &mut RefCounts, node: NodeNumber) -> bool
    requires sound { AreSound t.old.handles }
    requires next { IsNext (t.old.last_handle + 1) t.old.handles.places.items }
    ensures { AddsWantedEntry t.old node true result t.new }
{
    let Err(e) = push_pending(t, node) else {
        return true;
    };
    t.listing_error = t.listing_error.take().or(Some(e));
    false
}

/// Removes the handle, or only its pin if it `stays`.
#[tactic(auto, using(crate::proofs::CascadeStep::counting))]
fn remove_or_unpin(handles: &mut Handles, at: HandleAt, stays: bool)
    requires sound { AreSound handles.old }
    requires place { slice_get handles.old.places.items at.place ≡ Some (alive at.row) }
    ensures { RemovesOrUnpins handles.old at.row stays handles.new }
{
    if stays {
        let mut row = at.row;
        row.mode = Mode::LooseUnpinned;
        handle_table::replace_row(handles, at, row);
    } else {
        handle_table::mark_dead(handles, at);
    }
}

/// Returns the first dying node after the counts of `node` have changed: `node` if it is dying now
/// (`falls`) and wasn't `before`, else `top`, the first one until then.
pub fn first_dying_after(before: bool, falls: bool, node: u64, top: u64) -> u64
    ensures { result ≡ (if falls && not before then node else top) }
{
    if falls && !before { node } else { top }
}

/// Removes the handle, or only its pin if it `stays`, without a step of the cascade. Where `lists`
/// is set, lists the node's cell if the handle was its last pin and the cell has no key; if the
/// cell can't be listed, the error is kept in `listing_error`.
#[tactic(auto, using(crate::proofs::CascadeStep::counting))]
#[inline(always)]
pub fn release_without_cascade(t: &mut RefCounts, at: HandleAt, stays: bool, lists: bool)
    requires falling { (stack : List ℕ) × IsSoundInCascade t.old stack (owns at.row) }
    requires place { slice_get t.old.handles.places.items at.place ≡ Some (alive at.row) }
    requires not_a_value { stays ≡ true → is_value_owner at.row.owner ≡ false }
    ensures { (stack : List ℕ) → IsSoundInCascade t.old stack (owns at.row)
        → ReleasesWithoutCascade t.old stack at.row stays lists t.new }
{
    let node = at.row.node;
    let _taken = t.handles.places.len();
    remove_or_unpin(&mut t.handles, at, stays);
    if let Some(falls) = nodes::count_unlisted_release(&mut t.nodes, at.row, stays, lists, t.top) {
        t.top = first_dying_after(false, falls, node.0, t.top);
        return;
    }
    let listed = try_push_pending(t, node);
    let falls = nodes::count_release(&mut t.nodes, at.row, stays, listed, t.top);
    t.top = first_dying_after(false, falls, node.0, t.top);
}

/// Ends the dying of a node whose references are all released: removes it if it has no handle, else
/// marks it as not dying.
#[tactic(auto, using(crate::proofs::CascadeStep::landing))]
fn finish_node(nodes: &mut Nodes, node: u64, counts: Counts)
    requires is { counts_at nodes.old node ≡ Some counts }
    requires bare { refs_at nodes.old node ≡ [] }
    ensures here { counts_at nodes.new node ≡ finished_counts counts }
    ensures others { (q : ℕ) → q ≢ node → counts_at nodes.new q ≡ counts_at nodes.old q }
    ensures refs { (q : ℕ) → refs_at nodes.new q ≡ refs_at nodes.old q }
    ensures worker_bound { (q : ℕ) → q ≢ node
        → most_worker_handles_at nodes.new q ≡ most_worker_handles_at nodes.old q }
    ensures here_worker_bound { counts.holds ≢ 0 → most_worker_handles_at nodes.new node
        ≡ most_worker_handles_at nodes.old node }
{
    if counts.holds == 0 {
        nodes.remove(node);
    } else {
        let mut left = counts;
        left.is_dying = false;
        left.next = 0;
        nodes::set_counts(nodes, node, left);
    }
}

/// Makes one step of the cascade, at the first dying node: releases the handle of one of its
/// references; or, if none is left, finishes the node and returns its number, so that its value can
/// be dropped.
pub fn step_cascade(t: &mut RefCounts, lists: bool) -> Option<NodeNumber>
    requires falling { (stack : List ℕ) × IsSoundInCascade t.old stack owns_nothing }
    requires some { t.old.top ≢ 0 }
    ensures { (stack : List ℕ) → IsSoundInCascade t.old stack owns_nothing → Steps t.old stack lists result t.new }
{
    let node = t.top;
    match nodes::pop_reference(&mut t.nodes, node) {
        Some(reference) => {
            match handle_table::find_live(&t.handles, reference.handle) {
                Some(at) => release_without_cascade(t, at, false, lists),
                None => unreachable!(),
            }
            None
        }
        None => {
            let counts = nodes::counts_of(&t.nodes, node).unwrap();
            t.top = counts.next;
            finish_node(&mut t.nodes, node, counts);
            Some(NodeNumber(node))
        }
    }
}

/// Drops the value of this node, if there is one.
fn drop_value<N: Drop>(values: &mut NodeValues<N>, done: Option<NodeNumber>)
    ensures { (n : ℕ) → row_by values.new n ≡ (if is_node done n then None else row_by values.old n) }
{
    if let Some(node) = done {
        values.remove(node.0);
    }
}

/// Runs the cascade to its end: releases the handles of each dying node's references, and drops the
/// node's value. It takes memory only for list entries and their handles.
#[tactic(auto, using(crate::proofs::CascadeEnd::falls))]
#[inline(always)]
pub fn cascade<N: Drop>(t: &mut RefCounts, values: &mut NodeValues<N>, lists: bool)
    requires falling { (stack : List ℕ) × IsSoundInCascade t.old stack owns_nothing × (length stack ≤ 1) }
    ensures whole { IsSoundInCascade t.new [] owns_nothing }
    ensures fewer { length (live t.new.handles.places.items) ≤ length (live t.old.handles.places.items) }
    ensures unlisting { lists ≡ false → t.new.list.items ≡ t.old.list.items }
    ensures so_far { (before w : Core) (given : ℕ → Bool) → ReleasedSoFar before w given lists t.old
        → ReleasedSoFar before w given lists t.new }
    ensures falls { (before w : Core) (given : ℕ → Bool) → ReleasedSoFar before w given lists t.old
        → Falls before w given (result_of_listing t.new.listing_error) (with_tables w t.new) }
    ensures drops { DropsValues (counts_at t.old.nodes) (row_by values.old) (counts_at t.new.nodes)
        (row_by values.new) }
{
    // a bound on the steps: twice the number of live handles, and one
    let mut left = 2 * (t.handles.places.len() - t.handles.dead) + 1;
    'finish_cascade: while t.top != 0 {
        left -= 1;
        let done = step_cascade(t, lists);
        drop_value(values, done);
    }
}

/// Releases the handle and runs the cascade. The first error of listing is kept in `listing_error`.
#[inline(always)]
pub fn release_at<N: Drop>(t: &mut RefCounts, values: &mut NodeValues<N>, at: HandleAt, lists: bool)
    requires steady { IsSoundInCascade t.old [] owns_nothing }
    requires place { slice_get t.old.handles.places.items at.place ≡ Some (alive at.row) }
    requires not_a_value { is_value_owner at.row.owner ≡ false }
    ensures steady { IsSoundInCascade t.new [] owns_nothing }
    ensures fewer { length (live t.new.handles.places.items) ≤ length (live t.old.handles.places.items) }
    ensures so_far { (before w : Core) (given : ℕ → Bool) (f : ReleasedSoFar before w given lists t.old)
        → length (live t.old.handles.places.items) ≤ length w.rows
        → (is_owner Owner.List at.row.owner ≡ false) ⊎ IsApart before w given lists t.old f at.row.number.0
        → ReleasedSoFar before w (λ q. given q || q == at.row.number.0) lists t.new }
    ensures unlisting { lists ≡ false → t.new.list.items ≡ t.old.list.items }
    ensures drops { DropsValues (counts_at t.old.nodes) (row_by values.old) (counts_at t.new.nodes)
        (row_by values.new) }
{
    release_without_cascade(t, at, false, lists);
    cascade(t, values, lists);
}

/// Runs the cascade, and then returns the first error of listing a cell.
///
/// # Errors
///
/// - `NumbersSpent`, `OutOfMemory` if a cell can't be listed for page-out: the cascade is complete
///   all the same.
#[inline(always)]
pub fn finish_cascade<N: Drop>(
    t: &mut RefCounts,
    values: &mut NodeValues<N>,
    lists: bool,
) -> Result<(), Error>
    requires falling { (stack : List ℕ) × IsSoundInCascade t.old stack owns_nothing × (length stack ≤ 1) }
    ensures steady { IsSoundInCascade t.new [] owns_nothing }
    ensures falls { (before w : Core) (given : ℕ → Bool) → ReleasedSoFar before w given lists t.old
        → Falls before w given result (with_tables w t.new) }
    ensures drops { DropsValues (counts_at t.old.nodes) (row_by values.old) (counts_at t.new.nodes)
        (row_by values.new) }
{
    cascade(t, values, lists);
    match t.listing_error.take() {
        None => Ok(()),
        Some(e) => Err(e),
    }
}
