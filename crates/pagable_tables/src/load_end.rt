//! Ends loads: with a pin, with a hand-over of handles, or by dropping the load with all that it
//! owns.

ghost use Rattle.pagable_pager_spec.specs.{
  Basics.{if_there, is_in},
  Calls.{is_named_by, moved},
  Kinds.{find_row, held, is_owner, owner_value},
  LoadCalls.{DropCall, HandOverCall, Installs, end_fault, hand_over_fault, numbers_of, root_fault},
  Pager.IsHandleBefore,
  Refusals.{OwnsLoad, Refused, earlier, load_fault, references_fault},
  World.{Cell, OpenLoad},
  declared.handle_row.{HandleRow.HandleRow, Owner.Owner},
};
ghost use Rattle.pagable_tables.specs.{
  CascadeInvariant.{BoundsWorkerHandles, is_worker},
  Core.{Does, DoesAndDropsValues, IsOwnedAbove, IsOwnedUpTo, IsWhole, OnlyRoom, OwnLaterHandles, StorageView, core_of},
  Core.load_in,
  EndingLoads.{DropsOtherValues, FailsToEnd, HasPlace, IsReady as IsEndReady},
  HandleTable.{AreSound, Becomes, live, room},
  Nodes.{coming, counts_at, holds_in, most_worker_handles_at, refs_at},
  NumberTable.row_by,
  declared.{cascade.RefCounts.RefCounts, load_table.LoadRow.LoadRow, release.ReleaseSet.ReleaseSet},
};
ghost use Rattle.pagable_value_spec.specs.declared.numbers.{LoadNumber.LoadNumber, NodeNumber.NodeNumber};
ghost use Rattle.std.specs.{
  List.AllPairs,
  Prelude.{Bool, IfErr, IfOk, IfSome, IsSome, None, Ok, Option, Some, false, if◌then◌else◌, not, true, ℕ, ◌&&◌, ◌*◌},
  Prelude.{◌<◌, ◌==◌, ◌≡◌, ◌≢◌, ◌≤◌},
};

use crate::cascade::RefCounts;
use crate::checks::{find_owned, hand_over_fault, load_fault, load_row, references_fault};
use crate::create::pin_in_memory;
use crate::handle_table::Handles;
use crate::kinds::{earlier, is_owner, is_worker};
use crate::load_handles::handle_bound_of;
use crate::load_table::{LoadRoot, LoadRow};
use crate::nodes::{NodeValues, Nodes, is_in_memory};
use crate::release::{ReleaseSet, release_owned};
use crate::tables::{HandleRange, Tables};
use crate::{handle_table, load_table, nodes};
use pagable_pager_spec::handle_row::{HandleRow, Owner};
use pagable_value_spec::{ArcRef, Error, HandleNumber, LoadNumber, NodeNumber};

/// A load of a cell, ready to end: its row, the row of the handle by which it began, and whether
/// the cell has no value.
#[derive(Clone, Copy)]
pub struct Ending {
    pub load: LoadRow,
    pub row: HandleRow,
    pub lacks_value: bool,
}

/// Why a load of a cell doesn't end with a value.
#[derive(Drop)]
pub enum EndFailure {
    /// The call is refused, and the load stays open.
    Refused(Error),
    /// The handle by which the load began is gone or another's: the caller has to close the load.
    HandleLost(Error),
}

/// Returns why an open load can't end with a value of this type, if it can't: `WrongMode` if it is
/// of a key; `WrongKind` if it is of a cell of another type; `NumbersSpent` if no handle number is
/// left, while `me` owns the handle that is to be pinned.
#[tactic(auto, using(std::proofs::lemmas::Bool::Decides::nat_tests))]
fn root_fault(t: &Tables, me: Owner, load: LoadNumber, node_type: u32) -> Option<Error>
    requires { IsWhole t.now }
    ensures { (storage : StorageView)
        → result ≡ if_there (λ (load : OpenLoad). root_fault (core_of t.now storage) me node_type load.root) None
        ((core_of t.now storage).loads load.0) }
{
    let LoadRoot::Cell(_, cell_type, handle) = load_table::load_of(&t.loads, load.0)?.root else {
        return Some(Error::WrongMode);
    };
    let typed = (node_type != cell_type).then_some(Error::WrongKind);
    let Some(at) = handle_table::find_live(&t.ref_counts.handles, handle) else {
        return typed;
    };
    let is_spent = is_owner(me, at.row.owner) && t.ref_counts.last_handle == u64::MAX;
    earlier(typed, is_spent.then_some(Error::NumbersSpent))
}

/// Returns why a load of a cell can't end, apart from memory.
fn end_fault(
    t: &Tables,
    me: Owner,
    load: LoadNumber,
    node_type: u32,
    references: &[ArcRef],
) -> Option<Error>
    requires { IsWhole t.now }
    ensures { (storage : StorageView) → result ≡ end_fault (core_of t.now storage) me load node_type references.now }
{
    let own = load_fault(load_table::load_of(&t.loads, load.0), me);
    let root = root_fault(t, me, load, node_type);
    let fit = references_fault(t, Owner::Load(load), references);
    earlier(own, earlier(root, fit))
}

/// Checks whether a load of a cell can end with a value of this type and these references, and
/// makes room for the handle that `install` makes.
///
/// # Errors
///
/// - `HandleLost` with `NoSuchHandle` or `NotYours` if the handle by which the load began is gone
///   or another's: nothing changes, and the caller has to close the load.
/// - `Refused` in all other cases: the load stays open, and the tables are unchanged.
///   `NoSuchHandle` if no such load is open, or a handle of the references isn't live; `NotYours`
///   if another began the load, or the load doesn't own one of those handles; `WrongMode` if it is
///   a load of a key; `WrongKind` if its cell has another type; else what `references_fault` finds;
///   `NumbersSpent` if no handle number is left; `OutOfMemory` if the handles can't grow.
pub fn prepare_end(
    t: &mut Tables,
    me: Owner,
    load: LoadNumber,
    node_type: u32,
    references: &[ArcRef],
) -> Result<Ending, EndFailure>
    requires { IsWhole t.old }
    ensures ready { IfOk result (λ e. (storage : StorageView)
        → IsEndReady (core_of t.new storage) me load node_type references.now e) }
    ensures place { IfOk result (λ e. HasPlace t.new load e) }
    ensures unended { IfErr result (λ u. (storage : StorageView)
        → FailsToEnd (core_of t.old storage) me load node_type references.now u (core_of t.new storage)) }
    ensures does { Does t.old OnlyRoom t.new }
    ensures nodes { t.new.ref_counts.nodes ≡ t.old.ref_counts.nodes }
{
    if let Some(e) = end_fault(t, me, load, node_type, references) {
        return Err(EndFailure::Refused(e));
    }
    let row = load_table::load_of(&t.loads, load.0).unwrap();
    let LoadRoot::Cell(_, _, handle) = row.root else {
        unreachable!();
    };
    match find_owned(t, me, handle) {
        Ok(at) => {
            let lacks_value = !is_in_memory(nodes::counts_of(&t.ref_counts.nodes, at.row.node.0));
            match handle_table::reserve(&mut t.ref_counts.handles, 1) {
                Ok(()) => Ok(Ending {
                    load: row,
                    row: at.row,
                    lacks_value,
                }),
                Err(e) => Err(EndFailure::Refused(e.into())),
            }
        }
        Err(e) => Err(EndFailure::HandleLost(e)),
    }
}

/// Gives the node these references, and makes its value the owner of their handles, if `comes` (the
/// load brings the node's value into memory). Otherwise does nothing.
fn set_references_if(t: &mut RefCounts, node: NodeNumber, references: Vec<ArcRef>, comes: bool)
    requires sound { AreSound t.old.handles }
    requires live { IsSome (counts_at t.old.nodes node.0) }
    ensures handles { Becomes t.old.handles (moved (is_named_by (coming comes references.items)) (owner_value node.0)
        (live t.old.handles.places.items)) t.new.handles }
    ensures counts { (n : ℕ) → counts_at t.new.nodes n ≡ counts_at t.old.nodes n }
    ensures worker_bound { (n : ℕ) → most_worker_handles_at t.new.nodes n ≡ most_worker_handles_at t.old.nodes n }
    ensures here { comes ≡ true → refs_at t.new.nodes node.0 ≡ references.items }
    ensures others { (n : ℕ) → n ≢ node.0 → refs_at t.new.nodes n ≡ refs_at t.old.nodes n }
    ensures none { comes ≡ false → t.new ≡ t.old }
    ensures same { t.new ≡ record t.old { handles = t.new.handles; nodes = t.new.nodes } }
{
    if comes {
        handle_table::hand_over_all(&mut t.handles, &references, Owner::Value(node));
        nodes::set_references(&mut t.nodes, node.0, references);
    }
}

/// Ends a load of a cell as `install` does, given that the load's handles have numbers up to
/// `until`.
fn install_until<N: Drop>(
    t: &mut Tables,
    values: &mut NodeValues<N>,
    me: Owner,
    load: LoadNumber,
    node_type: u32,
    references: Vec<ArcRef>,
    ending: Ending,
    until: u64,
    lists: bool,
) -> HandleNumber
    requires whole { IsWhole t.old }
    requires ready { (storage : StorageView) → IsEndReady (core_of t.old storage) me load node_type references.items
        ending }
    requires place { 1 ≤ room t.old.ref_counts.handles }
    requires above { IsOwnedAbove t.old load ending.load.since }
    requires up_to { IsOwnedUpTo t.old load until }
    ensures does { Does t.old (λ w w'. lists ≡ not w.closed
        → Installs w me load ending.row.node ending.row.number result references.items w') t.new }
    ensures drops { DropsOtherValues ending.row.node (counts_at t.old.ref_counts.nodes) (row_by values.old)
        (counts_at t.new.ref_counts.nodes) (row_by values.new) }
{
    let Ok(handle) = pin_in_memory(t, me, ending.row) else {
        unreachable!();
    };
    let node = ending.row.node;
    set_references_if(&mut t.ref_counts, node, references, ending.lacks_value);
    load_table::remove_row(&mut t.loads, load.0);
    let since = ending.load.since;
    let giving = ReleaseSet::Load(load);
    let reach = HandleRange { since, beside: 0 };
    let _ = release_owned(
        &mut t.ref_counts,
        values,
        &t.loads,
        giving,
        reach,
        until,
        lists,
    );
    handle
}

/// Ends a load of a cell: pins the handle by which it began, returns a new Pinned one, and releases
/// what the load still owns. If the cell has no value, its value becomes the owner of the handles
/// that the references name; the caller has stored the value itself among `values` already.
pub fn install<N: Drop>(
    t: &mut Tables,
    values: &mut NodeValues<N>,
    me: Owner,
    load: LoadNumber,
    node_type: u32,
    references: Vec<ArcRef>,
    ending: Ending,
    lists: bool,
) -> HandleNumber
    requires whole { IsWhole t.old }
    requires later { OwnLaterHandles t.old }
    requires ready { (storage : StorageView) → IsEndReady (core_of t.old storage) me load node_type references.items
        ending }
    requires place { HasPlace t.old load ending }
    ensures does { Does t.old (λ w w'. lists ≡ not w.closed
        → Installs w me load ending.row.node ending.row.number result references.items w') t.new }
    ensures drops { DropsOtherValues ending.row.node (counts_at t.old.ref_counts.nodes) (row_by values.old)
        (counts_at t.new.ref_counts.nodes) (row_by values.new) }
{
    let until = handle_bound_of(t, load, ending.load.since);
    install_until(
        t, values, me, load, node_type, references, ending, until, lists,
    )
}

/// Drops the open load of this row: releases all handles that the load owns, which have numbers up
/// to `until`. It fails as `release_owned` does.
fn drop_until<N: Drop>(
    t: &mut Tables,
    values: &mut NodeValues<N>,
    me: Owner,
    load: LoadNumber,
    row: LoadRow,
    until: u64,
    lists: bool,
) -> Result<(), Error>
    requires whole { IsWhole t.old }
    requires own { (storage : StorageView)
        → OwnsLoad (core_of t.old storage) me load (load_in row) }
    requires above { IsOwnedAbove t.old load row.since }
    requires up_to { IsOwnedUpTo t.old load until }
    ensures { DoesAndDropsValues lists t.old values.old (λ w w'. DropCall w me load result w') t.new values.new }
{
    load_table::remove_row(&mut t.loads, load.0);
    let since = row.since;
    let giving = ReleaseSet::Load(load);
    let reach = HandleRange { since, beside: 0 };
    release_owned(
        &mut t.ref_counts,
        values,
        &t.loads,
        giving,
        reach,
        until,
        lists,
    )
}

/// Drops an open load: releases all handles that it owns, and runs the cascade.
///
/// # Errors
///
/// - `NoSuchHandle` if no such load is open: the tables are unchanged.
/// - `NotYours` if another began it: the tables are unchanged.
/// - `NumbersSpent`, `OutOfMemory` if a cell can't be listed for page-out: the load is dropped all
///   the same.
pub fn load_drop<N: Drop>(
    t: &mut Tables,
    values: &mut NodeValues<N>,
    me: Owner,
    load: LoadNumber,
    lists: bool,
) -> Result<(), Error>
    requires whole { IsWhole t.old }
    requires later { OwnLaterHandles t.old }
    ensures { DoesAndDropsValues lists t.old values.old (λ w w'. DropCall w me load result w') t.new values.new }
{
    let row = load_row(t, me, load)?;
    let until = handle_bound_of(t, load, row.since);
    drop_until(t, values, me, load, row, until, lists)
}

/// Raises the upper bound of how many handles of this handle's node are owned by workers to the
/// number of all handles of the node.
#[tactic(auto, using(crate::proofs::CascadeStep::counting))]
fn raise_worker_bound(handles: &Handles, nodes: &mut Nodes, handle: HandleNumber)
    requires sound { AreSound handles.now }
    requires holding { (n : ℕ) → holds_in (counts_at nodes.old n) ≡ held n (live handles.now.places.items) }
    ensures here { IfSome (find_row handle.0 (live handles.now.places.items))
        (λ row. held row.node.0 (live handles.now.places.items) ≤ most_worker_handles_at nodes.new row.node.0) }
    ensures worker_bound { (n : ℕ) → most_worker_handles_at nodes.old n ≤ most_worker_handles_at nodes.new n }
    ensures counts { (n : ℕ) → counts_at nodes.new n ≡ counts_at nodes.old n }
    ensures refs { (n : ℕ) → refs_at nodes.new n ≡ refs_at nodes.old n }
{
    if let Some(at) = handle_table::find_live(handles, handle) {
        let node = at.row.node.0;
        let counts = nodes::counts_of(nodes, node).unwrap();
        let bound = nodes::worker_bound_of(nodes, node).max(counts.holds);
        nodes::set_worker_bound(nodes, node, bound);
    }
}

/// Does what `raise_worker_bound` does for each of these handles, if `me` is a worker.
fn raise_worker_bounds(handles: &Handles, nodes: &mut Nodes, named: &[HandleNumber], me: Owner)
    requires sound { AreSound handles.now }
    requires ordered { AllPairs IsHandleBefore (live handles.now.places.items) }
    requires holding { (n : ℕ) → holds_in (counts_at nodes.old n) ≡ held n (live handles.now.places.items) }
    requires worked { BoundsWorkerHandles (live handles.now.places.items) nodes.old }
    ensures worked { BoundsWorkerHandles (moved (is_in (numbers_of named.now)) me (live handles.now.places.items))
        nodes.new }
    ensures worker_bound { (n : ℕ) → most_worker_handles_at nodes.old n ≤ most_worker_handles_at nodes.new n }
    ensures counts { (n : ℕ) → counts_at nodes.new n ≡ counts_at nodes.old n }
    ensures refs { (n : ℕ) → refs_at nodes.new n ≡ refs_at nodes.old n }
{
    if !is_worker(me) {
        return;
    }
    for handle in named {
        raise_worker_bound(handles, nodes, *handle);
    }
}

/// Ends a load of a key, for which `hand_over_fault` found no error: makes `me` the owner of the
/// handles that are named, releases the load's other handles, which have numbers up to `until`, and
/// closes the load.
fn take_until<N: Drop>(
    t: &mut Tables,
    values: &mut NodeValues<N>,
    me: Owner,
    load: LoadNumber,
    named: &[HandleNumber],
    until: u64,
    lists: bool,
)
    requires whole { IsWhole t.old }
    requires later { OwnLaterHandles t.old }
    requires no_fault { (storage : StorageView)
        → hand_over_fault (core_of t.old storage) me load named.now ≡ None }
    requires up_to { IsOwnedUpTo t.old load until }
    ensures { DoesAndDropsValues lists t.old values.old (λ w w'. HandOverCall w me load named.now (Ok tt) w') t.new
        values.new }
{
    let row = load_table::load_of(&t.loads, load.0).unwrap();
    load_table::remove_row(&mut t.loads, load.0);
    raise_worker_bounds(&t.ref_counts.handles, &mut t.ref_counts.nodes, named, me);
    handle_table::hand_over_each(&mut t.ref_counts.handles, named, me);
    let since = row.since;
    let giving = ReleaseSet::Load(load);
    let reach = HandleRange { since, beside: 0 };
    let _ = release_owned(
        &mut t.ref_counts,
        values,
        &t.loads,
        giving,
        reach,
        until,
        lists,
    );
}

/// Ends a load of a key: makes `me` the owner of the handles that are named, releases the rest and
/// closes the load.
///
/// # Errors
///
/// - `NoSuchHandle` if no such load is open, or a named handle isn't live.
/// - `NotYours` if another began the load or owns a named handle, or one is named twice.
/// - `WrongMode` if it is a load of a cell. After each error the tables are unchanged.
pub fn load_take<N: Drop>(
    t: &mut Tables,
    values: &mut NodeValues<N>,
    me: Owner,
    load: LoadNumber,
    named: &[HandleNumber],
    lists: bool,
) -> Result<(), Error>
    requires whole { IsWhole t.old }
    requires later { OwnLaterHandles t.old }
    ensures { DoesAndDropsValues lists t.old values.old (λ w w'. HandOverCall w me load named.now result w') t.new
        values.new }
{
    if let Some(e) = hand_over_fault(t, me, load, named) {
        return Err(e);
    }
    let row = load_table::load_of(&t.loads, load.0).unwrap();
    let until = handle_bound_of(t, load, row.since);
    take_until(t, values, me, load, named, until, lists);
    Ok(())
}
