//! Makes nodes, handles of live nodes, and pins.

ghost use Rattle.indexmap.specs.IndexMap.{get, spare};
ghost use Rattle.pagable_pager_spec.specs.{
  Calls.{CloneCall, InsertPagedOutCall, LoosenCall, PinCall, insert_fault, with_mode},
  Kinds.{is_loose, is_owned_by, is_pinning, is_shared},
  Refusals.{Owns, Refused, earlier, references_fault},
  World.{Alike, Core, greatest},
  declared.{handle_row.{HandleRow.HandleRow, Owner.Owner}, mode.Mode.Mode},
};
ghost use Rattle.pagable_tables.specs.{
  CascadeInvariant.{IsSoundInCascade, is_value_owner, is_worker, owns, owns_nothing},
  CascadeProgress.with_tables,
  CascadeSteps.ValueStays,
  Core.{Does, HasRoomForNode, InsertsNode, IsWhole, MakesHandle, MayOwnHandle, OnlyRoom, PinsInMemory, StorageView, Suits},
  Core.{core_alone, core_of},
  HandleTable.{alive, live},
  Nodes.{counts_at, has_value, key_in},
  declared.cascade.RefCounts.RefCounts,
};
ghost use Rattle.pagable_value_spec.specs.declared.numbers.NodeNumber.{NodeNumber};
ghost use Rattle.std.specs.{
  Prelude.{IfErr, IsSome, List, None, Ok, OnOk, Some, false, slice_get, true, vec_capacity, vec_len, ℕ, []},
  Prelude.{◌+◌, ◌<◌, ◌==◌, ◌||◌, ◌≡◌, ◌⊎◌},
};

use crate::cascade::RefCounts;
use crate::checks::{find_owned, references_fault};
use crate::handle_table::HandleAt;
use crate::kinds::{is_loose_mode, is_worker, pins};
use crate::nodes::{Counts, NodeRow, PackedCounts, counts_with_handle, is_in_memory, key_in};
use crate::tables::Tables;
use crate::{handle_table, nodes};
use pagable_pager_spec::handle_row::{HandleRow, Owner};
use pagable_pager_spec::{Mode, Pinning};
use pagable_value_spec::{ArcRef, DataKey, Error, HandleNumber, NodeNumber};
use std::alloc::Global;

/// Makes room for a handle, a node and a cache entry, and changes nothing else.
///
/// # Errors
///
/// - `NumbersSpent` if no number of a node or a handle is left.
/// - `OutOfMemory` if a table can't grow: at most some have more room.
pub fn make_room_for_node(t: &mut Tables) -> Result<(), Error>
    requires { IsWhole t.old }
    ensures ready { OnOk result (HasRoomForNode t.new) }
    ensures cache_room { OnOk result (0 < spare t.new.cache) }
    ensures does { Does t.old OnlyRoom t.new }
    ensures refused { (storage : StorageView) → IfErr result
        (λ e. Refused (insert_fault (core_of t.old storage)) (insert_fault (core_of t.old storage)) (Unit {0})
        (core_of t.old storage) e (core_of t.new storage)) }
    ensures loads { t.new.loads ≡ t.old.loads }
    ensures workers { t.new.workers ≡ t.old.workers }
{
    if t.last_node == u64::MAX || t.ref_counts.last_handle == u64::MAX {
        return Err(Error::NumbersSpent);
    }
    let handles = handle_table::reserve(&mut t.ref_counts.handles, 1);
    let nodes = t.ref_counts.nodes.reserve(t.last_node + 1);
    let cache = t.cache.reserve(1);
    handles.and(nodes).and(cache)?;
    Ok(())
}

/// Makes a handle of a live node, under the next number.
///
/// # Errors
///
/// - `NumbersSpent` if no handle number is left: nothing changes.
/// - `OutOfMemory` if the handles can't grow: nothing changes.
#[tactic(auto, using(crate::proofs::CascadeStep::counting))]
pub fn add_handle(
    t: &mut RefCounts,
    node: NodeNumber,
    mode: Mode,
    me: Owner,
) -> Result<HandleNumber, Error>
    requires steady { IsSoundInCascade t.old [] owns_nothing }
    requires live { IsSome (counts_at t.old.nodes node.0) }
    requires owner { is_value_owner me ≡ false }
    ensures made { (w : Core) → MakesHandle (with_tables w t.old) node mode me result (with_tables w t.new) }
    ensures values { (n : ℕ) → (n ≡ node.0 → is_pinning mode ≡ true → has_value (counts_at t.old.nodes n) ≡ true)
        → ValueStays (counts_at t.old.nodes n) (counts_at t.new.nodes n) }
    ensures steady { IsSoundInCascade t.new [] owns_nothing }
{
    if t.last_handle == u64::MAX {
        return Err(Error::NumbersSpent);
    }
    let _taken = t.handles.places.len();
    let number = HandleNumber(t.last_handle + 1);
    let row = HandleRow {
        number,
        node,
        mode,
        owner: me,
    };
    handle_table::push(&mut t.handles, row)?;
    t.last_handle = number.0;
    nodes::count_handle(&mut t.nodes, node.0, pins(mode) as u64, me);
    Ok(number)
}

/// Makes a handle of a live node, as `add_handle` does, given all tables of a pager. It fails as
/// `add_handle` does.
pub fn make_handle(
    t: &mut Tables,
    node: NodeNumber,
    mode: Mode,
    me: Owner,
) -> Result<HandleNumber, Error>
    requires whole { IsWhole t.old }
    requires suits { Suits (core_alone t.old) node mode }
    requires holder { MayOwnHandle (core_alone t.old) me }
    ensures does { Does t.old (λ w w'. MakesHandle w node mode me result w') t.new }
    ensures values { (n : ℕ) → (n ≡ node.0 → is_pinning mode ≡ true → has_value (counts_at t.old.ref_counts.nodes n)
        ≡ true) → ValueStays (counts_at t.old.ref_counts.nodes n) (counts_at t.new.ref_counts.nodes n) }
    ensures same { t.new ≡ record t.old { ref_counts = t.new.ref_counts } }
{
    add_handle(&mut t.ref_counts, node, mode, me)
}

/// Makes a handle of the same node and mode for `me`, whoever owns `handle`.
///
/// # Errors
///
/// - `NoSuchHandle` if the handle isn't live.
/// - `NumbersSpent` if no handle number is left.
/// - `OutOfMemory` if the handles can't grow. After each error the tables are unchanged.
pub fn clone(t: &mut Tables, me: Owner, handle: HandleNumber) -> Result<HandleNumber, Error>
    requires whole { IsWhole t.old }
    requires holder { MayOwnHandle (core_alone t.old) me }
    ensures { Does t.old (λ w w'. CloneCall w me handle result w') t.new }
{
    let Some(at) = handle_table::find_live(&t.ref_counts.handles, handle) else {
        return Err(Error::NoSuchHandle);
    };
    make_handle(t, at.row.node, at.row.mode, me)
}

/// Checks whether a value with these references can become a node (first the references, then
/// numbers, then memory), and makes room for it.
///
/// # Errors
///
/// - `NoSuchHandle`, `NotYours`, `WrongMode`, `WrongKind` as `references_fault` finds it.
/// - `NumbersSpent` if no number of a node or a handle is left.
/// - `OutOfMemory` if a table can't grow: at most some have more room.
pub fn prepare_insert(t: &mut Tables, me: Owner, references: &[ArcRef]) -> Result<(), Error>
    requires { IsWhole t.old }
    ensures ready { OnOk result (HasRoomForNode t.new) }
    ensures fit { OnOk result (references_fault (core_alone t.new) me [] references.now ≡ None) }
    ensures does { Does t.old OnlyRoom t.new }
    ensures refused { (storage : StorageView) → IfErr result
        (λ e. Refused (earlier (references_fault (core_of t.old storage) me [] references.now)
        (insert_fault (core_of t.old storage))) None (Unit {0}) (core_of t.old storage) e (core_of t.new storage)) }
{
    if let Some(e) = references_fault(t, me, references) {
        return Err(e);
    }
    make_room_for_node(t)?;
    Ok(())
}

/// Inserts a node with this key (0 for none), makes its value the owner of the handles that these
/// references name, and returns a handle of the node. It can't fail: `prepare_insert` or
/// `make_room_for_node` has made room.
pub fn insert_node(
    t: &mut Tables,
    me: Owner,
    node_type: u32,
    key: u128,
    references: Vec<ArcRef>,
    mode: Mode,
) -> HandleNumber
    requires whole { IsWhole t.old }
    requires ready { HasRoomForNode t.old }
    requires holder { MayOwnHandle (core_alone t.old) me }
    requires fit { references_fault (core_alone t.old) me [] references.items ≡ None }
    requires keyed { (key ≡ 0) ⊎ ((is_shared mode ≡ false) × ((references.items ≡ []) ⊎ (is_pinning mode ≡ true))) }
    ensures does { Does t.old (λ w w'. InsertsNode w me node_type key references.items mode result w') t.new }
    ensures same { t.new ≡ record t.old { ref_counts = t.new.ref_counts; last_node = t.new.last_node } }
{
    let counts = Counts {
        node_type,
        key,
        pins: pins(mode) as u64,
        holds: 1,
        is_dying: false,
        next: 0,
    };
    let node = NodeNumber(t.last_node + 1);
    let number = HandleNumber(t.ref_counts.last_handle + 1);
    handle_table::hand_over_all(&mut t.ref_counts.handles, &references, Owner::Value(node));
    let row = HandleRow {
        number,
        node,
        mode,
        owner: me,
    };
    let Ok(()) = handle_table::push(&mut t.ref_counts.handles, row) else {
        unreachable!();
    };
    let value = NodeRow {
        counts: PackedCounts::new(counts),
        references,
        worker_bound: is_worker(me) as u64,
    };
    t.ref_counts.nodes.put(node.0, value);
    t.ref_counts.last_handle = number.0;
    t.last_node = node.0;
    number
}

/// Inserts a cell that has a key and no value, and returns an unpinned handle of it.
///
/// # Errors
///
/// - `NumbersSpent` if no number of a node or a handle is left.
/// - `OutOfMemory` if a table can't grow: at most some have more room.
pub fn insert_paged_out(
    t: &mut Tables,
    alloc: Global,
    me: Owner,
    node_type: u32,
    key: DataKey,
) -> Result<HandleNumber, Error>
    requires whole { IsWhole t.old }
    requires holder { MayOwnHandle (core_alone t.old) me }
    ensures { Does t.old (λ w w'. InsertPagedOutCall w me node_type key result w') t.new }
{
    make_room_for_node(t)?;
    let mode = Mode::LooseUnpinned;
    Ok(insert_node(t, me, node_type, key.get(), Vec::new(alloc), mode))
}

/// Turns a handle, which isn't Shared, into a loose pinned one.
#[tactic(auto, using(crate::proofs::CascadeStep::counting))]
pub fn set_loose_pinned(t: &mut Tables, at: HandleAt)
    requires whole { IsWhole t.old }
    requires place { slice_get t.old.ref_counts.handles.places.items at.place ≡ Some (alive at.row) }
    requires unshared { is_shared at.row.mode ≡ false }
    requires unlisted { is_owned_by Owner.List at.row ≡ false }
    ensures does { Does t.old (λ w w'. Alike (with_mode w at.row.number Mode.LoosePinned) w') t.new }
    ensures same { t.new ≡ record t.old { ref_counts = t.new.ref_counts } }
{
    let counts = nodes::counts_of(&t.ref_counts.nodes, at.row.node.0).unwrap();
    let _taken = t.ref_counts.handles.places.len();
    let mut row = at.row;
    row.mode = Mode::LoosePinned;
    handle_table::replace_row(&mut t.ref_counts.handles, at, row);
    let mut pinned = counts_with_handle(counts, !pins(at.row.mode));
    pinned.holds = counts.holds;
    nodes::set_counts(&mut t.ref_counts.nodes, at.row.node.0, pinned);
}

/// Turns a Pinned handle into a loose pinned one of the same number.
///
/// # Errors
///
/// - `NoSuchHandle` if the handle isn't live.
/// - `NotYours` if another owns it.
/// - `WrongMode` if it isn't Pinned. After each error the tables are unchanged.
pub fn into_pagable(t: &mut Tables, me: Owner, handle: HandleNumber) -> Result<HandleNumber, Error>
    requires { IsWhole t.old }
    ensures { Does t.old (λ w w'. LoosenCall w me handle result w') t.new }
{
    let at = find_owned(t, me, handle)?;
    let Mode::Pinned = at.row.mode else {
        return Err(Error::WrongMode);
    };
    set_loose_pinned(t, at);
    Ok(at.row.number)
}

/// Makes a Pinned handle of this loose handle's node, whose value is in memory, and pins the loose
/// handle too.
///
/// # Errors
///
/// - `NumbersSpent` if no handle number is left: nothing changes.
/// - `OutOfMemory` if the handles can't grow: nothing changes.
pub fn pin_in_memory(t: &mut Tables, me: Owner, row: HandleRow) -> Result<HandleNumber, Error>
    requires whole { IsWhole t.old }
    requires holder { MayOwnHandle (core_alone t.old) me }
    requires owns { Owns (core_alone t.old) me row.number is_loose row }
    ensures does { Does t.old (λ w w'. PinsInMemory w me row result w') t.new }
    ensures same { t.new ≡ record t.old { ref_counts = t.new.ref_counts } }
{
    let handle = make_handle(t, row.node, Mode::Pinned, me)?;
    let Some(loose) = handle_table::find_live(&t.ref_counts.handles, row.number) else {
        unreachable!();
    };
    set_loose_pinned(t, loose);
    Ok(handle)
}

/// Makes a Pinned handle of a loose handle's node and pins the loose handle too, as `pin_in_memory`
/// does, without another look at the loose handle's row.
#[tactic(auto, using(crate::proofs::CascadeStep::counting))]
fn pin_in_place(t: &mut Tables, me: Owner, at: HandleAt) -> HandleNumber
    requires whole { IsWhole t.old }
    requires holder { MayOwnHandle (core_alone t.old) me }
    requires place { slice_get t.old.ref_counts.handles.places.items at.place ≡ Some (alive at.row) }
    requires owns { Owns (core_alone t.old) me at.row.number is_loose at.row }
    requires left { t.old.ref_counts.last_handle < greatest }
    requires room { vec_len t.old.ref_counts.handles.places < vec_capacity t.old.ref_counts.handles.places }
    ensures { Does t.old (λ w w'. PinsInMemory w me at.row (Ok result) w') t.new }
{
    let number = HandleNumber(t.ref_counts.last_handle + 1);
    let loose = HandleRow {
        mode: Mode::LoosePinned,
        ..at.row
    };
    let pin = HandleRow {
        number,
        node: at.row.node,
        mode: Mode::Pinned,
        owner: me,
    };
    let pins = 1 + !pins(at.row.mode) as u64;
    nodes::count_handle(&mut t.ref_counts.nodes, at.row.node.0, pins, me);
    handle_table::replace_row(&mut t.ref_counts.handles, at, loose);
    let Ok(()) = handle_table::push(&mut t.ref_counts.handles, pin) else {
        unreachable!();
    };
    t.ref_counts.last_handle = number.0;
    number
}

/// Pins a loose handle as `pin_in_memory` does, given where its row is: in place if a number is
/// left and no row has to move for the new handle.
///
/// # Errors
///
/// - `NumbersSpent` if no handle number is left: nothing changes.
/// - `OutOfMemory` if the handles can't grow: nothing changes.
fn pin_at(t: &mut Tables, me: Owner, at: HandleAt) -> Result<HandleNumber, Error>
    requires whole { IsWhole t.old }
    requires holder { MayOwnHandle (core_alone t.old) me }
    requires place { slice_get t.old.ref_counts.handles.places.items at.place ≡ Some (alive at.row) }
    requires owns { Owns (core_alone t.old) me at.row.number is_loose at.row }
    ensures does { Does t.old (λ w w'. PinsInMemory w me at.row result w') t.new }
{
    if t.ref_counts.last_handle == u64::MAX || !handle_table::has_place(&t.ref_counts.handles) {
        return pin_in_memory(t, me, at.row);
    }
    Ok(pin_in_place(t, me, at))
}

/// Pins a loose handle if its value is in memory: makes a Pinned handle as `pin_in_memory` does.
/// Otherwise returns the key of the value, which has to be loaded first.
///
/// # Errors
///
/// - `NoSuchHandle` if the handle isn't live.
/// - `NotYours` if another owns it.
/// - `WrongMode` if it isn't loose.
/// - `NumbersSpent` if no handle number is left.
/// - `OutOfMemory` if the handles can't grow. After each error the tables are unchanged.
pub fn pin(t: &mut Tables, me: Owner, handle: HandleNumber) -> Result<Pinning, Error>
    requires whole { IsWhole t.old }
    requires holder { MayOwnHandle (core_alone t.old) me }
    ensures { Does t.old (λ w w'. PinCall w me handle result w') t.new }
{
    let at = find_owned(t, me, handle)?;
    if !is_loose_mode(at.row.mode) {
        return Err(Error::WrongMode);
    }
    let counts = nodes::counts_of(&t.ref_counts.nodes, at.row.node.0);
    if !is_in_memory(counts) {
        return Ok(Pinning::NeedsLoad(key_in(counts).unwrap()));
    }
    Ok(Pinning::Pinned(pin_at(t, me, at)?))
}
