//! Loads: how they begin, and get handles of what they read.

ghost use Rattle.indexmap.specs.IndexMap.{get, spare};
ghost use Rattle.pagable_pager_spec.specs.{
  Basics.is_loose_kind,
  Calls.{IsNext, is_named_by},
  Cascade.{FallsAnyhow, nobody},
  Kinds.{is_pinning, is_shared, mode_of},
  LoadCalls.{Adopts, BeginCall, BeginKeyCall, LazyCall, adopt_fault, adopted, first_key, is_owned_in},
  Pager.MayOwnLoad,
  Refusals.{Refused, earlier, load_fault, references_fault},
  World.{Alike, Cell, Core, usable},
  declared.{handle_row.Owner.Owner, mode.Mode.Mode},
};
ghost use Rattle.pagable_tables.specs.{
  CascadeInvariant.{IsSoundInCascade, owns_nothing},
  CascadeProgress.{ReleasedSoFar, with_tables},
  Core.{Does, HasRoomForNode, IsWhole, MayOwnHandle, OwnLaterHandles, StorageView, core_alone, core_of},
  EndingLoads.{AsksCache, adopt_check_fault},
  HandleTable.live,
  Nodes.{counts_at, has_value, key_in},
  NumberTable.row_by,
  ValuesKept.DropsValues,
  declared.{cascade.RefCounts.RefCounts, load_table.LoadRow.LoadRow},
};
ghost use Rattle.pagable_value_spec.specs.declared.numbers.{LoadNumber.LoadNumber, NodeNumber.NodeNumber};
ghost use Rattle.std.specs.{
  Prelude.{IfErr, IfNone, IfOk, IfSome, None, Ok, Option, Some, false, if◌then◌else◌, length, not, true, ℕ, [], ◌+◌},
  Prelude.{◌<◌, ◌==◌, ◌||◌, ◌≡◌, ◌≤◌, ◌⊎◌},
};
ghost use Rattle.pagable_pager_spec.specs.declared.handle_row.Owner.TheVariants as owners;

use crate::cache::cache_get;
use crate::cascade::{RefCounts, finish_cascade};
use crate::checks::{find_owned, load_fault, load_row, references_fault};
use crate::create::{add_handle, insert_node, make_handle, make_room_for_node};
use crate::kinds::{earlier, is_loose_mode, mode_of};
use crate::load_table::{LoadRoot, LoadRow};
use crate::nodes::{NodeValues, is_in_memory};
use crate::release::release_if_owned;
use crate::tables::Tables;
use crate::{cache, load_table, nodes};
use pagable_pager_spec::handle_row::Owner;
use pagable_pager_spec::{Beginning, Mode};
use pagable_value_spec::{ArcRef, DataKey, Error, HandleNumber, Kind, LoadNumber, NodeNumber};
use std::alloc::Global;

/// Begins a load of a loose handle's cell and returns its number and the key to read; or
/// `InMemory`, if the value is in memory. The load gets a new handle of the cell, unpinned.
///
/// # Errors
///
/// - `NoSuchHandle` if the handle isn't live.
/// - `NotYours` if another owns it.
/// - `WrongMode` if it isn't loose.
/// - `NumbersSpent` if no number of a load or a handle is left.
/// - `OutOfMemory` if a table can't grow. After each error no load has begun and no handle was
///   made.
#[tactic(auto, using(crate::proofs::CascadeStep::counting))]
pub fn load_begin(t: &mut Tables, me: Owner, handle: HandleNumber) -> Result<Beginning, Error>
    requires whole { IsWhole t.old }
    requires later { OwnLaterHandles t.old }
    requires owner { MayOwnLoad (core_alone t.old) me }
    ensures { Does t.old (λ w w'. BeginCall w me handle result w') t.new }
{
    let at = find_owned(t, me, handle)?;
    if !is_loose_mode(at.row.mode) {
        return Err(Error::WrongMode);
    }
    let counts = nodes::counts_of(&t.ref_counts.nodes, at.row.node.0);
    if is_in_memory(counts) {
        return Ok(Beginning::InMemory);
    }
    let key = nodes::key_in(counts).unwrap();
    if t.last_load == u64::MAX || t.ref_counts.last_handle == u64::MAX {
        return Err(Error::NumbersSpent);
    }
    let load = LoadNumber(t.last_load + 1);
    let row = LoadRow {
        owner: me,
        key,
        root: LoadRoot::Cell(at.row.node, counts.unwrap().node_type, at.row.number),
        since: t.ref_counts.last_handle,
        last: t.ref_counts.last_handle,
    };
    load_table::add_row(&mut t.loads, load.0, row)?;
    let mode = Mode::LooseUnpinned;
    if let Err(e) = add_handle(&mut t.ref_counts, at.row.node, mode, Owner::Load(load)) {
        load_table::remove_row(&mut t.loads, load.0);
        return Err(e);
    }
    t.last_load = load.0;
    Ok(Beginning::Load(load, key))
}

/// Makes a handle, owned by the load, of the node that is cached under a kind and a key. Returns
/// None, and changes nothing, if no usable node is cached there: the load has to read the blob of
/// this key.
///
/// # Errors
///
/// - `NoSuchHandle` if no such load is open.
/// - `NotYours` if another began it.
/// - `NumbersSpent` if no handle number is left.
/// - `OutOfMemory` if the handles can't grow. After each error the tables are unchanged.
pub fn load_cached(
    t: &mut Tables,
    me: Owner,
    load: LoadNumber,
    kind: Kind,
    key: DataKey,
) -> Result<Option<HandleNumber>, Error>
    requires whole { IsWhole t.old }
    requires later { OwnLaterHandles t.old }
    ensures does { Does t.old (λ w w'. AsksCache w me load kind key result w') t.new }
    ensures none { IfOk result (λ found. IfNone found (t.new ≡ t.old)) }
{
    let _row = load_row(t, me, load)?;
    cache_get(t, Owner::Load(load), kind, key)
}

/// Begins a load of a key, without a cell.
///
/// # Errors
///
/// - `NumbersSpent` if no load number is left: nothing changes.
/// - `OutOfMemory` if the loads' table can't grow: nothing changes.
pub fn load_key(t: &mut Tables, me: Owner, key: DataKey) -> Result<Beginning, Error>
    requires whole { IsWhole t.old }
    requires later { OwnLaterHandles t.old }
    requires owner { MayOwnLoad (core_alone t.old) me }
    ensures { Does t.old (λ w w'. BeginKeyCall w me key result w') t.new }
{
    if t.last_load == u64::MAX {
        return Err(Error::NumbersSpent);
    }
    let load = t.last_load + 1;
    let row = LoadRow {
        owner: me,
        key,
        root: LoadRoot::Key,
        since: t.ref_counts.last_handle,
        last: t.ref_counts.last_handle,
    };
    load_table::add_row(&mut t.loads, load, row)?;
    t.last_load = load;
    Ok(Beginning::Load(LoadNumber(load), key))
}

/// Inserts a node, returns a handle of it that the load owns, and caches the node if `lists`. The
/// call can't fail: `make_room_for_node` has made room. A node with a key of its own (`own_key`
/// isn't 0) may not be a shared one, and may have references only if its handle pins it.
fn insert_and_cache(
    t: &mut Tables,
    load: LoadNumber,
    kind: Kind,
    key: DataKey,
    own_key: u128,
    references: Vec<ArcRef>,
    lists: bool,
) -> HandleNumber
    requires whole { IsWhole t.old }
    requires ready { HasRoomForNode t.old }
    requires cache_room { 0 < spare t.old.cache }
    requires holder { MayOwnHandle (core_alone t.old) (owners.Load load) }
    requires fit { references_fault (core_alone t.old) (owners.Load load) [] references.items ≡ None }
    requires keyed { (own_key ≡ 0) ⊎ ((is_shared (mode_of kind.0) ≡ false)
        × ((references.items ≡ []) ⊎ (is_pinning (mode_of kind.0) ≡ true))) }
    ensures { Does t.old (λ w w'. IsNext result w × (lists ≡ not w.closed
        → Alike (adopted w load kind key (key_in own_key) references.items) w')) t.new }
{
    let me = Owner::Load(load);
    let handle = insert_node(t, me, kind.node_type(), own_key, references, mode_of(kind));
    cache::cache_if(&mut t.cache, lists, kind, key, NodeNumber(t.last_node));
    handle
}

/// Inserts a node as `insert_and_cache` does, and then calls `forget_gone`.
fn insert_and_prune_cache(
    t: &mut Tables,
    load: LoadNumber,
    kind: Kind,
    key: DataKey,
    own_key: u128,
    references: Vec<ArcRef>,
    lists: bool,
) -> HandleNumber
    requires whole { IsWhole t.old }
    requires ready { HasRoomForNode t.old }
    requires cache_room { 0 < spare t.old.cache }
    requires holder { MayOwnHandle (core_alone t.old) (owners.Load load) }
    requires fit { references_fault (core_alone t.old) (owners.Load load) [] references.items ≡ None }
    requires keyed { (own_key ≡ 0) ⊎ ((is_shared (mode_of kind.0) ≡ false)
        × ((references.items ≡ []) ⊎ (is_pinning (mode_of kind.0) ≡ true))) }
    ensures { Does t.old (λ w w'. IsNext result w × (lists ≡ not w.closed
        → Alike (adopted w load kind key (key_in own_key) references.items) w')) t.new }
{
    let handle = insert_and_cache(t, load, kind, key, own_key, references, lists);
    cache::forget_gone(t);
    handle
}

/// Makes a handle, owned by the load, of the cell that is cached under a loose kind and a key; or
/// inserts a cell that has this key and no value, and caches it if `lists`.
///
/// # Errors
///
/// - `NoSuchHandle` if no such load is open.
/// - `NotYours` if another began it.
/// - `WrongKind` if the kind isn't a loose one.
/// - `NumbersSpent` if no number of a handle or a node is left.
/// - `OutOfMemory` if a table can't grow. After each error at most some tables have more room.
pub fn load_lazy(
    t: &mut Tables,
    me: Owner,
    load: LoadNumber,
    kind: Kind,
    key: DataKey,
    lists: bool,
    alloc: Global,
) -> Result<HandleNumber, Error>
    requires whole { IsWhole t.old }
    requires later { OwnLaterHandles t.old }
    ensures { Does t.old (λ w w'. lists ≡ not w.closed → LazyCall w me load kind key result w') t.new }
{
    let _row = load_row(t, me, load)?;
    if !kind.is_loose() {
        return Err(Error::WrongKind);
    }
    if let Some(node) = cache::usable_of(t, kind, key) {
        return make_handle(t, node, mode_of(kind), Owner::Load(load));
    }
    make_room_for_node(t)?;
    Ok(insert_and_prune_cache(t, load, kind, key, key.get(), Vec::new(alloc), lists))
}

/// Returns why a value that a load has read can't become a node, apart from numbers and memory.
fn adopt_fault(
    t: &Tables,
    me: Owner,
    load: LoadNumber,
    kind: Kind,
    node_type: u32,
    references: &[ArcRef],
) -> Option<Error>
    requires { IsWhole t.now }
    ensures { (storage : StorageView) → result ≡ adopt_check_fault (core_of t.now storage) me load kind node_type
        references.now }
{
    let own = load_fault(load_table::load_of(&t.loads, load.0), me);
    let mode = kind.is_loose().then_some(Error::WrongMode);
    let typed = (node_type != kind.node_type()).then_some(Error::WrongKind);
    let fit = references_fault(t, Owner::Load(load), references);
    earlier(own, earlier(mode, earlier(typed, fit)))
}

/// Releases the handles that the references name, all of which the load owns, and runs the cascade.
#[tactic(auto, using(crate::proofs::CascadeEnd::dropping))]
fn release_named<N: Drop>(
    t: &mut RefCounts,
    values: &mut NodeValues<N>,
    load: LoadNumber,
    references: &[ArcRef],
    lists: bool,
)
    requires { IsSoundInCascade t.old [] owns_nothing }
    ensures steady { IsSoundInCascade t.new [] owns_nothing }
    ensures drops { DropsValues (counts_at t.old.nodes) (row_by values.old) (counts_at t.new.nodes)
        (row_by values.new) }
    ensures falls { (before w : Core) → ReleasedSoFar before w nobody lists (record t.old { listing_error = None })
        → length (live t.old.handles.places.items) ≤ length w.rows
        → ((q : ℕ) → is_named_by references.now q ≡ true → is_owned_in w (owners.Load load) q ≡ true)
        → FallsAnyhow before w (is_named_by references.now) (with_tables w t.new) }
{
    t.listing_error = None;
    for reference in references {
        release_if_owned(t, values, load, reference.handle, lists);
    }
    let _ = finish_cascade(t, values, lists);
}

/// Makes a handle, owned by the load, of the node that is cached under a kind and a key, instead of
/// what the load has read: the handles that `references` name are released. Returns None, and
/// changes nothing, if no usable node is cached there.
///
/// # Errors
///
/// - `NoSuchHandle` if no such load is open, or a handle of the references isn't live or is of
///   another node.
/// - `NotYours` if another began the load, or a handle of the references isn't the load's or is
///   named twice.
/// - `WrongMode` if the kind is a loose one, or a handle's mode isn't its reference's.
/// - `WrongKind` if the value's type isn't the kind's, or the type of a reference's node isn't the
///   reference's.
/// - `NumbersSpent` if no handle number is left.
/// - `OutOfMemory` if the handles can't grow. After each error the tables and values are unchanged.
pub fn adopt_if_cached<N: Drop>(
    t: &mut Tables,
    values: &mut NodeValues<N>,
    me: Owner,
    load: LoadNumber,
    kind: Kind,
    key: DataKey,
    node_type: u32,
    references: &[ArcRef],
    lists: bool,
) -> Result<Option<HandleNumber>, Error>
    requires whole { IsWhole t.old }
    requires later { OwnLaterHandles t.old }
    requires valued { (n : ℕ) → usable (core_alone t.old) kind.0 key ≡ Some n → is_loose_kind kind.0 ≡ false
        → has_value (counts_at t.old.ref_counts.nodes n) ≡ true }
    ensures known { (storage : StorageView) → lists ≡ not storage.closed
        → IfOk result (λ found. IfSome found (λ k. Adopts (core_of t.old storage) me load kind key node_type
        references.now k (core_of t.new storage))) }
    ensures fresh { (storage : StorageView) → IfOk result
        (λ found. IfNone found
        (adopt_check_fault (core_of t.old storage) me load kind node_type references.now ≡ None)) }
    ensures given { IfOk result (λ found. IfSome found
        (λ k. (n : ℕ) × (usable (core_alone t.old) kind.0 key ≡ Some n))) }
    ensures unknown { IfOk result (λ found. IfNone found (usable (core_alone t.old) kind.0 key ≡ None)) }
    ensures same { IfOk result (λ found. IfNone found (t.new ≡ t.old)) }
    ensures kept { IfOk result (λ found. IfNone found (values.new ≡ values.old)) }
    ensures refused { (storage : StorageView) → IfErr result
        (λ e. Refused (adopt_fault (core_of t.old storage) me load kind key node_type references.now)
        (load_fault (core_of t.old storage) me load) (Unit {0}) (core_of t.old storage) e (core_of t.new storage)) }
    ensures whole { IsWhole t.new }
    ensures later { OwnLaterHandles t.new }
    ensures drops { DropsValues (counts_at t.old.ref_counts.nodes) (row_by values.old)
        (counts_at t.new.ref_counts.nodes)
        (row_by values.new) }
{
    if let Some(e) = adopt_fault(t, me, load, kind, node_type, references) {
        return Err(e);
    }
    let Some(node) = cache::usable_of(t, kind, key) else {
        return Ok(None);
    };
    let handle = make_handle(t, node, mode_of(kind), Owner::Load(load))?;
    release_named(&mut t.ref_counts, values, load, references, lists);
    Ok(Some(handle))
}

/// Makes a node of what a load has read, returns a handle of it that the load owns, and caches the
/// node if `lists`. It can't fail: `adopt_if_cached` has found no error and no cached node, and
/// `make_room_for_node` has made room.
pub fn adopt(
    t: &mut Tables,
    load: LoadNumber,
    kind: Kind,
    key: DataKey,
    references: Vec<ArcRef>,
    lists: bool,
) -> HandleNumber
    requires whole { IsWhole t.old }
    requires later { OwnLaterHandles t.old }
    requires ready { HasRoomForNode t.old }
    requires cache_room { 0 < spare t.old.cache }
    requires asked { (me : Owner) × (node_type : ℕ) × (adopt_check_fault (core_alone t.old) me load kind node_type
        references.items ≡ None) }
    requires unknown { usable (core_alone t.old) kind.0 key ≡ None }
    ensures { Does t.old (λ w w'. IsNext result w × (lists ≡ not w.closed
        → Alike (adopted w load kind key (first_key kind.0 key) references.items) w')) t.new }
{
    let own_key = if kind.is_pinned() { key.get() } else { 0 };
    insert_and_prune_cache(t, load, kind, key, own_key, references, lists)
}
