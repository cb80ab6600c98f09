//! Pins leaves (cells whose blobs have no references) without the row and the handle of a load. The
//! tables are afterwards as if a load had begun, got the blob and ended step by step.

ghost use Rattle.pagable_pager_spec.specs.{LoadCalls.BeginCall, Pager.MayOwnLoad, World.greatest};
ghost use Rattle.pagable_tables.specs.{
  Core.{Does, IsWhole, OnlyRoom, OwnLaterHandles, StorageView, core_alone, core_of},
  EndingLoads.has_value_once_loaded,
  HandleTable.room,
  Leaf.{DropsLeaf, IsLeaf, PinsLeaf, with_numbers},
  Nodes.{counts_at, has_value},
};
ghost use Rattle.std.specs.Prelude.{Err, IfErr, IfNone, IfOk, IfSome, Option, ℕ, ◌+◌, ◌<◌, ◌≡◌, ◌≤◌};

use crate::checks::find_owned;
use crate::create::pin_in_memory;
use crate::kinds::is_loose_mode;
use crate::tables::Tables;
use crate::{handle_table, nodes};
use pagable_pager_spec::handle_row::{HandleRow, Owner};
use pagable_value_spec::{DataKey, Error, HandleNumber};

/// A cell whose value isn't in memory, with the handle that is to be pinned.
#[derive(Clone, Copy)]
pub struct Leaf {
    pub row: HandleRow,
    pub key: DataKey,
    pub node_type: u32,
}

/// Returns the cell of a loose handle that `me` owns, if its value isn't in memory, and numbers are
/// left for a load, the load's handle and a pin.
pub fn find_unloaded(t: &Tables, me: Owner, handle: HandleNumber) -> Option<Leaf>
    requires { IsWhole t.now }
    ensures leaf { (storage : StorageView) → IfSome result (IsLeaf (core_of t.now storage) me) }
    ensures number { IfSome result (λ leaf. leaf.row.number ≡ handle) }
{
    let at = find_owned(t, me, handle).ok()?;
    let counts = nodes::counts_of(&t.ref_counts.nodes, at.row.node.0)?;
    if !is_loose_mode(at.row.mode) || counts.pins > 0 {
        return None;
    }
    if t.last_load == u64::MAX || t.ref_counts.last_handle >= u64::MAX - 1 {
        return None;
    }
    Some(Leaf {
        row: at.row,
        key: DataKey::new(counts.key)?,
        node_type: counts.node_type,
    })
}

/// Finds the cell of a loose handle as `find_unloaded` does, and makes room for a pin of it.
/// Returns None, and changes nothing, if `find_unloaded` returns None.
///
/// # Errors
///
/// - `OutOfMemory` if the handles can't grow: nothing changes.
pub fn prepare_pin(t: &mut Tables, me: Owner, handle: HandleNumber) -> Result<Option<Leaf>, Error>
    requires { IsWhole t.old }
    ensures leaf { (storage : StorageView) → IfOk result (λ found. IfSome found (IsLeaf (core_of t.new storage) me)) }
    ensures number { IfOk result (λ found. IfSome found (λ leaf. leaf.row.number ≡ handle)) }
    ensures place { IfOk result (λ found. IfSome found (λ leaf. 1 ≤ room t.new.ref_counts.handles)) }
    ensures none { IfOk result (λ found. IfNone found (t.new ≡ t.old)) }
    ensures does { Does t.old OnlyRoom t.new }
    ensures nodes { t.new.ref_counts.nodes ≡ t.old.ref_counts.nodes }
    ensures refused { (storage : StorageView) → IfErr result
        (λ e. BeginCall (core_of t.old storage) me handle (Err e) (core_of t.new storage)) }
{
    let Some(leaf) = find_unloaded(t, me, handle) else {
        return Ok(None);
    };
    match handle_table::reserve(&mut t.ref_counts.handles, 1) {
        Ok(()) => Ok(Some(leaf)),
        Err(refused) => Err(Error::from(refused)),
    }
}

/// Uses up the numbers of a load and of its handle, as if a load had begun and been dropped.
pub fn take_numbers(t: &mut Tables)
    requires whole { IsWhole t.old }
    requires load_left { t.old.last_load < greatest }
    requires handle_left { t.old.ref_counts.last_handle < greatest }
    ensures does { Does t.old (λ w w'. w' ≡ with_numbers w) t.new }
    ensures same { t.new ≡ record t.old {
      ref_counts =
          record t.old.ref_counts { last_handle = t.old.ref_counts.last_handle + 1 };
      last_load = t.old.last_load + 1;
    } }
{
    t.last_load += 1;
    t.ref_counts.last_handle += 1;
}

/// Pins the cell and returns the new Pinned handle, as if a load had begun and ended with a value
/// without references. The caller has stored the value among the values in memory already.
pub fn pin_loaded_leaf(t: &mut Tables, me: Owner, leaf: Leaf) -> HandleNumber
    requires whole { IsWhole t.old }
    requires leaf { IsLeaf (core_alone t.old) me leaf }
    requires may { MayOwnLoad (core_alone t.old) me }
    requires place { 1 ≤ room t.old.ref_counts.handles }
    ensures pins { (storage : StorageView) → PinsLeaf (core_of t.old storage) me leaf.row leaf.key leaf.node_type result
        (core_of t.new storage) }
    ensures values { (n : ℕ) → has_value (counts_at t.new.ref_counts.nodes n)
        ≡ has_value_once_loaded (counts_at t.old.ref_counts.nodes) leaf.row.node n }
    ensures whole { IsWhole t.new }
    ensures later { OwnLaterHandles t.old → OwnLaterHandles t.new }
{
    take_numbers(t);
    let Ok(handle) = pin_in_memory(t, me, leaf.row) else {
        unreachable!();
    };
    handle
}

/// Leaves the cell without its value, as if a load had begun and been dropped: only the load's
/// numbers are used up.
pub fn leave_unloaded(t: &mut Tables, me: Owner, leaf: Leaf)
    requires whole { IsWhole t.old }
    requires leaf { IsLeaf (core_alone t.old) me leaf }
    requires may { MayOwnLoad (core_alone t.old) me }
    requires place { 1 ≤ room t.old.ref_counts.handles }
    ensures does { Does t.old (λ w w'. DropsLeaf w me leaf.row leaf.key leaf.node_type w') t.new }
    ensures same { t.new ≡ record t.old {
      ref_counts =
          record t.old.ref_counts { last_handle = t.old.ref_counts.last_handle + 1 };
      last_load = t.old.last_load + 1;
    } }
{
    take_numbers(t);
}
