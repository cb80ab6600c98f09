//! Queries of handles, nodes and the list. They change nothing.

ghost use Rattle.indexmap.specs.IndexMap.{get};
ghost use Rattle.pagable_pager_spec.specs.{
  Calls.{CountCall, IsPagedOutCall, KeyCall, Looks, NodeCall, TypeCall},
  Events.IsEntry,
  Kinds.{is_loose, is_pinning},
  World.key_at,
  declared.handle_row.HandleRow.HandleRow,
};
ghost use Rattle.pagable_tables.specs.{Core.{IsWhole, StorageView, core_alone, core_of}, Nodes.key_in};
ghost use Rattle.pagable_value_spec.specs.{
  declared.{data_key.OptionalDataKey.OptionalDataKey, numbers.NodeNumber.NodeNumber},
};
ghost use Rattle.std.specs.Prelude.{IfNone, IfSome, None, Ok, Option, Some, if◌then◌else◌, length, ◌*◌, ◌<◌, ◌≡◌, ◌≤◌};

use crate::kinds::{is_loose_mode, pins};
use crate::nodes::{is_in_memory, key_in};
use crate::tables::Tables;
use crate::{handle_table, nodes};
use pagable_pager_spec::handle_row::HandleRow;
use pagable_value_spec::{Error, HandleNumber, NodeNumber, OptionalDataKey};

/// Returns the node of a handle, whoever owns it.
///
/// # Errors
///
/// - `NoSuchHandle` if the handle isn't live.
pub fn node_of(t: &Tables, handle: HandleNumber) -> Result<NodeNumber, Error>
    requires { IsWhole t.now }
    ensures { (storage : StorageView) → NodeCall (core_of t.now storage) handle result }
{
    let at = handle_table::find_live(&t.ref_counts.handles, handle).ok_or(Error::NoSuchHandle)?;
    Ok(at.row.node)
}

/// Returns the node of a handle that pins it, None if the handle pins nothing.
///
/// # Errors
///
/// - `NoSuchHandle` if the handle isn't live.
pub fn pinned_node(t: &Tables, handle: HandleNumber) -> Result<Option<NodeNumber>, Error>
    requires { IsWhole t.now }
    ensures { (storage : StorageView) → Looks (core_of t.now storage) handle
        (λ node row. node ≡ (if is_pinning row.mode then Some row.node else None)) result }
{
    let at = handle_table::find_live(&t.ref_counts.handles, handle).ok_or(Error::NoSuchHandle)?;
    Ok(pins(at.row.mode).then_some(at.row.node))
}

/// Returns how many handles pin the node of a handle.
///
/// # Errors
///
/// - `NoSuchHandle` if the handle isn't live.
pub fn pin_count(t: &Tables, handle: HandleNumber) -> Result<u64, Error>
    requires { IsWhole t.now }
    ensures { (storage : StorageView) → CountCall (core_of t.now storage) handle result }
{
    let at = handle_table::find_live(&t.ref_counts.handles, handle).ok_or(Error::NoSuchHandle)?;
    let counts = nodes::counts_of(&t.ref_counts.nodes, at.row.node.0);
    Ok(counts.map_or(0, |c| c.pins))
}

/// Returns the key of the node of a handle.
///
/// # Errors
///
/// - `NoSuchHandle` if the handle isn't live.
pub fn key(t: &Tables, handle: HandleNumber) -> Result<OptionalDataKey, Error>
    requires { IsWhole t.now }
    ensures { (storage : StorageView) → KeyCall (core_of t.now storage) handle result }
{
    let at = handle_table::find_live(&t.ref_counts.handles, handle).ok_or(Error::NoSuchHandle)?;
    Ok(key_in(nodes::counts_of(&t.ref_counts.nodes, at.row.node.0)))
}

/// Says whether the value of the handle's node isn't in memory, so that it has to be loaded first.
///
/// # Errors
///
/// - `NoSuchHandle` if the handle isn't live.
#[inline(always)]
pub fn is_paged_out(t: &Tables, handle: HandleNumber) -> Result<bool, Error>
    requires { IsWhole t.now }
    ensures { (storage : StorageView) → IsPagedOutCall (core_of t.now storage) handle result }
{
    let at = handle_table::find_live(&t.ref_counts.handles, handle).ok_or(Error::NoSuchHandle)?;
    Ok(!is_in_memory(nodes::counts_of(&t.ref_counts.nodes, at.row.node.0)))
}

/// Says whether a handle is loose.
///
/// # Errors
///
/// - `NoSuchHandle` if the handle isn't live.
pub fn is_loose(t: &Tables, handle: HandleNumber) -> Result<bool, Error>
    requires { IsWhole t.now }
    ensures { (storage : StorageView) → Looks (core_of t.now storage) handle (λ loose row. loose ≡ is_loose row.mode)
        result }
{
    let at = handle_table::find_live(&t.ref_counts.handles, handle).ok_or(Error::NoSuchHandle)?;
    Ok(is_loose_mode(at.row.mode))
}

/// Returns the type of a node, None if the node is gone.
pub fn node_live(t: &Tables, node: NodeNumber) -> Option<u32>
    ensures { TypeCall (core_alone t.now) node result }
{
    Some(nodes::counts_of(&t.ref_counts.nodes, node.0)?.node_type)
}

/// Returns the row of the handle at this index of the pending list, with the type and the key of
/// the handle's cell; or None past the end of the list.
#[tactic(auto, using(crate::proofs::CascadeStep::counting))]
pub fn pending_entry(t: &Tables, place: usize) -> Option<(HandleRow, u32, OptionalDataKey)>
    requires { IsWhole t.now }
    ensures found { IfSome result (λ e. (storage : StorageView)
        → IsEntry (core_of t.now storage) place e.0.number e.0 e.1) }
    ensures keyed { IfSome result (λ e. (storage : StorageView) → key_at (core_of t.now storage) e.0.node.0 ≡ e.2) }
    ensures past { IfNone result (length t.now.ref_counts.list.items ≤ place) }
{
    let handle = *t.ref_counts.list.get(place)?;
    let Some(at) = handle_table::find_live(&t.ref_counts.handles, handle) else {
        unreachable!();
    };
    let counts = nodes::counts_of(&t.ref_counts.nodes, at.row.node.0);
    Some((at.row, counts.unwrap().node_type, key_in(counts)))
}

/// Returns how many entries the pending list has.
pub fn pending_count(t: &Tables) -> usize
    ensures { result ≡ length t.now.ref_counts.list.items }
{
    t.ref_counts.list.len()
}
