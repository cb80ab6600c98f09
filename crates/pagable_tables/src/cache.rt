//! The cache: the node that is known under a kind and a key.

ghost use Rattle.indexmap.specs.IndexMap.{get, spare};
ghost use Rattle.pagable_pager_spec.specs.{
  Basics.type_of,
  Calls.{OfferCall, RecallCall, offer_fault},
  Kinds.{fits_mode, is_pinning, mode_of},
  Refusals.Owns,
  World.{Alike, type_at, usable},
  declared.handle_row.{HandleRow.HandleRow, Owner.Owner},
};
ghost use Rattle.pagable_tables.specs.{
  CascadeInvariant.owns,
  Core.{Does, IsWhole, MayOwnHandle, OwnLaterHandles, StorageView, core_alone, core_of},
  Indexes.cached_at,
  Nodes.{counts_at, has_value, living},
  NumberTable.row_by,
  ValuesKept.DropsValues,
};
ghost use Rattle.pagable_value_spec.specs.declared.numbers.NodeNumber.{NodeNumber};
ghost use Rattle.std.specs.{
  Option.option_map,
  Prelude.{Bool, IfErr, IfNone, IfOk, IfSome, IsOk, None, Ok, OnErr, OnOk, Option, Some, false, if◌then◌else◌, is_some},
  Prelude.{length, not, true, ℕ, ◌&&◌, ◌*◌, ◌+◌, ◌<◌, ◌||◌, ◌≡◌, ◌≢◌, ◌≤◌, ◌⊎◌},
};

use crate::checks::find_owned;
use crate::create::make_handle;
use crate::kinds::{fits_mode, mode_of};
use crate::nodes;
use crate::nodes::{NodeValues, Nodes, has_type_of, is_in_memory};
use crate::release::try_release_at;
use crate::tables::{Cache, Tables};
use pagable_pager_spec::handle_row::{HandleRow, Owner};
use pagable_value_spec::{DataKey, Error, HandleNumber, Kind, NodeNumber};
use std::alloc::AllocError;

/// Caches a node under a kind and a key, instead of the one that was cached there.
///
/// # Errors
///
/// - `AllocError` if the map has no room for the entry and can't grow: the cache is unchanged.
pub fn put(cache: &mut Cache, kind: Kind, key: DataKey, node: NodeNumber) -> Result<(), AllocError>
    ensures here { OnOk result (cached_at cache.new kind.0 key ≡ Some node) }
    ensures others { OnOk result ((k q : ℕ) → (k ≢ kind.0) ⊎ (q ≢ key) → cached_at cache.new k q
        ≡ cached_at cache.old k q) }
    ensures err { OnErr result ((k q : ℕ) → cached_at cache.new k q ≡ cached_at cache.old k q) }
    ensures succeeds { 0 < spare cache.old → IsOk result }
{
    cache.insert((kind.0, key), node)?;
    Ok(())
}

/// Caches a node under a kind and a key if `wanted`. The caller has made room for the entry.
pub fn cache_if(cache: &mut Cache, wanted: bool, kind: Kind, key: DataKey, node: NodeNumber)
    requires { 0 < spare cache.old }
    ensures here { wanted ≡ true → cached_at cache.new kind.0 key ≡ Some node }
    ensures others { (k q : ℕ) → (k ≢ kind.0) ⊎ (q ≢ key) → cached_at cache.new k q ≡ cached_at cache.old k q }
    ensures same { wanted ≡ false → cache.new ≡ cache.old }
{
    if wanted {
        put(cache, kind, key, node).unwrap();
    }
}

/// The constant part of the cache's limit, which `forget_gone` sets to twice the number of entries
/// left plus 64.
const FEW_ENTRIES: usize = 64;

/// Removes the cache entries of nodes that are gone.
fn keep_living(cache: &mut Cache, nodes: &Nodes)
    ensures { (kind key : ℕ) → cached_at cache.new kind key
        ≡ living (counts_at nodes.now) (cached_at cache.old kind key) }
{
    let _many = cache.len();
    cache.retain(
        |_under: &(u32, DataKey), node: &mut NodeNumber| -> bool
            ensures { (result ≡ is_some (counts_at nodes.entry.now node.old.0)) × (node.new ≡ node.old) }
        { nodes::counts_of(nodes, node.0).is_some() },
    );
}

/// If the cache has more entries than its limit, removes those of nodes that are gone, and sets the
/// limit to twice the number of entries left plus 64. So each insertion pays for a look at one or
/// two entries, and the cache stays within its limit.
pub fn forget_gone(t: &mut Tables)
    requires { IsWhole t.old }
    ensures does { Does t.old Alike t.new }
    ensures gone { t.old.cache_limit < length t.old.cache.entries → (kind key : ℕ)
        → IfSome (cached_at t.new.cache kind key) (λ n. is_some (counts_at t.old.ref_counts.nodes n.0) ≡ true) }
    ensures few { t.old.cache_limit < length t.old.cache.entries
        → t.new.cache_limit ≤ 2 * length t.new.cache.entries + 64 }
    ensures same { t.new ≡ record t.old { cache = t.new.cache; cache_limit = t.new.cache_limit } }
{
    if t.cache.len() <= t.cache_limit {
        return;
    }
    keep_living(&mut t.cache, &t.ref_counts.nodes);
    t.cache_limit = t.cache.len().saturating_mul(2).saturating_add(FEW_ENTRIES);
}

/// Returns the node that is cached under a kind and a key; None if there is none, if it is gone or,
/// for a pinned kind, if its value isn't in memory.
#[inline(always)]
pub fn usable_of(t: &Tables, kind: Kind, key: DataKey) -> Option<NodeNumber>
    requires { IsWhole t.now }
    ensures { (storage : StorageView) → option_map (λ (n : NodeNumber). n.0) result
        ≡ usable (core_of t.now storage) kind.0 key }
{
    let node = t.cache.get(&(kind.0, key)).copied()?;
    let counts = nodes::counts_of(&t.ref_counts.nodes, node.0);
    let is_gone = counts.is_none() || kind.is_pinned() && !is_in_memory(counts);
    (!is_gone).then_some(node)
}

/// Makes a handle of the node that is cached under a kind and a key, in the kind's mode. Returns
/// None, and changes nothing, if no usable node is cached there.
///
/// # Errors
///
/// - `NumbersSpent` if no handle number is left: nothing changes.
/// - `OutOfMemory` if the handles can't grow: nothing changes.
pub fn cache_get(
    t: &mut Tables,
    me: Owner,
    kind: Kind,
    key: DataKey,
) -> Result<Option<HandleNumber>, Error>
    requires whole { IsWhole t.old }
    requires holder { MayOwnHandle (core_alone t.old) me }
    ensures does { Does t.old (λ w w'. RecallCall w me kind key result w') t.new }
    ensures none { IfOk result (λ found. IfNone found (t.new ≡ t.old)) }
{
    let Some(node) = usable_of(t, kind, key) else {
        return Ok(None);
    };
    Ok(Some(make_handle(t, node, mode_of(kind), me)?))
}

/// Returns the row of a handle that `me` owns and that may be cached under this kind.
///
/// # Errors
///
/// - `NoSuchHandle` if the handle isn't live.
/// - `NotYours` if another owns it.
/// - `WrongMode` if its mode isn't the kind's.
/// - `WrongKind` if its node's type isn't the kind's.
pub fn offered_row(
    t: &Tables,
    me: Owner,
    kind: Kind,
    handle: HandleNumber,
) -> Result<HandleRow, Error>
    requires { IsWhole t.now }
    ensures owns { IfOk result (λ row. Owns (core_alone t.now) me handle (fits_mode kind.0) row) }
    ensures typed { IfOk result (λ row. type_at (core_alone t.now) row.node.0 ≡ Some (type_of kind.0)) }
    ensures fault { IfErr result (λ e. (storage : StorageView) (key : ℕ)
        → offer_fault (core_of t.now storage) me kind key handle ≡ Some e) }
{
    let at = find_owned(t, me, handle)?;
    if !fits_mode(kind, at.row.mode) {
        return Err(Error::WrongMode);
    }
    if !has_type_of(nodes::counts_of(&t.ref_counts.nodes, at.row.node.0), kind) {
        return Err(Error::WrongKind);
    }
    Ok(at.row)
}

/// Caches the handle's node under a kind and a key, and returns None. If a usable node is cached
/// there already, releases `handle` and returns a new handle of that node, in the kind's mode.
/// While no cells are listed (the storage is closed), returns `handle` and changes nothing.
///
/// # Errors
///
/// - `NoSuchHandle`, `NotYours`, `WrongMode`, `WrongKind` as in `offered_row`.
/// - `NumbersSpent` if no number is left for the new handle.
/// - `OutOfMemory` if the cache or the handles can't grow. After each error the tables are
///   unchanged.
///
/// If loads and workers owned only handles that were made since they began, they still do
/// (`later`).
#[tactic(auto, using(std::proofs::lemmas::Bool::Decides::nat_tests))]
pub fn offer<N: Drop>(
    t: &mut Tables,
    values: &mut NodeValues<N>,
    me: Owner,
    kind: Kind,
    key: DataKey,
    handle: HandleNumber,
    lists: bool,
) -> Result<Option<HandleNumber>, Error>
    requires whole { IsWhole t.old }
    requires holder { MayOwnHandle (core_alone t.old) me }
    ensures offered { (storage : StorageView) → lists ≡ not storage.closed
        → OfferCall (core_of t.old storage) me kind key handle result (core_of t.new storage) }
    ensures whole { IsWhole t.new }
    ensures drops { ((n : ℕ) → usable (core_alone t.old) kind.0 key ≡ Some n → is_pinning (mode_of kind.0) ≡ true
        → has_value (counts_at t.old.ref_counts.nodes n) ≡ true)
        → DropsValues (counts_at t.old.ref_counts.nodes) (row_by values.old) (counts_at t.new.ref_counts.nodes)
        (row_by values.new) }
    ensures later { OwnLaterHandles t.old → OwnLaterHandles t.new }
{
    let row = offered_row(t, me, kind, handle)?;
    if !lists {
        return Ok(Some(handle));
    }
    let Some(node) = usable_of(t, kind, key) else {
        put(&mut t.cache, kind, key, row.node)?;
        forget_gone(t);
        return Ok(None);
    };
    let known = make_handle(t, node, mode_of(kind), me)?;
    let Ok(at) = find_owned(t, me, handle) else {
        unreachable!();
    };
    let _ = try_release_at(&mut t.ref_counts, values, at, true);
    Ok(Some(known))
}
