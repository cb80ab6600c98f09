//! A check of whether all tables agree, for tests.

ghost use Rattle.indexmap.specs.IndexMap.{IsUnique, get};
ghost use Rattle.pagable_pager_spec.specs.{
  Kinds.{is_owner, is_shared, is_unpinned},
  declared.{handle_row.{HandleRow.HandleRow, Owner.Owner}, mode.Mode.Mode},
};
ghost use Rattle.pagable_tables.specs.{
  Core.IsWhole,
  Indexes.is_same,
  Nodes.{counts_at, has_value, refs_at},
  NumberTable.row_by,
  Soundness.{agree, are_counts_sound, are_handles_sound, are_nodes_sound, are_places_sound, are_references_owned},
  Soundness.{at_node, is_cache_entry_sound, is_cache_sound, is_known_to_owner, is_list_sound, is_node_sound},
  Soundness.{is_owned_once, is_row_sound, is_sound, pins_node, shares_node},
  ValuesKept.AreKept,
  declared.place.Place.{Place, Place as Row},
};
ghost use Rattle.pagable_value_spec.specs.declared.{
  numbers.{ArcRef.ArcRef as Reference, HandleNumber.HandleNumber as Number, NodeNumber.NodeNumber},
};
ghost use Rattle.std.specs.{
  Prelude.{List, None, Some, count_by, false, is_some, not, true, [], ◌&&◌, ◌*◌, ◌<◌, ◌==◌, ◌||◌, ◌≡◌},
};

use crate::kinds::{is_owner, is_unpinned, pins};
use crate::nodes::{Counts, NodeValues, Nodes};
use crate::place::Place;
use crate::tables::Tables;
use crate::{load_table, nodes};
use pagable_pager_spec::Mode;
use pagable_pager_spec::handle_row::{HandleRow, Owner};
use pagable_value_spec::{ArcRef, Kind, NodeNumber};

fn is_shared(mode: Mode) -> bool
    ensures { result ≡ is_shared mode }
{
    matches!(mode, Mode::Shared)
}

// Counts the live handles of a node.
fn count_handles(places: &[Place], node: u64) -> usize
    ensures { result ≡ count_by (at_node node) places.now }
{
    places
        .iter()
        .filter(|place| place.is_live() && place.row().node.0 == node)
        .count()
}

// Counts the live handles that pin a node.
fn count_pins(places: &[Place], node: u64) -> usize
    ensures { result ≡ count_by (pins_node node) places.now }
{
    places
        .iter()
        .filter(|place| place.is_live() && place.row().node.0 == node && pins(place.row().mode))
        .count()
}

// Counts the live Shared handles of a node.
fn count_shared(places: &[Place], node: u64) -> usize
    ensures { result ≡ count_by (shares_node node) places.now }
{
    places
        .iter()
        .filter(|place| place.is_live()
            && place.row().node.0 == node
            && is_shared(place.row().mode))
        .count()
}

// Says whether exactly one live row has the handle's number and this owner.
fn is_owned_once(places: &[Place], owner: Owner, handle: u64) -> bool
    ensures { result ≡ is_owned_once places.now owner handle }
{
    let owned = places.iter().filter(|place| {
        place.is_live() && place.number() == handle && is_owner(owner, place.row().owner)
    });
    owned.count() == 1
}

// Returns the references of a node's value, none if it isn't in memory.
fn references_of(nodes: &Nodes, node: u64) -> &[ArcRef]
    ensures { result.now ≡ refs_at nodes.now node }
{
    match nodes.get(node) {
        Some(row) => row.references.as_slice(),
        None => &[],
    }
}

// Says whether exactly one of these references has this handle.
fn is_in_one_reference(references: &[ArcRef], handle: u64) -> bool
    ensures { result ≡ (count_by (λ (r : Reference). r.handle.0 == handle) references.now == 1) }
{
    let named = references.iter().filter(|r| r.handle.0 == handle);
    named.count() == 1
}

// Says whether exactly one entry of the list is this handle.
fn is_listed_once(t: &Tables, handle: u64) -> bool
    ensures { result ≡ (count_by (λ (q : Number). q.0 == handle) t.now.ref_counts.list.items == 1) }
{
    let listed = t.ref_counts.list.iter().filter(|q| q.0 == handle);
    listed.count() == 1
}

// Says whether the owner in a handle's row knows the handle: a value if one reference names it, the
// list if it is unpinned and in one entry, a load if it is open, a worker if it runs, the caller
// always.
fn is_known_to_owner(t: &Tables, row: HandleRow) -> bool
    ensures { result ≡ is_known_to_owner t.now row row.owner }
{
    match row.owner {
        Owner::Caller => true,
        Owner::Value(node) => {
            is_in_one_reference(references_of(&t.ref_counts.nodes, node.0), row.number.0)
        }
        Owner::List => is_unpinned(row.mode) && is_listed_once(t, row.number.0),
        Owner::Load(load) => load_table::load_of(&t.loads, load.0).is_some(),
        Owner::Worker(worker) => t.workers.get(&worker.0).is_some(),
    }
}

// Says whether a live handle has a number that was given out, a node that exists, and an owner that
// knows the handle.
fn is_row_sound(t: &Tables, row: HandleRow) -> bool
    ensures { result ≡ is_row_sound t.now row }
{
    let is_given = 1 <= row.number.0 && row.number.0 <= t.ref_counts.last_handle;
    is_given
        && nodes::counts_of(&t.ref_counts.nodes, row.node.0).is_some()
        && is_known_to_owner(t, row)
}

// Says whether `left` equals `right`.
fn agree(left: bool, right: bool) -> bool
    ensures { result ≡ agree left right }
{
    if left { right } else { !right }
}

// Says whether a node's counts are right: it counts its handles and pins, has a handle and isn't
// dying, has its value in memory exactly if a handle pins it or it has no key, and if one of its
// handles is Shared, all are, and it has no key.
#[tactic(auto, unfolding(crate::specs::Soundness::are_counts_sound))]
fn are_counts_sound(places: &[Place], node: u64, is_here: bool, counts: Counts) -> bool
    ensures { result ≡ are_counts_sound places.now node is_here counts }
{
    let shares = count_shared(places, node) as u64;
    let are_counted = counts.pins == count_pins(places, node) as u64
        && counts.holds == count_handles(places, node) as u64;
    let is_held = 1 <= counts.holds && !counts.is_dying;
    let has_value = 1 <= counts.pins || counts.key == 0;
    let is_uniform = shares == 0 || (shares == counts.holds && counts.key == 0);
    are_counted && is_held && (agree(is_here, has_value) && is_uniform)
}

// Says whether the value of a node owns each handle that its references name.
#[tactic(auto, unfolding(crate::specs::Soundness::are_references_owned))]
fn are_references_owned(t: &Tables, node: u64) -> bool
    ensures { result ≡ are_references_owned t.now node }
{
    let places = t.ref_counts.handles.places.as_slice();
    let owner = Owner::Value(NodeNumber(node));
    references_of(&t.ref_counts.nodes, node)
        .iter()
        .all(|r| is_owned_once(places, owner, r.handle.0))
}

// Says whether a node's counts are right and its value owns its references' handles; or, if there
// is no such node, whether there is no value either.
fn is_node_sound(t: &Tables, node: u64, is_here: bool) -> bool
    ensures { result ≡ is_node_sound t.now node is_here (counts_at t.now.ref_counts.nodes node) }
{
    let places = t.ref_counts.handles.places.as_slice();
    match nodes::counts_of(&t.ref_counts.nodes, node) {
        Some(counts) => {
            are_counts_sound(places, node, is_here, counts) && are_references_owned(t, node)
        }
        None => !is_here,
    }
}

// Says whether a node has its value in memory.
fn has_value<N: Drop>(values: &NodeValues<N>, node: u64) -> bool
    ensures { result ≡ is_some (row_by values.now node) }
{
    values.get(node).is_some()
}

// Says whether the nodes of all numbers that were given out are sound.
#[tactic(auto, using(crate::proofs::NodesSound::stepping))]
fn are_nodes_sound<N: Drop>(t: &Tables, values: &NodeValues<N>) -> bool
    ensures { result ≡ are_nodes_sound t.now values.now t.now.last_node }
{
    let mut left = t.last_node;
    while left > 0 {
        if !is_node_sound(t, left, has_value(values, left)) {
            return false;
        }
        left -= 1;
    }
    true
}

fn count_dead(places: &[Place]) -> usize
    ensures { result ≡ count_by (λ (p : Row). not p.is_live) places.now }
{
    places.iter().filter(|place| !place.is_live()).count()
}

// Says whether all live handles are sound.
#[tactic(auto, unfolding(crate::specs::Soundness::are_places_sound))]
fn are_places_sound(t: &Tables) -> bool
    ensures { result ≡ are_places_sound t.now }
{
    let places = t.ref_counts.handles.places.as_slice();
    places
        .iter()
        .all(|place| !place.is_live() || is_row_sound(t, place.row()))
}

// Says whether all live handles are sound, and the dead rows are counted.
fn are_handles_sound(t: &Tables) -> bool
    ensures { result ≡ are_handles_sound t.now }
{
    let dead = count_dead(t.ref_counts.handles.places.as_slice());
    are_places_sound(t) && dead == t.ref_counts.handles.dead
}

// Says whether the list owns the handle of each of its entries.
#[tactic(auto, unfolding(crate::specs::Soundness::is_list_sound))]
fn is_list_sound(t: &Tables) -> bool
    ensures { result ≡ is_list_sound t.now }
{
    let places = t.ref_counts.handles.places.as_slice();
    t.ref_counts
        .list
        .iter()
        .all(|entry| is_owned_once(places, Owner::List, entry.0))
}

// Says whether a cached node has a number that was given out and, while it lives, the kind's type,
// and Shared handles exactly if the kind is shared.
fn is_cache_entry_sound(t: &Tables, kind: Kind, node: NodeNumber) -> bool
    ensures { result ≡ is_cache_entry_sound t.now kind.0 node.0 (counts_at t.now.ref_counts.nodes node.0) }
{
    let is_given = node.0 <= t.last_node;
    match nodes::counts_of(&t.ref_counts.nodes, node.0) {
        Some(counts) => {
            let is_shared = 1 <= count_shared(t.ref_counts.handles.places.as_slice(), node.0);
            is_given && (counts.node_type == kind.node_type() && agree(is_shared, kind.is_shared()))
        }
        None => is_given,
    }
}

#[tactic(auto, unfolding(crate::specs::Soundness::is_cache_sound))]
fn is_cache_sound(t: &Tables) -> bool
    ensures exact { result ≡ is_cache_sound t.now }
    ensures unique { IsUnique is_same t.now.cache }
{
    t.cache.iter().all(|(known, node)| is_cache_entry_sound(t, Kind(known.0), *node))
}

/// Says whether handles, nodes and their counts, list, cache, loads, workers and values agree: each
/// live handle has a node, and an owner that knows the handle; each node counts its handles, and
/// has its value exactly while a handle pins it or it has no key; each value owns the handles of
/// its references; and each cached node is of its kind. So they do in whole tables, with the values
/// that have to be in memory. The check takes time quadratic in the size of the tables.
#[tactic(auto, using(crate::proofs::AlwaysSound::sound), unfolding(crate::specs::Soundness::is_sound))]
pub fn is_sound<N: Drop>(t: &Tables, values: &NodeValues<N>) -> bool
    ensures exact { result ≡ is_sound t.now values.now }
    ensures always { IsWhole t.now → AreKept (counts_at t.now.ref_counts.nodes) (row_by values.now) → result ≡ true }
{
    are_handles_sound(t)
        && (is_list_sound(t) && is_cache_sound(t))
        && (t.ref_counts.top == 0 && are_nodes_sound(t, values))
}
