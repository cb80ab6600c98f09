//! Nodes by their numbers: the counts of each, and the references of its value.

ghost use Rattle.indexmap.specs.IndexMap.{get};
ghost use Rattle.pagable_pager_spec.specs.{
  Basics.{if_there, one, type_of},
  Kinds.{is_in_memory, is_pinning},
  Refusals.is_type,
  World.Cell,
  declared.{handle_row.{HandleRow.HandleRow, Owner.Owner}, mode.Mode.Mode},
};
ghost use Rattle.pagable_tables.specs.declared.nodes.Counts.{Counts};
ghost use Rattle.pagable_tables.specs.{
  CascadeInvariant.is_worker,
  CascadeSteps.{counts_after_release, falls_by_release, is_last_pin_without_key},
  Nodes.{cell_in, counts_at, key_in, most_worker_handles_at, pins_in, refs_at},
  NumberTable.{place_at, row_by},
};
ghost use Rattle.pagable_value_spec.specs.declared.data_key.OptionalDataKey.{OptionalDataKey};
ghost use Rattle.std.specs.{
  Option.option_to_list,
  Prelude.{IfNone, IfSome, IsSome, None, Option, Some, false, if◌then◌else◌, is_some, nat_lt, not, true, ℕ, [], ◌&&◌},
  Prelude.{◌++◌, ◌+◌, ◌/◌, ◌<◌, ◌==◌, ◌^◌, ◌||◌, ◌≡◌, ◌≢◌, ◌≤◌},
};

use crate::kinds::{is_worker, pins};
use crate::number_table::{NumberTable, chunk_of, place_of};
use pagable_pager_spec::Mode;
use pagable_pager_spec::handle_row::{HandleRow, Owner};
use pagable_value_spec::{ArcRef, DataKey, Kind, OptionalDataKey};
use std::marker::Model;
use std::sync::Arc;

/// The nodes by their numbers.
pub type Nodes = NumberTable<NodeRow>;

/// The values in memory, by the numbers of their nodes. They are kept beside `Tables`, not in it.
pub type NodeValues<N> = NumberTable<Arc<N>>;

/// A node's counts, with its key and its type.
#[derive(Clone, Copy)]
pub struct Counts {
    /// The node's key as a number, 0 for none.
    pub key: u128,
    /// How many of the node's handles pin it.
    pub pins: u64,
    /// How many handles the node has.
    pub holds: u64,
    /// The next dying node, 0 for none: the cascade finishes it after this one.
    pub next: u64,
    /// Set while the node is dying: the cascade is releasing the handles of its value's references,
    /// and will drop the value.
    pub is_dying: bool,
    pub node_type: u32,
}

/// The counts as a node's row stores them: with the key in two halves, so that the only padding is
/// behind the last field.
#[derive(Drop)]
pub struct PackedCounts {
    key_high: u64,
    key_low: u64,
    pins: u64,
    holds: u64,
    next: u64,
    node_type: u32,
    is_dying: bool,
}

impl Model for PackedCounts {
    ghost use Rattle.pagable_tables.specs.declared.nodes.Counts.{Counts};
    ghost use Rattle.std.specs.Prelude.{◌*◌, ◌+◌, ◌^◌};

    ghost Value = { Counts };

    ghost view = { λ a. record {
      key = a.key_high * 2 ^ 64 + a.key_low;
      pins = a.pins;
      holds = a.holds;
      next = a.next;
      is_dying = a.is_dying;
      node_type = a.node_type;
    } };
}

/// The weight of the upper half of a key: 2^64.
const HALF: u128 = 1 << 64;

impl PackedCounts {
    /// Packs the counts.
    pub fn new(counts: Counts) -> PackedCounts
        ensures { result ≡ counts }
    {
        PackedCounts {
            key_high: (counts.key / HALF) as u64,
            key_low: (counts.key % HALF) as u64,
            pins: counts.pins,
            holds: counts.holds,
            next: counts.next,
            node_type: counts.node_type,
            is_dying: counts.is_dying,
        }
    }

    /// Unpacks the counts.
    pub fn get(&self) -> Counts
        ensures { result ≡ self.now }
    {
        Counts {
            key: self.key_high as u128 * HALF + self.key_low as u128,
            pins: self.pins,
            holds: self.holds,
            next: self.next,
            is_dying: self.is_dying,
            node_type: self.node_type,
        }
    }

    /// Says whether the node has a key.
    fn has_key(&self) -> bool
        ensures { result ≡ nat_lt 0 self.now.key }
    {
        self.key_high != 0 || self.key_low != 0
    }

    /// Says whether a handle of this mode is the last pin of a cell without a key.
    fn is_last_pin_without_key(&self, mode: Mode) -> bool
        ensures { result ≡ is_last_pin_without_key self.now mode }
    {
        self.pins == 1 && !self.has_key() && matches!(mode, Mode::LoosePinned | Mode::Pinned)
    }

    /// Counts one handle less, or only its pin less if it `stays`, and one handle more if an entry
    /// was `listed`. Says whether the node starts dying by this: then its `next` is `top`.
    fn count_release(&mut self, pinning: bool, stays: bool, listed: bool, top: u64) -> bool
        requires pins { one pinning ≤ self.old.pins }
        requires holds { 1 ≤ self.old.holds }
        requires small { self.old.holds < 2 ^ 63 }
        ensures counts { self.new ≡ counts_after_release self.old pinning stays listed top }
        ensures falls { result ≡ falls_by_release self.old pinning stays listed }
    {
        self.pins -= pinning as u64;
        self.holds = self.holds - !stays as u64 + listed as u64;
        let loses_value = pinning && self.pins == 0 && self.has_key();
        let falls = !self.is_dying && (self.holds == 0 || loses_value);
        if falls {
            self.is_dying = true;
            self.next = top;
        }
        falls
    }
}

/// A node's row.
#[derive(Drop)]
pub struct NodeRow {
    pub counts: PackedCounts,
    /// The references of the node's value, while the value is in memory. The value owns their
    /// handles.
    pub references: Vec<ArcRef>,
    /// An upper bound of how many of the node's handles are owned by workers.
    pub worker_bound: u64,
}

impl NodeRow {
    /// Counts the handle of this row less, or only its pin less if it `stays`, and one handle more
    /// if an entry was `listed`. Says whether the node starts dying by this: then its `next` is
    /// `top`.
    fn count_release(&mut self, row: HandleRow, stays: bool, listed: bool, top: u64) -> bool
        requires pins { one (is_pinning row.mode) ≤ self.old.counts.pins }
        requires holds { 1 ≤ self.old.counts.holds }
        requires small { self.old.counts.holds < 2 ^ 63 }
        ensures counts { self.new.counts
            ≡ counts_after_release self.old.counts (is_pinning row.mode) stays listed top }
        ensures falls { result ≡ falls_by_release self.old.counts (is_pinning row.mode) stays listed }
        ensures references { self.new.references ≡ self.old.references }
        ensures bound { self.old.worker_bound ≤ self.new.worker_bound
            + (if stays then 0 else one (is_worker row.owner)) }
    {
        if !stays && is_worker(row.owner) {
            self.worker_bound = self.worker_bound.saturating_sub(1);
        }
        self.counts
            .count_release(pins(row.mode), stays, listed, top)
    }

    /// Counts the handle of this row less as `count_release` does, if no entry has to be listed.
    /// Returns None, and changes nothing, if `lists` is set and the handle is the last pin of a
    /// cell without a key.
    fn count_unlisted_release(
        &mut self,
        row: HandleRow,
        stays: bool,
        lists: bool,
        top: u64,
    ) -> Option<bool>
        requires pins { one (is_pinning row.mode) ≤ self.old.counts.pins }
        requires holds { 1 ≤ self.old.counts.holds }
        requires small { self.old.counts.holds < 2 ^ 63 }
        ensures wanted { (lists && is_last_pin_without_key self.old.counts row.mode) ≡ not (is_some result) }
        ensures counts { self.new.counts ≡ (if is_some result
            then counts_after_release self.old.counts (is_pinning row.mode) stays false top else self.old.counts) }
        ensures falls { IfSome result (λ falls. falls
            ≡ falls_by_release self.old.counts (is_pinning row.mode) stays false) }
        ensures references { self.new.references ≡ self.old.references }
        ensures bound { IfSome result (λ falls. self.old.worker_bound ≤ self.new.worker_bound
            + (if stays then 0 else one (is_worker row.owner))) }
        ensures same_bound { IfNone result (self.new.worker_bound ≡ self.old.worker_bound) }
    {
        if lists && self.counts.is_last_pin_without_key(row.mode) {
            return None;
        }
        Some(self.count_release(row, stays, false, top))
    }
}

/// Returns the counts of a node, None if there is no such node.
pub fn counts_of(nodes: &Nodes, node: u64) -> Option<Counts>
    ensures { result ≡ counts_at nodes.now node }
{
    Some(nodes.get(node)?.counts.get())
}

/// Replaces the counts of a node.
#[tactic(auto, unfolding(crate::specs::NumberTable::place_at, crate::specs::NumberTable::row_by))]
pub fn set_counts(nodes: &mut Nodes, node: u64, counts: Counts)
    requires { IsSome (counts_at nodes.old node) }
    ensures here { counts_at nodes.new node ≡ Some counts }
    ensures others { (q : ℕ) → q ≢ node → counts_at nodes.new q ≡ counts_at nodes.old q }
    ensures refs { (q : ℕ) → refs_at nodes.new q ≡ refs_at nodes.old q }
    ensures worker_bound { (q : ℕ) → most_worker_handles_at nodes.new q ≡ most_worker_handles_at nodes.old q }
{
    let rows = &mut nodes.chunks[chunk_of(node)];
    if let Some(row) = &mut rows[place_of(node)] {
        row.counts = PackedCounts::new(counts);
    }
}

/// Returns an upper bound of how many of the node's handles are owned by workers, 0 if there is no
/// such node.
pub fn worker_bound_of(nodes: &Nodes, node: u64) -> u64
    ensures { result ≡ most_worker_handles_at nodes.now node }
{
    nodes.get(node).map_or(0, |row| row.worker_bound)
}

/// Sets the upper bound of how many of the node's handles are owned by workers.
#[tactic(auto, unfolding(crate::specs::NumberTable::place_at, crate::specs::NumberTable::row_by))]
pub fn set_worker_bound(nodes: &mut Nodes, node: u64, bound: u64)
    requires { IsSome (counts_at nodes.old node) }
    ensures here { most_worker_handles_at nodes.new node ≡ bound }
    ensures others { (q : ℕ) → q ≢ node → most_worker_handles_at nodes.new q ≡ most_worker_handles_at nodes.old q }
    ensures counts { (q : ℕ) → counts_at nodes.new q ≡ counts_at nodes.old q }
    ensures refs { (q : ℕ) → refs_at nodes.new q ≡ refs_at nodes.old q }
{
    let rows = &mut nodes.chunks[chunk_of(node)];
    if let Some(row) = &mut rows[place_of(node)] {
        row.worker_bound = bound;
    }
}

/// Removes and returns the last reference of a node's value.
#[tactic(auto, unfolding(crate::specs::NumberTable::place_at, crate::specs::NumberTable::row_by))]
pub fn pop_reference(nodes: &mut Nodes, node: u64) -> Option<ArcRef>
    ensures counts { (q : ℕ) → counts_at nodes.new q ≡ counts_at nodes.old q }
    ensures others { (q : ℕ) → q ≢ node → refs_at nodes.new q ≡ refs_at nodes.old q }
    ensures here { refs_at nodes.old node ≡ refs_at nodes.new node ++ option_to_list result }
    ensures none { IfNone result (refs_at nodes.new node ≡ []) }
    ensures worker_bound { (q : ℕ) → most_worker_handles_at nodes.new q ≡ most_worker_handles_at nodes.old q }
{
    let rows = nodes.chunks.get_mut(chunk_of(node))?;
    match rows.get_mut(place_of(node))? {
        Some(row) => row.references.pop(),
        None => None,
    }
}

/// Replaces the references of a node's value.
#[tactic(auto, unfolding(crate::specs::NumberTable::place_at, crate::specs::NumberTable::row_by))]
pub fn set_references(nodes: &mut Nodes, node: u64, references: Vec<ArcRef>)
    requires { IsSome (counts_at nodes.old node) }
    ensures counts { (q : ℕ) → counts_at nodes.new q ≡ counts_at nodes.old q }
    ensures here { refs_at nodes.new node ≡ references.items }
    ensures others { (q : ℕ) → q ≢ node → refs_at nodes.new q ≡ refs_at nodes.old q }
    ensures worker_bound { (q : ℕ) → most_worker_handles_at nodes.new q ≡ most_worker_handles_at nodes.old q }
{
    let rows = &mut nodes.chunks[chunk_of(node)];
    if let Some(row) = &mut rows[place_of(node)] {
        row.references = references;
    }
}

/// Returns the key of a node with these counts.
pub fn key_in(counts: Option<Counts>) -> OptionalDataKey
    ensures { result ≡ if_there (λ (cell : Cell). cell.key) OptionalDataKey.None (cell_in counts) }
{
    match counts {
        Some(c) if c.key != 0 => OptionalDataKey::Some(DataKey::new(c.key).unwrap()),
        Some(_) | None => OptionalDataKey::None,
    }
}

/// Says whether a node with these counts has its value in memory: a handle pins it, or it has no
/// key. Returns true for None.
pub fn is_in_memory(counts: Option<Counts>) -> bool
    ensures { result ≡ is_in_memory (pins_in counts) (if_there (λ (cell : Cell). cell.key) OptionalDataKey.None
        (cell_in counts)) }
{
    counts.map_or(true, |c| c.pins > 0 || c.key == 0)
}

/// Says whether a node with these counts has the type of this kind.
pub fn has_type_of(counts: Option<Counts>, kind: Kind) -> bool
    ensures { result ≡ is_type (type_of kind.0) (if_there (λ (cell : Cell). Some cell.node_type) None
        (cell_in counts)) }
{
    counts.map_or(false, |c| c.node_type == kind.node_type())
}

/// Returns the counts with one more handle.
pub fn counts_with_handle(counts: Counts, pinning: bool) -> Counts
    requires pins { counts.pins < 2 ^ 63 }
    requires holds { counts.holds < 2 ^ 63 }
    ensures { result ≡ record counts { pins = counts.pins + one pinning; holds = counts.holds + 1 } }
{
    Counts {
        pins: counts.pins + pinning as u64,
        holds: counts.holds + 1,
        ..counts
    }
}

/// Adds one to the upper bound of how many of the node's handles are owned by workers, if `owner`
/// is a worker. The bound stops at 2^64 - 1.
pub fn raise_bound_for(nodes: &mut Nodes, node: u64, owner: Owner)
    requires { IsSome (counts_at nodes.old node) }
    // the new bound is at least the old one, plus one for a worker, as far as 64 bits go
    ensures here { (k : ℕ) → k < 2 ^ 64 → k ≤ most_worker_handles_at nodes.old node + one (is_worker owner)
        → k ≤ most_worker_handles_at nodes.new node }
    ensures others { (q : ℕ) → most_worker_handles_at nodes.old q ≤ most_worker_handles_at nodes.new q }
    ensures counts { (q : ℕ) → counts_at nodes.new q ≡ counts_at nodes.old q }
    ensures refs { (q : ℕ) → refs_at nodes.new q ≡ refs_at nodes.old q }
{
    if is_worker(owner) {
        let bound = worker_bound_of(nodes, node).saturating_add(1);
        set_worker_bound(nodes, node, bound);
    }
}

/// Counts one more handle of a node, owned by `owner`, and so many more pins, in place. The bound of
/// how many of its handles are owned by workers stops at 2^64 - 1.
#[tactic(auto, unfolding(crate::specs::NumberTable::place_at, crate::specs::NumberTable::row_by))]
pub fn count_handle(nodes: &mut Nodes, node: u64, pins: u64, owner: Owner)
    requires live { IsSome (counts_at nodes.old node) }
    requires few { pins ≤ 2 }
    requires pins { (c : Counts) → counts_at nodes.old node ≡ Some c → c.pins < 2 ^ 63 }
    requires holds { (c : Counts) → counts_at nodes.old node ≡ Some c → c.holds < 2 ^ 63 }
    ensures here { (c : Counts) → counts_at nodes.old node ≡ Some c
        → counts_at nodes.new node ≡ Some (record c { pins = c.pins + pins; holds = c.holds + 1 }) }
    ensures bound { (k : ℕ) → k < 2 ^ 64 → k ≤ most_worker_handles_at nodes.old node + one (is_worker owner)
        → k ≤ most_worker_handles_at nodes.new node }
    ensures bounds { (q : ℕ) → most_worker_handles_at nodes.old q ≤ most_worker_handles_at nodes.new q }
    ensures others { (q : ℕ) → q ≢ node → counts_at nodes.new q ≡ counts_at nodes.old q }
    ensures refs { (q : ℕ) → refs_at nodes.new q ≡ refs_at nodes.old q }
{
    let rows = &mut nodes.chunks[chunk_of(node)];
    if let Some(row) = &mut rows[place_of(node)] {
        row.counts.pins += pins;
        row.counts.holds += 1;
        if is_worker(owner) {
            row.worker_bound = row.worker_bound.saturating_add(1);
        }
    }
}

/// Counts the handle of this row less at its node, or only its pin less if it `stays`, in place, and
/// one handle more if an entry was `listed`. Says whether the node starts dying by this: then its
/// `next` is `top`.
#[tactic(auto, unfolding(crate::specs::NumberTable::place_at, crate::specs::NumberTable::row_by))]
pub fn count_release(nodes: &mut Nodes, row: HandleRow, stays: bool, listed: bool, top: u64) -> bool
    requires live { IsSome (counts_at nodes.old row.node.0) }
    requires pins { (c : Counts) → counts_at nodes.old row.node.0 ≡ Some c → one (is_pinning row.mode) ≤ c.pins }
    requires holds { (c : Counts) → counts_at nodes.old row.node.0 ≡ Some c → 1 ≤ c.holds }
    requires small { (c : Counts) → counts_at nodes.old row.node.0 ≡ Some c → c.holds < 2 ^ 63 }
    ensures here { (c : Counts) → counts_at nodes.old row.node.0 ≡ Some c → counts_at nodes.new row.node.0
        ≡ Some (counts_after_release c (is_pinning row.mode) stays listed top) }
    ensures falls { (c : Counts) → counts_at nodes.old row.node.0 ≡ Some c → result
        ≡ falls_by_release c (is_pinning row.mode) stays listed }
    ensures others { (q : ℕ) → q ≢ row.node.0 → counts_at nodes.new q ≡ counts_at nodes.old q }
    ensures refs { (q : ℕ) → refs_at nodes.new q ≡ refs_at nodes.old q }
    ensures bound { most_worker_handles_at nodes.old row.node.0 ≤ most_worker_handles_at nodes.new row.node.0
        + (if stays then 0 else one (is_worker row.owner)) }
    ensures bounds { (q : ℕ) → q ≢ row.node.0 → most_worker_handles_at nodes.new q
        ≡ most_worker_handles_at nodes.old q }
{
    let rows = &mut nodes.chunks[chunk_of(row.node.0)];
    match &mut rows[place_of(row.node.0)] {
        Some(found) => found.count_release(row, stays, listed, top),
        None => unreachable!(),
    }
}

/// Counts the handle of this row less as `count_release` does, if no entry has to be listed.
/// Returns None, and changes nothing, if `lists` is set and the handle is the last pin of a cell
/// without a key.
#[tactic(auto, unfolding(crate::specs::NumberTable::place_at, crate::specs::NumberTable::row_by))]
pub fn count_unlisted_release(
    nodes: &mut Nodes,
    row: HandleRow,
    stays: bool,
    lists: bool,
    top: u64,
) -> Option<bool>
    requires live { IsSome (counts_at nodes.old row.node.0) }
    requires pins { (c : Counts) → counts_at nodes.old row.node.0 ≡ Some c → one (is_pinning row.mode) ≤ c.pins }
    requires holds { (c : Counts) → counts_at nodes.old row.node.0 ≡ Some c → 1 ≤ c.holds }
    requires small { (c : Counts) → counts_at nodes.old row.node.0 ≡ Some c → c.holds < 2 ^ 63 }
    ensures wanted { (c : Counts) → counts_at nodes.old row.node.0 ≡ Some c
        → (lists && is_last_pin_without_key c row.mode) ≡ not (is_some result) }
    ensures here { (c : Counts) → counts_at nodes.old row.node.0 ≡ Some c → counts_at nodes.new row.node.0
        ≡ Some (if is_some result then counts_after_release c (is_pinning row.mode) stays false top else c) }
    ensures falls { IfSome result (λ falls. (c : Counts) → counts_at nodes.old row.node.0 ≡ Some c → falls
        ≡ falls_by_release c (is_pinning row.mode) stays false) }
    ensures others { (q : ℕ) → q ≢ row.node.0 → counts_at nodes.new q ≡ counts_at nodes.old q }
    ensures refs { (q : ℕ) → refs_at nodes.new q ≡ refs_at nodes.old q }
    ensures bound { IfSome result (λ falls. most_worker_handles_at nodes.old row.node.0
        ≤ most_worker_handles_at nodes.new row.node.0 + (if stays then 0 else one (is_worker row.owner))) }
    ensures same_bound { IfNone result (most_worker_handles_at nodes.new row.node.0
        ≡ most_worker_handles_at nodes.old row.node.0) }
    ensures bounds { (q : ℕ) → q ≢ row.node.0 → most_worker_handles_at nodes.new q
        ≡ most_worker_handles_at nodes.old q }
{
    let rows = &mut nodes.chunks[chunk_of(row.node.0)];
    match &mut rows[place_of(row.node.0)] {
        Some(found) => found.count_unlisted_release(row, stays, lists, top),
        None => unreachable!(),
    }
}

const _: () = prove!(size_of::<Option<NodeRow>>() == 88);
