//! The pins that a budget keeps, most recently used first, and their eviction.

ghost use Rattle.pagable_budget.specs.Budgets.{Evicts, EvictsAbove, EvictsLast, Inserts, cost_of};
ghost use Rattle.std.specs.{Map.lookup, Prelude.{None, nat_eq, [], ◌-◌, ◌^◌, ◌≡◌, ◌≤◌}};

use lru::LruCache;
use pagable_codec::{Env, NodeSet};
use pagable_core::PagableStorage;
use pagable_pager::Pager;
use pagable_value_spec::HandleNumber;

/// A pin that a budget keeps.
#[derive(Clone, Copy, Debug, PartialEq, Eq)]
pub struct KeptPin {
    /// The budget's own Pinned handle.
    pub handle: HandleNumber,
    /// The cost of keeping the cell, in the unit of the budget's bound.
    pub cost: u64,
}

/// The kept pins by the numbers of their cells, most recently used first.
pub(crate) type KeptPins = LruCache<u64, KeptPin>;

// Releases the least recently used pin and returns its cost, or None if no pin is kept.
#[tactic(auto, using(crate::proofs::Evicting::ends))]
fn evict_last<E: Env<Node: NodeSet<E>>, S: PagableStorage<E>>(
    pins: &mut KeptPins,
    pager: &mut Pager<E, S>,
) -> Option<u64>
    ensures evicts { EvictsLast S.PagableStorage pins.old.entries pager.old result pins.new.entries pager.new }
    ensures room { pins.new.cap ≡ pins.old.cap }
{
    let (_, pin) = pins.pop_lru()?;
    let _told = pager.release(pin.handle);
    Some(pin.cost)
}

/// Evicts the least recently used pins until the kept ones cost at most `most` in total. `cost` is
/// their total cost before; returns their total cost after.
pub(crate) fn evict_above<E: Env<Node: NodeSet<E>>, S: PagableStorage<E>>(
    pins: &mut KeptPins,
    pager: &mut Pager<E, S>,
    cost: u64,
    most: u64,
) -> u64
    requires sum { cost ≡ cost_of pins.old.entries }
    ensures evicts { EvictsAbove S.PagableStorage most pins.old.entries pager.old pins.new.entries pager.new }
    ensures sum { result ≡ cost_of pins.new.entries }
    ensures less { result ≤ cost }
    ensures room { pins.new.cap ≡ pins.old.cap }
{
    let mut left = cost;
    while left > most {
        let Some(given) = evict_last(pins, pager) else {
            unreachable!();
        };
        left -= given;
    }
    left
}

/// Releases all pins, the least recently used first.
#[tactic(auto, using(crate::proofs::Evicting::gone))]
pub(crate) fn evict_all<E: Env<Node: NodeSet<E>>, S: PagableStorage<E>>(
    pins: &mut KeptPins,
    pager: &mut Pager<E, S>,
)
    ensures evicts { Evicts S.PagableStorage pager.old pins.old.entries pager.new }
    ensures none { pins.new.entries ≡ [] }
    ensures room { pins.new.cap ≡ pins.old.cap }
{
    while let Some(_cost) = evict_last(pins, pager) {}
}

/// Keeps a pin of a cell of which none is kept, as the most recently used. If memory runs out,
/// returns false and changes nothing.
#[tactic(auto, using(crate::proofs::Evicting::inserts))]
pub(crate) fn insert(pins: &mut KeptPins, cell: u64, pin: KeptPin) -> bool
    requires new { lookup (nat_eq cell) pins.old.entries ≡ None }
    requires unbounded { pins.old.cap ≡ 2 ^ 64 - 1 }
    ensures { Inserts cell pin result pins.old pins.new }
{
    // The cache has room for more pins than there can be, so it never evicts one by itself.
    let _kept = pins.len();
    pins.push(cell, pin).is_ok()
}
