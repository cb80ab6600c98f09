//! A budget: pins kept up to a total cost, and counts of hits, misses and evictions.

ghost use Rattle.pagable_budget.specs.{
  Budgets.{Admits, Clears, Keeps, PinsWithin, Stores, Trims, cost_of, counted, new_budget, touched},
};
ghost use Rattle.pagable_load.specs.AccessView.{values_at};
ghost use Rattle.pagable_pager_spec.specs.World.{result_map};
ghost use Rattle.std.specs.{
  Arc.arc_value,
  Map.lookup,
  Prelude.{IfOk, IsTrue, None, is_some, length, nat_eq, ◌-◌, ◌≡◌, ◌≤◌},
};

use crate::evictions::{KeptPin, KeptPins, evict_above, evict_all, insert};
use lru::LruCache;
use pagable_calls::paging;
use pagable_codec::{Env, NodeSet};
use pagable_core::PagableStorage;
use pagable_pager::Pager;
use pagable_value_spec::{Error, HandleNumber, NodeNumber};
use std::alloc::Global;
use std::marker::Model;
use std::sync::Arc;

/// Counts of what a budget did. Each stops at the greatest number of 64 bits.
#[derive(Clone, Copy, Debug, PartialEq, Eq)]
pub struct BudgetStats {
    /// Pins of cells of which the budget kept a pin already.
    pub hits: u64,
    /// Pins of other cells.
    pub misses: u64,
    /// Kept pins that the budget released to stay within its bound.
    pub evictions: u64,
}

/// The pins that are kept for a program, up to a total cost. A budget owns their handles, evicts
/// the least recently used first, and releases no other handles.
///
/// A budget is for one pager. Call `clear` before you drop it: the cells of pins that it still
/// holds stay in memory as long as the pager.
#[derive(Drop)]
pub struct Budget {
    pins: KeptPins,
    cost: u64,
    most: u64,
    stats: BudgetStats,
}

impl Model for Budget {
    ghost use Rattle.std.specs.Coded.{codes};
    ghost use Rattle.pagable_budget.specs.Budgets.{BudgetView, IsBounded};

    ghost Value = { BudgetView };

    ghost coded = { Prim.hlevel codes };

    ghost view = { λ b. record { pins = b.pins.entries; most = b.most; stats = b.stats } };

    ghost invariant = { λ b. IsBounded b.pins b.cost b.most };
}

// Counts one more hit or miss.
fn counted(stats: BudgetStats, is_hit: bool) -> BudgetStats
    ensures { result ≡ counted is_hit stats }
{
    let mut stats = stats;
    if is_hit {
        stats.hits = stats.hits.saturating_add(1);
    } else {
        stats.misses = stats.misses.saturating_add(1);
    }
    stats
}

impl Budget {
    /// Creates a budget without pins. Its pins may cost `most` in total, in the unit of the costs
    /// given to `pin`: 1 for each cell, or bytes.
    ///
    /// # Errors
    ///
    /// - `OutOfMemory`.
    pub fn new(alloc: Global, most: u64) -> Result<Budget, Error>
        ensures { IfOk result (λ b. b ≡ new_budget most) }
    {
        let pins = LruCache::unbounded(alloc)?;
        let stats = BudgetStats {
            hits: 0,
            misses: 0,
            evictions: 0,
        };
        Ok(Budget {
            pins,
            cost: 0,
            most,
            stats,
        })
    }

    /// Returns the bound: the greatest total cost of the kept pins.
    pub fn max_cost(&self) -> u64
        ensures { result ≡ self.now.most }
    {
        self.most
    }

    /// Returns the total cost of the kept pins.
    pub fn cost(&self) -> u64
        ensures sum { result ≡ cost_of self.now.pins }
        ensures within { result ≤ self.now.most }
    {
        self.cost
    }

    /// Returns how many pins are kept.
    pub fn kept_count(&self) -> usize
        ensures { result ≡ length self.now.pins }
    {
        self.pins.len()
    }

    /// Returns whether a pin of this cell is kept.
    pub fn keeps(&self, cell: NodeNumber) -> bool
        ensures { result ≡ is_some (lookup (nat_eq cell.0) self.now.pins) }
    {
        self.pins.contains(&cell.0)
    }

    /// Returns the counts of hits, misses and evictions.
    pub fn stats(&self) -> BudgetStats
        ensures { result ≡ self.now.stats }
    {
        self.stats
    }

    /// Pins a loose handle's cell for the caller, as `paging::pin` does, and returns the caller's
    /// pin. The budget also keeps a pin of its own at this cost, as the most recently used, and
    /// evicts others as far as the bound requires. If it keeps a pin of the cell already, this pin
    /// becomes the most recently used, at the cost that it has.
    ///
    /// The budget adds no pin if the cell alone costs more than the bound, or if handle numbers or
    /// memory run out; the caller gets its pin all the same.
    ///
    /// # Errors
    ///
    /// - as `paging::pin`: the budget is unchanged.
    pub fn pin<E: Env<Node: NodeSet<E>>, S: PagableStorage<E>>(
        &mut self,
        alloc: Global,
        pager: &mut Pager<E, S>,
        handle: HandleNumber,
        cost: u64,
    ) -> Result<(HandleNumber, Arc<E::Node>), Error>
        ensures pins { IsTrue (S.is_honest pager.new.storage) → PinsWithin S.PagableStorage
            (values_at E.Node.NodeSet E.Env E.Hash.KeyHash) self.old pager.old handle cost
            (result_map (λ a. (a.0, arc_value a.1)) result) self.new pager.new }
        ensures honest { IsTrue (S.is_honest pager.new.storage) → IsTrue (S.is_honest pager.old.storage) }
    {
        let pinned = paging::pin(alloc, pager, handle)?;
        self.keep(pager, pinned.0, cost);
        Ok(pinned)
    }

    // Counts a hit or a miss. If the budget keeps a pin of this cell already, makes this pin the
    // most recently used; else keeps one, if it can.
    fn keep<E: Env<Node: NodeSet<E>>, S: PagableStorage<E>>(
        &mut self,
        pager: &mut Pager<E, S>,
        pinned: HandleNumber,
        cost: u64,
    )
        ensures { Keeps S.PagableStorage self.old pager.old pinned cost self.new pager.new }
    {
        let Ok(cell) = pager.node_of(pinned) else {
            return;
        };
        if self.touch(cell.0) {
            return;
        }
        self.admit(pager, cell.0, pinned, cost);
    }

    // Counts a hit or a miss, and makes the kept pin of the cell, if there is one, the most
    // recently used. Returns whether there is one.
    fn touch(&mut self, cell: u64) -> bool
        ensures kept { result ≡ is_some (lookup (nat_eq cell) self.old.pins) }
        ensures touched { self.new ≡ touched cell self.old }
    {
        let is_kept = self.pins.promote(&cell);
        self.stats = counted(self.stats, is_kept);
        is_kept
    }

    // Keeps a pin of a cell of which none is kept, if its cost is within the bound and the pager
    // can make the pin.
    fn admit<E: Env<Node: NodeSet<E>>, S: PagableStorage<E>>(
        &mut self,
        pager: &mut Pager<E, S>,
        cell: u64,
        pinned: HandleNumber,
        cost: u64,
    )
        requires new { lookup (nat_eq cell) self.old.pins ≡ None }
        ensures { Admits S.PagableStorage self.old pager.old cell pinned cost self.new pager.new }
    {
        if cost > self.most {
            return;
        }
        if let Ok(handle) = pager.clone(pinned) {
            self.insert_pin(pager, cell, KeptPin { handle, cost });
        }
    }

    // Evicts pins as far as the bound requires for this pin, and keeps it. If memory for keeping it
    // runs out, releases it.
    fn insert_pin<E: Env<Node: NodeSet<E>>, S: PagableStorage<E>>(
        &mut self,
        pager: &mut Pager<E, S>,
        cell: u64,
        pin: KeptPin,
    )
        requires new { lookup (nat_eq cell) self.old.pins ≡ None }
        requires fits { pin.cost ≤ self.old.most }
        ensures { Stores S.PagableStorage self.old pager.old cell pin self.new pager.new }
    {
        let most = self.most - pin.cost;
        self.trim(pager, most);
        if insert(&mut self.pins, cell, pin) {
            self.cost += pin.cost;
        } else {
            let _told = pager.release(pin.handle);
        }
    }

    /// Evicts the least recently used pins, no more than needed, until the kept pins cost at most
    /// `most` in total. The budget's bound stays as it was.
    pub fn trim<E: Env<Node: NodeSet<E>>, S: PagableStorage<E>>(
        &mut self,
        pager: &mut Pager<E, S>,
        most: u64,
    )
        ensures { Trims S.PagableStorage most self.old pager.old self.new pager.new }
    {
        let before = self.pins.len();
        let cost = evict_above(&mut self.pins, pager, self.cost, most);
        let after = self.pins.len();
        let evicted = before - after;
        let evictions = self.stats.evictions.saturating_add(evicted as u64);
        self.cost = cost;
        self.stats.evictions = evictions;
    }

    /// Releases all kept pins. The counts stay as they are.
    pub fn clear<E: Env<Node: NodeSet<E>>, S: PagableStorage<E>>(&mut self, pager: &mut Pager<E, S>)
        ensures { Clears S.PagableStorage self.old pager.old self.new pager.new }
    {
        evict_all(&mut self.pins, pager);
        self.cost = 0;
    }
}
