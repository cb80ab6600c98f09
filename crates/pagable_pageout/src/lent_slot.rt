//! The slot of a claimed identity in a lent table.

ghost use Rattle.pagable_pageout.specs.{
  Slots.{HoldOnlyOwnResults, HoldsOnlyResultOf, after_failure, failed_by, slot_of, slots_in},
};
ghost use Rattle.pagable_pager_spec.specs.{Workers.with_outcome, World.{failed, published}};
ghost use Rattle.pagable_value_spec.specs.declared.numbers.Identity.{Identity as Named};
ghost use Rattle.std.specs.Prelude.{◌≡◌};

use crate::SlotResult;
use indexmap::IndexMap;
use pagable_codec::{Env, NodeSet};
use pagable_value_spec::{ArcRef, WorkerNumber};

/// The outcome of a claim.
#[derive(Drop)]
pub enum Outcome<E: Env<Node: NodeSet<E>>> {
    /// The claim has no result yet, and its worker hasn't failed.
    Open,
    /// The claimed node is stored: its identity, key and height.
    Published(SlotResult<E>),
    /// The worker that made the claim failed.
    Failed,
}

/// A claim: the worker that made it, the references that its node was written with, and its
/// outcome.
#[derive(Drop)]
pub struct LentSlot<E: Env<Node: NodeSet<E>>> {
    pub worker: WorkerNumber,
    pub references: Option<Vec<ArcRef>>,
    pub outcome: Outcome<E>,
}

impl<E: Env<Node: NodeSet<E>>> LentSlot<E> {
    /// Publishes a result if the claim has no outcome yet. It takes no memory.
    pub fn set_success(&mut self, found: SlotResult<E>)
        ensures slot { slot_of self.new ≡ with_outcome (published found.key found.height) (slot_of self.old) }
        ensures own { HoldsOnlyResultOf found.identity self.old → HoldsOnlyResultOf found.identity self.new }
    {
        if matches!(&self.outcome, Outcome::Open) {
            self.outcome = Outcome::Published(found);
        }
    }

    /// Marks the claim as failed if it has no outcome yet. It takes no memory.
    pub fn set_failed(&mut self)
        ensures slot { slot_of self.new ≡ with_outcome failed (slot_of self.old) }
        ensures own { (i : Named) → HoldsOnlyResultOf i self.old → HoldsOnlyResultOf i self.new }
    {
        if matches!(&self.outcome, Outcome::Open) {
            self.outcome = Outcome::Failed;
        }
    }

    // Marks the claim as failed if it is this worker's and has no outcome yet.
    fn fail_if_claimed_by(&mut self, worker: u64)
        ensures slot { slot_of self.new ≡ failed_by worker (slot_of self.old) }
        ensures own { (i : Named) → HoldsOnlyResultOf i self.old → HoldsOnlyResultOf i self.new }
    {
        if self.worker.0 == worker {
            self.set_failed();
        }
    }
}

/// Marks all claims of a worker that have no outcome yet as failed. It takes no memory.
#[tactic(auto, using(crate::proofs::Waits::failing))]
pub fn fail_open_claims<E: Env<Node: NodeSet<E>>>(
    slots: &mut IndexMap<(u32, u64), LentSlot<E>>,
    worker: u64,
)
    requires { HoldOnlyOwnResults slots.old }
    ensures slots { (j : Named) → slots_in slots.new j ≡ after_failure worker (slots_in slots.old j) }
    ensures own { HoldOnlyOwnResults slots.new }
{
    for place in 0..slots.len() {
        let Some(slot) = slots.get_index_mut(place) else {
            continue;
        };
        slot.fail_if_claimed_by(worker);
    }
}
