//! The calls of a lent table of claims.

ghost use Rattle.pagable_pageout.specs.{
  Slots.{MakesClaim, RefusesClaim, TellsDeadlock, WouldFind, claimed_by, waits_for, with_references},
  Table.{IsResultOf, claim_result, shelf_of},
};
ghost use Rattle.pagable_pager_spec.specs.{
  Events.no_shelf,
  Workers.{ComesToEnd, IsOpenSlot, with_changed_slot, with_failed, with_outcome, with_slot, with_wait},
  World.{SameShelf, Slot, published},
};
ghost use Rattle.std.specs.Prelude.{IfErr, IfOk, None, OnErr, OnOk, Some, ◌≡◌};

use crate::lent_slot::fail_open_claims;
use crate::{ClaimResult, Claims, LentSlot, LentTable, Outcome, SlotResult};
use indexmap::IndexMap;
use pagable_codec::{Env, NodeSet};
use pagable_value_spec::{ArcRef, Error, Identity, WorkerNumber};
use std::alloc::Global;

/// A table with more slots than this is replaced by a new one instead of being cleared, since
/// clearing costs time for all of its memory.
const FEW: usize = 16;

impl<E: Env<Node: NodeSet<E>>> LentTable<E> {
    // Returns the worker whose result this one waits for; None if it doesn't wait, or an outcome
    // is there.
    fn waits_for(&self, worker: u64) -> Option<u64>
        ensures { result ≡ waits_for (shelf_of self.now) worker }
    {
        let identity = self.waits.get(&worker)?;
        let slot = self.slots.get(&(identity.kind.0, identity.node.0))?;
        if matches!(&slot.outcome, Outcome::Open) {
            return Some(slot.worker.0);
        }
        None
    }

    /// Says whether `start` is the worker `asker`, or waits for it, directly or through others that
    /// wait. The search ends, since workers don't wait in a ring.
    pub fn would_deadlock(&self, asker: u64, start: u64) -> bool
        ensures { TellsDeadlock (shelf_of self.now) asker start result }
    {
        let mut worker = start;
        loop {
            if worker == asker {
                return true;
            }
            let Some(next) = self.waits_for(worker) else {
                return false;
            };
            worker = next;
        }
    }

    // Returns what a claim of an identity at this place on a path would find. Fails with TooDeep if
    // the path is too long, or workers would wait in a ring.
    fn probe(
        &self,
        worker: WorkerNumber,
        identity: Identity,
        place: u64,
    ) -> Result<ClaimResult<E>, Error>
        ensures finds { IfOk (claim_result result) (λ c. WouldFind worker.0 (shelf_of self.now) identity place c) }
        ensures refused { IfErr (claim_result result) (RefusesClaim worker.0 (shelf_of self.now) identity place) }
        ensures own { IfOk result (IsResultOf identity) }
    {
        if place > 128 {
            return Err(Error::TooDeep);
        }
        let Some(slot) = self.slots.get(&(identity.kind.0, identity.node.0)) else {
            return Ok(ClaimResult::Claimed);
        };
        match &slot.outcome {
            Outcome::Failed => Ok(ClaimResult::AlreadyFailed),
            Outcome::Published(found) => {
                if found.height > 128 - place {
                    return Err(Error::TooDeep);
                }
                Ok(ClaimResult::Known(found.copy()))
            }
            Outcome::Open => {
                if self.would_deadlock(worker.0, slot.worker.0) {
                    return Err(Error::TooDeep);
                }
                Ok(ClaimResult::Waiting)
            }
        }
    }

    /// Forgets for which identity a worker waits, if it waits for one.
    pub fn stop_waiting(&mut self, worker: WorkerNumber)
        ensures { SameShelf (with_wait (shelf_of self.old) worker.0 None) (shelf_of self.new) }
    {
        if self.waits.is_empty() {
            return;
        }
        self.waits.swap_remove(&worker.0);
    }

    // Claims a free identity for a worker that doesn't wait. Fails with OutOfMemory if the table
    // can't grow.
    fn claim_free_identity(&mut self, worker: WorkerNumber, identity: Identity) -> Result<(), Error>
        requires free { (shelf_of self.old).slots identity ≡ None }
        requires works { (shelf_of self.old).waits worker.0 ≡ None }
        ensures ok { OnOk result (SameShelf (with_slot (shelf_of self.old) identity (Some (claimed_by worker.0)))
            (shelf_of self.new)) }
        ensures err { OnErr result (SameShelf (shelf_of self.old) (shelf_of self.new)) }
        ensures only { IfErr result (λ e. e ≡ Error.OutOfMemory) }
    {
        let slot = LentSlot {
            worker,
            references: None,
            outcome: Outcome::Open,
        };
        self.slots.insert((identity.kind.0, identity.node.0), slot)?;
        Ok(())
    }

    // Notes that a worker waits for the result of an identity. The worker that claimed the identity
    // doesn't wait for this one. Fails with OutOfMemory if the table can't grow.
    fn note_wait(&mut self, worker: WorkerNumber, identity: Identity) -> Result<(), Error>
        requires { (slot : Slot) × IsOpenSlot (shelf_of self.old) identity slot
            × ComesToEnd (shelf_of self.old) worker.0 slot.worker }
        ensures ok { OnOk result (SameShelf (with_wait (shelf_of self.old) worker.0 (Some identity))
            (shelf_of self.new)) }
        ensures err { OnErr result (SameShelf (shelf_of self.old) (shelf_of self.new)) }
        ensures only { IfErr result (λ e. e ≡ Error.OutOfMemory) }
    {
        self.waits.insert(worker.0, identity)?;
        Ok(())
    }

    /// Makes a table without claims. It takes no memory.
    pub fn new(alloc: Global) -> LentTable<E>
        ensures { SameShelf no_shelf (shelf_of result) }
    {
        let slots = IndexMap::new(alloc);
        let waits = IndexMap::new(alloc);
        LentTable { slots, waits }
    }

    /// Forgets all claims. A table of few claims keeps its memory for the next ones.
    pub(crate) fn forget_claims(&mut self, alloc: Global)
        ensures { SameShelf no_shelf (shelf_of self.new) }
    {
        if self.slots.len() > FEW {
            *self = LentTable::new(alloc);
            return;
        }
        self.slots.clear();
        self.waits.clear();
    }

    /// Claims an identity for a worker at this place on its path, or returns what is known of it.
    /// If another worker's claim of it has no outcome yet, this one waits for the outcome from then
    /// on.
    ///
    /// # Errors
    ///
    /// - `TooDeep` if the path is too long, also together with the known height, or if workers
    ///   would wait in a ring.
    /// - `OutOfMemory` if the table can't grow.
    ///
    /// After each error the slots are unchanged, and the worker waits for nothing.
    #[tactic(auto, using(crate::proofs::Waits::claims))]
    pub fn try_claim(
        &mut self,
        worker: WorkerNumber,
        identity: Identity,
        place: u64,
    ) -> Result<ClaimResult<E>, Error>
        ensures claims { MakesClaim worker.0 (shelf_of self.old) identity place (claim_result result)
            (shelf_of self.new) }
        ensures own { IfOk result (IsResultOf identity) }
    {
        let judged = self.probe(worker, identity, place);
        self.stop_waiting(worker);
        match judged {
            Ok(ClaimResult::Claimed) => {
                self.claim_free_identity(worker, identity)?;
                Ok(ClaimResult::Claimed)
            }
            Ok(ClaimResult::Waiting) => {
                self.note_wait(worker, identity)?;
                Ok(ClaimResult::Waiting)
            }
            other => other,
        }
    }

    /// Notes the references that a claimed node was written with. Does nothing if the identity has
    /// no slot.
    pub fn set_written(&mut self, identity: Identity, references: Vec<ArcRef>)
        ensures { SameShelf (with_changed_slot (shelf_of self.old) identity (with_references references.items))
            (shelf_of self.new) }
    {
        if let Some(slot) = self.slots.get_mut(&(identity.kind.0, identity.node.0)) {
            slot.references = Some(references);
        }
    }

    /// Sets the result of a claimed identity in its slot. An outcome that the slot has already
    /// stays. It takes no memory.
    pub fn set_success(&mut self, found: SlotResult<E>)
        ensures { SameShelf (with_changed_slot (shelf_of self.old) found.identity
            (with_outcome (published found.key found.height))) (shelf_of self.new) }
    {
        let identity = found.identity;
        if let Some(slot) = self.slots.get_mut(&(identity.kind.0, identity.node.0)) {
            slot.set_success(found);
        }
    }

    /// Marks all claims of a worker that have no outcome yet as failed. It takes no memory.
    pub fn fail(&mut self, worker: WorkerNumber)
        ensures { SameShelf (with_failed (shelf_of self.old) worker.0) (shelf_of self.new) }
    {
        fail_open_claims(&mut self.slots, worker.0);
    }
}

impl<E: Env<Node: NodeSet<E>>> Claims<E> for LentTable<E> {
    ghost use Rattle.std.specs.Prelude.{Some};
    ghost use Rattle.pagable_pageout.specs.Table.{shelf_of};

    ghost shelf = { λ t. Some (shelf_of t) };

    fn claim_for(
        &mut self,
        worker: WorkerNumber,
        identity: Identity,
        place: u64,
    ) -> Result<ClaimResult<E>, Error> {
        self.try_claim(worker, identity, place)
    }

    fn forget_wait(&mut self, worker: WorkerNumber) {
        self.stop_waiting(worker);
    }

    fn note_written(&mut self, identity: Identity, references: Vec<ArcRef>) {
        self.set_written(identity, references);
    }

    fn publish(&mut self, found: &SlotResult<E>) {
        self.set_success(found.copy());
    }

    fn fail_claims(&mut self, worker: WorkerNumber) {
        self.fail(worker);
    }
}
