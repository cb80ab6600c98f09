//! The claims that a worker makes on a table that threads share.

ghost use Rattle.pagable_pageout.specs.{Joint.FitsAtPlace, Table.IsResultOf};
ghost use Rattle.std.specs.Prelude.{IfOk, IfSome, ◌≡◌, ◌≤◌};

use crate::known::KnownResults;
use crate::share::{ClaimShare, WorkerShare};
use crate::slot::ArcSerSlot;
use crate::table::{ClaimFound, SlotTable};
use pagable_codec::{Env, NodeSet};
use pagable_pageout::{ClaimResult, Claims, SlotResult};
use pagable_value_spec::{ArcRef, Error, Identity, WorkerNumber};
use std::alloc::Global;
use std::mem::replace;
use std::sync::Wait;
use std::sync::ledger::Ledger;

/// A worker's claims on a table that threads share: its share of the count of claims, the slots that
/// it has claimed and not published yet, in the order in which it claimed them, and results that it
/// has met, for which it doesn't ask the table again. If another worker has claimed an identity, a
/// claim of this identity waits for that worker's outcome.
#[derive(Drop)]
pub struct SharedClaims<'a, R: Wait, E: Env<Node: NodeSet<E>>, L: Ledger> {
    rt: &'a R,
    alloc: Global,
    table: &'a SlotTable<E, L>,
    share: WorkerShare<L>,
    open: Vec<ArcSerSlot<E>>,
    known: KnownResults<E>,
}

impl<'a, R: Wait, E: Env<Node: NodeSet<E>>, L: Ledger> SharedClaims<'a, R, E, L> {
    /// Makes the claims of a worker, which has none yet. It takes no memory.
    pub fn new(
        rt: &'a R,
        alloc: Global,
        table: &'a SlotTable<E, L>,
        share: WorkerShare<L>,
    ) -> SharedClaims<'a, R, E, L> {
        SharedClaims {
            rt,
            alloc,
            table,
            share,
            open: Vec::new(alloc),
            known: KnownResults::new(alloc),
        }
    }

    // Keeps a claim's result, if it has one, and returns what the claim finds.
    fn keep_and_find(
        &mut self,
        outcome: Option<SlotResult<E>>,
        identity: Identity,
        place: u64,
    ) -> Result<ClaimResult<E>, Error>
        requires near { place ≤ 128 }
        requires own { IfSome outcome (λ r. r.identity ≡ identity) }
        ensures near { IfOk result (FitsAtPlace place) }
        ensures own { IfOk result (IsResultOf identity) }
        ensures share { self.new.share ≡ self.old.share }
    {
        if let Some(found) = &outcome {
            self.known.keep(found);
        }
        result_of_ended_claim(outcome, identity, place)
    }

    /// Returns the worker's share, which counts the claims that it made.
    pub fn into_share(self) -> ClaimShare<L>
        ensures { result.share.parts ≡ 1 }
    {
        let WorkerShare { share } = self.share;
        share
    }
}

// Returns what a claim at this place on a path finds of an identity that has an outcome. Fails with
// TooDeep if the place and the result's height together are above 128.
fn result_of_ended_claim<E: Env<Node: NodeSet<E>>>(
    outcome: Option<SlotResult<E>>,
    identity: Identity,
    place: u64,
) -> Result<ClaimResult<E>, Error>
    requires near { place ≤ 128 }
    requires own { IfSome outcome (λ r. r.identity ≡ identity) }
    ensures near { IfOk result (FitsAtPlace place) }
    ensures own { IfOk result (IsResultOf identity) }
{
    let Some(found) = outcome else {
        return Ok(ClaimResult::AlreadyFailed);
    };
    if found.height > 128 - place {
        return Err(Error::TooDeep);
    }
    Ok(ClaimResult::Known(found))
}

impl<'a, R: Wait, E: Env<Node: NodeSet<E>>, L: Ledger> Claims<E> for SharedClaims<'a, R, E, L> {
    ghost use Rattle.std.specs.Prelude.{None};

    ghost shelf = { λ t. None };

    fn claim_for(
        &mut self,
        worker: WorkerNumber,
        identity: Identity,
        place: u64,
    ) -> Result<ClaimResult<E>, Error> {
        if place > 128 {
            return Err(Error::TooDeep);
        }
        if let Some(found) = self.known.get(identity) {
            return result_of_ended_claim(Some(found), identity, place);
        }
        // The room is made before the claim, so each claim is kept here and will be published or
        // failed; and the slot is made before the table's lock is taken.
        self.open.reserve(1)?;
        let fresh = ArcSerSlot::new(self.alloc, identity)?;
        let found = self
            .share
            .claim_for_worker(self.rt, self.table, worker, fresh)?;
        match found {
            ClaimFound::Claimed(slot) => {
                self.open.push_reserved(slot);
                Ok(ClaimResult::Claimed)
            }
            ClaimFound::Waits(slot) => {
                let outcome = slot.wait(self.rt);
                self.keep_and_find(outcome, identity, place)
            }
            ClaimFound::Ended(outcome) => self.keep_and_find(outcome, identity, place),
        }
    }

    // Does nothing: a worker waits only within a claim.
    fn forget_wait(&mut self, _worker: WorkerNumber) {}

    // Does nothing: other workers ask for the outcome alone.
    fn note_written(&mut self, _identity: Identity, _references: Vec<ArcRef>) {}

    // Publishes the last open slot: a walk publishes first what it claimed last.
    fn publish(&mut self, found: &SlotResult<E>) {
        if let Some(slot) = self.open.pop() {
            if slot.identity == found.identity {
                self.known.keep(found);
            }
            slot.set_success(self.rt, found.copy());
        }
    }

    fn fail_claims(&mut self, _worker: WorkerNumber) {
        for slot in replace(&mut self.open, Vec::new(self.alloc)) {
            slot.set_failed(self.rt);
        }
    }
}
