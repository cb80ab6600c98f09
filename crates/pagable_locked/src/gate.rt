//! A hook that the workers of a page-out call after each claim.

use crate::share::WorkerShare;
use crate::shared_claims::SharedClaims;
use pagable_codec::{Env, NodeSet};
use pagable_pageout::{ClaimResult, Claims, SlotResult};
use pagable_value_spec::{ArcRef, Error, Identity, WorkerNumber};
use std::sync::Wait;
use std::sync::ledger::Ledger;

/// A hook of a page-out: each of its workers calls the hook after each claim that it makes.
pub trait Gate {
    /// Is called by a worker after each identity that it claims, while it holds no lock: with the
    /// worker's number, from 0 on, and the number of its claim, from 1 on.
    fn at(&self, worker: usize, claim_number: u64);
}

/// A hook that does nothing.
#[derive(Drop)]
pub struct NoGate;

impl Gate for NoGate {
    fn at(&self, _worker: usize, _claim_number: u64) {}
}

/// The claims of one of several workers. It calls a gate after each identity that it claims.
#[derive(Drop)]
pub struct GatedClaims<'a, R: Wait, E: Env<Node: NodeSet<E>>, L: Ledger, G: Gate> {
    claims: SharedClaims<'a, R, E, L>,
    gate: &'a G,
    worker: usize,
    claim_count: u64,
}

impl<'a, R: Wait, E: Env<Node: NodeSet<E>>, L: Ledger, G: Gate> GatedClaims<'a, R, E, L, G> {
    /// Wraps the claims of a worker that has made none yet: after each claim the gate is called
    /// with the worker's number and the claim's. Allocates nothing.
    pub fn new(
        claims: SharedClaims<'a, R, E, L>,
        gate: &'a G,
        worker: usize,
    ) -> GatedClaims<'a, R, E, L, G> {
        GatedClaims {
            claims,
            gate,
            worker,
            claim_count: 0,
        }
    }

    /// Returns the worker's share, which counts the claims that it made.
    pub fn into_share(self) -> WorkerShare<L> {
        let share = self.claims.into_share();
        WorkerShare { share }
    }
}

impl<'a, R: Wait, E: Env<Node: NodeSet<E>>, L: Ledger, G: Gate> Claims<E>
    for GatedClaims<'a, R, E, L, G> {
    ghost use Rattle.std.specs.Prelude.{None};

    ghost shelf = { λ t. None };

    fn claim_for(
        &mut self,
        worker: WorkerNumber,
        identity: Identity,
        place: u64,
    ) -> Result<ClaimResult<E>, Error> {
        let found = self.claims.claim_for(worker, identity, place)?;
        if matches!(&found, ClaimResult::Claimed) {
            self.claim_count = self.claim_count.saturating_add(1);
            self.gate.at(self.worker, self.claim_count);
        }
        Ok(found)
    }

    fn forget_wait(&mut self, worker: WorkerNumber) {
        self.claims.forget_wait(worker);
    }

    fn note_written(&mut self, identity: Identity, references: Vec<ArcRef>) {
        self.claims.note_written(identity, references);
    }

    fn publish(&mut self, found: &SlotResult<E>) {
        self.claims.publish(found);
    }

    fn fail_claims(&mut self, worker: WorkerNumber) {
        self.claims.fail_claims(worker);
    }
}
