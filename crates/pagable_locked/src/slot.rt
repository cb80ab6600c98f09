//! The slot of an identity, behind a lock of its own: its first outcome stays, and threads that
//! wait for it are woken.

ghost use Rattle.pagable_locked.specs.Slots.{IsOutcomeOf, ReturnsOutcomeFor, first_outcome};
ghost use Rattle.std.specs.Prelude.{IfOk, IfSome, ◌≡◌};

use pagable_codec::{Env, NodeSet};
use pagable_pageout::{Outcome, SlotResult};
use pagable_value_spec::{Error, Identity};
use std::alloc::Global;
use std::sync::{Arc, Condvar, Mutex, Wait};

/// A slot's outcome, which the slot's lock protects.
#[derive(Drop)]
pub struct SlotState<E: Env<Node: NodeSet<E>>> {
    pub outcome: Outcome<E>,
}

impl<E: Env<Node: NodeSet<E>>> SlotState<E> {
    /// Sets the outcome if there is none yet. It takes no memory.
    pub fn set(&mut self, outcome: Outcome<E>)
        ensures { self.new.outcome ≡ first_outcome self.old.outcome outcome }
    {
        if matches!(&self.outcome, Outcome::Open) {
            self.outcome = outcome;
        }
    }

    /// Returns the outcome for this identity: a result of another identity counts as a failure.
    pub fn outcome_for(&self, identity: Identity) -> Outcome<E>
        ensures outcome { ReturnsOutcomeFor identity self.now.outcome result }
        ensures own { IsOutcomeOf identity result }
    {
        match &self.outcome {
            Outcome::Open => Outcome::Open,
            Outcome::Published(found) if found.identity == identity => {
                Outcome::Published(found.copy())
            }
            _ => Outcome::Failed,
        }
    }
}

#[derive(Drop)]
struct SharedSlot<E: Env<Node: NodeSet<E>>> {
    state: Mutex<SlotState<E>>,
    ended: Condvar,
}

/// The slot of an identity in a table that threads share. Its first outcome stays.
#[derive(Drop)]
pub struct ArcSerSlot<E: Env<Node: NodeSet<E>>> {
    pub identity: Identity,
    shared: Arc<SharedSlot<E>>,
}

impl<E: Env<Node: NodeSet<E>>> ArcSerSlot<E> {
    /// Makes a slot without an outcome.
    ///
    /// # Errors
    ///
    /// - `OutOfMemory` if the slot can't get memory.
    pub fn new(alloc: Global, identity: Identity) -> Result<ArcSerSlot<E>, Error>
        ensures { IfOk result (λ s. s.identity ≡ identity) }
    {
        let state = SlotState {
            outcome: Outcome::Open,
        };
        let shared = SharedSlot {
            state: Mutex::new(state),
            ended: Condvar::new(),
        };
        let shared = Arc::new(alloc, shared)?;
        Ok(ArcSerSlot { identity, shared })
    }

    /// Makes one more handle of the same slot.
    ///
    /// # Errors
    ///
    /// - `OutOfMemory` if the slot is shared too often already.
    pub fn clone(&self) -> Result<ArcSerSlot<E>, Error>
        ensures { IfOk result (λ s. s.identity ≡ self.now.identity) }
    {
        Ok(ArcSerSlot {
            identity: self.identity,
            shared: Arc::try_clone(&self.shared)?,
        })
    }

    fn set<R: Wait>(&self, rt: &R, outcome: Outcome<E>) {
        self.shared.state.lock(rt).set(outcome);
        self.shared.ended.notify_all();
    }

    /// Publishes a result if there is no outcome yet, and wakes the threads that wait. It takes no
    /// memory and can't fail. A result of another identity makes the slot a failed one.
    pub fn set_success<R: Wait>(&self, rt: &R, found: SlotResult<E>) {
        self.set(rt, Outcome::Published(found));
    }

    /// Marks the slot as failed if there is no outcome yet, and wakes the threads that wait. It
    /// takes no memory and can't fail.
    pub fn set_failed<R: Wait>(&self, rt: &R) {
        self.set(rt, Outcome::Failed);
    }

    /// Returns the present outcome, without waiting.
    pub fn outcome<R: Wait>(&self, rt: &R) -> Outcome<E>
        ensures { IsOutcomeOf self.now.identity result }
    {
        self.shared.state.lock(rt).outcome_for(self.identity)
    }

    /// Waits for the outcome, and returns the result, None if the slot failed.
    pub fn wait<R: Wait>(&self, rt: &R) -> Option<SlotResult<E>>
        ensures { IfSome result (λ r. r.identity ≡ self.now.identity) }
    {
        let state = self.shared.state.lock(rt);
        let state = self
            .shared
            .ended
            .wait_while(rt, state, |s| matches!(&s.outcome, Outcome::Open));
        match state.outcome_for(self.identity) {
            Outcome::Published(found) => Some(found),
            _ => None,
        }
    }
}
