//! The calls that a worker makes on a table of claims. Contracts say what each call does to the
//! slots of a lent table, and nothing of the slots of a table that threads share.

ghost use Rattle.pagable_pageout.specs.{
  Joint.FitsAtPlace,
  Slots.{MakesClaim, with_references},
  Table.{IsResultOf, claim_result},
};
ghost use Rattle.pagable_pager_spec.specs.{
  Access.IfBothKnown,
  Workers.{with_changed_slot, with_failed, with_outcome, with_wait},
  World.{SameShelf, Shelf, published},
};
ghost use Rattle.std.specs.Prelude.{IfOk, None, Option};

use crate::SlotResult;
use pagable_codec::{Env, NodeSet};
use pagable_value_spec::{ArcRef, Error, Identity, WorkerNumber};

/// What a claim finds.
#[derive(Drop)]
pub enum ClaimResult<E: Env<Node: NodeSet<E>>> {
    /// The identity was free, and the worker has claimed it.
    Claimed,
    /// The identity has this result.
    Known(SlotResult<E>),
    /// Another worker has claimed the identity, and there is no result yet.
    Waiting,
    /// Another worker claimed the identity and failed.
    AlreadyFailed,
}

/// A table of claims, which workers use when they page out. If a table tells its slots to
/// contracts, each call's contract says what it does to them.
pub trait Claims<E: Env<Node: NodeSet<E>>> {
    // the slots, if they are told
    ghost shelf: { Self → Option Shelf };

    /// Claims an identity for a worker, at this place on its path (from 0 to 128), or returns what
    /// is known of it. If another worker's claim of it has no outcome yet, this worker waits for
    /// the outcome from then on.
    ///
    /// # Errors
    ///
    /// - `TooDeep` if the place, or the place and the known height together, is above 128, or if
    ///   workers would wait for each other in a ring.
    /// - `OutOfMemory` if the table can't grow.
    ///
    /// After each error no claim and no result has changed, and the worker waits for nothing. A table
    /// that threads share may have one more slot then, which nobody has claimed.
    fn claim_for(
        &mut self,
        worker: WorkerNumber,
        identity: Identity,
        place: u64,
    ) -> Result<ClaimResult<E>, Error>
        ensures claims { IfBothKnown (shelf self.old) (shelf self.new)
            (λ s s'. MakesClaim worker.0 s identity place (claim_result result) s') }
        ensures own { IfOk result (IsResultOf identity) }
        ensures near { IfOk result (FitsAtPlace place) };

    /// Forgets for which identity a worker waits, if it waits for one. It can't fail.
    fn forget_wait(&mut self, worker: WorkerNumber)
        ensures { IfBothKnown (shelf self.old) (shelf self.new) (λ s s'. SameShelf (with_wait s worker.0 None) s') };

    /// Notes the references that a claimed node was written with. Does nothing if the identity has
    /// no slot. It can't fail.
    fn note_written(&mut self, identity: Identity, references: Vec<ArcRef>)
        ensures { IfBothKnown (shelf self.old) (shelf self.new)
            (λ s s'. SameShelf (with_changed_slot s identity (with_references references.items)) s') };

    /// Sets the result of a claimed identity in its slot, where other workers find it. An outcome
    /// that the slot has already stays. It takes no memory and can't fail.
    fn publish(&mut self, found: &SlotResult<E>)
        ensures { IfBothKnown (shelf self.old) (shelf self.new)
            (λ s s'. SameShelf (with_changed_slot s found.now.identity
            (with_outcome (published found.now.key found.now.height))) s') };

    /// Marks all claims of a worker that have no outcome yet as failed. It takes no memory and
    /// can't fail.
    fn fail_claims(&mut self, worker: WorkerNumber)
        ensures { IfBothKnown (shelf self.old) (shelf self.new) (λ s s'. SameShelf (with_failed s worker.0) s') };
}
