//! The table of slots that threads share. A call holds its lock only to look up, make or claim a
//! slot; each slot has a lock of its own.

ghost use Rattle.indexmap.specs.IndexMap.{index_map_len};
ghost use Rattle.pagable_locked.specs.Slots.{IsClaimFoundOf, claims_made};
ghost use Rattle.std.specs.Prelude.{IfOk, IfSome, OnErr, if◌then◌else◌, is_some, ◌+◌, ◌<◌, ◌≡◌};

use crate::lock::lock_briefly;
use crate::share::{ClaimShare, WorkerShare};
use crate::slot::ArcSerSlot;
use indexmap::IndexMap;
use pagable_codec::{Env, NodeSet};
use pagable_pageout::{Outcome, SlotResult};
use pagable_value_spec::{Error, Identity, WorkerNumber};
use std::alloc::Global;
use std::sync::ledger::{Blank, Book, Ledger};
use std::sync::{Mutex, MutexGuard, Wait};

/// What a worker's claim finds.
#[derive(Drop)]
pub enum ClaimFound<E: Env<Node: NodeSet<E>>> {
    /// The identity was free, and the worker has claimed it: its slot.
    Claimed(ArcSerSlot<E>),
    /// Another worker has claimed the identity, whose slot this is; the worker that asks is noted
    /// as waiting for the slot's outcome.
    Waits(ArcSerSlot<E>),
    /// The claim of the identity has ended: its result, or None if it failed.
    Ended(Option<SlotResult<E>>),
}

// A claimed identity: its slot, and the worker whose walk claimed it, if one did.
#[derive(Drop)]
struct Row<E: Env<Node: NodeSet<E>>> {
    slot: ArcSerSlot<E>,
    worker: Option<WorkerNumber>,
}

/// What the table's lock protects: the claimed identities, the slots of those that nobody has claimed
/// yet, the identity for whose outcome each worker waited last, and the book of claims, whose total is
/// their number. Only the table's own calls reach it.
#[derive(Drop)]
pub struct Slots<E: Env<Node: NodeSet<E>>, L: Ledger> {
    claimed: IndexMap<(u32, u64), Row<E>>,
    free: IndexMap<(u32, u64), ArcSerSlot<E>>,
    waits: IndexMap<u64, Identity>,
    book: Book<L>,
    alloc: Global,
    pub ghost counted: { book.total ≡ index_map_len claimed },
}

pub(crate) fn slot_key(identity: Identity) -> (u32, u64) {
    (identity.kind.0, identity.node.0)
}

impl<E: Env<Node: NodeSet<E>>, L: Ledger> Slots<E, L> {
    fn new(alloc: Global, parts: Blank) -> (Slots<E, L>, ClaimShare<L>)
        requires name { parts.name ≡ L.name }
        requires parts { parts.parts ≡ L.parts }
        requires two { 1 < L.parts }
        ensures whole { result.1.share.parts ≡ L.parts }
        ensures none { result.1.share.amount ≡ 0 }
    {
        let (book, share) = parts.open::<L>();
        let slots = Slots {
            claimed: IndexMap::new(alloc),
            free: IndexMap::new(alloc),
            waits: IndexMap::new(alloc),
            book,
            alloc,
        };
        (slots, ClaimShare::from_ledger_share(share))
    }

    // Returns the slot that an identity has, or None.
    fn slot_of(&self, identity: Identity) -> Option<&ArcSerSlot<E>>
        ensures { IfSome result (λ s. s.now.identity ≡ identity) }
    {
        let key = slot_key(identity);
        let slot = match self.claimed.get(&key) {
            Some(row) => &row.slot,
            None => self.free.get(&key)?,
        };
        if slot.identity == identity {
            return Some(slot);
        }
        None
    }

    // Returns the slot of an identity, and makes one if there is none.
    fn slot(&mut self, alloc: Global, identity: Identity) -> Result<ArcSerSlot<E>, Error>
        ensures { IfOk result (λ s. s.identity ≡ identity) }
    {
        if let Some(slot) = self.slot_of(identity) {
            return slot.clone();
        }
        let slot = ArcSerSlot::new(alloc, identity)?;
        self.free.insert(slot_key(identity), slot.clone()?)?;
        Ok(slot)
    }

    // Claims the identity of this slot if it is free, counts the claim, and returns the identity's slot:
    // that which it has, or this one. Returns None if it isn't free.
    fn claim(
        &mut self,
        worker: Option<WorkerNumber>,
        fresh: ArcSerSlot<E>,
        share: &mut ClaimShare<L>,
    ) -> Result<Option<ArcSerSlot<E>>, Error>
        ensures own { IfOk result (λ claimed. IfSome claimed (λ s. s.identity ≡ fresh.identity)) }
        ensures amount { IfOk result (λ claimed. share.new.share.amount
            ≡ share.old.share.amount + (if is_some claimed then 1 else 0)) }
        ensures parts { share.new.share.parts ≡ share.old.share.parts }
        ensures err { OnErr result (share.new.share.amount ≡ share.old.share.amount) }
    {
        let key = slot_key(fresh.identity);
        if self.claimed.contains_key(&key) {
            return Ok(None);
        }
        let slot = match self.free.get(&key) {
            Some(made) if made.identity == fresh.identity => made.clone()?,
            _ => fresh,
        };
        let row = Row {
            slot: slot.clone()?,
            worker,
        };
        let Slots {
            claimed,
            free,
            book,
            ..
        } = self;
        let ClaimShare { share } = share;
        claimed.insert(key, row)?;
        book.add(share, 1);
        free.swap_remove(&key);
        Ok(Some(slot))
    }

    // Claims an identity if it is free, counts the claim, and says whether it was free.
    fn try_claim(&mut self, identity: Identity, share: &mut ClaimShare<L>) -> Result<bool, Error>
        ensures amount { IfOk result (λ b. share.new.share.amount ≡ share.old.share.amount + (if b then 1 else 0)) }
        ensures parts { share.new.share.parts ≡ share.old.share.parts }
        ensures err { OnErr result (share.new.share.amount ≡ share.old.share.amount) }
    {
        let fresh = ArcSerSlot::new(self.alloc, identity)?;
        Ok(self.claim(None, fresh, share)?.is_some())
    }

    // Returns the number of claims, all of which the whole share counts.
    fn count_claims(&mut self, all: &mut ClaimShare<L>) -> u64
        requires { all.old.share.parts ≡ L.parts }
        ensures claims { (result ≡ all.old.share.amount) × (all.new.share.amount ≡ all.old.share.amount) }
        ensures parts { all.new.share.parts ≡ all.old.share.parts }
    {
        let Slots { claimed, book, .. } = self;
        let ClaimShare { share } = all;
        book.audit(share);
        claimed.len() as u64
    }

    // Returns the worker whose walk has claimed an identity that has no outcome yet.
    fn open_claimer<R: Wait>(&self, rt: &R, identity: Identity) -> Option<WorkerNumber> {
        let row = self.claimed.get(&slot_key(identity))?;
        match row.slot.outcome(rt) {
            Outcome::Open => row.worker,
            _ => None,
        }
    }

    // Says whether the worker that has claimed an identity is `asker`, or waits for `asker`,
    // directly or through others. A wait for a slot that has an outcome is over, even if the worker
    // that waits doesn't know it yet; no chain is longer than the number of waits.
    fn would_deadlock<R: Wait>(&self, rt: &R, asker: WorkerNumber, identity: Identity) -> bool {
        let mut claimed = identity;
        for _ in 0..=self.waits.len() {
            let Some(worker) = self.open_claimer(rt, claimed) else {
                return false;
            };
            if worker == asker {
                return true;
            }
            let Some(next) = self.waits.get(&worker.0) else {
                return false;
            };
            claimed = *next;
        }
        false
    }

    // Claims an identity for a worker's walk, or returns its outcome. If it is claimed and has no
    // outcome yet, notes that the worker waits for it. `fresh` becomes its slot if it has none. Fails
    // with TooDeep if workers would wait in a ring, and with OutOfMemory.
    fn claim_for_worker<R: Wait>(
        &mut self,
        rt: &R,
        worker: WorkerNumber,
        fresh: ArcSerSlot<E>,
        share: &mut ClaimShare<L>,
    ) -> Result<ClaimFound<E>, Error>
        ensures own { IfOk result (IsClaimFoundOf fresh.identity) }
        ensures amount { share.new.share.amount ≡ share.old.share.amount + claims_made result }
        ensures parts { share.new.share.parts ≡ share.old.share.parts }
    {
        let identity = fresh.identity;
        if let Some(slot) = self.claim(Some(worker), fresh, share)? {
            return Ok(ClaimFound::Claimed(slot));
        }
        let slot = self.slot(self.alloc, identity)?;
        match slot.outcome(rt) {
            Outcome::Published(found) => Ok(ClaimFound::Ended(Some(found))),
            Outcome::Failed => Ok(ClaimFound::Ended(None)),
            Outcome::Open => {
                if self.would_deadlock(rt, worker, identity) {
                    return Err(Error::TooDeep);
                }
                self.waits.insert(worker.0, identity)?;
                Ok(ClaimFound::Waits(slot))
            }
        }
    }
}

/// The table of slots for any number of threads. Each worker counts the claims that it makes in a
/// `ClaimShare` of its own; merged into one, the shares count all claims.
#[derive(Drop)]
pub struct SlotTable<E: Env<Node: NodeSet<E>>, L: Ledger> {
    slots: Mutex<Slots<E, L>>,
}

/// A guard that holds the table's lock as long as it lives. It gives no access to the table.
pub type TableGuard<'a, E, L> = MutexGuard<'a, Slots<E, L>>;

impl<E: Env<Node: NodeSet<E>>, L: Ledger> SlotTable<E, L> {
    /// Makes a table without slots, and its one whole share, which counts no claims. It takes no
    /// memory. The share has two parts or more: the table's user keeps one, and each running
    /// page-out takes one.
    pub fn new(alloc: Global, parts: Blank) -> (SlotTable<E, L>, ClaimShare<L>)
        requires name { parts.name ≡ L.name }
        requires parts { parts.parts ≡ L.parts }
        requires two { 1 < L.parts }
        ensures whole { result.1.share.parts ≡ L.parts }
        ensures none { result.1.share.amount ≡ 0 }
    {
        let (slots, share) = Slots::new(alloc, parts);
        let slots = Mutex::new(slots);
        (SlotTable { slots }, share)
    }

    /// Returns the slot of an identity, and makes one if there is none.
    ///
    /// # Errors
    ///
    /// - `OutOfMemory` if the slot can't be made or shared.
    pub fn slot<R: Wait>(
        &self,
        rt: &R,
        alloc: Global,
        identity: Identity,
    ) -> Result<ArcSerSlot<E>, Error>
        ensures { IfOk result (λ s. s.identity ≡ identity) }
    {
        self.slots.lock(rt).slot(alloc, identity)
    }

    /// Claims an identity if it is free, counts the claim in `share`, and returns whether it was
    /// free.
    ///
    /// # Errors
    ///
    /// - `OutOfMemory` if the table can't grow: the identity isn't claimed.
    pub fn try_claim<R: Wait>(
        &self,
        rt: &R,
        identity: Identity,
        share: &mut ClaimShare<L>,
    ) -> Result<bool, Error>
        ensures amount { IfOk result (λ b. share.new.share.amount ≡ share.old.share.amount + (if b then 1 else 0)) }
        ensures parts { share.new.share.parts ≡ share.old.share.parts }
        ensures err { OnErr result (share.new.share.amount ≡ share.old.share.amount) }
    {
        self.slots.lock(rt).try_claim(identity, share)
    }

    /// Returns the number of claimed identities, which is the count of `all`. `all` has to be the
    /// whole share, into which all other shares were merged.
    pub fn count_claims<R: Wait>(&self, rt: &R, all: &mut ClaimShare<L>) -> u64
        requires { all.old.share.parts ≡ L.parts }
        ensures claims { (result ≡ all.old.share.amount) × (all.new.share.amount ≡ all.old.share.amount) }
        ensures parts { all.new.share.parts ≡ all.old.share.parts }
    {
        self.slots.lock(rt).count_claims(all)
    }

    /// Holds the table's lock as long as the guard lives. Slots that threads have got already stay
    /// usable, since each has a lock of its own.
    pub fn hold<R: Wait>(&self, rt: &R) -> TableGuard<'_, E, L> {
        self.slots.lock(rt)
    }
}

impl<L: Ledger> WorkerShare<L> {
    /// Claims the identity of a slot for a worker's walk, or returns its outcome; if it is claimed and
    /// has no outcome yet, notes that the worker waits for it. The slot becomes the identity's if this
    /// has none. Counts a claim that it makes in this share.
    ///
    /// # Errors
    ///
    /// - `TooDeep` if workers would wait in a ring.
    /// - `OutOfMemory` if the table can't grow: the identity isn't claimed, and no wait is noted.
    pub(crate) fn claim_for_worker<R: Wait, E: Env<Node: NodeSet<E>>>(
        &mut self,
        rt: &R,
        table: &SlotTable<E, L>,
        worker: WorkerNumber,
        fresh: ArcSerSlot<E>,
    ) -> Result<ClaimFound<E>, Error>
        ensures own { IfOk result (IsClaimFoundOf fresh.identity) }
        ensures amount { self.new.share.share.amount ≡ self.old.share.share.amount + claims_made result }
    {
        let WorkerShare { share } = self;
        lock_briefly(&table.slots, rt).claim_for_worker(rt, worker, fresh, share)
    }
}
