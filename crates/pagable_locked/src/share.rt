//! Shares of the total of claims.

ghost use Rattle.std.specs.Prelude.{◌+◌, ◌<◌, ◌≡◌, ◌≤◌};

use std::sync::ledger::{Ledger, Share};

/// A share of the total of claims on the table that `L` names: how many claims were counted in it.
/// It can be split into as many shares as it has parts, and merged again.
#[derive(Drop)]
pub struct ClaimShare<L: Ledger> {
    pub(crate) share: Share<L>,
    pub ghost some: { 0 < share.parts },
}

impl<L: Ledger> ClaimShare<L> {
    /// Makes a share of the claims from a share of the ledger.
    pub(crate) fn from_ledger_share(share: Share<L>) -> ClaimShare<L>
        requires { 0 < share.parts }
        ensures { result.share ≡ share }
    {
        ClaimShare { share }
    }

    /// Splits off one part, which counts no claims.
    pub fn split_off(&mut self) -> ClaimShare<L>
        requires { 1 < self.old.share.parts }
        ensures part { (result.share.parts ≡ 1) × (self.new.share.parts + 1 ≡ self.old.share.parts) }
        ensures amount { (result.share.amount ≡ 0) × (self.new.share.amount ≡ self.old.share.amount) }
    {
        ClaimShare::from_ledger_share(self.share.split_off(1, 0))
    }

    /// Merges another share's parts and claims into this one.
    pub fn merge(&mut self, other: ClaimShare<L>)
        ensures parts { self.new.share.parts ≡ self.old.share.parts + other.share.parts }
        ensures amount { self.new.share.amount ≡ self.old.share.amount + other.share.amount }
        ensures within { self.new.share.parts ≤ L.parts }
    {
        let ClaimShare { share } = other;
        self.share.merge(share);
    }
}

/// A share of one part, which a worker owns while it runs.
#[derive(Drop)]
pub struct WorkerShare<L: Ledger> {
    pub share: ClaimShare<L>,
    pub ghost one: { share.share.parts ≡ 1 },
}

impl<L: Ledger> WorkerShare<L> {
    /// Splits one part off a share that has more.
    pub fn split_off(all: &mut ClaimShare<L>) -> WorkerShare<L>
        requires { 1 < all.old.share.parts }
        ensures parts { all.new.share.parts + 1 ≡ all.old.share.parts }
        ensures amount { (result.share.share.amount ≡ 0) × (all.new.share.amount ≡ all.old.share.amount) }
    {
        let share = all.split_off();
        WorkerShare { share }
    }
}
