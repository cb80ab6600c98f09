//! The calls that were made on a file, as a list that only clauses read.
ghost use Rattle.blob_host.specs.Noting.{event_of};
ghost use Rattle.sqlite_disk.specs.Events.{Event};
ghost use Rattle.std.specs.Borrow.{ftrue};
ghost use Rattle.std.specs.Prelude.{List, [], ◌∷◌, ◌≡◌};

use crate::call::Call;
use std::marker::Model;

/// A list of calls with their answers, the newest first. It takes no bytes, and no code reads it.
#[derive(Drop)]
pub struct Trail {
    pub ghost events: { List Event },
}

impl Model for Trail {
    ghost also_owns = { λ _. ftrue };
}

impl Trail {
    /// Begins a list.
    pub(crate) fn new() -> Trail
        ensures { result.events ≡ [] }
    {
        Trail {}
    }

    /// Returns the list with one more call, whose bytes these are.
    pub(crate) fn with(&self, _call: &Call, _bytes: &[u8]) -> Trail
        ensures { result.events ≡ event_of _call.now _bytes.now ∷ self.now.events }
    {
        Trail {}
    }
}
