//! A reader of a blob's keys.

ghost use Rattle.pagable_value_spec.specs.Progress.{ReaderState};
ghost use Rattle.std.specs.Prelude.{IfNone, IfSome, OnSome, Some, length, slice_get, ◌+◌, ◌<◌, ◌≡◌, ◌≤◌};

use pagable_flavors::DataKey;
use std::marker::Model;

/// A reader of keys. Contracts see it as all keys and the number of those read.
#[derive(Drop)]
pub struct PagableKeys<'de> {
    keys: &'de [DataKey],
    position: usize,
}

impl<'de> Model for PagableKeys<'de> {
    ghost use Rattle.pagable_value_spec.specs.Progress.{ReaderState};
    ghost use Rattle.std.specs.Prelude.{length, ◌≤◌};

    ghost Value = { ReaderState };

    ghost view = { λ r. record { all = r.keys.now; position = r.position } };

    ghost invariant = { λ r. r.position ≤ length r.keys.now };
}

impl<'de> PagableKeys<'de> {
    /// Creates a reader at the first key.
    pub fn new(keys: &'de [DataKey]) -> PagableKeys<'de>
        ensures { result ≡ record { all = keys.now; position = 0 } }
    {
        PagableKeys { keys, position: 0 }
    }

    /// Returns how many keys were read.
    pub fn position(&self) -> usize
        ensures place { result ≡ self.now.position }
        ensures within { result ≤ length self.now.all }
    {
        self.position
    }

    /// Moves to a position that isn't past the end.
    pub fn set_position(&mut self, position: usize)
        requires { position ≤ length self.old.all }
        ensures { self.new ≡ record self.old { position = position } }
    {
        self.position = position;
    }

    /// Returns the next key and moves past it, or returns None if no key is left.
    pub fn next_key(&mut self) -> Option<DataKey>
        ensures none { IfNone result ((self.new ≡ self.old) × (length self.old.all ≤ self.old.position)) }
        ensures key { IfSome result (λ key. slice_get self.old.all self.old.position ≡ Some key) }
        ensures moved { OnSome result (self.new ≡ record self.old { position = self.old.position + 1 }) }
        ensures within { OnSome result (self.old.position < length self.old.all) }
    {
        if self.position >= self.keys.len() {
            return None;
        }
        let key = self.keys[self.position];
        self.position += 1;
        Some(key)
    }
}
