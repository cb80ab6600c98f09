//! The results that a worker has met, kept so that it asks for them without the table's lock.

ghost use Rattle.std.specs.Prelude.{IfSome, ◌≡◌};

use crate::table::slot_key;
use indexmap::IndexMap;
use pagable_codec::{Env, NodeSet};
use pagable_pageout::SlotResult;
use pagable_value_spec::Identity;
use std::alloc::Global;

// The most results that a worker keeps.
const MOST: usize = 4_096;

/// Results of identities that have ended. Each stays what it is, as a slot's first outcome stays.
#[derive(Drop)]
pub struct KnownResults<E: Env<Node: NodeSet<E>>> {
    results: IndexMap<(u32, u64), SlotResult<E>>,
}

impl<E: Env<Node: NodeSet<E>>> KnownResults<E> {
    /// Makes a keeper of no results. It takes no memory.
    pub fn new(alloc: Global) -> KnownResults<E> {
        KnownResults {
            results: IndexMap::new(alloc),
        }
    }

    /// Returns the result of an identity, if it is kept.
    pub fn get(&self, identity: Identity) -> Option<SlotResult<E>>
        ensures { IfSome result (λ r. r.identity ≡ identity) }
    {
        let found = self.results.get(&slot_key(identity))?;
        if found.identity == identity {
            return Some(found.copy());
        }
        None
    }

    /// Keeps a result, if there is memory for it. With 4,096 results it forgets them first.
    pub fn keep(&mut self, found: &SlotResult<E>) {
        if self.results.len() >= MOST {
            self.results.clear();
        }
        let _kept = self.results.insert(slot_key(found.identity), found.copy());
    }
}
