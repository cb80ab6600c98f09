//! What the storage was asked for below a storage that threads share.

use crate::storage_handle::PagableStorageHandle;
use pagable_codec::{Env, NodeSet};
use pagable_core::{CountedStorage, PagableStorage, StorageCounts};
use std::sync::Wait;

impl<E: Env<Node: NodeSet<E>>, S: PagableStorage<E>> PagableStorageHandle<E, CountedStorage<S>> {
    /// Returns what the storage was asked for since it was made, by whichever thread.
    pub fn storage_counts<R: Wait>(&self, rt: &R) -> StorageCounts {
        self.inner.pager.lock(rt).storage().counts()
    }
}
