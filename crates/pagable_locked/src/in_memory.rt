//! A pager that threads share, over blobs in memory.

ghost use Rattle.pagable_value_spec.specs.Outcomes.{IsOutOfMemory};
ghost use Rattle.std.specs.{Arc.arc_value, Prelude.{IfErr, IfOk, Ok, ◌≡◌}};

use crate::storage_handle::PagableStorageHandle;
use pagable_codec::{Env, NodeSet};
use pagable_core::{InMemoryBlobs, SessionOf};
use pagable_pageout::PageOutError;
use pagable_pager::PagerStats;
use pagable_value_spec::Error;
use std::alloc::Global;
use std::sync::Wait;

/// A pager over blobs in memory, for any number of threads.
#[derive(Drop)]
pub struct InMemoryPagableStorage<E: Env<Node: NodeSet<E>>> {
    handle: PagableStorageHandle<E, InMemoryBlobs<E>>,
}

impl<E: Env<Node: NodeSet<E>>> InMemoryPagableStorage<E> {
    /// Makes an empty storage.
    ///
    /// # Errors
    ///
    /// - `OutOfMemory` if the pager can't get memory: the environment is dropped.
    pub fn new(alloc: Global, env: E) -> Result<InMemoryPagableStorage<E>, Error>
    where
        E: Drop,
        ensures environment { IfOk result (λ s. (arc_value (arc_value s.handle.inner).setting).env ≡ env) }
        ensures only { IfErr result IsOutOfMemory }
    {
        let handle = PagableStorageHandle::new(alloc, InMemoryBlobs::new(alloc), env)?;
        Ok(InMemoryPagableStorage { handle })
    }

    /// Makes an empty storage in the default environment.
    ///
    /// # Errors
    ///
    /// - `OutOfMemory` if the pager can't get memory.
    pub fn default(alloc: Global) -> Result<InMemoryPagableStorage<E>, Error>
    where
        E: Default + Drop,
        ensures { IfErr result IsOutOfMemory }
    {
        InMemoryPagableStorage::new(alloc, E::default())
    }

    /// Makes one more handle of the pager.
    ///
    /// # Errors
    ///
    /// - `OutOfMemory` if it is shared too often already.
    pub fn handle(&self) -> Result<PagableStorageHandle<E, InMemoryBlobs<E>>, Error>
        ensures same { IfOk result (λ h. arc_value h.inner ≡ arc_value self.now.handle.inner) }
        ensures only { IfErr result IsOutOfMemory }
    {
        self.handle.clone()
    }

    /// Lends the context of the one session of all values that this pager writes and reads. It
    /// takes no lock.
    pub fn session_context(&self) -> &SessionOf<E>
        ensures { result.now ≡ (arc_value (arc_value self.now.handle.inner).setting).session }
    {
        self.handle.session_context()
    }

    /// Returns how many entries the page-out list has.
    pub fn pending_paging_count<R: Wait>(&self, rt: &R) -> usize {
        self.handle.pending_paging_count(rt)
    }

    /// Counts the pager's handles, nodes and entries of the page-out list: see
    /// `PagableStorageHandle::stats`.
    pub fn stats<R: Wait>(&self, rt: &R) -> PagerStats {
        self.handle.stats(rt)
    }

    /// Says whether all tables of the pager agree: see `PagableStorageHandle::is_sound`.
    pub fn is_sound<R: Wait>(&self, rt: &R) -> bool {
        self.handle.is_sound(rt)
    }

    /// Pages out the cells that wait for page-out: see `PagableStorageHandle::page_out_pending`,
    /// also for the errors.
    pub fn page_out_pending<R: Wait>(&self, rt: &R, alloc: Global) -> Result<(), PageOutError> {
        self.handle.page_out_pending(rt, alloc)
    }

    /// Closes the storage: see `PagableStorageHandle::close`.
    pub fn close<R: Wait>(&self, rt: &R) -> Result<(), Error>
        ensures { result ≡ Ok tt }
    {
        self.handle.close(rt)
    }
}
