//! The page-out of one cell of a storage that threads may share.

use crate::text::TextEnv;
use crate::text_storage::TextStorage;
use pagable::storage::handle::Storage;
use pagable::{
    DataKey, Error, HandleNumber, KeyHash, LentTable, OptionalDataKey, PagableStorage, PageOutError,
};
use pagable_pageout::page_out_entry;
use std::alloc::Global;
use std::sync::Wait;

/// Makes a handle loose, unpins it, and moves it to the end of the list of what waits for page-out.
fn schedule_unpinned<R: Wait, H: KeyHash, S: PagableStorage<TextEnv<H>>>(
    rt: &R,
    storage: &TextStorage<H, S>,
    handle: HandleNumber,
) -> Result<(), Error> {
    let _loosened = storage.into_pagable(rt, handle);
    storage.unpin(rt, handle)?;
    storage.schedule_for_paging(rt, handle)
}

/// Clones a handle, unpins the clone, and puts it at the end of the list of what waits for
/// page-out; if that fails, releases it.
fn schedule_clone<R: Wait, H: KeyHash, S: PagableStorage<TextEnv<H>>>(
    rt: &R,
    storage: &TextStorage<H, S>,
    handle: HandleNumber,
) -> Result<(), Error> {
    let clone = storage.clone_handle(rt, handle)?;
    let listed = schedule_unpinned(rt, storage, clone);
    if listed.is_err() {
        let _released = storage.release(rt, clone);
    }
    listed
}

/// Pages out the last entry of the list, and returns its cell's key; None if the list is empty.
fn page_out_last<R: Wait, H: KeyHash, S: PagableStorage<TextEnv<H>>>(
    rt: &R,
    alloc: Global,
    storage: &TextStorage<H, S>,
) -> Result<Option<DataKey>, PageOutError> {
    let pending = storage.pending_paging_count(rt);
    if pending == 0 {
        return Ok(None);
    }
    let mut access = storage.access(rt);
    let mut table = LentTable::new(alloc);
    page_out_entry(&mut access, alloc, &mut table, pending - 1)
}

/// Pages out the cell of a handle of any mode but Shared, and returns its key. If the cell has a
/// key already, only returns this. No other thread may use the storage meanwhile.
///
/// # Errors
///
/// - `NoSuchHandle` if the handle isn't live.
/// - `Closed` after the storage was closed.
/// - `OutOfMemory`, `NumbersSpent`, or the error of writing or storing the text: the cell may then
///   be in the list.
pub fn page_out<R: Wait, H: KeyHash, S: PagableStorage<TextEnv<H>>>(
    rt: &R,
    alloc: Global,
    storage: &TextStorage<H, S>,
    handle: HandleNumber,
) -> Result<DataKey, Error> {
    if let OptionalDataKey::Some(key) = storage.key(rt, handle)? {
        return Ok(key);
    }
    schedule_clone(rt, storage, handle)?;
    match page_out_last(rt, alloc, storage)? {
        Some(key) => Ok(key),
        None => Err(Error::Closed),
    }
}
