//! The calls of the pager and their replies. N is the caller's type of values, B the storage's type
//! of blobs.

use crate::pinning::{Beginning, Pinning};
use pagable_value_spec::{
    DataKey, Error, HandleNumber, Kind, LoadNumber, NodeNumber, OptionalDataKey,
};

/// What a load fetches next.
#[derive(Clone, Copy, Debug, PartialEq)]
pub enum FetchTarget {
    /// The blob of the load's own key.
    Root,
    /// The node of a reference, by its kind and key, or its blob if the cache has no node.
    Nested(Kind, DataKey),
}

/// One call of the pager.
#[derive(Drop)]
pub enum Call<N: Drop, B: Drop> {
    /// Inserts a value, with one Pinned handle.
    NewPinned(N),
    /// Inserts a value, with one loose pinned handle.
    NewLoose(N),
    /// Inserts a value, with one Shared handle.
    NewShared(N),
    /// Makes a cell of this type with a key and no value, and one loose unpinned handle.
    NewPagedOut(u32, DataKey),
    /// Makes another handle of the handle's node, in the same mode.
    Clone(HandleNumber),
    /// If the value is in memory, makes a Pinned handle from a loose one, which then pins too.
    Pin(HandleNumber),
    /// Makes a loose pinned handle a loose unpinned one. One that is unpinned stays as it is.
    Unpin(HandleNumber),
    /// Releases a handle.
    Release(HandleNumber),
    /// Turns a Pinned handle into a loose pinned one.
    IntoPagable(HandleNumber),
    /// Sets the key of a loose handle's cell.
    SetDataKey(HandleNumber, DataKey),
    /// Counts the handles that pin the handle's node.
    Count(HandleNumber),
    /// Reads the key of the handle's node.
    Key(HandleNumber),
    /// Says whether the value of the handle's node has to be loaded first.
    IsPagedOut(HandleNumber),
    /// Reads the number of the handle's node.
    NodeOf(HandleNumber),
    /// Reads the type of the node with this number, if it is live.
    NodeLive(NodeNumber),
    /// Puts a loose unpinned handle at the end of the pending list; if the storage is closed,
    /// releases it.
    ScheduleForPaging(HandleNumber),
    /// Counts the entries of the pending list.
    Pending,
    /// Takes the entry at this place, counted from 0, off the pending list and hands it to the
    /// caller.
    TakePending(u64),
    /// Makes a handle of the node that the cache has under a kind and a key.
    CacheGet(Kind, DataKey),
    /// Unless the storage is closed, caches a handle's node, or exchanges the handle for one of the
    /// node that is cached already.
    OnArcDeserialized(Kind, DataKey, HandleNumber),
    /// Empties the cache.
    CacheClear,
    /// Fetches the blob under a key.
    Fetch(DataKey),
    /// Stores a blob.
    Store(B),
    /// Makes the storage write what it has held back.
    Flush,
    /// Begins a load of a loose handle's cell, unless the value is in memory.
    LoadBegin(HandleNumber),
    /// Begins a load of a key.
    LoadKey(DataKey),
    /// Fetches a blob for a load, or makes a handle of a node that the cache has.
    LoadFetch(LoadNumber, FetchTarget),
    /// Makes a node of a value that the load has read, under this kind and key; or, if the cache
    /// has one, drops the value and makes a handle of that.
    LoadAdopt(LoadNumber, Kind, DataKey, N),
    /// Makes a handle of the cell that the cache has under this kind and key, or of a new cell
    /// without a value.
    LoadLazy(LoadNumber, Kind, DataKey),
    /// Ends a load of a cell: gives the cell its value, if it has none, and pins the cell.
    LoadEnd(LoadNumber, N),
    /// Ends a load of a key: hands these of its handles to the caller, and releases the others.
    LoadTake(LoadNumber, Vec<HandleNumber>),
    /// Drops a load.
    LoadDrop(LoadNumber),
    /// Reserves room for this many handles and list entries.
    Reserve(u64),
    /// Counts how many handles, and as many list entries, can be added without an allocation.
    Room,
    /// Closes the storage.
    Close,
}

/// What a load's fetch returns.
#[derive(Drop)]
pub enum Found<B: Drop> {
    /// A handle of the node that the cache has. The load owns the handle.
    Cached(HandleNumber),
    /// The blob that the storage has under the key.
    Blob(B),
}

/// What a call returns. A case may serve several calls.
#[derive(Drop)]
pub enum Reply<N: Drop, B: Drop> {
    /// A call that makes a node of a value returns the new handle, or the error and the value.
    Made(Result<HandleNumber, (Error, N)>),
    /// `new_paged_out`, `clone`, `into_pagable` and `load_lazy` return the handle, or the error.
    Handle(Result<HandleNumber, Error>),
    /// `pin` returns the new handle, or the key that has to be loaded first.
    Pin(Result<Pinning, Error>),
    /// A call that has nothing to return says whether it failed.
    Done(Result<(), Error>),
    /// `count` returns how many handles pin the node.
    Count(Result<u64, Error>),
    /// `key` returns the key of the handle's node, if it has one.
    KeyFound(Result<OptionalDataKey, Error>),
    /// `is_paged_out` says whether the value has to be loaded first.
    PagedOut(Result<bool, Error>),
    /// `node_of` returns the number of the handle's node.
    Node(Result<NodeNumber, Error>),
    /// `node_live` returns the node's type, or None if no such node is live.
    NodeType(Option<u32>),
    /// `pending` returns how many entries the list has, `room` how many more fit.
    Length(u64),
    /// `take_pending` returns the entry's handle, or None if the list has no such entry.
    TakenPending(Option<HandleNumber>),
    /// `cache_get` and `on_arc_deserialized` return a handle of the node that was cached, or None.
    FromCache(Result<Option<HandleNumber>, Error>),
    /// `fetch` returns the blob.
    Fetched(Result<B, Error>),
    /// `store` returns the blob's key.
    Stored(Result<DataKey, Error>),
    /// `load_begin` and `load_key` return the new load, or that no load is needed.
    Begun(Result<Beginning, Error>),
    /// `load_fetch` returns a handle of the cached node, or the blob.
    LoadFound(Result<Found<B>, Error>),
    /// `load_end` returns the new Pinned handle, or the error, with the value unless the call
    /// closed the load.
    LoadEnded(Result<HandleNumber, (Error, Option<N>)>),
}
