//! The events of the machine and their replies. N is the caller's type of values, B the storage's
//! type of blobs, and W the type of what is written of a value: its bytes and references.

use crate::calls::{Call, Reply};
use crate::pinning::Beginning;
use pagable_value_spec::{DataKey, Error, HandleNumber, Identity, LoadNumber, WorkerNumber};

/// The number of a page-out table, from 1 on. A machine never gives out a number twice.
#[derive(Clone, Copy, Debug, PartialEq, Eq)]
pub struct TableNumber(pub u64);

/// One event: a call of the pager, or one step of a load or of a page-out worker.
#[derive(Drop)]
pub enum Event<N: Drop, B: Drop, W: Drop> {
    /// One call of the pager.
    Call(Call<N, B>),
    /// Begins a load of a loose handle's cell, unless the value is in memory.
    LoadStart(HandleNumber),
    /// Begins a load of a key, to be read as a value of this type.
    LoadKey(DataKey, u32),
    /// Makes a load's next step.
    LoadStep(LoadNumber),
    /// Makes a new table for page-out.
    TableNew,
    /// Begins a worker on a table, for an item.
    WorkerItem(TableNumber, W),
    /// Begins a worker on a table, for the list entry at this place, counted from 0.
    WorkerListed(TableNumber, u64),
    /// Makes a worker's next step.
    WorkerStep(WorkerNumber),
}

/// How a load ends.
#[derive(Drop)]
pub enum LoadAnswer<N: Drop> {
    /// The cell's value is in memory, and this new Pinned handle pins it.
    Pinned(HandleNumber),
    /// The value that was read. The caller owns its handles.
    Read(N),
    /// The load failed and is closed.
    Refused(Error),
}

/// What a load's step returns: how the load ended, or None if it goes on; and how many steps it has
/// made.
#[derive(Drop)]
pub struct LoadReply<N: Drop> {
    pub ended: Option<LoadAnswer<N>>,
    pub steps: u64,
}

/// What a claim finds.
#[derive(Clone, Copy, Debug, PartialEq)]
pub enum Claim {
    /// Nobody had claimed the identity: this worker has it now.
    Claimed,
    /// The identity is paged out already: its key and height.
    Known(DataKey, u64),
    /// Another worker has claimed the identity, and has no result yet.
    Waiting,
    /// Another worker claimed the identity and failed.
    AlreadyFailed,
}

/// What a step that pins a node has done.
#[derive(Clone, Copy, Debug, PartialEq)]
pub enum PinStep {
    /// The worker has pinned the node, by this handle.
    Pinned(HandleNumber),
    /// The worker has begun a load.
    LoadBegun(LoadNumber),
    /// The worker's load has made one step.
    LoadStepMade,
}

/// One action of a worker, with the result of the call that it made.
#[derive(Drop)]
pub enum Action<W: Drop> {
    /// Claims an identity.
    Claim(Identity, Result<Claim, Error>),
    /// Pins the node of an identity, loading it where needed.
    Pin(Identity, Result<PinStep, Error>),
    /// Writes the node's value.
    Write(Identity, Result<W, Error>),
    /// Stores a blob with the keys of its references: the blob of an identity, or at the end the
    /// item's (None).
    Store(Option<Identity>, Result<DataKey, Error>),
    /// Sets the key of the node, if the kind is loose.
    SetKey(Identity, Result<(), Error>),
    /// Publishes key and height for the other workers of the table.
    Publish(Identity, DataKey, u64),
    /// Releases the worker's handles of the node.
    Release(Identity),
    /// Ends a walk that has failed: whatever the worker claimed and didn't publish fails too.
    Fail,
}

/// The result of a worker.
#[derive(Clone, Copy, Debug, PartialEq)]
pub enum WorkerAnswer {
    /// The worker has paged out its item or listed cell, under this key.
    Key(DataKey),
    /// A step of this worker failed.
    Failed(Error),
    /// Another worker failed at an identity that this one needs.
    AlreadyFailed,
}

/// What a worker's step returns: its action, the worker's result if the step was the last, and how
/// many steps the worker has made.
#[derive(Drop)]
pub struct WorkerReply<W: Drop> {
    pub action: Action<W>,
    pub answer: Option<WorkerAnswer>,
    pub steps: u64,
}

/// The reply to an event.
#[derive(Drop)]
pub enum EventReply<N: Drop, B: Drop, W: Drop> {
    /// The call's reply.
    CallReply(Reply<N, B>),
    /// A load has begun, or the value is in memory; or the begin failed.
    Started(Result<Beginning, Error>),
    /// A load has made a step. With an error it has made none.
    LoadMoved(Result<LoadReply<N>, Error>),
    /// The number of the new table.
    TableMade(Result<TableNumber, Error>),
    /// The number of the new worker.
    WorkerMade(Result<WorkerNumber, Error>),
    /// A worker has made a step. With an error it has made none.
    WorkerMoved(Result<WorkerReply<W>, Error>),
}
