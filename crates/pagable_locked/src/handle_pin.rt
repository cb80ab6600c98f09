//! A polled pin on a storage that threads share: the lock is free between two polls, and while the
//! value is read.

ghost use Rattle.futures.specs.{Poll.{IfReady, OnPending}, Task.{IsArmed, Keeps}};
ghost use Rattle.pagable_core.specs.Data.{blob_of};
ghost use Rattle.pagable_load.specs.{AccessView.values_at, Keyed.IsPinKeyed};
ghost use Rattle.pagable_value_spec.specs.Blob.{key_of};
ghost use Rattle.std.specs.{Arc.arc_value, Prelude.{Err, IfOk, None, ◌≡◌}};

use crate::storage_handle::PagableStorageHandle;
use futures::task::{Context, Poll};
use pagable_codec::{Env, NodeSet};
use pagable_core::{PagableData, PagableStorage};
use pagable_load::{BegunPin, CellReading, begin_polled_pin};
use pagable_traits::{NewPin, Polls};
use pagable_value_spec::{DataKey, Error, HandleNumber};
use std::alloc::Global;
use std::mem::replace;
use std::sync::{Arc, Wait};

/// How far a polled pin has come.
#[derive(Drop)]
enum PinState {
    Begin,
    // The next poll polls the fetch of the cell's blob.
    Fetch(CellReading),
    Ended,
}

/// A polled pin of a cell, by one of its loose handles. Each call of the pager takes and releases
/// the lock.
#[derive(Drop)]
pub struct HandlePin<E: Env<Node: NodeSet<E>>, S: PagableStorage<E>> {
    storage: PagableStorageHandle<E, S>,
    handle: HandleNumber,
    state: PinState,
}

impl<E: Env<Node: NodeSet<E>>, S: PagableStorage<E>> HandlePin<E, S> {
    /// Makes a pin that hasn't begun.
    pub(crate) fn new(storage: PagableStorageHandle<E, S>, handle: HandleNumber) -> HandlePin<E, S>
        ensures { result.state ≡ PinState.Begin }
    {
        HandlePin {
            storage,
            handle,
            state: PinState::Begin,
        }
    }

    // Begins a load of the cell if its value isn't in memory; else pins it.
    fn begin<R: Wait>(&self, rt: &R, alloc: Global) -> Result<BegunPin<E::Node>, Error> {
        let mut access = self.storage.access(rt);
        begin_polled_pin(&mut access, alloc, self.handle)
    }

    fn poll_blob<R: Wait>(
        &self,
        rt: &R,
        alloc: Global,
        cx: &mut Context<'_>,
        key: DataKey,
    ) -> Poll<Result<Arc<PagableData>, Error>>
        ensures named { IfReady result (λ r. IfOk r (λ found. key_of E.Hash.digest (blob_of (arc_value found)) ≡ key)) }
        ensures armed { OnPending result (IsArmed cx.new) }
        ensures kept { Keeps cx.old cx.new }
    {
        self.storage.inner.pager.lock(rt).poll_fetch(cx, alloc, key)
    }
}

impl<E: Env<Node: NodeSet<E>>, S: PagableStorage<E>> Polls<E> for HandlePin<E, S> {
    ghost use Rattle.pagable_load.specs.{AccessView.values_at, Keyed.IsKeyed};
    ghost use Rattle.pagable_locked.specs.Stages.{stage_of};
    ghost use Rattle.std.specs.Arc.{arc_value};

    ghost stage = { λ p. stage_of p.state };

    ghost reads = { λ p key x. IsKeyed (values_at E.Node.NodeSet E.Env E.Hash.KeyHash
        (arc_value (arc_value p.storage.inner).setting).env) key (E.Node.type_of x) x };

    fn poll<R: Wait>(
        &mut self,
        rt: &R,
        alloc: Global,
        cx: &mut Context<'_>,
    ) -> Poll<Result<NewPin<E::Node>, Error>> {
        let reading = match replace(&mut self.state, PinState::Ended) {
            PinState::Begin => match self.begin(rt, alloc) {
                Ok(BegunPin::Reading(reading)) => reading,
                Ok(BegunPin::Pinned(pinned, was_unpinned, shared)) => {
                    let storage = &self.storage;
                    return Poll::Ready(storage.finish_pin(
                        rt,
                        self.handle,
                        pinned,
                        was_unpinned,
                        shared,
                    ));
                }
                Err(e) => return Poll::Ready(Err(e)),
            },
            PinState::Fetch(reading) => reading,
            PinState::Ended => return Poll::Ready(Err(Error::NoSuchHandle)),
        };
        match self.poll_blob(rt, alloc, cx, reading.key()) {
            Poll::Pending => {
                self.state = PinState::Fetch(reading);
                Poll::Pending
            }
            Poll::Ready(Ok(blob)) => {
                let storage = &self.storage;
                Poll::Ready(storage.read_pin(rt, alloc, self.handle, reading, blob))
            }
            Poll::Ready(Err(e)) => {
                self.storage.drop_load(rt, reading.load());
                Poll::Ready(Err(e))
            }
        }
    }

    fn undo_pin<R: Wait>(&self, rt: &R, pinned: HandleNumber, was_unpinned: bool) {
        self.storage
            .undo_pin_of(rt, self.handle, pinned, was_unpinned);
    }

    fn cancel<R: Wait>(&mut self, rt: &R) {
        if let PinState::Fetch(reading) = replace(&mut self.state, PinState::Ended) {
            self.storage.drop_load(rt, reading.load());
        }
    }
}
