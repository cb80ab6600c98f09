//! Pins that wait without a thread: a task polls them, as it polls its other futures.

ghost use Rattle.futures.specs.{Poll.{IfReady, OnPending}, Task.{IsArmed, Keeps}};
ghost use Rattle.pagable_traits.specs.Erased.{HoldsRead};
ghost use Rattle.std.specs.{
  Arc.arc_value,
  Prelude.{Err, IfOk, IfSome, ℕ, ◌≡◌},
};

use crate::arc::PinnedPagableArc;
use crate::storage::NewPin;
use futures::task::{Context, Poll};
use pagable_codec::{Env, HandleNumber, NodeNumber, OfNode};
use pagable_flavors::Error;
use pagable_value_spec::DataKey;
use std::alloc::Global;
use std::marker::PhantomData;
use std::sync::Wait;

/// The stage of a polled pin between two polls.
#[derive(Clone, Copy, Debug, PartialEq)]
pub enum PinStage {
    /// No poll has begun the pin.
    Begin,
    /// The pin's load is open; the next poll polls the fetch of the cell's blob.
    Fetch,
    /// The pin has returned a result, or was cancelled.
    Ended,
}

/// A polled pin of a loose handle. A storage has one such type (`Storage::Pin`). If a pin is
/// dropped while it is pending, its load stays open, with all that the load owns.
pub trait Polls<E: Env>: Sized {
    ghost use Rattle.pagable_traits.specs.declared.pin_future.PinStage.{PinStage};

    ghost stage: { Self → PinStage };

    // What holds of a value that was read under a key. By default nothing is said.
    ghost reads: { Self → ℕ → E.Node → Type 0 } = { λ s k x. Unit {0} };

    /// Begins the pin at the first poll. If the value isn't in memory, polls the fetch of the
    /// cell's blob and, once that is ready, reads the value. Then pins the cell, and says under
    /// which key it has read the value, if it has. Nested blobs are fetched by blocking calls. A
    /// poll is pending only if the fetch is, which has left a waker in `cx`.
    ///
    /// # Errors
    ///
    /// - as `Storage::pin`: handles and counts are as they were.
    /// - `NoSuchHandle` if the pin ended before.
    fn poll<R: Wait>(
        &mut self,
        rt: &R,
        alloc: Global,
        cx: &mut Context<'_>,
    ) -> Poll<Result<NewPin<E::Node>, Error>>
        ensures pending { OnPending result ((stage self.new ≡ PinStage.Fetch) × IsArmed cx.new) }
        ensures answered { IfReady result (λ r. stage self.new ≡ PinStage.Ended) }
        ensures ended { stage self.old ≡ PinStage.Ended → result ≡ Poll.Ready (Err Error.NoSuchHandle) }
        ensures kept { Keeps cx.old cx.new }
        ensures keyed { IfReady result (λ r. IfOk r (λ p. IfSome p.read_from
            (λ key. reads self.old key (arc_value p.value)))) };

    /// Undoes the pin that `poll` has returned with the handle `pinned`: releases that handle, and
    /// unpins the loose handle again if it was unpinned before the pin.
    fn undo_pin<R: Wait>(&self, rt: &R, pinned: HandleNumber, was_unpinned: bool);

    /// Cancels the pin: ends its load and releases all that the load owns. A pin that has ended is
    /// unchanged.
    fn cancel<R: Wait>(&mut self, rt: &R)
        ensures { stage self.new ≡ PinStage.Ended };
}

/// A polled pin of a `PagableArc`. If it is dropped while it is pending, its load stays open, with
/// all that the load owns.
#[derive(Drop)]
pub struct PinFuture<T, P> {
    node: NodeNumber,
    pin: P,
    value: PhantomData<T>,
}

impl<T, P> PinFuture<T, P> {
    /// Makes the future that polls this pin of the cell with this node number.
    pub(crate) fn new(node: NodeNumber, pin: P) -> PinFuture<T, P>
        ensures { (result.node ≡ node) × (result.pin ≡ pin) }
    {
        PinFuture {
            node,
            pin,
            value: PhantomData,
        }
    }

    /// Polls the pin. It is pending only if the storage's fetch of the cell's blob is, which has
    /// left a waker in `cx`; the next poll continues from there. Between two polls it holds no
    /// lock.
    ///
    /// # Errors
    ///
    /// - as `PagableArc::pin_sync`: handles and counts are as they were.
    /// - `NoSuchHandle` if it has returned a result before.
    pub fn poll<E: Env, R: Wait>(
        &mut self,
        rt: &R,
        alloc: Global,
        cx: &mut Context<'_>,
    ) -> Poll<Result<PinnedPagableArc<T>, Error>>
    where
        P: Polls<E>,
        T: OfNode<E> + Drop,
        ensures pending { OnPending result ((P.stage self.new.pin ≡ PinStage.Fetch) × IsArmed cx.new) }
        ensures answered { IfReady result (λ r. P.stage self.new.pin ≡ PinStage.Ended) }
        ensures ended { P.stage self.old.pin ≡ PinStage.Ended → result ≡ Poll.Ready (Err Error.NoSuchHandle) }
        ensures node { IfReady result (λ r. IfOk r (λ pin. pin.node ≡ self.old.node)) }
        ensures kept { Keeps cx.old cx.new }
    {
        match self.poll_and_key(rt, alloc, cx) {
            Poll::Ready(Ok((pin, _key))) => Poll::Ready(Ok(pin)),
            Poll::Ready(Err(e)) => Poll::Ready(Err(e)),
            Poll::Pending => Poll::Pending,
        }
    }

    /// Does what `poll` does, and returns also the key under which this pin has read the value;
    /// None if the value was in memory.
    ///
    /// # Errors
    ///
    /// - as `poll`: handles and counts are as they were.
    pub fn poll_and_key<E: Env, R: Wait>(
        &mut self,
        rt: &R,
        alloc: Global,
        cx: &mut Context<'_>,
    ) -> Poll<Result<(PinnedPagableArc<T>, Option<DataKey>), Error>>
    where
        P: Polls<E>,
        T: OfNode<E> + Drop,
        ensures pending { OnPending result ((P.stage self.new.pin ≡ PinStage.Fetch) × IsArmed cx.new) }
        ensures answered { IfReady result (λ r. P.stage self.new.pin ≡ PinStage.Ended) }
        ensures ended { P.stage self.old.pin ≡ PinStage.Ended → result ≡ Poll.Ready (Err Error.NoSuchHandle) }
        ensures node { IfReady result (λ r. IfOk r (λ p. p.0.node ≡ self.old.node)) }
        ensures kept { Keeps cx.old cx.new }
        ensures keyed { IfReady result (λ r. IfOk r (λ p. IfSome p.1
            (λ key. HoldsRead T.held (arc_value p.0.value) (P.reads self.old.pin key)))) }
    {
        let NewPin {
            handle,
            value: node,
            was_unpinned,
            read_from,
        } = match self.pin.poll(rt, alloc, cx) {
            Poll::Ready(Ok(pin)) => pin,
            Poll::Ready(Err(e)) => return Poll::Ready(Err(e)),
            Poll::Pending => return Poll::Pending,
        };
        let refused = match T::from_node(alloc, node.as_ref()) {
            Ok(Some(value)) => {
                let pin = PinnedPagableArc::from_handle(self.node, handle, value);
                return Poll::Ready(Ok((pin, read_from)));
            }
            Ok(None) => Error::WrongKind,
            Err(e) => e,
        };
        self.pin.undo_pin(rt, handle, was_unpinned);
        Poll::Ready(Err(refused))
    }

    /// Cancels the pin: ends its load and releases all that the load owns. It never fails.
    pub fn cancel<E: Env, R: Wait>(mut self, rt: &R)
    where
        P: Polls<E> + Drop,
    {
        self.pin.cancel(rt);
    }
}
