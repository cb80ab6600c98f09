//! The calls by which typed references make, pin and release their handles. A storage is a pager
//! behind a lock, or a borrowed pager.

ghost use Rattle.pagable_traits.specs.declared.{pin_future.PinStage.PinStage, storage.FirstHandle.FirstHandle};
ghost use Rattle.pagable_value_spec.specs.declared.{
  data_key.OptionalDataKey.OptionalDataKey as Key,
  error.Error.Error as Refusal,
  numbers.{HandleNumber.HandleNumber as Handle, NodeNumber.NodeNumber as Node},
};
ghost use Rattle.std.specs.{
  Arc.arc_value,
  Prelude.{Bool, IfOk, IfSome, Option, Result, Some, ℕ, ◌<◌, ◌≡◌},
};

use crate::pin_future::Polls;
use pagable_codec::{Env, HandleNumber, NodeNumber};
use pagable_flavors::Error;
use pagable_value_spec::{DataKey, OptionalDataKey};
use std::alloc::Global;
use std::sync::{Arc, Wait};

/// The mode of a new node's first handle.
#[derive(Clone, Copy, Debug, PartialEq)]
pub enum FirstHandle {
    /// A Loose handle, which pins.
    Loose,
    /// A Shared handle: the node has no key.
    Shared,
    /// A Pinned handle.
    Pinned,
}

/// A new pin: its handle, the value that it holds, whether the loose handle from which it was made
/// was unpinned before, and the key under whose blob this pin has read the value from the storage:
/// None if the value was in memory already.
#[derive(Drop)]
pub struct NewPin<N> {
    pub handle: HandleNumber,
    pub value: Arc<N>,
    pub was_unpinned: bool,
    pub read_from: Option<DataKey>,
}

/// A store of nodes, to which handles refer. `PagableArc`, `PinnedPagableArc` and `Arc` insert, pin
/// and release by these calls. A storage may state in its contract which node each handle refers
/// to; then a pin returns the value of the handle's node.
pub trait Storage<E: Env> {
    /// The storage's polled pin.
    type Pin: Polls<E>;

    // The node to which each handle refers, or None for a storage whose contract doesn't state it.
    ghost nodes_by_handle: { Self → Option (ℕ → Option E.Node) };

    // Relations that a storage may choose: what each call may return for what it is given. By
    // default it may return anything. A typed reference returns what its storage has returned.
    ghost new_nodes: { Self → E.Node → FirstHandle → Node × Handle → Type 0 } = { λ s n f r. Unit {0} };

    ghost key_answers: { Self → Handle → Result Key Refusal → Type 0 } = { λ s h r. Unit {0} };

    ghost set_key_answers: { Self → Handle → ℕ → Result (Unit {0}) Refusal → Type 0 } = { λ s h k r. Unit {0} };

    ghost new_cells: { Self → ℕ → ℕ → Node × Handle → Type 0 } = { λ s t k r. Unit {0} };

    ghost clones: { Self → Handle → Handle → Type 0 } = { λ s h k. Unit {0} };

    ghost pins: { Self → Handle → Handle → Type 0 } = { λ s h k. Unit {0} };

    // What holds of a value that was read under a key.
    ghost reads: { Self → ℕ → E.Node → Type 0 } = { λ s k x. Unit {0} };

    ghost unpin_answers: { Self → Handle → Result (Unit {0}) Refusal → Type 0 } = { λ s h r. Unit {0} };

    ghost loosen_answers: { Self → Handle → Result (Unit {0}) Refusal → Type 0 } = { λ s h r. Unit {0} };

    ghost release_answers: { Self → Handle → Result (Unit {0}) Refusal → Type 0 } = { λ s h r. Unit {0} };

    ghost counts: { Self → Handle → Result ℕ Refusal → Type 0 } = { λ s h r. Unit {0} };

    ghost paged_out_answers: { Self → Handle → Result Bool Refusal → Type 0 } = { λ s h r. Unit {0} };

    /// Inserts a node with its first handle. The caller owns that handle, and must own the handles
    /// in the value.
    ///
    /// # Errors
    ///
    /// Each drops the node: a caller who needs the value keeps a share of it.
    ///
    /// - `NoSuchHandle`, `NotYours`, `WrongMode`, `WrongKind` if a reference in the value isn't a
    ///   fitting one that the caller owns.
    /// - `NumbersSpent`, `OutOfMemory`.
    fn insert<R: Wait>(
        &self,
        rt: &R,
        alloc: Global,
        node: E::Node,
        first: FirstHandle,
    ) -> Result<(NodeNumber, HandleNumber), Error>
        ensures value { IfOk result (λ r. IfSome (nodes_by_handle self.now) (λ at. at r.1.0 ≡ Some node)) }
        ensures made { IfOk result (new_nodes self.now node first) };

    /// Makes a cell that has a key and no value, with an unpinned loose handle that the caller
    /// owns. The call reads nothing: the caller must know that the blob of the key is read as a
    /// value of this type.
    ///
    /// # Errors
    ///
    /// - `NumbersSpent`, `OutOfMemory`: nothing changes.
    fn new_paged_out<R: Wait>(
        &self,
        rt: &R,
        alloc: Global,
        node_type: u32,
        key: DataKey,
    ) -> Result<(NodeNumber, HandleNumber), Error>
        ensures made { IfOk result (new_cells self.now node_type key) };

    /// Makes another handle of a handle's node, in the same mode. Its number is greater than that
    /// of each live handle.
    ///
    /// # Errors
    ///
    /// - `NoSuchHandle`, `NumbersSpent`, `OutOfMemory`: nothing changes.
    fn clone_handle<R: Wait>(&self, rt: &R, handle: HandleNumber) -> Result<HandleNumber, Error>
        ensures value { IfOk result (λ r. IfSome (nodes_by_handle self.now) (λ at. at r.0 ≡ at handle.0)) }
        ensures later { IfOk result (λ r. handle.0 < r.0) }
        ensures clone { IfOk result (clones self.now handle) };

    /// Pins the cell of a loose handle that the caller owns, loading its value if it isn't in
    /// memory. The pin says under which key it has read the value, if it has.
    ///
    /// # Errors
    ///
    /// Each leaves handles and counts as they were.
    ///
    /// - `NoSuchHandle`, `NotYours`, `WrongMode` if the handle isn't a loose one that the caller
    ///   owns.
    /// - the errors of loading the value, `NumbersSpent` and `OutOfMemory`.
    fn pin<R: Wait>(
        &self,
        rt: &R,
        alloc: Global,
        handle: HandleNumber,
    ) -> Result<NewPin<E::Node>, Error>
        ensures value { IfOk result (λ p. IfSome (nodes_by_handle self.now)
            (λ at. at handle.0 ≡ Some (arc_value p.value))) }
        ensures pin { IfOk result (λ p. pins self.now handle p.handle) }
        ensures keyed { IfOk result (λ p. IfSome p.read_from (λ key. reads self.now key (arc_value p.value))) };

    /// Returns a polled pin of the cell of a loose handle that the caller owns. Its first poll
    /// begins the pin.
    ///
    /// # Errors
    ///
    /// - `OutOfMemory` if the storage is shared too often already.
    fn polled_pin(&self, handle: HandleNumber) -> Result<Self::Pin, Error>
        ensures { IfOk result (λ p. Self.Pin.stage p ≡ PinStage.Begin) };

    /// Unpins a loose handle that the caller owns: the handle stops pinning its cell.
    ///
    /// # Errors
    ///
    /// - `NoSuchHandle`, `NotYours`, `WrongMode`: nothing changes.
    /// - `NumbersSpent`, `OutOfMemory` if the cell can't be listed for page-out: the handle is
    ///   unpinned all the same.
    fn unpin<R: Wait>(&self, rt: &R, handle: HandleNumber) -> Result<(), Error>
        ensures answers { unpin_answers self.now handle result };

    /// Turns a Pinned handle that the caller owns into a loose one with the same number, which
    /// pins.
    ///
    /// # Errors
    ///
    /// - `NoSuchHandle`, `NotYours`, `WrongMode`: nothing changes.
    fn into_pagable<R: Wait>(&self, rt: &R, handle: HandleNumber) -> Result<(), Error>
        ensures answers { loosen_answers self.now handle result };

    /// Releases a handle that the caller owns.
    ///
    /// # Errors
    ///
    /// - `NoSuchHandle`, `NotYours`: nothing changes.
    /// - `NumbersSpent`, `OutOfMemory` if a cell can't be listed for page-out: the handle is
    ///   released all the same.
    fn release<R: Wait>(&self, rt: &R, handle: HandleNumber) -> Result<(), Error>
        ensures answers { release_answers self.now handle result };

    /// Returns how many handles pin a handle's node.
    ///
    /// # Errors
    ///
    /// - `NoSuchHandle`.
    fn count<R: Wait>(&self, rt: &R, handle: HandleNumber) -> Result<u64, Error>
        ensures answers { counts self.now handle result };

    /// Returns the key of a handle's node, if it is a cell that has one.
    ///
    /// # Errors
    ///
    /// - `NoSuchHandle`.
    fn key<R: Wait>(&self, rt: &R, handle: HandleNumber) -> Result<OptionalDataKey, Error>
        ensures answers { key_answers self.now handle result };

    /// Sets the key of a loose handle's cell; if nothing pins the cell, its value is dropped. For a
    /// Pinned or a Shared handle the call changes nothing. The caller must know that the blob of
    /// the key is read as the cell's value.
    ///
    /// # Errors
    ///
    /// - `NoSuchHandle`, `NotYours`: nothing changes.
    /// - `NumbersSpent`, `OutOfMemory` if a cell can't be listed for page-out: the key is set all
    ///   the same.
    fn set_data_key<R: Wait>(&self, rt: &R, handle: HandleNumber, key: DataKey) -> Result<(), Error>
        ensures answers { set_key_answers self.now handle key result };

    /// Returns whether the value of a handle's node isn't in memory.
    ///
    /// # Errors
    ///
    /// - `NoSuchHandle`.
    fn is_paged_out<R: Wait>(&self, rt: &R, handle: HandleNumber) -> Result<bool, Error>
        ensures answers { paged_out_answers self.now handle result };
}

/// Returns whether a release that fails with the error `why` has released the handle all the same.
pub(crate) fn was_released_despite(why: &Error) -> bool {
    matches!(why, Error::NumbersSpent | Error::OutOfMemory)
}
