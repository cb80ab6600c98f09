//! What a page-out worker has still to do: the task at hand, and the path of nodes that wait.

ghost use Rattle.pagable_load.specs.AccessView.{values_at};
ghost use Rattle.pagable_pageout.specs.{
  Results.HasFormOf,
  Slots.{ids_of, written_of},
  declared.tasks.ClaimedNode.ClaimedNode as OfNode,
};
ghost use Rattle.pagable_pager_spec.specs.{Basics.longest_path, Kinds.identity_of};
ghost use Rattle.std.specs.{Arc.arc_value, Prelude.{Some, length, map, take, vec_capacity, ◌+◌, ◌≡◌, ◌≤◌}};

use crate::SlotResult;
use pagable_codec::{Env, NodeSet};
use pagable_core::SerializedData;
use pagable_load::Reading;
use pagable_pager_spec::{Action, WorkerAnswer};
use pagable_value_spec::{ArcRef, DataKey, Error, HandleNumber, Identity};
use std::sync::Arc;

/// Why a page-out fails.
#[derive(Clone, Copy, Debug, PartialEq)]
pub enum PageOutError {
    /// One of the worker's own steps failed with this error.
    Failed(Error),
    /// Another worker had claimed a node whose result this worker needs, and failed.
    AlreadyFailed,
}

/// A node that a worker has claimed, and whose value it has written.
///
/// - `reference`: the reference by which it was claimed.
/// - `place`: its depth on the path.
/// - `through`: the worker's own handle of the reference's mode.
/// - `height`: the longest path below it, by the references done so far.
#[derive(Clone, Copy)]
pub struct ClaimedNode {
    pub reference: ArcRef,
    pub place: u64,
    pub through: HandleNumber,
    pub height: u64,
}

/// The written value of a claimed node, or of the item (then `node` is None), which waits until each
/// of its references is done. `children` has the results of the references done so far, and room
/// for those of all others.
#[derive(Drop)]
pub struct WaitingValue<E: Env<Node: NodeSet<E>>> {
    pub node: Option<ClaimedNode>,
    pub written: Arc<SerializedData>,
    pub children: Vec<SlotResult<E>>,
    pub ghost near: { (n : OfNode) → node ≡ Some n → n.place + n.height ≤ longest_path },
    pub ghost form: { (n : OfNode) → node ≡ Some n → ∥ HasFormOf (values_at E.Node.NodeSet E.Env E.Hash.KeyHash)
        (identity_of n.reference) (written_of (arc_value written)) ∥₁ },
    pub ghost places: { length (written_of (arc_value written)).references ≤ vec_capacity children },
    pub ghost each: { ids_of children.items ≡ map identity_of
        (take (length children.items) (written_of (arc_value written)).references) },
}

/// A reference with the result of what it names.
#[derive(Drop)]
pub struct DoneReference<E: Env<Node: NodeSet<E>>> {
    pub reference: ArcRef,
    pub found: SlotResult<E>,
    pub ghost own: { found.identity ≡ identity_of reference },
}

impl<E: Env<Node: NodeSet<E>>> DoneReference<E> {
    /// Returns the key of what the reference names.
    pub fn key(&self) -> DataKey
        ensures { result ≡ self.now.found.key }
    {
        self.found.key
    }
}

/// A worker's next task.
#[derive(Drop)]
pub enum Task<E: Env<Node: NodeSet<E>>> {
    /// Claims what the reference names, at this place on the path.
    Start(ArcRef, u64),
    /// Pins the claimed node, or begins a load of it.
    Pin(ArcRef, u64),
    /// Makes the next step of the load that began through this handle.
    Load(ArcRef, u64, HandleNumber, Reading),
    /// Writes the value. The first handle has the reference's mode, the second one pins the node.
    Write(ArcRef, u64, HandleNumber, HandleNumber),
    /// Stores the blob of a node or an item whose references are all done.
    Finish(WaitingValue<E>),
    /// Sets the node's key through this handle.
    SetKey(DoneReference<E>, HandleNumber),
    /// Publishes the node's result in the table.
    Publish(DoneReference<E>),
    /// Releases the worker's handles of the node.
    Release(DoneReference<E>),
    /// Marks the worker's open claims as failed, and puts the entry, if there is one, back on the
    /// list of cells that wait for page-out.
    Fail(PageOutError, Option<HandleNumber>),
}

/// What a task leads to: the next task, or the worker's answer.
#[derive(Drop)]
pub enum Turn<E: Env<Node: NodeSet<E>>> {
    /// The next task.
    Goes(Task<E>),
    /// The worker's answer: it has nothing left to do.
    Answers(WorkerAnswer),
}

/// What a worker's step did (`action`), what it leads to, and whether it counts as a step. A claim
/// that has to wait and the steps of a load don't count.
#[derive(Drop)]
pub struct StepResult<E: Env<Node: NodeSet<E>>> {
    pub action: Action<Arc<SerializedData>>,
    pub turn: Turn<E>,
    pub counted: bool,
}

/// Returns the identity of what a reference names.
pub fn referenced_identity(reference: ArcRef) -> Identity
    ensures { result ≡ identity_of reference }
{
    Identity {
        kind: reference.kind,
        node: reference.node,
    }
}
