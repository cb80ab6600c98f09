//! A worker's path, the written nodes that wait for their next reference; and a worker's first
//! task.

ghost use Rattle.pagable_pageout.specs.{
  Slots.{keys_of, written_of},
  Tasks.{AwaitsWithHeight, EachIsAwaited, EntryGetsResult, NeedsNoPager, TakesNext, back_of, fails, fault_of},
  Tasks.{raise_height, todo_of, todos, waiting_todo, waits_as, work_left},
};
ghost use Rattle.pagable_pager_spec.specs.{
  Basics.longest_path,
  Kinds.identity_of,
  Workers.{advance, first_todo, place_below},
  World.{of_entry, of_item, was_refused},
};
ghost use Rattle.std.specs.{
  Arc.arc_value,
  Prelude.{IfErr, IfOk, OnErr, length, vec_capacity, vec_len, [], ◌*◌, ◌++◌, ◌+◌, ◌<◌, ◌∷◌, ◌≡◌, ◌≤◌},
};

use crate::PageOutError;
use crate::tasks::{ClaimedNode, DoneReference, Task, WaitingValue};
use pagable_codec::{Env, NodeSet};
use pagable_core::SerializedData;
use pagable_value_spec::{ArcRef, Error, HandleNumber, Kind};
use std::alloc::Global;
use std::sync::Arc;

/// Returns the place (the depth on the path) of what a node at this place refers to: 0 through a
/// loose reference, at which a new path begins, else `place` + 1.
pub fn place_below(place: u64, kind: Kind) -> u64
    requires { place ≤ longest_path }
    ensures { result ≡ place_below place kind.0 }
{
    if kind.is_loose() { 0 } else { place + 1 }
}

/// Returns the next task at a written node or item. If one of its references isn't done, pushes
/// the node on the path, which has room for it, and returns the task that claims the reference; if
/// all are done, returns the task that finishes the node, and leaves the path as it is.
#[tactic(auto, using(crate::proofs::Stacks::settling))]
#[inline(always)]
pub fn advance<E: Env<Node: NodeSet<E>>>(
    path: &mut Vec<WaitingValue<E>>,
    waiting: WaitingValue<E>,
) -> Task<E>
    requires { vec_len path.old < vec_capacity path.old }
    ensures todo { todo_of result ∷ todos path.new.items ≡ advance (waiting_todo waiting ∷ todos path.old.items) }
    ensures plain { NeedsNoPager result }
    ensures less { work_left (todo_of result ∷ todos path.new.items) ≤ 8 + 6 * length (todos path.old.items) }
{
    let done = waiting.children.len();
    if done >= waiting.written.arcs.len() {
        return Task::Finish(waiting);
    }
    let next = waiting.written.arcs[done];
    let place = place_below(waiting.node.map_or(0, |node| node.place), next.kind);
    path.push_reserved(waiting);
    Task::Start(next, place)
}

// Returns the node with its height raised, if it is lower, to that of the path through a reference
// of this kind to a node of height `below`: `below` + 1, or 0 for a loose kind.
fn raise_height(node: Option<ClaimedNode>, kind: Kind, below: u64) -> Option<ClaimedNode>
    requires { below ≤ longest_path }
    ensures { result ≡ raise_height kind.0 below node }
{
    let node = node?;
    Some(ClaimedNode {
        height: node.height.max(place_below(below, kind)),
        ..node
    })
}

// Returns a waiting node or item with the result of its next reference.
#[tactic(auto, using(crate::proofs::Stacks::giving))]
#[inline(always)]
fn with_result<E: Env<Node: NodeSet<E>>>(
    waiting: WaitingValue<E>,
    done: DoneReference<E>,
) -> WaitingValue<E>
    requires { TakesNext waiting.node (written_of (arc_value waiting.written)) (keys_of waiting.children.items)
        done.reference done.found.height }
    ensures { waiting_todo result ≡ waits_as (raise_height done.reference.kind.0 done.found.height waiting.node)
        (written_of (arc_value waiting.written)) (keys_of waiting.children.items ++ done.found.key ∷ []) }
{
    let node = raise_height(waiting.node, done.reference.kind, done.found.height);
    let mut children = waiting.children;
    children.push_reserved(done.found);
    WaitingValue {
        node,
        written: waiting.written,
        children,
    }
}

/// Pops the last entry of the path, which waits for this result, adds the result to it, and returns
/// the next task as `advance` does. If the path is empty, hands `done` back as the error.
#[tactic(auto, using(crate::proofs::Stacks::giving))]
#[inline(always)]
pub fn give_result<E: Env<Node: NodeSet<E>>>(
    path: &mut Vec<WaitingValue<E>>,
    done: DoneReference<E>,
) -> Result<Task<E>, DoneReference<E>>
    requires { AwaitsWithHeight (todos path.old.items) done.reference done.found.height }
    ensures gives { IfOk result (λ task. EntryGetsResult done.reference done.found.key done.found.height
        (todos path.old.items)
        (todo_of task ∷ todos path.new.items)) }
    ensures plain { IfOk result (λ task. NeedsNoPager task) }
    ensures less { IfOk result (λ task. work_left (todo_of task ∷ todos path.new.items) ≤ 2 + 6 * length
        (todos path.old.items)) }
    ensures back { IfErr result (λ back. back ≡ done) }
    ensures none { OnErr result ((todos path.old.items ≡ []) × (todos path.new.items ≡ [])) }
{
    let Some(waiting) = path.pop() else {
        return Err(done);
    };
    Ok(advance(path, with_result(waiting, done)))
}

/// Clears the path, and returns the task that fails the worker. If the path was empty, that task
/// also puts `entry` back on the list of cells that wait for page-out.
#[tactic(auto, using(crate::proofs::Stacks::paths))]
pub fn fail<E: Env<Node: NodeSet<E>>>(
    path: &mut Vec<WaitingValue<E>>,
    why: PageOutError,
    entry: Option<HandleNumber>,
) -> Task<E>
    ensures todo { todo_of result ∷ todos path.new.items ≡ fails (fault_of why) (back_of entry (todos path.old.items)) }
    ensures plain { NeedsNoPager result }
    ensures less { work_left (todo_of result ∷ todos path.new.items) ≡ 1 }
    ensures none { todos path.new.items ≡ [] }
{
    if path.is_empty() {
        return Task::Fail(why, entry);
    }
    path.clear();
    Task::Fail(why, None)
}

/// Does what `fail` does, with the error of one of the worker's own steps as the reason.
pub fn fail_with<E: Env<Node: NodeSet<E>>>(
    path: &mut Vec<WaitingValue<E>>,
    e: &Error,
    entry: Option<HandleNumber>,
) -> Task<E>
    ensures todo { todo_of result ∷ todos path.new.items
        ≡ fails (was_refused e.now) (back_of entry (todos path.old.items)) }
    ensures plain { NeedsNoPager result }
    ensures less { work_left (todo_of result ∷ todos path.new.items) ≡ 1 }
    ensures none { todos path.new.items ≡ [] }
{
    fail(path, PageOutError::Failed(*e), entry)
}

/// Returns the first task for an item, and the path, where the item waits if it has references.
///
/// # Errors
///
/// - `OutOfMemory` if the path or the results can't get memory.
#[tactic(auto, using(crate::proofs::Stacks::paths))]
pub fn start_item<E: Env<Node: NodeSet<E>>>(
    alloc: Global,
    written: Arc<SerializedData>,
) -> Result<(Task<E>, Vec<WaitingValue<E>>), Error>
    ensures todo { IfOk result (λ w. todo_of w.0 ∷ todos w.1.items
        ≡ first_todo (of_item (written_of (arc_value written)))) }
    ensures way { IfOk result (λ w. EachIsAwaited (todo_of w.0 ∷ todos w.1.items)) }
    ensures plain { IfOk result (λ w. NeedsNoPager w.0) }
    ensures only { IfErr result (λ e. e ≡ Error.OutOfMemory) }
{
    let mut path = Vec::with_capacity(alloc, 1)?;
    let children = Vec::with_capacity(alloc, written.arcs.len())?;
    let item = WaitingValue {
        node: None,
        written,
        children,
    };
    Ok((advance(&mut path, item), path))
}

/// Returns the first task of a worker that pages out the listed cell that `reference` names, and an
/// empty path. It takes no memory.
#[tactic(auto, using(crate::proofs::Stacks::paths), unfolding(crate::specs::Tasks::Awaits))]
pub fn start_entry<E: Env<Node: NodeSet<E>>>(
    alloc: Global,
    reference: ArcRef,
) -> (Task<E>, Vec<WaitingValue<E>>)
    ensures todo { todo_of result.0 ∷ todos result.1.items
        ≡ first_todo (of_entry reference.handle (identity_of reference)) }
    ensures way { EachIsAwaited (todo_of result.0 ∷ todos result.1.items) }
    ensures plain { NeedsNoPager result.0 }
{
    (Task::Start(reference, 0), Vec::new(alloc))
}
