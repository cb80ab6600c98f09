//! Strides of a walk: a worker's steps from one claim to the next, or those at a node whose
//! references are done, made together, so that no task is kept between them.

ghost use Rattle.pagable_load.specs.{AccessView.{Acts, IfKnown, values_at}, PinStart.Shares, WorkerCalls.fault_in};
ghost use Rattle.pagable_pageout.specs.{
  Joint.ActsBoth,
  Strides.{HandsOnResult, Strides, WalksTo},
  Tasks.{AwaitsWithHeight, EachIsAwaited, IfGoes, KeepsItemOrGivesItsKey, LeavesLess, NeedsNoPager, back_of},
  Tasks.claim_weight,
  Tasks.{fails, todo_of, todos, waiting_todo, work_left},
  Turns.{HasWalked, acting_after, todos_after},
};
ghost use Rattle.pagable_pager_spec.specs.{
  Access.IfBothKnown,
  Workers.{claim_fault, with_changed_slot, with_outcome, with_wait},
  World.{SameShelf, Shelf, published, to_pin, to_publish, to_start, to_write, was_refused},
};
ghost use Rattle.std.specs.{Arc.arc_value, Prelude.{None, Some, ℕ, ◌*◌, ◌+◌, ◌<◌, ◌∷◌, ◌≡◌}};

use crate::stack::{advance, fail_with, give_result};
use crate::step::{end_if_answered, step};
use crate::tasks::{
    ClaimedNode, DoneReference, StepResult, Task, Turn, WaitingValue, referenced_identity,
};
use crate::turns::{claim, store, store_node, task_after_claim, turn_after_store, write_claimed};
use crate::{ClaimResult, Claims};
use pagable_codec::{Env, NodeSet};
use pagable_load::{Reading, TakenValue, WorkerAccess};
use pagable_pager_spec::WorkerAnswer;
use pagable_value_spec::{ArcRef, Error, HandleNumber, WorkerNumber};
use std::alloc::Global;
use std::sync::Arc;

// Makes no claim, and returns the task that fails the worker with this error. From then on the
// worker waits for no identity.
fn fail_unclaimed<E: Env<Node: NodeSet<E>>, T: Claims<E>>(
    table: &mut T,
    worker: WorkerNumber,
    path: &mut Vec<WaitingValue<E>>,
    reference: ArcRef,
    e: Error,
) -> Task<E>
    ensures todo { todo_of result ∷ todos path.new.items
        ≡ fails (was_refused e) (back_of (Some reference.handle) (todos path.old.items)) }
    ensures plain { NeedsNoPager result }
    ensures less { work_left (todo_of result ∷ todos path.new.items) ≡ 1 }
    ensures table { IfBothKnown (T.shelf table.old) (T.shelf table.new)
        (λ q q'. SameShelf (with_wait q worker.0 None) q') }
{
    table.forget_wait(worker);
    fail_with(path, &e, Some(reference.handle))
}

// Writes the shared value of a claimed node. Returns the task of its first reference, with the node
// on the path, or of finishing it if it has none; after an error, the task that fails the worker.
fn write_and_advance<E: Env<Node: NodeSet<E>>, A: WorkerAccess<E>, T: Claims<E>>(
    access: &A,
    alloc: Global,
    table: &mut T,
    path: &mut Vec<WaitingValue<E>>,
    reference: ArcRef,
    place: u64,
    through: HandleNumber,
    shared: Result<Option<Arc<E::Node>>, Error>,
) -> Task<E>
    requires { EachIsAwaited (to_write reference place through ∷ todos path.old.items) }
    ensures ends { KeepsItemOrGivesItsKey (to_write reference place through ∷ todos path.old.items) (Turn.Goes result)
        (todo_of result ∷ todos path.new.items) }
    ensures goes { LeavesLess (to_write reference place through ∷ todos path.old.items) (Turn.Goes result)
        (todo_of result ∷ todos path.new.items) }
    ensures step { (worker : ℕ) (pin : HandleNumber) → IfKnown (A.known_state access.now)
        (λ s. Shares arc_value s pin shared)
        → ActsBoth A.known_state A.acting T.shelf access.now table.old access.now table.new (λ a. a)
        (λ a s q s' q'. HasWalked (values_at E.Node.NodeSet E.Env E.Hash.KeyHash a.environment) a.me worker q
        (Task.Write reference place through pin) (todos path.old.items) q' result (todos path.new.items) s s') }
{
    match write_claimed(access, alloc, path, reference, place, through, shared) {
        Ok((waiting, references, told)) => {
            let _written = told;
            table.note_written(referenced_identity(reference), references);
            advance(path, waiting)
        }
        Err(e) => fail_with(path, &e, None),
    }
}

// Pins the node that was claimed and writes its value, if this is in memory; otherwise begins a
// load of it. Returns the next task.
#[tactic(auto, using(std::proofs::lemmas::Bool::Decides::nat_tests))]
fn pin_and_write<E: Env<Node: NodeSet<E>>, A: WorkerAccess<E>, T: Claims<E>>(
    access: &mut A,
    alloc: Global,
    table: &mut T,
    path: &mut Vec<WaitingValue<E>>,
    reference: ArcRef,
    place: u64,
) -> Task<E>
    requires { EachIsAwaited (to_pin reference place ∷ todos path.old.items) }
    ensures ends { KeepsItemOrGivesItsKey (to_pin reference place ∷ todos path.old.items) (Turn.Goes result)
        (todo_of result ∷ todos path.new.items) }
    ensures goes { LeavesLess (to_pin reference place ∷ todos path.old.items) (Turn.Goes result)
        (todo_of result ∷ todos path.new.items) }
    ensures acts { (worker : ℕ) → ActsBoth A.known_state A.acting T.shelf access.old table.old access.new table.new
        (λ a. a) (λ a s q s' q'. HasWalked (values_at E.Node.NodeSet E.Env E.Hash.KeyHash a.environment) a.me worker q
        (Task.Pin reference place) (todos path.old.items) q' result (todos path.new.items) s s') }
{
    match access.pin_or_load_value(reference) {
        Ok(taken) => match taken {
            TakenValue::Held(through, _pin, shared) => {
                write_and_advance(
                    access, alloc, table, path, reference, place, through, shared,
                )
            }
            TakenValue::Begun(through, load, key) => {
                let reading = Reading::new(alloc, load, key, reference.kind.node_type(), true);
                Task::Load(reference, place, through, reading)
            }
        },
        Err(e) => fail_with(path, &e, Some(reference.handle)),
    }
}

// Checks a reference before it is claimed: as a value's own if the last entry of the path is a node,
// whose value the worker pins.
fn check_claim<E: Env<Node: NodeSet<E>>, A: WorkerAccess<E>>(
    access: &A,
    path: &[WaitingValue<E>],
    reference: ArcRef,
) -> Result<(), Error>
    ensures { IfKnown (A.known_state access.now) (λ s. fault_in result ≡ claim_fault s.core reference) }
{
    match path.last() {
        Some(waiting) if waiting.node.is_some() => access.check_own_reference(reference),
        _ => access.check_reference(reference),
    }
}

// Claims what a reference names and, if it was free, pins and writes it as `pin_and_write` does.
// Fails the worker with TooDeep if the claim would have to wait: no other worker makes steps
// meanwhile.
#[tactic(auto, using(std::proofs::lemmas::Bool::Decides::nat_tests))]
fn claim_and_write<E: Env<Node: NodeSet<E>>, A: WorkerAccess<E>, T: Claims<E>>(
    access: &mut A,
    alloc: Global,
    table: &mut T,
    worker: WorkerNumber,
    path: &mut Vec<WaitingValue<E>>,
    reference: ArcRef,
    place: u64,
) -> Task<E>
    requires { EachIsAwaited (to_start reference place ∷ todos path.old.items) }
    ensures ends { KeepsItemOrGivesItsKey (to_start reference place ∷ todos path.old.items) (Turn.Goes result)
        (todo_of result ∷ todos path.new.items) }
    ensures goes { LeavesLess (to_start reference place ∷ todos path.old.items) (Turn.Goes result)
        (todo_of result ∷ todos path.new.items) }
    ensures acts { ActsBoth A.known_state A.acting T.shelf access.old table.old access.new table.new (λ a. a)
        (λ a s q s' q'. HasWalked (values_at E.Node.NodeSet E.Env E.Hash.KeyHash a.environment) a.me worker.0 q
        (Task.Start reference place) (todos path.old.items) q' result (todos path.new.items) s s') }
{
    let checked = check_claim(access, path, reference);
    let found = claim(table, worker, reference, place, checked);
    match found {
        Ok(ClaimResult::Claimed) => pin_and_write(access, alloc, table, path, reference, place),
        Ok(ClaimResult::Waiting) => fail_unclaimed(table, worker, path, reference, Error::TooDeep),
        other => task_after_claim(path, reference, place, other),
    }
}

// Does what `claim_and_write` does, and returns the next task as a `Turn`.
fn claim_as_turn<E: Env<Node: NodeSet<E>>, A: WorkerAccess<E>, T: Claims<E>>(
    access: &mut A,
    alloc: Global,
    table: &mut T,
    worker: WorkerNumber,
    path: &mut Vec<WaitingValue<E>>,
    reference: ArcRef,
    place: u64,
) -> Turn<E>
    requires { EachIsAwaited (to_start reference place ∷ todos path.old.items) }
    ensures ends { KeepsItemOrGivesItsKey (to_start reference place ∷ todos path.old.items) result
        (todos_after result path.new.items) }
    ensures goes { LeavesLess (to_start reference place ∷ todos path.old.items) result
        (todos_after result path.new.items) }
    ensures acts { ActsBoth A.known_state A.acting T.shelf access.old table.old access.new table.new
        (acting_after result)
        (λ a s q s' q'. Strides (values_at E.Node.NodeSet E.Env E.Hash.KeyHash a.environment) a.me worker.0 q
        (Task.Start reference place) (todos path.old.items) q' result (todos path.new.items) s s') }
{
    Turn::Goes(claim_and_write(access, alloc, table, worker, path, reference, place))
}

// Publishes the result of a node whose key is set and whose handles are released, and gives it to
// the last entry of the path; if the path is empty, answers the node's key.
#[tactic(auto, using(std::proofs::lemmas::Bool::Decides::nat_tests, crate::proofs::Stacks::ways))]
fn publish<E: Env<Node: NodeSet<E>>, T: Claims<E>>(
    table: &mut T,
    path: &mut Vec<WaitingValue<E>>,
    done: DoneReference<E>,
) -> Turn<E>
    requires { AwaitsWithHeight (todos path.old.items) done.reference done.found.height }
    ensures ends { KeepsItemOrGivesItsKey (to_publish done.reference done.found.key done.found.height
        ∷ todos path.old.items) result
        (todos_after result path.new.items) }
    ensures goes { LeavesLess (to_publish done.reference done.found.key done.found.height ∷ todos path.old.items) result
        (todos_after result path.new.items) }
    ensures hands { HandsOnResult done (todos path.old.items) result (todos_after result path.new.items) }
    ensures table { IfBothKnown (T.shelf table.old) (T.shelf table.new)
        (λ q q'. SameShelf (with_changed_slot q done.found.identity
        (with_outcome (published done.found.key done.found.height))) q') }
{
    table.publish(&done.found);
    match give_result(path, done) {
        Ok(task) => Turn::Goes(task),
        Err(done) => Turn::Answers(WorkerAnswer::Key(done.key())),
    }
}

// Stores the blob of a node whose references are all done, sets its key, releases the worker's
// handles of it, and publishes its result.
#[tactic(auto, using(std::proofs::lemmas::Bool::Decides::nat_tests))]
fn store_and_publish_node<E: Env<Node: NodeSet<E>>, A: WorkerAccess<E>, T: Claims<E>>(
    access: &mut A,
    alloc: Global,
    table: &mut T,
    worker: WorkerNumber,
    path: &mut Vec<WaitingValue<E>>,
    waiting: WaitingValue<E>,
    node: ClaimedNode,
) -> Turn<E>
    requires way { EachIsAwaited (waiting_todo waiting ∷ todos path.old.items) }
    requires node { waiting.node ≡ Some node }
    ensures ends { KeepsItemOrGivesItsKey (waiting_todo waiting ∷ todos path.old.items) result
        (todos_after result path.new.items) }
    ensures goes { LeavesLess (waiting_todo waiting ∷ todos path.old.items) result (todos_after result path.new.items) }
    ensures acts { ActsBoth A.known_state A.acting T.shelf access.old table.old access.new table.new (λ a. a)
        (λ a s q s' q'. WalksTo (values_at E.Node.NodeSet E.Env E.Hash.KeyHash a.environment) a.me worker.0 q
        (Task.Finish waiting) (todos path.old.items) q' result (todos_after result path.new.items) s s') }
{
    match store_node(access, alloc, worker, waiting, node) {
        Ok(done) => publish(table, path, done),
        Err(e) => Turn::Goes(fail_with(path, &e, None)),
    }
}

// Stores the blob of an item whose references are all done, and answers its key.
#[tactic(auto, using(crate::proofs::FinishTurns::finishing))]
fn store_and_answer_item<E: Env<Node: NodeSet<E>>, A: WorkerAccess<E>>(
    access: &mut A,
    alloc: Global,
    path: &mut Vec<WaitingValue<E>>,
    waiting: WaitingValue<E>,
) -> Turn<E>
    requires { EachIsAwaited (waiting_todo waiting ∷ todos path.old.items) }
    ensures ends { KeepsItemOrGivesItsKey (waiting_todo waiting ∷ todos path.old.items) result
        (todos_after result path.new.items) }
    ensures goes { LeavesLess (waiting_todo waiting ∷ todos path.old.items) result (todos_after result path.new.items) }
    ensures acts { (worker : ℕ) (shelf : Shelf) → Acts A.known_state A.acting access.old access.new
        (λ a s t. WalksTo (values_at E.Node.NodeSet E.Env E.Hash.KeyHash a.environment) a.me worker shelf
        (Task.Finish waiting) (todos path.old.items) shelf result (todos_after result path.new.items) s t) }
{
    match store(access, alloc, &waiting) {
        Ok(key) => turn_after_store(waiting, key),
        Err(e) => Turn::Goes(fail_with(path, &e, None)),
    }
}

// Finishes a written node or item whose references are all done.
fn finish_waiting<E: Env<Node: NodeSet<E>>, A: WorkerAccess<E>, T: Claims<E>>(
    access: &mut A,
    alloc: Global,
    table: &mut T,
    worker: WorkerNumber,
    path: &mut Vec<WaitingValue<E>>,
    waiting: WaitingValue<E>,
) -> Turn<E>
    requires { EachIsAwaited (waiting_todo waiting ∷ todos path.old.items) }
    ensures ends { KeepsItemOrGivesItsKey (waiting_todo waiting ∷ todos path.old.items) result
        (todos_after result path.new.items) }
    ensures goes { LeavesLess (waiting_todo waiting ∷ todos path.old.items) result (todos_after result path.new.items) }
    ensures acts { ActsBoth A.known_state A.acting T.shelf access.old table.old access.new table.new (λ a. a)
        (λ a s q s' q'. WalksTo (values_at E.Node.NodeSet E.Env E.Hash.KeyHash a.environment) a.me worker.0 q
        (Task.Finish waiting) (todos path.old.items) q' result (todos_after result path.new.items) s s') }
{
    match waiting.node {
        Some(node) => store_and_publish_node(access, alloc, table, worker, path, waiting, node),
        None => store_and_answer_item(access, alloc, path, waiting),
    }
}

/// Makes a worker's next steps, on a pager and a table, and returns the next task or the worker's
/// answer; with its answer the worker ends, as in `step`. At the task of a claim, makes
/// the steps up to the next claim or the next blob to store, as far as the value is in memory and
/// nothing fails; at a node whose references are done, the steps up to the next claim, blob or
/// answer; at any other task one step. `left` is the number of claims that the worker may still
/// make: at 0 a claim fails with NumbersSpent.
#[tactic(auto, using(crate::proofs::Stacks::dues))]
pub fn make_next_steps<E: Env<Node: NodeSet<E>>, A: WorkerAccess<E>, T: Claims<E>>(
    access: &mut A,
    alloc: Global,
    table: &mut T,
    worker: WorkerNumber,
    path: &mut Vec<WaitingValue<E>>,
    left: &mut u64,
    task: Task<E>,
) -> Turn<E>
    requires { EachIsAwaited (todo_of task ∷ todos path.old.items) }
    ensures way { EachIsAwaited (todos_after result path.new.items) }
    ensures ends { KeepsItemOrGivesItsKey (todo_of task ∷ todos path.old.items) result
        (todos_after result path.new.items) }
    ensures falls { IfGoes result (left.new * claim_weight + work_left (todos_after result path.new.items) < left.old *
        claim_weight + work_left
        (todo_of task ∷ todos path.old.items)) }
    ensures acts { ActsBoth A.known_state A.acting T.shelf access.old table.old access.new table.new
        (acting_after result)
        (λ a s q s' q'. Strides (values_at E.Node.NodeSet E.Env E.Hash.KeyHash a.environment) a.me worker.0 q task
        (todos path.old.items) q' result (todos path.new.items) s s') }
{
    match task {
        Task::Start(reference, place) => {
            if *left == 0 {
                return Turn::Goes(fail_unclaimed(
                    table,
                    worker,
                    path,
                    reference,
                    Error::NumbersSpent,
                ));
            }
            // (by this call the proof knows that the length fits a u64)
            let _entries = path.len();
            *left -= 1;
            claim_as_turn(access, alloc, table, worker, path, reference, place)
        }
        Task::Finish(waiting) => {
            let last = finish_waiting(access, alloc, table, worker, path, waiting);
            end_if_answered(access, worker, &last);
            last
        }
        other => {
            let StepResult {
                turn,
                action: _,
                counted: _,
            } = step(access, alloc, table, worker, path, other);
            turn
        }
    }
}
