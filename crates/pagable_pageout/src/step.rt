//! A worker's step, which ends the worker when it answers; its walk, from the first task to the
//! answer; and page-out of an item, and of the entries of the list, each by a worker of its own.

ghost use Rattle.pagable_load.specs.AccessView.{Acts, ActsThen, as_caller, values_at};
ghost use Rattle.pagable_pageout.specs.{
  Joint.ActsBoth,
  PageOuts.{PagesAt, PagesEntryIfThere, PagesItem, PagesLast, PagesList, answer_of, with_some_key},
  Results.IsKeyOverResults,
  Slots.written_of,
  Tasks.{EachIsAwaited, EndsWithItem, IfKeyOf, KeepsItemOrGivesItsKey, LeavesLess, LowersWorkLeft, todo_of, todos},
  Turns.{EndsIfAnswered, PerformsStep, PerformsTask, RunsToAnswer, acting_after, todos_after},
};
ghost use Rattle.pagable_pager_spec.specs.{World.Written, declared.handle_row.Owner.Owner};
ghost use Rattle.std.specs.{Arc.arc_value, Prelude.{IfOk, ◌<◌, ◌∷◌, ◌≡◌}};

use crate::stack::{start_entry, start_item};
use crate::stride::make_next_steps;
use crate::tasks::{StepResult, Task, Turn, WaitingValue, referenced_identity};
use crate::turns::{
    answer_of_failure, claim, claim_answer, finish, load, pin, put_back_on_list, release, set_key,
    task_after_claim, write,
};
use crate::{Claims, LentTable, PageOutError};
use pagable_codec::{Env, NodeSet};
use pagable_core::SerializedData;
use pagable_load::WorkerAccess;
use pagable_pager_spec::{Action, WorkerAnswer};
use pagable_value_spec::{DataKey, Error, OptionalDataKey, WorkerNumber};
use std::alloc::Global;
use std::sync::Arc;

// Performs one task, by at most one step of the access.
#[tactic(auto, using(crate::proofs::FinishTurns::turning))]
fn perform_task<E: Env<Node: NodeSet<E>>, A: WorkerAccess<E>, T: Claims<E>>(
    access: &mut A,
    alloc: Global,
    table: &mut T,
    worker: WorkerNumber,
    path: &mut Vec<WaitingValue<E>>,
    task: Task<E>,
) -> StepResult<E>
    requires { EachIsAwaited (todo_of task ∷ todos path.old.items) }
    ensures goes { LeavesLess (todo_of task ∷ todos path.old.items) result.turn
        (todos_after result.turn path.new.items) }
    ensures ends { KeepsItemOrGivesItsKey (todo_of task ∷ todos path.old.items) result.turn
        (todos_after result.turn path.new.items) }
    ensures acts { ActsBoth A.known_state A.acting T.shelf access.old table.old access.new table.new (λ a. a)
        (λ a s q s' q'. PerformsTask (values_at E.Node.NodeSet E.Env E.Hash.KeyHash a.environment) a.me worker.0 q task
        (todos path.old.items) q' result (todos_after result.turn path.new.items) s s') }
{
    match task {
        Task::Start(reference, place) => {
            let checked = access.check_reference(reference);
            let claim = claim(table, worker, reference, place, checked);
            let (told, counted) = claim_answer(&claim);
            StepResult {
                action: Action::Claim(referenced_identity(reference), told),
                turn: Turn::Goes(task_after_claim(path, reference, place, claim)),
                counted,
            }
        }
        Task::Pin(reference, place) => pin(access, alloc, path, reference, place),
        Task::Load(reference, place, through, reading) => {
            load(access, alloc, path, reference, place, through, reading)
        }
        Task::Write(reference, place, through, pin) => {
            write(access, alloc, table, path, reference, place, through, pin)
        }
        Task::Finish(waiting) => finish(access, alloc, path, waiting),
        Task::SetKey(done, through) => set_key(access, path, done, through),
        Task::Publish(done) => {
            table.publish(&done.found);
            StepResult {
                action: Action::Publish(
                    referenced_identity(done.reference),
                    done.key(),
                    done.found.height,
                ),
                turn: Turn::Goes(Task::Release(done)),
                counted: true,
            }
        }
        Task::Release(done) => release(access, worker, path, done),
        Task::Fail(why, back) => {
            put_back_on_list(access, back);
            table.fail_claims(worker);
            StepResult {
                action: Action::Fail,
                turn: Turn::Answers(answer_of_failure(why)),
                counted: true,
            }
        }
    }
}

// Ends the worker if it has answered.
pub(crate) fn end_if_answered<E: Env<Node: NodeSet<E>>, A: WorkerAccess<E>>(
    access: &mut A,
    worker: WorkerNumber,
    turn: &Turn<E>,
)
    ensures { ActsThen A.known_state A.acting access.old access.new (acting_after turn.now)
        (λ a. EndsIfAnswered (values_at E.Node.NodeSet E.Env E.Hash.KeyHash a.environment) worker.0 turn.now) }
{
    let Turn::Answers(_) = turn else {
        return;
    };
    access.worker_end(worker);
}

/// Performs a worker's next task, on a pager and a table, and returns the step with the next task
/// or the worker's answer. With its answer the worker ends: all its handles are released, and the
/// access is the caller's again.
pub fn step<E: Env<Node: NodeSet<E>>, A: WorkerAccess<E>, T: Claims<E>>(
    access: &mut A,
    alloc: Global,
    table: &mut T,
    worker: WorkerNumber,
    path: &mut Vec<WaitingValue<E>>,
    task: Task<E>,
) -> StepResult<E>
    requires { EachIsAwaited (todo_of task ∷ todos path.old.items) }
    ensures way { EachIsAwaited (todos_after result.turn path.new.items) }
    ensures ends { KeepsItemOrGivesItsKey (todo_of task ∷ todos path.old.items) result.turn
        (todos_after result.turn path.new.items) }
    ensures leads { LowersWorkLeft (todo_of task ∷ todos path.old.items) result.turn
        (todos_after result.turn path.new.items) }
    ensures acts { ActsBoth A.known_state A.acting T.shelf access.old table.old access.new table.new
        (acting_after result.turn)
        (λ a s q s' q'. PerformsStep (values_at E.Node.NodeSet E.Env E.Hash.KeyHash a.environment) a.me worker.0 q task
        (todos path.old.items) q' result (todos_after result.turn path.new.items) s s') }
{
    let moved = perform_task(access, alloc, table, worker, path, task);
    end_if_answered(access, worker, &moved.turn);
    moved
}

/// Makes a worker's steps from the task `first` up to its answer. If a claim answers that the
/// worker has to wait, the worker fails with `TooDeep`, since nobody else makes steps meanwhile (on
/// a table that threads share, the claim itself waits). So the contract says nothing of a table on
/// which other workers have claims without a result. The worker makes at most 2^64 - 1 claims, and
/// fails with `NumbersSpent` at one more.
#[tactic(auto, using(crate::proofs::WorkerRuns::joining))]
pub fn run<E: Env<Node: NodeSet<E>>, A: WorkerAccess<E>, T: Claims<E>>(
    access: &mut A,
    alloc: Global,
    table: &mut T,
    worker: WorkerNumber,
    path: &mut Vec<WaitingValue<E>>,
    first: Task<E>,
) -> WorkerAnswer
    requires { EachIsAwaited (todo_of first ∷ todos path.old.items) }
    ensures over { (w : Written) → EndsWithItem w (todo_of first ∷ todos path.old.items)
        → IfKeyOf result (λ key. ∥ IsKeyOverResults E.Hash.digest
        (values_at E.Node.NodeSet E.Env E.Hash.KeyHash) w key ∥₁) }
    ensures acts { ActsBoth A.known_state A.acting T.shelf access.old table.old access.new table.new as_caller
        (λ a s q s' q'. RunsToAnswer (values_at E.Node.NodeSet E.Env E.Hash.KeyHash a.environment) a.me worker.0 q first
        (todos path.old.items) q' result s s') }
{
    let mut task = first;
    let mut left = u64::MAX;
    loop {
        let turn = make_next_steps(access, alloc, table, worker, path, &mut left, task);
        match turn {
            Turn::Goes(next) => task = next,
            Turn::Answers(answer) => return answer,
        }
    }
}

// ---- page-outs

/// Turns a worker's answer into the result of a page-out.
fn result_of(answer: WorkerAnswer) -> Result<DataKey, PageOutError>
    ensures { answer_of result ≡ answer }
{
    match answer {
        WorkerAnswer::Key(key) => Ok(key),
        WorkerAnswer::Failed(e) => Err(PageOutError::Failed(e)),
        WorkerAnswer::AlreadyFailed => Err(PageOutError::AlreadyFailed),
    }
}

/// Pages an item out on a table, by a worker of its own, and returns the item's key. The access is
/// the caller's before and after.
///
/// # Errors
///
/// - `Failed` with the error of beginning the worker, or of one of its steps.
/// - `AlreadyFailed` if another worker failed at an identity that this one needs.
///
/// What was stored and set so far stays, and the worker leaves no claim without an outcome.
#[tactic(auto, using(crate::proofs::Pages::items))]
pub fn page_out_item_over<E: Env<Node: NodeSet<E>>, A: WorkerAccess<E>, T: Claims<E>>(
    access: &mut A,
    alloc: Global,
    table: &mut T,
    item: Arc<SerializedData>,
) -> Result<DataKey, PageOutError>
    requires caller { (A.acting access.old).me ≡ Owner.Caller }
    ensures over { IfOk result (λ key. ∥ IsKeyOverResults E.Hash.digest (values_at E.Node.NodeSet E.Env E.Hash.KeyHash)
        (written_of (arc_value item)) key ∥₁) }
    ensures acts { ActsBoth A.known_state A.acting T.shelf access.old table.old access.new table.new (λ a. a)
        (λ a s q s' q'. PagesItem (values_at E.Node.NodeSet E.Env E.Hash.KeyHash a.environment) q
        (written_of (arc_value item)) q' (answer_of result) s s') }
{
    let (task, mut path) = match start_item(alloc, item) {
        Ok(first) => first,
        Err(e) => return Err(PageOutError::Failed(e)),
    };
    match access.worker_begin() {
        Ok(worker) => result_of(run(access, alloc, table, worker, &mut path, task)),
        Err(e) => Err(PageOutError::Failed(e)),
    }
}

// Turns the answer for an entry that was in the list into the result of `page_out_entry`.
fn entry_result(answer: Result<DataKey, PageOutError>) -> Result<Option<DataKey>, PageOutError>
    ensures { result ≡ with_some_key answer }
{
    match answer {
        Ok(key) => Ok(Some(key)),
        Err(why) => Err(why),
    }
}

/// Pages out the entry at an index of the page-out list, by a worker of its own, and returns the
/// cell's key. Empties the table before the worker's first step. Returns None if the list has no
/// entry there any more: behind a lock another thread may have taken it.
///
/// # Errors
///
/// - `Failed` with the error of beginning the worker, or of one of its steps: what was stored and
///   set so far stays.
#[tactic(auto, using(crate::proofs::Pages::entries))]
pub fn page_out_entry<E: Env<Node: NodeSet<E>>, A: WorkerAccess<E>>(
    access: &mut A,
    alloc: Global,
    table: &mut LentTable<E>,
    place: usize,
) -> Result<Option<DataKey>, PageOutError>
    requires caller { (A.acting access.old).me ≡ Owner.Caller }
    ensures { Acts A.known_state A.acting access.old access.new
        (λ a. PagesEntryIfThere (values_at E.Node.NodeSet E.Env E.Hash.KeyHash a.environment) place result) }
{
    let (worker, reference) = match access.worker_listed(place) {
        Ok(begun) => begun,
        Err(Error::NoSuchHandle) => return Ok(None),
        Err(e) => return Err(PageOutError::Failed(e)),
    };
    table.forget_claims(alloc);
    let (task, mut path) = start_entry(alloc, reference);
    entry_result(result_of(run(access, alloc, table, worker, &mut path, task)))
}

// Pages out the entry at an index of the list by a worker, or releases it if its cell has a key.
#[tactic(auto, using(crate::proofs::Pages::places))]
fn page_out_or_release<E: Env<Node: NodeSet<E>>, A: WorkerAccess<E>>(
    access: &mut A,
    alloc: Global,
    table: &mut LentTable<E>,
    place: usize,
) -> Result<(), PageOutError>
    requires caller { (A.acting access.old).me ≡ Owner.Caller }
    ensures { Acts A.known_state A.acting access.old access.new
        (λ a. PagesAt (values_at E.Node.NodeSet E.Env E.Hash.KeyHash a.environment) place result) }
{
    match access.release_if_keyed(place) {
        // (`Ok(None)` if another thread has taken the entry meanwhile)
        Some(false) => match page_out_entry(access, alloc, table, place) {
            Ok(_) => Ok(()),
            Err(why) => Err(why),
        },
        _ => Ok(()),
    }
}

// Pages out the last of the entries below `left`, or several from the last of them on, as the access
// does without a worker; if it doesn't, the last one by a worker. Returns how many are left below.
#[tactic(auto, using(crate::proofs::Pages::leaves))]
fn page_out_last<E: Env<Node: NodeSet<E>>, A: WorkerAccess<E>>(
    access: &mut A,
    alloc: Global,
    table: &mut LentTable<E>,
    left: usize,
) -> Result<usize, PageOutError>
    requires caller { (A.acting access.old).me ≡ Owner.Caller }
    requires some { 0 < left }
    ensures pages { Acts A.known_state A.acting access.old access.new
        (λ a. PagesLast (values_at E.Node.NodeSet E.Env E.Hash.KeyHash a.environment) left result) }
    ensures fewer { IfOk result (λ rest. rest < left) }
{
    match access.page_out_leaves(alloc, left) {
        Err(e) => Err(PageOutError::Failed(e)),
        Ok(rest) => {
            if rest < left {
                return Ok(rest);
            }
            match page_out_or_release(access, alloc, table, left - 1) {
                Ok(()) => Ok(left - 1),
                Err(why) => Err(why),
            }
        }
    }
}

/// Pages out the cells that wait for page-out when it is called, from the last entry of the list to
/// the first, each on an empty table of claims. An entry whose cell has a key only leaves the list.
/// Entries that are listed meanwhile stay. The access is the caller's before and after.
///
/// # Errors
///
/// - `Failed` with the error of the first entry that fails: the entries before it stay in the list.
#[tactic(auto, using(crate::proofs::Pages::listed))]
pub fn page_out_pending_over<E: Env<Node: NodeSet<E>>, A: WorkerAccess<E>>(
    access: &mut A,
    alloc: Global,
) -> Result<(), PageOutError>
    requires caller { (A.acting access.old).me ≡ Owner.Caller }
    ensures { Acts A.known_state A.acting access.old access.new
        (λ a. PagesList (values_at E.Node.NodeSet E.Env E.Hash.KeyHash a.environment) result) }
{
    let mut table = LentTable::new(alloc);
    let mut left = access.pending();
    while left > 0 {
        match page_out_last(access, alloc, &mut table, left) {
            Ok(rest) => left = rest,
            Err(why) => return Err(why),
        }
    }
    Ok(())
}
