//! What a machine has besides its pager: tables, workers and the progress of loads; and the events
//! that make tables and workers, and step workers.

ghost use Rattle.pagable_calls.specs.{
  Driving.{Drives, HeldFitsPager, IsBegun, IsOnTable, IsTableNumber, SetsOne, WalksOn, is_done, kept_at},
};
ghost use Rattle.pagable_load.specs.AccessView.{values_at};
ghost use Rattle.pagable_pageout.specs.{
  Slots.written_of,
  Table.shelf_of,
  Tasks.{EachIsAwaited, todo_of, todos},
  Turns.{PerformsStep, answer_in, todos_after},
};
ghost use Rattle.pagable_pager.specs.View.{BetweenIfHonest, pager_core};
ghost use Rattle.pagable_pager_spec.specs.{
  Kinds.{identity_of, owner_worker},
  World.{of_entry, of_item},
  declared.events.{Event.Event, EventReply.EventReply},
};
ghost use Rattle.std.specs.{
  HashMap.spare,
  Prelude.{IfErr, IfOk, IsTrue, OnOk, Some, false, is_some, length, true, ℕ, ◌<◌, ◌∷◌, ◌≡◌, ◌⊎◌},
};

use indexmap::IndexMap;
use pagable_codec::{Env, NodeSet};
use pagable_core::{PagableStorage, SerializedData};
use pagable_load::{Reading, WorkerAccess};
use pagable_pageout::stack::{start_entry, start_item};
use pagable_pageout::step::step;
use pagable_pageout::{LentTable, StepResult, Task, Turn, WaitingValue};
use pagable_pager::{Lent, Pager};
use pagable_pager_spec::{TableNumber, WorkerAnswer, WorkerReply};
use pagable_value_spec::{ArcRef, Error, WorkerNumber};
use std::alloc::Global;
use std::mem::replace;
use std::sync::Arc;

/// What a worker pages out.
#[derive(Drop)]
pub enum PageOutTarget {
    /// An item.
    Item(Arc<SerializedData>),
    /// An entry of the page-out list: a loose reference to its cell, by the entry's handle.
    Entry(ArcRef),
}

/// The state of a page-out worker: its table (counted from 1), what it pages out, how many steps it
/// has made, the nodes that wait on its path, and its next task or its answer.
#[derive(Drop)]
pub struct WorkerProgress<E: Env<Node: NodeSet<E>>> {
    pub table: u64,
    pub begun: PageOutTarget,
    pub steps: u64,
    pub path: Vec<WaitingValue<E>>,
    pub turn: Turn<E>,
}

/// What a machine has besides its pager: the progress of loads by their numbers; the workers'
/// tables of claims, in the order in which they were made; and the workers by their numbers.
#[derive(Drop)]
pub struct LoadsAndWorkers<E: Env<Node: NodeSet<E>>> {
    pub readings: IndexMap<u64, Reading>,
    pub tables: Vec<LentTable<E>>,
    pub walks: IndexMap<u64, WorkerProgress<E>>,
}

/// Puts a value under a number into a map that has room for it.
pub fn put<V: Drop>(kept: &mut IndexMap<u64, V>, number: u64, value: V)
    requires { 0 < spare kept.old }
    ensures { SetsOne (kept_at kept.old) number (Some value) (kept_at kept.new) }
{
    let Ok(_) = kept.insert(number, value) else {
        unreachable!();
    };
}

/// Makes a new table of claims for workers, under the next number.
///
/// # Errors
///
/// - `OutOfMemory` if it can't get memory: nothing changes.
pub fn make_table<E: Env<Node: NodeSet<E>>, S: PagableStorage<E>>(
    pager: &Pager<E, S>,
    held: &mut LoadsAndWorkers<E>,
    alloc: Global,
) -> Result<TableNumber, Error>
    requires { HeldFitsPager S.PagableStorage pager.now held.old }
    ensures { Drives (values_at E.Node.NodeSet E.Env E.Hash.KeyHash pager.now.environment) S.PagableStorage pager.now
        held.old Event.TableNew (EventReply.TableMade result) pager.now held.new }
{
    pager.assert_invariant();
    held.tables.reserve(1)?;
    held.tables.push_reserved(LentTable::new(alloc));
    Ok(TableNumber(held.tables.len() as u64))
}

// Makes room for one more worker, after a test that its table exists. Fails with NoSuchHandle if
// there is no such table, and with OutOfMemory.
fn make_room_for_worker<E: Env<Node: NodeSet<E>>>(
    walks: &mut IndexMap<u64, WorkerProgress<E>>,
    tables: &Vec<LentTable<E>>,
    table: TableNumber,
) -> Result<(), Error>
    ensures same { (q : ℕ) → kept_at walks.new q ≡ kept_at walks.old q }
    ensures table_exists { OnOk result (IsTableNumber table.0 tables.now.items) }
    ensures room { OnOk result (0 < spare walks.new) }
    ensures refused { IfErr result (λ e. ((e ≡ Error.NoSuchHandle)
        × ((table.0 ≡ 0) ⊎ (length tables.now.items < table.0)))
        ⊎ ((e ≡ Error.OutOfMemory) × IsTableNumber table.0 tables.now.items)) }
{
    if !(0 < table.0 && table.0 <= tables.len() as u64) {
        return Err(Error::NoSuchHandle);
    }
    walks.reserve(1)?;
    Ok(())
}

// Makes a worker for an item, with its first task. Fails with OutOfMemory alone.
fn new_item_worker<E: Env<Node: NodeSet<E>>>(
    alloc: Global,
    table: TableNumber,
    item: SerializedData,
) -> Result<WorkerProgress<E>, Error>
    ensures begun { IfOk result (λ k. IsBegun table (of_item (written_of item)) k) }
    ensures only { IfErr result (λ e. e ≡ Error.OutOfMemory) }
{
    let item = Arc::new(alloc, item)?;
    let shared = Arc::try_clone(&item)?;
    let (task, path) = start_item(alloc, shared)?;
    Ok(WorkerProgress {
        table: table.0,
        begun: PageOutTarget::Item(item),
        steps: 0,
        path,
        turn: Turn::Goes(task),
    })
}

fn new_entry_worker<E: Env<Node: NodeSet<E>>>(
    alloc: Global,
    table: TableNumber,
    reference: ArcRef,
) -> WorkerProgress<E>
    ensures { IsBegun table (of_entry reference.handle (identity_of reference)) result }
{
    let (task, path) = start_entry(alloc, reference);
    WorkerProgress {
        table: table.0,
        begun: PageOutTarget::Entry(reference),
        steps: 0,
        path,
        turn: Turn::Goes(task),
    }
}

/// Begins a worker on a table, for an item.
///
/// # Errors
///
/// - `NoSuchHandle` if there is no such table.
/// - `NumbersSpent` if no worker number is left.
/// - `OutOfMemory`. After each error nothing has changed.
pub fn begin_item_worker<E: Env<Node: NodeSet<E>>, S: PagableStorage<E>>(
    pager: &mut Pager<E, S>,
    held: &mut LoadsAndWorkers<E>,
    alloc: Global,
    table: TableNumber,
    item: SerializedData,
) -> Result<WorkerNumber, Error>
    requires { HeldFitsPager S.PagableStorage pager.old held.old }
    ensures { Drives (values_at E.Node.NodeSet E.Env E.Hash.KeyHash pager.old.environment) S.PagableStorage pager.old
        held.old (Event.WorkerItem table item) (EventReply.WorkerMade result) pager.new held.new }
{
    pager.assert_invariant();
    make_room_for_worker(&mut held.walks, &held.tables, table)?;
    let walk = new_item_worker(alloc, table, item)?;
    let mut lent = Lent::new(pager);
    let worker = lent.worker_begin()?;
    put(&mut held.walks, worker.0, walk);
    Ok(worker)
}

/// Begins a worker on a table, for the entry at this index, from 0 on, of the list of cells that
/// wait for page-out.
///
/// # Errors
///
/// - `NoSuchHandle` if there is no such table or no such entry.
/// - `WrongKind` if the cell's type is too great a number for its kinds.
/// - `NumbersSpent` if no worker number is left.
/// - `OutOfMemory`. After each error nothing has changed.
pub fn begin_entry_worker<E: Env<Node: NodeSet<E>>, S: PagableStorage<E>>(
    pager: &mut Pager<E, S>,
    held: &mut LoadsAndWorkers<E>,
    alloc: Global,
    table: TableNumber,
    place: u64,
) -> Result<WorkerNumber, Error>
    requires { HeldFitsPager S.PagableStorage pager.old held.old }
    ensures { Drives (values_at E.Node.NodeSet E.Env E.Hash.KeyHash pager.old.environment) S.PagableStorage pager.old
        held.old (Event.WorkerListed table place) (EventReply.WorkerMade result) pager.new held.new }
{
    pager.assert_invariant();
    if place >= pager.pending() as u64 {
        return Err(Error::NoSuchHandle);
    }
    make_room_for_worker(&mut held.walks, &held.tables, table)?;
    let mut lent = Lent::new(pager);
    let (worker, reference) = lent.worker_listed(place as usize)?;
    let walk = new_entry_worker(alloc, table, reference);
    put(&mut held.walks, worker.0, walk);
    Ok(worker)
}

// Makes one step over a lent pager. (The borrow checker accepts `lent` where a function asks for a
// `Lent`, and not where it asks for any access.)
fn step_lent<'a, E: Env<Node: NodeSet<E>>, S: PagableStorage<E>>(
    lent: &mut Lent<'a, E, S>,
    alloc: Global,
    table: &mut LentTable<E>,
    worker: WorkerNumber,
    path: &mut Vec<WaitingValue<E>>,
    task: Task<E>,
) -> StepResult<E>
    requires me { lent.old.me ≡ owner_worker worker.0 }
    requires way { EachIsAwaited (todo_of task ∷ todos path.old.items) }
    ensures way { EachIsAwaited (todos_after result.turn path.new.items) }
    ensures step { BetweenIfHonest E.Node.NodeSet E.Env E.Hash.KeyHash S.PagableStorage lent.old.pager.now
        lent.new.pager.now (λ v s s'. PerformsStep v (owner_worker worker.0) worker.0 (shelf_of table.old) task
        (todos path.old.items) (shelf_of table.new) result (todos_after result.turn path.new.items) s s') }
    ensures honest { IsTrue (S.is_honest lent.new.pager.now.storage) → IsTrue (S.is_honest lent.old.pager.now.storage) }
    ensures lender { lent.new.pager.ghost_name ≡ lent.old.pager.ghost_name }
{
    step(lent, alloc, table, worker, path, task)
}

fn answer_of_turn<E: Env<Node: NodeSet<E>>>(turn: &Turn<E>) -> Option<WorkerAnswer>
    ensures { result ≡ answer_in turn.now }
{
    match turn {
        Turn::Goes(_) => None,
        Turn::Answers(answer) => Some(*answer),
    }
}

fn step_running_worker<E: Env<Node: NodeSet<E>>, S: PagableStorage<E>>(
    pager: &mut Pager<E, S>,
    alloc: Global,
    tables: &mut Vec<LentTable<E>>,
    worker: WorkerNumber,
    walk: &mut WorkerProgress<E>,
) -> WorkerReply<Arc<SerializedData>>
    requires unanswered { is_some (answer_in walk.old.turn) ≡ false }
    requires at_work { (pager_core S.PagableStorage pager.old).workers worker.0 ≡ true }
    requires on_table { IsOnTable (length tables.old.items) walk.old }
    ensures walks { BetweenIfHonest E.Node.NodeSet E.Env E.Hash.KeyHash S.PagableStorage pager.old pager.new
        (λ v s s'. WalksOn v worker.0 tables.old.items walk.old s result tables.new.items walk.new s') }
    ensures honest { IsTrue (S.is_honest pager.new.storage) → IsTrue (S.is_honest pager.old.storage) }
    ensures count { length tables.new.items ≡ length tables.old.items }
    ensures on_table { IsOnTable (length tables.new.items) walk.new }
{
    // The step's result replaces this value, whatever it is.
    let meanwhile = Turn::Answers(WorkerAnswer::AlreadyFailed);
    let Turn::Goes(task) = replace(&mut walk.turn, meanwhile) else {
        unreachable!();
    };
    let table = &mut tables[(walk.table - 1) as usize];
    let mut lent = Lent::for_worker(pager, worker);
    let moved = step_lent(&mut lent, alloc, table, worker, &mut walk.path, task);
    walk.steps = walk.steps.saturating_add(u64::from(moved.counted));
    walk.turn = moved.turn;
    WorkerReply {
        action: moved.action,
        answer: answer_of_turn(&walk.turn),
        steps: walk.steps,
    }
}

fn is_done<E: Env<Node: NodeSet<E>>>(walks: &IndexMap<u64, WorkerProgress<E>>, worker: u64) -> bool
    ensures { result ≡ is_done (kept_at walks.now worker) }
{
    match walks.get(&worker) {
        Some(walk) => answer_of_turn(&walk.turn).is_some(),
        None => true,
    }
}

/// Makes a worker's next step.
///
/// # Errors
///
/// - `NoSuchHandle` if there is no such worker or it has answered: nothing changes.
pub fn step_worker<E: Env<Node: NodeSet<E>>, S: PagableStorage<E>>(
    pager: &mut Pager<E, S>,
    held: &mut LoadsAndWorkers<E>,
    alloc: Global,
    worker: WorkerNumber,
) -> Result<WorkerReply<Arc<SerializedData>>, Error>
    requires { HeldFitsPager S.PagableStorage pager.old held.old }
    ensures { Drives (values_at E.Node.NodeSet E.Env E.Hash.KeyHash pager.old.environment) S.PagableStorage pager.old
        held.old (Event.WorkerStep worker) (EventReply.WorkerMoved result) pager.new held.new }
{
    pager.assert_invariant();
    if is_done(&held.walks, worker.0) {
        return Err(Error::NoSuchHandle);
    }
    // As long as the storage is honest, a worker that hasn't answered is running.
    if !pager.has_worker(worker) {
        return Err(Error::NoSuchHandle);
    }
    let Some(walk) = held.walks.get_mut(&worker.0) else {
        unreachable!();
    };
    Ok(step_running_worker(pager, alloc, &mut held.tables, worker, walk))
}
