//! The tasks of a worker one by one. At a reference, the worker claims the node, pins it (by a load
//! if it has to) and writes its value; at a written node whose references are done, it stores the
//! blob, sets the key, publishes the result and releases the handles.

ghost use Rattle.pagable_core.specs.Data.{blob_of};
ghost use Rattle.pagable_load.specs.{
  AccessView.{Acts, values_at},
  Frames.reading_of,
  PinStart.Shares,
  WorkerCalls.fault_in,
};
ghost use Rattle.pagable_pageout.specs.{
  Joint.ActsBoth,
  Results.{HasFormOf, IsKeyOverResults, ResultStands},
  Slots.{keys_of, written_of},
  Strides.{StoresAndReleasesNode, loose_handle_of},
  Table.claim_result,
  Tasks.{Awaits, AwaitsWithHeight, EachIsAwaited, IfKey, KeepsItemOrGivesItsKey, LeavesLess, fault_of},
  Tasks.{most_work_left, todo_of},
  Tasks.{todos, waiting_todo, work_left},
  Turns.{ClaimFits, FollowsStore, GoesBackOnList, IsForm, IsTaskAfterClaim, PerformsTask, SetsKeyThrough, Stores},
  Turns.{WriteRefused, WritesForm, claim_todo, identity_of_node, just_open, todos_after, worker_state},
};
ghost use Rattle.pagable_pager_spec.specs.{
  Access.IfBothKnown,
  Basics.longest_path,
  Kinds.identity_of,
  Pager.PagerState,
  Workers.{ClaimStep, claim_fault, is_counted_claim},
  World.{Core, Shelf, Todo, answer_of_fault, result_map, to_finish, to_load, to_pin, to_release, to_set, to_start},
  World.to_write,
};
ghost use Rattle.pagable_value_spec.specs.{Blob.key_of, Merkle.blob_of as blob_over};
ghost use Rattle.std.specs.{
  Arc.arc_value,
  Prelude.{IfErr, IfOk, List, OnOk, Some, length, vec_capacity, vec_len, ℕ, ◌*◌, ◌+◌, ◌<◌, ◌∷◌, ◌≡◌, ◌≤◌},
};

use crate::stack::{advance, fail, fail_with, give_result};
use crate::tasks::{
    ClaimedNode, DoneReference, StepResult, Task, Turn, WaitingValue, referenced_identity,
};
use crate::{ClaimResult, Claims, PageOutError, SlotResult};
use pagable_codec::{Env, NodeSet};
use pagable_core::{PagableData, SerializedData, SerializerForPaging, SessionOf};
use pagable_load::{LoadOutcome, PinnedOrLoading, Reading, WorkerAccess, WorkerNode};
use pagable_pager_spec::{Action, Claim, PinStep, WorkerAnswer};
use pagable_value_spec::{ArcRef, DataKey, Error, HandleNumber, Identity, WorkerNumber};
use std::alloc::Global;
use std::marker::PhantomData;
use std::sync::Arc;

/// Claims what a reference names, at this place on the path, if `checked`, the result of checking
/// the reference, is no error.
///
/// # Errors
///
/// - The error of `checked`, if it is one.
/// - `TooDeep`, `OutOfMemory` as in `Claims::claim_for`.
///
/// After each error the slots are unchanged, and the worker waits for nothing.
#[tactic(auto, using(crate::proofs::WorkerTurns::claiming))]
pub fn claim<E: Env<Node: NodeSet<E>>, T: Claims<E>>(
    table: &mut T,
    worker: WorkerNumber,
    reference: ArcRef,
    place: u64,
    checked: Result<(), Error>,
) -> Result<ClaimResult<E>, Error>
    ensures step { IfBothKnown (T.shelf table.old) (T.shelf table.new)
        (λ s s'. (core : Core) (below : List Todo) → fault_in checked ≡ claim_fault core reference
        → ClaimStep worker.0 (worker_state core s (to_start reference place ∷ below)) reference place below
        (claim_result result)
        (worker_state core s' (claim_todo reference place below (claim_result result)))) }
    ensures fits { ClaimFits reference place result }
{
    match checked {
        Ok(()) => table.claim_for(worker, referenced_identity(reference), place),
        Err(e) => {
            table.forget_wait(worker);
            Err(e)
        }
    }
}

/// Returns what a claim found, with the key and height of a result that was known, and whether the
/// claim counts as a step: it doesn't if the worker has to wait.
pub fn claim_answer<E: Env<Node: NodeSet<E>>>(
    claim: &Result<ClaimResult<E>, Error>,
) -> (Result<Claim, Error>, bool)
    ensures found { result.0 ≡ claim_result claim.now }
    ensures counts { result.1 ≡ is_counted_claim (claim_result claim.now) }
{
    match claim {
        Ok(ClaimResult::Claimed) => (Ok(Claim::Claimed), true),
        Ok(ClaimResult::Known(found)) => (Ok(Claim::Known(found.key, found.height)), true),
        Ok(ClaimResult::Waiting) => (Ok(Claim::Waiting), false),
        Ok(ClaimResult::AlreadyFailed) => (Ok(Claim::AlreadyFailed), true),
        Err(e) => (Err(*e), true),
    }
}

/// Returns the task that follows a claim with this result: to pin what was claimed, to claim once
/// more if the worker has to wait, or to fail the worker. If the result is known already, gives it
/// to the last entry of the path, and returns that entry's next task; if the path is empty, returns
/// the task that releases the worker's handles.
#[tactic(auto, using(crate::proofs::Stacks::ways))]
#[inline(always)]
pub fn task_after_claim<E: Env<Node: NodeSet<E>>>(
    path: &mut Vec<WaitingValue<E>>,
    reference: ArcRef,
    place: u64,
    claim: Result<ClaimResult<E>, Error>,
) -> Task<E>
    requires way { Awaits (todos path.old.items) reference place }
    requires fits { ClaimFits reference place claim }
    ensures todo { todo_of result ∷ todos path.new.items
        ≡ claim_todo reference place (todos path.old.items) (claim_result claim) }
    ensures way { EachIsAwaited (todo_of result ∷ todos path.new.items) }
    ensures less { work_left (todo_of result ∷ todos path.new.items) ≤ most_work_left + 6 * length
        (todos path.old.items) }
    ensures leaves { IsTaskAfterClaim reference place claim result }
{
    match claim {
        Ok(ClaimResult::Claimed) => Task::Pin(reference, place),
        // If the path is empty, the handle of the listed cell is released.
        Ok(ClaimResult::Known(found)) => match give_result(
            path,
            DoneReference { reference, found },
        ) {
            Ok(task) => task,
            Err(done) => Task::Release(done),
        },
        Ok(ClaimResult::Waiting) => Task::Start(reference, place),
        Ok(ClaimResult::AlreadyFailed) => fail(
            path,
            PageOutError::AlreadyFailed,
            Some(reference.handle),
        ),
        Err(e) => fail_with(path, &e, Some(reference.handle)),
    }
}

/// Pins the node that was claimed; if its value isn't in memory, begins a load of it.
#[tactic(auto, using(std::proofs::lemmas::Bool::Decides::nat_tests))]
pub fn pin<E: Env<Node: NodeSet<E>>, A: WorkerAccess<E>>(
    access: &mut A,
    alloc: Global,
    path: &mut Vec<WaitingValue<E>>,
    reference: ArcRef,
    place: u64,
) -> StepResult<E>
    requires { EachIsAwaited (to_pin reference place ∷ todos path.old.items) }
    ensures ends { KeepsItemOrGivesItsKey (to_pin reference place ∷ todos path.old.items) result.turn
        (todos_after result.turn path.new.items) }
    ensures goes { LeavesLess (to_pin reference place ∷ todos path.old.items) result.turn
        (todos_after result.turn path.new.items) }
    ensures acts { (n : ℕ) (shelf : Shelf) → Acts A.known_state A.acting access.old access.new
        (λ a. PerformsTask (values_at E.Node.NodeSet E.Env E.Hash.KeyHash a.environment) a.me n shelf
        (Task.Pin reference place) (todos path.old.items) shelf result (todos_after result.turn path.new.items)) }
{
    let identity = referenced_identity(reference);
    match access.pin_or_load_reference(reference) {
        Ok(taken) => match taken {
            PinnedOrLoading::Held(through, pin) => StepResult {
                action: Action::Pin(identity, Ok(PinStep::Pinned(pin))),
                turn: Turn::Goes(Task::Write(reference, place, through, pin)),
                counted: true,
            },
            PinnedOrLoading::Begun(through, load, key) => {
                let reading = Reading::new(alloc, load, key, reference.kind.node_type(), true);
                StepResult {
                    action: Action::Pin(identity, Ok(PinStep::LoadBegun(load))),
                    turn: Turn::Goes(Task::Load(reference, place, through, reading)),
                    counted: true,
                }
            }
        },
        Err(e) => StepResult {
            turn: Turn::Goes(fail_with(path, &e, Some(reference.handle))),
            action: Action::Pin(identity, Err(e)),
            counted: true,
        },
    }
}

/// Makes the next step of the load of the claimed node's value.
#[tactic(auto, using(crate::proofs::WorkerTurns::pinning))]
pub fn load<E: Env<Node: NodeSet<E>>, A: WorkerAccess<E>>(
    access: &mut A,
    alloc: Global,
    path: &mut Vec<WaitingValue<E>>,
    reference: ArcRef,
    place: u64,
    through: HandleNumber,
    mut reading: Reading,
) -> StepResult<E>
    requires { EachIsAwaited (to_load reference place through (reading_of reading) ∷ todos path.old.items) }
    ensures ends { KeepsItemOrGivesItsKey (to_load reference place through (reading_of reading)
        ∷ todos path.old.items) result.turn
        (todos_after result.turn path.new.items) }
    ensures goes { LeavesLess (to_load reference place through (reading_of reading) ∷ todos path.old.items) result.turn
        (todos_after result.turn path.new.items) }
    ensures acts { (n : ℕ) (shelf : Shelf) → Acts A.known_state A.acting access.old access.new
        (λ a. PerformsTask (values_at E.Node.NodeSet E.Env E.Hash.KeyHash a.environment) a.me n shelf
        (Task.Load reference place through reading) (todos path.old.items) shelf result
        (todos_after result.turn path.new.items)) }
{
    let identity = referenced_identity(reference);
    match reading.step(access, alloc) {
        None => StepResult {
            action: Action::Pin(identity, Ok(PinStep::LoadStepMade)),
            turn: Turn::Goes(Task::Load(reference, place, through, reading)),
            counted: false,
        },
        Some(LoadOutcome::Pinned(pin, _)) => StepResult {
            action: Action::Pin(identity, Ok(PinStep::Pinned(pin))),
            turn: Turn::Goes(Task::Write(reference, place, through, pin)),
            counted: false,
        },
        Some(LoadOutcome::Refused(e)) => StepResult {
            turn: Turn::Goes(fail_with(path, &e, Some(reference.handle))),
            action: Action::Pin(identity, Err(e)),
            counted: false,
        },
        Some(LoadOutcome::Read(_value)) => StepResult {
            action: Action::Pin(identity, Err(Error::WrongMode)),
            turn: Turn::Goes(fail_with(path, &Error::WrongMode, Some(reference.handle))),
            counted: false,
        },
    }
}

// Writes a value. Fails as the value's `write` does.
fn write_value<E: Env<Node: NodeSet<E>>>(
    env: &E,
    session: &SessionOf<E>,
    alloc: Global,
    node: &E::Node,
) -> Result<SerializedData, Error>
    ensures form { IfOk result (λ d. IsForm (values_at E.Node.NodeSet E.Env E.Hash.KeyHash env.now) node.now
        (written_of d)) }
    ensures refused { IfErr result (λ e. WriteRefused (values_at E.Node.NodeSet E.Env E.Hash.KeyHash env.now) node.now
        e) }
{
    let mut serializer = SerializerForPaging::new(alloc, env, session);
    node.write(&mut serializer)?;
    let (bytes, arcs) = serializer.finish();
    Ok(SerializedData { bytes, arcs })
}

// Writes the shared value of a claimed node. Fails with WrongKind if its type isn't that of the
// reference's kind, with WrongMode if there is no value, with the error of sharing it, and as
// `write_value` does.
fn write_shared<E: Env<Node: NodeSet<E>>>(
    env: &E,
    session: &SessionOf<E>,
    alloc: Global,
    reference: ArcRef,
    shared: Result<Option<Arc<E::Node>>, Error>,
) -> Result<SerializedData, Error>
    ensures form { IfOk result (λ d. ∥ HasFormOf (values_at E.Node.NodeSet E.Env E.Hash.KeyHash) (identity_of reference)
        (written_of d) ∥₁) }
    ensures forms { (s : PagerState E.Node E) (pin : HandleNumber) → Shares arc_value s pin shared
        → WritesForm (values_at E.Node.NodeSet E.Env E.Hash.KeyHash env.now) s reference pin
        (result_map written_of result) }
{
    match shared {
        Ok(Some(node)) => {
            if node.node_type() != reference.kind.node_type() {
                return Err(Error::WrongKind);
            }
            write_value(env, session, alloc, node.as_ref())
        }
        Ok(None) => Err(Error::WrongMode),
        Err(e) => Err(e),
    }
}

// Reserves room on the path for a claimed node, and writes its shared value. Returns the node, with
// room for the results of its references; a copy of these references; and one more `Arc` of what
// was written. Fails as `write_shared` does, or with OutOfMemory.
#[tactic(auto, using(crate::proofs::WorkerTurns::forming))]
pub(crate) fn write_claimed<E: Env<Node: NodeSet<E>>, A: WorkerAccess<E>>(
    access: &A,
    alloc: Global,
    path: &mut Vec<WaitingValue<E>>,
    reference: ArcRef,
    place: u64,
    through: HandleNumber,
    shared: Result<Option<Arc<E::Node>>, Error>,
) -> Result<(WaitingValue<E>, Vec<ArcRef>, Arc<SerializedData>), Error>
    requires near { place ≤ longest_path }
    ensures path { path.new.items ≡ path.old.items }
    ensures room { OnOk result (vec_len path.new < vec_capacity path.new) }
    ensures open { IfOk result (λ p. waiting_todo p.0 ≡ to_finish
        (just_open reference place through (written_of (arc_value p.2)))) }
    ensures listed { IfOk result (λ p. p.1.items ≡ (written_of (arc_value p.2)).references) }
    ensures forms { (s : PagerState E.Node E) (pin : HandleNumber) → Shares arc_value s pin shared
        → WritesForm (values_at E.Node.NodeSet E.Env E.Hash.KeyHash (A.acting access.now).environment) s reference pin
        (result_map (λ p. written_of (arc_value p.2)) result) }
{
    path.reserve(1)?;
    let once = write_shared(
        access.env(),
        access.session_context(),
        alloc,
        reference,
        shared,
    )?;
    let children = Vec::with_capacity(alloc, once.arcs.len())?;
    let references = Vec::from_slice(alloc, once.arcs.as_slice())?;
    let written = Arc::new(alloc, once)?;
    let told = Arc::try_clone(&written)?;
    let node = Some(ClaimedNode {
        reference,
        place,
        through,
        height: 0,
    });
    let waiting = WaitingValue {
        node,
        written,
        children,
    };
    Ok((waiting, references, told))
}

/// Writes the value that is pinned and notes its references in the table. The next task is that of
/// its first reference, or of finishing the node if it has none.
pub fn write<E: Env<Node: NodeSet<E>>, A: WorkerAccess<E>, T: Claims<E>>(
    access: &A,
    alloc: Global,
    table: &mut T,
    path: &mut Vec<WaitingValue<E>>,
    reference: ArcRef,
    place: u64,
    through: HandleNumber,
    pin: HandleNumber,
) -> StepResult<E>
    requires { EachIsAwaited (to_write reference place through ∷ todos path.old.items) }
    ensures ends { KeepsItemOrGivesItsKey (to_write reference place through ∷ todos path.old.items) result.turn
        (todos_after result.turn path.new.items) }
    ensures goes { LeavesLess (to_write reference place through ∷ todos path.old.items) result.turn
        (todos_after result.turn path.new.items) }
    ensures step { (n : ℕ) → ActsBoth A.known_state A.acting T.shelf access.now table.old access.now table.new (λ a. a)
        (λ a s q s' q'. PerformsTask (values_at E.Node.NodeSet E.Env E.Hash.KeyHash a.environment) a.me n q
        (Task.Write reference place through pin) (todos path.old.items) q' result
        (todos_after result.turn path.new.items) s
        s') }
{
    let identity = referenced_identity(reference);
    let shared = access.share(pin);
    match write_claimed(access, alloc, path, reference, place, through, shared) {
        Ok((waiting, references, told)) => {
            table.note_written(identity, references);
            StepResult {
                action: Action::Write(identity, Ok(told)),
                turn: Turn::Goes(advance(path, waiting)),
                counted: true,
            }
        }
        Err(e) => StepResult {
            turn: Turn::Goes(fail_with(path, &e, None)),
            action: Action::Write(identity, Err(e)),
            counted: true,
        },
    }
}

// ---- at a written node or item

// Makes the blob of what was written, with the keys of its references' results. Takes the bytes over
// if nobody shares them, and else copies them. Fails with OutOfMemory alone.
fn take_blob<E: Env<Node: NodeSet<E>>>(
    alloc: Global,
    written: Arc<SerializedData>,
    children: &Vec<SlotResult<E>>,
) -> Result<PagableData, Error>
    ensures blob { IfOk result (λ blob. blob_of blob ≡ blob_over (written_of (arc_value written)).bytes
        (keys_of children.now.items)) }
    ensures only { IfErr result (λ e. e ≡ Error.OutOfMemory) }
{
    let arcs = children.iter().map(|found| found.key).collect(alloc)?;
    let bytes = match Arc::try_unwrap(written) {
        Ok(data) => {
            let SerializedData { bytes, arcs: _arcs } = data;
            bytes
        }
        Err(shared) => Vec::from_slice(alloc, shared.bytes.as_slice())?,
    };
    Ok(PagableData { bytes, arcs })
}

// Makes the blob of what was written, with the keys of its references' results, and copies the
// bytes. Fails with OutOfMemory alone.
fn blob<E: Env<Node: NodeSet<E>>>(
    alloc: Global,
    waiting: &WaitingValue<E>,
) -> Result<PagableData, Error>
    ensures blob { IfOk result (λ blob. blob_of blob ≡ blob_over (written_of (arc_value waiting.now.written)).bytes
        (keys_of waiting.now.children.items)) }
    ensures only { IfErr result (λ e. e ≡ Error.OutOfMemory) }
{
    let written = Arc::try_clone(&waiting.written)?;
    take_blob(alloc, written, &waiting.children)
}

// Stores the blob of what was written, with the keys of its references' results, and returns its
// key.
pub(crate) fn store<E: Env<Node: NodeSet<E>>, A: WorkerAccess<E>>(
    access: &mut A,
    alloc: Global,
    waiting: &WaitingValue<E>,
) -> Result<DataKey, Error>
    ensures key { IfOk result (λ key. key ≡ key_of E.Hash.digest
        (blob_over (written_of (arc_value waiting.now.written)).bytes (keys_of waiting.now.children.items))) }
    ensures acts { Acts A.known_state A.acting access.old access.new
        (λ a s t. Stores (values_at E.Node.NodeSet E.Env E.Hash.KeyHash a.environment) s
        (blob_over (written_of (arc_value waiting.now.written)).bytes (keys_of waiting.now.children.items)) result t) }
{
    let blob = blob(alloc, waiting)?;
    access.store(alloc, blob)
}

fn identity_of_node(node: &Option<ClaimedNode>) -> Option<Identity>
    ensures { result ≡ identity_of_node node.now }
{
    let node = (*node)?;
    Some(referenced_identity(node.reference))
}

// Returns the handle through which a written node's cell gets its key, if its reference is a loose
// one.
#[tactic(auto, using(std::proofs::lemmas::Bool::Decides::nat_tests))]
fn loose_handle_of(node: ClaimedNode) -> Option<HandleNumber>
    ensures { result ≡ loose_handle_of node }
{
    if node.reference.kind.is_loose() {
        return Some(node.through);
    }
    None
}

// Returns a written node's reference with its result, given the key of the node's blob.
fn make_done<E: Env<Node: NodeSet<E>>>(node: ClaimedNode, key: DataKey) -> DoneReference<E>
    requires low { node.height ≤ longest_path }
    requires stands { ∥ ResultStands E.Hash.digest (values_at E.Node.NodeSet E.Env E.Hash.KeyHash)
        (identity_of node.reference) key ∥₁ }
    ensures reference { result.reference ≡ node.reference }
    ensures key { result.found.key ≡ key }
    ensures height { result.found.height ≡ node.height }
{
    let reference = node.reference;
    let found = SlotResult {
        identity: referenced_identity(reference),
        key,
        height: node.height,
        of: PhantomData,
    };
    DoneReference { reference, found }
}

// Stores the blob of a written node, with the keys of its references' results, sets its key and
// releases the worker's handles of it. Returns the node's reference with its result.
pub(crate) fn store_node<E: Env<Node: NodeSet<E>>, A: WorkerAccess<E>>(
    access: &mut A,
    alloc: Global,
    worker: WorkerNumber,
    waiting: WaitingValue<E>,
    node: ClaimedNode,
) -> Result<DoneReference<E>, Error>
    requires node { waiting.node ≡ Some node }
    requires all { length (keys_of waiting.children.items)
        ≡ length (written_of (arc_value waiting.written)).references }
    ensures reference { IfOk result (λ done. done.reference ≡ node.reference) }
    ensures height { IfOk result (λ done. done.found.height ≡ node.height) }
    ensures key { IfOk result (λ done. done.found.key ≡ key_of E.Hash.digest
        (blob_over (written_of (arc_value waiting.written)).bytes (keys_of waiting.children.items))) }
    ensures acts { Acts A.known_state A.acting access.old access.new
        (λ a s t. StoresAndReleasesNode (values_at E.Node.NodeSet E.Env E.Hash.KeyHash a.environment)
        a.me worker.0 node s
        (blob_over (written_of (arc_value waiting.written)).bytes (keys_of waiting.children.items))
        (result_map (λ done. done.found.key) result) t) }
{
    let WaitingValue {
        written,
        children,
        ..
    } = waiting;
    let blob = take_blob(alloc, written, &children)?;
    let at = WorkerNode {
        worker,
        node: node.reference.node,
        loose: loose_handle_of(node),
    };
    match access.store_node(alloc, blob, at) {
        Ok(key) => Ok(make_done(node, key)),
        Err(e) => Err(e),
    }
}

// Returns what follows when a blob is stored: setting the node's key; or, for an item, the answer.
pub(crate) fn turn_after_store<E: Env<Node: NodeSet<E>>>(
    waiting: WaitingValue<E>,
    key: DataKey,
) -> Turn<E>
    requires all { length (keys_of waiting.children.items)
        ≡ length (written_of (arc_value waiting.written)).references }
    requires key { key ≡ key_of E.Hash.digest (blob_over (written_of (arc_value waiting.written)).bytes
        (keys_of waiting.children.items)) }
    ensures follows { FollowsStore waiting.node key result }
    ensures over { IfKey result (λ key. ∥ IsKeyOverResults E.Hash.digest (values_at E.Node.NodeSet E.Env E.Hash.KeyHash)
        (written_of (arc_value waiting.written)) key ∥₁) }
{
    let Some(node) = waiting.node else {
        return Turn::Answers(WorkerAnswer::Key(key));
    };
    Turn::Goes(Task::SetKey(make_done(node, key), node.through))
}

/// Stores the blob of a node or an item whose references are all done.
#[tactic(auto, using(crate::proofs::FinishTurns::finishing))]
pub fn finish<E: Env<Node: NodeSet<E>>, A: WorkerAccess<E>>(
    access: &mut A,
    alloc: Global,
    path: &mut Vec<WaitingValue<E>>,
    waiting: WaitingValue<E>,
) -> StepResult<E>
    requires { EachIsAwaited (waiting_todo waiting ∷ todos path.old.items) }
    ensures ends { KeepsItemOrGivesItsKey (waiting_todo waiting ∷ todos path.old.items) result.turn
        (todos_after result.turn path.new.items) }
    ensures goes { LeavesLess (waiting_todo waiting ∷ todos path.old.items) result.turn
        (todos_after result.turn path.new.items) }
    ensures acts { (n : ℕ) (shelf : Shelf) → Acts A.known_state A.acting access.old access.new
        (λ a. PerformsTask (values_at E.Node.NodeSet E.Env E.Hash.KeyHash a.environment) a.me n shelf
        (Task.Finish waiting)
        (todos path.old.items) shelf result (todos_after result.turn path.new.items)) }
{
    let identity = identity_of_node(&waiting.node);
    match store(access, alloc, &waiting) {
        Ok(key) => StepResult {
            action: Action::Store(identity, Ok(key)),
            turn: turn_after_store(waiting, key),
            counted: true,
        },
        Err(e) => StepResult {
            turn: Turn::Goes(fail_with(path, &e, None)),
            action: Action::Store(identity, Err(e)),
            counted: true,
        },
    }
}

// Sets the key of what a loose reference names, through the worker's handle. Does nothing for a
// reference of another kind, even if its handle has become loose meanwhile.
#[tactic(auto, using(crate::proofs::FinishTurns::keys))]
pub(crate) fn set_key_of<E: Env<Node: NodeSet<E>>, A: WorkerAccess<E>>(
    access: &mut A,
    reference: ArcRef,
    through: HandleNumber,
    key: DataKey,
) -> Result<(), Error>
    ensures { Acts A.known_state A.acting access.old access.new
        (λ a. SetsKeyThrough (values_at E.Node.NodeSet E.Env E.Hash.KeyHash a.environment) a.me reference
        through key result) }
{
    if !reference.kind.is_loose() {
        return Ok(());
    }
    access.set_data_key(through, key)
}

/// Sets the key of a node whose blob was stored.
#[tactic(auto, using(std::proofs::lemmas::Bool::Decides::nat_tests))]
pub fn set_key<E: Env<Node: NodeSet<E>>, A: WorkerAccess<E>>(
    access: &mut A,
    path: &mut Vec<WaitingValue<E>>,
    done: DoneReference<E>,
    through: HandleNumber,
) -> StepResult<E>
    requires { AwaitsWithHeight (todos path.old.items) done.reference done.found.height }
    ensures ends { KeepsItemOrGivesItsKey (to_set done.reference through done.found.key done.found.height
        ∷ todos path.old.items)
        result.turn (todos_after result.turn path.new.items) }
    ensures goes { LeavesLess (to_set done.reference through done.found.key done.found.height ∷ todos path.old.items)
        result.turn (todos_after result.turn path.new.items) }
    ensures acts { (n : ℕ) (shelf : Shelf) → Acts A.known_state A.acting access.old access.new
        (λ a. PerformsTask (values_at E.Node.NodeSet E.Env E.Hash.KeyHash a.environment) a.me n shelf
        (Task.SetKey done through) (todos path.old.items) shelf result (todos_after result.turn path.new.items)) }
{
    let identity = referenced_identity(done.reference);
    match set_key_of(access, done.reference, through, done.key()) {
        Ok(()) => StepResult {
            action: Action::SetKey(identity, Ok(())),
            turn: Turn::Goes(Task::Publish(done)),
            counted: true,
        },
        Err(e) => StepResult {
            turn: Turn::Goes(fail_with(path, &e, None)),
            action: Action::SetKey(identity, Err(e)),
            counted: true,
        },
    }
}

/// Releases the worker's handles of a node that is done, and gives its result to the last entry of
/// the path; if the path is empty, answers the node's key.
#[tactic(auto, using(std::proofs::lemmas::Bool::Decides::nat_tests, crate::proofs::Stacks::ways))]
pub fn release<E: Env<Node: NodeSet<E>>, A: WorkerAccess<E>>(
    access: &mut A,
    worker: WorkerNumber,
    path: &mut Vec<WaitingValue<E>>,
    done: DoneReference<E>,
) -> StepResult<E>
    requires { AwaitsWithHeight (todos path.old.items) done.reference done.found.height }
    ensures ends { KeepsItemOrGivesItsKey (to_release done.reference done.found.key done.found.height
        ∷ todos path.old.items) result.turn
        (todos_after result.turn path.new.items) }
    ensures goes { LeavesLess (to_release done.reference done.found.key done.found.height ∷ todos path.old.items)
        result.turn (todos_after result.turn path.new.items) }
    ensures acts { (shelf : Shelf) → Acts A.known_state A.acting access.old access.new
        (λ a. PerformsTask (values_at E.Node.NodeSet E.Env E.Hash.KeyHash a.environment) a.me worker.0 shelf
        (Task.Release done) (todos path.old.items) shelf result (todos_after result.turn path.new.items)) }
{
    let identity = referenced_identity(done.reference);
    access.release_worker_node(worker, identity.node);
    match give_result(path, done) {
        Ok(task) => StepResult {
            action: Action::Release(identity),
            turn: Turn::Goes(task),
            counted: true,
        },
        Err(done) => StepResult {
            action: Action::Release(identity),
            turn: Turn::Answers(WorkerAnswer::Key(done.key())),
            counted: true,
        },
    }
}

/// Puts the entry `back`, if there is one, at the end of the list of cells that wait for page-out.
/// Ignores an error of the list.
#[tactic(auto, using(crate::proofs::FinishTurns::backs))]
pub fn put_back_on_list<E: Env<Node: NodeSet<E>>, A: WorkerAccess<E>>(
    access: &mut A,
    back: Option<HandleNumber>,
)
    ensures { Acts A.known_state A.acting access.old access.new
        (λ a s t. GoesBackOnList (values_at E.Node.NodeSet E.Env E.Hash.KeyHash a.environment) a.me back s t) }
{
    let Some(entry) = back else {
        return;
    };
    let _told = access.schedule_for_paging(entry);
}

/// Returns the answer of a worker that failed for this reason.
pub fn answer_of_failure(why: PageOutError) -> WorkerAnswer
    ensures { result ≡ answer_of_fault (fault_of why) }
{
    match why {
        PageOutError::Failed(e) => WorkerAnswer::Failed(e),
        PageOutError::AlreadyFailed => WorkerAnswer::AlreadyFailed,
    }
}
