//! Runs one event of a machine: a call of the pager, or a step of a load or of a worker. Each event
//! does what the definitions say of it, as long as the storage is honest afterwards, and the
//! machine's loads and workers then agree with its pager.

ghost use Rattle.pagable_calls.specs.{
  Driving.{Drives, Forgets, HeldFitsPager, IsPrepared, Serves, SetsOne, StepsLoad, kept_at, plain_found, rest_after},
};
ghost use Rattle.pagable_core.specs.Data.{blob_of};
ghost use Rattle.pagable_load.specs.{AccessView.values_at, Outcomes.answer_of};
ghost use Rattle.pagable_pager.specs.View.{BetweenIfHonest, from_cache_or_store, pager_core};
ghost use Rattle.pagable_pager_spec.specs.{Events.given_of, World.result_map, declared.handle_row.Owner.Owner};
ghost use Rattle.std.specs.{Arc.arc_value, Option.option_map, Prelude.{IfErr, IsTrue, None, OnOk, false, is_none, true, ◌*◌, ◌≡◌}};

use crate::workers::{
    LoadsAndWorkers, begin_entry_worker, begin_item_worker, make_table, put, step_worker,
};
use either::Either;
use indexmap::IndexMap;
use pagable_codec::{Env, NodeSet};
use pagable_core::{PagableData, PagableStorage, SerializedData};
use pagable_load::{LoadOutcome, Reading};
use pagable_pager::{Lent, Pager};
use pagable_pager_spec::{Beginning, Call, Event, EventReply, Found, LoadAnswer, LoadReply, Reply};
use pagable_value_spec::{DataKey, Error, HandleNumber, LoadNumber};
use std::alloc::Global;
use std::sync::Arc;

// Turns the result of `Pager::load_fetch` into the result in a reply: a cached node's handle, or
// the fetched blob.
fn found(
    given: Result<Either<HandleNumber, Arc<PagableData>>, Error>,
) -> Result<Found<Arc<PagableData>>, Error>
    // The result in the reply stands for the same handle, blob or error as the one that is given.
    ensures { result_map (given_of blob_of) (result_map plain_found result)
        ≡ result_map (from_cache_or_store (λ d. blob_of (arc_value d))) given }
{
    match given {
        Ok(Either::Left(known)) => Ok(Found::Cached(known)),
        Ok(Either::Right(blob)) => Ok(Found::Blob(blob)),
        Err(e) => Err(e),
    }
}

fn make_call<E: Env<Node: NodeSet<E>>, S: PagableStorage<E>>(
    pager: &mut Pager<E, S>,
    alloc: Global,
    call: Call<E::Node, PagableData>,
) -> Reply<E::Node, Arc<PagableData>>
    ensures serves { IsTrue (S.is_honest pager.new.storage) → Serves
        (values_at E.Node.NodeSet E.Env E.Hash.KeyHash pager.old.environment) S.PagableStorage pager.old call result
        pager.new }
    ensures honest { IsTrue (S.is_honest pager.new.storage) → IsTrue (S.is_honest pager.old.storage) }
{
    match call {
        Call::NewPinned(node) => Reply::Made(pager.new_pinned(alloc, node)),
        Call::NewLoose(node) => Reply::Made(pager.new_loose(alloc, node)),
        Call::NewShared(node) => Reply::Made(pager.new_shared(alloc, node)),
        Call::NewPagedOut(node_type, key) => {
            Reply::Handle(pager.new_paged_out(alloc, node_type, key))
        }
        Call::Clone(handle) => Reply::Handle(pager.clone(handle)),
        Call::Pin(handle) => Reply::Pin(pager.pin(handle)),
        Call::Unpin(handle) => Reply::Done(pager.unpin(handle)),
        Call::Release(handle) => Reply::Done(pager.release(handle)),
        Call::IntoPagable(handle) => Reply::Handle(pager.into_pagable(handle)),
        Call::SetDataKey(handle, key) => Reply::Done(pager.set_data_key(handle, key)),
        Call::Count(handle) => Reply::Count(pager.count(handle)),
        Call::Key(handle) => Reply::KeyFound(pager.key(handle)),
        Call::IsPagedOut(handle) => Reply::PagedOut(pager.is_paged_out(handle)),
        Call::NodeOf(handle) => Reply::Node(pager.node_of(handle)),
        Call::NodeLive(node) => Reply::NodeType(pager.node_live(node)),
        Call::ScheduleForPaging(handle) => Reply::Done(pager.schedule_for_paging(handle)),
        Call::Pending => Reply::Length(pager.pending() as u64),
        Call::TakePending(place) => Reply::TakenPending(pager.take_pending(place as usize)),
        Call::CacheGet(kind, key) => Reply::FromCache(pager.cache_get(kind, key)),
        Call::OnArcDeserialized(kind, key, handle) => {
            Reply::FromCache(pager.on_arc_deserialized(kind, key, handle))
        }
        Call::CacheClear => Reply::Done(pager.cache_clear()),
        Call::Fetch(key) => Reply::Fetched(pager.fetch(alloc, key)),
        Call::Store(blob) => Reply::Stored(pager.store(alloc, blob)),
        Call::Flush => Reply::Done(pager.flush()),
        Call::LoadBegin(handle) => Reply::Begun(pager.load_begin(handle)),
        Call::LoadKey(key) => Reply::Begun(pager.load_key(key)),
        Call::LoadFetch(load, want) => Reply::LoadFound(found(pager.load_fetch(alloc, load, want))),
        Call::LoadAdopt(load, kind, key, node) => {
            Reply::Made(pager.load_adopt(alloc, load, kind, key, node))
        }
        Call::LoadLazy(load, kind, key) => Reply::Handle(pager.load_lazy(alloc, load, kind, key)),
        Call::LoadEnd(load, node) => Reply::LoadEnded(pager.load_end(alloc, load, node)),
        Call::LoadTake(load, named) => Reply::Done(pager.load_take(load, &named)),
        Call::LoadDrop(load) => Reply::Done(pager.load_drop(load)),
        Call::Reserve(more) => Reply::Done(pager.reserve(more as usize)),
        Call::Room => Reply::Length(pager.room() as u64),
        Call::Close => Reply::Done(pager.close()),
    }
}

// Drops the progress of a load if its step has ended the load.
fn forget_if_ended<N: Drop>(
    readings: &mut IndexMap<u64, Reading>,
    load: u64,
    ended: &Option<LoadAnswer<N>>,
)
    ensures { SetsOne (kept_at readings.old) load (rest_after ended.now (kept_at readings.old load))
        (kept_at readings.new) }
{
    if ended.is_some() {
        readings.swap_remove(&load);
    }
}

// Adds the initial progress of an open load of a cell, unless the load has progress already. Does
// nothing for a load of a key. Fails with OutOfMemory if it can't get memory.
#[tactic(auto, using(crate::proofs::Driven::unprepared))]
fn keep_reading(
    readings: &mut IndexMap<u64, Reading>,
    alloc: Global,
    load: LoadNumber,
    key: DataKey,
    cell_type: Option<u32>,
) -> Result<(), Error>
    ensures kept { IsPrepared (kept_at readings.old) load key cell_type (kept_at readings.new) }
    ensures placed { OnOk result (kept_at readings.new load.0 ≡ None → is_none cell_type ≡ true) }
    ensures refused { IfErr result (λ e. (e ≡ Error.OutOfMemory) × (kept_at readings.new load.0 ≡ None)
        × (is_none cell_type ≡ false)) }
{
    if readings.get(&load.0).is_some() {
        return Ok(());
    }
    let Some(node_type) = cell_type else {
        return Ok(());
    };
    readings.reserve(1)?;
    put(
        readings,
        load.0,
        Reading::new(alloc, load, key, node_type, true),
    );
    Ok(())
}

// Returns how a load has ended, as an event's reply tells it: a pin without its value.
fn answer_to<N: Drop>(outcome: Option<LoadOutcome<N>>) -> Option<LoadAnswer<N>>
    ensures { result ≡ option_map answer_of outcome }
{
    match outcome {
        Some(LoadOutcome::Pinned(pinned, _read)) => Some(LoadAnswer::Pinned(pinned)),
        Some(LoadOutcome::Read(value)) => Some(LoadAnswer::Read(value)),
        Some(LoadOutcome::Refused(e)) => Some(LoadAnswer::Refused(e)),
        None => None,
    }
}

// Makes one step of a load over a lent pager. (The borrow checker accepts `lent` where a function
// asks for a `Lent`, and not where it asks for any access.)
fn step_lent<'a, E: Env<Node: NodeSet<E>>, S: PagableStorage<E>>(
    lent: &mut Lent<'a, E, S>,
    alloc: Global,
    own: &mut Reading,
) -> LoadReply<E::Node>
    requires { lent.old.me ≡ Owner.Caller }
    ensures step { BetweenIfHonest E.Node.NodeSet E.Env E.Hash.KeyHash S.PagableStorage lent.old.pager.now
        lent.new.pager.now (λ v s s'. StepsLoad v Owner.Caller own.old result own.new s s') }
    ensures honest { IsTrue (S.is_honest lent.new.pager.now.storage) → IsTrue (S.is_honest lent.old.pager.now.storage) }
    ensures lender { lent.new.pager.ghost_name ≡ lent.old.pager.ghost_name }
{
    let ended = answer_to(own.step(lent, alloc));
    let steps = own.steps;
    LoadReply { ended, steps }
}

// Makes a load's next step. Fails with NoSuchHandle if the load isn't open, with NotYours if the
// caller didn't begin it, and with WrongMode if a call (`Call::LoadKey`) began it as a load of a
// key: then nothing changes, and no step is counted.
fn load_step<E: Env<Node: NodeSet<E>>, S: PagableStorage<E>>(
    pager: &mut Pager<E, S>,
    held: &mut LoadsAndWorkers<E>,
    alloc: Global,
    load: LoadNumber,
) -> Result<LoadReply<E::Node>, Error>
    requires { HeldFitsPager S.PagableStorage pager.old held.old }
    ensures { Drives (values_at E.Node.NodeSet E.Env E.Hash.KeyHash pager.old.environment) S.PagableStorage pager.old
        held.old (Event.LoadStep load) (EventReply.LoadMoved result) pager.new held.new }
{
    pager.assert_invariant();
    let (key, cell_type) = pager.load_key_and_type(load)?;
    if let Err(e) = keep_reading(&mut held.readings, alloc, load, key, cell_type) {
        // There is no place for the load's progress, so the load is dropped: this is its only step.
        let _told = pager.load_drop(load);
        pager.assert_invariant();
        return Ok(LoadReply {
            ended: Some(LoadAnswer::Refused(e)),
            steps: 1,
        });
    }
    let Some(own) = held.readings.get_mut(&load.0) else {
        // The call that began the load didn't say as what type to read its key.
        return Err(Error::WrongMode);
    };
    let mut lent = Lent::new(pager);
    let reply = step_lent(&mut lent, alloc, own);
    forget_if_ended(&mut held.readings, load.0, &reply.ended);
    Ok(reply)
}

// Returns the load of a call that closes a load if it succeeds (LoadEnd, LoadTake, LoadDrop), and
// None for any other call.
fn load_closed_by<N: Drop>(call: &Call<N, PagableData>) -> Option<LoadNumber> {
    match call {
        Call::LoadEnd(load, _) | Call::LoadTake(load, _) | Call::LoadDrop(load) => Some(*load),
        _ => None,
    }
}

// Drops the kept progress of a load that isn't open any more.
fn forget_if_closed<E: Env<Node: NodeSet<E>>, S: PagableStorage<E>>(
    pager: &Pager<E, S>,
    readings: &mut IndexMap<u64, Reading>,
    load: Option<LoadNumber>,
)
    ensures { Forgets (pager_core S.PagableStorage pager.now) (kept_at readings.old) (kept_at readings.new) }
{
    let Some(load) = load else {
        return;
    };
    if let Err(Error::NoSuchHandle) = pager.load_key_and_type(load) {
        readings.swap_remove(&load.0);
    }
}

fn load_key<E: Env<Node: NodeSet<E>>, S: PagableStorage<E>>(
    pager: &mut Pager<E, S>,
    held: &mut LoadsAndWorkers<E>,
    alloc: Global,
    key: DataKey,
    node_type: u32,
) -> Result<Beginning, Error>
    requires { HeldFitsPager S.PagableStorage pager.old held.old }
    ensures { Drives (values_at E.Node.NodeSet E.Env E.Hash.KeyHash pager.old.environment) S.PagableStorage pager.old
        held.old (Event.LoadKey key node_type) (EventReply.Started result) pager.new held.new }
{
    pager.assert_invariant();
    if !pager.has_load_number() {
        return Err(Error::NumbersSpent);
    }
    held.readings.reserve(1)?;
    let begun = pager.load_key(key);
    pager.assert_invariant();
    match begun? {
        Beginning::InMemory => Ok(Beginning::InMemory),
        Beginning::Load(load, of) => {
            put(
                &mut held.readings,
                load.0,
                Reading::new(alloc, load, key, node_type, false),
            );
            Ok(Beginning::Load(load, of))
        }
    }
}

/// Runs the event, and returns its reply.
pub fn run_event<E: Env<Node: NodeSet<E>>, S: PagableStorage<E>>(
    pager: &mut Pager<E, S>,
    held: &mut LoadsAndWorkers<E>,
    alloc: Global,
    event: Event<E::Node, PagableData, SerializedData>,
) -> EventReply<E::Node, Arc<PagableData>, Arc<SerializedData>>
    requires { HeldFitsPager S.PagableStorage pager.old held.old }
    ensures { Drives (values_at E.Node.NodeSet E.Env E.Hash.KeyHash pager.old.environment) S.PagableStorage pager.old
        held.old event result pager.new held.new }
{
    pager.assert_invariant();
    match event {
        Event::Call(call) => {
            let closed = load_closed_by(&call);
            let reply = make_call(pager, alloc, call);
            pager.assert_invariant();
            forget_if_closed(pager, &mut held.readings, closed);
            EventReply::CallReply(reply)
        }
        // The progress of a cell's load is kept from its first step on.
        Event::LoadStart(handle) => {
            let begun = pager.load_begin(handle);
            pager.assert_invariant();
            EventReply::Started(begun)
        }
        Event::LoadKey(key, node_type) => {
            EventReply::Started(load_key(pager, held, alloc, key, node_type))
        }
        Event::LoadStep(load) => EventReply::LoadMoved(load_step(pager, held, alloc, load)),
        Event::TableNew => EventReply::TableMade(make_table(pager, held, alloc)),
        Event::WorkerItem(table, item) => {
            EventReply::WorkerMade(begin_item_worker(pager, held, alloc, table, item))
        }
        Event::WorkerListed(table, place) => {
            EventReply::WorkerMade(begin_entry_worker(pager, held, alloc, table, place))
        }
        Event::WorkerStep(worker) => {
            EventReply::WorkerMoved(step_worker(pager, held, alloc, worker))
        }
    }
}
