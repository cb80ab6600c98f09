//! Page-out of many items by several workers on threads.

ghost use Rattle.pagable_load.specs.AccessView.{values_at};
ghost use Rattle.pagable_locked.specs.Answers.{AnswersEach, IsAnswerOf, items_of};
ghost use Rattle.std.specs.Prelude.{IfOk, slice_index_or, vec_len, ℕ, ◌+◌, ◌<◌, ◌≡◌};

use crate::gate::{Gate, GatedClaims};
use crate::share::{ClaimShare, WorkerShare};
use crate::shared_claims::SharedClaims;
use crate::storage_handle::PagableStorageHandle;
use crate::table::SlotTable;
use pagable_codec::{Env, NodeSet};
use pagable_core::{PagableStorage, SerializedData};
use pagable_pageout::{PageOutError, page_out_item_over};
use pagable_value_spec::{DataKey, Error};
use std::alloc::Global;
use std::collections::VecDeque;
use std::marker::Brand;
use std::sync::ledger::{Blank, Ledger};
use std::sync::{Arc, Wait};
use std::thread;
use std::thread::Threads;

/// The report of a page-out of items: for each item, in their order, its key or why its page-out
/// failed; and how many claims all workers made.
#[derive(Drop)]
pub struct PageOutReport {
    pub keys: Vec<Result<DataKey, PageOutError>>,
    pub claims: u64,
}

// What a worker is started with: its number and its share.
#[derive(Drop)]
struct Job<L: Ledger> {
    worker: usize,
    share: WorkerShare<L>,
}

// What a worker returns at its end: the results of its items, and its share with its claims.
#[derive(Drop)]
struct JobEnd<L: Ledger> {
    keys: VecDeque<Result<DataKey, PageOutError>>,
    share: WorkerShare<L>,
}

// What the workers of a page-out share.
#[derive(Drop)]
struct PageOutContext<'a, E: Env<Node: NodeSet<E>>, S: PagableStorage<E>, L: Ledger, G: Gate> {
    storage: &'a PagableStorageHandle<E, S>,
    table: &'a SlotTable<E, L>,
    gate: &'a G,
}

// Pages out an item with the claims of a worker.
fn page_out_one<'a, R: Wait, E: Env<Node: NodeSet<E>>, S: PagableStorage<E>, L: Ledger, G: Gate>(
    rt: &R,
    alloc: Global,
    storage: &PagableStorageHandle<E, S>,
    claims: &mut GatedClaims<'a, R, E, L, G>,
    item: &Arc<SerializedData>,
) -> Result<DataKey, PageOutError>
    ensures { IsAnswerOf E.Hash.digest (values_at E.Node.NodeSet E.Env E.Hash.KeyHash) item.now result }
{
    let shared = match Arc::try_clone(item) {
        Ok(shared) => shared,
        Err(e) => return Err(PageOutError::Failed(Error::from(e))),
    };
    let mut access = storage.access(rt);
    page_out_item_over(&mut access, alloc, claims, shared)
}

// Pages out the items whose index mod `workers` is `worker`, in their order. Fails with OutOfMemory
// alone.
fn page_out_each<'a, R: Wait, E: Env<Node: NodeSet<E>>, S: PagableStorage<E>, L: Ledger, G: Gate>(
    rt: &R,
    alloc: Global,
    storage: &PagableStorageHandle<E, S>,
    claims: &mut GatedClaims<'a, R, E, L, G>,
    items: &[Arc<SerializedData>],
    workers: usize,
    worker: usize,
) -> Result<VecDeque<Result<DataKey, PageOutError>>, Error>
    requires { 0 < workers }
    ensures answers { IfOk result (λ v. AnswersEach (IsAnswerOf E.Hash.digest
        (values_at E.Node.NodeSet E.Env E.Hash.KeyHash)) (items_of workers worker 0 items.now) v.items) }
{
    let mut keys = VecDeque::new(alloc);
    for i in 0..items.len() {
        if i % workers == worker {
            let key = page_out_one(rt, alloc, storage, claims, &items[i]);
            keys.push_back(key)?;
        }
    }
    Ok(keys)
}

// Pages out the items of a worker's job.
fn run_job<'a, R: Wait, E: Env<Node: NodeSet<E>>, S: PagableStorage<E>, L: Ledger, G: Gate>(
    rt: &R,
    alloc: Global,
    context: &PageOutContext<'a, E, S, L, G>,
    items: &[Arc<SerializedData>],
    workers: usize,
    job: Job<L>,
) -> Result<JobEnd<L>, Error>
    requires { 0 < workers }
    ensures { IfOk result (λ d. AnswersEach (IsAnswerOf E.Hash.digest (values_at E.Node.NodeSet E.Env E.Hash.KeyHash))
        (items_of workers job.worker 0 items.now) d.keys.items) }
{
    let Job { worker, share } = job;
    let claims = SharedClaims::new(rt, alloc, context.table, share);
    let mut claims = GatedClaims::new(claims, context.gate, worker);
    let keys = page_out_each(
        rt,
        alloc,
        context.storage,
        &mut claims,
        items,
        workers,
        worker,
    )?;
    let share = claims.into_share();
    Ok(JobEnd { keys, share })
}

// Makes one job for each worker, with a part of the share.
fn make_jobs<L: Ledger>(
    alloc: Global,
    workers: usize,
    all: &mut ClaimShare<L>,
) -> Result<Vec<Job<L>>, Error>
    requires { all.old.share.parts ≡ workers + 1 }
    ensures count { IfOk result (λ v. vec_len v ≡ workers) }
    ensures parts { IfOk result (λ v. all.new.share.parts ≡ 1) }
    ensures own { IfOk result (λ v. (i : ℕ) (d : _) → i < workers → (slice_index_or v.items i d).worker ≡ i) }
{
    let mut jobs = Vec::new(alloc);
    for worker in 0..workers {
        let share = WorkerShare::split_off(all);
        jobs.push(Job { worker, share })?;
    }
    Ok(jobs)
}

// Returns the workers' lists of results in the order of the workers, and merges their shares into
// `all`. Fails if a worker failed, or with OutOfMemory.
fn gather_results<E: Env<Node: NodeSet<E>>, L: Ledger>(
    alloc: Global,
    items: &[Arc<SerializedData>],
    workers: usize,
    ends: Vec<Result<JobEnd<L>, Error>>,
    all: &mut ClaimShare<L>,
) -> Result<Vec<VecDeque<Result<DataKey, PageOutError>>>, Error>
    requires count { vec_len ends ≡ workers }
    requires each { (i : ℕ) (d : _) → i < workers → IfOk (slice_index_or ends.items i d)
        (λ x. AnswersEach (IsAnswerOf E.Hash.digest (values_at E.Node.NodeSet E.Env E.Hash.KeyHash))
        (items_of workers i 0 items.now) x.keys.items) }
    ensures count { IfOk result (λ v. vec_len v ≡ workers) }
    ensures parts { IfOk result (λ v. all.new.share.parts ≡ all.old.share.parts + workers) }
    ensures each { IfOk result (λ v. (i : ℕ) (d : _) → i < workers
        → AnswersEach (IsAnswerOf E.Hash.digest (values_at E.Node.NodeSet E.Env E.Hash.KeyHash))
        (items_of workers i 0 items.now) (slice_index_or v.items i d).items) }
{
    let mut lists = Vec::new(alloc);
    for end in ends {
        let JobEnd { keys, share } = end?;
        let WorkerShare { share } = share;
        all.merge(share);
        lists.push(keys)?;
    }
    Ok(lists)
}

// Returns the results from all workers' lists, in the order of the items. Fails with OutOfMemory
// alone.
fn order_results<E: Env<Node: NodeSet<E>>>(
    alloc: Global,
    items: &[Arc<SerializedData>],
    workers: usize,
    mut lists: Vec<VecDeque<Result<DataKey, PageOutError>>>,
) -> Result<Vec<Result<DataKey, PageOutError>>, Error>
    requires some { 0 < workers }
    requires count { vec_len lists ≡ workers }
    requires each { (i : ℕ) (d : _) → i < workers → AnswersEach
        (IsAnswerOf E.Hash.digest (values_at E.Node.NodeSet E.Env E.Hash.KeyHash)) (items_of workers i 0 items.now)
        (slice_index_or lists.items i d).items }
    ensures { IfOk result (λ v. AnswersEach (IsAnswerOf E.Hash.digest (values_at E.Node.NodeSet E.Env E.Hash.KeyHash))
        items.now v.items) }
{
    let mut keys = Vec::new(alloc);
    for i in 0..items.len() {
        let Some(key) = lists[i % workers].pop_front() else {
            unreachable!();
        };
        keys.push(key)?;
    }
    Ok(keys)
}

// Makes the report of these results, with the claims of the whole share.
fn make_report<R: Wait, E: Env<Node: NodeSet<E>>, L: Ledger>(
    rt: &R,
    table: &SlotTable<E, L>,
    mut all: ClaimShare<L>,
    keys: Vec<Result<DataKey, PageOutError>>,
) -> PageOutReport
    requires { all.share.parts ≡ L.parts }
    ensures keys { result.keys ≡ keys }
    ensures claims { result.claims ≡ all.share.amount }
{
    let claims = table.count_claims(rt, &mut all);
    PageOutReport { keys, claims }
}

impl<E: Env<Node: NodeSet<E>>, S: PagableStorage<E>> PagableStorageHandle<E, S> {
    // Pages out all items on a table made for this call.
    fn page_out_on<L, R, G>(
        &self,
        rt: &R,
        alloc: Global,
        items: &[Arc<SerializedData>],
        workers: usize,
        gate: &G,
        parts: Blank,
    ) -> Result<PageOutReport, Error>
    where
        L: Ledger + Send + Sync,
        R: Threads + Wait + Sync,
        G: Gate + Sync,
        E: Send + Sync,
        S: Send,
        E::Node: Send + Sync,
        E::Hash: Send + Sync,
        E::CtxKey: Send + Sync,
        E::CtxValue: Send + Sync,
        requires name { parts.name ≡ L.name }
        requires parts { parts.parts ≡ L.parts }
        requires workers { (0 < workers) × (parts.parts ≡ workers + 1) }
        ensures { IfOk result (λ r. AnswersEach (IsAnswerOf E.Hash.digest
            (values_at E.Node.NodeSet E.Env E.Hash.KeyHash)) items.now r.keys.items) }
    {
        let (table, mut all) = SlotTable::<E, L>::new(alloc, parts);
        let jobs = make_jobs(alloc, workers, &mut all)?;
        let context = PageOutContext {
            storage: self,
            table: &table,
            gate,
        };
        let context = &context;
        let ends = thread::map_vec(
            rt,
            jobs,
            &|job: Job<L>| -> Result<JobEnd<L>, Error>
                requires { 0 < workers }
                ensures { IfOk result (λ d. AnswersEach
                    (IsAnswerOf E.Hash.digest (values_at E.Node.NodeSet E.Env E.Hash.KeyHash))
                    (items_of workers job.worker 0 items.entry.now) d.keys.items) }
            { run_job(rt, alloc, context, items, workers, job) },
        )?;
        let lists = gather_results::<E, L>(alloc, items, workers, ends, &mut all)?;
        let keys = order_results::<E>(alloc, items, workers, lists)?;
        Ok(make_report(rt, &table, all, keys))
    }

    /// Pages out items, with all that they refer to, by this many workers (at most one for each
    /// item), which claim on one table of their own: item i by worker i mod `workers`. The last
    /// worker runs on the caller's thread, each other on its own, if one can start. The report has
    /// for each item its key, or why its page-out failed. A key is the hash of its item's bytes and
    /// of the keys of results, one for each of the item's references. Each worker calls the gate
    /// after each claim, while it holds no lock. The caller must keep the items' handles until the
    /// call returns.
    ///
    /// # Errors
    ///
    /// - `OutOfMemory` if the table, the report, a worker or its list can't get memory: what was
    ///   stored and keys that were set stay.
    pub fn page_out_all<R, G>(
        &self,
        rt: &R,
        alloc: Global,
        items: &[Arc<SerializedData>],
        workers: usize,
        gate: &G,
    ) -> Result<PageOutReport, Error>
    where
        R: Threads + Wait + Sync,
        G: Gate + Sync,
        E: Send + Sync,
        S: Send,
        E::Node: Send + Sync,
        E::Hash: Send + Sync,
        E::CtxKey: Send + Sync,
        E::CtxValue: Send + Sync,
        requires { 0 < workers }
        ensures { IfOk result (λ r. AnswersEach (IsAnswerOf E.Hash.digest
            (values_at E.Node.NodeSet E.Env E.Hash.KeyHash)) items.now r.keys.items) }
    {
        // More workers than items would have nothing to do.
        let workers = workers.min(items.len().max(1));
        let parts = Blank::new(workers as u64 + 1);
        self.page_out_on::<Brand, R, G>(rt, alloc, items, workers, gate, parts)
    }
}
