//! Page-out workers: how they begin, release their handles at a node, and end.

ghost use Rattle.indexmap.specs.IndexMap.{get};
ghost use Rattle.pagable_pager_spec.specs.{
  Basics.updated,
  Cascade.FallsAnyhow,
  Kinds.{is_owner, owner_worker},
  Workers.{WorkerEnds, is_workers_at},
  declared.handle_row.Owner.Owner,
};
ghost use Rattle.pagable_tables.specs.{
  Core.{BeginsWorker, Does, DoesAndDropsValues, IsWhole, OwnLaterHandles, TakesWorker, left_load},
  Indexes.{load_at, reach_at, worker_at},
  declared.{load_table.LoadRow.LoadRow, release.ReleaseSet.ReleaseSet},
};
ghost use Rattle.pagable_value_spec.specs.declared.numbers.{NodeNumber.NodeNumber, WorkerNumber.WorkerNumber};
ghost use Rattle.std.specs.Prelude.{IfOk, Ok, is_some, length, not, true, ℕ, ◌+◌, ◌<◌, ◌==◌, ◌≡◌};

use crate::kinds::is_owner;
use crate::load_table;
use crate::load_table::{LoadRow, Loads};
use crate::nodes::NodeValues;
use crate::pending::take_pending;
use crate::release::{ReleaseSet, release_owned};
use crate::tables::{HandleRange, Tables, Workers};
use pagable_pager_spec::handle_row::Owner;
use pagable_value_spec::{Error, NodeNumber, WorkerNumber};

/// Begins a worker, which owns nothing yet.
///
/// # Errors
///
/// - `NumbersSpent` if no worker number is left: nothing changes.
/// - `OutOfMemory` if the workers' table can't grow: nothing changes.
#[tactic(auto, using(crate::proofs::OwnedByLoad::working))]
pub fn worker_begin(t: &mut Tables) -> Result<WorkerNumber, Error>
    requires { IsWhole t.old }
    ensures does { Does t.old (λ w w'. BeginsWorker w result w') t.new }
    ensures number { IfOk result (λ v. (v.0 ≡ t.old.last_worker + 1) × (t.new.last_worker ≡ t.old.last_worker + 1)) }
    ensures more { IfOk result (λ v. (q : ℕ) → is_some (worker_at t.new.workers q)
        ≡ updated (t.old.last_worker + 1) true (λ u. is_some (worker_at t.old.workers u)) q) }
    ensures same { t.new ≡ record t.old { workers = t.new.workers; last_worker = t.new.last_worker } }
{
    if t.last_worker == u64::MAX {
        return Err(Error::NumbersSpent);
    }
    let worker = t.last_worker + 1;
    let since = t.ref_counts.last_handle;
    let reach = HandleRange { since, beside: 0 };
    load_table::add_row(&mut t.workers, worker, reach)?;
    t.last_worker = worker;
    Ok(WorkerNumber(worker))
}

/// Begins a worker, removes the entry at this index of the pending list and makes the worker the
/// owner of the entry's handle. It fails as `worker_begin` does, and changes nothing then.
pub fn worker_begin_with_entry(t: &mut Tables, place: usize) -> Result<WorkerNumber, Error>
    requires whole { IsWhole t.old }
    requires within { place < length t.old.ref_counts.list.items }
    ensures { Does t.old (λ w w'. TakesWorker w place result w') t.new }
{
    let worker = worker_begin(t)?;
    let _ = take_pending(t, Owner::Worker(worker), place);
    Ok(worker)
}

/// Returns the handles that this worker may own: all, if the worker isn't known.
fn reach_of(workers: &Workers, worker: WorkerNumber) -> HandleRange
    ensures { result ≡ reach_at workers.now worker.0 }
{
    let beside = 0;
    let nothing = HandleRange { since: 0, beside };
    workers.get(&worker.0).copied().unwrap_or(nothing)
}

/// Releases all handles of a node that a worker owns, and runs the cascade.
pub fn release_node<N: Drop>(
    t: &mut Tables,
    values: &mut NodeValues<N>,
    worker: WorkerNumber,
    node: NodeNumber,
    lists: bool,
)
    requires whole { IsWhole t.old }
    requires later { OwnLaterHandles t.old }
    ensures { DoesAndDropsValues lists t.old values.old (λ w w'. FallsAnyhow w w (is_workers_at w worker.0 node.0) w')
        t.new
        values.new }
{
    let giving = ReleaseSet::AtNode(worker, node);
    let reach = reach_of(&t.workers, worker);
    let until = t.ref_counts.last_handle;
    let _ = release_owned(
        &mut t.ref_counts,
        values,
        &t.loads,
        giving,
        reach,
        until,
        lists,
    );
}

/// Removes the rows of the worker's loads.
fn close_loads(loads: &mut Loads, worker: WorkerNumber)
    ensures { (l : ℕ) → load_at loads.new l ≡ left_load worker.0 (load_at loads.old l) }
{
    let _many = loads.len();
    loads.retain(
        |_load: &u64, row: &mut LoadRow| -> bool
            ensures { (result ≡ not (is_owner (owner_worker worker.0) row.old.owner)) × (row.new ≡ row.old) }
        { !is_owner(Owner::Worker(worker), row.owner) },
    );
}

/// Ends a worker: releases all handles that it and its loads own, runs the cascade, and closes its
/// loads.
pub fn worker_end<N: Drop>(
    t: &mut Tables,
    values: &mut NodeValues<N>,
    worker: WorkerNumber,
    lists: bool,
)
    requires whole { IsWhole t.old }
    requires later { OwnLaterHandles t.old }
    ensures { DoesAndDropsValues lists t.old values.old (λ w w'. WorkerEnds w worker.0 w') t.new values.new }
{
    let giving = ReleaseSet::Worker(worker);
    let reach = reach_of(&t.workers, worker);
    let until = t.ref_counts.last_handle;
    let _ = release_owned(
        &mut t.ref_counts,
        values,
        &t.loads,
        giving,
        reach,
        until,
        lists,
    );
    close_loads(&mut t.loads, worker);
    load_table::remove_row(&mut t.workers, worker.0);
}
