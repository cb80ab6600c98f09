//! Programs that continue from run to run, by the records of a file.

ghost use Rattle.std.specs.Prelude.{OnOk};

use crate::calls::RecordCalls;
use crate::record_store::RecordStore;
use anyhow::{Context, Result};
use pagable_core::Roots;
use pagable_file::{FileBlobs, OpenError};
use pagable_nodes::Records;
use pagable_value_spec::HandleNumber;
use std::alloc::Global;

/// The work that a program does in a run, with its records. A run takes the job, so no job runs twice.
pub trait Job {
    /// The name of the root under which `run` saves its record.
    const ROOT: &'static str;

    /// How many records stay in memory besides the new ones.
    const KEPT_RECORDS: u64;

    // What holds once a run has succeeded.
    ghost succeeds: { Self → Type 0 } = { λ _. Unit {0} };

    /// Does the work of a run, and saves its record under `ROOT`. `last` is the handle of the record
    /// that was saved there last, if there is one.
    ///
    /// # Errors
    ///
    /// - the job's own: what it saved before stays saved.
    fn run<R: RecordCalls>(self, store: &mut R, last: Option<HandleNumber>) -> Result<()>
        ensures { OnOk result (succeeds self) };
}

/// Runs a job over the records of a storage, once. It succeeds only if the job's run did.
///
/// # Errors
///
/// - as `RecordStore::open` and `Job::run`.
pub fn run_over<J: Job + Drop, S: Roots<Records> + Drop>(
    alloc: Global,
    storage: S,
    job: J,
) -> Result<()>
    ensures { OnOk result (J.succeeds job) }
{
    let (mut store, last) = RecordStore::open(alloc, storage, J::ROOT, J::KEPT_RECORDS)?;
    job.run(&mut store, last)
}

// Runs a job over the records of a storage that was opened at a path, or fails as the opening did. It
// takes one of any type, so that the checker needn't follow how a file of blobs is dropped.
fn run_over_opened<J: Job + Drop, S: Roots<Records> + Drop>(
    alloc: Global,
    path: &str,
    storage: Result<S, OpenError>,
    job: J,
) -> Result<()>
    ensures { OnOk result (J.succeeds job) }
{
    let storage = storage.context(format_args!("opening {path}"))?;
    run_over(alloc, storage, job)
}

/// Runs a job over the records of a file, which it makes if there is none, and lets the file go. All
/// that was saved is in it. It succeeds only if the job's run did.
///
/// # Errors
///
/// - as `FileBlobs::open`, with the path, and as `run_over`.
pub fn run_over_file<J: Job + Drop>(rt: &HostRuntime, path: &str, job: J) -> Result<()>
    ensures { OnOk result (J.succeeds job) }
{
    run_over_opened(rt.alloc(), path, FileBlobs::open(rt, path), job)
}
