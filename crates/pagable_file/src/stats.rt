//! Counts of what was asked of a file of blobs.

ghost use Rattle.pagable_value_spec.specs.Stored.{HasFailed, IsMemoryOrFailure};
ghost use Rattle.std.specs.Prelude.{◌≡◌, ◌≤◌};
ghost use Rattle.pagable_value_spec.specs.declared.error.Error.TheVariants as error;

use crate::fault::Fault;
use blob_file::file_error::FileError;
use pagable_flavors::Error;

/// What was asked of a file of blobs since it was opened. Each count stops at 2^64 - 1.
#[derive(Clone, Copy, Debug, PartialEq, Eq)]
pub struct Stats {
    /// Fetched blobs.
    pub fetches: u64,
    /// The bytes of these blobs, without their child keys.
    pub fetched_bytes: u64,
    /// Stored blobs that were new.
    pub stores: u64,
    /// Stored blobs that the storage had already.
    pub already_stored: u64,
    /// Flushes that succeeded.
    pub flushes: u64,
    /// Calls that failed with a fault.
    pub failures: u64,
}

impl Stats {
    /// The counts before anything was asked.
    pub const NONE: Stats = Stats {
        fetches: 0,
        fetched_bytes: 0,
        stores: 0,
        already_stored: 0,
        flushes: 0,
        failures: 0,
    };
}

/// Counts a failure, and returns the error `Storage` with the fault's code.
pub fn count_failure(stats: &mut Stats, fault: Fault) -> Error
    ensures storage { (code : _) × (result ≡ error.Storage code) }
    ensures counts { HasFailed stats.old.failures stats.new.failures }
{
    stats.failures = stats.failures.saturating_add(1);
    Error::Storage(fault.code())
}

/// Turns an error of the file below into the error of the storage, `OutOfMemory` or `Storage`, and
/// counts a `Storage` as a failure.
pub fn count_file_error(stats: &mut Stats, refused: FileError) -> Error
    ensures named { IsMemoryOrFailure stats.old.failures stats.new.failures result }
    ensures failures_never_fall { stats.old.failures ≤ stats.new.failures }
{
    match Fault::of_file(refused) {
        Some(fault) => count_failure(stats, fault),
        None => Error::of_library(true, Error::Closed),
    }
}

/// Counts a fetch of a blob with this many bytes.
pub fn count_fetch(stats: &mut Stats, bytes: usize)
    ensures { stats.new.failures ≡ stats.old.failures }
{
    stats.fetches = stats.fetches.saturating_add(1);
    stats.fetched_bytes = stats.fetched_bytes.saturating_add(bytes as u64);
}
