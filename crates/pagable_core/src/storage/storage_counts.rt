//! Counts of what a storage was asked for.

ghost use Rattle.pagable_core.specs.Counts.{with_fetch, with_flush, with_poll, with_store};
ghost use Rattle.std.specs.Prelude.{◌≡◌};

use crate::storage::data::PagableData;
use futures::task::Poll;
use pagable_flavors::{DataKey, Error};
use std::sync::Arc;

/// What a storage was asked for. Each count stops at 2^64 - 1.
#[derive(Clone, Copy, Debug, PartialEq, Eq)]
pub struct StorageCounts {
    /// Fetched blobs. A poll that is pending doesn't count.
    pub fetches: u64,
    /// The bytes of these blobs, without their child keys.
    pub fetched_bytes: u64,
    /// Fetches that failed, also those of keys under which no blob is stored.
    pub failed_fetches: u64,
    /// Stored blobs, new ones and those that the storage had already.
    pub stores: u64,
    /// The bytes of these blobs, without their child keys.
    pub stored_bytes: u64,
    /// Stores that failed.
    pub failed_stores: u64,
    /// Flushes that succeeded.
    pub flushes: u64,
    /// Flushes that failed.
    pub failed_flushes: u64,
}

impl StorageCounts {
    /// The counts before anything was asked.
    pub const NONE: StorageCounts = StorageCounts {
        fetches: 0,
        fetched_bytes: 0,
        failed_fetches: 0,
        stores: 0,
        stored_bytes: 0,
        failed_stores: 0,
        flushes: 0,
        failed_flushes: 0,
    };
}

/// Counts a fetch by its answer.
pub(crate) fn count_fetch(
    counts: StorageCounts,
    answer: &Result<Arc<PagableData>, Error>,
) -> StorageCounts
    ensures { result ≡ with_fetch answer.now counts }
{
    match answer {
        Ok(found) => {
            let bytes = found.bytes.len() as u64;
            StorageCounts {
                fetches: counts.fetches.saturating_add(1),
                fetched_bytes: counts.fetched_bytes.saturating_add(bytes),
                ..counts
            }
        }
        Err(_) => StorageCounts {
            failed_fetches: counts.failed_fetches.saturating_add(1),
            ..counts
        },
    }
}

/// Counts a polled fetch by its answer, if the poll is ready.
pub(crate) fn count_poll(
    counts: StorageCounts,
    answer: &Poll<Result<Arc<PagableData>, Error>>,
) -> StorageCounts
    ensures { result ≡ with_poll answer.now counts }
{
    match answer {
        Poll::Ready(answer) => count_fetch(counts, answer),
        Poll::Pending => counts,
    }
}

/// Counts a store of a blob with so many bytes, by its answer.
pub(crate) fn count_store(
    counts: StorageCounts,
    bytes: usize,
    answer: &Result<DataKey, Error>,
) -> StorageCounts
    ensures { result ≡ with_store bytes answer.now counts }
{
    match answer {
        Ok(_) => StorageCounts {
            stores: counts.stores.saturating_add(1),
            stored_bytes: counts.stored_bytes.saturating_add(bytes as u64),
            ..counts
        },
        Err(_) => StorageCounts {
            failed_stores: counts.failed_stores.saturating_add(1),
            ..counts
        },
    }
}

/// Counts a flush by its answer.
pub(crate) fn count_flush(counts: StorageCounts, answer: &Result<(), Error>) -> StorageCounts
    ensures { result ≡ with_flush answer.now counts }
{
    match answer {
        Ok(()) => StorageCounts {
            flushes: counts.flushes.saturating_add(1),
            ..counts
        },
        Err(_) => StorageCounts {
            failed_flushes: counts.failed_flushes.saturating_add(1),
            ..counts
        },
    }
}
