//! A durable storage for a pager: blobs in one file that only grows.
//!
//! Below it `blob_file` keeps the file over any `Disk` of `sqlite_disk`; this crate says what a
//! blob's body is there, tests the key of each blob that it fetches, and counts what was asked.
#![tactic(auto)]

pub mod blob_env;
pub mod bodies;
pub mod copy;
pub mod fault;
pub mod file_blobs;
pub mod fsck;
pub mod laws;
pub mod listing;
pub mod looking;
pub mod open_error;
pub mod opening;
mod root_check;
pub mod root_log;
mod roots;
pub mod stats;
pub mod watch;

pub use blob_env::BlobEnv;
pub use fault::Fault;
pub use file_blobs::FileBlobs;
pub use fsck::Flaw;
pub use listing::ListedBlob;
pub use open_error::OpenError;
pub use opening::FileOfBlobs;
pub use pagable_core::Roots;
pub use root_log::LoggedRoot;
pub use stats::Stats;
pub use watch::Watch;

#[cfg(test)]
mod tests;
