//! Blobs by key, and names of roots, in one file that only grows, over any `Disk`.
#![tactic(auto)]

pub mod file;
pub mod file_error;
pub mod front;
pub mod head;
pub mod history;
pub mod holding;
pub mod index;
pub mod laws;
pub mod listing;
pub mod log;
pub mod naming;
pub mod opening;
pub mod repair;
pub mod rows;
pub mod scanning;
pub mod sealing;
pub mod staging;

pub use file::{BlobFile, FoundBlob};
pub use file_error::FileError;
pub use history::NameRow;
pub use listing::{Counts, ListedBlob};
pub use log::Log;

#[cfg(test)]
mod tests;
