//! Durable records: a pager of records over a storage with names of roots, and the calls that
//! programs make most.
#![tactic(auto)]

pub mod calls;
pub(crate) mod handles;
pub(crate) mod inserting;
pub mod job;
pub mod laws;
pub(crate) mod reading;
pub mod record_store;
pub mod store_error;

pub use calls::{RecordCalls, RecordView, TEXT};
pub use job::{Job, run_over, run_over_file};
pub use record_store::RecordStore;
pub use store_error::StoreError;
