//! Defines what all other crates use: errors, keys, kinds and numbers; in `specs/` the meaning of
//! values, their encoding (writing and reading), and the key of a blob.
#![tactic(auto)]

pub mod data_key;
pub mod error;
pub mod numbers;
pub mod reason;
#[cfg(test)]
mod tests;

pub use data_key::{DataKey, KeyTextError, OptionalDataKey};
pub use error::Error;
pub use numbers::{
    ArcRef, HandleNumber, Identity, Kind, LoadNumber, NodeNumber, PagableCursor, WorkerNumber,
};
pub use reason::Reason;
