//! The tables of a pager: handles, nodes and loads by their numbers, the cache, and the pending
//! list of cells that wait for page-out; and the cascade, which a released handle starts. No
//! function here knows what a value holds, or asks the storage.
//!
//! Each module imports only those before it in this order: `kinds`, `number_table`, `nodes`,
//! `place`, `handle_table`, `cascade`, `load_table`, `tables`; `checks`, `queries`, `soundness`,
//! which change nothing; `create`, `release`, `pending`, `workers`, `cache`; `load_handles`,
//! `load`, `load_end`; `leaf`, `leaf_entry`.
#![tactic(auto)]

pub mod cache;
pub mod cascade;
pub mod checks;
pub mod create;
pub mod handle_table;
pub mod kinds;
pub mod leaf;
pub mod leaf_entry;
pub mod load;
pub mod load_end;
pub mod load_handles;
pub mod load_table;
pub mod nodes;
pub mod number_table;
pub mod pending;
pub mod place;
pub mod queries;
pub mod release;
pub mod soundness;
pub mod tables;
pub mod workers;
