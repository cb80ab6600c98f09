//! The calls of a lent pager by which values are paged out, pinned and read, those on one cell, and
//! the machine that runs lists of events. `pagable` exports them under its own names; a crate that
//! needs nothing behind a lock may use this one, and doesn't wait for the locked layer to be proved.
#![tactic(auto)]

pub mod cell_page_out;
pub mod cells;
mod events;
pub mod laws;
pub mod machine;
pub mod paging;
pub mod typed_references;
mod workers;
