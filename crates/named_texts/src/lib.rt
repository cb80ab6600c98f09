//! Named texts in a pager, and an answer to each line that asks for them: over blobs in memory, or
//! over any storage with names of roots.
#![tactic(auto)]

mod cell_page_out;
pub mod command;
mod counts;
pub mod durable_command;
mod durable_session;
pub mod lines;
mod names;
pub mod serve;
mod session;
pub mod text;
mod text_storage;

pub use text::TextEnv;
