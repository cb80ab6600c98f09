//! Typed calls on a pager, lent or behind a lock: values of the caller's own types are inserted,
//! pinned, followed and paged out by references that know the type of the value.
//!
//! - `handle_scope`: which handles a piece of work has left open, and where they were made.
//! - `reference`: the loose references that values hold.
//! - `typed_pager`: the calls on a lent pager.
//! - `typed_storage`: the same calls on a storage that threads share.
//! - `uninserted`: what a refused insert gives back.
#![tactic(auto)]

pub mod handle_scope;
pub mod reference;
mod show;
pub mod typed_pager;
pub mod typed_storage;
pub mod uninserted;

pub use handle_scope::{HandleScope, OpenHandle};
pub use reference::Reference;
pub use typed_pager::TypedPager;
pub use typed_storage::TypedStorage;
pub use uninserted::Uninserted;
