//! A pager that threads share: a call takes its lock for one step at a time; values are decoded and
//! written with no lock held.
#![tactic(auto)]

pub mod gate;
pub mod handle_pin;
pub mod in_memory;
mod known;
mod lock;
pub mod locked;
pub mod page_out_all;
mod pins;
mod roots;
pub mod share;
pub mod shared_claims;
pub mod slot;
mod storage_counts;
pub mod storage_handle;
pub mod table;
pub mod typed;

pub use gate::{Gate, NoGate};
pub use handle_pin::HandlePin;
pub use in_memory::InMemoryPagableStorage;
pub use locked::Locked;
pub use page_out_all::PageOutReport;
pub use share::ClaimShare;
pub use shared_claims::SharedClaims;
pub use slot::ArcSerSlot;
pub use storage_handle::PagableStorageHandle;
pub use table::{SlotTable, TableGuard};
