//! Page-out of values and of all that they refer to: the table of claims, and a worker's walk over
//! the references, with a task at hand and a path of nodes that wait.
#![tactic(auto)]

pub mod claims;
pub mod lent_claims;
pub mod lent_slot;
pub mod lent_table;
pub mod refusal;
pub mod results;
pub mod stack;
pub mod step;
pub mod stride;
pub mod tasks;
pub mod turns;

pub use claims::{ClaimResult, Claims};
pub use lent_slot::{LentSlot, Outcome};
pub use lent_table::LentTable;
pub use results::SlotResult;
pub use step::{page_out_entry, page_out_item_over, page_out_pending_over};
pub use tasks::{ClaimedNode, DoneReference, PageOutError, StepResult, Task, Turn, WaitingValue};
