//! The calls and events of the pager and their replies, as data; in `specs/` the pager's plain
//! state, what each call and each step does to it, and the invariant.
#![tactic(auto)]

pub mod calls;
pub mod events;
pub mod handle_row;
pub mod mode;
pub mod pinning;

pub use calls::{Call, FetchTarget, Found, Reply};
pub use events::{
    Action, Claim, Event, EventReply, LoadAnswer, LoadReply, PinStep, TableNumber, WorkerAnswer,
    WorkerReply,
};
pub use handle_row::{HandleRow, Owner};
pub use mode::Mode;
pub use pinning::{Beginning, Pinning};
