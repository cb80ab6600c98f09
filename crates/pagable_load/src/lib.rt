//! Loads, run step by step over an access to a pager, which may be lent or behind a lock.
#![tactic(auto)]

pub mod access;
pub mod batch;
pub mod cell_reading;
pub mod decoding;
pub mod laws;
pub mod pin;
pub mod reading;
pub mod step;

pub use access::{
    Access, EndedLoad, PinStart, PinnedOrLoading, StartedPin, TakenValue, WorkerAccess, WorkerNode,
};
pub use cell_reading::CellReading;
pub use decoding::{Decoded, ResolvedReferences, decode};
pub use pin::{BegunPin, begin_polled_pin};
pub use reading::{Frame, LoadOutcome, Need, Reading};
pub use step::{CellPin, pin_over, pin_with_state_over, read_over};
