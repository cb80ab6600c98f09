//! The writer and the reader of the wire format.
//!
//! [`PagableVecFlavor`] appends each basic value to a vector of bytes, and [`PagableSlice`] reads
//! such values from the front of a slice. Numbers of more than 8 bits are varints: seven bits a
//! byte, low bits first, the top bit set on all bytes but the last. A writer writes the shortest
//! varint; a reader accepts longer ones, up to the greatest length for the width that it reads.
#![tactic(auto)]

pub mod reader;
pub mod slice;
pub mod vec_flavor;
mod zigzag;

pub use pagable_value_spec::{DataKey, Error, KeyTextError, OptionalDataKey, Reason};
pub use reader::Reader;
pub use slice::PagableSlice;
pub use vec_flavor::PagableVecFlavor;
