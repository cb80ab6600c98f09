//! SHA-256 of several messages at once: each operation on words is one on vectors of four words,
//! whose lanes belong to four messages. Each digest is that of the kit's `sha2`, whatever stands in
//! the other lanes.
#![tactic(auto)]

mod compress;
mod constants;
pub mod digest;
mod functions;
pub mod many;
pub mod padding;
mod schedule;

pub use digest::digest_four;
pub use many::digest_many;
pub use padding::count_blocks;
