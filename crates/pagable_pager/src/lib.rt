//! The pager: values that are in memory while a handle pins them, in step with the tables of
//! handles and nodes, over a storage of blobs.
#![tactic(auto)]

pub mod lent;
pub mod pager;
pub mod pins;
mod setting;

pub use lent::leaf_pins::BegunFetch;
pub use lent::leaves::{TakenLeaf, WrittenLeaves, write_leaves};
pub use lent::{ArcCell, DeserializedArcCache, Lent};
pub use pager::Pager;
pub use pager::leaf::read_leaf;
pub use pager::stats::PagerStats;
pub use pins::{pin, pin_with_key};
