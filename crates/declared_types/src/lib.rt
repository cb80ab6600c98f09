// Printed by pagable_derive: change the declaration instead.
//! Types of values, and their environment.
//!
//! - `part`: the type `Part`, and how its values are written and read.
//! - `choice`: the type `Choice`, and how its values are written and read.
//! - `table`: the type `Table`, and how its values are written and read.
//! - `change`: the type `Change`, and how its values are written and read.
//! - `store`: the environment `Store` of these types, and its nodes.
#![tactic(auto)]

pub mod change;
pub mod choice;
pub mod part;
pub mod store;
pub mod table;

pub use change::{Change, ChangeRef};
pub use choice::{Choice, ChoiceRef};
pub use part::{Part, PartRef};
pub use store::{Store, StoreNode};
pub use table::{Table, TableRef};
