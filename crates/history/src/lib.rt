// Printed by pagable_derive: change the declaration instead.
//! Types of values, and their environment.
//!
//! - `commit`: the type `Commit`, and how its values are written and read.
//! - `file`: the type `File`, and how its values are written and read.
//! - `folder`: the type `Folder`, and how its values are written and read.
//! - `history`: the environment `History` of these types, and its nodes.
#![tactic(auto)]

pub mod commit;
pub mod file;
pub mod folder;
pub mod history;

pub use commit::{Commit, CommitRef};
pub use file::{File, FileRef};
pub use folder::{Folder, FolderRef};
pub use history::{History, HistoryNode};
