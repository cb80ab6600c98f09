//! Nodes for environments with one value type (`OneNode`), three (`EitherNode`) or any number (an
//! enum of one's own), and an environment of records for programs that need no types of their own.
#![tactic(auto)]

pub mod bytes;
pub mod cases;
pub mod either_node;
pub mod node_value;
pub mod one_node;
pub mod records;
pub mod tagged_cases;

pub use cases::{CaseReader, HasCases, list_case, read_case, references_of_case, write_case};
pub use either_node::EitherNode;
pub use node_value::{NodeValue, read_shared};
pub use one_node::{OneNode, write_with_refs};
pub use records::{Record, RecordNode, RecordRef, Records};
pub use tagged_cases::{HasTags, read_tagged_case, references_of_tagged_case, write_tagged_case};
