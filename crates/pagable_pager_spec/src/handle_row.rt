//! A handle's row, and who owns a handle.

use crate::mode::Mode;
use pagable_value_spec::{HandleNumber, LoadNumber, NodeNumber, WorkerNumber};

/// Who owns a handle and has to release it.
#[derive(Clone, Copy, Debug, PartialEq, Eq)]
pub enum Owner {
    /// The caller of the pager.
    Caller,
    /// The value of the node with this number, which holds the handle as a reference.
    Value(NodeNumber),
    /// The list of cells that wait for page-out.
    List,
    /// The open load with this number.
    Load(LoadNumber),
    /// The page-out worker with this number.
    Worker(WorkerNumber),
}

/// A live handle's row.
#[derive(Clone, Copy, PartialEq)]
pub struct HandleRow {
    /// The handle's number, from 1 on. A pager never gives out a number twice.
    pub number: HandleNumber,
    /// The handle's node.
    pub node: NodeNumber,
    /// How the handle holds its node.
    pub mode: Mode,
    /// Who owns the handle.
    pub owner: Owner,
}
