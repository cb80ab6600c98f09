//! Why a call of a store of records fails.

use pagable_file::Fault;
use pagable_value_spec::Error;
use std::fmt;

/// Why a call of a store of records fails. It is shown as the pager's error; a storage's code is shown as
/// the fault of a file of blobs that has this code.
#[derive(Clone, Copy, Debug, PartialEq, Eq)]
pub struct StoreError {
    /// The error of the pager's call.
    pub error: Error,
}

impl StoreError {
    /// Returns the fault of a file of blobs that the error's code stands for, if it stands for one.
    pub fn fault(self) -> Option<Fault> {
        match self.error {
            Error::Storage(code) => Fault::of_code(code),
            _ => None,
        }
    }
}

impl From<Error> for StoreError {
    fn from(error: Error) -> StoreError {
        StoreError { error }
    }
}

impl fmt::Display for StoreError {
    fn fmt<W: fmt::Write>(&self, f: &mut fmt::Formatter<W>) -> fmt::Result {
        match self.fault() {
            Some(fault) => write!(f, "the storage failed: {fault}"),
            None => write!(f, "{}", self.error),
        }
    }
}

impl std::error::Error for StoreError {}
