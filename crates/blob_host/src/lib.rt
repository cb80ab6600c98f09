//! One file of the operating system as a `Disk`, for its one writer or for looking alone.
#![tactic(auto)]

pub mod call;
pub mod facts;
pub mod handles;
pub mod host_file;
pub mod open_error;
pub mod opening;
pub mod trail;

pub use facts::FileFacts;
pub use handles::facts_at;
pub use host_file::HostFile;
pub use open_error::OpenError;
pub use opening::{HostDisk, OpenFile, open, read_only};
pub use sqlite_disk::{Start, Unknown, Wary};
