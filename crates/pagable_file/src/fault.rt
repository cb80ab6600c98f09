//! The faults of a file of blobs.

use blob_file::file_error::FileError;
use std::fmt;

/// The meaning of the code in [`pagable_flavors::Error::Storage`], if a file of blobs returned it.
#[derive(Clone, Copy, Debug, PartialEq, Eq)]
pub enum Fault {
    /// The disk failed.
    Io,
    /// The file is damaged, or the blob under the key has another key.
    Damaged,
    /// An earlier failure shut the file; it works again only after another open.
    Shut,
    /// The blob has 4 GiB of bytes or 2^32 child keys or more, or the file would have 2^64 bytes.
    TooLong,
    /// The file was opened for looking alone.
    ReadOnly,
}

impl Fault {
    /// Returns the code for [`pagable_flavors::Error::Storage`]: 1, 2, 4, 5 or 6.
    pub fn code(self) -> u32 {
        match self {
            Fault::Io => 1,
            Fault::Damaged => 2,
            Fault::Shut => 4,
            Fault::TooLong => 5,
            Fault::ReadOnly => 6,
        }
    }

    /// Returns the fault of a code, or None for a code that no file of blobs returns.
    pub fn of_code(code: u32) -> Option<Fault> {
        match code {
            1 => Some(Fault::Io),
            2 => Some(Fault::Damaged),
            4 => Some(Fault::Shut),
            5 => Some(Fault::TooLong),
            6 => Some(Fault::ReadOnly),
            _ => None,
        }
    }

    /// Returns the fault of an error of the file below, or None for `OutOfMemory`.
    pub fn of_file(error: FileError) -> Option<Fault> {
        match error {
            FileError::OutOfMemory => None,
            FileError::NotBlobs | FileError::Damaged | FileError::NoSuchBlob => Some(
                Fault::Damaged,
            ),
            FileError::Failed => Some(Fault::Io),
            FileError::Shut => Some(Fault::Shut),
            FileError::TooLong => Some(Fault::TooLong),
            FileError::ReadOnly => Some(Fault::ReadOnly),
        }
    }
}

impl fmt::Display for Fault {
    fn fmt<W: fmt::Write>(&self, f: &mut fmt::Formatter<W>) -> fmt::Result {
        f.write_str(match self {
            Fault::Io => "the disk failed",
            Fault::Damaged => "the file is damaged",
            Fault::Shut => "an earlier failure shut the file",
            Fault::TooLong => "the blob is too long",
            Fault::ReadOnly => "the file is open for looking alone",
        })
    }
}
