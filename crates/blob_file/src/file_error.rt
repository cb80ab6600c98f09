//! The causes for which a call of a file of blobs is refused.

ghost use Rattle.blob_file.specs.declared.file_error.FileError.TheVariants.{Failed, OutOfMemory};
ghost use Rattle.std.specs.Prelude.{◌≡◌};

use std::alloc::{AllocError, AllocFailed};
use std::{fmt, io};

/// The cause for which a call of a file of blobs is refused.
#[derive(Clone, Copy, Debug, PartialEq, Eq)]
pub enum FileError {
    /// Out of memory.
    OutOfMemory,
    /// The file has bytes, and they aren't those of a file of blobs.
    NotBlobs,
    /// The rows of a batch don't have the sum that the batch says, or say what can't be.
    Damaged,
    /// The disk failed.
    Failed,
    /// A flush failed, so the file has to be opened anew.
    Shut,
    /// The file would have 2^64 bytes or more, or a part of a blob or a name 2^32.
    TooLong,
    /// There is no blob for which the name could stand.
    NoSuchBlob,
    /// The file was opened for looking alone.
    ReadOnly,
}

impl From<io::Error> for FileError {
    ghost from_gives = { λ _ e. e ≡ Failed };

    fn from(_: io::Error) -> FileError {
        FileError::Failed
    }
}

impl From<AllocError> for FileError {
    ghost from_gives = { λ _ e. e ≡ OutOfMemory };

    fn from(_: AllocError) -> FileError {
        FileError::OutOfMemory
    }
}

impl<T: Drop> From<AllocFailed<T>> for FileError {
    ghost from_gives = { λ _ e. e ≡ OutOfMemory };

    fn from(_: AllocFailed<T>) -> FileError {
        FileError::OutOfMemory
    }
}

impl fmt::Display for FileError {
    fn fmt<W: fmt::Write>(&self, f: &mut fmt::Formatter<W>) -> fmt::Result {
        f.write_str(match self {
            FileError::OutOfMemory => "out of memory",
            FileError::NotBlobs => "the file is none of blobs",
            FileError::Damaged => "the file is damaged",
            FileError::Failed => "the disk failed",
            FileError::Shut => "an earlier failure shut the file",
            FileError::TooLong => "the file would be too long",
            FileError::NoSuchBlob => "no blob is stored under the key",
            FileError::ReadOnly => "the file is open for looking alone",
        })
    }
}

impl std::error::Error for FileError {}
