//! The causes for which a file of blobs isn't opened.

use blob_file::file_error::FileError;
use blob_host::OpenError as HostError;
use std::fmt;

/// The cause for which a file of blobs isn't opened.
#[derive(Clone, Copy, Debug, PartialEq, Eq)]
pub enum OpenError {
    /// Out of memory.
    OutOfMemory,
    /// Another handle has the file open for writing.
    InUse,
    /// The path names a folder, a pipe, a device or a socket.
    NotAFile,
    /// This process may not write the file, or make it in its folder.
    MayNotWrite,
    /// This process may not read the file.
    MayNotRead,
    /// Nothing has the path's name.
    Missing,
    /// The path's folder is missing, or is none.
    FolderMissing,
    /// The path's links lead round in a ring, or are more than the system follows.
    LinkLoop,
    /// The path named another file each time it was opened.
    Replaced,
    /// The file has bytes, and they aren't those of a file of blobs.
    NotBlobs,
    /// The file is damaged.
    Damaged,
    /// The disk failed.
    Io,
}

impl From<HostError> for OpenError {
    fn from(error: HostError) -> OpenError {
        match error {
            HostError::InUse => OpenError::InUse,
            HostError::NotAFile => OpenError::NotAFile,
            HostError::MayNotWrite => OpenError::MayNotWrite,
            HostError::MayNotRead => OpenError::MayNotRead,
            HostError::Missing => OpenError::Missing,
            HostError::FolderMissing => OpenError::FolderMissing,
            HostError::LinkLoop => OpenError::LinkLoop,
            HostError::Replaced => OpenError::Replaced,
            HostError::Failed(_) => OpenError::Io,
        }
    }
}

impl From<FileError> for OpenError {
    fn from(error: FileError) -> OpenError {
        match error {
            FileError::OutOfMemory => OpenError::OutOfMemory,
            FileError::NotBlobs => OpenError::NotBlobs,
            FileError::Damaged => OpenError::Damaged,
            FileError::Failed
            | FileError::NoSuchBlob
            | FileError::ReadOnly
            | FileError::Shut
            | FileError::TooLong => OpenError::Io,
        }
    }
}

impl fmt::Display for OpenError {
    fn fmt<W: fmt::Write>(&self, f: &mut fmt::Formatter<W>) -> fmt::Result {
        f.write_str(match self {
            OpenError::OutOfMemory => "out of memory",
            OpenError::InUse => "the file is in use",
            OpenError::NotAFile => "the path names no regular file",
            OpenError::MayNotWrite => "the file may not be written",
            OpenError::MayNotRead => "the file may not be read",
            OpenError::Missing => "there is no such file",
            OpenError::FolderMissing => "there is no such folder",
            OpenError::LinkLoop => "the path's links don't come to an end",
            OpenError::Replaced => "the path names another file each time",
            OpenError::NotBlobs => "the file is none of blobs",
            OpenError::Damaged => "the file is damaged",
            OpenError::Io => "the disk failed",
        })
    }
}

impl std::error::Error for OpenError {}
