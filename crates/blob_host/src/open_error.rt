//! The causes for which a file isn't opened.
ghost use Rattle.blob_host.specs.declared.open_error.OpenError.TheVariants.{Failed};
ghost use Rattle.std.specs.Prelude.{◌≡◌};

use std::{fmt, io};

/// The cause for which a file isn't opened. No byte of a file has changed then.
#[derive(Clone, Copy, Debug)]
pub enum OpenError {
    /// Another handle has the file open for writing.
    InUse,
    /// The path names a folder, a pipe, a device or a socket.
    NotAFile,
    /// This process may not write the file, or make it in its folder.
    MayNotWrite,
    /// This process may not read the file.
    MayNotRead,
    /// Nothing has the path's name.
    Missing,
    /// The path's folder is missing, or is none.
    FolderMissing,
    /// The path's links lead round in a ring, or are more than the system follows.
    LinkLoop,
    /// The path named another file each time it was opened.
    Replaced,
    /// The system failed, with this error.
    Failed(io::Error),
}

impl From<io::Error> for OpenError {
    ghost from_gives = { λ error e. e ≡ Failed error };

    fn from(error: io::Error) -> OpenError {
        OpenError::Failed(error)
    }
}

impl fmt::Display for OpenError {
    fn fmt<W: fmt::Write>(&self, f: &mut fmt::Formatter<W>) -> fmt::Result {
        f.write_str(match self {
            OpenError::InUse => "the file is in use",
            OpenError::NotAFile => "the path names no regular file",
            OpenError::MayNotWrite => "the file may not be written",
            OpenError::MayNotRead => "the file may not be read",
            OpenError::Missing => "there is no such file",
            OpenError::FolderMissing => "there is no such folder",
            OpenError::LinkLoop => "the path's links don't come to an end",
            OpenError::Replaced => "the path names another file each time",
            OpenError::Failed(error) => return write!(f, "{error}"),
        })
    }
}

impl std::error::Error for OpenError {}
