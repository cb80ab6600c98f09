//! What the system tells of a file.
ghost use Rattle.std.specs.Fs.{IsFile, file_type};
ghost use Rattle.std.specs.Prelude.{IsOk, IsTrue, ◌↔◌, ◌≡◌};

use crate::open_error::OpenError;
use std::fs::Metadata;
use std::os::unix::fs::MetadataExt;

/// What the system tells of a file.
#[derive(Clone, Copy, Debug, PartialEq, Eq)]
pub struct FileFacts {
    /// The device that the file lies on.
    pub device: u64,
    /// The file's number on its device.
    pub inode: u64,
    /// The permissions, as the low 12 bits of C's `st_mode`.
    pub mode: u32,
    /// The user who owns the file, by number.
    pub owner: u32,
    /// The group of the file, by number.
    pub group: u32,
    /// How many names the file has.
    pub links: u64,
}

impl FileFacts {
    /// Takes what the system tells, if it is of a regular file.
    pub(crate) fn of_file(found: &Metadata) -> Result<FileFacts, OpenError>
        ensures { IsOk result ↔ IsFile (file_type found.now) }
    {
        if !found.is_file() {
            return Err(OpenError::NotAFile);
        }
        Ok(FileFacts {
            device: found.dev(),
            inode: found.ino(),
            mode: found.mode() & 0o7777,
            owner: found.uid(),
            group: found.gid(),
            links: found.nlink(),
        })
    }

    /// Tells whether both are facts of one file, by device and inode.
    pub fn is_same_file(&self, other: &FileFacts) -> bool
        ensures { IsTrue result ↔ ((self.now.device ≡ other.now.device) × (self.now.inode ≡ other.now.inode)) }
    {
        self.device == other.device && self.inode == other.inode
    }
}
