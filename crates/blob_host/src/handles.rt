//! Handles of files by their paths, and the lock of a file's one writer.
ghost use Rattle.blob_host.specs.Refusing.{refusal_of};
ghost use Rattle.blob_host.specs.declared.open_error.OpenError.TheVariants.{Failed};
ghost use Rattle.std.specs.IoError.{error_kind};
ghost use Rattle.std.specs.Prelude.{◌≡◌};

use crate::facts::FileFacts;
use crate::open_error::OpenError;
use std::fs::{File, OpenOptions, TryLockError};
use std::os::fd::AsRawFd;
use std::{fs, io};

/// How often a file is opened whose path names another one by then.
const TRIES: usize = 16;

/// Returns the refusal that an error of the system stands for: `denied` without leave, `missing` for
/// a name that isn't there.
fn refusal(error: io::Error, denied: OpenError, missing: OpenError) -> OpenError
    ensures { result ≡ refusal_of denied missing (Failed error) (error_kind error) }
{
    match error.kind() {
        io::ErrorKind::PermissionDenied | io::ErrorKind::ReadOnlyFilesystem => denied,
        io::ErrorKind::NotFound => missing,
        io::ErrorKind::NotADirectory => OpenError::FolderMissing,
        io::ErrorKind::IsADirectory => OpenError::NotAFile,
        io::ErrorKind::FilesystemLoop => OpenError::LinkLoop,
        _ => OpenError::Failed(error),
    }
}

/// Tells of the file that a path names, or leads to by links, without opening it. None is that the
/// path names nothing.
///
/// # Errors
///
/// `NotAFile` for a folder, a pipe, a device or a socket; `MayNotRead`, `FolderMissing`, `LinkLoop` and
/// `Failed`.
pub fn facts_at(rt: &HostRuntime, path: &str) -> Result<Option<FileFacts>, OpenError> {
    match fs::metadata(rt, path) {
        Ok(found) => Ok(Some(FileFacts::of_file(&found)?)),
        Err(error) if error.kind() == io::ErrorKind::NotFound => Ok(None),
        Err(error) => Err(refusal(error, OpenError::MayNotRead, OpenError::Missing)),
    }
}

/// Opens a regular file by these options. Its number isn't that of a standard stream, since what is
/// printed to a stream that was closed must not land in the file.
fn open_file(
    rt: &HostRuntime,
    path: &str,
    how: &OpenOptions,
    denied: OpenError,
    missing: OpenError,
) -> Result<(File, FileFacts), OpenError> {
    let opened = how.open(rt, path);
    let file = opened.map_err(|error| refusal(error, denied, missing))?;
    let file = if file.as_raw_fd() > 2 {
        file
    } else {
        file.try_clone()?
    };
    let facts = FileFacts::of_file(&file.metadata()?)?;
    Ok((file, facts))
}

/// Opens a file that is there to read it.
///
/// # Errors
///
/// `Missing`, `NotAFile`, `MayNotRead`, `FolderMissing`, `LinkLoop` and `Failed`.
pub fn open_to_read(rt: &HostRuntime, path: &str) -> Result<(File, FileFacts), OpenError> {
    // (an open of a pipe would wait for its other end)
    if facts_at(rt, path)?.is_none() {
        return Err(OpenError::Missing);
    }
    let mut how = OpenOptions::new();
    how.read(true);
    open_file(rt, path, &how, OpenError::MayNotRead, OpenError::Missing)
}

/// Opens and locks a file, or makes it, unless the path names another file by then.
fn lock_once(rt: &HostRuntime, path: &str) -> Result<Option<(File, FileFacts)>, OpenError> {
    let is_missing = facts_at(rt, path)?.is_none();
    let mut how = OpenOptions::new();
    how.read(true).write(true).create(is_missing);
    let missing = if is_missing {
        OpenError::FolderMissing
    } else {
        OpenError::Missing
    };
    let (file, facts) = match open_file(rt, path, &how, OpenError::MayNotWrite, missing) {
        Ok(opened) => opened,
        // (it is gone by now)
        Err(OpenError::Missing) => return Ok(None),
        Err(error) => return Err(error),
    };
    match file.try_lock() {
        Ok(()) => {}
        Err(TryLockError::WouldBlock) => return Err(OpenError::InUse),
        Err(TryLockError::Error(error)) => return Err(OpenError::Failed(error)),
    }
    match facts_at(rt, path)? {
        Some(named) if named.is_same_file(&facts) => Ok(Some((file, facts))),
        _ => Ok(None),
    }
}

/// Opens and locks the file of a path, or makes it. Whoever has the lock has the file that the path
/// names: if another file has taken the name meanwhile, that one is opened.
///
/// # Errors
///
/// `InUse`, `NotAFile`, `MayNotWrite`, `MayNotRead`, `FolderMissing`, `LinkLoop`, `Replaced` and `Failed`.
pub fn open_locked(rt: &HostRuntime, path: &str) -> Result<(File, FileFacts), OpenError> {
    for _ in 0..TRIES {
        if let Some(found) = lock_once(rt, path)? {
            return Ok(found);
        }
    }
    Err(OpenError::Replaced)
}
