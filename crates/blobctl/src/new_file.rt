//! Files that a command makes anew, and what has to be on the disk for them.

use crate::refusal::Refusal;
use blob_host::facts_at;
use pagable_file::OpenError;
use std::fs::{File, OpenOptions};
use std::os::unix::fs::OpenOptionsExt;
use std::path::PathBuf;
use std::time::{SystemTime, UNIX_EPOCH};
use std::{fs, io};

/// Makes an empty file at a path, with this mode but for what the process masks.
///
/// # Errors
///
/// - `Taken` if something has the path.
/// - `System` if the file can't be made.
pub fn make_file(rt: &HostRuntime, path: &str, mode: u32) -> Result<(), Refusal> {
    let mut options = OpenOptions::new();
    options.write(true).create_new(true).mode(mode);
    match options.open(rt, path) {
        Ok(_made) => Ok(()),
        Err(error) if error.kind() == io::ErrorKind::AlreadyExists => {
            Err(Refusal::Taken(String::from_str(rt.alloc(), path)?))
        }
        Err(error) => Err(Refusal::System(error)),
    }
}

/// Removes a file, if it is there.
///
/// # Errors
///
/// - an error of the system: the file may be there.
pub fn remove(rt: &HostRuntime, path: &str) -> io::Result<()> {
    match fs::remove_file(rt, path) {
        Err(error) if error.kind() == io::ErrorKind::NotFound => Ok(()),
        other => other,
    }
}

/// Has the names in the folder of a path on the disk. The path has no link in it.
///
/// # Errors
///
/// - an error of the system.
pub fn sync_folder(rt: &HostRuntime, path: &str) -> io::Result<()> {
    let mut folder = PathBuf::from_str(rt.alloc(), path)?;
    folder.pop();
    File::open(rt, folder.as_str())?.sync_all()
}

/// Returns the time in nanoseconds from 1970 on, or 0 if the clock stands before that.
///
/// # Errors
///
/// - an error of the system.
pub fn nanoseconds_now(rt: &HostRuntime) -> io::Result<u64> {
    match SystemTime::now(rt)?.duration_since(UNIX_EPOCH) {
        Ok(since) => Ok(u64::try_from(since.as_nanos()).unwrap_or(u64::MAX)),
        Err(_) => Ok(0),
    }
}

/// Writes bytes to the file of a path, or to the one to which a link there leads. A reader sees the old
/// file or the whole new one. A pipe or a device gets the bytes itself.
///
/// # Errors
///
/// - `Taken` if something has the name of the new file that is written first.
/// - `OtherFile` if a folder of the path isn't there or may not be searched, or links lead round.
/// - `Other` if the bytes can't be written: what was there stays, but what a pipe or a device got.
pub fn write_file(rt: &HostRuntime, path: &str, bytes: &[u8]) -> Result<(), Refusal> {
    match write_over(rt, path, bytes) {
        Err(Refusal::System(error)) => {
            Err(Refusal::Other(String::from_str(rt.alloc(), path)?, error))
        }
        other => other,
    }
}

/// Writes bytes to the file of a path, as what is there asks for.
fn write_over(rt: &HostRuntime, path: &str, bytes: &[u8]) -> Result<(), Refusal> {
    match facts_at(rt, path).map_err(OpenError::from) {
        Ok(None) => replace_file(rt, path, bytes),
        Ok(Some(_)) => replace_file(rt, fs::canonicalize(rt, path)?.as_str(), bytes),
        Err(OpenError::NotAFile) => Ok(fs::write(rt, path, bytes)?),
        Err(error) => Err(Refusal::OtherFile(String::from_str(rt.alloc(), path)?, error)),
    }
}

/// Writes bytes to a file beside a path, called by the time, which then gets the path's name.
fn replace_file(rt: &HostRuntime, path: &str, bytes: &[u8]) -> Result<(), Refusal> {
    let time = nanoseconds_now(rt)?;
    let new = format!(in rt.alloc(); "{path}.{time}.new")?;
    make_file(rt, new.as_str(), 0o666)?;
    match fill_and_move(rt, new.as_str(), path, bytes) {
        Ok(()) => Ok(()),
        Err(error) => {
            let _removed = remove(rt, new.as_str());
            Err(Refusal::System(error))
        }
    }
}

/// Writes bytes to a file that is there, and gives it another name.
fn fill_and_move(rt: &HostRuntime, new: &str, path: &str, bytes: &[u8]) -> io::Result<()> {
    fs::write(rt, new, bytes)?;
    fs::rename(rt, new, path)
}
