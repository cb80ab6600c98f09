//! The open of a file: for its one writer, under a lock, or for looking alone.
ghost use Rattle.blob_host.specs.Opening.{Holds, Shows};
ghost use Rattle.std.specs.Prelude.{IfOk, IsTrue};

use crate::facts::FileFacts;
use crate::handles::{open_locked, open_to_read};
use crate::host_file::HostFile;
use crate::open_error::OpenError;
use sqlite_disk::{Disk, Modelled, Start};
use std::fs::{self, File};
use std::io;

/// A file of the operating system as a disk, which held what `S` says as its database file.
pub type HostDisk<S> = Modelled<HostFile, S>;

/// A file that is open, with what the system told of it then.
#[derive(Drop)]
pub struct OpenFile<S: Start> {
    /// The file. If it is locked, it is so as long as this lives.
    pub disk: HostDisk<S>,
    pub facts: FileFacts,
}

/// Syncs a file and its folder.
fn settle(rt: &HostRuntime, path: &str, file: &File) -> io::Result<()> {
    file.sync_all()?;
    let mut folder = fs::canonicalize(rt, path)?;
    folder.pop();
    File::open(rt, folder.as_str())?.sync_all()
}

/// Makes a disk of an open file.
fn disk_of<S: Start>(file: File, facts: FileFacts) -> OpenFile<S>
    ensures usable { IsTrue (⟦<Modelled<HostFile, S> as Disk>⟧.is_usable result.disk) }
    ensures holds { Holds ⟦<Modelled<HostFile, S> as Disk>⟧ S.Start.db result.disk }
{
    OpenFile {
        disk: Modelled::new(HostFile::new(file), false, 0),
        facts,
    }
}

/// Opens the file of a path for its one writer, or makes it, with the mode that the process gives new
/// files. The file is locked until the disk is dropped: no other `open` gets it, in this process or
/// another one. What it holds is on the disk. `S` stands for that, and its value is used up, so that
/// code over any `S` opens one file.
///
/// # Errors
///
/// No file that was there has a byte changed.
///
/// - `InUse`: another handle has the lock.
/// - `NotAFile`: the path names a folder, a pipe, a device or a socket.
/// - `MayNotWrite` or `MayNotRead`: this process has no leave to open or to make the file.
/// - `FolderMissing`: the path's folder is missing, or is none.
/// - `LinkLoop`: the path's links lead round in a ring.
/// - `Replaced`: the path named another file each time that one was locked.
/// - `Failed`: with the error of the system. The file may be there then, empty, if it was missing.
pub fn open<S: Start>(rt: &HostRuntime, path: &str, _start: S) -> Result<OpenFile<S>, OpenError>
    ensures usable { IfOk result (λ it. IsTrue (⟦<Modelled<HostFile, S> as Disk>⟧.is_usable it.disk)) }
    ensures holds { IfOk result (λ it. Holds ⟦<Modelled<HostFile, S> as Disk>⟧ S.Start.db it.disk) }
{
    let (file, facts) = open_locked(rt, path)?;
    settle(rt, path, &file)?;
    Ok(disk_of(file, facts))
}

/// Opens the file of a path for looking alone. It takes no lock, writes nothing and makes nothing, and
/// the system refuses each write to the disk. The file may be one that may only be read, have several
/// names, and be written meanwhile.
///
/// # Errors
///
/// - `Missing`: the path names nothing.
/// - `NotAFile`: it names a folder, a pipe, a device or a socket.
/// - `MayNotRead`: this process has no leave to read the file.
/// - `FolderMissing`: the path's folder is none.
/// - `LinkLoop`: the path's links lead round in a ring.
/// - `Failed`: with the error of the system.
pub fn read_only<S: Start>(
    rt: &HostRuntime,
    path: &str,
    _start: S,
) -> Result<OpenFile<S>, OpenError>
    ensures usable { IfOk result (λ it. IsTrue (⟦<Modelled<HostFile, S> as Disk>⟧.is_usable it.disk)) }
    ensures shows { IfOk result (λ it. Shows ⟦<Modelled<HostFile, S> as Disk>⟧ S.Start.db it.disk) }
{
    let (file, facts) = open_to_read(rt, path)?;
    Ok(disk_of(file, facts))
}
