//! Drops what no root of a file reaches: a copy beside the file takes its place.
//!
//! Both files stay open, and so locked, until the new one has FILE's name on the disk. So nobody adds
//! to a file that was copied already, and wherever this is cut off, FILE is the old file or the new
//! one, whole.

ghost use Rattle.blobctl.specs.Kept.{Keeps};
ghost use Rattle.std.specs.Prelude.{IsTrue, OnOk};

use crate::blobs::{Blobs, BlobsInFile};
use crate::copy::copy_roots;
use crate::keep::{KeptVersion, copy_versions, list_kept};
use crate::new_file::{make_file, remove, sync_folder};
use crate::progress::ProgressPrinter;
use crate::refusal::Refusal;
use blob_host::{FileFacts, facts_at};
use pagable_file::OpenError;
use pagable_flavors::Error;
use std::fs::{File, Permissions};
use std::os::unix::fs::{PermissionsExt, fchown};
use std::path::PathBuf;
use std::{fs, io};

/// Passes over a refusal for lack of rights.
fn unless_denied(outcome: io::Result<()>) -> io::Result<()> {
    match outcome {
        Err(error) if error.kind() == io::ErrorKind::PermissionDenied => Ok(()),
        other => other,
    }
}

/// Gives the file of a path the mode of another one, and its owner and group where this process may
/// set them, and syncs it.
fn give_access(rt: &HostRuntime, path: &str, like: &FileFacts) -> io::Result<()> {
    let file = File::open(rt, path)?;
    unless_denied(fchown(&file, None, Some(like.group)))?;
    unless_denied(fchown(&file, Some(like.owner), None))?;
    file.set_permissions(Permissions::from_mode(like.mode & 0o777))?;
    file.sync_all()
}

/// Tells of the file of a path. Fails if it has other names too, which would go on to name the old
/// file.
fn find_facts(rt: &HostRuntime, path: &str) -> Result<FileFacts, Refusal> {
    match facts_at(rt, path).map_err(OpenError::from)? {
        Some(facts) if facts.links == 1 => Ok(facts),
        Some(facts) => Err(Refusal::HasOtherNames(facts.links)),
        None => Err(Refusal::File(OpenError::Missing)),
    }
}

/// Copies into an empty file what the roots and these versions reach, and makes the names stand for
/// them. Returns how many blobs these are.
fn copy_kept<B: Blobs>(
    rt: &HostRuntime,
    from: &mut B,
    to: &mut B,
    versions: &[KeptVersion],
) -> Result<usize, Error>
    ensures kept { IsTrue (B.view from.new).is_honest → IsTrue (B.view to.new).is_honest
        → OnOk result (Keeps (B.view from.old) (B.view to.new) versions.now) }
{
    let mut progress = ProgressPrinter::new(rt);
    copy_versions(rt.alloc(), from, to, versions, &mut progress)?;
    let names = from.root_names(rt.alloc())?;
    copy_roots(rt, from, to, names.as_slice())?;
    Ok(to.list(rt.alloc())?.len())
}

/// Fills the empty file at `new` with what is kept, and gives it the access and the name of the file at
/// `path`, which is open and of which these are the facts. Returns how many blobs are kept.
fn fill_and_replace<B: BlobsInFile>(
    rt: &HostRuntime,
    blobs: &mut B,
    path: &str,
    facts: &FileFacts,
    new: &str,
    keep: u64,
) -> Result<usize, Refusal> {
    // (it stays locked until the end)
    let mut to = B::open(rt, new)?;
    let versions = list_kept(rt.alloc(), blobs, keep)?;
    let count = copy_kept(rt, blobs, &mut to, versions.as_slice())?;
    give_access(rt, new, facts)?;
    fs::rename(rt, new, path)?;
    sync_folder(rt, path)?;
    Ok(count)
}

/// Returns the path of a file without links.
///
/// # Errors
///
/// - `File` if nothing has the path, `System` if it can't be followed.
pub fn real_path(rt: &HostRuntime, path: &str) -> Result<PathBuf, Refusal> {
    if !fs::exists(rt, path)? {
        return Err(Refusal::File(OpenError::Missing));
    }
    Ok(fs::canonicalize(rt, path)?)
}

/// Makes the empty file that is to take the place of FILE. Fails with `LeftOver` if something has its name:
/// a `gc` at work would have FILE locked, so one that was killed has left it, or it is another file.
fn make_new(rt: &HostRuntime, path: &str) -> Result<(), Refusal> {
    match make_file(rt, path, 0o600) {
        Err(Refusal::Taken(path)) => Err(Refusal::LeftOver(path)),
        other => other,
    }
}

/// Drops all blobs that none of so many last versions of a root of the file at a path reaches, and says
/// how many are kept. The path has no link in it, and `blobs` is that file, open to be written.
///
/// # Errors
///
/// - `LeftOver` if something has the name FILE.new.
/// - `HasOtherNames` if FILE has several names.
/// - `Blobs` if a call on either file fails, `File` if the new one can't be opened, `System` if it
///   can't be made, given FILE's access or moved: the file has what it had, and FILE.new is gone, or
///   the new one has its place.
/// - `Blobs` with `OutOfMemory` also if the answer can't get memory: the file is replaced then.
pub fn collect_garbage<B: BlobsInFile>(
    rt: &HostRuntime,
    path: &PathBuf,
    blobs: &mut B,
    keep: u64,
) -> Result<String, Refusal> {
    let path = path.as_str();
    let facts = find_facts(rt, path)?;
    let new = format!(in rt.alloc(); "{path}.new")?;
    make_new(rt, new.as_str())?;
    match fill_and_replace(rt, blobs, path, &facts, new.as_str(), keep) {
        Ok(count) => Ok(format!(in rt.alloc(); "{count} blobs kept\n")?),
        Err(refusal) => {
            let _removed = remove(rt, new.as_str());
            Err(refusal)
        }
    }
}
