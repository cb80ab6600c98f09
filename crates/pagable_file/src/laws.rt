//! What holds across a crash and across an open, as contracts of functions that go through one.

ghost use Rattle.blob_file.specs.{Appending.MayWrite, File.{Same, content, flushed}};
ghost use Rattle.pagable_core.specs.Data.{blob_of};
ghost use Rattle.pagable_file.specs.Laws.{found_blob, named_blob};
ghost use Rattle.pagable_file.specs.Settled.{is_honest_file};
ghost use Rattle.pagable_value_spec.specs.Blob.{key_of};
ghost use Rattle.sqlite_wal.specs.Reads.{IsClean};
ghost use Rattle.std.specs.Prelude.{IfOk, IfSome, IsTrue, OnOk, Some, false, ◌↔◌, ◌≡◌};

use crate::file_blobs::FileBlobs;
use blob_file::file_error::FileError;
use pagable_codec::Env;
use pagable_core::{PagableData, PagableStorage, Roots};
use pagable_flavors::{DataKey, Error};
use sqlite_disk::{Crash, Disk, Memory};
use std::alloc::Global;
use std::sync::Arc;

/// Lets the machine crash between two calls, and opens the file anew: it has the blobs and names of
/// the last flush.
pub fn crash_and_open<E: Env, D: Crash + Drop>(
    alloc: Global,
    blobs: FileBlobs<E, D>,
) -> Result<FileBlobs<E, D>, (FileError, D)>
    requires whole { MayWrite blobs.file.log }
    ensures found { IfOk result (λ again. IsClean D.Disk again.file.log.disk
        → Same (flushed D.Disk blobs.file) (content D.Disk again.file)) }
    ensures was_clean { IfOk result (λ again. IsClean D.Disk again.file.log.disk → IsClean D.Disk blobs.file.log.disk) }
    ensures usable { IfOk result (λ again. again.closed ≡ false) }
{
    let mut disk = blobs.file.log.disk;
    disk.crash();
    FileBlobs::over(alloc, disk)
}

/// Closes a file, which drops what waits for a flush, and opens it anew: it has the blobs and names of
/// the last flush. Returns None if an earlier failure shut the file, or it isn't opened.
fn reopen<E: Env, D: Disk + Drop>(alloc: Global, blobs: FileBlobs<E, D>) -> Option<FileBlobs<E, D>>
    ensures found { IfSome result (λ again. IsClean D.Disk again.file.log.disk
        → Same (flushed D.Disk blobs.file) (content D.Disk again.file)) }
    ensures was_honest { IfSome result (λ again. IsClean D.Disk again.file.log.disk
        → IsTrue (is_honest_file D.Disk blobs.file)) }
    ensures usable { IfSome result (λ again. again.closed ≡ false) }
{
    if !blobs.file.log.is_whole {
        return None;
    }
    match FileBlobs::over(alloc, blobs.into_disk()) {
        Ok(again) => Some(again),
        Err(_) => None,
    }
}

/// Stores a blob, lets a name stand for its key, and flushes. Fails as these calls do.
fn store_named<E: Env, S: Roots<E>>(
    alloc: Global,
    storage: &mut S,
    name: &str,
    blob: PagableData,
) -> Result<DataKey, Error>
    ensures key { IfOk result (λ key. key ≡ key_of E.Hash.digest (blob_of blob)) }
    ensures stands { IsTrue (S.PagableStorage.is_honest storage.new)
        → IfOk result (λ key. S.PagableStorage.roots storage.new name.now ≡ Some key) }
    ensures stored { IsTrue (S.PagableStorage.is_honest storage.new)
        → IfOk result (λ key. S.PagableStorage.stored storage.new key ≡ Some (blob_of blob)) }
    ensures durable_name { IsTrue (S.PagableStorage.is_honest storage.new)
        → OnOk result (S.PagableStorage.roots_flushed storage.new ≡ S.PagableStorage.roots storage.new) }
    ensures durable_blob { IsTrue (S.PagableStorage.is_honest storage.new)
        → OnOk result (S.PagableStorage.flushed storage.new ≡ S.PagableStorage.stored storage.new) }
    ensures usable { OnOk result (S.PagableStorage.is_closed storage.new ≡ false) }
{
    let key = storage.store_data(alloc, blob)?;
    storage.set_root(alloc, name, Some(key))?;
    storage.flush()?;
    Ok(key)
}

/// Looks a name up: returns the key that it stands for, and the blob under the key. Returns None if
/// the name stands for no key, or no blob is stored under its key. Fails with `OutOfMemory` and
/// `Storage`.
fn find_named<E: Env, S: Roots<E>>(
    alloc: Global,
    storage: &mut S,
    name: &str,
) -> Result<Option<(DataKey, Arc<PagableData>)>, Error>
    ensures found { IsTrue (S.PagableStorage.is_honest storage.new)
        → IfOk result (λ found. found_blob found
        ≡ named_blob (S.PagableStorage.roots storage.old name.now) (S.PagableStorage.stored storage.old)) }
    ensures honest { IsTrue (S.PagableStorage.is_honest storage.new)
        → IsTrue (S.PagableStorage.is_honest storage.old) }
{
    let Some(key) = storage.root(name)? else {
        return Ok(None);
    };
    match storage.fetch_data_blocking(alloc, key) {
        Ok(blob) => Ok(Some((key, blob))),
        Err(Error::NoData(_)) => Ok(None),
        Err(error) => Err(error),
    }
}

/// Stores a blob under a name, flushes, closes the file, opens it again, and looks the name up. If the
/// storage is honest at the end, the name stands for the key of the blob, and the blob under the key
/// is the one that was stored. Returns None if a call fails.
pub fn named_again<E: Env, D: Disk + Drop>(
    alloc: Global,
    mut blobs: FileBlobs<E, D>,
    name: &str,
    blob: PagableData,
) -> Option<(FileBlobs<E, D>, Option<(DataKey, Arc<PagableData>)>)>
    ensures { IfSome result (λ r. IsTrue (is_honest_file D.Disk r.0.file)
        → found_blob r.1 ≡ Some (key_of E.Hash.digest (blob_of blob), blob_of blob)) }
{
    match store_named::<E, FileBlobs<E, D>>(alloc, &mut blobs, name, blob) {
        Ok(_) => {}
        Err(_) => return None,
    }
    let mut again = reopen(alloc, blobs)?;
    match find_named::<E, FileBlobs<E, D>>(alloc, &mut again, name) {
        Ok(found) => Some((again, found)),
        Err(_) => None,
    }
}

/// Stores a blob under a name, flushes, lets the machine crash, opens the file anew, and looks the
/// name up. If the storage is honest at the end, the name stands for the key of the blob, and the
/// blob under the key is the one that was stored. Returns None if a call fails.
pub fn named_after_crash<E: Env, D: Crash + Drop>(
    alloc: Global,
    mut blobs: FileBlobs<E, D>,
    name: &str,
    blob: PagableData,
) -> Option<(FileBlobs<E, D>, Option<(DataKey, Arc<PagableData>)>)>
    ensures { IfSome result (λ r. IsTrue (is_honest_file D.Disk r.0.file)
        → found_blob r.1 ≡ Some (key_of E.Hash.digest (blob_of blob), blob_of blob)) }
{
    match store_named::<E, FileBlobs<E, D>>(alloc, &mut blobs, name, blob) {
        Ok(_) => {}
        Err(_) => return None,
    }
    if !blobs.file.log.is_whole {
        return None;
    }
    if !blobs.file.log.may_write {
        return None;
    }
    match crash_and_open(alloc, blobs) {
        Ok(mut again) => match find_named::<E, FileBlobs<E, D>>(alloc, &mut again, name) {
            Ok(found) => Some((again, found)),
            Err(_) => None,
        },
        Err(_) => None,
    }
}

/// Returns whether a storage in memory is honest. It always is, unless memory ran out in a flush, which
/// shut it.
pub fn memory_is_honest<E: Env>(blobs: &FileBlobs<E, Memory>) -> bool
    ensures { IsTrue result ↔ IsTrue (⟦<FileBlobs<E, Memory> as PagableStorage<E>>⟧.is_honest blobs.now) }
{
    blobs.file.log.is_whole
}

/// Stores a blob under a name in memory, flushes, closes the file, opens it again, and looks the name
/// up: it stands for the key of the blob, and the blob under the key is the one that was stored,
/// whatever was called before. Returns None if a call fails.
pub fn named_in_memory<E: Env>(
    alloc: Global,
    blobs: FileBlobs<E, Memory>,
    name: &str,
    blob: PagableData,
) -> Option<(FileBlobs<E, Memory>, Option<(DataKey, Arc<PagableData>)>)>
    ensures { IfSome result (λ r. found_blob r.1 ≡ Some (key_of E.Hash.digest (blob_of blob), blob_of blob)) }
{
    let (again, found) = named_again::<E, Memory>(alloc, blobs, name, blob)?;
    if memory_is_honest(&again) {
        Some((again, found))
    } else {
        None
    }
}
