ghost use Rattle.blob_file.specs.File.{IsSettled};
ghost use Rattle.std.specs.Prelude.{IfOk, IsTrue};

use crate::laws::flush_crash_and_open;
use crate::log::Log;
use crate::{BlobFile, Counts, FileError, FoundBlob, ListedBlob};
use sqlite_disk::{Disk, Fuse, Memory};
use std::alloc::Global;
use std::test::Fail;

/// A file without a batch.
const NEW: &[u8] = b"pagable blobs 2\n\0";

/// A file with one batch of one blob, "body" under the key 7.
const ONE: &[u8] = b"pagable blobs 2\n\x01\x04\0\0\0\0\0\0\0\x18\0\0\0\0\0\0\0\x0dT\x08\x17+M7\xb8\
    body\x07\0\0\0\0\0\0\0\0\0\0\0\0\0\0\0\0\0\0\0\x04\0\0\0\0";

/// The same, but that the row tells of five bytes, with its right sum.
const ODD: &[u8] =
    b"pagable blobs 2\n\x01\x04\0\0\0\0\0\0\0\x18\0\0\0\0\0\0\0\xc6B\x08\xa1\x90\x5cj5\
    body\x07\0\0\0\0\0\0\0\0\0\0\0\0\0\0\0\0\0\0\0\x05\0\0\0\0";

/// A file with one batch of this blob, and of the name "main", which stands for its key.
const NAMED: &[u8] = b"pagable blobs 2\n\x01\x04\0\0\0\0\0\0\x004\0\0\0\0\0\0\0=%\xd9\xc5\xd2I6\xff\
    body\x07\0\0\0\0\0\0\0\0\0\0\0\0\0\0\0\0\0\0\0\x04\0\0\0\
    \x07\0\0\0\0\0\0\0\0\0\0\0\0\0\0\0\xff\xff\xff\xff\x04\0\0\0main\0";

/// A batch that takes the name away, and the gate behind it.
const TAKEN: &[u8] = b"\x01\0\0\0\0\0\0\0\0\x1c\0\0\0\0\0\0\0\xbf'U\xa5\x11\xa3\x9e;\
    \0\0\0\0\0\0\0\0\0\0\0\0\0\0\0\0\xff\xff\xff\xff\x04\0\0\0main\0";

/// The file with the name, but that the name isn't UTF-8, with its right sum.
const NOT_TEXT: &[u8] =
    b"pagable blobs 2\n\x01\x04\0\0\0\0\0\0\x004\0\0\0\0\0\0\0t\xf0}\xe7\xb2.\x99v\
    body\x07\0\0\0\0\0\0\0\0\0\0\0\0\0\0\0\0\0\0\0\x04\0\0\0\
    \x07\0\0\0\0\0\0\0\0\0\0\0\0\0\0\0\xff\xff\xff\xff\x04\0\0\0ma\xffn\0";

/// The file with the name, but that its row tells of five bytes of a name, with its right sum.
const CUT_NAME: &[u8] =
    b"pagable blobs 2\n\x01\x04\0\0\0\0\0\0\x004\0\0\0\0\0\0\0\xea\xf3\xba\xc1\xbe\x99v\xf7\
    body\x07\0\0\0\0\0\0\0\0\0\0\0\0\0\0\0\0\0\0\0\x04\0\0\0\
    \x07\0\0\0\0\0\0\0\0\0\0\0\0\0\0\0\xff\xff\xff\xff\x05\0\0\0main\0";

/// Whether this is the blob "body", without child keys.
fn is_body(found: &Option<FoundBlob>) -> bool {
    match found {
        Some(blob) => blob.children == 0 && blob.body.as_slice() == b"body".as_slice(),
        None => false,
    }
}

/// What an open of a file of these bytes leaves of them, with the gate or the error.
fn open_bytes(alloc: Global, bytes: &[u8]) -> Result<(Vec<u8>, Result<usize, FileError>), Fail> {
    let mut file = Memory::new(alloc);
    file.write_at(0, bytes)?;
    match Log::open(alloc, file) {
        Ok((log, _index)) => Ok((log.disk.bytes().to_vec(alloc)?, Ok(log.gate))),
        Err((error, file)) => Ok((file.bytes().to_vec(alloc)?, Err(error))),
    }
}

#[test]
fn a_file_is_made_of_one_that_was_never_made(rt: HostRuntime) -> Result<(), Fail> {
    let alloc = rt.alloc();
    for bytes in [
        b"".as_slice(),
        b"\0\0\0",
        b"pagable\0blobs\0",
        b"\0\0\0\0\0\0\0\0\0\0\0\0\0\0\0\0\0",
    ] {
        let (left, gate) = open_bytes(alloc, bytes)?;
        assert_eq!(rt; left.as_slice(), NEW);
        assert!(rt; gate == Ok(16));
    }
    Ok(())
}

#[test]
fn another_file_is_left_as_it_is(rt: HostRuntime) -> Result<(), Fail> {
    let alloc = rt.alloc();
    for bytes in [
        b"hello".as_slice(),
        b"pagable blobs 1\n\0",
        b"SQLite format 3\0 and more",
    ] {
        let (left, gate) = open_bytes(alloc, bytes)?;
        assert_eq!(rt; left.as_slice(), bytes);
        assert!(rt; gate == Err(FileError::NotBlobs));
    }
    Ok(())
}

#[test]
fn a_file_that_rests_is_opened(rt: HostRuntime) -> Result<(), Fail> {
    let alloc = rt.alloc();
    let (left, gate) = open_bytes(alloc, ONE)?;
    assert_eq!(rt; left.as_slice(), ONE);
    assert!(rt; gate == Ok(69));
    Ok(())
}

#[test]
fn a_file_without_its_gate_gets_one(rt: HostRuntime) -> Result<(), Fail> {
    let alloc = rt.alloc();
    let (left, gate) = open_bytes(alloc, &ONE[..69])?;
    assert_eq!(rt; left.as_slice(), ONE);
    assert!(rt; gate == Ok(69));
    Ok(())
}

#[test]
fn a_batch_that_was_cut_is_the_end(rt: HostRuntime) -> Result<(), Fail> {
    let alloc = rt.alloc();
    let (left, gate) = open_bytes(alloc, &ONE[..68])?;
    assert!(rt; left.starts_with(NEW));
    assert_eq!(rt; left.len(), 68);
    assert!(rt; gate == Ok(16));
    Ok(())
}

#[test]
fn damaged_rows_are_refused(rt: HostRuntime) -> Result<(), Fail> {
    let alloc = rt.alloc();
    let mut bytes = ONE.to_vec(alloc)?;
    bytes[45] = 8;
    let (left, gate) = open_bytes(alloc, &bytes)?;
    assert_eq!(rt; left.as_slice(), bytes.as_slice());
    assert!(rt; gate == Err(FileError::Damaged));
    Ok(())
}

#[test]
fn rows_that_tell_of_other_bodies_are_refused(rt: HostRuntime) -> Result<(), Fail> {
    let alloc = rt.alloc();
    let (left, gate) = open_bytes(alloc, ODD)?;
    assert_eq!(rt; left.as_slice(), ODD);
    assert!(rt; gate == Err(FileError::Damaged));
    Ok(())
}

/// A file over this disk.
fn open_file<D: Disk + Drop>(alloc: Global, disk: D) -> Result<BlobFile<D>, Fail>
    requires { IsTrue (D.is_usable disk) }
    ensures { IfOk result (λ it. IsSettled D.Disk it × IsTrue it.log.is_whole) }
{
    match BlobFile::open(alloc, disk) {
        Ok(file) => Ok(file),
        Err((error, _)) => Err(error.into()),
    }
}

/// Whether the listed names are these.
fn are_names(names: &[String], wanted: &[&str]) -> bool {
    names.len() == wanted.len()
        && names
            .iter()
            .zip(wanted.iter())
            .all(|(name, it)| name.as_str() == *it)
}

/// Whether a flush of a blob and a name over a disk that stops after so many calls, and a crash,
/// leave both or none; None if the disk stops before the file is open.
fn leaves_both_or_none(alloc: Global, calls: u64) -> Result<Option<bool>, Fail> {
    let Ok(mut file) = BlobFile::open(alloc, Fuse::new(Memory::new(alloc), calls)) else {
        return Ok(None);
    };
    file.add(7, 0, b"body")?;
    file.set_root(alloc, "main", Some(7))?;
    let (acknowledged, again) = flush_crash_and_open(alloc, file);
    let again = match again {
        Ok(again) => again,
        Err((error, _)) => return Err(error.into()),
    };
    let found = again.log.disk.inner().bytes();
    Ok(Some(match again.root("main") {
        Some(key) => key == 7 && found == NAMED && again.find(7).is_some(),
        None => !acknowledged && found.starts_with(NEW) && again.find(7).is_none(),
    }))
}

#[test]
fn each_call_may_be_the_last(rt: HostRuntime) -> Result<(), Fail> {
    let alloc = rt.alloc();
    let mut opened = 0u64;
    for calls in 0..24u64 {
        if let Some(right) = leaves_both_or_none(alloc, calls)? {
            assert!(rt; right);
            opened = opened.saturating_add(1);
        }
    }
    assert!(rt; opened > 6);
    Ok(())
}

#[test]
fn a_name_is_held_flushed_and_taken_away(rt: HostRuntime) -> Result<(), Fail> {
    let alloc = rt.alloc();
    let mut file = open_file(alloc, Memory::new(alloc))?;
    assert!(rt; file.set_root(alloc, "main", Some(7)) == Err(FileError::NoSuchBlob));
    file.add(7, 0, b"body")?;
    file.set_root(alloc, "main", Some(7))?;
    assert!(rt; file.root("main") == Some(7));
    assert_eq!(rt; file.log.disk.bytes(), NEW);
    file.flush(alloc)?;
    assert_eq!(rt; file.log.disk.bytes(), NAMED);
    file.set_root(alloc, "main", None)?;
    assert!(rt; file.root("main").is_none());
    let disk = match file.close(alloc) {
        Ok(disk) => disk,
        Err((error, _)) => return Err(error.into()),
    };
    let mut all = NAMED[..97].to_vec(alloc)?;
    all.extend_from_slice(TAKEN)?;
    assert_eq!(rt; disk.bytes(), all.as_slice());
    let again = open_file(alloc, disk)?;
    assert!(rt; again.root("main").is_none());
    assert!(rt; again.find(7).is_some());
    Ok(())
}

#[test]
fn names_are_found_again_and_listed(rt: HostRuntime) -> Result<(), Fail> {
    let alloc = rt.alloc();
    let mut disk = Memory::new(alloc);
    disk.write_at(0, NAMED)?;
    let mut file = open_file(alloc, disk)?;
    assert!(rt; file.root("main") == Some(7));
    file.set_root(alloc, "other", Some(7))?;
    file.set_root(alloc, "main", Some(7))?;
    let names = file.root_names(alloc)?;
    assert!(rt; are_names(&names, &["main", "other"]));
    assert!(rt; file.set_root(alloc, "main", Some(0)) == Err(FileError::NoSuchBlob));
    assert!(rt; file.root("main") == Some(7));
    Ok(())
}

#[test]
fn names_that_cannot_be_are_refused(rt: HostRuntime) -> Result<(), Fail> {
    let alloc = rt.alloc();
    for bytes in [NOT_TEXT, CUT_NAME] {
        let (left, gate) = open_bytes(alloc, bytes)?;
        assert_eq!(rt; left.as_slice(), bytes);
        assert!(rt; gate == Err(FileError::Damaged));
    }
    Ok(())
}

#[test]
fn blobs_are_listed_and_counted(rt: HostRuntime) -> Result<(), Fail> {
    let alloc = rt.alloc();
    let mut disk = Memory::new(alloc);
    disk.write_at(0, NAMED)?;
    let mut file = open_file(alloc, disk)?;
    file.add(9, 1, b"0123456789abcdefmore")?;
    let listed = file.list(alloc)?;
    let wanted = [
        ListedBlob {
            key: 7,
            children: 0,
            bytes: 4,
        },
        ListedBlob {
            key: 9,
            children: 1,
            bytes: 4,
        },
    ];
    assert!(rt; listed.as_slice() == wanted.as_slice());
    let counts = Counts {
        blobs: 2,
        names: 1,
        flushed_bytes: 97,
        held_bytes: 20,
    };
    assert!(rt; file.counts() == counts);
    assert_eq!(rt; file.count_held(), 1);
    Ok(())
}

#[test]
fn a_blob_is_held_and_flushed(rt: HostRuntime) -> Result<(), Fail> {
    let alloc = rt.alloc();
    let mut file = open_file(alloc, Memory::new(alloc))?;
    file.add(7, 0, b"body")?;
    assert_eq!(rt; file.log.disk.bytes(), NEW);
    let held = file.fetch(alloc, 7)?;
    assert!(rt; is_body(&held));
    file.flush(alloc)?;
    assert_eq!(rt; file.log.disk.bytes(), ONE);
    let flushed = file.fetch(alloc, 7)?;
    assert!(rt; is_body(&flushed));
    assert!(rt; file.fetch(alloc, 8)?.is_none());
    Ok(())
}

#[test]
fn a_blob_is_found_again(rt: HostRuntime) -> Result<(), Fail> {
    let alloc = rt.alloc();
    let mut disk = Memory::new(alloc);
    disk.write_at(0, ONE)?;
    let mut file = open_file(alloc, disk)?;
    let found = file.fetch(alloc, 7)?;
    assert!(rt; is_body(&found));
    assert!(rt; file.find(8).is_none());
    Ok(())
}

#[test]
fn a_look_at_a_file_without_its_gate_writes_nothing(rt: HostRuntime) -> Result<(), Fail> {
    let alloc = rt.alloc();
    let cut = &ONE[..ONE.len() - 1];
    let mut disk = Memory::new(alloc);
    disk.write_at(0, cut)?;
    let mut file = match BlobFile::look(alloc, disk) {
        Ok(file) => file,
        Err((error, _)) => return Err(error.into()),
    };
    let found = file.fetch(alloc, 7)?;
    assert!(rt; is_body(&found));
    assert!(rt; file.add(8, 0, b"more") == Err(FileError::ReadOnly));
    assert!(rt; file.set_root(alloc, "main", Some(7)) == Err(FileError::ReadOnly));
    file.flush(alloc)?;
    assert_eq!(rt; file.log.disk.bytes(), cut);
    Ok(())
}
