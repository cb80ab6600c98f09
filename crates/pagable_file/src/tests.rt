use crate::file_blobs::FileBlobs;
use crate::fsck::Flaw;
use crate::laws::{memory_is_honest, named_in_memory};
use crate::listing::ListedBlob;
use crate::stats::Stats;
use pagable_codec::{Env, KeyHash};
use pagable_core::{PagableData, PagableStorage, Roots, Sha256Key, WeighHash};
use pagable_flavors::{DataKey, Error};
use sqlite_disk::{Disk, Fuse, Memory};
use std::alloc::Global;
use std::marker::PhantomData;
use std::test::Fail;

/// The key of the blob "body" without child keys: the first 16 bytes of the SHA-256 of eight 0 and
/// "body", low bytes first.
const BODY: u128 = 0x452cc55e59c6a6d66fad1d094bf34cad;

/// The key of the blob "over" with this key as its child twice.
const OVER: u128 = 0xd942588e71d5d5242b2314da3d29460f;

/// An environment without values.
#[derive(Drop)]
struct Plain<H> {
    hash: PhantomData<H>,
}

impl<H: KeyHash> Env for Plain<H> {
    type Node = ();

    type Hash = H;

    type CtxKey = ();

    type CtxValue = ();

    ghost use Rattle.pagable_value_spec.specs.Shape.{nothing};

    ghost parts = { λ e number. nothing };
}

/// A storage over a file in memory that a hash gives its keys.
type Blobs<H> = FileBlobs<Plain<H>, Memory>;

/// Makes a blob of these bytes and child keys.
fn blob_with(alloc: Global, bytes: &[u8], keys: &[u128]) -> Result<PagableData, Fail> {
    let mut arcs = Vec::new(alloc);
    for key in keys {
        let Some(key) = DataKey::new(*key) else {
            return Err(Fail::from("a key of 0"));
        };
        arcs.push(key)?;
    }
    Ok(PagableData {
        bytes: bytes.to_vec(alloc)?,
        arcs,
    })
}

/// Opens a file of these bytes.
fn open_bytes<H: KeyHash>(alloc: Global, bytes: &[u8]) -> Result<Blobs<H>, Fail> {
    let mut file = Memory::new(alloc);
    file.write_at(0, bytes)?;
    match FileBlobs::over(alloc, file) {
        Ok(blobs) => Ok(blobs),
        Err(_) => Err(Fail::from("the file isn't opened")),
    }
}

#[test]
fn what_was_flushed_is_read_again(rt: HostRuntime) -> Result<(), Fail> {
    let alloc = rt.alloc();
    let mut blobs = open_bytes::<Sha256Key>(alloc, b"")?;
    let body = blobs.store_data(alloc, blob_with(alloc, b"body", &[])?)?;
    let over = blobs.store_data(alloc, blob_with(alloc, b"over", &[BODY, BODY])?)?;
    assert_eq!(rt; body.get(), BODY);
    assert_eq!(rt; over.get(), OVER);
    blobs.flush()?;
    let bytes = blobs.into_disk().bytes().to_vec(alloc)?;
    let mut again = open_bytes::<Sha256Key>(alloc, &bytes)?;
    let found = again.fetch_data_blocking(alloc, over)?;
    assert!(rt; *found == blob_with(alloc, b"over", &[BODY, BODY])?);
    assert!(rt; again.contains(body));
    Ok(())
}

#[test]
fn a_body_is_its_child_keys_and_its_bytes(rt: HostRuntime) -> Result<(), Fail> {
    let alloc = rt.alloc();
    let mut blobs = open_bytes::<Sha256Key>(alloc, b"")?;
    blobs.store_data(alloc, blob_with(alloc, b"body", &[])?)?;
    blobs.store_data(alloc, blob_with(alloc, b"over", &[BODY])?)?;
    blobs.flush()?;
    let disk = blobs.into_disk();
    assert!(rt; disk.bytes().get(41..45) == Some(b"body".as_slice()));
    let child = b"\xad\x4c\xf3\x4b\x09\x1d\xad\x6f\xd6\xa6\xc6\x59\x5e\xc5\x2c\x45".as_slice();
    assert!(rt; disk.bytes().get(45..61) == Some(child));
    assert!(rt; disk.bytes().get(61..65) == Some(b"over".as_slice()));
    Ok(())
}

#[test]
fn another_body_under_the_key_is_a_fault(rt: HostRuntime) -> Result<(), Fail> {
    let alloc = rt.alloc();
    let mut blobs = open_bytes::<Sha256Key>(alloc, b"")?;
    let key = blobs.store_data(alloc, blob_with(alloc, b"body", &[])?)?;
    blobs.flush()?;
    let mut bytes = blobs.into_disk().bytes().to_vec(alloc)?;
    let Some(first) = bytes.get_mut(41) else {
        return Err(Fail::from("a short file"));
    };
    *first = b'B';
    let mut again = open_bytes::<Sha256Key>(alloc, &bytes)?;
    assert!(rt; again.fetch_data_blocking(alloc, key).err() == Some(Error::Storage(2)));
    assert_eq!(rt; again.failures(), 1);
    Ok(())
}

#[test]
fn a_key_is_taken_once(rt: HostRuntime) -> Result<(), Fail> {
    let alloc = rt.alloc();
    let mut blobs = open_bytes::<WeighHash>(alloc, b"")?;
    let first = blobs.store_data(alloc, blob_with(alloc, b"\x0a\x00", &[])?)?;
    let again = blobs.store_data(alloc, blob_with(alloc, b"\x0a\x00", &[])?)?;
    assert!(rt; first == again);
    let other = blobs.store_data(alloc, blob_with(alloc, b"\x00\x09", &[])?);
    assert!(rt; other.err() == Some(Error::KeyTaken));
    let asked = Stats {
        stores: 1,
        already_stored: 1,
        ..Stats::NONE
    };
    assert!(rt; blobs.stats() == asked);
    Ok(())
}

#[test]
fn a_closed_storage_has_no_blobs(rt: HostRuntime) -> Result<(), Fail> {
    let alloc = rt.alloc();
    let mut blobs = open_bytes::<Sha256Key>(alloc, b"")?;
    let key = blobs.store_data(alloc, blob_with(alloc, b"body", &[])?)?;
    blobs.close();
    assert!(rt; blobs.has_closed());
    assert!(rt; !blobs.contains(key));
    assert!(rt; blobs.fetch_data_blocking(alloc, key).err() == Some(Error::NoData(key)));
    let refused = blobs.store_data(alloc, blob_with(alloc, b"more", &[])?);
    assert!(rt; refused.err() == Some(Error::Closed));
    Ok(())
}

#[test]
fn a_disk_that_stops_leaves_all_of_a_flush_or_none(rt: HostRuntime) -> Result<(), Fail> {
    let alloc = rt.alloc();
    let (mut was_cut, mut was_whole) = (false, false);
    for calls in 0..24 {
        let disk = Fuse::new(Memory::new(alloc), calls);
        let Ok(mut blobs) = FileBlobs::<Plain<Sha256Key>, Fuse<Memory>>::over(alloc, disk) else {
            continue;
        };
        let body = blobs.store_data(alloc, blob_with(alloc, b"body", &[])?)?;
        let over = blobs.store_data(alloc, blob_with(alloc, b"over", &[BODY])?)?;
        let flushed = blobs.flush();
        let disk = blobs.into_disk();
        let again = open_bytes::<Sha256Key>(alloc, disk.inner().bytes())?;
        assert_eq!(rt; again.contains(body), again.contains(over));
        assert!(rt; again.contains(body) || flushed.is_err());
        if flushed.is_ok() {
            was_whole = true;
        } else {
            was_cut = true;
        }
    }
    assert!(rt; was_cut && was_whole);
    Ok(())
}

#[test]
fn a_name_stands_for_its_blob_once_it_is_flushed(rt: HostRuntime) -> Result<(), Fail> {
    let alloc = rt.alloc();
    let mut blobs = open_bytes::<Sha256Key>(alloc, b"")?;
    let key = blobs.store_data(alloc, blob_with(alloc, b"body", &[])?)?;
    blobs.set_root(alloc, "main", Some(key))?;
    assert!(rt; blobs.root("main")? == Some(key));
    blobs.flush()?;
    blobs.set_root(alloc, "late", Some(key))?;
    let bytes = blobs.into_disk().bytes().to_vec(alloc)?;
    let mut again = open_bytes::<Sha256Key>(alloc, &bytes)?;
    assert!(rt; again.root("main")? == Some(key));
    assert!(rt; again.root("late")? == None);
    let names = again.root_names(alloc)?;
    assert_eq!(rt; names.len(), 1);
    assert_eq!(rt; names[0].as_str(), "main");
    again.set_root(alloc, "main", None)?;
    assert!(rt; again.root("main")? == None);
    Ok(())
}

#[test]
fn a_name_stands_for_no_blob_that_is_missing(rt: HostRuntime) -> Result<(), Fail> {
    let alloc = rt.alloc();
    let mut blobs = open_bytes::<Sha256Key>(alloc, b"")?;
    let Some(key) = DataKey::new(BODY) else {
        return Err(Fail::from("a key of 0"));
    };
    assert!(rt; blobs.set_root(alloc, "main", Some(key)).err() == Some(Error::NoData(key)));
    assert!(rt; blobs.root("main")? == None);
    blobs.close();
    assert!(rt; blobs.set_root(alloc, "main", None).err() == Some(Error::Closed));
    Ok(())
}

/// Looks at a file of these bytes.
fn look_at_bytes(alloc: Global, bytes: &[u8]) -> Result<Blobs<Sha256Key>, Fail> {
    let mut file = Memory::new(alloc);
    file.write_at(0, bytes)?;
    match FileBlobs::look(alloc, file) {
        Ok(blobs) => Ok(blobs),
        Err(_) => Err(Fail::from("the file isn't looked at")),
    }
}

#[test]
fn a_look_leaves_each_byte_as_it_is(rt: HostRuntime) -> Result<(), Fail> {
    let alloc = rt.alloc();
    for file in [
        b"".as_slice(),
        b"pagable",
        b"pagable blobs 2\n",
        b"pagable blobs 2\n\x01\x05",
    ] {
        let mut look = look_at_bytes(alloc, file)?;
        assert_eq!(rt; look.list(alloc)?.len(), 0);
        assert!(rt; look.flush().is_ok());
        assert!(rt; look.into_disk().bytes() == file);
    }
    Ok(())
}

#[test]
fn what_waits_is_counted_and_listed(rt: HostRuntime) -> Result<(), Fail> {
    let alloc = rt.alloc();
    let mut blobs = open_bytes::<Sha256Key>(alloc, b"")?;
    let body = blobs.store_data(alloc, blob_with(alloc, b"body", &[])?)?;
    assert_eq!(rt; blobs.pending(), 1);
    blobs.commit()?;
    assert_eq!(rt; blobs.pending(), 0);
    let over = blobs.store_data(alloc, blob_with(alloc, b"over!", &[BODY, BODY])?)?;
    blobs.set_root(alloc, "main", Some(over))?;
    assert_eq!(rt; blobs.pending(), 1);
    let listed = blobs.list(alloc)?;
    let first = ListedBlob {
        key: body,
        bytes: 4,
        children: 0,
    };
    let second = ListedBlob {
        key: over,
        bytes: 5,
        children: 2,
    };
    assert_eq!(rt; listed.len(), 2);
    assert!(rt; listed.contains(&first) && listed.contains(&second));
    Ok(())
}

#[test]
fn a_look_at_a_cut_copy_shows_the_whole_flushes_and_writes_nothing(
    rt: HostRuntime,
) -> Result<(), Fail> {
    let alloc = rt.alloc();
    let mut blobs = open_bytes::<Sha256Key>(alloc, b"")?;
    let body = blobs.store_data(alloc, blob_with(alloc, b"body", &[])?)?;
    blobs.set_root(alloc, "main", Some(body))?;
    blobs.flush()?;
    let over = blobs.store_data(alloc, blob_with(alloc, b"over", &[BODY, BODY])?)?;
    blobs.flush()?;
    let disk = blobs.into_disk();
    let whole = disk.bytes();
    let Some(cut) = whole.get(..whole.len().saturating_sub(2)) else {
        return Err(Fail::from("a short file"));
    };
    let mut look = look_at_bytes(alloc, cut)?;
    assert!(rt; look.contains(body));
    assert!(rt; !look.contains(over));
    assert!(rt; look.root("main")? == Some(body));
    let refused = look.store_data(alloc, blob_with(alloc, b"more", &[])?);
    assert!(rt; refused.err() == Some(Error::Storage(6)));
    assert!(rt; look.set_root(alloc, "main", None).err() == Some(Error::Storage(6)));
    assert!(rt; look.flush().is_ok());
    assert!(rt; look.into_disk().bytes() == cut);
    Ok(())
}

/// Adds a row of a file of blobs: a key, how many child keys, how many bytes, and a name.
fn push_row(
    rows: &mut Vec<u8>,
    key: u128,
    children: u32,
    bytes: u32,
    name: &[u8],
) -> Result<(), Fail> {
    rows.extend_from_slice(&key.to_le_bytes())?;
    rows.extend_from_slice(&children.to_le_bytes())?;
    rows.extend_from_slice(&bytes.to_le_bytes())?;
    rows.extend_from_slice(name)?;
    Ok(())
}

/// Makes a file of one batch with these bodies and rows. The sum is that of the rows, worked out apart
/// from this code: SipHash-1-3 under the key 0 of eight 0 and the rows.
fn file_with(alloc: Global, bodies: &[u8], rows: &[u8], sum: u64) -> Result<Vec<u8>, Fail> {
    let mut file = Vec::new(alloc);
    file.extend_from_slice(b"pagable blobs 2\n\x01")?;
    file.extend_from_slice(&(bodies.len() as u64).to_le_bytes())?;
    file.extend_from_slice(&(rows.len() as u64).to_le_bytes())?;
    file.extend_from_slice(&sum.to_le_bytes())?;
    file.extend_from_slice(bodies)?;
    file.extend_from_slice(rows)?;
    file.push(0)?;
    Ok(file)
}

/// Finds the flaws of a file of one blob with this key, so many child keys and bytes, and this body.
fn flaws_of(
    alloc: Global,
    key: u128,
    children: u32,
    bytes: u32,
    body: &[u8],
    sum: u64,
) -> Result<Vec<Flaw>, Fail> {
    let mut rows = Vec::new(alloc);
    push_row(&mut rows, key, children, bytes, b"")?;
    let file = file_with(alloc, body, &rows, sum)?;
    let mut blobs = open_bytes::<Sha256Key>(alloc, &file)?;
    Ok(blobs.fsck(alloc, &mut ())?)
}

/// Returns the key with this number.
fn key(number: u128) -> Result<DataKey, Fail> {
    match DataKey::new(number) {
        Some(key) => Ok(key),
        None => Err(Fail::from("a key of 0")),
    }
}

/// Makes the body of the blob "over" with two child keys.
fn body_of_over(alloc: Global) -> Result<Vec<u8>, Fail> {
    let mut body = Vec::new(alloc);
    body.extend_from_slice(&BODY.to_le_bytes())?;
    body.extend_from_slice(&BODY.to_le_bytes())?;
    body.extend_from_slice(b"over")?;
    Ok(body)
}

#[test]
fn a_whole_file_has_no_flaw(rt: HostRuntime) -> Result<(), Fail> {
    let found = flaws_of(rt.alloc(), BODY, 0, 4, b"body", 0x33aa359b9e6d7ba2)?;
    assert!(rt; found.is_empty());
    Ok(())
}

#[test]
fn a_blob_with_another_key_is_told(rt: HostRuntime) -> Result<(), Fail> {
    let found = flaws_of(rt.alloc(), BODY, 0, 4, b"Body", 0x33aa359b9e6d7ba2)?;
    assert!(rt; found.as_slice() == [Flaw::WrongKey(key(BODY)?)].as_slice());
    Ok(())
}

#[test]
fn a_body_that_is_no_blob_is_told(rt: HostRuntime) -> Result<(), Fail> {
    let found = flaws_of(rt.alloc(), BODY, 1, 0, &[0; 16], 0x9e6bde16942ad9d2)?;
    assert!(rt; found.as_slice() == [Flaw::StrayBlob(BODY)].as_slice());
    let found = flaws_of(rt.alloc(), 0, 0, 4, b"body", 0x0e7dcbcfb97816b5)?;
    assert!(rt; found.as_slice() == [Flaw::StrayBlob(0)].as_slice());
    Ok(())
}

#[test]
fn each_missing_child_is_told(rt: HostRuntime) -> Result<(), Fail> {
    let alloc = rt.alloc();
    let body = body_of_over(alloc)?;
    let found = flaws_of(alloc, OVER, 2, 4, &body, 0x2d0b6d0e3f5d09cd)?;
    let missing = [
        Flaw::MissingChild(key(OVER)?, key(BODY)?),
        Flaw::MissingChild(key(OVER)?, key(BODY)?),
    ];
    assert!(rt; found.as_slice() == missing.as_slice());
    Ok(())
}

/// Opens a file with the blob "over", whose children are missing, under the name "main", a blob with
/// another key that nothing reaches, and a name "side" whose blob is missing.
fn flawed(alloc: Global) -> Result<Blobs<Sha256Key>, Fail> {
    let mut bodies = body_of_over(alloc)?;
    bodies.extend_from_slice(b"body")?;
    let mut rows = Vec::new(alloc);
    push_row(&mut rows, OVER, 2, 4, b"")?;
    push_row(&mut rows, 7, 0, 4, b"")?;
    push_row(&mut rows, OVER, u32::MAX, 4, b"main")?;
    push_row(&mut rows, 9, u32::MAX, 4, b"side")?;
    open_bytes(
        alloc,
        &file_with(alloc, &bodies, &rows, 0x3312a4c2c5f435eb)?,
    )
}

#[test]
fn a_check_of_a_root_tells_what_it_reaches(rt: HostRuntime) -> Result<(), Fail> {
    let alloc = rt.alloc();
    let mut blobs = flawed(alloc)?;
    let missing = [
        Flaw::MissingChild(key(OVER)?, key(BODY)?),
        Flaw::MissingChild(key(OVER)?, key(BODY)?),
    ];
    assert!(rt; blobs.fsck_root(alloc, "main", &mut ())?.as_slice() == missing.as_slice());
    let root = [Flaw::MissingRoot(String::from_str(alloc, "side")?, key(9)?)];
    assert!(rt; blobs.fsck_root(alloc, "side", &mut ())?.as_slice() == root.as_slice());
    assert!(rt; blobs.fsck_root(alloc, "none", &mut ())?.is_empty());
    assert_eq!(rt; blobs.fsck(alloc, &mut ())?.len(), 4);
    Ok(())
}

#[test]
fn bytes_behind_the_last_flush_are_counted(rt: HostRuntime) -> Result<(), Fail> {
    let alloc = rt.alloc();
    let mut blobs = open_bytes::<Sha256Key>(alloc, b"pagable blobs 2\n\0\x01tail")?;
    assert_eq!(rt; blobs.count_tail()?, 5);
    assert!(rt; blobs.fsck(alloc, &mut ())?.is_empty());
    let mut blobs = look_at_bytes(alloc, b"pagable")?;
    assert_eq!(rt; blobs.count_tail()?, 0);
    Ok(())
}

#[test]
fn a_name_is_found_again_in_memory(rt: HostRuntime) -> Result<(), Fail> {
    let alloc = rt.alloc();
    let blobs = open_bytes::<Sha256Key>(alloc, b"")?;
    assert!(rt; memory_is_honest(&blobs));
    let wanted = blob_with(alloc, b"body", &[])?;
    let Some(outcome) = named_in_memory(alloc, blobs, "main", wanted) else {
        return Err(Fail::from("a call failed"));
    };
    let (_again, found) = outcome;
    let Some(pair) = found else {
        return Err(Fail::from("it isn't found"));
    };
    assert_eq!(rt; pair.0.get(), BODY);
    assert!(rt; *pair.1 == blob_with(alloc, b"body", &[])?);
    Ok(())
}
