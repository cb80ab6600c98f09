//! Rows of values without references, and of the keys of blobs.

use crate::texts::Texts;
use indexmap::IndexMap;
use pagable::{
    DataKey, Error, KeyHash, NoReferences, PagableData, PagableDeserialize, PagableDeserializer,
    PagableDeserializerImpl, PagableSerialize, PagableVecFlavor, SessionContext, WeighHash,
    from_bytes, to_bytes,
};
use serde_json::{Number, Value};
use std::alloc::Global;
use std::time::Duration;

/// Says whether a value is written as these bytes.
fn writes<T: PagableSerialize<Texts>>(alloc: Global, value: &T, bytes: &[u8]) -> bool {
    match to_bytes(alloc, &Texts, value) {
        Ok(written) => written.as_slice() == bytes,
        Err(_) => false,
    }
}

/// Says whether these bytes, to their end, are read as this value.
fn reads<'de, T: PagableDeserialize<'de, Texts> + PartialEq + Drop>(
    alloc: Global,
    bytes: &'de [u8],
    value: &T,
) -> bool {
    let session = SessionContext::new(alloc);
    let lent = NoReferences::new(&Texts, &session);
    let mut reader = PagableDeserializerImpl::new(bytes, &[], lent);
    match T::pagable_deserialize(alloc, &mut reader) {
        Ok(found) => found == *value && reader.position().byte_pos == bytes.len(),
        Err(_) => false,
    }
}

/// Says whether a reading of these bytes fails with this error.
fn refuses<'de, T: PagableDeserialize<'de, Texts> + Drop>(
    alloc: Global,
    bytes: &'de [u8],
    error: Error,
) -> bool {
    let found: Result<T, Error> = from_bytes(alloc, &Texts, bytes);
    found.err() == Some(error)
}

/// Row 1: whole numbers and a duration are written.
pub fn numbers(alloc: Global) -> bool {
    let least = [255u8, 255, 255, 255, 255, 255, 255, 255, 255, 1];
    let lasting = Duration::new(1, 500_000_000);
    writes(alloc, &300u16, &[0xac, 2])
        && writes(alloc, &i64::MIN, &least)
        && writes(alloc, &lasting, &[1, 0x80, 0xca, 0xb5, 0xee, 1])
}

/// Row 2: longer spellings of a number are read, within its width.
pub fn varints(alloc: Global) -> bool {
    reads(alloc, &[0x80, 0x80, 0], &0u16)
        && reads(alloc, &[0xff, 0xff, 3], &65535u16)
        && refuses::<u16>(alloc, &[0xff, 0xff, 4], Error::BadVarint)
        && refuses::<u16>(alloc, &[0x80, 0x80, 0x80], Error::BadVarint)
        && refuses::<u16>(alloc, &[0x80], Error::UnexpectedEnd)
}

/// Row 3: options and results begin with a flag.
pub fn flags(alloc: Global) -> Result<bool, Error> {
    let success: Result<String, String> = Ok(String::from_str(alloc, "success")?);
    Ok(
        writes(alloc, &Some(7u8), &[1, 7])
            && writes::<Option<u8>>(alloc, &None, &[0])
            && refuses::<Option<u8>>(alloc, &[2], Error::BadBool)
            && writes(alloc, &success, b"\x01\x07success"),
    )
}

/// Row 4: a list is written with its length, a lent one without.
pub fn lists(alloc: Global) -> Result<bool, Error> {
    let list = vec![in alloc; -1i32, 1]?;
    Ok(writes(alloc, &list, &[2, 1, 2]) && writes(alloc, &list.as_slice(), &[1, 2]))
}

/// Row 5: of a repeated key the later value counts, at the place of the first.
pub fn maps(alloc: Global) -> Result<bool, Error> {
    let bytes = b"\x03\x01a\x01\x01b\x02\x01a\x03";
    let map: IndexMap<String, u8> = from_bytes(alloc, &Texts, bytes)?;
    Ok(writes(alloc, &map, b"\x02\x01a\x03\x01b\x02"))
}

/// Makes nested JSON arrays, the innermost one empty, and their bytes.
fn nested(alloc: Global, levels: u32) -> Result<(Value, Vec<u8>), Error> {
    let mut value = Value::Array(Vec::new(alloc));
    let mut bytes = Vec::new(alloc);
    for _ in 1..levels {
        value = Value::Array(vec![in alloc; value]?);
        bytes.extend_from_slice(&[4, 1])?;
    }
    bytes.extend_from_slice(&[4, 0])?;
    Ok((value, bytes))
}

/// Says whether 128 nested JSON arrays are written and read, and 129 are too deep both ways.
fn has_levels(alloc: Global) -> Result<bool, Error> {
    let (value, bytes) = nested(alloc, 128)?;
    let (deeper, more) = nested(alloc, 129)?;
    Ok(
        bytes.len() == 256
            && writes(alloc, &value, bytes.as_slice())
            && reads(alloc, bytes.as_slice(), &value)
            && to_bytes(alloc, &Texts, &deeper).err() == Some(Error::TooDeep)
            && refuses::<Value>(alloc, more.as_slice(), Error::TooDeep),
    )
}

/// Row 6: JSON values are whole numbers of 64 bits with a sign, and at most 128 levels deep.
pub fn json(alloc: Global) -> Result<bool, Error> {
    let greatest = Value::Number(Number::from(18_446_744_073_709_551_615u64));
    Ok(
        writes(alloc, &Value::Number(Number::from(-1i64)), &[2, 0, 1])
            && to_bytes(alloc, &Texts, &greatest).err() == Some(Error::JsonNumber)
            && refuses::<Value>(alloc, &[2, 1], Error::JsonNumber)
            && refuses::<Value>(alloc, &[6], Error::JsonCase)
            && has_levels(alloc)?,
    )
}

/// Row 7: a key is the hash of the preimage: the count of child keys, the bytes, and each child key.
pub fn key_over_child(alloc: Global) -> Result<bool, Error> {
    let mut preimage = [0u8; 25];
    preimage[0] = 1;
    preimage[8] = 1;
    preimage[9] = 2;
    let mut hash = WeighHash::new();
    hash.update(&preimage);
    let child = DataKey::new(2).ok_or(Error::WrongKind)?;
    let blob = PagableData {
        bytes: vec![in alloc; 1u8]?,
        arcs: vec![in alloc; child]?,
    };
    Ok(blob.compute_key::<WeighHash>().get() == 30 && u128::from_le_bytes(hash.finish()) == 30)
}

/// Row 8: no key is 0.
pub fn key_of_nothing(alloc: Global) -> bool {
    let blob = PagableData {
        bytes: Vec::new(alloc),
        arcs: Vec::new(alloc),
    };
    u128::from_le_bytes(WeighHash::new().finish()) == 0
        && blob.compute_key::<WeighHash>().get() == 1
}

/// Row 21: texts and characters.
pub fn texts(alloc: Global) -> bool {
    refuses::<String>(alloc, b"\x02a", Error::UnexpectedEnd)
        && refuses::<String>(alloc, b"\x01\xff", Error::BadUtf8)
        && refuses::<String>(alloc, &[0x80, 0x80, 0x80, 0x80, 0x10], Error::TooLong)
        && writes(alloc, &'é', &[2, 0xc3, 0xa9])
        && reads(alloc, &[2, 0xc3, 0xa9], &'é')
        && refuses::<char>(alloc, b"\x02ab", Error::BadChar)
}

/// Says whether a writer's first byte is written over, and the second one stays.
pub fn is_written_over(alloc: Global) -> Result<bool, Error> {
    let mut out = PagableVecFlavor::new(alloc);
    out.write_u8(0)?;
    out.write_u8(7)?;
    out.write_at(0, &[9]);
    Ok(out.finalize().as_slice() == [9u8, 7].as_slice())
}
