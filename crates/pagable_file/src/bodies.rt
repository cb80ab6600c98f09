//! Blobs as bodies of a file: the child keys, 16 bytes each with low bytes first, and behind them
//! the blob's own bytes.

ghost use Rattle.pagable_core.specs.Data.{blob_of};
ghost use Rattle.pagable_file.specs.Bodies.{CanBeKey, blob_in, body_of};
ghost use Rattle.std.specs.{
  Int.{to_le_bytes, w128},
  List.{AllByRecursion, flat_map},
  Prelude.{IfOk, OnOk, drop, option_map, take, ◌*◌, ◌++◌, ◌≡◌},
};
ghost use Rattle.pagable_file.specs.Bodies as spec;

use blob_file::file::FoundBlob;
use pagable_core::PagableData;
use pagable_flavors::DataKey;
use std::alloc::{AllocError, Global};

/// Appends each child key as 16 bytes.
#[tactic(auto, using(std::proofs::lemmas::List::flat_map_more))]
fn write_keys(body: &mut Vec<u8>, keys: &[DataKey]) -> Result<(), AllocError>
    ensures ok { OnOk result (body.new.items ≡ body.old.items ++ flat_map (to_le_bytes w128) keys.now) }
    ensures fit { OnOk result (AllByRecursion CanBeKey keys.now) }
{
    for key in keys {
        body.extend_from_slice(&key.get().to_le_bytes())?;
    }
    Ok(())
}

/// Writes the body of a blob.
pub fn write_body(alloc: Global, blob: &PagableData) -> Result<Vec<u8>, AllocError>
    ensures body { IfOk result (λ body. body.items ≡ (body_of (blob_of blob.now)).bytes) }
    ensures fit { OnOk result (AllByRecursion CanBeKey (blob_of blob.now).keys) }
{
    let len = blob
        .arcs
        .len()
        .saturating_mul(16)
        .saturating_add(blob.bytes.len());
    let mut body = Vec::with_capacity(alloc, len)?;
    write_keys(&mut body, blob.arcs.as_slice())?;
    body.extend_from_slice(blob.bytes.as_slice())?;
    Ok(body)
}

/// Reads a key from 16 bytes. Returns None if there are more or fewer, or if all are 0.
#[tactic(auto, unfolding(crate::specs::Bodies::key_in))]
fn read_key(bytes: &[u8]) -> Option<DataKey>
    ensures { result ≡ spec.key_in bytes.now }
{
    match <[u8; 16]>::try_from(bytes) {
        Ok(bytes) => DataKey::new(u128::from_le_bytes(bytes)),
        Err(_) => None,
    }
}

/// Reads child keys, one after another. Returns None if the bytes aren't a list of keys.
#[tactic(auto, using(crate::proofs::Keys::one_more, crate::proofs::Keys::no_key, crate::proofs::Keys::at_end, crate::proofs::Keys::more_behind))]
fn read_keys(alloc: Global, bytes: &[u8]) -> Result<Option<Vec<DataKey>>, AllocError>
    ensures { IfOk result (λ keys. option_map (λ found. found.items) keys ≡ spec.keys_in bytes.now) }
{
    let count = bytes.len() / 16;
    let mut keys = Vec::with_capacity(alloc, count)?;
    let mut rest = bytes;
    for at in 0..count {
        let (front, behind) = rest.split_at(16);
        let Some(key) = read_key(front) else {
            return Ok(None);
        };
        keys.push(key)?;
        rest = behind;
    }
    if rest.is_empty() {
        Ok(Some(keys))
    } else {
        Ok(None)
    }
}

/// Returns the blob whose body was found, or None if the body's front isn't a list of keys.
#[tactic(auto, unfolding(crate::specs::Bodies::blob_in))]
pub fn read_blob(alloc: Global, found: &FoundBlob) -> Result<Option<PagableData>, AllocError>
    ensures { IfOk result (λ blob. option_map blob_of blob
        ≡ blob_in (record { children = found.now.children; bytes = found.now.body.items })) }
{
    let front = (16 * found.children as usize).min(found.body.len());
    let (keys, own) = found.body.split_at(front);
    let Some(arcs) = read_keys(alloc, keys)? else {
        return Ok(None);
    };
    let bytes = Vec::from_slice(alloc, own)?;
    Ok(Some(PagableData { bytes, arcs }))
}
