//! Blobs and their keys.

ghost use Rattle.pagable_core.specs.Data.{blob_of, key_of_digest};
ghost use Rattle.pagable_value_spec.specs.{Blob.{key_of, preimage}, Outcomes.IsOutOfMemory};
ghost use Rattle.std.specs.Prelude.{IfErr, IfOk, map, ◌≡◌};

use pagable_codec::KeyHash;
use pagable_flavors::{DataKey, Error};
use std::alloc::Global;

/// A blob: a value's bytes, and the keys of what it refers to, in the order of its references.
#[derive(Debug, PartialEq, Drop)]
pub struct PagableData {
    pub bytes: Vec<u8>,
    pub arcs: Vec<DataKey>,
}

impl PagableData {
    /// Computes the key under which the blob is stored: the hash of its preimage, read as a number
    /// of 128 bits with low bytes first; 0 becomes 1. The preimage is the count of child keys as 8
    /// bytes, the blob's bytes, and each child key as 16 bytes; numbers have low bytes first.
    pub fn compute_key<H: KeyHash>(&self) -> DataKey
        ensures { result ≡ key_of H.digest (blob_of self.now) }
    {
        let mut hash = H::new();
        hash.update(&(self.arcs.len() as u64).to_le_bytes());
        hash.update(&self.bytes);
        for key in &self.arcs {
            hash.update(&key.get().to_le_bytes());
        }
        read_key(hash.finish())
    }

    // Returns the bytes of which the key is the hash.
    fn preimage(&self, alloc: Global) -> Result<Vec<u8>, Error>
        ensures ok { IfOk result (λ bytes. bytes.items ≡ preimage (blob_of self.now)) }
        ensures only { IfErr result IsOutOfMemory }
    {
        let mut bytes = Vec::with_capacity(alloc, self.bytes.len() + 8)?;
        bytes.extend_from_slice(&(self.arcs.len() as u64).to_le_bytes())?;
        bytes.extend_from_slice(&self.bytes)?;
        for key in &self.arcs {
            bytes.extend_from_slice(&key.get().to_le_bytes())?;
        }
        Ok(bytes)
    }
}

// Returns the key of a blob whose preimage has this hash.
fn read_key(digest: [u8; 16]) -> DataKey
    ensures { result ≡ key_of_digest digest }
{
    DataKey::new(u128::from_le_bytes(digest).max(1)).unwrap()
}

// Returns the preimages of blobs.
fn preimages_of(alloc: Global, blobs: &[&PagableData]) -> Result<Vec<Vec<u8>>, Error>
    ensures ok { IfOk result (λ found. map (λ bytes. bytes.items) found.items
        ≡ map (λ blob. preimage (blob_of blob.now)) blobs.now) }
    ensures only { IfErr result IsOutOfMemory }
{
    let mut preimages = Vec::with_capacity(alloc, blobs.len())?;
    for blob in blobs {
        preimages.push(blob.preimage(alloc)?)?;
    }
    Ok(preimages)
}

// Borrows each message.
fn borrow_all(alloc: Global, messages: &[Vec<u8>]) -> Result<Vec<&[u8]>, Error>
    ensures ok { IfOk result (λ lent. map (λ message. message.now) lent.items
        ≡ map (λ message. message.items) messages.now) }
    ensures only { IfErr result IsOutOfMemory }
{
    let mut lent = Vec::with_capacity(alloc, messages.len())?;
    for message in messages {
        lent.push(message.as_slice())?;
    }
    Ok(lent)
}

// Hashes the messages in one call.
fn digest_all<H: KeyHash>(alloc: Global, messages: &[&[u8]]) -> Result<Vec<[u8; 16]>, Error>
    ensures ok { IfOk result (λ digests. digests.items ≡ map (λ message. H.digest message.now) messages.now) }
    ensures only { IfErr result IsOutOfMemory }
{
    let mut digests = vec![in alloc; [0; 16]; messages.len()]?;
    H::digest_many(messages, &mut digests);
    Ok(digests)
}

// Returns the keys of blobs whose preimages have these hashes.
fn read_keys(alloc: Global, digests: &[[u8; 16]]) -> Result<Vec<DataKey>, Error>
    ensures ok { IfOk result (λ keys. keys.items ≡ map key_of_digest digests.now) }
    ensures only { IfErr result IsOutOfMemory }
{
    let keys = digests
        .iter()
        .map(|digest| read_key(*digest))
        .collect(alloc)?;
    Ok(keys)
}

/// Computes the key of each of many blobs, as `PagableData::compute_key` does, in one call of the
/// hash.
///
/// # Errors
///
/// - `OutOfMemory`.
pub fn compute_keys<H: KeyHash>(
    alloc: Global,
    blobs: &[&PagableData],
) -> Result<Vec<DataKey>, Error>
    ensures ok { IfOk result (λ keys. keys.items ≡ map (λ blob. key_of H.digest (blob_of blob.now)) blobs.now) }
    ensures only { IfErr result IsOutOfMemory }
{
    let preimages = preimages_of(alloc, blobs)?;
    let messages = borrow_all(alloc, &preimages)?;
    let digests = digest_all::<H>(alloc, &messages)?;
    let keys = read_keys(alloc, &digests)?;
    Ok(keys)
}
