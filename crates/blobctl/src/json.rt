//! Answers as documents in JSON: each is one value on one line.

use crate::diff::Difference;
use crate::listing::{Reference, Root};
use pagable_file::ListedBlob;
use pagable_flavors::DataKey;
use serde_json::{Value, json};
use std::alloc::{AllocError, Global};

/// Writes a value as a line.
fn document(alloc: Global, value: Value) -> Result<String, AllocError> {
    let mut text = value.to_string(alloc)?;
    text.push('\n')?;
    Ok(text)
}

/// Makes the value of a key, as its 32 hex digits.
fn key_value(alloc: Global, key: DataKey) -> Result<Value, AllocError> {
    Ok(Value::String(format!(in alloc; "{key}")?))
}

/// Makes the value of a blob's key and sizes.
fn blob_value(alloc: Global, blob: &ListedBlob) -> Result<Value, AllocError> {
    let key = key_value(alloc, blob.key)?;
    json!(in alloc; {"key": key, "bytes": blob.bytes, "children": blob.children})
}

/// Makes the value of a key with its blob's sizes, or with the word that it is missing.
fn reference_value(alloc: Global, reference: &Reference) -> Result<Value, AllocError> {
    match &reference.blob {
        Some(blob) => blob_value(alloc, blob),
        None => {
            let key = key_value(alloc, reference.key)?;
            json!(in alloc; {"key": key, "missing": true})
        }
    }
}

/// Makes the value of a root.
fn root_value(alloc: Global, root: &Root) -> Result<Value, AllocError> {
    let key = key_value(alloc, root.key)?;
    json!(in alloc; {"name": &root.name, "key": key, "versions": root.versions})
}

/// Makes the value of a version, which has no key if the name stood for none.
fn version_value(
    alloc: Global,
    name: &str,
    back: usize,
    version: Option<DataKey>,
) -> Result<Value, AllocError> {
    let called = format!(in alloc; "{name}~{back}")?;
    let key = match version {
        Some(key) => key_value(alloc, key)?,
        None => Value::Null,
    };
    json!(in alloc; {"version": called, "key": key})
}

/// Makes the values of keys.
fn references_value(alloc: Global, references: &[Reference]) -> Result<Value, AllocError> {
    let mut values = Vec::new(alloc);
    for reference in references {
        values.push(reference_value(alloc, reference)?)?;
    }
    Ok(Value::Array(values))
}

/// Writes roots: `[{"key": .., "name": .., "versions": ..}, ..]`.
///
/// # Errors
///
/// - if memory is refused, as of each function of this module.
pub fn roots_as_json(alloc: Global, roots: &[Root]) -> Result<String, AllocError> {
    let mut values = Vec::new(alloc);
    for root in roots {
        values.push(root_value(alloc, root)?)?;
    }
    document(alloc, Value::Array(values))
}

/// Writes blobs: `[{"bytes": .., "children": .., "key": ..}, ..]`.
pub fn blobs_as_json(alloc: Global, blobs: &[ListedBlob]) -> Result<String, AllocError> {
    let mut values = Vec::new(alloc);
    for blob in blobs {
        values.push(blob_value(alloc, blob)?)?;
    }
    document(alloc, Value::Array(values))
}

/// Writes keys with their blobs' sizes, as `blobs_as_json` does; one whose blob is missing as
/// `{"key": .., "missing": true}`.
pub fn references_as_json(alloc: Global, references: &[Reference]) -> Result<String, AllocError> {
    document(alloc, references_value(alloc, references)?)
}

/// Writes the versions of a root: `[{"key": .., "version": "main~0"}, ..]`, the last first. The key is
/// null where the name stood for none.
pub fn versions_as_json(
    alloc: Global,
    name: &str,
    versions: &[Option<DataKey>],
) -> Result<String, AllocError> {
    let mut values = Vec::new(alloc);
    for (back, version) in versions.iter().enumerate() {
        values.push(version_value(alloc, name, back, *version)?)?;
    }
    document(alloc, Value::Array(values))
}

/// Writes the counts of blobs, their bytes and names: `{"blobs": .., "bytes": .., "names": ..}`.
pub fn counts_as_json(
    alloc: Global,
    blobs: usize,
    bytes: u64,
    names: usize,
) -> Result<String, AllocError> {
    let (blobs, names) = (blobs as u64, names as u64);
    document(
        alloc,
        json!(in alloc; {"blobs": blobs, "bytes": bytes, "names": names})?,
    )
}

/// Writes the counts of a cache's entries and their bytes: `{"bytes": .., "entries": ..}`.
pub fn entries_as_json(alloc: Global, entries: usize, bytes: u64) -> Result<String, AllocError> {
    let entries = entries as u64;
    document(
        alloc,
        json!(in alloc; {"entries": entries, "bytes": bytes})?,
    )
}

/// Writes the blobs that one of two roots reaches alone: `{"first": [..], "second": [..]}`, each list as
/// `references_as_json` does.
pub fn difference_as_json(alloc: Global, difference: &Difference) -> Result<String, AllocError> {
    let first = references_value(alloc, difference.first.as_slice())?;
    let second = references_value(alloc, difference.second.as_slice())?;
    document(alloc, json!(in alloc; {"first": first, "second": second})?)
}
