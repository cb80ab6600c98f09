//! The lists that `ls` shows.

ghost use Rattle.blobctl.specs.Shown.{Stays};

use crate::blobs::Blobs;
use crate::command::Format;
use crate::find::find_key;
use crate::json::{blobs_as_json, references_as_json, roots_as_json};
use crate::refusal::Refusal;
use crate::versions::{count_versions, list_changes};
use pagable_file::ListedBlob;
use pagable_flavors::{DataKey, Error};
use std::alloc::{AllocError, Global};

/// A name that stands for a key.
#[derive(Drop)]
pub struct Root {
    pub name: String,
    pub key: DataKey,
    /// How many versions it has, this one among them.
    pub versions: u64,
}

/// A key to which a blob refers, with its blob's sizes unless that is missing.
#[derive(Drop)]
pub struct Reference {
    pub key: DataKey,
    pub blob: Option<ListedBlob>,
}

/// Lists the names that stand for keys, in the order of their bytes.
///
/// # Errors
///
/// - as a call on the file fails.
pub fn list_roots<B: Blobs>(alloc: Global, blobs: &mut B) -> Result<Vec<Root>, Error>
    ensures stays { Stays (B.view blobs.old) (B.view blobs.new) }
{
    let mut names = blobs.root_names(alloc)?;
    names.sort()?;
    let changes = list_changes(alloc, blobs)?;
    let counts = count_versions(alloc, changes.as_slice())?;
    let mut roots = Vec::new(alloc);
    for name in names {
        if let Some(key) = blobs.root(name.as_str())? {
            let versions = counts.get(name.as_str()).map_or(1, |count| *count);
            roots.push(Root {
                name,
                key,
                versions,
            })?;
        }
    }
    Ok(roots)
}

/// Lists all blobs, in the order of their keys as they are shown.
fn list_blobs<B: Blobs>(alloc: Global, blobs: &mut B) -> Result<Vec<ListedBlob>, Error>
    ensures stays { Stays (B.view blobs.old) (B.view blobs.new) }
{
    let mut all = blobs.list(alloc)?;
    all.sort_by_key(|blob| blob.key.get().swap_bytes())?;
    Ok(all)
}

/// Returns the sizes of a blob, or None if no blob stands under the key.
fn sizes_of<B: Blobs>(
    alloc: Global,
    blobs: &mut B,
    key: DataKey,
) -> Result<Option<ListedBlob>, Error>
    ensures stays { Stays (B.view blobs.old) (B.view blobs.new) }
{
    match blobs.fetch(alloc, key) {
        Ok(blob) => Ok(Some(ListedBlob {
            key,
            bytes: blob.bytes.len() as u64,
            children: blob.arcs.len() as u64,
        })),
        Err(Error::NoData(_)) => Ok(None),
        Err(error) => Err(error),
    }
}

/// Lists the children of the blob that a word names, in their order.
fn list_children<B: Blobs>(
    alloc: Global,
    blobs: &mut B,
    word: &str,
) -> Result<Vec<Reference>, Refusal>
    ensures stays { Stays (B.view blobs.old) (B.view blobs.new) }
{
    let key = find_key(alloc, blobs, word)?;
    let parent = blobs.fetch(alloc, key)?;
    let mut children = Vec::new(alloc);
    for child in &parent.arcs {
        let blob = sizes_of(alloc, blobs, *child)?;
        children.push(Reference { key: *child, blob })?;
    }
    Ok(children)
}

/// Appends a line with a blob's key, and how many bytes and children it has.
fn write_blob(text: &mut String, blob: &ListedBlob) -> Result<(), AllocError> {
    let (key, bytes, children) = (blob.key, blob.bytes, blob.children);
    writeln!(text, "{key} {bytes} bytes, {children} children")
}

/// Writes roots, each on a line with its key and how many versions it has. What isn't printable in a name
/// is escaped.
fn roots_as_lines(alloc: Global, roots: &[Root]) -> Result<String, AllocError> {
    let mut text = String::new(alloc);
    for root in roots {
        let (key, versions) = (root.key, root.versions);
        writeln!(
            text,
            "{} {key} {versions} versions",
            root.name.escape_debug()
        )?;
    }
    Ok(text)
}

/// Appends a line with a key and its blob's sizes, or that this is missing.
///
/// # Errors
///
/// - if memory is refused.
pub fn write_reference(text: &mut String, reference: &Reference) -> Result<(), AllocError> {
    match &reference.blob {
        Some(blob) => write_blob(text, blob),
        None => writeln!(text, "{} missing", reference.key),
    }
}

/// Writes children, each on a line.
fn children_as_lines(alloc: Global, children: &[Reference]) -> Result<String, AllocError> {
    let mut text = String::new(alloc);
    for child in children {
        write_reference(&mut text, child)?;
    }
    Ok(text)
}

/// Writes blobs, each on a line.
fn blobs_as_lines(alloc: Global, all: &[ListedBlob]) -> Result<String, AllocError> {
    let mut text = String::new(alloc);
    for blob in all {
        write_blob(&mut text, blob)?;
    }
    Ok(text)
}

/// Shows the names that stand for keys, each with its key and the count of its versions.
///
/// # Errors
///
/// - as a call on the file fails, or for want of memory.
pub fn show_roots<B: Blobs>(alloc: Global, blobs: &mut B, format: Format) -> Result<String, Error>
    ensures stays { Stays (B.view blobs.old) (B.view blobs.new) }
{
    let roots = list_roots(alloc, blobs)?;
    match format {
        Format::Lines => Ok(roots_as_lines(alloc, roots.as_slice())?),
        Format::Json => Ok(roots_as_json(alloc, roots.as_slice())?),
    }
}

/// Shows all blobs, each with its sizes.
///
/// # Errors
///
/// - as `show_roots`.
pub fn show_blobs<B: Blobs>(alloc: Global, blobs: &mut B, format: Format) -> Result<String, Error>
    ensures stays { Stays (B.view blobs.old) (B.view blobs.new) }
{
    let all = list_blobs(alloc, blobs)?;
    match format {
        Format::Lines => Ok(blobs_as_lines(alloc, all.as_slice())?),
        Format::Json => Ok(blobs_as_json(alloc, all.as_slice())?),
    }
}

/// Shows the children of the blob that a word names, in their order, each with its sizes or as missing.
///
/// # Errors
///
/// - as `find_key`, or as a fetch fails.
pub fn show_children<B: Blobs>(
    alloc: Global,
    blobs: &mut B,
    word: &str,
    format: Format,
) -> Result<String, Refusal>
    ensures stays { Stays (B.view blobs.old) (B.view blobs.new) }
{
    let children = list_children(alloc, blobs, word)?;
    match format {
        Format::Lines => Ok(children_as_lines(alloc, children.as_slice())?),
        Format::Json => Ok(references_as_json(alloc, children.as_slice())?),
    }
}
