//! A walk over all that a key reaches.

ghost use Rattle.blobctl.specs.Shown.{Stays};

use crate::blobs::Blobs;
use pagable_file::ListedBlob;
use pagable_flavors::{DataKey, Error};
use std::alloc::Global;
use std::collections::HashMap;

/// A blob that a walk has reached.
#[derive(Drop)]
pub struct ReachedBlob {
    /// The blob's key, and how many bytes and children it has.
    pub blob: ListedBlob,
    /// The keys of its children.
    pub children: Vec<DataKey>,
}

/// The keys that a walk has seen, those that it visits next, and the blobs that it has reached.
#[derive(Drop)]
struct Walk {
    seen: HashMap<DataKey, ()>,
    to_visit: Vec<DataKey>,
    found: Vec<ReachedBlob>,
}

/// Visits a key unless the walk has seen it: fetches its blob, notes the blob as reached, and
/// plans to visit the children.
fn visit<B: Blobs>(alloc: Global, blobs: &mut B, walk: &mut Walk, key: DataKey) -> Result<(), Error>
    ensures stays { Stays (B.view blobs.old) (B.view blobs.new) }
{
    if walk.seen.insert(key, ())?.is_some() {
        return Ok(());
    }
    let blob = blobs.fetch(alloc, key)?;
    let children = blob.arcs.as_slice();
    walk.to_visit.extend_from_slice(children)?;
    let listed = ListedBlob {
        key,
        bytes: blob.bytes.len() as u64,
        children: children.len() as u64,
    };
    let children = Vec::from_slice(alloc, children)?;
    walk.found.push(ReachedBlob {
        blob: listed,
        children,
    })?;
    Ok(())
}

/// Collects the blobs that a key reaches, each once.
///
/// # Errors
///
/// - `NoData`, `OutOfMemory`, `Storage` as a fetch fails.
pub fn walk_from<B: Blobs>(
    alloc: Global,
    blobs: &mut B,
    key: DataKey,
) -> Result<Vec<ReachedBlob>, Error>
    ensures stays { Stays (B.view blobs.old) (B.view blobs.new) }
{
    let mut walk = Walk {
        seen: HashMap::new(alloc),
        to_visit: Vec::new(alloc),
        found: Vec::new(alloc),
    };
    walk.to_visit.push(key)?;
    'keys: for _ in 0..u64::MAX {
        let Some(next) = walk.to_visit.pop() else {
            break;
        };
        visit(alloc, blobs, &mut walk, next)?;
    }
    Ok(walk.found)
}
