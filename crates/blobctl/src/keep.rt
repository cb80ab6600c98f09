//! The versions of roots that a garbage collection keeps.

ghost use Rattle.blobctl.specs.{Kept.{AreCopied, IsAmong, kept_rows}, Shown.Stays};
ghost use Rattle.std.specs.HashMap.{get_by_text};
ghost use Rattle.std.specs.List.{AllByRecursion, Contains};
ghost use Rattle.std.specs.Prelude.{
  IfOk,
  IsTrue,
  List,
  OnOk,
  if◌then◌else◌,
  map,
  unwrap_or,
  ℕ,
  ◌+◌,
  ◌<◌,
  ◌^◌,
  ◌≡◌,
};
ghost use Rattle.std.specs.Str.{bytes_eq};

use crate::blobs::Blobs;
use crate::versions::list_changes;
use pagable_file::{LoggedRoot, Watch};
use pagable_flavors::{DataKey, Error};
use std::alloc::{AllocError, Global};
use std::collections::HashMap;

/// A version of a root that is kept.
#[derive(Drop)]
pub struct KeptVersion {
    pub name: String,
    pub key: DataKey,
}

/// Returns how many rows of a name were counted.
fn count_of(counts: &HashMap<String, usize>, name: &str) -> usize
    ensures { result ≡ unwrap_or (get_by_text counts.now name.now) 0 }
{
    match counts.get(name) {
        Some(count) => *count,
        None => 0,
    }
}

/// Counts one more row of a name, and returns how many there were.
fn count_row(
    alloc: Global,
    counts: &mut HashMap<String, usize>,
    name: &str,
) -> Result<usize, AllocError>
    requires few { unwrap_or (get_by_text counts.old name.now) 0 < 2 ^ 63 }
    ensures count { IfOk result (λ count. count ≡ unwrap_or (get_by_text counts.old name.now) 0) }
    ensures counts { OnOk result ((q : List ℕ) → unwrap_or (get_by_text counts.new q) 0
        ≡ (if bytes_eq name.now q then 1 else 0) + unwrap_or (get_by_text counts.old q) 0) }
{
    let count = count_of(counts, name);
    counts.insert(String::from_str(alloc, name)?, count + 1)?;
    Ok(count)
}

/// Adds the version of a row to those that are kept, if its name stood for a key, and fewer than `keep`
/// rows of the name are behind it.
fn keep_row(
    alloc: Global,
    kept: &mut Vec<KeptVersion>,
    row: &LoggedRoot,
    behind: usize,
    keep: usize,
) -> Result<(), AllocError>
    ensures added { OnOk result (behind < keep → IsAmong kept.new.items row.now) }
    ensures stay { OnOk result ((key : ℕ) → Contains (map (λ it. it.key) kept.old.items) key
        → Contains (map (λ it. it.key) kept.new.items) key) }
{
    let Some(key) = row.key else {
        return Ok(());
    };
    if keep <= behind {
        return Ok(());
    }
    let name = String::from_str(alloc, row.name.as_str())?;
    kept.push(KeptVersion { name, key })?;
    Ok(())
}

/// Returns the versions that are kept of changes of names, the last first: those with fewer than `keep`
/// changes of the same name behind them.
fn versions_kept(
    alloc: Global,
    changes: &[LoggedRoot],
    keep: usize,
) -> Result<Vec<KeptVersion>, AllocError>
    ensures { IfOk result (λ kept. AllByRecursion (IsAmong kept.items) (kept_rows keep changes.now)) }
{
    let mut counts = HashMap::new(alloc);
    let mut kept = Vec::new(alloc);
    let mut at = changes.len();
    while at > 0 {
        at -= 1;
        let row = &changes[at];
        let behind = count_row(alloc, &mut counts, row.name.as_str())?;
        keep_row(alloc, &mut kept, row, behind, keep)?;
    }
    Ok(kept)
}

/// Returns those of these changes whose names stand for keys.
fn standing<B: Blobs>(
    alloc: Global,
    from: &mut B,
    changes: Vec<LoggedRoot>,
) -> Result<Vec<LoggedRoot>, Error>
    ensures stays { Stays (B.view from.old) (B.view from.new) }
{
    let mut rows = Vec::new(alloc);
    for row in changes {
        if from.root(row.name.as_str())?.is_some() {
            rows.push(row)?;
        }
    }
    Ok(rows)
}

/// Lists the versions of roots that are kept besides what the names stand for, the last first: of each
/// name that stands for a key the last `keep`. There are none if `keep` is less than 2.
///
/// # Errors
///
/// - as a call on the file fails.
pub fn list_kept<B: Blobs>(
    alloc: Global,
    from: &mut B,
    keep: u64,
) -> Result<Vec<KeptVersion>, Error>
    ensures stays { Stays (B.view from.old) (B.view from.new) }
{
    if keep < 2 {
        return Ok(Vec::new(alloc));
    }
    let changes = list_changes(alloc, from)?;
    let rows = standing(alloc, from, changes)?;
    let keep = usize::try_from(keep).unwrap_or(usize::MAX);
    Ok(versions_kept(alloc, rows.as_slice(), keep)?)
}

/// Returns the keys of versions.
fn keys_of(alloc: Global, kept: &[KeptVersion]) -> Result<Vec<DataKey>, AllocError>
    ensures { IfOk result (λ keys. keys.items ≡ map (λ it. it.key) kept.now) }
{
    let mut keys = Vec::new(alloc);
    for version in kept {
        keys.push(version.key)?;
    }
    Ok(keys)
}

/// Makes the names of versions stand for these, the first in the list last.
fn set_names<B: Blobs>(alloc: Global, to: &mut B, kept: &[KeptVersion]) -> Result<(), Error>
    ensures blobs { IsTrue (B.view to.new).is_honest → (B.view to.new).blob ≡ (B.view to.old).blob }
    ensures honest { IsTrue (B.view to.new).is_honest → IsTrue (B.view to.old).is_honest }
{
    for version in kept.iter().rev() {
        to.set_root(alloc, version.name.as_str(), Some(version.key))?;
    }
    Ok(())
}

/// Copies into a file what versions reach, and makes their names stand for them, the last version last.
///
/// # Errors
///
/// - as the calls on either file: some blobs may have been copied, and some names set.
pub fn copy_versions<B: Blobs, W: Watch>(
    alloc: Global,
    from: &mut B,
    to: &mut B,
    kept: &[KeptVersion],
    watch: &mut W,
) -> Result<(), Error>
    ensures stays { Stays (B.view from.old) (B.view from.new) }
    ensures copied { IsTrue (B.view from.new).is_honest → IsTrue (B.view to.new).is_honest
        → OnOk result (AreCopied (B.view from.old).blob (B.view to.new).blob kept.now) }
    ensures honest { IsTrue (B.view to.new).is_honest → IsTrue (B.view to.old).is_honest }
{
    let keys = keys_of(alloc, kept)?;
    from.copy_keys(alloc, to, keys.as_slice(), watch)?;
    set_names(alloc, to, kept)?;
    Ok(())
}
