//! The versions of a root: the keys that its name stood for.

ghost use Rattle.blobctl.specs.Shown.{Stays};

use crate::blobs::Blobs;
use crate::command::Format;
use crate::json::versions_as_json;
use crate::refusal::Refusal;
use pagable_file::LoggedRoot;
use pagable_flavors::{DataKey, Error};
use std::alloc::{AllocError, Global};
use std::collections::HashMap;

/// Returns the rows of a log that change what their name stands for, in their order.
fn without_repeats(alloc: Global, log: Vec<LoggedRoot>) -> Result<Vec<LoggedRoot>, AllocError> {
    let mut last: HashMap<String, Option<DataKey>> = HashMap::new(alloc);
    let mut changes = Vec::new(alloc);
    for row in log {
        if last.get(row.name.as_str()) != Some(&row.key) {
            last.insert(String::from_str(alloc, row.name.as_str())?, row.key)?;
            changes.push(row)?;
        }
    }
    Ok(changes)
}

/// Lists what names came to stand for, keys and None, in the order in which they were set. What a name
/// was set to while it stood for it already isn't listed.
///
/// # Errors
///
/// - as a call on the file fails.
pub fn list_changes<B: Blobs>(alloc: Global, blobs: &mut B) -> Result<Vec<LoggedRoot>, Error>
    ensures stays { Stays (B.view blobs.old) (B.view blobs.new) }
{
    let log = blobs.root_log(alloc)?;
    Ok(without_repeats(alloc, log)?)
}

/// Returns what a name came to stand for by these changes, the last first.
fn versions_in(
    alloc: Global,
    changes: &[LoggedRoot],
    name: &str,
) -> Result<Vec<Option<DataKey>>, AllocError> {
    let mut versions = Vec::new(alloc);
    for row in changes {
        if row.name.as_str() == name {
            versions.push(row.key)?;
        }
    }
    versions.reverse();
    Ok(versions)
}

/// Returns what a name stood for, keys and None, the last first.
fn versions_of<B: Blobs>(
    alloc: Global,
    blobs: &mut B,
    name: &str,
) -> Result<Vec<Option<DataKey>>, Error>
    ensures stays { Stays (B.view blobs.old) (B.view blobs.new) }
{
    let changes = list_changes(alloc, blobs)?;
    Ok(versions_in(alloc, changes.as_slice(), name)?)
}

/// Counts the changes of each name.
///
/// # Errors
///
/// - `OutOfMemory`.
pub fn count_versions(
    alloc: Global,
    changes: &[LoggedRoot],
) -> Result<HashMap<String, u64>, AllocError> {
    let mut counts = HashMap::new(alloc);
    for row in changes {
        let count: u64 = match counts.get(row.name.as_str()) {
            Some(count) => *count,
            None => 0,
        };
        let name = String::from_str(alloc, row.name.as_str())?;
        counts.insert(name, count.saturating_add(1))?;
    }
    Ok(counts)
}

/// A root's name and how many versions before the last one are meant, as `main~2` spells them.
#[derive(Clone, Copy)]
pub struct VersionName<'a> {
    name: &'a str,
    back: usize,
}

impl<'a> VersionName<'a> {
    /// Reads a word, or returns None if it has no `~` with decimal digits behind it.
    pub fn read(word: &'a str) -> Option<VersionName<'a>> {
        let (name, digits) = word.rsplit_once('~')?;
        if digits.is_empty() || !digits.bytes().all(|byte| byte.is_ascii_digit()) {
            return None;
        }
        match digits.parse::<usize>() {
            Ok(back) => Some(VersionName { name, back }),
            Err(_) => None,
        }
    }

    /// Finds the key of this version, or returns None if there is none.
    ///
    /// # Errors
    ///
    /// - as a call on the file fails.
    pub fn find<B: Blobs>(&self, alloc: Global, blobs: &mut B) -> Result<Option<DataKey>, Error>
        ensures stays { Stays (B.view blobs.old) (B.view blobs.new) }
    {
        let versions = versions_of(alloc, blobs, self.name)?;
        match versions.get(self.back) {
            Some(key) => Ok(*key),
            None => Ok(None),
        }
    }
}

/// Shows the versions of a root, the last first, each on a line: how the version is called, and its key,
/// or that the name stood for nothing.
///
/// # Errors
///
/// - `NoRoot` if the name was never set.
/// - `Blobs` as a call on the file fails.
pub fn show_log<B: Blobs>(
    alloc: Global,
    blobs: &mut B,
    name: &str,
    format: Format,
) -> Result<String, Refusal>
    ensures stays { Stays (B.view blobs.old) (B.view blobs.new) }
{
    let versions = versions_of(alloc, blobs, name)?;
    if versions.is_empty() {
        return Err(Refusal::NoRoot(String::from_str(alloc, name)?));
    }
    match format {
        Format::Lines => Ok(versions_as_lines(alloc, name, versions.as_slice())?),
        Format::Json => Ok(versions_as_json(alloc, name, versions.as_slice())?),
    }
}

/// Writes versions, each on a line.
fn versions_as_lines(
    alloc: Global,
    name: &str,
    versions: &[Option<DataKey>],
) -> Result<String, AllocError> {
    let mut text = String::new(alloc);
    for (back, version) in versions.iter().enumerate() {
        let name = name.escape_debug();
        match version {
            Some(key) => writeln!(text, "{name}~{back} {key}")?,
            None => writeln!(text, "{name}~{back} dropped")?,
        }
    }
    Ok(text)
}
