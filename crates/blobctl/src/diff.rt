//! The blobs that one of two roots reaches and the other one doesn't.
//!
//! A walk from both roots notes of each key from which of them it came there, level by level, and reads
//! only the blobs to which it came from one root alone. So it doesn't go into what both share, and a
//! blob counts as one root's also if the other one reaches it below a shared blob alone. An exact walk
//! goes into these too.

ghost use Rattle.blobctl.specs.Shown.{Stays};

use crate::blobs::Blobs;
use crate::command::Comparison;
use crate::find::find_key;
use crate::listing::{Reference, write_reference};
use crate::refusal::Refusal;
use pagable_core::PagableData;
use pagable_file::ListedBlob;
use pagable_flavors::{DataKey, Error};
use std::alloc::{AllocError, Global};
use std::collections::HashMap;

/// The keys that one of two roots reaches alone, each with its blob's sizes, in the order in which keys
/// are shown.
#[derive(Drop)]
pub struct Difference {
    pub first: Vec<Reference>,
    pub second: Vec<Reference>,
}

impl Difference {
    /// Returns whether neither root reaches a blob alone.
    pub fn is_empty(&self) -> bool {
        self.first.is_empty() && self.second.is_empty()
    }
}

/// From which of two roots a walk came to a key.
#[derive(Clone, Copy)]
enum Side {
    First,
    Second,
    Both,
}

impl Side {
    /// Returns the side that has the roots of both sides.
    fn with(self, other: Side) -> Side {
        match (self, other) {
            (Side::First, Side::First) => Side::First,
            (Side::Second, Side::Second) => Side::Second,
            _ => Side::Both,
        }
    }

    /// Returns whether two sides are the same.
    fn is(self, other: Side) -> bool {
        match (self, other) {
            (Side::First, Side::First) | (Side::Second, Side::Second) | (Side::Both, Side::Both) =>
                true,
            _ => false,
        }
    }

    /// Returns whether this is one root's side alone.
    fn is_alone(self) -> bool {
        match self {
            Side::First | Side::Second => true,
            Side::Both => false,
        }
    }
}

/// A blob that a walk has read.
#[derive(Drop)]
struct ReadBlob {
    sizes: ListedBlob,
    children: Vec<DataKey>,
}

/// A walk from two roots.
#[derive(Drop)]
struct PairWalk {
    /// Whether it goes into what both roots share.
    is_exact: bool,
    /// From which roots the walk came to each key.
    sides: HashMap<DataKey, Side>,
    /// These keys, in the order in which it came to them.
    met: Vec<DataKey>,
    /// The blobs that it has read and to which it came from one root alone.
    read: HashMap<DataKey, ReadBlob>,
    /// Keys to which it came from the other root too, and of whose children that isn't noted.
    shared: Vec<DataKey>,
}

impl PairWalk {
    /// Begins a walk at two roots.
    fn new(
        alloc: Global,
        first: DataKey,
        second: DataKey,
        is_exact: bool,
    ) -> Result<PairWalk, AllocError> {
        let mut walk = PairWalk {
            is_exact,
            sides: HashMap::new(alloc),
            met: Vec::new(alloc),
            read: HashMap::new(alloc),
            shared: Vec::new(alloc),
        };
        walk.note(first, Side::First)?;
        walk.note(second, Side::Second)?;
        Ok(walk)
    }

    /// Plans to note of a key's children from where the walk came to it since.
    fn plan(&mut self, key: DataKey, known: Side, both: Side) -> Result<(), AllocError> {
        if !known.is(both) {
            self.shared.push(key)?;
        }
        Ok(())
    }

    /// Notes that the walk comes to a key from one root, or from both.
    fn note(&mut self, key: DataKey, side: Side) -> Result<(), AllocError> {
        match self.sides.get(&key).copied() {
            None => {
                self.met.push(key)?;
                self.sides.insert(key, side)?;
            }
            Some(known) => {
                let both = known.with(side);
                self.sides.insert(key, both)?;
                self.plan(key, known, both)?;
            }
        }
        Ok(())
    }

    /// Notes that the walk comes to these keys from one root, or from both.
    fn note_all(&mut self, keys: &[DataKey], side: Side) -> Result<(), AllocError> {
        for key in keys {
            self.note(*key, side)?;
        }
        Ok(())
    }

    /// Notes that the walk comes to the children of a key from where it came to that, if the blob was read.
    fn note_children(&mut self, key: DataKey) -> Result<(), AllocError> {
        let Some(side) = self.sides.get(&key).copied() else {
            return Ok(());
        };
        let Some(blob) = self.read.remove(&key) else {
            return Ok(());
        };
        self.note_all(blob.children.as_slice(), side)?;
        Ok(())
    }

    /// Notes of the children of what turned out to be shared that they are, too, as far as these were read.
    fn note_shared(&mut self) -> Result<(), AllocError> {
        'keys: for _ in 0..u64::MAX {
            let Some(key) = self.shared.pop() else {
                break;
            };
            self.note_children(key)?;
        }
        Ok(())
    }

    /// Returns from which roots the walk came to a key, or None if it doesn't read that one's blob.
    fn side_to_read(&self, key: DataKey) -> Option<Side> {
        let side = self.sides.get(&key).copied()?;
        if !side.is_alone() && !self.is_exact {
            return None;
        }
        Some(side)
    }

    /// Adds a blob that was read: notes that the walk comes to its children.
    fn add(
        &mut self,
        alloc: Global,
        key: DataKey,
        side: Side,
        blob: &PagableData,
    ) -> Result<(), AllocError> {
        let sizes = ListedBlob {
            key,
            bytes: blob.bytes.len() as u64,
            children: blob.arcs.len() as u64,
        };
        let children = Vec::from_slice(alloc, blob.arcs.as_slice())?;
        self.read.insert(key, ReadBlob { sizes, children })?;
        self.note_all(blob.arcs.as_slice(), side)?;
        Ok(())
    }

    /// Returns whether the walk came to a key from just this side.
    fn is_on(&self, key: DataKey, side: Side) -> bool {
        match self.sides.get(&key).copied() {
            Some(known) => known.is(side),
            None => false,
        }
    }

    /// Returns the sizes of a key's blob, or None if that is missing.
    fn sizes(&self, key: DataKey) -> Option<ListedBlob> {
        match self.read.get(&key) {
            Some(read) => Some(read.sizes),
            None => None,
        }
    }

    /// Returns the keys to which the walk came from just this side, each with its blob's sizes.
    fn on_side(&self, alloc: Global, side: Side) -> Result<Vec<Reference>, AllocError> {
        let mut found = Vec::new(alloc);
        for key in &self.met {
            if self.is_on(*key, side) {
                let blob = self.sizes(*key);
                found.push(Reference { key: *key, blob })?;
            }
        }
        Ok(found)
    }
}

/// Reads the blob of a key that a walk came to, unless both roots reach it and the walk isn't exact, and
/// notes that it comes to the children. Passes over a blob that is missing.
fn visit<B: Blobs>(
    alloc: Global,
    blobs: &mut B,
    walk: &mut PairWalk,
    key: DataKey,
) -> Result<(), Refusal>
    ensures stays { Stays (B.view blobs.old) (B.view blobs.new) }
{
    let Some(side) = walk.side_to_read(key) else {
        return Ok(());
    };
    match blobs.fetch(alloc, key) {
        Ok(blob) => {
            walk.add(alloc, key, side, &blob)?;
            Ok(())
        }
        Err(Error::NoData(_)) => Ok(()),
        Err(error) => Err(Refusal::Blobs(error)),
    }
}

/// Walks from two roots until no blob is left to read.
fn walk_from<B: Blobs>(
    alloc: Global,
    blobs: &mut B,
    first: DataKey,
    second: DataKey,
    is_exact: bool,
) -> Result<PairWalk, Refusal>
    ensures stays { Stays (B.view blobs.old) (B.view blobs.new) }
{
    let mut walk = PairWalk::new(alloc, first, second, is_exact)?;
    'keys: for at in 0..usize::MAX {
        if at >= walk.met.len() {
            break;
        }
        let key = walk.met[at];
        visit(alloc, blobs, &mut walk, key)?;
        walk.note_shared()?;
    }
    Ok(walk)
}

/// Puts keys in the order in which they are shown.
fn in_order(mut found: Vec<Reference>) -> Result<Vec<Reference>, AllocError> {
    found.sort_by_key(|it| it.key.get().swap_bytes())?;
    Ok(found)
}

/// Finds the blobs that one of two keys reaches and the other one doesn't. If both keys are the same, none
/// is read.
fn compare_keys<B: Blobs>(
    alloc: Global,
    blobs: &mut B,
    first: DataKey,
    second: DataKey,
    is_exact: bool,
) -> Result<Difference, Refusal>
    ensures stays { Stays (B.view blobs.old) (B.view blobs.new) }
{
    let walk = walk_from(alloc, blobs, first, second, is_exact)?;
    let first = in_order(walk.on_side(alloc, Side::First)?)?;
    let second = in_order(walk.on_side(alloc, Side::Second)?)?;
    Ok(Difference { first, second })
}

/// Finds the key that a word names, of a blob that is there.
fn find_there<B: Blobs>(alloc: Global, blobs: &mut B, word: &str) -> Result<DataKey, Refusal>
    ensures stays { Stays (B.view blobs.old) (B.view blobs.new) }
{
    let key = find_key(alloc, blobs, word)?;
    let _blob = blobs.fetch(alloc, key)?;
    Ok(key)
}

/// Finds the blobs that one of two roots reaches and the other one doesn't. If both are the same, no more
/// than that one is read.
///
/// # Errors
///
/// - as `find_key`, of the first word that fails.
/// - `Blobs` as a fetch fails, but for a child that is missing, or for want of memory.
pub fn compare<B: Blobs>(
    alloc: Global,
    blobs: &mut B,
    words: Comparison<'_>,
) -> Result<Difference, Refusal>
    ensures stays { Stays (B.view blobs.old) (B.view blobs.new) }
{
    let first = find_there(alloc, blobs, words.first)?;
    let second = find_there(alloc, blobs, words.second)?;
    let is_exact = words.is_exact && first != second;
    compare_keys(alloc, blobs, first, second, is_exact)
}

/// Writes the keys of a list, each on a line behind a sign.
fn write_alone(text: &mut String, sign: &str, found: &[Reference]) -> Result<(), AllocError> {
    for reference in found {
        text.push_str(sign)?;
        write_reference(text, reference)?;
    }
    Ok(())
}

/// Writes a difference: `-` before each key that the first root reaches alone, and then `+` before each
/// that the second one does.
///
/// # Errors
///
/// - if memory is refused.
pub fn difference_as_lines(alloc: Global, difference: &Difference) -> Result<String, AllocError> {
    let mut text = String::new(alloc);
    write_alone(&mut text, "- ", difference.first.as_slice())?;
    write_alone(&mut text, "+ ", difference.second.as_slice())?;
    Ok(text)
}
