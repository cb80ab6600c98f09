//! What a file of blobs has, without the bodies.

ghost use Rattle.blob_file.specs.File.{CountFails, IsSettled, Lists, ListsBlobs, Same, content, flushed, held_blobs, is_held};
ghost use Rattle.blob_file.specs.File.{listed_entry, named, stored, tail_of};
ghost use Rattle.blob_file.specs.declared.file_error.FileError.TheVariants.{OutOfMemory};
ghost use Rattle.sqlite_wal.specs.Reads.{IsClean};
ghost use Rattle.std.specs.HashMap.{IsUnique, values};
ghost use Rattle.std.specs.Prelude.{IfErr, IfOk, IsTrue, List, OnOk, filter, length, map, nat_eq, ℕ, ◌≡◌};

use crate::file::{BlobFile, held_at};
use crate::file_error::FileError;
use crate::index::Places;
use sqlite_disk::Disk;
use std::alloc::Global;

/// A blob of a file, without its body.
#[derive(Clone, Copy, Debug, PartialEq, Eq)]
pub struct ListedBlob {
    pub key: u128,
    /// How many child keys the body begins with, of 16 bytes each.
    pub children: u32,
    /// How many bytes the body has behind them.
    pub bytes: u32,
}

/// How much a file has, and holds.
#[derive(Clone, Copy, Debug, PartialEq, Eq)]
pub struct Counts {
    /// The blobs, flushed or held.
    pub blobs: usize,
    /// The names that stand for a key, flushed or held.
    pub names: usize,
    /// The bytes of the file up to the gate behind its last batch.
    pub flushed_bytes: usize,
    /// The bytes of bodies that are held in memory until a flush.
    pub held_bytes: usize,
}

/// Lists the blobs of an index.
fn list_places(alloc: Global, places: &Places) -> Result<Vec<ListedBlob>, FileError>
    ensures all { IfOk result (λ listed. listed.items ≡ map listed_entry places.now.entries) }
    ensures unique { OnOk result (IsUnique nat_eq places.now) }
    ensures kind { IfErr result (λ e. e ≡ OutOfMemory) }
{
    let mut listed = Vec::new(alloc);
    for (key, place) in places {
        listed.push(ListedBlob {
            key: *key,
            children: place.children,
            bytes: place.bytes,
        })?;
    }
    Ok(listed)
}

/// Counts the places behind a gate.
fn count_behind(places: &Places, gate: usize) -> usize
    ensures { result ≡ length (filter (is_held gate) (values places.now)) }
{
    places
        .values()
        .filter(|place| held_at(gate, **place).is_some())
        .count()
}

impl<D: Disk> BlobFile<D> {
    /// Lists each blob, flushed or held, once, and no other, in no particular order.
    ///
    /// # Errors
    ///
    /// `OutOfMemory`.
    pub fn list(&self, alloc: Global) -> Result<Vec<ListedBlob>, FileError>
        requires settled { IsSettled D.Disk self.now }
        ensures each { IfOk result (λ listed. IsTrue self.now.log.is_whole → IsClean D.Disk self.now.log.disk
            → ListsBlobs (stored D.Disk self.now) listed.items) }
        ensures kind { IfErr result (λ e. e ≡ OutOfMemory) }
    {
        list_places(alloc, &self.index.places)
    }

    /// Returns how much the file has, without a walk over it.
    pub fn counts(&self) -> Counts
        ensures blobs { (keys : List ℕ) → Lists (stored D.Disk self.now) keys → result.blobs ≡ length keys }
        ensures names { (names : List (List ℕ)) → Lists (named self.now) names → result.names ≡ length names }
        ensures flushed { result.flushed_bytes ≡ self.now.log.gate }
        ensures held { result.held_bytes ≡ length self.now.bodies.items }
    {
        Counts {
            blobs: self.index.places.len(),
            names: self.index.names.len(),
            flushed_bytes: self.log.gate,
            held_bytes: self.bodies.len(),
        }
    }

    /// Counts the bytes of the file behind the gate where its batches end. They say nothing: a crash in
    /// a flush left them, or a flush that failed, or a copy was cut there.
    ///
    /// # Errors
    ///
    /// `Failed`, or `Shut` after a flush that failed. Nothing changes.
    pub fn count_tail(&mut self) -> Result<usize, FileError>
        requires settled { IsSettled D.Disk self.old }
        ensures counted { IfOk result (λ count. IsClean D.Disk self.new.log.disk
            → count ≡ tail_of (D.seen self.old.log.disk)) }
        ensures refused { IfErr result (CountFails self.old.log.is_whole
            (D.faults self.old.log.disk) (D.faults self.new.log.disk)) }
        ensures settled { IsSettled D.Disk self.new }
        ensures same { Same (content D.Disk self.old) (content D.Disk self.new) }
        ensures same_flushed { Same (flushed D.Disk self.old) (flushed D.Disk self.new) }
        ensures same_whole { self.new.log.is_whole ≡ self.old.log.is_whole }
        ensures same_may { self.new.log.may_write ≡ self.old.log.may_write }
        ensures clean { IsClean D.Disk self.new.log.disk → IsClean D.Disk self.old.log.disk }
    {
        if !self.log.is_whole {
            return Err(FileError::Shut);
        }
        let len = self.log.disk.len()?;
        Ok(len.saturating_sub(self.log.gate).saturating_sub(1))
    }

    /// Counts the blobs that are held in memory until a flush, by a walk over all places.
    pub fn count_held(&self) -> usize
        ensures { result ≡ held_blobs self.now }
    {
        count_behind(&self.index.places, self.log.gate)
    }
}
