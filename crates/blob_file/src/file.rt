//! Blobs by key in a file of batches, flushed or held.

ghost use Rattle.blob_file.specs.File.{AddFails, FetchFails, IsSettled, NamesStand, Same, SameBlobs, SameNames};
ghost use Rattle.blob_file.specs.File.{body_bytes, content, content_of, flushed, found_body, named, stored};
ghost use Rattle.blob_file.specs.Opening.{CanOpen, FailsFor, KeepsBatches, KeepsBytesUnlessFailed, Refuses};
ghost use Rattle.blob_file.specs.{Appending.{IsOpen, MayWrite}, Format.{recovered}, Rows.{Knows, size_of_place}};
ghost use Rattle.blob_file.specs.declared.file_error.FileError.TheVariants.{Damaged, OutOfMemory};
ghost use Rattle.sqlite_disk.specs.Disk.{MoreFaults};
ghost use Rattle.sqlite_wal.specs.{Format.{part}, Reads.{IsClean, OnlyReads}};
ghost use Rattle.std.specs.{HashMap.{get}, Map.{update}, Option.{SomeIff}};
ghost use Rattle.std.specs.Prelude.{IfErr, IfNone, IfOk, IfSome, IsTrue, List, MatchResult, OnErr, OnOk, Some, false};
ghost use Rattle.std.specs.Prelude.{length, nat_eq, ℕ};
ghost use Rattle.std.specs.Prelude.{◌*◌, ◌+◌, ◌-◌, ◌<◌, ◌≡◌, ◌≤◌, ◌⊎◌};

use crate::file_error::FileError;
use crate::holding::{hold, next_place};
use crate::index::Index;
use crate::log::Log;
use crate::rows::{Place, make_row};
use crate::scanning::read_part;
use sqlite_disk::Disk;
use std::alloc::Global;

/// A blob as a file has it.
#[derive(Drop)]
pub struct FoundBlob {
    /// How many child keys the body begins with, of 16 bytes each.
    pub children: u32,
    pub body: Vec<u8>,
}

/// A file of blobs, with where each of them stands, the names, and what waits for a flush.
#[derive(Drop)]
pub struct BlobFile<D: Disk> {
    pub log: Log<D>,
    /// What the file's batches say, and the next one.
    pub index: Index,
    /// The bodies of the next batch.
    pub bodies: Vec<u8>,
    /// The rows of the next batch.
    pub rows: Vec<u8>,
}

/// Returns where a body begins among those that are held, or None if it stands in the file.
pub(crate) fn held_at(gate: usize, place: Place) -> Option<usize>
    ensures { SomeIff result (gate + 25 ≤ place.at) (place.at - (gate + 25)) }
{
    let behind = place.at.checked_sub(gate)?;
    behind.checked_sub(25)
}

/// Returns `len` bytes from `from` on, if there are so many.
fn part_of(bytes: &[u8], from: usize, len: usize) -> Option<&[u8]>
    ensures found { IfSome result (λ it. it.now ≡ part bytes.now from len) }
    ensures short { IfNone result (length bytes.now < from + len) }
{
    if from <= bytes.len() && len <= bytes.len() - from {
        Some(&bytes[from..from + len])
    } else {
        None
    }
}

/// Copies a body that is held, `from` bytes behind the first.
fn copy_held(alloc: Global, bodies: &[u8], from: usize, len: usize) -> Result<Vec<u8>, FileError>
    ensures found { IfOk result (λ body. body.items ≡ part bodies.now from len) }
    ensures refused { IfErr result (λ e. (e ≡ OutOfMemory) ⊎ ((e ≡ Damaged) × (length bodies.now < from + len))) }
{
    match part_of(bodies, from, len) {
        Some(part) => Ok(part.to_vec(alloc)?),
        None => Err(FileError::Damaged),
    }
}

/// Reads the body at a place: of those that are held, or from the file.
fn read_body<D: Disk>(
    alloc: Global,
    disk: &mut D,
    bodies: &[u8],
    gate: usize,
    place: Place,
) -> Result<Vec<u8>, FileError>
    requires usable { IsTrue (D.is_usable disk.old) }
    requires within { IsClean D.Disk disk.old → (gate + 25 ≤ place.at → ⊥)
        → place.at + size_of_place place ≤ length (D.seen disk.old) }
    requires held { IsClean D.Disk disk.old → gate + 25 ≤ place.at
        → place.at - (gate + 25) + size_of_place place ≤ length bodies.now }
    ensures body { IfOk result (λ body. IsClean D.Disk disk.new
        → body.items ≡ body_bytes (D.seen disk.old) bodies.now (gate + 25) place) }
    ensures refused { IfErr result (FailsFor (IsClean D.Disk disk.new → ⊥)
        (MoreFaults (D.faults disk.old) (D.faults disk.new))) }
    ensures same { OnlyReads D.Disk disk.old disk.new }
{
    match held_at(gate, place) {
        Some(from) => copy_held(alloc, bodies, from, place.size() as usize),
        None => read_part(alloc, disk, place.at, place.size() as usize),
    }
}

impl<D: Disk> BlobFile<D> {
    /// Opens a file, or makes one of a file that was never made. What it finds is on the disk.
    ///
    /// # Errors
    ///
    /// With the disk back: `OutOfMemory`, `NotBlobs` and `Damaged` leave each byte as it was, and
    /// `Failed` leaves a file that stands for the same batches.
    pub fn open(alloc: Global, disk: D) -> Result<BlobFile<D>, (FileError, D)>
        requires usable { IsTrue (D.is_usable disk) }
        ensures found { IfOk result (λ it. IsClean D.Disk it.log.disk
            → Same (content_of (recovered (D.seen disk))) (content D.Disk it)) }
        ensures flushed { IfOk result (λ it. IsClean D.Disk it.log.disk
            → recovered (D.seen it.log.disk) ≡ recovered (D.seen disk)) }
        ensures settled { IfOk result (λ it. IsSettled D.Disk it × IsTrue it.log.is_whole × IsTrue it.log.may_write) }
        ensures moment { IfOk result (λ it. KeepsBatches D.Disk disk it.log.disk) }
        ensures moment_err { IfErr result (λ e. KeepsBatches D.Disk disk e.1) }
        ensures refused { IfErr result (λ e. Refuses (IsClean D.Disk e.1) (D.seen disk) (D.faults disk)
            (D.faults e.1) e.0) }
        ensures kept { IfErr result (λ e. KeepsBytesUnlessFailed D.Disk disk e.1 e.0) }
    {
        match Log::open(alloc, disk) {
            Ok((log, index)) => Ok(BlobFile::new(alloc, log, index)),
            Err(refused) => Err(refused),
        }
    }

    /// Opens a file for looking alone. No byte is written then or later, and nothing is held. The file
    /// may never have been made, or end in the middle of a batch, which doesn't count.
    ///
    /// # Errors
    ///
    /// With the disk back: `OutOfMemory`, `NotBlobs`, `Damaged`, `Failed`.
    pub fn look(alloc: Global, disk: D) -> Result<BlobFile<D>, (FileError, D)>
        requires usable { IsTrue (D.is_usable disk) }
        ensures found { IfOk result (λ it. IsClean D.Disk it.log.disk
            → Same (content_of (recovered (D.seen disk))) (content D.Disk it)) }
        ensures settled { IfOk result (λ it. IsSettled D.Disk it × IsTrue it.log.is_whole × (it.log.may_write ≡ false)) }
        ensures refused { IfErr result (λ e. Refuses (IsClean D.Disk e.1) (D.seen disk) (D.faults disk)
            (D.faults e.1) e.0) }
        ensures same { MatchResult result (λ it. OnlyReads D.Disk disk it.log.disk) (λ e. OnlyReads D.Disk disk e.1) }
    {
        match Log::look(alloc, disk) {
            Ok((log, index)) => Ok(BlobFile::new(alloc, log, index)),
            Err(refused) => Err(refused),
        }
    }

    /// Makes a file of a log, whose batches say this, with nothing held.
    fn new(alloc: Global, log: Log<D>, index: Index) -> BlobFile<D>
        requires open { IsOpen D.Disk log }
        requires knows { IsTrue log.is_whole → IsClean D.Disk log.disk → Knows index (recovered (D.seen log.disk)) }
        ensures settled { IsSettled D.Disk result }
        ensures found { IsTrue log.is_whole → IsClean D.Disk log.disk
            → Same (content_of (recovered (D.seen log.disk))) (content D.Disk result) }
        ensures log { result.log ≡ log }
    {
        BlobFile {
            log,
            index,
            bodies: Vec::new(alloc),
            rows: Vec::new(alloc),
        }
    }

    /// Returns where the blob of a key stands, without a call of the disk.
    pub fn find(&self, key: u128) -> Option<Place>
        ensures { result ≡ get nat_eq self.now.index.places key }
    {
        self.index.places.get(&key).copied()
    }

    /// Fetches the blob of a key, flushed or held, or None if there is none.
    ///
    /// # Errors
    ///
    /// `OutOfMemory`, `Failed`, or `Shut` after a flush that failed. Nothing changes.
    pub fn fetch(&mut self, alloc: Global, key: u128) -> Result<Option<FoundBlob>, FileError>
        requires settled { IsSettled D.Disk self.old }
        ensures found { IfOk result (λ found. IsClean D.Disk self.new.log.disk
            → found_body found ≡ stored D.Disk self.old key) }
        ensures refused { IfErr result (FetchFails (IsClean D.Disk self.new.log.disk) self.old.log.is_whole
            (D.faults self.old.log.disk) (D.faults self.new.log.disk)) }
        ensures settled { IsSettled D.Disk self.new }
        ensures same { Same (content D.Disk self.old) (content D.Disk self.new) }
        ensures same_flushed { Same (flushed D.Disk self.old) (flushed D.Disk self.new) }
        ensures same_whole { self.new.log.is_whole ≡ self.old.log.is_whole }
        ensures same_may { self.new.log.may_write ≡ self.old.log.may_write }
        ensures clean { IsClean D.Disk self.new.log.disk → IsClean D.Disk self.old.log.disk }
    {
        if !self.log.is_whole {
            return Err(FileError::Shut);
        }
        let Some(place) = self.find(key) else {
            return Ok(None);
        };
        let body = read_body(
            alloc,
            &mut self.log.disk,
            &self.bodies,
            self.log.gate,
            place,
        )?;
        Ok(Some(FoundBlob {
            children: place.children,
            body,
        }))
    }

    /// Holds a blob until the next flush: under its key, with a body that begins with so many child
    /// keys of 16 bytes each. A later blob of the same key takes its place.
    ///
    /// # Errors
    ///
    /// `OutOfMemory`; `TooLong` if the body has 4 GiB or more behind its child keys, or would end at
    /// 2^64 or above, or there are 2^32 - 1 child keys; `Shut` after a flush that failed; `ReadOnly` if
    /// the file was opened for looking alone. Nothing changes.
    pub fn add(&mut self, key: u128, children: u32, body: &[u8]) -> Result<(), FileError>
        requires settled { IsSettled D.Disk self.old }
        requires children { 16 * children ≤ length body.now }
        ensures added { OnOk result (IsClean D.Disk self.new.log.disk → (q : ℕ) → stored D.Disk self.new q
            ≡ update nat_eq (stored D.Disk self.old) key (Some (record { children = children; bytes = body.now })) q) }
        ensures refused { IfErr result (AddFails self.old.log) }
        ensures kept { OnErr result (SameBlobs (stored D.Disk self.old) (stored D.Disk self.new)) }
        ensures names { SameNames (named self.old) (named self.new) }
        ensures stand { IsClean D.Disk self.new.log.disk → NamesStand (content D.Disk self.old)
            → NamesStand (content D.Disk self.new) }
        ensures settled { IsSettled D.Disk self.new }
        ensures log { self.new.log ≡ self.old.log }
    {
        if !self.log.is_whole {
            return Err(FileError::Shut);
        }
        if !self.log.may_write {
            return Err(FileError::ReadOnly);
        }
        let Some(row) = make_row(key, children, body.len()) else {
            return Err(FileError::TooLong);
        };
        let Some(place) = next_place(self.log.gate, self.bodies.len(), row) else {
            return Err(FileError::TooLong);
        };
        hold(
            &mut self.index.places,
            &mut self.bodies,
            &mut self.rows,
            row,
            place,
            body,
        )?;
        Ok(())
    }

    /// Has all blobs and names that are held on the disk, whole: from `Ok` on, whatever a crash
    /// leaves has them. Makes no call of the disk if nothing is held.
    ///
    /// # Errors
    ///
    /// `OutOfMemory` and `TooLong` change nothing. After `Failed` the blobs and names are still held,
    /// and the next open finds all of them or none; the file goes on if nothing but a write failed,
    /// and else answers `Shut` until it is opened anew.
    pub fn flush(&mut self, alloc: Global) -> Result<(), FileError>
        requires settled { IsSettled D.Disk self.old }
        ensures flushed { OnOk result (IsTrue self.old.log.is_whole → IsClean D.Disk self.new.log.disk
            → Same (content D.Disk self.old) (flushed D.Disk self.new)) }
        ensures same { IsTrue self.new.log.is_whole → IsClean D.Disk self.new.log.disk
            → Same (content D.Disk self.old) (content D.Disk self.new) }

        // A crash in it or after it leaves what was flushed before, or that and all that was held.
        ensures any_moment { MayWrite self.old.log → IsClean D.Disk self.new.log.disk → (c : List ℕ)
            → D.may_leave self.new.log.disk c → Same (flushed D.Disk self.old) (content_of (recovered c))
            ⊎ Same (content D.Disk self.old) (content_of (recovered c)) }
        ensures durable { OnOk result (MayWrite self.old.log → IsClean D.Disk self.new.log.disk → (c : List ℕ)
            → D.may_leave self.new.log.disk c → Same (content D.Disk self.old) (content_of (recovered c))) }
        ensures opens_again { MayWrite self.old.log → IsClean D.Disk self.new.log.disk → (c : List ℕ)
            → D.may_leave self.new.log.disk c → CanOpen c }
        ensures whole { OnOk result (IsTrue self.old.log.is_whole → IsTrue self.new.log.is_whole) }
        ensures settled { IsSettled D.Disk self.new }
        ensures kept { OnErr result (IsTrue self.new.log.is_whole → IsClean D.Disk self.new.log.disk
            → Same (flushed D.Disk self.old) (flushed D.Disk self.new)) }
        ensures was_whole { IsTrue self.new.log.is_whole → IsTrue self.old.log.is_whole }
        ensures same_may { self.new.log.may_write ≡ self.old.log.may_write }
        ensures clean { IsClean D.Disk self.new.log.disk → IsClean D.Disk self.old.log.disk }
    {
        if self.rows.is_empty() {
            return Ok(());
        }
        self.log.append(alloc, &self.bodies, &self.rows)?;
        self.bodies.clear();
        self.rows.clear();
        Ok(())
    }
    /// Flushes what is held, and gives the disk back.
    ///
    /// # Errors
    ///
    /// Those of `flush`, with the file as that leaves it: nothing that was held is lost.
    pub fn close(self, alloc: Global) -> Result<D, (FileError, BlobFile<D>)>
        requires settled { IsSettled D.Disk self }
        ensures flushed { IfOk result (λ disk. IsTrue self.log.is_whole → IsClean D.Disk disk
            → Same (content D.Disk self) (content_of (recovered (D.seen disk)))) }
        ensures durable { IfOk result (λ disk. MayWrite self.log → IsClean D.Disk disk → (c : List ℕ)
            → D.may_leave disk c → Same (content D.Disk self) (content_of (recovered c))) }
        ensures usable { IfOk result (λ disk. IsTrue self.log.is_whole → IsTrue (D.is_usable disk)) }
        ensures same { IfErr result (λ e. IsTrue e.1.log.is_whole → IsClean D.Disk e.1.log.disk
            → Same (content D.Disk self) (content D.Disk e.1)) }
        ensures any_moment { IfErr result (λ e. MayWrite self.log → IsClean D.Disk e.1.log.disk → (c : List ℕ)
            → D.may_leave e.1.log.disk c → Same (flushed D.Disk self) (content_of (recovered c))
            ⊎ Same (content D.Disk self) (content_of (recovered c))) }
        ensures settled { IfErr result (λ e. IsSettled D.Disk e.1) }
    {
        let mut file = self;
        match file.flush(alloc) {
            Ok(()) => {
                let BlobFile { log, .. } = file;
                Ok(log.disk)
            }
            Err(error) => Err((error, file)),
        }
    }
}
