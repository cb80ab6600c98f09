//! An open file, each of whose calls is noted with its answer.
ghost use Rattle.blob_host.specs.Noting.{event_of};
ghost use Rattle.sqlite_disk.specs.Events.{settled};
ghost use Rattle.sqlite_disk.specs.Refusal.{as_number, is_no_room};
ghost use Rattle.std.specs.Prelude.{IfOk, [], length, ◌<◌, ◌^◌, ◌∷◌, ◌≡◌, ◌≤◌};

use crate::call::Call;
use crate::trail::Trail;
use sqlite_disk::{Calls, is_no_room};
use std::os::unix::fs::FileExt;
use std::{fs, io};

/// The length in bytes from which on the system has no file.
const TOO_LONG: usize = 1 << 63;

/// An open file of the operating system, with the list of the calls that were made on it.
#[derive(Drop)]
pub struct HostFile {
    file: fs::File,
    trail: Trail,
}

/// Returns what is noted of a failed call that writes: 1 if there was no room, and else 0.
fn room_mark(error: &io::Error) -> usize
    ensures { result ≡ as_number (is_no_room error.now) }
{
    if is_no_room(error) { 1 } else { 0 }
}

/// Reads at least one byte.
fn read(file: &fs::File, at: usize, buf: &mut [u8]) -> io::Result<usize>
    ensures count { IfOk result (λ n. (0 < n) × (n ≤ length buf.old) × (at < 2 ^ 63)) }
{
    if at >= TOO_LONG {
        return Err(io::ErrorKind::InvalidInput.into());
    }
    match file.read_at(buf, at as u64) {
        Ok(0) => Err(io::ErrorKind::UnexpectedEof.into()),
        other => other,
    }
}

/// Writes at least one byte.
fn write(file: &fs::File, at: usize, bytes: &[u8]) -> io::Result<usize>
    ensures count { IfOk result (λ n. (0 < n) × (n ≤ length bytes.now) × (at < 2 ^ 63)) }
{
    if at >= TOO_LONG {
        return Err(io::ErrorKind::InvalidInput.into());
    }
    match file.write_at(bytes, at as u64) {
        Ok(0) => Err(io::ErrorKind::WriteZero.into()),
        other => other,
    }
}

impl HostFile {
    /// Begins the list of a file's calls. Under the key 0, since a file of blobs has sums of its own.
    pub(crate) fn new(file: fs::File) -> HostFile
        ensures { result.trail.events ≡ settled 0 ∷ [] }
    {
        let mut host = HostFile {
            file,
            trail: Trail::new(),
        };
        host.note(0, 0, 0, true, &[]);
        host
    }

    fn note(&mut self, kind: u64, at: usize, count: usize, is_ok: bool, bytes: &[u8])
        ensures { self.new.trail.events ≡ (kind, at, count, is_ok, bytes.now) ∷ self.old.trail.events }
    {
        let call = Call {
            kind,
            at: at as u64,
            count: count as u64,
            is_ok,
            test: None,
        };
        self.trail = self.trail.with(&call, bytes);
    }

    fn note_tested(&mut self, test: (u64, u64), at: usize, count: usize, is_ok: bool, bytes: &[u8])
        ensures { self.new.trail.events
            ≡ (6, at, count, is_ok, test.0 ∷ test.1 ∷ bytes.now) ∷ self.old.trail.events }
    {
        let call = Call {
            kind: 6,
            at: at as u64,
            count: count as u64,
            is_ok,
            test: Some(test),
        };
        self.trail = self.trail.with(&call, bytes);
    }
}

impl Calls for HostFile {
    ghost history = { λ f. f.trail.events };

    fn len(&mut self) -> io::Result<usize> {
        match self.file.metadata() {
            Ok(found) => {
                let len = found.len() as usize;
                self.note(1, len, 0, true, &[]);
                Ok(len)
            }
            Err(error) => {
                self.note(1, 0, 0, false, &[]);
                Err(error)
            }
        }
    }

    fn read_some(&mut self, at: usize, buf: &mut [u8]) -> io::Result<usize> {
        let len = buf.len();
        match read(&self.file, at, buf) {
            Ok(count) => {
                self.note(2, at, len, true, &buf[..count]);
                Ok(count)
            }
            Err(error) => {
                self.note(2, at, len, false, &[]);
                Err(error)
            }
        }
    }

    fn read_under(&mut self, key: u64, want: u64, at: usize, buf: &mut [u8]) -> io::Result<usize> {
        let len = buf.len();
        match read(&self.file, at, buf) {
            Ok(count) => {
                self.note_tested((key, want), at, len, true, &buf[..count]);
                Ok(count)
            }
            Err(error) => {
                self.note_tested((key, want), at, len, false, &[]);
                Err(error)
            }
        }
    }

    fn write_some(&mut self, at: usize, bytes: &[u8]) -> io::Result<usize> {
        match write(&self.file, at, bytes) {
            Ok(count) => {
                self.note(3, at, count, true, bytes);
                Ok(count)
            }
            Err(error) => {
                self.note(3, at, room_mark(&error), false, bytes);
                Err(error)
            }
        }
    }

    fn resize(&mut self, len: usize) -> io::Result<()> {
        match self.file.set_len(len as u64) {
            Ok(()) => {
                self.note(4, len, 0, true, &[]);
                Ok(())
            }
            Err(error) => {
                self.note(4, len, room_mark(&error), false, &[]);
                Err(error)
            }
        }
    }

    fn sync(&mut self) -> io::Result<()> {
        match self.file.sync_data() {
            Ok(()) => {
                self.note(5, 0, 0, true, &[]);
                Ok(())
            }
            Err(error) => {
                self.note(5, 0, room_mark(&error), false, &[]);
                Err(error)
            }
        }
    }
}
