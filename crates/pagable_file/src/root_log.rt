//! The log of roots: which keys each name was made to stand for.

ghost use Rattle.blob_file.specs.{File.{Same, content, flushed}, History.{history_of, said_by}};
ghost use Rattle.blob_file.specs.declared.history.NameRow.{NameRow};
ghost use Rattle.pagable_file.specs.{Logged.logged_by, Settled.is_honest_file};
ghost use Rattle.pagable_value_spec.specs.Stored.{IsMemoryOrFailure};
ghost use Rattle.sqlite_wal.specs.Reads.{IsClean};
ghost use Rattle.std.specs.Prelude.{IfErr, IfOk, IsTrue, false, length, map, ◌≡◌, ◌≤◌};

use crate::file_blobs::FileBlobs;
use crate::roots::key_of_number;
use crate::stats::{Stats, count_file_error};
use blob_file::history::NameRow;
use pagable_codec::Env;
use pagable_flavors::{DataKey, Error};
use sqlite_disk::Disk;
use std::alloc::Global;

/// A name, and the key that it was made to stand for, or None.
#[derive(Debug, PartialEq, Drop)]
pub struct LoggedRoot {
    pub name: String,
    pub key: Option<DataKey>,
}

/// Returns these rows with keys. Fails with `Storage` if a key is 0, and with `OutOfMemory`.
fn log_rows(alloc: Global, stats: &mut Stats, rows: &[NameRow]) -> Result<Vec<LoggedRoot>, Error>
    ensures all { IfOk result (λ all. map logged_by all.items ≡ map said_by rows.now) }
    ensures only { IfErr result (IsMemoryOrFailure stats.old.failures stats.new.failures) }
    ensures failures_never_fall { stats.old.failures ≤ stats.new.failures }
{
    let mut all = Vec::new(alloc);
    for row in rows {
        let key = key_of_number(stats, row.key)?;
        let name = String::from_str(alloc, row.name.as_str())?;
        all.push(LoggedRoot { name, key })?;
    }
    Ok(all)
}

impl<E: Env, D: Disk + Drop> FileBlobs<E, D> {
    /// Returns which key each name was made to stand for, or that it stood for none, in this order,
    /// flushed or waiting for a flush. It reads the rows of the file again, and no blob. A copy of the
    /// file's roots, as `copy` makes it, begins a new log.
    ///
    /// # Errors
    ///
    /// - `OutOfMemory`.
    /// - `Storage` only if the call raised the count of failures.
    pub fn root_log(&mut self, alloc: Global) -> Result<Vec<LoggedRoot>, Error>
        ensures told { self.old.closed ≡ false → IsTrue (is_honest_file D.Disk self.new.file)
            → IfOk result (λ all. map logged_by all.items ≡ history_of D.Disk self.old.file) }
        ensures none { IsTrue self.old.closed → IfOk result (λ all. length all.items ≡ 0) }
        ensures same { Same (content D.Disk self.old.file) (content D.Disk self.new.file) }
        ensures same_flushed { Same (flushed D.Disk self.old.file) (flushed D.Disk self.new.file) }
        ensures honest { IsTrue (is_honest_file D.Disk self.new.file) → IsTrue (is_honest_file D.Disk self.old.file) }
        ensures only { IfErr result (IsMemoryOrFailure self.old.stats.failures self.new.stats.failures) }
        ensures failures_never_fall { self.old.stats.failures ≤ self.new.stats.failures }
        ensures open { self.new.closed ≡ self.old.closed }
    {
        if self.closed {
            return Ok(Vec::new(alloc));
        }
        match self.file.history(alloc) {
            Ok(rows) => log_rows(alloc, &mut self.stats, rows.as_slice()),
            Err(error) => Err(count_file_error(&mut self.stats, error)),
        }
    }
}
