//! Why a command fails, and the status that it ends with.

use pagable_file::{Fault, ListedBlob, OpenError};
use pagable_flavors::{DataKey, Error};
use sqlite::Error as SqlError;
use std::alloc::{AllocError, AllocFailed};
use std::{fmt, io};

/// Why a command fails.
#[derive(Drop)]
pub enum Refusal {
    /// The word names no blob.
    Unknown(String),
    /// The word is the beginning of the keys of these blobs.
    Ambiguous(String, Vec<ListedBlob>),
    /// The name stands for no key.
    NoRoot(String),
    /// A root's name is empty.
    EmptyName,
    /// The word isn't hex, two digits a byte.
    BadHex,
    /// A digest isn't 1 to 128 hex digits.
    BadDigest,
    /// A size isn't a number of bytes, KiB, MiB or GiB.
    BadSize,
    /// The cache has no entry of the digest.
    Miss,
    /// A call on the blobs failed.
    Blobs(Error),
    /// The file couldn't be opened.
    File(OpenError),
    /// Another file, of this path, couldn't be opened.
    OtherFile(String, OpenError),
    /// A file couldn't be made, moved or removed.
    System(io::Error),
    /// Another file, of this path, or standard input couldn't be read or written.
    Other(String, io::Error),
    /// Standard output couldn't be written.
    Output(io::Error),
    /// A file has this path already, where a new one is to be made.
    Taken(String),
    /// A file has this path already, under which `gc` makes the new file.
    LeftOver(String),
    /// The file that `copy` writes is the one that it reads.
    SameFile,
    /// The file has so many names, and only one of them could name the new file.
    HasOtherNames(u64),
    /// A call on a database failed.
    Database(SqlError),
    /// A row of a database is no blob's, or no name's.
    OddRow,
    /// A database has another blob under a key.
    OtherKey(DataKey),
}

impl Refusal {
    /// Returns the exit status: 1 if something isn't there, 2 for a wrong call, 3 if a file fails.
    pub fn status(&self) -> u8 {
        match self {
            Refusal::Unknown(_)
            | Refusal::Ambiguous(_, _)
            | Refusal::NoRoot(_)
            | Refusal::Miss
            | Refusal::Blobs(Error::NoData(_)) => 1,
            Refusal::EmptyName
            | Refusal::BadHex
            | Refusal::BadDigest
            | Refusal::BadSize
            | Refusal::SameFile => 2,
            _ => 3,
        }
    }

    /// Returns whether the reader of the output has gone away, which is nobody's fault.
    pub fn is_broken_pipe(&self) -> bool {
        match self {
            Refusal::Output(error) => error.kind() == io::ErrorKind::BrokenPipe,
            _ => false,
        }
    }

    /// Returns whether the cache has no entry, which the status alone tells.
    pub fn is_miss(&self) -> bool {
        match self {
            Refusal::Miss => true,
            _ => false,
        }
    }
}

impl From<Error> for Refusal {
    fn from(error: Error) -> Refusal {
        Refusal::Blobs(error)
    }
}

impl From<AllocError> for Refusal {
    fn from(error: AllocError) -> Refusal {
        Refusal::Blobs(Error::from(error))
    }
}

impl<T: Drop> From<AllocFailed<T>> for Refusal {
    fn from(error: AllocFailed<T>) -> Refusal {
        Refusal::Blobs(Error::from(error))
    }
}

impl From<OpenError> for Refusal {
    fn from(error: OpenError) -> Refusal {
        Refusal::File(error)
    }
}

impl From<SqlError> for Refusal {
    fn from(error: SqlError) -> Refusal {
        Refusal::Database(error)
    }
}

impl From<io::Error> for Refusal {
    fn from(error: io::Error) -> Refusal {
        Refusal::System(error)
    }
}

impl fmt::Display for Refusal {
    fn fmt<W: fmt::Write>(&self, f: &mut fmt::Formatter<W>) -> fmt::Result {
        match self {
            Refusal::Unknown(word) => {
                write!(f, "no root and no key is called {}", word.escape_debug())
            }
            Refusal::Ambiguous(word, found) => {
                write_candidates(f, word.as_str(), found.as_slice())
            }
            Refusal::NoRoot(name) => write!(f, "no root is called {}", name.escape_debug()),
            Refusal::EmptyName => f.write_str("a root's name may not be empty"),
            Refusal::BadHex => f.write_str("the bytes aren't spelled in hex"),
            Refusal::BadDigest => f.write_str("a digest is 1 to 128 hex digits"),
            Refusal::BadSize => f.write_str("a size is a number of bytes, or of K, M or G of them"),
            Refusal::Miss => f.write_str("the cache has no such entry"),
            Refusal::Blobs(error) => write_error(f, error),
            Refusal::File(error) => write!(f, "{error}"),
            Refusal::OtherFile(path, error) => write!(f, "{}: {error}", path.escape_debug()),
            Refusal::System(error) => write!(f, "{error}"),
            Refusal::Other(path, error) => write!(f, "{}: {error}", path.escape_debug()),
            Refusal::Output(error) => write!(f, "standard output: {error}"),
            Refusal::Taken(path) => write!(
                f,
                "{} is there already: remove it, or give it another name",
                path.escape_debug()
            ),
            Refusal::LeftOver(path) => write!(
                f,
                "{} is there already: remove it if a gc or trim was killed",
                path.escape_debug()
            ),
            Refusal::SameFile => f.write_str("a file can't be copied to itself"),
            Refusal::HasOtherNames(count) => write!(
                f,
                "the file has {count} names, and the others would keep the old file"
            ),
            Refusal::Database(error) => write!(f, "the database: {error}"),
            Refusal::OddRow => f.write_str("a row of the database is no blob's or name's"),
            Refusal::OtherKey(key) => write!(f, "the blob under {key} has another key"),
        }
    }
}

/// Writes that a word is the beginning of several keys, and up to 16 of these.
fn write_candidates<W: fmt::Write>(
    f: &mut fmt::Formatter<W>,
    word: &str,
    found: &[ListedBlob],
) -> fmt::Result {
    write!(f, "{word} is the beginning of {} keys:", found.len())?;
    for blob in found.iter().take(16) {
        write!(f, " {}", blob.key)?;
    }
    Ok(())
}

/// Writes why a call on the blobs failed.
fn write_error<W: fmt::Write>(f: &mut fmt::Formatter<W>, error: &Error) -> fmt::Result {
    match error {
        Error::NoData(key) => write!(f, "no blob stands under {key}"),
        Error::Storage(code) => match Fault::of_code(*code) {
            Some(fault) => write!(f, "{fault}"),
            None => write!(f, "storage {code}"),
        },
        other => write!(f, "{other}"),
    }
}
