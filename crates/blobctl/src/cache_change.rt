//! The commands that change a cache, and wait for other writers.

use crate::blobs::BlobsInFile;
use crate::cache::{drop_oldest, put_entry};
use crate::change::read_source;
use crate::collect::{collect_garbage, real_path};
use crate::command::{CacheChange, Source};
use crate::entry::EntryFacts;
use crate::new_file::nanoseconds_now;
use crate::refusal::Refusal;
use pagable_file::OpenError;
use std::thread;
use std::time::{Duration, Instant};

/// How many milliseconds a writer waits before it tries again.
const TURN: u64 = 5;

/// Opens the file of a path to write it, or makes it, and waits so many seconds at most while another
/// handle has it open.
fn open_in_turn<B: BlobsInFile>(rt: &HostRuntime, path: &str, seconds: u64) -> Result<B, Refusal> {
    let begun = Instant::now(rt)?;
    for _ in 0..u64::MAX {
        match B::open(rt, path) {
            Ok(blobs) => return Ok(blobs),
            Err(OpenError::InUse) if begun.elapsed(rt)?.as_secs() < seconds => {
                thread::sleep(rt, Duration::from_millis(TURN));
            }
            Err(error) => return Err(Refusal::File(error)),
        }
    }
    Err(Refusal::File(OpenError::InUse))
}

/// Puts an entry under a digest. (The bytes are read first, so that the file isn't locked meanwhile.)
fn put<B: BlobsInFile>(
    rt: &HostRuntime,
    path: &str,
    digest: &str,
    source: Source<'_>,
    status: u32,
    seconds: u64,
) -> Result<String, Refusal> {
    let content = read_source(rt, source)?;
    let mut blobs = open_in_turn::<B>(rt, path, seconds)?;
    let time = nanoseconds_now(rt)?;
    let facts = EntryFacts { status, time };
    put_entry(rt.alloc(), &mut blobs, digest, facts, content.as_slice())?;
    blobs.flush()?;
    Ok(String::new(rt.alloc()))
}

/// Reads a size: digits, and K, M or G behind them for so many KiB, MiB or GiB.
///
/// # Errors
///
/// - `BadSize` if the word is none, or the size has 2^64 bytes or more.
fn read_size(word: &str) -> Result<u64, Refusal> {
    let (digits, unit) = match word.as_bytes().last() {
        Some(b'K') => (word.strip_suffix('K'), 1 << 10),
        Some(b'M') => (word.strip_suffix('M'), 1 << 20),
        Some(b'G') => (word.strip_suffix('G'), 1 << 30),
        _ => (Some(word), 1),
    };
    let number = digits.and_then(|it| it.parse::<u64>().ok());
    match number.and_then(|it| it.checked_mul(unit)) {
        Some(size) => Ok(size),
        None => Err(Refusal::BadSize),
    }
}

/// Drops the oldest entries down to a size, and then what no root reaches, and says what stays.
fn trim<B: BlobsInFile>(
    rt: &HostRuntime,
    path: &str,
    word: &str,
    seconds: u64,
) -> Result<String, Refusal> {
    let most = read_size(word)?;
    let found = real_path(rt, path)?;
    let mut blobs = open_in_turn::<B>(rt, found.as_str(), seconds)?;
    let (dropped, kept) = drop_oldest(rt.alloc(), &mut blobs, most)?;
    blobs.flush()?;
    let _kept = collect_garbage(rt, &found, &mut blobs, 1)?;
    Ok(format!(in rt.alloc(); "{dropped} entries dropped, {kept} kept\n")?)
}

/// Changes the cache in the file of a path, and says what came of it.
///
/// # Errors
///
/// - `Input` if the bytes can't be read; `BadDigest` or `BadSize` for such a word.
/// - `File` if the file can't be opened, or another writer has it for so many seconds.
/// - `Blobs` as a call on the file fails, and as `collect_garbage`.
pub fn change_cache<B: BlobsInFile>(
    rt: &HostRuntime,
    path: &str,
    change: CacheChange<'_>,
    seconds: u64,
) -> Result<String, Refusal> {
    match change {
        CacheChange::Put(digest, source, status) => {
            put::<B>(rt, path, digest, source, status, seconds)
        }
        CacheChange::Trim(word) => trim::<B>(rt, path, word, seconds),
    }
}
