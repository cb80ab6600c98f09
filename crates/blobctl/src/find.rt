//! The blob that a word of a command names.

ghost use Rattle.blobctl.specs.{Digits.{HasDigits, IsNamed, begins}, Shown.Stays};
ghost use Rattle.pagable_file.specs.declared.listing.ListedBlob.{ListedBlob};
ghost use Rattle.std.specs.Prelude.{IfOk, IfSome, IsTrue, filter, ◌≡◌};

use crate::blobs::Blobs;
use crate::refusal::Refusal;
use crate::versions::VersionName;
use pagable_file::ListedBlob;
use pagable_flavors::DataKey;
use std::alloc::{AllocError, Global};

/// How many digits of a key name it at least.
const FEWEST: usize = 4;

/// The beginning of a key, as its first hex digits.
#[derive(Clone, Copy)]
struct FirstDigits {
    number: u128,
    /// How many bits of a key stand behind the digits.
    rest: u32,
}

impl FirstDigits {
    /// Reads at least 4 and at most 31 hex digits. Returns None for another word.
    fn read(word: &str) -> Option<FirstDigits>
        ensures { IfSome result (HasDigits word.now) }
    {
        let is_hex = word.bytes().all(|byte| byte.is_ascii_hexdigit());
        let count = word.len();
        if !is_hex || count < FEWEST || count > 31 {
            return None;
        }
        match u128::from_str_radix(word, 16) {
            Ok(number) => Some(FirstDigits {
                number,
                rest: 128 - 4 * count as u32,
            }),
            Err(_) => None,
        }
    }

    /// Returns whether a key begins with these digits.
    fn begin(&self, key: DataKey) -> bool
        ensures { result ≡ begins self.now key }
    {
        match key.get().swap_bytes().checked_shr(self.rest) {
            Some(first) => first == self.number,
            None => false,
        }
    }
}

/// Returns the blobs whose keys begin with these digits, in the same order.
fn blobs_that_begin(
    alloc: Global,
    all: &[ListedBlob],
    digits: FirstDigits,
) -> Result<Vec<ListedBlob>, AllocError>
    ensures { IfOk result (λ found. found.items ≡ filter (λ it. begins digits it.key) all.now) }
{
    let mut found = Vec::new(alloc);
    for blob in all {
        if digits.begin(blob.key) {
            found.push(*blob)?;
        }
    }
    Ok(found)
}

/// Makes the refusal of a word that is the beginning of several keys, which it tells in their order.
fn refuse_several(
    alloc: Global,
    word: &str,
    mut found: Vec<ListedBlob>,
) -> Result<Refusal, AllocError> {
    found.sort_by_key(|blob| blob.key.get().swap_bytes())?;
    Ok(Refusal::Ambiguous(String::from_str(alloc, word)?, found))
}

/// Finds the one blob whose key begins with the digits of a word.
fn find_by_digits<B: Blobs>(alloc: Global, blobs: &mut B, word: &str) -> Result<DataKey, Refusal>
    ensures stays { Stays (B.view blobs.old) (B.view blobs.new) }
    ensures only { IsTrue (B.view blobs.new).is_honest
        → IfOk result (IsNamed (B.view blobs.old).blob word.now) }
{
    let Some(digits) = FirstDigits::read(word) else {
        return Err(Refusal::Unknown(String::from_str(alloc, word)?));
    };
    let all = blobs.list(alloc)?;
    let found = blobs_that_begin(alloc, all.as_slice(), digits)?;
    match found.as_slice() {
        [] => Err(Refusal::Unknown(String::from_str(alloc, word)?)),
        [blob] => Ok(blob.key),
        _ => Err(refuse_several(alloc, word, found)?),
    }
}

/// Finds the key of a version of a root that a word names, or of the one blob whose key begins with
/// the word.
fn find_unnamed<B: Blobs>(alloc: Global, blobs: &mut B, word: &str) -> Result<DataKey, Refusal>
    ensures stays { Stays (B.view blobs.old) (B.view blobs.new) }
{
    let Some(version) = VersionName::read(word) else {
        return find_by_digits(alloc, blobs, word);
    };
    match version.find(alloc, blobs)? {
        Some(key) => Ok(key),
        None => Err(Refusal::Unknown(String::from_str(alloc, word)?)),
    }
}

/// Finds the key that a word names: a whole key, else the one that a root of this name stands for,
/// else the one that it stood for some versions before, as `main~2` spells it, else the only one of a
/// blob that begins with the word, at least 4 hex digits. A whole key may be one of no blob.
///
/// # Errors
///
/// - `Unknown` if there is none, `Ambiguous` if several keys begin with the word.
/// - `Blobs` as a call on the file fails.
pub fn find_key<B: Blobs>(alloc: Global, blobs: &mut B, word: &str) -> Result<DataKey, Refusal>
    ensures stays { Stays (B.view blobs.old) (B.view blobs.new) }
{
    if let Ok(key) = word.parse() {
        return Ok(key);
    }
    match blobs.root(word)? {
        Some(key) => Ok(key),
        None => find_unnamed(alloc, blobs, word),
    }
}

/// Finds the keys that words name, each as `find_key` does.
///
/// # Errors
///
/// - as `find_key`, of the first word that fails.
pub fn find_keys<B: Blobs>(
    alloc: Global,
    blobs: &mut B,
    words: &[&str],
) -> Result<Vec<DataKey>, Refusal>
    ensures stays { Stays (B.view blobs.old) (B.view blobs.new) }
{
    let mut keys = Vec::new(alloc);
    for word in words {
        keys.push(find_key(alloc, blobs, word)?)?;
    }
    Ok(keys)
}
