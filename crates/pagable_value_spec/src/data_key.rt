//! The keys of blobs.

ghost use Rattle.pagable_value_spec.specs.KeyText.{key_text, named_key};
ghost use Rattle.pagable_value_spec.specs.declared.data_key.OptionalDataKey.TheVariants as optional;
ghost use Rattle.std.specs.Prelude.{IfOk, IfSome, IsSome, IsTrue, Ok, Some, ◌<◌, ◌↔◌, ◌≡◌, ◌≢◌};

use hex::FromHex;
use std::alloc::{AllocError, Global};
use std::fmt;
use std::marker::Model;
use std::str::{self, FromStr};
use thiserror::Error;

/// The key of a blob: a number of 128 bits that is never 0.
#[derive(Clone, Copy, Debug, PartialEq, Eq, Hash)]
pub struct DataKey {
    number: u128,
}

impl Model for DataKey {
    ghost use Rattle.std.specs.Prelude.{ℕ, ◌<◌};

    ghost Value = { ℕ };

    ghost view = { λ k. k.number };

    ghost invariant = { λ k. 0 < k.number };

    ghost inverse = { λ n. record { number = n } };
}

impl DataKey {
    /// Returns the key with this number, or None for 0.
    pub fn new(number: u128) -> Option<DataKey>
        ensures valid { IsSome result ↔ (0 < number) }
        ensures value { IfSome result (λ k. k ≡ number) }
    {
        if number == 0 {
            return None;
        }
        Some(DataKey { number })
    }

    /// Returns the key's number, which is above 0.
    pub fn get(self) -> u128
        ensures value { result ≡ self }
        ensures above { 0 < result }
    {
        self.number
    }
}

/// Why a text names no key.
#[derive(Error, Clone, Copy, Debug, PartialEq, Eq)]
pub enum KeyTextError {
    /// The text isn't 32 hex digits.
    #[error("a key has 32 hex digits: copy it whole")]
    NotHex,
    /// All digits are 0.
    #[error("no key is 0: take the key of a blob")]
    Zero,
}

/// Writes the digest's first 16 bytes, the first one first, as 32 hex digits in lower case.
impl fmt::Display for DataKey {
    ghost output = { λ k. Some (key_text k) };

    fn fmt<W: fmt::Write>(&self, f: &mut fmt::Formatter<W>) -> fmt::Result {
        let mut digits = [0u8; 32];
        let Ok(()) = hex::encode_to_slice(self.get().to_le_bytes(), &mut digits) else {
            return Err(fmt::Error);
        };
        let Ok(text) = str::from_utf8(&digits) else {
            return Err(fmt::Error);
        };
        f.write_str(text)
    }
}

/// Reads 32 hex digits, as `Display` writes them or in upper case.
impl FromStr for DataKey {
    type Err = KeyTextError;

    ghost from_str_gives = { λ text read. read ≡ named_key text };

    fn from_str(text: &str) -> Result<DataKey, KeyTextError> {
        let Ok(bytes) = <[u8; 16]>::from_hex(text) else {
            return Err(KeyTextError::NotHex);
        };
        match DataKey::new(u128::from_le_bytes(bytes)) {
            Some(key) => Ok(key),
            None => Err(KeyTextError::Zero),
        }
    }
}

/// Law: what `Display` writes of a key is read as this key.
#[tactic(auto, using(crate::proofs::KeyTexts::reads_back))]
pub fn reads_what_it_writes(
    alloc: Global,
    key: DataKey,
) -> Result<Result<DataKey, KeyTextError>, AllocError>
    ensures { IfOk result (λ read. read ≡ Ok key) }
{
    let text = key.to_string(alloc)?;
    Ok(text.parse())
}

/// A key, or none.
#[derive(Clone, Copy, Debug, PartialEq, Eq, Hash)]
pub enum OptionalDataKey {
    None,
    Some(DataKey),
}

impl OptionalDataKey {
    /// Returns whether there is a key.
    pub fn is_some(&self) -> bool
        ensures { IsTrue result ↔ (self.now ≢ OptionalDataKey.None) }
    {
        !self.is_none()
    }

    /// Returns whether there is no key.
    pub fn is_none(&self) -> bool
        ensures { IsTrue result ↔ (self.now ≡ OptionalDataKey.None) }
    {
        matches!(self, OptionalDataKey::None)
    }

    /// Returns the key. The caller must know that there is one.
    pub fn unwrap(self) -> DataKey
        requires { self ≢ OptionalDataKey.None }
        ensures { self ≡ OptionalDataKey.Some result }
    {
        match self {
            OptionalDataKey::None => unreachable!(),
            OptionalDataKey::Some(key) => key,
        }
    }
}

impl From<DataKey> for OptionalDataKey {
    ghost from_gives = { λ key made. made ≡ optional.Some key };

    fn from(key: DataKey) -> OptionalDataKey {
        OptionalDataKey::Some(key)
    }
}
