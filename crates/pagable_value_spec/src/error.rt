//! Why a call fails, and what to do next.

ghost use Rattle.pagable_value_spec.specs.{Refusals.number_of, declared.error.Error.TheVariants.OutOfMemory};
ghost use Rattle.std.specs.Prelude.{if◌then◌else◌, ◌≡◌};

use crate::data_key::DataKey;
use crate::reason::Reason;
use std::alloc::{AllocError, AllocFailed};

/// The errors of these crates, in the order of their numbers, which begin at 1.
#[derive(Clone, Copy, Debug, PartialEq, Eq, thiserror::Error)]
pub enum Error {
    /// The input ends inside a value.
    #[error("the input ends inside a value: hand in the whole blob")]
    UnexpectedEnd,
    /// A varint has more bytes than its width allows, or its last byte is too large.
    #[error("a number has too many bytes, or its last byte is too large: read the type that was written")]
    BadVarint,
    /// A flag is read, and its byte is neither 0 nor 1.
    #[error("a flag is neither 0 nor 1: read the type that was written")]
    BadBool,
    /// A text isn't UTF-8.
    #[error("a text isn't UTF-8: read the type that was written")]
    BadUtf8,
    /// A text that is read as one character has none, or more than one.
    #[error("a text isn't exactly one character: read the type that was written")]
    BadChar,
    /// A length, or the number of registered static values, is above 4,294,967,295.
    #[error("a length is above 4294967295: split the value")]
    TooLong,
    /// A value enters more than 128 levels in one blob, or a path has more than 128 references. A
    /// ring of references has no end and fails so too.
    #[error("more than 128 levels or references on one path: refer by PagableArc, and in no ring")]
    TooDeep,
    /// A JSON value is read, and the number of its case is above 5, the last one that exists.
    #[error("the case of a JSON value is above 5: read the type that was written")]
    JsonCase,
    /// A JSON number isn't a whole number of 64 bits with a sign.
    #[error("a JSON number isn't a whole number of 64 bits with a sign: write it as a text")]
    JsonNumber,
    /// The seconds of a duration overflow 64 bits.
    #[error("the seconds of a duration overflow: read the type that was written")]
    BadDuration,
    /// The regular expression library refuses a pattern, for another cause than memory.
    #[error("a pattern is refused: mend the pattern")]
    RegexRefused,
    /// A tag isn't registered.
    #[error("a tag isn't registered: register its type with the environment")]
    UnknownTag,
    /// The index of a static value isn't registered.
    #[error("the index of a static value isn't registered: read with the registry that it was written with")]
    BadStaticIndex,
    /// A static value isn't in the environment's registry.
    #[error("a static value isn't in the environment's registry: register it")]
    Unregistered,
    /// A value has one more reference to read, and its blob has no more keys.
    #[error("a reference is read and no key is left: hand in all keys of the blob")]
    NoMoreKeys,
    /// The store has no blob under this key.
    #[error("the store has no blob under the key {0}: store it again")]
    NoData(DataKey),
    /// A kind or a cell has another type than its node or value; or the environment has no such
    /// type; or the call takes only kinds of another sort.
    #[error("the type of a kind or cell isn't that of its node: ask for the type that was inserted")]
    WrongKind,
    /// Nothing live has this number, or the handle isn't one of the node that its reference names.
    #[error("nothing live has this number: it was released, or never given out")]
    NoSuchHandle,
    /// The handle's mode or the kind doesn't fit the call; or the load is of a cell and the call
    /// ends loads of keys, or the other way round.
    #[error("the handle's mode doesn't fit: pin and unpin a loose one, refer by its own mode, end a load as it began")]
    WrongMode,
    /// Another owner than the caller has the handle, the call names the handle twice, or a worker
    /// began the load.
    #[error("the handle belongs to a value, a load or a worker, or is named twice: clone it first")]
    NotYours,
    /// The pager has no number left to give out.
    #[error("no number is left: go on with a new pager")]
    NumbersSpent,
    /// An allocation failed.
    #[error("out of memory: release what can go, and call again")]
    OutOfMemory,
    /// The storage failed during this call, with a code of its own.
    #[error("the storage failed with code {0}: see there what that means, and call again")]
    Storage(u32),
    /// The store has another blob under the key.
    #[error("another blob stands under the key: take a hash of keys without collisions")]
    KeyTaken,
    /// The storage is closed.
    #[error("the storage was closed: go on with a new one")]
    Closed,
    /// A caller's own implementation fails with a reason in its own words.
    #[error("{0}")]
    Custom(Reason),
}

impl Error {
    /// Returns the error's number, from 1 to 26, as programs print it.
    pub fn number(&self) -> u32
        ensures { result ≡ number_of self.now }
    {
        match self {
            Error::UnexpectedEnd => 1,
            Error::BadVarint => 2,
            Error::BadBool => 3,
            Error::BadUtf8 => 4,
            Error::BadChar => 5,
            Error::TooLong => 6,
            Error::TooDeep => 7,
            Error::JsonCase => 8,
            Error::JsonNumber => 9,
            Error::BadDuration => 10,
            Error::RegexRefused => 11,
            Error::UnknownTag => 12,
            Error::BadStaticIndex => 13,
            Error::Unregistered => 14,
            Error::NoMoreKeys => 15,
            Error::NoData(_) => 16,
            Error::WrongKind => 17,
            Error::NoSuchHandle => 18,
            Error::WrongMode => 19,
            Error::NotYours => 20,
            Error::NumbersSpent => 21,
            Error::OutOfMemory => 22,
            Error::Storage(_) => 23,
            Error::KeyTaken => 24,
            Error::Closed => 25,
            Error::Custom(_) => 26,
        }
    }

    /// Splits a failed allocation into `OutOfMemory` and the value that found no room.
    pub fn split_failed_allocation<T>(refused: AllocFailed<T>) -> (Error, T)
        ensures refusal { result.0 ≡ OutOfMemory }
        ensures value { result.1 ≡ refused.value }
    {
        (out_of_memory(), refused.value)
    }

    /// Returns the error for a failure of another library: `OutOfMemory` if `is_memory` says that
    /// an allocation failed, and `other` if not.
    pub fn of_library(is_memory: bool, other: Error) -> Error
        ensures { result ≡ (if is_memory then OutOfMemory else other) }
    {
        if is_memory { out_of_memory() } else { other }
    }
}

/// Returns `OutOfMemory`. Only this function makes it, and only for a failed allocation.
fn out_of_memory() -> Error
    ensures { result ≡ OutOfMemory }
{
    Error::OutOfMemory
}

impl From<AllocError> for Error {
    ghost from_gives = { λ _ e. e ≡ OutOfMemory };

    fn from(_refused: AllocError) -> Error {
        out_of_memory()
    }
}

impl<T: Drop> From<AllocFailed<T>> for Error {
    ghost from_gives = { λ _ e. e ≡ OutOfMemory };

    fn from(_refused: AllocFailed<T>) -> Error {
        out_of_memory()
    }
}

/// Drops the value that a failed call hands back and keeps the error, so that `?` works.
impl<T: Drop> From<(Error, T)> for Error {
    ghost from_gives = { λ refused e. e ≡ refused.0 };

    fn from(refused: (Error, T)) -> Error {
        let (error, _) = refused;
        error
    }
}

/// Drops the two values that a failed call hands back and keeps the error, so that `?` works.
impl<K: Drop, V: Drop> From<(Error, K, V)> for Error {
    ghost from_gives = { λ refused e. e ≡ refused.0 };

    fn from(refused: (Error, K, V)) -> Error {
        let (error, ..) = refused;
        error
    }
}
