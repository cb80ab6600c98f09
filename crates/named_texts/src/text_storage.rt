//! The storage of the cells and blobs of texts.

use crate::text::TextEnv;
use pagable::PagableStorageHandle;

/// A storage of texts that threads may share, over the storage `S` of blobs, whose keys the hash `H`
/// computes.
pub type TextStorage<H, S> = PagableStorageHandle<TextEnv<H>, S>;
