//! Blobs, their keys, and the storages that keep them: the traits of a storage, a storage in memory,
//! and one that counts what another one is asked for.

pub mod counted_roots;
pub mod counted_storage;
pub mod data;
pub mod in_memory;
pub mod roots;
pub mod sha256;
pub mod storage_counts;
pub mod traits;
pub mod weigh;
