//! The layer between values and the pager: the serializer and the deserializer of one blob, blobs
//! and their keys, the trait of a storage of blobs, a storage in memory, and one that counts.
#![tactic(auto)]

pub mod context;
pub mod storage;

pub use context::keys::PagableKeys;
pub use context::reading::PagableDeserializerImpl;
pub use context::references::{NoReferences, References, SessionOf};
pub use context::setting::Setting;
pub use context::writing::{PagableSerializerImpl, SerializedData, SerializerForPaging};
pub use storage::counted_storage::CountedStorage;
pub use storage::data::{PagableData, compute_keys};
pub use storage::in_memory::InMemoryBlobs;
pub use storage::roots::Roots;
pub use storage::sha256::Sha256Key;
pub use storage::storage_counts::StorageCounts;
pub use storage::traits::PagableStorage;
pub use storage::weigh::WeighHash;
