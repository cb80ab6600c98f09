//! Names that stand for keys.

ghost use Rattle.pagable_core.specs.Roots.{HasBlobIfKey, ListsEach, RefusesRoot, Sets, StaysOrTakes};
ghost use Rattle.pagable_value_spec.specs.Stored.{IsMemoryOrFailure};
ghost use Rattle.std.specs.{
  Prelude.{IfErr, IfOk, IsTrue, OnErr, OnOk, false, map, ◌≡◌, ◌≤◌},
  String.string_bytes,
};

use crate::storage::traits::PagableStorage;
use pagable_codec::Env;
use pagable_flavors::{DataKey, Error};
use std::alloc::Global;

/// Names in a storage of blobs, each of which stands for a key. A flush makes them durable together
/// with the blobs that were stored before it.
///
/// What a call returns is right as long as the storage is honest after the call, that is, hasn't
/// taken a wrong answer of a layer below for true.
pub trait Roots<E: Env>: PagableStorage<E> {
    /// Returns the key that a name stands for, or None if it stands for none.
    ///
    /// # Errors
    ///
    /// - `OutOfMemory`.
    /// - `Storage` only if the call raised the storage's count of failures, or it was 2^64 - 1.
    fn root(&mut self, name: &str) -> Result<Option<DataKey>, Error>
        ensures ok { IsTrue (Self.PagableStorage.is_honest self.new)
            → IfOk result (λ key. key ≡ Self.PagableStorage.roots self.old name.now) }
        ensures only { IfErr result (IsMemoryOrFailure (Self.PagableStorage.failed self.old)
            (Self.PagableStorage.failed self.new)) }
        ensures same_names { IsTrue (Self.PagableStorage.is_honest self.new)
            → (Self.PagableStorage.roots self.new ≡ Self.PagableStorage.roots self.old)
            × (Self.PagableStorage.roots_flushed self.new ≡ Self.PagableStorage.roots_flushed self.old) }
        ensures stays { IsTrue (Self.PagableStorage.is_honest self.new)
            → (Self.PagableStorage.stored self.new ≡ Self.PagableStorage.stored self.old)
            × (Self.PagableStorage.flushed self.new ≡ Self.PagableStorage.flushed self.old) }
        ensures honest { IsTrue (Self.PagableStorage.is_honest self.new)
            → IsTrue (Self.PagableStorage.is_honest self.old) }
        ensures open { Self.PagableStorage.is_closed self.new ≡ Self.PagableStorage.is_closed self.old }
        ensures later { Self.PagableStorage.failed self.old ≤ Self.PagableStorage.failed self.new };

    /// Lets a name stand for a key whose blob is stored, or for no key.
    ///
    /// # Errors
    ///
    /// Each leaves the name as it was.
    ///
    /// - `NoData` if no blob is stored under the key.
    /// - `Closed` after `close`.
    /// - `OutOfMemory`.
    /// - `Storage` only if the call raised the storage's count of failures, or it was 2^64 - 1.
    fn set_root(&mut self, alloc: Global, name: &str, key: Option<DataKey>) -> Result<(), Error>
        ensures sets { IsTrue (Self.PagableStorage.is_honest self.new)
            → OnOk result (Sets name.now key (Self.PagableStorage.roots self.old)
            (Self.PagableStorage.roots self.new)) }
        ensures durable_names { IsTrue (Self.PagableStorage.is_honest self.new)
            → StaysOrTakes (Self.PagableStorage.roots self.new) (Self.PagableStorage.roots_flushed self.old)
            (Self.PagableStorage.roots_flushed self.new) }
        ensures stands { IsTrue (Self.PagableStorage.is_honest self.new)
            → OnOk result (HasBlobIfKey (Self.PagableStorage.stored self.old) key) }
        ensures was_open { OnOk result (Self.PagableStorage.is_closed self.old ≡ false) }
        ensures only { IsTrue (Self.PagableStorage.is_honest self.new)
            → IfErr result (RefusesRoot key (Self.PagableStorage.stored self.old)
            (Self.PagableStorage.is_closed self.old) (Self.PagableStorage.failed self.old)
            (Self.PagableStorage.failed self.new)) }
        ensures err { IsTrue (Self.PagableStorage.is_honest self.new)
            → OnErr result (Self.PagableStorage.roots self.new ≡ Self.PagableStorage.roots self.old) }
        ensures stays { IsTrue (Self.PagableStorage.is_honest self.new)
            → (Self.PagableStorage.stored self.new ≡ Self.PagableStorage.stored self.old)
            × (Self.PagableStorage.flushed self.new ≡ Self.PagableStorage.flushed self.old) }
        ensures honest { IsTrue (Self.PagableStorage.is_honest self.new)
            → IsTrue (Self.PagableStorage.is_honest self.old) }
        ensures open { Self.PagableStorage.is_closed self.new ≡ Self.PagableStorage.is_closed self.old }
        ensures later { Self.PagableStorage.failed self.old ≤ Self.PagableStorage.failed self.new };

    /// Returns each name that stands for a key, once, and no other, in no particular order.
    ///
    /// # Errors
    ///
    /// - `OutOfMemory`.
    /// - `Storage` only if the call raised the storage's count of failures, or it was 2^64 - 1.
    fn root_names(&mut self, alloc: Global) -> Result<Vec<String>, Error>
        ensures each { IsTrue (Self.PagableStorage.is_honest self.new)
            → IfOk result (λ names. ListsEach (Self.PagableStorage.roots self.old) (map string_bytes names.items)) }
        ensures same_names { IsTrue (Self.PagableStorage.is_honest self.new)
            → (Self.PagableStorage.roots self.new ≡ Self.PagableStorage.roots self.old)
            × (Self.PagableStorage.roots_flushed self.new ≡ Self.PagableStorage.roots_flushed self.old) }
        ensures stays { IsTrue (Self.PagableStorage.is_honest self.new)
            → (Self.PagableStorage.stored self.new ≡ Self.PagableStorage.stored self.old)
            × (Self.PagableStorage.flushed self.new ≡ Self.PagableStorage.flushed self.old) }
        ensures only { IfErr result (IsMemoryOrFailure (Self.PagableStorage.failed self.old)
            (Self.PagableStorage.failed self.new)) }
        ensures honest { IsTrue (Self.PagableStorage.is_honest self.new)
            → IsTrue (Self.PagableStorage.is_honest self.old) }
        ensures open { Self.PagableStorage.is_closed self.new ≡ Self.PagableStorage.is_closed self.old }
        ensures later { Self.PagableStorage.failed self.old ≤ Self.PagableStorage.failed self.new };
}
