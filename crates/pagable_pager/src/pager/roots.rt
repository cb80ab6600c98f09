//! Names of root keys in a pager's storage.

ghost use Rattle.pagable_core.specs.Roots.{HasBlobIfKey, RefusesRoot, Sets, StaysOrTakes};
ghost use Rattle.pagable_pager.specs.View.{AsksStorage, SameNames};
ghost use Rattle.pagable_pager_spec.specs.Calls.{Asked};
ghost use Rattle.pagable_value_spec.specs.Stored.{IsMemoryOrFailure};
ghost use Rattle.std.specs.Prelude.{IfErr, IfOk, IsTrue, OnErr, OnOk, ◌≡◌};

use crate::pager::Pager;
use pagable_codec::{Env, NodeSet};
use pagable_core::Roots;
use pagable_value_spec::{DataKey, Error};
use std::alloc::Global;

impl<E: Env<Node: NodeSet<E>>, S: Roots<E>> Pager<E, S> {
    /// Returns the key that a name stands for in the storage; None if it stands for none.
    ///
    /// # Errors
    ///
    /// - `OutOfMemory` if an allocation fails.
    /// - `Storage` if the storage fails.
    pub fn root(&mut self, name: &str) -> Result<Option<DataKey>, Error>
        ensures asks { AsksStorage S.PagableStorage self.old Asked self.new }
        ensures ok { IsTrue (S.PagableStorage.is_honest self.new.storage) → IfOk result
            (λ key. key ≡ S.PagableStorage.roots self.old.storage name.now) }
        ensures same_names { SameNames S.PagableStorage self.old.storage self.new.storage }
        ensures refused { IfErr result
            (IsMemoryOrFailure (S.PagableStorage.failed self.old.storage) (S.PagableStorage.failed self.new.storage)) }
    {
        self.storage.root(name)
    }

    /// Makes a name stand for a key under which a blob is stored, or for none. `flush` makes it
    /// persistent, with the blobs.
    ///
    /// # Errors
    ///
    /// Each error leaves the name as it was.
    ///
    /// - `NoData` if no blob is stored under the key.
    /// - `Closed` after `close`.
    /// - `OutOfMemory` if an allocation fails.
    /// - `Storage` if the storage fails.
    pub fn set_root(&mut self, alloc: Global, name: &str, key: Option<DataKey>) -> Result<(), Error>
        ensures asks { AsksStorage S.PagableStorage self.old Asked self.new }
        ensures sets { IsTrue (S.PagableStorage.is_honest self.new.storage) → OnOk result
            (Sets name.now key (S.PagableStorage.roots self.old.storage) (S.PagableStorage.roots self.new.storage)) }
        ensures durable_names { IsTrue (S.PagableStorage.is_honest self.new.storage)
            → StaysOrTakes (S.PagableStorage.roots self.new.storage) (S.PagableStorage.roots_flushed self.old.storage)
            (S.PagableStorage.roots_flushed self.new.storage) }
        ensures stands { IsTrue (S.PagableStorage.is_honest self.new.storage) → OnOk result
            (HasBlobIfKey (S.PagableStorage.stored self.old.storage) key) }
        ensures refused { IsTrue (S.PagableStorage.is_honest self.new.storage) → IfErr result (RefusesRoot key
            (S.PagableStorage.stored self.old.storage) (S.PagableStorage.is_closed self.old.storage)
            (S.PagableStorage.failed self.old.storage) (S.PagableStorage.failed self.new.storage)) }
        ensures kept { IsTrue (S.PagableStorage.is_honest self.new.storage) → OnErr result
            (S.PagableStorage.roots self.new.storage ≡ S.PagableStorage.roots self.old.storage) }
    {
        self.storage.set_root(alloc, name, key)
    }
}
