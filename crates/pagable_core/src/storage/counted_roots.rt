//! Names that stand for keys, in a storage that counts what it is asked for.

ghost use Rattle.pagable_core.specs.Roots.{HasBlobIfKey, ListsEach, RefusesRoot, Sets, StaysOrTakes};
ghost use Rattle.pagable_value_spec.specs.Stored.{IsMemoryOrFailure};
ghost use Rattle.std.specs.{
  Prelude.{IfErr, IfOk, IsTrue, OnErr, OnOk, false, map, ◌≡◌, ◌≤◌},
  String.string_bytes,
};

use crate::storage::counted_storage::CountedStorage;
use crate::storage::roots::Roots;
use pagable_codec::Env;
use pagable_flavors::{DataKey, Error};
use std::alloc::Global;

// A call of a name counts as nothing.
impl<E: Env, S: Roots<E>> Roots<E> for CountedStorage<S> {
    fn root(&mut self, name: &str) -> Result<Option<DataKey>, Error>
        ensures ok { IsTrue (S.PagableStorage.is_honest self.new.inner)
            → IfOk result (λ key. key ≡ S.PagableStorage.roots self.old.inner name.now) }
        ensures only { IfErr result (IsMemoryOrFailure (S.PagableStorage.failed self.old.inner)
            (S.PagableStorage.failed self.new.inner)) }
        ensures same_names { IsTrue (S.PagableStorage.is_honest self.new.inner)
            → (S.PagableStorage.roots self.new.inner ≡ S.PagableStorage.roots self.old.inner)
            × (S.PagableStorage.roots_flushed self.new.inner ≡ S.PagableStorage.roots_flushed self.old.inner) }
        ensures stays { IsTrue (S.PagableStorage.is_honest self.new.inner)
            → (S.PagableStorage.stored self.new.inner ≡ S.PagableStorage.stored self.old.inner)
            × (S.PagableStorage.flushed self.new.inner ≡ S.PagableStorage.flushed self.old.inner) }
        ensures honest { IsTrue (S.PagableStorage.is_honest self.new.inner)
            → IsTrue (S.PagableStorage.is_honest self.old.inner) }
        ensures open { S.PagableStorage.is_closed self.new.inner ≡ S.PagableStorage.is_closed self.old.inner }
        ensures later { S.PagableStorage.failed self.old.inner ≤ S.PagableStorage.failed self.new.inner }
        ensures counts { self.new.counts ≡ self.old.counts }
    {
        self.inner.root(name)
    }

    fn set_root(&mut self, alloc: Global, name: &str, key: Option<DataKey>) -> Result<(), Error>
        ensures sets { IsTrue (S.PagableStorage.is_honest self.new.inner)
            → OnOk result (Sets name.now key (S.PagableStorage.roots self.old.inner)
            (S.PagableStorage.roots self.new.inner)) }
        ensures durable_names { IsTrue (S.PagableStorage.is_honest self.new.inner)
            → StaysOrTakes (S.PagableStorage.roots self.new.inner) (S.PagableStorage.roots_flushed self.old.inner)
            (S.PagableStorage.roots_flushed self.new.inner) }
        ensures stands { IsTrue (S.PagableStorage.is_honest self.new.inner)
            → OnOk result (HasBlobIfKey (S.PagableStorage.stored self.old.inner) key) }
        ensures was_open { OnOk result (S.PagableStorage.is_closed self.old.inner ≡ false) }
        ensures only { IsTrue (S.PagableStorage.is_honest self.new.inner)
            → IfErr result (RefusesRoot key (S.PagableStorage.stored self.old.inner)
            (S.PagableStorage.is_closed self.old.inner) (S.PagableStorage.failed self.old.inner)
            (S.PagableStorage.failed self.new.inner)) }
        ensures err { IsTrue (S.PagableStorage.is_honest self.new.inner)
            → OnErr result (S.PagableStorage.roots self.new.inner ≡ S.PagableStorage.roots self.old.inner) }
        ensures stays { IsTrue (S.PagableStorage.is_honest self.new.inner)
            → (S.PagableStorage.stored self.new.inner ≡ S.PagableStorage.stored self.old.inner)
            × (S.PagableStorage.flushed self.new.inner ≡ S.PagableStorage.flushed self.old.inner) }
        ensures honest { IsTrue (S.PagableStorage.is_honest self.new.inner)
            → IsTrue (S.PagableStorage.is_honest self.old.inner) }
        ensures open { S.PagableStorage.is_closed self.new.inner ≡ S.PagableStorage.is_closed self.old.inner }
        ensures later { S.PagableStorage.failed self.old.inner ≤ S.PagableStorage.failed self.new.inner }
        ensures counts { self.new.counts ≡ self.old.counts }
    {
        self.inner.set_root(alloc, name, key)
    }

    fn root_names(&mut self, alloc: Global) -> Result<Vec<String>, Error>
        ensures each { IsTrue (S.PagableStorage.is_honest self.new.inner)
            → IfOk result (λ names. ListsEach (S.PagableStorage.roots self.old.inner) (map string_bytes names.items)) }
        ensures same_names { IsTrue (S.PagableStorage.is_honest self.new.inner)
            → (S.PagableStorage.roots self.new.inner ≡ S.PagableStorage.roots self.old.inner)
            × (S.PagableStorage.roots_flushed self.new.inner ≡ S.PagableStorage.roots_flushed self.old.inner) }
        ensures stays { IsTrue (S.PagableStorage.is_honest self.new.inner)
            → (S.PagableStorage.stored self.new.inner ≡ S.PagableStorage.stored self.old.inner)
            × (S.PagableStorage.flushed self.new.inner ≡ S.PagableStorage.flushed self.old.inner) }
        ensures only { IfErr result (IsMemoryOrFailure (S.PagableStorage.failed self.old.inner)
            (S.PagableStorage.failed self.new.inner)) }
        ensures honest { IsTrue (S.PagableStorage.is_honest self.new.inner)
            → IsTrue (S.PagableStorage.is_honest self.old.inner) }
        ensures open { S.PagableStorage.is_closed self.new.inner ≡ S.PagableStorage.is_closed self.old.inner }
        ensures later { S.PagableStorage.failed self.old.inner ≤ S.PagableStorage.failed self.new.inner }
        ensures counts { self.new.counts ≡ self.old.counts }
    {
        self.inner.root_names(alloc)
    }
}
