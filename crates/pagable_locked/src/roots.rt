//! Names of roots, in a storage that threads share.
#![tactic(auto, using(crate::proofs::Refusals::only))]

ghost use Rattle.pagable_locked.specs.Refusals.{IsOfStorage};
ghost use Rattle.std.specs.Prelude.{IfErr};

use crate::storage_handle::PagableStorageHandle;
use pagable_codec::{Env, NodeSet};
use pagable_core::Roots;
use pagable_value_spec::{DataKey, Error};
use std::alloc::Global;
use std::sync::Wait;

impl<E: Env<Node: NodeSet<E>>, S: Roots<E>> PagableStorageHandle<E, S> {
    /// Returns the key that a name stands for in the storage, None if it stands for none.
    ///
    /// # Errors
    ///
    /// - `OutOfMemory`, `Storage` as the storage fails.
    pub fn root<R: Wait>(&self, rt: &R, name: &str) -> Result<Option<DataKey>, Error>
        ensures only { IfErr result IsOfStorage }
    {
        self.inner.pager.lock(rt).root(name)
    }

    /// Makes a name stand for a key under which a blob is stored, or for none. `flush` makes this
    /// durable, with the blobs.
    ///
    /// # Errors
    ///
    /// - `NoData` if no blob is stored under the key.
    /// - `Closed` after `close`.
    /// - `OutOfMemory`, `Storage` as the storage fails. After each error the name stands for what
    ///   it stood for.
    pub fn set_root<R: Wait>(
        &self,
        rt: &R,
        alloc: Global,
        name: &str,
        key: Option<DataKey>,
    ) -> Result<(), Error> {
        self.inner.pager.lock(rt).set_root(alloc, name, key)
    }
}
