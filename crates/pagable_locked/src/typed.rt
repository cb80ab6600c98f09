//! The calls that typed handles make on a storage that threads share.
#![tactic(auto, using(crate::proofs::Refusals::only, crate::proofs::Numbers::later))]

use crate::handle_pin::HandlePin;
use crate::lock::lock_briefly;
use crate::storage_handle::PagableStorageHandle;
use pagable_codec::{Env, NodeSet};
use pagable_core::PagableStorage;
use pagable_traits::{FirstHandle, NewPin, Storage};
use pagable_value_spec::{DataKey, Error, HandleNumber, NodeNumber, OptionalDataKey};
use std::alloc::Global;
use std::sync::Wait;

impl<E: Env<Node: NodeSet<E>>, S: PagableStorage<E>> Storage<E> for PagableStorageHandle<E, S> {
    ghost use Rattle.std.specs.Prelude.{IfErr, None};
    ghost use Rattle.pagable_load.specs.{AccessView.values_at, Keyed.IsKeyed};
    ghost use Rattle.pagable_locked.specs.Refusals.{IsOfMode, IsOfQuery, IsOfRelease, IsOfUnpin};
    ghost use Rattle.std.specs.Arc.{arc_value};

    type Pin = HandlePin<E, S>;

    ghost nodes_by_handle = { λ s. None };

    ghost unpin_answers = { λ s h r. IfErr r IsOfUnpin };

    ghost loosen_answers = { λ s h r. IfErr r IsOfMode };

    ghost release_answers = { λ s h r. IfErr r IsOfRelease };

    ghost counts = { λ s h r. IfErr r IsOfQuery };

    ghost key_answers = { λ s h r. IfErr r IsOfQuery };

    ghost set_key_answers = { λ s h k r. IfErr r IsOfRelease };

    ghost paged_out_answers = { λ s h r. IfErr r IsOfQuery };

    ghost reads = { λ s key x. IsKeyed (values_at E.Node.NodeSet E.Env E.Hash.KeyHash
        (arc_value (arc_value s.inner).setting).env) key (E.Node.type_of x) x };

    fn insert<R: Wait>(
        &self,
        rt: &R,
        alloc: Global,
        node: E::Node,
        first: FirstHandle,
    ) -> Result<(NodeNumber, HandleNumber), Error> {
        let mut pager = lock_briefly(&self.inner.pager, rt);
        let inserted = match first {
            FirstHandle::Loose => pager.new_loose(alloc, node),
            FirstHandle::Shared => pager.new_shared(alloc, node),
            FirstHandle::Pinned => pager.new_pinned(alloc, node),
        };
        match inserted {
            Ok(handle) => Ok((pager.node_of(handle)?, handle)),
            Err((e, _node)) => Err(e),
        }
    }

    fn new_paged_out<R: Wait>(
        &self,
        rt: &R,
        alloc: Global,
        node_type: u32,
        key: DataKey,
    ) -> Result<(NodeNumber, HandleNumber), Error> {
        let mut pager = lock_briefly(&self.inner.pager, rt);
        let handle = pager.new_paged_out(alloc, node_type, key)?;
        Ok((pager.node_of(handle)?, handle))
    }

    fn clone_handle<R: Wait>(&self, rt: &R, handle: HandleNumber) -> Result<HandleNumber, Error> {
        let mut pager = lock_briefly(&self.inner.pager, rt);
        pager.assert_invariant();
        pager.clone(handle)
    }

    fn pin<R: Wait>(
        &self,
        rt: &R,
        alloc: Global,
        handle: HandleNumber,
    ) -> Result<NewPin<E::Node>, Error> {
        self.pin_cell(rt, alloc, handle)
    }

    fn polled_pin(&self, handle: HandleNumber) -> Result<HandlePin<E, S>, Error> {
        Ok(HandlePin::new(self.clone()?, handle))
    }

    fn unpin<R: Wait>(&self, rt: &R, handle: HandleNumber) -> Result<(), Error> {
        lock_briefly(&self.inner.pager, rt).unpin(handle)
    }

    fn into_pagable<R: Wait>(&self, rt: &R, handle: HandleNumber) -> Result<(), Error> {
        let _same = lock_briefly(&self.inner.pager, rt).into_pagable(handle)?;
        Ok(())
    }

    fn release<R: Wait>(&self, rt: &R, handle: HandleNumber) -> Result<(), Error> {
        lock_briefly(&self.inner.pager, rt).release(handle)
    }

    fn count<R: Wait>(&self, rt: &R, handle: HandleNumber) -> Result<u64, Error> {
        lock_briefly(&self.inner.pager, rt).count(handle)
    }

    fn key<R: Wait>(&self, rt: &R, handle: HandleNumber) -> Result<OptionalDataKey, Error> {
        lock_briefly(&self.inner.pager, rt).key(handle)
    }

    fn set_data_key<R: Wait>(
        &self,
        rt: &R,
        handle: HandleNumber,
        key: DataKey,
    ) -> Result<(), Error> {
        lock_briefly(&self.inner.pager, rt).set_data_key(handle, key)
    }

    fn is_paged_out<R: Wait>(&self, rt: &R, handle: HandleNumber) -> Result<bool, Error> {
        lock_briefly(&self.inner.pager, rt).is_paged_out(handle)
    }
}
