//! Pins of cells on a storage that threads share: how one goes on that has begun, and how it ends. Each
//! call of the pager takes and releases the lock, which is free while a value is read.

ghost use Rattle.pagable_core.specs.Data.{blob_of};
ghost use Rattle.pagable_load.specs.{AccessView.values_at, Decoding.IsReadAs, Keyed.IsPinKeyed};
ghost use Rattle.pagable_value_spec.specs.Blob.{key_of};
ghost use Rattle.std.specs.{Arc.arc_value, Prelude.{IfErr, IfOk, IfSome, None, Some, [], ◌≡◌}};

use crate::storage_handle::PagableStorageHandle;
use pagable_codec::{Env, NodeSet};
use pagable_core::{PagableData, PagableStorage};
use pagable_load::{Access, BegunPin, CellReading, begin_polled_pin, pin_with_state_over};
use pagable_pager::{BegunFetch, read_leaf};
use pagable_tables::leaf::Leaf;
use pagable_traits::NewPin;
use pagable_value_spec::{DataKey, Error, HandleNumber, LoadNumber};
use std::alloc::Global;
use std::sync::{Arc, Wait};

impl<E: Env<Node: NodeSet<E>>, S: PagableStorage<E>> PagableStorageHandle<E, S> {
    // Undoes a pin: releases the Pinned handle, and unpins the loose one if the pin had pinned it.
    pub(crate) fn undo_pin_of<R: Wait>(
        &self,
        rt: &R,
        handle: HandleNumber,
        pinned: HandleNumber,
        was_unpinned: bool,
    ) {
        let mut access = self.access(rt);
        if was_unpinned {
            let _told = access.unpin(handle);
        }
        let _told = access.release(pinned);
    }

    // Returns a new pin of a cell that had its value, or undoes the pin if the value can't be
    // shared.
    #[inline(always)]
    pub(crate) fn finish_pin<R: Wait>(
        &self,
        rt: &R,
        handle: HandleNumber,
        pinned: HandleNumber,
        was_unpinned: bool,
        shared: Result<Option<Arc<E::Node>>, Error>,
    ) -> Result<NewPin<E::Node>, Error>
        ensures { IfOk result (λ pin. pin.read_from ≡ None) }
    {
        let refused = match shared {
            Ok(Some(value)) => {
                return Ok(NewPin {
                    handle: pinned,
                    value,
                    was_unpinned,
                    read_from: None,
                });
            }
            Ok(None) => Error::NoSuchHandle,
            Err(e) => e,
        };
        self.undo_pin_of(rt, handle, pinned, was_unpinned);
        Err(refused)
    }

    // Reads the cell's value from the cell's blob, and pins the cell.
    #[tactic(auto, using(pagable_load::proofs::Keyed::own_type))]
    pub(crate) fn read_pin<R: Wait>(
        &self,
        rt: &R,
        alloc: Global,
        handle: HandleNumber,
        reading: CellReading,
        blob: Arc<PagableData>,
    ) -> Result<NewPin<E::Node>, Error>
        requires named { key_of E.Hash.digest (blob_of (arc_value blob)) ≡ reading.reading.key }
        ensures keyed { IfOk result (λ pin. IsPinKeyed (values_at E.Node.NodeSet E.Env E.Hash.KeyHash
            (arc_value (arc_value self.now.inner).setting).env) pin.read_from (arc_value pin.value)) }
    {
        let mut access = self.access(rt);
        let key = reading.key();
        let (pinned, read) = reading.read(&mut access, alloc, blob)?;
        match read {
            Some(value) => Ok(NewPin {
                handle: pinned,
                value,
                was_unpinned: true,
                read_from: Some(key),
            }),
            None => self.finish_pin(rt, handle, pinned, true, access.share(pinned)),
        }
    }

    // Drops this load.
    pub(crate) fn drop_load<R: Wait>(&self, rt: &R, load: LoadNumber) {
        let _told = self.access(rt).load_drop(load);
    }

    // Pins the cell of a loose handle, whose value wasn't in memory when this blob was fetched for it:
    // by a load with this blob, if the cell still has its key, and else anew.
    fn pin_by_load<R: Wait>(
        &self,
        rt: &R,
        alloc: Global,
        handle: HandleNumber,
        key: DataKey,
        blob: Arc<PagableData>,
    ) -> Result<NewPin<E::Node>, Error>
        requires named { key_of E.Hash.digest (blob_of (arc_value blob)) ≡ key }
        ensures keyed { IfOk result (λ pin. IsPinKeyed (values_at E.Node.NodeSet E.Env E.Hash.KeyHash
            (arc_value (arc_value self.now.inner).setting).env) pin.read_from (arc_value pin.value)) }
    {
        match begin_polled_pin(&mut self.access(rt), alloc, handle)? {
            BegunPin::Pinned(pinned, was_unpinned, shared) => {
                self.finish_pin(rt, handle, pinned, was_unpinned, shared)
            }
            BegunPin::Reading(reading) => {
                if reading.key() == key {
                    return self.read_pin(rt, alloc, handle, reading, blob);
                }
                self.drop_load(rt, reading.load());
                self.pin_anew(rt, alloc, handle)
            }
        }
    }

    // Pins the cell of a loose handle; if its value isn't in memory, by a load of single steps.
    fn pin_anew<R: Wait>(
        &self,
        rt: &R,
        alloc: Global,
        handle: HandleNumber,
    ) -> Result<NewPin<E::Node>, Error>
        ensures keyed { IfOk result (λ pin. IsPinKeyed (values_at E.Node.NodeSet E.Env E.Hash.KeyHash
            (arc_value (arc_value self.now.inner).setting).env) pin.read_from (arc_value pin.value)) }
    {
        let mut access = self.access(rt);
        let pin = pin_with_state_over(&mut access, alloc, handle)?;
        Ok(NewPin {
            handle: pin.handle,
            value: pin.value,
            was_unpinned: pin.was_unpinned,
            read_from: pin.read_from,
        })
    }

    // Reads the blob of a cell, as `read_leaf` does.
    fn read_fetched<R: Wait>(
        &self,
        rt: &R,
        alloc: Global,
        blob: &PagableData,
        node_type: u32,
    ) -> Option<E::Node>
        ensures read { IfSome result (IsReadAs (values_at E.Node.NodeSet E.Env E.Hash.KeyHash
            (arc_value (arc_value self.now.inner).setting).env) node_type (blob_of blob.now) []) }
        ensures bare { IfSome result (λ x. E.Node.refs_of x ≡ []) }
    {
        read_leaf(&self.access(rt), alloc, blob, node_type)
    }

    // Pins the cell of a leaf with a value that was read of the leaf's blob, as `Lent::pin_read_leaf` does.
    fn pin_read<'a, R: Wait>(
        &'a self,
        rt: &'a R,
        alloc: Global,
        leaf: Leaf,
        value: E::Node,
    ) -> Result<Option<NewPin<E::Node>>, Error>
        requires typed { E.Node.type_of value ≡ leaf.node_type }
        requires bare { E.Node.refs_of value ≡ [] }
        ensures read { IfOk result (λ found. IfSome found
            (λ pin. (arc_value pin.value ≡ value) × (pin.read_from ≡ Some leaf.key))) }
    {
        let key = leaf.key;
        let pinned = self.access(rt).pin_read_leaf(alloc, leaf, value)?;
        let Some(pin) = pinned else {
            return Ok(None);
        };
        let (handle, value) = pin;
        Ok(Some(NewPin {
            handle,
            value,
            was_unpinned: true,
            read_from: Some(key),
        }))
    }

    // Pins the cell of a loose handle, for which this blob was fetched. A value without references is
    // read before the lock is taken for its pin.
    #[tactic(auto, using(pagable_load::proofs::Keyed::own_type))]
    fn pin_fetched<R: Wait>(
        &self,
        rt: &R,
        alloc: Global,
        leaf: Leaf,
        blob: Arc<PagableData>,
    ) -> Result<NewPin<E::Node>, Error>
        requires named { key_of E.Hash.digest (blob_of (arc_value blob)) ≡ leaf.key }
        ensures keyed { IfOk result (λ pin. IsPinKeyed (values_at E.Node.NodeSet E.Env E.Hash.KeyHash
            (arc_value (arc_value self.now.inner).setting).env) pin.read_from (arc_value pin.value)) }
    {
        let (handle, key) = (leaf.row.number, leaf.key);
        let read = self.read_fetched(rt, alloc, blob.as_ref(), leaf.node_type);
        let Some(value) = read else {
            return self.pin_by_load(rt, alloc, handle, key, blob);
        };
        match self.pin_read(rt, alloc, leaf, value)? {
            Some(pin) => Ok(pin),
            None => self.pin_anew(rt, alloc, handle),
        }
    }

    // Pins the cell of a loose handle: in one hold of the lock if its value is in memory, in two if its
    // blob has no references, and else by a load of single steps.
    #[inline(always)]
    pub(crate) fn pin_cell<R: Wait>(
        &self,
        rt: &R,
        alloc: Global,
        handle: HandleNumber,
    ) -> Result<NewPin<E::Node>, Error>
        ensures keyed { IfOk result (λ pin. IsPinKeyed (values_at E.Node.NodeSet E.Env E.Hash.KeyHash
            (arc_value (arc_value self.now.inner).setting).env) pin.read_from (arc_value pin.value)) }
    {
        match self.access(rt).begin_pin_or_fetch(alloc, handle)? {
            BegunFetch::Pinned(pinned, was_unpinned, shared) => {
                self.finish_pin(rt, handle, pinned, was_unpinned, shared)
            }
            BegunFetch::Fetched(leaf, blob) => self.pin_fetched(rt, alloc, leaf, blob),
            BegunFetch::Loading(load) => {
                self.drop_load(rt, load);
                self.pin_anew(rt, alloc, handle)
            }
        }
    }
}
