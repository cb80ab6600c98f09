//! Loose references: they hold no value, and are pinned to get it.

ghost use Rattle.pagable_traits.specs.{
  Erased.{HoldsRead, IsInserted, IsPinOfClone, IsValueOfHandle},
  Meanings.exactly,
  References.{loose_kind, loose_means, loose_reference, reference_has_one_form},
  declared.{pin_future.PinStage.PinStage, storage.FirstHandle.FirstHandle},
};
ghost use Rattle.pagable_value_spec.specs.Shape.{reference as reference_shape};
ghost use Rattle.std.specs.{
  Arc.arc_value,
  Prelude.{Err, IfErr, IfNone, IfOk, IfSome, Ok, OnOk, nat_eq, ◌<◌, ◌≡◌, ◌≢◌},
};

use crate::pin_future::PinFuture;
use crate::raw_ref::write_reference;
use crate::storage::{FirstHandle, NewPin, was_released_despite};
use crate::{
    Canonical, Carried, OneMeaning, PagableDeserialize, PagableSerialize, PinnedPagableArc, Storage,
};
use pagable_codec::{
    ArcRef, Env, HandleNumber, Kind, NodeNumber, OfNode, PagableDeserializer, PagableSerializer,
};
use pagable_flavors::Error;
use pagable_value_spec::{DataKey, OptionalDataKey};
use std::alloc::Global;
use std::marker::PhantomData;
use std::sync::{Arc, Wait};

/// A loose reference to a shared value of type `T`. It holds no value: reading the reference reads
/// nothing of the value, and pinning it returns the value.
#[derive(Debug, Drop)]
pub struct PagableArc<T> {
    node: NodeNumber,
    handle: HandleNumber,
    value: PhantomData<T>,
}

/// Returns the kind of loose references to values of type `T`.
pub fn loose_kind_of<E: Env, T: OfNode<E>>() -> Kind
    ensures { result.0 ≡ loose_kind T.TYPE }
{
    Kind(3 * T::TYPE + 1)
}

impl<T> PagableArc<T> {
    /// Returns `reference` as a loose one, or None if it is of another kind.
    pub fn from_reference<E: Env>(reference: ArcRef) -> Option<PagableArc<T>>
    where
        T: OfNode<E>,
        ensures some { IfSome result (λ a. loose_reference T.TYPE a ≡ reference) }
        ensures none { IfNone result (reference.kind.0 ≢ loose_kind T.TYPE) }
    {
        if reference.kind != loose_kind_of::<E, T>() {
            return None;
        }
        Some(PagableArc {
            node: reference.node,
            handle: reference.handle,
            value: PhantomData,
        })
    }

    /// Returns the reference with its kind, as values list it.
    pub fn reference<E: Env>(&self) -> ArcRef
    where
        T: OfNode<E>,
        ensures { result ≡ loose_reference T.TYPE self.now }
    {
        ArcRef {
            kind: loose_kind_of::<E, T>(),
            node: self.node,
            handle: self.handle,
        }
    }

    /// Makes a loose reference from its node and its handle.
    pub(crate) fn from_handle(node: NodeNumber, handle: HandleNumber) -> PagableArc<T>
        ensures { (result.node ≡ node) × (result.handle ≡ handle) }
    {
        PagableArc {
            node,
            handle,
            value: PhantomData,
        }
    }

    /// Inserts the value into the storage as a new cell, and returns the cell's first reference,
    /// which pins.
    ///
    /// # Errors
    ///
    /// Each returns the value to the caller.
    ///
    /// - as `Storage::insert`.
    /// - `OutOfMemory` if the value can't be shared once more.
    #[tactic(auto, using(crate::proofs::Handles::made))]
    pub fn new<E: Env, R: Wait, S: Storage<E>>(
        rt: &R,
        alloc: Global,
        value: Arc<T>,
        storage: &S,
    ) -> Result<PagableArc<T>, (Error, Arc<T>)>
    where
        T: OfNode<E> + Drop,
        ensures handle_value { IfOk result (λ a. IsValueOfHandle T.held (S.nodes_by_handle storage.now) a.handle.0
            (arc_value value)) }
        ensures made { IfOk result (λ a. IsInserted T.held (arc_value value)
            (λ n. S.new_nodes storage.now n FirstHandle.Loose (a.node, a.handle))) }
        ensures back { IfErr result (λ r. arc_value r.1 ≡ arc_value value) }
    {
        let inserted = match Arc::try_clone(&value) {
            Ok(shared) => storage.insert(rt, alloc, T::into_node(shared), FirstHandle::Loose),
            Err(e) => Err(e.into()),
        };
        match inserted {
            Ok((node, handle)) => Ok(PagableArc::from_handle(node, handle)),
            Err(e) => Err((e, value)),
        }
    }

    /// Makes a cell whose value is stored under this key and has the type `T`, and returns the
    /// cell's first reference, which pins nothing. The call reads nothing: the caller must know
    /// that the blob of the key is read as a value of this type.
    ///
    /// # Errors
    ///
    /// - as `Storage::new_paged_out`.
    pub fn new_paged_out<E: Env, R: Wait, S: Storage<E>>(
        rt: &R,
        alloc: Global,
        key: DataKey,
        storage: &S,
    ) -> Result<PagableArc<T>, Error>
    where
        T: OfNode<E>,
        ensures made { IfOk result (λ a. S.new_cells storage.now T.TYPE key (a.node, a.handle)) }
    {
        let (node, handle) = storage.new_paged_out(rt, alloc, T::TYPE, key)?;
        Ok(PagableArc::from_handle(node, handle))
    }

    /// Makes another reference to the same cell, in the same mode: it pins if this one does.
    ///
    /// # Errors
    ///
    /// - as `Storage::clone_handle`.
    pub fn clone<E: Env, R: Wait, S: Storage<E>>(
        &self,
        rt: &R,
        storage: &S,
    ) -> Result<PagableArc<T>, Error>
        ensures node { IfOk result (λ a. a.node ≡ self.now.node) }
        ensures handle_value { IfOk result (λ a. IfSome (S.nodes_by_handle storage.now)
            (λ at. at a.handle.0 ≡ at self.now.handle.0)) }
        ensures later { IfOk result (λ a. self.now.handle.0 < a.handle.0) }
        ensures clone { IfOk result (λ a. S.clones storage.now self.now.handle a.handle) }
    {
        let handle = storage.clone_handle(rt, self.handle)?;
        Ok(PagableArc::from_handle(self.node, handle))
    }

    /// Pins the reference's cell, loading the value if it isn't in memory. From then on this
    /// reference pins too. The caller must own the reference; `follow` is for one that is in a
    /// value.
    ///
    /// # Errors
    ///
    /// Each leaves handles and counts as they were.
    ///
    /// - as `Storage::pin`.
    /// - `WrongKind` if the cell's value is of another type.
    /// - `OutOfMemory` if the value can't be shared once more.
    pub fn pin_sync<E: Env, R: Wait, S: Storage<E>>(
        &self,
        rt: &R,
        alloc: Global,
        storage: &S,
    ) -> Result<PinnedPagableArc<T>, Error>
    where
        T: OfNode<E> + Drop,
        ensures value { IfOk result (λ p. IsValueOfHandle T.held (S.nodes_by_handle storage.now) self.now.handle.0
            (arc_value p.value)) }
        ensures node { IfOk result (λ p. p.node ≡ self.now.node) }
        ensures pin { IfOk result (λ p. S.pins storage.now self.now.handle p.handle) }
    {
        let (pin, _key) = self.pin_and_key(rt, alloc, storage)?;
        Ok(pin)
    }

    /// Does what `pin_sync` does, and returns also the key under which this call has read the
    /// value; None if the value was in memory.
    ///
    /// # Errors
    ///
    /// - as `pin_sync`: handles and counts are as they were.
    pub fn pin_and_key<E: Env, R: Wait, S: Storage<E>>(
        &self,
        rt: &R,
        alloc: Global,
        storage: &S,
    ) -> Result<(PinnedPagableArc<T>, Option<DataKey>), Error>
    where
        T: OfNode<E> + Drop,
        ensures value { IfOk result (λ p. IsValueOfHandle T.held (S.nodes_by_handle storage.now) self.now.handle.0
            (arc_value p.0.value)) }
        ensures node { IfOk result (λ p. p.0.node ≡ self.now.node) }
        ensures pin { IfOk result (λ p. S.pins storage.now self.now.handle p.0.handle) }
        ensures keyed { IfOk result (λ p. IfSome p.1
            (λ key. HoldsRead T.held (arc_value p.0.value) (S.reads storage.now key))) }
    {
        let pin = storage.pin(rt, alloc, self.handle)?;
        let NewPin {
            handle,
            value: node,
            was_unpinned,
            read_from,
        } = pin;
        let refused = match T::from_node(alloc, node.as_ref()) {
            Ok(Some(value)) => {
                let pin = PinnedPagableArc::from_handle(self.node, handle, value);
                return Ok((pin, read_from));
            }
            Ok(None) => Error::WrongKind,
            Err(e) => e,
        };
        if was_unpinned {
            let _told = storage.unpin(rt, self.handle);
        }
        let _told = storage.release(rt, handle);
        Err(refused)
    }

    /// Returns a future that pins the cell of this reference. The caller must own the reference.
    /// The first poll begins the pin.
    ///
    /// # Errors
    ///
    /// - `OutOfMemory` if the storage is shared too often already.
    pub fn pin<E: Env, S: Storage<E>>(&self, storage: &S) -> Result<PinFuture<T, S::Pin>, Error>
        ensures node { IfOk result (λ p. p.node ≡ self.now.node) }
        ensures begins { IfOk result (λ p. S.Pin.stage p.pin ≡ PinStage.Begin) }
    {
        let pin = storage.polled_pin(self.handle)?;
        Ok(PinFuture::new(self.node, pin))
    }

    /// Pins the cell of a reference whose handle a value owns: clones the reference, pins by the
    /// clone, and releases the clone.
    ///
    /// # Errors
    ///
    /// - as `clone` and `pin_sync`: handles and counts are as they were.
    #[tactic(auto, using(crate::proofs::Handles::made))]
    pub fn follow<E: Env, R: Wait, S: Storage<E>>(
        &self,
        rt: &R,
        alloc: Global,
        storage: &S,
    ) -> Result<PinnedPagableArc<T>, Error>
    where
        T: OfNode<E> + Drop,
        ensures value { IfOk result (λ p. IsValueOfHandle T.held (S.nodes_by_handle storage.now) self.now.handle.0
            (arc_value p.value)) }
        ensures node { IfOk result (λ p. p.node ≡ self.now.node) }
        ensures pin { IfOk result (λ p. IsPinOfClone (S.clones storage.now) (S.pins storage.now) self.now.handle
            p.handle) }
    {
        let clone = self.clone(rt, storage)?;
        let pin = clone.pin_sync(rt, alloc, storage);
        let _told = clone.release(rt, storage);
        pin
    }

    /// Unpins the reference: it stops pinning its cell. If it was the cell's last pin and the cell
    /// has no key, the storage, if open, lists the cell for page-out.
    ///
    /// # Errors
    ///
    /// - as `Storage::unpin`.
    pub fn unpin<E: Env, R: Wait, S: Storage<E>>(&self, rt: &R, storage: &S) -> Result<(), Error>
        ensures answers { S.unpin_answers storage.now self.now.handle result }
    {
        storage.unpin(rt, self.handle)
    }

    /// Sets the key of the reference's cell, with the errors of `Storage::set_data_key`.
    pub(crate) fn set_key<E: Env, R: Wait, S: Storage<E>>(
        &self,
        rt: &R,
        key: DataKey,
        storage: &S,
    ) -> Result<(), Error>
        ensures answers { S.set_key_answers storage.now self.now.handle key result }
    {
        storage.set_data_key(rt, self.handle, key)
    }

    /// Releases the reference.
    ///
    /// # Errors
    ///
    /// - as `Storage::release`: the caller gets the reference back, except with `NumbersSpent` and
    ///   `OutOfMemory`, when it is released all the same.
    pub fn release<E: Env, R: Wait, S: Storage<E>>(
        self,
        rt: &R,
        storage: &S,
    ) -> Result<(), (Error, Option<PagableArc<T>>)>
        ensures released { OnOk result (S.release_answers storage.now self.handle (Ok tt)) }
        ensures refused { IfErr result (λ r. S.release_answers storage.now self.handle (Err r.0)) }
        ensures back { IfErr result (λ r. IfSome r.1 (λ a. a ≡ self)) }
    {
        match storage.release(rt, self.handle) {
            Ok(()) => Ok(()),
            Err(e) if was_released_despite(&e) => Err((e, None)),
            Err(e) => Err((e, Some(self))),
        }
    }

    /// Returns how many handles pin the reference's node.
    ///
    /// # Errors
    ///
    /// - `NoSuchHandle` if the reference's handle was released by its number.
    pub fn count<E: Env, R: Wait, S: Storage<E>>(&self, rt: &R, storage: &S) -> Result<u64, Error>
        ensures answers { S.counts storage.now self.now.handle result }
    {
        storage.count(rt, self.handle)
    }

    /// Returns the key of the reference's cell, if the cell has one.
    ///
    /// # Errors
    ///
    /// - `NoSuchHandle` if the reference's handle was released by its number.
    pub fn key<E: Env, R: Wait, S: Storage<E>>(
        &self,
        rt: &R,
        storage: &S,
    ) -> Result<OptionalDataKey, Error>
        ensures answers { S.key_answers storage.now self.now.handle result }
    {
        storage.key(rt, self.handle)
    }

    /// Returns whether the value of the reference's cell isn't in memory.
    ///
    /// # Errors
    ///
    /// - `NoSuchHandle` if the reference's handle was released by its number.
    pub fn is_paged_out<E: Env, R: Wait, S: Storage<E>>(
        &self,
        rt: &R,
        storage: &S,
    ) -> Result<bool, Error>
        ensures answers { S.paged_out_answers storage.now self.now.handle result }
    {
        storage.is_paged_out(rt, self.handle)
    }

    /// Returns whether both references refer to the same node.
    pub fn ptr_eq(left: &PagableArc<T>, right: &PagableArc<T>) -> bool
        ensures { result ≡ nat_eq left.now.node.0 right.now.node.0 }
    {
        left.node.0 == right.node.0
    }
}

impl<E: Env, T: OfNode<E>> Carried<E> for PagableArc<T> {
    ghost shape = { λ e. reference_shape (loose_kind T.TYPE) };

    ghost means = { exactly (loose_means T.TYPE) };
}

impl<E: Env, T: OfNode<E>> OneMeaning<E> for PagableArc<T> {
    ghost single = { λ a m is. is };
}

impl<E: Env, T: OfNode<E>> Canonical<E> for PagableArc<T> {
    ghost one_form = { λ e. reference_has_one_form (E.parts e) (loose_kind T.TYPE) };
}

impl<E: Env, T: OfNode<E>> PagableSerialize<E> for PagableArc<T> {
    fn pagable_serialize<S: PagableSerializer<E>>(&self, serializer: &mut S) -> Result<(), Error> {
        write_reference(self.reference::<E>(), serializer)
    }
}

impl<'de, E: Env, T: OfNode<E>> PagableDeserialize<'de, E> for PagableArc<T> {
    #[tactic(auto, unfolding(pagable_value_spec::specs::Reading::read, pagable_value_spec::specs::Reading::read_with), using(pagable_codec::proofs::Reading::parts))]
    fn pagable_deserialize<D: PagableDeserializer<E>>(
        _alloc: Global,
        deserializer: &mut D,
    ) -> Result<Self, Error> {
        let reference = deserializer.deserialize_arc(loose_kind_of::<E, T>())?;
        Ok(PagableArc {
            node: reference.node,
            handle: reference.handle,
            value: PhantomData,
        })
    }
}
