//! References that hold their shared value.

ghost use Rattle.pagable_traits.specs.{
  Erased.{IsInserted, IsValueOfHandle, first_handle_of},
  HeldValues.holding_beside,
  Meanings.exactly,
  References.{holding_kind, holding_means, holding_reference, lending_causes, reads_lending, reference_has_one_form},
};
ghost use Rattle.pagable_value_spec.specs.Shape.{reference as reference_shape};
ghost use Rattle.std.specs.{
  Arc.arc_value,
  Prelude.{Err, IfErr, IfOk, IfSome, Ok, OnOk, nat_eq, ◌<◌, ◌≡◌, ◌≢◌},
};

use crate::raw_ref::{read_reference, write_reference};
use crate::storage::{FirstHandle, was_released_despite};
use crate::{
    Canonical, Carried, OneMeaning, PagableArc, PagableDeserialize, PagableSerialize, Storage,
};
use pagable_codec::{
    ArcRef, Env, HandleNumber, Kind, NodeNumber, OfNode, PagableDeserializer, PagableSerializer,
};
use pagable_flavors::{Error, Reason};
use pagable_value_spec::OptionalDataKey;
use std::alloc::Global;
use std::ops::Deref;
use std::sync::{Arc as Shared, Wait};

/// A reference that holds its shared value: reading the value takes no lock. If `t` is the number
/// of the type `T`, the reference's kind is `3t + 2` for a pin (`PINS`), else `3t`. Two references
/// are equal if their values are, whatever their nodes.
#[derive(Drop)]
#[derive_where(PartialEq, Eq; T)]
pub struct HoldingArc<T, const PINS: bool> {
    #[derive_where(skip)]
    node: NodeNumber,
    #[derive_where(skip)]
    handle: HandleNumber,
    value: Shared<T>,
}

/// A shared reference: the value stays in memory as long as its node lives, and the node has no key
/// of its own.
pub type Arc<T> = HoldingArc<T, false>;

/// A pin: the value stays in memory as long as its cell is pinned; after that it may leave memory.
pub type PinnedPagableArc<T> = HoldingArc<T, true>;

/// Returns the kind of the references that hold values of type `T`: pins if `pins`, else shared
/// references.
pub fn holding_kind_of<E: Env, T: OfNode<E>>(pins: bool) -> Kind
    ensures { result.0 ≡ holding_kind T.TYPE pins }
{
    if pins {
        Kind(3 * T::TYPE + 2)
    } else {
        Kind(3 * T::TYPE)
    }
}

impl<T, const PINS: bool> HoldingArc<T, PINS> {
    /// Returns the reference with its kind, as values list it.
    pub fn reference<E: Env>(&self) -> ArcRef
    where
        T: OfNode<E>,
        ensures { result ≡ holding_reference T.TYPE PINS self.now }
    {
        ArcRef {
            kind: holding_kind_of::<E, T>(PINS),
            node: self.node,
            handle: self.handle,
        }
    }

    /// Returns `reference` as a typed one that holds `value`, or `value` as the error if
    /// `reference` is of another kind.
    pub fn from_reference<E: Env>(
        reference: ArcRef,
        value: Shared<T>,
    ) -> Result<HoldingArc<T, PINS>, Shared<T>>
    where
        T: OfNode<E>,
        ensures ok { IfOk result (λ a. (holding_reference T.TYPE PINS a ≡ reference)
            × (arc_value a.value ≡ arc_value value)) }
        ensures back { IfErr result (λ v. (reference.kind.0 ≢ holding_kind T.TYPE PINS)
            × (arc_value v ≡ arc_value value)) }
    {
        if reference.kind != holding_kind_of::<E, T>(PINS) {
            return Err(value);
        }
        Ok(HoldingArc {
            node: reference.node,
            handle: reference.handle,
            value,
        })
    }

    /// Returns the shared value.
    pub fn get(&self) -> &T
        ensures { result.now ≡ arc_value self.now.value }
    {
        self.value.as_ref()
    }

    /// Returns whether both references refer to the same node. The call compares no values.
    pub fn ptr_eq(left: &HoldingArc<T, PINS>, right: &HoldingArc<T, PINS>) -> bool
        ensures { result ≡ nat_eq left.now.node.0 right.now.node.0 }
    {
        left.node.0 == right.node.0
    }

    /// Inserts the value into the storage as a new node, and returns the node's first reference,
    /// which holds the value.
    ///
    /// # Errors
    ///
    /// Each returns the value to the caller.
    ///
    /// - as `Storage::insert`.
    /// - `OutOfMemory` if the value can't be shared once more.
    #[tactic(auto, using(crate::proofs::Handles::made))]
    pub fn new<E: Env, R: Wait, S: Storage<E>>(
        rt: &R,
        alloc: Global,
        value: Shared<T>,
        storage: &S,
    ) -> Result<HoldingArc<T, PINS>, (Error, Shared<T>)>
    where
        T: OfNode<E> + Drop,
        ensures holds { IfOk result (λ a. arc_value a.value ≡ arc_value value) }
        ensures handle_value { IfOk result (λ a. IsValueOfHandle T.held (S.nodes_by_handle storage.now) a.handle.0
            (arc_value value)) }
        ensures made { IfOk result (λ a. IsInserted T.held (arc_value value)
            (λ n. S.new_nodes storage.now n (first_handle_of PINS) (a.node, a.handle))) }
        ensures back { IfErr result (λ r. arc_value r.1 ≡ arc_value value) }
    {
        let inserted = match Shared::try_clone(&value) {
            Ok(shared) => storage.insert(rt, alloc, T::into_node(shared), first_handle(PINS)),
            Err(e) => Err(e.into()),
        };
        match inserted {
            Ok((node, handle)) => Ok(HoldingArc {
                node,
                handle,
                value,
            }),
            Err(e) => Err((e, value)),
        }
    }

    /// Makes another reference to the node, in the same mode, with the same value.
    ///
    /// # Errors
    ///
    /// - as `Storage::clone_handle`.
    /// - `OutOfMemory` if the value can't be shared once more.
    pub fn clone<E: Env, R: Wait, S: Storage<E>>(
        &self,
        rt: &R,
        storage: &S,
    ) -> Result<HoldingArc<T, PINS>, Error>
    where
        T: Drop,
        ensures value { IfOk result (λ a. arc_value a.value ≡ arc_value self.now.value) }
        ensures handle_value { IfOk result (λ a. IfSome (S.nodes_by_handle storage.now)
            (λ at. at a.handle.0 ≡ at self.now.handle.0)) }
        ensures node { IfOk result (λ a. a.node ≡ self.now.node) }
        ensures later { IfOk result (λ a. self.now.handle.0 < a.handle.0) }
        ensures clone { IfOk result (λ a. S.clones storage.now self.now.handle a.handle) }
    {
        let value = Shared::try_clone(&self.value)?;
        let handle = storage.clone_handle(rt, self.handle)?;
        Ok(HoldingArc {
            node: self.node,
            handle,
            value,
        })
    }

    /// Releases the reference.
    ///
    /// # Errors
    ///
    /// - as `Storage::release`: the caller gets the reference back, except with `NumbersSpent` and
    ///   `OutOfMemory`, when it is released all the same.
    pub fn release<E: Env, R: Wait, S: Storage<E>>(
        self,
        rt: &R,
        storage: &S,
    ) -> Result<(), (Error, Option<HoldingArc<T, PINS>>)>
    where
        T: Drop,
        ensures released { OnOk result (S.release_answers storage.now self.handle (Ok tt)) }
        ensures refused { IfErr result (λ r. S.release_answers storage.now self.handle (Err r.0)) }
        ensures back { IfErr result (λ r. IfSome r.1 (λ a. a ≡ self)) }
    {
        match storage.release(rt, self.handle) {
            Ok(()) => Ok(()),
            Err(e) if was_released_despite(&e) => Err((e, None)),
            Err(e) => Err((e, Some(self))),
        }
    }

    /// Returns how many handles pin the reference's node.
    ///
    /// # Errors
    ///
    /// - `NoSuchHandle` if the reference's handle was released by its number.
    pub fn count<E: Env, R: Wait, S: Storage<E>>(&self, rt: &R, storage: &S) -> Result<u64, Error>
        ensures answers { S.counts storage.now self.now.handle result }
    {
        storage.count(rt, self.handle)
    }

    /// Returns the key of the reference's node, if it is a cell that has one.
    ///
    /// # Errors
    ///
    /// - `NoSuchHandle` if the reference's handle was released by its number.
    pub fn key<E: Env, R: Wait, S: Storage<E>>(
        &self,
        rt: &R,
        storage: &S,
    ) -> Result<OptionalDataKey, Error>
        ensures answers { S.key_answers storage.now self.now.handle result }
    {
        storage.key(rt, self.handle)
    }

    /// Returns whether the value of the reference's node isn't in memory.
    ///
    /// # Errors
    ///
    /// - `NoSuchHandle` if the reference's handle was released by its number.
    pub fn is_paged_out<E: Env, R: Wait, S: Storage<E>>(
        &self,
        rt: &R,
        storage: &S,
    ) -> Result<bool, Error>
        ensures answers { S.paged_out_answers storage.now self.now.handle result }
    {
        storage.is_paged_out(rt, self.handle)
    }
}

// Returns the mode of a new node's first handle, for a pin or a shared reference.
fn first_handle(is_pin: bool) -> FirstHandle
    ensures { result ≡ first_handle_of is_pin }
{
    if is_pin {
        FirstHandle::Pinned
    } else {
        FirstHandle::Shared
    }
}

impl<T> HoldingArc<T, true> {
    /// Makes a pin from its node, its handle and its value.
    pub(crate) fn from_handle(
        node: NodeNumber,
        handle: HandleNumber,
        value: Shared<T>,
    ) -> PinnedPagableArc<T>
        ensures numbers { (result.node ≡ node) × (result.handle ≡ handle) }
        ensures value { result.value ≡ value }
    {
        HoldingArc {
            node,
            handle,
            value,
        }
    }

    /// Turns the pin into a loose reference with the same handle, which pins.
    ///
    /// # Errors
    ///
    /// - as `Storage::into_pagable`: the caller gets the pin back.
    pub fn into_pagable<E: Env, R: Wait, S: Storage<E>>(
        self,
        rt: &R,
        storage: &S,
    ) -> Result<PagableArc<T>, (Error, PinnedPagableArc<T>)>
    where
        T: Drop,
        ensures numbers { IfOk result (λ a. (a.node ≡ self.node) × (a.handle ≡ self.handle)) }
        ensures loosened { OnOk result (S.loosen_answers storage.now self.handle (Ok tt)) }
        ensures refused { IfErr result (λ r. S.loosen_answers storage.now self.handle (Err r.0)) }
        ensures back { IfErr result (λ r. r.1 ≡ self) }
    {
        match storage.into_pagable(rt, self.handle) {
            Ok(()) => Ok(PagableArc::from_handle(self.node, self.handle)),
            Err(e) => Err((e, self)),
        }
    }

    /// Borrows the pin.
    pub fn borrow(pin: &PinnedPagableArc<T>) -> PinnedPagableArcBorrow<'_, T>
        ensures { result.pin.now ≡ pin.now }
    {
        PinnedPagableArcBorrow { pin }
    }
}

impl<T, const PINS: bool> Deref for HoldingArc<T, PINS> {
    type Target = T;

    ghost deref_gives = { λ a x. x ≡ arc_value a.value };

    fn deref(&self) -> &T {
        self.get()
    }
}

/// A borrowed pin: its value stays in memory as long as the borrow lasts.
#[derive_where(Clone, Copy)]
pub struct PinnedPagableArcBorrow<'a, T> {
    pub pin: &'a PinnedPagableArc<T>,
}

impl<'a, T> PinnedPagableArcBorrow<'a, T> {
    /// Returns the shared value.
    pub fn get(self) -> &'a T
        ensures { result.now ≡ arc_value self.entry.pin.now.value }
    {
        let pin = self.pin;
        pin.get()
    }

    /// Makes another pin of the node, which holds the same value.
    ///
    /// # Errors
    ///
    /// - as `PinnedPagableArc::clone`.
    pub fn clone_arc<E: Env, R: Wait, S: Storage<E>>(
        self,
        rt: &R,
        storage: &S,
    ) -> Result<PinnedPagableArc<T>, Error>
    where
        T: Drop,
        ensures value { IfOk result (λ a. arc_value a.value ≡ arc_value self.entry.pin.now.value) }
        ensures node { IfOk result (λ a. a.node ≡ self.entry.pin.now.node) }
        ensures later { IfOk result (λ a. self.entry.pin.now.handle.0 < a.handle.0) }
        ensures clone { IfOk result (λ a. S.clones storage.now self.entry.pin.now.handle a.handle) }
    {
        let pin = self.pin;
        pin.clone(rt, storage)
    }
}

impl<'a, T> Deref for PinnedPagableArcBorrow<'a, T> {
    type Target = T;

    ghost deref_gives = { λ b x. x ≡ arc_value b.pin.now.value };

    fn deref(&self) -> &T {
        let pin = self.pin;
        pin.get()
    }
}

impl<E: Env, T: OfNode<E>, const PINS: bool> Carried<E> for HoldingArc<T, PINS> {
    ghost shape = { λ e. reference_shape (holding_kind T.TYPE PINS) };

    ghost means = { exactly (holding_means T.TYPE PINS) };

    ghost beside = { holding_beside T.TYPE PINS T.held };
}

impl<E: Env, T: OfNode<E>, const PINS: bool> OneMeaning<E> for HoldingArc<T, PINS> {
    ghost single = { λ a m is. is };
}

impl<E: Env, T: OfNode<E>, const PINS: bool> Canonical<E> for HoldingArc<T, PINS> {
    ghost one_form = { λ e. reference_has_one_form (E.parts e) (holding_kind T.TYPE PINS) };
}

impl<E: Env, T: OfNode<E>, const PINS: bool> PagableSerialize<E> for HoldingArc<T, PINS> {
    fn pagable_serialize<S: PagableSerializer<E>>(&self, serializer: &mut S) -> Result<(), Error> {
        write_reference(self.reference::<E>(), serializer)
    }
}

// Returns the error for a reference whose value the deserializer doesn't lend.
fn not_lent_error() -> Error
    ensures { lending_causes result }
{
    Error::Custom(Reason::new("no value of the reference's type is lent"))
}

impl<'de, E: Env, T: OfNode<E> + Drop, const PINS: bool> PagableDeserialize<'de, E>
    for HoldingArc<T, PINS> {
    ghost read_causes = { reads_lending };

    /// Reads the next reference, of this sort, which then holds the value that the deserializer
    /// lends for it.
    ///
    /// # Errors
    ///
    /// - an error of the reference itself.
    /// - `OutOfMemory`.
    /// - `Custom` if the deserializer lends no value of the type for the reference.
    #[tactic(auto, using(crate::proofs::Lent::taken_holds))]
    fn pagable_deserialize<D: PagableDeserializer<E>>(
        alloc: Global,
        deserializer: &mut D,
    ) -> Result<Self, Error> {
        let reference = read_reference(holding_kind_of::<E, T>(PINS), deserializer)?;
        match deserializer.shared::<T>(alloc, reference)? {
            None => Err(not_lent_error()),
            Some(value) => Ok(HoldingArc {
                node: reference.node,
                handle: reference.handle,
                value,
            }),
        }
    }
}
