//! The typed calls on a storage that threads share.

ghost use Rattle.pagable_traits.specs.{
  Erased.{IsInserted, IsPinOfClone, IsValueOfHandle},
  declared.storage.FirstHandle.FirstHandle as First,
};
ghost use Rattle.pagable_typed.specs.GivenBack.{GivesValueBack, IsShownOf};
ghost use Rattle.std.specs.{
  Arc.arc_value,
  Fn.FnOnceReturnsAt,
  Prelude.{Err, IfErr, IfOk, IfSome, Ok, OnOk, ◌≡◌},
};

use crate::reference::Reference;
use crate::show::show_pinned;
use crate::uninserted::{Uninserted, share};
use pagable_codec::{Env, OfNode};
use pagable_traits::{PagableArc, PinnedPagableArc, Storage};
use pagable_value_spec::{Error, OptionalDataKey};
use std::alloc::Global;
use std::marker::PhantomData;
use std::sync::{Arc, Wait};

/// Typed calls of one thread on a storage that threads share, as a `PagableStorageHandle`. Each
/// takes the storage's lock for one step at a time; values are read and shown with no lock held.
#[derive(Drop)]
pub struct TypedStorage<'a, R: Wait, E: Env, S: Storage<E>> {
    rt: &'a R,
    storage: &'a S,
    env: PhantomData<E>,
}

impl<'a, R: Wait, E: Env, S: Storage<E>> TypedStorage<'a, R, E, S> {
    /// Makes the typed calls of a thread on a storage.
    pub fn new(rt: &'a R, storage: &'a S) -> TypedStorage<'a, R, E, S>
        ensures { result.storage.now ≡ storage.now }
    {
        TypedStorage {
            rt,
            storage,
            env: PhantomData,
        }
    }

    /// Inserts a value as a cell that nothing pins, which the storage lists for page-out if it is
    /// open, and returns a loose reference to it.
    ///
    /// # Errors
    ///
    /// - `OutOfMemory` with the value, if it can't be shared.
    /// - As `PagableArc::new`, with the shared value: nothing is inserted.
    /// - As `Storage::unpin`, with the handle: the cell is inserted.
    pub fn insert<T: OfNode<E> + Drop>(
        &self,
        alloc: Global,
        value: T,
    ) -> Result<PagableArc<T>, (Error, Uninserted<T, Arc<T>>)>
        ensures handle_value { IfOk result (λ a. IsValueOfHandle T.held (S.nodes_by_handle self.now.storage.now)
            a.handle.0 value) }
        ensures made { IfOk result (λ a. IsInserted T.held value
            (λ n. S.new_nodes self.now.storage.now n First.Loose (a.node, a.handle))) }
        ensures unpinned { IfOk result (λ a. S.unpin_answers self.now.storage.now a.handle (Ok tt)) }
        ensures back { IfErr result (λ refused. GivesValueBack
            (λ h. S.unpin_answers self.now.storage.now h (Err refused.0)) value refused.1) }
    {
        let shared = match share(alloc, value) {
            Ok(shared) => shared,
            Err(refused) => return Err((refused.0, Uninserted::Value(refused.1))),
        };
        let cell = match PagableArc::new(self.rt, alloc, shared, self.storage) {
            Ok(cell) => cell,
            Err(refused) => return Err((refused.0, Uninserted::Shared(refused.1))),
        };
        match cell.unpin(self.rt, self.storage) {
            Ok(()) => Ok(cell),
            Err(e) => Err((e, Uninserted::Handle(cell.reference::<E>().handle))),
        }
    }

    /// Makes one more reference to a cell, for a value to hold: a `RawRef`, or a `PagableArc`. The
    /// value owns it once it is inserted.
    ///
    /// # Errors
    ///
    /// - As `Storage::clone_handle`: nothing changes.
    /// - `WrongKind` if `Q` refers to values of another type than `T`: the new handle is released.
    pub fn reference<T: OfNode<E>, Q: Reference<E>>(&self, to: &PagableArc<T>) -> Result<Q, Error>
        ensures node { IfOk result (λ q. (Q.named q).node ≡ to.now.node) }
        ensures clone { IfOk result (λ q. S.clones self.now.storage.now to.now.handle (Q.named q).handle) }
    {
        let clone = match to.clone(self.rt, self.storage) {
            Ok(clone) => clone,
            Err(e) => return Err(e),
        };
        match Q::from_arc_ref(clone.reference::<E>()) {
            Some(made) => Ok(made),
            None => {
                let _told = clone.release(self.rt, self.storage);
                Err(Error::WrongKind)
            }
        }
    }

    /// Pins a reference's cell, and loads its value if it isn't in memory. The pin keeps the value
    /// in memory until `unpin`; the reference keeps its mode.
    ///
    /// # Errors
    ///
    /// - As `PagableArc::follow`: handles and counts are as they were.
    pub fn pin<T: OfNode<E> + Drop>(
        &self,
        alloc: Global,
        cell: &PagableArc<T>,
    ) -> Result<PinnedPagableArc<T>, Error>
        ensures value { IfOk result (λ p. IsValueOfHandle T.held (S.nodes_by_handle self.now.storage.now)
            cell.now.handle.0 (arc_value p.value)) }
        ensures node { IfOk result (λ p. p.node ≡ cell.now.node) }
        ensures pin { IfOk result (λ p. IsPinOfClone (S.clones self.now.storage.now) (S.pins self.now.storage.now)
            cell.now.handle p.handle) }
    {
        cell.follow(self.rt, alloc, self.storage)
    }

    /// Pins the cell to which a reference in a value refers, as `pin` does.
    ///
    /// # Errors
    ///
    /// - `WrongKind` if the reference is to values of another type than `T`.
    /// - As `pin`: handles and counts are as they were.
    pub fn follow<T: OfNode<E> + Drop, Q: Reference<E>>(
        &self,
        alloc: Global,
        reference: &Q,
    ) -> Result<PinnedPagableArc<T>, Error>
        ensures value { IfOk result (λ p. IsValueOfHandle T.held (S.nodes_by_handle self.now.storage.now)
            (Q.named reference.now).handle.0 (arc_value p.value)) }
        ensures node { IfOk result (λ p. p.node ≡ (Q.named reference.now).node) }
        ensures pin { IfOk result (λ p. IsPinOfClone (S.clones self.now.storage.now) (S.pins self.now.storage.now)
            (Q.named reference.now).handle p.handle) }
    {
        match PagableArc::from_reference::<E>(reference.arc_ref()) {
            Some(cell) => cell.follow(self.rt, alloc, self.storage),
            None => Err(Error::WrongKind),
        }
    }

    /// Calls `show` with the value of a reference's cell, which is pinned meanwhile, and returns the
    /// result.
    ///
    /// # Errors
    ///
    /// - As `pin`: handles and counts are as they were.
    /// - As `Storage::release`, if the value was shown and its pin can't be released.
    pub fn look<T: OfNode<E> + Drop, Y: Drop, F: FnOnce(&T) -> Y>(
        &self,
        alloc: Global,
        cell: &PagableArc<T>,
        show: F,
    ) -> Result<Y, Error>
    where
        F: Drop,
        requires { F.IsAlwaysCallable show }
        ensures shows { IfOk result (IsShownOf (IsValueOfHandle T.held (S.nodes_by_handle self.now.storage.now)
            cell.now.handle.0) (FnOnceReturnsAt F.FnOnce show)) }
    {
        let pinned = self.pin(alloc, cell)?;
        let shown = show_pinned(show, &pinned);
        match self.unpin(pinned) {
            Ok(()) => Ok(shown),
            Err(refused) => Err(refused.0),
        }
    }

    /// Returns the key of a reference's cell, if it has one.
    ///
    /// # Errors
    ///
    /// - `NoSuchHandle` if the reference was released by its number.
    pub fn key<T: OfNode<E>>(&self, cell: &PagableArc<T>) -> Result<OptionalDataKey, Error>
        ensures answers { S.key_answers self.now.storage.now cell.now.handle result }
    {
        cell.key(self.rt, self.storage)
    }

    /// Returns how many handles pin a reference's cell.
    ///
    /// # Errors
    ///
    /// - `NoSuchHandle` if the reference was released by its number.
    pub fn count<T: OfNode<E>>(&self, cell: &PagableArc<T>) -> Result<u64, Error>
        ensures answers { S.counts self.now.storage.now cell.now.handle result }
    {
        cell.count(self.rt, self.storage)
    }

    /// Ends a pin. If it was the cell's last one, the value leaves memory if the cell has a key;
    /// else the storage, if open, lists the cell for page-out.
    ///
    /// # Errors
    ///
    /// - As `PinnedPagableArc::release`.
    pub fn unpin<T: OfNode<E> + Drop>(
        &self,
        pinned: PinnedPagableArc<T>,
    ) -> Result<(), (Error, Option<PinnedPagableArc<T>>)>
        ensures released { OnOk result (S.release_answers self.now.storage.now pinned.handle (Ok tt)) }
        ensures refused { IfErr result (λ r. S.release_answers self.now.storage.now pinned.handle (Err r.0)) }
        ensures back { IfErr result (λ r. IfSome r.1 (λ a. a ≡ pinned)) }
    {
        pinned.release(self.rt, self.storage)
    }

    /// Ends a loose reference: its handle isn't live afterwards.
    ///
    /// # Errors
    ///
    /// - As `PagableArc::release`.
    pub fn release<T: OfNode<E>>(
        &self,
        reference: PagableArc<T>,
    ) -> Result<(), (Error, Option<PagableArc<T>>)>
        ensures released { OnOk result (S.release_answers self.now.storage.now reference.handle (Ok tt)) }
        ensures refused { IfErr result (λ r. S.release_answers self.now.storage.now reference.handle (Err r.0)) }
        ensures back { IfErr result (λ r. IfSome r.1 (λ a. a ≡ reference)) }
    {
        reference.release(self.rt, self.storage)
    }
}
