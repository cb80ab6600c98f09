//! Calls on a lent pager by typed references. Each is a few calls of the pager on one cell.

ghost use Rattle.pagable_calls.specs.Cells.{Releases};
ghost use Rattle.pagable_changes.specs.{Changes.PagesOutChanged, Keys.KeepsTrees};
ghost use Rattle.pagable_load.specs.AccessView.{values_at};
ghost use Rattle.pagable_pager.specs.View.{BetweenIfHonest, pager_core};
ghost use Rattle.pagable_pager_spec.specs.Calls.{CountCall, KeyCall};
ghost use Rattle.pagable_traits.specs.References.{loose_reference};
ghost use Rattle.pagable_typed.specs.Typed.{
  InsertsValue,
  IsOfGrowth,
  LacksValue,
  LooksAtValue,
  MakesReference,
  OpensValue,
  PinsValue,
  without_back,
};
ghost use Rattle.std.specs.{Arc.arc_value, Fn.FnOnceReturnsAt, Prelude.{IfErr, IfNone, IfOk, IfSome, IsTrue, Some, true, ◌≡◌}};

use crate::reference::Reference;
use crate::show::show_pinned;
use crate::uninserted::{Uninserted, given_back, share};
use pagable_calls::cells::{cell_of, follow, insert};
use pagable_calls::typed_references::loose;
use pagable_changes::page_out_changed;
use pagable_codec::{ArcRef, Env, NodeSet, OfNode};
use pagable_core::PagableStorage;
use pagable_pager::Pager;
use pagable_traits::{ArcErase, PagableArc, PinnedPagableArc};
use pagable_value_spec::{DataKey, Error, HandleNumber, OptionalDataKey};
use std::alloc::Global;
use std::sync::Arc;

/// A pager with typed calls. The pager's other calls are open to the caller, too.
#[derive(Drop)]
pub struct TypedPager<E: Env<Node: NodeSet<E>>, S: PagableStorage<E>> {
    /// The pager.
    pub pager: Pager<E, S>,
}

// Returns whether a release that fails with this error has released the handle all the same.
fn was_released_despite(why: &Error) -> bool
    ensures { result ≡ true → IsOfGrowth why.now }
{
    matches!(why, Error::NumbersSpent | Error::OutOfMemory)
}

// Makes the pin of a reference's cell, by the new Pinned handle and the value.
fn pinned_as<T: OfNode<E>, E: Env>(
    reference: ArcRef,
    handle: HandleNumber,
    value: Arc<T>,
) -> PinnedPagableArc<T>
    ensures handle { result.handle ≡ handle }
    ensures node { result.node ≡ reference.node }
    ensures value { arc_value result.value ≡ arc_value value }
{
    let kind = <PinnedPagableArc<T> as ArcErase<E>>::kind();
    let node = reference.node;
    match PinnedPagableArc::from_reference::<E>(ArcRef { kind, node, handle }, value) {
        Ok(pinned) => pinned,
        Err(_) => unreachable!(),
    }
}

// Takes the value out of a node. Fails with WrongKind if it holds none of this type, and with
// OutOfMemory.
fn take_value<T: OfNode<E>, E: Env>(alloc: Global, node: &E::Node) -> Result<Arc<T>, Error>
    ensures value { IfOk result (λ value. T.held node.now ≡ Some (arc_value value)) }
    ensures lacks { IfErr result (LacksValue T.held node.now) }
{
    match T::from_node(alloc, node) {
        Ok(Some(value)) => Ok(value),
        Ok(None) => Err(Error::WrongKind),
        Err(e) => Err(e),
    }
}

// Pins the cell of a reference's handle by a clone of the handle, and takes the value out of its
// node. If there is none of this type, releases the pin.
fn pin_value<T: OfNode<E> + Drop, E: Env<Node: NodeSet<E>>, S: PagableStorage<E>>(
    alloc: Global,
    pager: &mut Pager<E, S>,
    reference: ArcRef,
) -> Result<PinnedPagableArc<T>, Error>
    ensures pins { IsTrue (S.is_honest pager.new.storage) → PinsValue S.PagableStorage T.held
        (values_at E.Node.NodeSet E.Env E.Hash.KeyHash) pager.old reference result pager.new }
    ensures honest { IsTrue (S.is_honest pager.new.storage) → IsTrue (S.is_honest pager.old.storage) }
{
    let (pinned, node) = match follow(alloc, pager, reference.handle) {
        Ok(found) => found,
        Err(e) => return Err(e),
    };
    match take_value::<T, E>(alloc, node.as_ref()) {
        Ok(value) => Ok(pinned_as::<T, E>(reference, pinned, value)),
        Err(e) => {
            let _told = pager.release(pinned);
            Err(e)
        }
    }
}

impl<E: Env<Node: NodeSet<E>>, S: PagableStorage<E>> TypedPager<E, S> {
    /// Makes a pager with typed calls of a pager.
    pub fn new(pager: Pager<E, S>) -> TypedPager<E, S>
        ensures { result.pager ≡ pager }
    {
        TypedPager { pager }
    }

    /// Inserts a value as a cell that nothing pins, lists it for page-out, but not after `close`,
    /// and returns a loose reference to it. From then on the value owns the handles of its
    /// references.
    ///
    /// # Errors
    ///
    /// - `OutOfMemory` with the value, if it can't be shared: nothing changes.
    /// - As `Pager::new_loose`, with the node that holds the value: nothing changes.
    /// - `NumbersSpent`, `OutOfMemory` with the handle, if the cell is inserted and couldn't be
    ///   listed: `Pager::schedule_for_paging` lists it.
    /// - As `typed_references::loose`, with the handle, if the type's `into_node` made a node of
    ///   another type: the cell is inserted.
    pub fn insert<T: OfNode<E> + Drop>(
        &mut self,
        alloc: Global,
        value: T,
    ) -> Result<PagableArc<T>, (Error, Uninserted<T, E::Node>)>
        ensures { InsertsValue S.PagableStorage T.held T.TYPE
            (values_at E.Node.NodeSet E.Env E.Hash.KeyHash self.old.pager.environment) self.old.pager value result
            self.new.pager }
    {
        let shared = match share(alloc, value) {
            Ok(shared) => shared,
            Err(refused) => return Err((refused.0, Uninserted::Value(refused.1))),
        };
        let handle = match insert(alloc, &mut self.pager, T::into_node(shared)) {
            Ok(handle) => handle,
            Err(refused) => return Err((refused.0, given_back(refused.1))),
        };
        match loose::<T, E, S>(&self.pager, handle) {
            Ok(reference) => Ok(reference),
            Err(e) => Err((e, Uninserted::Handle(handle))),
        }
    }

    /// Returns a loose reference to the cell whose value has this key and the type `T`: the cached
    /// cell, or a new one. It reads nothing: if the key doesn't read as a value of this type, a pin
    /// fails.
    ///
    /// # Errors
    ///
    /// - `NumbersSpent`, `OutOfMemory`: nothing changes.
    /// - As `typed_references::loose`, if the cell is of another type: its handle is released.
    pub fn cell_of<T: OfNode<E>>(
        &mut self,
        alloc: Global,
        key: DataKey,
    ) -> Result<PagableArc<T>, Error>
        ensures { OpensValue S.PagableStorage T.TYPE self.old.pager key result self.new.pager }
    {
        let found = match cell_of::<T, E, S>(alloc, &mut self.pager, key) {
            Ok(found) => found,
            Err(e) => return Err(e),
        };
        match loose::<T, E, S>(&self.pager, found) {
            Ok(reference) => Ok(reference),
            Err(e) => {
                let _told = self.pager.release(found);
                Err(e)
            }
        }
    }

    /// Makes one more reference to a cell, for a value to hold: a `RawRef`, or a `PagableArc`. The
    /// value owns it once it is inserted.
    ///
    /// # Errors
    ///
    /// Each leaves handles and counts as they were.
    ///
    /// - `NoSuchHandle`, `NumbersSpent`, `OutOfMemory` as in `Pager::clone`.
    /// - `WrongKind` if `R` refers to values of another type than `T`.
    pub fn reference<T: OfNode<E>, R: Reference<E>>(
        &mut self,
        to: &PagableArc<T>,
    ) -> Result<R, Error>
        ensures { MakesReference S.PagableStorage R.named self.old.pager (loose_reference T.TYPE to.now) result
            self.new.pager }
    {
        let reference = to.reference::<E>();
        let clone = match self.pager.clone(reference.handle) {
            Ok(clone) => clone,
            Err(e) => return Err(e),
        };
        let ArcRef { kind, node, .. } = reference;
        let handle = clone;
        match R::from_arc_ref(ArcRef { kind, node, handle }) {
            Some(made) => Ok(made),
            None => {
                let _told = self.pager.release(clone);
                Err(Error::WrongKind)
            }
        }
    }

    /// Pins a reference's cell, and loads its value if it isn't in memory. The pin keeps the value
    /// in memory until `unpin`; the reference keeps its mode.
    ///
    /// # Errors
    ///
    /// - As `cells::follow`: handles and counts are as they were.
    /// - `WrongKind` if the cell's value is of another type, `OutOfMemory` if the value can't be
    ///   shared: the new pin is released again, as `unpin` does.
    pub fn pin<T: OfNode<E> + Drop>(
        &mut self,
        alloc: Global,
        cell: &PagableArc<T>,
    ) -> Result<PinnedPagableArc<T>, Error>
        ensures pins { IsTrue (S.is_honest self.new.pager.storage) → PinsValue S.PagableStorage T.held
            (values_at E.Node.NodeSet E.Env E.Hash.KeyHash) self.old.pager (loose_reference T.TYPE cell.now) result
            self.new.pager }
        ensures honest { IsTrue (S.is_honest self.new.pager.storage) → IsTrue (S.is_honest self.old.pager.storage) }
    {
        pin_value(alloc, &mut self.pager, cell.reference::<E>())
    }

    /// Pins the cell to which a reference in a value refers, as `pin` does.
    ///
    /// # Errors
    ///
    /// - As `pin`.
    pub fn follow<T: OfNode<E> + Drop, R: Reference<E>>(
        &mut self,
        alloc: Global,
        reference: &R,
    ) -> Result<PinnedPagableArc<T>, Error>
        ensures pins { IsTrue (S.is_honest self.new.pager.storage) → PinsValue S.PagableStorage T.held
            (values_at E.Node.NodeSet E.Env E.Hash.KeyHash) self.old.pager (R.named reference.now) result
            self.new.pager }
        ensures honest { IsTrue (S.is_honest self.new.pager.storage) → IsTrue (S.is_honest self.old.pager.storage) }
    {
        pin_value(alloc, &mut self.pager, reference.arc_ref())
    }

    /// Calls `show` with the value of a reference's cell, which is pinned meanwhile, and returns the
    /// result.
    ///
    /// # Errors
    ///
    /// - As `pin`.
    /// - `NumbersSpent`, `OutOfMemory` if the value was shown and its cell couldn't be listed for
    ///   page-out: the pin is released all the same.
    pub fn look<T: OfNode<E> + Drop, Y: Drop, F: FnOnce(&T) -> Y>(
        &mut self,
        alloc: Global,
        cell: &PagableArc<T>,
        show: F,
    ) -> Result<Y, Error>
    where
        F: Drop,
        requires { F.IsAlwaysCallable show }
        ensures looks { IsTrue (S.is_honest self.new.pager.storage) → LooksAtValue S.PagableStorage T.held
            (values_at E.Node.NodeSet E.Env E.Hash.KeyHash) self.old.pager (loose_reference T.TYPE cell.now)
            (FnOnceReturnsAt F.FnOnce show) result self.new.pager }
        ensures honest { IsTrue (S.is_honest self.new.pager.storage) → IsTrue (S.is_honest self.old.pager.storage) }
    {
        let pinned = match pin_value::<T, E, S>(alloc, &mut self.pager, cell.reference::<E>()) {
            Ok(pinned) => pinned,
            Err(e) => return Err(e),
        };
        let shown = show_pinned(show, &pinned);
        let shown_by = pinned.reference::<E>().handle;
        match self.pager.release(shown_by) {
            Ok(()) => Ok(shown),
            Err(e) => Err(e),
        }
    }

    /// Pages out a reference's cell with all that it reaches, and returns the cell's key. It takes
    /// the key of each cell that has one. The value leaves memory if nothing pins it.
    ///
    /// # Errors
    ///
    /// - As `page_out_changed`: blobs that were stored before the error stay stored.
    pub fn page_out<T: OfNode<E>>(
        &mut self,
        alloc: Global,
        cell: &PagableArc<T>,
    ) -> Result<DataKey, Error>
        ensures pages { BetweenIfHonest E.Node.NodeSet E.Env E.Hash.KeyHash S.PagableStorage self.old.pager
            self.new.pager (λ v s s'. PagesOutChanged v s cell.now.handle result s') }
        ensures keeps_trees { BetweenIfHonest E.Node.NodeSet E.Env E.Hash.KeyHash S.PagableStorage self.old.pager
            self.new.pager (λ v s s'. KeepsTrees v s cell.now.handle result s') }
        ensures honest { IsTrue (S.is_honest self.new.pager.storage) → IsTrue (S.is_honest self.old.pager.storage) }
    {
        page_out_changed(alloc, &mut self.pager, cell.reference::<E>().handle)
    }

    /// Returns the key of a reference's cell, if it has one.
    ///
    /// # Errors
    ///
    /// - `NoSuchHandle` if the reference was released by its number.
    pub fn key<T: OfNode<E>>(&self, cell: &PagableArc<T>) -> Result<OptionalDataKey, Error>
        ensures { KeyCall (pager_core S.PagableStorage self.now.pager) cell.now.handle result }
    {
        self.pager.key(cell.reference::<E>().handle)
    }

    /// Returns how many handles pin a reference's cell.
    ///
    /// # Errors
    ///
    /// - `NoSuchHandle` if the reference was released by its number.
    pub fn count<T: OfNode<E>>(&self, cell: &PagableArc<T>) -> Result<u64, Error>
        ensures { CountCall (pager_core S.PagableStorage self.now.pager) cell.now.handle result }
    {
        self.pager.count(cell.reference::<E>().handle)
    }

    /// Ends a pin. If it was the cell's last one, the value leaves memory if the cell has a key;
    /// else the cell is listed for page-out.
    ///
    /// # Errors
    ///
    /// - `NoSuchHandle`, `NotYours` with the pin, if its handle isn't live or isn't the caller's:
    ///   nothing changes.
    /// - `NumbersSpent`, `OutOfMemory` if a cell can't be listed: the pin is ended all the same.
    pub fn unpin<T: OfNode<E> + Drop>(
        &mut self,
        pinned: PinnedPagableArc<T>,
    ) -> Result<(), (Error, Option<PinnedPagableArc<T>>)>
        ensures releases { Releases S.PagableStorage self.old.pager pinned.handle (without_back result) self.new.pager }
        ensures back { IfErr result (λ refused. IfSome refused.1 (λ a. a ≡ pinned)) }
        ensures kept { IfErr result (λ refused. IfNone refused.1 (IsOfGrowth refused.0)) }
    {
        match self.pager.release(pinned.reference::<E>().handle) {
            Ok(()) => Ok(()),
            Err(e) if was_released_despite(&e) => Err((e, None)),
            Err(e) => Err((e, Some(pinned))),
        }
    }

    /// Ends a loose reference: its handle isn't live afterwards.
    ///
    /// # Errors
    ///
    /// - As `unpin`, with the reference.
    pub fn release<T: OfNode<E>>(
        &mut self,
        reference: PagableArc<T>,
    ) -> Result<(), (Error, Option<PagableArc<T>>)>
        ensures releases { Releases S.PagableStorage self.old.pager reference.handle (without_back result)
            self.new.pager }
        ensures back { IfErr result (λ refused. IfSome refused.1 (λ a. a ≡ reference)) }
        ensures kept { IfErr result (λ refused. IfNone refused.1 (IsOfGrowth refused.0)) }
    {
        match self.pager.release(reference.reference::<E>().handle) {
            Ok(()) => Ok(()),
            Err(e) if was_released_despite(&e) => Err((e, None)),
            Err(e) => Err((e, Some(reference))),
        }
    }
}
