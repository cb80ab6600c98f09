//! The references in a value, as a list.
#![tactic(auto, using(crate::proofs::Listed::parts), unfolding(pagable_value_spec::specs::References::references_in))]

ghost use Rattle.pagable_traits.specs.{
  ReadBack.AreRead,
  References.{holding_kind, loose_kind},
  Refers.{ListsInOrder, array_in_order, both_in_order, list_in_order, optional_in_order, outcome_in_order},
  Refers.{placed_map_in_order, placed_set_in_order, reference_in_order, run_in_order, sorted_map_in_order},
  Refers.sorted_set_in_order,
  Walks.ListsEach,
};
ghost use Rattle.pagable_value_spec.{
  specs.{Meaning.sequence, Outcomes.IsOutOfMemory, References.references_in, Shape.{both, list as list_shape}},
};
ghost use Rattle.std.specs.{Iterator.IsFinite, Prelude.{IfErr, IfOk, OnOk, map, [], ◌++◌, ◌∷◌, ◌≡◌}};

use crate::arc::HoldingArc;
use crate::impls::holders::Thin;
use crate::keys::{PagableKey, PagableOrdKey};
use crate::pagable_arc::PagableArc;
use crate::raw_ref::RawRef;
use crate::{Carried, OneMeaning};
use indexmap::{IndexMap, IndexSet};
use pagable_codec::{ArcRef, Env, OfNode};
use pagable_flavors::Error;
use smallvec::SmallVec;
use std::alloc::Global;
use std::boxed::BoxedSlice;
use std::collections::{BTreeMap, BTreeSet};
use std::hash::Hash;

/// A type whose values list the references in them, in the order of writing. Hash maps don't
/// implement the trait, since their entries may be written in any order.
pub trait Refers<E: Env>: OneMeaning<E> {
    /// Appends the references in the value, in the order in which they are written.
    ///
    /// # Errors
    ///
    /// - `OutOfMemory` only: some of the references may be appended.
    fn list_references(&self, list: &mut Vec<ArcRef>) -> Result<(), Error>
        ensures ok { OnOk result (list.new.items ≡ list.old.items
            ++ references_in (Self.Carried.means.meaning self.now)) }
        ensures only { IfErr result IsOutOfMemory };

    // Each form lists the references in this order.
    ghost in_order: { (e : E) → ListsInOrder (E.parts e) (Self.Carried.shape e) };
}

impl<E: Env, T: OfNode<E>> Refers<E> for PagableArc<T> {
    fn list_references(&self, list: &mut Vec<ArcRef>) -> Result<(), Error> {
        Ok(list.push(self.reference::<E>())?)
    }

    ghost in_order = { λ e. reference_in_order (E.parts e) (loose_kind T.TYPE) };
}

impl<E: Env, T: OfNode<E>, const PINS: bool> Refers<E> for HoldingArc<T, PINS> {
    fn list_references(&self, list: &mut Vec<ArcRef>) -> Result<(), Error> {
        Ok(list.push(self.reference::<E>())?)
    }

    ghost in_order = { λ e. reference_in_order (E.parts e) (holding_kind T.TYPE PINS) };
}

impl<E: Env, const KIND: u32> Refers<E> for RawRef<KIND> {
    fn list_references(&self, list: &mut Vec<ArcRef>) -> Result<(), Error> {
        Ok(list.push(self.reference())?)
    }

    ghost in_order = { λ e. reference_in_order (E.parts e) KIND };
}

impl<'a, E: Env, T: Refers<E>> Refers<E> for &'a T {
    fn list_references(&self, list: &mut Vec<ArcRef>) -> Result<(), Error> {
        T::list_references(*self, list)
    }

    ghost in_order = { T.in_order };
}

impl<E: Env, T: Refers<E>> Refers<E> for Option<T> {
    fn list_references(&self, list: &mut Vec<ArcRef>) -> Result<(), Error> {
        match self {
            None => Ok(()),
            Some(value) => value.list_references(list),
        }
    }

    ghost in_order = { λ e. optional_in_order (E.parts e) (T.Carried.shape e) (T.in_order e) };
}

impl<E: Env, A: Refers<E>, B: Refers<E>> Refers<E> for (A, B) {
    #[tactic(auto, using(crate::proofs::Listed::pair_listed))]
    fn list_references(&self, list: &mut Vec<ArcRef>) -> Result<(), Error> {
        self.0.list_references(list)?;
        self.1.list_references(list)
    }

    ghost in_order = { λ e. both_in_order (E.parts e) (A.Carried.shape e) (B.Carried.shape e) (A.in_order e)
        (B.in_order e) };
}

/// A boxed value refers to what the value refers to.
impl<E: Env, T: Refers<E>> Refers<E> for Box<T> {
    fn list_references(&self, list: &mut Vec<ArcRef>) -> Result<(), Error> {
        T::list_references(&**self, list)
    }

    ghost in_order = { T.in_order };
}

/// A result refers to what the value or the failure in it refers to.
impl<E: Env, T: Refers<E>, X: Refers<E>> Refers<E> for Result<T, X> {
    fn list_references(&self, list: &mut Vec<ArcRef>) -> Result<(), Error> {
        match self {
            Ok(value) => value.list_references(list),
            Err(failure) => failure.list_references(list),
        }
    }

    ghost in_order = { λ e. outcome_in_order (E.parts e) (T.Carried.shape e) (X.Carried.shape e) (T.in_order e)
        (X.in_order e) };
}

/// A longer tuple refers to what the pair of its first value and the others refers to.
impl<E: Env, A: Refers<E>, B: Refers<E>, C: Refers<E>> Refers<E> for (A, B, C) {
    #[tactic(auto, using(crate::proofs::Listed::pair_listed))]
    fn list_references(&self, list: &mut Vec<ArcRef>) -> Result<(), Error> {
        let (first, second, third) = self;
        Refers::<E>::list_references(&(first, (second, third)), list)
    }

    ghost in_order = { λ e. both_in_order (E.parts e) (A.Carried.shape e) (both (B.Carried.shape e) (C.Carried.shape e))
        (A.in_order e) (both_in_order (E.parts e) (B.Carried.shape e) (C.Carried.shape e) (B.in_order e)
        (C.in_order e)) };
}

impl<E: Env, A: Refers<E>, B: Refers<E>, C: Refers<E>, D: Refers<E>> Refers<E> for (A, B, C, D) {
    #[tactic(auto, using(crate::proofs::Listed::pair_listed))]
    fn list_references(&self, list: &mut Vec<ArcRef>) -> Result<(), Error> {
        let (first, second, third, fourth) = self;
        Refers::<E>::list_references(&(first, (second, (third, fourth))), list)
    }

    ghost in_order = { λ e. both_in_order (E.parts e) (A.Carried.shape e)
        (both (B.Carried.shape e) (both (C.Carried.shape e) (D.Carried.shape e))) (A.in_order e)
        (both_in_order (E.parts e) (B.Carried.shape e) (both (C.Carried.shape e) (D.Carried.shape e)) (B.in_order e)
        (both_in_order (E.parts e) (C.Carried.shape e) (D.Carried.shape e) (C.in_order e) (D.in_order e))) };
}

impl<E: Env, A: Refers<E>, B: Refers<E>, C: Refers<E>, D: Refers<E>, F: Refers<E>> Refers<E>
    for (A, B, C, D, F) {
    #[tactic(auto, using(crate::proofs::Listed::pair_listed))]
    fn list_references(&self, list: &mut Vec<ArcRef>) -> Result<(), Error> {
        let (first, second, third, fourth, fifth) = self;
        Refers::<E>::list_references(&(first, (second, (third, (fourth, fifth)))), list)
    }

    ghost in_order = { λ e. both_in_order (E.parts e) (A.Carried.shape e)
        (both (B.Carried.shape e) (both (C.Carried.shape e) (both (D.Carried.shape e) (F.Carried.shape e))))
        (A.in_order e)
        (both_in_order (E.parts e) (B.Carried.shape e)
        (both (C.Carried.shape e) (both (D.Carried.shape e) (F.Carried.shape e))) (B.in_order e)
        (both_in_order (E.parts e) (C.Carried.shape e) (both (D.Carried.shape e) (F.Carried.shape e)) (C.in_order e)
        (both_in_order (E.parts e) (D.Carried.shape e) (F.Carried.shape e) (D.in_order e) (F.in_order e)))) };
}

/// Returns the references in a value, in the order in which they are written.
///
/// # Errors
///
/// - `OutOfMemory` only.
pub fn references_of<E: Env, T: Refers<E>>(alloc: Global, value: &T) -> Result<Vec<ArcRef>, Error>
    ensures ok { IfOk result (λ list. list.items ≡ references_in (T.Carried.means.meaning value.now)) }
    ensures only { IfErr result IsOutOfMemory }
{
    let mut list = Vec::new(alloc);
    value.list_references(&mut list)?;
    Ok(list)
}

/// Appends the references of the items, one item after another. Fails with `OutOfMemory` only.
fn list_item_references<E: Env, T: Refers<E>>(
    items: &[T],
    list: &mut Vec<ArcRef>,
) -> Result<(), Error>
    ensures ok { OnOk result (list.new.items ≡ list.old.items
        ++ references_in (sequence (map T.Carried.means.meaning items.now))) }
    ensures only { IfErr result IsOutOfMemory }
{
    for item in items {
        item.list_references(list)?;
    }
    Ok(())
}

impl<E: Env, T: Refers<E>> Refers<E> for Vec<T> {
    fn list_references(&self, list: &mut Vec<ArcRef>) -> Result<(), Error> {
        list_item_references(self.as_slice(), list)
    }

    ghost in_order = { λ e. list_in_order (E.parts e) (T.Carried.shape e) (T.in_order e) };
}

impl<E: Env, T: Refers<E>, const N: usize> Refers<E> for SmallVec<T, N> {
    fn list_references(&self, list: &mut Vec<ArcRef>) -> Result<(), Error> {
        list_item_references(self.as_slice(), list)
    }

    ghost in_order = { λ e. list_in_order (E.parts e) (T.Carried.shape e) (T.in_order e) };
}

impl<E: Env, T: Refers<E>> Refers<E> for BoxedSlice<T> {
    fn list_references(&self, list: &mut Vec<ArcRef>) -> Result<(), Error> {
        list_item_references(self.as_slice(), list)
    }

    ghost in_order = { λ e. list_in_order (E.parts e) (T.Carried.shape e) (T.in_order e) };
}

impl<'a, E: Env, T: Refers<E>> Refers<E> for &'a [T] {
    fn list_references(&self, list: &mut Vec<ArcRef>) -> Result<(), Error> {
        list_item_references(*self, list)
    }

    ghost in_order = { λ e. run_in_order (E.parts e) (T.Carried.shape e) (T.in_order e) };
}

impl<E: Env, T: Refers<E>, const N: usize> Refers<E> for [T; N] {
    fn list_references(&self, list: &mut Vec<ArcRef>) -> Result<(), Error> {
        let items = self.as_slice();
        list_item_references(items, list)
    }

    ghost in_order = { λ e. array_in_order (E.parts e) N (T.Carried.shape e) (T.in_order e) };
}

/// A header and a list refer to what their pair refers to.
impl<E: Env, H: Refers<E>, T: Refers<E>> Refers<E> for Thin<H, T> {
    #[tactic(auto, using(crate::proofs::Listed::pair_listed))]
    fn list_references(&self, list: &mut Vec<ArcRef>) -> Result<(), Error> {
        self.header.list_references(list)?;
        self.items.list_references(list)
    }

    ghost in_order = { λ e. both_in_order (E.parts e) (H.Carried.shape e) (list_shape (T.Carried.shape e)) (H.in_order e)
        (list_in_order (E.parts e) (T.Carried.shape e) (T.in_order e)) };
}

/// Appends the references of each item that the iterator yields. Fails with `OutOfMemory` only.
fn list_each<E: Env, T: Refers<E> + Drop, W: Iterator<Item = T>>(
    walk: W,
    list: &mut Vec<ArcRef>,
) -> Result<(), Error>
    requires can_next { W.can_next walk }
    requires ends { IsFinite (W.remaining walk) }
    ensures ok { OnOk result (ListsEach W.next_gives T.Carried.means.meaning walk list.old.items list.new.items) }
    ensures only { IfErr result IsOutOfMemory }
{
    for item in walk {
        item.list_references(list)?;
    }
    Ok(())
}

/// A map refers to what its keys and its values refer to, entry by entry; so do the other ones.
impl<E: Env, K: PagableOrdKey<E> + Refers<E>, V: Refers<E>> Refers<E> for BTreeMap<K, V> {
    fn list_references(&self, list: &mut Vec<ArcRef>) -> Result<(), Error> {
        let entries = self.iter();
        list_each::<E, _, _>(entries, list)
    }

    ghost in_order = { λ e. sorted_map_in_order (E.parts e) K.order (K.Carried.shape e) (V.Carried.shape e)
        (K.in_order e) (V.in_order e) };
}

impl<E: Env, K: PagableKey<E> + Hash + Refers<E>, V: Refers<E>> Refers<E> for IndexMap<K, V> {
    fn list_references(&self, list: &mut Vec<ArcRef>) -> Result<(), Error> {
        list_each::<E, _, _>(self.iter(), list)
    }

    ghost in_order = { λ e. placed_map_in_order (E.parts e) (K.Carried.shape e) (V.Carried.shape e)
        (K.in_order e) (V.in_order e) };
}

impl<E: Env, T: PagableOrdKey<E> + Refers<E>> Refers<E> for BTreeSet<T> {
    fn list_references(&self, list: &mut Vec<ArcRef>) -> Result<(), Error> {
        list_each::<E, _, _>(self.iter(), list)
    }

    ghost in_order = { λ e. sorted_set_in_order (E.parts e) T.order (T.Carried.shape e) (T.in_order e) };
}

impl<E: Env, T: PagableKey<E> + Hash + Refers<E>> Refers<E> for IndexSet<T> {
    fn list_references(&self, list: &mut Vec<ArcRef>) -> Result<(), Error> {
        list_each::<E, _, _>(self.iter(), list)
    }

    ghost in_order = { λ e. placed_set_in_order (E.parts e) (T.Carried.shape e) (T.in_order e) };
}

/// Proves that a reader reads back each form of a reference, as `carried_types_are_read` does for
/// other types.
#[tactic(auto, using(crate::specs::References::reference_is_read))]
pub fn references_are_read<E: Env, T: OfNode<E>, const PINS: bool, const KIND: u32>()
    ensures { (e : E) → AreRead (E.parts e) (⟦<HoldingArc<T, PINS> as Carried<E>>⟧.shape e
        ∷ ⟦<PagableArc<T> as Carried<E>>⟧.shape e ∷ ⟦<RawRef<KIND> as Carried<E>>⟧.shape e
        ∷ []) }
{}
