//! Canonical types: a value has one meaning, and a meaning at most one form.

ghost use Rattle.pagable_value_spec.specs.{
  OneForm.{HasOneFormThroughout, basic_has_one_form, over_has_one_form, run_has_one_form, two_has_one_form},
};
ghost use Rattle.std.specs.Prelude.{refl};

use crate::impls::holders::Thin;
use crate::impls::texts::PathText;
use crate::keys::{PagableKey, PagableOrdKey};
use crate::traits::OneMeaning;
use indexmap::{IndexMap, IndexSet};
use pagable_codec::env::Env;
use serde_json::Value;
use smallvec::SmallVec;
use std::boxed::{BoxedSlice, BoxedStr};
use std::collections::{BTreeMap, BTreeSet};
use std::hash::Hash;
use std::time::Duration;

/// A type whose values each have one meaning, and whose meanings each have at most one form, in all
/// parts of a value that are in one blob. So values that mean the same are written alike. No type
/// with a hash map in it is canonical: the map's entries may be written in any order.
pub trait Canonical<E: Env>: OneMeaning<E> {
    ghost one_form: { (e : E) → HasOneFormThroughout (E.parts e) (Self.shape e) };
}

impl<E: Env> Canonical<E> for () {
    ghost one_form = { λ e. basic_has_one_form tt };
}

impl<E: Env> Canonical<E> for bool {
    ghost one_form = { λ e. basic_has_one_form tt };
}

impl<E: Env> Canonical<E> for char {
    ghost one_form = { λ e. basic_has_one_form tt };
}

impl<E: Env> Canonical<E> for u8 {
    ghost one_form = { λ e. basic_has_one_form tt };
}

impl<E: Env> Canonical<E> for u16 {
    ghost one_form = { λ e. basic_has_one_form tt };
}

impl<E: Env> Canonical<E> for u32 {
    ghost one_form = { λ e. basic_has_one_form tt };
}

impl<E: Env> Canonical<E> for u64 {
    ghost one_form = { λ e. basic_has_one_form tt };
}

impl<E: Env> Canonical<E> for u128 {
    ghost one_form = { λ e. basic_has_one_form tt };
}

impl<E: Env> Canonical<E> for i8 {
    ghost one_form = { λ e. basic_has_one_form tt };
}

impl<E: Env> Canonical<E> for i16 {
    ghost one_form = { λ e. basic_has_one_form tt };
}

impl<E: Env> Canonical<E> for i32 {
    ghost one_form = { λ e. basic_has_one_form tt };
}

impl<E: Env> Canonical<E> for i64 {
    ghost one_form = { λ e. basic_has_one_form tt };
}

impl<E: Env> Canonical<E> for i128 {
    ghost one_form = { λ e. basic_has_one_form tt };
}

impl<E: Env> Canonical<E> for String {
    ghost one_form = { λ e. basic_has_one_form tt };
}

impl<E: Env, T: Canonical<E>> Canonical<E> for Option<T> {
    ghost one_form = { λ e. over_has_one_form refl (T.one_form e) };
}

impl<E: Env, A: Canonical<E>, B: Canonical<E>> Canonical<E> for (A, B) {
    ghost one_form = { λ e. two_has_one_form (refl, refl) (A.one_form e) (B.one_form e) };
}

impl<E: Env, T: Canonical<E>> Canonical<E> for Vec<T> {
    ghost one_form = { λ e. over_has_one_form refl (T.one_form e) };
}

impl<E: Env, T: Canonical<E>, const N: usize> Canonical<E> for SmallVec<T, N> {
    ghost one_form = { λ e. over_has_one_form refl (T.one_form e) };
}

impl<'a, E: Env, T: Canonical<E>> Canonical<E> for &'a [T] {
    ghost one_form = { λ e. run_has_one_form (T.one_form e) };
}

impl<E: Env, K: PagableOrdKey<E> + Canonical<E>, V: Canonical<E>> Canonical<E> for BTreeMap<K, V> {
    ghost one_form = { λ e. two_has_one_form (refl, refl) (K.one_form e) (V.one_form e) };
}

impl<E: Env, K: PagableKey<E> + Hash + Canonical<E>, V: Canonical<E>> Canonical<E>
    for IndexMap<K, V> {
    ghost one_form = { λ e. two_has_one_form (refl, refl) (K.one_form e) (V.one_form e) };
}

impl<E: Env, T: PagableOrdKey<E> + Canonical<E>> Canonical<E> for BTreeSet<T> {
    ghost one_form = { λ e. over_has_one_form refl (T.one_form e) };
}

impl<E: Env, T: PagableKey<E> + Hash + Canonical<E>> Canonical<E> for IndexSet<T> {
    ghost one_form = { λ e. over_has_one_form refl (T.one_form e) };
}

impl<E: Env> Canonical<E> for Duration {
    ghost one_form = { λ e. basic_has_one_form tt };
}

impl<E: Env, T: Canonical<E>, X: Canonical<E>> Canonical<E> for Result<T, X> {
    ghost one_form = { λ e. two_has_one_form (refl, refl) (T.one_form e) (X.one_form e) };
}

impl<E: Env, T: Canonical<E>, const N: usize> Canonical<E> for [T; N] {
    ghost one_form = { λ e. over_has_one_form refl (T.one_form e) };
}

impl<E: Env> Canonical<E> for Value {
    ghost one_form = { λ e. basic_has_one_form tt };
}

impl<E: Env, T: Canonical<E>> Canonical<E> for BoxedSlice<T> {
    ghost one_form = { λ e. over_has_one_form refl (T.one_form e) };
}

impl<E: Env> Canonical<E> for BoxedStr {
    ghost one_form = { λ e. basic_has_one_form tt };
}

impl<E: Env> Canonical<E> for PathText {
    ghost one_form = { λ e. basic_has_one_form tt };
}

impl<E: Env, H: Canonical<E>, T: Canonical<E>> Canonical<E> for Thin<H, T> {
    ghost one_form = { λ e. two_has_one_form (refl, refl) (H.one_form e) (over_has_one_form refl (T.one_form e)) };
}
