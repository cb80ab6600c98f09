//! The types that may be keys of maps and items of sets. Two values that hold others are equal
//! exactly if their parts are, and refer to nothing because their parts don't. Lists, and maps and
//! sets sorted by key, are ordered by the first items that differ; a list comes before its
//! continuations. Maps and sets in order of insertion are no keys, since they are equal in any
//! order.

ghost use Rattle.pagable_traits.specs.{
  KeyLaws.{IsKey, basic_key, entries_key, key_alike, key_seen, list_key, number_key, option_key, pair_key},
  KeyLaws.{result_key, text_key},
};
ghost use Rattle.pagable_value_spec.specs.{
  Keyed.{flag_is_ordered, flag_is_same, integer_is_ordered, integer_is_same, list_is_ordered, nothing_is_same},
  Keyed.{number_is_ordered, number_is_same, option_is_ordered, pair_is_ordered, quadruple_is_ordered},
  Keyed.{quintuple_is_ordered, result_is_ordered, text_is_ordered, triple_is_ordered},
  Keys.{KeyOrder, flag_order, integer_order, list_order, nothing_order, number_order, optional_order, ordered},
  Keys.{outcome_order, pair_order, text_order},
  Meaning.{pair, sequence},
};
ghost use Rattle.std.proofs.{Common.◌∙◌, Math.Bool.and_assoc};
ghost use Rattle.std.specs.{
  Box.{boxed_slice_items, boxed_str_bytes},
  Cmp.Lexicographic.slice_cmp,
  Ordering.ordering_then,
  Prelude.{map, refl, ◌&&◌, ◌≡◌},
  String.string_bytes,
};

use crate::impls::holders::Thin;
use crate::impls::texts::PathText;
use crate::traits::OneMeaning;
use pagable_codec::env::Env;
use smallvec::SmallVec;
use std::boxed::{BoxedSlice, BoxedStr};
use std::collections::{BTreeMap, BTreeSet};
use std::marker::PhantomData;

/// A type whose values may be keys of a map or items of a set: two values are equal exactly if they
/// mean the same, and no value refers to anything. So a map means the same, whichever of equal keys
/// it holds.
pub trait PagableKey<E: Env>: OneMeaning<E> + Eq {
    ghost key: { IsKey Self.means Self.eq E.parts Self.shape };
}

/// A key whose order depends on the meanings alone.
pub trait PagableOrdKey<E: Env>: PagableKey<E> + Ord {
    // The order of the meanings, which the shape of a sorted map names.
    ghost order: { KeyOrder };

    ghost is_order: { (x y : Self) → Self.cmp x y ≡ ordered order (Self.means.meaning x) (Self.means.meaning y) };
}

impl<E: Env> PagableKey<E> for u8 {
    ghost key = { number_key };
}

impl<E: Env> PagableOrdKey<E> for u8 {
    ghost order = { number_order };

    ghost is_order = { number_is_ordered };
}

impl<E: Env> PagableKey<E> for u16 {
    ghost key = { number_key };
}

impl<E: Env> PagableOrdKey<E> for u16 {
    ghost order = { number_order };

    ghost is_order = { number_is_ordered };
}

impl<E: Env> PagableKey<E> for u32 {
    ghost key = { number_key };
}

impl<E: Env> PagableOrdKey<E> for u32 {
    ghost order = { number_order };

    ghost is_order = { number_is_ordered };
}

impl<E: Env> PagableKey<E> for u64 {
    ghost key = { number_key };
}

impl<E: Env> PagableOrdKey<E> for u64 {
    ghost order = { number_order };

    ghost is_order = { number_is_ordered };
}

impl<E: Env> PagableKey<E> for u128 {
    ghost key = { number_key };
}

impl<E: Env> PagableOrdKey<E> for u128 {
    ghost order = { number_order };

    ghost is_order = { number_is_ordered };
}

impl<E: Env> PagableKey<E> for usize {
    ghost key = { number_key };
}

impl<E: Env> PagableOrdKey<E> for usize {
    ghost order = { number_order };

    ghost is_order = { number_is_ordered };
}

impl<E: Env> PagableKey<E> for i8 {
    ghost key = { basic_key integer_is_same tt };
}

impl<E: Env> PagableOrdKey<E> for i8 {
    ghost order = { integer_order };

    ghost is_order = { integer_is_ordered };
}

impl<E: Env> PagableKey<E> for i16 {
    ghost key = { basic_key integer_is_same tt };
}

impl<E: Env> PagableOrdKey<E> for i16 {
    ghost order = { integer_order };

    ghost is_order = { integer_is_ordered };
}

impl<E: Env> PagableKey<E> for i32 {
    ghost key = { basic_key integer_is_same tt };
}

impl<E: Env> PagableOrdKey<E> for i32 {
    ghost order = { integer_order };

    ghost is_order = { integer_is_ordered };
}

impl<E: Env> PagableKey<E> for i64 {
    ghost key = { basic_key integer_is_same tt };
}

impl<E: Env> PagableOrdKey<E> for i64 {
    ghost order = { integer_order };

    ghost is_order = { integer_is_ordered };
}

impl<E: Env> PagableKey<E> for i128 {
    ghost key = { basic_key integer_is_same tt };
}

impl<E: Env> PagableOrdKey<E> for i128 {
    ghost order = { integer_order };

    ghost is_order = { integer_is_ordered };
}

impl<E: Env> PagableKey<E> for char {
    ghost key = { basic_key number_is_same tt };
}

impl<E: Env> PagableOrdKey<E> for char {
    ghost order = { number_order };

    ghost is_order = { number_is_ordered };
}

impl<E: Env> PagableKey<E> for bool {
    ghost key = { basic_key flag_is_same tt };
}

/// `false` is less than `true`.
impl<E: Env> PagableOrdKey<E> for bool {
    ghost order = { flag_order };

    ghost is_order = { flag_is_ordered };
}

impl<E: Env> PagableKey<E> for () {
    ghost key = { basic_key (λ x y. nothing_is_same) tt };
}

impl<E: Env> PagableOrdKey<E> for () {
    ghost order = { nothing_order };

    ghost is_order = { λ x y. refl };
}

impl<E: Env, T> PagableKey<E> for PhantomData<T> {
    ghost key = { basic_key (λ x y. nothing_is_same) tt };
}

impl<E: Env, T> PagableOrdKey<E> for PhantomData<T> {
    ghost order = { nothing_order };

    ghost is_order = { λ x y. refl };
}

impl<E: Env> PagableKey<E> for String {
    ghost key = { key_seen string_bytes text_key };
}

impl<E: Env> PagableOrdKey<E> for String {
    ghost order = { text_order };

    ghost is_order = { λ x y. text_is_ordered (string_bytes x) (string_bytes y) };
}

impl<E: Env> PagableKey<E> for BoxedStr {
    ghost key = { key_seen boxed_str_bytes text_key };
}

impl<E: Env> PagableOrdKey<E> for BoxedStr {
    ghost order = { text_order };

    ghost is_order = { λ x y. text_is_ordered (boxed_str_bytes x) (boxed_str_bytes y) };
}

impl<E: Env> PagableKey<E> for PathText {
    ghost key = { key_seen (λ p. string_bytes p.text) text_key };
}

impl<E: Env> PagableOrdKey<E> for PathText {
    ghost order = { text_order };

    ghost is_order = { λ x y. text_is_ordered (string_bytes x.text) (string_bytes y.text) };
}

impl<E: Env, K: PagableKey<E>> PagableKey<E> for Option<K> {
    ghost key = { option_key K.key };
}

/// None is less than each key.
impl<E: Env, K: PagableOrdKey<E>> PagableOrdKey<E> for Option<K> {
    ghost order = { optional_order K.order };

    ghost is_order = { option_is_ordered K.order K.cmp K.means.meaning K.is_order };
}

impl<'a, E: Env, K: PagableKey<E>> PagableKey<E> for &'a K {
    ghost key = { key_seen (λ r. r.now) K.key };
}

impl<'a, E: Env, K: PagableOrdKey<E>> PagableOrdKey<E> for &'a K {
    ghost order = { K.order };

    ghost is_order = { λ x y. K.is_order x.now y.now };
}

impl<E: Env, K: PagableKey<E>> PagableKey<E> for Box<K> {
    ghost key = { key_seen (λ b. b.value) K.key };
}

impl<E: Env, K: PagableOrdKey<E>> PagableOrdKey<E> for Box<K> {
    ghost order = { K.order };

    ghost is_order = { λ x y. K.is_order x.value y.value };
}

impl<E: Env, K: PagableKey<E>, L: PagableKey<E>> PagableKey<E> for Result<K, L> {
    ghost key = { result_key K.key L.key };
}

/// A success is less than each failure.
impl<E: Env, K: PagableOrdKey<E>, L: PagableOrdKey<E>> PagableOrdKey<E> for Result<K, L> {
    ghost order = { outcome_order K.order L.order };

    ghost is_order = { result_is_ordered K.order L.order K.cmp L.cmp K.means.meaning L.means.meaning K.is_order
        L.is_order };
}

impl<E: Env, A: PagableKey<E>, B: PagableKey<E>> PagableKey<E> for (A, B) {
    ghost key = { pair_key A.key B.key };
}

/// Pairs are ordered by their first parts, and if these are equal by their second ones.
impl<E: Env, A: PagableOrdKey<E>, B: PagableOrdKey<E>> PagableOrdKey<E> for (A, B) {
    ghost order = { pair_order A.order B.order };

    ghost is_order = { λ x y. pair_is_ordered A.order B.order (A.cmp x.0 y.0) (B.cmp x.1 y.1) (A.means.meaning x.0)
        (B.means.meaning x.1) (A.means.meaning y.0) (B.means.meaning y.1) (A.is_order x.0 y.0) (B.is_order x.1 y.1) };
}

impl<E: Env, A: PagableKey<E>, B: PagableKey<E>, C: PagableKey<E>> PagableKey<E> for (A, B, C) {
    ghost key = { key_alike (λ x y. and_assoc (A.eq x.0 y.0) (B.eq x.1 y.1) (C.eq x.2 y.2))
        (key_seen (λ p. (p.0, (p.1, p.2))) (pair_key A.key (pair_key B.key C.key))) };
}

/// A tuple is ordered as the pair of its first part and the tuple of the others.
impl<E: Env, A: PagableOrdKey<E>, B: PagableOrdKey<E>, C: PagableOrdKey<E>> PagableOrdKey<E>
    for (A, B, C) {
    ghost order = { pair_order A.order (pair_order B.order C.order) };

    ghost is_order = { λ x y. triple_is_ordered A.order B.order C.order (A.cmp x.0 y.0) (B.cmp x.1 y.1) (C.cmp x.2 y.2)
        (A.means.meaning x.0) (B.means.meaning x.1) (C.means.meaning x.2) (A.means.meaning y.0) (B.means.meaning y.1)
        (C.means.meaning y.2) (A.is_order x.0 y.0) (B.is_order x.1 y.1) (C.is_order x.2 y.2) };
}

impl<E: Env, A: PagableKey<E>, B: PagableKey<E>, C: PagableKey<E>, D: PagableKey<E>> PagableKey<E>
    for (A, B, C, D) {
    ghost key = { key_alike (λ x y. and_assoc ((A.eq x.0 y.0) && (B.eq x.1 y.1)) (C.eq x.2 y.2) (D.eq x.3 y.3)
        ∙ and_assoc (A.eq x.0 y.0) (B.eq x.1 y.1) ((C.eq x.2 y.2) && (D.eq x.3 y.3)))
        (key_seen (λ p. (p.0, (p.1, (p.2, p.3)))) (pair_key A.key (pair_key B.key (pair_key C.key D.key)))) };
}

impl<
    E: Env,
    A: PagableOrdKey<E>,
    B: PagableOrdKey<E>,
    C: PagableOrdKey<E>,
    D: PagableOrdKey<E>,
> PagableOrdKey<E> for (A, B, C, D) {
    ghost order = { pair_order A.order (pair_order B.order (pair_order C.order D.order)) };

    ghost is_order = { λ x y. quadruple_is_ordered A.order B.order C.order D.order (A.cmp x.0 y.0) (B.cmp x.1 y.1)
        (C.cmp x.2 y.2) (D.cmp x.3 y.3) (A.means.meaning x.0) (B.means.meaning x.1) (C.means.meaning x.2)
        (D.means.meaning x.3) (A.means.meaning y.0) (B.means.meaning y.1) (C.means.meaning y.2) (D.means.meaning y.3)
        (A.is_order x.0 y.0) (B.is_order x.1 y.1) (C.is_order x.2 y.2) (D.is_order x.3 y.3) };
}

impl<
    E: Env,
    A: PagableKey<E>,
    B: PagableKey<E>,
    C: PagableKey<E>,
    D: PagableKey<E>,
    F: PagableKey<E>,
> PagableKey<E> for (A, B, C, D, F) {
    ghost key = { key_alike (λ x y. and_assoc (((A.eq x.0 y.0) && (B.eq x.1 y.1)) && (C.eq x.2 y.2)) (D.eq x.3 y.3)
        (F.eq x.4 y.4) ∙ and_assoc ((A.eq x.0 y.0) && (B.eq x.1 y.1)) (C.eq x.2 y.2) ((D.eq x.3 y.3) && (F.eq x.4 y.4))
        ∙ and_assoc (A.eq x.0 y.0) (B.eq x.1 y.1) ((C.eq x.2 y.2) && ((D.eq x.3 y.3) && (F.eq x.4 y.4))))
        (key_seen (λ p. (p.0, (p.1, (p.2, (p.3, p.4)))))
        (pair_key A.key (pair_key B.key (pair_key C.key (pair_key D.key F.key))))) };
}

impl<
    E: Env,
    A: PagableOrdKey<E>,
    B: PagableOrdKey<E>,
    C: PagableOrdKey<E>,
    D: PagableOrdKey<E>,
    F: PagableOrdKey<E>,
> PagableOrdKey<E> for (A, B, C, D, F) {
    ghost order = { pair_order A.order (pair_order B.order (pair_order C.order (pair_order D.order F.order))) };

    ghost is_order = { λ x y. quintuple_is_ordered A.order B.order C.order D.order F.order (A.cmp x.0 y.0)
        (B.cmp x.1 y.1) (C.cmp x.2 y.2) (D.cmp x.3 y.3) (F.cmp x.4 y.4) (A.means.meaning x.0) (B.means.meaning x.1)
        (C.means.meaning x.2) (D.means.meaning x.3) (F.means.meaning x.4) (A.means.meaning y.0) (B.means.meaning y.1)
        (C.means.meaning y.2) (D.means.meaning y.3) (F.means.meaning y.4) (A.is_order x.0 y.0) (B.is_order x.1 y.1)
        (C.is_order x.2 y.2) (D.is_order x.3 y.3) (F.is_order x.4 y.4) };
}

impl<E: Env, K: PagableKey<E>> PagableKey<E> for Vec<K> {
    ghost key = { key_seen (λ v. v.items) (list_key (λ e. refl) K.key) };
}

impl<E: Env, K: PagableOrdKey<E>> PagableOrdKey<E> for Vec<K> {
    ghost order = { list_order K.order };

    ghost is_order = { λ x y. list_is_ordered _ _ _ K.is_order _ _ };
}

impl<E: Env, K: PagableKey<E>> PagableKey<E> for BoxedSlice<K> {
    ghost key = { key_seen boxed_slice_items (list_key (λ e. refl) K.key) };
}

impl<E: Env, K: PagableOrdKey<E>> PagableOrdKey<E> for BoxedSlice<K> {
    ghost order = { list_order K.order };

    ghost is_order = { λ x y. list_is_ordered _ _ _ K.is_order _ _ };
}

impl<E: Env, K: PagableKey<E>, const N: usize> PagableKey<E> for [K; N] {
    ghost key = { list_key (λ e. refl) K.key };
}

impl<E: Env, K: PagableOrdKey<E>, const N: usize> PagableOrdKey<E> for [K; N] {
    ghost order = { list_order K.order };

    ghost is_order = { λ x y. list_is_ordered _ _ _ K.is_order _ _ };
}

impl<E: Env, K: PagableKey<E>, const N: usize> PagableKey<E> for SmallVec<K, N> {
    ghost key = { key_seen (λ v. v.items) (list_key (λ e. refl) K.key) };
}

impl<E: Env, K: PagableOrdKey<E>, const N: usize> PagableOrdKey<E> for SmallVec<K, N> {
    ghost order = { list_order K.order };

    ghost is_order = { λ x y. list_is_ordered _ _ _ K.is_order _ _ };
}

impl<E: Env, K: PagableOrdKey<E>> PagableKey<E> for BTreeSet<K> {
    ghost key = { key_seen (λ s. s.keys) (list_key (λ e. refl) K.key) };
}

impl<E: Env, K: PagableOrdKey<E>> PagableOrdKey<E> for BTreeSet<K> {
    ghost order = { list_order K.order };

    ghost is_order = { λ x y. list_is_ordered _ _ _ K.is_order _ _ };
}

impl<E: Env, K: PagableOrdKey<E>, V: PagableKey<E>> PagableKey<E> for BTreeMap<K, V> {
    ghost key = { key_seen (λ m. m.entries) (entries_key (λ e. (refl, refl)) K.key V.key) };
}

impl<E: Env, K: PagableOrdKey<E>, V: PagableOrdKey<E>> PagableOrdKey<E> for BTreeMap<K, V> {
    ghost order = { list_order (pair_order K.order V.order) };

    ghost is_order = { λ x y. list_is_ordered (pair_order K.order V.order)
        (λ e f. ordering_then (K.cmp e.0 f.0) (V.cmp e.1 f.1)) (λ e. pair (K.means.meaning e.0) (V.means.meaning e.1))
        (λ e f. pair_is_ordered K.order V.order (K.cmp e.0 f.0) (V.cmp e.1 f.1) (K.means.meaning e.0)
        (V.means.meaning e.1) (K.means.meaning f.0) (V.means.meaning f.1) (K.is_order e.0 f.0) (V.is_order e.1 f.1))
        x.entries y.entries };
}

impl<E: Env, H: PagableKey<E>, T: PagableKey<E>> PagableKey<E> for Thin<H, T> {
    ghost key = { key_seen (λ t. (t.header, t.items)) (pair_key H.key
        (key_seen (λ v. v.items) (list_key (λ e. refl) T.key))) };
}

/// Values are ordered by header, then by list.
impl<E: Env, H: PagableOrdKey<E>, T: PagableOrdKey<E>> PagableOrdKey<E> for Thin<H, T> {
    ghost order = { pair_order H.order (list_order T.order) };

    ghost is_order = { λ x y. pair_is_ordered H.order (list_order T.order) (H.cmp x.header y.header)
        (slice_cmp T.cmp x.items.items y.items.items) (H.means.meaning x.header)
        (sequence (map T.means.meaning x.items.items)) (H.means.meaning y.header)
        (sequence (map T.means.meaning y.items.items)) (H.is_order x.header y.header)
        (list_is_ordered T.order T.cmp T.means.meaning T.is_order x.items.items y.items.items) };
}
