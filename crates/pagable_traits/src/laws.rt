//! Laws of the carried types whose impls don't state them plainly. A caller can cite each law: it
//! is a function that does nothing, whose contract holds for every environment and every value.
//! What an impl states itself is its type's shape, meanings, errors and order of keys (`shape`,
//! `means`, `write_causes`, `read_causes`, `order`).

ghost use Rattle.pagable_traits.specs.ReadBack.{AreRead, IsReadableThroughout};
ghost use Rattle.pagable_value_spec.{
  specs.{Cursor.SomeMeaning, Hashed.MeansHashMap, Meaning.Meaning, Reading.registered, Statics.meanings_of},
  specs.{Tagged.MeansTagged, declared.numbers.ArcRef.ArcRef as Reference},
};
ghost use Rattle.std.specs.{HashMap.IsUnique, List.slice_get, Prelude.{IsPermutation, Ok, Some, ℕ, [], ◌↔◌, ◌∷◌, ◌≡◌}};

use crate::encoded_as::EncodedAs;
use crate::impls::holders::Thin;
use crate::impls::texts::PathText;
use crate::keys::{PagableKey, PagableOrdKey};
use crate::saved_regex::SavedRegex;
use crate::static_value::{HasStaticValueRegistry, StaticValue};
use crate::traits::{Carried, PagableDeserialize, PagableSerialize};
use crate::typetag::PagableTagged;
use indexmap::{IndexMap, IndexSet};
use pagable_codec::env::Env;
use serde_json::Value;
use smallvec::SmallVec;
use std::boxed::{BoxedSlice, BoxedStr};
use std::collections::{BTreeMap, BTreeSet, HashMap};
use std::hash::Hash;
use std::sync::OnceLock;
use std::sync::atomic::AtomicI64;
use std::time::Duration;

/// Proves that a `HashMap` means its entries in any order: a map with the same entries in another
/// order means the same.
pub fn hash_map_is_carried<
    E: Env,
    K: PagableKey<E> + Hash + PagableSerialize<E> + PagableDeserialize<'static, E> + Drop,
    V: PagableSerialize<E> + PagableDeserialize<'static, E> + Drop,
>()
    ensures means { (x : _) (m : Meaning Reference) → ⟦<HashMap<K, V> as Carried<E>>⟧.means.of x m
        ↔ MeansHashMap K.Carried.means.of V.Carried.means.of x.entries m }
    ensures any_order { (x y : _) (m : Meaning Reference) → IsUnique K.eq x → IsPermutation x.entries y.entries
        → ⟦<HashMap<K, V> as Carried<E>>⟧.means.of x m → ⟦<HashMap<K, V> as Carried<E>>⟧.means.of y m }
{}

/// Proves of each type named here that it is read throughout if the types of its parts are: a
/// reader reads back each form of its values, and of all parts of them that are in one blob,
/// whatever bytes follow the form (`forms_are_read_again` of `pagable`). `O` stands for a type that
/// is encoded as `T`, such as a box, a borrow or a longer tuple.
pub fn carried_types_are_read<
    E: Env,
    T: Carried<E>,
    X: Carried<E>,
    K: PagableOrdKey<E>,
    H: PagableKey<E> + Hash,
    O: EncodedAs<Other = T>,
    const N: usize,
>()
    ensures numbers { (e : E) → AreRead (E.parts e) (⟦<u8 as Carried<E>>⟧.shape e ∷ ⟦<u16 as Carried<E>>⟧.shape e
        ∷ ⟦<u32 as Carried<E>>⟧.shape e
        ∷ ⟦<u64 as Carried<E>>⟧.shape e ∷ ⟦<u128 as Carried<E>>⟧.shape e ∷ ⟦<i8 as Carried<E>>⟧.shape e
        ∷ ⟦<i16 as Carried<E>>⟧.shape e
        ∷ ⟦<i32 as Carried<E>>⟧.shape e ∷ ⟦<i64 as Carried<E>>⟧.shape e ∷ ⟦<i128 as Carried<E>>⟧.shape e
        ∷ ⟦<AtomicI64 as Carried<E>>⟧.shape e ∷ []) }
    ensures basic { (e : E) → AreRead (E.parts e) (⟦<() as Carried<E>>⟧.shape e ∷ ⟦<bool as Carried<E>>⟧.shape e
        ∷ ⟦<char as Carried<E>>⟧.shape e
        ∷ ⟦<String as Carried<E>>⟧.shape e ∷ ⟦<BoxedStr as Carried<E>>⟧.shape e ∷ ⟦<PathText as Carried<E>>⟧.shape e
        ∷ ⟦<Duration as Carried<E>>⟧.shape e ∷ ⟦<Value as Carried<E>>⟧.shape e ∷ []) }
    ensures one_part { (e : E) → IsReadableThroughout (E.parts e) (T.shape e)
        → AreRead (E.parts e) (⟦<Option<T> as Carried<E>>⟧.shape e
        ∷ ⟦<OnceLock<T> as Carried<E>>⟧.shape e ∷ ⟦<Vec<T> as Carried<E>>⟧.shape e
        ∷ ⟦<SmallVec<T, N> as Carried<E>>⟧.shape e
        ∷ ⟦<[T; N] as Carried<E>>⟧.shape e ∷ ⟦<BoxedSlice<T> as Carried<E>>⟧.shape e ∷ []) }
    ensures encoded_as { (e : E) → IsReadableThroughout (E.parts e) (T.shape e)
        → IsReadableThroughout (E.parts e) (⟦<O as Carried<E>>⟧.shape e) }
    ensures sets { (e : E) → (IsReadableThroughout (E.parts e) (K.shape e)
        → IsReadableThroughout (E.parts e) (⟦<BTreeSet<K> as Carried<E>>⟧.shape e))
        × (IsReadableThroughout (E.parts e) (H.shape e) → IsReadableThroughout (E.parts e)
        (⟦<IndexSet<H> as Carried<E>>⟧.shape e)) }
    ensures two_parts { (e : E) → IsReadableThroughout (E.parts e) (T.shape e)
        → IsReadableThroughout (E.parts e) (X.shape e)
        → AreRead (E.parts e) (⟦<Result<T, X> as Carried<E>>⟧.shape e ∷ ⟦<(T, X) as Carried<E>>⟧.shape e
        ∷ ⟦<Thin<T, X> as Carried<E>>⟧.shape e ∷ []) }
    ensures maps { (e : E) → IsReadableThroughout (E.parts e) (T.shape e)
        → (IsReadableThroughout (E.parts e) (K.shape e) → IsReadableThroughout (E.parts e)
        (⟦<BTreeMap<K, T> as Carried<E>>⟧.shape e))
        × (IsReadableThroughout (E.parts e) (H.shape e) → AreRead (E.parts e)
        (⟦<IndexMap<H, T> as Carried<E>>⟧.shape e ∷ ⟦<HashMap<H, T> as Carried<E>>⟧.shape e ∷ [])) }
{}

/// Proves that a reader reads back each form of a static value.
#[tactic(auto, using(crate::specs::StaticValues::static_is_read))]
pub fn static_value_is_read<E: Env, T: HasStaticValueRegistry<E>>()
    ensures read_back { (e : E) → IsReadableThroughout (E.parts e) (⟦<StaticValue<T> as Carried<E>>⟧.shape e) }
{}

/// Proves that the index of each registered value is read as the meaning of this value.
#[tactic(auto, using(crate::proofs::Registered::registered_at))]
pub fn static_values_are_read_again<E: Env, T: HasStaticValueRegistry<E>>()
    ensures { (e : E) (i : ℕ) (known : T) → slice_get (T.registered_values e) i ≡ Some known
        → registered (meanings_of T.plain_meaning (T.registered_values e)) i ≡ Ok (T.plain_meaning known) }
{}

/// Proves that each tagged value means something: its tag with a meaning of its body. A tagged type
/// may cite this law for the `means` of its `Carried`.
#[tactic(auto, using(crate::proofs::Registered::tagged_means, crate::specs::Meanings::some))]
pub fn tagged_has_meaning<E: Env, T: PagableTagged<E>>()
    ensures { (x : T) → SomeMeaning (MeansTagged (T.tag x) (T.body_means.of x)) }
{}

/// Proves that a reader reads back each form of a regular expression.
#[tactic(auto, using(crate::specs::ReadBack::basic_is_read))]
pub fn saved_regex_is_read<E: Env>()
    ensures read_back { (e : E) → IsReadableThroughout (E.parts e) (⟦<SavedRegex as Carried<E>>⟧.shape e) }
{}
