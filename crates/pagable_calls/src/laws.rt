//! Laws of the definitions, for carried types and for blobs in memory, as contracts of functions
//! that do nothing.

ghost use Rattle.pagable_theorems.specs.FormLaws.{FormIsReadBack, IsPrefixFree};
ghost use Rattle.pagable_traits.specs.ReadBack.{IsReadableThroughout};
ghost use Rattle.std.specs.Prelude.{IsTrue};

use pagable_core::{InMemoryBlobs, PagableStorage};
use pagable_traits::{Carried, Env};

/// States that each encoding of a type T is read back as it was written, whatever bytes follow it,
/// and that no encoding is the beginning of one with another meaning. It asks that T's shape is one
/// that is read throughout, as `carried_types_are_read` and similar laws say of each type. With the
/// contract of `pagable_deserialize` it follows that a value of T that is read from another value's
/// encoding has the same meaning.
#[tactic(auto, using(pagable_theorems::proofs::RoundTrip::read_again, pagable_theorems::proofs::RoundTrip::prefix_free))]
pub fn forms_are_read_again<A, B, E: Env, T: Carried<E>>()
    ensures again { (e : E) → IsReadableThroughout (E.parts e) (T.shape e)
        → FormIsReadBack A B (E.parts e) (T.shape e) }
    ensures prefix_free { (e : E) → IsReadableThroughout (E.parts e) (T.shape e)
        → IsPrefixFree A (E.parts e) (T.shape e) }
{}

/// States that a storage in memory is always honest: no layer lies below it that could answer
/// wrongly. So what calls promise over an honest storage always holds over this one.
pub fn memory_is_honest<E: Env>(storage: &InMemoryBlobs<E>)
    ensures { IsTrue (⟦<InMemoryBlobs<E> as PagableStorage<E>>⟧.is_honest storage.now) }
{
    let _blobs = storage;
}
