//! Loose references in values, with and without the type of what they refer to.

ghost use Rattle.pagable_traits.specs.References.{loose_reference, raw_reference};
ghost use Rattle.pagable_value_spec.specs.declared.numbers.ArcRef.{ArcRef as Named};
ghost use Rattle.std.specs.Prelude.{IfSome, ◌≡◌};

use pagable_codec::{ArcRef, Env, OfNode};
use pagable_traits::{PagableArc, RawRef};

/// A loose reference that a value may hold: `RawRef`, or `PagableArc`. A value that is inserted owns
/// the handles of its references.
pub trait Reference<E: Env>: Sized {
    // The reference as its kind, its node and its handle.
    ghost named: { Self → Named };

    /// Makes the reference of this kind, node and handle; returns None if it is of another kind than
    /// these references.
    fn from_arc_ref(reference: ArcRef) -> Option<Self>
        ensures { IfSome result (λ r. named r ≡ reference) };

    /// Returns the reference as its kind, its node and its handle.
    fn arc_ref(&self) -> ArcRef
        ensures { result ≡ named self.now };
}

impl<E: Env, const KIND: u32> Reference<E> for RawRef<KIND> {
    ghost named = { raw_reference KIND };

    fn from_arc_ref(reference: ArcRef) -> Option<Self> {
        RawRef::from_reference(reference)
    }

    fn arc_ref(&self) -> ArcRef {
        self.reference()
    }
}

impl<E: Env, T: OfNode<E>> Reference<E> for PagableArc<T> {
    ghost named = { loose_reference T.TYPE };

    fn from_arc_ref(reference: ArcRef) -> Option<Self> {
        PagableArc::from_reference::<E>(reference)
    }

    fn arc_ref(&self) -> ArcRef {
        self.reference::<E>()
    }
}
