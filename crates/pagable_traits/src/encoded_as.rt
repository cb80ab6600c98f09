//! Types that are encoded as another type, such as boxes (as the boxed value) and longer tuples (as
//! pairs).

ghost use Rattle.pagable_traits.specs.Meanings.{seen_by};
ghost use Rattle.std.specs.Prelude.{◌≡◌};

use crate::one_form::Canonical;
use crate::traits::{Carried, OneMeaning, PagableDeserialize};
use pagable_codec::{Env, PagableDeserializer};
use pagable_flavors::Error;
use std::alloc::Global;

/// A type whose values have the shape and the meaning of another type's values.
pub trait EncodedAs {
    type Other;

    // The value of the other type that is written in a value's place.
    ghost as_other: { Self → Self.Other };
}

/// A type that is also read as the other type: a reader reads a value of the other type, and makes
/// the value of this type from it.
pub trait DecodedAs: EncodedAs + Sized {
    /// Makes the value that is written as this value of the other type.
    fn from_encoded(value: Self::Other) -> Self
        ensures { Self.as_other result ≡ value };
}

impl<E: Env, O: Carried<E>, X: EncodedAs<Other = O>> Carried<E> for X {
    ghost shape = { λ e. O.shape e };

    ghost means = { seen_by X.as_other O.means };

    ghost beside = { λ x. O.beside (X.as_other x) };
}

impl<E: Env, O: OneMeaning<E>, X: EncodedAs<Other = O>> OneMeaning<E> for X {
    ghost single = { λ x. O.single (X.as_other x) };
}

impl<E: Env, O: Canonical<E>, X: EncodedAs<Other = O>> Canonical<E> for X {
    ghost one_form = { λ e. O.one_form e };
}

impl<'de, E: Env, O: PagableDeserialize<'de, E>, X: DecodedAs<Other = O>> PagableDeserialize<'de, E>
    for X {
    ghost read_causes = { O.read_causes };

    #[tactic(auto, using(crate::proofs::Lent::seen_holds))]
    fn pagable_deserialize<D: PagableDeserializer<E>>(
        alloc: Global,
        deserializer: &mut D,
    ) -> Result<Self, Error> {
        Ok(X::from_encoded(<O as PagableDeserialize<E>>::pagable_deserialize(alloc, deserializer)?))
    }
}
