//! An enum of two variants that is encoded as an `Option`: the shortest way if one variant has no
//! field.

ghost use Rattle.pagable_examples.specs.Sizes.{tenths_of};
ghost use Rattle.std.specs.Prelude.{◌≡◌};

use pagable_flavors::Error;
use pagable_traits::encoded_as::{DecodedAs, EncodedAs};
use pagable_traits::{Env, PagableSerialize, PagableSerializer};

/// The size of a glass.
#[derive(Clone, Copy, PartialEq)]
pub enum Size {
    Small,
    /// A large glass, with the tenths of a litre that it holds.
    Large(u8),
}

impl Size {
    /// Returns how many tenths of a litre a large glass holds, or None for a small one.
    pub fn tenths(self) -> Option<u8>
        ensures { result ≡ tenths_of self }
    {
        match self {
            Size::Small => None,
            Size::Large(tenths) => Some(tenths),
        }
    }
}

impl EncodedAs for Size {
    type Other = Option<u8>;

    ghost as_other = { tenths_of };
}

impl DecodedAs for Size {
    fn from_encoded(value: Option<u8>) -> Self {
        match value {
            None => Size::Small,
            Some(tenths) => Size::Large(tenths),
        }
    }
}

impl<E: Env> PagableSerialize<E> for Size {
    ghost write_causes = { ⟦<Option<u8> as PagableSerialize<E>>⟧.write_causes };

    fn pagable_serialize<S: PagableSerializer<E>>(&self, serializer: &mut S) -> Result<(), Error> {
        self.tenths().pagable_serialize(serializer)
    }
}
