//! Links: a value that may refer to another one of its own type.

ghost use Rattle.pagable_examples.specs.Linked.{one_in_order, one_writes};

use pagable_flavors::Error;
use pagable_traits::encoded_as::{DecodedAs, EncodedAs};
use pagable_traits::{ArcRef, Env, PagableSerialize, PagableSerializer, RawRef, Refers};

/// A link, which may refer to the next link by a reference of the kind `KIND`. `KIND` is a number,
/// so the type can refer to itself: it may be the kind of references to such links.
#[derive(Drop)]
pub struct Chain<const KIND: u32> {
    pub next: Option<RawRef<KIND>>,
}

/// A link that may refer to the next one by a loose reference, so it is read without the links that
/// follow. Its type number is 0, so the kind of the reference is 1.
pub type Link = Chain<1>;

/// A link that may refer to the next one by a shared reference, so it is read with all links that
/// follow. Its type number is 1, so the kind of the reference is 3.
pub type ArcLink = Chain<3>;

impl<const KIND: u32> EncodedAs for Chain<KIND> {
    type Other = Option<RawRef<KIND>>;

    ghost as_other = { λ c. c.next };
}

impl<const KIND: u32> DecodedAs for Chain<KIND> {
    fn from_encoded(value: Option<RawRef<KIND>>) -> Self {
        Chain { next: value }
    }
}

impl<E: Env, const KIND: u32> Refers<E> for Chain<KIND> {
    fn list_references(&self, list: &mut Vec<ArcRef>) -> Result<(), Error> {
        Refers::<E>::list_references(&self.next, list)
    }

    ghost in_order = { λ e. one_in_order (E.parts e) KIND };
}

impl<E: Env, const KIND: u32> PagableSerialize<E> for Chain<KIND> {
    ghost write_causes = { one_writes };

    fn pagable_serialize<S: PagableSerializer<E>>(&self, serializer: &mut S) -> Result<(), Error> {
        self.next.pagable_serialize(serializer)
    }
}
