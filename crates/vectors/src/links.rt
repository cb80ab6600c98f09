//! Environments of links and of values that can't be written, one for each hash of keys.

ghost use Rattle.pagable_nodes.specs.Encoding.{fields, one, optional};
ghost use Rattle.pagable_traits.specs.HeldValues.{only_references};
ghost use Rattle.pagable_value_spec.specs.Shape.{nothing};
ghost use Rattle.vectors.specs.Links.{refusing};

use pagable::{
    ArcRef, EitherNode, Env, Error, InMemoryBlobs, PagableDeserialize, PagableDeserializer,
    PagableSerializer, Pager, RawRef, Reason, Sha256Key, WeighHash, references_of, write_with_refs,
};
use pagable_nodes::NodeValue;
use std::alloc::Global;

/// A link, which may refer to the next link by a reference of the kind `KIND`.
#[derive(Drop)]
pub struct Link<const KIND: u32> {
    pub next: Option<RawRef<KIND>>,
}

/// A value whose writer fails.
#[derive(Drop)]
pub struct Refusing {
    pub nothing: (),
}

/// Why a `Refusing` value isn't written.
const REASON: &str = "intentional serialization failure";

/// The error of writing a `Refusing` value.
pub fn refusal() -> Error {
    Error::Custom(Reason::new(REASON))
}

/// A node that holds a link to a loose link (type number 0, so its kind is 1), a link to a shared link
/// (1, so its kind is 3), or a value that can't be written (2).
pub type LinkNode = EitherNode<Link<1>, Link<3>, Refusing>;

/// The environment with keys by SHA-256.
#[derive(Drop)]
pub struct HashedLinks;

/// The environment with keys by weight: the sum of each byte times its place.
#[derive(Drop)]
pub struct WeighedLinks;

/// A pager of links with keys by SHA-256.
pub type HashedPager = Pager<HashedLinks, InMemoryBlobs<HashedLinks>>;

/// A pager of links with keys by weight.
pub type WeighedPager = Pager<WeighedLinks, InMemoryBlobs<WeighedLinks>>;

impl Env for HashedLinks {
    type Node = LinkNode;

    type Hash = Sha256Key;

    type CtxKey = ();

    type CtxValue = ();

    ghost parts = { λ e number. nothing };
}

impl Env for WeighedLinks {
    type Node = LinkNode;

    type Hash = WeighHash;

    type CtxKey = ();

    type CtxValue = ();

    ghost parts = { λ e number. nothing };
}

impl<E: Env, const KIND: u32> NodeValue<E> for Link<KIND> {
    ghost encoding = { fields (λ l. l.next) (optional (one KIND)) };

    ghost beside = { only_references };

    fn list_refs(&self, alloc: Global) -> Result<Vec<ArcRef>, Error> {
        references_of::<E, Option<RawRef<KIND>>>(alloc, &self.next)
    }

    fn write<S: PagableSerializer<E>>(&self, serializer: &mut S) -> Result<(), Error> {
        write_with_refs(&self.next, serializer)
    }

    fn read<D: PagableDeserializer<E>>(
        alloc: Global,
        deserializer: &mut D,
    ) -> Result<Link<KIND>, Error> {
        let next = PagableDeserialize::pagable_deserialize(alloc, deserializer)?;
        Ok(Link { next })
    }
}

impl<E: Env> NodeValue<E> for Refusing {
    ghost encoding = { refusing };

    ghost beside = { only_references };

    fn list_refs(&self, alloc: Global) -> Result<Vec<ArcRef>, Error> {
        references_of::<E, ()>(alloc, &())
    }

    fn write<S: PagableSerializer<E>>(&self, _serializer: &mut S) -> Result<(), Error> {
        Err(Error::Custom(Reason::new(REASON)))
    }

    fn read<D: PagableDeserializer<E>>(
        alloc: Global,
        deserializer: &mut D,
    ) -> Result<Refusing, Error> {
        let nothing = PagableDeserialize::pagable_deserialize(alloc, deserializer)?;
        Ok(Refusing { nothing })
    }
}
