//! Dolls: a value that holds another one of its own type, and is read together with it.

ghost use Rattle.pagable_examples.specs.Dolls.{doll_beside, doll_encoding};
ghost use Rattle.pagable_nodes.specs.Nodes.{one_held, zero_is_small};
ghost use Rattle.std.specs.{Arc.arc_value, Prelude.{Some, ◌≡◌}};

use pagable_core::WeighHash;
use pagable_flavors::Error;
use pagable_nodes::{NodeValue, OneNode, write_with_refs};
use pagable_traits::{
    Arc as Shared, ArcRef, Env, OfNode, PagableDeserialize, PagableDeserializer, PagableSerializer,
    references_of,
};
use std::alloc::Global;
use std::sync::Arc;

/// The environment of dolls, which have the type number 0.
#[derive(Drop)]
pub struct Dolls;

impl Env for Dolls {
    type Node = OneNode<Doll>;

    type Hash = WeighHash;

    type CtxKey = ();

    type CtxValue = ();

    ghost use Rattle.pagable_value_spec.specs.Shape.{nothing};

    ghost parts = { λ e number. nothing };
}

/// A doll, which may hold a smaller one.
#[derive(Drop)]
pub struct Doll {
    pub inner: Option<Shared<Doll>>,
}

impl NodeValue<Dolls> for Doll {
    ghost encoding = { doll_encoding };

    ghost beside = { doll_beside };

    fn list_refs(&self, alloc: Global) -> Result<Vec<ArcRef>, Error> {
        references_of::<Dolls, Option<Shared<Doll>>>(alloc, &self.inner)
    }

    fn write<S: PagableSerializer<Dolls>>(&self, serializer: &mut S) -> Result<(), Error> {
        write_with_refs(&self.inner, serializer)
    }

    #[tactic(auto, using(std::proofs::lemmas::Result::err_from_is_err_and, pagable_nodes::proofs::Held::parts_hold))]
    fn read<D: PagableDeserializer<Dolls>>(
        alloc: Global,
        deserializer: &mut D,
    ) -> Result<Doll, Error> {
        match PagableDeserialize::pagable_deserialize(alloc, deserializer) {
            Ok(inner) => Ok(Doll { inner }),
            Err(e) => Err(e),
        }
    }
}

impl OfNode<Dolls> for Doll {
    ghost TYPE = { 0 };

    ghost held = { one_held };

    const TYPE: u32 = 0;

    fn into_node(value: Arc<Doll>) -> OneNode<Doll>
        ensures { one_held result ≡ Some (arc_value value) }
    {
        OneNode::new(value)
    }

    fn from_node(alloc: Global, node: &OneNode<Doll>) -> Result<Option<Arc<Doll>>, Error> {
        Ok(Some(node.value.clone()?))
    }

    ghost small = { zero_is_small };
}
