// Printed by pagable_derive: change the declaration instead.
//! The environment of `Part`, `Choice`, `Table` and `Change`.

ghost use Rattle.declared_types.specs.Nodes.{store_held};
ghost use Rattle.pagable_nodes.specs.NodeCases.{type_is_small};
ghost use Rattle.std.specs.{Arc.arc_value, Prelude.{Some, refl, ◌≡◌}};

use crate::change::Change;
use crate::choice::Choice;
use crate::part::Part;
use crate::table::Table;
use pagable_core::Sha256Key;
use pagable_flavors::Error;
use pagable_nodes::{NodeValue, read_shared};
use pagable_traits::{ArcRef, Env, NodeSet, OfNode, PagableDeserializer, PagableSerializer};
use std::alloc::Global;
use std::sync::Arc;

/// The environment of `Part`, `Choice`, `Table` and `Change`. Keys are computed by SHA-256.
#[derive(Drop)]
pub struct Store;

impl Env for Store {
    type Node = StoreNode;

    type Hash = Sha256Key;

    type CtxKey = ();

    type CtxValue = ();

    ghost use Rattle.pagable_value_spec.specs.Shape.{nothing};

    ghost parts = { λ e number. nothing };
}

/// A node: a value of one of the types, whose numbers are their places here, from 0.
#[derive(Drop)]
pub enum StoreNode {
    Part(Arc<Part>),
    Choice(Arc<Choice>),
    Table(Arc<Table>),
    Change(Arc<Change>),
}

impl NodeSet<Store> for StoreNode {
    ghost use Rattle.declared_types.specs.Nodes.{store_beside, store_case, store_types};
    ghost use Rattle.pagable_nodes.specs.{
      Cases.shape_of,
      NodeCases.{case_has_meaning, case_refers, typed_has_shape, typed_reads, typed_shape, typed_writes},
    };
    ghost use Rattle.pagable_value_spec.specs.References.{references_in};

    ghost type_of = { λ n. (store_case n).number };

    ghost shape_of = { λ e. typed_shape store_types };

    ghost own_shape = { λ e n. shape_of store_types (store_case n).number };

    ghost means = { λ n. (store_case n).means };

    ghost refs_of = { λ n. references_in (store_case n).meaning };

    ghost beside = { store_beside };

    ghost write_causes = { λ t. (typed_writes store_types t).are };

    ghost read_causes = { λ t. (typed_reads store_types t).are };

    ghost write_causes_may_refuse = { λ t. (typed_writes store_types t).may };

    ghost read_causes_are_own = { λ t. (typed_reads store_types t).own };

    ghost has_meaning = { λ n. case_has_meaning (store_case n) };

    ghost refers = { λ n. case_refers (store_case n) };

    ghost has_shape = { λ e n. typed_has_shape store_types (store_case n) };

    fn node_type(&self) -> u32 {
        match self {
            StoreNode::Part(_) => 0,
            StoreNode::Choice(_) => 1,
            StoreNode::Table(_) => 2,
            StoreNode::Change(_) => 3,
        }
    }

    fn refs(&self, alloc: Global) -> Result<Vec<ArcRef>, Error> {
        match self {
            StoreNode::Part(value) => NodeValue::<Store>::list_refs(value.as_ref(), alloc),
            StoreNode::Choice(value) => NodeValue::<Store>::list_refs(value.as_ref(), alloc),
            StoreNode::Table(value) => NodeValue::<Store>::list_refs(value.as_ref(), alloc),
            StoreNode::Change(value) => NodeValue::<Store>::list_refs(value.as_ref(), alloc),
        }
    }

    fn write<S: PagableSerializer<Store>>(&self, serializer: &mut S) -> Result<(), Error> {
        match self {
            StoreNode::Part(value) => NodeValue::<Store>::write(value.as_ref(), serializer),
            StoreNode::Choice(value) => NodeValue::<Store>::write(value.as_ref(), serializer),
            StoreNode::Table(value) => NodeValue::<Store>::write(value.as_ref(), serializer),
            StoreNode::Change(value) => NodeValue::<Store>::write(value.as_ref(), serializer),
        }
    }

    fn read<D: PagableDeserializer<Store>>(
        node_type: u32,
        alloc: Global,
        deserializer: &mut D,
    ) -> Result<Self, Error> {
        match node_type {
            0 => Ok(StoreNode::Part(read_shared::<Store, _, _>(alloc, deserializer)?)),
            1 => Ok(StoreNode::Choice(read_shared::<Store, _, _>(alloc, deserializer)?)),
            2 => Ok(StoreNode::Table(read_shared::<Store, _, _>(alloc, deserializer)?)),
            3 => Ok(StoreNode::Change(read_shared::<Store, _, _>(alloc, deserializer)?)),
            _ => Err(Error::WrongKind),
        }
    }
}

impl OfNode<Store> for Part {
    ghost TYPE = { 0 };

    ghost held = { store_held 0 };

    const TYPE: u32 = 0;

    fn into_node(value: Arc<Self>) -> StoreNode
        ensures { store_held 0 result ≡ Some (arc_value value) }
    {
        StoreNode::Part(value)
    }

    fn from_node(alloc: Global, node: &StoreNode) -> Result<Option<Arc<Self>>, Error> {
        match node {
            StoreNode::Part(value) => Ok(Some(value.clone()?)),
            _ => Ok(None),
        }
    }

    ghost small = { type_is_small 0 refl };
}

impl OfNode<Store> for Choice {
    ghost TYPE = { 1 };

    ghost held = { store_held 1 };

    const TYPE: u32 = 1;

    fn into_node(value: Arc<Self>) -> StoreNode
        ensures { store_held 1 result ≡ Some (arc_value value) }
    {
        StoreNode::Choice(value)
    }

    fn from_node(alloc: Global, node: &StoreNode) -> Result<Option<Arc<Self>>, Error> {
        match node {
            StoreNode::Choice(value) => Ok(Some(value.clone()?)),
            _ => Ok(None),
        }
    }

    ghost small = { type_is_small 1 refl };
}

impl OfNode<Store> for Table {
    ghost TYPE = { 2 };

    ghost held = { store_held 2 };

    const TYPE: u32 = 2;

    fn into_node(value: Arc<Self>) -> StoreNode
        ensures { store_held 2 result ≡ Some (arc_value value) }
    {
        StoreNode::Table(value)
    }

    fn from_node(alloc: Global, node: &StoreNode) -> Result<Option<Arc<Self>>, Error> {
        match node {
            StoreNode::Table(value) => Ok(Some(value.clone()?)),
            _ => Ok(None),
        }
    }

    ghost small = { type_is_small 2 refl };
}

impl OfNode<Store> for Change {
    ghost TYPE = { 3 };

    ghost held = { store_held 3 };

    const TYPE: u32 = 3;

    fn into_node(value: Arc<Self>) -> StoreNode
        ensures { store_held 3 result ≡ Some (arc_value value) }
    {
        StoreNode::Change(value)
    }

    fn from_node(alloc: Global, node: &StoreNode) -> Result<Option<Arc<Self>>, Error> {
        match node {
            StoreNode::Change(value) => Ok(Some(value.clone()?)),
            _ => Ok(None),
        }
    }

    ghost small = { type_is_small 3 refl };
}
