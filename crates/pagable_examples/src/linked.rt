//! Types that refer to each other, and their environment: links refer to links, and a bundle to
//! links of both sorts by each sort of references.

ghost use Rattle.pagable_examples.specs.{
  Linked.{arc_link_in, bundle_in, holds_arc_link, holds_bundle, holds_link, link_in, no_parts, numbers_are_small},
};
ghost use Rattle.std.specs.{Arc.arc_value, Prelude.{Some, refl, ◌≡◌}};

pub mod bundle;
pub mod chain;

use crate::linked::bundle::Bundle;
use crate::linked::chain::{ArcLink, Link};
use pagable_core::WeighHash;
use pagable_flavors::Error;
use pagable_nodes::write_with_refs;
use pagable_traits::{
    ArcRef, Env, InNode, NodeSet, OfNode, PagableDeserialize, PagableDeserializer,
    PagableSerializer, references_of,
};
use std::alloc::Global;
use std::sync::Arc;

/// The environment of links (type number 0), links by shared references (1) and bundles (2).
#[derive(Drop)]
pub struct Linked;

impl Env for Linked {
    type Node = LinkedNode;

    type Hash = WeighHash;

    type CtxKey = ();

    type CtxValue = ();

    ghost parts = { λ e. no_parts };
}

/// A node that holds a link, a link by a shared reference, or a bundle.
#[derive(Drop)]
pub enum LinkedNode {
    Link(Arc<Link>),
    ArcLink(Arc<ArcLink>),
    Bundle(Arc<Bundle>),
}

impl NodeSet<Linked> for LinkedNode {
    ghost use Rattle.pagable_examples.specs.Linked.{case_of, node_beside, reads, shape_of, writes};

    ghost type_of = { λ n. (case_of n).number };

    ghost shape_of = { λ e t. shape_of t };

    ghost own_shape = { λ e n. (case_of n).shape };

    ghost means = { λ n. (case_of n).means };

    ghost refs_of = { λ n. (case_of n).refs };

    ghost beside = { node_beside };

    ghost write_causes = { λ t. (writes t).are };

    ghost read_causes = { λ t. (reads t).are };

    ghost write_causes_may_refuse = { λ t. (writes t).may };

    ghost read_causes_are_own = { λ t. (reads t).own };

    ghost has_meaning = { λ n. (case_of n).has_meaning };

    ghost refers = { λ n. (case_of n).refers };

    ghost has_shape = { λ e n. (case_of n).has_shape };

    fn node_type(&self) -> u32 {
        match self {
            LinkedNode::Link(_) => 0,
            LinkedNode::ArcLink(_) => 1,
            LinkedNode::Bundle(_) => 2,
        }
    }

    fn refs(&self, alloc: Global) -> Result<Vec<ArcRef>, Error> {
        match self {
            LinkedNode::Link(link) => references_of::<Linked, Link>(alloc, link.as_ref()),
            LinkedNode::ArcLink(link) => references_of::<Linked, ArcLink>(alloc, link.as_ref()),
            LinkedNode::Bundle(bundle) => references_of::<Linked, Bundle>(alloc, bundle.as_ref()),
        }
    }

    fn write<S: PagableSerializer<Linked>>(&self, serializer: &mut S) -> Result<(), Error> {
        match self {
            LinkedNode::Link(link) => write_with_refs(link.as_ref(), serializer),
            LinkedNode::ArcLink(link) => write_with_refs(link.as_ref(), serializer),
            LinkedNode::Bundle(bundle) => write_with_refs(bundle.as_ref(), serializer),
        }
    }

    #[tactic(auto, using(crate::proofs::Listed::or_memory, crate::proofs::Listed::node_holds))]
    fn read<D: PagableDeserializer<Linked>>(
        node_type: u32,
        alloc: Global,
        deserializer: &mut D,
    ) -> Result<LinkedNode, Error> {
        match node_type {
            0 => {
                let link = Link::pagable_deserialize(alloc, deserializer)?;
                Ok(LinkedNode::Link(Arc::new(alloc, link)?))
            }
            1 => {
                let link = ArcLink::pagable_deserialize(alloc, deserializer)?;
                Ok(LinkedNode::ArcLink(Arc::new(alloc, link)?))
            }
            2 => {
                let bundle = Bundle::pagable_deserialize(alloc, deserializer)?;
                Ok(LinkedNode::Bundle(Arc::new(alloc, bundle)?))
            }
            _ => Err(Error::WrongKind),
        }
    }
}

impl OfNode<Linked> for Link {
    ghost TYPE = { 0 };

    ghost held = { link_in };

    const TYPE: u32 = 0;

    fn into_node(value: Arc<Link>) -> LinkedNode
        ensures { link_in result ≡ Some (arc_value value) }
    {
        LinkedNode::Link(value)
    }

    fn from_node(alloc: Global, node: &LinkedNode) -> Result<Option<Arc<Link>>, Error> {
        match node {
            LinkedNode::Link(value) => Ok(Some(value.clone()?)),
            LinkedNode::ArcLink(_) | LinkedNode::Bundle(_) => Ok(None),
        }
    }

    ghost small = { numbers_are_small.0 };
}

impl InNode<Linked> for Link {
    ghost holds = { holds_link };

    ghost shape_is = { λ e. refl };

    ghost writes_as = { λ e h. h };

    ghost reads_as = { λ e h. h };
}

impl OfNode<Linked> for ArcLink {
    ghost TYPE = { 1 };

    ghost held = { arc_link_in };

    const TYPE: u32 = 1;

    fn into_node(value: Arc<ArcLink>) -> LinkedNode
        ensures { arc_link_in result ≡ Some (arc_value value) }
    {
        LinkedNode::ArcLink(value)
    }

    fn from_node(alloc: Global, node: &LinkedNode) -> Result<Option<Arc<ArcLink>>, Error> {
        match node {
            LinkedNode::ArcLink(value) => Ok(Some(value.clone()?)),
            LinkedNode::Link(_) | LinkedNode::Bundle(_) => Ok(None),
        }
    }

    ghost small = { numbers_are_small.1.0 };
}

impl InNode<Linked> for ArcLink {
    ghost holds = { holds_arc_link };

    ghost shape_is = { λ e. refl };

    ghost writes_as = { λ e h. h };

    ghost reads_as = { λ e h. h };
}

impl OfNode<Linked> for Bundle {
    ghost TYPE = { 2 };

    ghost held = { bundle_in };

    const TYPE: u32 = 2;

    fn into_node(value: Arc<Bundle>) -> LinkedNode
        ensures { bundle_in result ≡ Some (arc_value value) }
    {
        LinkedNode::Bundle(value)
    }

    fn from_node(alloc: Global, node: &LinkedNode) -> Result<Option<Arc<Bundle>>, Error> {
        match node {
            LinkedNode::Bundle(value) => Ok(Some(value.clone()?)),
            LinkedNode::Link(_) | LinkedNode::ArcLink(_) => Ok(None),
        }
    }

    ghost small = { numbers_are_small.1.1 };
}

impl InNode<Linked> for Bundle {
    ghost holds = { holds_bundle };

    ghost shape_is = { λ e. refl };

    ghost writes_as = { λ e h. h };

    ghost reads_as = { λ e h. h };
}
