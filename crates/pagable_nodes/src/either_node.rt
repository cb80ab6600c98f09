//! A node that holds a value of one of three types.

ghost use Rattle.pagable_nodes.specs.{
  Nodes.{either_beside, either_has_meaning, either_has_shape, either_means, either_number, either_reads, either_refers},
  Nodes.{either_refs, either_shape, either_writes, first_held, second_held, shape_of_three, third_held},
};
ghost use Rattle.pagable_value_spec.specs.Outcomes.{IsOutOfMemory};
ghost use Rattle.std.specs.{Arc.arc_value, Option.option_map, Prelude.{IfErr, IfOk, ◌≡◌}};

use crate::node_value::NodeValue;
use crate::one_node::OneNode;
use pagable_flavors::Error;
use pagable_traits::{ArcRef, Env, NodeSet, PagableDeserializer, PagableSerializer};
use std::alloc::Global;
use std::sync::Arc;

/// A node of an environment with three value types, which have the numbers 0, 1 and 2 in their
/// order. An environment with two value types takes `()` as the third.
#[derive(Drop)]
pub enum EitherNode<A, B, C> {
    /// A value of the type number 0.
    First(OneNode<A>),
    /// A value of the type number 1.
    Second(OneNode<B>),
    /// A value of the type number 2.
    Third(OneNode<C>),
}

impl<A: Drop, B: Drop, C: Drop> EitherNode<A, B, C> {
    /// Returns the node's value, shared, if it has the type number 0, else None.
    ///
    /// # Errors
    ///
    /// - `OutOfMemory` if the value can't be shared once more.
    pub fn first(&self) -> Result<Option<Arc<A>>, Error>
        ensures value { IfOk result (λ found. option_map arc_value found ≡ first_held self.now) }
        ensures only { IfErr result IsOutOfMemory }
    {
        match self {
            EitherNode::First(node) => Ok(Some(node.value.clone()?)),
            EitherNode::Second(_) | EitherNode::Third(_) => Ok(None),
        }
    }

    /// Returns the node's value, shared, if it has the type number 1, else None.
    ///
    /// # Errors
    ///
    /// - `OutOfMemory` if the value can't be shared once more.
    pub fn second(&self) -> Result<Option<Arc<B>>, Error>
        ensures value { IfOk result (λ found. option_map arc_value found ≡ second_held self.now) }
        ensures only { IfErr result IsOutOfMemory }
    {
        match self {
            EitherNode::Second(node) => Ok(Some(node.value.clone()?)),
            EitherNode::First(_) | EitherNode::Third(_) => Ok(None),
        }
    }

    /// Returns the node's value, shared, if it has the type number 2, else None.
    ///
    /// # Errors
    ///
    /// - `OutOfMemory` if the value can't be shared once more.
    pub fn third(&self) -> Result<Option<Arc<C>>, Error>
        ensures value { IfOk result (λ found. option_map arc_value found ≡ third_held self.now) }
        ensures only { IfErr result IsOutOfMemory }
    {
        match self {
            EitherNode::Third(node) => Ok(Some(node.value.clone()?)),
            EitherNode::First(_) | EitherNode::Second(_) => Ok(None),
        }
    }
}

impl<E: Env, A: NodeValue<E> + Drop, B: NodeValue<E> + Drop, C: NodeValue<E> + Drop> NodeSet<E>
    for EitherNode<A, B, C> {
    ghost type_of = { either_number };

    ghost shape_of = { λ e. shape_of_three A.encoding.shape B.encoding.shape C.encoding.shape };

    ghost own_shape = { λ e n. either_shape A.encoding.shape B.encoding.shape C.encoding.shape n };

    ghost means = { either_means A.encoding.means B.encoding.means C.encoding.means };

    ghost refs_of = { either_refs A.encoding.means B.encoding.means C.encoding.means };

    ghost beside = { either_beside A.beside B.beside C.beside };

    ghost write_causes = { λ t. (either_writes A.encoding.writes B.encoding.writes C.encoding.writes t).are };

    ghost read_causes = { λ t. (either_reads A.encoding.reads B.encoding.reads C.encoding.reads t).are };

    ghost write_causes_may_refuse = { λ t. (either_writes A.encoding.writes B.encoding.writes
        C.encoding.writes t).may };

    ghost read_causes_are_own = { λ t. (either_reads A.encoding.reads B.encoding.reads C.encoding.reads t).own };

    ghost has_meaning = { either_has_meaning A.encoding.means B.encoding.means C.encoding.means };

    ghost refers = { either_refers A.encoding.means B.encoding.means C.encoding.means
        A.encoding.single B.encoding.single C.encoding.single };

    ghost has_shape = { λ e. either_has_shape A.encoding.shape B.encoding.shape C.encoding.shape };

    fn node_type(&self) -> u32 {
        match self {
            EitherNode::First(_) => 0,
            EitherNode::Second(_) => 1,
            EitherNode::Third(_) => 2,
        }
    }

    fn refs(&self, alloc: Global) -> Result<Vec<ArcRef>, Error> {
        match self {
            EitherNode::First(node) => NodeValue::<E>::list_refs(node.value.as_ref(), alloc),
            EitherNode::Second(node) => NodeValue::<E>::list_refs(node.value.as_ref(), alloc),
            EitherNode::Third(node) => NodeValue::<E>::list_refs(node.value.as_ref(), alloc),
        }
    }

    fn write<S: PagableSerializer<E>>(&self, serializer: &mut S) -> Result<(), Error> {
        match self {
            EitherNode::First(node) => NodeValue::<E>::write(node.value.as_ref(), serializer),
            EitherNode::Second(node) => NodeValue::<E>::write(node.value.as_ref(), serializer),
            EitherNode::Third(node) => NodeValue::<E>::write(node.value.as_ref(), serializer),
        }
    }

    #[tactic(auto, using(crate::proofs::Causes::or_memory, crate::proofs::Held::held))]
    fn read<D: PagableDeserializer<E>>(
        node_type: u32,
        alloc: Global,
        deserializer: &mut D,
    ) -> Result<EitherNode<A, B, C>, Error> {
        match node_type {
            0 => {
                let value = <A as NodeValue<E>>::read(alloc, deserializer)?;
                Ok(EitherNode::First(OneNode::new(Arc::new(alloc, value)?)))
            }
            1 => {
                let value = <B as NodeValue<E>>::read(alloc, deserializer)?;
                Ok(EitherNode::Second(OneNode::new(Arc::new(alloc, value)?)))
            }
            2 => {
                let value = <C as NodeValue<E>>::read(alloc, deserializer)?;
                Ok(EitherNode::Third(OneNode::new(Arc::new(alloc, value)?)))
            }
            _ => Err(Error::WrongKind),
        }
    }
}
