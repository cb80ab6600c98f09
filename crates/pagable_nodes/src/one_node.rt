//! A node that holds a value of the environment's one value type.

ghost use Rattle.pagable_nodes.specs.Nodes.{one_beside, shape_of_one, value_refers};
ghost use Rattle.pagable_traits.specs.{Clauses.{Wrote, value as form}, Meanings.some, OwnCauses.reads_memory_or};
ghost use Rattle.pagable_value_spec.specs.References.{references_in};
ghost use Rattle.std.specs.{Arc.arc_value, Prelude.{OnOk, refl, ◌++◌, ◌≡◌}};

use crate::node_value::NodeValue;
use pagable_flavors::Error;
use pagable_traits::{
    ArcRef, Env, NodeSet, PagableDeserializer, PagableSerialize, PagableSerializer, Refers,
};
use std::alloc::Global;
use std::sync::Arc;

/// A node of an environment whose values are all of the type `T`, which has the number 0. An
/// environment names it as its node type: `type Node = OneNode<Commit>`.
#[derive(Drop)]
pub struct OneNode<T> {
    /// The value.
    pub value: Arc<T>,
}

impl<T> OneNode<T> {
    /// Makes the node that holds this value.
    pub fn new(value: Arc<T>) -> OneNode<T>
        ensures { result.value ≡ value }
    {
        OneNode { value }
    }
}

/// Writes a value, and promises what a node must: the references that it appends are exactly those
/// that the type's `Refers` lists, in the same order.
///
/// # Errors
///
/// - as the value's `pagable_serialize`.
pub fn write_with_refs<E: Env, T: Refers<E> + PagableSerialize<E>, S: PagableSerializer<E>>(
    value: &T,
    serializer: &mut S,
) -> Result<(), Error>
    ensures wrote { Wrote E.Env S.PagableSerializer (form (T.means.of value.now)
        (T.shape (S.environment serializer.old))) T.write_causes.are serializer.old serializer.new result }
    ensures listed { OnOk result ((S.out serializer.new).refs ≡ (S.out serializer.old).refs
        ++ references_in (T.means.meaning value.now)) }
{
    value.pagable_serialize(serializer)
}

impl<E: Env, T: NodeValue<E> + Drop> NodeSet<E> for OneNode<T> {
    ghost type_of = { λ n. 0 };

    ghost shape_of = { λ e t. shape_of_one T.encoding.shape t };

    ghost own_shape = { λ e n. T.encoding.shape };

    ghost means = { λ n. T.encoding.means.of (arc_value n.value) };

    ghost refs_of = { λ n. references_in (T.encoding.means.meaning (arc_value n.value)) };

    ghost beside = { one_beside T.beside };

    ghost write_causes = { λ t. T.encoding.writes.are };

    ghost read_causes = { λ t. (reads_memory_or T.encoding.reads).are };

    ghost write_causes_may_refuse = { λ t. T.encoding.writes.may };

    ghost read_causes_are_own = { λ t. (reads_memory_or T.encoding.reads).own };

    ghost has_meaning = { λ n. some T.encoding.means (arc_value n.value) };

    ghost refers = { λ n m h. value_refers T.encoding.means T.encoding.single (arc_value n.value) m h };

    ghost has_shape = { λ e n. refl };

    fn node_type(&self) -> u32 {
        0
    }

    fn refs(&self, alloc: Global) -> Result<Vec<ArcRef>, Error> {
        NodeValue::<E>::list_refs(self.value.as_ref(), alloc)
    }

    fn write<S: PagableSerializer<E>>(&self, serializer: &mut S) -> Result<(), Error> {
        NodeValue::<E>::write(self.value.as_ref(), serializer)
    }

    #[tactic(auto, using(crate::proofs::Held::one_holds))]
    fn read<D: PagableDeserializer<E>>(
        node_type: u32,
        alloc: Global,
        deserializer: &mut D,
    ) -> Result<OneNode<T>, Error> {
        if node_type != 0 {
            return Err(Error::WrongKind);
        }
        let value = <T as NodeValue<E>>::read(alloc, deserializer)?;
        Ok(OneNode::new(Arc::new(alloc, value)?))
    }
}
