// Printed by pagable_derive: change the declaration instead.
//! The environment of `Commit`, `File` and `Folder`.

ghost use Rattle.history.specs.Nodes.{history_held};
ghost use Rattle.pagable_nodes.specs.NodeCases.{type_is_small};
ghost use Rattle.std.specs.{Arc.arc_value, Prelude.{Some, refl, ◌≡◌}};

use crate::commit::Commit;
use crate::file::File;
use crate::folder::Folder;
use pagable_core::Sha256Key;
use pagable_flavors::Error;
use pagable_nodes::{NodeValue, read_shared};
use pagable_traits::{ArcRef, Env, NodeSet, OfNode, PagableDeserializer, PagableSerializer};
use std::alloc::Global;
use std::sync::Arc;

/// The environment of `Commit`, `File` and `Folder`. Keys are computed by SHA-256.
#[derive(Drop)]
pub struct History;

impl Env for History {
    type Node = HistoryNode;

    type Hash = Sha256Key;

    type CtxKey = ();

    type CtxValue = ();

    ghost use Rattle.pagable_value_spec.specs.Shape.{nothing};

    ghost parts = { λ e number. nothing };
}

/// A node: a value of one of the types, whose numbers are their places here, from 0.
#[derive(Drop)]
pub enum HistoryNode {
    Commit(Arc<Commit>),
    File(Arc<File>),
    Folder(Arc<Folder>),
}

impl NodeSet<History> for HistoryNode {
    ghost use Rattle.history.specs.Nodes.{history_beside, history_case, history_types};
    ghost use Rattle.pagable_nodes.specs.{
      Cases.shape_of,
      NodeCases.{case_has_meaning, case_refers, typed_has_shape, typed_reads, typed_shape, typed_writes},
    };
    ghost use Rattle.pagable_value_spec.specs.References.{references_in};

    ghost type_of = { λ n. (history_case n).number };

    ghost shape_of = { λ e. typed_shape history_types };

    ghost own_shape = { λ e n. shape_of history_types (history_case n).number };

    ghost means = { λ n. (history_case n).means };

    ghost refs_of = { λ n. references_in (history_case n).meaning };

    ghost beside = { history_beside };

    ghost write_causes = { λ t. (typed_writes history_types t).are };

    ghost read_causes = { λ t. (typed_reads history_types t).are };

    ghost write_causes_may_refuse = { λ t. (typed_writes history_types t).may };

    ghost read_causes_are_own = { λ t. (typed_reads history_types t).own };

    ghost has_meaning = { λ n. case_has_meaning (history_case n) };

    ghost refers = { λ n. case_refers (history_case n) };

    ghost has_shape = { λ e n. typed_has_shape history_types (history_case n) };

    fn node_type(&self) -> u32 {
        match self {
            HistoryNode::Commit(_) => 0,
            HistoryNode::File(_) => 1,
            HistoryNode::Folder(_) => 2,
        }
    }

    fn refs(&self, alloc: Global) -> Result<Vec<ArcRef>, Error> {
        match self {
            HistoryNode::Commit(value) => NodeValue::<History>::list_refs(value.as_ref(), alloc),
            HistoryNode::File(value) => NodeValue::<History>::list_refs(value.as_ref(), alloc),
            HistoryNode::Folder(value) => NodeValue::<History>::list_refs(value.as_ref(), alloc),
        }
    }

    fn write<S: PagableSerializer<History>>(&self, serializer: &mut S) -> Result<(), Error> {
        match self {
            HistoryNode::Commit(value) => NodeValue::<History>::write(value.as_ref(), serializer),
            HistoryNode::File(value) => NodeValue::<History>::write(value.as_ref(), serializer),
            HistoryNode::Folder(value) => NodeValue::<History>::write(value.as_ref(), serializer),
        }
    }

    fn read<D: PagableDeserializer<History>>(
        node_type: u32,
        alloc: Global,
        deserializer: &mut D,
    ) -> Result<Self, Error> {
        match node_type {
            0 => Ok(HistoryNode::Commit(read_shared::<History, _, _>(alloc, deserializer)?)),
            1 => Ok(HistoryNode::File(read_shared::<History, _, _>(alloc, deserializer)?)),
            2 => Ok(HistoryNode::Folder(read_shared::<History, _, _>(alloc, deserializer)?)),
            _ => Err(Error::WrongKind),
        }
    }
}

impl OfNode<History> for Commit {
    ghost TYPE = { 0 };

    ghost held = { history_held 0 };

    const TYPE: u32 = 0;

    fn into_node(value: Arc<Self>) -> HistoryNode
        ensures { history_held 0 result ≡ Some (arc_value value) }
    {
        HistoryNode::Commit(value)
    }

    fn from_node(alloc: Global, node: &HistoryNode) -> Result<Option<Arc<Self>>, Error> {
        match node {
            HistoryNode::Commit(value) => Ok(Some(value.clone()?)),
            _ => Ok(None),
        }
    }

    ghost small = { type_is_small 0 refl };
}

impl OfNode<History> for File {
    ghost TYPE = { 1 };

    ghost held = { history_held 1 };

    const TYPE: u32 = 1;

    fn into_node(value: Arc<Self>) -> HistoryNode
        ensures { history_held 1 result ≡ Some (arc_value value) }
    {
        HistoryNode::File(value)
    }

    fn from_node(alloc: Global, node: &HistoryNode) -> Result<Option<Arc<Self>>, Error> {
        match node {
            HistoryNode::File(value) => Ok(Some(value.clone()?)),
            _ => Ok(None),
        }
    }

    ghost small = { type_is_small 1 refl };
}

impl OfNode<History> for Folder {
    ghost TYPE = { 2 };

    ghost held = { history_held 2 };

    const TYPE: u32 = 2;

    fn into_node(value: Arc<Self>) -> HistoryNode
        ensures { history_held 2 result ≡ Some (arc_value value) }
    {
        HistoryNode::Folder(value)
    }

    fn from_node(alloc: Global, node: &HistoryNode) -> Result<Option<Arc<Self>>, Error> {
        match node {
            HistoryNode::Folder(value) => Ok(Some(value.clone()?)),
            _ => Ok(None),
        }
    }

    ghost small = { type_is_small 2 refl };
}
