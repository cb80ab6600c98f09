//! The result of a node's page-out, with the proof that it stands for a finite tree of such
//! results.

ghost use Rattle.pagable_load.specs.AccessView.{values_at};
ghost use Rattle.pagable_pageout.specs.Results.{ResultStands};
ghost use Rattle.pagable_pager_spec.specs.Basics.{longest_path};
ghost use Rattle.std.specs.Prelude.{◌≡◌, ◌≤◌};

use pagable_codec::{Env, NodeSet};
use pagable_value_spec::{DataKey, Identity};
use std::marker::PhantomData;

/// The result of a node's page-out: the node's identity, key, and height, which is at most 128, the
/// longest path.
#[derive(Drop)]
pub struct SlotResult<E: Env<Node: NodeSet<E>>> {
    pub identity: Identity,
    pub key: DataKey,
    pub height: u64,
    pub(crate) of: PhantomData<E>,
    pub ghost low: { height ≤ longest_path },
    pub ghost stands: { ∥ ResultStands E.Hash.digest (values_at E.Node.NodeSet E.Env E.Hash.KeyHash) identity key ∥₁ },
}

impl<E: Env<Node: NodeSet<E>>> SlotResult<E> {
    /// Copies the result.
    pub fn copy(&self) -> SlotResult<E>
        ensures identity { result.identity ≡ self.now.identity }
        ensures key { result.key ≡ self.now.key }
        ensures height { result.height ≡ self.now.height }
    {
        SlotResult {
            identity: self.identity,
            key: self.key,
            height: self.height,
            of: PhantomData,
        }
    }
}
