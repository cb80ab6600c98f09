//! The table of claims that a caller lends to its workers.

ghost use Rattle.pagable_pageout.specs.Slots.{EachEnds, HoldOnlyOwnResults, shelf_in};

use crate::LentSlot;
use indexmap::IndexMap;
use pagable_codec::{Env, NodeSet};
use pagable_value_spec::Identity;

/// The table of claims that a caller lends to its workers: a slot for each claimed identity, and
/// for each waiting worker the identity whose result it waits for.
#[derive(Drop)]
pub struct LentTable<E: Env<Node: NodeSet<E>>> {
    pub(crate) slots: IndexMap<(u32, u64), LentSlot<E>>,
    pub(crate) waits: IndexMap<u64, Identity>,
    pub ghost own: { HoldOnlyOwnResults slots },
    pub ghost ends: { EachEnds (shelf_in slots waits) },
}
