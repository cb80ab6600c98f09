//! Pins, reads and page-outs over a lent pager. Contracts tell what they do as long as the storage
//! is honest afterwards.

ghost use Rattle.pagable_calls.specs.Paged.{IsFailed, PagesOutItem, PagesOutList, ReadsValue};
ghost use Rattle.pagable_load.specs.{AccessView.values_at, Keyed.{HoldsKeyed, IsKeyed}};
ghost use Rattle.pagable_pageout.specs.{PageOuts.{PagesItem, PagesList, answer_of}, Slots.written_of, Table.shelf_of};
ghost use Rattle.pagable_pager.specs.View.{BetweenIfHonest};
ghost use Rattle.pagable_pager_spec.specs.Access.{ReadsOver};
ghost use Rattle.std.specs.{Arc.arc_value, Prelude.{IfErr, IfOk, IsTrue, ◌≡◌}};
ghost use Rattle.pagable_pager_spec.specs.declared.handle_row.Owner.TheVariants as owners;

use pagable_codec::{Env, NodeSet, OfNode};
use pagable_core::{PagableStorage, SerializedData};
pub use pagable_load::CellPin;
use pagable_load::read_over;
use pagable_pageout::{LentTable, PageOutError, page_out_item_over, page_out_pending_over};
pub use pagable_pager::{pin, pin_with_key};
use pagable_pager::{Lent, Pager};
use pagable_value_spec::{DataKey, Error};
use std::alloc::Global;
use std::sync::Arc;

fn read_lent<'a, E: Env<Node: NodeSet<E>>, S: PagableStorage<E>>(
    lent: &mut Lent<'a, E, S>,
    alloc: Global,
    key: DataKey,
    node_type: u32,
) -> Result<E::Node, Error>
    requires caller { lent.old.me ≡ owners.Caller }
    ensures reads { BetweenIfHonest E.Node.NodeSet E.Env E.Hash.KeyHash S.PagableStorage lent.old.pager.now
        lent.new.pager.now (λ v s s'. ReadsOver v s key node_type result s') }
    ensures keyed { IfOk result (IsKeyed (values_at E.Node.NodeSet E.Env E.Hash.KeyHash
        lent.old.pager.now.environment) key node_type) }
    ensures honest { IsTrue (S.is_honest lent.new.pager.now.storage) → IsTrue (S.is_honest lent.old.pager.now.storage) }
    ensures lender { lent.new.pager.ghost_name ≡ lent.old.pager.ghost_name }
{
    read_over(lent, alloc, key, node_type)
}

/// Reads a key as a value of this type, with all that is read together with it. The caller owns the
/// handles of the value's references. Whatever the storage does, the value is what the wire format
/// reads from a blob whose hash is the key.
///
/// # Errors
///
/// - The error of a fetch or of the value's reader, `NumbersSpent` or `OutOfMemory`: nothing is
///   left of the load.
pub fn read<E: Env<Node: NodeSet<E>>, S: PagableStorage<E>>(
    alloc: Global,
    pager: &mut Pager<E, S>,
    key: DataKey,
    node_type: u32,
) -> Result<E::Node, Error>
    ensures reads { BetweenIfHonest E.Node.NodeSet E.Env E.Hash.KeyHash S.PagableStorage pager.old pager.new
        (λ v s s'. ReadsOver v s key node_type result s') }
    ensures keyed { IfOk result (IsKeyed (values_at E.Node.NodeSet E.Env E.Hash.KeyHash pager.old.environment) key
        node_type) }
    ensures honest { IsTrue (S.is_honest pager.new.storage) → IsTrue (S.is_honest pager.old.storage) }
{
    let mut lent = Lent::new(pager);
    read_lent(&mut lent, alloc, key, node_type)
}

/// Reads a key as a value of the type T, as `read` does, and returns the value that its node holds.
/// Whatever the storage does, that node is what a blob whose hash is the key reads as.
///
/// # Errors
///
/// - As `read`, without a node: nothing is left of the load.
/// - `OutOfMemory`, `WrongKind` with the node, if the value can't be taken out of it or it holds
///   none: the caller owns the handles of the node's references.
#[tactic(auto, using(crate::proofs::Driven::taking, pagable_load::proofs::Keyed::held_keyed))]
pub fn deserialize_pagable_data<E: Env<Node: NodeSet<E>>, S: PagableStorage<E>, T: OfNode<E>>(
    alloc: Global,
    pager: &mut Pager<E, S>,
    key: DataKey,
) -> Result<Arc<T>, (Error, Option<E::Node>)>
    ensures reads { BetweenIfHonest E.Node.NodeSet E.Env E.Hash.KeyHash S.PagableStorage pager.old pager.new
        (λ v s s'. ReadsValue v arc_value T.held s key T.TYPE result s') }
    ensures keyed { IfOk result (λ value. HoldsKeyed (values_at E.Node.NodeSet E.Env E.Hash.KeyHash
        pager.old.environment) T.held key T.TYPE (arc_value value)) }
    ensures honest { IsTrue (S.is_honest pager.new.storage) → IsTrue (S.is_honest pager.old.storage) }
{
    match read(alloc, pager, key, T::TYPE) {
        Ok(node) => match T::from_node(alloc, &node) {
            Ok(Some(value)) => Ok(value),
            Ok(None) => Err((Error::WrongKind, Some(node))),
            Err(e) => Err((e, Some(node))),
        },
        Err(e) => Err((e, None)),
    }
}

fn page_out_item_lent<'a, E: Env<Node: NodeSet<E>>, S: PagableStorage<E>>(
    lent: &mut Lent<'a, E, S>,
    alloc: Global,
    table: &mut LentTable<E>,
    item: Arc<SerializedData>,
) -> Result<DataKey, PageOutError>
    requires caller { lent.old.me ≡ owners.Caller }
    ensures pages { BetweenIfHonest E.Node.NodeSet E.Env E.Hash.KeyHash S.PagableStorage lent.old.pager.now
        lent.new.pager.now (λ v s s'. PagesItem v (shelf_of table.old) (written_of (arc_value item))
        (shelf_of table.new) (answer_of result) s s') }
    ensures honest { IsTrue (S.is_honest lent.new.pager.now.storage) → IsTrue (S.is_honest lent.old.pager.now.storage) }
    ensures lender { lent.new.pager.ghost_name ≡ lent.old.pager.ghost_name }
{
    page_out_item_over(lent, alloc, table, item)
}

/// Pages out what an item refers to, and then the item itself, and returns its key. What the table
/// knows from earlier items isn't written again. Afterwards the caller owns the handles that it
/// owned before, whatever the result.
///
/// # Errors
///
/// - `Failed` with the error of beginning the worker, or of one of its steps.
/// - `AlreadyFailed` if an earlier page-out on this table failed at what the item refers to.
///
/// What was stored and keys that were set stay.
pub fn page_out_item<E: Env<Node: NodeSet<E>>, S: PagableStorage<E>>(
    alloc: Global,
    pager: &mut Pager<E, S>,
    table: &mut LentTable<E>,
    item: Arc<SerializedData>,
) -> Result<DataKey, PageOutError>
    ensures pages { BetweenIfHonest E.Node.NodeSet E.Env E.Hash.KeyHash S.PagableStorage pager.old pager.new
        (λ v s s'. PagesOutItem v s (shelf_of table.old) (written_of (arc_value item)) (answer_of result) s'
        (shelf_of table.new)) }
    ensures honest { IsTrue (S.is_honest pager.new.storage) → IsTrue (S.is_honest pager.old.storage) }
{
    pager.assert_invariant();
    let mut lent = Lent::new(pager);
    page_out_item_lent(&mut lent, alloc, table, item)
}

fn page_out_pending_lent<'a, E: Env<Node: NodeSet<E>>, S: PagableStorage<E>>(
    lent: &mut Lent<'a, E, S>,
    alloc: Global,
) -> Result<(), PageOutError>
    requires caller { lent.old.me ≡ owners.Caller }
    ensures pages { BetweenIfHonest E.Node.NodeSet E.Env E.Hash.KeyHash S.PagableStorage lent.old.pager.now
        lent.new.pager.now (λ v s s'. PagesList v result s s') }
    ensures honest { IsTrue (S.is_honest lent.new.pager.now.storage) → IsTrue (S.is_honest lent.old.pager.now.storage) }
    ensures lender { lent.new.pager.ghost_name ≡ lent.old.pager.ghost_name }
{
    page_out_pending_over(lent, alloc)
}

/// Pages out the cells that wait for page-out when it is called, with all that they refer to, from
/// the last entry of the list to the first, up to the first failure. Entries that are listed
/// meanwhile wait for the next call. An entry whose cell has a key only leaves the list.
///
/// # Errors
///
/// - `Failed` with the error of the first entry that fails: it keeps its place if no worker can
///   begin; if it fails later, but before its cell is pinned, it is listed again, at the end; those
///   before it stay listed. `AlreadyFailed` can't happen, since there is no other worker.
pub fn page_out_pending<E: Env<Node: NodeSet<E>>, S: PagableStorage<E>>(
    alloc: Global,
    pager: &mut Pager<E, S>,
) -> Result<(), PageOutError>
    ensures pages { BetweenIfHonest E.Node.NodeSet E.Env E.Hash.KeyHash S.PagableStorage pager.old pager.new
        (λ v s s'. PagesOutList v s result s') }
    ensures failed { IsTrue (S.is_honest pager.new.storage) → IfErr result IsFailed }
    ensures honest { IsTrue (S.is_honest pager.new.storage) → IsTrue (S.is_honest pager.old.storage) }
{
    pager.assert_invariant();
    let mut lent = Lent::new(pager);
    page_out_pending_lent(&mut lent, alloc)
}
