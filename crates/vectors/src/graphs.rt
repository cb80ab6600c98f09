//! Rows of values that refer to others: page-outs of items and of cells, and what is read back.

use crate::texts::{TextPager, Texts, is_text, state, text};
use pagable::paging::{page_out_item, page_out_pending, pin, read};
use pagable::{
    ArcRef, DataKey, EitherNode, Env, Error, HandleNumber, Identity, Kind, LentTable, NodeNumber,
    NodeSet, OneNode, PagableSerialize, PagableSerializerImpl, PagableStorage, Pager, RawRef,
    SerializedData, WorkerNumber,
};
use pagable_pageout::ClaimResult;
use std::alloc::Global;
use std::sync::Arc;

/// The key of this number.
pub fn key(number: u128) -> Result<DataKey, Error> {
    DataKey::new(number).ok_or(Error::WrongKind)
}

/// Writes a value as an item, with its references.
pub fn item<E: Env, T: PagableSerialize<E>>(
    alloc: Global,
    env: &E,
    value: &T,
) -> Result<Arc<SerializedData>, Error> {
    let mut out = PagableSerializerImpl::testing_new(alloc, env);
    value.pagable_serialize(&mut out)?;
    Ok(Arc::new(alloc, out.finish()?)?)
}

/// The reference of a handle, which is of the kind `KIND`.
pub fn reference<const KIND: u32, E: Env<Node: NodeSet<E>>, S: PagableStorage<E>>(
    pager: &Pager<E, S>,
    handle: HandleNumber,
) -> Result<RawRef<KIND>, Error> {
    let node = pager.node_of(handle)?;
    RawRef::from_reference(ArcRef {
        kind: Kind(KIND),
        node,
        handle,
    })
    .ok_or(Error::WrongKind)
}

/// Counts the claims that a table has for references of each kind to the first node, all of which
/// have a key. The table is of no use afterwards, since it is asked by claims.
fn claims(table: &mut LentTable<Texts>) -> Result<u32, Error> {
    let mut count = 0u32;
    for kind in 0..3 {
        let identity = Identity {
            kind: Kind(kind),
            node: NodeNumber(1),
        };
        if let ClaimResult::Known(_) = table.try_claim(WorkerNumber(9), identity, 0)? {
            count = count.saturating_add(1);
        }
    }
    Ok(count)
}

/// Says whether the blob under a key has these bytes and child keys.
fn is_stored(
    alloc: Global,
    pager: &mut TextPager,
    number: u128,
    bytes: &[u8],
    children: &[u128],
) -> Result<bool, Error> {
    let blob = pager.fetch(alloc, key(number)?)?;
    let mut arcs = Vec::new(alloc);
    for child in children {
        arcs.push(key(*child)?)?;
    }
    Ok(blob.bytes.as_slice() == bytes && blob.arcs == arcs)
}

/// Row 10: an item is stored with the text to which it refers.
pub fn item_over_text(alloc: Global, pager: &mut TextPager) -> Result<bool, Error> {
    let shared = pager.new_shared(alloc, text(alloc, "hello world")?)?;
    let item = item(alloc, &Texts, &(42u8, reference::<0, _, _>(pager, shared)?))?;
    let mut table = LentTable::new(alloc);
    let stored = page_out_item(alloc, pager, &mut table, item)?;
    Ok(
        stored.get() == 3484
            && claims(&mut table)? == 1
            && pager.storage().blobs.len() == 2
            && is_stored(alloc, pager, 3484, &[42], &[16879])?
            && is_stored(alloc, pager, 16879, b"\x0bhello world", &[])?,
    )
}

/// Says whether the item of row 11 is read back as two references to one text.
fn is_one_text(alloc: Global, pager: &mut TextPager) -> Result<bool, Error> {
    let EitherNode::Second(list) = read(alloc, pager, key(9368)?, 1)? else {
        return Ok(false);
    };
    let [first, second] = list.value.as_slice() else {
        return Ok(false);
    };
    let (first, second) = (first.reference(), second.reference());
    let is_shared = match pager.value(first.handle)? {
        Some(node) => is_text(node, "shared"),
        None => false,
    };
    Ok(is_shared && (first.kind, first.node) == (second.kind, second.node))
}

/// Row 11: a text to which a list refers twice is stored once, and read once.
pub fn list_over_one_text(alloc: Global, pager: &mut TextPager) -> Result<bool, Error> {
    let shared = pager.new_shared(alloc, text(alloc, "shared")?)?;
    let clone = pager.clone(shared)?;
    let (one, other) = (
        reference::<0, _, _>(pager, shared)?,
        reference::<0, _, _>(pager, clone)?,
    );
    let item = item(alloc, &Texts, &vec![in alloc; one, other]?)?;
    let mut table = LentTable::new(alloc);
    let stored = page_out_item(alloc, pager, &mut table, item)?;
    Ok(
        stored.get() == 9368
            && claims(&mut table)? == 1
            && pager.storage().stores == 2
            && is_stored(alloc, pager, 9368, &[2], &[7908, 7908])?
            && is_stored(alloc, pager, 7908, b"\x06shared", &[])?
            && is_one_text(alloc, pager)?,
    )
}

/// Row 15: one cell that two sorts of references name is claimed for each, and stored once.
pub fn item_over_one_cell(alloc: Global, pager: &mut TextPager) -> Result<bool, Error> {
    let pinned = pager.new_pinned(alloc, text(alloc, "shared")?)?;
    let clone = pager.clone(pinned)?;
    let cell = pager.into_pagable(clone)?;
    let value = (
        reference::<2, _, _>(pager, pinned)?,
        reference::<1, _, _>(pager, cell)?,
    );
    let mut table = LentTable::new(alloc);
    let stored = page_out_item(alloc, pager, &mut table, item(alloc, &Texts, &value)?)?;
    Ok(
        stored.get() == 8834
            && claims(&mut table)? == 2
            && (pager.storage().stores, pager.storage().blobs.len()) == (3, 2)
            && is_stored(alloc, pager, 8834, &[], &[7908, 7908])?
            && state(pager, cell)? == (2, 7908, false),
    )
}

/// Inserts a cell that holds a reference of this handle to a text, and waits for page-out.
fn insert_holder(
    alloc: Global,
    pager: &mut TextPager,
    handle: HandleNumber,
) -> Result<HandleNumber, Error> {
    let held = Arc::new(alloc, reference::<0, _, _>(pager, handle)?)?;
    let cell = pager.new_loose(alloc, EitherNode::Third(OneNode::new(held)))?;
    pager.unpin(cell)?;
    Ok(cell)
}

/// Row 20: two cells over one text get one key, and read back they are two cells over one text.
pub fn cells_over_one_text(alloc: Global, pager: &mut TextPager) -> Result<bool, Error> {
    let shared = pager.new_shared(alloc, text(alloc, "hello world")?)?;
    let clone = pager.clone(shared)?;
    let one = insert_holder(alloc, pager, shared)?;
    let other = insert_holder(alloc, pager, clone)?;
    page_out_pending(alloc, pager)?;
    let is_out = state(pager, one)? == (0, 2802, true) && state(pager, other)? == (0, 2802, true);
    let (_, first) = pin(alloc, pager, one)?;
    let (_, second) = pin(alloc, pager, other)?;
    let (EitherNode::Third(first), EitherNode::Third(second)) = (first.as_ref(), second.as_ref())
    else {
        return Ok(false);
    };
    let (first, second) = (first.value.reference(), second.value.reference());
    Ok(
        is_out
            && pager.storage().blobs.len() == 2
            && pager.node_of(one)? != pager.node_of(other)?
            && (first.kind, first.node) == (second.kind, second.node),
    )
}
