//! Rows of links, and of values that can't be written.

use crate::graphs::{item, key, reference};
use crate::links::{HashedPager, Link, LinkNode, Refusing, WeighedPager, refusal};
use pagable::paging::{page_out_item, page_out_pending, pin, read};
use pagable::{
    ArcRef, EitherNode, Error, HandleNumber, Kind, LentTable, OneNode, OptionalDataKey,
    PagableData, PageOutError, RawRef,
};
use std::alloc::Global;
use std::sync::Arc;

/// Makes the node of a value that can't be written.
fn refusing(alloc: Global) -> Result<LinkNode, Error> {
    Ok(EitherNode::Third(OneNode::new(Arc::new(alloc, Refusing { nothing: () })?)))
}

/// Row 16: a value that can't be written isn't paged out, nor is what refers to it, on the same
/// table.
pub fn is_refused(alloc: Global, pager: &mut WeighedPager) -> Result<bool, Error> {
    let shared = pager.new_shared(alloc, refusing(alloc)?)?;
    let value = (42u8, reference::<6, _, _>(pager, shared)?);
    let mut table = LentTable::new(alloc);
    let first = page_out_item(alloc, pager, &mut table, item(alloc, pager.env(), &value)?);
    let second = page_out_item(alloc, pager, &mut table, item(alloc, pager.env(), &value)?);
    let cell = pager.new_loose(alloc, refusing(alloc)?)?;
    pager.unpin(cell)?;
    let listed = pager.pending();
    let third = page_out_pending(alloc, pager);
    Ok(
        first == Err(PageOutError::Failed(refusal()))
            && second == Err(PageOutError::AlreadyFailed)
            && third == Err(PageOutError::Failed(refusal()))
            && (listed, pager.pending()) == (1, 1),
    )
}

/// Makes a link to the next one by a reference of this kind: 1 is loose, 3 shared.
fn link(alloc: Global, kind: u32, next: Option<ArcRef>) -> Result<LinkNode, Error> {
    if kind == 1 {
        let next = next.and_then(RawRef::from_reference);
        return Ok(EitherNode::First(OneNode::new(Arc::new(alloc, Link { next })?)));
    }
    let next = next.and_then(RawRef::from_reference);
    Ok(EitherNode::Second(OneNode::new(Arc::new(alloc, Link { next })?)))
}

/// Makes a cell that waits for page-out, with a path of so many references of this kind below it.
fn chain(
    alloc: Global,
    pager: &mut HashedPager,
    kind: u32,
    length: u32,
) -> Result<HandleNumber, Error> {
    let mut next = None;
    for _ in 0..length {
        let node = link(alloc, kind, next)?;
        let handle = if kind == 1 {
            pager.new_loose(alloc, node)?
        } else {
            pager.new_shared(alloc, node)?
        };
        let node = pager.node_of(handle)?;
        next = Some(ArcRef {
            kind: Kind(kind),
            node,
            handle,
        });
    }
    let cell = pager.new_loose(alloc, link(alloc, kind, next)?)?;
    pager.unpin(cell)?;
    Ok(cell)
}

/// Counts the references on the path from a pinned link, as far as links are in memory.
fn count_references(pager: &HashedPager, pinned: HandleNumber) -> Result<u32, Error> {
    let mut handle = pinned;
    for count in 0..1000 {
        let next = match pager.value(handle)? {
            Some(EitherNode::First(link)) => link.value.next.as_ref().map(|next| next.reference()),
            Some(EitherNode::Second(link)) => link.value.next.as_ref().map(|next| next.reference()),
            _ => None,
        };
        match next {
            Some(next) => handle = next.handle,
            None => return Ok(count),
        }
    }
    Ok(1000)
}

/// Row 18: a path of 128 shared references is paged out and read back, and one of 129 is too deep. A
/// loose reference is read when it is pinned, so a path of 129 of them isn't. The keys are Python's
/// hashlib's.
pub fn paths(alloc: Global, pager: &mut HashedPager) -> Result<bool, Error> {
    let loose = chain(alloc, pager, 1, 129)?;
    let shared = chain(alloc, pager, 3, 128)?;
    page_out_pending(alloc, pager)?;
    pager.cache_clear()?;
    let are_out = pager.is_paged_out(loose)? && pager.is_paged_out(shared)?;
    let loose_key = key(64774723321446467605344910487651106384)?;
    let shared_key = key(40657111461448115765714812676886398291)?;
    let are_keyed = pager.key(loose)? == OptionalDataKey::Some(loose_key)
        && pager.key(shared)? == OptionalDataKey::Some(shared_key);
    let (loose_pin, _) = pin(alloc, pager, loose)?;
    let (shared_pin, _) = pin(alloc, pager, shared)?;
    let read = (
        count_references(pager, loose_pin)?,
        count_references(pager, shared_pin)?,
    );
    let deeper = chain(alloc, pager, 3, 129)?;
    let refused = page_out_pending(alloc, pager);
    Ok(
        are_out
            && are_keyed
            && read == (1, 128)
            && refused == Err(PageOutError::Failed(Error::TooDeep))
            && pager.key(deeper)? == OptionalDataKey::None,
    )
}

/// Row 19: a blob that is its own child is too deep to read, and to page out where it is read by
/// loose references.
pub fn ring(alloc: Global, pager: &mut WeighedPager) -> Result<bool, Error> {
    let blob = PagableData {
        bytes: vec![in alloc; 1u8]?,
        arcs: vec![in alloc; key(1415)?]?,
    };
    let own = pager.store(alloc, blob)?;
    let shared = read(alloc, pager, own, 1).err();
    let cell = pager.new_paged_out(alloc, 0, own)?;
    let value = reference::<1, _, _>(pager, cell)?;
    let (pinned, _) = pin(alloc, pager, cell)?;
    let mut table = LentTable::new(alloc);
    let walked = page_out_item(alloc, pager, &mut table, item(alloc, pager.env(), &value)?);
    Ok(
        own.get() == 1415
            && shared == Some(Error::TooDeep)
            && pager.value(pinned)?.is_some()
            && walked == Err(PageOutError::Failed(Error::TooDeep)),
    )
}
