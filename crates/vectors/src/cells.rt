//! Rows of cells that hold a text: their counts and keys, and what waits for page-out.

use crate::codec::is_written_over;
use crate::texts::{TextPager, is_text, state, text};
use pagable::paging::{page_out_pending, pin};
use pagable::{Beginning, DataKey, Error, HandleNumber, LoadNumber, PagableData};
use std::alloc::Global;

/// Makes a blob without child keys.
pub fn blob(alloc: Global, bytes: &[u8]) -> Result<PagableData, Error> {
    Ok(PagableData {
        bytes: Vec::from_slice(alloc, bytes)?,
        arcs: Vec::new(alloc),
    })
}

/// Row 9: a text that is paged out is read again by a pin.
pub fn is_read_again(alloc: Global, pager: &mut TextPager) -> Result<bool, Error> {
    let cell = pager.new_loose(alloc, text(alloc, "hello world")?)?;
    pager.unpin(cell)?;
    let waits = pager.pending() == 1 && state(pager, cell)? == (0, 0, false);
    page_out_pending(alloc, pager)?;
    let is_out = pager.pending() == 0 && state(pager, cell)? == (0, 16879, true);
    let (_, value) = pin(alloc, pager, cell)?;
    let is_back = is_text(value.as_ref(), "hello world") && state(pager, cell)?.0 == 2;
    Ok(waits && is_out && is_back)
}

/// Row 12: a cell is listed each time that its last pin goes.
pub fn is_listed_again(alloc: Global, pager: &mut TextPager) -> Result<bool, Error> {
    let first = pager.new_pinned(alloc, text(alloc, "x")?)?;
    let clone = pager.clone(first)?;
    let cell = pager.into_pagable(clone)?;
    let both = pager.count(cell)?;
    pager.unpin(cell)?;
    let one = pager.count(cell)?;
    pager.release(first)?;
    let once = (both, one, pager.pending()) == (2, 1, 1) && state(pager, cell)? == (0, 0, false);
    let other = pager.clone(cell)?;
    let none = pager.count(cell)?;
    let (pinned, _) = pin(alloc, pager, other)?;
    let both = pager.count(cell)?;
    pager.release(pinned)?;
    let one = pager.count(cell)?;
    pager.release(other)?;
    let counts = [none, both, one, pager.count(cell)?];
    Ok(once && counts == [0, 2, 1, 0] && pager.pending() == 2)
}

/// Begins a load of a cell that is paged out.
fn begin(pager: &mut TextPager, handle: HandleNumber) -> Result<LoadNumber, Error> {
    match pager.load_begin(handle)? {
        Beginning::Load(load, _) => Ok(load),
        Beginning::InMemory => Err(Error::WrongMode),
    }
}

/// Row 13: of two loads of a cell the second ends after the value that the first brought is gone.
pub fn is_loaded_twice(alloc: Global, pager: &mut TextPager) -> Result<bool, Error> {
    let key = pager.store(alloc, blob(alloc, b"\x0bhello world")?)?;
    let cell = pager.new_paged_out(alloc, 0, key)?;
    let clone = pager.clone(cell)?;
    let (first, second) = (begin(pager, cell)?, begin(pager, clone)?);
    let pinned = pager.load_end(alloc, first, text(alloc, "hello world")?)?;
    let both = pager.count(cell)?;
    pager.release(pinned)?;
    let one = pager.count(cell)?;
    pager.unpin(cell)?;
    let is_out = (both, one) == (2, 1) && state(pager, cell)? == (0, 16879, true);
    let pinned = pager.load_end(alloc, second, text(alloc, "hello world")?)?;
    let is_back = match pager.value(pinned)? {
        Some(node) => is_text(node, "hello world"),
        None => false,
    };
    Ok(is_out && is_back && pager.count(cell)? == 2)
}

/// Row 14: a cell that is listed twice is stored once.
pub fn is_stored_once(alloc: Global, pager: &mut TextPager) -> Result<bool, Error> {
    let cell = pager.new_loose(alloc, text(alloc, "x")?)?;
    pager.unpin(cell)?;
    let (pinned, _) = pin(alloc, pager, cell)?;
    pager.release(pinned)?;
    pager.unpin(cell)?;
    let listed = pager.pending();
    page_out_pending(alloc, pager)?;
    Ok((listed, pager.storage().stores, pager.pending()) == (2, 1, 0))
}

/// Row 17: another blob under a taken key is refused, and the first stays.
pub fn is_key_taken(alloc: Global, pager: &mut TextPager) -> Result<bool, Error> {
    let key = pager.store(alloc, blob(alloc, &[0, 9])?)?;
    let other = pager.store(alloc, blob(alloc, &[0x0a, 0])?);
    let found = pager.fetch(alloc, key)?;
    Ok(key.get() == 90 && other == Err(Error::KeyTaken) && found.as_ref() == &blob(alloc, &[0, 9])?)
}

/// Row 24: bytes are written over, a handle is released once, and a Pinned one isn't pinned.
pub fn is_released_once(alloc: Global, pager: &mut TextPager) -> Result<bool, Error> {
    let cell = pager.new_loose(alloc, text(alloc, "x")?)?;
    let (pinned, _) = pin(alloc, pager, cell)?;
    let again = pager.pin(pinned);
    let both = pager.count(cell)?;
    pager.release(pinned)?;
    let released = pager.release(pinned);
    let is_same = pager.pending() == 0 && state(pager, cell)? == (1, 0, false);
    Ok(
        again == Err(Error::WrongMode)
            && both == 2
            && released == Err(Error::NoSuchHandle)
            && is_same,
    )
}
