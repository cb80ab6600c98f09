//! Page-out of one cell of a lent pager.

ghost use Rattle.pagable_calls.specs.PageOuts.{ListsClone, PagesLast, PagesLastEntry, PagesOutCell, PagesOutClone};
ghost use Rattle.pagable_load.specs.AccessView.{values_at};
ghost use Rattle.pagable_pageout.specs.PageOuts.{PagesEntryIfThere};
ghost use Rattle.pagable_pager.specs.View.{BetweenIfHonest};
ghost use Rattle.std.specs.Prelude.{IsTrue, ◌≡◌};
ghost use Rattle.pagable_pager_spec.specs.declared.handle_row.Owner.TheVariants as owners;

use pagable_codec::{Env, NodeSet};
use pagable_core::PagableStorage;
use pagable_pageout::{LentTable, PageOutError, page_out_entry};
use pagable_pager::{Lent, Pager};
use pagable_value_spec::{DataKey, Error, HandleNumber, OptionalDataKey};
use std::alloc::Global;

fn page_out_entry_lent<'a, E: Env<Node: NodeSet<E>>, S: PagableStorage<E>>(
    lent: &mut Lent<'a, E, S>,
    alloc: Global,
    place: usize,
) -> Result<Option<DataKey>, PageOutError>
    requires caller { lent.old.me ≡ owners.Caller }
    ensures pages { BetweenIfHonest E.Node.NodeSet E.Env E.Hash.KeyHash S.PagableStorage lent.old.pager.now
        lent.new.pager.now (λ v s s'. PagesEntryIfThere v place result s s') }
    ensures honest { IsTrue (S.is_honest lent.new.pager.now.storage) → IsTrue (S.is_honest lent.old.pager.now.storage) }
    ensures lender { lent.new.pager.ghost_name ≡ lent.old.pager.ghost_name }
{
    let mut table = LentTable::new(alloc);
    page_out_entry(lent, alloc, &mut table, place)
}

// Pages out the cell of the last entry of the page-out list, and returns the cell's key. Returns
// None if the list is empty, as it is after `close`.
fn page_out_last_if_there<E: Env<Node: NodeSet<E>>, S: PagableStorage<E>>(
    alloc: Global,
    pager: &mut Pager<E, S>,
) -> Result<Option<DataKey>, PageOutError>
    ensures pages { BetweenIfHonest E.Node.NodeSet E.Env E.Hash.KeyHash S.PagableStorage pager.old pager.new
        (λ v s s'. PagesLastEntry v s result s') }
    ensures honest { IsTrue (S.is_honest pager.new.storage) → IsTrue (S.is_honest pager.old.storage) }
{
    let pending = pager.pending();
    if pending == 0 {
        return Ok(None);
    }
    let mut lent = Lent::new(pager);
    page_out_entry_lent(&mut lent, alloc, pending - 1)
}

// Pages out the cell of the last entry of the page-out list, and returns the cell's key. Fails with
// Closed if the list is empty.
fn page_out_last<E: Env<Node: NodeSet<E>>, S: PagableStorage<E>>(
    alloc: Global,
    pager: &mut Pager<E, S>,
) -> Result<DataKey, PageOutError>
    ensures pages { BetweenIfHonest E.Node.NodeSet E.Env E.Hash.KeyHash S.PagableStorage pager.old pager.new
        (λ v s s'. PagesLast v s result s') }
    ensures honest { IsTrue (S.is_honest pager.new.storage) → IsTrue (S.is_honest pager.old.storage) }
{
    match page_out_last_if_there(alloc, pager) {
        Ok(Some(key)) => Ok(key),
        Ok(None) => Err(PageOutError::Failed(Error::Closed)),
        Err(why) => Err(why),
    }
}

// Clones the handle, makes the clone loose and unpinned, and puts it at the end of the page-out
// list. If that fails, or after `close`, releases the clone.
fn list_clone<E: Env<Node: NodeSet<E>>, S: PagableStorage<E>>(
    pager: &mut Pager<E, S>,
    handle: HandleNumber,
) -> Result<(), Error>
    ensures { ListsClone S.PagableStorage pager.old handle result pager.new }
{
    let clone = pager.clone(handle)?;
    let _loosened = pager.into_pagable(clone);
    match pager.unpin(clone) {
        Ok(()) => {}
        Err(e) => {
            let _told = pager.release(clone);
            return Err(e);
        }
    }
    match pager.schedule_for_paging(clone) {
        Ok(()) => Ok(()),
        Err(e) => {
            let _told = pager.release(clone);
            Err(e)
        }
    }
}

// Pages out a cell that has no key.
fn page_out_clone<E: Env<Node: NodeSet<E>>, S: PagableStorage<E>>(
    alloc: Global,
    pager: &mut Pager<E, S>,
    handle: HandleNumber,
) -> Result<DataKey, PageOutError>
    ensures pages { IsTrue (S.is_honest pager.new.storage) → PagesOutClone S.PagableStorage
        (values_at E.Node.NodeSet E.Env E.Hash.KeyHash) pager.old handle result pager.new }
    ensures honest { IsTrue (S.is_honest pager.new.storage) → IsTrue (S.is_honest pager.old.storage) }
{
    match list_clone(pager, handle) {
        Ok(()) => page_out_last(alloc, pager),
        Err(e) => Err(PageOutError::Failed(e)),
    }
}

/// Pages out the cell of a handle of any mode but Shared, listed or not, with all that the cell
/// refers to, and returns the cell's key. If it has a key already, only returns this. The value
/// leaves memory only if no handle pins it.
///
/// # Errors
///
/// - `Failed` with `NoSuchHandle` if the handle isn't live, `WrongMode` if it is Shared, or
///   `Closed` after `close`.
/// - The errors of `page_out_pending` for this cell, which may then wait in the page-out list.
pub fn page_out<E: Env<Node: NodeSet<E>>, S: PagableStorage<E>>(
    alloc: Global,
    pager: &mut Pager<E, S>,
    handle: HandleNumber,
) -> Result<DataKey, PageOutError>
    ensures pages { IsTrue (S.is_honest pager.new.storage) → PagesOutCell S.PagableStorage
        (values_at E.Node.NodeSet E.Env E.Hash.KeyHash) pager.old handle result pager.new }
    ensures honest { IsTrue (S.is_honest pager.new.storage) → IsTrue (S.is_honest pager.old.storage) }
{
    let keyed = match pager.key(handle) {
        Ok(keyed) => keyed,
        Err(e) => return Err(PageOutError::Failed(e)),
    };
    match keyed {
        OptionalDataKey::Some(key) => Ok(key),
        OptionalDataKey::None => page_out_clone(alloc, pager, handle),
    }
}
