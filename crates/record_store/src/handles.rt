//! Calls on several handles of a pager, one after another.

ghost use Rattle.pagable_pager_spec.specs.World.{result_map};
ghost use Rattle.record_store.specs.Handles.{
  ClonesAll,
  ClonesOneMore,
  ReleasesEach,
  ReleasesEntries,
  ReleasesEntry,
  ReleasesFirst,
  UnpinsNew,
};
ghost use Rattle.std.specs.Prelude.{length, ◌≡◌};

use pagable_codec::{Env, NodeSet};
use pagable_core::PagableStorage;
use pagable_pager::Pager;
use pagable_value_spec::{Error, HandleNumber};
use std::alloc::Global;

// Releases handles, whatever each release returns.
pub(crate) fn release_all<E: Env<Node: NodeSet<E>>, S: PagableStorage<E>>(
    pager: &mut Pager<E, S>,
    handles: &[HandleNumber],
)
    ensures releases { ReleasesFirst S.PagableStorage pager.old handles.now (length handles.now) pager.new }
    ensures storage { pager.new.storage ≡ pager.old.storage }
{
    for handle in handles {
        let _told = pager.release(*handle);
    }
}

// Releases handles in their order, up to the first release that fails.
pub(crate) fn release_each<E: Env<Node: NodeSet<E>>, S: PagableStorage<E>>(
    pager: &mut Pager<E, S>,
    handles: &[HandleNumber],
) -> Result<(), Error>
    ensures { ReleasesEach S.PagableStorage pager.old handles.now result pager.new }
{
    for handle in handles {
        match pager.release(*handle) {
            Ok(()) => {}
            Err(e) => return Err(e),
        }
    }
    Ok(())
}

// Takes the entry at this place from the list of cells that wait for page-out, and releases its handle.
fn release_entry<E: Env<Node: NodeSet<E>>, S: PagableStorage<E>>(
    pager: &mut Pager<E, S>,
    place: usize,
) -> Result<(), Error>
    ensures { ReleasesEntry S.PagableStorage pager.old place result pager.new }
{
    match pager.take_pending(place) {
        Some(handle) => pager.release(handle),
        None => Ok(()),
    }
}

// Takes the entries of the list of cells that wait for page-out, from the last to the first, and
// releases the handle of each, up to the first release that fails.
pub(crate) fn release_entries<E: Env<Node: NodeSet<E>>, S: PagableStorage<E>>(
    pager: &mut Pager<E, S>,
) -> Result<(), Error>
    ensures { ReleasesEntries S.PagableStorage pager.old result pager.new }
{
    for place in (0..pager.pending()).rev() {
        match release_entry(pager, place) {
            Ok(()) => {}
            Err(e) => return Err(e),
        }
    }
    Ok(())
}

// Appends a clone of a handle. If there is no place for it, releases it.
fn push_clone<E: Env<Node: NodeSet<E>>, S: PagableStorage<E>>(
    pager: &mut Pager<E, S>,
    handle: HandleNumber,
    clones: &mut Vec<HandleNumber>,
) -> Result<(), Error>
    ensures clones { ClonesOneMore S.PagableStorage pager.old handle clones.old.items result clones.new.items
        pager.new }
    ensures storage { pager.new.storage ≡ pager.old.storage }
{
    let cloned = match pager.clone(handle) {
        Ok(cloned) => cloned,
        Err(e) => return Err(e),
    };
    match clones.push(cloned) {
        Ok(()) => Ok(()),
        Err(e) => {
            let _told = pager.release(cloned);
            Err(Error::from(e))
        }
    }
}

// Clones handles in their order. If one can't be cloned, releases the clones made so far.
pub(crate) fn clone_all<E: Env<Node: NodeSet<E>>, S: PagableStorage<E>>(
    alloc: Global,
    pager: &mut Pager<E, S>,
    handles: &[HandleNumber],
) -> Result<Vec<HandleNumber>, Error>
    ensures clones { ClonesAll S.PagableStorage pager.old handles.now (result_map (λ cs. cs.items) result) pager.new }
    ensures storage { pager.new.storage ≡ pager.old.storage }
{
    let mut clones = Vec::new(alloc);
    for handle in handles {
        match push_clone(pager, *handle, &mut clones) {
            Ok(()) => {}
            Err(e) => {
                release_all(pager, clones.as_slice());
                return Err(e);
            }
        }
    }
    Ok(clones)
}

// Unpins a new value's handle. If its cell can't be listed for page-out, releases it.
pub(crate) fn unpin_new<E: Env<Node: NodeSet<E>>, S: PagableStorage<E>>(
    pager: &mut Pager<E, S>,
    handle: HandleNumber,
) -> Result<HandleNumber, Error>
    ensures { UnpinsNew S.PagableStorage pager.old handle result pager.new }
{
    match pager.unpin(handle) {
        Ok(()) => Ok(handle),
        Err(e) => {
            let _told = pager.release(handle);
            Err(e)
        }
    }
}
