//! Callers of a pager with contracts of their own, which speak of values and keys alone and follow
//! from the contracts of the calls.
#![tactic(auto)]

ghost use Rattle.pagable_core.specs.{Data.blob_of, Roots.Sets};
ghost use Rattle.pagable_load.specs.AccessView.{values_at};
ghost use Rattle.pagable_pageout.specs.Turns.{plain};
ghost use Rattle.pagable_pager.specs.View.{BetweenIfHonest, pager_state};
ghost use Rattle.pagable_theorems.specs.CallerLaws.{Operations};
ghost use Rattle.pagable_value_spec.specs.Blob.{key_of};
ghost use Rattle.std.specs.{Arc.arc_value, Prelude.{IfOk, IfSome, IsTrue, Some, ◌≡◌}};
ghost use Rattle.uses.specs.{Again.ShowsSame, Published.IsPublished};

use pagable::paging::{deserialize_pagable_data, page_out_pending, pin};
use pagable::{
    DataKey, Env, Error, HandleNumber, KeyHash, NodeSet, OfNode, PagableData, PagableStorage,
    PageOutError, Pager, Roots,
};
use std::alloc::Global;
use std::sync::Arc;

/// Stores a blob, and reads it back under the key of its content. What comes back is what was
/// stored, as long as no wrong answer of the storage was taken as true, which in memory is always
/// so.
pub fn stored_again<E: Env<Node: NodeSet<E>>, S: PagableStorage<E>>(
    alloc: Global,
    pager: &mut Pager<E, S>,
    blob: PagableData,
) -> Result<Arc<PagableData>, Error>
    ensures same { IsTrue (S.is_honest pager.new.storage)
        → IfOk result (λ found. blob_of (arc_value found) ≡ blob_of blob) }
{
    let key = blob.compute_key::<E::Hash>();
    pager.store(alloc, blob)?;
    pager.fetch(alloc, key)
}

/// Looks a key up in a build cache, whose storage may hold anything and answer anything: what is
/// found has this key. Returns None if the storage says that nothing stands under the key.
pub fn look_up<E: Env<Node: NodeSet<E>>, S: PagableStorage<E>>(
    alloc: Global,
    pager: &mut Pager<E, S>,
    key: DataKey,
) -> Result<Option<Arc<PagableData>>, Error>
    ensures keyed { IfOk result (λ found. IfSome found
        (λ blob. key_of E.Hash.digest (blob_of (arc_value blob)) ≡ key)) }
{
    match pager.fetch(alloc, key) {
        Ok(blob) => Ok(Some(blob)),
        Err(Error::NoData(_)) => Ok(None),
        Err(e) => Err(e),
    }
}

/// Reads the value of a key out of a cache that nobody has to trust: its storage may hold anything
/// and answer anything. Ok means that the value is right (`IsPublished`): where a publisher has,
/// under this key, a blob without references, the value stands for what that blob says, or the
/// blob that was read is another one with the same hash.
///
/// # Errors
/// - as `deserialize_pagable_data`.
pub fn read_published<E: Env<Node: NodeSet<E>>, S: PagableStorage<E>, T: OfNode<E>>(
    alloc: Global,
    pager: &mut Pager<E, S>,
    key: DataKey,
) -> Result<Arc<T>, (Error, Option<E::Node>)>
    ensures right { IfOk result (λ value. IsPublished (values_at E.Node.NodeSet E.Env E.Hash.KeyHash
        pager.old.environment) (pager_state S.PagableStorage pager.old) T.held key T.TYPE (arc_value value)) }
{
    deserialize_pagable_data(alloc, pager, key)
}

/// Publishes a blob under a name: stores the blob, lets the name stand for the key of its content,
/// and flushes, which makes both durable. What an open finds after a crash, this contract doesn't
/// say. Ok means, unless the storage took a wrong answer of a layer below as true: the name durably
/// stands for the key that is returned (`stands`), the blob is durably stored under it (`stored`),
/// each other name durably stands for what it stood for (`others`), and `root` of the name returns
/// the key until the name is set again (`found`). An error means nothing of this: the blob may be
/// stored or not, and the name may stand for its key or for what it stood for.
///
/// # Errors
///
/// - those of `Pager::store`, `Pager::set_root` and `Pager::flush`.
pub fn publish<E: Env<Node: NodeSet<E>>, S: Roots<E>>(
    alloc: Global,
    pager: &mut Pager<E, S>,
    name: &str,
    blob: PagableData,
) -> Result<DataKey, Error>
    ensures key { IfOk result (λ key. key ≡ key_of E.Hash.digest (blob_of blob)) }
    ensures stands { IsTrue (S.PagableStorage.is_honest pager.new.storage)
        → IfOk result (λ key. S.PagableStorage.roots_flushed pager.new.storage name.now ≡ Some key) }
    ensures stored { IsTrue (S.PagableStorage.is_honest pager.new.storage)
        → IfOk result (λ key. S.PagableStorage.flushed pager.new.storage key ≡ Some (blob_of blob)) }
    ensures others { IsTrue (S.PagableStorage.is_honest pager.new.storage)
        → IfOk result (λ key. Sets name.now (Some key) (S.PagableStorage.roots pager.old.storage)
        (S.PagableStorage.roots_flushed pager.new.storage)) }
    ensures found { IsTrue (S.PagableStorage.is_honest pager.new.storage)
        → IfOk result (λ key. S.PagableStorage.roots pager.new.storage name.now ≡ Some key) }
    ensures honest { IsTrue (S.PagableStorage.is_honest pager.new.storage)
        → IsTrue (S.PagableStorage.is_honest pager.old.storage) }
{
    let key = pager.store(alloc, blob)?;
    pager.set_root(alloc, name, Some(key))?;
    pager.flush()?;
    Ok(key)
}

/// Publishes a blob under a name, does other work with blobs, and looks the name up: it stands for
/// the key of the published blob, since only setting a name changes what it stands for.
///
/// # Errors
///
/// - those of `publish`, `Pager::store`, `Pager::fetch` and `Pager::root`.
pub fn published_root<E: Env<Node: NodeSet<E>>, S: Roots<E>>(
    alloc: Global,
    pager: &mut Pager<E, S>,
    name: &str,
    blob: PagableData,
    other: PagableData,
) -> Result<Option<DataKey>, Error>
    ensures { IsTrue (S.PagableStorage.is_honest pager.new.storage)
        → IfOk result (λ found. found ≡ Some (key_of E.Hash.digest (blob_of blob))) }
{
    publish(alloc, pager, name, blob)?;
    let key = pager.store(alloc, other)?;
    pager.fetch(alloc, key)?;
    pager.root(name)
}

/// Work with a pager: any calls of it, pins, readings and page-outs.
pub trait Work<E: Env<Node: NodeSet<E>>, S: PagableStorage<E>> {
    /// Does the work.
    fn run(&mut self, alloc: Global, pager: &mut Pager<E, S>) -> Result<(), Error>
        ensures operates { BetweenIfHonest E.Node.NodeSet E.Env E.Hash.KeyHash S.PagableStorage pager.old pager.new
            (λ v s s'. Operations (plain v) s s') }
        ensures honest { IsTrue (S.is_honest pager.new.storage) → IsTrue (S.is_honest pager.old.storage) };
}

/// The work of paging out what waits for it.
#[derive(Drop)]
pub struct PageOut;

impl<E: Env<Node: NodeSet<E>>, S: PagableStorage<E>> Work<E, S> for PageOut {
    fn run(&mut self, alloc: Global, pager: &mut Pager<E, S>) -> Result<(), Error> {
        match page_out_pending(alloc, pager) {
            Err(PageOutError::Failed(e)) => Err(e),
            _ => Ok(()),
        }
    }
}

/// Pins a loose handle, lets other work be done, and pins the handle again. Both values stand for
/// one tree, whatever the work was, under the conditions of the main theorem: at first no worker
/// runs and no value in memory can be written to later, and each call of the pins and of the work
/// meets what the pager asks of its caller (`PinAsksWell`, `AskWell`).
/// Returns the first value, and the second one with its Pinned handle.
///
/// # Errors
/// - as `pin`, `Pager::release` and the work. What was done until then stays.
pub fn pinned_again<E: Env<Node: NodeSet<E>>, S: PagableStorage<E>, W: Work<E, S>>(
    alloc: Global,
    pager: &mut Pager<E, S>,
    handle: HandleNumber,
    work: &mut W,
) -> Result<(Arc<E::Node>, (HandleNumber, Arc<E::Node>)), Error>
    ensures same { BetweenIfHonest E.Node.NodeSet E.Env E.Hash.KeyHash S.PagableStorage pager.old pager.new
        (λ v s s'. IfOk result (λ shown. ShowsSame v s handle (arc_value shown.0) shown.1.0 (arc_value shown.1.1) s')) }
{
    pager.assert_invariant();
    let (pinned, first) = pin(alloc, pager, handle)?;
    let released = pager.release(pinned);
    pager.assert_invariant();
    released?;
    work.run(alloc, pager)?;
    let again = pin(alloc, pager, handle)?;
    Ok((first, again))
}
