//! Calls on one cell of a lent pager, each of a few calls of the pager.

ghost use Rattle.pagable_calls.specs.Cells.{AsksWhetherStored, Follows, InsertsCell, Looks, LooksByPin, OpensCell};
ghost use Rattle.pagable_load.specs.AccessView.{values_at};
ghost use Rattle.pagable_pager.specs.View.{AsksStorage};
ghost use Rattle.pagable_pager_spec.specs.World.{result_map};
ghost use Rattle.pagable_traits.specs.References.{loose_kind};
ghost use Rattle.pagable_value_spec.specs.Stored.{RefusesFetch};
ghost use Rattle.std.specs.{Arc.arc_value, Fn.FnOnceReturnsAt, Prelude.{IfErr, IsTrue, None}};

use crate::paging::pin;
use either::Either;
use pagable_codec::{Env, NodeSet, OfNode};
use pagable_core::PagableStorage;
use pagable_pager::Pager;
use pagable_traits::{ArcErase, PagableArc};
use pagable_value_spec::{DataKey, Error, HandleNumber};
use std::alloc::Global;
use std::sync::Arc;

/// Inserts a value as a cell that nothing pins, lists it for page-out, but not after `close`, and
/// returns its loose handle.
///
/// # Errors
///
/// - As `Pager::new_loose`, with the value: nothing changes.
/// - `NumbersSpent`, `OutOfMemory` with the handle, if the cell is inserted and couldn't be listed:
///   `Pager::schedule_for_paging` lists it.
pub fn insert<E: Env<Node: NodeSet<E>>, S: PagableStorage<E>>(
    alloc: Global,
    pager: &mut Pager<E, S>,
    node: E::Node,
) -> Result<HandleNumber, (Error, Either<E::Node, HandleNumber>)>
    ensures { InsertsCell S.PagableStorage (values_at E.Node.NodeSet E.Env E.Hash.KeyHash pager.old.environment)
        pager.old node result pager.new }
{
    let handle = match pager.new_loose(alloc, node) {
        Ok(handle) => handle,
        Err(refused) => return Err((refused.0, Either::Left(refused.1))),
    };
    match pager.unpin(handle) {
        Ok(()) => Ok(handle),
        Err(e) => Err((e, Either::Right(handle))),
    }
}

/// Returns a loose handle of a cell whose value has this key and the type `T`: the cached cell, or
/// a new one. It reads nothing; the caller makes sure that the key reads as a value of this type.
///
/// # Errors
///
/// - `NumbersSpent`, `OutOfMemory`: nothing changes.
pub fn cell_of<T: OfNode<E>, E: Env<Node: NodeSet<E>>, S: PagableStorage<E>>(
    alloc: Global,
    pager: &mut Pager<E, S>,
    key: DataKey,
) -> Result<HandleNumber, Error>
    ensures { OpensCell S.PagableStorage pager.old (loose_kind T.TYPE) T.TYPE key result pager.new }
{
    let kind = <PagableArc<T> as ArcErase<E>>::kind();
    match pager.cache_get(kind, key)? {
        Some(handle) => Ok(handle),
        None => pager.new_paged_out(alloc, T::TYPE, key),
    }
}

/// Says whether the storage has a blob under a key.
///
/// # Errors
///
/// - `OutOfMemory`, `Storage` as in `Pager::fetch`.
pub fn contains<E: Env<Node: NodeSet<E>>, S: PagableStorage<E>>(
    alloc: Global,
    pager: &mut Pager<E, S>,
    key: DataKey,
) -> Result<bool, Error>
    ensures asks { AsksStorage S.PagableStorage pager.old (λ w w'. AsksWhetherStored w key result w') pager.new }
    ensures refused { IfErr result (RefusesFetch key None (S.failed pager.old.storage) (S.failed pager.new.storage)) }
{
    match pager.fetch(alloc, key).err() {
        None => Ok(true),
        Some(Error::NoData(_)) => Ok(false),
        Some(e) => Err(e),
    }
}

/// Pins the cell of a handle that a value owns: clones the handle, pins the clone, and releases the
/// clone. Returns the Pinned handle and the value, shared.
///
/// # Errors
///
/// - `NoSuchHandle`, `NumbersSpent`, `OutOfMemory` as in `Pager::clone`.
/// - The errors of `pin`.
///
/// After each error handles and counts are as before.
pub fn follow<E: Env<Node: NodeSet<E>>, S: PagableStorage<E>>(
    alloc: Global,
    pager: &mut Pager<E, S>,
    handle: HandleNumber,
) -> Result<(HandleNumber, Arc<E::Node>), Error>
    ensures follows { IsTrue (S.is_honest pager.new.storage) → Follows S.PagableStorage
        (values_at E.Node.NodeSet E.Env E.Hash.KeyHash) pager.old handle (result_map (λ a. (a.0, arc_value a.1)) result)
        pager.new }
    ensures honest { IsTrue (S.is_honest pager.new.storage) → IsTrue (S.is_honest pager.old.storage) }
{
    let clone = pager.clone(handle)?;
    let pinned = pin(alloc, pager, clone);
    let _told = pager.release(clone);
    pinned
}

// Calls `show` with a shared value.
fn show_shared<N, Y, F: FnOnce(&N) -> Y>(show: F, value: &Arc<N>) -> Y
    requires { F.IsAlwaysCallable show }
    ensures { FnOnceReturnsAt F.FnOnce show (arc_value value.now) result }
{
    show(value.as_ref())
}

// Calls `show` with the value of a handle that pins nothing; the cell is pinned meanwhile.
fn look_by_pin<E: Env<Node: NodeSet<E>>, S: PagableStorage<E>, Y: Drop, F: FnOnce(&E::Node) -> Y>(
    alloc: Global,
    pager: &mut Pager<E, S>,
    handle: HandleNumber,
    show: F,
) -> Result<Y, Error>
where
    F: Drop,
    requires { F.IsAlwaysCallable show }
    ensures looks { IsTrue (S.is_honest pager.new.storage) → LooksByPin S.PagableStorage
        (values_at E.Node.NodeSet E.Env E.Hash.KeyHash) pager.old handle (FnOnceReturnsAt F.FnOnce show) result
        pager.new }
    ensures honest { IsTrue (S.is_honest pager.new.storage) → IsTrue (S.is_honest pager.old.storage) }
{
    let (pinned, value) = pin(alloc, pager, handle)?;
    let shown = show_shared(show, &value);
    let _told = pager.unpin(handle);
    match pager.release(pinned) {
        Ok(()) => Ok(shown),
        Err(e) => Err(e),
    }
}

/// Calls `show` with the value of a handle's node, loaded if it isn't in memory, and returns the
/// result. The handle keeps its mode.
///
/// # Errors
///
/// - `NoSuchHandle` if the handle isn't live.
/// - The errors of `pin`, if the handle pins nothing.
/// - `NumbersSpent`, `OutOfMemory` if the value was shown and its cell couldn't be listed for
///   page-out.
pub fn look<E: Env<Node: NodeSet<E>>, S: PagableStorage<E>, Y: Drop, F: FnOnce(&E::Node) -> Y>(
    alloc: Global,
    pager: &mut Pager<E, S>,
    handle: HandleNumber,
    show: F,
) -> Result<Y, Error>
where
    F: Drop,
    requires { F.IsAlwaysCallable show }
    ensures looks { IsTrue (S.is_honest pager.new.storage) → Looks S.PagableStorage
        (values_at E.Node.NodeSet E.Env E.Hash.KeyHash) pager.old handle (FnOnceReturnsAt F.FnOnce show) result
        pager.new }
    ensures honest { IsTrue (S.is_honest pager.new.storage) → IsTrue (S.is_honest pager.old.storage) }
{
    match pager.value(handle)? {
        Some(value) => Ok(show(value)),
        None => look_by_pin(alloc, pager, handle, show),
    }
}
