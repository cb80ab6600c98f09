//! The page-out of a root, at the cost of what changed.

ghost use Rattle.pagable_changes.specs.{
  Changes.{IsNoCell, IsReferenceToCellOf, PagesOutChanged, PagesOutKeyless},
  Keys.KeepsTrees,
};
ghost use Rattle.pagable_pager.specs.View.{BetweenIfHonest, pager_core};
ghost use Rattle.std.specs.Prelude.{IfErr, IfOk, IsTrue, ◌≡◌};

use crate::nodes::open_node;
use crate::turns::walk;
use pagable_codec::{Env, NodeSet};
use pagable_core::PagableStorage;
use pagable_pager::Pager;
use pagable_value_spec::{ArcRef, DataKey, Error, HandleNumber, Kind, OptionalDataKey};
use std::alloc::Global;

// Returns the handle as a loose reference to its cell.
fn root_of<E: Env<Node: NodeSet<E>>, S: PagableStorage<E>>(
    pager: &Pager<E, S>,
    handle: HandleNumber,
) -> Result<ArcRef, Error>
    ensures is { IfOk result (λ r. IsReferenceToCellOf (pager_core S.PagableStorage pager.now) handle r) }
    ensures fails { IfErr result (IsNoCell (pager_core S.PagableStorage pager.now) handle) }
{
    let node = match pager.node_of(handle) {
        Ok(node) => node,
        Err(e) => return Err(e),
    };
    let Some(node_type) = pager.node_live(node) else {
        return Err(Error::NoSuchHandle);
    };
    let Some(kind) = Kind::loose_of(node_type) else {
        return Err(Error::WrongKind);
    };
    Ok(ArcRef { kind, node, handle })
}

// Pages out a cell that has no key.
fn page_out_keyless<E: Env<Node: NodeSet<E>>, S: PagableStorage<E>>(
    alloc: Global,
    pager: &mut Pager<E, S>,
    handle: HandleNumber,
) -> Result<DataKey, Error>
    ensures pages { BetweenIfHonest E.Node.NodeSet E.Env E.Hash.KeyHash S.PagableStorage pager.old pager.new
        (λ v s s'. PagesOutKeyless v s handle result s') }
    ensures honest { IsTrue (S.is_honest pager.new.storage) → IsTrue (S.is_honest pager.old.storage) }
    ensures environment { pager.new.environment ≡ pager.old.environment }
{
    let root = match root_of(pager, handle) {
        Ok(root) => root,
        Err(e) => return Err(e),
    };
    let first = match open_node(alloc, pager, root, 0) {
        Ok(first) => first,
        Err(e) => return Err(e),
    };
    walk(alloc, pager, first)
}

// Pages out a cell and returns its key, or returns the key that it has.
fn page_out_root<E: Env<Node: NodeSet<E>>, S: PagableStorage<E>>(
    alloc: Global,
    pager: &mut Pager<E, S>,
    handle: HandleNumber,
) -> Result<DataKey, Error>
    ensures pages { BetweenIfHonest E.Node.NodeSet E.Env E.Hash.KeyHash S.PagableStorage pager.old pager.new
        (λ v s s'. PagesOutChanged v s handle result s') }
    ensures honest { IsTrue (S.is_honest pager.new.storage) → IsTrue (S.is_honest pager.old.storage) }
    ensures environment { pager.new.environment ≡ pager.old.environment }
{
    let keyed = match pager.key(handle) {
        Ok(keyed) => keyed,
        Err(e) => return Err(e),
    };
    match keyed {
        OptionalDataKey::Some(key) => Ok(key),
        OptionalDataKey::None => page_out_keyless(alloc, pager, handle),
    }
}

/// Pages out the cell of a Loose or Pinned handle with all that it reaches, and returns the cell's
/// key. It takes the key of each cell that has one, and reads neither that cell nor what it refers
/// to; if the root has a key, it only returns that. It doesn't write pending cells that the root
/// doesn't reach. A node that only Pinned or Shared references refer to has no key of its own and
/// is written each time.
///
/// # Errors
///
/// Blobs that were stored before the error stay stored, and their cells keep their keys; the call
/// has released every handle that it took.
///
/// - `NoSuchHandle` if no live handle has this number.
/// - `WrongMode` if the handle is Shared.
/// - `TooDeep` if a path of Pinned and Shared references is longer than 128, or if a loose reference
///   leads to a cell without a key that was inserted after the value that holds it, or with it.
/// - as `Pager::clone`, `Pager::pin`, `Pager::store` and the writing of a value.
pub fn page_out_changed<E: Env<Node: NodeSet<E>>, S: PagableStorage<E>>(
    alloc: Global,
    pager: &mut Pager<E, S>,
    handle: HandleNumber,
) -> Result<DataKey, Error>
    ensures pages { BetweenIfHonest E.Node.NodeSet E.Env E.Hash.KeyHash S.PagableStorage pager.old pager.new
        (λ v s s'. PagesOutChanged v s handle result s') }
    ensures keeps_trees { BetweenIfHonest E.Node.NodeSet E.Env E.Hash.KeyHash S.PagableStorage pager.old pager.new
        (λ v s s'. KeepsTrees v s handle result s') }
    ensures honest { IsTrue (S.is_honest pager.new.storage) → IsTrue (S.is_honest pager.old.storage) }
    ensures environment { pager.new.environment ≡ pager.old.environment }
{
    pager.assert_invariant();
    page_out_root(alloc, pager, handle)
}
