//! Typed references made of a lent pager's handles, for values to hold: when such a value is
//! inserted, it becomes the handle's owner.

ghost use Rattle.pagable_calls.specs.TypedReferences.{IsHeldBy, IsNodeOfType, Refers, RefusesHolding, RefusesReference};
ghost use Rattle.pagable_pager.specs.View.{pager_core, pager_state};
ghost use Rattle.pagable_traits.specs.References.{holding_kind, holding_reference, loose_kind, loose_reference};
ghost use Rattle.std.specs.{Arc.arc_value, Prelude.{IfErr, IfOk}};

use pagable_codec::{ArcRef, Env, NodeSet, OfNode};
use pagable_core::PagableStorage;
use pagable_pager::Pager;
use pagable_traits::{ArcErase, HoldingArc, PagableArc};
use pagable_value_spec::{Error, HandleNumber, NodeNumber};
use std::alloc::Global;

// Returns the node of a handle. Fails with NoSuchHandle if the handle isn't live, and with
// WrongKind if the node isn't of this type.
fn node_of_type<E: Env<Node: NodeSet<E>>, S: PagableStorage<E>>(
    pager: &Pager<E, S>,
    handle: HandleNumber,
    node_type: u32,
) -> Result<NodeNumber, Error>
    ensures named { IfOk result (IsNodeOfType (pager_core S.PagableStorage pager.now) handle node_type) }
    ensures refused { IfErr result (RefusesReference (pager_core S.PagableStorage pager.now) handle node_type) }
{
    let node = pager.node_of(handle)?;
    match pager.node_live(node) {
        Some(found) if found == node_type => Ok(node),
        _ => Err(Error::WrongKind),
    }
}

/// Makes a loose reference from a loose handle of a cell whose value is of type `T`. A value of
/// another type than `T` may hold it; a type that refers to itself holds a `RawRef`. The call
/// doesn't test that the handle is loose.
///
/// # Errors
///
/// - `NoSuchHandle` if the handle isn't live.
/// - `WrongKind` if the handle's node is of another type.
pub fn loose<T: OfNode<E>, E: Env<Node: NodeSet<E>>, S: PagableStorage<E>>(
    pager: &Pager<E, S>,
    handle: HandleNumber,
) -> Result<PagableArc<T>, Error>
    ensures named { IfOk result (λ a. Refers (pager_core S.PagableStorage pager.now) handle T.TYPE (loose_kind T.TYPE)
        (loose_reference T.TYPE a)) }
    ensures refused { IfErr result (RefusesReference (pager_core S.PagableStorage pager.now) handle T.TYPE) }
{
    let node = node_of_type(pager, handle, T::TYPE)?;
    let kind = <PagableArc<T> as ArcErase<E>>::kind();
    match PagableArc::from_reference::<E>(ArcRef { kind, node, handle }) {
        Some(reference) => Ok(reference),
        None => unreachable!(),
    }
}

/// Makes a reference, with the node's value, from a handle that pins its node, for another value to
/// hold: an `Arc` from a Shared handle, a pin from a Pinned one. The call doesn't test which.
///
/// # Errors
///
/// - `NoSuchHandle` if the handle isn't live.
/// - `WrongKind` if the handle's node is of another type.
/// - `WrongMode` if the handle pins nothing.
/// - `OutOfMemory` if the value can't be shared once more.
pub fn holding<
    T: OfNode<E> + Drop,
    E: Env<Node: NodeSet<E>>,
    S: PagableStorage<E>,
    const PINS: bool,
>(alloc: Global, pager: &Pager<E, S>, handle: HandleNumber) -> Result<HoldingArc<T, PINS>, Error>
    ensures named { IfOk result (λ a. Refers (pager_core S.PagableStorage pager.now) handle T.TYPE
        (holding_kind T.TYPE PINS) (holding_reference T.TYPE PINS a)) }
    ensures value { IfOk result
        (λ a. IsHeldBy (pager_state S.PagableStorage pager.now) handle T.held (arc_value a.value)) }
    ensures refused { IfErr result (RefusesHolding (pager_state S.PagableStorage pager.now) handle T.TYPE T.held) }
{
    let node = node_of_type(pager, handle, T::TYPE)?;
    let held = match pager.value(handle)? {
        Some(value) => T::from_node(alloc, value)?,
        None => return Err(Error::WrongMode),
    };
    let Some(value) = held else {
        return Err(Error::WrongKind);
    };
    let kind = <HoldingArc<T, PINS> as ArcErase<E>>::kind();
    match HoldingArc::from_reference::<E>(ArcRef { kind, node, handle }, value) {
        Ok(reference) => Ok(reference),
        Err(_) => unreachable!(),
    }
}
