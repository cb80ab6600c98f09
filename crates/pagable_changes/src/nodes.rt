//! Nodes that a page-out is writing: it pins each, and keeps the pin and the written value until
//! the blob is stored.

ghost use Rattle.pagable_changes.specs.{
  Changes.{IsFormOf, OpenNodeFails, OpensNode, PinNodeFails, PinsLoosely, PinsNode, WriteFails, WriteNodeFails, Writes},
  Changes.{WritesNode, written_of},
  Keeping.KeepsStorage,
};
ghost use Rattle.pagable_load.specs.AccessView.{values_at};
ghost use Rattle.pagable_pager.specs.View.{Between, pager_state};
ghost use Rattle.pagable_pager_spec.specs.Basics.{is_loose_kind};
ghost use Rattle.std.specs.Prelude.{IfErr, IfOk, true, ◌≡◌};

use crate::calls::{clone, is_handle_of, loosen, pin, release, release_both};
use pagable_codec::{Env, NodeSet};
use pagable_core::{PagableStorage, SerializedData, SerializerForPaging, SessionOf};
use pagable_pager::Pager;
use pagable_pager_spec::Pinning;
use pagable_value_spec::{ArcRef, Error, HandleNumber};
use std::alloc::Global;

/// A node that a page-out is writing.
#[derive(Drop)]
pub struct OpenNode {
    /// The reference by which the page-out reached it.
    pub reference: ArcRef,
    /// Its depth: how many references, none of them loose, lead to it from the last cell on the
    /// path.
    pub depth: u64,
    /// Two handles of the node that the page-out owns: a clone of the reference's handle, and the
    /// handle that pins the node. They are one handle if the reference isn't loose.
    pub cloned: HandleNumber,
    pub pin: HandleNumber,
    /// The node's value, written: its bytes and its references.
    pub written: SerializedData,
    /// How many of its references, from the first on, were found to have a key.
    pub keyed: usize,
}

// Pins a cell whose value is in memory, by a loose handle. Fails with `WrongMode` if the value
// isn't in memory.
fn pin_loosely<E: Env<Node: NodeSet<E>>, S: PagableStorage<E>>(
    pager: &mut Pager<E, S>,
    handle: HandleNumber,
) -> Result<HandleNumber, Error>
    ensures pins { Between E.Node.NodeSet E.Env E.Hash.KeyHash S.PagableStorage pager.old pager.new
        (λ v s s'. PinsLoosely v handle s result s') }
    ensures keeps { KeepsStorage pager.old pager.new }
{
    match pin(pager, handle) {
        Ok(Pinning::Pinned(pinned)) => Ok(pinned),
        Ok(Pinning::NeedsLoad(_)) => Err(Error::WrongMode),
        Err(e) => Err(e),
    }
}

// Pins a loose reference's cell: clones the reference's handle (and makes the clone loose if it is
// Pinned), and pins the cell by the clone. Returns the clone and the new Pinned handle.
fn pin_loose_node<E: Env<Node: NodeSet<E>>, S: PagableStorage<E>>(
    pager: &mut Pager<E, S>,
    reference: ArcRef,
) -> Result<(HandleNumber, HandleNumber), Error>
    requires loose { is_loose_kind reference.kind.0 ≡ true }
    ensures pins { Between E.Node.NodeSet E.Env E.Hash.KeyHash S.PagableStorage pager.old pager.new
        (λ v s s'. IfOk result (λ t. PinsNode v reference s t.0 t.1 s')) }
    ensures fails { Between E.Node.NodeSet E.Env E.Hash.KeyHash S.PagableStorage pager.old pager.new
        (λ v s s'. IfErr result (λ e. PinNodeFails v reference s e s')) }
    ensures keeps { KeepsStorage pager.old pager.new }
{
    let cloned = clone(pager, reference.handle)?;
    let _turned = loosen(pager, cloned);
    match pin_loosely(pager, cloned) {
        Ok(pin) => Ok((cloned, pin)),
        Err(e) => {
            let _released = release(pager, cloned);
            Err(e)
        }
    }
}

// Pins a reference's node. Returns a clone of the reference's handle, and the handle that pins the
// node: the clone itself, if the reference isn't loose.
fn pin_node<E: Env<Node: NodeSet<E>>, S: PagableStorage<E>>(
    pager: &mut Pager<E, S>,
    reference: ArcRef,
) -> Result<(HandleNumber, HandleNumber), Error>
    ensures pins { Between E.Node.NodeSet E.Env E.Hash.KeyHash S.PagableStorage pager.old pager.new
        (λ v s s'. IfOk result (λ t. PinsNode v reference s t.0 t.1 s')) }
    ensures fails { Between E.Node.NodeSet E.Env E.Hash.KeyHash S.PagableStorage pager.old pager.new
        (λ v s s'. IfErr result (λ e. PinNodeFails v reference s e s')) }
    ensures keeps { KeepsStorage pager.old pager.new }
{
    if reference.kind.is_loose() {
        return pin_loose_node(pager, reference);
    }
    match clone(pager, reference.handle) {
        Ok(cloned) => Ok((cloned, cloned)),
        Err(e) => Err(e),
    }
}

// Writes a node's value as bytes and references. It stores nothing.
fn write<E: Env<Node: NodeSet<E>>>(
    env: &E,
    session: &SessionOf<E>,
    alloc: Global,
    node: &E::Node,
) -> Result<SerializedData, Error>
    ensures form { IfOk result (λ d. IsFormOf (values_at E.Node.NodeSet E.Env E.Hash.KeyHash env.now) node.now
        (written_of d)) }
    ensures refused { IfErr result (E.Node.NodeSet.write_causes (E.Node.NodeSet.type_of node.now)) }
{
    let mut serializer = SerializerForPaging::new(alloc, env, session);
    node.write(&mut serializer)?;
    let (bytes, arcs) = serializer.finish();
    Ok(SerializedData { bytes, arcs })
}

// Writes the value that a handle pins. Fails with `WrongKind` if it isn't of the reference's type.
fn write_pinned<E: Env<Node: NodeSet<E>>, S: PagableStorage<E>>(
    alloc: Global,
    pager: &Pager<E, S>,
    reference: ArcRef,
    pin: HandleNumber,
) -> Result<SerializedData, Error>
    ensures writes { IfOk result (λ d. Writes (values_at E.Node.NodeSet E.Env E.Hash.KeyHash pager.now.environment)
        (pager_state S.PagableStorage pager.now) reference pin (written_of d)) }
    ensures fails { IfErr result (λ e. WriteFails (values_at E.Node.NodeSet E.Env E.Hash.KeyHash pager.now.environment)
        (pager_state S.PagableStorage pager.now) reference pin e) }
{
    match pager.value(pin) {
        Ok(Some(node)) => {
            if node.node_type() != reference.kind.node_type() {
                return Err(Error::WrongKind);
            }
            write(pager.env(), pager.session_context(), alloc, node)
        }
        Ok(None) => Err(Error::WrongMode),
        Err(e) => Err(e),
    }
}

// Writes the value as `write_pinned` does, after a test that both handles are of the reference's
// node.
fn check_and_write<E: Env<Node: NodeSet<E>>, S: PagableStorage<E>>(
    alloc: Global,
    pager: &Pager<E, S>,
    reference: ArcRef,
    cloned: HandleNumber,
    pin: HandleNumber,
) -> Result<SerializedData, Error>
    ensures writes { IfOk result (λ d. WritesNode (values_at E.Node.NodeSet E.Env E.Hash.KeyHash pager.now.environment)
        (pager_state S.PagableStorage pager.now) reference cloned pin (written_of d)) }
    ensures fails { IfErr result (λ e. WriteNodeFails
        (values_at E.Node.NodeSet E.Env E.Hash.KeyHash pager.now.environment) (pager_state S.PagableStorage pager.now)
        reference cloned pin e) }
{
    if !is_handle_of(pager, cloned, reference.node) {
        return Err(Error::NoSuchHandle);
    }
    if !is_handle_of(pager, pin, reference.node) {
        return Err(Error::NoSuchHandle);
    }
    write_pinned(alloc, pager, reference, pin)
}

/// Pins a reference's node and writes its value. If the node can't be pinned or its value can't be
/// written, releases the handles that the call made.
pub(crate) fn open_node<E: Env<Node: NodeSet<E>>, S: PagableStorage<E>>(
    alloc: Global,
    pager: &mut Pager<E, S>,
    reference: ArcRef,
    depth: u64,
) -> Result<OpenNode, Error>
    ensures opens { Between E.Node.NodeSet E.Env E.Hash.KeyHash S.PagableStorage pager.old pager.new
        (λ v s s'. IfOk result (λ o. OpensNode v reference depth s o s')) }
    ensures fails { Between E.Node.NodeSet E.Env E.Hash.KeyHash S.PagableStorage pager.old pager.new
        (λ v s s'. IfErr result (λ e. OpenNodeFails v reference s e s')) }
    ensures keeps { KeepsStorage pager.old pager.new }
{
    let (cloned, pin) = match pin_node(pager, reference) {
        Ok(taken) => taken,
        Err(e) => return Err(e),
    };
    match check_and_write(alloc, pager, reference, cloned, pin) {
        Ok(written) => Ok(OpenNode {
            reference,
            depth,
            cloned,
            pin,
            written,
            keyed: 0,
        }),
        Err(e) => {
            release_both(pager, cloned, pin);
            Err(e)
        }
    }
}
