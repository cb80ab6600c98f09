//! The pager's calls that a page-out makes. After each call that may change the pager, the function
//! states that the pager's invariant holds.

ghost use Rattle.pagable_changes.specs.{
  Changes.{Clones, IsElsewhere, Loosens, Pins, Releases, ReleasesBoth, SetsKey, StoresBlob},
  Keeping.KeepsStorage,
};
ghost use Rattle.pagable_core.specs.Data.{blob_of};
ghost use Rattle.pagable_pager.specs.View.{Between, BetweenIfHonest, pager_core};
ghost use Rattle.pagable_pager_spec.specs.Calls.{NodeCall};
ghost use Rattle.std.specs.Prelude.{IsTrue, Ok, false, true, ◌≡◌};

use pagable_codec::{Env, NodeSet};
use pagable_core::{PagableData, PagableStorage};
use pagable_pager::Pager;
use pagable_pager_spec::Pinning;
use pagable_value_spec::{DataKey, Error, HandleNumber, NodeNumber};
use std::alloc::Global;

// Returns whether the handle is live and of this node.
pub(crate) fn is_handle_of<E: Env<Node: NodeSet<E>>, S: PagableStorage<E>>(
    pager: &Pager<E, S>,
    handle: HandleNumber,
    node: NodeNumber,
) -> bool
    ensures there { result ≡ true → NodeCall (pager_core S.PagableStorage pager.now) handle (Ok node) }
    ensures elsewhere { result ≡ false → IsElsewhere (pager_core S.PagableStorage pager.now) handle node }
{
    match pager.node_of(handle) {
        Ok(found) => found.0 == node.0,
        Err(_) => false,
    }
}

pub(crate) fn clone<E: Env<Node: NodeSet<E>>, S: PagableStorage<E>>(
    pager: &mut Pager<E, S>,
    handle: HandleNumber,
) -> Result<HandleNumber, Error>
    ensures called { Between E.Node.NodeSet E.Env E.Hash.KeyHash S.PagableStorage pager.old pager.new
        (λ v s s'. Clones v s handle result s') }
    ensures keeps { KeepsStorage pager.old pager.new }
{
    let cloned = pager.clone(handle);
    pager.assert_invariant();
    cloned
}

pub(crate) fn loosen<E: Env<Node: NodeSet<E>>, S: PagableStorage<E>>(
    pager: &mut Pager<E, S>,
    handle: HandleNumber,
) -> Result<HandleNumber, Error>
    ensures called { Between E.Node.NodeSet E.Env E.Hash.KeyHash S.PagableStorage pager.old pager.new
        (λ v s s'. Loosens v s handle result s') }
    ensures keeps { KeepsStorage pager.old pager.new }
{
    let turned = pager.into_pagable(handle);
    pager.assert_invariant();
    turned
}

pub(crate) fn pin<E: Env<Node: NodeSet<E>>, S: PagableStorage<E>>(
    pager: &mut Pager<E, S>,
    handle: HandleNumber,
) -> Result<Pinning, Error>
    ensures called { Between E.Node.NodeSet E.Env E.Hash.KeyHash S.PagableStorage pager.old pager.new
        (λ v s s'. Pins v s handle result s') }
    ensures keeps { KeepsStorage pager.old pager.new }
{
    let pinned = pager.pin(handle);
    pager.assert_invariant();
    pinned
}

pub(crate) fn release<E: Env<Node: NodeSet<E>>, S: PagableStorage<E>>(
    pager: &mut Pager<E, S>,
    handle: HandleNumber,
) -> Result<(), Error>
    ensures called { Between E.Node.NodeSet E.Env E.Hash.KeyHash S.PagableStorage pager.old pager.new
        (λ v s s'. Releases v s handle result s') }
    ensures keeps { KeepsStorage pager.old pager.new }
{
    let released = pager.release(handle);
    pager.assert_invariant();
    released
}

pub(crate) fn set_key<E: Env<Node: NodeSet<E>>, S: PagableStorage<E>>(
    pager: &mut Pager<E, S>,
    handle: HandleNumber,
    key: DataKey,
) -> Result<(), Error>
    ensures called { Between E.Node.NodeSet E.Env E.Hash.KeyHash S.PagableStorage pager.old pager.new
        (λ v s s'. SetsKey v s handle key result s') }
    ensures keeps { KeepsStorage pager.old pager.new }
{
    let set = pager.set_data_key(handle, key);
    pager.assert_invariant();
    set
}

pub(crate) fn store<E: Env<Node: NodeSet<E>>, S: PagableStorage<E>>(
    alloc: Global,
    pager: &mut Pager<E, S>,
    blob: PagableData,
) -> Result<DataKey, Error>
    ensures called { BetweenIfHonest E.Node.NodeSet E.Env E.Hash.KeyHash S.PagableStorage pager.old pager.new
        (λ v s s'. StoresBlob v s (blob_of blob) result s') }
    ensures honest { IsTrue (S.is_honest pager.new.storage) → IsTrue (S.is_honest pager.old.storage) }
    ensures environment { pager.new.environment ≡ pager.old.environment }
{
    let stored = pager.store(alloc, blob);
    pager.assert_invariant();
    stored
}

// Releases the page-out's two handles of a node: the one that pins it, and the clone of its
// reference's handle. They are one handle if the reference isn't loose.
pub(crate) fn release_both<E: Env<Node: NodeSet<E>>, S: PagableStorage<E>>(
    pager: &mut Pager<E, S>,
    cloned: HandleNumber,
    pin: HandleNumber,
)
    ensures releases { Between E.Node.NodeSet E.Env E.Hash.KeyHash S.PagableStorage pager.old pager.new
        (λ v s s'. ReleasesBoth v cloned pin s s') }
    ensures keeps { KeepsStorage pager.old pager.new }
{
    let _unpinned = release(pager, pin);
    if pin.0 != cloned.0 {
        let _released = release(pager, cloned);
    }
}
