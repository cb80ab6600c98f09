//! The walk of a page-out over the nodes that have no key, turn by turn.

ghost use Rattle.pagable_changes.specs.{
  Changes.{BlobFails, FinishFails, FinishesOpenNode, IsBlobOfNode, IsNext, LeadsTo, LeadsTooDeep, MakesTurn},
  Changes.{OpenChildFails, OpensChild, RecordsKey, ReleasesPath, SetKeyFails, Turn, TurnFails, TurnsFail},
  Changes.{TurnsUntilKey, Walks, stage},
  Keeping.KeepsStorage,
};
ghost use Rattle.pagable_core.specs.Data.{blob_of};
ghost use Rattle.pagable_pager.specs.View.{Between, BetweenIfHonest, pager_core};
ghost use Rattle.pagable_pager_spec.specs.Basics.{longest_path};
ghost use Rattle.pagable_tables.specs.NumberTable.{place_at, row_by};
ghost use Rattle.std.specs.{
  Prelude.{IfErr, IfNone, IfOk, IfSome, IsSome, IsTrue, OnErr, OnOk, Some, slice_get, [], ◌+◌},
  Prelude.{◌++◌, ◌<◌, ◌∷◌, ◌≡◌, ◌≤◌},
};

use crate::calls::{release_both, set_key, store};
use crate::keys::{FoundKey, FoundKeys, LONGEST_PATH, collect_keys, find_key};
use crate::nodes::{OpenNode, open_node};
use pagable_codec::{Env, NodeSet};
use pagable_core::{PagableData, PagableStorage};
use pagable_pager::Pager;
use pagable_tables::number_table::NumberTable;
use pagable_value_spec::{ArcRef, DataKey, Error};
use std::alloc::Global;
use std::mem;

// Fails with `TooDeep` if a node at this depth has a path below it of this height, and both together
// are longer than a path may be.
fn check_height(depth: u64, height: u64) -> Result<(), Error>
    ensures within { OnOk result (depth + height ≤ longest_path) }
    ensures high { IfErr result (λ e. (e ≡ Error.TooDeep) × (longest_path < depth + height)) }
{
    if height > LONGEST_PATH {
        return Err(Error::TooDeep);
    }
    if depth > LONGEST_PATH - height {
        return Err(Error::TooDeep);
    }
    Ok(())
}

// Makes the blob of a node whose references all have keys, and returns it with the length of the
// longest path below the node. Fails with `TooDeep` if a path through the node is longer than 128.
fn blob_of_node<E: Env<Node: NodeSet<E>>, S: PagableStorage<E>>(
    alloc: Global,
    pager: &Pager<E, S>,
    found: &FoundKeys,
    node: &OpenNode,
) -> Result<(PagableData, u64), Error>
    ensures is { IfOk result
        (λ r. IsBlobOfNode (λ n. row_by found.now n) (pager_core S.PagableStorage pager.now) node.now (blob_of r.0) r.1) }
    ensures fails { IfErr result
        (BlobFails (λ n. row_by found.now n) (pager_core S.PagableStorage pager.now) node.now) }
{
    let (arcs, height) = match collect_keys(alloc, pager, found, &node.written.arcs) {
        Ok(collected) => collected,
        Err(e) => return Err(e),
    };
    match check_height(node.depth, height) {
        Ok(()) => {}
        Err(e) => return Err(e),
    }
    let bytes = Vec::from_slice(alloc, node.written.bytes.as_slice())?;
    Ok((PagableData { bytes, arcs }, height))
}

// Records the key of a node that was stored: sets it on the cell, if the page-out reached the node
// by a loose reference; else keeps it in `found` for the rest of the page-out.
fn record_key<E: Env<Node: NodeSet<E>>, S: PagableStorage<E>>(
    pager: &mut Pager<E, S>,
    found: &mut FoundKeys,
    node: &OpenNode,
    known: FoundKey,
) -> Result<(), Error>
    requires ready { IsSome (place_at found.old node.now.reference.node.0) }
    ensures sets { Between E.Node.NodeSet E.Env E.Hash.KeyHash S.PagableStorage pager.old pager.new
        (λ v s s'. OnOk result
        (RecordsKey v (λ n. row_by found.old n) node.now known s (λ n. row_by found.new n) s')) }
    ensures refused { Between E.Node.NodeSet E.Env E.Hash.KeyHash S.PagableStorage pager.old pager.new
        (λ v s s'. IfErr result (λ e. SetKeyFails v node.now known.key s e s')) }
    ensures keeps { KeepsStorage pager.old pager.new }
{
    if node.reference.kind.is_loose() {
        return set_key(pager, node.cloned, known.key);
    }
    found.put(node.reference.node.0, known);
    Ok(())
}

// Stores a node whose references all have keys, sets its key, and releases its handles.
fn finish_open_node<E: Env<Node: NodeSet<E>>, S: PagableStorage<E>>(
    alloc: Global,
    pager: &mut Pager<E, S>,
    found: &mut FoundKeys,
    node: &OpenNode,
) -> Result<DataKey, Error>
    ensures finishes { BetweenIfHonest E.Node.NodeSet E.Env E.Hash.KeyHash S.PagableStorage pager.old pager.new
        (λ v s s'. IfOk result
        (λ key. FinishesOpenNode v (λ n. row_by found.old n) s node.now key (λ n. row_by found.new n) s')) }
    ensures fails { BetweenIfHonest E.Node.NodeSet E.Env E.Hash.KeyHash S.PagableStorage pager.old pager.new
        (λ v s s'. IfErr result (λ e. FinishFails v (λ n. row_by found.old n) s node.now e s')) }
    ensures honest { IsTrue (S.is_honest pager.new.storage) → IsTrue (S.is_honest pager.old.storage) }
    ensures environment { pager.new.environment ≡ pager.old.environment }
{
    let (blob, height) = match blob_of_node(alloc, pager, found, node) {
        Ok(over) => over,
        Err(e) => return Err(e),
    };
    found.reserve(node.reference.node.0)?;
    let key = match store(alloc, pager, blob) {
        Ok(key) => key,
        Err(e) => return Err(e),
    };
    match record_key(pager, found, node, FoundKey { key, height }) {
        Ok(()) => {}
        Err(e) => return Err(e),
    }
    release_both(pager, node.cloned, node.pin);
    Ok(key)
}

// Returns the depth of the target of a node's reference: 0 through a loose reference, else one more
// than the node's. Fails with `TooDeep` if a target that isn't a cell would lie too deep, or if the
// reference is a loose one to a node that isn't older: a cell without a key was made before what
// refers to it.
fn depth_below(node: &OpenNode, reference: ArcRef) -> Result<u64, Error>
    ensures leads { IfOk result (LeadsTo node.now reference) }
    ensures fails { IfErr result (λ e. (e ≡ Error.TooDeep) × LeadsTooDeep node.now reference) }
{
    if reference.kind.is_loose() {
        if reference.node.0 >= node.reference.node.0 {
            return Err(Error::TooDeep);
        }
        return Ok(0);
    }
    if node.depth >= LONGEST_PATH {
        return Err(Error::TooDeep);
    }
    Ok(node.depth + 1)
}

// Pins and writes the target, which has no key, of a reference of the node at hand. The target
// becomes the node at hand, and the old one waits on the path.
fn open_child<E: Env<Node: NodeSet<E>>, S: PagableStorage<E>>(
    alloc: Global,
    pager: &mut Pager<E, S>,
    path: &mut Vec<OpenNode>,
    node: &mut OpenNode,
    reference: ArcRef,
) -> Result<(), Error>
    ensures opens { Between E.Node.NodeSet E.Env E.Hash.KeyHash S.PagableStorage pager.old pager.new
        (λ v s s'. OnOk result (OpensChild v reference path.old.items node.old s path.new.items node.new s')) }
    ensures fails { Between E.Node.NodeSet E.Env E.Hash.KeyHash S.PagableStorage pager.old pager.new
        (λ v s s'. IfErr result (λ e. OpenChildFails v reference node.old s e s')) }
    ensures stays { OnErr result ((path.new.items ≡ path.old.items) × (node.new ≡ node.old)) }
    ensures keeps { KeepsStorage pager.old pager.new }
{
    let depth = match depth_below(node, reference) {
        Ok(depth) => depth,
        Err(e) => return Err(e),
    };
    path.reserve(1)?;
    let child = match open_node(alloc, pager, reference, depth) {
        Ok(child) => child,
        Err(e) => return Err(e),
    };
    path.push_reserved(mem::replace(node, child));
    Ok(())
}

// Returns the node's next reference, the first that wasn't found to have a key.
fn next_reference(node: &OpenNode) -> Option<ArcRef>
    ensures { result ≡ slice_get node.now.written.arcs.items node.now.keyed }
{
    node.written.arcs.get(node.keyed).copied()
}

// Counts the node's next reference as one whose target has a key.
fn pass_reference(node: &mut OpenNode)
    ensures { (r : ArcRef) → IsNext node.old r → node.new ≡ record node.old { keyed = node.old.keyed + 1 } }
{
    if node.keyed < node.written.arcs.len() {
        node.keyed += 1;
    }
}

// Processes the node's next reference: counts it as keyed if its target has a key; otherwise makes
// the target the node at hand, as `open_child` does.
fn process_reference<E: Env<Node: NodeSet<E>>, S: PagableStorage<E>>(
    alloc: Global,
    pager: &mut Pager<E, S>,
    found: &FoundKeys,
    path: &mut Vec<OpenNode>,
    node: &mut OpenNode,
    reference: ArcRef,
) -> Result<(), Error>
    requires next { IsNext node.old reference }
    ensures turns { Between E.Node.NodeSet E.Env E.Hash.KeyHash S.PagableStorage pager.old pager.new
        (λ v s s'. OnOk result (Turn v (stage path.old.items node.old (λ n. row_by found.now n) s)
        (stage path.new.items node.new (λ n. row_by found.now n) s'))) }
    ensures fails { Between E.Node.NodeSet E.Env E.Hash.KeyHash S.PagableStorage pager.old pager.new
        (λ v s s'. IfErr result (λ e. TurnFails v (stage path.old.items node.old (λ n. row_by found.now n) s) e s')) }
    ensures stays { OnErr result ((path.new.items ≡ path.old.items) × (node.new ≡ node.old)) }
    ensures keeps { KeepsStorage pager.old pager.new }
{
    let known = match find_key(pager, found, reference) {
        Ok(known) => known,
        Err(e) => return Err(e),
    };
    match known {
        Some(_) => {
            pass_reference(node);
            Ok(())
        }
        None => open_child(alloc, pager, path, node, reference),
    }
}

// Takes the last node off the path.
fn pop_node(path: &mut Vec<OpenNode>) -> Option<OpenNode>
    ensures some { IfSome result (λ node. path.old.items ≡ path.new.items ++ node ∷ []) }
    ensures none { IfNone result (path.old.items ≡ []) }
{
    if path.is_empty() {
        return None;
    }
    path.pop()
}

// Stores the node at hand, whose references all have keys, as `finish_open_node` does. Then the
// last node on the path becomes the node at hand; if the path is empty, returns the stored node's
// key.
fn finish_and_pop<E: Env<Node: NodeSet<E>>, S: PagableStorage<E>>(
    alloc: Global,
    pager: &mut Pager<E, S>,
    found: &mut FoundKeys,
    path: &mut Vec<OpenNode>,
    node: &mut OpenNode,
) -> Result<Option<DataKey>, Error>
    ensures turns { BetweenIfHonest E.Node.NodeSet E.Env E.Hash.KeyHash S.PagableStorage pager.old pager.new
        (λ v s s'. IfOk result (λ key. MakesTurn v (stage path.old.items node.old (λ n. row_by found.old n) s) key
        (stage path.new.items node.new (λ n. row_by found.new n) s'))) }
    ensures fails { BetweenIfHonest E.Node.NodeSet E.Env E.Hash.KeyHash S.PagableStorage pager.old pager.new
        (λ v s s'. IfErr result (λ e. TurnFails v (stage path.old.items node.old (λ n. row_by found.old n) s) e s')) }
    ensures stays { OnErr result ((path.new.items ≡ path.old.items) × (node.new ≡ node.old)) }
    ensures honest { IsTrue (S.is_honest pager.new.storage) → IsTrue (S.is_honest pager.old.storage) }
    ensures environment { pager.new.environment ≡ pager.old.environment }
{
    let key = match finish_open_node(alloc, pager, found, node) {
        Ok(key) => key,
        Err(e) => return Err(e),
    };
    match pop_node(path) {
        Some(parent) => {
            *node = parent;
            Ok(None)
        }
        None => Ok(Some(key)),
    }
}

// Makes one turn: processes the next reference of the node at hand, or stores the node if none
// is left. Returns the root's key after the last turn, else None.
fn make_turn<E: Env<Node: NodeSet<E>>, S: PagableStorage<E>>(
    alloc: Global,
    pager: &mut Pager<E, S>,
    found: &mut FoundKeys,
    path: &mut Vec<OpenNode>,
    node: &mut OpenNode,
) -> Result<Option<DataKey>, Error>
    ensures turns { BetweenIfHonest E.Node.NodeSet E.Env E.Hash.KeyHash S.PagableStorage pager.old pager.new
        (λ v s s'. IfOk result (λ key. MakesTurn v (stage path.old.items node.old (λ n. row_by found.old n) s) key
        (stage path.new.items node.new (λ n. row_by found.new n) s'))) }
    ensures fails { BetweenIfHonest E.Node.NodeSet E.Env E.Hash.KeyHash S.PagableStorage pager.old pager.new
        (λ v s s'. IfErr result (λ e. TurnFails v (stage path.old.items node.old (λ n. row_by found.old n) s) e s')) }
    ensures stays { OnErr result ((path.new.items ≡ path.old.items) × (node.new ≡ node.old)) }
    ensures honest { IsTrue (S.is_honest pager.new.storage) → IsTrue (S.is_honest pager.old.storage) }
    ensures environment { pager.new.environment ≡ pager.old.environment }
{
    match next_reference(node) {
        None => finish_and_pop(alloc, pager, found, path, node),
        Some(reference) => match process_reference(alloc, pager, found, path, node, reference) {
            Ok(()) => Ok(None),
            Err(e) => Err(e),
        },
    }
}

// Makes turns until the root has its key, or until an error.
fn make_turns<E: Env<Node: NodeSet<E>>, S: PagableStorage<E>>(
    alloc: Global,
    pager: &mut Pager<E, S>,
    found: &mut FoundKeys,
    path: &mut Vec<OpenNode>,
    node: &mut OpenNode,
) -> Result<DataKey, Error>
    ensures turns { BetweenIfHonest E.Node.NodeSet E.Env E.Hash.KeyHash S.PagableStorage pager.old pager.new
        (λ v s s'. IfOk result (λ key. TurnsUntilKey v (stage path.old.items node.old (λ n. row_by found.old n) s) key
        (stage path.new.items node.new (λ n. row_by found.new n) s'))) }
    ensures fails { BetweenIfHonest E.Node.NodeSet E.Env E.Hash.KeyHash S.PagableStorage pager.old pager.new
        (λ v s s'. IfErr result
        (λ e. TurnsFail v (stage path.old.items node.old (λ n. row_by found.old n) s) e path.new.items node.new s')) }
    ensures honest { IsTrue (S.is_honest pager.new.storage) → IsTrue (S.is_honest pager.old.storage) }
    ensures environment { pager.new.environment ≡ pager.old.environment }
{
    let mut left = u64::MAX;
    while left > 0 {
        left -= 1;
        let turned = match make_turn(alloc, pager, found, path, node) {
            Ok(turned) => turned,
            Err(e) => return Err(e),
        };
        match turned {
            Some(key) => return Ok(key),
            None => {}
        }
    }
    Err(Error::TooDeep)
}

// Releases the handles of all nodes on the path.
fn release_path<E: Env<Node: NodeSet<E>>, S: PagableStorage<E>>(
    pager: &mut Pager<E, S>,
    path: &mut Vec<OpenNode>,
)
    ensures releases { Between E.Node.NodeSet E.Env E.Hash.KeyHash S.PagableStorage pager.old pager.new
        (λ v s s'. ReleasesPath v path.old.items s s') }
    ensures keeps { KeepsStorage pager.old pager.new }
{
    while let Some(node) = pop_node(path) {
        release_both(pager, node.cloned, node.pin);
    }
}

/// Stores the first node and all nodes without a key that it reaches, and returns the first node's
/// key. If it fails, it releases the handles of all nodes that the page-out is writing.
pub(crate) fn walk<E: Env<Node: NodeSet<E>>, S: PagableStorage<E>>(
    alloc: Global,
    pager: &mut Pager<E, S>,
    first: OpenNode,
) -> Result<DataKey, Error>
    ensures walks { BetweenIfHonest E.Node.NodeSet E.Env E.Hash.KeyHash S.PagableStorage pager.old pager.new
        (λ v s s'. Walks v first s result s') }
    ensures honest { IsTrue (S.is_honest pager.new.storage) → IsTrue (S.is_honest pager.old.storage) }
    ensures environment { pager.new.environment ≡ pager.old.environment }
{
    let mut path = Vec::new(alloc);
    let mut found = NumberTable::new(alloc);
    let mut node = first;
    match make_turns(alloc, pager, &mut found, &mut path, &mut node) {
        Ok(key) => Ok(key),
        Err(e) => {
            release_both(pager, node.cloned, node.pin);
            release_path(pager, &mut path);
            Err(e)
        }
    }
}
