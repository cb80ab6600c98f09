//! A load's steps over an access to a pager, and a load that is run to its end. And whole
//! operations over an access: a pin, with the load that it may need, and the read of a key.

ghost use Rattle.pagable_load.specs.{
  AccessView.{Acts, IfKnown, values_at},
  Decoding.{FramesChange, FramesChangeFor, IfValue, Needs, RowsFit, rows_of},
  Frames.{frames_of, reading_of},
  Keyed.{IsKeyed, IsPinKeyed, IsShareKeyed, StaysKeyed},
  LoadEnd.EndsOrLeavesLess,
  LoadSteps.{Drops, IsSameLoad, RunsLoad, RunsLoadOrPart, TriesStep},
  Outcomes.{GivesValue, GivesValueIf},
  PinStart.{PinsWithLoad, Shares, Unpins},
  declared.reading.LoadOutcome.LoadOutcome,
};
ghost use Rattle.pagable_pager_spec.specs.{
  Access.{PinsOver, ReadsOver},
  Loads.{ReadsNode, ReadsRoot, need_of, needs_lazy},
  Pager.HoldsPinned,
  World.{one_more, result_map},
  declared.handle_row.Owner.Owner,
};
ghost use Rattle.std.specs.{
  Arc.arc_value,
  Prelude.{IfNone, IfOk, IfSome, IsSome, Ok, Some, false, length, true, [], ◌<◌, ◌≡◌},
};

use crate::access::{Access, StartedPin};
use crate::batch::Lookahead;
use crate::reading::{LoadOutcome, Need, Reading, collect_handles};
use either::Either;
use pagable_codec::{Env, NodeSet};
use pagable_value_spec::{DataKey, Error, HandleNumber, Kind};
use std::alloc::Global;
use std::sync::Arc;

impl Reading {
    // Takes a loose reference for the innermost blob without reading it.
    fn add_loose_reference<E: Env<Node: NodeSet<E>>, A: Access<E>>(
        &mut self,
        access: &mut A,
        alloc: Global,
        kind: Kind,
        key: DataKey,
    ) -> Result<Option<LoadOutcome<E::Node>>, Error>
        requires top { IsSome self.old.top }
        requires need { need_of (values_at E.Node.NodeSet E.Env E.Hash.KeyHash (A.acting access.old).environment).types
            (frames_of self.old.top self.old.below.items) ≡ needs_lazy kind key }
        ensures acts { Acts A.known_state A.acting access.old access.new
            (λ a s t. TriesStep (values_at E.Node.NodeSet E.Env E.Hash.KeyHash a.environment) a.me self.old s result
            (frames_of self.new.top self.new.below.items) t) }
        ensures leads { EndsOrLeavesLess self.old.for_cell (frames_of self.old.top self.old.below.items)
            (frames_of self.new.top self.new.below.items) result }
        ensures goes { IfOk result (λ answer. FramesChange false (frames_of self.old.top self.old.below.items)
            (frames_of self.new.top self.new.below.items)) }
        ensures given { IfOk result (λ outcome. IfKnown (A.known_state access.new) (λ s. GivesValueIf s outcome)) }
        ensures keyed { IfOk result (λ answer. StaysKeyed
            (values_at E.Node.NodeSet E.Env E.Hash.KeyHash (A.acting access.old).environment) self.old.key self.old.node_type
            (frames_of self.old.top self.old.below.items) answer (frames_of self.new.top self.new.below.items)) }
        ensures same { IsSameLoad self.old self.new self.old.steps }
    {
        let load = self.load;
        let top = self.pop_frame()?;
        let taken = access.load_lazy(alloc, load, kind, key)?;
        self.push_resolved(top, taken);
        Ok(None)
    }

    // Makes a node of the innermost blob's value, and gives its reference to the blob below, which
    // becomes the innermost one.
    #[tactic(auto, using(crate::proofs::Batches::node_leads))]
    fn step_adopt<E: Env<Node: NodeSet<E>>, A: Access<E>>(
        &mut self,
        access: &mut A,
        alloc: Global,
        value: E::Node,
    ) -> Result<Option<LoadOutcome<E::Node>>, Error>
        requires top { IsSome self.old.top }
        requires below { 0 < length self.old.below.items }
        requires node { ReadsNode (values_at E.Node.NodeSet E.Env E.Hash.KeyHash (A.acting access.old).environment)
            (reading_of self.old) value }
        requires holds { IfKnown (A.known_state access.old) (λ s. HoldsPinned
            (values_at E.Node.NodeSet E.Env E.Hash.KeyHash (A.acting access.old).environment) s value) }
        ensures acts { Acts A.known_state A.acting access.old access.new
            (λ a s t. TriesStep (values_at E.Node.NodeSet E.Env E.Hash.KeyHash a.environment) a.me self.old s result
            (frames_of self.new.top self.new.below.items) t) }
        ensures leads { EndsOrLeavesLess self.old.for_cell (frames_of self.old.top self.old.below.items)
            (frames_of self.new.top self.new.below.items) result }
        ensures goes { IfOk result (λ answer. FramesChange true (frames_of self.old.top self.old.below.items)
            (frames_of self.new.top self.new.below.items)) }
        ensures given { IfOk result (λ outcome. IfKnown (A.known_state access.new) (λ s. GivesValueIf s outcome)) }
        ensures keyed { IfOk result (λ answer. StaysKeyed
            (values_at E.Node.NodeSet E.Env E.Hash.KeyHash (A.acting access.old).environment) self.old.key self.old.node_type
            (frames_of self.old.top self.old.below.items) answer (frames_of self.new.top self.new.below.items)) }
        ensures same { IsSameLoad self.old self.new self.old.steps }
    {
        let load = self.load;
        let (top, under) = self.pop_two_frames()?;
        match access.load_adopt(alloc, load, top.kind, top.key, value) {
            Ok(reference) => {
                self.push_resolved(under, reference);
                Ok(None)
            }
            Err((e, _value)) => Err(e),
        }
    }

    // Ends the load of a cell with the root's value: pins the cell, which gets the value if it has
    // none.
    #[tactic(auto, using(crate::proofs::Keyed::finishing))]
    fn finish_cell<E: Env<Node: NodeSet<E>>, A: Access<E>>(
        &mut self,
        access: &mut A,
        alloc: Global,
        value: E::Node,
    ) -> Result<Option<LoadOutcome<E::Node>>, Error>
        requires cell { self.old.for_cell ≡ true }
        requires root { ReadsRoot (values_at E.Node.NodeSet E.Env E.Hash.KeyHash (A.acting access.old).environment)
            (reading_of self.old) value }
        requires holds { IfKnown (A.known_state access.old) (λ s. HoldsPinned
            (values_at E.Node.NodeSet E.Env E.Hash.KeyHash (A.acting access.old).environment) s value) }
        ensures acts { Acts A.known_state A.acting access.old access.new
            (λ a s t. TriesStep (values_at E.Node.NodeSet E.Env E.Hash.KeyHash a.environment) a.me self.old s result
            (frames_of self.new.top self.new.below.items) t) }
        ensures leads { EndsOrLeavesLess self.old.for_cell (frames_of self.old.top self.old.below.items)
            (frames_of self.new.top self.new.below.items) result }
        ensures ends { IfOk result (λ answer. IsSome answer) }
        ensures given { IfOk result (λ outcome. IfKnown (A.known_state access.new) (λ s. GivesValueIf s outcome)) }
        ensures keyed { IfOk result (λ answer. StaysKeyed
            (values_at E.Node.NodeSet E.Env E.Hash.KeyHash (A.acting access.old).environment) self.old.key self.old.node_type
            (frames_of self.old.top self.old.below.items) answer (frames_of self.new.top self.new.below.items)) }
        ensures same { IsSameLoad self.old self.new self.old.steps }
    {
        let read = Arc::new(alloc, value)?;
        let kept = read.clone()?;
        match access.load_end(alloc, self.load, read) {
            Ok(ended) => {
                self.top = None;
                let brought = if ended.came { Some(kept) } else { None };
                Ok(Some(LoadOutcome::Pinned(ended.handle, brought)))
            }
            Err((e, back)) => match back {
                Some(_value) => Err(e),
                None => {
                    self.top = None;
                    Ok(Some(LoadOutcome::Refused(e)))
                }
            },
        }
    }

    // Ends the load with the root's value: the cell gets it and is pinned, or the caller gets it
    // and the handles of its references.
    #[tactic(auto, using(crate::proofs::Keyed::finishing))]
    fn finish<E: Env<Node: NodeSet<E>>, A: Access<E>>(
        &mut self,
        access: &mut A,
        alloc: Global,
        value: E::Node,
    ) -> Result<Option<LoadOutcome<E::Node>>, Error>
        requires root { ReadsRoot (values_at E.Node.NodeSet E.Env E.Hash.KeyHash (A.acting access.old).environment)
            (reading_of self.old) value }
        requires holds { IfKnown (A.known_state access.old) (λ s. HoldsPinned
            (values_at E.Node.NodeSet E.Env E.Hash.KeyHash (A.acting access.old).environment) s value) }
        ensures acts { Acts A.known_state A.acting access.old access.new
            (λ a s t. TriesStep (values_at E.Node.NodeSet E.Env E.Hash.KeyHash a.environment) a.me self.old s result
            (frames_of self.new.top self.new.below.items) t) }
        ensures leads { EndsOrLeavesLess self.old.for_cell (frames_of self.old.top self.old.below.items)
            (frames_of self.new.top self.new.below.items) result }
        ensures ends { IfOk result (λ answer. IsSome answer) }
        ensures given { IfOk result (λ outcome. IfKnown (A.known_state access.new) (λ s. GivesValueIf s outcome)) }
        ensures keyed { IfOk result (λ answer. StaysKeyed
            (values_at E.Node.NodeSet E.Env E.Hash.KeyHash (A.acting access.old).environment) self.old.key self.old.node_type
            (frames_of self.old.top self.old.below.items) answer (frames_of self.new.top self.new.below.items)) }
        ensures same { IsSameLoad self.old self.new self.old.steps }
    {
        if self.for_cell {
            return self.finish_cell(access, alloc, value);
        }
        let references = value.refs(alloc)?;
        let named = collect_handles(alloc, references.as_slice())?;
        access.load_take(self.load, named.as_slice())?;
        self.top = None;
        Ok(Some(LoadOutcome::Read(value)))
    }

    // Gets what the load needs, by at most one call of the access. Returns how the load ended, or
    // None if it goes on.
    fn act_on_need<E: Env<Node: NodeSet<E>>, A: Access<E>>(
        &mut self,
        access: &mut A,
        alloc: Global,
        need: Need<E::Node>,
    ) -> Result<Option<LoadOutcome<E::Node>>, Error>
        requires need { Needs (values_at E.Node.NodeSet E.Env E.Hash.KeyHash (A.acting access.old).environment) self.old
            need }
        requires holds { IfKnown (A.known_state access.old) (λ s. IfValue need
            (HoldsPinned (values_at E.Node.NodeSet E.Env E.Hash.KeyHash (A.acting access.old).environment) s)) }
        ensures acts { Acts A.known_state A.acting access.old access.new
            (λ a s t. TriesStep (values_at E.Node.NodeSet E.Env E.Hash.KeyHash a.environment) a.me self.old s result
            (frames_of self.new.top self.new.below.items) t) }
        ensures leads { EndsOrLeavesLess self.old.for_cell (frames_of self.old.top self.old.below.items)
            (frames_of self.new.top self.new.below.items) result }
        ensures goes { IfOk result (λ answer. FramesChangeFor need answer (frames_of self.old.top self.old.below.items)
            (frames_of self.new.top self.new.below.items)) }
        ensures given { IfOk result (λ outcome. IfKnown (A.known_state access.new) (λ s. GivesValueIf s outcome)) }
        ensures keyed { IfOk result (λ answer. StaysKeyed
            (values_at E.Node.NodeSet E.Env E.Hash.KeyHash (A.acting access.old).environment) self.old.key self.old.node_type
            (frames_of self.old.top self.old.below.items) answer (frames_of self.new.top self.new.below.items)) }
        ensures same { IsSameLoad self.old self.new self.old.steps }
    {
        let load = self.load;
        match need {
            Need::Root => match access.load_root(alloc, load, self.key) {
                Ok(blob) => {
                    self.put_root(alloc, blob);
                    Ok(None)
                }
                Err(e) => Err(e),
            },
            Need::Nested(kind, key) => {
                let top = self.pop_frame()?;
                match access.load_nested(alloc, load, kind, key) {
                    Ok(Either::Left(reference)) => {
                        self.push_resolved(top, reference);
                        Ok(None)
                    }
                    Ok(Either::Right(blob)) => match self.put_blob(alloc, top, kind, key, blob) {
                        Ok(()) => Ok(None),
                        Err(e) => Err(e),
                    },
                    Err(e) => Err(e),
                }
            }
            Need::Lazy(kind, key) => self.add_loose_reference(access, alloc, kind, key),
            Need::Adopt(value) => self.step_adopt(access, alloc, value),
            Need::End(value) => self.finish(access, alloc, value),
            Need::Refuse(e) => Err(e),
        }
    }

    // Drops the load, since a step failed, and releases all that it owns.
    fn drop_failed_load<E: Env<Node: NodeSet<E>>, A: Access<E>>(&mut self, access: &mut A)
        ensures acts { Acts A.known_state A.acting access.old access.new
            (λ a s t. Drops (values_at E.Node.NodeSet E.Env E.Hash.KeyHash a.environment) a.me self.old.load s t) }
        ensures none { frames_of self.new.top self.new.below.items ≡ [] }
        ensures same { IsSameLoad self.old self.new self.old.steps }
    {
        let _told = access.load_drop(self.load);
        self.top = None;
    }

    // Makes the step that gets what the load needs, and counts it. Drops the load if that fails.
    #[tactic(auto, using(crate::proofs::LoadSteps::giving_up, crate::proofs::Keyed::staying))]
    #[inline(always)]
    fn step_for<E: Env<Node: NodeSet<E>>, A: Access<E>>(
        &mut self,
        access: &mut A,
        alloc: Global,
        need: Need<E::Node>,
    ) -> Option<LoadOutcome<E::Node>>
        requires need { Needs (values_at E.Node.NodeSet E.Env E.Hash.KeyHash (A.acting access.old).environment) self.old
            need }
        requires holds { IfKnown (A.known_state access.old) (λ s. IfValue need
            (HoldsPinned (values_at E.Node.NodeSet E.Env E.Hash.KeyHash (A.acting access.old).environment) s)) }
        ensures acts { Acts A.known_state A.acting access.old access.new
            (λ a s t. TriesStep (values_at E.Node.NodeSet E.Env E.Hash.KeyHash a.environment) a.me
            self.old s (Ok result)
            (frames_of self.new.top self.new.below.items) t) }
        ensures leads { EndsOrLeavesLess self.old.for_cell (frames_of self.old.top self.old.below.items)
            (frames_of self.new.top self.new.below.items) (Ok result) }
        ensures goes { FramesChangeFor need result (frames_of self.old.top self.old.below.items)
            (frames_of self.new.top self.new.below.items) }
        ensures given { IfKnown (A.known_state access.new) (λ s. GivesValueIf s result) }
        ensures keyed { StaysKeyed (values_at E.Node.NodeSet E.Env E.Hash.KeyHash (A.acting access.old).environment)
            self.old.key self.old.node_type (frames_of self.old.top self.old.below.items) result
            (frames_of self.new.top self.new.below.items) }
        ensures same { IsSameLoad self.old self.new (one_more self.old.steps) }
    {
        match self.act_on_need(access, alloc, need) {
            Ok(answer) => {
                self.steps = self.steps.saturating_add(1);
                answer
            }
            Err(e) => {
                self.drop_failed_load(access);
                self.steps = self.steps.saturating_add(1);
                Some(LoadOutcome::Refused(e))
            }
        }
    }

    /// Makes the load's next step: reads what it can of its innermost blob, with the shared values
    /// of the blob's references, and makes one call of the access. Returns how the load ended, or
    /// None if it goes on. If the step fails, the load is dropped, and all that it owns is
    /// released. If the access tells its state, the clause asks that the load is open and is the
    /// one with which this reading began.
    pub fn step<E: Env<Node: NodeSet<E>>, A: Access<E>>(
        &mut self,
        access: &mut A,
        alloc: Global,
    ) -> Option<LoadOutcome<E::Node>>
        ensures acts { Acts A.known_state A.acting access.old access.new
            (λ a s t. TriesStep (values_at E.Node.NodeSet E.Env E.Hash.KeyHash a.environment) a.me
            self.old s (Ok result)
            (frames_of self.new.top self.new.below.items) t) }
        ensures leads { EndsOrLeavesLess self.old.for_cell (frames_of self.old.top self.old.below.items)
            (frames_of self.new.top self.new.below.items) (Ok result) }
        ensures given { IfKnown (A.known_state access.new) (λ s. GivesValueIf s result) }
        ensures keyed { StaysKeyed (values_at E.Node.NodeSet E.Env E.Hash.KeyHash (A.acting access.old).environment)
            self.old.key self.old.node_type (frames_of self.old.top self.old.below.items) result
            (frames_of self.new.top self.new.below.items) }
        ensures same { IsSameLoad self.old self.new (one_more self.old.steps) }
    {
        let need = self.next_need::<E, A>(access, alloc);
        self.step_for(access, alloc, need)
    }

    // Returns whether the innermost blob has references.
    fn has_references(&self) -> bool {
        match &self.top {
            Some(top) => !top.blob.as_ref().arcs.is_empty(),
            None => false,
        }
    }

    // Makes the first steps of a load that has just begun: fetches its root's blob and, if the
    // blob has no references, ends the load. Returns how the load ended, or None if it goes on.
    // Does nothing if the load has a blob.
    #[tactic(auto, using(crate::proofs::Keyed::staying))]
    fn run_first_steps<E: Env<Node: NodeSet<E>>, A: Access<E>>(
        &mut self,
        access: &mut A,
        alloc: Global,
    ) -> Option<LoadOutcome<E::Node>>
        ensures acts { Acts A.known_state A.acting access.old access.new
            (λ a s t. RunsLoadOrPart (values_at E.Node.NodeSet E.Env E.Hash.KeyHash a.environment) a.me
            self.old self.new s
            result t) }
        ensures ends { IfSome result (λ answer. EndsOrLeavesLess self.old.for_cell [] [] (Ok (Some answer))) }
        ensures given { IfKnown (A.known_state access.new) (λ s. GivesValueIf s result) }
        ensures keyed { StaysKeyed (values_at E.Node.NodeSet E.Env E.Hash.KeyHash (A.acting access.old).environment)
            self.old.key self.old.node_type (frames_of self.old.top self.old.below.items) result
            (frames_of self.new.top self.new.below.items) }
        ensures key { self.new.key ≡ self.old.key }
        ensures node_type { self.new.node_type ≡ self.old.node_type }
        ensures for_cell { self.new.for_cell ≡ self.old.for_cell }
    {
        if self.top.is_some() {
            return None;
        }
        if let Some(answer) = self.step_for(access, alloc, Need::Root) {
            return Some(answer);
        }
        if self.has_references() {
            return None;
        }
        self.step(access, alloc)
    }

    // Makes the load's next step, as `step` does, but reads the innermost blob only if `ahead`
    // doesn't say what is needed.
    fn step_with_lookahead<E: Env<Node: NodeSet<E>>, A: Access<E>>(
        &mut self,
        access: &mut A,
        alloc: Global,
        ahead: &mut Lookahead,
    ) -> Option<LoadOutcome<E::Node>>
        requires ahead { RowsFit (values_at E.Node.NodeSet E.Env E.Hash.KeyHash
            (A.acting access.old).environment).types (frames_of self.old.top self.old.below.items) (rows_of ahead.old) }
        ensures acts { Acts A.known_state A.acting access.old access.new
            (λ a s t. TriesStep (values_at E.Node.NodeSet E.Env E.Hash.KeyHash a.environment) a.me
            self.old s (Ok result)
            (frames_of self.new.top self.new.below.items) t) }
        ensures leads { EndsOrLeavesLess self.old.for_cell (frames_of self.old.top self.old.below.items)
            (frames_of self.new.top self.new.below.items) (Ok result) }
        ensures given { IfKnown (A.known_state access.new) (λ s. GivesValueIf s result) }
        ensures keyed { StaysKeyed (values_at E.Node.NodeSet E.Env E.Hash.KeyHash (A.acting access.old).environment)
            self.old.key self.old.node_type (frames_of self.old.top self.old.below.items) result
            (frames_of self.new.top self.new.below.items) }
        ensures same { IsSameLoad self.old self.new (one_more self.old.steps) }
        ensures ahead { IfNone result (RowsFit (values_at E.Node.NodeSet E.Env E.Hash.KeyHash
            (A.acting access.old).environment).types (frames_of self.new.top self.new.below.items)
            (rows_of ahead.new)) }
    {
        self.plan_batch_if_useful(access, alloc, &mut ahead.top);
        let need = self.find_next_need::<E, A>(access, alloc, ahead.top.as_slice());
        let was_read = need.is_adoption();
        if let Some(answer) = self.step_for(access, alloc, need) {
            return Some(answer);
        }
        self.update_rows(alloc, ahead, was_read);
        None
    }

    /// Makes the load's steps up to its end, and returns how it ended: a load of a cell with a pin,
    /// a load of a key with its value, or either with an error. It gets several references of a
    /// blob without reading the blob in between, if the reader doesn't need their values to go on.
    #[tactic(auto, using(crate::proofs::PinsAndReads::driving))]
    pub fn run<E: Env<Node: NodeSet<E>>, A: Access<E>>(
        &mut self,
        access: &mut A,
        alloc: Global,
    ) -> LoadOutcome<E::Node>
        ensures acts { Acts A.known_state A.acting access.old access.new
            (λ a s t. RunsLoad (values_at E.Node.NodeSet E.Env E.Hash.KeyHash a.environment) a.me self.old s result t) }
        ensures given { IfKnown (A.known_state access.new) (λ s. GivesValue s result) }
        ensures keyed { StaysKeyed (values_at E.Node.NodeSet E.Env E.Hash.KeyHash (A.acting access.old).environment)
            self.old.key self.old.node_type (frames_of self.old.top self.old.below.items) (Some result)
            (frames_of self.new.top self.new.below.items) }
        ensures ends { EndsOrLeavesLess self.old.for_cell [] [] (Ok (Some result)) }
    {
        if let Some(answer) = self.run_first_steps(access, alloc) {
            return answer;
        }
        let mut ahead = Lookahead::new(alloc);
        loop {
            if let Some(answer) = self.step_with_lookahead(access, alloc, &mut ahead) {
                return answer;
            }
        }
    }
}

// ---- whole operations

// A pin of a loose handle's cell: the new Pinned handle, whether the loose handle was unpinned
// before, the result of sharing the value, and the key under which the pin's load has read it; None
// if the cell had the value.
#[derive(Drop)]
struct MadePin<N> {
    handle: HandleNumber,
    was_unpinned: bool,
    shared: Result<Option<Arc<N>>, Error>,
    read_from: Option<DataKey>,
}

/// A new pin of a loose handle's cell.
#[derive(Drop)]
pub struct CellPin<N> {
    /// The new Pinned handle.
    pub handle: HandleNumber,
    /// The value that it pins.
    pub value: Arc<N>,
    /// Whether the loose handle was unpinned before: then whoever undoes the pin has to unpin it.
    pub was_unpinned: bool,
    /// The key under which this pin has read the value; None if the cell had its value.
    pub read_from: Option<DataKey>,
}

// Pins a cell whose load has ended with a pin, by a handle that was unpinned before: its value is
// the one that the load has read under this key, or, if the load hasn't brought it, is shared.
fn ended_pin<E: Env<Node: NodeSet<E>>, A: Access<E>>(
    access: &A,
    handle: HandleNumber,
    key: DataKey,
    read: Option<Arc<E::Node>>,
) -> MadePin<E::Node>
    requires given { IfKnown (A.known_state access.now) (λ s. GivesValue s (LoadOutcome.Pinned handle read)) }
    ensures handle { result.handle ≡ handle }
    ensures was_unpinned { result.was_unpinned ≡ true }
    ensures shares { IfKnown (A.known_state access.now) (λ s. Shares arc_value s handle result.shared) }
    ensures key { IfSome result.read_from (λ from. (from ≡ key) × (result.shared ≡ Ok read) × IsSome read) }
{
    match read {
        Some(value) => MadePin {
            handle,
            was_unpinned: true,
            shared: Ok(Some(value)),
            read_from: Some(key),
        },
        None => MadePin {
            handle,
            was_unpinned: true,
            shared: access.share(handle),
            read_from: None,
        },
    }
}

// Pins a loose handle's cell, loading its value if it isn't in memory.
#[tactic(auto, using(crate::proofs::LoadSteps::acts_map, crate::proofs::PinsAndReads::start_refused))]
fn pin_with_load<E: Env<Node: NodeSet<E>>, A: Access<E>>(
    access: &mut A,
    alloc: Global,
    handle: HandleNumber,
) -> Result<MadePin<E::Node>, Error>
    requires caller { (A.acting access.old).me ≡ Owner.Caller }
    ensures acts { Acts A.known_state A.acting access.old access.new
        (λ a s t. PinsWithLoad (values_at E.Node.NodeSet E.Env E.Hash.KeyHash a.environment) s handle
        (result_map (λ made. (made.handle, made.was_unpinned)) result) t) }
    ensures shares { IfOk result
        (λ made. IfKnown (A.known_state access.new) (λ s. Shares arc_value s made.handle made.shared)) }
    ensures keyed { IfOk result (λ made. IsShareKeyed (values_at E.Node.NodeSet E.Env E.Hash.KeyHash
        (A.acting access.old).environment) made.read_from made.shared) }
{
    match access.begin_pin(handle)? {
        StartedPin::Pinned(pinned, was_unpinned, shared) => Ok(MadePin {
            handle: pinned,
            was_unpinned,
            shared,
            read_from: None,
        }),
        StartedPin::Load(load, key, node_type) => {
            let mut reading = Reading::new(alloc, load, key, node_type, true);
            match reading.run(access, alloc) {
                LoadOutcome::Pinned(pinned, read) => Ok(ended_pin(access, pinned, key, read)),
                LoadOutcome::Refused(e) => Err(e),
                LoadOutcome::Read(_) => unreachable!(),
            }
        }
    }
}

// Unpins a loose handle again if it was unpinned before. Ignores an error, which says that a cell
// can't be listed for page-out.
fn unpin_again<E: Env<Node: NodeSet<E>>, A: Access<E>>(
    access: &mut A,
    handle: HandleNumber,
    was_unpinned: bool,
)
    requires caller { (A.acting access.old).me ≡ Owner.Caller }
    ensures { Acts A.known_state A.acting access.old access.new
        (λ a s t. Unpins (values_at E.Node.NodeSet E.Env E.Hash.KeyHash a.environment) was_unpinned handle s t) }
{
    if was_unpinned {
        let _told = access.unpin(handle);
    }
}

/// Pins a loose handle's cell for the caller, loading its value if it isn't in memory, and returns
/// the new pin with the shared value. The access has to be the caller's. Whatever the storage does,
/// a value that the pin has read is what the blob of its key reads as.
///
/// # Errors
///
/// Each error leaves handles and counts as before.
///
/// - those of `Access::begin_pin`.
/// - those of a load's steps.
/// - `OutOfMemory` if the value can't be shared.
/// - `NoSuchHandle` if an access that doesn't tell its state finds the new pin gone.
pub fn pin_with_state_over<E: Env<Node: NodeSet<E>>, A: Access<E>>(
    access: &mut A,
    alloc: Global,
    handle: HandleNumber,
) -> Result<CellPin<E::Node>, Error>
    requires caller { (A.acting access.old).me ≡ Owner.Caller }
    ensures acts { Acts A.known_state A.acting access.old access.new
        (λ a s t. PinsOver (values_at E.Node.NodeSet E.Env E.Hash.KeyHash a.environment) s handle
        (result_map (λ pin. (pin.handle, arc_value pin.value)) result) t) }
    ensures keyed { IfOk result (λ pin. IsPinKeyed (values_at E.Node.NodeSet E.Env E.Hash.KeyHash
        (A.acting access.old).environment) pin.read_from (arc_value pin.value)) }
{
    let MadePin {
        handle: pinned,
        was_unpinned,
        shared,
        read_from,
    } = pin_with_load(access, alloc, handle)?;
    let refused = match shared {
        Ok(Some(value)) => {
            return Ok(CellPin {
                handle: pinned,
                value,
                was_unpinned,
                read_from,
            });
        }
        Ok(None) => Error::NoSuchHandle,
        Err(e) => e,
    };
    unpin_again(access, handle, was_unpinned);
    let _told = access.release(pinned);
    Err(refused)
}

/// Does what `pin_with_state_over` does, and returns only the new Pinned handle and the shared
/// value.
///
/// # Errors
///
/// - those of `pin_with_state_over`.
pub fn pin_over<E: Env<Node: NodeSet<E>>, A: Access<E>>(
    access: &mut A,
    alloc: Global,
    handle: HandleNumber,
) -> Result<(HandleNumber, Arc<E::Node>), Error>
    requires caller { (A.acting access.old).me ≡ Owner.Caller }
    ensures { Acts A.known_state A.acting access.old access.new
        (λ a s t. PinsOver (values_at E.Node.NodeSet E.Env E.Hash.KeyHash a.environment) s handle
        (result_map (λ a. (a.0, arc_value a.1)) result) t) }
{
    let pin = pin_with_state_over(access, alloc, handle)?;
    Ok((pin.handle, pin.value))
}

/// Reads a key as a value of this type, with all that is loaded with it. The caller owns the
/// handles of its references. The access has to be the caller's.
///
/// # Errors
///
/// - those of `Access::load_key` and of a load's steps: nothing is left of the load.
#[tactic(auto, using(crate::proofs::LoadSteps::acts_map, crate::proofs::PinsAndReads::key_refused))]
pub fn read_over<E: Env<Node: NodeSet<E>>, A: Access<E>>(
    access: &mut A,
    alloc: Global,
    key: DataKey,
    node_type: u32,
) -> Result<E::Node, Error>
    requires caller { (A.acting access.old).me ≡ Owner.Caller }
    ensures keyed { IfOk result (IsKeyed (values_at E.Node.NodeSet E.Env E.Hash.KeyHash
        (A.acting access.old).environment) key node_type) }
    ensures acts { Acts A.known_state A.acting access.old access.new
        (λ a s t. ReadsOver (values_at E.Node.NodeSet E.Env E.Hash.KeyHash a.environment) s key node_type result t) }
{
    let load = access.load_key(key)?;
    let mut reading = Reading::new(alloc, load, key, node_type, false);
    match reading.run(access, alloc) {
        LoadOutcome::Read(value) => Ok(value),
        LoadOutcome::Refused(e) => Err(e),
        LoadOutcome::Pinned(_, _) => unreachable!(),
    }
}
