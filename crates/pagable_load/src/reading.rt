//! The progress of a load: the blobs that it reads, what it needs next, and the values of the
//! references that it has got, which the reader of the innermost blob can borrow.

ghost use Rattle.pagable_core.specs.Data.{blob_of};
ghost use Rattle.pagable_load.specs.{
  AccessView.{IfKnown, values_at},
  Decoding.{IfValue, Needs, is_adoption},
  Frames.{frame_of, frames_of, frames_onto, reading_of},
  LoadSteps.{IsSameLoad, TakenOff, TakenTwo},
  ResolvedReferences.{AreLoose, Lends, LendsEach},
};
ghost use Rattle.pagable_pager_spec.specs.{Loads.{handles_of, nested_frame, root_frame}, Pager.HoldsPinned};
ghost use Rattle.pagable_value_spec.specs.Height.{is_eager, longest_path};
ghost use Rattle.std.specs.{
  Arc.arc_value,
  Option.option_map,
  Prelude.{IfErr, IfOk, IsSome, OnOk, length, true, vec_capacity, vec_len, [], ◌++◌, ◌<◌, ◌^◌, ◌∷◌, ◌≡◌, ◌≤◌},
};

use crate::access::Access;
use crate::decoding::{Decoded, decode};
use pagable_codec::{Env, NodeSet};
use pagable_core::PagableData;
use pagable_value_spec::{ArcRef, DataKey, Error, HandleNumber, Kind, LoadNumber};
use std::alloc::Global;
use std::sync::Arc;

/// A blob that a load is reading: the kind that its node will have, its key, the type of its value,
/// and the references that were got for it so far, in the order in which they are read.
#[derive(Drop)]
pub struct Frame {
    pub kind: Kind,
    pub key: DataKey,
    pub node_type: u32,
    pub blob: Arc<PagableData>,
    pub got: Vec<ArcRef>,
}

impl Frame {
    /// Makes the frame of a root's blob. A root becomes no node of its own, so its kind has no
    /// meaning.
    pub fn of_root(alloc: Global, key: DataKey, node_type: u32, blob: Arc<PagableData>) -> Frame
        ensures { frame_of result ≡ root_frame key node_type (blob_of (arc_value blob)) }
    {
        Frame {
            kind: Kind(3),
            key,
            node_type,
            blob,
            got: Vec::new(alloc),
        }
    }
}

/// The progress of a load: its number, the key and the type of its root, whether it is a load of a
/// cell, the blobs that it reads, and how many steps it has made.
#[derive(Drop)]
pub struct Reading {
    pub load: LoadNumber,
    pub key: DataKey,
    pub node_type: u32,
    pub for_cell: bool,
    /// The innermost blob; None before the root's is fetched, and after the load's end.
    pub top: Option<Frame>,
    /// The blobs that wait, each for the value of the next one, the root's first.
    pub below: Vec<Frame>,
    pub steps: u64,
}

/// What a load needs next.
#[derive(Drop)]
pub enum Need<N: Drop> {
    /// The blob of the load's own key.
    Root,
    /// A reference that is loaded with the value: a node of the cache, or a blob.
    Nested(Kind, DataKey),
    /// A loose reference, which isn't loaded.
    Lazy(Kind, DataKey),
    /// A node of this value, which was read from the innermost blob.
    Adopt(N),
    /// Nothing more: this is the root's value, for the cell or the caller.
    End(N),
    /// Nothing more: the innermost blob can't be read, and the load fails with this error.
    Refuse(Error),
}

/// How a load has ended.
#[derive(Drop)]
pub enum LoadOutcome<N: Drop> {
    /// A load of a cell: the new Pinned handle, and the value if the cell has got the one that was
    /// read. None if the cell had its value already.
    Pinned(HandleNumber, Option<Arc<N>>),
    /// A load of a key: the value.
    Read(N),
    /// The load was refused with this error.
    Refused(Error),
}

impl<N: Drop> Need<N> {
    /// Returns whether the innermost blob was read and becomes a node.
    pub(crate) fn is_adoption(&self) -> bool
        ensures { result ≡ is_adoption self.now }
    {
        matches!(self, Need::Adopt(_))
    }
}

/// Returns whether a reference of this kind is loaded with the value that holds it.
pub(crate) fn is_read_at_once(kind: Kind) -> bool
    ensures { result ≡ is_eager kind.0 }
{
    !kind.is_loose()
}

impl Reading {
    /// Makes the progress of a load that has just begun, with this key and type of its root.
    pub fn new(
        alloc: Global,
        load: LoadNumber,
        key: DataKey,
        node_type: u32,
        for_cell: bool,
    ) -> Reading
        ensures reading { reading_of result ≡ record { load = load; node_type = node_type; frames = []; steps = 0 } }
        ensures key { result.key ≡ key }
        ensures for_cell { result.for_cell ≡ for_cell }
    {
        Reading {
            load,
            key,
            node_type,
            for_cell,
            top: None,
            below: Vec::new(alloc),
            steps: 0,
        }
    }
}

/// Shares the value that a reference's handle pins. Returns None for a loose reference, and if the
/// handle pins no value or isn't live. Fails with OutOfMemory only.
#[tactic(auto, using(crate::proofs::Lending::sharing))]
#[inline(always)]
pub(crate) fn value_of<E: Env<Node: NodeSet<E>>, A: Access<E>>(
    access: &A,
    reference: ArcRef,
) -> Result<Option<Arc<E::Node>>, Error>
    ensures lends { IfKnown (A.known_state access.now) (λ s. IfOk result
        (λ found. Lends s reference (option_map arc_value found))) }
    ensures only { IfErr result (λ e. e ≡ Error.OutOfMemory) }
{
    if !is_read_at_once(reference.kind) {
        return Ok(None);
    }
    match access.share(reference.handle) {
        Ok(found) => Ok(found),
        Err(e) => match e {
            Error::OutOfMemory => Err(e),
            _ => Ok(None),
        },
    }
}

// Returns whether all of these references are loose, so that none is loaded with its holder.
fn are_read_later(got: &[ArcRef]) -> bool
    ensures { result ≡ true → AreLoose (length got.now) got.now }
{
    for reference in got {
        if is_read_at_once(reference.kind) {
            return false;
        }
    }
    true
}

// Returns what `value_of` returns for each of these references, in their order; an empty list if
// all of them are loose. Fails with OutOfMemory only.
#[inline(always)]
pub(crate) fn values_of<E: Env<Node: NodeSet<E>>, A: Access<E>>(
    access: &A,
    alloc: Global,
    got: &[ArcRef],
) -> Result<Vec<Option<Arc<E::Node>>>, Error>
    ensures lends { IfKnown (A.known_state access.now)
        (λ s. IfOk result (λ lent. LendsEach arc_value s got.now lent.items)) }
    ensures only { IfErr result (λ e. e ≡ Error.OutOfMemory) }
{
    let mut lent = Vec::new(alloc);
    if are_read_later(got) {
        return Ok(lent);
    }
    for reference in got {
        let value = value_of::<E, A>(access, *reference)?;
        lent.push(value)?;
    }
    Ok(lent)
}

impl Reading {
    /// Returns what the load needs next. It reads the innermost blob from its front, with the
    /// values of the references that were got for it, and changes nothing. If there is no memory
    /// to share these values, it returns `Refuse`. A value that was read holds, beside its
    /// references, the values that their handles pin.
    #[tactic(auto, using(crate::proofs::LoadSteps::needing, crate::proofs::LoadSteps::tells_all))]
    #[inline(always)]
    pub fn next_need<E: Env<Node: NodeSet<E>>, A: Access<E>>(
        &self,
        access: &A,
        alloc: Global,
    ) -> Need<E::Node>
        ensures holds { IfKnown (A.known_state access.now) (λ s. IfValue result
            (HoldsPinned (values_at E.Node.NodeSet E.Env E.Hash.KeyHash (A.acting access.now).environment) s)) }
        ensures needs { Needs (values_at E.Node.NodeSet E.Env E.Hash.KeyHash (A.acting access.now).environment) self.now
            result }
    {
        let Some(top) = &self.top else {
            return Need::Root;
        };
        let blob = top.blob.as_ref();
        let got = top.got.as_slice();
        let lent = match values_of::<E, A>(access, alloc, got) {
            Ok(lent) => lent,
            Err(e) => return Need::Refuse(e),
        };
        match decode(access, alloc, blob, top.node_type, got, lent.as_slice()) {
            Decoded::Refused(e) => Need::Refuse(e),
            Decoded::Wants(kind, key) => {
                if is_read_at_once(kind) {
                    Need::Nested(kind, key)
                } else {
                    Need::Lazy(kind, key)
                }
            }
            Decoded::Read(value) => {
                if !self.below.is_empty() {
                    return Need::Adopt(value);
                }
                Need::End(value)
            }
        }
    }
}

// ---- the blobs of a load: the innermost apart from those that wait for it

impl Reading {
    /// Takes the innermost blob off, and reserves room for one more reference in it, and in `below`
    /// for one more blob that waits. Fails with OutOfMemory only.
    #[inline(always)]
    pub(crate) fn pop_frame(&mut self) -> Result<Frame, Error>
        requires { IsSome self.old.top }
        ensures ok { IfOk result (λ top. TakenOff self.old self.new top) }
        ensures only { IfErr result (λ e. e ≡ Error.OutOfMemory) }
        ensures same { IsSameLoad self.old self.new self.old.steps }
    {
        let mut top = self.top.take().unwrap();
        top.got.reserve(1)?;
        self.below.reserve(1)?;
        Ok(top)
    }

    /// Takes the innermost blob and the one below it off, and reserves room for one more reference
    /// in the lower one. Fails with OutOfMemory only.
    #[tactic(auto, using(crate::proofs::LoadSteps::stacking))]
    #[inline(always)]
    pub(crate) fn pop_two_frames(&mut self) -> Result<(Frame, Frame), Error>
        requires top { IsSome self.old.top }
        requires below { 0 < length self.old.below.items }
        ensures ok { IfOk result (λ two. TakenTwo self.old self.new two.0 two.1) }
        ensures only { IfErr result (λ e. e ≡ Error.OutOfMemory) }
        ensures same { IsSameLoad self.old self.new self.old.steps }
    {
        let top = self.top.take().unwrap();
        let mut under = self.below.pop().unwrap();
        under.got.reserve(1)?;
        Ok((top, under))
    }

    /// Makes `top` the innermost blob again, and appends `reference` to those that were got for it.
    #[inline(always)]
    pub(crate) fn push_resolved(&mut self, mut top: Frame, reference: ArcRef)
        requires { vec_len top.got < vec_capacity top.got }
        ensures gets { frames_of self.new.top self.new.below.items
            ≡ record (frame_of top) { got = top.got.items ++ reference ∷ [] } ∷ frames_onto [] self.old.below.items }
        ensures same { IsSameLoad self.old self.new self.old.steps }
    {
        top.got.push(reference).unwrap();
        self.top = Some(top);
    }

    /// Makes the root's blob the innermost one, with no other below it.
    #[tactic(auto, using(crate::proofs::LoadSteps::stacking))]
    pub(crate) fn put_root(&mut self, alloc: Global, blob: Arc<PagableData>)
        ensures few { length (blob_of (arc_value blob)).keys < 2 ^ 63 }
        ensures root { frames_of self.new.top self.new.below.items
            ≡ root_frame self.old.key self.old.node_type (blob_of (arc_value blob)) ∷ [] }
        ensures same { IsSameLoad self.old self.new self.old.steps }
    {
        // (by this call the proof knows that the references are fewer than 2^63)
        let _count = blob.as_ref().arcs.len();
        self.below.clear();
        self.top = Some(Frame::of_root(alloc, self.key, self.node_type, blob));
    }

    /// Makes a reference's blob the innermost, above the one that asked for it. Fails with TooDeep
    /// if it would be the 129th below the root.
    #[tactic(auto, using(crate::proofs::LoadSteps::stacking))]
    #[inline(always)]
    pub(crate) fn put_blob(
        &mut self,
        alloc: Global,
        top: Frame,
        kind: Kind,
        key: DataKey,
        blob: Arc<PagableData>,
    ) -> Result<(), Error>
        requires { vec_len self.old.below < vec_capacity self.old.below }
        ensures ok { OnOk result (frames_of self.new.top self.new.below.items
            ≡ nested_frame kind key (blob_of (arc_value blob)) ∷ frame_of top ∷ frames_onto [] self.old.below.items) }
        ensures few { length (blob_of (arc_value blob)).keys < 2 ^ 63 }
        ensures short { OnOk result (length self.old.below.items < longest_path) }
        ensures deep { IfErr result (λ e. e ≡ Error.TooDeep) }
        ensures long { IfErr result (λ e. longest_path ≤ length self.old.below.items) }
        ensures same { IsSameLoad self.old self.new self.old.steps }
    {
        // (by this call the proof knows that the references are fewer than 2^63)
        let _count = blob.as_ref().arcs.len();
        if self.below.len() >= 128 {
            return Err(Error::TooDeep);
        }
        self.below.push(top).unwrap();
        self.top = Some(Frame {
            kind,
            key,
            node_type: kind.node_type(),
            blob,
            got: Vec::new(alloc),
        });
        Ok(())
    }
}

/// Collects the handles of references, in order. Fails with OutOfMemory only.
pub(crate) fn collect_handles(
    alloc: Global,
    references: &[ArcRef],
) -> Result<Vec<HandleNumber>, Error>
    ensures ok { IfOk result (λ handles. handles.items ≡ handles_of references.now) }
    ensures only { IfErr result (λ e. e ≡ Error.OutOfMemory) }
{
    let mut handles = Vec::with_capacity(alloc, references.len())?;
    for reference in references {
        handles.push(reference.handle)?;
    }
    Ok(handles)
}
