//! Finds the kinds of the references that a blob of a load will ask for before these are got, by
//! two trial reads with stand-ins for the missing references: the first notes what the reader asks
//! for, and the second checks the last kind, with all references before it.

ghost use Rattle.pagable_load.specs.{
  AccessView.{IfKnown, values_at},
  Decoding.{IfValue, InnermostRemovedIf, KeptIfKindAt, Needs, NeedsNext, RowFits, RowsStayFit, rows_of},
  Frames.frames_of,
  ResolvedReferences.AreStandIns,
};
ghost use Rattle.pagable_pager_spec.specs.{Basics.Types, Pager.HoldsPinned};
ghost use Rattle.std.specs.Prelude.{IfSome, IsSome, false, length, true, [], ◌++◌, ◌∷◌, ◌≡◌, ◌⊎◌};

use crate::access::Access;
use crate::decoding::{Decoded, decode, read_with_references, stand_in_for};
use crate::reading::{Need, Reading, is_read_at_once, value_of, values_of};
use pagable_codec::{Env, NodeSet};
use pagable_value_spec::{ArcRef, DataKey, Kind};
use std::alloc::Global;
use std::mem::replace;

/// The kinds of the references that a load's blobs will ask for. Each blob has a row: at each place
/// of the row stands a reference, or a stand-in for one, of the kind that the blob asks for there.
/// A row says nothing of what comes after its end.
#[derive(Drop)]
pub struct Lookahead {
    /// The row of the innermost blob.
    pub top: Vec<ArcRef>,
    /// The rows of the blobs below the innermost one, the root's first.
    pub below: Vec<Vec<ArcRef>>,
}

impl Lookahead {
    /// Makes the `Lookahead` that knows nothing: its rows are empty.
    #[tactic(auto, using(crate::proofs::Batches::leaving))]
    pub(crate) fn new(alloc: Global) -> Lookahead
        ensures { rows_of result ≡ [] ∷ [] }
    {
        Lookahead {
            top: Vec::new(alloc),
            below: Vec::new(alloc),
        }
    }

    // Adds an empty row for a new innermost blob. If memory runs out, forgets the rows of the blobs
    // below.
    fn add_row(&mut self, alloc: Global)
        ensures top { self.new.top.items ≡ [] }
        ensures below { (self.new.below.items ≡ self.old.below.items ++ self.old.top ∷ [])
            ⊎ (self.new.below.items ≡ []) }
    {
        let row = replace(&mut self.top, Vec::new(alloc));
        if self.below.push(row).is_err() {
            self.below.clear();
        }
    }

    // Removes the innermost blob's row if that blob was read.
    #[tactic(auto, using(crate::proofs::Batches::leaving))]
    fn remove_innermost_row_if(&mut self, alloc: Global, was_read: bool)
        ensures { InnermostRemovedIf was_read (rows_of self.old) (rows_of self.new) }
    {
        if !was_read {
            return;
        }
        let Some(row) = self.below.pop() else {
            self.top = Vec::new(alloc);
            return;
        };
        self.top = row;
    }

    // Keeps the innermost blob's row if it has this kind at this place, and empties it otherwise.
    // The blob has just got a reference of the kind there.
    fn keep_row_if_kind_at(&mut self, place: usize, kind: Kind)
        ensures top { KeptIfKindAt place kind self.old.top.items self.new.top.items }
        ensures below { self.new.below ≡ self.old.below }
    {
        let row = self.top.as_slice();
        if place >= row.len() || row[place].kind.0 != kind.0 {
            self.top.clear();
        }
    }
}

// Returns whether all of these are stand-ins.
fn are_stand_ins(noted: &[ArcRef]) -> bool
    ensures { result ≡ true → AreStandIns (length noted.now) noted.now }
{
    for reference in noted {
        if reference.handle.0 != 0 {
            return false;
        }
    }
    true
}

impl Reading {
    // Finds the row of the innermost blob by two trial reads, with the values of the references
    // that the blob has got. Returns None if the reads find no row, or memory runs out.
    fn plan_batch<E: Env<Node: NodeSet<E>>, A: Access<E>>(
        &self,
        access: &A,
        alloc: Global,
    ) -> Option<Vec<ArcRef>>
        ensures { IfSome result (λ row. RowFits (values_at E.Node.NodeSet E.Env E.Hash.KeyHash
            (A.acting access.now).environment).types (frames_of self.now.top self.now.below.items) row.items) }
    {
        let Some(top) = &self.top else {
            return None;
        };
        let blob = top.blob.as_ref();
        let got = top.got.as_slice();
        let lent = values_of::<E, A>(access, alloc, got).ok()?;
        // (A reader may ask for something else than the blob's encoding says, so nothing that it
        // notes is trusted.)
        let noting = Some(Vec::new(alloc));
        let (_read, noted) = read_with_references(
            access,
            alloc,
            blob,
            top.node_type,
            got,
            lent.as_slice(),
            noting,
        );
        let mut noted = noted?;
        let last = noted.pop()?;
        // (A stand-in has no value.)
        let none = value_of::<E, A>(access, stand_in_for(Kind(0))).ok()?;
        if none.is_some() || !are_stand_ins(noted.as_slice()) {
            return None;
        }
        let mut row = Vec::new(alloc);
        if row.extend_from_slice(got).is_err() || row.extend_from_slice(noted.as_slice()).is_err() {
            return None;
        }
        let next = decode(
            access,
            alloc,
            blob,
            top.node_type,
            row.as_slice(),
            lent.as_slice(),
        );
        let Decoded::Wants(kind, _) = next else {
            return None;
        };
        if kind.0 == last.kind.0 && row.push(last).is_ok() {
            return Some(row);
        }
        None
    }

    /// Fills `row`, if it is empty, with the references that the innermost blob has got, and then
    /// stand-ins, of the same kinds, for those that it will ask for. Two trial reads find them.
    /// Leaves `row` as it is if trial reads aren't likely to save others, or find nothing.
    pub(crate) fn plan_batch_if_useful<E: Env<Node: NodeSet<E>>, A: Access<E>>(
        &self,
        access: &A,
        alloc: Global,
        row: &mut Vec<ArcRef>,
    )
        requires { RowFits (values_at E.Node.NodeSet E.Env E.Hash.KeyHash (A.acting access.now).environment).types
            (frames_of self.now.top self.now.below.items) row.old.items }
        ensures { RowFits (values_at E.Node.NodeSet E.Env E.Hash.KeyHash (A.acting access.now).environment).types
            (frames_of self.now.top self.now.below.items) row.new.items }
    {
        let Some(top) = &self.top else {
            return;
        };
        let got = top.got.as_slice();
        let left = top.blob.as_ref().arcs.len().saturating_sub(got.len());
        // (Trial reads are likely to save others if nothing or a loose reference was got last, and
        // at least four references are left.)
        if !row.is_empty() || left < 4 || got.last().map_or(false, |r| is_read_at_once(r.kind)) {
            return;
        }
        if let Some(found) = self.plan_batch(access, alloc) {
            *row = found;
        }
    }

    // Returns the kind and key of the reference that the load needs next, if the row reaches as far
    // as this reference.
    fn next_by_row(&self, row: &[ArcRef]) -> Option<(Kind, DataKey)>
        ensures tells { IfSome result (λ k. (types : Types)
            → RowFits types (frames_of self.now.top self.now.below.items) row.now
            → NeedsNext types (frames_of self.now.top self.now.below.items) k.0 k.1) }
        ensures top { IfSome result (λ k. IsSome self.now.top) }
    {
        let Some(top) = &self.top else {
            return None;
        };
        let place = top.got.len();
        let keys = top.blob.as_ref().arcs.as_slice();
        if place >= keys.len() || place >= row.len() {
            return None;
        }
        Some((row[place].kind, keys[place]))
    }

    /// Returns what the load needs next: the next reference of `row`, or, if the row ends before
    /// it, what `next_need` finds by reading the innermost blob. Beside its references, a value
    /// that was read holds only values that their handles pin.
    #[tactic(auto, using(crate::proofs::LoadSteps::tells_all))]
    pub(crate) fn find_next_need<E: Env<Node: NodeSet<E>>, A: Access<E>>(
        &self,
        access: &A,
        alloc: Global,
        row: &[ArcRef],
    ) -> Need<E::Node>
        requires { RowFits (values_at E.Node.NodeSet E.Env E.Hash.KeyHash (A.acting access.now).environment).types
            (frames_of self.now.top self.now.below.items) row.now }
        ensures holds { IfKnown (A.known_state access.now) (λ s. IfValue result
            (HoldsPinned (values_at E.Node.NodeSet E.Env E.Hash.KeyHash (A.acting access.now).environment) s)) }
        ensures needs { Needs (values_at E.Node.NodeSet E.Env E.Hash.KeyHash (A.acting access.now).environment) self.now
            result }
    {
        let Some((kind, key)) = self.next_by_row(row) else {
            return self.next_need::<E, A>(access, alloc);
        };
        if is_read_at_once(kind) {
            return Need::Nested(kind, key);
        }
        Need::Lazy(kind, key)
    }

    /// Updates the rows of `ahead` after a step that got what the load needed: removes the row of a
    /// blob that was read, adds an empty row for a new blob, and empties the row of a blob that got
    /// a reference of another kind than its row says.
    pub(crate) fn update_rows(&self, alloc: Global, ahead: &mut Lookahead, was_read: bool)
        ensures { RowsStayFit was_read (frames_of self.now.top self.now.below.items) (rows_of ahead.old)
            (rows_of ahead.new) }
    {
        ahead.remove_innermost_row_if(alloc, was_read);
        let Some(top) = &self.top else {
            return;
        };
        let got = top.got.as_slice();
        if got.is_empty() {
            ahead.add_row(alloc);
            return;
        }
        let last = got.len() - 1;
        ahead.keep_row_if_kind_at(last, got[last].kind);
    }
}
