//! Reads a blob from its front, with the references that its load has got so far.

ghost use Rattle.pagable_core.specs.Data.{blob_of};
ghost use Rattle.pagable_load.specs.{
  AccessView.{IfKnown, values_at},
  Decoding.{Decodes, IfRead, ReadsWith},
  ResolvedReferences.{LendsEach, stand_in},
};
ghost use Rattle.pagable_pager_spec.specs.Pager.{HoldsPinned};
ghost use Rattle.std.specs.{Arc.arc_value, Prelude.{IfOk, None, ◌≡◌}};

use crate::access::Access;
use pagable_codec::{Env, NodeSet};
use pagable_core::{PagableData, PagableDeserializerImpl, References, SessionOf};
use pagable_value_spec::{ArcRef, DataKey, Error, HandleNumber, Kind, NodeNumber};
use std::alloc::Global;
use std::sync::Arc;

/// Returns the stand-in for a reference of this kind that the load hasn't got.
pub(crate) fn stand_in_for(kind: Kind) -> ArcRef
    ensures { result ≡ stand_in kind.0 }
{
    ArcRef {
        kind,
        node: NodeNumber(0),
        handle: HandleNumber(0),
    }
}

/// The references of one blob that a load has resolved so far (`got`), in the blob's order, as its
/// reader looks them up. A look-up of a reference that isn't resolved yet fails with
/// `Storage(kind)`, which tells `decode` what to fetch; of one that was resolved as another kind,
/// with `WrongKind`.
///
/// Only the value of the reference that was looked up last can be borrowed, from `lent`, which has
/// the values in the blob's order and may be shorter than `got`. If `noted` is Some, a look-up of
/// an unresolved reference succeeds: it appends to `noted`, and returns, a stand-in
/// (`stand_in_for`) of the kind, which has no value.
#[derive(Drop)]
pub struct ResolvedReferences<'g, E: Env<Node: NodeSet<E>>, A: Access<E>> {
    access: &'g A,
    got: &'g [ArcRef],
    lent: &'g [Option<Arc<E::Node>>],
    // The place of the reference that was looked up last.
    last: usize,
    noted: Option<Vec<ArcRef>>,
    ghost each: { ∥ IfKnown (A.known_state access.now) (λ s. LendsEach arc_value s got.now lent.now) ∥₁ },
}

impl<'g, E: Env<Node: NodeSet<E>>, A: Access<E>> References<E> for ResolvedReferences<'g, E, A> {
    ghost use Rattle.std.specs.{Option.is_some, Prelude.slice_get};
    ghost use Rattle.pagable_pager_spec.specs.Loads.{answer_of};
    ghost use Rattle.pagable_load.specs.ResolvedReferences.{found_or, lent_by, lent_there, may_refuse};

    ghost environment = { λ s. (A.acting s.access.now).environment };

    ghost answer = { λ s place key kind. answer_of (found_or (is_some s.noted) (slice_get s.got.now place) kind) kind };

    ghost lends = { λ s reference. lent_by arc_value s.got.now s.lent.now s.last reference };

    ghost lends_at = { λ s place. lent_there arc_value s.got.now s.lent.now place };

    ghost refusals = { λ s place key kind e is. may_refuse (found_or (is_some s.noted) (slice_get s.got.now place) kind)
        kind e is };

    fn env(&self) -> &E {
        self.access.env()
    }

    fn session_context(&self) -> &SessionOf<E> {
        self.access.session_context()
    }

    #[tactic(auto, using(crate::proofs::HeldByPins::lent_is, crate::proofs::HeldByPins::none_is))]
    fn reference(&mut self, place: usize, _key: DataKey, kind: Kind) -> Result<ArcRef, Error> {
        let got = self.got;
        if place < got.len() {
            let found = got[place];
            if found.kind.0 != kind.0 {
                return Err(Error::WrongKind);
            }
            self.last = place;
            return Ok(found);
        }
        let Some(noted) = &mut self.noted else {
            return Err(Error::Storage(kind.0));
        };
        let reference = stand_in_for(kind);
        let _told = noted.push(reference);
        self.last = place;
        Ok(reference)
    }

    fn shared(&self, reference: ArcRef) -> Option<&E::Node> {
        let got = self.got;
        let lent = self.lent;
        let place = self.last;
        if place >= got.len() || place >= lent.len() {
            return None;
        }
        if got[place].handle.0 != reference.handle.0 {
            return None;
        }
        match &lent[place] {
            Some(value) => Some(value.as_ref()),
            None => None,
        }
    }
}

/// What a trial to read a blob leads to.
#[derive(Drop)]
pub enum Decoded<N: Drop> {
    /// The blob was read to its end, and this is its value.
    Read(N),
    /// The reader needs the reference of this kind and key to go on.
    Wants(Kind, DataKey),
    /// The blob can't be read, for this reason.
    Refused(Error),
}

/// Reads the blob as a value of this type. `got` has the references that its load has got so far,
/// and `lent` their shared values at the same places. If `noted` is Some, each further reference
/// that the reader asks for is answered by a stand-in without a value, which is appended to
/// `noted`; if it is None, the reading fails there. Returns the reading's result, and `noted`.
pub(crate) fn read_with_references<E: Env<Node: NodeSet<E>>, A: Access<E>>(
    access: &A,
    alloc: Global,
    blob: &PagableData,
    node_type: u32,
    got: &[ArcRef],
    lent: &[Option<Arc<E::Node>>],
    noted: Option<Vec<ArcRef>>,
) -> (Result<E::Node, Error>, Option<Vec<ArcRef>>)
    requires each { IfKnown (A.known_state access.now) (λ s. LendsEach arc_value s got.now lent.now) }
    ensures asked { IfOk result.0 (λ x. E.Node.type_of x ≡ node_type) }
    ensures holds { IfKnown (A.known_state access.now) (λ s. IfOk result.0
        (HoldsPinned (values_at E.Node.NodeSet E.Env E.Hash.KeyHash (A.acting access.now).environment) s)) }
    ensures reads { noted ≡ None → ReadsWith (values_at E.Node.NodeSet E.Env E.Hash.KeyHash
        (A.acting access.now).environment) node_type (blob_of blob.now) got.now result.0 }
{
    let references = ResolvedReferences {
        access,
        got,
        lent,
        last: 0,
        noted,
    };
    let mut deserializer = PagableDeserializerImpl::new(
        blob.bytes.as_slice(),
        blob.arcs.as_slice(),
        references,
    );
    let read = E::Node::read(node_type, alloc, &mut deserializer);
    (read, deserializer.finish().noted)
}

/// Reads a blob from its front as a value of this type, with the references that its load has got
/// so far, and with their shared values, which `lent` has at the same places. Each read of the same
/// blob, type and references wants the same reference next. Beside its references, a value holds
/// only values that their handles pin.
#[tactic(auto, using(crate::proofs::LoadSteps::tells_all))]
#[inline(always)]
pub fn decode<E: Env<Node: NodeSet<E>>, A: Access<E>>(
    access: &A,
    alloc: Global,
    blob: &PagableData,
    node_type: u32,
    got: &[ArcRef],
    lent: &[Option<Arc<E::Node>>],
) -> Decoded<E::Node>
    requires each { IfKnown (A.known_state access.now) (λ s. LendsEach arc_value s got.now lent.now) }
    ensures holds { IfKnown (A.known_state access.now) (λ s. IfRead result
        (HoldsPinned (values_at E.Node.NodeSet E.Env E.Hash.KeyHash (A.acting access.now).environment) s)) }
    ensures decodes { Decodes (values_at E.Node.NodeSet E.Env E.Hash.KeyHash (A.acting access.now).environment)
        node_type (blob_of blob.now) got.now result }
{
    let (read, _) = read_with_references(access, alloc, blob, node_type, got, lent, None);
    match read {
        Ok(value) => Decoded::Read(value),
        Err(Error::Storage(kind)) => {
            let arcs = blob.arcs.as_slice();
            let place = got.len();
            if place >= arcs.len() {
                return Decoded::Refused(Error::NoMoreKeys);
            }
            Decoded::Wants(Kind(kind), arcs[place])
        }
        Err(e) => Decoded::Refused(e),
    }
}
