//! Pins on a lent pager, which load the value if it isn't in memory. Their clauses hold as long as
//! the storage is honest afterwards.

ghost use Rattle.pagable_core.specs.Data.{blob_of};
ghost use Rattle.pagable_load.specs.{
  AccessView.{Acts, IfKnown, values_at},
  Frames.{frames_of, reading_of},
  Keyed.{FramesKeyed, IsEndKeyed, IsPinKeyed},
  Outcomes.GivesValue,
  declared.reading.LoadOutcome.LoadOutcome,
};
ghost use Rattle.pagable_pager.specs.{
  Leaf.{EndsCellLoad, SharesOrUndoes, rooted_reading},
  View.BetweenIfHonest,
};
ghost use Rattle.pagable_pager_spec.specs.{Access.PinsOver, World.result_map};
ghost use Rattle.std.specs.{Arc.arc_value, Prelude.{IfOk, IsTrue, true, ◌≡◌}};

use crate::lent::{Lent, PinnedAway};
use crate::pager::Pager;
use pagable_codec::{Env, NodeSet};
use pagable_core::{PagableData, PagableStorage};
use pagable_load::{Access, CellPin, Frame, LoadOutcome, Reading, pin_with_state_over};
use pagable_pager_spec::handle_row::Owner;
use pagable_value_spec::{DataKey, Error, HandleNumber, LoadNumber};
use std::alloc::Global;
use std::sync::Arc;

// Makes the reading of a cell's load that has got its root's blob, by its first step.
#[tactic(auto, using(pagable_load::proofs::LoadSteps::stacking))]
pub(crate) fn reading_with_root(
    alloc: Global,
    load: LoadNumber,
    key: DataKey,
    node_type: u32,
    blob: Arc<PagableData>,
) -> Reading
    ensures reading { reading_of result ≡ rooted_reading load key node_type (blob_of (arc_value blob)) }
    ensures load { result.load ≡ load }
    ensures key { result.key ≡ key }
    ensures of_cell { result.for_cell ≡ true }
{
    let top = Frame::of_root(alloc, key, node_type, blob);
    Reading {
        load,
        key,
        node_type,
        for_cell: true,
        top: Some(top),
        below: Vec::new(alloc),
        steps: 1,
    }
}

// Makes the steps of a cell's load up to its end, and returns the new Pinned handle, and the value if
// the cell has got the one that was read.
#[tactic(auto, using(pagable_load::proofs::LoadSteps::acts_map, crate::proofs::LentPins::ending))]
pub(crate) fn read_rest<E: Env<Node: NodeSet<E>>, A: Access<E>>(
    access: &mut A,
    alloc: Global,
    mut reading: Reading,
) -> Result<(HandleNumber, Option<Arc<E::Node>>), Error>
    requires of_cell { reading.for_cell ≡ true }
    ensures acts { Acts A.known_state A.acting access.old access.new
        (λ a s t. EndsCellLoad (values_at E.Node.NodeSet E.Env E.Hash.KeyHash a.environment) a.me reading s
        (result_map (λ pin. pin.0) result) t) }
    ensures given { IfOk result
        (λ pin. IfKnown (A.known_state access.new) (λ s. GivesValue s (LoadOutcome.Pinned pin.0 pin.1))) }
    ensures keyed { IfOk result (λ pin. FramesKeyed (values_at E.Node.NodeSet E.Env E.Hash.KeyHash
        (A.acting access.old).environment) reading.key reading.node_type (frames_of reading.top reading.below.items)
        → IsEndKeyed (values_at E.Node.NodeSet E.Env E.Hash.KeyHash (A.acting access.old).environment) reading.key
        reading.node_type pin.1) }
{
    match reading.run(access, alloc) {
        LoadOutcome::Pinned(pinned, read) => Ok((pinned, read)),
        LoadOutcome::Refused(e) => Err(e),
        LoadOutcome::Read(_) => unreachable!(),
    }
}

// Shares the value of a new pin, made by a handle that was unpinned before. If the value can't be
// shared, undoes the pin. The pin and this call together do what `PinsOver` says.
fn share_or_undo<E: Env<Node: NodeSet<E>>, A: Access<E>>(
    access: &mut A,
    handle: HandleNumber,
    pinned: HandleNumber,
) -> Result<(HandleNumber, Arc<E::Node>), Error>
    requires caller { (A.acting access.old).me ≡ Owner.Caller }
    ensures { Acts A.known_state A.acting access.old access.new
        (λ a s t. SharesOrUndoes (values_at E.Node.NodeSet E.Env E.Hash.KeyHash a.environment) handle pinned s
        (result_map (λ a. (a.0, arc_value a.1)) result) t) }
{
    let refused = match access.share(pinned) {
        Ok(Some(value)) => return Ok((pinned, value)),
        Ok(None) => Error::NoSuchHandle,
        Err(e) => e,
    };
    let _told = access.unpin(handle);
    let _told = access.release(pinned);
    Err(refused)
}

// Pins as `pin_with_key` does, over a lent pager. (It is a function of its own since the borrow
// checker accepts `&mut` of a local for a parameter of type `Lent`, but not for one of any
// `Access`.)
fn pin_lent<'a, E: Env<Node: NodeSet<E>>, S: PagableStorage<E>>(
    lent: &mut Lent<'a, E, S>,
    alloc: Global,
    handle: HandleNumber,
) -> Result<CellPin<E::Node>, Error>
    requires caller { lent.old.me ≡ Owner.Caller }
    ensures pins { BetweenIfHonest E.Node.NodeSet E.Env E.Hash.KeyHash S.PagableStorage lent.old.pager.now
        lent.new.pager.now (λ v s s'. PinsOver v s handle
        (result_map (λ pin. (pin.handle, arc_value pin.value)) result) s') }
    ensures keyed { IfOk result (λ pin. IsPinKeyed (values_at E.Node.NodeSet E.Env E.Hash.KeyHash
        lent.old.pager.now.environment) pin.read_from (arc_value pin.value)) }
    ensures honest { IsTrue (S.is_honest lent.new.pager.now.storage) → IsTrue (S.is_honest lent.old.pager.now.storage) }
    ensures lender { lent.new.pager.ghost_name ≡ lent.old.pager.ghost_name }
{
    let Some(away) = lent.pin_paged_out(alloc, handle)? else {
        return pin_with_state_over(lent, alloc, handle);
    };
    let PinnedAway {
        handle: pinned,
        key,
        read,
    } = away;
    match read {
        Some(value) => Ok(CellPin {
            handle: pinned,
            value,
            was_unpinned: true,
            read_from: Some(key),
        }),
        None => {
            let (pinned, value) = share_or_undo(lent, handle, pinned)?;
            Ok(CellPin {
                handle: pinned,
                value,
                was_unpinned: true,
                read_from: None,
            })
        }
    }
}

/// Pins a loose handle's cell; if its value isn't in memory, loads it with all that is loaded with
/// it. Returns the new pin, which says under which key the value was read, if it was. Whatever the
/// storage does, a value that was read is what a blob of that hash reads as.
///
/// # Errors
///
/// Each error leaves the handle as it was, and no load open.
///
/// - those of `Pager::begin_pin` and of a load's steps.
/// - `OutOfMemory` if the value can't be shared.
pub fn pin_with_key<E: Env<Node: NodeSet<E>>, S: PagableStorage<E>>(
    alloc: Global,
    pager: &mut Pager<E, S>,
    handle: HandleNumber,
) -> Result<CellPin<E::Node>, Error>
    ensures pins { BetweenIfHonest E.Node.NodeSet E.Env E.Hash.KeyHash S.PagableStorage pager.old pager.new
        (λ v s s'. PinsOver v s handle (result_map (λ pin. (pin.handle, arc_value pin.value)) result) s') }
    ensures keyed { IfOk result (λ pin. IsPinKeyed (values_at E.Node.NodeSet E.Env E.Hash.KeyHash
        pager.old.environment) pin.read_from (arc_value pin.value)) }
    ensures honest { IsTrue (S.is_honest pager.new.storage) → IsTrue (S.is_honest pager.old.storage) }
{
    let mut lent = Lent::new(pager);
    pin_lent(&mut lent, alloc, handle)
}

/// Does what `pin_with_key` does, and returns only the Pinned handle and the shared value.
///
/// # Errors
///
/// - those of `pin_with_key`.
pub fn pin<E: Env<Node: NodeSet<E>>, S: PagableStorage<E>>(
    alloc: Global,
    pager: &mut Pager<E, S>,
    handle: HandleNumber,
) -> Result<(HandleNumber, Arc<E::Node>), Error>
    ensures pins { BetweenIfHonest E.Node.NodeSet E.Env E.Hash.KeyHash S.PagableStorage pager.old pager.new
        (λ v s s'. PinsOver v s handle (result_map (λ a. (a.0, arc_value a.1)) result) s') }
    ensures honest { IsTrue (S.is_honest pager.new.storage) → IsTrue (S.is_honest pager.old.storage) }
{
    let pin = pin_with_key(alloc, pager, handle)?;
    Ok((pin.handle, pin.value))
}
