//! A pin of a loose handle in two parts, the beginning and the load of the cell: the caller fetches
//! the root's blob in between.

ghost use Rattle.pagable_core.specs.Data.{blob_of};
ghost use Rattle.pagable_load.specs.{
  AccessView.{Acts, IfKnown, values_at},
  Keyed.IsEndKeyed,
  Outcomes.GivesValue,
  PinStart.StartsPin,
  PolledPin.{PinsFrom, SharesBegun, start_of},
  declared.reading.LoadOutcome.LoadOutcome,
};
ghost use Rattle.pagable_pager_spec.specs.{Access.MakesCall, World.result_map};
ghost use Rattle.pagable_value_spec.specs.Blob.{key_of};
ghost use Rattle.std.specs.{Arc.arc_value, Prelude.{IfOk, ◌≡◌}};

use crate::access::{Access, StartedPin};
use crate::cell_reading::CellReading;
use crate::reading::LoadOutcome;
use pagable_codec::{Env, NodeSet};
use pagable_core::PagableData;
use pagable_value_spec::{Error, HandleNumber};
use std::alloc::Global;
use std::sync::Arc;

/// How a pin of a loose handle begins.
#[derive(Drop)]
pub enum BegunPin<N> {
    /// The value is in memory: the new Pinned handle, whether the loose handle was unpinned before,
    /// and the result of sharing the value.
    Pinned(HandleNumber, bool, Result<Option<Arc<N>>, Error>),
    /// The value is only in the storage: the load that has begun.
    Reading(CellReading),
}

/// Begins a pin of a loose handle: pins its cell if the value is in memory, and shares the value;
/// otherwise begins a load of it.
///
/// # Errors
///
/// - those of `Access::begin_pin`: nothing changes.
pub fn begin_polled_pin<E: Env<Node: NodeSet<E>>, A: Access<E>>(
    access: &mut A,
    alloc: Global,
    handle: HandleNumber,
) -> Result<BegunPin<E::Node>, Error>
    ensures starts { Acts A.known_state A.acting access.old access.new (λ a s t.
        MakesCall (values_at E.Node.NodeSet E.Env E.Hash.KeyHash a.environment)
        (λ w'. StartsPin s.core a.me handle (start_of result) w') s t) }
    ensures shares { IfOk result (λ begun. IfKnown (A.known_state access.new) (λ s. SharesBegun s begun)) }
{
    match access.begin_pin(handle)? {
        StartedPin::Pinned(pinned, was_unpinned, shared) => {
            Ok(BegunPin::Pinned(pinned, was_unpinned, shared))
        }
        StartedPin::Load(load, key, node_type) => {
            let reading = CellReading::new(alloc, load, key, node_type);
            Ok(BegunPin::Reading(reading))
        }
    }
}

impl CellReading {
    /// Reads the cell's value from the root's blob, with all that is loaded with it, ends the load
    /// and returns the new Pinned handle, and the value if the cell has got it; if not, the cell had
    /// its value already. The blob has to be the one of the reading's key. If Ok, the value was read
    /// under that key, whatever the storage does.
    ///
    /// # Errors
    ///
    /// - those of a load's steps: the load is dropped, and all that it owns is released.
    #[tactic(auto, using(crate::proofs::LoadSteps::acts_map, crate::proofs::FromRoot::rooting))]
    pub fn read<E: Env<Node: NodeSet<E>>, A: Access<E>>(
        self,
        access: &mut A,
        alloc: Global,
        blob: Arc<PagableData>,
    ) -> Result<(HandleNumber, Option<Arc<E::Node>>), Error>
        requires named { key_of E.Hash.digest (blob_of (arc_value blob)) ≡ self.reading.key }
        ensures acts { Acts A.known_state A.acting access.old access.new (λ a s t.
            PinsFrom (values_at E.Node.NodeSet E.Env E.Hash.KeyHash a.environment) a.me self.reading
            (blob_of (arc_value blob)) s (result_map (λ pin. pin.0) result) t) }
        ensures given { IfOk result
            (λ pin. IfKnown (A.known_state access.new) (λ s. GivesValue s (LoadOutcome.Pinned pin.0 pin.1))) }
        ensures keyed { IfOk result (λ pin. IsEndKeyed (values_at E.Node.NodeSet E.Env E.Hash.KeyHash
            (A.acting access.old).environment) self.reading.key self.reading.node_type pin.1) }
    {
        let mut reading = self.reading;
        reading.put_root(alloc, blob);
        match reading.run(access, alloc) {
            LoadOutcome::Pinned(pinned, read) => Ok((pinned, read)),
            LoadOutcome::Refused(e) => Err(e),
            LoadOutcome::Read(_) => unreachable!(),
        }
    }
}
