//! A pager that runs lists of events.

ghost use Rattle.pagable_calls.specs.Driving.{Runs, machine_in};
ghost use Rattle.pagable_load.specs.AccessView.{values_at};
ghost use Rattle.pagable_pager.specs.View.{pager_core, pager_state};
ghost use Rattle.pagable_pager_spec.specs.Pager.{IsIdle, IsNew};
ghost use Rattle.pagable_theorems.specs.{PageOutLaws.NobodyWorks, SmallWorlds.StartsWell};
ghost use Rattle.std.specs.Prelude.{IfErr, IfOk, IsTrue, OnErr, ◌≡◌};

use crate::events;
use crate::workers::LoadsAndWorkers;
use indexmap::IndexMap;
use pagable_codec::{Env, NodeSet};
use pagable_core::{PagableData, PagableStorage, SerializedData};
use pagable_pager::Pager;
use pagable_pager_spec::{Event, EventReply};
use pagable_value_spec::Error;
use std::alloc::Global;
use std::collections::VecDeque;
use std::marker::Model;
use std::sync::Arc;

/// A pager that runs lists of events: calls, and loads and page-out workers by steps.
#[derive(Drop)]
pub struct Machine<E: Env<Node: NodeSet<E>>, S: PagableStorage<E>> {
    pager: Pager<E, S>,
    // Its loads, tables and workers.
    held: LoadsAndWorkers<E>,
}

impl<E: Env<Node: NodeSet<E>>, S: PagableStorage<E>> Model for Machine<E, S> {
    ghost use Rattle.std.specs.Coded.{codes};
    ghost use Rattle.{pagable_calls.specs.Driving.{HeldFitsPager, MachineView, view_of}, indexmap.specs.Layout.hash_map_code};

    ghost Value = { MachineView E.Node S E };

    ghost coded = { Prim.hlevel (codes, hash_map_code) };

    ghost view = { λ m. view_of m.pager m.held };

    ghost invariant = { λ m. HeldFitsPager S.PagableStorage m.pager m.held };
}

impl<E: Env<Node: NodeSet<E>>, S: PagableStorage<E>> Machine<E, S> {
    /// Makes a machine over a pager for which no worker is running (`Pager::is_at_rest`). None is
    /// running between two calls, since a page-out by one call ends its workers. The call takes no
    /// memory.
    pub fn new(alloc: Global, pager: Pager<E, S>) -> Machine<E, S>
        requires nobody { NobodyWorks (pager_core S.PagableStorage pager) }
        ensures pager { result.pager ≡ pager }
        ensures idle { IsIdle (machine_in S.PagableStorage result) }
    {
        Machine {
            pager,
            held: LoadsAndWorkers {
                readings: IndexMap::new(alloc),
                tables: Vec::new(alloc),
                walks: IndexMap::new(alloc),
            },
        }
    }

    /// Makes a machine over a new pager, over a storage as it is. It takes no memory. Runs that
    /// begin at this machine meet what the main theorem (`Headline`) asks of their start.
    pub fn over(alloc: Global, storage: S, env: E) -> Machine<E, S>
        ensures empty { IsNew (pager_state S.PagableStorage result.pager) }
        ensures starts { StartsWell (values_at E.Node.NodeSet E.Env E.Hash.KeyHash env)
            (machine_in S.PagableStorage result) }
        ensures storage { result.pager.storage ≡ storage }
        ensures environment { result.pager.environment ≡ env }
    {
        Machine::new(alloc, Pager::new(alloc, storage, env))
    }

    /// Lends the pager, to look at its values between two runs.
    pub fn pager(&self) -> &Pager<E, S>
        ensures { result.now ≡ self.now.pager }
    {
        &self.pager
    }

    /// Runs the events in their order, and returns one reply for each.
    ///
    /// The events and replies are a run of the definitions (`Runs`), and the main theorem
    /// (`Headline`) holds of them, together with the events that led from an idle machine to this
    /// one: each event is one step that keeps the machine's invariant (`IsMachineWhole`), and if
    /// the events meet what is asked of them, every node keeps its tree, and each pin returns a
    /// value that stands for its node's tree. All of it holds as long as no wrong answer of the
    /// storage was taken as true (`PagableStorage::is_honest`), which is always so in memory.
    ///
    /// # Errors
    ///
    /// - `OutOfMemory` with the events, if the replies can't get memory: no event has run.
    pub fn run(
        &mut self,
        alloc: Global,
        events: Vec<Event<E::Node, PagableData, SerializedData>>,
    ) -> Result<
        Vec<EventReply<E::Node, Arc<PagableData>, Arc<SerializedData>>>,
        (Error, Vec<Event<E::Node, PagableData, SerializedData>>),
    >
        ensures run { IsTrue (S.is_honest self.new.pager.storage) → IfOk result (λ replies. Runs
            (values_at E.Node.NodeSet E.Env E.Hash.KeyHash self.old.pager.environment) S.PagableStorage self.old
            events.items replies.items self.new) }
        ensures honest { IsTrue (S.is_honest self.new.pager.storage) → IsTrue (S.is_honest self.old.pager.storage) }
        ensures nothing { OnErr result (self.new ≡ self.old) }
        ensures back { IfErr result (λ e. (e.0 ≡ Error.OutOfMemory) × (e.1 ≡ events)) }
    {
        let mut replies = match Vec::with_capacity(alloc, events.len()) {
            Ok(replies) => replies,
            Err(e) => return Err((Error::from(e), events)),
        };
        let mut rest = VecDeque::from_vec(events);
        while let Some(event) = rest.pop_front() {
            let reply = events::run_event(&mut self.pager, &mut self.held, alloc, event);
            replies.push_reserved(reply);
        }
        Ok(replies)
    }
}
