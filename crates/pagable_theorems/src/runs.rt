//! The laws of the pager's steps and of runs: what holds of every chain of moments, however the
//! steps of loads and workers are interleaved. Each law is a clause of a function that does
//! nothing.
#![tactic(auto, using(crate::proofs::Laws::world_laws))]

ghost use Rattle.pagable_pager_spec.specs.{
  Access.{PinLaw, ReadLaw},
  Basics.Types,
  Theorem.{HeadlineLaw, OneTreeLaw},
  WorkerClaims.{KeyIsShallow, OneIdentityLaw},
  World.{Frame, Seen},
};
ghost use Rattle.pagable_theorems.specs.{
  CallerFailures.{ItemTellsDepth, ListTellsDepth, PagedOutIsPinned, PinIsDeep, PublishedIsRead, ReadIsDeep},
  CallerLaws.{CallerLaw, PinnedAgainLaw},
  DepthLaws.{ClaimIsDeep, DepthIsHeight, HoldsAlong, LoadIsDeep, LoadOfPagedOutIsFaultless, UninterruptedLoadsAreSound},
  DepthLaws.WorkerReportsDepth,
  HeldLaws.{HeldByCallersLaw, PinnedValuesAreHeld, ReadHoldsLaw, StepsKeepHeldValues},
  PageOutLaws.{ItemLaw, ListLaw},
  RefusalLaws.{BeginsRefusedLaw, LoadsRefusedLaw, PinsRefusedLaw, StorageErrorsAreTrue},
  SmallWorlds.{ChainsJoin, LoadsAloneFillCache, NewMachineIsWhole, ReadStepIsUnique, ReleaseLaws, RunsJoin},
  Witness.TwoLevelsMeetTheHeadline,
};

/// Stands for any type of values, with views of their blobs (B) and of what is written of them (W).
/// A law that is stated for `SeenAs` holds for every such type.
pub trait SeenAs<B, W>: Sized {
    // The values, and their blobs and writings as contracts see them.
    ghost seen: { Seen Self B W };
}

/// States the laws of releasing handles, that is, which other handles the cascade releases with
/// them: each field of `ReleaseLaws` is a law. Also: a blob either reads to its end, or asks for one
/// reference, or is faulty.
pub fn release_laws()
    ensures all { ReleaseLaws }
    ensures read_step_is_unique { (types : Types) (frame : Frame) → ReadStepIsUnique types frame }
{}

/// States the laws of chains of events and of new machines.
///
/// - A chain can be continued by another.
/// - So can a run of a machine that meets the headline: both together meet it.
/// - A new machine on which nobody works satisfies, if its values are lawful, what the headline
///   asks of the start: it satisfies the invariant, stands for any trees, and has no value in
///   memory.
pub fn chain_laws<N: SeenAs<B, W>, B, W, E>()
    ensures chains_join { ChainsJoin E N.seen }
    ensures runs_join { RunsJoin E N.seen }
    ensures new_machine_is_whole { NewMachineIsWhole E N.seen.values }
{}

/// States that a chain of two levels satisfies the headline and all that it asks: two inserts, a
/// page-out, an eviction, and loads of a cell and of a key.
pub fn two_levels_meet_the_headline()
    ensures { TwoLevelsMeetTheHeadline }
{}

/// States the headline, the main theorem, of every chain of events from a machine that satisfies
/// its invariant and on which nobody works yet. Given its premises, each pin that succeeds gives
/// the tree of its handle, and each page-out that succeeds stores what it met and returns its key
/// (`Headline`).
pub fn headline<N: SeenAs<B, W>, B, W, E>()
    ensures { HeadlineLaw E N.seen }
{}

/// States that a live node stands for one tree only, as long as no value in memory has two
/// meanings. So the trees that the headline says are there, after each event, can't be chosen.
pub fn live_node_has_one_tree<N: SeenAs<B, W>, B, W, E>()
    ensures { OneTreeLaw E N.seen.values }
{}

/// States the laws of paths that are too long and of values without a form.
///
/// - No worker returns a key if a path that is too long, or a value without a form (one that can't
///   be encoded), is below its task.
/// - Such a worker fails with TooDeep, if none of its steps fails otherwise or meets a failed
///   worker.
/// - A claim fails as too deep only if the worker's task leads down a path that is too long, or if
///   another worker has the identity and waits for this one.
/// - A load fails as too deep only if reading its key reaches a blob that is too deep, or one that
///   enters a level too many.
/// - For a key under which a tree of readable types is stored, reading the key reaches such a blob
///   exactly if the tree's longest path is too long.
pub fn depth_laws<N: SeenAs<B, W>, B, W, E>()
    ensures keys_are_shallow { HoldsAlong E N.seen (KeyIsShallow N.seen.values) }
    ensures workers_report_depth { HoldsAlong E N.seen (WorkerReportsDepth N.seen) }
    ensures deep_claims_have_a_cause { HoldsAlong E N.seen ClaimIsDeep }
    ensures deep_loads_have_a_cause { HoldsAlong E N.seen (LoadIsDeep N.seen.values) }
    ensures depth_is_height { DepthIsHeight }
{}

/// States the laws of loads and of what they get.
///
/// - A caller's load of a cell whose key a page-out has set fails only if numbers or memory run
///   out, if the storage or the type's own reader fails, or by a handle: never by a blob that it
///   reads, by a key or by a path.
/// - If each load begins in the chain and no load and no worker is interrupted, such a load doesn't
///   fail by a handle either.
/// - If two references are got through one cache that only loads fill, they have one identity only
///   if their kinds and keys are the same; and then they have one, if a handle of that kind held
///   the node all the time between.
/// - The cache of a new pager is such a cache, and stays one while no call clears it, puts a
///   caller's reference into it or closes the storage.
/// - The value that a load of a cell pins stands for the tree of the cell's node.
/// - The value that a load of a key returns stands for the tree that the key reads as, and the
///   caller owns its references.
pub fn load_laws<N: SeenAs<B, W>, B, W, E>()
    ensures loads_of_paged_out_are_faultless { HoldsAlong E N.seen LoadOfPagedOutIsFaultless }
    ensures loads_are_sound { UninterruptedLoadsAreSound E N.seen }
    ensures one_identity { OneIdentityLaw E N.seen }
    ensures loads_alone_fill_cache { LoadsAloneFillCache E N.seen }
    ensures pins_stand { PinLaw E N.seen.values }
    ensures readings_stand { ReadLaw E N.seen.values }
{}

/// States the laws of errors, by their numbers.
///
/// - The call `pin`, or the begin of a load, fails only with 18 to 22: the handle isn't live, is
///   another's or has another mode, or numbers or memory have run out.
/// - A load, the caller's or a worker's, fails only with 1 to 13, 15 to 23 or 26.
/// - A call, or a step of a load or a worker, fails with 23 only if the storage's count of failures
///   rose meanwhile or was at its greatest, and with 16 only if the storage had no blob under the
///   key.
pub fn refusal_laws<N: SeenAs<B, W>, B, W>()
    ensures pins { PinsRefusedLaw }
    ensures begins { BeginsRefusedLaw }
    ensures loads { LoadsRefusedLaw N.seen.values }
    ensures storage_errors_are_true { StorageErrorsAreTrue N.seen }
{}

/// States the laws of what values hold beside the references that are loaded with them.
///
/// - After any step each value in memory holds the values of its references' nodes, if each did so
///   before, and each value that the step brings into memory does.
/// - A value that holds what the handles of its references pin, as a decoded one does, holds the
///   values of their nodes, if its references have no fault.
/// - After any calls, pins, reads and page-outs each value in memory still holds these values, if
///   each value that a call of the caller brings does. Those that loads bring do.
/// - The value that a read of a key returns holds what the handles of its references pin. The
///   caller owns these handles.
pub fn held_value_laws<N: SeenAs<B, W>, B, W, E>()
    ensures steps_keep_held_values { StepsKeepHeldValues E N.seen.values }
    ensures pinned_values_are_held { PinnedValuesAreHeld E N.seen.values }
    ensures along_calls { HeldByCallersLaw E N.seen }
    ensures read { ReadHoldsLaw E N.seen.values }
{}

/// States the laws of page-out by one call, on a pager that nobody else uses, if keys, types and
/// values are as the headline asks.
///
/// - The page-out of an item on a new table, if it succeeds, leaves all that it met stored under
///   published keys, sets the keys of the cells that it met, and returns the item's key.
/// - So does each page-out of a list entry, even if that of a later entry fails.
pub fn page_out_laws<N: SeenAs<B, W>, B, W, E>()
    ensures items_are_paged_out { ItemLaw E N.seen }
    ensures entries_are_paged_out { ListLaw E N.seen }
{}

/// States the laws of a caller who makes calls of a pager, and pins, reads and page-outs by one
/// call, in any order.
///
/// - Each node keeps its tree, each pin gives it, and a value that is read under a key stands for
///   the key's tree. If a page-out returns a key, this is the key of the item or cell, and all that
///   it met is stored. The law asks that each item is paged out on a new table.
/// - So a value that is pinned again by the same handle, after any of these, stands for the same
///   tree.
pub fn caller_laws<N: SeenAs<B, W>, B, W, E>()
    ensures trees_stay { CallerLaw E N.seen }
    ensures pinned_again { PinnedAgainLaw E N.seen }
{}

/// States the laws of failures of pins, reads and page-outs by one call, on a pager that nobody
/// else uses, if keys, types and values are as the headline asks.
///
/// - What was paged out can be pinned again: if the cell of a loose handle of the caller's has a key
///   that a page-out of an item or of the list published for the cell's node, a pin by the handle
///   fails only if numbers or memory run out, or if the storage or the type's own reader fails. So
///   it is whatever the page-out returned, and whatever operations follow it.
/// - A read of such a key, as a value of the type for which it was published, fails only so too.
/// - No page-out of an item on a new table returns a key if a path that is too long, or a value
///   without a form (one that can't be encoded), is below the item. It fails with TooDeep, if none
///   of its steps fails otherwise. So it is with each entry of the list that is paged out.
/// - A pin fails with TooDeep only if the handle's cell has a key, and reading the key reaches a
///   blob that is too deep, or one that enters a level too many. The law `depth_laws` says for
///   which trees that is so.
/// - A read of a key fails with TooDeep only if reading the key reaches such a blob.
pub fn caller_failure_laws<N: SeenAs<B, W>, B, W, E>()
    ensures paged_out_is_pinned { PagedOutIsPinned E N.seen }
    ensures published_is_read { PublishedIsRead E N.seen }
    ensures items_tell_depth { ItemTellsDepth E N.seen }
    ensures entries_tell_depth { ListTellsDepth E N.seen }
    ensures deep_pins_have_a_cause { PinIsDeep E N.seen }
    ensures deep_reads_have_a_cause { ReadIsDeep E N.seen }
{}
