//! The live handles in the order of their numbers, found by binary search. A dead row stays in its
//! place until no live row is behind it, or more than half of the rows are dead.

ghost use Rattle.indexmap.specs.IndexMap.{get};
ghost use Rattle.pagable_pager_spec.specs.{
  Basics.{changed, is_in},
  Calls.{is_named_by, moved, room_of},
  Cascade.{left_rows, only_handle},
  Kinds.{find_row, is_handle},
  LoadCalls.numbers_of,
  declared.handle_row.{HandleRow.HandleRow, Owner.Owner},
};
ghost use Rattle.pagable_tables.specs.{
  CascadeInvariant.{BoundsWorkerHandles, IsSoundInCascade, is_value_owner, owns_nothing},
  HandleTable.{AreCounted, AreSound, Becomes, IsBefore, IsNext, Widens, alive, live, room},
  declared.{cascade.RefCounts.RefCounts, place.Place.Place},
};
ghost use Rattle.std.specs.{
  List.{AllPairs, Sorted.IsPartitionPoint},
  Prelude.{IfNone, IfSome, None, Ok, OnErr, OnOk, Option, Some, false, get_or, length, slice_get, sum_by, true},
  Prelude.{vec_capacity, vec_len, ℕ, [], ◌&&◌, ◌*◌, ◌++◌, ◌+◌, ◌<◌, ◌==◌, ◌∷◌, ◌≡◌, ◌≤◌},
};

use crate::place::Place;
use pagable_pager_spec::handle_row::{HandleRow, Owner};
use pagable_value_spec::{ArcRef, HandleNumber};
use std::alloc::AllocError;

/// A live row and its index in the vector.
#[derive(Clone, Copy)]
pub struct HandleAt {
    pub place: usize,
    pub row: HandleRow,
}

/// The handles, in the order of their numbers, with the number of dead rows (`AreSound`).
#[derive(Drop)]
pub struct Handles {
    pub places: Vec<Place>,
    pub dead: usize,
}

/// Returns how many rows have numbers up to this one, by binary search.
pub fn count_up_to(places: &[Place], number: u64) -> usize
    requires { AllPairs IsBefore places.now }
    ensures within { result ≤ length places.now }
    ensures point { IsPartitionPoint (λ (p : Place). p.row.number.0 ≤ number) (λ (p : Place). number < p.row.number.0)
        places.now result }
{
    places.partition_point(|place| place.number() <= number)
}

/// Returns an index from which on all rows have numbers above `number`: the end if `guess` isn't
/// below it, `guess` if the row there has a number above `number`, else what a binary search finds.
pub fn index_above(places: &[Place], number: u64, guess: usize) -> usize
    requires { AllPairs IsBefore places.now }
    ensures within { result ≤ length places.now }
    ensures above { (k : ℕ) (d : Place) → result ≤ k → k < length places.now
        → number < (get_or places.now k d).row.number.0 }
{
    if guess >= places.len() {
        return places.len();
    }
    if places[guess].number() <= number {
        return count_up_to(places, number);
    }
    guess
}

/// Returns the live handle of this number if its row is at this index.
#[tactic(auto, using(crate::proofs::HandleTable::looks))]
fn live_handle_at(places: &[Place], place: usize, number: u64) -> Option<HandleAt>
    requires { AllPairs IsBefore places.now }
    ensures none { IfNone result ((p : Place) → slice_get places.now place ≡ Some p → p.row.number.0 ≡ number
        → p.is_live ≡ false) }
    ensures place { IfSome result (λ at. slice_get places.now at.place ≡ Some (alive at.row)) }
    ensures found { IfSome result (λ at. find_row number (live places.now) ≡ Some at.row) }
    ensures number { IfSome result (λ at. at.row.number.0 ≡ number) }
{
    let found = places.get(place)?;
    if found.number() != number || !found.is_live() {
        return None;
    }
    let row = found.row();
    Some(HandleAt { place, row })
}

/// Returns the live handle of this number if its row is at one of two indexes: where it is if no
/// number between the first row's and this one is missing, or none between this and the last row's.
fn look_at_guesses(places: &[Place], number: u64) -> Option<HandleAt>
    requires { AllPairs IsBefore places.now }
    ensures place { IfSome result (λ at. slice_get places.now at.place ≡ Some (alive at.row)) }
    ensures found { IfSome result (λ at. find_row number (live places.now) ≡ Some at.row) }
    ensures number { IfSome result (λ at. at.row.number.0 ≡ number) }
{
    let above = number.checked_sub(places.first()?.number())?;
    if let Some(at) = live_handle_at(places, above as usize, number) {
        return Some(at);
    }
    let end = places.len() - 1;
    let back = places[end].number().saturating_sub(number) as usize;
    live_handle_at(places, end.saturating_sub(back), number)
}

/// Returns the live handle of this number, with its index: after one or two looks if a guess of
/// `look_at_guesses` is right, else by binary search.
#[tactic(auto, using(crate::proofs::HandleTable::looks))]
#[inline(always)]
pub fn find_live(handles: &Handles, number: HandleNumber) -> Option<HandleAt>
    requires { AreSound handles.now }
    ensures none { IfNone result (find_row number.0 (live handles.now.places.items) ≡ None) }
    ensures place { IfSome result (λ at. slice_get handles.now.places.items at.place ≡ Some (alive at.row)) }
    ensures found { IfSome result (λ at. find_row number.0 (live handles.now.places.items) ≡ Some at.row) }
    ensures number { IfSome result (λ at. at.row.number ≡ number) }
{
    if let Some(at) = look_at_guesses(&handles.places, number.0) {
        return Some(at);
    }
    let last = count_up_to(&handles.places, number.0).checked_sub(1)?;
    live_handle_at(&handles.places, last, number.0)
}

/// Returns how many handles can still be pushed even if no memory is left.
pub fn room_of(handles: &Handles) -> usize
    requires { AreSound handles.now }
    ensures { result ≡ room handles.now }
{
    handles.places.capacity() - (handles.places.len() - handles.dead)
}

/// Removes all dead rows, in place.
fn compact(handles: &mut Handles)
    requires { AreCounted handles.old }
    ensures becomes { Becomes handles.old (live handles.old.places.items) handles.new }
    ensures none_dead { handles.new.dead ≡ 0 }
{
    handles.places.retain(|place| place.is_live());
    handles.dead = 0;
}

/// Removes the dead rows at the end, so that a search from the end meets few of them; and all dead
/// rows if more than half are dead.
#[tactic(auto, using(crate::proofs::HandleTable::ends))]
fn remove_dead_rows(handles: &mut Handles)
    requires { AreCounted handles.old }
    ensures { Becomes handles.old (live handles.old.places.items) handles.new }
{
    let mut end = handles.places.len();
    while end > 0 && !handles.places[end - 1].is_live() {
        end -= 1;
    }
    handles.dead -= handles.places.len() - end;
    handles.places.truncate(end);
    if handles.dead > handles.places.len() - handles.dead {
        compact(handles);
    }
}

/// Marks the handle as dead, and may remove dead rows. Indexes that were got before aren't valid
/// afterwards.
#[tactic(auto, using(crate::proofs::HandleTable::places))]
pub fn mark_dead(handles: &mut Handles, at: HandleAt)
    requires sound { AreSound handles.old }
    requires place { slice_get handles.old.places.items at.place ≡ Some (alive at.row) }
    ensures becomes { Becomes handles.old (left_rows (only_handle at.row.number) (live handles.old.places.items))
        handles.new }
    ensures sums { (f : HandleRow → ℕ) → sum_by f (live handles.new.places.items) + f at.row
        ≡ sum_by f (live handles.old.places.items) }
{
    handles.places[at.place] = Place::new(at.row, false);
    handles.dead += 1;
    remove_dead_rows(handles);
}

/// Replaces the handle's row by another one of the same number.
#[tactic(auto, using(crate::proofs::HandleTable::places))]
pub fn replace_row(handles: &mut Handles, at: HandleAt, row: HandleRow)
    requires sound { AreSound handles.old }
    requires place { slice_get handles.old.places.items at.place ≡ Some (alive at.row) }
    requires number { row.number ≡ at.row.number }
    ensures becomes { Becomes handles.old (changed (is_handle at.row.number.0) (λ _. row)
        (live handles.old.places.items)) handles.new }
    ensures sums { (f : HandleRow → ℕ) → sum_by f (live handles.new.places.items) + f at.row
        ≡ sum_by f (live handles.old.places.items) + f row }
{
    handles.places[at.place] = Place::new(row, true);
}

/// Says whether a handle can be pushed without a request for memory and without moving others.
pub fn has_place(handles: &Handles) -> bool
    ensures { result ≡ true → vec_len handles.now.places < vec_capacity handles.now.places }
{
    handles.places.len() < handles.places.capacity()
}

/// Makes room for one more row: grows the vector, or, if it can't grow, removes the dead rows.
/// Fails with AllocError if the vector can't grow and has no dead row.
fn make_room(handles: &mut Handles) -> Result<(), AllocError>
    requires { AreSound handles.old }
    ensures widens { Widens handles.old handles.new }
    ensures ok { OnOk result (vec_len handles.new.places < vec_capacity handles.new.places) }
    ensures full { OnErr result (vec_capacity handles.old.places ≤ length (live handles.old.places.items)) }
{
    let Err(refused) = handles.places.reserve(1) else {
        return Ok(());
    };
    if handles.dead == 0 {
        return Err(refused);
    }
    compact(handles);
    Ok(())
}

/// Adds a handle, whose number is above all others.
///
/// # Errors
///
/// - `AllocError` if the vector is full of live rows and can't grow: the handles are unchanged.
#[tactic(auto, using(crate::proofs::HandleTable::pushes))]
pub fn push(handles: &mut Handles, row: HandleRow) -> Result<(), AllocError>
    requires sound { AreSound handles.old }
    requires next { IsNext row.number.0 handles.old.places.items }
    ensures sound { AreSound handles.new }
    ensures rows { OnOk result (live handles.new.places.items ≡ live handles.old.places.items ++ row ∷ []) }
    ensures err { OnErr result (live handles.new.places.items ≡ live handles.old.places.items) }
    ensures full { OnErr result (vec_capacity handles.old.places ≤ length (live handles.old.places.items)) }
    ensures capacity { vec_capacity handles.old.places ≤ vec_capacity handles.new.places }
    ensures next { OnOk result (IsNext (row.number.0 + 1) handles.new.places.items) }
    ensures err_next { OnErr result (IsNext row.number.0 handles.new.places.items) }
{
    make_room(handles)?;
    handles.places.push(Place::new(row, true)).unwrap();
    Ok(())
}

/// Reserves places for `more` handles.
///
/// # Errors
///
/// - `AllocError` if the vector can't grow and has fewer free places: the live handles are
///   unchanged.
pub fn reserve(handles: &mut Handles, more: usize) -> Result<(), AllocError>
    requires { AreSound handles.old }
    ensures widens { Widens handles.old handles.new }
    ensures ok { OnOk result (more ≤ room handles.new) }
    ensures err { OnErr result (room handles.new < more) }
{
    if room_of(handles) < more {
        compact(handles);
        handles.places.reserve(more)?;
    }
    Ok(())
}

/// Makes `owner` the handle's owner.
pub fn hand_over(handles: &mut Handles, at: HandleAt, owner: Owner)
    requires sound { AreSound handles.old }
    requires place { slice_get handles.old.places.items at.place ≡ Some (alive at.row) }
    ensures becomes { Becomes handles.old (moved (only_handle at.row.number) owner (live handles.old.places.items))
        handles.new }
    ensures keeps_sound { (t : RefCounts) → is_value_owner at.row.owner ≡ false → is_value_owner owner ≡ false
        → BoundsWorkerHandles (moved (only_handle at.row.number) owner (live handles.old.places.items)) t.nodes
        → IsSoundInCascade (record t { handles = handles.old }) [] owns_nothing
        → IsSoundInCascade (record t { handles = handles.new }) [] owns_nothing }
    ensures sums { (f : HandleRow → ℕ) → sum_by f (live handles.new.places.items) + f at.row
        ≡ sum_by f (live handles.old.places.items) + f (record at.row { owner = owner }) }
{
    let row = HandleRow { owner, ..at.row };
    replace_row(handles, at, row);
}

/// Makes `owner` the owner of the handle of this number, if it is live.
fn hand_over_live(handles: &mut Handles, handle: HandleNumber, owner: Owner)
    requires { AreSound handles.old }
    ensures { Becomes handles.old (moved (only_handle handle) owner (live handles.old.places.items)) handles.new }
{
    if let Some(at) = find_live(handles, handle) {
        hand_over(handles, at, owner);
    }
}

/// Makes `owner` the owner of each live handle that these references name.
#[tactic(auto, using(crate::proofs::SameViews::naming))]
pub fn hand_over_all(handles: &mut Handles, references: &[ArcRef], owner: Owner)
    requires { AreSound handles.old }
    ensures { Becomes handles.old (moved (is_named_by references.now) owner
        (live handles.old.places.items)) handles.new }
{
    for reference in references {
        hand_over_live(handles, reference.handle, owner);
    }
}

/// Makes `owner` the owner of each live handle of these numbers.
#[tactic(auto, using(crate::proofs::SameViews::handing))]
pub fn hand_over_each(handles: &mut Handles, named: &[HandleNumber], owner: Owner)
    requires { AreSound handles.old }
    ensures { Becomes handles.old (moved (is_in (numbers_of named.now)) owner (live handles.old.places.items))
        handles.new }
{
    for handle in named {
        hand_over_live(handles, *handle, owner);
    }
}
