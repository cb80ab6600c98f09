//! Notes in each load's row the last handle that the load owns.

ghost use Rattle.pagable_pager_spec.specs.declared.handle_row.{HandleRow.HandleRow, Owner.Owner};
ghost use Rattle.pagable_tables.specs.{
  Core.{AreNoted, AreRaised, IsOwnedUpTo, IsWhole, Notes, OwnLaterHandles},
  HandleTable.AreSound,
  Indexes.load_at,
  declared.{load_table.LoadRow.LoadRow, place.Place.Place},
};
ghost use Rattle.pagable_value_spec.specs.declared.numbers.LoadNumber.{LoadNumber};
ghost use Rattle.std.specs.Prelude.{None, Some, get_or, length, ℕ, ◌<◌, ◌≡◌, ◌≤◌};

use crate::handle_table::Handles;
use crate::load_table::Loads;
use crate::tables::Tables;
use crate::{handle_table, load_table};
use pagable_pager_spec::handle_row::{HandleRow, Owner};
use pagable_value_spec::LoadNumber;

/// Raises `last` in the row of the load that owns this handle to the handle's number. Does nothing
/// if no load owns the handle.
fn note(loads: &mut Loads, handle: HandleRow)
    ensures rows { AreRaised loads.old loads.new }
    ensures last { (l : LoadNumber) (row : LoadRow) → handle.owner ≡ Owner.Load l
        → load_at loads.new l.0 ≡ Some row → handle.number.0 ≤ row.last }
{
    let Owner::Load(load) = handle.owner else {
        return;
    };
    if let Some(row) = loads.get_mut(&load.0) {
        row.last = row.last.max(handle.number.0);
    }
}

/// Returns the index from which handles have numbers above this one.
fn place_above(handles: &Handles, number: u64) -> usize
    requires { AreSound handles.now }
    ensures { (k : ℕ) (d : Place) → k < result → (get_or handles.now.places.items k d).row.number.0 ≤ number }
{
    handle_table::count_up_to(&handles.places, number)
}

/// Raises `last` in each load's row to at least the numbers of those of the load's handles that are
/// above `number`.
fn note_above(loads: &mut Loads, handles: &Handles, number: u64)
    requires { AreSound handles.now }
    ensures rows { AreRaised loads.old loads.new }
    ensures noted { AreNoted loads.new handles.now.places.items number (length handles.now.places.items) }
{
    let start = place_above(handles, number);
    for place in start..handles.places.len() {
        let found = &handles.places[place];
        note(loads, found.row());
    }
}

/// Raises `last` in the rows of loads, as `note` does, for all handles made since the last call.
fn note_all(t: &mut Tables)
    requires whole { IsWhole t.old }
    requires later { OwnLaterHandles t.old }
    ensures notes { Notes t.old t.new }
    ensures all { t.new.noted ≡ t.old.ref_counts.last_handle }
{
    note_above(&mut t.loads, &t.ref_counts.handles, t.noted);
    t.noted = t.ref_counts.last_handle;
}

/// Returns a number that no handle of the load exceeds, for a load that began after the handle
/// `since` was made. If 16 or more handles were made since then, the call first notes them in the
/// rows of the loads that own them; else it returns the last handle number that was given out.
pub fn handle_bound_of(t: &mut Tables, load: LoadNumber, since: u64) -> u64
    requires whole { IsWhole t.old }
    requires later { OwnLaterHandles t.old }
    ensures notes { Notes t.old t.new }
    ensures last { IsOwnedUpTo t.new load result }
{
    let last = t.ref_counts.last_handle;
    if last.saturating_sub(since) < 16 {
        return last;
    }
    note_all(t);
    match load_table::load_of(&t.loads, load.0) {
        Some(row) => row.last,
        None => last,
    }
}
