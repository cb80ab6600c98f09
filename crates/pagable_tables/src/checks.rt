//! The checks of a call's handles, references and load. They change nothing.

ghost use Rattle.pagable_pager_spec.specs.{
  Basics.{if_there, is_in},
  Calls.is_named_by,
  Kinds.{find_row, fits_mode, is_owner},
  LoadCalls.{cell_fault, hand_over_fault},
  Refusals.{OwnsLoad, earlier, handle_fault, load_fault, named_fault, reference_fault, references_fault, refused_if},
  Refusals.row_fault,
  Workers.claim_fault,
  World.{Cell, Core, OpenLoad},
  declared.{handle_row.{HandleRow.HandleRow, Owner.Owner}, mode.Mode.Mode},
};
ghost use Rattle.pagable_tables.specs.{
  Core.{IsWhole, StorageView, core_alone, core_of, load_in, seen},
  HandleTable.{AreSound, alive, live},
  Indexes.load_at,
  declared.load_table.LoadRow.LoadRow,
};
ghost use Rattle.pagable_value_spec.specs.declared.numbers.LoadNumber.{LoadNumber};
ghost use Rattle.std.specs.{
  Option.option_map,
  Prelude.{Bool, IfErr, IfOk, List, None, Ok, Option, Some, false, if◌then◌else◌, length, not, slice_get, true, ℕ, []},
  Prelude.{◌<◌, ◌==◌, ◌||◌, ◌≡◌, ◌≤◌},
};
ghost use Rattle.pagable_value_spec.specs.declared.error.Error.TheVariants as errors;

use crate::handle_table::{HandleAt, Handles};
use crate::kinds::{earlier, fits_mode, is_owner};
use crate::load_table::{LoadRoot, LoadRow};
use crate::nodes::has_type_of;
use crate::tables::Tables;
use crate::{handle_table, load_table, nodes};
use pagable_pager_spec::handle_row::{HandleRow, Owner};
use pagable_value_spec::{ArcRef, Error, HandleNumber, LoadNumber};

/// Returns the handle of this number, with its index, if `me` owns it.
///
/// # Errors
///
/// - `NoSuchHandle` if the handle isn't live.
/// - `NotYours` if another owns it.
#[inline(always)]
pub fn find_owned(t: &Tables, me: Owner, handle: HandleNumber) -> Result<HandleAt, Error>
    requires { IsWhole t.now }
    ensures place { IfOk result (λ at. slice_get t.now.ref_counts.handles.places.items at.place ≡ Some (alive at.row)) }
    ensures found { IfOk result (λ at. find_row handle.0 (live t.now.ref_counts.handles.places.items) ≡ Some at.row) }
    ensures number { IfOk result (λ at. at.row.number ≡ handle) }
    ensures owner { IfOk result (λ at. is_owner me at.row.owner ≡ true) }
    ensures fault { IfErr result (λ e. (storage : StorageView) (fits : Mode → Bool)
        → handle_fault (core_of t.now storage) me handle fits ≡ Some e) }
{
    let at = handle_table::find_live(&t.ref_counts.handles, handle).ok_or(Error::NoSuchHandle)?;
    if !is_owner(me, at.row.owner) {
        return Err(Error::NotYours);
    }
    Ok(at)
}

/// Says whether one of these references names the handle. All handles that they name have numbers
/// from `lowest` to `highest`, so a handle outside of these bounds needs no search: references
/// are checked in linear time if their handles ascend or descend.
#[tactic(auto, using(crate::proofs::SameViews::naming))]
fn is_named(references: &[ArcRef], lowest: u64, highest: u64, handle: HandleNumber) -> bool
    requires below { (q : ℕ) → q < lowest → is_named_by references.now q ≡ false }
    requires above { (q : ℕ) → highest < q → is_named_by references.now q ≡ false }
    ensures { result ≡ is_named_by references.now handle.0 }
{
    if handle.0 < lowest || handle.0 > highest {
        return false;
    }
    for reference in references {
        if reference.handle.0 == handle.0 {
            return true;
        }
    }
    false
}

/// Returns why a reference whose handle has this row is refused, if it is. `is_anothers` says that
/// the caller may not use the handle.
fn row_fault(t: &Tables, row: HandleRow, reference: ArcRef, is_anothers: bool) -> Option<Error>
    ensures { result ≡ row_fault (core_alone t.now) reference (refused_if is_anothers errors.NotYours) row }
{
    if row.node.0 != reference.node.0 {
        return Some(Error::NoSuchHandle);
    }
    if is_anothers {
        return Some(Error::NotYours);
    }
    if !fits_mode(reference.kind, row.mode) {
        return Some(Error::WrongMode);
    }
    let counts = nodes::counts_of(&t.ref_counts.nodes, reference.node.0);
    (!has_type_of(counts, reference.kind)).then_some(Error::WrongKind)
}

/// Returns why a reference of a value is refused, if it is. `is_seen` says that an earlier
/// reference named the same handle.
fn reference_fault(t: &Tables, me: Owner, reference: ArcRef, is_seen: bool) -> Option<Error>
    requires { IsWhole t.now }
    ensures { (storage : StorageView) (seen : List ℕ) → is_in seen reference.handle.0 ≡ is_seen → result
        ≡ reference_fault (core_of t.now storage) me seen reference }
{
    let Some(at) = handle_table::find_live(&t.ref_counts.handles, reference.handle) else {
        return Some(Error::NoSuchHandle);
    };
    row_fault(t, at.row, reference, !is_owner(me, at.row.owner) | is_seen)
}

/// Returns why a worker can't claim what a reference names, or None if it can. The owner of the
/// handle doesn't matter.
pub fn claim_fault(t: &Tables, reference: ArcRef) -> Option<Error>
    requires { IsWhole t.now }
    ensures { (storage : StorageView) → result ≡ claim_fault (core_of t.now storage) reference }
{
    match handle_table::find_live(&t.ref_counts.handles, reference.handle) {
        Some(at) => row_fault(t, at.row, reference, false),
        None => Some(Error::NoSuchHandle),
    }
}

/// Returns why the references of a value are refused: the error of the first reference that has
/// one. `NoSuchHandle` if its handle isn't live or is of another node; `NotYours` if another than
/// `me` owns it, or an earlier reference names it; `WrongMode` if its mode isn't the kind's;
/// `WrongKind` if its node's type isn't the kind's.
#[tactic(auto, using(crate::proofs::SameViews::naming))]
pub fn references_fault(t: &Tables, me: Owner, references: &[ArcRef]) -> Option<Error>
    requires { IsWhole t.now }
    ensures { (storage : StorageView) → result ≡ references_fault (core_of t.now storage) me [] references.now }
{
    let mut lowest = u64::MAX;
    let mut highest = 0;
    for i in 0..references.len() {
        let reference = references[i];
        let is_seen = is_named(&references[..i], lowest, highest, reference.handle);
        if let Some(e) = reference_fault(t, me, reference, is_seen) {
            return Some(e);
        }
        lowest = lowest.min(reference.handle.0);
        highest = highest.max(reference.handle.0);
    }
    None
}

/// Returns why this owner can't use the load of this row, if it can't: `NoSuchHandle` without a
/// row, `NotYours` if another began the load.
pub fn load_fault(row: Option<LoadRow>, me: Owner) -> Option<Error>
    ensures { result ≡ if_there (λ (load : OpenLoad). refused_if (not (is_owner me load.owner)) errors.NotYours)
        (Some errors.NoSuchHandle) (option_map load_in row) }
{
    match row {
        Some(row) => (!is_owner(me, row.owner)).then_some(Error::NotYours),
        None => Some(Error::NoSuchHandle),
    }
}

/// Returns `WrongMode` if the load of this row is of a cell: only a load of a key hands handles
/// over.
pub fn cell_fault(row: Option<LoadRow>) -> Option<Error>
    ensures { result ≡ if_there (λ (load : OpenLoad). cell_fault load.root) None (option_map load_in row) }
{
    matches!(row?.root, LoadRoot::Cell(_, _, _)).then_some(Error::WrongMode)
}

/// Says whether one of the first `place` handles of the list has this number. All of them have
/// numbers from `lowest` to `highest`.
#[tactic(auto, using(crate::proofs::SameViews::handing))]
fn is_among_first(
    named: &[HandleNumber],
    place: usize,
    lowest: u64,
    highest: u64,
    number: u64,
) -> bool
    requires within { place ≤ length named.now }
    requires below { (q : ℕ) → q < lowest → is_in (seen named.now place) q ≡ false }
    requires above { (q : ℕ) → highest < q → is_in (seen named.now place) q ≡ false }
    ensures { result ≡ is_in (seen named.now place) number }
{
    if number < lowest || number > highest {
        return false;
    }
    for at in 0..place {
        if named[at].0 == number {
            return true;
        }
    }
    false
}

/// Returns why this owner can't hand over one handle of a list, if it can't: `NoSuchHandle` if the
/// handle isn't live, `NotYours` if it is another's, or if the list named it before (`is_seen`).
fn hand_over_one_fault(
    handles: &Handles,
    owner: Owner,
    handle: HandleNumber,
    is_seen: bool,
) -> Option<Error>
    requires { AreSound handles.now }
    ensures { result ≡ if_there (λ (row : HandleRow). refused_if (not (is_owner owner row.owner) || is_seen)
        errors.NotYours) (Some errors.NoSuchHandle) (find_row handle.0 (live handles.now.places.items)) }
{
    let Some(at) = handle_table::find_live(handles, handle) else {
        return Some(Error::NoSuchHandle);
    };
    (!is_owner(owner, at.row.owner) | is_seen).then_some(Error::NotYours)
}

/// Returns why this owner can't hand over all handles that are named, if it can't: `NoSuchHandle`
/// if one isn't live, else `NotYours` if one is another's or is named twice.
#[tactic(auto, using(crate::proofs::SameViews::handing))]
pub fn named_fault(handles: &Handles, owner: Owner, named: &[HandleNumber]) -> Option<Error>
    requires { AreSound handles.now }
    ensures { (w : Core) → w.rows ≡ live handles.now.places.items → result ≡ named_fault w owner [] named.now }
{
    let mut fault = None;
    let mut lowest = u64::MAX;
    let mut highest = 0;
    for i in 0..named.len() {
        let handle = named[i];
        let is_seen = is_among_first(named, i, lowest, highest, handle.0);
        fault = earlier(fault, hand_over_one_fault(handles, owner, handle, is_seen));
        lowest = lowest.min(handle.0);
        highest = highest.max(handle.0);
    }
    fault
}

/// Returns why a load of a key can't hand over the handles that are named, if it can't.
#[inline(always)]
pub(crate) fn hand_over_fault(
    t: &Tables,
    me: Owner,
    load: LoadNumber,
    named: &[HandleNumber],
) -> Option<Error>
    requires { IsWhole t.now }
    ensures { (storage : StorageView) → result ≡ hand_over_fault (core_of t.now storage) me load named.now }
{
    let first = load_fault(load_table::load_of(&t.loads, load.0), me);
    let cell = cell_fault(load_table::load_of(&t.loads, load.0));
    let owned = named_fault(&t.ref_counts.handles, Owner::Load(load), named);
    earlier(first, earlier(cell, owned))
}

/// Returns the row of an open load that `me` began.
///
/// # Errors
///
/// - `NoSuchHandle` if no such load is open.
/// - `NotYours` if another began it.
#[inline(always)]
pub fn load_row(t: &Tables, me: Owner, load: LoadNumber) -> Result<LoadRow, Error>
    ensures row { IfOk result (λ row. load_at t.now.loads load.0 ≡ Some row) }
    ensures own { IfOk result (λ row. (storage : StorageView)
        → OwnsLoad (core_of t.now storage) me load (load_in row)) }
    ensures fault { IfErr result (λ e. (storage : StorageView) → load_fault (core_of t.now storage) me load ≡ Some e) }
{
    let row = load_table::load_of(&t.loads, load.0).ok_or(Error::NoSuchHandle)?;
    if !is_owner(me, row.owner) {
        return Err(Error::NotYours);
    }
    Ok(row)
}
