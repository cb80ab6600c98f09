//! Open loads by their numbers.

ghost use Rattle.indexmap.specs.IndexMap.{get};
ghost use Rattle.pagable_pager_spec.specs.{World.Cell, declared.handle_row.Owner.Owner};
ghost use Rattle.pagable_tables.specs.{Indexes.load_at, declared.load_table.LoadRow.LoadRow};
ghost use Rattle.pagable_value_spec.specs.declared.numbers.NodeNumber.{NodeNumber};
ghost use Rattle.std.specs.Prelude.{None, Ok, OnErr, OnOk, Option, Some, nat_eq, ℕ, ◌<◌, ◌≡◌, ◌≢◌};

use indexmap::IndexMap;
use pagable_pager_spec::handle_row::Owner;
use pagable_value_spec::{DataKey, HandleNumber, NodeNumber};
use std::alloc::AllocError;

/// Open loads by their numbers.
pub type Loads = IndexMap<u64, LoadRow>;

/// What a load is for.
#[derive(Clone, Copy)]
pub enum LoadRoot {
    /// The value of a cell: its node, its type, and the handle by which the load began.
    Cell(NodeNumber, u32, HandleNumber),
    /// No cell: the load is of a key alone (`load_key`), and its owner gets the value.
    Key,
}

/// An open load's row.
#[derive(Clone, Copy)]
pub struct LoadRow {
    pub owner: Owner,
    pub key: DataKey,
    pub root: LoadRoot,
    /// The last handle number that was given out before the load began: the load owns only handles
    /// of greater numbers.
    pub since: u64,
    /// Among the handles of numbers up to `Tables::noted`, the load owns none of a number above
    /// `last`.
    pub last: u64,
}

/// Returns the row of a load, None if no such load is open.
#[inline(always)]
pub fn load_of(loads: &Loads, load: u64) -> Option<LoadRow>
    ensures { result ≡ load_at loads.now load }
{
    loads.get(&load).copied()
}

/// Adds a row under a free number.
///
/// # Errors
///
/// - `AllocError` if the map can't grow: it is unchanged.
pub fn add_row<R: Copy>(rows: &mut IndexMap<u64, R>, number: u64, row: R) -> Result<(), AllocError>
    requires { get nat_eq rows.old number ≡ None }
    ensures here { OnOk result (get nat_eq rows.new number ≡ Some row) }
    ensures others { OnOk result ((q : ℕ) → q ≢ number → get nat_eq rows.new q ≡ get nat_eq rows.old q) }
    ensures err { OnErr result ((q : ℕ) → get nat_eq rows.new q ≡ get nat_eq rows.old q) }
{
    rows.insert(number, row)?;
    Ok(())
}

/// Removes the row of this number, if there is one.
pub fn remove_row<R: Copy>(rows: &mut IndexMap<u64, R>, number: u64)
    ensures gone { get nat_eq rows.new number ≡ None }
    ensures others { (q : ℕ) → q ≢ number → get nat_eq rows.new q ≡ get nat_eq rows.old q }
{
    rows.swap_remove(&number);
}
