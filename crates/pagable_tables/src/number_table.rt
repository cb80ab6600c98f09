//! Rows by their numbers, for numbers that are given out in order and never again: each number has
//! its own place, and a look-up takes two steps.

ghost use Rattle.indexmap.specs.IndexMap.{get};
ghost use Rattle.pagable_tables.specs.NumberTable.{chunk_capacity, place_at, row_by, row_in};
ghost use Rattle.std.specs.{
  Prelude.{IsSome, None, Ok, OnOk, Option, Some, option_copied, slice_get, vec_capacity, vec_len, ℕ, [], ◌%◌, ◌&&◌},
  Prelude.{◌+◌, ◌/◌, ◌<◌, ◌==◌, ◌||◌, ◌≡◌, ◌≢◌, ◌≤◌},
};

use std::alloc::{AllocError, Global};

/// Rows by their numbers, in chunks of 256 places. A chunk grows when a place is reserved. When a
/// row is removed, its chunk loses the places behind the last row that is left, and frees its
/// memory if no row is left. The vector of chunks takes 24 bytes for each 256 numbers up to the
/// greatest that was ever reserved.
#[derive(Drop)]
pub struct NumberTable<T> {
    pub(crate) chunks: Vec<Vec<Option<T>>>,
    alloc: Global,
}

/// Returns the chunk of this number.
pub(crate) fn chunk_of(number: u64) -> usize
    ensures { result ≡ number / 256 }
{
    (number / 256) as usize
}

/// Returns the place of this number in its chunk.
pub(crate) fn place_of(number: u64) -> usize
    ensures { result ≡ number % 256 }
{
    (number % 256) as usize
}

/// Grows a chunk to at least `many` places. Fails with AllocError if it can't grow.
fn add_places<T: Drop>(rows: &mut Vec<Option<T>>, many: usize) -> Result<(), AllocError>
    ensures there { OnOk result ((p : ℕ) → p < many → IsSome (slice_get rows.new.items p)) }
    ensures rows { (p : ℕ) → row_in rows.new.items p ≡ row_in rows.old.items p }
{
    if rows.len() < many {
        rows.resize_with(
            many,
            || -> Option<T>
                ensures { result ≡ None }
            { None },
        )?;
    }
    Ok(())
}

/// Removes the places behind the chunk's last row of its 256, and frees its memory if it has no
/// row.
fn trim<T: Drop>(rows: &mut Vec<Option<T>>)
    ensures rows { (p : ℕ) → p < 256 → row_in rows.new.items p ≡ row_in rows.old.items p }
    ensures freed { ((p : ℕ) → p < 256 → row_in rows.old.items p ≡ None) → vec_capacity rows.new ≡ 0 }
{
    let mut end = rows.len().min(256);
    while end > 0 && rows[end - 1].is_none() {
        end -= 1;
    }
    rows.truncate(end);
    if end == 0 {
        rows.shrink_to_fit();
    }
}

impl<T: Drop> NumberTable<T> {
    /// Makes a table without a row. It takes no memory.
    #[tactic(auto, unfolding(crate::specs::NumberTable::place_at, crate::specs::NumberTable::row_by))]
    pub fn new(alloc: Global) -> NumberTable<T>
        ensures { (n : ℕ) → row_by result n ≡ None }
    {
        NumberTable {
            chunks: Vec::new(alloc),
            alloc,
        }
    }

    /// Finds the row of this number.
    #[tactic(auto, unfolding(crate::specs::NumberTable::place_at, crate::specs::NumberTable::row_by))]
    pub fn get(&self, number: u64) -> Option<&T>
        ensures { option_copied result ≡ row_by self.now number }
    {
        let rows = self.chunks.get(chunk_of(number))?;
        rows.get(place_of(number))?.as_ref()
    }

    /// Makes chunks until there are `many`. Fails with AllocError if the vector of chunks can't
    /// grow.
    #[tactic(auto, unfolding(crate::specs::NumberTable::place_at, crate::specs::NumberTable::row_by))]
    fn add_chunks(&mut self, many: usize) -> Result<(), AllocError>
        ensures there { OnOk result (many ≤ vec_len self.new.chunks) }
        ensures rows { (n : ℕ) → row_by self.new n ≡ row_by self.old n }
    {
        let alloc = self.alloc;
        if self.chunks.len() < many {
            self.chunks.resize_with(
                many,
                || -> Vec<Option<T>>
                    ensures { result.items ≡ [] }
                { Vec::new(alloc) },
            )?;
        }
        Ok(())
    }

    /// Makes the place of this number ready for a row.
    ///
    /// # Errors
    ///
    /// - `AllocError` if the table can't grow: its rows are unchanged.
    #[tactic(auto, unfolding(crate::specs::NumberTable::place_at, crate::specs::NumberTable::row_by))]
    pub fn reserve(&mut self, number: u64) -> Result<(), AllocError>
        ensures ready { OnOk result (IsSome (place_at self.new number)) }
        ensures rows { (n : ℕ) → row_by self.new n ≡ row_by self.old n }
    {
        let chunk = chunk_of(number);
        self.add_chunks(chunk + 1)?;
        add_places(&mut self.chunks[chunk], place_of(number) + 1)
    }

    /// Stores a row at the place of this number, which `reserve` made ready.
    #[tactic(auto, unfolding(crate::specs::NumberTable::place_at, crate::specs::NumberTable::row_by))]
    pub fn put(&mut self, number: u64, row: T)
        requires { IsSome (place_at self.old number) }
        ensures here { row_by self.new number ≡ Some row }
        ensures others { (q : ℕ) → q ≢ number → row_by self.new q ≡ row_by self.old q }
    {
        let rows = &mut self.chunks[chunk_of(number)];
        rows[place_of(number)] = Some(row);
    }

    /// Removes and returns the row of this number, if there is one. Its place stays.
    #[tactic(auto, unfolding(crate::specs::NumberTable::place_at, crate::specs::NumberTable::row_by))]
    fn take(&mut self, number: u64) -> Option<T>
        ensures value { result ≡ row_by self.old number }
        ensures here { row_by self.new number ≡ None }
        ensures others { (q : ℕ) → q ≢ number → row_by self.new q ≡ row_by self.old q }
        ensures ready { IsSome result → IsSome (place_at self.new number) }
    {
        let rows = self.chunks.get_mut(chunk_of(number))?;
        rows.get_mut(place_of(number))?.take()
    }

    /// Removes and returns the row of this number, if there is one. Frees the memory of its chunk
    /// if no row is left there.
    #[tactic(auto, unfolding(crate::specs::NumberTable::place_at, crate::specs::NumberTable::row_by))]
    pub fn remove(&mut self, number: u64) -> Option<T>
        ensures value { result ≡ row_by self.old number }
        ensures here { row_by self.new number ≡ None }
        ensures others { (q : ℕ) → q ≢ number → row_by self.new q ≡ row_by self.old q }
        ensures freed { IsSome result → ((q : ℕ) → q / 256 ≡ number / 256 → row_by self.new q ≡ None)
            → chunk_capacity self.new number ≡ 0 }
    {
        let row = self.take(number)?;
        trim(&mut self.chunks[chunk_of(number)]);
        Some(row)
    }
}
