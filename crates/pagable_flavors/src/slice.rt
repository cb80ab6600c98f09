//! `PagableSlice`: a reader over a slice of bytes.

ghost use Rattle.pagable_flavors.specs.Calls.{Reads};
ghost use Rattle.pagable_value_spec.specs.{
  BasicValues.bytes_at,
  Numbers.byte_at,
  Outcomes.{MatchesReading, no_own_causes},
  Progress.{MovesForward, ReaderState, left},
};
ghost use Rattle.std.specs.Prelude.{OnErr, length, ◌≡◌, ◌≤◌};

mod numbers;
mod reading;

use pagable_value_spec::Error;
use std::marker::Model;

/// A reader of bytes, which allocates only in `read_string`. Contracts see all its bytes and how
/// many of them it has read.
///
/// A reading call that fails leaves the position between the old one and the end; `pop`,
/// `try_take_n` and `try_take_n_temp` leave it where it was.
#[derive(Drop)]
pub struct PagableSlice<'de> {
    bytes: &'de [u8],
    position: usize,
}

impl<'de> Model for PagableSlice<'de> {
    ghost use Rattle.pagable_value_spec.specs.Progress.{ReaderState};
    ghost use Rattle.std.specs.Prelude.{length, ◌≤◌};

    ghost Value = { ReaderState };

    ghost view = { λ r. record { all = r.bytes.now; position = r.position } };

    ghost invariant = { λ r. r.position ≤ length r.bytes.now };
}

impl<'de> PagableSlice<'de> {
    /// Creates a reader at the front of `bytes`.
    pub fn new(bytes: &'de [u8]) -> PagableSlice<'de>
        ensures { result ≡ record { all = bytes.now; position = 0 } }
    {
        PagableSlice { bytes, position: 0 }
    }

    /// Returns how many bytes have been read.
    pub fn position(&self) -> usize
        ensures place { result ≡ self.now.position }
        ensures within { result ≤ length self.now.all }
    {
        self.position
    }

    /// Moves to a position that isn't past the end, backwards or forwards.
    pub fn set_position(&mut self, position: usize)
        requires { position ≤ length self.old.all }
        ensures { self.new ≡ record self.old { position = position } }
    {
        self.position = position;
    }

    /// Returns how many bytes are left.
    pub fn size_hint(&self) -> usize
        ensures bytes { result ≡ length (left self.now) }
        ensures within { self.now.position ≤ length self.now.all }
    {
        self.bytes.len() - self.position
    }

    /// Returns the bytes that are left.
    pub fn finalize(self) -> &'de [u8]
        ensures { result.now ≡ left self.entry }
    {
        &self.bytes[self.position..]
    }

    /// Reads the next byte.
    ///
    /// # Errors
    ///
    /// - `UnexpectedEnd` if no byte is left: the position is unchanged.
    pub fn pop(&mut self) -> Result<u8, Error>
        ensures reads { Reads byte_at result self.old self.new }
        ensures err { OnErr result (self.new ≡ self.old) }
    {
        if self.position == self.bytes.len() {
            return Err(Error::UnexpectedEnd);
        }
        let byte = self.bytes[self.position];
        self.position += 1;
        Ok(byte)
    }

    /// Reads the next `count` bytes without copying them.
    ///
    /// # Errors
    ///
    /// - `UnexpectedEnd` if fewer are left: the position is unchanged.
    pub fn try_take_n(&mut self, count: usize) -> Result<&'de [u8], Error>
        ensures gives { MatchesReading no_own_causes (λ b. (b.now, left self.new)) result
            (bytes_at count (left self.old)) }
        ensures moves { MovesForward self.old self.new }
        ensures err { OnErr result (self.new ≡ self.old) }
    {
        if count > self.bytes.len() - self.position {
            return Err(Error::UnexpectedEnd);
        }
        let taken = &self.bytes[self.position..self.position + count];
        self.position += count;
        Ok(taken)
    }

    /// Does what `try_take_n` does.
    pub fn try_take_n_temp(&mut self, count: usize) -> Result<&'de [u8], Error>
        ensures gives { MatchesReading no_own_causes (λ b. (b.now, left self.new)) result
            (bytes_at count (left self.old)) }
        ensures moves { MovesForward self.old self.new }
        ensures err { OnErr result (self.new ≡ self.old) }
    {
        self.try_take_n(count)
    }
}
