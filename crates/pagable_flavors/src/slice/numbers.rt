//! Reads varints byte by byte.

ghost use Rattle.pagable_flavors.specs.Calls.{Reads};
ghost use Rattle.pagable_value_spec.specs.{
  Numbers.{byte_at, varint_at, varint_limit},
  Outcomes.{MatchesReading, no_own_causes},
  Progress.{MovesForward, left},
};
ghost use Rattle.std.specs.Prelude.{IfOk, MatchOption, drop, length, ◌<◌, ◌^◌, ◌≡◌, ◌≤◌};

use super::PagableSlice;
use pagable_value_spec::Error;

// Returns the number at the front and how many bytes it takes: at most `more` bytes with the top
// bit set, and then one without, which is at most `last` if it comes after `more` others.
#[tactic(auto, using(crate::proofs::Varint::reading))]
fn varint_of(bytes: &[u8], more: usize, last: u8) -> Result<(u64, usize), Error>
    requires ends { (0 < last) × (last < 128) }
    requires fits { varint_limit more last ≤ 2 ^ 64 }
    ensures gives { MatchesReading no_own_causes (λ n. (n.0, drop n.1 bytes.now)) result
        (varint_at more last bytes.now) }
    ensures bound { IfOk result (λ n. n.0 < varint_limit more last) }
    ensures within { IfOk result (λ n. n.1 ≤ length bytes.now) }
{
    let mut low = 0u64;
    let mut scale = 1u64;
    for (place, byte) in bytes.iter().enumerate() {
        if (place == more) & (*byte > last) {
            return Err(Error::BadVarint);
        }
        low += scale * u64::from(*byte % 128);
        if *byte < 128 {
            return Ok((low, place + 1));
        }
        scale *= 128;
    }
    Err(Error::UnexpectedEnd)
}

// Does what `varint_of` does, for 128 bits.
#[tactic(auto, using(crate::proofs::Varint::reading))]
pub(super) fn wide_varint_of(bytes: &[u8], more: usize, last: u8) -> Result<(u128, usize), Error>
    requires ends { (0 < last) × (last < 128) }
    requires fits { varint_limit more last ≤ 2 ^ 128 }
    ensures gives { MatchesReading no_own_causes (λ n. (n.0, drop n.1 bytes.now)) result
        (varint_at more last bytes.now) }
    ensures within { IfOk result (λ n. n.1 ≤ length bytes.now) }
{
    let mut low = 0u128;
    let mut scale = 1u128;
    for (place, byte) in bytes.iter().enumerate() {
        if (place == more) & (last < *byte) {
            return Err(Error::BadVarint);
        }
        low += scale * u128::from(*byte % 128);
        if *byte < 128 {
            return Ok((low, place + 1));
        }
        scale *= 128;
    }
    Err(Error::UnexpectedEnd)
}

impl<'de> PagableSlice<'de> {
    // Reads the next byte if its top bit isn't set; otherwise, or at the end, reads nothing.
    pub(super) fn read_one_byte_varint(&mut self) -> Option<u8>
        ensures reads { MatchOption result (self.new ≡ self.old)
            (λ b. (b < 128) × (byte_at (left self.old) ≡ Ok (b, left self.new))) }
        ensures moves { MovesForward self.old self.new }
    {
        if self.position == self.bytes.len() || self.bytes[self.position] >= 128 {
            return None;
        }
        let byte = self.bytes[self.position];
        self.position += 1;
        Some(byte)
    }

    // Reads the next number, as `varint_of` does. It isn't inlined, so that the path for a number
    // of one byte stays short in its callers.
    #[inline(never)]
    pub(super) fn read_varint(&mut self, more: usize, last: u8) -> Result<u64, Error>
        requires ends { (0 < last) × (last < 128) }
        requires fits { varint_limit more last ≤ 2 ^ 64 }
        ensures reads { Reads (varint_at more last) result self.old self.new }
        ensures bound { IfOk result (λ n. n < varint_limit more last) }
    {
        let (number, count) = varint_of(&self.bytes[self.position..], more, last)?;
        self.position += count;
        Ok(number)
    }
}
