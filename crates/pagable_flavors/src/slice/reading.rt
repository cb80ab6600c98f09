//! Reads basic values, and texts and byte arrays without copying them.

ghost use Rattle.pagable_value_spec.specs.{
  BasicValues.{byte_array_at, text_at},
  Outcomes.{MatchesReading, no_own_causes},
  Progress.{MovesForward, left},
};

use super::PagableSlice;
use super::numbers::wide_varint_of;
use crate::reader::Reader;
use crate::vec_flavor::LONGEST;
use crate::zigzag;
use pagable_value_spec::Error;
use std::alloc::Global;

impl Reader for PagableSlice<'_> {
    ghost reader_state = { λ s. s };

    fn position(&self) -> usize {
        PagableSlice::position(self)
    }

    fn size_hint(&self) -> usize {
        PagableSlice::size_hint(self)
    }

    fn set_position(&mut self, position: usize) {
        PagableSlice::set_position(self, position);
    }

    #[tactic(auto, unfolding(pagable_value_spec::specs::BasicValues::bool_at))]
    fn read_bool(&mut self) -> Result<bool, Error> {
        match self.pop()? {
            0 => Ok(false),
            1 => Ok(true),
            _ => Err(Error::BadBool),
        }
    }

    fn read_u8(&mut self) -> Result<u8, Error> {
        self.pop()
    }

    #[tactic(auto, using(crate::proofs::Varint::varint_at_first), unfolding(pagable_value_spec::specs::Numbers::varint_limit))]
    fn read_u16(&mut self) -> Result<u16, Error> {
        if let Some(byte) = self.read_one_byte_varint() {
            return Ok(u16::from(byte));
        }
        Ok(self.read_varint(2, 3)? as u16)
    }

    #[tactic(auto, using(crate::proofs::Varint::varint_at_first), unfolding(pagable_value_spec::specs::Numbers::varint_limit))]
    fn read_u32(&mut self) -> Result<u32, Error> {
        if let Some(byte) = self.read_one_byte_varint() {
            return Ok(u32::from(byte));
        }
        Ok(self.read_varint(4, 15)? as u32)
    }

    #[tactic(auto, using(crate::proofs::Varint::varint_at_first), unfolding(pagable_value_spec::specs::Numbers::varint_limit))]
    fn read_u64(&mut self) -> Result<u64, Error> {
        if let Some(byte) = self.read_one_byte_varint() {
            return Ok(u64::from(byte));
        }
        Ok(self.read_varint(9, 1)?)
    }

    #[tactic(auto, using(crate::proofs::Varint::varint_at_first), unfolding(pagable_value_spec::specs::Numbers::varint_limit))]
    fn read_u128(&mut self) -> Result<u128, Error> {
        if let Some(byte) = self.read_one_byte_varint() {
            return Ok(u128::from(byte));
        }
        let (number, count) = wide_varint_of(&self.bytes[self.position..], 18, 3)?;
        self.position += count;
        Ok(number)
    }

    fn read_usize(&mut self) -> Result<usize, Error> {
        Ok(self.read_u64()? as usize)
    }

    fn read_i8(&mut self) -> Result<i8, Error> {
        Ok(self.pop()?.cast_signed())
    }

    fn read_i16(&mut self) -> Result<i16, Error> {
        Ok(zigzag::decode(u64::from(self.read_u16()?)) as i16)
    }

    fn read_i32(&mut self) -> Result<i32, Error> {
        Ok(zigzag::decode(u64::from(self.read_u32()?)) as i32)
    }

    fn read_i64(&mut self) -> Result<i64, Error> {
        Ok(zigzag::decode(self.read_u64()?))
    }

    fn read_i128(&mut self) -> Result<i128, Error> {
        Ok(zigzag::decode_wide(self.read_u128()?))
    }

    #[tactic(auto, using(crate::proofs::Basic::char_steps), unfolding(pagable_value_spec::specs::BasicValues::char_at))]
    fn read_char(&mut self) -> Result<char, Error> {
        let text = self.read_str()?;
        let mut characters = text.chars();
        match (characters.next(), characters.next()) {
            (Some(character), None) => Ok(character),
            _ => Err(Error::BadChar),
        }
    }

    #[tactic(auto, unfolding(pagable_value_spec::specs::BasicValues::length_at))]
    fn read_len(&mut self) -> Result<usize, Error> {
        let number = self.read_usize()?;
        if number > LONGEST {
            return Err(Error::TooLong);
        }
        Ok(number)
    }

    fn read_string(&mut self, alloc: Global) -> Result<String, Error> {
        Ok(String::from_str(alloc, self.read_str()?)?)
    }
}

impl<'de> PagableSlice<'de> {
    /// Reads a text without copying it.
    ///
    /// # Errors
    ///
    /// - those of `read_len`.
    /// - `UnexpectedEnd` if the input ends inside the text.
    /// - `BadUtf8` if the text isn't UTF-8.
    #[tactic(auto, using(crate::proofs::Basic::utf8_tests), unfolding(pagable_value_spec::specs::BasicValues::text_at))]
    pub fn read_str(&mut self) -> Result<&'de str, Error>
        ensures gives { MatchesReading no_own_causes (λ t. (t.now, left self.new)) result (text_at (left self.old)) }
        ensures moves { MovesForward self.old self.new }
    {
        let count = self.read_len()?;
        let bytes = self.try_take_n(count)?;
        str::from_utf8(bytes).or(Err(Error::BadUtf8))
    }

    /// Reads a byte array without copying it.
    ///
    /// # Errors
    ///
    /// - those of `read_len`.
    /// - `UnexpectedEnd` if the input ends inside the array.
    #[tactic(auto, unfolding(pagable_value_spec::specs::BasicValues::byte_array_at))]
    pub fn read_bytes(&mut self) -> Result<&'de [u8], Error>
        ensures gives { MatchesReading no_own_causes (λ b. (b.now, left self.new)) result
            (byte_array_at (left self.old)) }
        ensures moves { MovesForward self.old self.new }
    {
        let count = self.read_len()?;
        Ok(self.try_take_n(count)?)
    }
}
