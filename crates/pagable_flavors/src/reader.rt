//! The trait of readers of basic values, which a deserializer lends.

ghost use Rattle.pagable_flavors.specs.Calls.{Reads};
ghost use Rattle.pagable_value_spec.specs.{
  BasicValues.{bool_at, char_at, length_at, text_at},
  Numbers.{signed_at, unsigned_at},
  Outcomes.{IsOutOfMemory, MatchesReading},
  Progress.{MovesForward, ReaderState, left},
};
ghost use Rattle.std.specs.{Int.{w128, w16, w32, w64, w8}, Prelude.{length, ◌≡◌, ◌≤◌}, String.string_bytes};

use pagable_value_spec::Error;
use std::alloc::Global;

/// A reader of basic values, as `PagableSlice` is.
///
/// A call that fails returns the first fault of the wire format and leaves the position between the
/// old one and the end. Only `read_string` allocates.
pub trait Reader {
    // All bytes of the reader, and how many of them it has read.
    ghost reader_state: { Self → ReaderState };

    /// Returns how many bytes have been read.
    fn position(&self) -> usize
        ensures place { result ≡ (reader_state self.now).position }
        ensures within { result ≤ length (reader_state self.now).all };

    /// Returns how many bytes are left.
    fn size_hint(&self) -> usize
        ensures bytes { result ≡ length (left (reader_state self.now)) }
        ensures within { (reader_state self.now).position ≤ length (reader_state self.now).all };

    /// Moves to a position that isn't past the end.
    fn set_position(&mut self, position: usize)
        requires { position ≤ length (reader_state self.old).all }
        ensures { reader_state self.new ≡ record (reader_state self.old) { position = position } };

    /// Reads a flag.
    ///
    /// # Errors
    ///
    /// - `UnexpectedEnd` if no byte is left.
    /// - `BadBool` if the byte is neither 0 nor 1.
    fn read_bool(&mut self) -> Result<bool, Error>
        ensures { Reads bool_at result (reader_state self.old) (reader_state self.new) };

    fn read_u8(&mut self) -> Result<u8, Error>
        ensures { Reads (unsigned_at w8) result (reader_state self.old) (reader_state self.new) };

    /// Reads a number of 16 bits.
    ///
    /// # Errors
    ///
    /// - `UnexpectedEnd` if the input ends inside the number.
    /// - `BadVarint` if the number has more than 3 bytes, or its third is above 3.
    fn read_u16(&mut self) -> Result<u16, Error>
        ensures { Reads (unsigned_at w16) result (reader_state self.old) (reader_state self.new) };

    /// Reads a number of 32 bits.
    ///
    /// # Errors
    ///
    /// - `UnexpectedEnd` if the input ends inside the number.
    /// - `BadVarint` if the number has more than 5 bytes, or its fifth is above 15.
    fn read_u32(&mut self) -> Result<u32, Error>
        ensures { Reads (unsigned_at w32) result (reader_state self.old) (reader_state self.new) };

    /// Reads a number of 64 bits.
    ///
    /// # Errors
    ///
    /// - `UnexpectedEnd` if the input ends inside the number.
    /// - `BadVarint` if the number has more than 10 bytes, or its tenth is above 1.
    fn read_u64(&mut self) -> Result<u64, Error>
        ensures { Reads (unsigned_at w64) result (reader_state self.old) (reader_state self.new) };

    /// Reads a number of 128 bits.
    ///
    /// # Errors
    ///
    /// - `UnexpectedEnd` if the input ends inside the number.
    /// - `BadVarint` if the number has more than 19 bytes, or its nineteenth is above 3.
    fn read_u128(&mut self) -> Result<u128, Error>
        ensures { Reads (unsigned_at w128) result (reader_state self.old) (reader_state self.new) };

    fn read_usize(&mut self) -> Result<usize, Error>
        ensures { Reads (unsigned_at w64) result (reader_state self.old) (reader_state self.new) };

    fn read_i8(&mut self) -> Result<i8, Error>
        ensures { Reads (signed_at w8) result (reader_state self.old) (reader_state self.new) };

    fn read_i16(&mut self) -> Result<i16, Error>
        ensures { Reads (signed_at w16) result (reader_state self.old) (reader_state self.new) };

    fn read_i32(&mut self) -> Result<i32, Error>
        ensures { Reads (signed_at w32) result (reader_state self.old) (reader_state self.new) };

    fn read_i64(&mut self) -> Result<i64, Error>
        ensures { Reads (signed_at w64) result (reader_state self.old) (reader_state self.new) };

    fn read_i128(&mut self) -> Result<i128, Error>
        ensures { Reads (signed_at w128) result (reader_state self.old) (reader_state self.new) };

    /// Reads a character, which is written as a text.
    ///
    /// # Errors
    ///
    /// - those of `read_string`, except `OutOfMemory`.
    /// - `BadChar` if the text isn't exactly one character.
    fn read_char(&mut self) -> Result<char, Error>
        ensures { Reads char_at result (reader_state self.old) (reader_state self.new) };

    /// Reads a length.
    ///
    /// # Errors
    ///
    /// - those of `read_u64`.
    /// - `TooLong` if it is above 4,294,967,295.
    fn read_len(&mut self) -> Result<usize, Error>
        ensures { Reads length_at result (reader_state self.old) (reader_state self.new) };

    /// Reads a text into a new string.
    ///
    /// # Errors
    ///
    /// - those of `read_len`.
    /// - `UnexpectedEnd` if the input ends inside the text.
    /// - `BadUtf8` if the text isn't UTF-8.
    /// - `OutOfMemory` if the string can't be allocated.
    fn read_string(&mut self, alloc: Global) -> Result<String, Error>
        ensures gives { MatchesReading IsOutOfMemory (λ t. (string_bytes t, left (reader_state self.new))) result
            (text_at (left (reader_state self.old))) }
        ensures moves { MovesForward (reader_state self.old) (reader_state self.new) };
}
