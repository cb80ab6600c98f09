//! Writes basic values: whole numbers, flags, lengths, texts and byte arrays.

ghost use Rattle.pagable_flavors.specs.Calls.{Appends, AppendsCounted};
ghost use Rattle.pagable_value_spec.specs.{
  BasicValues.{bool_form, byte_array_form, char_form, length_form, text_form},
  Numbers.{AppendsVarint, signed_form, unsigned_form},
  Outcomes.{Extends, IsOutOfMemory},
};
ghost use Rattle.std.specs.{
  Int.{w128, w16, w32, w64, w8},
  Prelude.{IfErr, OnOk, length, vec_capacity, vec_len, ◌++◌, ◌+◌, ◌≡◌, ◌≤◌},
};

use super::{LONGEST, PagableVecFlavor};
use crate::zigzag;
use pagable_value_spec::Error;

// Appends the shortest varint of the number to bytes that have room for ten more. It isn't inlined,
// so that `push_varint` stays short in its callers.
#[inline(never)]
#[tactic(auto, using(crate::proofs::Varint::writing))]
fn push_long_varint(bytes: &mut Vec<u8>, number: u64)
    requires { vec_len bytes.old + 10 ≤ vec_capacity bytes.old }
    ensures written { AppendsVarint bytes.old.items bytes.new.items number }
    ensures grows { Extends bytes.old.items bytes.new.items }
    ensures len { vec_len bytes.new ≤ vec_len bytes.old + 10 }
    ensures capacity { vec_capacity bytes.new ≡ vec_capacity bytes.old }
{
    let mut rest = number;
    while rest >= 128 {
        bytes.push_reserved(128 + (rest % 128) as u8);
        rest /= 128;
    }
    bytes.push_reserved(rest as u8);
}

// Does what `push_long_varint` does, with a quick path for a number of one byte.
#[inline]
#[tactic(auto, using(crate::proofs::Varint::writing))]
fn push_varint(bytes: &mut Vec<u8>, number: u64)
    requires { vec_len bytes.old + 10 ≤ vec_capacity bytes.old }
    ensures written { AppendsVarint bytes.old.items bytes.new.items number }
    ensures grows { Extends bytes.old.items bytes.new.items }
    ensures len { vec_len bytes.new ≤ vec_len bytes.old + 10 }
    ensures capacity { vec_capacity bytes.new ≡ vec_capacity bytes.old }
{
    if number >= 128 {
        return push_long_varint(bytes, number);
    }
    bytes.push_reserved(number as u8);
}

// Does what `push_long_varint` does, for 128 bits and with room for 19.
#[inline(never)]
#[tactic(auto, using(crate::proofs::Varint::writing))]
fn push_wide_varint(bytes: &mut Vec<u8>, number: u128)
    requires { vec_len bytes.old + 19 ≤ vec_capacity bytes.old }
    ensures written { AppendsVarint bytes.old.items bytes.new.items number }
    ensures grows { Extends bytes.old.items bytes.new.items }
{
    let mut rest = number;
    while rest >= 128 {
        let low = (rest % 128) as u8;
        bytes.push_reserved(128 + low);
        rest /= 128;
    }
    bytes.push_reserved(rest as u8);
}

// Appends the length and the bytes of a byte array to bytes that have room for ten more and these.
#[inline(never)]
fn push_byte_array(bytes: &mut Vec<u8>, array: &[u8])
    requires { vec_len bytes.old + (10 + length array.now) ≤ vec_capacity bytes.old }
    ensures { bytes.new.items ≡ bytes.old.items ++ byte_array_form array.now }
{
    push_varint(bytes, array.len() as u64);
    // with room for the array this can't fail
    let _done = bytes.extend_from_slice(array);
}

impl PagableVecFlavor {
    // Appends the shortest varint of the number, which is the same for every width that the number
    // fits.
    #[inline]
    fn write_varint(&mut self, number: u64) -> Result<(), Error>
        ensures ok { OnOk result (AppendsVarint self.old self.new number) }
        ensures only { IfErr result IsOutOfMemory }
        ensures grows { Extends self.old self.new }
    {
        self.bytes.reserve(10)?;
        push_varint(&mut self.bytes, number);
        Ok(())
    }

    /// Appends a number of 8 bits, in one byte.
    ///
    /// # Errors
    ///
    /// - `OutOfMemory` if the writer can't grow: nothing is written.
    pub fn write_u8(&mut self, number: u8) -> Result<(), Error>
        ensures { Appends (unsigned_form w8 number) result self.old self.new }
    {
        self.try_push(number)
    }

    /// Appends a number of 16 bits, in 1 to 3 bytes.
    ///
    /// # Errors
    ///
    /// - `OutOfMemory` if the writer can't grow: some of the bytes may have been written.
    #[tactic(auto, unfolding(pagable_value_spec::specs::Numbers::varint_limit))]
    pub fn write_u16(&mut self, number: u16) -> Result<(), Error>
        ensures { Appends (unsigned_form w16 number) result self.old self.new }
    {
        self.write_varint(u64::from(number))
    }

    /// Appends a number of 32 bits, in 1 to 5 bytes.
    ///
    /// # Errors
    ///
    /// - `OutOfMemory` if the writer can't grow: some of the bytes may have been written.
    #[tactic(auto, unfolding(pagable_value_spec::specs::Numbers::varint_limit))]
    pub fn write_u32(&mut self, number: u32) -> Result<(), Error>
        ensures { Appends (unsigned_form w32 number) result self.old self.new }
    {
        self.write_varint(u64::from(number))
    }

    /// Appends a number of 64 bits, in 1 to 10 bytes.
    ///
    /// # Errors
    ///
    /// - `OutOfMemory` if the writer can't grow: some of the bytes may have been written.
    #[tactic(auto, unfolding(pagable_value_spec::specs::Numbers::varint_limit))]
    pub fn write_u64(&mut self, number: u64) -> Result<(), Error>
        ensures { Appends (unsigned_form w64 number) result self.old self.new }
    {
        self.write_varint(number)
    }

    /// Appends a number of 64 bits, as `write_u64` does and with its errors.
    pub fn write_usize(&mut self, number: usize) -> Result<(), Error>
        ensures { Appends (unsigned_form w64 number) result self.old self.new }
    {
        self.write_u64(number as u64)
    }

    /// Appends a number of 128 bits, in 1 to 19 bytes.
    ///
    /// # Errors
    ///
    /// - `OutOfMemory` if the writer can't grow: some of the bytes may have been written.
    #[tactic(auto, unfolding(pagable_value_spec::specs::Numbers::varint_limit))]
    pub fn write_u128(&mut self, number: u128) -> Result<(), Error>
        ensures ok { OnOk result (self.new ≡ self.old ++ unsigned_form w128 number) }
        ensures only { IfErr result IsOutOfMemory }
        ensures grows { Extends self.old self.new }
    {
        self.bytes.reserve(19)?;
        push_wide_varint(&mut self.bytes, number);
        Ok(())
    }

    /// Appends a number of 8 bits with a sign, in one byte in two's complement.
    ///
    /// # Errors
    ///
    /// - `OutOfMemory` if the writer can't grow: nothing is written.
    pub fn write_i8(&mut self, number: i8) -> Result<(), Error>
        ensures { Appends (signed_form w8 number) result self.old self.new }
    {
        self.write_u8(number.cast_unsigned())
    }

    /// Appends a number of 16 bits with a sign, in 1 to 3 bytes.
    ///
    /// # Errors
    ///
    /// - `OutOfMemory` if the writer can't grow: some of the bytes may have been written.
    #[tactic(auto, using(crate::proofs::Basic::zigzag_bounds))]
    pub fn write_i16(&mut self, number: i16) -> Result<(), Error>
        ensures { Appends (signed_form w16 number) result self.old self.new }
    {
        self.write_u16(zigzag::encode(i64::from(number)) as u16)
    }

    /// Appends a number of 32 bits with a sign, in 1 to 5 bytes.
    ///
    /// # Errors
    ///
    /// - `OutOfMemory` if the writer can't grow: some of the bytes may have been written.
    #[tactic(auto, using(crate::proofs::Basic::zigzag_bounds))]
    pub fn write_i32(&mut self, number: i32) -> Result<(), Error>
        ensures { Appends (signed_form w32 number) result self.old self.new }
    {
        self.write_u32(zigzag::encode(i64::from(number)) as u32)
    }

    /// Appends a number of 64 bits with a sign, in 1 to 10 bytes.
    ///
    /// # Errors
    ///
    /// - `OutOfMemory` if the writer can't grow: some of the bytes may have been written.
    pub fn write_i64(&mut self, number: i64) -> Result<(), Error>
        ensures { Appends (signed_form w64 number) result self.old self.new }
    {
        self.write_u64(zigzag::encode(number))
    }

    /// Appends a number of 128 bits with a sign, in 1 to 19 bytes.
    ///
    /// # Errors
    ///
    /// - `OutOfMemory` if the writer can't grow: some of the bytes may have been written.
    pub fn write_i128(&mut self, number: i128) -> Result<(), Error>
        ensures { Appends (signed_form w128 number) result self.old self.new }
    {
        self.write_u128(zigzag::encode_wide(number))
    }

    /// Appends a flag, in one byte.
    ///
    /// # Errors
    ///
    /// - `OutOfMemory` if the writer can't grow: nothing is written.
    pub fn write_bool(&mut self, value: bool) -> Result<(), Error>
        ensures { Appends (bool_form value) result self.old self.new }
    {
        self.try_push(u8::from(value))
    }

    /// Appends the length of a text, or the number of items of a list.
    ///
    /// # Errors
    ///
    /// - `TooLong` if it is above 4,294,967,295: nothing is written.
    /// - `OutOfMemory` if the writer can't grow: some of the bytes may have been written.
    pub fn write_len(&mut self, len: usize) -> Result<(), Error>
        ensures { AppendsCounted len (length_form len) result self.old self.new }
    {
        if len > LONGEST {
            return Err(Error::TooLong);
        }
        self.write_usize(len)
    }

    /// Appends a text: its length in bytes, and its bytes.
    ///
    /// # Errors
    ///
    /// - `TooLong` if the text has more than 4,294,967,295 bytes: nothing is written.
    /// - `OutOfMemory` if the writer can't grow: some of the bytes may have been written.
    pub fn write_str(&mut self, text: &str) -> Result<(), Error>
        ensures { AppendsCounted (length text.now) (text_form text.now) result self.old self.new }
    {
        self.write_bytes(text.as_bytes())
    }

    /// Appends a byte array: its length, and its bytes.
    ///
    /// # Errors
    ///
    /// - `TooLong` if it has more than 4,294,967,295 bytes: nothing is written.
    /// - `OutOfMemory` if the writer can't grow: some of the bytes may have been written.
    #[inline]
    pub fn write_bytes(&mut self, bytes: &[u8]) -> Result<(), Error>
        ensures { AppendsCounted (length bytes.now) (byte_array_form bytes.now) result self.old self.new }
    {
        if bytes.len() > LONGEST {
            return Err(Error::TooLong);
        }
        self.bytes.reserve(10 + bytes.len())?;
        push_byte_array(&mut self.bytes, bytes);
        Ok(())
    }

    /// Appends a character as a text of one character: how many bytes it has in UTF-8, and these.
    ///
    /// # Errors
    ///
    /// - `OutOfMemory` if the writer can't grow: some of the bytes may have been written.
    pub fn write_char(&mut self, character: char) -> Result<(), Error>
        ensures { Appends (char_form character) result self.old self.new }
    {
        let mut room = [0u8; 4];
        let text = character.encode_utf8(&mut room);
        self.write_str(text)
    }
}
