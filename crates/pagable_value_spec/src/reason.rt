//! Why a caller's own implementation fails.

ghost use Rattle.std.specs.{Prelude.{length, take, true, ◌++◌, ◌+◌, ◌≡◌, ◌≤◌}, Str.is_utf8};

use std::fmt;

/// How many bytes a reason has room for.
pub const REASON_BYTES: usize = 61;

/// What ends a reason whose text was cut.
const CUT_MARK: &str = "..";

/// How many bytes of a cut text are kept: 61 less the two of `..`.
const CUT_BYTES: usize = 59;

/// Why a caller's own implementation fails, in its own words.
///
/// A reason owns no memory and is copied like a number. It keeps a text of up to 61 bytes whole. Of
/// a longer text it keeps the first 59 bytes, or fewer so as not to split a character, and ends
/// with `..`. `write!` writes to it.
#[derive(Clone, Copy, PartialEq, Eq)]
pub struct Reason {
    bytes: [u8; REASON_BYTES],
    length: u8,
    is_cut: bool,
    ghost within: { length ≤ 61 },
    ghost utf8: { is_utf8 (take length bytes) ≡ true },
}

/// Copies `text` into `bytes` at `place`. The caller makes sure that there is room.
fn copy_text_at(bytes: &mut [u8], place: usize, text: &[u8])
    requires { place + length text.now ≤ length bytes.old }
    ensures written { take (place + length text.now) bytes.new ≡ take place bytes.old ++ text.now }
    ensures len { length bytes.new ≡ length bytes.old }
{
    bytes[place..place + text.len()].copy_from_slice(text);
}

impl Reason {
    ghost use Rattle.pagable_value_spec.specs.Reasons.{IsCut, IsKept, kept_of};
    ghost use Rattle.std.specs.Prelude.{[], false, ◌<◌};

    /// Makes the reason with this text.
    pub fn new(text: &str) -> Reason
        ensures { IsKept text.now result }
    {
        Reason::empty().append_text(text)
    }

    /// Returns the text, which ends with `..` if it was cut.
    pub fn as_str(&self) -> &str
        ensures { result.now ≡ kept_of self.now }
    {
        match std::str::from_utf8(&self.bytes[..self.length as usize]) {
            Ok(text) => text,
            Err(_) => "",
        }
    }

    /// Makes a reason with no text.
    fn empty() -> Reason
        ensures value { kept_of result ≡ [] }
        ensures whole { result.is_cut ≡ false }
        ensures len { result.length ≡ 0 }
    {
        Reason {
            bytes: [0; REASON_BYTES],
            length: 0,
            is_cut: false,
        }
    }

    /// Adds `text` to a reason that isn't cut, and cuts the whole if it is too long.
    #[tactic(auto, using(crate::proofs::Cut::kept_no_room, crate::proofs::Cut::kept_room))]
    fn append_text(self, text: &str) -> Reason
        requires { self.is_cut ≡ false }
        ensures { IsKept (kept_of self ++ text.now) result }
    {
        if text.len() <= REASON_BYTES - self.length as usize {
            return self.append_whole(text, false);
        }
        self.append_and_cut(text)
    }

    /// Adds a text for which there is no room, and cuts the whole.
    fn append_and_cut(&self, text: &str) -> Reason
        requires { 61 < self.now.length + length text.now }
        ensures kept { IsCut (kept_of self.now ++ text.now) (kept_of result) }
        ensures cut { result.is_cut ≡ true }
    {
        let front = self.as_str();
        let kept = &front[..front.floor_char_boundary(CUT_BYTES)];
        let more = &text[..text.floor_char_boundary(CUT_BYTES.saturating_sub(front.len()))];
        let whole = Reason::empty().append_whole(kept, false);
        whole.append_whole(more, false).append_whole(CUT_MARK, true)
    }

    /// Adds a text for which there is room.
    fn append_whole(self, text: &str, is_cut: bool) -> Reason
        requires { self.length + length text.now ≤ 61 }
        ensures value { kept_of result ≡ kept_of self ++ text.now }
        ensures cut { result.is_cut ≡ is_cut }
        ensures len { result.length ≡ self.length + length text.now }
    {
        let mut bytes = self.bytes;
        copy_text_at(&mut bytes, self.length as usize, text.as_bytes());
        let length = self.length + text.len() as u8;
        Reason {
            bytes,
            length,
            is_cut,
        }
    }
}

/// Adds to the text. Ignores what is written after a cut, and never fails.
impl fmt::Write for Reason {
    ghost use Rattle.pagable_value_spec.specs.Reasons.{IsKept};
    ghost use Rattle.std.specs.Prelude.{List, ℕ, ◌++◌};

    ghost write_str_gives = { λ old text new. (all : List ℕ) → IsKept all old → IsKept (all ++ text) new };

    #[tactic(auto, using(crate::proofs::Cut::kept_cut, crate::proofs::Cut::kept_whole))]
    fn write_str(&mut self, text: &str) -> fmt::Result {
        if !self.is_cut {
            *self = self.append_text(text);
        }
        Ok(())
    }
}

/// Writes the text as it is.
impl fmt::Display for Reason {
    ghost use Rattle.pagable_value_spec.specs.Reasons.{kept_of};
    ghost use Rattle.std.specs.Prelude.{Some};

    ghost output = { λ reason. Some (kept_of reason) };

    fn fmt<W: fmt::Write>(&self, f: &mut fmt::Formatter<W>) -> fmt::Result {
        f.write_str(self.as_str())
    }
}

/// Writes the text in quotes.
impl fmt::Debug for Reason {
    fn fmt<W: fmt::Write>(&self, f: &mut fmt::Formatter<W>) -> fmt::Result {
        write!(f, "{:?}", self.as_str())
    }
}
