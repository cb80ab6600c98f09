//! Regular expressions, kept with their texts.

ghost use Rattle.pagable_traits.specs.{
  Building.{IsBuildError, IsBuiltFrom, ReadsRefusedPattern, pattern_causes, reads_pattern, refusal_of},
  Clauses.{Reads, Wrote, value as form},
  KeyLaws.basic_key,
  Meanings.exactly,
  OwnCauses.{writes_long_or, writes_memory},
};
ghost use Rattle.pagable_value_spec.specs.{
  Cursor.{HoldsLentValues, Is, handles_at},
  Keyed.pattern_is_same,
  Meaning.pattern,
  OneForm.basic_has_one_form,
  Outcomes.{IsOutOfMemory, long_or},
  Reading.read,
  declared.error.Error.TheVariants.RegexRefused,
};
ghost use Rattle.std.proofs.Common.{rules};
ghost use Rattle.std.specs.{
  Cmp.Rules.{comparing, hashing},
  Prelude.{IfErr, IfOk, List, ℕ, ◌≡◌, ◌≢◌},
  Str.bytes_eq,
  String.string_bytes,
};
ghost use Rattle.std.specs.Hash as fed;
ghost use Rattle.pagable_value_spec.specs.Shape as shapes;

use crate::{Canonical, Carried, OneMeaning, PagableDeserialize, PagableKey, PagableSerialize};
use pagable_codec::{Env, PagableDeserializer, PagableSerializer, Reader};
use pagable_flavors::Error;
use regex::Regex;
use std::alloc::Global;
use std::fmt;
use std::hash::{Hash, Hasher};
use std::marker::Model;

/// A regular expression with the text from which it was built; options can only be written in the
/// text. It is written as its text, and reading it builds it again. Two are equal if their texts
/// are.
#[derive(Drop)]
pub struct SavedRegex {
    text: String,
    built: Regex,
}

// Contracts see a saved regular expression as its text.
impl Model for SavedRegex {
    ghost Value = { List ℕ };

    ghost view = { λ r. string_bytes r.text };

    ghost invariant = { λ r. IsBuiltFrom (string_bytes r.text) r.built };
}

/// Turns an error of the crate `regex` into one of ours: `OutOfMemory` stays `OutOfMemory`, and any
/// other becomes `RegexRefused`.
fn refusal(cause: regex::Error) -> Error
    ensures { result ≡ refusal_of cause }
{
    let is_memory = matches!(cause, regex::Error::OutOfMemory);
    Error::of_library(is_memory, Error::RegexRefused)
}

/// Builds the regular expression of a text with the default options of `regex`. Fails with
/// `RegexRefused` if `regex` refuses the text, else only with `OutOfMemory`.
fn build(alloc: Global, text: &str) -> Result<Regex, Error>
    ensures built { IfOk result (IsBuiltFrom text.now) }
    ensures refused { IfErr result (IsBuildError text.now) }
{
    Regex::new(alloc, text).map_err(refusal)
}

impl SavedRegex {
    /// Builds the regular expression of a text.
    ///
    /// # Errors
    ///
    /// - `RegexRefused` if `regex` refuses the text for another cause than memory.
    /// - `OutOfMemory`.
    pub fn new(alloc: Global, text: &str) -> Result<SavedRegex, Error>
        ensures pattern { IfOk result (λ r. r ≡ text.now) }
        ensures refused { IfErr result (IsBuildError text.now) }
    {
        let built = build(alloc, text)?;
        let text = String::from_str(alloc, text)?;
        Ok(SavedRegex { text, built })
    }

    /// Returns the text.
    pub fn pattern(&self) -> &str
        ensures { result.now ≡ self.now }
    {
        self.text.as_str()
    }

    /// Returns the regular expression.
    pub fn regex(&self) -> &Regex
        ensures { IsBuiltFrom self.now result.now }
    {
        &self.built
    }
}

impl fmt::Debug for SavedRegex {
    fn fmt<W: fmt::Write>(&self, f: &mut fmt::Formatter<W>) -> fmt::Result {
        f.debug_tuple("SavedRegex").field(&self.pattern()).finish()
    }
}

impl PartialEq for SavedRegex {
    ghost eq = { λ x y. bytes_eq x y };

    ghost laws = { Prim.search (comparing, rules) };

    fn eq(&self, other: &Self) -> bool {
        self.text == other.text
    }
}

impl Eq for SavedRegex {
    ghost laws = { Prim.search (comparing, rules) };
}

impl Hash for SavedRegex {
    ghost hash_input = { λ x. fed.str x };

    ghost respects_eq = { Prim.search (hashing, rules) };

    fn hash<H: Hasher>(&self, state: &mut H) {
        self.text.hash(state);
    }
}

impl<E: Env> Carried<E> for SavedRegex {
    ghost shape = { λ e. shapes.pattern };

    ghost means = { exactly pattern };
}

impl<E: Env> OneMeaning<E> for SavedRegex {
    ghost single = { λ r m is. is };
}

impl<E: Env> Canonical<E> for SavedRegex {
    ghost one_form = { λ e. basic_has_one_form tt };
}

impl<E: Env> PagableKey<E> for SavedRegex {
    ghost key = { basic_key pattern_is_same tt };
}

/// Writes the text of a pattern: its length in bytes, and its bytes. Fails with `TooLong` above
/// 4,294,967,295 bytes, else only with `OutOfMemory`.
#[tactic(auto, using(pagable_codec::proofs::Writing::parts, crate::proofs::Parts::writes_pattern, crate::proofs::Parts::refused_pattern))]
fn write_text<E: Env, S: PagableSerializer<E>>(text: &str, serializer: &mut S) -> Result<(), Error>
    ensures { Wrote E.Env S.PagableSerializer (form (Is pattern text.now) shapes.pattern)
        (long_or IsOutOfMemory) serializer.old serializer.new result }
{
    serializer.serde().write_str(text)
}

impl<E: Env> PagableSerialize<E> for SavedRegex {
    ghost write_causes = { writes_long_or writes_memory };

    /// Appends the text.
    fn pagable_serialize<S: PagableSerializer<E>>(&self, serializer: &mut S) -> Result<(), Error> {
        write_text(self.text.as_str(), serializer)
    }
}

/// Reads the text of a pattern without building it.
fn read_text<E: Env, D: PagableDeserializer<E>>(
    alloc: Global,
    deserializer: &mut D,
) -> Result<String, Error>
    ensures reads { Reads E.Env D.PagableDeserializer IsOutOfMemory (Is (λ t. pattern (string_bytes t)))
        (λ c. read c shapes.pattern) deserializer.old deserializer.new result }
    ensures never_refused { IfErr result (λ e. e ≢ RegexRefused) }
{
    deserializer.serde().read_string(alloc)
}

impl<'de, E: Env> PagableDeserialize<'de, E> for SavedRegex {
    ghost read_causes = { reads_pattern };

    /// Reads a text, and builds its regular expression.
    ///
    /// # Errors
    ///
    /// - `RegexRefused` only if it has read a text that `regex` refuses for another cause than
    ///   memory.
    /// - `OutOfMemory`, or a fault of the input.
    fn pagable_deserialize<D: PagableDeserializer<E>>(
        alloc: Global,
        deserializer: &mut D,
    ) -> Result<Self, Error>
        ensures reads { Reads E.Env D.PagableDeserializer pattern_causes (Is pattern)
            (λ c. read c shapes.pattern) deserializer.old deserializer.new result }
        ensures holds { IfOk result (HoldsLentValues (D.input_state deserializer.old) (λ x r y. Unit {0})) }
        ensures refused { IfErr result (λ e. e ≡ RegexRefused → ReadsRefusedPattern
            (read (handles_at (D.levels deserializer.old) (E.parts (D.environment deserializer.old))) shapes.pattern
            (D.rest deserializer.old))) }
    {
        let text = read_text(alloc, deserializer)?;
        let built = build(alloc, text.as_str())?;
        Ok(SavedRegex { text, built })
    }
}
