//! Texts, borrowed and boxed ones too, and paths, which are texts here.

ghost use Rattle.pagable_traits.specs.{
  Clauses.{Wrote, value as form},
  Meanings.exactly,
  OwnCauses.{reads_memory, writes_long_or, writes_memory},
};
ghost use Rattle.pagable_value_spec.specs.{
  CarriedTypes.path_text,
  Cursor.Is,
  Meaning.text as text_meaning,
  Outcomes.{IsOutOfMemory, long_or},
  Shape.text as text_shape,
};
ghost use Rattle.std.specs.{Box.boxed_str_bytes, String.string_bytes};

use crate::traits::{Carried, OneMeaning, PagableDeserialize, PagableSerialize};
use pagable_codec::{Env, PagableDeserializer, PagableSerializer, Reader};
use pagable_flavors::Error;
use std::alloc::Global;
use std::boxed::BoxedStr;

/// Writes a text as a `String` is written: its length in bytes, and its bytes.
///
/// # Errors
///
/// - `TooLong` above 4,294,967,295 bytes.
/// - `OutOfMemory`.
#[tactic(auto, using(pagable_codec::proofs::Writing::parts, crate::proofs::Parts::writes_str))]
pub fn serialize_str<E: Env, S: PagableSerializer<E>>(
    text: &str,
    serializer: &mut S,
) -> Result<(), Error>
    ensures { Wrote E.Env S.PagableSerializer (form (Is text_meaning text.now) text_shape)
        (long_or IsOutOfMemory) serializer.old serializer.new result }
{
    serializer.serde().write_str(text)
}

impl<E: Env> Carried<E> for BoxedStr {
    ghost shape = { λ e. text_shape };

    ghost means = { exactly (λ s. text_meaning (boxed_str_bytes s)) };
}

impl<E: Env> OneMeaning<E> for BoxedStr {
    ghost single = { λ s m is. is };
}

impl<E: Env> PagableSerialize<E> for BoxedStr {
    ghost write_causes = { writes_long_or writes_memory };

    fn pagable_serialize<S: PagableSerializer<E>>(&self, serializer: &mut S) -> Result<(), Error> {
        serialize_str(self.as_str(), serializer)
    }
}

impl<'de, E: Env> PagableDeserialize<'de, E> for BoxedStr {
    ghost read_causes = { reads_memory };

    fn pagable_deserialize<D: PagableDeserializer<E>>(
        alloc: Global,
        deserializer: &mut D,
    ) -> Result<Self, Error> {
        let text = <String as PagableDeserialize<E>>::pagable_deserialize(alloc, deserializer)?;
        Ok(text.into_boxed_str())
    }
}

impl<E: Env> Carried<E> for String {
    ghost shape = { λ e. text_shape };

    ghost means = { exactly (λ s. text_meaning (string_bytes s)) };
}

impl<E: Env> OneMeaning<E> for String {
    ghost single = { λ s m is. is };
}

impl<E: Env> PagableSerialize<E> for String {
    ghost write_causes = { writes_long_or writes_memory };

    fn pagable_serialize<S: PagableSerializer<E>>(&self, serializer: &mut S) -> Result<(), Error> {
        serialize_str(self.as_str(), serializer)
    }
}

impl<'de, E: Env> PagableDeserialize<'de, E> for String {
    ghost read_causes = { reads_memory };

    fn pagable_deserialize<D: PagableDeserializer<E>>(
        alloc: Global,
        deserializer: &mut D,
    ) -> Result<Self, Error> {
        deserializer.serde().read_string(alloc)
    }
}

/// A path as a text, which is written as a `String` is. Any text will do.
#[derive(Debug, PartialEq, Eq, PartialOrd, Ord, Hash, Drop)]
pub struct PathText {
    pub text: String,
}

impl<E: Env> Carried<E> for PathText {
    ghost shape = { λ e. path_text };

    ghost means = { exactly (λ p. text_meaning (string_bytes p.text)) };
}

impl<E: Env> OneMeaning<E> for PathText {
    ghost single = { λ p m is. is };
}

impl<E: Env> PagableSerialize<E> for PathText {
    ghost write_causes = { writes_long_or writes_memory };

    fn pagable_serialize<S: PagableSerializer<E>>(&self, serializer: &mut S) -> Result<(), Error> {
        serialize_str(self.text.as_str(), serializer)
    }
}

impl<'de, E: Env> PagableDeserialize<'de, E> for PathText {
    ghost read_causes = { reads_memory };

    fn pagable_deserialize<D: PagableDeserializer<E>>(
        alloc: Global,
        deserializer: &mut D,
    ) -> Result<Self, Error> {
        let text = PagableDeserialize::<E>::pagable_deserialize(alloc, deserializer)?;
        Ok(PathText { text })
    }
}
