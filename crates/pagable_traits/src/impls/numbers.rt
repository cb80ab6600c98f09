//! Whole numbers, flags, characters, the unit and durations.
#![tactic(auto, using(crate::proofs::Parts::basic))]

ghost use Rattle.pagable_traits.specs.{Meanings.exactly, OwnCauses.writes_never};
ghost use Rattle.pagable_value_spec.specs.{
  BasicValues.{duration_at, duration_form},
  CarriedTypes.{nanos_of, of_span, seconds_of},
  Meaning.{flag as flag_meaning, integer, none, number},
  Outcomes.{Extends, IsOutOfMemory, MatchesReading, no_own_causes},
  Progress.{MovesForward, left},
  Shape.{duration, flag, letter, nothing, signed, unsigned},
};
ghost use Rattle.std.specs.{Int.{w128, w16, w32, w64, w8}, Prelude.{IfErr, OnOk, ◌++◌, ◌<◌, ◌^◌, ◌≡◌}};

use crate::encoded_as::{DecodedAs, EncodedAs};
use crate::traits::{Carried, OneMeaning, PagableDeserialize, PagableSerialize};
use pagable_codec::{Env, PagableDeserializer, PagableSerializer, Reader};
use pagable_flavors::{Error, PagableVecFlavor};
use std::alloc::Global;
use std::time::Duration;

impl<E: Env> Carried<E> for u8 {
    ghost shape = { λ e. unsigned w8 };

    ghost means = { exactly number };
}

impl<E: Env> OneMeaning<E> for u8 {
    ghost single = { λ x m is. is };
}

impl<E: Env> PagableSerialize<E> for u8 {
    fn pagable_serialize<S: PagableSerializer<E>>(&self, serializer: &mut S) -> Result<(), Error> {
        serializer.serde().write_u8(*self)
    }
}

impl<'de, E: Env> PagableDeserialize<'de, E> for u8 {
    fn pagable_deserialize<D: PagableDeserializer<E>>(
        _alloc: Global,
        deserializer: &mut D,
    ) -> Result<Self, Error> {
        deserializer.serde().read_u8()
    }
}

impl<E: Env> Carried<E> for u16 {
    ghost shape = { λ e. unsigned w16 };

    ghost means = { exactly number };
}

impl<E: Env> OneMeaning<E> for u16 {
    ghost single = { λ x m is. is };
}

impl<E: Env> PagableSerialize<E> for u16 {
    fn pagable_serialize<S: PagableSerializer<E>>(&self, serializer: &mut S) -> Result<(), Error> {
        serializer.serde().write_u16(*self)
    }
}

impl<'de, E: Env> PagableDeserialize<'de, E> for u16 {
    fn pagable_deserialize<D: PagableDeserializer<E>>(
        _alloc: Global,
        deserializer: &mut D,
    ) -> Result<Self, Error> {
        deserializer.serde().read_u16()
    }
}

impl<E: Env> Carried<E> for u32 {
    ghost shape = { λ e. unsigned w32 };

    ghost means = { exactly number };
}

impl<E: Env> OneMeaning<E> for u32 {
    ghost single = { λ x m is. is };
}

impl<E: Env> PagableSerialize<E> for u32 {
    fn pagable_serialize<S: PagableSerializer<E>>(&self, serializer: &mut S) -> Result<(), Error> {
        serializer.serde().write_u32(*self)
    }
}

impl<'de, E: Env> PagableDeserialize<'de, E> for u32 {
    fn pagable_deserialize<D: PagableDeserializer<E>>(
        _alloc: Global,
        deserializer: &mut D,
    ) -> Result<Self, Error> {
        deserializer.serde().read_u32()
    }
}

impl<E: Env> Carried<E> for u64 {
    ghost shape = { λ e. unsigned w64 };

    ghost means = { exactly number };
}

impl<E: Env> OneMeaning<E> for u64 {
    ghost single = { λ x m is. is };
}

impl<E: Env> PagableSerialize<E> for u64 {
    fn pagable_serialize<S: PagableSerializer<E>>(&self, serializer: &mut S) -> Result<(), Error> {
        serializer.serde().write_u64(*self)
    }
}

impl<'de, E: Env> PagableDeserialize<'de, E> for u64 {
    fn pagable_deserialize<D: PagableDeserializer<E>>(
        _alloc: Global,
        deserializer: &mut D,
    ) -> Result<Self, Error> {
        deserializer.serde().read_u64()
    }
}

impl<E: Env> Carried<E> for u128 {
    ghost shape = { λ e. unsigned w128 };

    ghost means = { exactly number };
}

impl<E: Env> OneMeaning<E> for u128 {
    ghost single = { λ x m is. is };
}

impl<E: Env> PagableSerialize<E> for u128 {
    fn pagable_serialize<S: PagableSerializer<E>>(&self, serializer: &mut S) -> Result<(), Error> {
        serializer.serde().write_u128(*self)
    }
}

impl<'de, E: Env> PagableDeserialize<'de, E> for u128 {
    fn pagable_deserialize<D: PagableDeserializer<E>>(
        _alloc: Global,
        deserializer: &mut D,
    ) -> Result<Self, Error> {
        deserializer.serde().read_u128()
    }
}

impl EncodedAs for usize {
    type Other = u64;

    ghost as_other = { λ x. x };
}

impl<E: Env> PagableSerialize<E> for usize {
    fn pagable_serialize<S: PagableSerializer<E>>(&self, serializer: &mut S) -> Result<(), Error> {
        serializer.serde().write_usize(*self)
    }
}

impl DecodedAs for usize {
    fn from_encoded(value: u64) -> Self {
        value as usize
    }
}

impl<E: Env> Carried<E> for i8 {
    ghost shape = { λ e. signed w8 };

    ghost means = { exactly integer };
}

impl<E: Env> OneMeaning<E> for i8 {
    ghost single = { λ x m is. is };
}

impl<E: Env> PagableSerialize<E> for i8 {
    fn pagable_serialize<S: PagableSerializer<E>>(&self, serializer: &mut S) -> Result<(), Error> {
        serializer.serde().write_i8(*self)
    }
}

impl<'de, E: Env> PagableDeserialize<'de, E> for i8 {
    fn pagable_deserialize<D: PagableDeserializer<E>>(
        _alloc: Global,
        deserializer: &mut D,
    ) -> Result<Self, Error> {
        deserializer.serde().read_i8()
    }
}

impl<E: Env> Carried<E> for i16 {
    ghost shape = { λ e. signed w16 };

    ghost means = { exactly integer };
}

impl<E: Env> OneMeaning<E> for i16 {
    ghost single = { λ x m is. is };
}

impl<E: Env> PagableSerialize<E> for i16 {
    fn pagable_serialize<S: PagableSerializer<E>>(&self, serializer: &mut S) -> Result<(), Error> {
        serializer.serde().write_i16(*self)
    }
}

impl<'de, E: Env> PagableDeserialize<'de, E> for i16 {
    fn pagable_deserialize<D: PagableDeserializer<E>>(
        _alloc: Global,
        deserializer: &mut D,
    ) -> Result<Self, Error> {
        deserializer.serde().read_i16()
    }
}

impl<E: Env> Carried<E> for i32 {
    ghost shape = { λ e. signed w32 };

    ghost means = { exactly integer };
}

impl<E: Env> OneMeaning<E> for i32 {
    ghost single = { λ x m is. is };
}

impl<E: Env> PagableSerialize<E> for i32 {
    fn pagable_serialize<S: PagableSerializer<E>>(&self, serializer: &mut S) -> Result<(), Error> {
        serializer.serde().write_i32(*self)
    }
}

impl<'de, E: Env> PagableDeserialize<'de, E> for i32 {
    fn pagable_deserialize<D: PagableDeserializer<E>>(
        _alloc: Global,
        deserializer: &mut D,
    ) -> Result<Self, Error> {
        deserializer.serde().read_i32()
    }
}

impl<E: Env> Carried<E> for i64 {
    ghost shape = { λ e. signed w64 };

    ghost means = { exactly integer };
}

impl<E: Env> OneMeaning<E> for i64 {
    ghost single = { λ x m is. is };
}

impl<E: Env> PagableSerialize<E> for i64 {
    fn pagable_serialize<S: PagableSerializer<E>>(&self, serializer: &mut S) -> Result<(), Error> {
        serializer.serde().write_i64(*self)
    }
}

impl<'de, E: Env> PagableDeserialize<'de, E> for i64 {
    fn pagable_deserialize<D: PagableDeserializer<E>>(
        _alloc: Global,
        deserializer: &mut D,
    ) -> Result<Self, Error> {
        deserializer.serde().read_i64()
    }
}

impl<E: Env> Carried<E> for i128 {
    ghost shape = { λ e. signed w128 };

    ghost means = { exactly integer };
}

impl<E: Env> OneMeaning<E> for i128 {
    ghost single = { λ x m is. is };
}

impl<E: Env> PagableSerialize<E> for i128 {
    fn pagable_serialize<S: PagableSerializer<E>>(&self, serializer: &mut S) -> Result<(), Error> {
        serializer.serde().write_i128(*self)
    }
}

impl<'de, E: Env> PagableDeserialize<'de, E> for i128 {
    fn pagable_deserialize<D: PagableDeserializer<E>>(
        _alloc: Global,
        deserializer: &mut D,
    ) -> Result<Self, Error> {
        deserializer.serde().read_i128()
    }
}

impl<E: Env> Carried<E> for bool {
    ghost shape = { λ e. flag };

    ghost means = { exactly flag_meaning };
}

impl<E: Env> OneMeaning<E> for bool {
    ghost single = { λ x m is. is };
}

impl<E: Env> PagableSerialize<E> for bool {
    fn pagable_serialize<S: PagableSerializer<E>>(&self, serializer: &mut S) -> Result<(), Error> {
        serializer.serde().write_bool(*self)
    }
}

impl<'de, E: Env> PagableDeserialize<'de, E> for bool {
    fn pagable_deserialize<D: PagableDeserializer<E>>(
        _alloc: Global,
        deserializer: &mut D,
    ) -> Result<Self, Error> {
        deserializer.serde().read_bool()
    }
}

impl<E: Env> Carried<E> for char {
    ghost shape = { λ e. letter };

    ghost means = { exactly number };
}

impl<E: Env> OneMeaning<E> for char {
    ghost single = { λ x m is. is };
}

impl<E: Env> PagableSerialize<E> for char {
    fn pagable_serialize<S: PagableSerializer<E>>(&self, serializer: &mut S) -> Result<(), Error> {
        serializer.serde().write_char(*self)
    }
}

impl<'de, E: Env> PagableDeserialize<'de, E> for char {
    fn pagable_deserialize<D: PagableDeserializer<E>>(
        _alloc: Global,
        deserializer: &mut D,
    ) -> Result<Self, Error> {
        deserializer.serde().read_char()
    }
}

impl<E: Env> Carried<E> for () {
    ghost shape = { λ e. nothing };

    ghost means = { exactly (λ x. none) };
}

impl<E: Env> OneMeaning<E> for () {
    ghost single = { λ x m is. is };
}

impl<E: Env> PagableSerialize<E> for () {
    ghost write_causes = { writes_never };

    #[tactic(auto, using(pagable_codec::proofs::Writing::parts))]
    fn pagable_serialize<S: PagableSerializer<E>>(&self, _serializer: &mut S) -> Result<(), Error> {
        Ok(())
    }
}

impl<'de, E: Env> PagableDeserialize<'de, E> for () {
    #[tactic(auto, unfolding(pagable_value_spec::specs::Reading::read, pagable_value_spec::specs::Reading::read_with), using(pagable_codec::proofs::Reading::parts))]
    fn pagable_deserialize<D: PagableDeserializer<E>>(
        _alloc: Global,
        _deserializer: &mut D,
    ) -> Result<Self, Error> {
        Ok(())
    }
}

const NANOS_OF_SECOND: u32 = 1_000_000_000;

// Appends the duration's whole seconds, and the nanoseconds beside them.
fn write_duration(span: Duration, writer: &mut PagableVecFlavor) -> Result<(), Error>
    ensures ok { OnOk result (writer.new ≡ writer.old ++ duration_form (seconds_of span) (nanos_of span)) }
    ensures fits { seconds_of span < 2 ^ 64 }
    ensures only { IfErr result IsOutOfMemory }
    ensures grows { Extends writer.old writer.new }
{
    writer.write_u64(span.as_secs())?;
    writer.write_u32(span.subsec_nanos())
}

// Reads seconds and nanoseconds, and carries whole seconds over. Fails with `BadDuration` if the
// seconds overflow.
#[tactic(auto, unfolding(pagable_value_spec::specs::BasicValues::duration_at), using(crate::proofs::Parts::span_overflows, crate::proofs::Parts::span_read))]
fn read_duration<R: Reader>(reader: &mut R) -> Result<Duration, Error>
    ensures gives { MatchesReading no_own_causes (λ d.
        ((seconds_of d, nanos_of d), left (R.reader_state reader.new))) result
        (duration_at (left (R.reader_state reader.old))) }
    ensures moves { MovesForward (R.reader_state reader.old) (R.reader_state reader.new) }
{
    let seconds = reader.read_u64()?;
    let nanos = reader.read_u32()?;
    if seconds > u64::MAX - (nanos / NANOS_OF_SECOND) as u64 {
        return Err(Error::BadDuration);
    }
    Ok(Duration::new(seconds, nanos))
}

impl<E: Env> Carried<E> for Duration {
    ghost shape = { λ e. duration };

    ghost means = { exactly of_span };
}

impl<E: Env> OneMeaning<E> for Duration {
    ghost single = { λ d m is. is };
}

impl<E: Env> PagableSerialize<E> for Duration {
    #[tactic(auto, using(pagable_codec::proofs::Writing::parts, crate::proofs::Parts::writes_span))]
    fn pagable_serialize<S: PagableSerializer<E>>(&self, serializer: &mut S) -> Result<(), Error> {
        write_duration(*self, serializer.serde())
    }
}

impl<'de, E: Env> PagableDeserialize<'de, E> for Duration {
    fn pagable_deserialize<D: PagableDeserializer<E>>(
        _alloc: Global,
        deserializer: &mut D,
    ) -> Result<Self, Error> {
        read_duration(deserializer.serde())
    }
}
