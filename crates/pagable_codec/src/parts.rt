//! Flags and counts: the first part of the encodings of options, lists, maps and other types.

ghost use Rattle.pagable_value_spec.specs.{
  BasicValues.{bool_at, bool_form, length_at, length_form, longest},
  Cursor.MovesOn,
  Lengths.long_or_memory,
  Outcomes.{IsOutOfMemory, MatchesReading, no_own_causes},
  Reading.bytes_of,
  Writing.{Grows, added},
};
ghost use Rattle.std.specs.Prelude.{IfErr, OnOk, length, min, [], ◌≡◌, ◌≤◌};

use crate::deserializer::PagableDeserializer;
use crate::env::Env;
use crate::serializer::PagableSerializer;
use pagable_flavors::{Error, Reader};

/// Writes a flag.
///
/// # Errors
///
/// - `OutOfMemory` only.
#[tactic(auto, using(crate::proofs::Writing::parts, crate::proofs::Writing::steps))]
pub fn write_flag<E: Env, S: PagableSerializer<E>>(
    flag: bool,
    serializer: &mut S,
) -> Result<(), Error>
    ensures ok { OnOk result (S.out serializer.new ≡ added (S.out serializer.old) (bool_form flag) []) }
    ensures only { IfErr result IsOutOfMemory }
    ensures grows { Grows (S.out serializer.old) (S.out serializer.new) }
    ensures same_env { S.environment serializer.new ≡ S.environment serializer.old }
    ensures same_levels { S.levels serializer.new ≡ S.levels serializer.old }
{
    serializer.serde().write_bool(flag)
}

/// Writes how many items follow.
///
/// # Errors
///
/// - `TooLong` only if the count is above 4,294,967,295.
/// - `OutOfMemory`.
#[tactic(auto, using(crate::proofs::Writing::parts, crate::proofs::Writing::steps))]
pub fn write_count<E: Env, S: PagableSerializer<E>>(
    count: usize,
    serializer: &mut S,
) -> Result<(), Error>
    ensures ok { OnOk result (S.out serializer.new ≡ added (S.out serializer.old) (length_form count) []) }
    ensures within { OnOk result (count ≤ longest) }
    ensures only { IfErr result (long_or_memory count) }
    ensures grows { Grows (S.out serializer.old) (S.out serializer.new) }
    ensures same_env { S.environment serializer.new ≡ S.environment serializer.old }
    ensures same_levels { S.levels serializer.new ≡ S.levels serializer.old }
{
    serializer.serde().write_len(count)
}

/// Reads a flag.
///
/// # Errors
///
/// - `BadBool` if the byte is neither 0 nor 1.
/// - `UnexpectedEnd` if no byte is left.
pub fn read_flag<E: Env, D: PagableDeserializer<E>>(deserializer: &mut D) -> Result<bool, Error>
    ensures gives { MatchesReading no_own_causes (λ b. (b, D.rest deserializer.new)) result
        (bytes_of bool_at (λ b. b) (D.rest deserializer.old)) }
    ensures moves { MovesOn (D.input_state deserializer.old) (D.input_state deserializer.new) }
    ensures same_env { D.environment deserializer.new ≡ D.environment deserializer.old }
    ensures same_levels { D.levels deserializer.new ≡ D.levels deserializer.old }
{
    deserializer.serde().read_bool()
}

/// Reads how many items follow.
///
/// # Errors
///
/// - `TooLong` if the count is above 4,294,967,295.
/// - `UnexpectedEnd`, `BadVarint` as the reader's `read_u64`.
pub fn read_count<E: Env, D: PagableDeserializer<E>>(deserializer: &mut D) -> Result<usize, Error>
    ensures gives { MatchesReading no_own_causes (λ n. (n, D.rest deserializer.new)) result
        (bytes_of length_at (λ n. n) (D.rest deserializer.old)) }
    ensures moves { MovesOn (D.input_state deserializer.old) (D.input_state deserializer.new) }
    ensures same_env { D.environment deserializer.new ≡ D.environment deserializer.old }
    ensures same_levels { D.levels deserializer.new ≡ D.levels deserializer.old }
{
    deserializer.serde().read_len()
}

/// Returns the number of items to reserve room for: `count`, but at most the number of bytes left,
/// so that a count alone reserves no memory.
pub fn items_to_reserve<E: Env, D: PagableDeserializer<E>>(
    count: usize,
    deserializer: &mut D,
) -> usize
    ensures few { result ≡ min count (length (D.rest deserializer.old).bytes) }
    ensures same_rest { D.rest deserializer.new ≡ D.rest deserializer.old }
    ensures moves { MovesOn (D.input_state deserializer.old) (D.input_state deserializer.new) }
    ensures same_env { D.environment deserializer.new ≡ D.environment deserializer.old }
    ensures same_levels { D.levels deserializer.new ≡ D.levels deserializer.old }
{
    count.min(deserializer.serde().size_hint())
}
