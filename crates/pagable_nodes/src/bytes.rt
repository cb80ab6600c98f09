//! Values without references, each written to bytes, or read from bytes, by one call.

ghost use Rattle.pagable_nodes.specs.Bytes.{IsFormOf, ReadsAtStart};
ghost use Rattle.pagable_value_spec.specs.{Writing.{Refused, nesting}, declared.error.Error.TheVariants.WrongKind};
ghost use Rattle.std.specs.Prelude.{IfErr, IfOk, ◌≡◌, ◌⊎◌};

use pagable_core::{NoReferences, PagableDeserializerImpl, PagableSerializerImpl};
use pagable_flavors::Error;
use pagable_traits::{
    Env, PagableDeserialize, PagableDeserializer, PagableSerialize, SessionContext,
};
use std::alloc::Global;

/// Writes a value that refers to nothing, and returns its bytes.
///
/// # Errors
///
/// - `WrongKind` if the value refers to something.
/// - as the value's `pagable_serialize`.
#[tactic(auto, using(crate::proofs::Alone::written_alone))]
pub fn to_bytes<E: Env, T: PagableSerialize<E>>(
    alloc: Global,
    env: &E,
    value: &T,
) -> Result<Vec<u8>, Error>
    ensures form { IfOk result (λ b. IsFormOf (T.means.of value.now) (E.parts env.now) (T.shape env.now) b.items) }
    ensures refused { IfErr result (Refused (T.means.of value.now) (nesting 0 (E.parts env.now)) (T.shape env.now)) }
    ensures only { IfErr result (λ e. T.write_causes.are e ⊎ (e ≡ WrongKind)) }
{
    let mut out = PagableSerializerImpl::testing_new(alloc, env);
    value.pagable_serialize(&mut out)?;
    let data = out.finish()?;
    if !data.arcs.is_empty() {
        return Err(Error::WrongKind);
    }
    Ok(data.bytes)
}

/// Reads a value without references from the start of these bytes, and ignores the bytes after it.
///
/// # Errors
///
/// - the first fault of the bytes.
/// - `NoMoreKeys` if the value has a reference.
/// - a cause of the type's own.
#[tactic(auto, using(crate::proofs::Alone::read_alone))]
pub fn from_bytes<'de, E: Env, T: PagableDeserialize<'de, E>>(
    alloc: Global,
    env: &E,
    bytes: &'de [u8],
) -> Result<T, Error>
    ensures reads { ReadsAtStart T.read_causes.are T.means.of (E.parts env.now) (T.shape env.now) bytes.now result }
{
    let session = SessionContext::new(alloc);
    let lent = NoReferences::new(env, &session);
    let mut reader = PagableDeserializerImpl::new(bytes, &[], lent);
    T::pagable_deserialize(alloc, &mut reader)
}
