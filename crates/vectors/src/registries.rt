//! Rows of static values and of tagged ones.

ghost use Rattle.pagable_traits.specs.{Meanings.exactly, OwnCauses.{reads_never, writes_never}};
ghost use Rattle.pagable_value_spec.specs.{Meaning.none, Shape.nothing};
ghost use Rattle.vectors.specs.Words.{cat, is_equal, meets_equal, numbers_refer_to_nothing, of_numbers};

use crate::texts::Texts;
use pagable::{
    Env, Error, HasOwnTag, HasStaticValueRegistry, NoReferences, PagableDeserialize,
    PagableDeserializer, PagableDeserializerImpl, PagableSerialize, PagableSerializer,
    PagableSerializerImpl, PagableTagged, SessionContext, StaticBytes, StaticValueEntry,
    StaticValueRegistry, TagReader, TypetagRegistration, TypetagRegistry, WeighHash, from_bytes,
    to_bytes,
};
use std::alloc::Global;

/// An environment with a registry of static bytes.
#[derive(Drop)]
struct Registered {
    blobs: StaticValueRegistry<&'static [u8]>,
}

impl Env for Registered {
    type Node = ();

    type Hash = WeighHash;

    type CtxKey = ();

    type CtxValue = ();

    ghost parts = { λ e number. nothing };
}

impl HasStaticValueRegistry<Registered> for &'static [u8] {
    ghost plain_meaning = { λ x. of_numbers x.now };

    ghost registered_values = { λ e. e.blobs };

    fn registry(env: &Registered) -> &StaticValueRegistry<&'static [u8]> {
        &env.blobs
    }

    ghost same_meaning = { meets_equal };

    ghost same_value = { is_equal };

    ghost holds_no_reference = { λ x. numbers_refer_to_nothing x.now };
}

/// Makes the registry of these values. The registry gives each its index; the index 0 of the entries
/// made here is ignored.
fn registry_of<T: Copy + Ord>(
    alloc: Global,
    values: &[T],
) -> Result<StaticValueRegistry<T>, Error> {
    let mut entries = Vec::new(alloc);
    for value in values {
        entries.push(StaticValueEntry {
            value: *value,
            index: 0,
        })?;
    }
    StaticValueRegistry::from_entries(alloc, entries)
}

/// The static value of these bytes, with its index.
fn static_bytes(env: &Registered, bytes: &'static [u8]) -> Result<StaticBytes, Error> {
    let index = env.blobs.index_of(&bytes).ok_or(Error::Unregistered)?;
    env.blobs.get(index).ok_or(Error::BadStaticIndex)
}

/// Row 22: static values have the places of their order, and are written by them.
pub fn static_values(alloc: Global) -> Result<bool, Error> {
    let words = registry_of(alloc, &["alpha", "beta", "gamma", "delta"])?;
    let places = [
        words.index_of(&"alpha"),
        words.index_of(&"beta"),
        words.index_of(&"gamma"),
        words.index_of(&"delta"),
    ];
    let blobs: [&'static [u8]; 3] = [b"hello", b"world", b""];
    let env = Registered {
        blobs: registry_of(alloc, &blobs)?,
    };
    let hello = static_bytes(&env, b"hello")?;
    let world = static_bytes(&env, b"world")?;
    let empty = static_bytes(&env, b"")?;
    let written = to_bytes(alloc, &env, &(hello, world, empty))?;
    let unknown: Result<StaticBytes, Error> = from_bytes(alloc, &env, &[3]);
    Ok(
        places == [Some(0), Some(1), Some(3), Some(2)]
            && written.as_slice() == [1u8, 2, 0].as_slice()
            && unknown.err() == Some(Error::BadStaticIndex),
    )
}

/// A value with the tag "Cat" and an empty body.
#[derive(Drop)]
struct Cat;

impl PagableTagged<Texts> for Cat {
    ghost tag = { λ x. cat };

    ghost bodies = { λ e tag. nothing };

    ghost body_means = { exactly (λ x. none) };

    ghost body_causes = { writes_never };

    fn pagable_type_tag(&self) -> &'static str {
        "Cat"
    }

    fn pagable_serialize_body<S: PagableSerializer<Texts>>(
        &self,
        serializer: &mut S,
    ) -> Result<(), Error> {
        ().pagable_serialize(serializer)
    }
}

/// The reader of the bodies under the tag "Cat".
#[derive(Clone, Copy)]
struct CatReader;

impl HasOwnTag for CatReader {
    ghost own_tag = { λ r. cat };
}

impl TagReader<Texts, Cat> for CatReader {
    ghost grammar = { λ r e. nothing };

    ghost read_causes = { reads_never };

    fn read<D: PagableDeserializer<Texts>>(
        &self,
        alloc: Global,
        deserializer: &mut D,
    ) -> Result<Cat, Error> {
        let () = PagableDeserialize::pagable_deserialize(alloc, deserializer)?;
        Ok(Cat)
    }
}

/// Reads a tagged value where "Cat" is the one tag that is registered.
fn read_tagged(alloc: Global, bytes: &[u8]) -> Result<Cat, Error> {
    let mut registrations = Vec::new(alloc);
    let tag = String::from_str(alloc, "Cat")?;
    registrations.push(TypetagRegistration::new(tag, CatReader))?;
    let registry = TypetagRegistry::from_registrations(registrations);
    let session = SessionContext::new(alloc);
    let lent = NoReferences::new(&Texts, &session);
    registry.deserialize_tagged(alloc, &mut PagableDeserializerImpl::new(bytes, &[], lent))
}

/// Row 23: a tagged value is its tag as a text and its body, and another tag isn't read.
pub fn tagged_values(alloc: Global) -> Result<bool, Error> {
    let mut out = PagableSerializerImpl::testing_new(alloc, &Texts);
    Cat.serialize_tagged(&mut out)?;
    let written = out.finish()?.bytes;
    let other = read_tagged(alloc, b"\x03Dog").err();
    Ok(
        written.as_slice() == b"\x03Cat".as_slice()
            && read_tagged(alloc, b"\x03Cat").is_ok()
            && other == Some(Error::UnknownTag),
    )
}
