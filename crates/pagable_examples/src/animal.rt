//! An enum whose values are written as a tag and a body, and the readers of the bodies by their tags.

ghost use Rattle.pagable_examples.specs.Animals.{animal_means, body_of, grammar_of, tag_of, tag_of_reader, written};
ghost use Rattle.pagable_traits.specs.{
  Meanings.exactly,
  OwnCauses.{reads_memory_or, reads_never, writes_long_or, writes_memory_or},
  StaticValues.writes_unregistered,
};
ghost use Rattle.pagable_value_spec.specs.{CarriedTypes.tagged_by, Tagged.grammars};
ghost use Rattle.std.specs.Prelude.{◌≡◌};

use crate::zoo::Zoo;
use pagable_flavors::Error;
use pagable_traits::{
    Carried, HasOwnTag, PagableDeserialize, PagableDeserializer, PagableSerialize,
    PagableSerializer, PagableTagged, TagReader, deserialize_tagged,
};
use std::alloc::Global;

/// An animal. Older versions wrote the number of a cat's lives: such a cat, an `OldCat`, can still
/// be read, but not written.
#[derive(Drop)]
pub enum Animal {
    Cat,
    /// A cat as older versions wrote it, with the number of its lives.
    OldCat(u8),
    /// A dog, with its age in years.
    Dog(u8),
}

/// A reader of an animal's body.
#[derive(Clone, Copy)]
pub enum AnimalReader {
    Cat,
    OldCat,
    Dog,
}

impl AnimalReader {
    /// Returns the tag of the animals that it reads.
    pub fn tag(self) -> &'static str
        ensures { result.now ≡ tag_of_reader self }
    {
        match self {
            AnimalReader::Cat | AnimalReader::OldCat => "Cat",
            AnimalReader::Dog => "Dog",
        }
    }
}

impl PagableTagged<Zoo> for Animal {
    ghost tag = { tag_of };

    ghost bodies = { λ e. written };

    ghost body_means = { exactly body_of };

    ghost body_causes = { writes_memory_or writes_unregistered };

    fn pagable_type_tag(&self) -> &'static str {
        match self {
            Animal::Cat | Animal::OldCat(_) => "Cat",
            Animal::Dog(_) => "Dog",
        }
    }

    /// Writes no byte for a cat, and the age of a dog. Fails with `Unregistered` for an `OldCat`.
    #[tactic(auto, using(pagable_codec::proofs::Writing::parts))]
    fn pagable_serialize_body<S: PagableSerializer<Zoo>>(
        &self,
        serializer: &mut S,
    ) -> Result<(), Error> {
        match self {
            Animal::Cat => ().pagable_serialize(serializer),
            Animal::OldCat(_) => Err(Error::Unregistered),
            Animal::Dog(age) => age.pagable_serialize(serializer),
        }
    }
}

impl HasOwnTag for AnimalReader {
    ghost own_tag = { tag_of_reader };
}

impl TagReader<Zoo, Animal> for AnimalReader {
    ghost grammar = { λ r e. grammar_of r };

    ghost read_causes = { reads_never };

    fn read<D: PagableDeserializer<Zoo>>(
        &self,
        alloc: Global,
        deserializer: &mut D,
    ) -> Result<Animal, Error> {
        match self {
            AnimalReader::Cat => {
                let () = PagableDeserialize::pagable_deserialize(alloc, deserializer)?;
                Ok(Animal::Cat)
            }
            AnimalReader::OldCat => {
                Ok(Animal::OldCat(u8::pagable_deserialize(alloc, deserializer)?))
            }
            AnimalReader::Dog => Ok(Animal::Dog(u8::pagable_deserialize(alloc, deserializer)?)),
        }
    }
}

impl Carried<Zoo> for Animal {
    ghost shape = { λ e. tagged_by written (grammars (λ r e. grammar_of r) e e.animals) };

    ghost means = { animal_means };
}

impl PagableSerialize<Zoo> for Animal {
    ghost write_causes = { writes_long_or (writes_memory_or (writes_memory_or writes_unregistered)) };

    fn pagable_serialize<S: PagableSerializer<Zoo>>(
        &self,
        serializer: &mut S,
    ) -> Result<(), Error> {
        self.serialize_tagged(serializer)
    }
}

impl<'de> PagableDeserialize<'de, Zoo> for Animal {
    ghost read_causes = { reads_memory_or reads_never };

    fn pagable_deserialize<D: PagableDeserializer<Zoo>>(
        alloc: Global,
        deserializer: &mut D,
    ) -> Result<Self, Error> {
        deserialize_tagged(alloc, deserializer)
    }
}
