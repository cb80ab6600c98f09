//! An environment with registries of static values and of tags.

ghost use Rattle.pagable_examples.specs.{
  Words.{is_equal, meets_equal, numbers_apart, numbers_refer_to_nothing, of_numbers, of_text, text_refers_to_nothing},
  Words.texts_apart,
};
ghost use Rattle.pagable_value_spec.specs.Shape.{nothing};

use crate::animal::{Animal, AnimalReader};
use pagable_core::WeighHash;
use pagable_flavors::Error;
use pagable_traits::{
    Env, HasStaticValueRegistry, HasTypetagRegistry, StaticValueEntry, StaticValueRegistry,
    TypetagRegistration, TypetagRegistry,
};
use std::alloc::{AllocError, Global};

/// An environment without nodes, whose fields are its registries.
#[derive(Drop)]
pub struct Zoo {
    pub words: StaticValueRegistry<&'static str>,
    pub blobs: StaticValueRegistry<&'static [u8]>,
    pub animals: TypetagRegistry<Animal, AnimalReader>,
}

/// Makes the registry of these values. The registry gives each its index; the index 0 of the
/// entries made here is ignored.
fn registry_of<T: Copy + Ord>(
    alloc: Global,
    values: &[T],
) -> Result<StaticValueRegistry<T>, Error> {
    let mut entries = Vec::new(alloc);
    for value in values {
        entries.push(StaticValueEntry {
            value: *value,
            index: 0,
        })?;
    }
    StaticValueRegistry::from_entries(alloc, entries)
}

/// Makes a registration of each reader under its own tag, in their order.
fn registrations_of(
    alloc: Global,
    readers: &[AnimalReader],
) -> Result<Vec<TypetagRegistration<Animal, AnimalReader>>, AllocError> {
    let mut registrations = Vec::new(alloc);
    for reader in readers {
        let tag = String::from_str(alloc, reader.tag())?;
        registrations.push(TypetagRegistration::new(tag, *reader))?;
    }
    Ok(registrations)
}

impl Zoo {
    /// Makes an environment with these static texts and bytes, and registers these readers in their
    /// order.
    ///
    /// # Errors
    ///
    /// - `OutOfMemory`.
    /// - `TooLong` above 4,294,967,295 texts or lists of bytes.
    pub fn new(
        alloc: Global,
        words: &[&'static str],
        blobs: &[&'static [u8]],
        readers: &[AnimalReader],
    ) -> Result<Zoo, Error> {
        let words = registry_of(alloc, words)?;
        let blobs = registry_of(alloc, blobs)?;
        let readers = registrations_of(alloc, readers)?;
        let animals = TypetagRegistry::from_registrations(readers);
        Ok(Zoo {
            words,
            blobs,
            animals,
        })
    }
}

impl Env for Zoo {
    type Node = ();

    type Hash = WeighHash;

    type CtxKey = ();

    type CtxValue = ();

    ghost parts = { λ e number. nothing };
}

impl HasStaticValueRegistry<Zoo> for &'static str {
    ghost plain_meaning = { λ x. of_text x.now };

    ghost registered_values = { λ e. e.words };

    fn registry(env: &Zoo) -> &StaticValueRegistry<&'static str> {
        &env.words
    }

    ghost same_meaning = { meets_equal of_text };

    ghost same_value = { λ x y. is_equal of_text x y texts_apart };

    ghost holds_no_reference = { λ x. text_refers_to_nothing x.now };
}

impl HasStaticValueRegistry<Zoo> for &'static [u8] {
    ghost plain_meaning = { λ x. of_numbers x.now };

    ghost registered_values = { λ e. e.blobs };

    fn registry(env: &Zoo) -> &StaticValueRegistry<&'static [u8]> {
        &env.blobs
    }

    ghost same_meaning = { meets_equal of_numbers };

    ghost same_value = { λ x y. is_equal of_numbers x y numbers_apart };

    ghost holds_no_reference = { λ x. numbers_refer_to_nothing x.now };
}

impl HasTypetagRegistry<Zoo> for Animal {
    type Reader = AnimalReader;

    ghost readers = { λ e. e.animals };

    fn typetag_registry(env: &Zoo) -> &TypetagRegistry<Animal, AnimalReader> {
        &env.animals
    }
}
