// Printed by pagable_derive: change the declaration instead.
//! One of three cases.

ghost use Rattle.declared_types.specs.Types.{choice_case, choice_cases, choice_encoding};
ghost use Rattle.pagable_traits.specs.HeldValues.{only_references};

use crate::part::PartRef;
use pagable_flavors::Error;
use pagable_nodes::{CaseReader, HasCases, NodeValue, read_case, references_of_case, write_case};
use pagable_traits::{
    ArcRef, Env, PagableDeserialize, PagableDeserializer, PagableSerializer, RawRef,
};
use std::alloc::Global;

/// A loose reference to a value of `Choice`, whose type number is 1.
pub type ChoiceRef = RawRef<4>;

/// One of three cases.
#[derive(Drop)]
pub enum Choice {
    Nothing,
    Count(u64),
    Named(String, PartRef),
}

impl HasCases for Choice {
    ghost cases = { choice_cases };

    ghost case_of = { choice_case };
}

impl<E: Env> CaseReader<E> for Choice {
    ghost beside = { only_references };

    fn read_fields<D: PagableDeserializer<E>>(
        number: u32,
        alloc: Global,
        deserializer: &mut D,
    ) -> Result<Self, Error> {
        match number {
            0 => Ok(Choice::Nothing),
            1 => {
                let first = PagableDeserialize::<E>::pagable_deserialize(alloc, deserializer)?;
                Ok(Choice::Count(first))
            }
            2 => {
                let fields = PagableDeserialize::<E>::pagable_deserialize(alloc, deserializer)?;
                let (first, second) = fields;
                Ok(Choice::Named(first, second))
            }
            _ => Err(Error::UnknownTag),
        }
    }
}

impl<E: Env> NodeValue<E> for Choice {
    ghost encoding = { choice_encoding };

    ghost beside = { only_references };

    fn list_refs(&self, alloc: Global) -> Result<Vec<ArcRef>, Error> {
        match self {
            Choice::Nothing => references_of_case::<E, _, _>(alloc, self, &()),
            Choice::Count(first) => references_of_case::<E, _, _>(alloc, self, first),
            Choice::Named(first, second) => {
                references_of_case::<E, _, _>(alloc, self, &(first, second))
            }
        }
    }

    fn write<S: PagableSerializer<E>>(&self, serializer: &mut S) -> Result<(), Error> {
        match self {
            Choice::Nothing => write_case(self, 0, &(), serializer),
            Choice::Count(first) => write_case(self, 1, first, serializer),
            Choice::Named(first, second) => write_case(self, 2, &(first, second), serializer),
        }
    }

    fn read<D: PagableDeserializer<E>>(alloc: Global, deserializer: &mut D) -> Result<Self, Error> {
        read_case::<E, _, _>(alloc, deserializer)
    }
}
