// Printed by pagable_derive: change the declaration instead.
//! A part of a store: a number, a label, the next part, and a choice.

ghost use Rattle.declared_types.specs.Types.{part_encoding};
ghost use Rattle.pagable_traits.specs.HeldValues.{only_references};

use crate::choice::ChoiceRef;
use pagable_flavors::Error;
use pagable_nodes::{NodeValue, write_with_refs};
use pagable_traits::{
    ArcRef, Env, PagableDeserialize, PagableDeserializer, PagableSerializer, RawRef, references_of,
};
use std::alloc::Global;

/// A loose reference to a value of `Part`, whose type number is 0.
pub type PartRef = RawRef<1>;

/// A part of a store: a number, a label, the next part, and a choice.
#[derive(Drop)]
pub struct Part {
    pub number: u64,
    pub label: String,
    pub next: Option<PartRef>,
    pub choice: ChoiceRef,
}

impl<E: Env> NodeValue<E> for Part {
    ghost encoding = { part_encoding };

    ghost beside = { only_references };

    fn list_refs(&self, alloc: Global) -> Result<Vec<ArcRef>, Error> {
        let fields = (&self.number, &self.label, &self.next, &self.choice);
        references_of::<E, _>(alloc, &fields)
    }

    fn write<S: PagableSerializer<E>>(&self, serializer: &mut S) -> Result<(), Error> {
        let fields = (&self.number, &self.label, &self.next, &self.choice);
        write_with_refs(&fields, serializer)
    }

    fn read<D: PagableDeserializer<E>>(alloc: Global, deserializer: &mut D) -> Result<Self, Error> {
        let fields = PagableDeserialize::<E>::pagable_deserialize(alloc, deserializer)?;
        let (number, label, next, choice) = fields;
        Ok(Part {
            number,
            label,
            next,
            choice,
        })
    }
}
