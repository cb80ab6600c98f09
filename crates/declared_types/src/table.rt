// Printed by pagable_derive: change the declaration instead.
//! A list of parts, and counts by names.

ghost use Rattle.declared_types.specs.Types.{table_encoding};
ghost use Rattle.pagable_traits.specs.HeldValues.{only_references};

use crate::part::PartRef;
use pagable_flavors::Error;
use pagable_nodes::{NodeValue, write_with_refs};
use pagable_traits::{
    ArcRef, Env, PagableDeserialize, PagableDeserializer, PagableSerializer, RawRef, references_of,
};
use std::alloc::Global;
use std::collections::BTreeMap;

/// A loose reference to a value of `Table`, whose type number is 2.
pub type TableRef = RawRef<7>;

/// A list of parts, and counts by names.
#[derive(Drop)]
pub struct Table {
    pub parts: Vec<PartRef>,
    pub counts: BTreeMap<String, u64>,
}

impl<E: Env> NodeValue<E> for Table {
    ghost encoding = { table_encoding };

    ghost beside = { only_references };

    fn list_refs(&self, alloc: Global) -> Result<Vec<ArcRef>, Error> {
        let fields = (&self.parts, &self.counts);
        references_of::<E, _>(alloc, &fields)
    }

    fn write<S: PagableSerializer<E>>(&self, serializer: &mut S) -> Result<(), Error> {
        let fields = (&self.parts, &self.counts);
        write_with_refs(&fields, serializer)
    }

    fn read<D: PagableDeserializer<E>>(alloc: Global, deserializer: &mut D) -> Result<Self, Error> {
        let fields = PagableDeserialize::<E>::pagable_deserialize(alloc, deserializer)?;
        let (parts, counts) = fields;
        Ok(Table { parts, counts })
    }
}
