// Printed by pagable_derive: change the declaration instead.
//! What was done to a store. Its cases are stored by their names.

ghost use Rattle.declared_types.specs.{
  Nodes.change_beside,
  Types.{change_case, change_cases, change_encoding, change_tags},
};
ghost use Rattle.std.specs.Prelude.{refl};

use crate::part::Part;
use crate::store::Store;
use crate::table::Table;
use pagable_flavors::Error;
use pagable_nodes::{
    CaseReader, HasCases, HasTags, NodeValue, read_tagged_case, references_of_tagged_case,
    write_tagged_case,
};
use pagable_traits::{
    Arc as Shared, ArcRef, PagableDeserialize, PagableDeserializer, PagableSerializer,
    PinnedPagableArc as Pinned, RawRef,
};
use std::alloc::Global;
use std::collections::BTreeMap;

/// A loose reference to a value of `Change`, whose type number is 3.
pub type ChangeRef = RawRef<10>;

/// What was done to a store. Its cases are stored by their names.
#[derive(Drop)]
pub enum Change {
    Cleared,
    Counted(BTreeMap<String, u64>),
    Replaced {
        part: Pinned<Part>,
        table: Shared<Table>,
    },
}

impl HasCases for Change {
    ghost cases = { change_cases };

    ghost case_of = { change_case };
}

impl HasTags for Change {
    ghost tags = { change_tags };

    fn case_of_tag(tag: &str) -> u32 {
        match tag {
            "Cleared" => 0,
            "Counted" => 1,
            "Replaced" => 2,
            _ => 3,
        }
    }

    ghost fit = { refl };
}

impl CaseReader<Store> for Change {
    ghost beside = { change_beside };

    #[tactic(auto, using(pagable_nodes::proofs::Held::fields_hold))]
    fn read_fields<D: PagableDeserializer<Store>>(
        number: u32,
        alloc: Global,
        deserializer: &mut D,
    ) -> Result<Self, Error> {
        match number {
            0 => Ok(Change::Cleared),
            1 => {
                let first = PagableDeserialize::<Store>::pagable_deserialize(alloc, deserializer)?;
                Ok(Change::Counted(first))
            }
            2 => {
                let fields = PagableDeserialize::<Store>::pagable_deserialize(alloc, deserializer)?;
                let (part, table) = fields;
                Ok(Change::Replaced { part, table })
            }
            _ => Err(Error::UnknownTag),
        }
    }
}

impl NodeValue<Store> for Change {
    ghost encoding = { change_encoding };

    ghost beside = { change_beside };

    fn list_refs(&self, alloc: Global) -> Result<Vec<ArcRef>, Error> {
        match self {
            Change::Cleared => references_of_tagged_case::<Store, _, _>(alloc, self, &()),
            Change::Counted(first) => references_of_tagged_case::<Store, _, _>(alloc, self, first),
            Change::Replaced { part, table } => {
                references_of_tagged_case::<Store, _, _>(alloc, self, &(part, table))
            }
        }
    }

    fn write<S: PagableSerializer<Store>>(&self, serializer: &mut S) -> Result<(), Error> {
        match self {
            Change::Cleared => write_tagged_case(self, 0, "Cleared", &(), serializer),
            Change::Counted(first) => write_tagged_case(self, 1, "Counted", first, serializer),
            Change::Replaced { part, table } => {
                write_tagged_case(self, 2, "Replaced", &(part, table), serializer)
            }
        }
    }

    fn read<D: PagableDeserializer<Store>>(
        alloc: Global,
        deserializer: &mut D,
    ) -> Result<Self, Error> {
        read_tagged_case::<Store, _, _>(alloc, deserializer)
    }
}
