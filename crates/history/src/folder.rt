// Printed by pagable_derive: change the declaration instead.
//! A folder: its name, the commit that added it, a file that is read together with it, and its other files.

ghost use Rattle.history.specs.{Nodes.folder_beside, Types.folder_encoding};

use crate::commit::CommitRef;
use crate::file::{File, FileRef};
use crate::history::History;
use pagable_flavors::Error;
use pagable_nodes::{NodeValue, write_with_refs};
use pagable_traits::{
    Arc as Shared, ArcRef, PagableDeserialize, PagableDeserializer, PagableSerializer, RawRef,
    references_of,
};
use std::alloc::Global;

/// A loose reference to a value of `Folder`, whose type number is 2.
pub type FolderRef = RawRef<7>;

/// A folder: its name, the commit that added it, a file that is read together with it, and its other files.
#[derive(Drop)]
pub struct Folder {
    pub name: String,
    pub added_in: CommitRef,
    pub readme: Shared<File>,
    pub files: Vec<FileRef>,
}

impl NodeValue<History> for Folder {
    ghost encoding = { folder_encoding };

    ghost beside = { folder_beside };

    fn list_refs(&self, alloc: Global) -> Result<Vec<ArcRef>, Error> {
        let fields = (&self.name, &self.added_in, &self.readme, &self.files);
        references_of::<History, _>(alloc, &fields)
    }

    fn write<S: PagableSerializer<History>>(&self, serializer: &mut S) -> Result<(), Error> {
        let fields = (&self.name, &self.added_in, &self.readme, &self.files);
        write_with_refs(&fields, serializer)
    }

    #[tactic(auto, using(pagable_nodes::proofs::Held::fields_hold))]
    fn read<D: PagableDeserializer<History>>(
        alloc: Global,
        deserializer: &mut D,
    ) -> Result<Self, Error> {
        let fields = PagableDeserialize::<History>::pagable_deserialize(alloc, deserializer)?;
        let (name, added_in, readme, files) = fields;
        Ok(Folder {
            name,
            added_in,
            readme,
            files,
        })
    }
}
