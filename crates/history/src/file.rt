// Printed by pagable_derive: change the declaration instead.
//! A file: its length in bytes, its text, and the folder that it stands in.

ghost use Rattle.history.specs.Types.{file_encoding};
ghost use Rattle.pagable_traits.specs.HeldValues.{only_references};

use crate::folder::FolderRef;
use pagable_flavors::Error;
use pagable_nodes::{NodeValue, write_with_refs};
use pagable_traits::{
    ArcRef, Env, PagableDeserialize, PagableDeserializer, PagableSerializer, RawRef, references_of,
};
use std::alloc::Global;

/// A loose reference to a value of `File`, whose type number is 1.
pub type FileRef = RawRef<4>;

/// A file: its length in bytes, its text, and the folder that it stands in.
#[derive(Drop)]
pub struct File {
    pub length: u64,
    pub text: String,
    pub folder: Option<FolderRef>,
}

impl<E: Env> NodeValue<E> for File {
    ghost encoding = { file_encoding };

    ghost beside = { only_references };

    fn list_refs(&self, alloc: Global) -> Result<Vec<ArcRef>, Error> {
        let fields = (&self.length, &self.text, &self.folder);
        references_of::<E, _>(alloc, &fields)
    }

    fn write<S: PagableSerializer<E>>(&self, serializer: &mut S) -> Result<(), Error> {
        let fields = (&self.length, &self.text, &self.folder);
        write_with_refs(&fields, serializer)
    }

    fn read<D: PagableDeserializer<E>>(alloc: Global, deserializer: &mut D) -> Result<Self, Error> {
        let fields = PagableDeserialize::<E>::pagable_deserialize(alloc, deserializer)?;
        let (length, text, folder) = fields;
        Ok(File {
            length,
            text,
            folder,
        })
    }
}
