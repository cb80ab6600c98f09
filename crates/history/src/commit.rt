// Printed by pagable_derive: change the declaration instead.
//! A commit: when it was made, in seconds since 1970, its message, and the commits that it follows.

ghost use Rattle.history.specs.Types.{commit_encoding};
ghost use Rattle.pagable_traits.specs.HeldValues.{only_references};

use pagable_flavors::Error;
use pagable_nodes::{NodeValue, write_with_refs};
use pagable_traits::{
    ArcRef, Env, PagableDeserialize, PagableDeserializer, PagableSerializer, RawRef, references_of,
};
use std::alloc::Global;

/// A loose reference to a value of `Commit`, whose type number is 0.
pub type CommitRef = RawRef<1>;

/// A commit: when it was made, in seconds since 1970, its message, and the commits that it follows.
#[derive(Drop)]
pub struct Commit {
    pub time: u64,
    pub message: String,
    pub parent: Option<CommitRef>,
    pub merged: Option<CommitRef>,
}

impl<E: Env> NodeValue<E> for Commit {
    ghost encoding = { commit_encoding };

    ghost beside = { only_references };

    fn list_refs(&self, alloc: Global) -> Result<Vec<ArcRef>, Error> {
        let fields = (&self.time, &self.message, &self.parent, &self.merged);
        references_of::<E, _>(alloc, &fields)
    }

    fn write<S: PagableSerializer<E>>(&self, serializer: &mut S) -> Result<(), Error> {
        let fields = (&self.time, &self.message, &self.parent, &self.merged);
        write_with_refs(&fields, serializer)
    }

    fn read<D: PagableDeserializer<E>>(alloc: Global, deserializer: &mut D) -> Result<Self, Error> {
        let fields = PagableDeserialize::<E>::pagable_deserialize(alloc, deserializer)?;
        let (time, message, parent, merged) = fields;
        Ok(Commit {
            time,
            message,
            parent,
            merged,
        })
    }
}
