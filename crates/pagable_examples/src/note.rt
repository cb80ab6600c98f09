//! A note: a struct that stands in values of other types, encoded as the tuple of its fields.

ghost use Rattle.pagable_examples.specs.Notes.{note_encoding};
ghost use Rattle.pagable_traits.specs.ReadBack.{IsReadableThroughout};

use pagable_flavors::Error;
use pagable_traits::{
    ArcRef, Canonical, Carried, Env, OneMeaning, PagableDeserialize, PagableDeserializer,
    PagableSerialize, PagableSerializer, RawRef, Refers,
};
use std::alloc::Global;

/// A note.
#[derive(Drop)]
pub struct Note {
    /// When the note was made, in seconds since 1970.
    pub time: u64,
    pub text: String,
    /// What the note is about: a value of the type number 0, so the reference is of the kind 1.
    pub about: Option<RawRef<1>>,
}

impl<E: Env> Carried<E> for Note {
    ghost shape = { λ e. note_encoding.shape };

    ghost means = { note_encoding.means };
}

impl<E: Env> OneMeaning<E> for Note {
    ghost single = { note_encoding.single };
}

impl<E: Env> Canonical<E> for Note {
    ghost one_form = { λ e. note_encoding.one_form (E.parts e) };
}

impl<E: Env> Refers<E> for Note {
    fn list_references(&self, list: &mut Vec<ArcRef>) -> Result<(), Error> {
        let fields = (&self.time, &self.text, &self.about);
        Refers::<E>::list_references(&fields, list)
    }

    ghost in_order = { λ e. note_encoding.in_order (E.parts e) };
}

impl<E: Env> PagableSerialize<E> for Note {
    ghost write_causes = { note_encoding.writes };

    fn pagable_serialize<S: PagableSerializer<E>>(&self, serializer: &mut S) -> Result<(), Error> {
        let fields = (&self.time, &self.text, &self.about);
        fields.pagable_serialize(serializer)
    }
}

impl<'de, E: Env> PagableDeserialize<'de, E> for Note {
    ghost read_causes = { note_encoding.reads };

    fn pagable_deserialize<D: PagableDeserializer<E>>(
        alloc: Global,
        deserializer: &mut D,
    ) -> Result<Self, Error> {
        let fields = PagableDeserialize::pagable_deserialize(alloc, deserializer)?;
        let (time, text, about) = fields;
        Ok(Note { time, text, about })
    }
}

/// Proves that a reader reads back each encoding of a note.
#[tactic(auto, using(crate::specs::Notes::note_is_read))]
pub fn notes_are_read<E: Env>()
    ensures { (e : E) → IsReadableThroughout (E.parts e) (⟦<Note as Carried<E>>⟧.shape e) }
{}
