//! A task: an enum among its fields, and a map of counts.

ghost use Rattle.pagable_examples.specs.Tasks.{state_case, state_cases, state_encoding, task_encoding};
ghost use Rattle.pagable_traits.specs.HeldValues.{only_references};

use pagable_flavors::Error;
use pagable_nodes::{
    CaseReader, HasCases, NodeValue, list_case, read_case, write_case, write_with_refs,
};
use pagable_traits::{
    ArcRef, Canonical, Carried, Env, OneMeaning, PagableDeserialize, PagableDeserializer,
    PagableSerialize, PagableSerializer, RawRef, Refers, references_of,
};
use std::alloc::Global;
use std::collections::BTreeMap;

/// What has become of a task.
#[derive(Drop)]
pub enum State {
    /// It isn't done.
    Open,
    /// It is done, with this note.
    Done(String),
    /// Another task takes its place, to which a loose reference leads: tasks have the type number
    /// 0, so the kind of the reference is 1.
    Replaced(RawRef<1>),
}

impl HasCases for State {
    ghost cases = { state_cases };

    ghost case_of = { state_case };
}

impl<E: Env> Carried<E> for State {
    ghost shape = { λ e. state_encoding.shape };

    ghost means = { state_encoding.means };
}

impl<E: Env> OneMeaning<E> for State {
    ghost single = { state_encoding.single };
}

impl<E: Env> Canonical<E> for State {
    ghost one_form = { λ e. state_encoding.one_form (E.parts e) };
}

impl<E: Env> Refers<E> for State {
    fn list_references(&self, list: &mut Vec<ArcRef>) -> Result<(), Error> {
        match self {
            State::Open => list_case::<E, _, _>(self, &(), list),
            State::Done(note) => list_case::<E, _, _>(self, note, list),
            State::Replaced(by) => list_case::<E, _, _>(self, by, list),
        }
    }

    ghost in_order = { λ e. state_encoding.in_order (E.parts e) };
}

impl<E: Env> PagableSerialize<E> for State {
    ghost write_causes = { state_encoding.writes };

    fn pagable_serialize<S: PagableSerializer<E>>(&self, serializer: &mut S) -> Result<(), Error> {
        match self {
            State::Open => write_case(self, 0, &(), serializer),
            State::Done(note) => write_case(self, 1, note, serializer),
            State::Replaced(by) => write_case(self, 2, by, serializer),
        }
    }
}

impl<E: Env> CaseReader<E> for State {
    ghost beside = { only_references };

    fn read_fields<D: PagableDeserializer<E>>(
        number: u32,
        alloc: Global,
        deserializer: &mut D,
    ) -> Result<Self, Error> {
        match number {
            0 => Ok(State::Open),
            1 => {
                let note = PagableDeserialize::<E>::pagable_deserialize(alloc, deserializer)?;
                Ok(State::Done(note))
            }
            2 => {
                let by = PagableDeserialize::<E>::pagable_deserialize(alloc, deserializer)?;
                Ok(State::Replaced(by))
            }
            _ => Err(Error::UnknownTag),
        }
    }
}

impl<'de, E: Env> PagableDeserialize<'de, E> for State {
    ghost read_causes = { state_encoding.reads };

    fn pagable_deserialize<D: PagableDeserializer<E>>(
        alloc: Global,
        deserializer: &mut D,
    ) -> Result<Self, Error> {
        read_case::<E, _, _>(alloc, deserializer)
    }
}

/// A task: a title, a state, and the hours of each person who worked at it.
#[derive(Drop)]
pub struct Task {
    pub title: String,
    pub state: State,
    pub hours: BTreeMap<String, u64>,
}

impl<E: Env> NodeValue<E> for Task {
    ghost encoding = { task_encoding };

    ghost beside = { only_references };

    fn list_refs(&self, alloc: Global) -> Result<Vec<ArcRef>, Error> {
        let fields = (&self.title, &self.state, &self.hours);
        references_of::<E, _>(alloc, &fields)
    }

    fn write<S: PagableSerializer<E>>(&self, serializer: &mut S) -> Result<(), Error> {
        let fields = (&self.title, &self.state, &self.hours);
        write_with_refs(&fields, serializer)
    }

    fn read<D: PagableDeserializer<E>>(alloc: Global, deserializer: &mut D) -> Result<Task, Error> {
        let fields = PagableDeserialize::<E>::pagable_deserialize(alloc, deserializer)?;
        let (title, state, hours) = fields;
        Ok(Task {
            title,
            state,
            hours,
        })
    }
}
