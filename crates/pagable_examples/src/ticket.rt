//! A type that is written and read eagerly: it holds no reference, and doesn't implement `Carried`.

ghost use Rattle.pagable_traits.specs.{Meanings.exactly, OwnCauses.{reads_never, writes_memory}};
ghost use Rattle.pagable_value_spec.specs.{Meaning.number, Shape.unsigned};
ghost use Rattle.std.specs.Int.{w16};

use pagable_flavors::Error;
use pagable_traits::{
    EagerlyCarried, Env, PagableDeserializer, PagableEagerDeserialize, PagableEagerSerialize,
    PagableSerializer, Reader,
};
use std::alloc::Global;

/// A ticket.
#[derive(Clone, Copy)]
pub struct Ticket {
    pub number: u16,
}

impl<E: Env> EagerlyCarried<E> for Ticket {
    ghost eager_shape = { λ e. unsigned w16 };

    ghost eager_means = { exactly (λ t. number t.number) };
}

impl<E: Env> PagableEagerSerialize<E> for Ticket {
    ghost eager_write_causes = { writes_memory };

    #[tactic(auto, using(pagable_codec::proofs::Writing::parts))]
    fn eager_pagable_serialize<S: PagableSerializer<E>>(
        &self,
        serializer: &mut S,
    ) -> Result<(), Error> {
        serializer.serde().write_u16(self.number)
    }
}

impl<'de, E: Env> PagableEagerDeserialize<'de, E> for Ticket {
    ghost eager_read_causes = { reads_never };

    #[tactic(auto, unfolding(pagable_value_spec::specs::Reading::read, pagable_value_spec::specs::Reading::read_with), using(pagable_codec::proofs::Reading::parts))]
    fn eager_pagable_deserialize<D: PagableDeserializer<E>>(
        _alloc: Global,
        deserializer: &mut D,
    ) -> Result<Self, Error> {
        let number = deserializer.serde().read_u16()?;
        Ok(Ticket { number })
    }
}
