//! A struct of named fields, which are written one after the other, with nothing between them.

ghost use Rattle.pagable_examples.specs.Dishes.{dish_means, dish_single};
ghost use Rattle.pagable_traits.specs.{
  KeyLaws.{key_seen, number_key, pair_key, text_key},
  OwnCauses.{reads_either, reads_memory, reads_never, writes_either, writes_long_or, writes_memory},
  ReadBack.IsReadableThroughout,
};
ghost use Rattle.pagable_value_spec.specs.{
  OneForm.{basic_has_one_form, two_has_one_form},
  Shape.{both, text, unsigned},
};
ghost use Rattle.std.specs.{Int.w16, Prelude.refl, String.string_bytes};

use pagable_flavors::Error;
use pagable_traits::impls::maps::write_entry;
use pagable_traits::{
    Canonical, Carried, Env, OneMeaning, PagableDeserialize, PagableDeserializer, PagableKey,
    PagableSerialize, PagableSerializer,
};
use std::alloc::Global;

/// A dish on the menu.
#[derive(PartialEq, Eq, Hash, Drop)]
pub struct Dish {
    pub name: String,
    /// The weight of the dish in grams.
    pub grams: u16,
}

impl<E: Env> Carried<E> for Dish {
    ghost shape = { λ e. both text (unsigned w16) };

    ghost means = { dish_means };
}

/// Each dish has one meaning: its name and its weight.
impl<E: Env> OneMeaning<E> for Dish {
    ghost single = { dish_single };
}

/// Equal dishes have equal encodings, since a name and a number have one encoding each.
impl<E: Env> Canonical<E> for Dish {
    ghost one_form = { λ e. two_has_one_form (refl, refl) (basic_has_one_form tt) (basic_has_one_form tt) };
}

/// A dish may be a key of a map and an item of a set.
impl<E: Env> PagableKey<E> for Dish {
    ghost key = { key_seen (λ d. (d.name, d.grams)) (pair_key (key_seen string_bytes text_key) number_key) };
}

impl<E: Env> PagableSerialize<E> for Dish {
    ghost write_causes = { writes_either (writes_long_or writes_memory) writes_memory };

    fn pagable_serialize<S: PagableSerializer<E>>(&self, serializer: &mut S) -> Result<(), Error> {
        write_entry(&self.name, &self.grams, serializer)
    }
}

impl<'de, E: Env> PagableDeserialize<'de, E> for Dish {
    ghost read_causes = { reads_either reads_memory reads_never };

    fn pagable_deserialize<D: PagableDeserializer<E>>(
        alloc: Global,
        deserializer: &mut D,
    ) -> Result<Self, Error> {
        let (name, grams) = PagableDeserialize::pagable_deserialize(alloc, deserializer)?;
        Ok(Dish { name, grams })
    }
}

/// Proves that each encoding of a dish is read back, since those of a text and of a number are.
#[tactic(auto, using(crate::specs::Dishes::dish_is_read))]
pub fn dishes_are_read<E: Env>()
    ensures { (e : E) → IsReadableThroughout (E.parts e) (⟦<Dish as Carried<E>>⟧.shape e) }
{}
