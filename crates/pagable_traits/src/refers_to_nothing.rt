//! Impls for values that refer to nothing, such as numbers, texts, patterns and static values.
#![tactic(auto, using(crate::proofs::Listed::parts), unfolding(pagable_value_spec::specs::References::references_in))]

ghost use Rattle.pagable_traits.specs.{
  Refers.{duration_in_order, flag_in_order, json_in_order, letter_in_order, nothing_in_order, pattern_in_order},
  Refers.{signed_in_order, static_in_order, text_in_order, unsigned_in_order},
};
ghost use Rattle.pagable_value_spec.specs.Statics.{meanings_of};
ghost use Rattle.std.specs.Int.{w128, w16, w32, w64, w8};

use crate::impls::texts::PathText;
use crate::references::Refers;
use crate::saved_regex::SavedRegex;
use crate::static_value::{HasStaticValueRegistry, StaticValue};
use pagable_codec::{ArcRef, Env};
use pagable_flavors::Error;
use serde_json::Value;
use std::boxed::BoxedStr;
use std::marker::PhantomData;
use std::time::Duration;

impl<E: Env> Refers<E> for u8 {
    fn list_references(&self, _list: &mut Vec<ArcRef>) -> Result<(), Error> {
        Ok(())
    }

    ghost in_order = { λ e. unsigned_in_order (E.parts e) w8 };
}

impl<E: Env> Refers<E> for u16 {
    fn list_references(&self, _list: &mut Vec<ArcRef>) -> Result<(), Error> {
        Ok(())
    }

    ghost in_order = { λ e. unsigned_in_order (E.parts e) w16 };
}

impl<E: Env> Refers<E> for u32 {
    fn list_references(&self, _list: &mut Vec<ArcRef>) -> Result<(), Error> {
        Ok(())
    }

    ghost in_order = { λ e. unsigned_in_order (E.parts e) w32 };
}

impl<E: Env> Refers<E> for u64 {
    fn list_references(&self, _list: &mut Vec<ArcRef>) -> Result<(), Error> {
        Ok(())
    }

    ghost in_order = { λ e. unsigned_in_order (E.parts e) w64 };
}

impl<E: Env> Refers<E> for usize {
    fn list_references(&self, _list: &mut Vec<ArcRef>) -> Result<(), Error> {
        Ok(())
    }

    ghost in_order = { λ e. unsigned_in_order (E.parts e) w64 };
}

impl<E: Env> Refers<E> for u128 {
    fn list_references(&self, _list: &mut Vec<ArcRef>) -> Result<(), Error> {
        Ok(())
    }

    ghost in_order = { λ e. unsigned_in_order (E.parts e) w128 };
}

impl<E: Env> Refers<E> for i8 {
    fn list_references(&self, _list: &mut Vec<ArcRef>) -> Result<(), Error> {
        Ok(())
    }

    ghost in_order = { λ e. signed_in_order (E.parts e) w8 };
}

impl<E: Env> Refers<E> for i16 {
    fn list_references(&self, _list: &mut Vec<ArcRef>) -> Result<(), Error> {
        Ok(())
    }

    ghost in_order = { λ e. signed_in_order (E.parts e) w16 };
}

impl<E: Env> Refers<E> for i32 {
    fn list_references(&self, _list: &mut Vec<ArcRef>) -> Result<(), Error> {
        Ok(())
    }

    ghost in_order = { λ e. signed_in_order (E.parts e) w32 };
}

impl<E: Env> Refers<E> for i64 {
    fn list_references(&self, _list: &mut Vec<ArcRef>) -> Result<(), Error> {
        Ok(())
    }

    ghost in_order = { λ e. signed_in_order (E.parts e) w64 };
}

impl<E: Env> Refers<E> for i128 {
    fn list_references(&self, _list: &mut Vec<ArcRef>) -> Result<(), Error> {
        Ok(())
    }

    ghost in_order = { λ e. signed_in_order (E.parts e) w128 };
}

impl<E: Env> Refers<E> for bool {
    #[tactic(auto, using(crate::proofs::Listed::flag_listed))]
    fn list_references(&self, _list: &mut Vec<ArcRef>) -> Result<(), Error> {
        Ok(())
    }

    ghost in_order = { λ e. flag_in_order (E.parts e) };
}

impl<E: Env> Refers<E> for char {
    fn list_references(&self, _list: &mut Vec<ArcRef>) -> Result<(), Error> {
        Ok(())
    }

    ghost in_order = { λ e. letter_in_order (E.parts e) };
}

impl<E: Env> Refers<E> for () {
    fn list_references(&self, _list: &mut Vec<ArcRef>) -> Result<(), Error> {
        Ok(())
    }

    ghost in_order = { λ e. nothing_in_order (E.parts e) };
}

impl<E: Env, T> Refers<E> for PhantomData<T> {
    fn list_references(&self, _list: &mut Vec<ArcRef>) -> Result<(), Error> {
        Ok(())
    }

    ghost in_order = { λ e. nothing_in_order (E.parts e) };
}

impl<E: Env> Refers<E> for Duration {
    fn list_references(&self, _list: &mut Vec<ArcRef>) -> Result<(), Error> {
        Ok(())
    }

    ghost in_order = { λ e. duration_in_order (E.parts e) };
}

impl<E: Env> Refers<E> for BoxedStr {
    fn list_references(&self, _list: &mut Vec<ArcRef>) -> Result<(), Error> {
        Ok(())
    }

    ghost in_order = { λ e. text_in_order (E.parts e) };
}

impl<E: Env> Refers<E> for PathText {
    fn list_references(&self, _list: &mut Vec<ArcRef>) -> Result<(), Error> {
        Ok(())
    }

    ghost in_order = { λ e. text_in_order (E.parts e) };
}

impl<E: Env> Refers<E> for String {
    fn list_references(&self, _list: &mut Vec<ArcRef>) -> Result<(), Error> {
        Ok(())
    }

    ghost in_order = { λ e. text_in_order (E.parts e) };
}

impl<E: Env> Refers<E> for SavedRegex {
    fn list_references(&self, _list: &mut Vec<ArcRef>) -> Result<(), Error> {
        Ok(())
    }

    ghost in_order = { λ e. pattern_in_order (E.parts e) };
}

impl<E: Env> Refers<E> for Value {
    #[tactic(auto, using(crate::proofs::Listed::json_listed))]
    fn list_references(&self, _list: &mut Vec<ArcRef>) -> Result<(), Error> {
        Ok(())
    }

    ghost in_order = { λ e. json_in_order (E.parts e) };
}

impl<E: Env, T: HasStaticValueRegistry<E>> Refers<E> for StaticValue<T> {
    #[tactic(auto, using(crate::proofs::Listed::static_listed))]
    fn list_references(&self, _list: &mut Vec<ArcRef>) -> Result<(), Error> {
        Ok(())
    }

    ghost in_order = { λ e. static_in_order (E.parts e) (meanings_of T.plain_meaning (T.registered_values e)) };
}
