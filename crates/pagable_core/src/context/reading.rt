//! The deserializer of one blob.

ghost use Rattle.pagable_core.specs.Context.{at_front};
ghost use Rattle.std.specs.Prelude.{◌≡◌};

use crate::context::keys::PagableKeys;
use crate::context::references::References;
use pagable_codec::{
    ArcRef, Env, Kind, OfNode, PagableCursor, PagableDeserializer, Reader, SessionContext,
};
use pagable_flavors::{DataKey, Error, PagableSlice};
use std::alloc::Global;
use std::sync::Arc;

/// A deserializer of one blob's bytes and keys. `B` reads the bytes; `R` returns the references,
/// and lends the environment and the session's context. Bytes and keys may be left over after a
/// value: that is no error.
#[derive(Drop)]
pub struct PagableDeserializerImpl<'de, B, R> {
    reader: B,
    keys: PagableKeys<'de>,
    levels: usize,
    references: R,
}

impl<'de, R> PagableDeserializerImpl<'de, PagableSlice<'de>, R> {
    /// Creates a deserializer at the start of the bytes and keys, with no level entered.
    pub fn new<E: Env>(
        bytes: &'de [u8],
        arcs: &'de [DataKey],
        references: R,
    ) -> PagableDeserializerImpl<'de, PagableSlice<'de>, R>
    where
        R: References<E>,
        ensures input_state { ⟦<PagableDeserializerImpl<'de, PagableSlice<'de>, R> as PagableDeserializer<E>>⟧.input_state result
            ≡ at_front (R.answer references) (R.lends_at references) bytes.now arcs.now }
        ensures levels { ⟦<PagableDeserializerImpl<'de, PagableSlice<'de>, R> as PagableDeserializer<E>>⟧.levels result
            ≡ 0 }
        ensures env { ⟦<PagableDeserializerImpl<'de, PagableSlice<'de>, R> as PagableDeserializer<E>>⟧.environment result
            ≡ R.environment references }
        ensures lends { ⟦<PagableDeserializerImpl<'de, PagableSlice<'de>, R> as PagableDeserializer<E>>⟧.lends result
            ≡ R.lends references }
    {
        PagableDeserializerImpl {
            reader: PagableSlice::new(bytes),
            keys: PagableKeys::new(arcs),
            levels: 0,
            references,
        }
    }

    /// Ends the deserializer and returns the `References` that it was made with.
    pub fn finish(self) -> R
        ensures { result ≡ self.entry.references }
    {
        self.references
    }
}

impl<'de, E: Env, B: Reader, R: References<E>> PagableDeserializer<E>
    for PagableDeserializerImpl<'de, B, R> {
    type Reader = B;

    ghost use Rattle.{pagable_core.specs.Context.{moves_of, input_state_at}, pagable_value_spec.specs.Cursor.rest_at, std.specs.Prelude.refl};

    ghost input_state = { λ s. input_state_at (R.answer s.references) (R.lends_at s.references) s.keys
        (B.reader_state s.reader) };

    ghost rest = { λ s. rest_at (input_state_at (R.answer s.references) (R.lends_at s.references) s.keys
        (B.reader_state s.reader)) };

    ghost levels = { λ s. s.levels };

    ghost environment = { λ s. R.environment s.references };

    ghost reader = { λ s. s.reader };

    ghost lends = { λ s. R.lends s.references };

    ghost with_reader = { λ s r. record s { reader = r } };

    ghost rest_is = { λ s. refl };

    ghost bytes_are = { λ s. refl };

    ghost rest_of_with = { λ s r. refl };

    ghost moves_of_with = { λ s r goes. moves_of (R.answer s.references) (R.lends_at s.references) s.keys
        (B.reader_state s.reader) (B.reader_state r) goes };

    ghost levels_of_with = { λ s r. refl };

    ghost environment_of_with = { λ s r. refl };

    fn serde(&mut self) -> &mut B {
        &mut self.reader
    }

    fn deserialize_arc(&mut self, kind: Kind) -> Result<ArcRef, Error> {
        let place = self.keys.position();
        match self.keys.next_key() {
            None => Err(Error::NoMoreKeys),
            Some(key) => self.references.reference(place, key, kind),
        }
    }

    fn shared<T: OfNode<E>>(
        &self,
        alloc: Global,
        reference: ArcRef,
    ) -> Result<Option<Arc<T>>, Error> {
        match self.references.shared(reference) {
            None => Ok(None),
            Some(node) => T::from_node(alloc, node),
        }
    }

    #[tactic(auto, using(crate::proofs::Taking::length_of_answers))]
    fn position(&self) -> PagableCursor {
        PagableCursor {
            byte_pos: self.reader.position(),
            arc_index: self.keys.position(),
        }
    }

    #[tactic(auto, using(crate::proofs::Taking::length_of_answers))]
    fn seek(&mut self, cursor: PagableCursor) {
        self.reader.set_position(cursor.byte_pos);
        self.keys.set_position(cursor.arc_index);
    }

    fn enter(&mut self) -> Result<(), Error> {
        if self.levels >= 128 {
            return Err(Error::TooDeep);
        }
        self.levels += 1;
        Ok(())
    }

    fn leave(&mut self) {
        self.levels -= 1;
    }

    fn env(&self) -> &E {
        self.references.env()
    }

    fn session_context(&self) -> &SessionContext<E::CtxKey, E::CtxValue> {
        self.references.session_context()
    }
}
