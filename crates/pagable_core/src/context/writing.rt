//! The serializer that collects bytes and references.

ghost use Rattle.pagable_core.specs.Context.{nothing, out_of, pair_out, written};
ghost use Rattle.std.specs.Prelude.{IfOk, IsOk, refl, ◌≡◌};

use crate::context::references::SessionOf;
use pagable_codec::{ArcRef, Env, PagableCursor, PagableSerializer, SessionContext};
use pagable_flavors::{Error, PagableVecFlavor};
use std::alloc::Global;

/// A value's bytes, and its references in the order in which they were written.
#[derive(Debug, PartialEq, Drop)]
pub struct SerializedData {
    pub bytes: Vec<u8>,
    pub arcs: Vec<ArcRef>,
}

/// A serializer that writes to memory. It borrows the environment, and has a session's context, its
/// own or a borrowed one; no clause says which. Writing takes no lock.
#[derive(Drop)]
pub struct SerializerOver<'e, E, S> {
    writer: PagableVecFlavor,
    arcs: Vec<ArcRef>,
    levels: usize,
    env: &'e E,
    session: S,
}

impl<'e, E, S> SerializerOver<'e, E, S> {
    /// Creates an empty serializer with this session. It allocates nothing.
    fn with_session(alloc: Global, env: &'e E, session: S) -> SerializerOver<'e, E, S>
        ensures out { written result ≡ nothing }
        ensures levels { result.levels ≡ 0 }
        ensures env { result.env.now ≡ env.now }
    {
        SerializerOver {
            writer: PagableVecFlavor::new(alloc),
            arcs: Vec::new(alloc),
            levels: 0,
            env,
            session,
        }
    }
}

/// A serializer that owns its session's context.
pub type PagableSerializerImpl<'e, E> = SerializerOver<'e, E, SessionOf<E>>;

/// The serializer to which page-out writes a value; it borrows the session's context.
pub type SerializerForPaging<'e, E> = SerializerOver<'e, E, &'e SessionOf<E>>;

impl<'e, E: Env> SerializerForPaging<'e, E> {
    /// Creates an empty serializer. It allocates nothing.
    pub fn new(alloc: Global, env: &'e E, session: &'e SessionOf<E>) -> SerializerForPaging<'e, E>
        ensures out { ⟦<SerializerForPaging<'e, E> as PagableSerializer<E>>⟧.out result ≡ nothing }
        ensures levels { ⟦<SerializerForPaging<'e, E> as PagableSerializer<E>>⟧.levels result ≡ 0 }
        ensures env { ⟦<SerializerForPaging<'e, E> as PagableSerializer<E>>⟧.environment result ≡ env.now }
    {
        SerializerOver::with_session(alloc, env, session)
    }

    /// Returns the bytes, and the references in the order in which they were written.
    pub fn finish(self) -> (Vec<u8>, Vec<ArcRef>)
        ensures { pair_out result ≡ ⟦<SerializerForPaging<'e, E> as PagableSerializer<E>>⟧.out self.entry }
    {
        (self.writer.finalize(), self.arcs)
    }
}

impl<'e, E: Env> PagableSerializerImpl<'e, E> {
    /// Creates an empty serializer with a new context. It allocates nothing.
    pub fn testing_new(alloc: Global, env: &'e E) -> PagableSerializerImpl<'e, E>
        ensures out { ⟦<PagableSerializerImpl<'e, E> as PagableSerializer<E>>⟧.out result ≡ nothing }
        ensures levels { ⟦<PagableSerializerImpl<'e, E> as PagableSerializer<E>>⟧.levels result ≡ 0 }
        ensures env { ⟦<PagableSerializerImpl<'e, E> as PagableSerializer<E>>⟧.environment result ≡ env.now }
    {
        SerializerOver::with_session(alloc, env, SessionContext::new(alloc))
    }

    /// Returns what was written. It never fails.
    pub fn finish(self) -> Result<SerializedData, Error>
        ensures ok { IsOk result }
        ensures data { IfOk result (λ d. out_of d
            ≡ ⟦<PagableSerializerImpl<'e, E> as PagableSerializer<E>>⟧.out self.entry) }
    {
        let (arcs, bytes) = (self.arcs, self.writer.finalize());
        Ok(SerializedData { bytes, arcs })
    }
}

impl<'e, E: Env, S: AsRef<SessionContext<E::CtxKey, E::CtxValue>>> PagableSerializer<E>
    for SerializerOver<'e, E, S> {
    ghost out = { written };

    ghost levels = { λ s. s.levels };

    ghost environment = { λ s. s.env.now };

    ghost with_bytes = { λ s bytes. record s { writer = bytes } };

    ghost out_of_with = { λ s w. refl };

    ghost levels_of_with = { λ s w. refl };

    ghost environment_of_with = { λ s w. refl };

    fn serde(&mut self) -> &mut PagableVecFlavor {
        &mut self.writer
    }

    fn serialize_arc(&mut self, reference: ArcRef) -> Result<(), Error> {
        self.arcs.push(reference)?;
        Ok(())
    }

    fn position(&self) -> PagableCursor {
        PagableCursor {
            byte_pos: self.writer.position(),
            arc_index: self.arcs.len(),
        }
    }

    fn write_at(&mut self, position: usize, bytes: &[u8]) {
        self.writer.write_at(position, bytes);
    }

    fn enter(&mut self) -> Result<(), Error> {
        if self.levels >= 128 {
            return Err(Error::TooDeep);
        }
        self.levels += 1;
        Ok(())
    }

    fn leave(&mut self) {
        self.levels -= 1;
    }

    fn env(&self) -> &E {
        self.env
    }

    fn session_context(&self) -> &SessionContext<E::CtxKey, E::CtxValue> {
        self.session.as_ref()
    }
}
