//! The environment and the session that all reading and writing over one storage share.

ghost use Rattle.std.specs.Prelude.{◌≡◌};

use crate::context::references::SessionOf;
use pagable_codec::{Env, SessionContext};
use std::alloc::Global;

/// The environment, and the context of the one session in which all values over a storage are read
/// and written.
#[derive(Drop)]
pub struct Setting<E: Env> {
    pub env: E,
    pub session: SessionOf<E>,
}

impl<E: Env> Setting<E> {
    /// Joins an environment with a session that holds no value yet. It allocates nothing.
    pub fn new(alloc: Global, env: E) -> Setting<E>
        ensures { result.env ≡ env }
    {
        let session = SessionContext::new(alloc);
        Setting { env, session }
    }
}
