//! A scope of handles: which handles a piece of work has made and not ended, and where.

ghost use Rattle.pagable_typed.specs.Scopes.{is_other};
ghost use Rattle.std.specs.Prelude.{IfErr, IfOk, OnErr, OnOk, filter, [], ◌++◌, ◌∷◌, ◌≡◌};

use pagable_codec::Env;
use pagable_traits::ArcErase;
use pagable_value_spec::{Error, HandleNumber};
use std::alloc::Global;
use std::marker::PhantomData;

/// A handle that was made in a scope and isn't ended.
#[derive(Clone, Copy)]
pub struct OpenHandle {
    /// The handle.
    pub handle: HandleNumber,
    /// Where it was made, in the caller's words.
    pub place: &'static str,
}

/// The handles that a piece of work has made and not ended. The work keeps each one here once it is
/// made, and ends it here before it is released. Whoever made the scope sees in `open_handles` what is left,
/// also if the work has failed in between.
#[derive(Drop)]
pub struct HandleScope<E: Env> {
    handles: Vec<OpenHandle>,
    env: PhantomData<E>,
}

impl<E: Env> HandleScope<E> {
    /// Makes a scope without handles.
    pub fn new(alloc: Global) -> HandleScope<E>
        ensures { result.handles.items ≡ [] }
    {
        HandleScope {
            handles: Vec::new(alloc),
            env: PhantomData,
        }
    }

    /// Keeps the handle of a reference or a pin that was made at this place.
    ///
    /// # Errors
    ///
    /// - `OutOfMemory` with what was made: the scope is as it was.
    pub fn keep<A: ArcErase<E>>(&mut self, place: &'static str, made: A) -> Result<A, (Error, A)>
        ensures kept { OnOk result (self.new.handles.items ≡ self.old.handles.items
            ++ record { handle = (A.own_reference made).handle; place = place.entry } ∷ []) }
        ensures same { OnErr result (self.new.handles.items ≡ self.old.handles.items) }
        ensures made { IfOk result (λ a. a ≡ made) }
        ensures only { IfErr result (λ refused. refused.0 ≡ Error.OutOfMemory) }
        ensures back { IfErr result (λ refused. refused.1 ≡ made) }
    {
        let handle = made.as_reference().handle;
        match self.handles.push(OpenHandle { handle, place }) {
            Ok(()) => Ok(made),
            Err(refused) => Err((Error::from(refused), made)),
        }
    }

    /// Ends a reference or a pin in the scope, and returns it, to be released.
    pub fn end<A: ArcErase<E>>(&mut self, made: A) -> A
        ensures ended { self.new.handles.items
            ≡ filter (λ o. is_other (A.own_reference made).handle o.handle) self.old.handles.items }
        ensures made { result ≡ made }
    {
        let handle = made.as_reference().handle;
        self.handles.retain(|kept| kept.handle != handle);
        made
    }

    /// Returns the handles that were kept and not ended, in the order in which they were kept.
    pub fn open_handles(&self) -> &[OpenHandle]
        ensures { result.now ≡ self.now.handles.items }
    {
        self.handles.as_slice()
    }
}
