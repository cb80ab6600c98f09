//! Names of handles.

ghost use Rattle.named_texts.specs.Named.{IsFree, KeepsOtherNames, SameNames};
ghost use Rattle.std.specs.{HashMap.{get_by_text, spare}, Prelude.{IfErr, IfOk, List, Some, string_bytes, ℕ, ◌<◌, ◌≡◌}};

use pagable::{Error, HandleNumber};
use std::alloc::{AllocError, Global};
use std::collections::HashMap;

/// Why a command fails.
#[derive(Drop)]
pub enum Refusal {
    /// The command gives a name that another handle has already.
    BadName,
    /// No handle has the name, or the root's name stands for no key.
    NoName,
    /// The pager or the storage failed.
    Error(Error),
}

impl From<Error> for Refusal {
    fn from(e: Error) -> Refusal {
        Refusal::Error(e)
    }
}

impl From<AllocError> for Refusal {
    fn from(e: AllocError) -> Refusal {
        Refusal::Error(Error::from(e))
    }
}

/// The handles that have names.
#[derive(Drop)]
pub struct Names {
    handles: HashMap<String, HandleNumber>,
}

impl Names {
    /// Makes the names of no handles. It allocates nothing.
    pub fn new(alloc: Global) -> Names
        ensures { (name : List ℕ) → IsFree name result }
    {
        Names {
            handles: HashMap::new(alloc),
        }
    }

    /// Returns the handle of a name.
    ///
    /// # Errors
    ///
    /// - `NoName` if no handle has it.
    pub fn find(&self, name: &str) -> Result<HandleNumber, Refusal>
        ensures found { IfOk result (λ handle. get_by_text self.now.handles name.now ≡ Some handle) }
        ensures none { IfErr result (λ e. IsFree name.now self.now) }
    {
        match self.handles.get(name) {
            Some(handle) => Ok(*handle),
            None => Err(Refusal::NoName),
        }
    }

    /// Makes room for a new name before its handle is made, so that no handle is left without one.
    /// Returns a copy of the name.
    ///
    /// # Errors
    ///
    /// - `BadName` if a handle has the name.
    /// - `OutOfMemory`. After each error each name has the handle that it had.
    pub fn make_room(&mut self, alloc: Global, name: &str) -> Result<String, Refusal>
        ensures room { IfOk result (λ new. (string_bytes new ≡ name.now) × IsFree name.now self.old
            × (0 < spare self.new.handles)) }
        ensures same { SameNames self.old self.new }
    {
        let new = String::from_str(alloc, name)?;
        if self.handles.contains_key(name) {
            return Err(Refusal::BadName);
        }
        self.handles.reserve(1)?;
        Ok(new)
    }

    /// Gives a handle a name, for which there is room.
    pub fn give_name(&mut self, name: String, handle: HandleNumber)
        requires { 0 < spare self.old.handles }
        ensures named { get_by_text self.new.handles (string_bytes name) ≡ Some handle }
        ensures others { KeepsOtherNames (string_bytes name) self.old self.new }
    {
        let _given = self.handles.insert(name, handle);
    }

    /// Frees a name, whether a handle has it or not.
    pub fn free_name(&mut self, name: &str)
        ensures is_free { IsFree name.now self.new }
        ensures others { KeepsOtherNames name.now self.old self.new }
    {
        let _handle = self.handles.remove(name);
    }
}
