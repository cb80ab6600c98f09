//! `PagableVecFlavor`: a writer into a vector of bytes.

ghost use Rattle.pagable_value_spec.specs.Outcomes.{IsOutOfMemory};
ghost use Rattle.std.specs.Prelude.{IfErr, List, OnErr, OnOk, drop, length, take, [], ◌++◌, ◌+◌, ◌∷◌, ◌≡◌, ◌≤◌};

mod writing;

use pagable_value_spec::Error;
use std::alloc::Global;
use std::marker::Model;

/// The greatest length of a text and the greatest number of items of a list.
pub(crate) const LONGEST: usize = 4_294_967_295;

/// A writer, which contracts see as the bytes that it has written.
///
/// A writing call that fails may leave some more bytes at the end; `try_push` and `try_extend`
/// leave none.
#[derive(Drop)]
pub struct PagableVecFlavor {
    bytes: Vec<u8>,
}

impl Model for PagableVecFlavor {
    ghost use Rattle.std.specs.Prelude.{List, ℕ};

    ghost Value = { List ℕ };

    ghost view = { λ w. w.bytes.items };
}

impl PagableVecFlavor {
    /// Creates a writer without bytes, which allocates when it is first written to.
    pub fn new(alloc: Global) -> PagableVecFlavor
        ensures { result ≡ [] }
    {
        let bytes = Vec::new(alloc);
        PagableVecFlavor { bytes }
    }

    /// Does what `new` does.
    pub fn default(alloc: Global) -> PagableVecFlavor
        ensures { result ≡ [] }
    {
        PagableVecFlavor::new(alloc)
    }

    /// Returns how many bytes have been written.
    pub fn position(&self) -> usize
        ensures { result ≡ length self.now }
    {
        self.bytes.len()
    }

    /// Overwrites the bytes from `pos` on with `bytes`. The caller makes sure that as many were
    /// written there.
    pub fn write_at(&mut self, pos: usize, bytes: &[u8])
        requires { pos + length bytes.now ≤ length self.old }
        ensures { self.new ≡ take pos self.old ++ bytes.now ++ drop (pos + length bytes.now) self.old }
    {
        let held = self.bytes.as_mut_slice();
        let end = pos + bytes.len();
        held[pos..end].copy_from_slice(bytes);
    }

    /// Appends a byte.
    ///
    /// # Errors
    ///
    /// - `OutOfMemory` if the writer can't grow: nothing is written.
    pub fn try_push(&mut self, byte: u8) -> Result<(), Error>
        ensures ok { OnOk result (self.new ≡ self.old ++ byte ∷ []) }
        ensures only { IfErr result IsOutOfMemory }
        ensures err { OnErr result (self.new ≡ self.old) }
    {
        self.bytes.push(byte)?;
        Ok(())
    }

    /// Appends these bytes.
    ///
    /// # Errors
    ///
    /// - `OutOfMemory` if the writer can't grow: nothing is written.
    pub fn try_extend(&mut self, bytes: &[u8]) -> Result<(), Error>
        ensures ok { OnOk result (self.new ≡ self.old ++ bytes.now) }
        ensures only { IfErr result IsOutOfMemory }
        ensures err { OnErr result (self.new ≡ self.old) }
    {
        self.bytes.extend_from_slice(bytes)?;
        Ok(())
    }

    /// Returns the bytes that were written.
    pub fn finalize(self) -> Vec<u8>
        ensures { result.items ≡ self }
    {
        self.bytes
    }
}
