//! The calls by which programs use a store of records, whatever storage is below it.

ghost use Rattle.record_store.specs.Records.{IsKeyOfBare};
ghost use Rattle.std.specs.{Arc.arc_value, Prelude.{IfOk, slice_get, string_bytes, ◌≡◌}};

use crate::store_error::StoreError;
use pagable_codec::KeyHash;
use pagable_core::Sha256Key;
use pagable_nodes::Record;
use pagable_value_spec::{DataKey, HandleNumber};
use std::alloc::Global;
use std::sync::Arc;

/// The tag of a record that is a text alone.
pub const TEXT: u32 = 0;

/// A record that was read, with a handle for each of its references. The caller owns the handles;
/// they pin nothing.
#[derive(Drop)]
pub struct RecordView {
    /// The record.
    pub record: Arc<Record>,
    /// A handle for each of its references, in their order.
    pub refs: Vec<HandleNumber>,
}

impl RecordView {
    /// Returns the record's text.
    pub fn text(&self) -> &str
        ensures { result.now ≡ string_bytes (arc_value self.now.record).text }
    {
        self.record.as_ref().text.as_str()
    }

    /// Returns the handle of its first reference, if it has one.
    pub fn first_reference(&self) -> Option<HandleNumber>
        ensures { result ≡ slice_get self.now.refs.items 0 }
    {
        self.refs.first().copied()
    }
}

/// The calls of a store of records. A program that uses these alone knows nothing of pagers and
/// files.
pub trait RecordCalls {
    /// Returns the allocator of the store.
    fn alloc(&self) -> Global;

    /// Inserts a record that refers to the records of `over`, and returns its handle, which pins
    /// nothing. The caller keeps the handles in `over`.
    ///
    /// # Errors
    ///
    /// Each leaves no handle behind.
    ///
    /// - as `Pager::clone`, `typed_references::loose`, `Record::node`, `Pager::new_loose` and
    ///   `Pager::unpin`.
    fn insert(
        &mut self,
        tag: u32,
        text: &str,
        over: &[HandleNumber],
    ) -> Result<HandleNumber, StoreError>;

    /// Reads the record of a handle that pins nothing, loading it if it isn't in memory. The handle
    /// pins nothing afterwards either; the budget keeps the record in memory, as the most recently
    /// read.
    ///
    /// # Errors
    ///
    /// Each leaves no handle behind but the budget's.
    ///
    /// - as `paging::pin`, `Pager::clone` and `Pager::unpin`.
    fn read(&mut self, handle: HandleNumber) -> Result<RecordView, StoreError>;

    /// Returns another handle of a handle's record.
    ///
    /// # Errors
    ///
    /// - as `Pager::clone`.
    fn clone_handle(&mut self, handle: HandleNumber) -> Result<HandleNumber, StoreError>;

    /// Releases handles, one after another.
    ///
    /// # Errors
    ///
    /// - as `Pager::release`: the call stops at the first handle that fails.
    fn release(&mut self, handles: &[HandleNumber]) -> Result<(), StoreError>;

    /// Releases the handles of the pending list. A record to which nothing else refers is dropped
    /// and never written; any other is written when it, or a record that reaches it, is paged out.
    ///
    /// # Errors
    ///
    /// - as `Pager::release`.
    fn release_waiting(&mut self) -> Result<(), StoreError>;

    /// Returns the key of a handle's record. For that it pages out the record, with what changed of
    /// all that it reaches.
    ///
    /// # Errors
    ///
    /// - as `page_out_changed`.
    fn key(&mut self, handle: HandleNumber) -> Result<DataKey, StoreError>;

    /// Computes the key of a record with the tag `TEXT`, this text and no references. It inserts
    /// nothing.
    ///
    /// # Errors
    ///
    /// - `TooLong`, `OutOfMemory`.
    fn key_of_text(&self, text: &str) -> Result<DataKey, StoreError>
        ensures { IfOk result (IsKeyOfBare ⟦<Sha256Key as KeyHash>⟧.digest TEXT text.now) };

    /// Pages out a handle's record with what changed of all that it reaches, makes the root's name
    /// stand for its key, and flushes blobs and name together. The store stays open.
    ///
    /// # Errors
    ///
    /// - as `page_out_changed`, `Pager::set_root` and `Pager::flush`: after another open the name
    ///   stands for the key of the last flush.
    fn save(&mut self, name: &str, handle: HandleNumber) -> Result<(), StoreError>;
}
