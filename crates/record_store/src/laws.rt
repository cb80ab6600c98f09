//! The law of saved records, as the contract of a function that saves one and opens it again.

ghost use Rattle.pagable_load.specs.AccessView.{values_at};
ghost use Rattle.record_store.specs.Stores.{OpensSaved};
ghost use Rattle.std.specs.Prelude.{IfOk, IsTrue};

use crate::calls::RecordCalls;
use crate::record_store::RecordStore;
use crate::store_error::StoreError;
use pagable_codec::{Env, KeyHash, NodeSet};
use pagable_core::{Roots, Sha256Key};
use pagable_nodes::{RecordNode, Records};
use pagable_value_spec::HandleNumber;
use std::alloc::Global;

/// Saves a record under a name, and opens the records of the storage again: as long as the storage
/// is honest, what is opened is the cell with the key that was saved.
///
/// # Errors
///
/// - as `RecordCalls::save` and `RecordStore::open`.
pub fn open_what_was_saved<S: Roots<Records> + Drop>(
    alloc: Global,
    mut store: RecordStore<S>,
    name: &str,
    handle: HandleNumber,
    kept: u64,
) -> Result<(RecordStore<S>, Option<HandleNumber>), StoreError>
    ensures { IfOk result (λ r. IsTrue (S.PagableStorage.is_honest r.0.pager.storage) → OpensSaved S.PagableStorage
        S.PagableStorage.roots (values_at ⟦<RecordNode as NodeSet<Records>>⟧ ⟦<Records as Env>⟧ ⟦<Sha256Key as KeyHash>⟧)
        store.pager name.now handle r.1 r.0.pager) }
{
    store.save(name, handle)?;
    RecordStore::open(alloc, store.into_storage(), name, kept)
}
