//! The insertion of a record.

ghost use Rattle.pagable_load.specs.AccessView.{values_at};
ghost use Rattle.pagable_pager.specs.View.{pager_core};
ghost use Rattle.record_store.specs.{
  Handles.{InsertsMade, InsertsOver, InsertsUnpinned},
  Records.{IsRecordOver, RefersThrough},
};
ghost use Rattle.std.specs.Prelude.{IfOk, length};

use crate::handles::{clone_all, release_all, unpin_new};
use pagable_calls::typed_references::loose;
use pagable_codec::{Env, KeyHash, NodeSet};
use pagable_core::{PagableStorage, Sha256Key};
use pagable_nodes::{Record, RecordNode, RecordRef, Records};
use pagable_pager::Pager;
use pagable_value_spec::{Error, HandleNumber};
use std::alloc::Global;

// Makes references to the records of handles, in their order.
fn references<S: PagableStorage<Records>>(
    alloc: Global,
    pager: &Pager<Records, S>,
    handles: &[HandleNumber],
) -> Result<Vec<RecordRef>, Error>
    ensures { IfOk result (λ refs.
        RefersThrough (pager_core S.PagableStorage pager.now) handles.now (length handles.now) refs.items) }
{
    let mut refs = Vec::new(alloc);
    for handle in handles {
        let made = loose::<Record, _, _>(pager, *handle)?;
        refs.push(Record::reference(made))?;
    }
    Ok(refs)
}

// Inserts a record that refers through these handles, pinned by its handle. The record owns them then;
// after an error the caller does.
fn insert_pinned<S: PagableStorage<Records>>(
    alloc: Global,
    pager: &mut Pager<Records, S>,
    tag: u32,
    text: &str,
    handles: &[HandleNumber],
) -> Result<HandleNumber, Error>
    ensures { InsertsMade S.PagableStorage (values_at ⟦<RecordNode as NodeSet<Records>>⟧ ⟦<Records as Env>⟧
        ⟦<Sha256Key as KeyHash>⟧ pager.old.environment) (IsRecordOver tag text.now) pager.old handles.now result pager.new }
{
    let refs = match references(alloc, pager, handles) {
        Ok(refs) => refs,
        Err(e) => return Err(e),
    };
    let node = match Record::node(alloc, tag, text, refs) {
        Ok(node) => node,
        Err(e) => return Err(e),
    };
    match pager.new_loose(alloc, node) {
        Ok(handle) => Ok(handle),
        Err(refused) => Err(refused.0),
    }
}

// Inserts a record that refers through these handles. Nothing pins it. The record owns the handles then;
// after an error they are released.
fn insert_unpinned<S: PagableStorage<Records>>(
    alloc: Global,
    pager: &mut Pager<Records, S>,
    tag: u32,
    text: &str,
    handles: &[HandleNumber],
) -> Result<HandleNumber, Error>
    ensures { InsertsUnpinned S.PagableStorage (values_at ⟦<RecordNode as NodeSet<Records>>⟧ ⟦<Records as Env>⟧
        ⟦<Sha256Key as KeyHash>⟧ pager.old.environment) (IsRecordOver tag text.now) pager.old handles.now result pager.new }
{
    match insert_pinned(alloc, pager, tag, text, handles) {
        Ok(handle) => unpin_new(pager, handle),
        Err(e) => {
            release_all(pager, handles);
            Err(e)
        }
    }
}

/// Inserts a record that refers to the records of these handles, by clones of them. Nothing pins it.
pub(crate) fn insert_over<S: PagableStorage<Records>>(
    alloc: Global,
    pager: &mut Pager<Records, S>,
    tag: u32,
    text: &str,
    over: &[HandleNumber],
) -> Result<HandleNumber, Error>
    ensures { InsertsOver S.PagableStorage (values_at ⟦<RecordNode as NodeSet<Records>>⟧ ⟦<Records as Env>⟧
        ⟦<Sha256Key as KeyHash>⟧ pager.old.environment) (IsRecordOver tag text.now) pager.old over.now result pager.new }
{
    match clone_all(alloc, pager, over) {
        Ok(clones) => insert_unpinned(alloc, pager, tag, text, clones.as_slice()),
        Err(e) => Err(e),
    }
}
