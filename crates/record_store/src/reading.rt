//! The view of a record that was pinned, and the end of its pin.

ghost use Rattle.pagable_pager_spec.specs.World.{result_map};
ghost use Rattle.record_store.specs.{
  Records.{handles_in, seen_view},
  Stores.{EndsRead, GivesBack, ViewsRecord},
};
ghost use Rattle.std.specs.{Arc.arc_value, Prelude.{IfErr, IfOk, ◌≡◌}};

use crate::calls::RecordView;
use crate::handles::{clone_all, release_all};
use pagable_core::PagableStorage;
use pagable_nodes::{Record, RecordNode, Records};
use pagable_pager::Pager;
use pagable_value_spec::{Error, HandleNumber};
use std::alloc::Global;

// Lists the handles of a record's references, in their order. Fails with OutOfMemory only.
fn list_handles(alloc: Global, holder: &Record) -> Result<Vec<HandleNumber>, Error>
    ensures listed { IfOk result (λ handles. handles.items ≡ handles_in holder.now) }
    ensures refused { IfErr result (λ e. e ≡ Error.OutOfMemory) }
{
    let mut handles = Vec::new(alloc);
    for reference in &holder.refs {
        handles.push(reference.reference().handle)?;
    }
    Ok(handles)
}

/// Shares a node's record, and clones the handles of its references.
pub(crate) fn view<S: PagableStorage<Records>>(
    alloc: Global,
    pager: &mut Pager<Records, S>,
    node: &RecordNode,
) -> Result<RecordView, Error>
    ensures views { ViewsRecord S.PagableStorage pager.old (arc_value node.now.value) (result_map seen_view result)
        pager.new }
    ensures storage { pager.new.storage ≡ pager.old.storage }
{
    let record = match node.value.clone() {
        Ok(record) => record,
        Err(e) => return Err(Error::from(e)),
    };
    let handles = match list_handles(alloc, record.as_ref()) {
        Ok(handles) => handles,
        Err(e) => return Err(e),
    };
    match clone_all(alloc, pager, handles.as_slice()) {
        Ok(refs) => Ok(RecordView { record, refs }),
        Err(e) => Err(e),
    }
}

// Releases the handles of a view, if there is one.
fn give_back<S: PagableStorage<Records>>(
    pager: &mut Pager<Records, S>,
    viewed: &Result<RecordView, Error>,
)
    ensures gives { GivesBack S.PagableStorage pager.old (result_map seen_view viewed.now) pager.new }
    ensures storage { pager.new.storage ≡ pager.old.storage }
{
    match viewed {
        Ok(view) => release_all(pager, view.refs.as_slice()),
        Err(_) => {}
    }
}

/// Ends the pin by which a record was viewed: releases it, and unpins the handle that was pinned. If the
/// cell can't be listed for page-out, releases the view's handles.
pub(crate) fn end_read<S: PagableStorage<Records>>(
    pager: &mut Pager<Records, S>,
    pinned: HandleNumber,
    handle: HandleNumber,
    viewed: Result<RecordView, Error>,
) -> Result<RecordView, Error>
    ensures ends { EndsRead S.PagableStorage pager.old pinned handle (result_map seen_view viewed)
        (result_map seen_view result) pager.new }
    ensures storage { pager.new.storage ≡ pager.old.storage }
{
    let _told = pager.release(pinned);
    match pager.unpin(handle) {
        Ok(()) => viewed,
        Err(e) => {
            give_back(pager, &viewed);
            Err(e)
        }
    }
}
