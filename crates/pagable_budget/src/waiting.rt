//! Page-out of the pending list, if it is too long.

ghost use Rattle.pagable_budget.specs.Budgets.{PagesOutAbove};
ghost use Rattle.pagable_pager.specs.View.{BetweenIfHonest};
ghost use Rattle.std.specs.Prelude.{IsTrue};

use pagable_calls::paging::page_out_pending;
use pagable_codec::{Env, NodeSet};
use pagable_core::PagableStorage;
use pagable_pageout::PageOutError;
use pagable_pager::Pager;
use std::alloc::Global;

/// Pages out all cells of the pending list, as `paging::page_out_pending` does, if there are more
/// than `most`; else does nothing. A cell without a key stays in memory even when nothing pins it,
/// so a program that bounds its memory needs this call besides a budget.
///
/// # Errors
///
/// - as `paging::page_out_pending`.
pub fn page_out_above<E: Env<Node: NodeSet<E>>, S: PagableStorage<E>>(
    alloc: Global,
    pager: &mut Pager<E, S>,
    most: usize,
) -> Result<(), PageOutError>
    ensures pages { BetweenIfHonest E.Node.NodeSet E.Env E.Hash.KeyHash S.PagableStorage pager.old pager.new
        (λ v s s'. PagesOutAbove v most s result s') }
    ensures honest { IsTrue (S.is_honest pager.new.storage) → IsTrue (S.is_honest pager.old.storage) }
{
    if pager.pending() <= most {
        return Ok(());
    }
    page_out_pending(alloc, pager)
}
