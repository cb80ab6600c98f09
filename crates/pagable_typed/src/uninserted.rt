//! What an insert that is refused gives back.

ghost use Rattle.pagable_typed.specs.GivenBack.{GivesBack};
ghost use Rattle.std.specs.{Arc.arc_value, Prelude.{IfErr, IfOk, ◌≡◌}};

use either::Either;
use pagable_value_spec::{Error, HandleNumber};
use std::alloc::Global;
use std::sync::Arc;

/// What an insert that is refused gives back. `N` holds the value for the pager: a node, or an
/// `Arc`.
#[derive(Drop)]
pub enum Uninserted<T, N> {
    /// The value, which couldn't be shared: nothing was inserted.
    Value(T),
    /// What holds the value: nothing was inserted.
    Shared(N),
    /// The loose handle of the cell that was inserted.
    Handle(HandleNumber),
}

/// Shares a value. Fails with `OutOfMemory` only, and hands the value back.
pub(crate) fn share<T>(alloc: Global, value: T) -> Result<Arc<T>, (Error, T)>
    ensures shared { IfOk result (λ a. arc_value a ≡ value) }
    ensures only { IfErr result (λ refused. refused.0 ≡ Error.OutOfMemory) }
    ensures back { IfErr result (λ refused. refused.1 ≡ value) }
{
    match Arc::new(alloc, value) {
        Ok(shared) => Ok(shared),
        Err(refused) => Err(Error::split_failed_allocation(refused)),
    }
}

/// Returns what a refused insert of a node gives back, for an insert of a value.
pub(crate) fn given_back<T, N>(given: Either<N, HandleNumber>) -> Uninserted<T, N>
    ensures { GivesBack result given }
{
    match given {
        Either::Left(node) => Uninserted::Shared(node),
        Either::Right(handle) => Uninserted::Handle(handle),
    }
}
