//! A value that is shown to a caller's function.

ghost use Rattle.std.specs.{Arc.arc_value, Fn.FnOnceReturnsAt};

use pagable_traits::PinnedPagableArc;

/// Calls `show` with a pinned value.
pub(crate) fn show_pinned<T, Y, F: FnOnce(&T) -> Y>(show: F, pinned: &PinnedPagableArc<T>) -> Y
    requires { F.IsAlwaysCallable show }
    ensures { FnOnceReturnsAt F.FnOnce show (arc_value pinned.now.value) result }
{
    show(pinned.get())
}
