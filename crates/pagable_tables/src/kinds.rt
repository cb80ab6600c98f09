//! Tests modes and owners, says which mode a kind of reference has, and orders the errors that a
//! call reports.

ghost use Rattle.pagable_pager_spec.specs.{
  Kinds.{fits_mode, is_loose, is_owner, is_pinning, is_unpinned, mode_of},
  Refusals.{earlier, rank},
  declared.{handle_row.Owner.Owner, mode.Mode.Mode},
};
ghost use Rattle.pagable_tables.specs.CascadeInvariant.{is_worker};
ghost use Rattle.std.specs.Prelude.{List, None, Option, Some, false, true, ◌<◌, ◌==◌, ◌≡◌};

use pagable_pager_spec::Mode;
use pagable_pager_spec::handle_row::Owner;
use pagable_value_spec::{Error, Kind};

/// Says whether a handle of this mode pins its node.
pub fn pins(mode: Mode) -> bool
    ensures { result ≡ is_pinning mode }
{
    !matches!(mode, Mode::LooseUnpinned)
}

/// Says whether `a` and `b` are the same owner.
pub fn is_owner(a: Owner, b: Owner) -> bool
    ensures { result ≡ is_owner a b }
{
    match (a, b) {
        (Owner::Caller, Owner::Caller) => true,
        (Owner::Value(n), Owner::Value(m)) => m.0 == n.0,
        (Owner::List, Owner::List) => true,
        (Owner::Load(l), Owner::Load(m)) => m.0 == l.0,
        (Owner::Worker(v), Owner::Worker(u)) => u.0 == v.0,
        _ => false,
    }
}

/// Says whether the owner is a worker.
pub fn is_worker(owner: Owner) -> bool
    ensures { result ≡ is_worker owner }
{
    matches!(owner, Owner::Worker(_))
}

/// Says whether a handle of this mode is loose, so that it can be pinned and unpinned.
pub fn is_loose_mode(mode: Mode) -> bool
    ensures { result ≡ is_loose mode }
{
    matches!(mode, Mode::LoosePinned | Mode::LooseUnpinned)
}

/// Says whether a handle of this mode is loose and pins nothing.
pub fn is_unpinned(mode: Mode) -> bool
    ensures { result ≡ is_unpinned mode }
{
    matches!(mode, Mode::LooseUnpinned)
}

/// Returns the mode of the handle that a reference of this kind gets.
pub fn mode_of(kind: Kind) -> Mode
    ensures { result ≡ mode_of kind.0 }
{
    if kind.is_shared() {
        Mode::Shared
    } else if kind.is_loose() {
        Mode::LooseUnpinned
    } else {
        Mode::Pinned
    }
}

/// Says whether a reference of this kind may name a handle of this mode.
pub fn fits_mode(kind: Kind, mode: Mode) -> bool
    ensures { result ≡ fits_mode kind.0 mode }
{
    match mode {
        Mode::Pinned => kind.is_pinned(),
        Mode::Shared => kind.is_shared(),
        Mode::LoosePinned | Mode::LooseUnpinned => kind.is_loose(),
    }
}

/// Returns the error's rank, from 0 on: no such handle, another's handle, wrong mode, wrong type,
/// no number left, all others. Of two errors `earlier` returns the one of lower rank.
fn rank(error: &Error) -> u32
    ensures { result ≡ rank error.now }
{
    match error {
        Error::NoSuchHandle => 0,
        Error::NotYours => 1,
        Error::WrongMode => 2,
        Error::WrongKind => 3,
        Error::NumbersSpent => 4,
        _ => 5,
    }
}

/// Returns the error of the lower `rank`, `a` if the ranks are equal. If one error is None, returns
/// the other.
#[inline(always)]
pub fn earlier(a: Option<Error>, b: Option<Error>) -> Option<Error>
    ensures { result ≡ earlier a b }
{
    match (a, b) {
        (Some(e), Some(f)) if rank(&f) < rank(&e) => Some(f),
        (Some(e), _) => Some(e),
        (None, other) => other,
    }
}
