//! One place of the vector of handles, in 32 bytes.

ghost use Rattle.pagable_tables.specs.HandlePlace.{kind_in, number_in, owner_in};
ghost use Rattle.std.specs.Prelude.{◌≡◌};

use pagable_pager_spec::Mode;
use pagable_pager_spec::handle_row::{HandleRow, Owner};
use pagable_value_spec::{HandleNumber, LoadNumber, NodeNumber, WorkerNumber};
use std::marker::Model;

/// The kind of a handle's owner.
#[derive(Clone, Copy)]
pub enum OwnerKind {
    Caller,
    Value,
    List,
    Load,
    Worker,
}

/// A place in the vector of handles: a live row, or a dead one that is still to be removed. The
/// owner is kept as a kind and a number, so that a place takes 32 bytes.
#[derive(Clone, Copy)]
pub struct Place {
    number: HandleNumber,
    node: NodeNumber,
    /// The number of the node, the load or the worker that owns the handle, 0 for another owner.
    owner: u64,
    kind: OwnerKind,
    mode: Mode,
    is_live: bool,
}

impl Model for Place {
    ghost use Rattle.pagable_tables.specs.HandlePlace.{HandlePlace};

    ghost Value = { HandlePlace };

    ghost use Rattle.pagable_tables.specs.PackedPlace.{IsPacked, pack, pack-unpack, unpack};

    ghost view = { unpack };

    ghost invariant = { IsPacked };

    ghost inverse = { pack };

    ghost inverse_ok = { pack-unpack };
}

/// Returns the kind of an owner.
fn kind_of(owner: Owner) -> OwnerKind
    ensures { result ≡ kind_in owner }
{
    match owner {
        Owner::Caller => OwnerKind::Caller,
        Owner::Value(_) => OwnerKind::Value,
        Owner::List => OwnerKind::List,
        Owner::Load(_) => OwnerKind::Load,
        Owner::Worker(_) => OwnerKind::Worker,
    }
}

/// Returns the number of an owner, 0 if it has none.
fn number_of(owner: Owner) -> u64
    ensures { result ≡ number_in owner }
{
    match owner {
        Owner::Caller | Owner::List => 0,
        Owner::Value(node) => node.0,
        Owner::Load(load) => load.0,
        Owner::Worker(worker) => worker.0,
    }
}

/// Returns the owner of this kind and number.
fn owner_of(kind: OwnerKind, number: u64) -> Owner
    ensures { result ≡ owner_in kind number }
{
    match kind {
        OwnerKind::Caller => Owner::Caller,
        OwnerKind::Value => Owner::Value(NodeNumber(number)),
        OwnerKind::List => Owner::List,
        OwnerKind::Load => Owner::Load(LoadNumber(number)),
        OwnerKind::Worker => Owner::Worker(WorkerNumber(number)),
    }
}

impl Place {
    /// Makes the place of a row.
    pub fn new(row: HandleRow, is_live: bool) -> Place
        ensures { result ≡ record { row = row; is_live = is_live } }
    {
        Place {
            number: row.number,
            node: row.node,
            owner: number_of(row.owner),
            kind: kind_of(row.owner),
            mode: row.mode,
            is_live,
        }
    }

    /// Unpacks the row.
    pub fn row(&self) -> HandleRow
        ensures { result ≡ self.now.row }
    {
        HandleRow {
            number: self.number,
            node: self.node,
            mode: self.mode,
            owner: owner_of(self.kind, self.owner),
        }
    }

    /// Returns the number of the handle.
    pub fn number(&self) -> u64
        ensures { result ≡ self.now.row.number.0 }
    {
        self.number.0
    }

    /// Says whether the row is live.
    pub fn is_live(&self) -> bool
        ensures { result ≡ self.now.is_live }
    {
        self.is_live
    }
}

const _: () = prove!(size_of::<Place>() == 32);
