//! A load of a cell before the fetch of its root's blob.

ghost use Rattle.pagable_load.specs.Frames.{reading_of};
ghost use Rattle.pagable_pager_spec.specs.Workers.{fresh};
ghost use Rattle.std.specs.Prelude.{true, ◌≡◌};

use crate::reading::Reading;
use pagable_value_spec::{DataKey, LoadNumber};
use std::alloc::Global;

/// A load of a cell that has begun and has fetched no blob yet. The load is open.
#[derive(Drop)]
pub struct CellReading {
    pub(crate) reading: Reading,
    ghost of_cell: { reading.for_cell ≡ true },
    ghost begun: { reading_of reading ≡ fresh reading.load reading.node_type },
}

impl CellReading {
    /// Makes the reading of a load that has just begun, with this key and type of its root.
    pub(crate) fn new(alloc: Global, load: LoadNumber, key: DataKey, node_type: u32) -> CellReading
        ensures load { result.reading.load ≡ load }
        ensures key { result.reading.key ≡ key }
        ensures node_type { result.reading.node_type ≡ node_type }
    {
        CellReading {
            reading: Reading::new(alloc, load, key, node_type, true),
        }
    }

    /// Returns the key of the root's blob.
    pub fn key(&self) -> DataKey
        ensures { result ≡ self.now.reading.key }
    {
        self.reading.key
    }

    /// Returns the load's number.
    pub fn load(&self) -> LoadNumber
        ensures { result ≡ self.now.reading.load }
    {
        self.reading.load
    }
}
