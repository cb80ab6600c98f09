//! Content-addressed paging of shared values: a pager that writes values to a store of blobs under
//! the hash of their content, drops them from memory when no handle pins them, and reads them back
//! on demand.
//!
//! The crate's root exports all public names, and modules named as in the original crate export
//! them again. Each module lists its items one by one: a re-export of a whole module of a lower
//! crate would make the check of each user of this crate read all of it.
#![tactic(auto)]

/// The page-out of one cell.
pub mod cell_page_out {
    pub use pagable_calls::cell_page_out::page_out;
}

/// Calls on one cell, for programs that lend a pager: they make cells, and look at their values.
pub mod cells {
    pub use pagable_calls::cells::{cell_of, contains, follow, insert, look};
}

/// Laws of the definitions, for carried types and for blobs in memory.
pub mod laws {
    pub use pagable_calls::laws::{forms_are_read_again, memory_is_honest};
}

/// A pager that runs lists of events.
pub mod machine {
    pub use pagable_calls::machine::Machine;
}

/// Pins, readings and page-outs by a lent pager.
pub mod paging {
    pub use pagable_calls::paging::{
        CellPin, deserialize_pagable_data, page_out_item, page_out_pending, pin, pin_with_key, read,
    };
}

/// References of handles, by the types of their values.
pub mod typed_references {
    pub use pagable_calls::typed_references::{holding, loose};
}

/// The numbers of cells and handles, the references that values hold, and the traits that all
/// references have.
pub mod arc_erase {
    pub use pagable_traits::{
        ArcErase, ArcEraseType, RawRef, Refers, StdArcEraseType, deserialize_arc, read_reference,
        references_of, write_reference,
    };
    pub use pagable_value_spec::{ArcRef, HandleNumber, Identity, Kind, NodeNumber};
}

/// The writers and readers of values with their references, and the keys of blobs.
pub mod context {
    pub use pagable_core::{
        NoReferences, PagableDeserializerImpl, PagableKeys, PagableSerializerImpl, References,
        SerializedData,
    };
}

/// The writer and the reader of the wire format.
pub mod flavors {
    pub use pagable_flavors::{PagableSlice, PagableVecFlavor};
}

/// The carried types that are neither std's nor those of a lower crate.
pub mod impls {
    pub use pagable_traits::impls::maps::write_entry;
    pub use pagable_traits::{
        HasStaticValueRegistry, PathText, SavedRegex, StaticBytes, StaticStr, StaticValue,
        StaticValueEntry, StaticValueRegistry, Thin, serialize_slice, serialize_str,
    };
}

/// The pager, the machine that runs lists of events, and the references to shared values.
pub mod pagable_arc {
    pub use pagable_calls::machine::Machine;
    pub use pagable_pager::{ArcCell, DeserializedArcCache, Pager, PagerStats};
    pub use pagable_pager_spec::handle_row::Owner;
    pub use pagable_pager_spec::{
        Action, Beginning, Call, Claim, Event, EventReply, FetchTarget, Found, LoadAnswer,
        LoadReply, Mode, PinStep, Pinning, Reply, TableNumber, WorkerAnswer, WorkerReply,
    };
    pub use pagable_traits::{
        Arc, FirstHandle, HoldingArc, NewPin, PagableArc, PinFuture, PinStage, PinnedPagableArc,
        PinnedPagableArcBorrow,
    };
    pub use pagable_value_spec::{LoadNumber, WorkerNumber};
}

/// Nodes of environments with one or three value types, an environment of records, and values
/// without references as bytes.
pub mod nodes {
    pub use pagable_nodes::bytes::{from_bytes, to_bytes};
    pub use pagable_nodes::{
        EitherNode, OneNode, Record, RecordNode, RecordRef, Records, write_with_refs,
    };
}

/// The functions by which a caller's own types write and read counts and flags in their encoding.
pub mod parts {
    pub use pagable_codec::parts::{
        items_to_reserve, read_count, read_flag, write_count, write_flag,
    };
}

/// Blobs, their keys, and storages.
pub mod storage {
    /// A blob, its key, and the hashes that keys are made with.
    pub mod data {
        pub use pagable_core::{PagableData, Sha256Key, WeighHash};
        pub use pagable_flavors::{DataKey, OptionalDataKey};
        pub use pagable_traits::KeyHash;
    }

    /// The handle of a storage that threads share, and the calls that typed references make on it.
    pub mod handle {
        pub use pagable_locked::{Gate, HandlePin, NoGate, PagableStorageHandle, PageOutReport};
        pub use pagable_traits::{Polls, Storage};
    }

    /// A store of blobs in memory, and a storage over it that threads share.
    pub mod in_memory {
        pub use pagable_core::InMemoryBlobs;
        pub use pagable_locked::InMemoryPagableStorage;
    }

    /// The serializer of one cell's value.
    pub mod support {
        pub use pagable_core::SerializerForPaging;
    }

    /// Storages, without and with named roots, one that counts what another one is asked for, and
    /// the `Setting` that all values over a storage share; accesses to a pager, lent or behind a
    /// lock, and the functions that pin, read and page out by them; tables of claims, and the error
    /// of a page-out.
    pub mod traits {
        pub use pagable_core::{CountedStorage, PagableStorage, Roots, Setting, StorageCounts};
        pub use pagable_load::{
            Access, CellPin, WorkerAccess, pin_over, pin_with_state_over, read_over,
        };
        pub use pagable_locked::{
            ArcSerSlot, ClaimShare, Gate, Locked, NoGate, PageOutReport, SharedClaims, SlotTable,
            TableGuard,
        };
        pub use pagable_pageout::{
            Claims, LentTable, PageOutError, SlotResult, page_out_item_over, page_out_pending_over,
        };
        pub use pagable_pager::{DeserializedArcCache, Lent};
    }
}

/// The writers and readers of values, and the traits of values.
pub mod traits {
    pub use pagable_traits::encoded_as::{DecodedAs, EncodedAs};
    pub use pagable_traits::{
        Canonical, Carried, EagerlyCarried, OneMeaning, Pagable, PagableBoxDeserialize,
        PagableDeserialize, PagableDeserializeOwned, PagableDeserializer, PagableEagerDeserialize,
        PagableEagerSerialize, PagableKey, PagableOrdKey, PagableSerialize, PagableSerializer,
        SessionContext,
    };
    pub use pagable_value_spec::PagableCursor;
}

/// Tagged types, and the registries of their readers.
pub mod typetag {
    pub use pagable_traits::{
        HasOwnTag, HasTypetagRegistry, PagableRegisteredFor, PagableTagged, TagReader,
        TypetagRegistration, TypetagRegistry, deserialize_tagged,
    };
}

/// The result of a call of this crate: its value, or the error that it fails with.
pub type Result<O> = std::result::Result<O, Error>;

// Values, and what writes and reads them.
pub use pagable_flavors::{
    DataKey, Error, OptionalDataKey, PagableSlice, PagableVecFlavor, Reason,
};
pub use pagable_nodes::bytes::{from_bytes, to_bytes};
pub use pagable_nodes::{
    EitherNode, OneNode, Record, RecordNode, RecordRef, Records, write_with_refs,
};
pub use pagable_traits::encoded_as::{DecodedAs, EncodedAs};
pub use pagable_traits::{
    Arc, ArcErase, ArcEraseType, Canonical, Carried, EagerlyCarried, Env, HasOwnTag,
    HasStaticValueRegistry, HasTypetagRegistry, HoldingArc, InNode, KeyHash, NodeSet, OfNode,
    OneMeaning, Pagable, PagableArc, PagableBoxDeserialize, PagableDeserialize,
    PagableDeserializeOwned, PagableDeserializer, PagableEagerDeserialize, PagableEagerSerialize,
    PagableKey, PagableOrdKey, PagableRegisteredFor, PagableSerialize, PagableSerializer,
    PagableTagged, PathText, PinnedPagableArc, PinnedPagableArcBorrow, RawRef, Reader, Refers,
    SavedRegex, SessionContext, SessionMap, SessionValue, StaticBytes, StaticStr, StaticValue,
    StaticValueEntry, StaticValueRegistry, StdArcEraseType, TagReader, Thin, TypetagRegistration,
    TypetagRegistry, deserialize_arc, deserialize_tagged, read_reference, references_of,
    serialize_slice, serialize_str, write_reference,
};
pub use pagable_value_spec::{
    ArcRef, HandleNumber, Identity, Kind, LoadNumber, NodeNumber, PagableCursor, WorkerNumber,
};

// Pagers and storages.
pub use pagable_calls::machine::Machine;
pub use pagable_core::{
    CountedStorage, InMemoryBlobs, NoReferences, PagableData, PagableDeserializerImpl, PagableKeys,
    PagableSerializerImpl, PagableStorage, References, Roots, SerializedData, SerializerForPaging,
    Setting, Sha256Key, StorageCounts, WeighHash,
};
pub use pagable_load::{Access, CellPin, WorkerAccess, pin_over, pin_with_state_over, read_over};
pub use pagable_locked::{
    ArcSerSlot, ClaimShare, Gate, InMemoryPagableStorage, Locked, NoGate, PagableStorageHandle,
    PageOutReport, SharedClaims, SlotTable, TableGuard,
};
pub use pagable_pageout::{
    Claims, LentTable, PageOutError, SlotResult, page_out_item_over, page_out_pending_over,
};
pub use pagable_pager::{ArcCell, DeserializedArcCache, Lent, Pager, PagerStats};
pub use pagable_pager_spec::handle_row::Owner;
pub use pagable_pager_spec::{
    Action, Beginning, Call, Claim, Event, EventReply, FetchTarget, Found, LoadAnswer, LoadReply,
    Mode, PinStep, Pinning, Reply, TableNumber, WorkerAnswer, WorkerReply,
};
pub use pagable_traits::{FirstHandle, NewPin};
