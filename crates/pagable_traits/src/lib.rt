//! The traits of values that can be written and read, and the types that implement them: those of
//! std and of some crates, references to shared values, regular expressions, static values, and
//! tagged values with the environment's registries.
#![tactic(auto)]

pub mod arc;
pub mod arc_erase;
pub mod encoded_as;
pub mod impls;
pub mod keys;
pub mod laws;
pub mod one_form;
pub mod pagable_arc;
pub mod pin_future;
pub mod raw_ref;
pub mod references;
mod refers_to_nothing;
pub mod saved_regex;
pub mod static_value;
pub mod storage;
pub mod traits;
pub mod typetag;

pub use arc::{Arc, HoldingArc, PinnedPagableArc, PinnedPagableArcBorrow};
pub use arc_erase::{ArcErase, ArcEraseType, StdArcEraseType, deserialize_arc};
pub use impls::holders::Thin;
pub use impls::lists::serialize_slice;
pub use impls::texts::{PathText, serialize_str};
pub use keys::{PagableKey, PagableOrdKey};
pub use one_form::Canonical;
pub use pagable_arc::PagableArc;
pub use pagable_codec::{
    ArcRef, Env, HandleNumber, Identity, KeyHash, Kind, LoadNumber, NodeNumber, NodeSet, OfNode,
    PagableCursor, PagableDeserializer, PagableSerializer, Reader, SessionContext, SessionMap,
    SessionValue, WorkerNumber,
};
pub use pin_future::{PinFuture, PinStage, Polls};
pub use raw_ref::{RawRef, read_reference, write_reference};
pub use references::{Refers, references_of};
pub use saved_regex::SavedRegex;
pub use static_value::{
    HasStaticValueRegistry, StaticBytes, StaticStr, StaticValue, StaticValueEntry,
    StaticValueRegistry,
};
pub use storage::{FirstHandle, NewPin, Storage};
pub use traits::{
    Carried, EagerlyCarried, InNode, OneMeaning, Pagable, PagableBoxDeserialize,
    PagableDeserialize, PagableDeserializeOwned, PagableEagerDeserialize, PagableEagerSerialize,
    PagableSerialize,
};
pub use typetag::{
    HasOwnTag, HasTypetagRegistry, PagableRegisteredFor, PagableTagged, TagReader,
    TypetagRegistration, TypetagRegistry, deserialize_tagged,
};
