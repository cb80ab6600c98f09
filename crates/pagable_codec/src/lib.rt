//! Defines what values are written to and read from: the traits of environments, nodes, hashes,
//! serializers and deserializers, the values that a session shares, and the flags and counts that
//! many encodings begin with.
#![tactic(auto)]

pub mod deserializer;
pub mod env;
pub mod hash;
pub mod nodes;
pub mod of_node;
pub mod parts;
pub mod serializer;
pub mod session;

pub use deserializer::PagableDeserializer;
pub use env::Env;
pub use hash::KeyHash;
pub use nodes::NodeSet;
pub use of_node::OfNode;
pub use pagable_flavors::Reader;
pub use pagable_value_spec::{
    ArcRef, HandleNumber, Identity, Kind, LoadNumber, NodeNumber, PagableCursor, WorkerNumber,
};
pub use serializer::PagableSerializer;
pub use session::{SessionContext, SessionMap, SessionValue};
