//! The serializer and the deserializer of one blob.

pub mod keys;
pub mod reading;
pub mod references;
pub mod setting;
pub mod writing;
