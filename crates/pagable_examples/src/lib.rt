//! Examples to copy: how a type of your own is encoded.
//!
//! - `dish`: a struct of named fields, which may be a key of maps too.
//! - `note`: a struct that stands in values of other types, as the tuple of its fields.
//! - `size`: an enum that is encoded as an `Option`.
//! - `task`: an enum with the numbers of its cases, and a struct with it and a map.
//! - `doll`: a struct with an `Arc` field.
//! - `expression`: a type that holds values of its own type.
//! - `ticket`: a type that is written and read eagerly.
//! - `animal`: an enum whose values are written as a tag and a body.
//! - `zoo`: an environment with registries of static values and of tags.
//! - `linked`: types that refer to each other, and their nodes.
#![tactic(auto)]

pub mod animal;
pub mod dish;
pub mod doll;
pub mod expression;
pub mod linked;
pub mod note;
pub mod size;
pub mod task;
pub mod ticket;
pub mod zoo;
