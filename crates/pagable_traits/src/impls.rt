//! The impls of the carried types.

pub mod collecting;
pub mod holders;
pub mod json_reading;
pub mod json_writing;
pub mod lists;
pub mod maps;
pub mod numbers;
pub mod texts;
