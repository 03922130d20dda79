//! Turns the output of `cargo metadata` into the rows of a row file.
#![tactic(auto)]

mod engine;
mod metadata;
mod rows;
mod sets;
mod warnings;

pub use byte_devices::{ByteInput, ByteOutput, Failed, FromReader, ToWriter};
pub use cargo_json::{DocumentFault, Fault, Place};
pub use engine::run;
pub use warnings::Warning;
