//! The engine of the program `features`: reads a row file, runs one command, writes its output.
#![tactic(auto)]

mod answer;
mod building;
mod engine;
mod fault;
pub mod laws;
mod listing;
mod ordering;
mod package;
mod resolving;
mod words;

pub use byte_devices::{ByteInput, ByteOutput, Failed, FromReader, ToWriter};
pub use engine::run;
pub use fault::Fault;
pub use words::{Command, GivenId, parse_words};
