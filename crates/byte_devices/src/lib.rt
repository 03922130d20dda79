//! Devices for reading and writing bytes: interfaces that mark their failures, adapters for the
//! readers and writers of std, and functions that read all bytes or write a whole text.
#![tactic(auto)]

mod interfaces;
mod std_devices;
mod whole;

pub use interfaces::{ByteInput, ByteOutput, Failed};
pub use std_devices::{FromReader, ToWriter};
pub use whole::{ReadError, read_all, write_all};
