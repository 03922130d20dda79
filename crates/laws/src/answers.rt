//! The law that each command has an answer.

pub mod laws;
