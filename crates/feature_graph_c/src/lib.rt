//! The answers to requests about a feature graph, as bytes: what a request says, and the answer to it.
#![tactic(auto)]

pub mod answers;
pub mod binary;
pub mod c;
pub mod records;
pub mod requests;
