//! The order of a digraph's nodes, and their components.
#![tactic(auto)]

mod components;
pub mod laws;
mod order;

pub use order::Order;
