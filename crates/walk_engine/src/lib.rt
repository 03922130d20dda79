//! Walks over numbered edges. An edge is followed unconditionally, or if an offer of it is accepted. Nodes,
//! ways and offers are numbers; packages and features play no part.
#![tactic(auto)]

pub mod laws;
mod walks;

pub use walks::{
    Ask, EdgeSource, Half, Offerer, Step, StepReason, Taken, Walk, walk_explained, walk_over,
};
