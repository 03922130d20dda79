//! The shortest routes over links between numbered nodes, from the starts of each owner to the targets.
#![tactic(auto)]

mod chains;
mod links;
mod nearest;
mod numbers;
mod routes;
mod search;
mod step;

pub use routes::{Route, shortest_routes};
