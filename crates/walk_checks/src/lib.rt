//! Checks of explanations: whether steps explain their nodes, whether they leave nothing out, and the steps on
//! which one node rests. The steps aren't trusted, and edges are looked up by number.
#![tactic(auto)]

mod exact;
mod explained;
pub mod laws;
mod places;
mod refusals;
mod resting;
mod table;

pub use exact::check_exact_steps;
pub use explained::check_steps;
pub use places::StepPlaces;
pub use resting::{why, why_by_places};
pub use table::{EdgeTable, TableEdge};
