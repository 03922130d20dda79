//! The rows of the three steps of a plan.
#![tactic(auto)]

mod built_rows;
mod gated_features;
mod gates;
mod ids;
mod on_rows;
pub mod platforms;
mod pushing;
mod resolved_rows;
pub mod rules;
mod settings;
mod side;
mod step_rows;

pub use built_rows::rows_built;
pub use gated_features::GatedFeatures;
pub use gates::Gates;
pub use ids::Ids;
pub use on_rows::rows_on;
pub use resolved_rows::rows_resolved;
pub use settings::{Kept, Platform, Settings, TurnedOn};
pub use side::Side;
pub use step_rows::StepRows;
