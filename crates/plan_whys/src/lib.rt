//! Why a feature is on in a plan: the steps from what is selected to the feature.
#![tactic(auto)]

mod all_steps;
mod direct_reasons;
mod explanations;
mod last_steps;
mod laws;
pub mod links;
mod nodes;
mod spots;
mod step_reasons;
mod steps;
mod whys;

pub use all_steps::explanation;
pub use cargo_plans::Side;
pub use direct_reasons::reasons;
pub use last_steps::last_step_each;
pub use laws::whys_lead_to_spots;
pub use step_reasons::reasoned_steps;
pub use steps::{ReasonedStep, Spot, WhyReason, WhyStep};
pub use whys::{why, why_by_settings, why_each, why_each_by_settings};
