//! The plan of a workspace: the three steps, joined.
//!
//! Visits are dropped by a call of `drop`, which is proved once a type. A drop at the end of a scope is proved in its function, and
//! takes 20 seconds for a visit.

mod built_step;
mod checks;
mod entries;
mod fault;
mod on_step;
mod plan;
mod plans;
mod resolved_step;
mod stages;

pub use crate::plan_units::{PackageVisit, Place, UnfitWord, Unit};
pub use fault::StepFault;
pub use on_step::on_places;
pub use plan::Plan;
pub use plan_rows::{Platform, Settings, Side};
pub use plans::plan_of;
