//! The plan of a workspace by the words of a command line: which packages a build compiles, in which place, and with which features.
#![tactic(auto)]

pub mod built_parts;
mod fault;
pub mod plan_steps;
pub mod plan_units;
mod planning;
mod words;

pub use fault::PlanFault;
pub use plan_steps::{
    PackageVisit, Place, Plan, Platform, Settings, Side, StepFault, UnfitWord, Unit, on_places,
};
pub use plan_words::{KindWords, PackageChoice, Selection, TargetChoice, WordFault};
pub use planning::plan;
pub use words::PlanWords;
