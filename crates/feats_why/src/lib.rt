//! The lines that show an explanation: as text in columns, or as JSON objects.
#![tactic(auto)]

mod labels;
mod objects;
mod platforms;
mod reason_objects;
mod reason_rows;
mod reasons;
mod relations;
mod rows;
mod settings;
mod table;
mod unbuilt;

pub use labels::{spot_label, spot_labels};
pub use objects::{why_objects, write_steps};
pub use plan_whys::{ReasonedStep, Spot, WhyReason, WhyStep};
pub use reason_objects::reasoned_objects;
pub use reason_rows::reasoned_lines;
pub use settings::{WhySettings, settings_of};
pub use table::{each_why_lines, why_lines};
pub use unbuilt::{UnbuiltSpot, unbuilt_lines, unbuilt_message};
