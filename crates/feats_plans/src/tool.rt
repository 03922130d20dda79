//! The engine of the program `feats`: reads the document of a workspace, makes a plan, and writes the answer to a question about it.

mod answered;
mod answers;
mod engine;
mod exclusions;
pub mod lost_dependencies;
mod rules;
mod visitor;
mod word_faults;

pub use crate::{PlanFiles, platform_file};
pub use answered::{Answered, Outcome};
pub use answers::answer;
pub use engine::run;
pub use word_faults::command_arguments;
