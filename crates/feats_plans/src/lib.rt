//! The plan that a command line asks for: made from the bytes of its files and of a document, and passed to a visitor.
#![tactic(auto)]

mod basis;
mod document_messages;
mod documents;
mod inputs;
pub mod numbered_workspaces;
mod planned;
mod planning;
pub mod tool;
mod visits;

pub use inputs::{PlanFiles, platform_file};
pub use planned::{PlanVisitor, Planned};
pub use visits::visit_plan;
