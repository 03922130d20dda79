//! The answers to the questions about a build: a text for each command.
#![tactic(auto)]

mod answer;
mod answers;
mod asked;
mod built_spots;
mod duplicate_texts;
mod edge_texts;
mod feature_texts;
mod gathered;
mod list_texts;
mod name_messages;
mod off_parts;
mod parts;
mod places;
mod plan_texts;
mod policy_texts;
mod report_texts;
mod route_texts;
mod slim_texts;
mod spec_texts;
mod summary_texts;
mod tree_texts;
mod unused_texts;
mod why_parts;
mod why_texts;

pub use answer::Answer;
pub use answers::answer_to;
pub use asked::Asked;
