//! A verdict as text and as JSON: lines, objects, messages and warnings.
mod lines;
mod messages;
mod objects;
mod warnings;
mod words;

pub use lines::push_verdict;
pub use messages::{check_refused, policy_refused};
pub use objects::{push_object, write_rule};
pub use warnings::{build_message, unmatched_message, unmatched_refused};
