//! What differs between the plans of two builds, and its lines or JSON objects.
#![tactic(auto)]

pub mod changes;
pub mod texts;
