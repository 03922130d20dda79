//! The edits of the members' dependencies after which a build has fewer packages or features, and their lines or JSON objects.
#![tactic(auto)]

pub mod answers;
pub mod edits;
