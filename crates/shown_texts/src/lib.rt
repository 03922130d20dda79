//! Texts for terminals: every control character in them is escaped, because it could erase or forge lines.
#![tactic(auto)]

mod escapes;
mod replacing;
mod shown;

pub use shown::{escaped, shown_json, shown_text};
