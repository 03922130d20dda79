//! The answers about features that aren't built: what more of a selection turns them on.
#![tactic(auto)]

mod answer;
mod base;
mod builds;
mod joined;
mod labels;
mod messages;
mod objects;
mod parts;
mod sections;
mod small_words;
mod spots;
mod standings;
mod texts;
mod told;
mod tries;
mod typed_words;
mod widened_sections;

pub use parts::OffPart;
pub use texts::why_not_texts;
