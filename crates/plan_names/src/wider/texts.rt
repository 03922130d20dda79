//! What an answer says of each widening of a selection: as text, or as JSON objects.

mod laws;
mod lines;
mod names;
mod said;

pub use laws::sentence_says_off;
pub use lines::{push_head, push_widening};
pub use said::Said;
