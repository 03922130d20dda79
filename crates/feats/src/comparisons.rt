//! From the files of two command lines to the answer to `diff`: what differs between their builds.

mod builds;
mod command_lines;
mod comparing;
pub mod differences;
mod documents;
mod engine;
mod formats;
mod sides;
mod visitors;

pub use command_lines::{ComparedWords, compared_words};
pub use comparing::compare;
pub use differences::Answer;
pub use documents::{ComparedRequests, compared_requests};
pub use engine::{run, run_by_one_document};
pub use formats::{no_summary, one_format};
pub use sides::{Side, SideInputs};
