//! The answer to `diff`: what differs between two builds.

mod answers;
mod builds;
mod forms;
mod parts;
mod shown;
mod whys;

pub use answers::run_diff;
pub use builds::Build;
pub use feats_answers::Answer;
pub use forms::Form;
pub(crate) use forms::form_of;
