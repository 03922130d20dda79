//! The files of the program `feats`: their content, and the faults that they have.
#![tactic(auto)]

mod documents;
mod fault;
mod files;
mod message;
mod opening;
mod package_words;
pub mod plan_messages;
mod platforms;
mod showing;
mod word_messages;
mod writing;

pub use documents::document_of;
pub use fault::Fault;
pub use files::{PlatformFile, resolver, target, target_platforms};
pub use message::{push_escaped, refused};
pub use opening::{bytes_of, no_command, not_text, unopened};
pub use package_words::push_package;
pub use platforms::{held_on, held_on_each};
pub use showing::shown_answer;
pub use word_messages::words_refused;
pub use writing::{Ended, write_answer};
