//! The words of the program `feats`: what a command line asks for.
#![tactic(auto)]

mod command;
mod command_arguments;
mod depths;
mod edges;
mod examples;
mod fault;
mod making;
mod options;
mod platform_words;
mod request;
mod splitting;
mod target_options;
mod target_words;
mod values;

pub use command_arguments::{CommandArguments, Format, ResolverSource, arguments};
pub use edges::Edges;
pub use fault::WordsFault;
pub use platform_words::{PlatformWord, platform_word};
pub use request::{Question, Request, document_request, parse};
pub use splitting::feature_words;
pub use target_words::{KindWords, TargetWords};
