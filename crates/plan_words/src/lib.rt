//! The words of a command line: the packages that they select, the features that they ask for, and the targets that they
//! choose.
#![tactic(auto)]

mod choices;
mod commands;
mod fault;
mod feature_words;
mod item_checks;
mod lookups;
mod package_words;
mod patterns;
mod selection;
mod started;
mod target_choice;
mod word_parts;

pub use choices::{Chosen, choose};
pub use fault::WordFault;
pub use package_words::packages_of_word;
pub use patterns::fits;
pub use selection::{PackageChoice, Selection};
pub use target_choice::{KindWords, TargetChoice, choice_of_command, choice_with_tests, is_called};
