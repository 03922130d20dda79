//! The lines that show a plan: as text in columns, or as JSON objects.
#![tactic(auto)]

mod kinds;
mod labels;
mod names;
mod objects;
pub mod parts;
mod rows;
mod shown;
mod table;

pub use kinds::kind_word;
pub use labels::label_of;
pub use names::{names_of, repeated_in, repeated_names};
pub use objects::objects_of;
pub use shown::Shown;
pub use table::lines_of;
