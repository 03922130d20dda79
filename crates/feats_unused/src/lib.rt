//! The features of a workspace's members that no other package uses, and the items of their features that turn nothing on.
#![tactic(auto)]

mod dead;
mod groups;
mod lookups;
mod objects;
mod requests;
mod rows;
mod shown;
mod shown_lines;
mod table;
mod unused;
mod used;

pub use objects::unused_objects;
pub use shown::Shown;
pub use shown_lines::lines_of_members;
pub use table::unused_lines;
