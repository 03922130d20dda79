//! Edits of a workspace: a member's declaration, or an entry that members inherit, without default features or without a listed feature.
#![tactic(auto)]

mod copies;
mod declaration_edits;
mod edited_workspace;
mod edits;
pub mod inherited;
pub mod resolvers;
mod same_edits;
mod sources;

pub use crate::inherited::Inheritance;
pub use copies::{copies_of_declarations, package_with};
pub use declaration_edits::edits_of;
pub use edited_workspace::edited;
pub use edits::{Edit, EditPlace, Without};
