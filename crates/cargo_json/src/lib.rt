//! The output of `cargo metadata` as a tree: its reader, its fields with their types, its places and faults.
#![tactic(auto)]

mod fault;
mod fields;
mod parts;
mod tree;

pub use fault::{DocumentFault, Fault, Place};
pub use fields::{flag_in, list_in, object_in, optional_text_in, text_in, texts_in, texts_of};
pub use parts::parts_of;
pub use tree::{Unread, read};
