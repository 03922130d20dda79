//! The workspace of a document of `cargo metadata`, with its packages numbered.

mod fault;
mod numbers;
mod reading;
mod rules;

pub use fault::WorkspaceFault;
pub use reading::workspace_in;
