//! Requests over a feature graph, given as numbers, and their answers as bytes.

mod answers;
mod checking;
mod choice;
mod components;
pub mod laws;
mod requests;
mod sets;
mod steps;
mod views;
mod walking;

pub use answers::{broken, status};
pub use checking::check;
pub use components::cycles;
pub use views::{links, order, roots};
pub use walking::{reach, resolve};
