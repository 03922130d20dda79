//! A feature graph as bytes: its packages with their links, its edges, and what was computed with them.

mod describing;
mod edges;
mod packages;

pub use describing::push_description;
