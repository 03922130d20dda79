//! Graphs as Graphviz shows them.

mod dots;

pub use dots::{DotNode, dot_text};
