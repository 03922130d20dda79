//! Sets of numbers, digraphs, and the places of each number in a list.
#![tactic(auto)]

mod bit_set;
mod collecting;
mod digraph;
pub mod laws;
mod rows;

pub use bit_set::{IxBitSet, Ones};
pub use collecting::collect_exactly;
pub use digraph::{Digraph, DigraphError, Edge, EdgeColumns, begin_up_to};
pub use rows::{Keys, Rows, pack_rows, zeroes};
