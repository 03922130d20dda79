//! Trees over links between numbered nodes: their branches in the order in which `cargo tree` prints them, the branches as text or as
//! JSON objects, and the line where they are cut.

mod cuts;
mod lines;
mod nodes;
mod objects;
mod reversals;
mod titles;
mod trees;
mod waiting;

pub use cuts::{limit_of, with_cut_line, with_cut_object};
pub use lines::branch_lines;
pub use objects::{branch_objects, write_node};
pub use reversals::reversed;
pub use titles::{At, Detail, Title, title_of};
pub use trees::{Branch, Trees, branches};
