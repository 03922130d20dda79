//! Row files: bytes are split into lines and fields, read as rows, and made into the package graph or
//! the first fault.
#![tactic(auto)]

mod cuts;
mod error;
mod form;
mod keeping;
mod line;
mod lines;
mod row_file;
mod rows;

pub use error::RowFileError;
pub use lines::Lines;
pub use row_file::{graph_of, graph_of_lines, tables_of, tables_of_lines};
pub use rows::LineRows;
