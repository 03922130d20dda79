//! The parts of which the lines of answers are made: tables of columns, and members of JSON objects.

mod members;
mod table;

pub use members::{
    begin_line, end_line, write_flag, write_member, write_number, write_optional, write_texts,
};
pub use table::{Row, table_of};
