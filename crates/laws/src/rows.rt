//! The law that the rows that `cargo_rows` writes are read by `row_files`.

pub mod laws;
