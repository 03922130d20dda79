//! Shared parts: row files, the words of a call, and standard output.
mod failure;
mod files;
mod given;
mod numbers;
mod out;
mod texts;
mod words;

pub use failure::Failure;
pub use files::{bytes_of, package_graph, package_graph_by_lines, script};
pub use given::{Given, Words, ids_of, next_id};
pub use numbers::insert;
pub use out::Out;
pub use texts::{name_of, tell_status, tell_warning};
pub use words::{
    FromWord, all_of, cut, direction_of, halves, kinds_of, label_of, number, parts, word_at,
};
