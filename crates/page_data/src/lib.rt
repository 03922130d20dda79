//! JSON for a page: arrays of lines, and texts that can stand in an element `script`.
#![tactic(auto)]

mod arrays;
mod pages;

pub use arrays::array_of_lines;
pub use pages::page_safe;
