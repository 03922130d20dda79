//! The edits of declarations by which a build is smaller, as lines in columns or as JSON objects.

mod objects;
mod rows;
mod shown;
mod table;
mod texts;

pub use objects::slim_objects;
pub use table::slim_lines;
pub use texts::slim_text;
