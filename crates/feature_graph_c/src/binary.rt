//! Numbers, texts and lists as bytes, and the numbers of a request. The meaning of a record plays no part.

mod pushing;
mod reading;
mod writing;

pub use pushing::{Entries, Numbers, push_flag, push_list, push_number, push_text};
pub use reading::{counted, words};
pub use writing::write_answer;
