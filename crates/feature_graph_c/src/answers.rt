//! Calls over the rows of a row file and a request, and their answers as bytes.

mod answering;
mod call;
mod faults;

pub use answering::{answer, write};
pub use call::Call;
