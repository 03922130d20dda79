//! Messages about selections that have no plan.

mod refusals;

pub use refusals::{is_memory, plan_refused};
