//! What differs between two plans: the packages and features that come, go, stay, or change their version.

mod comparing;
mod feature_changes;
mod matches;
mod orders;
mod parts;
mod ranks;

pub use comparing::{Differences, differences_between};
pub use feature_changes::Change;
pub use matches::Pair;
pub use parts::Part;
pub use ranks::{Rank, rank_of};
