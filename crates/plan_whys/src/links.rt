//! Links between the packages that a plan builds, and between the features that are on in it.

mod numbers;
mod places;
mod spots;
mod units;
mod ways;

pub use crate::{Side, Spot};
pub use spots::{on_spots, root_spots};
pub use units::{root_units, unit_links};
pub use ways::spot_links;
