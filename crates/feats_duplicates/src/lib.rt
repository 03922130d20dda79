//! What is built several times: packages of one name, packages with different features in different places, and packages that get
//! different features if each selected member is planned alone; the lines for the manifests of these members, and whether the members
//! agree once they have got these lines.
#![tactic(auto)]

mod alone;
mod copies;
mod declarations;
mod dependents;
mod differences;
mod disagreements;
mod duplicates;
mod features;
mod groups;
mod joined;
mod joins;
mod member_plans;
mod member_units;
mod names;
mod outcomes;
mod placed;
mod places;
mod versions;

pub use alone::Alone;
pub use cargo_plans::Place;
pub use disagreements::{Disagreement, disagreements_of, is_agreed};
pub use duplicates::{Duplicates, duplicates_of};
pub use features::{is_from_default_registry, joined_features};
pub use joined::joined_workspace;
pub use member_plans::{MemberPlan, plans_alone};
pub use member_units::MemberUnit;
pub use outcomes::Outcome;
pub use placed::PlaceFeatures;
pub use places::Places;
pub use versions::{Version, Versions};
