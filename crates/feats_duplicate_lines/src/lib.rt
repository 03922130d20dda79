//! The duplicates of a plan, as lines in columns or as JSON objects.
#![tactic(auto)]

mod alone;
mod asked;
mod gathered;
mod listed;
mod manifest_lines;
mod objects;
mod place_names;
mod rows;
mod shown;
mod table;

pub use feats_duplicates::{
    Disagreement, Duplicates, MemberPlan, disagreements_of, duplicates_of, plans_alone,
};
pub use gathered::all_shown;
pub use objects::duplicate_objects;
pub use shown::{Dependent, Shown};
pub use table::duplicate_lines;
