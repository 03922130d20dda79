//! The edits of declarations after which a build has fewer packages or features, and what one plan of a workspace builds and another
//! doesn't.

mod groups;
mod loss;
mod losses;
mod lost;
mod orders;
mod places;
mod slims;
mod trials;

pub use cargo_manifests::{Edit, EditPlace, Inheritance, Without};
pub use cargo_plans::{Plan, PlanWords, WordFault};
pub use lost::Slim;
pub use slims::slims_of;
