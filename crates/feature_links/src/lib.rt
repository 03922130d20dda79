//! Links over declarations of package links, and the edges that have one.
#![tactic(auto)]

mod edge;
mod link;
mod link_groups;
mod links_by_name;

pub use edge::{EdgeChoice, FeatureEdge, WeakIndex, WeakSlashImpl};
pub use link::from_declarations::{half_of, is_any_included, link_of, named_link, section_link};
pub use link::{ConditionalLinkImpl, EnabledLink, SharedStatuses};
pub use link_groups::LinkGroups;
pub use links_by_name::{named_links, numbers_of};
