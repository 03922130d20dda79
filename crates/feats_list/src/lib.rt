//! The lists of a workspace: platform specs with the declarations that name them, and the features and optional dependencies of packages.
#![tactic(auto)]

pub mod features;
pub mod platforms;
