//! The keys and the warnings that one pass over the tables of a package graph collects.
ghost use Rattle.std.specs.Prelude.{◌≡◌, ◌++◌, IfOk};
ghost use Rattle.guppy_packages.specs.Tables.{Tables};
ghost use Rattle.feature_edges.specs.Warnings.{warnings_in};
ghost use Rattle.feature_edges.specs.inner.Collects.{AreWarningsBelow};

mod declarations;
mod features;
mod package_input;

use crate::candidate::Key;
use crate::warnings::FeatureGraphWarning;
pub(crate) use features::{collect_around, collect_feature};
use std::alloc::{AllocError, Global};

/// The keys of one node, and the warnings of the packages so far: those of items, and those of the names that declarations
/// list.
#[derive(Drop)]
pub(crate) struct Collected {
    pub(crate) keys: Vec<Key>,
    pub(crate) item_warnings: Vec<FeatureGraphWarning>,
    pub(crate) name_warnings: Vec<FeatureGraphWarning>,
}

impl Collected {
    /// Returns empty lists.
    pub(crate) fn new(alloc: Global) -> Collected
        ensures { (t : Tables) → AreWarningsBelow t 0 result }
    {
        Collected {
            keys: Vec::new(alloc),
            item_warnings: Vec::new(alloc),
            name_warnings: Vec::new(alloc),
        }
    }

    /// Returns all warnings: first those of items, then those of listed names.
    pub(crate) fn into_warnings(self) -> Result<Vec<FeatureGraphWarning>, AllocError>
        ensures { IfOk result (λ found. warnings_in found ≡ warnings_in self.item_warnings ++ warnings_in self.name_warnings) }
    {
        let Collected {
            mut item_warnings,
            mut name_warnings,
            ..
        } = self;
        item_warnings.append(&mut name_warnings)?;
        Ok(item_warnings)
    }
}
