//! The data that a package graph stores for a package and for a link.
ghost use Rattle.std.specs.Prelude.{◌≡◌};

use crate::declarations::Declarations;
use crate::name_set::NameSet;
use crate::named_feature::NamedFeature;
use std::fmt;

/// A package's data, without its id.
#[derive(Drop)]
pub struct PackageData {
    pub(crate) in_workspace: bool,
    pub(crate) features: NameSet<NamedFeature>,
    pub(crate) optional_names: NameSet<String>,
}

/// A link: the numbers of the packages that it leaves and leads to, and its data.
pub(crate) type Link = ((u32, u32), LinkData);

/// A link's declarations. All have the link's name, so it isn't stored beside them.
#[derive(Drop)]
pub struct LinkData {
    pub(crate) declarations: Declarations,
}

impl LinkData {
    ghost use Rattle.guppy_packages.specs.Stored.{declared_name};
    ghost use Rattle.guppy_packages.specs.inner.Declarations.{held_declarations};

    /// Returns the link's name, which is that of its first declaration. It would be empty if there were no declaration.
    pub(crate) fn name(&self) -> &str
        ensures { result.now ≡ declared_name (held_declarations self.now.declarations) }
    {
        match self.declarations.as_slice() {
            [first, ..] => first.name(),
            [] => "",
        }
    }
}

impl fmt::Debug for LinkData {
    fn fmt<W: fmt::Write>(&self, f: &mut fmt::Formatter<W>) -> fmt::Result {
        f.debug_struct("LinkData")
            .field("name", &self.name())
            .field("declarations", &self.declarations.as_slice())
            .finish()
    }
}
