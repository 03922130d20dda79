//! The packages of a set of features, as a set of packages.
ghost use Rattle.std.specs.Prelude.{◌≡◌, IfOk, IfErr};
ghost use Rattle.feature_graph.specs.MemberPackages.{AreMemberPackages};

use crate::set::FeatureSet;
use crate::set::parts::put;
use digraphs::IxBitSet;
use feature_core::Error;
use guppy_packages::PackageSet;
use std::alloc::{AllocError, Global};

impl<'g> FeatureSet<'g> {
    /// Returns the numbers of the packages with a feature in the set.
    fn package_numbers(&self, alloc: Global) -> Result<IxBitSet, AllocError>
        ensures { IfOk result (λ packages. AreMemberPackages self.now.graph.tables self.now.members packages) }
    {
        let count = self.graph.package_graph().package_count();
        let mut packages = IxBitSet::empty(alloc, count)?;
        'packages: for package_ix in 0..count {
            put(&mut packages, package_ix, self.has_member_of(package_ix));
        }
        Ok(packages)
    }

    /// Returns the set of the packages with a feature in the set, the base included; `Memory` is the only error.
    pub fn to_package_set(&self, alloc: Global) -> Result<PackageSet<'g>, Error<'static>>
        ensures graph { IfOk result (λ packages. packages.tables ≡ self.now.graph.tables) }
        ensures members { IfOk result (λ packages. AreMemberPackages self.now.graph.tables self.now.members packages.members) }
        ensures refused { IfErr result (λ e. e ≡ Error.Memory) }
    {
        let packages = self.package_numbers(alloc)?;
        Ok(PackageSet::new(self.graph.package_graph(), packages))
    }
}
