//! What is built several times.
ghost use Rattle.std.specs.Prelude.{IfOk, map};
ghost use Rattle.cargo_workspaces.specs.Views.{package_text, texts};
ghost use Rattle.cargo_plans.specs.plan_units.UnitViews.{unit_text};
ghost use Rattle.feats_duplicates.specs.Duplicates.{AreDuplicates};
ghost use Rattle.feats_duplicates.specs.DuplicatesView.{duplicates_text};
ghost use Rattle.feats_duplicates.specs.Views.{member_plan_text};

use crate::alone::{Alone, alone_of};
use crate::member_plans::MemberPlan;
use crate::places::{Places, places_of};
use crate::versions::{Versions, versions_of};
use cargo_plans::Unit;
use cargo_workspaces::Package;
use std::alloc::{AllocError, Global};

/// What is built several times.
#[derive(Drop)]
pub struct Duplicates<'u, 'w> {
    /// The names of which several packages are built, in the order of their bytes.
    pub versions: Vec<Versions<'w>>,
    /// The packages that are built with different features in different places, or all that are built in several.
    pub places: Vec<Places<'u, 'w>>,
    /// The packages that get different features for one place in the plans of single members.
    pub alone: Vec<Alone<'u, 'w>>,
}

/// Returns what the plan with the units `units` builds several times, and what the plans of single members, `plans`, build
/// differently. `packages` are those of the workspace, and the target platforms have the names `names`. `links` are those between the
/// units. With `all`, packages with the same features in several places are there too.
pub fn duplicates_of<'u, 'w>(
    alloc: Global,
    packages: &'w [Package<'_>],
    names: &[&str],
    all: bool,
    units: &'u [Unit<'w>],
    links: &[(usize, usize)],
    plans: &'u [MemberPlan<'w>],
) -> Result<Duplicates<'u, 'w>, AllocError>
    ensures { IfOk result (λ found. AreDuplicates (map package_text packages.now) (texts names.now) all (map unit_text units.now) links.now (map member_plan_text plans.now) (duplicates_text found)) }
{
    let versions = versions_of(alloc, packages, units, links)?;
    let places = places_of(alloc, packages, all, units)?;
    let alone = alone_of(alloc, packages, names, plans)?;
    Ok(Duplicates {
        versions,
        places,
        alone,
    })
}
