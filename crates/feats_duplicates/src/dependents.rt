//! The packages that depend on a package.
ghost use Rattle.std.specs.Prelude.{◌≡◌, ◌&&◌, ◌||◌, ℕ, List, IfOk, OnOk, length, map, nat_eq, nat_lt, not};
ghost use Rattle.std.specs.List.{list_any};
ghost use Rattle.std.specs.List.Sorted.{IsStrictlySortedBy};
ghost use Rattle.std.specs.Ordering.{nat_cmp};
ghost use Rattle.cargo_workspaces.specs.Workspaces.{PackageText};
ghost use Rattle.cargo_plans.specs.plan_units.Units.{UnitText};
ghost use Rattle.cargo_plans.specs.plan_units.UnitViews.{unit_text};
ghost use Rattle.feats_duplicates.specs.Dependents as spec;
ghost use Rattle.feats_duplicates.specs.inner.Groups.{group_at};
ghost use Rattle.feats_duplicates.specs.inner.Dependents.{HasDependents};

use crate::groups::{add, group_of};
use cargo_plans::Unit;
use std::alloc::{AllocError, Global};
use std::collections::BTreeMap;

/// Returns the package of unit `number`, if there is one.
fn package_of(units: &[Unit<'_>], number: usize) -> Option<usize>
    ensures { result ≡ spec.package_of (map unit_text units.now) number }
{
    match units.get(number) {
        Some(unit) => Some(unit.package),
        None => None,
    }
}

/// Adds package `from` to the group of package `to`, if both are there, they differ, and `from` is below `count`.
fn note(
    groups: &mut BTreeMap<usize, Vec<usize>>,
    count: usize,
    from: Option<usize>,
    to: Option<usize>,
) -> Result<(), AllocError>
    ensures { OnOk result ((p q : ℕ) → list_any (nat_eq q) (group_at groups.new p) ≡ (list_any (nat_eq q) (group_at groups.old p) || (nat_lt q count && (not (nat_eq q p) && (spec.is_number q from && spec.is_number p to))))) }
{
    if let Some(from) = from
        && let Some(to) = to
        && from < count
        && from != to
    {
        add(groups, to, from)?;
    }
    Ok(())
}

/// Returns the dependents of each package, of the first `count` packages. `links` are those between `units`.
pub(crate) fn dependents_by_package(
    alloc: Global,
    count: usize,
    units: &[Unit<'_>],
    links: &[(usize, usize)],
) -> Result<BTreeMap<usize, Vec<usize>>, AllocError>
    ensures { IfOk result (λ groups. HasDependents groups count (map unit_text units.now) links.now) }
{
    let mut groups = BTreeMap::new(alloc);
    for link in links {
        note(
            &mut groups,
            count,
            package_of(units, link.0),
            package_of(units, link.1),
        )?;
    }
    Ok(groups)
}

/// Returns `numbers` in their order, once each.
fn ascending(alloc: Global, numbers: &[usize]) -> Result<Vec<usize>, AllocError>
    ensures sorted { IfOk result (λ list. IsStrictlySortedBy nat_cmp list.items) }
    ensures same { IfOk result (λ list. (q : ℕ) → list_any (nat_eq q) list.items ≡ list_any (nat_eq q) numbers.now) }
{
    let mut list = Vec::from_slice(alloc, numbers)?;
    list.sort_unstable();
    list.dedup();
    Ok(list)
}

/// Returns the dependents of package `package`.
pub(crate) fn dependents_in(
    alloc: Global,
    groups: &BTreeMap<usize, Vec<usize>>,
    package: usize,
) -> Result<Vec<usize>, AllocError>
    ensures { IfOk result (λ list. (packages : List PackageText) (units : List UnitText) (links : List (ℕ × ℕ)) → HasDependents groups.now (length packages) units links → list.items ≡ spec.dependents_of packages units links «package») }
{
    let list = ascending(alloc, group_of(groups, package))?;
    Ok(list)
}
