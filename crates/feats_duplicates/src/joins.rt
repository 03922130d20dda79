//! The lines that members get.
ghost use Rattle.std.specs.Prelude.{◌≡◌, ◌++◌, IfOk, OnOk, map, flat_map, option_map, slice_get};
ghost use Rattle.cargo_workspaces.specs.Views.{package_text};
ghost use Rattle.feats_duplicates.specs.Views.{alone_text, member_unit_text};
ghost use Rattle.feats_duplicates.specs.Joined as spec;
ghost use Rattle.feats_duplicates.specs.inner.JoinViews.{join_text};

use crate::alone::Alone;
use crate::features::{is_from_default_registry, joined_features};
use crate::member_units::MemberUnit;
use cargo_plans::Place;
use cargo_workspaces::{Kind, Package};
use std::alloc::{AllocError, Global};

/// A line for the manifests of members: it asks for a package with exactly these features.
#[derive(Drop)]
pub(crate) struct Join<'v> {
    /// The number of the package.
    pub package: usize,
    pub name: &'v str,
    pub kind: Kind,
    pub features: Vec<&'v str>,
    /// The numbers of the members.
    pub members: Vec<usize>,
}

/// Returns the kind of a dependency for `place`.
fn kind_for(place: Place) -> Kind
    ensures { result ≡ spec.kind_for place }
{
    match place {
        Place::Host => Kind::Build,
        Place::Target(_) => Kind::Normal,
    }
}

/// Returns the members of `rows`.
fn members_of(alloc: Global, rows: &[MemberUnit<'_, '_>]) -> Result<Vec<usize>, AllocError>
    ensures { IfOk result (λ members. members.items ≡ map (λ r. r.member) (map member_unit_text rows.now)) }
{
    let mut members = Vec::with_capacity(alloc, rows.len())?;
    for row in rows {
        members.push(row.member)?;
    }
    Ok(members)
}

/// Returns the line for `package`, which is that of `alone`.
fn join_of<'v>(
    alloc: Global,
    package: &Package<'v>,
    alone: &Alone<'_, '_>,
) -> Result<Join<'v>, AllocError>
    ensures { IfOk result (λ join. join_text join ≡ spec.join_of (alone_text alone.now) (package_text «package».now)) }
{
    let members = members_of(alloc, &alone.units)?;
    Ok(Join {
        package: alone.package,
        name: package.name,
        kind: kind_for(alone.place),
        features: joined_features(alloc, package, &alone.units)?,
        members,
    })
}

/// Appends the line for `package`, which is that of `alone`, if it is from the default registry.
fn push_join<'v>(
    alloc: Global,
    joins: &mut Vec<Join<'v>>,
    package: &Package<'v>,
    alone: &Alone<'_, '_>,
) -> Result<(), AllocError>
    ensures { OnOk result (map join_text joins.new.items ≡ map join_text joins.old.items ++ spec.join_if (alone_text alone.now) (package_text «package».now)) }
{
    if is_from_default_registry(package) {
        joins.push(join_of(alloc, package, alone)?)?;
    }
    Ok(())
}

/// Returns package `number` of `packages`, if there is one.
fn package_at<'u, 'v>(packages: &'u [Package<'v>], number: usize) -> Option<&'u Package<'v>>
    ensures { option_map (λ p. package_text p.now) result ≡ slice_get (map package_text packages.now) number }
{
    packages.get(number)
}

/// Appends the line for the package of `alone`.
fn push_one<'v>(
    alloc: Global,
    joins: &mut Vec<Join<'v>>,
    packages: &[Package<'v>],
    alone: &Alone<'_, '_>,
) -> Result<(), AllocError>
    ensures { OnOk result (map join_text joins.new.items ≡ map join_text joins.old.items ++ spec.joins_at (map package_text packages.now) (alone_text alone.now)) }
{
    match package_at(packages, alone.package) {
        Some(package) => push_join(alloc, joins, package, alone),
        None => Ok(()),
    }
}

/// Returns the lines for the packages of `list` that are from the default registry. `packages` are those of the workspace.
pub(crate) fn joins_of<'v>(
    alloc: Global,
    packages: &[Package<'v>],
    list: &[Alone<'_, '_>],
) -> Result<Vec<Join<'v>>, AllocError>
    ensures { IfOk result (λ joins. map join_text joins.items ≡ spec.joins_of (map package_text packages.now) (map alone_text list.now)) }
{
    let mut joins = Vec::new(alloc);
    for alone in list {
        push_one(alloc, &mut joins, packages, alone)?;
    }
    Ok(joins)
}
