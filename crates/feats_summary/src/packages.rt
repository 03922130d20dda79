//! The packages of a summary.
ghost use Rattle.std.specs.Prelude.{◌≡◌, ◌++◌, [], IfOk, OnOk, filter, length, map, option_map, slice_get};
ghost use Rattle.build_summaries.specs.Views as summaries;
ghost use Rattle.cargo_plans.specs.plan_units.UnitViews.{unit_text};
ghost use Rattle.cargo_workspaces.specs.Views.{declaration_text, package_text, texts};
ghost use Rattle.digraphs.specs.Bits.{has};
ghost use Rattle.feats_summary.specs.Packages as spec;
ghost use Rattle.feats_summary.specs.inner.Views.{known_text, places_text};

use crate::places::{Places, path_of};
use build_summaries::{Status, SummaryPackage, SummarySource};
use cargo_plans::{PackageVisit, Place, Unit};
use cargo_workspaces::{Declaration, Package};
use digraphs::IxBitSet;
use plan_rows::rules::host_side;
use plan_rows::{Side, TurnedOn};
use std::alloc::{AllocError, Global};
use std::collections::BTreeSet;

/// What the packages of a summary are made from.
#[derive(Clone, Copy)]
pub(crate) struct Known<'k, 'd, 'w, 'v> {
    /// The packages of the workspace.
    pub(crate) packages: &'w [Package<'v>],
    /// The numbers of its members.
    pub(crate) members: &'k [usize],
    /// The numbers of the selected packages.
    pub(crate) selected: &'k [usize],
    pub(crate) places: &'k Places<'d>,
    /// The visit of step `on`.
    pub(crate) on: &'k PackageVisit,
    /// Whether the host has features of its own.
    pub(crate) split: bool,
}

/// Returns whether `number` is one of `numbers`.
pub(crate) fn is_among(numbers: &[usize], number: usize) -> bool
    ensures { result ≡ spec.is_among numbers.now number }
{
    for other in numbers {
        if *other == number {
            return true;
        }
    }
    false
}

/// Returns the status of a package.
fn status_of(is_selected: bool, is_member: bool, is_direct: bool) -> Status
    ensures { result ≡ spec.status_of is_selected is_member is_direct }
{
    if is_selected {
        Status::Initial
    } else if is_member {
        Status::Workspace
    } else if is_direct {
        Status::Direct
    } else {
        Status::Transitive
    }
}

/// Returns the source that Cargo spells `source`.
fn registry_source(source: &str) -> SummarySource<'_>
    ensures { summaries.source_text result ≡ spec.registry_source source.entry.now }
{
    if source == "registry+https://github.com/rust-lang/crates.io-index" {
        SummarySource::CratesIo
    } else {
        SummarySource::External(source)
    }
}

/// Returns the source of `package`.
fn source_of<'w>(
    alloc: Global,
    places: &Places<'_>,
    is_member: bool,
    package: &'w Package<'_>,
) -> Result<SummarySource<'w>, AllocError>
    ensures { IfOk result (λ source. summaries.source_text source ≡ spec.source_of (places_text places.now) is_member (package_text «package».entry.now)) }
{
    if is_member {
        let path = path_of(alloc, places, package.id)?;
        return Ok(SummarySource::Workspace(path));
    }
    match package.source {
        Some(source) => Ok(registry_source(source)),
        None => {
            let path = path_of(alloc, places, package.id)?;
            Ok(SummarySource::Path(path))
        }
    }
}

/// Returns whether `declaration` of package `ix` is an optional dependency that is on, on `side`.
fn is_optional_on(on: &PackageVisit, side: Side, ix: usize, declaration: &Declaration<'_>) -> bool
    ensures { result ≡ spec.is_optional_on on.now side ix (declaration_text declaration.now) }
{
    declaration.optional && on.is_on(side, ix, declaration.name)
}

/// Returns the names of those of `declarations` of package `ix` that are optional dependencies and on, on `side`.
fn names_on<'v>(
    alloc: Global,
    on: &PackageVisit,
    side: Side,
    ix: usize,
    declarations: &[Declaration<'v>],
) -> Result<Vec<&'v str>, AllocError>
    ensures { IfOk result (λ names. texts names.items ≡ map (λ d. d.name) (filter (spec.is_optional_on on.now side ix) (map declaration_text declarations.now))) }
{
    let mut names = Vec::new(alloc);
    for declaration in declarations {
        if is_optional_on(on, side, ix, declaration) {
            names.push(declaration.name)?;
        }
    }
    Ok(names)
}

/// Returns the set of `names`.
fn set_of<'v>(alloc: Global, names: &[&'v str]) -> Result<BTreeSet<&'v str>, AllocError>
    ensures { IfOk result (λ set. texts set.keys ≡ spec.sorted [] (texts names.now)) }
{
    let mut set = BTreeSet::new(alloc);
    for name in names {
        let _is_new = set.insert(*name)?;
    }
    Ok(set)
}

/// Returns the names in `set`, in order.
fn in_order<'v>(alloc: Global, set: &BTreeSet<&'v str>) -> Result<Vec<&'v str>, AllocError>
    ensures { IfOk result (λ names. texts names.items ≡ texts set.now.keys) }
{
    let mut names = Vec::with_capacity(alloc, set.len())?;
    for name in set {
        names.push(*name)?;
    }
    Ok(names)
}

/// Returns the names of the optional dependencies of package `ix` that are on, on `side`, in the order of their bytes and once each.
fn optional_on<'v>(
    alloc: Global,
    on: &PackageVisit,
    side: Side,
    ix: usize,
    declarations: &[Declaration<'v>],
) -> Result<Vec<&'v str>, AllocError>
    ensures { IfOk result (λ names. texts names.items ≡ spec.optional_on on.now side ix (map declaration_text declarations.now)) }
{
    let names = names_on(alloc, on, side, ix, declarations)?;
    let set = set_of(alloc, &names)?;
    in_order(alloc, &set)
}

/// Returns the side whose features a package has in `place`.
fn side_at(split: bool, place: Place) -> Side
    ensures { result ≡ spec.side_at split place }
{
    match place {
        Place::Host => host_side(split),
        Place::Target(_) => Side::Target,
    }
}

/// Returns `package` as it is built by `unit`. `is_direct` is whether a member depends on the unit.
#[tactic(auto, unfolding(crate::specs::Packages::package_of))]
fn package_of<'w>(
    alloc: Global,
    known: Known<'_, '_, 'w, '_>,
    is_direct: bool,
    unit: &Unit<'w>,
    package: &'w Package<'_>,
) -> Result<SummaryPackage<'w>, AllocError>
    ensures { IfOk result (λ p. summaries.package_text p ≡ spec.package_of (known_text known.entry) is_direct (unit_text unit.now) (package_text «package».entry.now)) }
{
    let is_member = is_among(known.members, unit.package);
    let is_selected = is_among(known.selected, unit.package);
    let side = side_at(known.split, unit.place);
    Ok(SummaryPackage {
        name: package.name,
        version: package.version,
        source: source_of(alloc, known.places, is_member, package)?,
        status: status_of(is_selected, is_member, is_direct),
        features: Vec::from_slice(alloc, &unit.features)?,
        optional_dependencies: optional_on(
            alloc,
            known.on,
            side,
            unit.package,
            &package.declarations,
        )?,
    })
}

/// Returns package `number`, if there is one.
fn package_numbered<'w, 'v>(packages: &'w [Package<'v>], number: usize) -> Option<&'w Package<'v>>
    ensures { option_map (λ p. package_text p.now) result ≡ slice_get (map package_text packages.now) number }
{
    packages.get(number)
}

/// Appends the package of `unit`.
fn push_package<'w>(
    alloc: Global,
    packages: &mut Vec<SummaryPackage<'w>>,
    known: Known<'_, '_, 'w, '_>,
    is_direct: bool,
    unit: &Unit<'w>,
) -> Result<(), AllocError>
    ensures { OnOk result (map summaries.package_text packages.new.items ≡ map summaries.package_text packages.old.items ++ spec.package_at (known_text known.entry) is_direct (unit_text unit.now)) }
{
    if let Some(package) = package_numbered(known.packages, unit.package) {
        packages.push(package_of(alloc, known, is_direct, unit, package)?)?;
    }
    Ok(())
}

/// Returns whether `place` is the host, or else whether it is a target.
fn is_in(at_host: bool, place: Place) -> bool
    ensures { result ≡ spec.is_in at_host place }
{
    match place {
        Place::Host => at_host,
        Place::Target(_) => !at_host,
    }
}

/// Returns the packages of `units` for the host, or for the target. `direct` has the numbers of the units on which a member depends.
pub(crate) fn packages_by<'w>(
    alloc: Global,
    known: Known<'_, '_, 'w, '_>,
    direct: &IxBitSet,
    at_host: bool,
    units: &[Unit<'w>],
) -> Result<Vec<SummaryPackage<'w>>, AllocError>
    requires { length direct.now ≡ length units.now }
    ensures { IfOk result (λ packages. map summaries.package_text packages.items ≡ spec.packages_by (known_text known.entry) (has direct.now) at_host (map unit_text units.now)) }
{
    let mut packages = Vec::new(alloc);
    for (number, unit) in units.iter().enumerate() {
        if is_in(at_host, unit.place) {
            push_package(alloc, &mut packages, known, direct.contains(number), unit)?;
        }
    }
    Ok(packages)
}
