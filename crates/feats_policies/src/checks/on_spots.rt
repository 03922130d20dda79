//! The spots of parts of packages that are on.
ghost use Rattle.std.specs.Prelude.{◌≡◌, ◌++◌, ◌∷◌, [], IfOk, OnOk, filter, flat_map, map, slice_index_or, false};
ghost use Rattle.feature_labels.specs.Names as labels;
ghost use Rattle.plan_names.specs.Views.{named_text, part_text};
ghost use Rattle.cargo_plans.specs.plan_starts.PackageVisits.{is_on};
ghost use Rattle.plan_whys.specs.StepViews.{spot_text};
ghost use Rattle.feats_policies.specs.checks.Spots as spec;
ghost use Rattle.feats_policies.specs.checks.Views.{build_text};
ghost use Rattle.feats_policies.specs.checks.inner.Scopes.{is_marked, is_spot_built, passes};

use crate::checks::build::Build;
use crate::checks::judged::Judged;
use crate::checks::platforms::built_for;
use cargo_plans::built_parts::BuiltParts;
use cargo_plans::{PackageVisit, Side};
use feature_labels::FeatureLabel;
use plan_names::{Named, Part};
use plan_rows::TurnedOn;
use plan_whys::Spot;
use std::alloc::{AllocError, Global};

/// Which spots count: all, those of the packages that are built on the spot's side, or those of the packages that are marked for it.
#[derive(Clone, Copy)]
pub(crate) enum Scope<'m> {
    Everywhere,
    Built(&'m BuiltParts<'m>),
    Marked {
        target: &'m [bool],
        host: &'m [bool],
    },
}

/// Returns the label of `part`.
fn label_of(part: Part<'_>) -> FeatureLabel<'_>
    ensures { labels.label_of result ≡ spec.label_of_part (part_text part.entry) }
{
    match part {
        Part::Package => FeatureLabel::Base,
        Part::Feature(name) => FeatureLabel::Named(name),
        Part::Dependency(name) => FeatureLabel::OptionalDependency(name),
    }
}

/// Returns the spot of `named` on `side`.
fn spot_on(side: Side, named: Named<'_>) -> Spot<'_>
    ensures { spot_text result ≡ spec.spot_on side (named_text named.entry) }
{
    Spot {
        side,
        package: named.package,
        label: label_of(named.part),
    }
}

/// Returns whether `at` is on, by the visit of step `on`.
fn is_on(on: &PackageVisit, at: Spot<'_>) -> bool
    ensures { result ≡ is_on on.now (spot_text at.entry).side (spot_text at.entry).number (spot_text at.entry).label }
{
    match at.label {
        FeatureLabel::Base => on.has_package(at.side, at.package),
        FeatureLabel::Named(name) => on.has_feature(at.side, at.package, name),
        FeatureLabel::OptionalDependency(name) => on.is_on(at.side, at.package, name),
    }
}

/// Returns the mark at `ix`; false past the end.
fn mark_at(marks: &[bool], ix: usize) -> bool
    ensures { result ≡ slice_index_or marks.now ix false }
{
    if ix < marks.len() { marks[ix] } else { false }
}

/// Returns whether the package of `at` is marked, for its side.
fn is_marked(target: &[bool], host: &[bool], at: Spot<'_>) -> bool
    ensures { result ≡ is_marked target.now host.now (spot_text at.entry) }
{
    match at.side {
        Side::Target => mark_at(target, at.package),
        Side::Host => mark_at(host, at.package),
    }
}

/// Returns whether `at` is on, by the visit of step `on`, and counts.
fn passes(on: &PackageVisit, scope: Scope<'_>, at: Spot<'_>) -> bool
    ensures { result ≡ passes on.now scope.entry (spot_text at.entry) }
{
    match scope {
        Scope::Everywhere => is_on(on, at),
        Scope::Built(parts) => is_on(on, at) && parts.builds(at.side, at.package),
        Scope::Marked { target, host } => is_on(on, at) && is_marked(target, host, at),
    }
}

/// Appends `at`, if it is on and counts.
fn push_spot<'w>(
    spots: &mut Vec<Spot<'w>>,
    on: &PackageVisit,
    scope: Scope<'_>,
    at: Spot<'w>,
) -> Result<(), AllocError>
    ensures { OnOk result (map spot_text spots.new.items ≡ map spot_text spots.old.items ++ filter (passes on.now scope.entry) (spot_text at.entry ∷ [])) }
{
    if passes(on, scope, at) {
        spots.push(at)?;
    }
    Ok(())
}

/// Appends the spots of `named` that are on and count.
fn push_part<'w>(
    spots: &mut Vec<Spot<'w>>,
    on: &PackageVisit,
    scope: Scope<'_>,
    named: Named<'w>,
) -> Result<(), AllocError>
    ensures { OnOk result (map spot_text spots.new.items ≡ map spot_text spots.old.items ++ filter (passes on.now scope.entry) (spec.on_both_sides (named_text named.entry))) }
{
    push_spot(spots, on, scope, spot_on(Side::Target, named))?;
    push_spot(spots, on, scope, spot_on(Side::Host, named))
}

/// Returns the spots of `parts` that are on and count.
fn spots_in<'w>(
    alloc: Global,
    on: &PackageVisit,
    scope: Scope<'_>,
    parts: &[Named<'w>],
) -> Result<Vec<Spot<'w>>, AllocError>
    ensures { IfOk result (λ spots. map spot_text spots.items ≡ filter (passes on.now scope.entry) (flat_map spec.on_both_sides (map named_text parts.now))) }
{
    let mut spots = Vec::new(alloc);
    for named in parts {
        push_part(&mut spots, on, scope, *named)?;
    }
    Ok(spots)
}

/// Returns the spots of `parts` that are on in `build`, and whose packages are built on their sides.
fn spots_built<'w>(
    alloc: Global,
    build: Build<'_, '_, '_, '_>,
    parts: &[Named<'w>],
) -> Result<Vec<Spot<'w>>, AllocError>
    ensures { IfOk result (λ spots. map spot_text spots.items ≡ filter (is_spot_built (build_text build.entry)) (flat_map spec.on_both_sides (map named_text parts.now))) }
{
    let built = BuiltParts::of_plan(alloc, build.split, build.plan)?;
    spots_in(alloc, build.plan.on(), Scope::Built(&built), parts)
}

/// Returns the spots of `parts` that count in `build`: they are on, and their packages are built on their sides. For every choice all that
/// is on counts.
pub(crate) fn spots_on<'w>(
    alloc: Global,
    build: Build<'_, '_, '_, '_>,
    parts: &[Named<'w>],
) -> Result<Vec<Spot<'w>>, AllocError>
    ensures { IfOk result (λ spots. map spot_text spots.items ≡ spec.spots_on (build_text build.entry) (map named_text parts.now)) }
{
    match build.judged {
        Judged::ForEveryChoice => spots_in(alloc, build.plan.on(), Scope::Everywhere, parts),
        Judged::InBuild | Judged::WithAll => spots_built(alloc, build, parts),
    }
}

/// Returns the spots of `parts` that are on in `build`, and whose packages are built for the platform `triple`.
pub(crate) fn spots_on_for<'w>(
    alloc: Global,
    build: Build<'_, '_, '_, '_>,
    triple: &str,
    parts: &[Named<'w>],
) -> Result<Vec<Spot<'w>>, AllocError>
    ensures { IfOk result (λ spots. map spot_text spots.items ≡ spec.spots_on_for (build_text build.entry) triple.now (map named_text parts.now)) }
{
    let on = build.plan.on();
    let count = on.package_count();
    let target = built_for(alloc, build, triple, Side::Target, count)?;
    let host = built_for(alloc, build, triple, Side::Host, count)?;
    let scope = Scope::Marked {
        target: &target,
        host: &host,
    };
    spots_in(alloc, on, scope, parts)
}
