//! How a package depends on another: the kind of a declaration that counts.
ghost use Rattle.std.specs.Prelude.{◌≡◌, false, map, option_map, slice_get, unwrap_or};
ghost use Rattle.std.specs.List.{list_any};
ghost use Rattle.cargo_plans.specs.plan_steps.PlanViews.{plan_text};
ghost use Rattle.cargo_plans.specs.plan_units.UnitViews.{unit_text};
ghost use Rattle.cargo_workspaces.specs.Views.{declaration_text, package_text};
ghost use Rattle.feats_why.specs.Settings.{settings_text};
ghost use Rattle.plan_rows.specs.Steps.{admits as admits_spec};
ghost use Rattle.feats_routes.specs.Kinds as spec;
ghost use Rattle.feats_routes.specs.Shown.{shown_text};

use crate::shown::Shown;
use cargo_plans::plan_steps::{Place, Plan, Unit};
use cargo_workspaces::{Declaration, Kind, Package};
use feats_why::WhySettings;
use plan_rows::rules::{host_side, is_macro_at};
use plan_rows::{Platform, Side, TurnedOn};

/// Returns the side whose features `place` has.
fn side_at(split: bool, place: Place) -> Side
    ensures { result ≡ spec.side_at split place }
{
    match place {
        Place::Host => host_side(split),
        Place::Target(_) => Side::Target,
    }
}

/// Returns whether the platform spec `text` holds on the target platform with this number; false, if there is none.
fn holds_on<P: Platform>(targets: &[P], number: usize, text: &str) -> bool
    ensures { result ≡ unwrap_or (slice_get (map P.holds targets.now) number) (λ t. false) text.now }
{
    match targets.get(number) {
        Some(target) => target.holds(text),
        None => false,
    }
}

/// Returns whether the platform spec `text` holds for `place`.
fn holds_at<P: Platform>(settings: &WhySettings<'_, P>, place: Place, text: &str) -> bool
    ensures { result ≡ spec.holds_at (settings_text P.holds settings.now) place text.now }
{
    match place {
        Place::Host => settings.host.holds(text),
        Place::Target(number) => holds_on(settings.targets, number, text),
    }
}

/// Returns whether the platform spec of a declaration, if it has one, holds for `place`.
fn admits_at<P: Platform>(
    settings: &WhySettings<'_, P>,
    place: Place,
    platform: Option<&str>,
) -> bool
    ensures { result ≡ admits_spec (spec.holds_at (settings_text P.holds settings.now) place) (option_map (λ t. t.now) platform.entry) }
{
    match platform {
        Some(text) => holds_at(settings, place, text),
        None => true,
    }
}

/// Returns whether both are one place.
fn is_same_place(a: Place, b: Place) -> bool
    ensures { result ≡ spec.is_same_place a b }
{
    match (a, b) {
        (Place::Host, Place::Host) => true,
        (Place::Target(a), Place::Target(b)) => a == b,
        _ => false,
    }
}

/// Returns the place for which a package in `place` uses `declaration`, if it leads to a procedural macro or not.
fn place_to(declaration: &Declaration<'_>, is_macro: bool, place: Place) -> Place
    ensures { result ≡ spec.place_to (declaration_text declaration.now) is_macro place }
{
    if declaration.kind == Kind::Build || is_macro {
        Place::Host
    } else {
        place
    }
}

/// Returns the place whose platform decides about `declaration` of a package in `place`.
fn place_for(declaration: &Declaration<'_>, place: Place) -> Place
    ensures { result ≡ spec.place_for (declaration_text declaration.now) place }
{
    if declaration.kind == Kind::Build {
        Place::Host
    } else {
        place
    }
}

/// Returns whether `declaration` leads from unit `from` to unit `to`, if it counts.
fn leads(
    packages: &[Package<'_>],
    from: &Unit<'_>,
    to: &Unit<'_>,
    declaration: &Declaration<'_>,
) -> bool
    ensures { result ≡ spec.leads (map package_text packages.now) (unit_text from.now) (unit_text to.now) (declaration_text declaration.now) }
{
    declaration.leads_to_package(to.package)
        && is_same_place(
            place_to(declaration, is_macro_at(packages, to.package), from.place),
            to.place,
        )
}

/// Returns whether `declaration` of unit `from` is required, or its optional dependency is on.
fn is_on(split: bool, plan: &Plan<'_>, from: &Unit<'_>, declaration: &Declaration<'_>) -> bool
    ensures { result ≡ spec.is_required_or_on split (plan_text plan.now) (unit_text from.now) (declaration_text declaration.now) }
{
    !declaration.optional
        || plan
            .on()
            .is_on(side_at(split, from.place), from.package, declaration.name)
}

/// Returns whether `kind` is the kind for builds, if `build`, or else the normal one.
fn is_of(build: bool, kind: Kind) -> bool
    ensures { result ≡ spec.is_of build kind }
{
    match kind {
        Kind::Normal => !build,
        Kind::Build => build,
        Kind::Development => false,
    }
}

/// Returns whether `declaration`, of unit `from` and its package `package`, is of the kind for builds, if `build`, or else normal, counts, and
/// leads to unit `to`.
fn counts<P: Platform>(
    shown: &Shown<'_, '_, '_, P>,
    build: bool,
    from: &Unit<'_>,
    to: &Unit<'_>,
    script: bool,
    declaration: &Declaration<'_>,
) -> bool
    ensures { result ≡ spec.counts (shown_text P.holds shown.now) build (unit_text from.now) (unit_text to.now) script (declaration_text declaration.now) }
{
    is_of(build, declaration.kind)
        && leads(shown.packages, from, to, declaration)
        && is_on(shown.settings.split, shown.plan, from, declaration)
        && (!build || script)
        && admits_at(
            &shown.settings,
            place_for(declaration, from.place),
            declaration.platform,
        )
}

/// Returns whether one of `declarations` counts.
fn any_counts<P: Platform>(
    shown: &Shown<'_, '_, '_, P>,
    build: bool,
    from: &Unit<'_>,
    to: &Unit<'_>,
    script: bool,
    declarations: &[Declaration<'_>],
) -> bool
    ensures { result ≡ list_any (spec.counts (shown_text P.holds shown.now) build (unit_text from.now) (unit_text to.now) script) (map declaration_text declarations.now) }
{
    for declaration in declarations {
        if counts(shown, build, from, to, script, declaration) {
            return true;
        }
    }
    false
}

/// Returns the kind by which unit `from`, of package `package`, depends on unit `to`.
fn kind_by<P: Platform>(
    shown: &Shown<'_, '_, '_, P>,
    from: &Unit<'_>,
    to: &Unit<'_>,
    package: &Package<'_>,
) -> Kind
    ensures { result ≡ spec.kind_by (shown_text P.holds shown.now) (unit_text from.now) (unit_text to.now) (package_text «package».now) }
{
    let script = package.has_script();
    if any_counts(shown, false, from, to, script, &package.declarations) {
        Kind::Normal
    } else if any_counts(shown, true, from, to, script, &package.declarations) {
        Kind::Build
    } else {
        Kind::Development
    }
}

/// Returns the kind by which unit `from` depends on unit `to`.
fn kind_between<P: Platform>(shown: &Shown<'_, '_, '_, P>, from: &Unit<'_>, to: &Unit<'_>) -> Kind
    ensures { result ≡ spec.kind_between (shown_text P.holds shown.now) (unit_text from.now) (unit_text to.now) }
{
    match shown.packages.get(from.package) {
        Some(package) => kind_by(shown, from, to, package),
        None => Kind::Normal,
    }
}

/// Returns the kind by which the unit with number `from` depends on the one with number `to`.
pub(crate) fn kind_of<P: Platform>(shown: &Shown<'_, '_, '_, P>, from: usize, to: usize) -> Kind
    ensures { result ≡ spec.kind_of (shown_text P.holds shown.now) from to }
{
    let units = shown.plan.units();
    match (units.get(from), units.get(to)) {
        (Some(first), Some(second)) => kind_between(shown, first, second),
        _ => Kind::Normal,
    }
}
