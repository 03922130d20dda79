//! The platform specs by which a package depends on another one.
ghost use Rattle.std.specs.Prelude.{◌≡◌, [], Some, IfOk, OnOk, fold, map, option_map};
ghost use Rattle.std.specs.List.{list_any};
ghost use Rattle.std.specs.Str.{bytes_eq};
ghost use Rattle.cargo_workspaces.specs.Views.{declaration_text, package_text, texts as texts_of};
ghost use Rattle.cargo_workspaces.specs.Workspaces.{both_lead_to};
ghost use Rattle.feats_why.specs.Platforms as spec;
ghost use Rattle.feats_why.specs.Settings.{settings_text};
ghost use Rattle.plan_whys.specs.StepViews.{spot_text};

use crate::relations::{is_by_declaration, relation_from};
use crate::settings::WhySettings;
use cargo_workspaces::{Declaration, Kind, Package};
use plan_rows::rules::{applies_on, is_macro_at, lands};
use plan_rows::{Platform, Side};
use plan_whys::Spot;
use std::alloc::{AllocError, Global};

/// Returns whether both are the same side.
fn is_same_side(a: Side, b: Side) -> bool
    ensures { result ≡ spec.is_same_side a b }
{
    if a.is_host() {
        b.is_host()
    } else {
        !b.is_host()
    }
}

/// Returns whether `declaration` leads to package `package`.
fn leads_to(declaration: &Declaration<'_>, package: usize) -> bool
    ensures { result ≡ both_lead_to declaration.now.leads_to (Some «package») }
{
    match declaration.leads_to {
        Some(to) => to == package,
        None => false,
    }
}

/// The spots between which declarations lead.
#[derive(Clone, Copy)]
struct Between<'w> {
    start: Spot<'w>,
    at: Spot<'w>,
    /// True if the package of `at` is a procedural macro.
    is_macro: bool,
}

/// Returns whether `declaration` leads from its package, at the start, to the package at the end.
fn leads<P: Platform>(
    settings: &WhySettings<'_, P>,
    between: Between<'_>,
    declaration: &Declaration<'_>,
) -> bool
    ensures { result ≡ spec.leads_to_spot (settings_text P.holds settings.now) between.entry.is_macro (spot_text between.entry.start) (spot_text between.entry.at) (declaration_text declaration.now) }
{
    let side = between.start.side;
    leads_to(declaration, between.at.package)
        && is_same_side(
            lands(settings.split, declaration, between.is_macro, side),
            between.at.side,
        )
        && (declaration.kind != Kind::Development || settings.development)
        && applies_on(settings.host, settings.targets, side, declaration)
}

/// Returns whether one of `declarations` leads there and is for every platform.
fn is_anywhere<P: Platform>(
    settings: &WhySettings<'_, P>,
    between: Between<'_>,
    declarations: &[Declaration<'_>],
) -> bool
    ensures { result ≡ list_any (spec.is_anywhere (spec.leads_to_spot (settings_text P.holds settings.now) between.entry.is_macro (spot_text between.entry.start) (spot_text between.entry.at))) (map declaration_text declarations.now) }
{
    for declaration in declarations {
        if leads(settings, between, declaration) && declaration.platform.is_none() {
            return true;
        }
    }
    false
}

/// Returns whether `text` is one of `texts`.
fn has_text(texts: &[&str], text: &str) -> bool
    ensures { result ≡ list_any (bytes_eq text.now) (texts_of texts.now) }
{
    for other in texts {
        if text == *other {
            return true;
        }
    }
    false
}

/// Appends `text`, if there is one and `texts` lacks it.
fn note<'v>(texts: &mut Vec<&'v str>, text: Option<&'v str>) -> Result<(), AllocError>
    ensures { OnOk result (texts_of texts.new.items ≡ spec.with_text (texts_of texts.old.items) (option_map (λ t. t.now) text.entry)) }
{
    match text {
        Some(text) if !has_text(texts, text) => texts.push(text)?,
        Some(_) | None => {}
    }
    Ok(())
}

/// Returns the platform of `declaration`, if it leads there.
fn platform_if<'v, P: Platform>(
    settings: &WhySettings<'_, P>,
    between: Between<'_>,
    declaration: &Declaration<'v>,
) -> Option<&'v str>
    ensures { option_map (λ t. t.now) result ≡ spec.platform_if (spec.leads_to_spot (settings_text P.holds settings.now) between.entry.is_macro (spot_text between.entry.start) (spot_text between.entry.at)) (declaration_text declaration.now) }
{
    if leads(settings, between, declaration) {
        declaration.platform
    } else {
        None
    }
}

/// Returns the platforms of those of `declarations` that lead there, each once.
fn platforms_in<'v, P: Platform>(
    alloc: Global,
    settings: &WhySettings<'_, P>,
    between: Between<'_>,
    declarations: &[Declaration<'v>],
) -> Result<Vec<&'v str>, AllocError>
    ensures { IfOk result (λ platforms. texts_of platforms.items ≡ fold spec.with_text [] (map (spec.platform_if (spec.leads_to_spot (settings_text P.holds settings.now) between.entry.is_macro (spot_text between.entry.start) (spot_text between.entry.at))) (map declaration_text declarations.now))) }
{
    let mut platforms = Vec::new(alloc);
    for declaration in declarations {
        note(&mut platforms, platform_if(settings, between, declaration))?;
    }
    Ok(platforms)
}

/// Returns the platforms of those of `declarations` that lead there: none, if one of them is for every platform.
fn platforms_by<'v, P: Platform>(
    alloc: Global,
    settings: &WhySettings<'_, P>,
    between: Between<'_>,
    declarations: &[Declaration<'v>],
) -> Result<Vec<&'v str>, AllocError>
    ensures { IfOk result (λ platforms. texts_of platforms.items ≡ spec.platforms_by (spec.leads_to_spot (settings_text P.holds settings.now) between.entry.is_macro (spot_text between.entry.start) (spot_text between.entry.at)) (map declaration_text declarations.now)) }
{
    if is_anywhere(settings, between, declarations) {
        return Ok(Vec::new(alloc));
    }
    platforms_in(alloc, settings, between, declarations)
}

/// Returns the platforms for which the package of `start` depends on the package of `at`.
fn platforms_between<'v, P: Platform>(
    alloc: Global,
    settings: &WhySettings<'_, P>,
    packages: &[Package<'v>],
    start: Spot<'_>,
    at: Spot<'_>,
) -> Result<Vec<&'v str>, AllocError>
    ensures { IfOk result (λ platforms. texts_of platforms.items ≡ spec.platforms_between (settings_text P.holds settings.now) (map package_text packages.now) (spot_text start.entry) (spot_text at.entry)) }
{
    let between = Between {
        start,
        at,
        is_macro: is_macro_at(packages, at.package),
    };
    match packages.get(start.package) {
        Some(package) => platforms_by(alloc, settings, between, &package.declarations),
        None => Ok(Vec::new(alloc)),
    }
}

/// Returns the platforms for which the package of `start` depends on the package of `at`: none, if the sides aren't told apart or
/// no declaration leads there.
pub(crate) fn platforms_of<'v, P: Platform>(
    alloc: Global,
    settings: &WhySettings<'_, P>,
    packages: &[Package<'v>],
    start: Spot<'_>,
    at: Spot<'_>,
) -> Result<Vec<&'v str>, AllocError>
    ensures { IfOk result (λ platforms. texts_of platforms.items ≡ spec.shown_platforms (settings_text P.holds settings.now) (map package_text packages.now) (spot_text start.entry) (spot_text at.entry)) }
{
    if settings.split && is_by_declaration(relation_from(start, at)) {
        platforms_between(alloc, settings, packages, start, at)
    } else {
        Ok(Vec::new(alloc))
    }
}
