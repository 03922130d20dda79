//! The targets of a package that a command line chooses.
ghost use Rattle.std.specs.Prelude.{◌≡◌, ◌&&◌, ◌||◌, ℕ, None, Some, IfOk, OnOk, false, if◌then◌else◌, map};
ghost use Rattle.std.specs.BTreeSet.{contains};
ghost use Rattle.std.specs.List.{list_all, list_any};
ghost use Rattle.std.specs.Option.{option_map_or};
ghost use Rattle.std.specs.Ordering.{nat_cmp};
ghost use Rattle.cargo_workspaces.specs.Views.{declaration_text, package_text, target_text, texts};
ghost use Rattle.cargo_workspaces.specs.Workspaces.{both_lead_to};
ghost use Rattle.plan_rows.specs.SettingsView.{settings_text};
ghost use Rattle.plan_words.specs.TargetChoices.{target_choice_text};
ghost use Rattle.plan_starts.specs.Targets as spec;
ghost use Rattle.plan_starts.specs.Targets.{has_macro};
ghost use Rattle.plan_starts.specs.TargetViews.{rules_text};

use crate::package_visit::PackageVisit;
use crate::step_visits::NamedFeatureDep;
use cargo_workspaces::{Declaration, Kind, Package, Target};
use plan_rows::rules::{admits, admits_any, has_command, lands};
use plan_rows::{Kept, Platform, Settings, Side};
use plan_words::TargetChoice;
use std::alloc::{AllocError, Global};
use std::collections::BTreeSet;

/// By what targets are chosen.
#[derive(Drop)]
pub struct TargetRules<'r, 'n, 'c, 'v, P> {
    pub settings: &'r Settings<'n, 'c, P>,
    pub packages: &'r [Package<'v>],
    /// The visit of step `resolved`.
    pub kept: &'r PackageVisit,
    /// The visit of step `on`.
    pub on: &'r PackageVisit,
}

/// Returns whether a target of package `ix` is a procedural macro.
pub fn has_macro_at(packages: &[Package<'_>], ix: usize) -> bool
    ensures { result ≡ has_macro (map package_text packages.now) ix }
{
    match packages.get(ix) {
        Some(package) => package.has_proc_macro(),
        None => false,
    }
}

/// Returns whether version resolving follows `declaration` of package `ix`.
fn is_followed<P: Platform>(
    rules: &TargetRules<'_, '_, '_, '_, P>,
    ix: usize,
    declaration: &Declaration<'_>,
) -> bool
    ensures { result ≡ spec.is_followed (rules_text P.holds rules.now) ix (declaration_text declaration.now) }
{
    declaration.leads_to.is_some()
        && (declaration.kind != Kind::Development || has_command(rules.settings.commands, ix))
        && (!declaration.optional || rules.kept.is_kept(ix, declaration.name))
}

/// Returns whether `declaration` counts in the build.
fn counts<P: Platform>(settings: &Settings<'_, '_, P>, declaration: &Declaration<'_>) -> bool
    ensures { result ≡ spec.counts (settings_text P.holds settings.now) (declaration_text declaration.now) }
{
    (declaration.kind != Kind::Development || settings.choice.needs_development())
        && (admits(settings.host, declaration.platform)
            || admits_any(settings.targets, declaration.platform))
}

/// Returns whether `feature` is on in the package that `declaration` leads to from the target side. A package with any target that is a
/// procedural macro is looked at on the host side.
fn leads_on<P: Platform>(
    rules: &TargetRules<'_, '_, '_, '_, P>,
    feature: &str,
    declaration: &Declaration<'_>,
) -> bool
    ensures { result ≡ spec.leads_on (rules_text P.holds rules.now) feature.now (declaration_text declaration.now) }
{
    match declaration.leads_to {
        Some(to) => {
            let has_macro = has_macro_at(rules.packages, to);
            let side = lands(rules.settings.split, declaration, has_macro, Side::Target);
            rules.on.has_feature(side, to, feature)
        }
        None => false,
    }
}

/// Returns whether `declaration` of package `ix` has the name `name`, and version resolving follows it.
fn is_of<P: Platform>(
    rules: &TargetRules<'_, '_, '_, '_, P>,
    ix: usize,
    name: &str,
    declaration: &Declaration<'_>,
) -> bool
    ensures { result ≡ spec.is_of (rules_text P.holds rules.now) ix name.now (declaration_text declaration.now) }
{
    declaration.name == name && is_followed(rules, ix, declaration)
}

/// Returns the package that `declaration` of package `ix` leads to, if it has the name `name`, is followed and counts in the build.
fn counted_lead<P: Platform>(
    rules: &TargetRules<'_, '_, '_, '_, P>,
    ix: usize,
    name: &str,
    declaration: &Declaration<'_>,
) -> Option<usize>
    ensures { result ≡ (if spec.is_of (rules_text P.holds rules.now) ix name.now (declaration_text declaration.now) && spec.counts (settings_text P.holds rules.now.settings.now) (declaration_text declaration.now) then (declaration_text declaration.now).leads_to else None) }
{
    if is_of(rules, ix, name, declaration) && counts(rules.settings, declaration) {
        declaration.leads_to
    } else {
        None
    }
}

/// Inserts the package `lead` into `packages` if there is one. The only error is out of memory.
fn note(packages: &mut BTreeSet<usize>, lead: Option<usize>) -> Result<(), AllocError>
    ensures { OnOk result ((q : ℕ) → contains nat_cmp packages.new q ≡ (both_lead_to lead (Some q) || contains nat_cmp packages.old q)) }
{
    if let Some(number) = lead {
        let _is_new = packages.insert(number)?;
    }
    Ok(())
}

/// Returns the packages that declarations of package `ix` with the name `name` lead to which are followed and count in the build. The
/// only error is out of memory.
fn counted_packages<P: Platform>(
    alloc: Global,
    rules: &TargetRules<'_, '_, '_, '_, P>,
    ix: usize,
    name: &str,
    declarations: &[Declaration<'_>],
) -> Result<BTreeSet<usize>, AllocError>
    ensures { IfOk result (λ packages. (q : ℕ) → contains nat_cmp packages q ≡ spec.counts_for (rules_text P.holds rules.now) ix name.now (map declaration_text declarations.now) (Some q)) }
{
    let mut packages = BTreeSet::new(alloc);
    for declaration in declarations {
        note(&mut packages, counted_lead(rules, ix, name, declaration))?;
    }
    Ok(packages)
}

/// Returns whether `lead` is one of `packages`; false if there is none.
fn is_counted(packages: &BTreeSet<usize>, lead: Option<usize>) -> bool
    ensures { result ≡ option_map_or (contains nat_cmp packages.now) lead false }
{
    match lead {
        Some(number) => packages.contains(&number),
        None => false,
    }
}

/// Returns whether a declaration of package `ix` with the name `name` is followed, and leads to one of `packages` with the feature on.
fn any_leads_among<P: Platform>(
    rules: &TargetRules<'_, '_, '_, '_, P>,
    ix: usize,
    name: &str,
    feature: &str,
    declarations: &[Declaration<'_>],
    packages: &BTreeSet<usize>,
) -> bool
    ensures { result ≡ list_any (λ d. spec.is_of (rules_text P.holds rules.now) ix name.now d && spec.leads_on (rules_text P.holds rules.now) feature.now d && option_map_or (contains nat_cmp packages.now) d.leads_to false) (map declaration_text declarations.now) }
{
    for declaration in declarations {
        if is_of(rules, ix, name, declaration)
            && leads_on(rules, feature, declaration)
            && is_counted(packages, declaration.leads_to)
        {
            return true;
        }
    }
    false
}

/// Returns whether a declaration of package `ix` with the name `name` is followed, and leads to a package with the feature on, to which
/// a declaration with the name that counts in the build leads too. The only error is out of memory.
fn any_leads_on<P: Platform>(
    alloc: Global,
    rules: &TargetRules<'_, '_, '_, '_, P>,
    ix: usize,
    name: &str,
    feature: &str,
    declarations: &[Declaration<'_>],
) -> Result<bool, AllocError>
    ensures { IfOk result (λ b. b ≡ list_any (λ d. spec.is_of (rules_text P.holds rules.now) ix name.now d && spec.leads_on (rules_text P.holds rules.now) feature.now d && spec.counts_for (rules_text P.holds rules.now) ix name.now (map declaration_text declarations.now) d.leads_to) (map declaration_text declarations.now)) }
{
    let packages = counted_packages(alloc, rules, ix, name, declarations)?;
    Ok(any_leads_among(rules, ix, name, feature, declarations, &packages))
}

/// Returns whether the feature `need`, which a target of package `ix` requires, is on. The only error is out of memory.
fn is_met<P: Platform>(
    alloc: Global,
    rules: &TargetRules<'_, '_, '_, '_, P>,
    ix: usize,
    package: &Package<'_>,
    need: &str,
) -> Result<bool, AllocError>
    ensures { IfOk result (λ b. b ≡ spec.is_met (rules_text P.holds rules.now) ix (package_text «package».now) need.now) }
{
    match NamedFeatureDep::from_cargo_string(need) {
        NamedFeatureDep::DependencyNamedFeature {
            dep_name,
            feature,
            ..
        } => Ok(any_leads_on(alloc, rules, ix, dep_name, feature, &package.declarations)?),
        NamedFeatureDep::NamedFeature(_) | NamedFeatureDep::OptionalDependency(_) => {
            Ok(rules.on.has_feature(Side::Target, ix, need))
        }
    }
}

/// Returns whether all of `needs`, which a target of package `ix` requires, are on. The only error is out of memory.
fn are_met<P: Platform>(
    alloc: Global,
    rules: &TargetRules<'_, '_, '_, '_, P>,
    ix: usize,
    package: &Package<'_>,
    needs: &[&str],
) -> Result<bool, AllocError>
    ensures { IfOk result (λ b. b ≡ list_all (spec.is_met (rules_text P.holds rules.now) ix (package_text «package».now)) (texts needs.now)) }
{
    for need in needs {
        if !is_met(alloc, rules, ix, package, need)? {
            return Ok(false);
        }
    }
    Ok(true)
}

/// Returns whether `target` of package `ix` is built. The only error is out of memory.
fn is_built<P: Platform>(
    alloc: Global,
    rules: &TargetRules<'_, '_, '_, '_, P>,
    ix: usize,
    package: &Package<'_>,
    target: &Target<'_>,
) -> Result<bool, AllocError>
    ensures { IfOk result (λ b. b ≡ spec.is_built (rules_text P.holds rules.now) ix (package_text «package».now) (target_text target.now)) }
{
    if rules.settings.choice.is_chosen(target) {
        are_met(alloc, rules, ix, package, &target.required_features)
    } else {
        Ok(false)
    }
}

/// Returns whether `target` is a procedural macro, if `macros`, or else isn't one; and, if `dev`, is built with the dependencies for
/// development.
fn is_start(choice: &TargetChoice<'_>, dev: bool, macros: bool, target: &Target<'_>) -> bool
    ensures { result ≡ spec.is_start (target_choice_text choice.now) dev macros (target_text target.now) }
{
    let is_macro = target.is_proc_macro();
    let is_here = if macros { is_macro } else { !is_macro };
    is_here && (!dev || choice.is_with_development(target))
}

/// Returns whether a target of package `ix` is built that is a procedural macro, if `macros`, or else one that isn't; and, if `dev`, one
/// with the dependencies for development. The only error is out of memory.
pub(crate) fn builds<P: Platform>(
    alloc: Global,
    rules: &TargetRules<'_, '_, '_, '_, P>,
    dev: bool,
    macros: bool,
    ix: usize,
    package: &Package<'_>,
) -> Result<bool, AllocError>
    ensures { IfOk result (λ b. b ≡ spec.builds (rules_text P.holds rules.now) dev macros ix (package_text «package».now)) }
{
    for target in &package.targets {
        if is_start(&rules.settings.choice, dev, macros, target)
            && is_built(alloc, rules, ix, package, target)?
        {
            return Ok(true);
        }
    }
    Ok(false)
}

/// Returns whether a word for a name chooses `target` of package `ix`, and a feature that it requires isn't on. The only error is out of
/// memory.
pub(crate) fn is_unmet<P: Platform>(
    alloc: Global,
    rules: &TargetRules<'_, '_, '_, '_, P>,
    ix: usize,
    package: &Package<'_>,
    target: &Target<'_>,
) -> Result<bool, AllocError>
    ensures { IfOk result (λ b. b ≡ spec.is_unmet (rules_text P.holds rules.now) ix (package_text «package».now) (target_text target.now)) }
{
    if !rules.settings.choice.is_by_name(target) {
        return Ok(false);
    }
    let are_met = are_met(alloc, rules, ix, package, &target.required_features)?;
    Ok(!are_met)
}
