//! The items of a package's features that turn nothing on.
ghost use Rattle.std.specs.Prelude.{◌&&◌, ◌≡◌, ◌++◌, ◌∷◌, [], IfOk, if◌then◌else◌, List, OnOk, filter, flat_map, is_some, map};
ghost use Rattle.cargo_workspaces.specs.Views.{declaration_text, feature_text, package_text, texts};
ghost use Rattle.cargo_workspaces.specs.Workspaces.{PackageText, Text};
ghost use Rattle.guppy_packages.specs.Items.{item_of};
ghost use Rattle.feats_unused.specs.Dead as spec;
ghost use Rattle.feats_unused.specs.Shown as lines;
ghost use Rattle.feats_unused.specs.Views.{shown_text};
ghost use Rattle.feats_unused.specs.inner.Groups.{HasTexts};
ghost use Rattle.feats_unused.specs.inner.Reaches.{HasReach};

use crate::groups::set_of;
use crate::shown::Shown;
use cargo_workspaces::{Declaration, Feature, Package};
use guppy_packages::NamedFeatureDep;
use std::alloc::{AllocError, Global};
use std::collections::BTreeSet;

/// The names of a package's declarations that items can reach.
#[derive(Drop)]
pub(crate) struct Reach<'w> {
    /// Those that `d/f` can reach.
    all: BTreeSet<&'w str>,
    /// Those that `d?/f` can reach.
    weakly: BTreeSet<&'w str>,
}

/// Appends the dependency that `item` turns on, if it turns one on.
fn push_dependency<'w>(names: &mut Vec<&'w str>, item: &'w str) -> Result<(), AllocError>
    ensures { OnOk result (texts names.new.items ≡ texts names.old.items ++ spec.dependency_of (item_of item.now)) }
{
    match NamedFeatureDep::from_cargo_string(item) {
        NamedFeatureDep::NamedFeature(_) => {}
        NamedFeatureDep::OptionalDependency(name) => names.push(name)?,
        NamedFeatureDep::DependencyNamedFeature { dep_name, weak, .. } => {
            if !weak {
                names.push(dep_name)?;
            }
        }
    }
    Ok(())
}

/// Appends the dependencies that `items` turn on.
fn push_dependencies<'w>(names: &mut Vec<&'w str>, items: &[&'w str]) -> Result<(), AllocError>
    ensures { OnOk result (texts names.new.items ≡ texts names.old.items ++ flat_map (λ t. spec.dependency_of (item_of t)) (texts items.now)) }
{
    for item in items {
        push_dependency(names, item)?;
    }
    Ok(())
}

/// Returns the dependencies that `features` turn on.
fn dependencies_of<'w>(alloc: Global, features: &[Feature<'w>]) -> Result<Vec<&'w str>, AllocError>
    ensures { IfOk result (λ names. texts names.items ≡ spec.dependencies_of (map feature_text features.now)) }
{
    let mut names = Vec::new(alloc);
    for feature in features {
        push_dependencies(&mut names, &feature.items)?;
    }
    Ok(names)
}

/// Returns whether the dependency of `declaration` can be on. `on` are the dependencies that items turn on.
fn can_be_on(on: &BTreeSet<&str>, declaration: &Declaration<'_>) -> bool
    ensures { (names : List Text) → HasTexts on.now names → result ≡ spec.can_be_on names (declaration_text declaration.now) }
{
    !declaration.optional || on.contains(declaration.name)
}

/// Returns whether `d?/f` can reach `declaration`. `on` are the dependencies that items turn on.
fn is_reached_weakly(on: &BTreeSet<&str>, declaration: &Declaration<'_>) -> bool
    ensures { (names : List Text) → HasTexts on.now names → result ≡ (is_some declaration.now.leads_to && spec.can_be_on names (declaration_text declaration.now)) }
{
    declaration.leads_to.is_some() && can_be_on(on, declaration)
}

/// Appends `name`, if `flag`.
fn push_if<'w>(names: &mut Vec<&'w str>, name: &'w str, flag: bool) -> Result<(), AllocError>
    ensures { OnOk result (texts names.new.items ≡ texts names.old.items ++ (if flag then name.now ∷ [] else [])) }
{
    if flag {
        names.push(name)?;
    }
    Ok(())
}

/// Returns the names of the declarations that lead to a package.
fn reached<'w>(alloc: Global, declarations: &[Declaration<'w>]) -> Result<Vec<&'w str>, AllocError>
    ensures { IfOk result (λ names. texts names.items ≡ map (λ d. d.name) (spec.leading (map declaration_text declarations.now))) }
{
    let mut names = Vec::new(alloc);
    for declaration in declarations {
        push_if(&mut names, declaration.name, declaration.leads_to.is_some())?;
    }
    Ok(names)
}

/// Returns the names of the declarations that lead to a package and whose dependencies can be on.
fn reached_weakly<'w>(
    alloc: Global,
    on: &BTreeSet<&str>,
    declarations: &[Declaration<'w>],
) -> Result<Vec<&'w str>, AllocError>
    ensures { (some : List Text) → HasTexts on.now some → IfOk result (λ names. texts names.items ≡ map (λ d. d.name) (filter (spec.can_be_on some) (spec.leading (map declaration_text declarations.now)))) }
{
    let mut names = Vec::new(alloc);
    for declaration in declarations {
        push_if(
            &mut names,
            declaration.name,
            is_reached_weakly(on, declaration),
        )?;
    }
    Ok(names)
}

/// Returns the names of the declarations of `package` that items can reach.
fn reached_of<'w>(alloc: Global, package: &Package<'w>) -> Result<Reach<'w>, AllocError>
    ensures { IfOk result (λ r. HasReach r (package_text «package».now)) }
{
    let on = dependencies_of(alloc, &package.features)?;
    let on = set_of(alloc, &on)?;
    let all = reached(alloc, &package.declarations)?;
    let weakly = reached_weakly(alloc, &on, &package.declarations)?;
    Ok(Reach {
        all: set_of(alloc, &all)?,
        weakly: set_of(alloc, &weakly)?,
    })
}

/// Returns whether `item` of a package is dead. `reached` are the declarations of the package that items can reach.
fn is_dead(reached: &Reach<'_>, item: &str) -> bool
    ensures { (x : PackageText) → HasReach reached.now x → result ≡ spec.is_dead x (item_of item.now) }
{
    match NamedFeatureDep::from_cargo_string(item) {
        NamedFeatureDep::NamedFeature(_) | NamedFeatureDep::OptionalDependency(_) => false,
        NamedFeatureDep::DependencyNamedFeature { dep_name, weak, .. } => {
            if weak {
                !reached.weakly.contains(dep_name)
            } else {
                !reached.all.contains(dep_name)
            }
        }
    }
}

/// Appends a line about `item` of `feature` of `package`, if it is dead.
fn push_item<'u, 'v>(
    shown: &mut Vec<Shown<'u, 'v>>,
    reached: &Reach<'_>,
    package: &'u Package<'v>,
    feature: &'u Feature<'v>,
    item: &'u str,
) -> Result<(), AllocError>
    requires { HasReach reached.now (package_text «package».now) }
    ensures { OnOk result (map shown_text shown.new.items ≡ map shown_text shown.old.items ++ lines.dead_line (package_text «package».now) (feature_text feature.now) item.now) }
{
    if is_dead(reached, item) {
        shown.push(Shown::Dead {
            package,
            feature: feature.name,
            item,
        })?;
    }
    Ok(())
}

/// Appends a line about each dead item of `feature` of `package`.
fn push_feature<'u, 'v>(
    shown: &mut Vec<Shown<'u, 'v>>,
    reached: &Reach<'_>,
    package: &'u Package<'v>,
    feature: &'u Feature<'v>,
) -> Result<(), AllocError>
    requires { HasReach reached.now (package_text «package».now) }
    ensures { OnOk result (map shown_text shown.new.items ≡ map shown_text shown.old.items ++ lines.dead_lines_of (package_text «package».now) (feature_text feature.now)) }
{
    for item in &feature.items {
        push_item(shown, reached, package, feature, item)?;
    }
    Ok(())
}

/// Appends a line about each dead item of `package`.
pub(crate) fn push_dead<'u, 'v>(
    alloc: Global,
    shown: &mut Vec<Shown<'u, 'v>>,
    package: &'u Package<'v>,
) -> Result<(), AllocError>
    ensures { OnOk result (map shown_text shown.new.items ≡ map shown_text shown.old.items ++ lines.dead_lines (package_text «package».now)) }
{
    let reached = reached_of(alloc, package)?;
    for feature in &package.features {
        push_feature(shown, &reached, package, feature)?;
    }
    Ok(())
}
