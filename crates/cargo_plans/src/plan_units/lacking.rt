//! Optional dependencies that are asked for, and for which the document has no package.
ghost use Rattle.std.specs.Prelude.{◌≡◌, ◌&&◌, map, option_and_then, option_map};
ghost use Rattle.std.specs.List.{list_any};
ghost use Rattle.std.specs.Str.{bytes_eq};
ghost use Rattle.plan_starts.specs.guppy_packages.Items.{item_of};
ghost use Rattle.cargo_workspaces.specs.Views.{declaration_text, feature_text, package_text, texts};
ghost use Rattle.plan_rows.specs.Commands.{command_of, command_texts};
ghost use Rattle.plan_starts.specs.Lists.{first_some};
ghost use Rattle.cargo_plans.specs.plan_units.Lacking as spec;

use cargo_workspaces::{Declaration, Feature, Package};
use plan_starts::{NamedFeatureDep, PackageVisit, Side};

/// Returns the optional dependency that `item` asks for, if it asks for one.
fn asked(item: &str) -> Option<&str>
    ensures { option_map (λ name. name.now) result ≡ spec.asked (item_of item.now) }
{
    match NamedFeatureDep::from_cargo_string(item) {
        NamedFeatureDep::NamedFeature(_) => None,
        NamedFeatureDep::OptionalDependency(name) => Some(name),
        NamedFeatureDep::DependencyNamedFeature { dep_name, weak, .. } => {
            if weak { None } else { Some(dep_name) }
        }
    }
}

/// Returns whether `declaration` is optional, and leads to no package.
fn is_absent(declaration: &Declaration<'_>) -> bool
    ensures { result ≡ spec.is_absent (declaration_text declaration.now) }
{
    declaration.optional && declaration.leads_to.is_none()
}

/// Returns whether one of `declarations` is optional, and leads to no package.
fn any_absent(declarations: &[Declaration<'_>]) -> bool
    ensures { result ≡ list_any spec.is_absent (map declaration_text declarations.now) }
{
    for declaration in declarations {
        if is_absent(declaration) {
            return true;
        }
    }
    false
}

/// Returns whether one of `declarations` has the name `name`, is optional, and leads to no package.
fn has_absent(declarations: &[Declaration<'_>], name: &str) -> bool
    ensures { result ≡ list_any (λ d. spec.is_absent d && bytes_eq d.name name.now) (map declaration_text declarations.now) }
{
    for declaration in declarations {
        if is_absent(declaration) && declaration.name == name {
            return true;
        }
    }
    false
}

/// Returns the dependency that `item` asks for, if one of `declarations` is optional under that name, and leads to no package.
fn absent_of_item<'w>(declarations: &[Declaration<'_>], item: &'w str) -> Option<&'w str>
    ensures { option_map (λ name. name.now) result ≡ spec.absent_of (map declaration_text declarations.now) item.now }
{
    match asked(item) {
        Some(name) => {
            if has_absent(declarations, name) {
                Some(name)
            } else {
                None
            }
        }
        None => None,
    }
}

/// Returns the first absent dependency that one of `items` asks for.
fn absent_of_items<'w>(declarations: &[Declaration<'_>], items: &[&'w str]) -> Option<&'w str>
    ensures { option_map (λ name. name.now) result ≡ first_some (spec.absent_of (map declaration_text declarations.now)) (texts items.now) }
{
    for &item in items {
        if let Some(name) = absent_of_item(declarations, item) {
            return Some(name);
        }
    }
    None
}

/// Returns the first absent dependency that `feature` of package `ix` asks for, if it is on.
fn lack_of_feature<'w>(
    on: &PackageVisit,
    ix: usize,
    declarations: &[Declaration<'_>],
    feature: &Feature<'w>,
) -> Option<&'w str>
    ensures { option_map (λ name. name.now) result ≡ spec.lack_of_feature on.now ix (map declaration_text declarations.now) (feature_text feature.now) }
{
    if on.has_feature(Side::Target, ix, feature.name)
        || on.has_feature(Side::Host, ix, feature.name)
    {
        absent_of_items(declarations, &feature.items)
    } else {
        None
    }
}

/// Returns the first absent dependency that one of `features` of package `ix` asks for, of those that are on.
fn lack_of_features<'w>(
    on: &PackageVisit,
    ix: usize,
    declarations: &[Declaration<'_>],
    features: &[Feature<'w>],
) -> Option<&'w str>
    ensures { option_map (λ name. name.now) result ≡ first_some (spec.lack_of_feature on.now ix (map declaration_text declarations.now)) (map feature_text features.now) }
{
    for feature in features {
        if let Some(name) = lack_of_feature(on, ix, declarations, feature) {
            return Some(name);
        }
    }
    None
}

/// Returns the first absent dependency that the command feature of package `ix` asks for, if it has one.
fn lack_of_command<'w>(
    on: &PackageVisit,
    ix: usize,
    declarations: &[Declaration<'_>],
    commands: &[Option<Feature<'w>>],
) -> Option<&'w str>
    ensures { option_map (λ name. name.now) result ≡ option_and_then (spec.lack_of_feature on.now ix (map declaration_text declarations.now)) (command_of (command_texts commands.now) ix) }
{
    match commands.get(ix) {
        Some(Some(command)) => lack_of_feature(on, ix, declarations, command),
        _ => None,
    }
}

/// Returns the first absent dependency that package `ix` asks for.
fn lack_of_package<'w>(
    on: &PackageVisit,
    ix: usize,
    package: &Package<'w>,
    commands: &[Option<Feature<'w>>],
) -> Option<&'w str>
    ensures { option_map (λ name. name.now) result ≡ spec.lack_of_package on.now ix (package_text «package».now) (command_of (command_texts commands.now) ix) }
{
    let declarations = &package.declarations;
    if !any_absent(declarations) {
        return None;
    }
    match lack_of_features(on, ix, declarations, &package.features) {
        Some(name) => Some(name),
        None => lack_of_command(on, ix, declarations, commands),
    }
}

/// Returns the first of `packages` that asks for an optional dependency which is absent, with the name of the dependency. `on` is the
/// visit of step `on`.
pub fn first_lacking<'w>(
    on: &PackageVisit,
    packages: &[Package<'w>],
    commands: &[Option<Feature<'w>>],
) -> Option<(usize, &'w str)>
    ensures { option_map (λ found. (found.0, found.1.now)) result ≡ spec.first_lacking on.now (command_texts commands.now) (map package_text packages.now) }
{
    for (ix, package) in packages.iter().enumerate() {
        if let Some(name) = lack_of_package(on, ix, package, commands) {
            return Some((ix, name));
        }
    }
    None
}
