//! The rules of a workspace that the reading of a document leaves to be checked.
ghost use Rattle.std.specs.Prelude.{◌≡◌, ◌==◌, ℕ, Some, None, IfOk, OnOk, map, not, option_and_then, option_map, if◌then◌else◌};
ghost use Rattle.std.specs.Option.{option_or, unwrap_or};
ghost use Rattle.std.specs.Ordering.{nat_cmp};
ghost use Rattle.std.specs.BTreeMap.{get};
ghost use Rattle.cargo_workspaces.specs.Views.{declaration_text, feature_text, package_text};
ghost use Rattle.cargo_workspaces.specs.Workspaces.{both_lead_to, may_name_feature};
ghost use Rattle.workspace_documents.specs.Lists.{first_some};
ghost use Rattle.workspace_documents.specs.Views.{text_view};
ghost use Rattle.feats_plans.specs.numbered_workspaces.Faults as spec;
ghost use Rattle.feats_plans.specs.numbered_workspaces.Gives.{Gives};

use crate::numbered_workspaces::fault::WorkspaceFault;
use cargo_workspaces::{Declaration, Feature, Package};
use std::alloc::{AllocError, Global};
use std::collections::BTreeMap;

/// Returns whether `name` begins with `[`.
fn begins_with_bracket(name: &str) -> bool
    ensures { may_name_feature name.now ≡ not result }
{
    name.as_bytes().starts_with(b"[")
}

/// Returns the first name of `features` that begins with `[`.
fn bad_name<'v>(features: &[Feature<'v>]) -> Option<&'v str>
    ensures { option_map text_view result ≡ first_some (map spec.bad_name (map feature_text features.now)) }
{
    for feature in features {
        if begins_with_bracket(feature.name) {
            return Some(feature.name);
        }
    }
    None
}

/// Returns the name under `number` in `names`. If there is none, inserts `name` and returns it. The only error is out of memory.
fn first_name<'v>(
    names: &mut BTreeMap<usize, &'v str>,
    number: usize,
    name: &'v str,
) -> Result<&'v str, AllocError>
    ensures first { IfOk result (λ first. first.now ≡ unwrap_or (option_map text_view (get nat_cmp names.old number)) name.now) }
    ensures kept { OnOk result ((q : ℕ) → option_map text_view (get nat_cmp names.new q) ≡ option_or (option_map text_view (get nat_cmp names.old q)) (if number == q then Some name.now else None)) }
{
    if let Some(first) = names.get(&number) {
        return Ok(*first);
    }
    let _none = names.insert(number, name)?;
    Ok(name)
}

/// Returns the name in `names` under the number of the package that `declaration` leads to. If there is none, inserts the name of
/// `declaration` there and returns it. If `declaration` leads to no package, returns its name. The only error is out of memory.
#[tactic(auto, using(crate::proofs::Names::or_none))]
fn first_of<'v>(
    names: &mut BTreeMap<usize, &'v str>,
    declaration: &Declaration<'v>,
) -> Result<&'v str, AllocError>
    ensures first { IfOk result (λ first. first.now ≡ unwrap_or (option_and_then (λ n. option_map text_view (get nat_cmp names.old n)) declaration.now.leads_to) declaration.now.name.now) }
    ensures kept { OnOk result ((q : ℕ) → option_map text_view (get nat_cmp names.new q) ≡ option_or (option_map text_view (get nat_cmp names.old q)) (if both_lead_to declaration.now.leads_to (Some q) then Some declaration.now.name.now else None)) }
{
    match declaration.leads_to {
        Some(number) => first_name(names, number, declaration.name),
        None => Ok(declaration.name),
    }
}

/// Returns two names by which `declarations` lead to one package: that of the first declaration to the package, and the first
/// other one. The only error is out of memory.
fn two_names<'v>(
    alloc: Global,
    declarations: &[Declaration<'v>],
) -> Result<Option<(&'v str, &'v str)>, AllocError>
    ensures { IfOk result (λ found. option_map (λ n. (n.0.now, n.1.now)) found ≡ spec.two_names_of (map declaration_text declarations.now)) }
{
    let mut names = BTreeMap::new(alloc);
    for declaration in declarations {
        let first = first_of(&mut names, declaration)?;
        if first != declaration.name {
            return Ok(Some((first, declaration.name)));
        }
    }
    Ok(None)
}

/// Checks that no name of a feature of `package` begins with `[`, and that its declarations lead to a package by one name. Returns
/// `FeatureName` or `TwoNames` otherwise, and `Memory` if an allocation fails.
fn check_package<'v>(alloc: Global, package: &Package<'v>) -> Result<(), WorkspaceFault<'v>>
    ensures { Gives (λ _. tt) result (spec.unless (spec.fault_of (package_text «package».now))) }
{
    if let Some(name) = bad_name(&package.features) {
        return Err(WorkspaceFault::FeatureName {
            package: package.id,
            name,
        });
    }
    match two_names(alloc, &package.declarations)? {
        Some((first, second)) => Err(WorkspaceFault::TwoNames {
            package: package.id,
            first,
            second,
        }),
        None => Ok(()),
    }
}

/// Checks each of `packages`. Returns the first fault.
pub(crate) fn check_packages<'v>(
    alloc: Global,
    packages: &[Package<'v>],
) -> Result<(), WorkspaceFault<'v>>
    ensures { Gives (λ _. tt) result (spec.unless (first_some (map spec.fault_of (map package_text packages.now)))) }
{
    for package in packages {
        check_package(alloc, package)?;
    }
    Ok(())
}
