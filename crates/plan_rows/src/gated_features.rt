//! The features with the optional dependency before each item that waits for one.
ghost use Rattle.std.specs.Prelude.{◌≡◌, ◌+◌, ◌++◌, ◌∷◌, [], ◌<◌, ◌≤◌, ◌^◌, IfOk, OnOk, drop, if◌then◌else◌, length, map, option_map};
ghost use Rattle.std.specs.String.{string_bytes};
ghost use Rattle.guppy_packages.specs.Items.{item_of};
ghost use Rattle.cargo_workspaces.specs.Views.{feature_text, package_text, texts};
ghost use Rattle.cargo_workspaces.specs.WorkspaceView.{workspace_text};
ghost use Rattle.plan_rows.specs.Commands.{command_texts};
ghost use Rattle.plan_rows.specs.Gates.{AreGated, AreGates, gated_text, gates_of, item_texts};
ghost use Rattle.plan_rows.specs.Steps.{command_list, gated_feature as with_gates_in, with_gates};
ghost use Rattle.plan_rows.specs.inner.Merged.{is_waiting, merged, taken};

use crate::gates::Gates;
use cargo_workspaces::{Feature, Package, Workspace};
use guppy_packages::NamedFeatureDep;
use std::alloc::{AllocError, Global};

/// The items of a feature.
#[derive(Drop)]
pub(crate) enum Items<'g> {
    /// The feature's own items, none of which waits.
    Own(&'g [&'g str]),
    /// The items with gates.
    Gated(Vec<&'g str>),
}

/// A feature with gates.
#[derive(Drop)]
pub(crate) struct GatedFeature<'g> {
    pub(crate) name: &'g str,
    pub(crate) items: Items<'g>,
}

/// The features of packages and the command features, with the optional dependency before each item that waits for one.
#[derive(Drop)]
pub struct GatedFeatures<'g> {
    /// For each package, its features.
    pub(crate) packages: Vec<Vec<GatedFeature<'g>>>,
    /// For each place of a command feature, the feature, if there is one.
    pub(crate) commands: Vec<Vec<GatedFeature<'g>>>,
}

/// Returns whether `item` waits for an optional dependency.
fn waits(item: &str) -> bool
    ensures { result ≡ is_waiting (item_of item.now) }
{
    match NamedFeatureDep::from_cargo_string(item) {
        NamedFeatureDep::DependencyNamedFeature { weak, .. } => weak,
        _ => false,
    }
}

/// Appends gate `next`, if `waiting` and if there is one.
fn push_gate<'g>(
    items: &mut Vec<&'g str>,
    gates: &'g [String],
    next: usize,
    waiting: bool,
) -> Result<(), AllocError>
    ensures { OnOk result (texts items.new.items ≡ texts items.old.items ++ taken waiting (drop next (map string_bytes gates.now))) }
{
    if !waiting {
        return Ok(());
    }
    match gates.get(next) {
        Some(gate) => {
            items.push(gate.as_str())?;
            Ok(())
        }
        None => Ok(()),
    }
}

/// Returns the number of the gate after `next`, if `waiting`.
fn after(next: usize, waiting: bool) -> usize
    requires { next + 1 < 2 ^ 64 }
    ensures { result ≡ (if waiting then next + 1 else next) }
{
    if waiting { next + 1 } else { next }
}

/// Returns `items`, of which each that waits has the next of `gates` before it.
fn merge<'g>(
    alloc: Global,
    items: &'g [&'g str],
    gates: &'g [String],
) -> Result<Vec<&'g str>, AllocError>
    ensures { IfOk result (λ all. texts all.items ≡ merged (texts items.now) (map string_bytes gates.now)) }
{
    let mut all = Vec::new(alloc);
    let mut next = 0;
    for item in items {
        let waiting = waits(item);
        push_gate(&mut all, gates, next, waiting)?;
        all.push(*item)?;
        next = after(next, waiting);
    }
    Ok(all)
}

/// Returns the items of a feature, whose gates are `gates`.
fn items_of<'g>(
    alloc: Global,
    items: &'g [&'g str],
    gates: &'g [String],
) -> Result<Items<'g>, AllocError>
    ensures { IfOk result (λ all. item_texts all ≡ merged (texts items.now) (map string_bytes gates.now)) }
{
    if gates.is_empty() {
        return Ok(Items::Own(items));
    }
    let all = merge(alloc, items, gates)?;
    Ok(Items::Gated(all))
}

/// Returns `feature`, whose gates are `gates`.
fn gated_feature<'g>(
    alloc: Global,
    feature: &'g Feature<'_>,
    gates: &'g [String],
) -> Result<GatedFeature<'g>, AllocError>
    requires { map string_bytes gates.now ≡ gates_of (feature_text feature.now) }
    ensures { IfOk result (λ f. gated_text f ≡ with_gates_in (feature_text feature.now)) }
{
    let items = items_of(alloc, &feature.items, gates)?;
    Ok(GatedFeature {
        name: feature.name,
        items,
    })
}

/// Returns `features`, whose gates are `gates`.
fn gated_features<'g>(
    alloc: Global,
    features: &'g [Feature<'_>],
    gates: &'g [Vec<String>],
) -> Result<Vec<GatedFeature<'g>>, AllocError>
    requires { map (λ f. map string_bytes f.items) gates.now ≡ map gates_of (map feature_text features.now) }
    ensures { IfOk result (λ all. map gated_text all.items ≡ map with_gates_in (map feature_text features.now)) }
{
    let mut all = Vec::with_capacity(alloc, features.len())?;
    for (ix, feature) in features.iter().enumerate() {
        all.push(gated_feature(alloc, feature, &gates[ix])?)?;
    }
    Ok(all)
}

/// Returns the features of each package.
fn features_of_packages<'g>(
    alloc: Global,
    packages: &'g [Package<'_>],
    gates: &'g [Vec<Vec<String>>],
) -> Result<Vec<Vec<GatedFeature<'g>>>, AllocError>
    requires { map (λ p. map (λ f. map string_bytes f.items) p.items) gates.now ≡ map (λ p. map gates_of p.features) (map package_text packages.now) }
    ensures { IfOk result (λ all. map (λ p. map gated_text p.items) all.items ≡ map (λ p. map with_gates_in p.features) (map package_text packages.now)) }
{
    let mut all = Vec::with_capacity(alloc, packages.len())?;
    for (ix, package) in packages.iter().enumerate() {
        all.push(gated_features(alloc, &package.features, &gates[ix])?)?;
    }
    Ok(all)
}

/// Returns the command feature `command`, if there is one.
fn features_of_command<'g>(
    alloc: Global,
    command: &'g Option<Feature<'_>>,
    gates: &'g [Vec<String>],
) -> Result<Vec<GatedFeature<'g>>, AllocError>
    requires { map (λ f. map string_bytes f.items) gates.now ≡ map gates_of (command_list (option_map feature_text command.now)) }
    ensures { IfOk result (λ all. map gated_text all.items ≡ map with_gates_in (command_list (option_map feature_text command.now))) }
{
    let mut all = Vec::new(alloc);
    if let Some(feature) = command {
        all.push(gated_feature(alloc, feature, &gates[0])?)?;
    }
    Ok(all)
}

/// Returns each command feature.
fn features_of_commands<'g>(
    alloc: Global,
    commands: &'g [Option<Feature<'_>>],
    gates: &'g [Vec<Vec<String>>],
) -> Result<Vec<Vec<GatedFeature<'g>>>, AllocError>
    requires { map (λ p. map (λ f. map string_bytes f.items) p.items) gates.now ≡ map (λ c. map gates_of (command_list c)) (command_texts commands.now) }
    ensures { IfOk result (λ all. map (λ c. map gated_text c.items) all.items ≡ map (λ c. map with_gates_in (command_list c)) (command_texts commands.now)) }
{
    let mut all = Vec::with_capacity(alloc, commands.len())?;
    for (ix, command) in commands.iter().enumerate() {
        all.push(features_of_command(alloc, command, &gates[ix])?)?;
    }
    Ok(all)
}

impl<'g> GatedFeatures<'g> {
    /// Returns the features of `workspace` and of `commands`, whose gates are `gates`. An allocation's failure is the only error.
    pub fn new(
        alloc: Global,
        gates: &'g Gates,
        workspace: &'g Workspace<'_>,
        commands: &'g [Option<Feature<'_>>],
    ) -> Result<GatedFeatures<'g>, AllocError>
        requires { AreGates (workspace_text workspace.now).packages (command_texts commands.now) gates.now }
        ensures { IfOk result (λ gated. AreGated (workspace_text workspace.now).packages (command_texts commands.now) gated) }
    {
        let packages = features_of_packages(alloc, workspace.packages(), &gates.packages)?;
        let commands = features_of_commands(alloc, commands, &gates.commands)?;
        Ok(GatedFeatures { packages, commands })
    }
}
