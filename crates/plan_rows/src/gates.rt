//! The texts of the optional dependencies that feature items wait for.
ghost use Rattle.std.specs.Prelude.{◌≡◌, ◌++◌, IfOk, OnOk, codes, map, option_map};
ghost use Rattle.std.specs.String.{string_bytes};
ghost use Rattle.guppy_packages.specs.Items.{item_of};
ghost use Rattle.cargo_workspaces.specs.Views.{feature_text, package_text};
ghost use Rattle.cargo_workspaces.specs.WorkspaceView.{workspace_text};
ghost use Rattle.plan_rows.specs.Commands.{command_texts};
ghost use Rattle.plan_rows.specs.Gates.{AreGates, gates_of};
ghost use Rattle.plan_rows.specs.Steps.{command_list, gate_of};

use cargo_workspaces::{Feature, Package, Workspace};
use guppy_packages::NamedFeatureDep;
use std::alloc::{AllocError, Global};

/// The gates of features: the text `dep:NAME` for each item `NAME?/FEATURE`.
#[derive(Drop)]
pub struct Gates {
    /// For each package, the gates of each of its features.
    pub(crate) packages: Vec<Vec<Vec<String>>>,
    /// For each place of a command feature, the gates of the feature, if there is one.
    pub(crate) commands: Vec<Vec<Vec<String>>>,
}

/// Returns the text `dep:NAME`.
fn gate(alloc: Global, name: &str) -> Result<String, AllocError>
    ensures { IfOk result (λ text. string_bytes text ≡ codes "dep:" ++ name.now) }
{
    let mut text = String::from_str(alloc, "dep:")?;
    text.push_str(name)?;
    Ok(text)
}

/// Appends the gate of `item`, if it waits for an optional dependency.
fn push_gate(alloc: Global, gates: &mut Vec<String>, item: &str) -> Result<(), AllocError>
    ensures { OnOk result (map string_bytes gates.new.items ≡ map string_bytes gates.old.items ++ gate_of (item_of item.now)) }
{
    match NamedFeatureDep::from_cargo_string(item) {
        NamedFeatureDep::DependencyNamedFeature {
            dep_name,
            weak: true,
            ..
        } => {
            gates.push(gate(alloc, dep_name)?)?;
            Ok(())
        }
        _ => Ok(()),
    }
}

/// Returns the gates of the items of `feature`, in their order.
fn gates_of_feature(alloc: Global, feature: &Feature<'_>) -> Result<Vec<String>, AllocError>
    ensures { IfOk result (λ gates. map string_bytes gates.items ≡ gates_of (feature_text feature.now)) }
{
    let mut gates = Vec::new(alloc);
    for item in &feature.items {
        push_gate(alloc, &mut gates, item)?;
    }
    Ok(gates)
}

/// Returns the gates of each of `features`.
fn gates_of_features(
    alloc: Global,
    features: &[Feature<'_>],
) -> Result<Vec<Vec<String>>, AllocError>
    ensures { IfOk result (λ all. map (λ f. map string_bytes f.items) all.items ≡ map gates_of (map feature_text features.now)) }
{
    let mut all = Vec::with_capacity(alloc, features.len())?;
    for feature in features {
        all.push(gates_of_feature(alloc, feature)?)?;
    }
    Ok(all)
}

/// Returns the gates of the features of each package.
fn gates_of_packages(
    alloc: Global,
    packages: &[Package<'_>],
) -> Result<Vec<Vec<Vec<String>>>, AllocError>
    ensures { IfOk result (λ all. map (λ p. map (λ f. map string_bytes f.items) p.items) all.items ≡ map (λ p. map gates_of p.features) (map package_text packages.now)) }
{
    let mut all = Vec::with_capacity(alloc, packages.len())?;
    for package in packages {
        all.push(gates_of_features(alloc, &package.features)?)?;
    }
    Ok(all)
}

/// Returns the gates of the command feature `command`, if there is one.
fn gates_of_command(
    alloc: Global,
    command: &Option<Feature<'_>>,
) -> Result<Vec<Vec<String>>, AllocError>
    ensures { IfOk result (λ all. map (λ f. map string_bytes f.items) all.items ≡ map gates_of (command_list (option_map feature_text command.now))) }
{
    let mut all = Vec::new(alloc);
    if let Some(feature) = command {
        all.push(gates_of_feature(alloc, feature)?)?;
    }
    Ok(all)
}

/// Returns the gates of each command feature.
fn gates_of_commands(
    alloc: Global,
    commands: &[Option<Feature<'_>>],
) -> Result<Vec<Vec<Vec<String>>>, AllocError>
    ensures { IfOk result (λ all. map (λ p. map (λ f. map string_bytes f.items) p.items) all.items ≡ map (λ c. map gates_of (command_list c)) (command_texts commands.now)) }
{
    let mut all = Vec::with_capacity(alloc, commands.len())?;
    for command in commands {
        all.push(gates_of_command(alloc, command)?)?;
    }
    Ok(all)
}

impl Gates {
    /// Returns the gates of the features of `workspace` and of `commands`. An allocation's failure is the only error.
    pub fn new(
        alloc: Global,
        workspace: &Workspace<'_>,
        commands: &[Option<Feature<'_>>],
    ) -> Result<Gates, AllocError>
        ensures { IfOk result (λ gates. AreGates (workspace_text workspace.now).packages (command_texts commands.now) gates) }
    {
        let packages = gates_of_packages(alloc, workspace.packages())?;
        let commands = gates_of_commands(alloc, commands)?;
        Ok(Gates { packages, commands })
    }
}
