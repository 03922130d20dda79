//! Command features.
ghost use Rattle.std.specs.Prelude.{◌≡◌, ◌++◌, ◌∷◌, [], ◌<◌, ℕ, IfOk, OnOk, IsTrue, length, map, nat_eq, nat_lt, option_map};
ghost use Rattle.std.specs.List.{list_all, list_any, AllByRecursion};
ghost use Rattle.cargo_workspaces.specs.Views.{feature_text, package_text, texts};
ghost use Rattle.cargo_workspaces.specs.WorkspaceView.{workspace_text};
ghost use Rattle.cargo_workspaces.specs.Workspaces.{IsPackage};
ghost use Rattle.plan_words.specs.Choices as spec;
ghost use Rattle.plan_words.specs.FeatureWords.{usual_items, value_if};
ghost use Rattle.plan_words.specs.Refusals.{Gives};
ghost use Rattle.plan_words.specs.Selections.{selection_text};
ghost use Rattle.plan_words.specs.inner.Lookups.{HasSortedFeatures, Marks};
ghost use Rattle.plan_words.specs.inner.Views.{started_text, words_text};

use crate::fault::WordFault;
use crate::feature_words::Words;
use crate::item_checks::check_members;
use crate::lookups::{has_feature, marked};
use crate::selection::Selection;
use crate::started::{Started, start};
use cargo_workspaces::{Feature, Package, Workspace};
use std::alloc::{AllocError, Global};

/// Appends the names of the features of `package`.
fn push_names<'s>(items: &mut Vec<&'s str>, package: &'s Package<'_>) -> Result<(), AllocError>
    ensures { OnOk result (texts items.new.items ≡ texts items.old.items ++ map (λ f. f.name) (package_text «package».now).features) }
{
    for feature in &package.features {
        items.push(feature.name)?;
    }
    Ok(())
}

/// Appends the items of `package` besides words: all features, or the default one. `plain` is whether `--no-default-features` is for
/// the package.
fn push_usual<'s>(
    items: &mut Vec<&'s str>,
    selection: &Selection<'_>,
    plain: bool,
    package: &'s Package<'_>,
) -> Result<(), AllocError>
    requires { HasSortedFeatures (package_text «package».now) }
    ensures { OnOk result (texts items.new.items ≡ texts items.old.items ++ usual_items (selection_text selection.now) plain (package_text «package».now)) }
{
    if selection.all_features {
        return push_names(items, package);
    }
    if has_feature(package, "default") && !(selection.no_default_features && plain) {
        items.push("default")?;
    }
    Ok(())
}

/// Returns the command feature of package `ix`, `package`.
fn command<'s>(
    alloc: Global,
    selection: &Selection<'_>,
    words: &Words<'s>,
    ix: usize,
    package: &'s Package<'_>,
) -> Result<Feature<'s>, AllocError>
    requires { HasSortedFeatures (package_text «package».now) }
    ensures { IfOk result (λ feature. feature_text feature ≡ spec.command (selection_text selection.now) (words_text words.now) ix (package_text «package».now)) }
{
    let mut items = words.items(alloc, ix, package)?;
    push_usual(&mut items, selection, words.takes_defaults(ix), package)?;
    Ok(Feature {
        name: "[command]",
        items,
    })
}

/// Appends the command feature of package `ix`, `package`, or None if `is_started` is false.
fn push_command<'s>(
    alloc: Global,
    commands: &mut Vec<Option<Feature<'s>>>,
    selection: &Selection<'_>,
    words: &Words<'s>,
    is_started: bool,
    ix: usize,
    package: &'s Package<'_>,
) -> Result<(), AllocError>
    requires { HasSortedFeatures (package_text «package».now) }
    ensures { OnOk result (map (option_map feature_text) commands.new.items ≡ map (option_map feature_text) commands.old.items ++ value_if is_started (spec.command (selection_text selection.now) (words_text words.now) ix (package_text «package».now)) ∷ []) }
{
    if is_started {
        commands.push(Some(command(alloc, selection, words, ix, package)?))?;
    } else {
        commands.push(None)?;
    }
    Ok(())
}

/// Returns the command feature of each of `packages` that is started: `list` is true at the numbers of those.
fn commands_in<'s>(
    alloc: Global,
    packages: &'s [Package<'_>],
    selection: &Selection<'_>,
    begun: &Started<'s>,
    list: &[bool],
) -> Result<Vec<Option<Feature<'s>>>, AllocError>
    requires packages { AllByRecursion (IsPackage (length packages.now)) (map package_text packages.now) }
    requires marks { Marks (length packages.now) list.now begun.now.members.items }
    ensures { IfOk result (λ commands. map (option_map feature_text) commands.items ≡ spec.commands_from (selection_text selection.now) (started_text begun.now) 0 (map package_text packages.now)) }
{
    let mut commands = Vec::with_capacity(alloc, packages.len())?;
    for (ix, package) in packages.iter().enumerate() {
        push_command(
            alloc,
            &mut commands,
            selection,
            &begun.words,
            list[ix],
            ix,
            package,
        )?;
    }
    Ok(commands)
}

/// Returns the command feature of each package of `workspace` that is started.
fn commands_begun<'s>(
    alloc: Global,
    workspace: &'s Workspace<'_>,
    selection: &Selection<'_>,
    begun: &Started<'s>,
) -> Result<Vec<Option<Feature<'s>>>, AllocError>
    requires { IsTrue (list_all (λ p. nat_lt p (length (workspace_text workspace.now).packages)) begun.now.members.items) }
    ensures commands { IfOk result (λ commands. map (option_map feature_text) commands.items ≡ spec.commands_from (selection_text selection.now) (started_text begun.now) 0 (workspace_text workspace.now).packages) }
    ensures count { IfOk result (λ commands. length commands.items ≡ length (workspace_text workspace.now).packages) }
    ensures named { IfOk result (λ commands. IsTrue (spec.are_commands (map (option_map feature_text) commands.items))) }
{
    // (calls named facts() carry the invariant into the proof)
    workspace.facts();
    let list = marked(alloc, workspace.package_count(), &begun.members)?;
    commands_in(alloc, workspace.packages(), selection, begun, &list)
}

/// Returns the command feature of each package of `workspace` that `selection` starts, if `packages` are the selected packages.
pub(crate) fn commands_of<'s>(
    alloc: Global,
    workspace: &'s Workspace<'_>,
    selection: &Selection<'s>,
    packages: &[usize],
) -> Result<Vec<Option<Feature<'s>>>, WordFault<'s>>
    requires { IsTrue (list_all (λ p. nat_lt p (length (workspace_text workspace.now).packages)) packages.now) }
    ensures commands { Gives (λ commands. map (option_map feature_text) commands.items) result (spec.commands_of (workspace_text workspace.now) (selection_text selection.now) packages.now) }
    ensures count { IfOk result (λ commands. length commands.items ≡ length (workspace_text workspace.now).packages) }
    ensures named { IfOk result (λ commands. IsTrue (spec.are_commands (map (option_map feature_text) commands.items))) }
{
    let begun = start(alloc, workspace, selection, packages)?;
    check_members(alloc, workspace, &begun.words, &begun.members)?;
    Ok(commands_begun(alloc, workspace, selection, &begun)?)
}
