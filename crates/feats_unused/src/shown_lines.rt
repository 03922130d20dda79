//! The lines about the members of a workspace.
ghost use Rattle.std.specs.Prelude.{◌≡◌, ◌<◌, ◌++◌, IfOk, List, OnOk, Some, flat_map, length, map, slice_get};
ghost use Rattle.cargo_workspaces.specs.Views.{package_text, texts};
ghost use Rattle.cargo_workspaces.specs.WorkspaceView.{workspace_text};
ghost use Rattle.cargo_workspaces.specs.Workspaces.{PackageText};
ghost use Rattle.feats_unused.specs.Requests.{RequestText};
ghost use Rattle.feats_unused.specs.Shown as spec;
ghost use Rattle.feats_unused.specs.Shown.{ShownText};
ghost use Rattle.feats_unused.specs.Views.{shown_text};
ghost use Rattle.feats_unused.specs.inner.Groups.{HasAsked};
ghost use Rattle.feats_unused.specs.inner.Marks.{HasSortedFeatures};

use crate::dead::push_dead;
use crate::groups::{asked_by_package, group_of};
use crate::requests::requests_of;
use crate::shown::Shown;
use crate::unused::unused_features;
use cargo_workspaces::{Package, Workspace};
use std::alloc::{AllocError, Global};
use std::collections::BTreeMap;

/// Appends a line about the unused feature `feature` of `package`, unless it is `default`.
fn push_unused<'u, 'v>(
    shown: &mut Vec<Shown<'u, 'v>>,
    package: &'u Package<'v>,
    feature: &'u str,
) -> Result<(), AllocError>
    ensures { OnOk result (map shown_text shown.new.items ≡ map shown_text shown.old.items ++ spec.unused_line (package_text «package».now) feature.now) }
{
    if feature != "default" {
        shown.push(Shown::Unused { package, feature })?;
    }
    Ok(())
}

/// Appends a line about each of the unused features `features` of `package`.
fn push_each_unused<'u, 'v>(
    shown: &mut Vec<Shown<'u, 'v>>,
    package: &'u Package<'v>,
    features: &[&'u str],
) -> Result<(), AllocError>
    ensures { OnOk result (map shown_text shown.new.items ≡ map shown_text shown.old.items ++ flat_map (spec.unused_line (package_text «package».now)) (texts features.now)) }
{
    for &feature in features {
        push_unused(shown, package, feature)?;
    }
    Ok(())
}

/// Appends the lines about `package`, of which others ask for the features `asked`.
fn push_package<'u, 'v>(
    alloc: Global,
    shown: &mut Vec<Shown<'u, 'v>>,
    package: &'u Package<'v>,
    asked: &[&str],
) -> Result<(), AllocError>
    requires { HasSortedFeatures (package_text «package».now) }
    ensures { OnOk result ((own : List ShownText) × (map shown_text shown.new.items ≡ map shown_text shown.old.items ++ own) × spec.AreLinesOf (texts asked.now) (package_text «package».now) own) }
{
    let unused = unused_features(alloc, package, asked)?;
    push_each_unused(shown, package, &unused)?;
    push_dead(alloc, shown, package)
}

/// Returns package `ix` of `workspace`.
fn package_at<'w, 'v>(workspace: &'w Workspace<'v>, ix: usize) -> &'w Package<'v>
    requires { ix < length (workspace_text workspace.now).packages }
    ensures at { slice_get (workspace_text workspace.now).packages ix ≡ Some (package_text result.now) }
    ensures sorted { HasSortedFeatures (package_text result.now) }
{
    // (calls named facts() carry the invariant into the proof)
    workspace.facts();
    workspace.package(ix)
}

/// Returns the lines about the members of `workspace`. `asked` are the features that packages are asked for.
fn lines_by<'w, 'v>(
    alloc: Global,
    workspace: &'w Workspace<'v>,
    asked: &BTreeMap<usize, Vec<&str>>,
) -> Result<Vec<Shown<'w, 'v>>, AllocError>
    ensures { (requests : List RequestText) → HasAsked asked.now requests → IfOk result (λ shown. spec.AreLinesAbout (workspace_text workspace.now).packages requests (workspace_text workspace.now).members (map shown_text shown.items)) }
{
    // (calls named facts() carry the invariant into the proof)
    workspace.facts();
    let mut shown = Vec::new(alloc);
    for &member in workspace.members() {
        let package = package_at(workspace, member);
        push_package(alloc, &mut shown, package, group_of(asked, member))?;
    }
    Ok(shown)
}

/// Returns the lines about the members of `workspace`, in the order of the members: the features that no other package uses, and the items
/// of features that turn nothing on. Its only error is out of memory.
pub fn lines_of_members<'w, 'v>(
    alloc: Global,
    workspace: &'w Workspace<'v>,
) -> Result<Vec<Shown<'w, 'v>>, AllocError>
    ensures { IfOk result (λ shown. spec.AreLines (workspace_text workspace.now) (map shown_text shown.items)) }
{
    let requests = requests_of(alloc, workspace.packages())?;
    let asked = asked_by_package(alloc, &requests)?;
    lines_by(alloc, workspace, &asked)
}
