//! Suggestions for a word that names nothing.
ghost use Rattle.std.specs.Prelude.{◌≡◌, ◌≤◌, Bool, IfOk, OnOk, IsTrue, length, map};
ghost use Rattle.std.specs.List.{list_all};
ghost use Rattle.cargo_workspaces.specs.WorkspaceView.{workspace_text};
ghost use Rattle.plan_names.specs.Names.{NamedText};
ghost use Rattle.plan_names.specs.Suggestions.{is_part};
ghost use Rattle.plan_names.specs.Views.{named_text};
ghost use Rattle.plan_names.specs.inner.Nears.{near_text};

use crate::named::{Named, Part};
use crate::near::{Near, push_near, push_parts};
use crate::word_cuts::{Cut, cut_word};
use cargo_workspaces::Workspace;
use plan_words::packages_of_word;
use std::alloc::{AllocError, Global};

/// Appends the packages of `workspace` whose names are near to `word`.
fn push_packages<'w>(
    alloc: Global,
    near: &mut Vec<Near<'w>>,
    workspace: &'w Workspace<'_>,
    word: &str,
) -> Result<(), AllocError>
    ensures { OnOk result (IsTrue (list_all (is_part (workspace_text workspace.now).packages) (map near_text near.old.items)) → IsTrue (list_all (is_part (workspace_text workspace.now).packages) (map near_text near.new.items))) }
{
    for (ix, package) in workspace.packages().iter().enumerate() {
        let named = Named {
            package: ix,
            part: Part::Package,
        };
        push_near(alloc, near, word, package.name, named)?;
    }
    Ok(())
}

/// Appends the parts of the packages `numbers` whose names are near to `name`.
fn push_parts_of<'w>(
    alloc: Global,
    near: &mut Vec<Near<'w>>,
    workspace: &'w Workspace<'_>,
    numbers: &[usize],
    name: &str,
) -> Result<(), AllocError>
    ensures { OnOk result (IsTrue (list_all (is_part (workspace_text workspace.now).packages) (map near_text near.old.items)) → IsTrue (list_all (is_part (workspace_text workspace.now).packages) (map near_text near.new.items))) }
{
    for number in numbers {
        if *number < workspace.package_count() {
            push_parts(alloc, near, *number, workspace.package(*number), name)?;
        }
    }
    Ok(())
}

/// Appends the parts of all packages whose names are near to `name`.
fn push_all_parts<'w>(
    alloc: Global,
    near: &mut Vec<Near<'w>>,
    workspace: &'w Workspace<'_>,
    name: &str,
) -> Result<(), AllocError>
    ensures { OnOk result (IsTrue (list_all (is_part (workspace_text workspace.now).packages) (map near_text near.old.items)) → IsTrue (list_all (is_part (workspace_text workspace.now).packages) (map near_text near.new.items))) }
{
    for number in 0..workspace.package_count() {
        push_parts(alloc, near, number, workspace.package(number), name)?;
    }
    Ok(())
}

/// Returns what is near to the parts of `cut`: the name in the packages that the front names, or packages near to the front.
fn near_to_cut<'w>(
    alloc: Global,
    workspace: &'w Workspace<'_>,
    cut: Cut<'_>,
) -> Result<Vec<Near<'w>>, AllocError>
    ensures { IfOk result (λ near. IsTrue (list_all (is_part (workspace_text workspace.now).packages) (map near_text near.items))) }
{
    let numbers = packages_of_word(alloc, workspace, cut.front)?;
    let mut near = Vec::new(alloc);
    if numbers.is_empty() {
        push_packages(alloc, &mut near, workspace, cut.front)?;
    } else {
        push_parts_of(alloc, &mut near, workspace, &numbers, cut.name)?;
    }
    Ok(near)
}

/// Returns what is near to `word`, which has no slash: packages, and parts of all packages.
fn near_to_name<'w>(
    alloc: Global,
    workspace: &'w Workspace<'_>,
    word: &str,
) -> Result<Vec<Near<'w>>, AllocError>
    ensures { IfOk result (λ near. IsTrue (list_all (is_part (workspace_text workspace.now).packages) (map near_text near.items))) }
{
    let mut near = Vec::new(alloc);
    push_packages(alloc, &mut near, workspace, word)?;
    push_all_parts(alloc, &mut near, workspace, word)?;
    Ok(near)
}

/// Appends what `item` names, if it is at this distance and there are less than three.
fn push_if_at<'w>(
    named: &mut Vec<Named<'w>>,
    item: &Near<'w>,
    distance: usize,
) -> Result<(), AllocError>
    ensures parts { (test : NamedText → Bool) → OnOk result (IsTrue (test (near_text item.now)) → IsTrue (list_all test (map named_text named.old.items)) → IsTrue (list_all test (map named_text named.new.items))) }
    ensures few { OnOk result (length named.old.items ≤ 3 → length named.new.items ≤ 3) }
{
    if item.distance == distance && named.len() < 3 {
        named.push(item.named)?;
    }
    Ok(())
}

/// Appends what those of `near` name that are at this distance, up to three in all.
fn push_at<'w>(
    named: &mut Vec<Named<'w>>,
    near: &[Near<'w>],
    distance: usize,
) -> Result<(), AllocError>
    ensures parts { (test : NamedText → Bool) → OnOk result (IsTrue (list_all test (map near_text near.now)) → IsTrue (list_all test (map named_text named.old.items)) → IsTrue (list_all test (map named_text named.new.items))) }
    ensures few { OnOk result (length named.old.items ≤ 3 → length named.new.items ≤ 3) }
{
    for item in near {
        push_if_at(named, item, distance)?;
    }
    Ok(())
}

/// Returns at most three of `near`, those at small distances first. `limit` is the greatest distance.
fn nearest<'w>(alloc: Global, near: &[Near<'w>], limit: usize) -> Result<Vec<Named<'w>>, AllocError>
    ensures parts { (test : NamedText → Bool) → IsTrue (list_all test (map near_text near.now)) → IfOk result (λ named. IsTrue (list_all test (map named_text named.items))) }
    ensures few { IfOk result (λ named. length named.items ≤ 3) }
{
    let mut named = Vec::new(alloc);
    for distance in 0..=limit {
        push_at(&mut named, near, distance)?;
    }
    Ok(named)
}

/// Returns at most three parts of packages of `workspace` whose names are near to `word`: for `SPEC/NAME`, features of the packages
/// that SPEC names, or if there are none packages near to SPEC; for a name, packages and features.
pub fn suggestions<'w>(
    alloc: Global,
    workspace: &'w Workspace<'_>,
    word: &str,
) -> Result<Vec<Named<'w>>, AllocError>
    ensures parts { IfOk result (λ named. IsTrue (list_all (is_part (workspace_text workspace.now).packages) (map named_text named.items))) }
    ensures few { IfOk result (λ named. length named.items ≤ 3) }
{
    let near = match cut_word(word) {
        Some(cut) => near_to_cut(alloc, workspace, cut)?,
        None => near_to_name(alloc, workspace, word)?,
    };
    nearest(alloc, &near, word.len())
}
