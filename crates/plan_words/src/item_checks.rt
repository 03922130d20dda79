//! Words and items that name nothing.
ghost use Rattle.std.specs.Prelude.{◌≡◌, ◌<◌, IsTrue, length, map, nat_lt, option_map, slice_get, Some};
ghost use Rattle.std.specs.List.{list_all, list_any};
ghost use Rattle.std.specs.Option.{option_and_then};
ghost use Rattle.cargo_workspaces.specs.Views.{declaration_text, package_text, texts};
ghost use Rattle.cargo_workspaces.specs.WorkspaceView.{workspace_text};
ghost use Rattle.cargo_workspaces.specs.Workspaces.{IsPackage, is_within};
ghost use Rattle.plan_words.specs.FeatureWords.{first_of};
ghost use Rattle.plan_words.specs.ItemChecks as spec;
ghost use Rattle.plan_words.specs.Refusals.{Checks};
ghost use Rattle.plan_words.specs.inner.Lookups.{HasSortedFeatures};
ghost use Rattle.plan_words.specs.inner.Views.{words_text};

use crate::fault::WordFault;
use crate::feature_words::{Words, own_item};
use crate::lookups::{declares, has_feature};
use crate::word_parts::parts_of;
use cargo_workspaces::{Declaration, Package, Workspace};
use std::alloc::Global;

/// Returns package `ix` of `workspace`.
pub(crate) fn package_at<'w, 'v>(workspace: &'w Workspace<'v>, ix: usize) -> &'w Package<'v>
    requires { ix < length (workspace_text workspace.now).packages }
    ensures at { slice_get (workspace_text workspace.now).packages ix ≡ Some (package_text result.now) }
    ensures rules { IsPackage (length (workspace_text workspace.now).packages) (package_text result.now) }
{
    // (calls named facts() carry the invariant into the proof)
    workspace.facts();
    workspace.package(ix)
}

/// Returns whether `word` is an item of one of the members `chosen`.
fn is_item_of_some(workspace: &Workspace<'_>, chosen: &[usize], word: &str) -> bool
    requires { IsTrue (list_all (λ p. nat_lt p (length (workspace_text workspace.now).packages)) chosen.now) }
    ensures { result ≡ list_any (spec.is_item_of (workspace_text workspace.now) word.now) chosen.now }
{
    for member in chosen {
        if own_item(word, package_at(workspace, *member)).is_some() {
            return true;
        }
    }
    false
}

/// Checks that each of `words` is an item of one of the members `chosen`.
pub(crate) fn check_words<'s>(
    workspace: &Workspace<'_>,
    chosen: &[usize],
    words: &[&'s str],
) -> Result<(), WordFault<'s>>
    requires { IsTrue (list_all (λ p. nat_lt p (length (workspace_text workspace.now).packages)) chosen.now) }
    ensures { Checks result (first_of (spec.word_refusal (workspace_text workspace.now) chosen.now) (texts words.now)) }
{
    for word in words {
        if !is_item_of_some(workspace, chosen, word) {
            return Err(WordFault::UnknownFeature(word));
        }
    }
    Ok(())
}

/// Checks that package `ix` has the feature `feature`.
fn check_feature<'s>(
    workspace: &Workspace<'_>,
    ix: usize,
    feature: &'s str,
) -> Result<(), WordFault<'s>>
    requires { ix < length (workspace_text workspace.now).packages }
    ensures { Checks result (spec.feature_refusal (workspace_text workspace.now) feature.now ix) }
{
    if has_feature(package_at(workspace, ix), feature) {
        Ok(())
    } else {
        Err(WordFault::NoFeature {
            package: ix,
            feature,
        })
    }
}

/// Checks that the package to which `declaration` leads has the feature `feature`, if it is a declaration of the dependency `name`.
fn check_lead<'s>(
    workspace: &Workspace<'_>,
    declaration: &Declaration<'_>,
    name: &str,
    feature: &'s str,
) -> Result<(), WordFault<'s>>
    requires { IsTrue (is_within (length (workspace_text workspace.now).packages) declaration.now.leads_to) }
    ensures { Checks result (spec.lead_refusal (workspace_text workspace.now) name.now feature.now (declaration_text declaration.now)) }
{
    if declaration.name != name {
        return Ok(());
    }
    match declaration.leads_to {
        Some(to) => check_feature(workspace, to, feature),
        None => Ok(()),
    }
}

/// Checks that `package`, package `ix`, declares the dependency `name`, and that each package to which one of these declarations leads
/// has the feature `feature`.
fn check_dependency<'s>(
    workspace: &Workspace<'_>,
    ix: usize,
    package: &Package<'_>,
    name: &'s str,
    feature: &'s str,
) -> Result<(), WordFault<'s>>
    requires { IsPackage (length (workspace_text workspace.now).packages) (package_text «package».now) }
    ensures { Checks result (spec.dependency_refusal (workspace_text workspace.now) ix (package_text «package».now) name.now feature.now) }
{
    if !declares(package, name) {
        return Err(WordFault::NoDependency {
            package: ix,
            dependency: name,
        });
    }
    for declaration in &package.declarations {
        check_lead(workspace, declaration, name, feature)?;
    }
    Ok(())
}

/// Checks that the feature or dependency is there which `item` of `package`, package `ix`, names.
fn check_item<'s>(
    workspace: &Workspace<'_>,
    ix: usize,
    package: &Package<'_>,
    item: &'s str,
) -> Result<(), WordFault<'s>>
    requires { IsPackage (length (workspace_text workspace.now).packages) (package_text «package».now) }
    ensures { Checks result (spec.item_refusal (workspace_text workspace.now) ix (package_text «package».now) item.now) }
{
    match parts_of(item) {
        Some(parts) => check_dependency(workspace, ix, package, parts.name, parts.feature),
        None if has_feature(package, item) => Ok(()),
        None => Err(WordFault::NoFeature {
            package: ix,
            feature: item,
        }),
    }
}

/// Checks that the features and dependencies are there which `items` of `package`, package `ix`, name.
fn check_items<'s>(
    workspace: &Workspace<'_>,
    ix: usize,
    package: &Package<'_>,
    items: &[&'s str],
) -> Result<(), WordFault<'s>>
    requires { IsPackage (length (workspace_text workspace.now).packages) (package_text «package».now) }
    ensures { Checks result (first_of (spec.item_refusal (workspace_text workspace.now) ix (package_text «package».now)) (texts items.now)) }
{
    for item in items {
        check_item(workspace, ix, package, item)?;
    }
    Ok(())
}

/// Checks that the features and dependencies are there which the items of package `ix` name that `words` become.
fn check_member<'s>(
    alloc: Global,
    workspace: &Workspace<'_>,
    words: &Words<'s>,
    ix: usize,
) -> Result<(), WordFault<'s>>
    requires { ix < length (workspace_text workspace.now).packages }
    ensures { Checks result (spec.member_refusal (workspace_text workspace.now) (words_text words.now) ix) }
{
    let package = package_at(workspace, ix);
    let items = words.items(alloc, ix, package)?;
    check_items(workspace, ix, package, &items)
}

/// Checks that the features and dependencies are there which the items of each of `members` name that `words` become.
pub(crate) fn check_members<'s>(
    alloc: Global,
    workspace: &Workspace<'_>,
    words: &Words<'s>,
    members: &[usize],
) -> Result<(), WordFault<'s>>
    requires { IsTrue (list_all (λ p. nat_lt p (length (workspace_text workspace.now).packages)) members.now) }
    ensures { Checks result (first_of (spec.member_refusal (workspace_text workspace.now) (words_text words.now)) members.now) }
{
    for member in members {
        check_member(alloc, workspace, words, *member)?;
    }
    Ok(())
}
