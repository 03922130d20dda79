//! What the words of rules name.
ghost use Rattle.std.specs.Prelude.{◌≡◌, IfOk, map};
ghost use Rattle.std.specs.List.{list_any};
ghost use Rattle.cargo_workspaces.specs.Views.{package_text};
ghost use Rattle.cargo_workspaces.specs.WorkspaceView.{workspace_text};
ghost use Rattle.plan_words.specs.PackageWords.{numbers_from};
ghost use Rattle.plan_names.specs.Faults.{Gives};
ghost use Rattle.plan_names.specs.Matches as spec;
ghost use Rattle.plan_names.specs.Names.{parts_among};
ghost use Rattle.plan_words.specs.Patterns.{is_star};
ghost use Rattle.plan_names.specs.Views.{named_text};

use crate::fault::NameFault;
use crate::named::Named;
use crate::parts::parts_among;
use crate::word_cuts::{Cut, cut_word};
use crate::words::{parts_of_name, wholes};
use cargo_workspaces::{Package, Workspace};
use plan_words::{fits, packages_of_word};
use std::alloc::{AllocError, Global};

/// Returns the numbers of the packages whose names fit `pattern`, ascending.
fn packages_like(
    alloc: Global,
    packages: &[Package<'_>],
    pattern: &str,
) -> Result<Vec<usize>, AllocError>
    ensures { IfOk result (λ numbers. numbers.items ≡ numbers_from (spec.has_name_like pattern.now) 0 (map package_text packages.now)) }
{
    let mut numbers = Vec::new(alloc);
    for (ix, package) in packages.iter().enumerate() {
        if fits(pattern, package.name) {
            numbers.push(ix)?;
        }
    }
    Ok(numbers)
}

/// Returns the numbers of the packages that `word` names as a word of `-p`, or else of those whose names fit it, ascending. A star in
/// `word` stands for any text.
pub fn packages_matching(
    alloc: Global,
    workspace: &Workspace<'_>,
    word: &str,
) -> Result<Vec<usize>, AllocError>
    ensures { IfOk result (λ numbers. numbers.items ≡ spec.packages_matching (workspace_text workspace.now).packages word.now) }
{
    let numbers = packages_of_word(alloc, workspace, word)?;
    if numbers.is_empty() {
        packages_like(alloc, workspace.packages(), word)
    } else {
        Ok(numbers)
    }
}

/// Returns the packages that `word` names, themselves.
fn whole_matching<'w>(
    alloc: Global,
    workspace: &Workspace<'_>,
    word: &str,
) -> Result<Vec<Named<'w>>, AllocError>
    ensures { IfOk result (λ named. map named_text named.items ≡ spec.whole_matching (workspace_text workspace.now).packages word.now) }
{
    let numbers = packages_matching(alloc, workspace, word)?;
    wholes(alloc, &numbers)
}

/// Returns the parts that the name of `cut` means in the packages that its front names.
fn matching_of_cut<'w>(
    alloc: Global,
    workspace: &'w Workspace<'_>,
    cut: Cut<'_>,
) -> Result<Vec<Named<'w>>, AllocError>
    ensures { IfOk result (λ named. map named_text named.items ≡ parts_among (workspace_text workspace.now).packages (spec.packages_matching (workspace_text workspace.now).packages cut.entry.front.now) cut.entry.name.now) }
{
    let numbers = packages_matching(alloc, workspace, cut.front)?;
    parts_among(alloc, workspace, &numbers, cut.name)
}

/// Returns the parts that `word` means by the name of a feature or of an optional dependency.
fn matching_by_name<'w>(
    alloc: Global,
    workspace: &'w Workspace<'_>,
    selected: &[usize],
    word: &str,
) -> Result<Vec<Named<'w>>, AllocError>
    ensures { IfOk result (λ named. map named_text named.items ≡ spec.matching_by_name (workspace_text workspace.now).packages selected.now word.now) }
{
    match cut_word(word) {
        Some(cut) => matching_of_cut(alloc, workspace, cut),
        None => parts_of_name(alloc, workspace, selected, word),
    }
}

/// Returns all that `word` may mean.
fn candidates_matching<'w>(
    alloc: Global,
    workspace: &'w Workspace<'_>,
    selected: &[usize],
    word: &str,
) -> Result<Vec<Named<'w>>, AllocError>
    ensures { IfOk result (λ named. map named_text named.items ≡ spec.candidates_matching (workspace_text workspace.now).packages selected.now word.now) }
{
    let whole = whole_matching(alloc, workspace, word)?;
    if whole.is_empty() {
        matching_by_name(alloc, workspace, selected, word)
    } else {
        Ok(whole)
    }
}

/// Returns whether `word` has a star.
fn has_star(word: &str) -> bool
    ensures { result ≡ list_any is_star word.now }
{
    word.contains('*')
}

/// Returns what `word` names, of its candidates.
fn matching_of<'w>(
    word: &'w str,
    candidates: Vec<Named<'w>>,
) -> Result<Vec<Named<'w>>, NameFault<'w>>
    ensures { Gives (λ named. map named_text named.items) result (spec.matching_of word.now (map named_text candidates.entry.items)) }
{
    match candidates.as_slice() {
        [] => Err(NameFault::Unknown { word }),
        [_] => Ok(candidates),
        _ if has_star(word) => Ok(candidates),
        _ => Err(NameFault::Several { word, candidates }),
    }
}

/// Returns what `word` names as the word of a rule: the packages of `packages_matching`, else features or optional dependencies, as
/// `parts_named` does. With a star anywhere in the word all that fit are named. Else Unknown if nothing fits, Several if more than one
/// does.
pub fn parts_matching<'w>(
    alloc: Global,
    workspace: &'w Workspace<'_>,
    selected: &[usize],
    word: &'w str,
) -> Result<Vec<Named<'w>>, NameFault<'w>>
    ensures { Gives (λ named. map named_text named.items) result (spec.parts_matching (workspace_text workspace.now).packages selected.now word.now) }
{
    let candidates = candidates_matching(alloc, workspace, selected, word)?;
    matching_of(word, candidates)
}
