//! What words name.
ghost use Rattle.std.specs.Prelude.{◌≡◌, ◌<◌, IfOk, IfErr, IsTrue, length, map, nat_lt};
ghost use Rattle.std.specs.List.{list_all};
ghost use Rattle.cargo_workspaces.specs.WorkspaceView.{workspace_text};
ghost use Rattle.plan_words.specs.PackageWords.{packages_of_word};
ghost use Rattle.plan_names.specs.Faults as faults;
ghost use Rattle.plan_names.specs.Faults.{Gives};
ghost use Rattle.plan_names.specs.Names as spec;
ghost use Rattle.plan_names.specs.Views.{named_text};

use crate::fault::NameFault;
use crate::named::{Named, Part};
use crate::parts::{parts_among, parts_anywhere};
use crate::word_cuts::{Cut, cut_word, has_star};
use cargo_workspaces::Workspace;
use plan_words::packages_of_word;
use std::alloc::{AllocError, Global};

/// Returns the packages `numbers`, themselves.
pub(crate) fn wholes<'w>(alloc: Global, numbers: &[usize]) -> Result<Vec<Named<'w>>, AllocError>
    ensures { IfOk result (λ named. map named_text named.items ≡ map (λ k. spec.of_package k spec.whole) numbers.now) }
{
    let mut named = Vec::with_capacity(alloc, numbers.len())?;
    for number in numbers {
        named.push(Named {
            package: *number,
            part: Part::Package,
        })?;
    }
    Ok(named)
}

/// Returns the packages that `word`, a word of `-p`, names, themselves.
fn whole_packages<'w>(
    alloc: Global,
    workspace: &Workspace<'_>,
    word: &str,
) -> Result<Vec<Named<'w>>, AllocError>
    ensures { IfOk result (λ named. map named_text named.items ≡ spec.whole_packages (workspace_text workspace.now).packages word.now) }
{
    let numbers = packages_of_word(alloc, workspace, word)?;
    wholes(alloc, &numbers)
}

/// Returns the parts that the name of `cut` means in the packages that its front names.
fn parts_of_cut<'w>(
    alloc: Global,
    workspace: &'w Workspace<'_>,
    cut: Cut<'_>,
) -> Result<Vec<Named<'w>>, AllocError>
    ensures { IfOk result (λ named. map named_text named.items ≡ spec.parts_among (workspace_text workspace.now).packages (packages_of_word (workspace_text workspace.now).packages cut.entry.front.now) cut.entry.name.now) }
{
    let numbers = packages_of_word(alloc, workspace, cut.front)?;
    parts_among(alloc, workspace, &numbers, cut.name)
}

/// Returns the parts that `name` means in the packages `selected`, else in all.
pub(crate) fn parts_of_name<'w>(
    alloc: Global,
    workspace: &'w Workspace<'_>,
    selected: &[usize],
    name: &str,
) -> Result<Vec<Named<'w>>, AllocError>
    ensures { IfOk result (λ named. map named_text named.items ≡ spec.or_else (spec.parts_among (workspace_text workspace.now).packages selected.now name.now) (spec.parts_anywhere (workspace_text workspace.now).packages name.now)) }
{
    let named = parts_among(alloc, workspace, selected, name)?;
    if named.is_empty() {
        parts_anywhere(alloc, workspace, name)
    } else {
        Ok(named)
    }
}

/// Returns the parts that `word` means by the name of a feature or of an optional dependency.
fn parts_by_name<'w>(
    alloc: Global,
    workspace: &'w Workspace<'_>,
    selected: &[usize],
    word: &str,
) -> Result<Vec<Named<'w>>, AllocError>
    ensures { IfOk result (λ named. map named_text named.items ≡ spec.parts_by_name (workspace_text workspace.now).packages selected.now word.now) }
{
    match cut_word(word) {
        Some(cut) => parts_of_cut(alloc, workspace, cut),
        None => parts_of_name(alloc, workspace, selected, word),
    }
}

/// Returns all that `word` may mean.
fn candidates<'w>(
    alloc: Global,
    workspace: &'w Workspace<'_>,
    selected: &[usize],
    word: &str,
) -> Result<Vec<Named<'w>>, AllocError>
    ensures { IfOk result (λ named. map named_text named.items ≡ spec.candidates (workspace_text workspace.now).packages selected.now word.now) }
{
    let whole = whole_packages(alloc, workspace, word)?;
    if whole.is_empty() {
        parts_by_name(alloc, workspace, selected, word)
    } else {
        Ok(whole)
    }
}

/// Returns what `word` names, of its candidates.
fn named_of<'w>(word: &'w str, candidates: Vec<Named<'w>>) -> Result<Vec<Named<'w>>, NameFault<'w>>
    ensures { Gives (λ named. map named_text named.items) result (faults.named_of word.now (map named_text candidates.entry.items)) }
{
    match candidates.as_slice() {
        [] => Err(NameFault::Unknown { word }),
        [_] => Ok(candidates),
        _ if has_star(word) => Ok(candidates),
        _ => Err(NameFault::Several { word, candidates }),
    }
}

/// Returns what `word` names: the packages that it names as a word of `-p`, else features or optional dependencies. Such a word is
/// `SPEC/NAME`, where SPEC is a word of `-p`, or a name in the packages `selected`, else in all. After `dep:` it is the name of an
/// optional dependency. With a star in the name, which stands for any text, all that fit are named. Else Unknown if nothing fits,
/// Several if more than one does.
pub fn parts_named<'w>(
    alloc: Global,
    workspace: &'w Workspace<'_>,
    selected: &[usize],
    word: &'w str,
) -> Result<Vec<Named<'w>>, NameFault<'w>>
    ensures named { Gives (λ named. map named_text named.items) result (faults.parts_named (workspace_text workspace.now).packages selected.now word.now) }
    ensures within { IfOk result (λ named. IsTrue (list_all (λ n. nat_lt n.owner (length (workspace_text workspace.now).packages)) (map named_text named.items))) }
    ensures candidates_within { IfErr result (λ fault. IsTrue (list_all (λ n. nat_lt n.owner (length (workspace_text workspace.now).packages)) (faults.candidates_of (faults.refusal_of fault)))) }
{
    let candidates = candidates(alloc, workspace, selected, word)?;
    named_of(word, candidates)
}

/// Returns the only package among `whole`, the packages that `word` names.
fn the_package<'w>(word: &'w str, whole: Vec<Named<'w>>) -> Result<usize, NameFault<'w>>
    ensures { Gives (λ p. p) result (faults.the_package word.now (map named_text whole.entry.items)) }
{
    match whole.as_slice() {
        [] => Err(NameFault::Unknown { word }),
        [only] => Ok(only.package),
        _ => Err(NameFault::Several {
            word,
            candidates: whole,
        }),
    }
}

/// Returns the number of the only package that `word`, a word of `-p`, names; Unknown if it names none, Several if more than one.
pub fn package_named<'w>(
    alloc: Global,
    workspace: &Workspace<'_>,
    word: &'w str,
) -> Result<usize, NameFault<'w>>
    ensures one { Gives (λ p. p) result (faults.package_named (workspace_text workspace.now).packages word.now) }
    ensures within { IfOk result (λ p. p < length (workspace_text workspace.now).packages) }
    ensures candidates_within { IfErr result (λ fault. IsTrue (list_all (λ n. nat_lt n.owner (length (workspace_text workspace.now).packages)) (faults.candidates_of (faults.refusal_of fault)))) }
{
    let whole = whole_packages(alloc, workspace, word)?;
    the_package(word, whole)
}
