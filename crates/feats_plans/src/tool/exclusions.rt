//! A line for each word of `--exclude` that excludes no member.
ghost use Rattle.std.specs.Prelude.{◌≡◌, IfOk, string_bytes};
ghost use Rattle.std.specs.List.{list_any};
ghost use Rattle.cargo_workspaces.specs.Views.{texts};
ghost use Rattle.cargo_workspaces.specs.WorkspaceView.{workspace_text};
ghost use Rattle.feats_plans.specs.tool.Exclusions as spec;
ghost use Rattle.feats_plans.specs.tool.lost_dependencies.Strings.{string_texts};
ghost use Rattle.plan_words.specs.PackageWords.{has_fitting_name};

use cargo_workspaces::Workspace;
use feats_files::push_escaped;
use plan_words::{fits, packages_of_word};
use std::alloc::{AllocError, Global};

/// Returns whether the name of package `number` fits `pattern`.
fn has_fitting_name(workspace: &Workspace<'_>, pattern: &str, number: usize) -> bool
    ensures { result ≡ has_fitting_name (workspace_text workspace.now) pattern.now number }
{
    match workspace.packages().get(number) {
        Some(package) => fits(pattern, package.name),
        None => false,
    }
}

/// Returns whether `word`, which names the packages `named`, excludes `member`: it names it, or the member's name fits it as a pattern.
fn is_excluded(workspace: &Workspace<'_>, named: &[usize], word: &str, member: usize) -> bool
    ensures { result ≡ spec.is_excluded (workspace_text workspace.now) named.now word.now member }
{
    named.contains(&member) || has_fitting_name(workspace, word, member)
}

/// Returns whether `word`, which names the packages `named`, excludes a member of `workspace`.
fn any_excluded(workspace: &Workspace<'_>, named: &[usize], word: &str) -> bool
    ensures { result ≡ list_any (spec.is_excluded (workspace_text workspace.now) named.now word.now) (workspace_text workspace.now).members }
{
    for member in workspace.members() {
        if is_excluded(workspace, named, word, *member) {
            return true;
        }
    }
    false
}

/// Returns whether `word` excludes no member of `workspace`.
fn excludes_none(alloc: Global, workspace: &Workspace<'_>, word: &str) -> Result<bool, AllocError>
    ensures { IfOk result (λ none. none ≡ spec.excludes_none (workspace_text workspace.now) word.now) }
{
    let named = packages_of_word(alloc, workspace, word)?;
    Ok(!any_excluded(workspace, &named, word))
}

/// Returns the line about `word`.
fn line_about(alloc: Global, word: &str) -> Result<String, AllocError>
    ensures { IfOk result (λ line. string_bytes line ≡ spec.line_about word.now) }
{
    let mut line = String::from_str(alloc, "`--exclude ")?;
    push_escaped(alloc, &mut line, word)?;
    line.push_str("` excludes no member of the workspace")?;
    Ok(line)
}

/// Returns a line for each of `words`, those of `--exclude`, that excludes no member of `workspace`. The only error is out of memory.
pub(crate) fn exclusion_lines(
    alloc: Global,
    workspace: &Workspace<'_>,
    words: &[&str],
) -> Result<Vec<String>, AllocError>
    ensures { IfOk result (λ lines. string_texts lines.items ≡ spec.exclusion_lines (workspace_text workspace.now) (texts words.now)) }
{
    let mut lines = Vec::new(alloc);
    for word in words {
        if excludes_none(alloc, workspace, word)? {
            lines.push(line_about(alloc, word)?)?;
        }
    }
    Ok(lines)
}
