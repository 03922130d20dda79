//! The words for packages in lists of candidates.
ghost use Rattle.std.specs.Prelude.{◌≡◌, ◌++◌, IfOk, OnOk, string_bytes};
ghost use Rattle.cargo_workspaces.specs.Views.{package_text};
ghost use Rattle.cargo_workspaces.specs.WorkspaceView.{workspace_text};
ghost use Rattle.feats_files.specs.PackageWords as spec;
ghost use Rattle.shown_texts.specs.Shown as shown_texts;

use crate::message::push_escaped;
use cargo_workspaces::{Package, Workspace};
use plan_words::packages_of_word;
use std::alloc::{AllocError, Global};

/// Returns whether `numbers` contains `ix` and no other number.
fn is_only(numbers: &[usize], ix: usize) -> bool
    ensures { result ≡ spec.is_only ix numbers.now }
{
    match numbers {
        [only] => *only == ix,
        _ => false,
    }
}

/// Returns the name of `package`, `@` and its version.
fn versioned(alloc: Global, package: &Package<'_>) -> Result<String, AllocError>
    ensures { IfOk result (λ word. string_bytes word ≡ spec.versioned (package_text «package».now)) }
{
    let mut word = String::from_str(alloc, package.name)?;
    word.push_str("@")?;
    word.push_str(package.version)?;
    Ok(word)
}

/// Returns the word for `package`, which has the number `ix`: `NAME@VERSION` if that names it alone, and its id otherwise.
fn word_of(
    alloc: Global,
    workspace: &Workspace<'_>,
    ix: usize,
    package: &Package<'_>,
) -> Result<String, AllocError>
    ensures { IfOk result (λ word. string_bytes word ≡ spec.word_of (workspace_text workspace.now).packages ix (package_text «package».now)) }
{
    let word = versioned(alloc, package)?;
    let numbers = packages_of_word(alloc, workspace, word.as_str())?;
    if is_only(&numbers, ix) {
        Ok(word)
    } else {
        String::from_str(alloc, package.id)
    }
}

/// Returns the word for package `ix`; no text, if there is no such package.
fn word_at(alloc: Global, workspace: &Workspace<'_>, ix: usize) -> Result<String, AllocError>
    ensures { IfOk result (λ word. string_bytes word ≡ spec.word_at (workspace_text workspace.now).packages ix) }
{
    match workspace.packages().get(ix) {
        Some(package) => word_of(alloc, workspace, ix, package),
        None => Ok(String::new(alloc)),
    }
}

/// Appends the word for package `ix` with its control characters escaped: `NAME@VERSION` if that names the package alone, and its id
/// otherwise. Appends nothing if there is no such package. The only error is out of memory.
pub fn push_package(
    alloc: Global,
    text: &mut String,
    workspace: &Workspace<'_>,
    ix: usize,
) -> Result<(), AllocError>
    ensures { OnOk result (string_bytes text.new ≡ string_bytes text.old ++ shown_texts.escaped (spec.word_at (workspace_text workspace.now).packages ix)) }
{
    let word = word_at(alloc, workspace, ix)?;
    push_escaped(alloc, text, word.as_str())
}
