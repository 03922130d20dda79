//! The titles of packages that differ.
ghost use Rattle.std.specs.Prelude.{◌≡◌, ◌++◌, IfOk, OnOk, string_bytes};
ghost use Rattle.cargo_workspaces.specs.Views.{package_text};
ghost use Rattle.feats_diff.specs.texts.Titles as spec;
ghost use Rattle.feats_diff.specs.texts.inner.Names.{AreRepeated, names_text};
ghost use Rattle.feats_lines.specs.Lines.{source_text};

use cargo_workspaces::Package;
use feats_lines::label_of;
use std::alloc::{AllocError, Global};
use std::collections::BTreeSet;

/// The names and versions of packages, and which of them several packages have.
#[derive(Drop)]
pub(crate) struct Repeated<'r, 'n> {
    /// The names and versions of all packages of the old workspace.
    pub(crate) old_names: &'r [String],
    /// The names and versions of all packages of the new workspace.
    pub(crate) new_names: &'r [String],
    /// Those that several packages of the old workspace have.
    pub(crate) old: &'r BTreeSet<&'n str>,
    /// Those that several packages of the new workspace have.
    pub(crate) new: &'r BTreeSet<&'n str>,
}

/// Returns whether both are one version of one source.
pub(crate) fn is_same(old: &Package<'_>, new: &Package<'_>) -> bool
    ensures { result ≡ spec.is_same (package_text old.now) (package_text new.now) }
{
    old.version == new.version && old.source.unwrap_or("") == new.source.unwrap_or("")
}

/// Returns the source of `package`, or its id if it is at a path.
fn shown_source<'p>(package: &'p Package<'_>) -> &'p str
    ensures { result.now ≡ source_text (package_text «package».now) }
{
    match package.source {
        Some(source) => source,
        None => package.id,
    }
}

/// Appends the version of `package`; with its source, if `sources`.
fn push_version(text: &mut String, sources: bool, package: &Package<'_>) -> Result<(), AllocError>
    ensures { OnOk result (string_bytes text.new ≡ string_bytes text.old ++ spec.version_text sources (package_text «package».now)) }
{
    text.push_str(package.version)?;
    if sources {
        text.push_str(" (")?;
        text.push_str(shown_source(package))?;
        text.push_str(")")?;
    }
    Ok(())
}

/// Returns the name and both versions; with the sources, if the versions are equal.
fn moved_title(alloc: Global, old: &Package<'_>, new: &Package<'_>) -> Result<String, AllocError>
    ensures { IfOk result (λ title. string_bytes title ≡ spec.moved_title (package_text old.now) (package_text new.now)) }
{
    let sources = old.version == new.version;
    let mut title = String::from_str(alloc, new.name)?;
    title.push_str(" ")?;
    push_version(&mut title, sources, old)?;
    title.push_str(" -> ")?;
    push_version(&mut title, sources, new)?;
    Ok(title)
}

/// Returns the label of a package that stays; both versions, if its version or source changes.
pub(crate) fn changed_title(
    alloc: Global,
    repeated: &Repeated<'_, '_>,
    old: &Package<'_>,
    new: &Package<'_>,
) -> Result<String, AllocError>
    requires { AreRepeated repeated.now }
    ensures { IfOk result (λ title. string_bytes title ≡ spec.changed_title (names_text repeated.now) (package_text old.now) (package_text new.now)) }
{
    if is_same(old, new) {
        label_of(alloc, repeated.new, new)
    } else {
        moved_title(alloc, old, new)
    }
}
