//! The entries of declarations in a manifest.
ghost use Rattle.std.specs.Prelude.{◌≡◌, IfOk, option_map, option_and_then};
ghost use Rattle.toml.specs.View.{view};
ghost use Rattle.cargo_workspaces.specs.Views.{declaration_text};
ghost use Rattle.cargo_manifests.specs.inherited.Entries as spec;
ghost use Rattle.cargo_manifests.specs.inherited.InheritanceView.{entry_view};

use crate::inherited::entries::{is_inherited, value_of};
use crate::inherited::sections::section_of;
use cargo_workspaces::{Declaration, Kind};
use std::alloc::{AllocError, Global};
use toml::Value;

/// Returns the table of the dependencies of kind `kind` in `section`.
fn dependencies_of<'m>(section: &'m Value, kind: Kind) -> Option<&'m Value>
    ensures { entry_view result ≡ spec.dependencies_of kind (view section.now) }
{
    match kind {
        Kind::Normal => section.get("dependencies"),
        Kind::Build => value_of(section, "build-dependencies", "build_dependencies"),
        Kind::Development => value_of(section, "dev-dependencies", "dev_dependencies"),
    }
}

/// Returns the entry of a dependency of kind `kind` with the name `name` in `section`, if it is inherited.
fn inherited_in<'m>(section: &'m Value, kind: Kind, name: &str) -> Option<&'m Value>
    ensures { entry_view result ≡ spec.inherited_in kind name.now (view section.now) }
{
    let entry = dependencies_of(section, kind)?.get(name)?;
    if is_inherited(entry) {
        Some(entry)
    } else {
        None
    }
}

/// Returns the entry of `declaration` in `manifest`, the one of its package, if that inherits the dependency.
pub(crate) fn inherited_entry<'m>(
    alloc: Global,
    manifest: &'m Value,
    declaration: &Declaration<'_>,
) -> Result<Option<&'m Value>, AllocError>
    ensures { IfOk result (λ found. entry_view found ≡ spec.inherited_entry (declaration_text declaration.now) (view manifest.now)) }
{
    match section_of(alloc, manifest, declaration.platform)? {
        Some(section) => Ok(inherited_in(section, declaration.kind, declaration.name)),
        None => Ok(None),
    }
}
