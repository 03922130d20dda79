//! The dependencies that members inherit in a workspace.
ghost use Rattle.std.specs.Prelude.{◌≡◌, IfOk, map, nat_eq, option_map, option_and_then};
ghost use Rattle.std.specs.List.{list_any};
ghost use Rattle.toml.specs.View.{view};
ghost use Rattle.cargo_workspaces.specs.Views.{declaration_text, package_text};
ghost use Rattle.cargo_workspaces.specs.WorkspaceView.{workspace_text};
ghost use Rattle.cargo_manifests.specs.inherited.Entries.{value_at};
ghost use Rattle.cargo_manifests.specs.inherited.Inheritances as spec;
ghost use Rattle.cargo_manifests.specs.inherited.InheritanceView.{entry_view, inheritance_text};

use crate::inherited::declared_entries::inherited_entry;
use crate::inherited::entries::is_text;
use cargo_workspaces::{Declaration, Package, Workspace};
use std::alloc::{AllocError, Global};
use toml::Value;

/// What the manifests of a workspace say about the dependencies that its members inherit.
pub struct Inheritance<'m> {
    /// The table `[workspace.dependencies]`, if there is one.
    pub table: Option<&'m Value>,
    /// For each package, and for each of its declarations, the entry of the package's manifest, if that inherits the dependency.
    pub entries: Vec<Vec<Option<&'m Value>>>,
}

impl Drop for Inheritance<'_> {
    // Written out, so that a crate above calls it. A derived drop is proved in each crate that drops a value, with those of all fields.
    fn drop(self) {
        let Inheritance {
            table: _table,
            entries: _entries,
        } = self;
    }
}

impl<'m> Inheritance<'m> {
    /// Returns the entry by which declaration `declaration` of package `package` is inherited.
    pub fn own_entry(&self, package: usize, declaration: usize) -> Option<&'m Value>
        ensures { entry_view result ≡ spec.own_entry (inheritance_text self.now) «package» declaration }
    {
        *self.entries.get(package)?.get(declaration)?
    }

    /// Returns the entry of the table `[workspace.dependencies]` with the name `name`.
    pub fn shared_entry(&self, name: &str) -> Option<&'m Value>
        ensures { entry_view result ≡ spec.shared_entry (inheritance_text self.now) name.now }
    {
        self.table?.get(name)
    }
}

/// Returns the value of `key` in the table `section` of `manifest`.
fn value_at<'m>(manifest: &'m Value, section: &str, key: &str) -> Option<&'m Value>
    ensures { entry_view result ≡ value_at section.now key.now (view manifest.now) }
{
    manifest.get(section)?.get(key)
}

/// Returns the name of the package of `manifest`, if it has one. The table `project` is the older name of `package`.
fn name_in(manifest: &Value) -> Option<&Value>
    ensures { entry_view result ≡ spec.name_in (view manifest.now) }
{
    match manifest.get("package") {
        Some(package) => package.get("name"),
        None => value_at(manifest, "project", "name"),
    }
}

/// Returns whether the package of `manifest` has the name `name`.
fn is_named(manifest: &Value, name: &str) -> bool
    ensures { result ≡ spec.is_named name.now (view manifest.now) }
{
    match name_in(manifest) {
        Some(value) => is_text(value, name),
        None => false,
    }
}

/// Returns the first of `manifests` whose package has the name `name`.
fn manifest_named<'m>(manifests: &'m [Value], name: &str) -> Option<&'m Value>
    ensures { entry_view result ≡ spec.manifest_named name.now (map view manifests.now) }
{
    for manifest in manifests {
        if is_named(manifest, name) {
            return Some(manifest);
        }
    }
    None
}

/// Returns whether `package` is one of `members`.
fn is_member(members: &[usize], package: usize) -> bool
    ensures { result ≡ list_any (nat_eq «package») members.now }
{
    members.contains(&package)
}

/// Returns the manifest of package `number`, which has the name `name`, if it is one of `members`.
fn manifest_of<'m>(
    manifests: &'m [Value],
    workspace: &Workspace<'_>,
    number: usize,
    name: &str,
) -> Option<&'m Value>
    ensures { entry_view result ≡ spec.manifest_of (workspace_text workspace.now) (map view manifests.now) number name.now }
{
    if is_member(workspace.members(), number) {
        manifest_named(manifests, name)
    } else {
        None
    }
}

/// Returns the entry of `declaration` in `manifest`, if there is a manifest that inherits the dependency.
fn entry_in<'m>(
    alloc: Global,
    manifest: Option<&'m Value>,
    declaration: &Declaration<'_>,
) -> Result<Option<&'m Value>, AllocError>
    ensures { IfOk result (λ entry. entry_view entry ≡ spec.entry_in (entry_view manifest.entry) (declaration_text declaration.now)) }
{
    match manifest {
        Some(manifest) => inherited_entry(alloc, manifest, declaration),
        None => Ok(None),
    }
}

/// Returns for each of `declarations` the entry of `manifest` that inherits it.
fn entries_in<'m>(
    alloc: Global,
    manifest: Option<&'m Value>,
    declarations: &[Declaration<'_>],
) -> Result<Vec<Option<&'m Value>>, AllocError>
    ensures { IfOk result (λ entries. map entry_view entries.items ≡ spec.entries_in (entry_view manifest.entry) (map declaration_text declarations.now)) }
{
    let mut entries = Vec::with_capacity(alloc, declarations.len())?;
    for declaration in declarations {
        entries.push(entry_in(alloc, manifest, declaration)?)?;
    }
    Ok(entries)
}

/// Returns the entries of package `number`.
fn entries_of_package<'m>(
    alloc: Global,
    manifests: &'m [Value],
    workspace: &Workspace<'_>,
    number: usize,
    package: &Package<'_>,
) -> Result<Vec<Option<&'m Value>>, AllocError>
    ensures { IfOk result (λ entries. map entry_view entries.items ≡ spec.entries_of (workspace_text workspace.now) (map view manifests.now) number (package_text «package».now)) }
{
    let manifest = manifest_of(manifests, workspace, number, package.name);
    entries_in(alloc, manifest, &package.declarations)
}

/// Returns the entries of all packages of `workspace`.
fn entries_of_packages<'m>(
    alloc: Global,
    manifests: &'m [Value],
    workspace: &Workspace<'_>,
    packages: &[Package<'_>],
) -> Result<Vec<Vec<Option<&'m Value>>>, AllocError>
    ensures { IfOk result (λ all. map (λ entries. map entry_view entries.items) all.items ≡ spec.entries_from (workspace_text workspace.now) (map view manifests.now) 0 (map package_text packages.now)) }
{
    let mut all = Vec::with_capacity(alloc, packages.len())?;
    for (number, package) in packages.iter().enumerate() {
        all.push(entries_of_package(alloc, manifests, workspace, number, package)?)?;
    }
    Ok(all)
}

/// Returns the first table `[workspace.dependencies]` of `manifests`.
fn table_in(manifests: &[Value]) -> Option<&Value>
    ensures { entry_view result ≡ spec.table_in (map view manifests.now) }
{
    for manifest in manifests {
        if let Some(table) = value_at(manifest, "workspace", "dependencies") {
            return Some(table);
        }
    }
    None
}

/// Returns what is inherited in `workspace`, by `manifests`: those of the members, and the one with `[workspace.dependencies]`. A member
/// without a manifest inherits nothing. An allocation's failure is the only error.
pub fn inheritance_in<'m>(
    alloc: Global,
    workspace: &Workspace<'_>,
    manifests: &'m [Value],
) -> Result<Inheritance<'m>, AllocError>
    ensures { IfOk result (λ inheritance. inheritance_text inheritance ≡ spec.inheritance_in (workspace_text workspace.now) (map view manifests.now)) }
{
    let table = table_in(manifests);
    let entries = entries_of_packages(alloc, manifests, workspace, workspace.packages())?;
    Ok(Inheritance { table, entries })
}
