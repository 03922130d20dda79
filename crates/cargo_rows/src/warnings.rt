//! Warnings: declarations of workspace packages that should lead to a package but don't.
ghost use Rattle.std.specs.Prelude.{◌≡◌, ◌++◌, List, IfOk, OnOk, map, option_map};
ghost use Rattle.std.specs.List.{list_any};
ghost use Rattle.std.specs.Str.{bytes_eq};
ghost use Rattle.cargo_json.specs.Faults.{Text};
ghost use Rattle.workspace_documents.specs.Names.{HasNames};
ghost use Rattle.workspace_documents.specs.Nodes.{no_node};
ghost use Rattle.cargo_rows.specs.Warnings as spec;
ghost use Rattle.cargo_workspaces.specs.Views.{feature_text};
ghost use Rattle.workspace_documents.specs.Views.{text_view, declaration_view, dep_view, node_view, package_view, entries_view};
ghost use Rattle.cargo_rows.specs.inner.Views.{HasTexts};

use crate::sets::set_of;
use cargo_workspaces::Feature;
use std::alloc::{AllocError, Global};
use std::collections::BTreeSet;
use std::fmt;
use workspace_documents::{
    Declaration, Found, Names, Node, Nodes, Package, Packages, choice, name_of, names_of, node_at,
};

/// A declaration of a workspace package that should lead to a package but doesn't. `Display` prints the line for standard error.
#[derive(Debug, Drop)]
pub struct Warning {
    /// The id of the package.
    pub package: String,
    /// The name by which the package calls the dependency.
    pub dependency: String,
}

impl fmt::Display for Warning {
    ghost output = { λ warning. spec.warning_line (spec.warning_view warning) };

    fn fmt<W: fmt::Write>(&self, f: &mut fmt::Formatter<W>) -> fmt::Result {
        write!(
            f,
            "package {:?}: dependency {:?} leads to no package; was --all-features forgotten?",
            self.package, self.dependency
        )
    }
}

/// Returns the rest of `text` after `front`, or None if `text` doesn't begin with `front`.
fn rest_after<'t>(front: &[u8], text: &'t [u8]) -> Option<&'t [u8]>
    ensures { option_map text_view result ≡ spec.rest_after front.now text.now }
{
    text.strip_prefix(front)
}

/// Returns whether `rest` begins with `/` or `?/`.
fn is_cut(rest: Option<&[u8]>) -> bool
    ensures { result ≡ spec.is_cut (option_map text_view rest.entry) }
{
    match rest {
        Some(rest) => rest_after(b"/", rest).is_some() || rest_after(b"?/", rest).is_some(),
        None => false,
    }
}

/// Returns whether `rest` equals `name`.
fn is_text(name: &[u8], rest: Option<&[u8]>) -> bool
    ensures { result ≡ spec.is_text name.now (option_map text_view rest.entry) }
{
    match rest {
        Some(rest) => rest == name,
        None => false,
    }
}

/// Returns whether `item` names the dependency `name`: `dep:name`, `name/feature` or `name?/feature`.
#[tactic(auto, unfolding(crate::specs::Warnings::names))]
fn names(name: &str, item: &str) -> bool
    ensures { result ≡ spec.names name.now item.now }
{
    let (name, item) = (name.as_bytes(), item.as_bytes());
    is_cut(rest_after(name, item)) || is_text(name, rest_after(b"dep:", item))
}

/// Returns whether an item of `feature` names the dependency `name`.
fn feature_names(name: &str, feature: &Feature<'_>) -> bool
    ensures { result ≡ spec.feature_names name.now (feature_text feature.now) }
{
    for item in &feature.items {
        if names(name, item) {
            return true;
        }
    }
    false
}

/// Returns whether an item of one of `features` names the dependency `name`.
fn is_named(name: &str, features: &[Feature<'_>]) -> bool
    ensures { result ≡ spec.is_named name.now (map feature_text features.now) }
{
    for feature in features {
        if feature_names(name, feature) {
            return true;
        }
    }
    false
}

/// Returns whether `text` is one of `texts`.
fn is_among(text: &str, texts: &[&str]) -> bool
    ensures { result ≡ list_any (bytes_eq text.now) (map text_view texts.now) }
{
    for other in texts {
        if text == *other {
            return true;
        }
    }
    false
}

/// Returns whether one of `features` is enabled and has an item that names the dependency `name`. `on` has the names of the
/// enabled features.
fn is_turned_on(on: &[&str], name: &str, features: &[Feature<'_>]) -> bool
    ensures { result ≡ spec.is_turned_on (map text_view on.now) name.now (map feature_text features.now) }
{
    for feature in features {
        if feature_names(name, feature) && is_among(feature.name, on) {
            return true;
        }
    }
    false
}

/// Returns whether `declaration` should lead to a package.
///
/// If it is required, or an enabled feature names it, it should if a package of its name has a library. Otherwise it should if
/// any feature names it. `libraries` has the names of the packages with a library.
#[tactic(auto, unfolding(crate::specs::Warnings::is_expected))]
fn is_expected(
    libraries: &BTreeSet<&str>,
    package: &Package<'_>,
    node: &Node<'_, '_>,
    declaration: &Declaration<'_>,
) -> bool
    ensures { (texts : List Text) → HasTexts libraries.now texts → result ≡ spec.is_expected texts (package_view «package».now) (node_view node.now) (declaration_view declaration.now) }
{
    let name = name_of(declaration);
    if !declaration.is_optional || is_turned_on(&node.features, name, &package.features) {
        libraries.contains(declaration.name)
    } else {
        is_named(name, &package.features)
    }
}

/// Returns whether `declaration` leads to no package, but should. The only error is out of memory.
#[tactic(auto, unfolding(crate::specs::Warnings::is_lost))]
fn is_lost(
    alloc: Global,
    libraries: &BTreeSet<&str>,
    package: &Package<'_>,
    node: &Node<'_, '_>,
    names: &Names<'_>,
    declaration: &Declaration<'_>,
) -> Result<bool, AllocError>
    requires { HasNames names.now (map dep_view node.now.deps.items) }
    ensures { IfOk result (λ b. (texts : List Text) → HasTexts libraries.now texts → b ≡ spec.is_lost texts (package_view «package».now) (node_view node.now) (declaration_view declaration.now)) }
{
    match choice(alloc, package.id, declaration, &node.deps, names)? {
        Found::Nothing => Ok(is_expected(libraries, package, node, declaration)),
        _ => Ok(false),
    }
}

/// Returns the warning for a declaration of `package`. The only error is out of memory.
fn warning_of(
    alloc: Global,
    package: &Package<'_>,
    declaration: &Declaration<'_>,
) -> Result<Warning, AllocError>
    ensures { IfOk result (λ warning. spec.warning_view warning ≡ spec.warning_of «package».now.id.now (declaration_view declaration.now)) }
{
    Ok(Warning {
        package: String::from_str(alloc, package.id)?,
        dependency: String::from_str(alloc, name_of(declaration))?,
    })
}

/// Appends the warnings for `package`, in the order of its declarations. The only error is out of memory.
fn push_warnings(
    alloc: Global,
    warnings: &mut Vec<Warning>,
    libraries: &BTreeSet<&str>,
    package: &Package<'_>,
    node: &Node<'_, '_>,
) -> Result<(), AllocError>
    ensures { OnOk result ((texts : List Text) → HasTexts libraries.now texts → map spec.warning_view warnings.new.items ≡ map spec.warning_view warnings.old.items ++ spec.package_warnings texts (package_view «package».now) (node_view node.now)) }
{
    let names = names_of(alloc, &node.deps)?;
    for declaration in &package.declarations {
        if is_lost(alloc, libraries, package, node, &names, declaration)? {
            warnings.push(warning_of(alloc, package, declaration)?)?;
        }
    }
    Ok(())
}

/// Returns the names of the packages that have a library. The only error is out of memory.
fn libraries_of<'v>(alloc: Global, packages: &Packages<'v>) -> Result<Vec<&'v str>, AllocError>
    ensures { IfOk result (λ names. map text_view names.items ≡ spec.libraries_of (map (λ e. e.1) (entries_view package_view packages.now.entries))) }
{
    let mut names = Vec::new(alloc);
    for (_, package) in packages {
        if package.library.is_some() {
            names.push(package.name)?;
        }
    }
    Ok(names)
}

/// Returns the names of the packages that have a library, as a set.
fn libraries_in<'v>(alloc: Global, packages: &Packages<'v>) -> Result<BTreeSet<&'v str>, AllocError>
    ensures { IfOk result (λ set. HasTexts set (spec.libraries_of (map (λ e. e.1) (entries_view package_view packages.now.entries)))) }
{
    let names = libraries_of(alloc, packages)?;
    let set = set_of(alloc, &names)?;
    Ok(set)
}

/// Returns the warnings for the packages whose ids are in `members`, in the order of the ids. `absent` is a node with nothing.
pub(crate) fn warnings_of_packages<'p, 'v>(
    alloc: Global,
    packages: &'p Packages<'v>,
    members: &BTreeSet<&'v str>,
    nodes: &Nodes<'p, 'v>,
    absent: &Node<'p, 'v>,
) -> Result<Vec<Warning>, AllocError>
    requires { node_view absent.now ≡ no_node }
    ensures { IfOk result (λ warnings. (texts : List Text) → HasTexts members.now texts → map spec.warning_view warnings.items ≡ spec.all_warnings (spec.libraries_of (map (λ e. e.1) (entries_view package_view packages.now.entries))) texts (entries_view node_view nodes.now.entries) (entries_view package_view packages.now.entries)) }
{
    let libraries = libraries_in(alloc, packages)?;
    let mut warnings = Vec::new(alloc);
    for (id, package) in packages {
        if members.contains(*id) {
            let node = node_at(&*nodes, &*absent, *id);
            push_warnings(alloc, &mut warnings, &libraries, package, node)?;
        }
    }
    Ok(warnings)
}
