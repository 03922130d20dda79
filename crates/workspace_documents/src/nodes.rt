//! Which package each dependency was resolved to.
ghost use Rattle.std.specs.Prelude.{◌≡◌, ℕ, [], IfOk, map};
ghost use Rattle.std.specs.List.{list_any};
ghost use Rattle.std.specs.Str.{bytes_eq};
ghost use Rattle.json.specs.Value.{value_view, items_view};
ghost use Rattle.cargo_json.specs.Faults.{Text, Gives, refusal_of};
ghost use Rattle.cargo_json.specs.Faults as fault;
ghost use Rattle.workspace_documents.specs.Lists.{each, each_by_id};
ghost use Rattle.workspace_documents.specs.Nodes as spec;
ghost use Rattle.workspace_documents.specs.Views.{text_view, dep_view, node_view, resolved_view, package_view, entries_view};
ghost use Rattle.cargo_json.specs.declared.fault.Place.TheVariants as at;

use crate::packages::{Package, Packages};
use crate::targets::texts_at;
use crate::uses::{Uses, uses_of};
use cargo_json::{DocumentFault, Place, list_in, text_in, texts_in};
use json::Value;
use std::alloc::{AllocError, Global};
use std::collections::BTreeMap;

/// A package that another one uses, and the name by which its code calls it.
#[derive(Drop)]
pub struct Dep<'p, 'v> {
    pub extern_name: &'v str,
    pub target: &'p Package<'v>,
    /// The kinds and platforms for which it is used.
    pub uses: Uses<'v>,
}

/// The node of one package in Cargo's resolution.
#[derive(Drop)]
pub struct Node<'p, 'v> {
    /// The enabled features.
    pub features: Vec<&'v str>,
    /// The packages that it uses.
    pub deps: Vec<Dep<'p, 'v>>,
}

impl Node<'_, '_> {
    ghost use Rattle.workspace_documents.specs.Nodes.{no_node};
    ghost use Rattle.workspace_documents.specs.Views.{node_view};

    /// Returns a node with no enabled feature and no used package, for a package that has no node.
    pub fn new(alloc: Global) -> Self
        ensures { node_view result ≡ no_node }
    {
        Node {
            features: Vec::new(alloc),
            deps: Vec::new(alloc),
        }
    }
}

/// Nodes, by the ids of their packages.
pub type Nodes<'p, 'v> = BTreeMap<&'v str, Node<'p, 'v>>;

/// What Cargo resolved for a workspace.
#[derive(Drop)]
pub struct Resolved<'p, 'v> {
    /// The ids of the workspace's members.
    pub members: Vec<&'v str>,
    pub nodes: Nodes<'p, 'v>,
}

/// Returns the fault `NoPackage` for `id`, read from the field `name` at `place`.
fn no_package(
    alloc: Global,
    place: Place,
    name: &'static str,
    id: &str,
) -> Result<DocumentFault, AllocError>
    ensures { IfOk result (λ e. refusal_of e ≡ fault.no_package place name.now id.now) }
{
    let id = String::from_str(alloc, id)?;
    Ok(DocumentFault::NoPackage { place, name, id })
}

/// The package of this id, which the field of this name has.
pub(crate) fn package_at<'p, 'v>(
    alloc: Global,
    packages: &'p Packages<'v>,
    place: Place,
    name: &'static str,
    id: &str,
) -> Result<&'p Package<'v>, DocumentFault>
    ensures { Gives (λ p. package_view p.now) result (spec.package_at (entries_view package_view packages.now.entries) place name.now id.now) }
{
    match packages.get(id) {
        Some(target) => Ok(target),
        None => Err(no_package(alloc, place, name, id)?),
    }
}

/// Reads the used package `object` at place `dep` of `node`. Returns its first fault, or `NoPackage` if its id isn't in
/// `packages`.
#[tactic(auto, unfolding(crate::specs::Nodes::dep_in))]
fn dep_of<'p, 'v>(
    alloc: Global,
    packages: &'p Packages<'v>,
    object: &Value<'v>,
    node: usize,
    dep: usize,
) -> Result<Dep<'p, 'v>, DocumentFault>
    ensures { Gives dep_view result (spec.dep_in (entries_view package_view packages.now.entries) node dep (value_view object.now)) }
{
    let place = Place::Dep { node, dep };
    let extern_name = text_in(object, place, "name")?;
    let id = text_in(object, place, "pkg")?;
    let kinds = list_in(object, place, "dep_kinds")?;
    let target = package_at(alloc, packages, place, "pkg", id)?;
    let uses = uses_of(alloc, kinds, node, dep)?;
    Ok(Dep {
        extern_name,
        target,
        uses,
    })
}

/// Reads the packages `objects` that the node at place `node` uses, or returns the first fault.
fn deps_of<'p, 'v>(
    alloc: Global,
    packages: &'p Packages<'v>,
    objects: &Vec<Value<'v>>,
    node: usize,
) -> Result<Vec<Dep<'p, 'v>>, DocumentFault>
    ensures { Gives (λ ds. map dep_view ds.items) result (each (spec.dep_in (entries_view package_view packages.now.entries) node) 0 (items_view objects.now.items)) }
{
    let mut deps = Vec::with_capacity(alloc, objects.len())?;
    for (dep, object) in objects.iter().enumerate() {
        deps.push(dep_of(alloc, packages, object, node, dep)?)?;
    }
    Ok(deps)
}

/// Returns the id of the node at this place, and its facts about its package.
#[tactic(auto, unfolding(crate::specs::Nodes::node_in))]
fn node_of<'p, 'v>(
    alloc: Global,
    packages: &'p Packages<'v>,
    object: &Value<'v>,
    node: usize,
) -> Result<(&'v str, Node<'p, 'v>), DocumentFault>
    ensures { Gives (λ e. (e.0.now, node_view e.1)) result (spec.node_in (entries_view package_view packages.now.entries) node (value_view object.now)) }
{
    let place = Place::Node { node };
    let id = text_in(object, place, "id")?;
    let _known = package_at(alloc, packages, place, "id", id)?;
    let objects = list_in(object, place, "deps")?;
    let deps = deps_of(alloc, packages, objects, node)?;
    let features = texts_at(alloc, object, "features")?;
    Ok((id, Node { features, deps }))
}

/// Returns `NoDeps` if `resolve` is null, as in a document that was made with `--no-deps`.
fn check_deps(resolve: &Value<'_>) -> Result<(), DocumentFault>
    ensures { Gives (λ _. tt) result (spec.with_deps (value_view resolve.now)) }
{
    match resolve {
        Value::Null => Err(DocumentFault::NoDeps),
        _ => Ok(()),
    }
}

/// Returns the field `resolve` of a document.
#[tactic(auto, unfolding(crate::specs::Nodes::resolve_in))]
pub(crate) fn resolve_in<'d, 'v>(document: &'d Value<'v>) -> Result<&'d Value<'v>, DocumentFault>
    ensures { Gives (λ resolve. value_view resolve.now) result (spec.resolve_in (value_view document.now)) }
{
    let Some(resolve) = document.get("resolve") else {
        return Err(DocumentFault::Field {
            place: Place::Document,
            name: "resolve",
        });
    };
    check_deps(resolve)?;
    Ok(resolve)
}

/// What the nodes of the document say.
#[tactic(auto, unfolding(crate::specs::Nodes::nodes_in))]
fn nodes_in<'p, 'v>(
    alloc: Global,
    packages: &'p Packages<'v>,
    document: &Value<'v>,
) -> Result<Nodes<'p, 'v>, DocumentFault>
    ensures { Gives (λ m. entries_view node_view m.entries) result (spec.nodes_in (entries_view package_view packages.now.entries) (value_view document.now)) }
{
    let resolve = resolve_in(document)?;
    let objects = list_in(resolve, Place::Resolve, "nodes")?;
    nodes_of(alloc, packages, objects)
}

/// Reads the nodes that these objects are, by the ids of their packages.
fn nodes_of<'p, 'v>(
    alloc: Global,
    packages: &'p Packages<'v>,
    objects: &Vec<Value<'v>>,
) -> Result<Nodes<'p, 'v>, DocumentFault>
    ensures { Gives (λ m. entries_view node_view m.entries) result (each_by_id (spec.node_in (entries_view package_view packages.now.entries)) at.Node 0 [] (items_view objects.now.items)) }
{
    let mut nodes = BTreeMap::new(alloc);
    for (node, object) in objects.iter().enumerate() {
        let (id, said) = node_of(alloc, packages, object, node)?;
        if nodes.insert(id, said)?.is_some() {
            return Err(DocumentFault::Repeated {
                place: Place::Node { node },
            });
        }
    }
    Ok(nodes)
}

/// Returns the ids that the document's field `name` lists, each of them a package's.
#[tactic(auto, unfolding(crate::specs::Nodes::members_in))]
pub(crate) fn members_in<'v>(
    alloc: Global,
    packages: &Packages<'v>,
    document: &Value<'v>,
    name: &'static str,
) -> Result<Vec<&'v str>, DocumentFault>
    ensures { Gives (λ ids. map text_view ids.items) result (spec.members_in (entries_view package_view packages.now.entries) name.now (value_view document.now)) }
{
    let ids = texts_in(alloc, document, Place::Document, name)?;
    check_members(alloc, packages, name, &ids)?;
    Ok(ids)
}

/// Refuses the first id of the document's field `name` that no package has.
fn check_members(
    alloc: Global,
    packages: &Packages<'_>,
    name: &'static str,
    ids: &[&str],
) -> Result<(), DocumentFault>
    ensures { Gives (λ _. tt) result (spec.known (entries_view package_view packages.now.entries) name.now (map text_view ids.now)) }
{
    for id in ids {
        let _known = package_at(alloc, packages, Place::Document, name, id)?;
    }
    Ok(())
}

/// Reads the members and the nodes of a document.
#[tactic(auto, unfolding(crate::specs::Nodes::resolved_in))]
pub fn resolved_in<'p, 'v>(
    alloc: Global,
    packages: &'p Packages<'v>,
    document: &Value<'v>,
) -> Result<Resolved<'p, 'v>, DocumentFault>
    ensures { Gives resolved_view result (spec.resolved_in (entries_view package_view packages.now.entries) (value_view document.now)) }
{
    let members = members_in(alloc, packages, document, "workspace_members")?;
    let nodes = nodes_in(alloc, packages, document)?;
    Ok(Resolved { members, nodes })
}

/// Returns the node of the package `id`, or `absent` if it has none.
pub fn node_at<'a, 'p, 'v>(
    nodes: &'a Nodes<'p, 'v>,
    absent: &'a Node<'p, 'v>,
    id: &str,
) -> &'a Node<'p, 'v>
    requires { node_view absent.now ≡ spec.no_node }
    ensures { node_view result.now ≡ spec.node_of id.now (entries_view node_view nodes.now.entries) }
{
    nodes.get(id).unwrap_or(absent)
}
