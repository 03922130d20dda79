//! The workspace that a document describes, by the ids of its packages.
ghost use Rattle.std.specs.Prelude.{◌≡◌, Some, IfOk, map};
ghost use Rattle.json.specs.Value.{value_view};
ghost use Rattle.cargo_json.specs.Faults.{Gives};
ghost use Rattle.workspace_documents.specs.Leads as spec;
ghost use Rattle.workspace_documents.specs.Rules.{IsDescribed};
ghost use Rattle.workspace_documents.specs.Views.{declaration_view, dep_view, node_view, package_view, entries_view};
ghost use Rattle.workspace_documents.specs.LeadViews.{lead_view, leads_view, links_view, described_view};
ghost use Rattle.workspace_documents.specs.Names.{HasNames};
ghost use Rattle.workspace_documents.specs.Nodes.{no_node};

use crate::dependencies::{Found, ambiguous, choice};
use crate::names::{Names, names_of};
use crate::nodes::{Dep, Node, Nodes, members_in, node_at, package_at, resolve_in, resolved_in};
use crate::packages::{Declaration, Package, Packages, packages_of};
use cargo_json::{DocumentFault, Place, optional_text_in, parts_of};
use json::Value;
use std::alloc::Global;

/// Where the declarations of a package lead.
#[derive(Drop)]
pub struct Leads<'v> {
    /// The id of the package.
    pub owner: &'v str,
    /// For each of its declarations, in their order, the id of the package that it leads to; None if it leads to none.
    pub targets: Vec<Option<&'v str>>,
}

/// What a document says about a workspace beside its packages.
#[derive(Drop)]
pub struct Links<'v> {
    /// The ids of the workspace's members, in the order of the document.
    pub members: Vec<&'v str>,
    /// The ids of the members that are selected if no package is named, in the order of the document.
    pub default_members: Vec<&'v str>,
    /// The id of the package in whose folder the document was made, if it is one.
    pub root: Option<&'v str>,
    /// For each package, in the order of their ids, where its declarations lead.
    pub leads: Vec<Leads<'v>>,
}

/// The workspace that a document describes.
#[derive(Drop)]
pub struct Described<'v> {
    /// Its packages and all that they depend on, by their ids.
    pub packages: Packages<'v>,
    pub links: Links<'v>,
}

/// Returns the id of the package that a declaration of the package `id` leads to, or None. An optional declaration for which several
/// packages are found leads to none. Returns `Ambiguous` for a required one, and `Memory` if an allocation fails.
#[tactic(auto, unfolding(crate::specs::Leads::lead_in))]
fn lead_of<'v>(
    alloc: Global,
    id: &str,
    deps: &[Dep<'_, 'v>],
    names: &Names<'_>,
    declaration: &Declaration<'_>,
) -> Result<Option<&'v str>, DocumentFault>
    requires { HasNames names.now (map dep_view deps.now) }
    ensures { Gives lead_view result (spec.lead_in id.now (map dep_view deps.now) (declaration_view declaration.now)) }
{
    match choice(alloc, id, declaration, deps, names)? {
        Found::Nothing => Ok(None),
        Found::One(target) => Ok(Some(target.id)),
        Found::Several => {
            if declaration.is_optional {
                Ok(None)
            } else {
                Err(ambiguous(alloc, id, declaration.name)?)
            }
        }
    }
}

/// Returns the same for each declaration of `package`, in their order.
fn leads_of<'v>(
    alloc: Global,
    package: &Package<'v>,
    deps: &[Dep<'_, 'v>],
) -> Result<Vec<Option<&'v str>>, DocumentFault>
    ensures { Gives (λ leads. map lead_view leads.items) result (spec.leads_in «package».now.id.now (map dep_view deps.now) (map declaration_view «package».now.declarations.items)) }
{
    let names = names_of(alloc, deps)?;
    let mut leads = Vec::with_capacity(alloc, package.declarations.len())?;
    for declaration in &package.declarations {
        leads.push(lead_of(alloc, package.id, deps, &names, declaration)?)?;
    }
    Ok(leads)
}

/// Returns where the declarations of each package lead, in the order of the packages; `absent` is a node with nothing.
fn all_leads<'p, 'v>(
    alloc: Global,
    packages: &'p Packages<'v>,
    nodes: &Nodes<'p, 'v>,
    absent: &Node<'p, 'v>,
) -> Result<Vec<Leads<'v>>, DocumentFault>
    requires { node_view absent.now ≡ no_node }
    ensures { Gives (λ all. map leads_view all.items) result (spec.all_leads (entries_view node_view nodes.now.entries) (entries_view package_view packages.now.entries)) }
{
    let mut all = Vec::with_capacity(alloc, packages.len())?;
    for (id, package) in packages {
        let node = node_at(&*nodes, &*absent, *id);
        let targets = leads_of(alloc, package, &node.deps)?;
        all.push(Leads {
            owner: *id,
            targets,
        })?;
    }
    Ok(all)
}

/// Refuses the id of a root that no package has.
fn known_root<'v>(
    alloc: Global,
    packages: &Packages<'v>,
    id: &'v str,
) -> Result<Option<&'v str>, DocumentFault>
    ensures { Gives lead_view result (spec.root_of (entries_view package_view packages.now.entries) (Some id.now)) }
{
    let _known = package_at(alloc, packages, Place::Resolve, "root", id)?;
    Ok(Some(id))
}

/// Returns the id of the package in whose folder the document was made, if it is one.
#[tactic(auto, unfolding(crate::specs::Leads::root_in))]
fn root_in<'v>(
    alloc: Global,
    packages: &Packages<'v>,
    document: &Value<'v>,
) -> Result<Option<&'v str>, DocumentFault>
    ensures { Gives lead_view result (spec.root_in (entries_view package_view packages.now.entries) (value_view document.now)) }
{
    let resolve = resolve_in(document)?;
    match optional_text_in(resolve, Place::Resolve, "root")? {
        Some(id) => known_root(alloc, packages, id),
        None => Ok(None),
    }
}

/// Reads what a document says beside its packages.
#[tactic(auto, unfolding(crate::specs::Leads::links_in))]
fn links_in<'v>(
    alloc: Global,
    packages: &Packages<'v>,
    document: &Value<'v>,
) -> Result<Links<'v>, DocumentFault>
    ensures { Gives links_view result (spec.links_in (entries_view package_view packages.now.entries) (value_view document.now)) }
{
    let resolved = resolved_in(alloc, packages, document)?;
    let default_members = members_in(alloc, packages, document, "workspace_default_members")?;
    let root = root_in(alloc, packages, document)?;
    let absent = Node::new(alloc);
    let leads = all_leads(alloc, packages, &resolved.nodes, &absent)?;
    Ok(Links {
        members: resolved.members,
        default_members,
        root,
        leads,
    })
}

/// Returns `packages` with what `document` says beside them.
fn with_links<'v>(
    alloc: Global,
    packages: Packages<'v>,
    document: &Value<'v>,
) -> Result<Described<'v>, DocumentFault>
    ensures { Gives described_view result (spec.with_links (entries_view package_view packages.entry.entries) (value_view document.now)) }
{
    let links = links_in(alloc, &packages, document)?;
    Ok(Described { packages, links })
}

/// Reads the workspace that `document` describes. Its texts are those of the document.
///
/// The error is the first fault of the packages, the members, the nodes, the default members, the root and then of where
/// declarations lead, package by package in the order of their ids; or that memory ran out.
#[tactic(auto, unfolding(crate::specs::Leads::described_in, crate::specs::Packages::packages_in))]
pub fn described_in<'v>(alloc: Global, document: Value<'v>) -> Result<Described<'v>, DocumentFault>
    ensures described { Gives described_view result (spec.described_in (value_view document.entry)) }
    ensures rules { IfOk result (λ described. IsDescribed (described_view described)) }
{
    let (listed, rest) = parts_of(alloc, document)?;
    let packages = packages_of(alloc, listed)?;
    with_links(alloc, packages, &rest)
}
