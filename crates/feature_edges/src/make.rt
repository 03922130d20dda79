//! The edge of a key.
ghost use Rattle.std.specs.Prelude.{◌≡◌, ◌==◌, ◌++◌, ◌<◌, ◌⊎◌, ℕ, Contains, IfOk, List, length, map, position};
ghost use Rattle.std.specs.Option.{option_map_or};
ghost use Rattle.indexmap.specs.IndexMap.{keys};
ghost use Rattle.std.specs.List.{dedup};
ghost use Rattle.std.proofs.Common.{eqb};
ghost use Rattle.guppy_packages.specs.Rows.{Text};
ghost use Rattle.feature_labels.specs.Names.LabelName.{base, named, optional};
ghost use Rattle.feature_links.specs.Links.{by_name};
ghost use Rattle.feature_edges.specs.inner.Made.{IsMaterial, IsRun, IsValueOf};
ghost use Rattle.feature_edges.specs.Nodes.{NodeAt};
ghost use Rattle.feature_edges.specs.inner.Parts.{IsOfTables};
ghost use Rattle.feature_links.specs.Values.{link_facts, edge_facts, weak_number};

use crate::candidate::{CandidateKind, Key};
use crate::node_numbers::{Numbers, label_at};
use feature_labels::{FeatureLabel, LinkDeclarations};
use feature_links::{
    ConditionalLinkImpl, FeatureEdge, LinkGroups, SharedStatuses, WeakIndex, WeakSlashImpl,
    half_of, link_of, named_link, section_link,
};
use indexmap::IndexMap;
use std::alloc::{AllocError, Global};

/// The input for edges: the numbers of nodes, the package of each node, the links by package and name, statuses that links
/// share, the node of each package's feature `default`, and the gate of each package link.
#[derive(Clone, Copy)]
pub(crate) struct Material<'a, 'g> {
    pub(crate) numbers: Numbers<'g>,
    pub(crate) packages: &'a [u32],
    pub(crate) groups: &'a LinkGroups<'g>,
    pub(crate) statuses: &'a SharedStatuses,
    pub(crate) defaults: &'a [u32],
    pub(crate) gates: &'a [u32],
}

/// Returns the name of node `ix`, which is no base.
fn name_at<'g>(material: Material<'_, 'g>, ix: usize) -> &'g str
    requires material { IsMaterial material }
    requires named { (p : ℕ) × (d : Text) × (NodeAt material.numbers.graph.now ix p (optional d) ⊎ NodeAt material.numbers.graph.now ix p (named d)) }
    ensures { (p : ℕ) (d : Text) → NodeAt material.entry.numbers.graph.now ix p (optional d) ⊎ NodeAt material.entry.numbers.graph.now ix p (named d) → result.now ≡ d }
{
    match label_at(
        material.numbers.graph,
        material.numbers.firsts,
        material.packages,
        ix,
    ) {
        FeatureLabel::Base => unreachable!(),
        FeatureLabel::Named(name) | FeatureLabel::OptionalDependency(name) => name,
    }
}

/// Returns the union of the links of a package under the name of its node `ix`.
fn link_to(
    alloc: Global,
    material: Material<'_, '_>,
    ix: usize,
    which: LinkDeclarations,
) -> Result<ConditionalLinkImpl, AllocError>
    requires material { IsMaterial material }
    requires named { (p : ℕ) × (d : Text) × (NodeAt material.numbers.graph.now ix p (optional d) ⊎ NodeAt material.numbers.graph.now ix p (named d)) }
    ensures { IfOk result (λ l. (p : ℕ) (d : Text) → NodeAt material.entry.numbers.graph.now ix p (optional d) ⊎ NodeAt material.entry.numbers.graph.now ix p (named d) → link_facts l ≡ by_name material.entry.numbers.graph.now p which d) }
{
    let name = name_at(material, ix);
    let package_ix = material.packages[ix] as usize;
    named_link(
        alloc,
        material.numbers.graph,
        material.groups,
        material.statuses,
        package_ix,
        name,
        which,
    )
}

/// Returns the `place` of each key.
fn places_of(alloc: Global, keys: &[Key]) -> Result<Vec<usize>, AllocError>
    ensures { IfOk result (λ places. places.items ≡ map (λ y. y.place) keys.now) }
{
    let mut places = Vec::with_capacity(alloc, keys.len())?;
    for key in keys {
        places.push(key.place as usize)?;
    }
    Ok(places)
}

/// Returns the places of the declarations in a run of keys of one pair, ascending.
fn places_in(alloc: Global, run: &[Key]) -> Result<Vec<usize>, AllocError>
    ensures { IfOk result (λ places. places.items ≡ dedup eqb (map (λ y. y.place) run.now)) }
{
    let mut places = places_of(alloc, run)?;
    places.dedup();
    Ok(places)
}

/// Returns the declarations of a link that lead from node `ix` of its source: the required ones from the base, the optional ones
/// from an optional dependency.
fn half_from(material: Material<'_, '_>, ix: usize) -> LinkDeclarations
    requires material { IsMaterial material }
    requires node { ix < length material.packages.now }
    ensures required { (p : ℕ) → NodeAt material.entry.numbers.graph.now ix p base → result ≡ LinkDeclarations.Required }
    ensures optional { (p : ℕ) (d : Text) → NodeAt material.entry.numbers.graph.now ix p (optional d) → result ≡ LinkDeclarations.Optional }
{
    match label_at(
        material.numbers.graph,
        material.numbers.firsts,
        material.packages,
        ix,
    ) {
        FeatureLabel::Base => LinkDeclarations::Required,
        FeatureLabel::Named(_) | FeatureLabel::OptionalDependency(_) => LinkDeclarations::Optional,
    }
}

/// Returns the index of package link `link_ix` among the weak links.
fn index_in(weak: &IndexMap<usize, usize>, link_ix: usize) -> WeakIndex
    ensures { weak_number result ≡ option_map_or (λ i. i) (position (λ j. link_ix == j) (keys weak.now)) 0 }
{
    match weak.get_index_of(&link_ix) {
        Some(index) => WeakIndex::new(index),
        None => WeakIndex::new(0),
    }
}

/// Returns the edge of an item `dep:d`.
fn colon_edge(
    alloc: Global,
    material: Material<'_, '_>,
    key: Key,
) -> Result<FeatureEdge, AllocError>
    requires material { IsMaterial material }
    requires of_tables { IsOfTables material.numbers.graph.now key }
    requires kind { key.kind ≡ CandidateKind.DepColon }
    ensures { IfOk result (λ edge. (weak : List ℕ) → IsValueOf material.entry.numbers.graph.now weak key (edge_facts edge)) }
{
    material.numbers.graph.facts();
    let link = link_to(alloc, material, key.to as usize, LinkDeclarations::Unsplit)?;
    Ok(FeatureEdge::NamedFeatureDepColon(link))
}

/// Returns the edge of a strong item to the optional dependency, or to the feature of its name.
fn beside_edge(
    alloc: Global,
    material: Material<'_, '_>,
    key: Key,
) -> Result<FeatureEdge, AllocError>
    requires material { IsMaterial material }
    requires of_tables { IsOfTables material.numbers.graph.now key }
    requires kind { key.kind ≡ CandidateKind.SlashOptional }
    ensures { IfOk result (λ edge. (weak : List ℕ) → IsValueOf material.entry.numbers.graph.now weak key (edge_facts edge)) }
{
    material.numbers.graph.facts();
    let link = link_to(alloc, material, key.to as usize, LinkDeclarations::Optional)?;
    Ok(FeatureEdge::NamedFeatureWithSlash(link))
}

/// Returns the edge of an item over a package link, without halves.
fn full_edge(alloc: Global, material: Material<'_, '_>, key: Key) -> Result<FeatureEdge, AllocError>
    requires material { IsMaterial material }
    requires of_tables { IsOfTables material.numbers.graph.now key }
    requires kind { key.kind ≡ CandidateKind.SlashFull }
    ensures { IfOk result (λ edge. (weak : List ℕ) → IsValueOf material.entry.numbers.graph.now weak key (edge_facts edge)) }
{
    material.numbers.graph.facts();
    let link = link_of(
        alloc,
        material.numbers.graph,
        material.statuses,
        key.source as usize,
        LinkDeclarations::Unsplit,
    )?;
    Ok(FeatureEdge::NamedFeatureWithSlash(link))
}

/// Returns the edge of a weak item over a package link.
fn weak_edge(
    alloc: Global,
    material: Material<'_, '_>,
    table: &IndexMap<usize, usize>,
    key: Key,
) -> Result<FeatureEdge, AllocError>
    requires noted { Contains (keys table.now) key.source }
    requires material { IsMaterial material }
    requires of_tables { IsOfTables material.numbers.graph.now key }
    requires kind { key.kind ≡ CandidateKind.SlashWeak }
    ensures { IfOk result (λ edge. (rest : List ℕ) → IsValueOf material.entry.numbers.graph.now (keys table.now ++ rest) key (edge_facts edge)) }
{
    material.numbers.graph.facts();
    let link = link_of(
        alloc,
        material.numbers.graph,
        material.statuses,
        key.source as usize,
        LinkDeclarations::Unsplit,
    )?;
    let required = half_of(
        alloc,
        material.numbers.graph,
        material.statuses,
        key.source as usize,
        LinkDeclarations::Required,
    )?;
    let optional = half_of(
        alloc,
        material.numbers.graph,
        material.statuses,
        key.source as usize,
        LinkDeclarations::Optional,
    )?;
    let index = index_in(table, key.source as usize);
    let held = WeakSlashImpl::new(link, required, optional, index);
    let weak = Box::new(alloc, held)?;
    Ok(FeatureEdge::NamedFeatureWithWeakSlash(weak))
}

/// Returns the edge of the declarations that request a pair of nodes, whose keys are `run`. `places` are those of the declarations,
/// ascending.
fn section_edge_at(
    alloc: Global,
    material: Material<'_, '_>,
    key: Key,
    run: &[Key],
    places: &[usize],
) -> Result<FeatureEdge, AllocError>
    requires places { places.now ≡ dedup eqb (map (λ y. y.place) run.now) }
    requires material { IsMaterial material }
    requires of_tables { IsOfTables material.numbers.graph.now key }
    requires kind { key.kind ≡ CandidateKind.Section }
    requires run { IsRun material.numbers.graph.now key run.now }
    ensures { IfOk result (λ edge. (weak : List ℕ) → IsValueOf material.entry.numbers.graph.now weak key (edge_facts edge)) }
{
    material.numbers.graph.facts();
    let which = half_from(material, key.from as usize);
    let _keys = run.len();
    let link = section_link(
        alloc,
        material.numbers.graph,
        material.statuses,
        key.source as usize,
        which,
        places,
    )?;
    Ok(FeatureEdge::DependenciesSection(link))
}

/// Returns the edge of the declarations that request a pair of nodes, whose keys are `run`. A single declaration is not collected.
fn section_edge(
    alloc: Global,
    material: Material<'_, '_>,
    key: Key,
    run: &[Key],
) -> Result<FeatureEdge, AllocError>
    requires material { IsMaterial material }
    requires of_tables { IsOfTables material.numbers.graph.now key }
    requires kind { key.kind ≡ CandidateKind.Section }
    requires run { IsRun material.numbers.graph.now key run.now }
    ensures { IfOk result (λ edge. (weak : List ℕ) → IsValueOf material.entry.numbers.graph.now weak key (edge_facts edge)) }
{
    if let [only] = run {
        let places = [only.place as usize];
        return section_edge_at(alloc, material, key, run, &places);
    }
    let places = places_in(alloc, run)?;
    section_edge_at(alloc, material, key, run, places.as_slice())
}

/// Returns the edge of `key`, the first of the keys of its pair, `run`. If it is weak, its weak link is noted in `table`.
pub(crate) fn edge_of(
    alloc: Global,
    material: Material<'_, '_>,
    table: &IndexMap<usize, usize>,
    key: Key,
    run: &[Key],
) -> Result<FeatureEdge, AllocError>
    requires noted { key.kind ≡ CandidateKind.SlashWeak → Contains (keys table.now) key.source }
    requires run { IsRun material.numbers.graph.now key run.now }
    requires material { IsMaterial material }
    requires of_tables { IsOfTables material.numbers.graph.now key }
    ensures { IfOk result (λ edge. (rest : List ℕ) → IsValueOf material.entry.numbers.graph.now (keys table.now ++ rest) key (edge_facts edge)) }
{
    material.numbers.graph.facts();
    match key.kind {
        CandidateKind::FeatureToBase => Ok(FeatureEdge::FeatureToBase),
        CandidateKind::NamedFeature => Ok(FeatureEdge::NamedFeature),
        CandidateKind::DepColon => colon_edge(alloc, material, key),
        CandidateKind::SlashFull => full_edge(alloc, material, key),
        CandidateKind::SlashOptional => beside_edge(alloc, material, key),
        CandidateKind::SlashWeak => weak_edge(alloc, material, table, key),
        CandidateKind::Section => section_edge(alloc, material, key, run),
    }
}
