//! Comparing feature graph data with a build of a package graph.
ghost use Rattle.std.specs.Prelude.{◌≡◌, ◌↔◌, ℕ, IfOk, IfErr, IsTrue, map};
ghost use Rattle.feature_core.specs.Built.{IsBuilt, pairs_of};
ghost use Rattle.feature_edges.specs.feature_links.Values.{link_facts, half_facts, weak_facts_of, weak_link_of, edge_facts};
ghost use Rattle.feature_edges.specs.Warnings.{warning_of};
ghost use Rattle.feature_edges.specs.guppy_packages.Platform.{spec_text, status_of};

use crate::data::FeatureGraphData;
use crate::error::Error;
use crate::laws::warning_equality;
use digraphs::{Digraph, Edge};
use feature_edges::{
    ConditionalLinkImpl, EdgeList, EnabledLink, FeatureEdge, FeatureGraphWarning, PackageGraph,
    PlatformStatus, Spec, WeakSlashImpl,
};
use indexmap::IndexMap;
use std::alloc::Global;

/// Returns whether `a` and `b` have the same text.
fn same_spec(a: &Spec, b: &Spec) -> bool
    ensures { IsTrue result ↔ (spec_text a.now ≡ spec_text b.now) }
{
    a.text() == b.text()
}

/// Returns whether `a` and `b` have the same texts, in the same order.
fn same_specs(a: &[Spec], b: &[Spec]) -> bool
    ensures { IsTrue result ↔ (map spec_text a.now ≡ map spec_text b.now) }
{
    if a.len() != b.len() {
        return false;
    }
    for ix in 0..a.len() {
        if !same_spec(&a[ix], &b[ix]) {
            return false;
        }
    }
    true
}

/// Returns whether `a` and `b` are the same status, with the same specs.
fn same_status(a: PlatformStatus<'_>, b: PlatformStatus<'_>) -> bool
    ensures { IsTrue result ↔ (status_of a.entry ≡ status_of b.entry) }
{
    match (a, b) {
        (PlatformStatus::Never, PlatformStatus::Never) => true,
        (PlatformStatus::Always, PlatformStatus::Always) => true,
        (PlatformStatus::PlatformDependent(a), PlatformStatus::PlatformDependent(b)) => {
            same_specs(a, b)
        }
        _ => false,
    }
}

/// Returns whether `a` and `b` are equal links.
fn same_link(a: &ConditionalLinkImpl, b: &ConditionalLinkImpl) -> bool
    ensures { IsTrue result ↔ (link_facts a.now ≡ link_facts b.now) }
{
    a.declarations() == b.declarations()
        && same_status(a.normal(), b.normal())
        && same_status(a.build(), b.build())
        && same_status(a.dev(), b.dev())
        && a.package_link_ixs() == b.package_link_ixs()
}

/// Returns whether `a` and `b` are equal halves.
fn same_half(a: &EnabledLink, b: &EnabledLink) -> bool
    ensures { IsTrue result ↔ (half_facts a.now ≡ half_facts b.now) }
{
    match (a.get(), b.get()) {
        (Some(a), Some(b)) => same_link(a, b),
        (None, None) => true,
        _ => false,
    }
}

/// Returns whether `a` and `b` have equal halves and indices.
fn same_halves(a: &WeakSlashImpl, b: &WeakSlashImpl) -> bool
    ensures { IsTrue result ↔ (weak_facts_of a.now ≡ weak_facts_of b.now) }
{
    a.index() == b.index()
        && same_half(a.required(), b.required())
        && same_half(a.optional(), b.optional())
}

/// Returns whether `a` and `b` are equal weak edges.
fn same_weak(a: &WeakSlashImpl, b: &WeakSlashImpl) -> bool
    ensures { IsTrue result ↔ ((weak_link_of a.now ≡ weak_link_of b.now) × (weak_facts_of a.now ≡ weak_facts_of b.now)) }
{
    same_link(a.link(), b.link()) && same_halves(a, b)
}

/// Returns whether `a` and `b` are equal edges.
pub(crate) fn same_edge(a: &FeatureEdge, b: &FeatureEdge) -> bool
    ensures { IsTrue result ↔ (edge_facts a.now ≡ edge_facts b.now) }
{
    match (a, b) {
        (FeatureEdge::FeatureToBase, FeatureEdge::FeatureToBase) => true,
        (FeatureEdge::NamedFeature, FeatureEdge::NamedFeature) => true,
        (FeatureEdge::DependenciesSection(a), FeatureEdge::DependenciesSection(b)) => {
            same_link(a, b)
        }
        (FeatureEdge::NamedFeatureDepColon(a), FeatureEdge::NamedFeatureDepColon(b)) => {
            same_link(a, b)
        }
        (FeatureEdge::NamedFeatureWithSlash(a), FeatureEdge::NamedFeatureWithSlash(b)) => {
            same_link(a, b)
        }
        (FeatureEdge::NamedFeatureWithWeakSlash(a), FeatureEdge::NamedFeatureWithWeakSlash(b)) =>
            same_weak(a, b),
        _ => false,
    }
}

/// Returns whether `a` and `b` are equal lists of edges.
pub(crate) fn same_edges(a: &EdgeList, b: &EdgeList) -> bool
    ensures { IsTrue result ↔ (a.now ≡ b.now) }
{
    if a.len() != b.len() {
        return false;
    }
    for ix in 0..a.len() {
        let one = a.get(ix);
        let other = b.get(ix);
        if !same_edge(one, other) {
            return false;
        }
    }
    true
}

/// Returns whether `a` and `b` have the same ends.
fn same_ends(a: Edge, b: Edge) -> bool
    ensures { IsTrue result ↔ ◌≡◌ {A = ℕ × ℕ} (a.from, a.to) (b.from, b.to) }
{
    a.from == b.from && a.to == b.to
}

/// Returns whether `a` and `b` are equal lists of numbers.
pub(crate) fn same_numbers(a: &[u32], b: &[u32]) -> bool
    ensures { IsTrue result ↔ (a.now ≡ b.now) }
{
    a == b
}

/// Returns whether the edges of `a` and `b` have the same ends, in the same order.
pub(crate) fn same_pairs(a: &Digraph, b: &Digraph) -> bool
    ensures { IsTrue result ↔ (pairs_of a.now.edges ≡ pairs_of b.now.edges) }
{
    if a.edge_count() != b.edge_count() {
        return false;
    }
    for ix in 0..a.edge_count() {
        let one = a.edge(ix);
        let other = b.edge(ix);
        if !same_ends(one, other) {
            return false;
        }
    }
    true
}

/// Returns whether `a` and `b` are equal lists of warnings.
pub(crate) fn same_warnings(a: &[FeatureGraphWarning], b: &[FeatureGraphWarning]) -> bool
    ensures { IsTrue result ↔ (map warning_of a.now ≡ map warning_of b.now) }
{
    if a.len() != b.len() {
        return false;
    }
    for ix in 0..a.len() {
        if !warning_equality(&a[ix], &b[ix]) {
            return false;
        }
    }
    true
}

/// Returns whether `a` and `b` are the same weak links with the same gates, in the same order.
pub(crate) fn same_gates(a: &IndexMap<usize, usize>, b: &IndexMap<usize, usize>) -> bool
    ensures { IsTrue result ↔ (a.now.entries ≡ b.now.entries) }
{
    let own = a.as_slice();
    let others = b.as_slice();
    own == others
}

impl FeatureGraphData {
    /// Returns whether the data equals a build of `graph` under its own stamp. `Memory` is the only error.
    pub fn is_built_from(&self, alloc: Global, graph: &PackageGraph) -> Result<bool, Error<'static>>
        ensures answer { IfOk result (λ same. IsTrue same ↔ IsBuilt graph.now self.now) }
        ensures refused { IfErr result (λ e. e ≡ Error.Memory) }
    {
        let made = FeatureGraphData::build(alloc, graph, self.stamp())?;
        graph.facts();
        Ok(made.is_same(self))
    }
}
