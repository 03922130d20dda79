//! Links between features.
ghost use Rattle.std.specs.Prelude.{◌≡◌, ◌↔◌, ◌<◌, Some, IsTrue, length};
ghost use Rattle.std.specs.Option.{option_map};
ghost use Rattle.guppy_packages.specs.Platform.{status_of};
ghost use Rattle.feature_core.specs.Built.{NodeNamed};
ghost use Rattle.feature_links.specs.Facts.{is_dev_link};
ghost use Rattle.feature_core.specs.Nodes.{nodes};
ghost use Rattle.feature_links.specs.Values.{link_facts};
ghost use Rattle.feature_graph.specs.LinkValues.{has_facts, facts_of, from_name, to_name, status_for, numbered_links};
ghost use Rattle.feature_graph.specs.Views.{graph_of, tables_of_graph, feature_name_of, feature_tables_of};

pub(crate) mod package_links;

use crate::graph::FeatureGraph;
use crate::graph::metadata::FeatureMetadata;
use crate::link::package_links::PackageLinks;
use feature_core::ConditionalLinkImpl;
use feature_core::graph_laws::{content_of_graph, link_numbers};
use feature_labels::LinkDeclarations;
use guppy_packages::{DependencyKind, PlatformStatus};
use std::fmt;
use walk_engine::Half;

/// Returns the feature of `node`.
pub(crate) fn feature_at<'g>(graph: FeatureGraph<'g>, node: usize) -> FeatureMetadata<'g>
    requires { node < length (nodes (tables_of_graph graph)) }
    ensures name { NodeNamed (tables_of_graph graph.entry) node (feature_name_of result) }
    ensures tables { feature_tables_of result ≡ tables_of_graph graph.entry }
{
    let id = graph.built.id(graph.graph, node);
    let package = graph.graph.package(graph.built.package_of(node));
    FeatureMetadata {
        package,
        label: id.label(),
    }
}

/// A conditional link from a feature to a feature that it turns on, depending on the platform and the dependency kind.
/// It is the full link of a conditional edge, or one half of a weak edge. A contract sees it as its graph, the number
/// of its edge and the half.
#[derive(Clone, Copy)]
pub struct ConditionalLink<'g> {
    graph: FeatureGraph<'g>,
    edge: usize,
    half: Half,
    pub ghost stands: { IsTrue (has_facts (record { graph = graph_of graph; edge = edge; half = half })) },
}

impl<'g> ConditionalLink<'g> {
    ghost use Rattle.feature_graph.specs.LinkViews.{link_of};

    /// Returns the link of an edge of the graph: the full link, or a half.
    pub(crate) fn new(graph: FeatureGraph<'g>, edge: usize, half: Half) -> Self
        requires { IsTrue (has_facts (record { graph = graph_of graph; edge = edge; half = half })) }
        ensures { link_of result ≡ record { graph = graph_of graph.entry; edge = edge; half = half } }
    {
        ConditionalLink { graph, edge, half }
    }

    /// Returns the facts of the link, as its edge has them.
    fn facts(&self) -> &'g ConditionalLinkImpl
        ensures { facts_of (link_of self.now) ≡ Some (link_facts result.now) }
    {
        let (_, _, edge) = self.graph.built.edge(self.edge);
        match edge.link(self.half) {
            Some(link) => link,
            None => unreachable!(),
        }
    }

    /// Returns the feature that the link leads from.
    pub fn from(&self) -> FeatureMetadata<'g>
        ensures name { from_name (link_of self.now) ≡ Some (feature_name_of result) }
        ensures tables { feature_tables_of result ≡ (link_of self.now).graph.tables }
    {
        content_of_graph(self.graph.graph);
        let (from, _, _) = self.graph.built.edge(self.edge);
        feature_at(self.graph, from)
    }

    /// Returns the feature that the link leads to.
    pub fn to(&self) -> FeatureMetadata<'g>
        ensures name { to_name (link_of self.now) ≡ Some (feature_name_of result) }
        ensures tables { feature_tables_of result ≡ (link_of self.now).graph.tables }
    {
        content_of_graph(self.graph.graph);
        let (_, to, _) = self.graph.built.edge(self.edge);
        feature_at(self.graph, to)
    }

    /// Returns the features that the link leads from and to.
    pub fn endpoints(&self) -> (FeatureMetadata<'g>, FeatureMetadata<'g>)
        ensures from { from_name (link_of self.now) ≡ Some (feature_name_of result.0) }
        ensures to { to_name (link_of self.now) ≡ Some (feature_name_of result.1) }
        ensures from_tables { feature_tables_of result.0 ≡ (link_of self.now).graph.tables }
        ensures to_tables { feature_tables_of result.1 ≡ (link_of self.now).graph.tables }
    {
        (self.from(), self.to())
    }

    /// Returns the platform status of the covered declarations for normal use.
    pub fn normal(&self) -> PlatformStatus<'g>
        ensures { option_map (λ facts. facts.normal) (facts_of (link_of self.now)) ≡ Some (status_of result) }
    {
        self.facts().normal()
    }

    /// Returns the platform status of the covered declarations for build scripts.
    pub fn build(&self) -> PlatformStatus<'g>
        ensures { option_map (λ facts. facts.build) (facts_of (link_of self.now)) ≡ Some (status_of result) }
    {
        self.facts().build()
    }

    /// Returns the platform status of the covered declarations for development.
    pub fn dev(&self) -> PlatformStatus<'g>
        ensures { option_map (λ facts. facts.dev) (facts_of (link_of self.now)) ≡ Some (status_of result) }
    {
        self.facts().dev()
    }

    /// Returns the platform status of the covered declarations of this kind.
    pub fn status_for_kind(&self, kind: DependencyKind) -> PlatformStatus<'g>
        ensures { option_map (status_for kind) (facts_of (link_of self.now)) ≡ Some (status_of result) }
    {
        match kind {
            DependencyKind::Normal => self.normal(),
            DependencyKind::Build => self.build(),
            DependencyKind::Development => self.dev(),
        }
    }

    /// Returns true if no covered declaration is for normal use or for build scripts.
    pub fn dev_only(&self) -> bool
        ensures { option_map is_dev_link (facts_of (link_of self.now)) ≡ Some result }
    {
        self.normal().is_never() && self.build().is_never()
    }

    /// Returns the declarations that the link covers: all of the dependency, or those of a half.
    pub fn declarations(&self) -> LinkDeclarations
        ensures { option_map (λ facts. facts.declarations) (facts_of (link_of self.now)) ≡ Some result }
    {
        self.facts().declarations()
    }

    /// Returns the package links that have one of the covered declarations, by ascending number.
    pub fn package_links(&self) -> PackageLinks<'g>
        ensures { option_map (λ facts. numbered_links (link_of self.now).graph.tables facts.package_links) (facts_of (link_of self.now)) ≡ Some result }
    {
        link_numbers(self.graph.graph);
        PackageLinks::new(self.graph.graph, self.facts().package_link_ixs())
    }
}

impl fmt::Debug for ConditionalLink<'_> {
    fn fmt<W: fmt::Write>(&self, f: &mut fmt::Formatter<W>) -> fmt::Result {
        f.debug_struct("ConditionalLink")
            .field("from", &self.from())
            .field("to", &self.to())
            .field("declarations", &self.declarations())
            .field("normal", &self.normal())
            .field("build", &self.build())
            .field("dev", &self.dev())
            .finish()
    }
}
