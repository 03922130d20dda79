//! The description of a feature graph as bytes.
ghost use Rattle.std.specs.Prelude.{◌≡◌, ◌++◌, ℕ, List, OnOk, map};
ghost use Rattle.feature_graph_c.specs.binary.Records.{flag, list, number};
ghost use Rattle.feature_core.specs.Built.{IsBuilt};
ghost use Rattle.feature_core.specs.BuiltOnce.{is_built-prop};
ghost use Rattle.feature_graph_c.specs.records.Descriptions.{Describes};
ghost use Rattle.feature_graph_c.specs.records.Edges.{edge_record, warning_record, weak_record};
ghost use Rattle.feature_graph_c.specs.records.Packages.{link_record, package_record};

use crate::binary::{Entries, Numbers, push_flag, push_list, push_number};
use crate::records::edges::{Edges, Warnings, WeakLinks};
use crate::records::packages::{Links, Packages};
use feature_core::FeatureGraphData;
use guppy_packages::PackageGraph;
use std::alloc::{AllocError, Global};

/// The first node of each package of a feature graph.
#[derive(Clone, Copy)]
struct FirstNodes<'a> {
    graph: &'a PackageGraph,
    built: &'a FeatureGraphData,
    ghost is_built: { IsBuilt graph.now built.now } by { is_built-prop graph.now built.now },
}

impl Entries for FirstNodes<'_> {
    ghost entries = { λ first. map number first.built.now.firsts };

    #[tactic(auto, using(crate::proofs::NodeLemmas::first_records))]
    fn count(&self) -> usize {
        self.graph.package_count()
    }

    #[tactic(auto, using(crate::proofs::EntryLemmas::entry_of, crate::proofs::NodeLemmas::first_count))]
    fn push(&self, at: usize, bytes: &mut Vec<u8>) -> Result<(), AllocError> {
        push_number(bytes, self.built.first_node(at))
    }
}

/// Whether each node of a feature graph is on by default.
#[derive(Clone, Copy)]
struct Defaults<'a> {
    graph: &'a PackageGraph,
    built: &'a FeatureGraphData,
    ghost is_built: { IsBuilt graph.now built.now } by { is_built-prop graph.now built.now },
}

impl Entries for Defaults<'_> {
    ghost entries = { λ defaults. map flag defaults.built.now.defaults };

    #[tactic(auto, using(crate::proofs::NodeLemmas::mark_records))]
    fn count(&self) -> usize {
        self.built.node_count()
    }

    #[tactic(auto, using(crate::proofs::NodeLemmas::mark_at, crate::proofs::NodeLemmas::mark_records))]
    fn push(&self, at: usize, bytes: &mut Vec<u8>) -> Result<(), AllocError> {
        push_flag(bytes, self.built.is_default(at))
    }
}

/// Appends the packages of `graph` and their links.
fn push_packages(bytes: &mut Vec<u8>, graph: &PackageGraph) -> Result<(), AllocError>
    ensures { OnOk result (bytes.new.items ≡ bytes.old.items ++ (list package_record graph.now.packages ++ list link_record graph.now.links)) }
{
    push_list(bytes, &Packages(graph))?;
    push_list(bytes, &Links(graph))
}

/// Appends the edges of `built`, with the weak links and the warnings.
fn push_edges(bytes: &mut Vec<u8>, built: &FeatureGraphData) -> Result<(), AllocError>
    ensures { OnOk result (bytes.new.items ≡ bytes.old.items ++ (list edge_record built.now.edges ++ list weak_record built.now.weak ++ list warning_record built.now.warnings)) }
{
    push_list(bytes, &Edges(built))?;
    push_list(bytes, &WeakLinks(built.weak_links()))?;
    push_list(bytes, &Warnings(built.warnings()))
}

/// Appends the first node of each package.
fn push_first_nodes(
    bytes: &mut Vec<u8>,
    graph: &PackageGraph,
    built: &FeatureGraphData,
) -> Result<(), AllocError>
    requires { IsBuilt graph.now built.now }
    ensures { OnOk result (bytes.new.items ≡ bytes.old.items ++ list number built.now.firsts) }
{
    push_list(bytes, &FirstNodes { graph, built })
}

/// Appends whether each node is on by default.
fn push_defaults(
    bytes: &mut Vec<u8>,
    graph: &PackageGraph,
    built: &FeatureGraphData,
) -> Result<(), AllocError>
    requires { IsBuilt graph.now built.now }
    ensures { OnOk result (bytes.new.items ≡ bytes.old.items ++ list flag built.now.defaults) }
{
    push_list(bytes, &Defaults { graph, built })
}

/// Appends the description of the feature graph `built` of `graph`.
pub fn push_description(
    bytes: &mut Vec<u8>,
    graph: &PackageGraph,
    built: &FeatureGraphData,
) -> Result<(), AllocError>
    requires { IsBuilt graph.now built.now }
    ensures { OnOk result ((description : List ℕ) × Describes graph.now built.now description × (bytes.new.items ≡ bytes.old.items ++ description)) }
{
    push_packages(bytes, graph)?;
    push_first_nodes(bytes, graph, built)?;
    push_edges(bytes, built)?;
    push_defaults(bytes, graph, built)?;
    push_list(bytes, &Numbers(graph.order().list()))
}
