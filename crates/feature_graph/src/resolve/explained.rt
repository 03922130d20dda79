//! Resolves a query with a visitor, and explains the result.
ghost use Rattle.std.specs.Prelude.{◌≡◌, IfOk, IfErr, OnErr, length};
ghost use Rattle.digraphs.specs.Bits.{has};
ghost use Rattle.feature_core.specs.Nodes.{nodes};
ghost use Rattle.walk_engine.specs.Explanations.{IsExplainedWalk};
ghost use Rattle.walk_engine.specs.Walks.{LegalRun, MayAsk};
ghost use Rattle.feature_graph.specs.Views.{graph_of, tables_of_graph};
ghost use Rattle.feature_graph.specs.Visits.{query_content, showable, shown};
ghost use Rattle.feature_graph.specs.inner.Listings.{IsExplainedBy};

use crate::explain::Explained;
use crate::graph::FeatureGraph;
use crate::query::FeatureQuery;
use crate::query::context::FeatureLinkContext;
use crate::query::visitor::FeatureLinkVisitor;
use crate::resolve::with::Shown;
use crate::set::FeatureSet;
use digraphs::IxBitSet;
use feature_core::graph_laws::{content_of_graph, offers_are_links};
use feature_core::{Error, Packed};
use guppy_packages::DependencyDirection;
use std::alloc::{AllocError, Global};
use walk_engine::{Half, Step, walk_explained};

/// Walks over the edges of the query's graph with the visitor of `adapter`. Returns the members, their steps and the
/// refused offers.
fn walk_told<'c, 'g, 'v, V: FeatureLinkVisitor<'g>>(
    alloc: Global,
    adapter: &mut Shown<'c, 'g, 'v, V>,
) -> Result<(IxBitSet, Vec<Step>, Vec<(usize, Half)>), AllocError>
    requires { MayAsk (showable V.can_visit adapter.old.cx.now) (shown V.visit_gives adapter.old.cx.now)
        (query_content adapter.old.cx.now) adapter.old.visitor.now }
    ensures same_reference { adapter.new.visitor.ghost_name ≡ adapter.old.visitor.ghost_name }
    ensures initials { length adapter.old.cx.now.initials ≡ length (nodes adapter.old.cx.now.graph.tables) }
    ensures size { IfOk result (λ r. length r.0 ≡ length (nodes adapter.old.cx.now.graph.tables)) }
    ensures walk { IfOk result (λ r. IsExplainedWalk (query_content adapter.old.cx.now) (has adapter.old.cx.now.initials)
        (shown V.visit_gives adapter.old.cx.now) adapter.old.visitor.now adapter.new.visitor.now (has r.0) r.1.items r.2.items) }
    ensures run { OnErr result (LegalRun (query_content adapter.old.cx.now) (has adapter.old.cx.now.initials)
        (shown V.visit_gives adapter.old.cx.now) adapter.old.visitor.now adapter.new.visitor.now) }
{
    let query = adapter.cx.query();
    let graph = query.graph();
    offers_are_links(graph.graph);
    let initials = query.initials().members();
    let mut source = Packed::new(graph.built, query.direction());
    let (walk, steps, refused) = walk_explained(alloc, &mut source, initials, adapter)?;
    Ok((walk.members, steps, refused))
}

/// Returns the explained set of a walk, with ids in place of numbers.
fn explained<'g>(
    alloc: Global,
    graph: FeatureGraph<'g>,
    direction: DependencyDirection,
    walked: (IxBitSet, Vec<Step>, Vec<(usize, Half)>),
) -> Result<Explained<'g>, AllocError>
    requires size { length walked.0 ≡ length (nodes (tables_of_graph graph)) }
    requires run { IsExplainedBy (graph_of graph) direction (has walked.0) walked.1.items walked.2.items }
    ensures { IfOk result (λ x. x ≡ record { graph = graph_of graph.entry; direction = direction; members = walked.0; steps = walked.1.items; refused = walked.2.items }) }
{
    content_of_graph(graph.graph);
    offers_are_links(graph.graph);
    let (members, steps, refused) = walked;
    Explained::new(
        alloc,
        FeatureSet::new(graph, members),
        direction,
        steps,
        refused,
    )
}

impl<'g> FeatureQuery<'g> {
    /// Walks over the edges of the graph with `visitor`. Returns the members, their steps and the refused offers.
    fn walk_with<V: FeatureLinkVisitor<'g>>(
        self,
        alloc: Global,
        visitor: &mut V,
    ) -> Result<(IxBitSet, Vec<Step>, Vec<(usize, Half)>), Error<'g>>
        requires { MayAsk (showable V.can_visit self) (shown V.visit_gives self) (query_content self) visitor.old }
        ensures initials { length self.entry.initials ≡ length (nodes self.entry.graph.tables) }
        ensures size { IfOk result (λ r. length r.0 ≡ length (nodes self.entry.graph.tables)) }
        ensures walk { IfOk result (λ r. IsExplainedWalk (query_content self.entry) (has self.entry.initials)
            (shown V.visit_gives self.entry) visitor.old visitor.new (has r.0) r.1.items r.2.items) }
        ensures run { OnErr result (LegalRun (query_content self.entry) (has self.entry.initials)
            (shown V.visit_gives self.entry) visitor.old visitor.new) }
        ensures refused { IfErr result (λ e. e ≡ Error.Memory) }
    {
        let cx = FeatureLinkContext::new(self);
        let mut adapter = Shown { cx: &cx, visitor };
        let walked = walk_told(alloc, &mut adapter)?;
        Ok(walked)
    }

    /// Resolves the query as `resolve_with` does. Returns the set with the reason for each feature, and the refused
    /// links in the order of the run. `Memory` is the only error; the calls of `visitor` up to it are a legal run.
    pub fn resolve_explained<V: FeatureLinkVisitor<'g>>(
        self,
        alloc: Global,
        visitor: &mut V,
    ) -> Result<Explained<'g>, Error<'g>>
        requires { MayAsk (showable V.can_visit self) (shown V.visit_gives self) (query_content self) visitor.old }
        ensures graph { IfOk result (λ x. x.graph ≡ self.entry.graph) }
        ensures direction { IfOk result (λ x. x.direction ≡ self.entry.direction) }
        ensures walk { IfOk result (λ x. IsExplainedWalk (query_content self.entry) (has self.entry.initials)
            (shown V.visit_gives self.entry) visitor.old visitor.new (has x.members) x.steps x.refused) }
        ensures run { OnErr result (LegalRun (query_content self.entry) (has self.entry.initials)
            (shown V.visit_gives self.entry) visitor.old visitor.new) }
        ensures refused { IfErr result (λ e. e ≡ Error.Memory) }
    {
        let graph = *self.graph();
        let direction = self.direction();
        let walked = self.walk_with(alloc, visitor)?;
        let explained = explained(alloc, graph, direction, walked)?;
        Ok(explained)
    }
}
