//! Resolves a query with a visitor, which decides whether a conditional link is followed.
ghost use Rattle.std.specs.Prelude.{◌≡◌, IsTrue, IfOk, IfErr, OnErr, length};
ghost use Rattle.digraphs.specs.Bits.{has};
ghost use Rattle.feature_core.specs.Nodes.{nodes};
ghost use Rattle.walk_engine.specs.Walks.{IsWalk, LegalRun, MayAsk};
ghost use Rattle.feature_graph.specs.ByClosure.{closure_can, closure_gives};
ghost use Rattle.feature_graph.specs.LinkValues.{has_facts};
ghost use Rattle.feature_graph.specs.Visits.{query_content, offered, showable, shown};

use crate::link::ConditionalLink;
use crate::query::FeatureQuery;
use crate::query::context::FeatureLinkContext;
use crate::query::visitor::{FeatureLinkVisitor, LinkVisitorFn};
use crate::set::FeatureSet;
use digraphs::IxBitSet;
use feature_core::graph_laws::offers_are_links;
use feature_core::{Error, Packed};
use std::alloc::{AllocError, Global};
use walk_engine::{Half, Offerer, walk_over};

/// An adapter that shows each offer of a walk to a visitor, as a link.
#[derive(Drop)]
pub(crate) struct Shown<'c, 'g, 'v, V> {
    pub(crate) cx: &'c FeatureLinkContext<'g>,
    pub(crate) visitor: &'v mut V,
}

impl<'c, 'g, 'v, V: FeatureLinkVisitor<'g>> Offerer for Shown<'c, 'g, 'v, V> {
    ghost can_offer = { λ s e h. IsTrue (has_facts (offered s.cx.now.graph e h)) × showable V.can_visit s.cx.now s.visitor.now e h };

    ghost gives = { λ s e h answer t. (t.cx ≡ s.cx) × (t.visitor.ghost_name ≡ s.visitor.ghost_name) × shown V.visit_gives s.cx.now s.visitor.now e h answer t.visitor.now };

    fn offer(&mut self, edge: usize, half: Half) -> bool {
        let link = ConditionalLink::new(*self.cx.query().graph(), edge, half);
        self.visitor.visit_link(self.cx, link)
    }
}

/// Walks over the edges of the query's graph with the visitor of `adapter`, and returns the members.
fn walk_shown<'c, 'g, 'v, V: FeatureLinkVisitor<'g>>(
    alloc: Global,
    adapter: &mut Shown<'c, 'g, 'v, V>,
) -> Result<IxBitSet, AllocError>
    requires { MayAsk (showable V.can_visit adapter.old.cx.now) (shown V.visit_gives adapter.old.cx.now)
        (query_content adapter.old.cx.now) adapter.old.visitor.now }
    ensures same_reference { adapter.new.visitor.ghost_name ≡ adapter.old.visitor.ghost_name }
    ensures size { IfOk result (λ members. length members ≡ length (nodes adapter.old.cx.now.graph.tables)) }
    ensures walk { IfOk result (λ members. IsWalk (query_content adapter.old.cx.now) (has adapter.old.cx.now.initials)
        (shown V.visit_gives adapter.old.cx.now) adapter.old.visitor.now adapter.new.visitor.now (has members)) }
    ensures run { OnErr result (LegalRun (query_content adapter.old.cx.now) (has adapter.old.cx.now.initials)
        (shown V.visit_gives adapter.old.cx.now) adapter.old.visitor.now adapter.new.visitor.now) }
{
    let query = adapter.cx.query();
    let graph = query.graph();
    offers_are_links(graph.graph);
    let initials = query.initials().members();
    let mut source = Packed::new(graph.built, query.direction());
    let walk = walk_over(alloc, &mut source, initials, adapter)?;
    Ok(walk.members)
}

impl<'g> FeatureQuery<'g> {
    /// Returns the features reachable from the initial ones over unconditional edges and accepted links, including the
    /// initial ones.
    ///
    /// The visitor sees each link that is due once, and no other link. A link is due once its start, in the query's
    /// direction, is reached. In a forward query, the optional half of a weak edge also waits for its gate. The calls
    /// are a complete legal run, and the result is the least set for the accepted links. `Memory` is the only error;
    /// the calls of `visitor` up to it are a legal run.
    pub fn resolve_with<V: FeatureLinkVisitor<'g>>(
        self,
        alloc: Global,
        visitor: &mut V,
    ) -> Result<FeatureSet<'g>, Error<'g>>
        requires { MayAsk (showable V.can_visit self) (shown V.visit_gives self) (query_content self) visitor.old }
        ensures graph { IfOk result (λ set. set.graph ≡ self.entry.graph) }
        ensures walk { IfOk result (λ set. IsWalk (query_content self.entry) (has self.entry.initials)
            (shown V.visit_gives self.entry) visitor.old visitor.new (has set.members)) }
        ensures run { OnErr result (LegalRun (query_content self.entry) (has self.entry.initials)
            (shown V.visit_gives self.entry) visitor.old visitor.new) }
        ensures refused { IfErr result (λ e. e ≡ Error.Memory) }
    {
        let graph = *self.graph();
        let cx = FeatureLinkContext::new(self);
        let mut adapter = Shown { cx: &cx, visitor };
        let members = walk_shown(alloc, &mut adapter)?;
        Ok(FeatureSet::new(graph, members))
    }

    /// Resolves the query with the closure `f` as the visitor, as `resolve_with` does.
    pub fn resolve_with_fn<F: FnMut(&FeatureLinkContext<'g>, ConditionalLink<'g>) -> bool>(
        self,
        alloc: Global,
        f: &mut F,
    ) -> Result<FeatureSet<'g>, Error<'g>>
        requires { MayAsk (showable (closure_can F.pre) self) (shown (closure_gives F.step) self) (query_content self) f.old }
        ensures graph { IfOk result (λ set. set.graph ≡ self.entry.graph) }
        ensures walk { IfOk result (λ set. IsWalk (query_content self.entry) (has self.entry.initials)
            (shown (closure_gives F.step) self.entry) f.old f.new (has set.members)) }
        ensures run { OnErr result (LegalRun (query_content self.entry) (has self.entry.initials)
            (shown (closure_gives F.step) self.entry) f.old f.new) }
        ensures refused { IfErr result (λ e. e ≡ Error.Memory) }
    {
        let mut visitor = LinkVisitorFn { f };
        resolve_closure(self, alloc, &mut visitor)
    }
}

/// Resolves the query with the closure in `visitor`.
fn resolve_closure<'f, 'g, F: FnMut(&FeatureLinkContext<'g>, ConditionalLink<'g>) -> bool>(
    query: FeatureQuery<'g>,
    alloc: Global,
    visitor: &mut LinkVisitorFn<'f, F>,
) -> Result<FeatureSet<'g>, Error<'g>>
    requires { MayAsk (showable (closure_can F.pre) query) (shown (closure_gives F.step) query) (query_content query) visitor.old.f.now }
    ensures same_reference { visitor.new.f.ghost_name ≡ visitor.old.f.ghost_name }
    ensures graph { IfOk result (λ set. set.graph ≡ query.entry.graph) }
    ensures walk { IfOk result (λ set. IsWalk (query_content query.entry) (has query.entry.initials)
        (shown (closure_gives F.step) query.entry) visitor.old.f.now visitor.new.f.now (has set.members)) }
    ensures run { OnErr result (LegalRun (query_content query.entry) (has query.entry.initials)
        (shown (closure_gives F.step) query.entry) visitor.old.f.now visitor.new.f.now) }
    ensures refused { IfErr result (λ e. e ≡ Error.Memory) }
{
    query.resolve_with(alloc, visitor)
}
