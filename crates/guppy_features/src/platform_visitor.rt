//! A visitor that follows the links of one platform.
ghost use Rattle.std.specs.Prelude.{◌≡◌, ◌↔◌, ◌∷◌, [], ℕ, IsTrue, IfOk, IfErr, map};
ghost use Rattle.std.specs.List.{list_any};
ghost use Rattle.std.specs.Str.{bytes_eq};
ghost use Rattle.digraphs.specs.Bits.{has};
ghost use Rattle.guppy_packages.specs.Platform.{spec_text, status_of};
ghost use Rattle.walk_engine.specs.Explanations.{IsExplainedWalk, IsExplanation, nodes_of};
ghost use Rattle.walk_engine.specs.Walks.{Least, is_in};
ghost use Rattle.walk_checks.specs.Exact.{IsExact};
ghost use Rattle.feature_graph.specs.Explained.{PassesChecks};
ghost use Rattle.feature_graph.specs.LinkViews.{link_of};
ghost use Rattle.guppy_features.specs.Platforms.{holds_where, is_platform_link, platform_offers};
ghost use Rattle.guppy_features.specs.PlatformViews.{kinds_of, specs_of};
ghost use Rattle.feature_graph.specs.Visits.{answered, query_content};

use feature_graph::laws::{resolved_is_exact, resolved_passes_checks, visitor_agrees_by_answer};
use feature_graph::{
    ConditionalLink, Error, Explained, FeatureLinkContext, FeatureLinkVisitor, FeatureQuery,
};
use guppy_packages::{DependencyKind, PlatformStatus, Spec};
use std::alloc::Global;

/// A visitor for a platform. It accepts a link if its status for one of `kinds` is always, or contains one of
/// `specs`. Specs are compared as text. It has no state.
#[derive(Clone, Copy, Debug)]
pub struct PlatformVisitor<'a> {
    kinds: &'a [DependencyKind],
    specs: &'a [&'a str],
}

/// Returns true if the text of `spec` is in `specs`.
fn is_among(spec: &Spec, specs: &[&str]) -> bool
    ensures { result ≡ list_any (λ s. bytes_eq (spec_text spec.now) s.now) specs.now }
{
    let text = spec.text();
    specs.iter().any(|one| text == *one)
}

/// Returns true if the text of one of `listed` is in `specs`.
fn are_met(listed: &[Spec], specs: &[&str]) -> bool
    ensures { result ≡ list_any (λ l. list_any (λ s. bytes_eq (spec_text l) s.now) specs.now) listed.now }
{
    listed.iter().any(|spec| is_among(spec, specs))
}

/// Returns true if the status is always, or contains one of `specs`.
fn holds(status: PlatformStatus<'_>, specs: &[&str]) -> bool
    ensures { result ≡ holds_where (map (λ s. s.now) specs.now) (status_of status.entry) }
{
    match status {
        PlatformStatus::Never => false,
        PlatformStatus::Always => true,
        PlatformStatus::PlatformDependent(listed) => are_met(listed, specs),
    }
}

impl<'a> PlatformVisitor<'a> {
    /// Returns the visitor for these dependency kinds and for the platform on which `specs` hold.
    pub fn new(kinds: &'a [DependencyKind], specs: &'a [&'a str]) -> Self
        ensures kinds { kinds_of result ≡ kinds.now }
        ensures specs { specs_of result ≡ map (λ s. s.now) specs.now }
    {
        PlatformVisitor { kinds, specs }
    }

    /// Returns true if the link's status for `kind` holds on the platform.
    fn meets(&self, link: ConditionalLink<'_>, kind: DependencyKind) -> bool
        ensures { result ≡ is_platform_link (kind ∷ []) (specs_of self.now) (link_of link.entry) }
    {
        holds(link.status_for_kind(kind), self.specs)
    }

    /// Returns true if the link's status for one of the visitor's kinds holds on the platform.
    fn accepts(&self, link: ConditionalLink<'_>) -> bool
        ensures { result ≡ list_any (λ kind. is_platform_link (kind ∷ []) (specs_of self.now) (link_of link.entry)) (kinds_of self.now) }
    {
        self.kinds.iter().any(|kind| self.meets(link, *kind))
    }

    /// Resolves the query with this visitor. The result is the least set for the platform's offers, with a
    /// reason for each feature and with all refused links: those that were visited and aren't for the platform.
    /// The order in which links are visited doesn't matter. `Memory` is the only error.
    pub fn resolve<'g>(
        self,
        alloc: Global,
        query: FeatureQuery<'g>,
    ) -> Result<Explained<'g>, Error<'g>>
        ensures graph { IfOk result (λ x. x.graph ≡ query.entry.graph) }
        ensures direction { IfOk result (λ x. x.direction ≡ query.entry.direction) }
        ensures walk { IfOk result (λ x. IsExplainedWalk (query_content query.entry) (has query.entry.initials)
            (answered (platform_offers (kinds_of self.entry) (specs_of self.entry) query.entry.graph)) tt tt (has x.members) x.steps x.refused) }
        ensures checked { IfOk result (λ x. PassesChecks query.entry.graph query.entry.direction query.entry.initials x.steps x.refused) }
        ensures least { IfOk result (λ x. (n : ℕ) → IsTrue (has x.members n)
            ↔ Least (query_content query.entry) (has query.entry.initials) (platform_offers (kinds_of self.entry) (specs_of self.entry) query.entry.graph) n) }
        ensures explanation { IfOk result (λ x. IsExplanation (query_content query.entry) (has query.entry.initials) (platform_offers (kinds_of self.entry) (specs_of self.entry) query.entry.graph) x.steps) }
        ensures listed { IfOk result (λ x. (n : ℕ) → has x.members n ≡ is_in (nodes_of x.steps) n) }
        ensures exact { IfOk result (λ x. IsExact (query_content query.entry) (has query.entry.initials) x.refused x.steps) }
        ensures refused { IfErr result (λ e. e ≡ Error.Memory) }
    {
        visitor_agrees_by_answer::<PlatformVisitor<'_>>();
        resolved_is_exact::<PlatformVisitor<'_>>();
        resolved_passes_checks::<PlatformVisitor<'_>>(*query.graph());
        let mut visitor = self;
        query.resolve_explained(alloc, &mut visitor)
    }
}

impl<'g, 'a> FeatureLinkVisitor<'g> for PlatformVisitor<'a> {
    ghost can_visit = { λ _ _ _. Unit {0} };

    ghost visit_gives = { λ s _ l answer t. (t ≡ s) × (answer ≡ is_platform_link (kinds_of s) (specs_of s) l) };

    fn visit_link(&mut self, _: &FeatureLinkContext<'g>, link: ConditionalLink<'g>) -> bool {
        self.accepts(link)
    }
}
