//! A visitor for one platform.
ghost use Rattle.std.specs.Prelude.{◌≡◌, ◌↔◌, ℕ, IsTrue, IfOk};
ghost use Rattle.std.specs.List.{list_any};
ghost use Rattle.std.specs.Str.{bytes_eq};
ghost use Rattle.guppy_features.specs.digraphs.Bits.{has};
ghost use Rattle.guppy_features.specs.guppy_packages.Platform.{spec_text, status_of};
ghost use Rattle.guppy_features.specs.walk_engine.Walks.{Least};
ghost use Rattle.guppy_features.specs.feature_graph.Visits.{query_content};
ghost use Rattle.uses.specs.Answers.{holds_on, is_on_platform, by_links};

use crate::failure::Failure;
use crate::out::Out;
use guppy_features::{
    ConditionalLink, DependencyKind, Error, FeatureGraph, FeatureId, FeatureLinkContext,
    FeatureLinkVisitor, FeatureQuery, FeatureSet, PackageId, PlatformStatus, Spec, laws,
};
use std::alloc::Global;

/// A platform with one spec that holds on it, and the kind of dependency that is followed. Most platforms have a list of
/// such specs; `PlatformVisitor` takes one.
#[derive(Clone, Copy)]
pub struct OnePlatform<'s> {
    pub spec: &'s str,
    pub kind: DependencyKind,
}

/// Returns true if `spec` is the text of one of `specs`.
fn is_among(spec: &str, specs: &[Spec]) -> bool
    ensures { result ≡ list_any (λ s. bytes_eq (spec_text s) spec.now) specs.now }
{
    specs.iter().any(|one| one.text() == spec)
}

impl<'s> OnePlatform<'s> {
    /// Returns true if `status` holds on the platform: it is always, or has the platform's spec.
    fn meets(&self, status: PlatformStatus<'_>) -> bool
        ensures { result ≡ holds_on self.now.spec.now (status_of status.entry) }
    {
        match status {
            PlatformStatus::Never => false,
            PlatformStatus::Always => true,
            PlatformStatus::PlatformDependent(specs) => is_among(self.spec, specs),
        }
    }
}

impl<'g, 's> FeatureLinkVisitor<'g> for OnePlatform<'s> {
    // every link may be shown
    ghost can_visit = { λ _ _ _. Unit {0} };

    // the visitor doesn't change, and its result depends on the link alone
    ghost visit_gives = { λ s _ l answer t. (t ≡ s) × (answer ≡ is_on_platform s.spec.now s.kind l) };

    fn visit_link(&mut self, _: &FeatureLinkContext<'g>, link: ConditionalLink<'g>) -> bool {
        self.meets(link.status_for_kind(self.kind))
    }
}

/// Returns the features that a query turns on for one platform: the least set that holds the initial ones and is closed
/// under unconditional edges and the links of this platform and kind, in whatever order the links are shown.
pub fn on_platform<'g>(
    alloc: Global,
    query: FeatureQuery<'g>,
    mut platform: OnePlatform<'_>,
) -> Result<FeatureSet<'g>, Error<'g>>
    ensures { IfOk result (λ set. (n : ℕ) → IsTrue (has set.members n)
        ↔ Least (query_content query.entry) (has query.entry.initials) (by_links (is_on_platform platform.entry.spec.now platform.entry.kind) query.entry.graph) n) }
{
    laws::visitor_agrees_by_answer::<OnePlatform<'_>>();
    query.resolve_with(alloc, &mut platform)
}

/// Prints the features that a feature turns on for one platform.
fn show_on(
    out: &Out,
    alloc: Global,
    graph: FeatureGraph<'_>,
    id: FeatureId<'_>,
    platform: OnePlatform<'_>,
) -> Result<(), Failure> {
    out.part(if platform.kind == DependencyKind::Build {
        "for builds on "
    } else {
        "on "
    });
    let query = graph.query_forward(alloc, &[id])?;
    out.set(platform.spec, on_platform(alloc, query, platform))
}

/// Prints the features that a feature turns on for two platforms, and for build scripts.
pub fn show(out: &Out, alloc: Global, graph: FeatureGraph<'_>) -> Result<(), Failure> {
    let main = PackageId::new(alloc, "main")?;
    let id = FeatureId::named(&main, "serde");
    for (spec, kind) in [
        ("cfg(unix)", DependencyKind::Normal),
        ("cfg(any())", DependencyKind::Normal),
        ("cfg(any())", DependencyKind::Build),
    ] {
        show_on(out, alloc, graph, id, OnePlatform { spec, kind })?;
    }
    Ok(())
}
