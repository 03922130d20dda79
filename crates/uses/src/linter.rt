//! A policy linter: which forbidden features a build for a platform turns on, and why.
ghost use Rattle.std.specs.Prelude.{◌≡◌, ℕ, IsFalse, IfOk, MatchOption, All, map};
ghost use Rattle.guppy_features.specs.digraphs.Bits.{has};
ghost use Rattle.guppy_features.specs.feature_core.Built.{NodeNamed};
ghost use Rattle.guppy_features.specs.feature_labels.Names.{id_of};
ghost use Rattle.guppy_features.specs.Platforms.{platform_offers};
ghost use Rattle.guppy_features.specs.PlatformViews.{kinds_of, specs_of};
ghost use Rattle.guppy_features.specs.feature_graph.Views.{graph_of};
ghost use Rattle.uses.specs.Linted.{IsCleared, finding_name};

use crate::failure::Failure;
use crate::out::Out;
use guppy_features::{
    DependencyKind, Error, Explained, FeatureGraph, FeatureId, FeatureQuery, PackageId,
    PlatformVisitor, Reason,
};
use std::alloc::Global;

/// A forbidden feature that is on, and the steps on which it rests: from an initial feature to it, with gates.
#[derive(Drop)]
pub struct Finding<'g> {
    pub id: FeatureId<'g>,
    pub why: Vec<(FeatureId<'g>, Reason<'g>)>,
}

/// Returns the finding for a forbidden feature if it is on. A feature that the graph lacks is off.
fn examined<'g>(
    alloc: Global,
    graph: FeatureGraph<'g>,
    explained: &Explained<'g>,
    id: FeatureId<'g>,
) -> Result<Option<Finding<'g>>, Error<'g>>
    requires { graph_of graph ≡ explained.now.graph }
    ensures { IfOk result (λ found. MatchOption found
        ((n : ℕ) → NodeNamed explained.now.graph.tables n (id_of id.entry) → IsFalse (has explained.now.members n))
        (λ f. finding_name f ≡ id_of id.entry)) }
{
    if !graph.contains(id) {
        return Ok(None);
    }
    match explained.why(alloc, id)? {
        None => Ok(None),
        Some(why) => Ok(Some(Finding { id, why })),
    }
}

/// Returns the forbidden features that the query's build for the platform turns on, each with its steps.
///
/// A forbidden feature without a finding isn't in the least set for the platform: it is off, whatever the order of offers.
pub fn findings<'g>(
    alloc: Global,
    query: FeatureQuery<'g>,
    platform: PlatformVisitor<'_>,
    forbidden: &[FeatureId<'g>],
) -> Result<Vec<Finding<'g>>, Error<'g>>
    ensures { IfOk result (λ found. All (λ id. IsCleared query.entry
        (platform_offers (kinds_of platform.entry) (specs_of platform.entry) query.entry.graph)
        (map finding_name found.items) (id_of id)) forbidden.now) }
{
    let graph = *query.initials().graph();
    let explained = platform.resolve(alloc, query)?;
    let mut found = Vec::new(alloc);
    for id in forbidden {
        if let Some(one) = examined(alloc, graph, &explained, *id)? {
            found.push(one)?;
        }
    }
    Ok(found)
}

/// Prints the findings of a policy against two features; the build turns one of them on.
pub fn show(out: &Out, alloc: Global, graph: FeatureGraph<'_>) -> Result<(), Failure> {
    let app = PackageId::new(alloc, "app")?;
    let serde = PackageId::new(alloc, "serde")?;
    lint(out, alloc, graph, &app, &serde)
}

/// Prints the findings for a build of one package's default features.
fn lint<'g>(
    out: &Out,
    alloc: Global,
    graph: FeatureGraph<'g>,
    app: &'g PackageId,
    serde: &'g PackageId,
) -> Result<(), Failure> {
    let forbidden = [
        FeatureId::named(serde, "std"),
        FeatureId::named(app, "color"),
    ];
    let query = graph.query_forward(alloc, &[FeatureId::named(app, "default")])?;
    let platform = PlatformVisitor::new(&[DependencyKind::Normal], &[]);
    show_findings(out, alloc, query, platform, &forbidden)
}

/// Prints a forbidden feature that is on, and the steps on which it rests.
fn show_finding(out: &Out, finding: &Finding<'_>) {
    out.part("forbidden:");
    out.id(finding.id);
    out.part(" since");
    for (id, _) in finding.why.iter() {
        out.id(*id);
    }
    out.line("");
}

/// Prints a line for each forbidden feature that is on.
fn show_findings<'g>(
    out: &Out,
    alloc: Global,
    query: FeatureQuery<'g>,
    platform: PlatformVisitor<'_>,
    forbidden: &[FeatureId<'g>],
) -> Result<(), Failure> {
    let found = findings(alloc, query, platform, forbidden)?;
    for one in found.iter() {
        show_finding(out, one);
    }
    drop(found);
    Ok(())
}
