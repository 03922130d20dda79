//! What is on for a target.
ghost use Rattle.std.specs.Prelude.{◌≡◌, ℕ, IfOk, IfErr};
ghost use Rattle.digraphs.specs.Bits.{has};
ghost use Rattle.walk_engine.specs.Explanations.{nodes_of};
ghost use Rattle.walk_engine.specs.Walks.{is_in};
ghost use Rattle.walk_checks.specs.Exact.{IsExact};
ghost use Rattle.feature_graph.specs.Visits.{query_content};
ghost use Rattle.guppy_features.specs.graph_platforms.DeclaredSpecs.{spec_texts};
ghost use Rattle.guppy_features.specs.graph_platforms.PlatformLinks.{IsOnFor};
ghost use Rattle.guppy_features.specs.graph_platforms.SpecFaults.{IsFaultOf};

use crate::graph_platforms::fault::PlatformFault;
use crate::graph_platforms::held_texts::held_specs;
use crate::{DependencyKind, Explained, FeatureQuery, PlatformVisitor};
use platform_specs::TargetCfg;
use std::alloc::Global;

/// Resolves `query` for `target` and these `kinds` of dependency, and explains the result: the least set for the links whose
/// status for one of `kinds` is always or has a spec that holds. `Malformed` names the first spec text of the graph that is no
/// spec; `Memory` if an allocation fails.
pub fn resolve_for<'g>(
    alloc: Global,
    query: FeatureQuery<'g>,
    kinds: &[DependencyKind],
    target: &TargetCfg,
) -> Result<Explained<'g>, PlatformFault<'g>>
    ensures graph { IfOk result (λ x. x.graph ≡ query.entry.graph) }
    ensures direction { IfOk result (λ x. x.direction ≡ query.entry.direction) }
    ensures least { IfOk result (λ x. IsOnFor kinds.now target.now query.entry x) }
    ensures listed { IfOk result (λ x. (n : ℕ) → has x.members n ≡ is_in (nodes_of x.steps) n) }
    ensures exact { IfOk result (λ x. IsExact (query_content query.entry) (has query.entry.initials) x.refused x.steps) }
    ensures fault { IfErr result (λ fault. IsFaultOf (spec_texts query.entry.graph.tables) fault) }
{
    let held = held_specs(alloc, query.graph().package_graph(), target)?;
    match PlatformVisitor::new(kinds, held.as_slice()).resolve(alloc, query) {
        Ok(explained) => Ok(explained),
        Err(_) => Err(PlatformFault::Memory),
    }
}
