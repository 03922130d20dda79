//! The route from a node, by the steps.
ghost use Rattle.std.specs.Prelude.{◌≡◌, ◌+◌, ℕ, List, IfOk, length};
ghost use Rattle.shortest_routes.specs.Chains.{IsRoute};
ghost use Rattle.shortest_routes.specs.inner.Nearest as spec;
ghost use Rattle.shortest_routes.specs.inner.Searches.{HasStep};
ghost use Rattle.shortest_routes.specs.inner.Steps.{AreSteps};

use crate::step::{Step, step_at};
use std::alloc::{AllocError, Global};

/// Returns the node after `node` on a route, if there is one.
fn next_of(table: &[Option<Step>], node: usize) -> Option<usize>
    ensures { result ≡ spec.next_at table.now node }
{
    match step_at(table, node) {
        Some(step) => step.next,
        None => None,
    }
}

/// Returns the route from `start`, which has a step in `table`.
pub(crate) fn route_from(
    alloc: Global,
    table: &[Option<Step>],
    start: usize,
) -> Result<Vec<usize>, AllocError>
    requires steps { spec.AreAnySteps table.now }
    requires start { HasStep table.now start }
    ensures { (links : List (ℕ × ℕ)) (targets : List ℕ) → AreSteps links targets table.now → IfOk result (λ route. IsRoute links targets start route.items × (length route.items ≡ spec.distance_at table.now start + 1)) }
{
    let mut route = Vec::new(alloc);
    let mut at = Some(start);
    while let Some(node) = at {
        route.push(node)?;
        at = next_of(table, node);
    }
    Ok(route)
}
