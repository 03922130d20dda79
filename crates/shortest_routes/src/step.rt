//! What a search knows of a node from which a route leads.
ghost use Rattle.std.specs.Prelude.{◌≡◌};
ghost use Rattle.shortest_routes.specs.inner.Steps as spec;

/// The first link of a shortest route from a node.
#[derive(Clone, Copy)]
pub(crate) struct Step {
    /// The number of links to the target.
    pub(crate) distance: usize,
    /// The next node; `None` at a target.
    pub(crate) next: Option<usize>,
}

/// Returns the step of `node`, if it has one.
pub(crate) fn step_at(table: &[Option<Step>], node: usize) -> Option<Step>
    ensures { result ≡ spec.step_at table.now node }
{
    match table.get(node) {
        Some(step) => *step,
        None => None,
    }
}
