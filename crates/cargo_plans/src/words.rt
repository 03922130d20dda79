//! What a plan is asked for.

use plan_words::{Selection, TargetChoice};

/// What a command line says about a plan, with the platforms that it names.
#[derive(Drop)]
pub struct PlanWords<'w, 'n, P> {
    /// The packages and features that are asked for.
    pub selection: Selection<'w>,
    /// The targets that are chosen.
    pub choice: TargetChoice<'w>,
    /// The platform on which the build runs.
    pub host: &'n P,
    /// The platforms for which it builds: without `--target`, the host alone.
    pub targets: &'n [P],
}
