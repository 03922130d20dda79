//! The parts of a plan that are compared.
ghost use Rattle.std.specs.Prelude.{◌≡◌};
ghost use Rattle.feats_diff.specs.changes.Parts as spec;
ghost use Rattle.feats_diff.specs.changes.Views.{part_text};

use crate::changes::ranks::Rank;
use cargo_workspaces::Package;

/// A package that is built, as it is compared.
#[derive(Clone, Copy)]
pub struct Part<'u, 'v, 'w> {
    /// The number of its unit in the plan.
    pub unit: usize,
    /// The name of its place.
    pub place: &'u str,
    pub package: &'u Package<'v>,
    /// The features with which it is built.
    pub features: &'u [&'w str],
    /// The rank of its version.
    pub rank: Rank,
}

/// Returns the source of `part`, or nothing if it is at a path.
pub(crate) fn source_of<'p>(part: &Part<'p, '_, '_>) -> &'p str
    ensures { result.now ≡ spec.source_of (part_text part.now) }
{
    match part.package.source {
        Some(source) => source,
        None => "",
    }
}
