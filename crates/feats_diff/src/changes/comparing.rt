//! What differs between two plans.
ghost use Rattle.std.specs.Prelude.{◌≡◌, IfOk, map};
ghost use Rattle.std.specs.List.{list_all};
ghost use Rattle.feats_diff.specs.changes.Differences.{AreDifferences, IsPartitioned};
ghost use Rattle.feats_diff.specs.changes.Changes.{keeps_features};
ghost use Rattle.feats_diff.specs.changes.Equality as spec;
ghost use Rattle.feats_diff.specs.changes.Views.{change_text, differences_text, part_text};

use crate::changes::feature_changes::{Change, changes_of};
use crate::changes::matches::{in_order, paired_by_name, paired_by_version};
use crate::changes::parts::Part;
use std::alloc::{AllocError, Global};

/// What differs between two plans. Each list is in the order of place, name and version.
#[derive(Drop)]
pub struct Differences<'u, 'v, 'w> {
    /// The parts that come.
    pub comes: Vec<Part<'u, 'v, 'w>>,
    /// The parts that go.
    pub gone: Vec<Part<'u, 'v, 'w>>,
    /// The parts whose version or source changes.
    pub moved: Vec<Change<'u, 'v, 'w>>,
    /// The parts that stay, with their features.
    pub kept: Vec<Change<'u, 'v, 'w>>,
}

/// Returns whether no feature comes or goes in any of `changes`.
fn all_keep_features(changes: &[Change<'_, '_, '_>]) -> bool
    ensures { result ≡ list_all keeps_features (map change_text changes.now) }
{
    for change in changes {
        if !change.keeps_features() {
            return false;
        }
    }
    true
}

impl Differences<'_, '_, '_> {
    /// Returns whether the plans are equal: no package comes, goes or changes its version, and no feature comes or goes.
    pub fn are_equal(&self) -> bool
        ensures { result ≡ spec.are_equal (differences_text self.now) }
    {
        let same_packages = self.comes.is_empty() && self.gone.is_empty();
        same_packages && self.moved.is_empty() && all_keep_features(&self.kept)
    }
}

/// Returns what differs between the plans of the parts `old` and `new`. A part stays if its place, name, version and source are those
/// of a part of the other plan; of the others, those of one place and name are paired in the order of their versions.
pub fn differences_between<'u, 'v, 'w>(
    alloc: Global,
    old: &[Part<'u, 'v, 'w>],
    new: &[Part<'u, 'v, 'w>],
) -> Result<Differences<'u, 'v, 'w>, AllocError>
    ensures differences { IfOk result (λ d. AreDifferences (map part_text old.now) (map part_text new.now) (differences_text d)) }
    ensures partition { IfOk result (λ d. IsPartitioned (map part_text old.now) (map part_text new.now) (differences_text d)) }
{
    let sorted_old = in_order(alloc, old)?;
    let sorted_new = in_order(alloc, new)?;
    let same = paired_by_version(alloc, &sorted_old, &sorted_new)?;
    let others = paired_by_name(alloc, &same.gone, &same.comes)?;
    let kept = changes_of(alloc, &same.pairs)?;
    let moved = changes_of(alloc, &others.pairs)?;
    Ok(Differences {
        comes: others.comes,
        gone: others.gone,
        moved,
        kept,
    })
}
