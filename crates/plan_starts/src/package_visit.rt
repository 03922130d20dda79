//! Visits of a step in which each package has two entries.
ghost use Rattle.std.specs.Prelude.{◌≡◌, ◌+◌, ◌<◌, ◌≤◌, ◌^◌};
ghost use Rattle.feature_labels.specs.Names.{label_of};
ghost use Rattle.feature_labels.specs.Names.LabelName.{base, named, optional};
ghost use Rattle.plan_rows.specs.Steps.{is_host};
ghost use Rattle.plan_starts.specs.PackageVisits as spec;
ghost use Rattle.plan_starts.specs.PackageVisits.{is_kept, is_on, reaches_at};

use crate::step_visits::{FeatureLabel, Visited};
use plan_rows::{Kept, Side, TurnedOn};
use std::marker::Model;

/// A visit of a step in which each package has two entries: step `resolved`, where a package is a dependency of others and a started
/// one, or step `on`, where it is on the target side and on the host side.
pub struct PackageVisit {
    visited: Visited,
    count: usize,
}

impl Drop for PackageVisit {
    // Written out, so that a crate above calls it. A derived drop is proved in each crate that drops a value, with those of all fields.
    fn drop(self) {
        let PackageVisit {
            visited: _visited,
            count: _count,
        } = self;
    }
}

impl Model for PackageVisit {
    ghost use Rattle.plan_starts.specs.PackageVisits.{PairVisit};

    ghost Value = { PairVisit };

    ghost use Rattle.std.specs.Prelude.{◌+◌, ◌<◌, ◌^◌};

    ghost view = { λ v. record { count = v.count; visit = v.visited } };

    ghost invariant = { λ v. v.count + v.count < 2 ^ 64 };
}

/// Returns the number of the first of the first entries of `count` packages, or of the second ones.
fn first_entry(second: bool, count: usize) -> usize
    ensures entry { result ≡ spec.first_entry second count }
    ensures within { result ≤ count }
{
    if second { count } else { 0 }
}

impl PackageVisit {
    /// Returns the visit of `count` packages.
    pub fn new(visited: Visited, count: usize) -> PackageVisit
        requires { count + count < 2 ^ 64 }
        ensures { result ≡ record { count = count; visit = visited } }
    {
        PackageVisit { visited, count }
    }

    /// Returns what the step reached.
    pub fn visited(&self) -> &Visited
        ensures { result.now ≡ self.now.visit }
    {
        &self.visited
    }

    /// Returns the number of packages.
    pub fn package_count(&self) -> usize
        ensures count { result ≡ self.now.count }
        ensures room { self.now.count + self.now.count < 2 ^ 64 }
    {
        self.count
    }

    /// Returns whether the visit reached `label` at the first entry of package `ix`, or at its second one.
    fn reaches(&self, second: bool, ix: usize, label: FeatureLabel<'_>) -> bool
        ensures { result ≡ reaches_at self.now second ix (label_of label.entry) }
    {
        if ix >= self.count {
            return false;
        }
        let first = first_entry(second, self.count);
        self.visited.reaches(first + ix, label)
    }

    /// Returns whether the named feature `name` of package `ix` is on, on `side`, by the visit of step `on`.
    pub fn has_feature(&self, side: Side, ix: usize, name: &str) -> bool
        ensures { result ≡ is_on self.now side ix (named name.now) }
    {
        self.reaches(side.is_host(), ix, FeatureLabel::Named(name))
    }

    /// Returns whether package `ix` is on, on `side`, by the visit of step `on`.
    pub fn has_package(&self, side: Side, ix: usize) -> bool
        ensures { result ≡ is_on self.now side ix base }
    {
        self.reaches(side.is_host(), ix, FeatureLabel::Base)
    }
}

impl Kept for PackageVisit {
    ghost kept = { λ v. is_kept v };

    fn is_kept(&self, ix: usize, name: &str) -> bool {
        self.reaches(false, ix, FeatureLabel::OptionalDependency(name))
            || self.reaches(true, ix, FeatureLabel::OptionalDependency(name))
    }
}

impl TurnedOn for PackageVisit {
    ghost turned_on = { λ v side ix name. is_on v side ix (optional name) };

    fn is_on(&self, side: Side, ix: usize, name: &str) -> bool {
        self.reaches(side.is_host(), ix, FeatureLabel::OptionalDependency(name))
    }
}
