//! A plan.
ghost use Rattle.std.specs.Prelude.{◌≡◌, map};
ghost use Rattle.plan_starts.specs.feature_labels.Names.LabelName.{named};
ghost use Rattle.plan_starts.specs.PackageVisits.{is_on};
ghost use Rattle.cargo_plans.specs.plan_units.UnitViews.{unit_text};
ghost use Rattle.plan_starts.specs.step_visits.Visits.{place_view};

use crate::plan_units::{FeatureLabel, PackageVisit, Unit, Visited};
use plan_rows::Side;

/// The packages that are built, with their features, and which features are on.
pub struct Plan<'w> {
    pub(crate) units: Vec<Unit<'w>>,
    /// The visit of step `on`.
    pub(crate) on: PackageVisit,
    /// The visit of step `built`.
    pub(crate) built: Visited,
    /// The places at which step `built` starts.
    pub(crate) starts: Vec<(usize, FeatureLabel<'static>)>,
}

impl Drop for Plan<'_> {
    // Written out, so that a crate above calls it. A derived drop is proved in each crate that drops a value, with those of all fields.
    fn drop(self) {
        let Plan {
            units: _units,
            on: _on,
            built: _built,
            starts: _starts,
        } = self;
    }
}

impl<'w> Plan<'w> {
    ghost use Rattle.cargo_plans.specs.plan_steps.PlanViews.{plan_text};

    /// Returns the packages that are built: those for the host, then those for each of the target platforms, each in the order of
    /// their numbers.
    pub fn units(&self) -> &[Unit<'w>]
        ensures { map unit_text result.now ≡ (plan_text self.now).units }
    {
        self.units.as_slice()
    }

    /// Returns the visit of step `on`.
    pub fn on(&self) -> &PackageVisit
        ensures { result.now ≡ (plan_text self.now).on }
    {
        &self.on
    }

    /// Returns the visit of step `built`. The entry of a package has the package's number on the host; on target platform `k`, `k + 1`
    /// times the number of packages more.
    pub fn built(&self) -> &Visited
        ensures { result.now ≡ (plan_text self.now).built }
    {
        &self.built
    }

    /// Returns the places at which step `built` starts: the base of each entry that starts, in the order of the entries.
    pub fn starts(&self) -> &[(usize, FeatureLabel<'static>)]
        ensures { map place_view result.now ≡ (plan_text self.now).starts }
    {
        self.starts.as_slice()
    }

    /// Returns whether `feature` of package `package` is on, on `side`.
    pub fn is_on(&self, side: Side, package: usize, feature: &str) -> bool
        ensures { result ≡ is_on (plan_text self.now).on side «package» (named feature.now) }
    {
        self.on.has_feature(side, package, feature)
    }
}
