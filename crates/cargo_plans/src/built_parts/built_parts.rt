//! The parts that a plan builds.
ghost use Rattle.std.specs.Prelude.{◌≡◌, ℕ, IfOk, map};
ghost use Rattle.feature_labels.specs.Names.{label_of};
ghost use Rattle.cargo_plans.specs.plan_steps.PlanViews.{plan_text};
ghost use Rattle.plan_starts.specs.PackageVisits.{is_on};
ghost use Rattle.cargo_plans.specs.plan_units.UnitViews.{unit_text};
ghost use Rattle.cargo_plans.specs.built_parts.Built as spec;
ghost use Rattle.cargo_plans.specs.built_parts.BuiltViews.{builds_in, flag_at, is_built_in, state_in};

use crate::built_parts::flags::{flag_of, mark};
use crate::built_parts::state::PartState;
use crate::plan_steps::{PackageVisit, Place, Plan, Side, Unit};
use feature_labels::FeatureLabel;
use plan_rows::TurnedOn;
use std::alloc::{AllocError, Global};

/// The parts of packages that are on in a plan, and which packages it builds on each side.
pub struct BuiltParts<'p> {
    pub(crate) on: &'p PackageVisit,
    /// Whether each package is built in a place of the target side, by its number. A package past the end isn't.
    pub(crate) target: Vec<bool>,
    /// The same for the host side.
    pub(crate) host: Vec<bool>,
}

impl Drop for BuiltParts<'_> {
    // Written out, so that a crate above calls it. A derived drop is proved in each crate that drops a value, with those of all fields.
    fn drop(self) {
        let BuiltParts {
            on: _on,
            target: _target,
            host: _host,
        } = self;
    }
}

/// Returns the side whose features `place` has. `split` is whether the resolver tells the sides apart.
fn side_at(split: bool, place: Place) -> Side
    ensures { result ≡ spec.side_at split place }
{
    match place {
        Place::Host => { if split { Side::Host } else { Side::Target } }
        Place::Target(_) => Side::Target,
    }
}

/// Returns whether each package, by its number, is one of `units` in a place of `side`.
fn built_on(
    alloc: Global,
    split: bool,
    side: Side,
    units: &[Unit<'_>],
) -> Result<Vec<bool>, AllocError>
    ensures { IfOk result (λ flags. (p : ℕ) → flag_at flags.items p ≡ spec.is_built split (map unit_text units.now) side p) }
{
    let mut flags = Vec::new(alloc);
    for unit in units {
        if side_at(split, unit.place) == side {
            mark(&mut flags, unit.package)?;
        }
    }
    Ok(flags)
}

/// Returns the state of a part. `on` is whether it is on, and `built` whether its package is built.
fn state_if(on: bool, built: bool) -> PartState
    ensures { result ≡ spec.state_if on built }
{
    match (on, built) {
        (false, _) => PartState::Off,
        (true, false) => PartState::Unbuilt,
        (true, true) => PartState::Built,
    }
}

impl<'p> BuiltParts<'p> {
    /// Returns the parts of `plan`. `split` is whether its resolver tells the sides apart. The error is that an allocation fails.
    pub fn of_plan(
        alloc: Global,
        split: bool,
        plan: &'p Plan<'_>,
    ) -> Result<BuiltParts<'p>, AllocError>
        ensures parts { IfOk result (λ parts. state_in parts ≡ spec.state_of split (plan_text plan.entry.now)) }
        ensures built { IfOk result (λ parts. is_built_in parts ≡ spec.is_part_built split (plan_text plan.entry.now)) }
        ensures packages { IfOk result (λ parts. builds_in parts ≡ spec.is_built split (plan_text plan.entry.now).units) }
    {
        let target = built_on(alloc, split, Side::Target, plan.units())?;
        let host = built_on(alloc, split, Side::Host, plan.units())?;
        Ok(BuiltParts {
            on: plan.on(),
            target,
            host,
        })
    }

    /// Returns whether package `ix` is built in a place of `side`.
    pub fn builds(&self, side: Side, ix: usize) -> bool
        ensures { result ≡ builds_in self.now side ix }
    {
        match side {
            Side::Target => flag_of(&self.target, ix),
            Side::Host => flag_of(&self.host, ix),
        }
    }

    /// Returns whether `label` of package `ix` is on, on `side`, whether the package is built or not.
    fn is_on(&self, side: Side, ix: usize, label: FeatureLabel<'_>) -> bool
        ensures { result ≡ is_on self.now.on.now side ix (label_of label.entry) }
    {
        match label {
            FeatureLabel::Base => self.on.has_package(side, ix),
            FeatureLabel::Named(name) => self.on.has_feature(side, ix, name),
            FeatureLabel::OptionalDependency(name) => TurnedOn::is_on(self.on, side, ix, name),
        }
    }

    /// Returns whether `label` of package `ix` is on, on `side`, and the package is built there.
    pub fn is_built(&self, side: Side, ix: usize, label: FeatureLabel<'_>) -> bool
        ensures { result ≡ is_built_in self.now side ix (label_of label.entry) }
    {
        self.is_on(side, ix, label) && self.builds(side, ix)
    }

    /// Returns the state of `label` of package `ix` on `side`.
    pub fn state(&self, side: Side, ix: usize, label: FeatureLabel<'_>) -> PartState
        ensures { result ≡ state_in self.now side ix (label_of label.entry) }
    {
        state_if(self.is_on(side, ix, label), self.builds(side, ix))
    }
}
