//! The sides on which a feature is on.
ghost use Rattle.std.specs.Prelude.{◌≡◌};
ghost use Rattle.feature_labels.specs.Names.{label_of};
ghost use Rattle.cargo_plans.specs.plan_starts.PackageVisits.{is_on};
ghost use Rattle.cargo_plans.specs.plan_steps.PlanViews.{plan_text};
ghost use Rattle.plan_names.specs.wider.widenings.Findings as spec;

use cargo_plans::{PackageVisit, Plan};
use feature_labels::FeatureLabel;
use plan_rows::{Side, TurnedOn};

/// The sides on which a feature is on.
#[derive(Clone, Copy)]
pub struct Sides {
    pub target: bool,
    pub host: bool,
}

/// Returns whether `label` of package `package` is on, on `side`, by the visit of step `on`.
fn is_on(on: &PackageVisit, side: Side, package: usize, label: FeatureLabel<'_>) -> bool
    ensures { result ≡ is_on on.now side «package» (label_of label.entry) }
{
    match label {
        FeatureLabel::Base => on.has_package(side, package),
        FeatureLabel::Named(name) => on.has_feature(side, package, name),
        FeatureLabel::OptionalDependency(name) => on.is_on(side, package, name),
    }
}

/// Returns the sides on which `label` of package `package` is on in `plan`.
pub fn sides_of(plan: &Plan<'_>, package: usize, label: FeatureLabel<'_>) -> Sides
    ensures { result ≡ spec.sides_of (plan_text plan.now).on «package» (label_of label.entry) }
{
    let on = plan.on();
    Sides {
        target: is_on(on, Side::Target, package, label),
        host: is_on(on, Side::Host, package, label),
    }
}
