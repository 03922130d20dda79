//! How the start of a step leads to its spot.
ghost use Rattle.std.specs.Prelude.{◌≡◌};
ghost use Rattle.feature_labels.specs.Names.{label_of};
ghost use Rattle.feats_why.specs.Relations as spec;
ghost use Rattle.plan_whys.specs.StepViews.{reason_text, spot_text, why_text};

use feature_labels::FeatureLabel;
use plan_whys::{Spot, WhyReason, WhyStep};

/// How the start of a step leads to its spot.
#[derive(Clone, Copy)]
pub(crate) enum Relation {
    /// The selection has the spot's package, or the feature.
    Selected,
    /// The selection has the feature `default` of the package.
    Default,
    /// The selection asks for a part of another package.
    Asked,
    /// A part of the package turns on another one.
    TurnsOn,
    /// A part of the package is on, and so is the package.
    Needs,
    /// Another package depends on the package.
    Depends,
    /// A part of another package asks for it.
    Asks,
}

/// Returns whether `label` is that of a package.
fn is_base(label: FeatureLabel<'_>) -> bool
    ensures { result ≡ spec.is_base (label_of label.entry) }
{
    match label {
        FeatureLabel::Base => true,
        FeatureLabel::Named(_) | FeatureLabel::OptionalDependency(_) => false,
    }
}

/// Returns whether `label` is that of a feature.
pub(crate) fn is_named(label: FeatureLabel<'_>) -> bool
    ensures { result ≡ spec.is_named (label_of label.entry) }
{
    match label {
        FeatureLabel::Named(_) => true,
        FeatureLabel::Base | FeatureLabel::OptionalDependency(_) => false,
    }
}

/// Returns whether `label` is that of the feature `name`.
fn is_feature(name: &str, label: FeatureLabel<'_>) -> bool
    ensures { result ≡ spec.is_feature name.now (label_of label.entry) }
{
    match label {
        FeatureLabel::Named(feature) => feature == name,
        FeatureLabel::Base | FeatureLabel::OptionalDependency(_) => false,
    }
}

/// Returns whether `spot` is a command feature.
pub(crate) fn is_command(spot: Spot<'_>) -> bool
    ensures { result ≡ spec.is_command_spot (spot_text spot.entry) }
{
    is_feature("[command]", spot.label)
}

/// Returns whether `step` is shown.
pub(crate) fn is_shown(step: &WhyStep<'_>) -> bool
    ensures { result ≡ spec.is_shown (why_text step.now) }
{
    !is_command(step.at)
}

/// Returns how a command feature leads to `at`, which is a part of its package if `is_same` is true.
fn from_command(is_same: bool, at: Spot<'_>) -> Relation
    ensures { result ≡ spec.from_command is_same (spot_text at.entry) }
{
    if !is_same {
        Relation::Asked
    } else if is_feature("default", at.label) {
        Relation::Default
    } else {
        Relation::Selected
    }
}

/// Returns how another part of its package leads to `at`.
fn within(at: Spot<'_>) -> Relation
    ensures { result ≡ spec.within (spot_text at.entry) }
{
    if is_base(at.label) {
        Relation::Needs
    } else {
        Relation::TurnsOn
    }
}

/// Returns how `start` leads to `at`, which is a part of another package.
fn between(start: Spot<'_>, at: Spot<'_>) -> Relation
    ensures { result ≡ spec.between (spot_text start.entry) (spot_text at.entry) }
{
    if is_base(at.label) && !is_named(start.label) {
        Relation::Depends
    } else {
        Relation::Asks
    }
}

/// Returns how `start` leads to `at`.
pub(crate) fn relation_from(start: Spot<'_>, at: Spot<'_>) -> Relation
    ensures { result ≡ spec.relation_from (spot_text start.entry) (spot_text at.entry) }
{
    let is_same = start.package == at.package;
    if is_command(start) {
        from_command(is_same, at)
    } else if is_same {
        within(at)
    } else {
        between(start, at)
    }
}

/// Returns how `reason` leads to `at`.
pub(crate) fn relation_of(at: Spot<'_>, reason: WhyReason<'_>) -> Relation
    ensures { result ≡ spec.relation_of (spot_text at.entry) (reason_text reason.entry) }
{
    match reason {
        WhyReason::Selected => Relation::Selected,
        WhyReason::From { start, .. } => relation_from(start, at),
    }
}

/// Returns whether `relation` is that of a package to one that it declares.
pub(crate) fn is_by_declaration(relation: Relation) -> bool
    ensures { result ≡ spec.is_by_declaration relation }
{
    matches!(relation, Relation::Depends | Relation::Asks)
}
