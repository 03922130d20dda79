//! The reasons of steps, in words.
ghost use Rattle.std.specs.Prelude.{◌≡◌, ◌++◌, IfOk, OnOk, flat_map, map, option_map, string_bytes};
ghost use Rattle.cargo_workspaces.specs.Views.{texts};
ghost use Rattle.feats_why.specs.Reasons as spec;
ghost use Rattle.feats_why.specs.Relations as relation;
ghost use Rattle.feats_why.specs.Settings.{settings_text};
ghost use Rattle.plan_whys.specs.StepViews.{reason_text, spot_text};
ghost use Rattle.feats_why.specs.inner.Labelled.{AreLabels, packages_of};

use crate::labels::{Labels, push_spot};
use crate::platforms::platforms_of;
use crate::relations::{Relation, is_named, relation_from};
use crate::settings::WhySettings;
use feature_labels::FeatureLabel;
use plan_rows::Platform;
use plan_whys::{Spot, WhyReason};
use std::alloc::{AllocError, Global};

/// Returns the spot of the package of `spot`.
fn package_of(spot: Spot<'_>) -> Spot<'_>
    ensures { spot_text result ≡ spec.package_spot (spot_text spot.entry) }
{
    Spot {
        side: spot.side,
        package: spot.package,
        label: FeatureLabel::Base,
    }
}

/// Returns `spot` if it is a feature, and else its package.
fn asker(spot: Spot<'_>) -> Spot<'_>
    ensures { spot_text result ≡ spec.asker (spot_text spot.entry) }
{
    if is_named(spot.label) {
        spot
    } else {
        package_of(spot)
    }
}

/// Returns the spot that the words for `relation` begin with, if there is one.
fn subject(relation: Relation, start: Spot<'_>) -> Option<Spot<'_>>
    ensures { option_map spot_text result ≡ spec.subject relation (spot_text start.entry) }
{
    match relation {
        Relation::Selected | Relation::Asked => None,
        Relation::Default | Relation::Depends => Some(package_of(start)),
        Relation::TurnsOn | Relation::Needs => Some(start),
        Relation::Asks => Some(asker(start)),
    }
}

/// Returns the words for `relation`.
fn words(relation: Relation) -> &'static str
    ensures { result.now ≡ spec.relation_words relation }
{
    match relation {
        Relation::Selected => "selected",
        Relation::Default => " has it by default",
        Relation::Asked => "asked for by the selection",
        Relation::TurnsOn => " turns it on",
        Relation::Needs => " needs it",
        Relation::Depends => " depends on it",
        Relation::Asks => " asks for it",
    }
}

/// Appends the label of `subject`, if there is one.
fn push_subject(
    alloc: Global,
    text: &mut String,
    labels: &Labels<'_, '_>,
    subject: Option<Spot<'_>>,
) -> Result<(), AllocError>
    requires { AreLabels labels.now }
    ensures { OnOk result (string_bytes text.new ≡ string_bytes text.old ++ spec.subject_text (packages_of labels.now) labels.now.sides (option_map spot_text subject.entry)) }
{
    match subject {
        Some(spot) => push_spot(alloc, text, labels, spot),
        None => Ok(()),
    }
}

/// Appends each of `platforms` after ` and `.
fn push_more(text: &mut String, platforms: &[&str]) -> Result<(), AllocError>
    ensures { OnOk result (string_bytes text.new ≡ string_bytes text.old ++ flat_map spec.and_text (texts platforms.now)) }
{
    for platform in platforms {
        text.push_str(" and ")?;
        text.push_str(platform)?;
    }
    Ok(())
}

/// Returns the end of the words about a platform and `more`.
fn holding(more: &[&str]) -> &'static str
    ensures { result.now ≡ spec.holding_words (texts more.now) }
{
    match more {
        [] => ", which holds",
        [_, ..] => ", which hold",
    }
}

/// Appends for which platforms a package depends on another one.
fn push_platforms(text: &mut String, platforms: &[&str]) -> Result<(), AllocError>
    ensures { OnOk result (string_bytes text.new ≡ string_bytes text.old ++ spec.platform_words (texts platforms.now)) }
{
    match platforms {
        [] => Ok(()),
        [platform, more @ ..] => {
            text.push_str(" for ")?;
            text.push_str(platform)?;
            push_more(text, more)?;
            text.push_str(holding(more))
        }
    }
}

/// Appends that `gate` is on, if there is one.
fn push_gate(
    alloc: Global,
    text: &mut String,
    labels: &Labels<'_, '_>,
    gate: Option<Spot<'_>>,
) -> Result<(), AllocError>
    requires { AreLabels labels.now }
    ensures { OnOk result (string_bytes text.new ≡ string_bytes text.old ++ spec.gate_words (packages_of labels.now) labels.now.sides (option_map spot_text gate.entry)) }
{
    match gate {
        Some(spot) => {
            text.push_str(", as ")?;
            push_spot(alloc, text, labels, spot)?;
            text.push_str(" is on")
        }
        None => Ok(()),
    }
}

/// Appends how `start` leads to `at`, in words.
fn push_relation(
    alloc: Global,
    text: &mut String,
    labels: &Labels<'_, '_>,
    start: Spot<'_>,
    at: Spot<'_>,
) -> Result<(), AllocError>
    requires { AreLabels labels.now }
    ensures { OnOk result (string_bytes text.new ≡ string_bytes text.old ++ spec.reason_by (packages_of labels.now) labels.now.sides (spot_text start.entry) (relation.relation_from (spot_text start.entry) (spot_text at.entry))) }
{
    let relation = relation_from(start, at);
    push_subject(alloc, text, labels, subject(relation, start))?;
    text.push_str(words(relation))
}

/// Appends the reason why `at` is on.
fn push_reason<P: Platform>(
    alloc: Global,
    text: &mut String,
    labels: &Labels<'_, '_>,
    settings: &WhySettings<'_, P>,
    at: Spot<'_>,
    reason: WhyReason<'_>,
) -> Result<(), AllocError>
    requires labels { AreLabels labels.now }
    requires sides { labels.now.sides ≡ settings.now.split }
    ensures { OnOk result (string_bytes text.new ≡ string_bytes text.old ++ spec.reason_words (packages_of labels.now) (settings_text P.holds settings.now) (spot_text at.entry) (reason_text reason.entry)) }
{
    match reason {
        WhyReason::Selected => text.push_str("selected"),
        WhyReason::From { start, gate } => {
            push_relation(alloc, text, labels, start, at)?;
            let platforms = platforms_of(alloc, settings, labels.packages, start, at)?;
            push_platforms(text, &platforms)?;
            push_gate(alloc, text, labels, gate)
        }
    }
}

/// Returns the reason why `at` is on, in words.
pub(crate) fn reason_words<P: Platform>(
    alloc: Global,
    labels: &Labels<'_, '_>,
    settings: &WhySettings<'_, P>,
    at: Spot<'_>,
    reason: WhyReason<'_>,
) -> Result<String, AllocError>
    requires labels { AreLabels labels.now }
    requires sides { labels.now.sides ≡ settings.now.split }
    ensures { IfOk result (λ text. string_bytes text ≡ spec.reason_words (packages_of labels.now) (settings_text P.holds settings.now) (spot_text at.entry) (reason_text reason.entry)) }
{
    let mut text = String::new(alloc);
    push_reason(alloc, &mut text, labels, settings, at, reason)?;
    Ok(text)
}
