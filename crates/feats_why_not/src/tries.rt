//! The words that are tried, by an explanation.
ghost use Rattle.std.specs.Prelude.{◌≡◌, ◌++◌, IfOk, OnOk, map, option_map};
ghost use Rattle.cargo_workspaces.specs.WorkspaceView.{workspace_text};
ghost use Rattle.feature_labels.specs.Names.{label_of};
ghost use Rattle.plan_words.specs.TargetChoices.{needs_development, target_choice_text};
ghost use Rattle.plan_whys.specs.StepViews.{reason_text, spot_text, why_text};
ghost use Rattle.feats_why.specs.Relations.{is_command_spot};
ghost use Rattle.feats_why_not.specs.Tries as spec;
ghost use Rattle.feats_why_not.specs.inner.Lists.{typed_value};

use crate::base::Base;
use crate::typed_words::TypedWords;
use cargo_workspaces::Workspace;
use feature_labels::FeatureLabel;
use plan_whys::{Spot, WhyReason, WhyStep};
use std::alloc::{AllocError, Global};

/// Returns `name`, unless it is the default feature.
fn asked_name(name: &str) -> Option<&str>
    ensures { option_map (λ t. t.now) result ≡ spec.asked_name name.now }
{
    if name == "default" { None } else { Some(name) }
}

/// Returns the feature that `label` is; none for the default one.
fn asked_feature<'l>(label: FeatureLabel<'l>) -> Option<&'l str>
    ensures { option_map (λ t. t.now) result ≡ spec.asked_feature (label_of label.entry) }
{
    match label {
        FeatureLabel::Named(name) => asked_name(name),
        FeatureLabel::Base | FeatureLabel::OptionalDependency(_) => None,
    }
}

/// Returns whether `spot` is a command feature.
fn is_command(spot: Spot<'_>) -> bool
    ensures { result ≡ is_command_spot (spot_text spot.entry) }
{
    match spot.label {
        FeatureLabel::Named(name) => name == "[command]",
        FeatureLabel::Base | FeatureLabel::OptionalDependency(_) => false,
    }
}

/// Returns whether a command feature leads to a spot that is on for `reason`: the selection asks for it.
fn is_asked(reason: WhyReason<'_>) -> bool
    ensures { result ≡ spec.is_asked (reason_text reason.entry) }
{
    match reason {
        WhyReason::Selected => false,
        WhyReason::From { start, .. } => is_command(start),
    }
}

/// Returns the feature at which `step` is, if it is one of package `ix` for which the selection asks.
fn feature_at<'p>(ix: usize, step: WhyStep<'p>) -> Option<&'p str>
    ensures { option_map (λ t. t.now) result ≡ spec.feature_at ix (why_text step.entry) }
{
    if step.at.package == ix && is_asked(step.reason) {
        asked_feature(step.at.label)
    } else {
        None
    }
}

/// Returns the first feature of package `ix` in `steps` for which the selection asks.
fn first_feature<'p>(ix: usize, steps: &[WhyStep<'p>]) -> Option<&'p str>
    ensures { option_map (λ t. t.now) result ≡ spec.first_feature ix (map why_text steps.now) }
{
    for step in steps {
        if let Some(feature) = feature_at(ix, *step) {
            return Some(feature);
        }
    }
    None
}

/// Returns words for package `ix`; none if there is no such package.
fn words_at<'t>(
    workspace: &'t Workspace<'_>,
    ix: usize,
    feature: Option<&'t str>,
    test: bool,
) -> Option<TypedWords<'t>>
    ensures { option_map typed_value result ≡ spec.words_at (workspace_text workspace.now).packages ix (option_map (λ t. t.now) feature.entry) test }
{
    match workspace.packages().get(ix) {
        Some(package) => Some(TypedWords {
            name: package.name,
            feature,
            test,
        }),
        None => None,
    }
}

/// Returns the words with which the explanation `steps` begins, with tests if `test` is true.
fn first_words<'t>(
    workspace: &'t Workspace<'_>,
    test: bool,
    steps: &[WhyStep<'t>],
) -> Option<TypedWords<'t>>
    ensures { option_map typed_value result ≡ spec.first_words (workspace_text workspace.now).packages test (map why_text steps.now) }
{
    let [start, more @ ..] = steps else {
        return None;
    };
    let ix = start.at.package;
    words_at(workspace, ix, first_feature(ix, more), test)
}

/// Appends `typed` without its feature, and then with it.
fn push_by_feature<'t>(
    tries: &mut Vec<TypedWords<'t>>,
    typed: TypedWords<'t>,
) -> Result<(), AllocError>
    ensures { OnOk result (map typed_value tries.new.items ≡ map typed_value tries.old.items ++ spec.by_feature (typed_value typed.entry)) }
{
    let without = TypedWords {
        name: typed.name,
        feature: None,
        test: typed.test,
    };
    tries.push(without)?;
    if typed.feature.is_some() {
        tries.push(typed)?;
    }
    Ok(())
}

/// Returns `typed`, after all that lack some of its words. `here` is whether dependencies for development count by the command line: then
/// the words for tests stay.
fn by_size<'t>(
    alloc: Global,
    here: bool,
    typed: TypedWords<'t>,
) -> Result<Vec<TypedWords<'t>>, AllocError>
    ensures { IfOk result (λ tries. map typed_value tries.items ≡ spec.by_size here (typed_value typed.entry)) }
{
    let mut tries = Vec::new(alloc);
    if typed.test && !here {
        let without = TypedWords {
            name: typed.name,
            feature: typed.feature,
            test: false,
        };
        push_by_feature(&mut tries, without)?;
    }
    push_by_feature(&mut tries, typed)?;
    Ok(tries)
}

/// Returns the words with which `steps` begin, after all that lack some of them. `test` is whether dependencies for development count in
/// the plan of the steps, and `here` is whether they do by the command line.
fn sizes_of<'t>(
    alloc: Global,
    workspace: &'t Workspace<'_>,
    here: bool,
    test: bool,
    steps: &[WhyStep<'t>],
) -> Result<Vec<TypedWords<'t>>, AllocError>
    ensures { IfOk result (λ tries. map typed_value tries.items ≡ spec.sizes_of here (spec.first_words (workspace_text workspace.now).packages test (map why_text steps.now))) }
{
    match first_words(workspace, test, steps) {
        Some(typed) => by_size(alloc, here, typed),
        None => Ok(Vec::new(alloc)),
    }
}

/// Returns the words that are tried for a part that is on by `steps`; none if it isn't alone. `test` is whether dependencies for
/// development count in the plan of the steps.
pub(crate) fn tries_of<'t>(
    alloc: Global,
    base: Base<'t, '_, '_, '_, '_, '_>,
    test: bool,
    steps: &[WhyStep<'t>],
) -> Result<Vec<TypedWords<'t>>, AllocError>
    ensures { IfOk result (λ tries. map typed_value tries.items ≡ spec.tries_of base.entry.alone (workspace_text base.entry.workspace.now).packages (needs_development (target_choice_text base.entry.words.now.choice)) test (map why_text steps.now)) }
{
    if base.alone {
        sizes_of(
            alloc,
            base.workspace,
            base.words.choice.needs_development(),
            test,
            steps,
        )
    } else {
        Ok(Vec::new(alloc))
    }
}
