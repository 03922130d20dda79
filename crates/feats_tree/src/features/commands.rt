//! Command features: what the command line asks of packages.
ghost use Rattle.std.specs.Prelude.{◌≡◌, map};
ghost use Rattle.feature_labels.specs.Names.{label_of};
ghost use Rattle.plan_whys.specs.links.SpotLinks as spec;
ghost use Rattle.plan_whys.specs.StepViews.{spot_text};
ghost use Rattle.feats_tree.specs.features.Links.{is_command_at};

use feature_labels::FeatureLabel;
use plan_whys::links::Spot;

/// Returns whether `label` is that of a command feature.
pub(crate) fn is_command(label: FeatureLabel<'_>) -> bool
    ensures { result ≡ spec.is_command (label_of label.entry) }
{
    match label {
        FeatureLabel::Named(name) => name == "[command]",
        FeatureLabel::Base | FeatureLabel::OptionalDependency(_) => false,
    }
}

/// Returns whether spot `number` is a command feature; false, if there is no such spot.
pub(crate) fn is_command_at(spots: &[Spot<'_>], number: usize) -> bool
    ensures { result ≡ is_command_at (map spot_text spots.now) number }
{
    match spots.get(number) {
        Some(spot) => is_command(spot.label),
        None => false,
    }
}
