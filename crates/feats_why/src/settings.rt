//! The settings of the lines.
ghost use Rattle.std.specs.Prelude.{◌≡◌};
ghost use Rattle.cargo_plans.specs.WordsView.{words_text};
ghost use Rattle.feats_why.specs.Settings as spec;
ghost use Rattle.feats_why.specs.Settings.{settings_text};

use cargo_plans::PlanWords;
use plan_rows::Platform;

/// What the lines of an explanation are made from, besides the workspace and the steps.
#[derive(Clone, Copy)]
pub struct WhySettings<'n, P> {
    /// True if the resolver tells the sides apart, as 2 and 3 do. Then ` (host)` follows the labels of spots on the host side.
    pub split: bool,
    /// True if dependencies for development count: in tests, and if there are words for examples, tests or benchmarks.
    pub development: bool,
    /// The platform on which the build runs.
    pub host: &'n P,
    /// The target platforms.
    pub targets: &'n [P],
}

/// Returns the settings of the lines that explain a plan for `words`.
pub fn settings_of<'n, P: Platform>(words: &PlanWords<'_, 'n, P>) -> WhySettings<'n, P>
    ensures { settings_text P.holds result ≡ spec.settings_of (words_text P.holds words.now) }
{
    WhySettings {
        split: words.selection.split,
        development: words.choice.needs_development(),
        host: words.host,
        targets: words.targets,
    }
}
