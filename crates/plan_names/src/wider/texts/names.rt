//! The names of widenings.
ghost use Rattle.std.specs.Prelude.{◌≡◌};
ghost use Rattle.plan_names.specs.wider.texts.Lines as spec;

use crate::wider::widenings::Widening;

/// Returns how text calls `widening`.
pub(crate) fn heading(widening: Widening) -> &'static str
    ensures { result.now ≡ spec.heading widening }
{
    match widening {
        Widening::AllFeatures => "with all features of the selected members",
        Widening::AllMembers => "with all members",
        Widening::Tests => "with tests",
        Widening::EveryPlatform => "on every platform that the workspace names",
        Widening::Together => "with all of these",
    }
}
