//! The words of widened selections.
ghost use Rattle.std.specs.Prelude.{◌≡◌, Bool, IsFalse};
ghost use Rattle.cargo_workspaces.specs.Workspaces.{Text};
ghost use Rattle.plan_rows.specs.platforms.HeldSpecs.{holds_on};
ghost use Rattle.plan_words.specs.Selections.{selection_text};
ghost use Rattle.cargo_plans.specs.WordsView.{words_text};
ghost use Rattle.plan_names.specs.wider.widenings.Widenings as spec;

use crate::wider::widenings::widening::Widening;
use cargo_plans::{PackageChoice, PlanWords, Selection};
use plan_rows::platforms::HeldSpecs;
use plan_words::choice_with_tests;
use std::slice;

/// Returns `selection` with all features of the selected members.
fn with_all_features(selection: Selection<'_>) -> Selection<'_>
    ensures { selection_text result ≡ spec.with_all_features (selection_text selection.entry) }
{
    Selection {
        packages: selection.packages,
        features: selection.features,
        all_features: true,
        no_default_features: false,
        split: selection.split,
    }
}

/// Returns `selection` with all members of the workspace.
fn with_all_members(selection: Selection<'_>) -> Selection<'_>
    ensures { selection_text result ≡ spec.with_all_members (selection_text selection.entry) }
{
    Selection {
        packages: PackageChoice::Workspace,
        features: selection.features,
        all_features: selection.all_features,
        no_default_features: selection.no_default_features,
        split: selection.split,
    }
}

/// Returns `words` with another selection.
fn select<'w, 'n, 's>(
    words: &PlanWords<'w, 'n, HeldSpecs<'s>>,
    selection: Selection<'w>,
) -> PlanWords<'w, 'n, HeldSpecs<'s>>
    ensures { words_text holds_on result ≡ spec.select (selection_text selection.entry) (words_text holds_on words.now) }
{
    PlanWords {
        selection,
        choice: words.choice,
        host: words.host,
        targets: words.targets,
    }
}

/// Returns `words` for the build of `cargo test`.
fn with_tests<'w, 'n, 's>(
    words: &PlanWords<'w, 'n, HeldSpecs<'s>>,
) -> PlanWords<'w, 'n, HeldSpecs<'s>>
    ensures { words_text holds_on result ≡ spec.with_tests (words_text holds_on words.now) }
{
    PlanWords {
        selection: words.selection,
        choice: choice_with_tests(words.choice),
        host: words.host,
        targets: words.targets,
    }
}

/// Returns `words` with `every` as the host and as the only target platform.
fn on_platform<'w, 'n, 's>(
    words: &PlanWords<'w, 'n, HeldSpecs<'s>>,
    every: &'n HeldSpecs<'s>,
) -> PlanWords<'w, 'n, HeldSpecs<'s>>
    ensures { words_text holds_on result ≡ spec.on_platform (holds_on every.now) (words_text holds_on words.now) }
{
    PlanWords {
        selection: words.selection,
        choice: words.choice,
        host: every,
        targets: slice::from_ref(every),
    }
}

/// Returns `words` with `widening`, where `every` is every platform that the workspace names.
pub fn widened<'w, 'n, 's>(
    words: &PlanWords<'w, 'n, HeldSpecs<'s>>,
    widening: Widening,
    every: &'n HeldSpecs<'s>,
) -> PlanWords<'w, 'n, HeldSpecs<'s>>
    ensures { words_text holds_on result ≡ spec.widened (holds_on every.now) widening (words_text holds_on words.now) }
{
    let selection = words.selection;
    match widening {
        Widening::AllFeatures => select(words, with_all_features(selection)),
        Widening::AllMembers => select(words, with_all_members(selection)),
        Widening::Tests => with_tests(words),
        Widening::EveryPlatform => on_platform(words, every),
        Widening::Together => {
            let wide = select(words, with_all_members(with_all_features(selection)));
            on_platform(&with_tests(&wide), every)
        }
    }
}

/// Returns whether `selection` is of all members of the workspace.
fn has_all_members(selection: Selection<'_>) -> bool
    ensures { result ≡ spec.is_all (selection_text selection.entry).packages }
{
    match selection.packages {
        PackageChoice::Default | PackageChoice::Named(_) | PackageChoice::AllBut(_) => false,
        PackageChoice::Workspace => true,
    }
}

/// Returns whether `widening` adds to `words`: false if they select all that it selects. The platform is always an addition.
pub fn adds(words: &PlanWords<'_, '_, HeldSpecs<'_>>, widening: Widening) -> bool
    ensures adds { result ≡ spec.adds widening (words_text holds_on words.now) }
    ensures same { IsFalse result → (every : Text → Bool) → spec.widened every widening (words_text holds_on words.now) ≡ words_text holds_on words.now }
{
    let selection = words.selection;
    match widening {
        Widening::AllFeatures => !selection.all_features || selection.no_default_features,
        Widening::AllMembers => !has_all_members(selection),
        Widening::Tests => !words.choice.test,
        Widening::EveryPlatform | Widening::Together => true,
    }
}
