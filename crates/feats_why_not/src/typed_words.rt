//! The words of a command line that turn a part on.
ghost use Rattle.std.specs.Prelude.{◌≡◌, ◌++◌, IfOk, OnOk, string_bytes};
ghost use Rattle.cargo_plans.specs.WordsView.{words_text};
ghost use Rattle.cargo_workspaces.specs.Views.{texts};
ghost use Rattle.plan_rows.specs.platforms.HeldSpecs.{holds_on};
ghost use Rattle.feats_why_not.specs.Tries.{one_text};
ghost use Rattle.feats_why_not.specs.Typed as spec;
ghost use Rattle.feats_why_not.specs.inner.Lists.{typed_value};

use cargo_plans::{PackageChoice, PlanWords, Selection};
use plan_rows::platforms::HeldSpecs;
use plan_words::choice_of_command;
use std::alloc::{AllocError, Global};
use std::slice;

/// One selected package, perhaps with one of its features, and perhaps with tests.
#[derive(Clone, Copy)]
pub(crate) struct TypedWords<'t> {
    pub(crate) name: &'t str,
    pub(crate) feature: Option<&'t str>,
    pub(crate) test: bool,
}

/// Returns the feature words of `typed`.
fn features_of<'t>(typed: &'t TypedWords<'t>) -> &'t [&'t str]
    ensures { texts result.now ≡ one_text (typed_value typed.now).feature }
{
    match &typed.feature {
        Some(feature) => slice::from_ref(feature),
        None => &[],
    }
}

/// Returns the words `typed`, with the resolver and the platforms of `words`.
pub(crate) fn words_of<'t, 'n, 's>(
    words: &PlanWords<'_, 'n, HeldSpecs<'s>>,
    typed: &'t TypedWords<'t>,
) -> PlanWords<'t, 'n, HeldSpecs<'s>>
    ensures { words_text holds_on result ≡ spec.typed_words (words_text holds_on words.now) (typed_value typed.now) }
{
    let selection = Selection {
        packages: PackageChoice::Named(slice::from_ref(&typed.name)),
        features: features_of(typed),
        all_features: false,
        no_default_features: false,
        split: words.selection.split,
    };
    PlanWords {
        selection,
        choice: choice_of_command(typed.test),
        host: words.host,
        targets: words.targets,
    }
}

/// Appends the feature of `typed`, as it is typed.
fn push_feature(text: &mut String, typed: TypedWords<'_>) -> Result<(), AllocError>
    ensures { OnOk result (string_bytes text.new ≡ string_bytes text.old ++ spec.feature_word (typed_value typed.entry).feature) }
{
    if let Some(feature) = typed.feature {
        text.push_str(" -F ")?;
        text.push_str(feature)?;
    }
    Ok(())
}

/// Appends the words for tests, if `test` is true.
fn push_tests(text: &mut String, test: bool) -> Result<(), AllocError>
    ensures { OnOk result (string_bytes text.new ≡ string_bytes text.old ++ spec.tests_word test) }
{
    if test {
        text.push_str(" --command test")?;
    }
    Ok(())
}

/// Returns `typed` as it is typed.
pub(crate) fn typed_text(alloc: Global, typed: TypedWords<'_>) -> Result<String, AllocError>
    ensures { IfOk result (λ text. string_bytes text ≡ spec.typed_text (typed_value typed.entry)) }
{
    let mut text = String::new(alloc);
    text.push_str("-p ")?;
    text.push_str(typed.name)?;
    push_feature(&mut text, typed)?;
    push_tests(&mut text, typed.test)?;
    Ok(text)
}
