//! Words for targets that choose no target of the selected packages.
ghost use Rattle.std.specs.Prelude.{◌≡◌, None, Some, if◌then◌else◌, map, option_map};
ghost use Rattle.std.specs.List.{list_any};
ghost use Rattle.cargo_workspaces.specs.Views.{package_text, target_text, texts};
ghost use Rattle.cargo_workspaces.specs.Workspaces.{is_library};
ghost use Rattle.plan_words.specs.TargetChoices.{is_called, kind_text, target_choice_text};
ghost use Rattle.plan_starts.specs.Lists.{first_some};
ghost use Rattle.plan_starts.specs.UnfitWords as spec;
ghost use Rattle.plan_starts.specs.UnfitWords.{unfit_text};

use cargo_workspaces::{Package, Target};
use plan_words::{KindWords, TargetChoice, is_called};

/// A word for targets that chooses none.
#[derive(Clone, Copy)]
pub struct UnfitWord<'c> {
    /// The kind of the targets: `lib`, `bin`, `example`, `test` or `bench`.
    pub kind: &'static str,
    /// The word for a name; `None` for `--lib`.
    pub name: Option<&'c str>,
}

/// Returns whether one of `targets` is a library.
fn any_library(targets: &[Target<'_>]) -> bool
    ensures { result ≡ list_any is_library (map target_text targets.now) }
{
    for target in targets {
        if target.is_library() {
            return true;
        }
    }
    false
}

/// Returns whether package `ix` has a library.
fn has_library(packages: &[Package<'_>], ix: usize) -> bool
    ensures { result ≡ spec.any_target (map package_text packages.now) is_library ix }
{
    match packages.get(ix) {
        Some(package) => any_library(&package.targets),
        None => false,
    }
}

/// Returns whether one of the `selected` packages has a library.
fn have_library(packages: &[Package<'_>], selected: &[usize]) -> bool
    ensures { result ≡ list_any (spec.any_target (map package_text packages.now) is_library) selected.now }
{
    for ix in selected {
        if has_library(packages, *ix) {
            return true;
        }
    }
    false
}

/// Returns whether one of `targets` has the kind `kind`, and a name that `word` fits.
fn any_called(targets: &[Target<'_>], kind: &str, word: &str) -> bool
    ensures { result ≡ list_any (λ t. is_called kind.now t word.now) (map target_text targets.now) }
{
    for target in targets {
        if is_called(kind, target, word) {
            return true;
        }
    }
    false
}

/// Returns whether package `ix` has a target of the kind `kind` with a name that `word` fits.
fn has_called(packages: &[Package<'_>], kind: &str, word: &str, ix: usize) -> bool
    ensures { result ≡ spec.any_target (map package_text packages.now) (λ t. is_called kind.now t word.now) ix }
{
    match packages.get(ix) {
        Some(package) => any_called(&package.targets, kind, word),
        None => false,
    }
}

/// Returns whether one of the `selected` packages has a target of the kind `kind` with a name that `word` fits.
fn have_called(packages: &[Package<'_>], selected: &[usize], kind: &str, word: &str) -> bool
    ensures { result ≡ list_any (spec.any_target (map package_text packages.now) (λ t. is_called kind.now t word.now)) selected.now }
{
    for ix in selected {
        if has_called(packages, kind, word, *ix) {
            return true;
        }
    }
    false
}

/// Returns the first of `words` that fits no target of the kind `kind` in the `selected` packages.
fn unfit_name<'c>(
    packages: &[Package<'_>],
    selected: &[usize],
    kind: &str,
    words: &[&'c str],
) -> Option<&'c str>
    ensures { option_map (λ t. t.now) result ≡ first_some (spec.unfit_name (map package_text packages.now) selected.now kind.now) (texts words.now) }
{
    for word in words {
        if !have_called(packages, selected, kind, word) {
            return Some(*word);
        }
    }
    None
}

/// Returns the first of the words for names of targets of the kind `kind` that fits none in the `selected` packages.
fn unfit_kind<'c>(
    packages: &[Package<'_>],
    selected: &[usize],
    kind: &'static str,
    words: &KindWords<'c>,
) -> Option<UnfitWord<'c>>
    ensures { option_map unfit_text result ≡ spec.unfit_kind (map package_text packages.now) selected.now kind.now (kind_text words.now) }
{
    if words.all {
        return None;
    }
    match unfit_name(packages, selected, kind, words.names) {
        Some(word) => Some(UnfitWord {
            kind,
            name: Some(word),
        }),
        None => None,
    }
}

/// Returns `--lib`, if a library must be in the `selected` packages, and none is.
fn unfit_library<'c>(
    packages: &[Package<'_>],
    selected: &[usize],
    choice: &TargetChoice<'c>,
) -> Option<UnfitWord<'c>>
    ensures { option_map unfit_text result ≡ spec.unfit_library (map package_text packages.now) selected.now (target_choice_text choice.now) }
{
    if choice.needs_lib && !have_library(packages, selected) {
        Some(UnfitWord {
            kind: "lib",
            name: None,
        })
    } else {
        None
    }
}

/// Returns the first word of `choice` that chooses no target of the `selected` packages: of libraries, programs, examples, tests and
/// benchmarks, in this order.
pub fn first_unfit<'c>(
    packages: &[Package<'_>],
    selected: &[usize],
    choice: &TargetChoice<'c>,
) -> Option<UnfitWord<'c>>
    ensures { option_map unfit_text result ≡ spec.first_unfit (map package_text packages.now) selected.now (target_choice_text choice.now) }
{
    if let Some(word) = unfit_library(packages, selected, choice) {
        return Some(word);
    }
    if let Some(word) = unfit_kind(packages, selected, "bin", &choice.bins) {
        return Some(word);
    }
    if let Some(word) = unfit_kind(packages, selected, "example", &choice.examples) {
        return Some(word);
    }
    if let Some(word) = unfit_kind(packages, selected, "test", &choice.tests) {
        return Some(word);
    }
    unfit_kind(packages, selected, "bench", &choice.benches)
}
