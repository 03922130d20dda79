//! The targets that a command line chooses.
ghost use Rattle.std.specs.Prelude.{◌≡◌};
ghost use Rattle.std.specs.List.{list_any};
ghost use Rattle.cargo_workspaces.specs.Views.{target_text, texts};
ghost use Rattle.plan_words.specs.TargetChoices as spec;
ghost use Rattle.plan_words.specs.TargetChoices.{kind_text, target_choice_text};

use crate::patterns::fits;
use cargo_workspaces::Target;

/// The words for targets of one kind.
#[derive(Clone, Copy)]
pub struct KindWords<'s> {
    /// True if all targets of the kind are chosen, as by `--bins`. Then the names have no effect.
    pub all: bool,
    /// The words for names, as in `--bin NAME`, in which a star stands for any text.
    pub names: &'s [&'s str],
}

/// What a command line says about targets.
#[derive(Clone, Copy)]
pub struct TargetChoice<'s> {
    /// True for the build of `cargo test`, false for that of `cargo build`.
    pub test: bool,
    /// True if libraries are chosen.
    pub lib: bool,
    /// True if a selected package must have a library, as with `--lib`.
    pub needs_lib: bool,
    pub bins: KindWords<'s>,
    pub examples: KindWords<'s>,
    pub tests: KindWords<'s>,
    pub benches: KindWords<'s>,
}

/// Returns whether there is a word.
fn are_some(words: &[&str]) -> bool
    ensures { result ≡ spec.are_some (texts words.now) }
{
    match words {
        [] => false,
        [_, ..] => true,
    }
}

/// Returns whether `target` has the kind `kind`, and a name that `word` fits.
pub fn is_called(kind: &str, target: &Target<'_>, word: &str) -> bool
    ensures { result ≡ spec.is_called kind.now (target_text target.now) word.now }
{
    target.has_kind(kind) && fits(word, target.name)
}

/// Returns whether the name of `target` fits one of `words`, and it has the kind `kind`.
fn is_any_called(kind: &str, target: &Target<'_>, words: &[&str]) -> bool
    ensures { result ≡ list_any (spec.is_called kind.now (target_text target.now)) (texts words.now) }
{
    for word in words {
        if is_called(kind, target, word) {
            return true;
        }
    }
    false
}

/// Returns whether `target` has benchmarks, unless its manifest says otherwise.
fn has_benchmarks(target: &Target<'_>) -> bool
    ensures { result ≡ spec.has_benchmarks (target_text target.now) }
{
    target.is_library() || target.has_kind("bin") || target.has_kind("bench")
}

/// Returns whether `target` is built without words for targets: by `cargo test` what has tests, and examples; by `cargo build` libraries
/// and programs.
fn is_default(test: bool, target: &Target<'_>) -> bool
    ensures { result ≡ spec.is_default test (target_text target.now) }
{
    if test {
        target.test || target.doctest || target.has_kind("example")
    } else {
        target.is_library() || target.has_kind("bin")
    }
}

/// Returns no words.
fn no_words<'s>() -> KindWords<'s>
    ensures { kind_text result ≡ spec.no_words }
{
    KindWords {
        all: false,
        names: &[],
    }
}

/// Returns the choice without words for targets: of `cargo test`, if `test`, or else of `cargo build`.
pub fn choice_of_command<'s>(test: bool) -> TargetChoice<'s>
    ensures { target_choice_text result ≡ spec.of_command test }
{
    TargetChoice {
        test,
        lib: false,
        needs_lib: false,
        bins: no_words(),
        examples: no_words(),
        tests: no_words(),
        benches: no_words(),
    }
}

/// Returns the same choice for the build of `cargo test`.
pub fn choice_with_tests(choice: TargetChoice<'_>) -> TargetChoice<'_>
    ensures { target_choice_text result ≡ spec.with_tests (target_choice_text choice.entry) }
{
    TargetChoice {
        test: true,
        lib: choice.lib,
        needs_lib: choice.needs_lib,
        bins: choice.bins,
        examples: choice.examples,
        tests: choice.tests,
        benches: choice.benches,
    }
}

impl KindWords<'_> {
    /// Returns whether there are words for targets of the kind.
    pub fn is_given(&self) -> bool
        ensures { result ≡ spec.is_given (kind_text self.now) }
    {
        self.all || are_some(self.names)
    }

    /// Returns whether a word for a name chooses `target`, where the words are for targets of the kind `kind`.
    fn names(&self, kind: &str, target: &Target<'_>) -> bool
        ensures { result ≡ spec.is_named (kind_text self.now) kind.now (target_text target.now) }
    {
        !self.all && is_any_called(kind, target, self.names)
    }

    /// Returns whether the words, which are for targets of the kind `kind`, choose `target`. `every` is whether the word for all targets
    /// does.
    fn choose(&self, every: bool, kind: &str, target: &Target<'_>) -> bool
        ensures { result ≡ spec.is_of (kind_text self.now) every kind.now (target_text target.now) }
    {
        self.all && every || self.names(kind, target)
    }
}

impl TargetChoice<'_> {
    /// Returns whether dependencies for development of the started members count: in tests, and if there are words for examples, tests
    /// or benchmarks.
    pub fn needs_development(&self) -> bool
        ensures { result ≡ spec.needs_development (target_choice_text self.now) }
    {
        self.test || self.examples.is_given() || self.tests.is_given() || self.benches.is_given()
    }

    /// Returns whether there are words for targets.
    fn is_restricted(&self) -> bool
        ensures { result ≡ spec.is_restricted (target_choice_text self.now) }
    {
        self.lib
            || self.bins.is_given()
            || self.examples.is_given()
            || self.tests.is_given()
            || self.benches.is_given()
    }

    /// Returns whether `target` is chosen as an example, a test or a benchmark.
    fn is_for_development(&self, target: &Target<'_>) -> bool
        ensures { result ≡ spec.is_for_development (target_choice_text self.now) (target_text target.now) }
    {
        let is_example = target.has_kind("example");
        self.examples.choose(is_example, "example", target)
            || self.tests.choose(target.test, "test", target)
            || self.benches.choose(has_benchmarks(target), "bench", target)
    }

    /// Returns whether words for targets choose `target`.
    fn is_worded(&self, target: &Target<'_>) -> bool
        ensures { result ≡ spec.is_worded (target_choice_text self.now) (target_text target.now) }
    {
        let is_program = target.has_kind("bin");
        self.lib && target.is_library()
            || self.bins.choose(is_program, "bin", target)
            || self.is_for_development(target)
    }

    /// Returns whether `target` is chosen. Build scripts never are.
    pub fn is_chosen(&self, target: &Target<'_>) -> bool
        ensures { result ≡ spec.is_chosen (target_choice_text self.now) (target_text target.now) }
    {
        if target.has_kind("custom-build") {
            return false;
        }
        if self.is_restricted() {
            self.is_worded(target)
        } else {
            is_default(self.test, target)
        }
    }

    /// Returns whether `target`, if it is chosen, is built with the dependencies for development.
    pub fn is_with_development(&self, target: &Target<'_>) -> bool
        ensures { result ≡ spec.is_with_development (target_choice_text self.now) (target_text target.now) }
    {
        self.test || self.is_for_development(target)
    }

    /// Returns whether a word for a name chooses `target`.
    pub fn is_by_name(&self, target: &Target<'_>) -> bool
        ensures { result ≡ spec.is_by_name (target_choice_text self.now) (target_text target.now) }
    {
        self.bins.names("bin", target)
            || self.examples.names("example", target)
            || self.tests.names("test", target)
            || self.benches.names("bench", target)
    }
}
