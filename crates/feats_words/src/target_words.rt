//! The words of a command line that choose targets.
ghost use Rattle.std.specs.Prelude.{◌≡◌, IfOk, option_map};
ghost use Rattle.clap.specs.Words.{found_of, rows_of};
ghost use Rattle.feats_words.specs.Refusals.{Gives};
ghost use Rattle.feats_words.specs.Requests as requests;
ghost use Rattle.feats_words.specs.Requests.{texts};
ghost use Rattle.feats_words.specs.TargetWords as spec;
ghost use Rattle.feats_words.specs.Views.{kind_words_text, target_words_text};

use crate::fault::WordsFault;
use crate::values::{copied, is_given, values};
use clap::ArgMatches;
use std::alloc::{AllocError, Global};

/// The words for targets of one kind.
#[derive(Drop)]
pub struct KindWords<'a> {
    /// True if the word for all targets of the kind is given, as `--bins`.
    pub all: bool,
    /// The words for names, as in `--bin NAME`.
    pub names: Vec<&'a str>,
}

/// The words that choose targets.
#[derive(Drop)]
pub struct TargetWords<'a> {
    pub lib: bool,
    pub all_targets: bool,
    pub bins: KindWords<'a>,
    pub examples: KindWords<'a>,
    pub tests: KindWords<'a>,
    pub benches: KindWords<'a>,
}

/// Returns the words for targets of one kind: `all` is the option for all of them, and `name` that for names.
fn kind_words<'a>(
    alloc: Global,
    matches: &ArgMatches<'a>,
    all: &str,
    name: &str,
) -> Result<KindWords<'a>, AllocError>
    ensures { IfOk result (λ words. kind_words_text words ≡ requests.kind_words all.now name.now (rows_of (found_of matches.now))) }
{
    let names = values(alloc, matches, name)?;
    Ok(KindWords {
        all: is_given(matches, all),
        names,
    })
}

/// Returns the words that choose targets.
pub(crate) fn target_words<'a>(
    alloc: Global,
    matches: &ArgMatches<'a>,
) -> Result<TargetWords<'a>, AllocError>
    ensures { IfOk result (λ words. target_words_text words ≡ requests.target_words (rows_of (found_of matches.now))) }
{
    let bins = kind_words(alloc, matches, "bins", "bin")?;
    let examples = kind_words(alloc, matches, "examples", "example")?;
    let tests = kind_words(alloc, matches, "tests", "test")?;
    let benches = kind_words(alloc, matches, "benches", "bench")?;
    Ok(TargetWords {
        lib: is_given(matches, "lib"),
        all_targets: is_given(matches, "all-targets"),
        bins,
        examples,
        tests,
        benches,
    })
}

/// Returns a copy of `words`.
fn copied_kind<'a>(alloc: Global, words: &KindWords<'a>) -> Result<KindWords<'a>, AllocError>
    ensures { IfOk result (λ copy. kind_words_text copy ≡ kind_words_text words.now) }
{
    let names = copied(alloc, &words.names)?;
    Ok(KindWords {
        all: words.all,
        names,
    })
}

/// Returns a copy of `words`.
pub(crate) fn copied_words<'a>(
    alloc: Global,
    words: &TargetWords<'a>,
) -> Result<TargetWords<'a>, AllocError>
    ensures { IfOk result (λ copy. target_words_text copy ≡ target_words_text words.now) }
{
    let bins = copied_kind(alloc, &words.bins)?;
    let examples = copied_kind(alloc, &words.examples)?;
    let tests = copied_kind(alloc, &words.tests)?;
    let benches = copied_kind(alloc, &words.benches)?;
    Ok(TargetWords {
        lib: words.lib,
        all_targets: words.all_targets,
        bins,
        examples,
        tests,
        benches,
    })
}

/// Returns whether there is a word.
fn are_some(words: &[&str]) -> bool
    ensures { result ≡ spec.are_some (texts words.now) }
{
    match words {
        [] => false,
        [_, ..] => true,
    }
}

/// Returns whether there are words for targets of the kind.
fn is_kind_given(words: &KindWords<'_>) -> bool
    ensures { result ≡ spec.is_kind_given (kind_words_text words.now) }
{
    words.all || are_some(&words.names)
}

/// Returns whether `--tests` is the only one of `words`.
fn is_tests_alone(words: &TargetWords<'_>) -> bool
    ensures { result ≡ spec.is_tests_alone (target_words_text words.now) }
{
    let others = words.lib
        || words.all_targets
        || are_some(&words.tests.names)
        || is_kind_given(&words.bins)
        || is_kind_given(&words.examples)
        || is_kind_given(&words.benches);
    words.tests.all && !others
}

/// Returns whether `--tests` has its old meaning, `--command test`: without `command`, and if it is the only one of `words`.
pub(crate) fn is_old(command: Option<&str>, words: &TargetWords<'_>) -> bool
    ensures { result ≡ spec.is_old (option_map (λ t. t.now) command.entry) (target_words_text words.now) }
{
    match command {
        Some(_) => false,
        None => is_tests_alone(words),
    }
}

/// Returns whether the command is `cargo test`, and not `cargo build`. `Command` if it is another one.
pub(crate) fn is_test(command: Option<&str>) -> Result<bool, WordsFault<'_>>
    ensures { Gives (λ b. b) result (spec.is_test (option_map (λ t. t.now) command.entry)) }
{
    match command {
        None | Some("build") => Ok(false),
        Some("test") => Ok(true),
        Some(word) => Err(WordsFault::Command(word)),
    }
}
