//! The options and the words of commands.
ghost use Rattle.std.specs.Prelude.{◌≡◌, false};
ghost use Rattle.clap.specs.Words.{rule_of};
ghost use Rattle.feats_words.specs.Commands as spec;

use clap::{Arg, ArgAction};
use std::alloc::Global;

/// Returns an option with a value, which is given at most once.
pub(crate) fn option<'a>(alloc: Global, name: &'a str, value: &'a str, help: &'a str) -> Arg<'a>
    ensures rule { rule_of result ≡ spec.option_rule name.entry.now }
    ensures local { result.global ≡ false }
{
    Arg::new(alloc, name)
        .long(name)
        .action(ArgAction::Set)
        .value_name(value)
        .help(help)
}

/// Returns an option with a value, which is given exactly once.
pub(crate) fn required<'a>(alloc: Global, name: &'a str, value: &'a str, help: &'a str) -> Arg<'a>
    ensures rule { rule_of result ≡ spec.required_rule name.entry.now }
    ensures local { result.global ≡ false }
{
    option(alloc, name, value, help).required(true)
}

/// Returns an option with a value, which may be given several times.
pub(crate) fn repeated<'a>(alloc: Global, name: &'a str, value: &'a str, help: &'a str) -> Arg<'a>
    ensures rule { rule_of result ≡ spec.repeated_rule name.entry.now }
    ensures local { result.global ≡ false }
{
    option(alloc, name, value, help).action(ArgAction::Append)
}

/// Returns an option with a value and a letter, which may be given several times.
pub(crate) fn lettered<'a>(
    alloc: Global,
    name: &'a str,
    letter: char,
    value: &'a str,
    help: &'a str,
) -> Arg<'a>
    ensures rule { rule_of result ≡ spec.lettered_rule name.entry.now letter }
    ensures local { result.global ≡ false }
{
    repeated(alloc, name, value, help).short(letter)
}

/// Returns an option with a value and a letter, which is given at most once.
pub(crate) fn short<'a>(
    alloc: Global,
    name: &'a str,
    letter: char,
    value: &'a str,
    help: &'a str,
) -> Arg<'a>
    ensures rule { rule_of result ≡ spec.short_rule name.entry.now letter }
    ensures local { result.global ≡ false }
{
    option(alloc, name, value, help).short(letter)
}

/// Returns an option without a value.
pub(crate) fn flag<'a>(alloc: Global, name: &'a str, help: &'a str) -> Arg<'a>
    ensures rule { rule_of result ≡ spec.flag_rule name.entry.now }
    ensures local { result.global ≡ false }
{
    Arg::new(alloc, name)
        .long(name)
        .action(ArgAction::SetTrue)
        .help(help)
}

/// Returns a word without an option, which is given exactly once.
pub(crate) fn word<'a>(alloc: Global, name: &'a str, value: &'a str, help: &'a str) -> Arg<'a>
    ensures rule { rule_of result ≡ spec.word_rule name.entry.now }
    ensures local { result.global ≡ false }
{
    Arg::new(alloc, name)
        .action(ArgAction::Set)
        .value_name(value)
        .help(help)
        .required(true)
}

/// Returns a word without an option, which is given at most once.
pub(crate) fn optional_word<'a>(
    alloc: Global,
    name: &'a str,
    value: &'a str,
    help: &'a str,
) -> Arg<'a>
    ensures rule { rule_of result ≡ spec.optional_word_rule name.entry.now }
    ensures local { result.global ≡ false }
{
    word(alloc, name, value, help).required(false)
}

/// Returns the option that says what the nodes of a tree or a graph are.
pub(crate) fn edges<'a>(alloc: Global) -> Arg<'a>
    ensures rule { rule_of result ≡ spec.edges_rule }
    ensures local { result.global ≡ false }
{
    short(
        alloc,
        "edges",
        'e',
        "KIND",
        "`packages` (the default), or `features`: print what turns on what",
    )
}

/// Returns the option that asks for the data of a page. `plan` takes it for a build of `diff`; its help hides the option.
pub(crate) fn report_flag<'a>(alloc: Global, is_hidden: bool) -> Arg<'a>
    ensures rule { rule_of result ≡ spec.report_rule }
    ensures local { result.global ≡ false }
{
    flag(
        alloc,
        "report",
        "Print the data of the page that `cargo feats diff --report` writes, as JSON",
    )
    .hide(is_hidden)
}
