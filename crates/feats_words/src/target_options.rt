//! The options that choose targets.
ghost use Rattle.std.specs.Prelude.{IfOk};
ghost use Rattle.clap.specs.Words.{App};
ghost use Rattle.feats_words.specs.Commands as spec;
ghost use Rattle.feats_words.specs.inner.Building.{IsMade, with_rules};

use crate::making::{Made, with_arg};
use crate::options::{flag, option, repeated};
use std::alloc::Global;

/// Adds the option `all` for all targets of a kind, and the option `name` for a target's name, each with its help.
fn with_kind<'a>(
    alloc: Global,
    command: Made<'a>,
    all: &'a str,
    all_help: &'a str,
    name: &'a str,
    name_help: &'a str,
) -> Made<'a>
    ensures { (app : App) → IfOk command.entry (λ c. IsMade c app) → IfOk result (λ r. IsMade r (with_rules app (spec.kind_rules all.entry.now name.entry.now))) }
{
    let command = with_arg(command, flag(alloc, all, all_help));
    with_arg(command, repeated(alloc, name, "NAME", name_help))
}

/// Adds the options that choose targets.
pub(crate) fn with_targets<'a>(alloc: Global, command: Made<'a>) -> Made<'a>
    ensures { (app : App) → IfOk command.entry (λ c. IsMade c app) → IfOk result (λ r. IsMade r (with_rules app spec.target_rules)) }
{
    let command = with_arg(
        command,
        option(
            alloc,
            "command",
            "COMMAND",
            "The command of cargo whose build is meant: `build` (the default) or `test`",
        ),
    );
    let command = with_arg(
        command,
        flag(
            alloc,
            "lib",
            "Build the libraries of the selected packages; without a word for targets libraries and programs",
        ),
    );
    let command = with_kind(
        alloc,
        command,
        "bins",
        "Build the programs",
        "bin",
        "Build this program, or those that fit a pattern as `a*`",
    );
    let command = with_kind(
        alloc,
        command,
        "examples",
        "Build the examples",
        "example",
        "Build this example, or those that fit a pattern",
    );
    let command = with_kind(
        alloc,
        command,
        "tests",
        "Build the tests: all targets with `test = true`; in this version it means `--command test` if it is the only word for targets",
        "test",
        "Build this test, or those that fit a pattern",
    );
    let command = with_kind(
        alloc,
        command,
        "benches",
        "Build the benchmarks: all targets with `bench = true`",
        "bench",
        "Build this benchmark, or those that fit a pattern",
    );
    with_arg(
        command,
        flag(alloc, "all-targets", "Build the targets of all these kinds"),
    )
}
