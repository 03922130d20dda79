//! The commands of the program and their options, as `clap` knows them.
ghost use Rattle.std.specs.Prelude.{◌≡◌, ◌++◌, ◌∷◌, [], codes, false, IfOk};
ghost use Rattle.clap.specs.Words.{App, Shape, app_of, new_app, rule_of, with_subcommand};
ghost use Rattle.feats_words.specs.Commands as spec;
ghost use Rattle.feats_words.specs.inner.Building.{IsMade, alone, with_rules};

use crate::examples::{
    CHECK_EXAMPLE, DIFF_EXAMPLE, DIFF_RESOLVER_HELP, DOT_EXAMPLE, DUPLICATES_EXAMPLE, FEATURE_HELP,
    LIST_EXAMPLE, PLAN_EXAMPLE, REPORT_EXAMPLE, RESOLVER_HELP, SLIM_EXAMPLE, SPECS_EXAMPLE,
    TREE_EXAMPLE, WHY_EXAMPLE, WHY_FEATURE_HELP, WHY_NOT_EXAMPLE,
};
use crate::making::{Made, with_arg};
use crate::options::{
    edges, flag, lettered, option, optional_word, repeated, report_flag, required, short, word,
};
use crate::target_options::with_targets;
use clap::{Arg, Command};
use std::alloc::{AllocError, Global};

/// Returns `command` with the options for platforms and for the resolver. `resolver_help` is the help of `--resolver`.
fn with_platforms<'a>(alloc: Global, command: Made<'a>, resolver_help: &'a str) -> Made<'a>
    ensures { (app : App) → IfOk command.entry (λ c. IsMade c app) → IfOk result (λ r. IsMade r (with_rules app spec.platform_rules)) }
{
    let command = with_arg(
        command,
        required(
            alloc,
            "host",
            "TRIPLE=CFGFILE",
            "The host, and a file with the output of `rustc --print cfg --crate-type proc-macro`, without the line `proc_macro`",
        ),
    );
    let command = with_arg(
        command,
        repeated(
            alloc,
            "target",
            "TRIPLE=CFGFILE",
            "A target platform, and a file with the output of `rustc --print cfg --target TRIPLE --crate-type proc-macro`, without the line `proc_macro`; without it the host",
        ),
    );
    let command = with_arg(command, option(alloc, "resolver", "N", resolver_help));
    with_arg(
        command,
        option(
            alloc,
            "manifest",
            "FILE",
            "The root manifest of the workspace, from which the version of the resolver is read",
        ),
    )
}

/// Adds the options that select features.
fn with_features<'a>(alloc: Global, command: Made<'a>) -> Made<'a>
    ensures { (app : App) → IfOk command.entry (λ c. IsMade c app) → IfOk result (λ r. IsMade r (with_rules app spec.feature_rules)) }
{
    let command = with_arg(
        command,
        lettered(
            alloc,
            "features",
            'F',
            "FEATURES",
            "Features to turn on, separated by white space or commas",
        ),
    );
    let command = with_arg(
        command,
        flag(
            alloc,
            "all-features",
            "Turn on all features of the selected packages",
        ),
    );
    with_arg(
        command,
        flag(
            alloc,
            "no-default-features",
            "Don't turn on the default features of the selected packages",
        ),
    )
}

/// Returns the option of the form of the answer; the help of `dot`, which takes none, hides it.
fn format<'a>(alloc: Global, is_hidden: bool) -> Arg<'a>
    ensures rule { rule_of result ≡ spec.option_rule (codes "format") }
    ensures local { result.global ≡ false }
{
    option(
        alloc,
        "format",
        "FORMAT",
        "`text` (the default) or `json`: one object a line",
    )
    .hide(is_hidden)
}

/// Adds the options that select packages, features and targets, and the form of the answer.
fn with_selection<'a>(alloc: Global, command: Made<'a>, hides_format: bool) -> Made<'a>
    ensures { (app : App) → IfOk command.entry (λ c. IsMade c app) → IfOk result (λ r. IsMade r (with_rules app spec.selection_rules)) }
{
    let command = with_arg(
        command,
        lettered(
            alloc,
            "package",
            'p',
            "SPEC",
            "A package to build: NAME, NAME@VERSION or an id, or members by a pattern as `a*`; without it and --workspace the default members",
        ),
    );
    let command = with_arg(
        command,
        flag(alloc, "workspace", "Build all members of the workspace"),
    );
    let command = with_arg(
        command,
        repeated(
            alloc,
            "exclude",
            "SPEC",
            "A member that --workspace leaves out: NAME, NAME@VERSION or an id, or members by a pattern as `a*`",
        ),
    );
    let command = with_features(alloc, command);
    let command = with_targets(alloc, command);
    with_arg(command, format(alloc, hides_format))
}

/// Adds the options of commands without a document. The resolver's has this help.
fn with_common<'a>(
    alloc: Global,
    command: Made<'a>,
    resolver_help: &'a str,
    hides_format: bool,
) -> Made<'a>
    ensures { (app : App) → IfOk command.entry (λ c. IsMade c app) → IfOk result (λ r. IsMade r (with_rules app (spec.platform_rules ++ spec.selection_rules))) }
{
    with_selection(
        alloc,
        with_platforms(alloc, command, resolver_help),
        hides_format,
    )
}

/// Adds the options of a command about a document.
fn with_options<'a>(alloc: Global, command: Made<'a>, hides_format: bool) -> Made<'a>
    ensures { (app : App) → IfOk command.entry (λ c. IsMade c app) → IfOk result (λ r. IsMade r (with_rules app (spec.document_rule ∷ (spec.platform_rules ++ spec.selection_rules)))) }
{
    let command = with_arg(
        command,
        required(
            alloc,
            "metadata",
            "FILE",
            "The output of `cargo metadata --format-version 1 --all-features`; `-` is standard input",
        ),
    );
    with_common(alloc, command, RESOLVER_HELP, hides_format)
}

/// Returns a command without options.
fn begun<'a>(alloc: Global, name: &'a str, about: &'a str, example: &'a str) -> Made<'a>
    ensures { IfOk result (λ r. IsMade r (new_app name.entry.now)) }
{
    Ok(Command::new(alloc, name).about(about).after_help(example))
}

/// Returns a command without words of its own.
fn wordless<'a>(alloc: Global, name: &'a str, about: &'a str, example: &'a str) -> Made<'a>
    ensures { IfOk result (λ r. IsMade r (alone (spec.command_shape name.entry.now []))) }
{
    with_options(alloc, begun(alloc, name, about, example), false)
}

/// Returns a command with one word, or one option, of its own.
fn worded<'a>(
    alloc: Global,
    name: &'a str,
    about: &'a str,
    example: &'a str,
    word: Arg<'a>,
) -> Made<'a>
    requires { word.global ≡ false }
    ensures { IfOk result (λ r. IsMade r (alone (spec.command_shape name.entry.now (rule_of word.entry ∷ [])))) }
{
    with_options(
        alloc,
        with_arg(begun(alloc, name, about, example), word),
        false,
    )
}

/// Returns the command `plan`.
fn plan_command<'a>(alloc: Global) -> Made<'a>
    ensures { IfOk result (λ r. IsMade r (alone spec.plan_shape)) }
{
    let command = begun(
        alloc,
        "plan",
        "Prints the packages that Cargo builds, each with its features",
        PLAN_EXAMPLE,
    );
    let command = with_arg(
        command,
        flag(
            alloc,
            "summary",
            "Print the packages as TOML, in the form of guppy-summaries",
        ),
    );
    with_options(alloc, with_arg(command, report_flag(alloc, true)), false)
}

/// Returns the command `why`.
fn why_command<'a>(alloc: Global) -> Made<'a>
    ensures { IfOk result (λ r. IsMade r (alone spec.why_shape)) }
{
    let command = begun(
        alloc,
        "why",
        "Prints the steps from what is selected to a feature that is on",
        WHY_EXAMPLE,
    );
    let command = with_arg(command, word(alloc, "feature", "FEATURE", WHY_FEATURE_HELP));
    let command = with_arg(
        command,
        flag(
            alloc,
            "all",
            "Print every direct reason of each step, and not only one",
        ),
    );
    let command = with_arg(
        command,
        flag(
            alloc,
            "routes",
            "Print instead a shortest chain of dependencies to the package from each selected member that leads to it",
        ),
    );
    with_options(alloc, command, false)
}

/// Returns the command `why-not`.
fn why_not_command<'a>(alloc: Global) -> Made<'a>
    ensures { IfOk result (λ r. IsMade r (alone spec.why_not_shape)) }
{
    worded(
        alloc,
        "why-not",
        "Prints which wider selections turn on a feature that is off",
        WHY_NOT_EXAMPLE,
        word(alloc, "feature", "FEATURE", FEATURE_HELP),
    )
}

/// Returns the command `specs`.
fn specs_command<'a>(alloc: Global) -> Made<'a>
    ensures { IfOk result (λ r. IsMade r (alone spec.specs_shape)) }
{
    wordless(
        alloc,
        "specs",
        "Prints the platform specs of the workspace, and the platforms for which each holds",
        SPECS_EXAMPLE,
    )
}

/// Returns the command `list`.
fn list_command<'a>(alloc: Global) -> Made<'a>
    ensures { IfOk result (λ r. IsMade r (alone spec.list_shape)) }
{
    let command = begun(
        alloc,
        "list",
        "Prints the features of a package: whether each is on, and its items",
        LIST_EXAMPLE,
    );
    let command = with_arg(
        command,
        optional_word(
            alloc,
            "spec",
            "SPEC",
            "The package: NAME, NAME@VERSION or an id",
        ),
    );
    let command = with_arg(
        command,
        flag(
            alloc,
            "unused",
            "Print instead the features of members that no other package turns on, and items that can't turn anything on",
        ),
    );
    with_options(alloc, command, false)
}

/// Returns the command `duplicates`.
fn duplicates_command<'a>(alloc: Global) -> Made<'a>
    ensures { IfOk result (λ r. IsMade r (alone spec.duplicates_shape)) }
{
    let command = begun(
        alloc,
        "duplicates",
        "Prints packages that are built in several versions or with different features",
        DUPLICATES_EXAMPLE,
    );
    let command = with_arg(
        command,
        flag(
            alloc,
            "alone",
            "Print too where features differ if each selected member is built alone, and lines that join them",
        ),
    );
    let command = with_arg(
        command,
        flag(
            alloc,
            "places",
            "Print too what is built with the same features for the host and for a target, or for several targets",
        ),
    );
    with_options(alloc, command, false)
}

/// Returns the command `tree`.
fn tree_command<'a>(alloc: Global) -> Made<'a>
    ensures { IfOk result (λ r. IsMade r (alone spec.tree_shape)) }
{
    let command = begun(
        alloc,
        "tree",
        "Prints what depends on what, as a tree",
        TREE_EXAMPLE,
    );
    let command = with_arg(
        command,
        short(
            alloc,
            "invert",
            'i',
            "SPEC",
            "Print what depends on the package: NAME, NAME@VERSION or an id; with `--edges features` what turns on the feature",
        ),
    );
    let command = with_arg(
        command,
        option(
            alloc,
            "depth",
            "N",
            "Print N levels below the roots; 1000 without it",
        ),
    );
    with_options(alloc, with_arg(command, edges(alloc)), false)
}

/// Returns the command `dot`.
fn dot_command<'a>(alloc: Global) -> Made<'a>
    ensures { IfOk result (λ r. IsMade r (alone spec.dot_shape)) }
{
    let command = begun(
        alloc,
        "dot",
        "Prints what depends on what, as a graph for Graphviz",
        DOT_EXAMPLE,
    );
    with_options(alloc, with_arg(command, edges(alloc)), true)
}

/// Returns the command `report`.
fn report_command<'a>(alloc: Global) -> Made<'a>
    ensures { IfOk result (λ r. IsMade r (alone spec.report_shape)) }
{
    wordless(
        alloc,
        "report",
        "Prints the data of the page that `cargo feats report` writes, as JSON",
        REPORT_EXAMPLE,
    )
}

/// Returns the command `check`.
fn check_command<'a>(alloc: Global) -> Made<'a>
    ensures { IfOk result (λ r. IsMade r (alone spec.check_shape)) }
{
    let command = begun(
        alloc,
        "check",
        "Prints the rules of a policy that a build breaks, and why",
        CHECK_EXAMPLE,
    );
    let command = with_arg(
        command,
        word(alloc, "policy", "POLICY", "The file with the rules"),
    );
    let command = with_arg(
        command,
        flag(
            alloc,
            "every-choice",
            "Check each `deny` for every choice of members, features of members, tests and platforms",
        ),
    );
    let command = with_arg(
        command,
        flag(
            alloc,
            "strict",
            "Refuse a policy with a rule whose word names nothing in the document",
        ),
    );
    with_options(alloc, command, false)
}

/// Returns the command `diff`.
fn diff_command<'a>(alloc: Global) -> Made<'a>
    ensures { IfOk result (λ r. IsMade r (alone spec.diff_shape)) }
{
    let command = begun(
        alloc,
        "diff",
        "Prints the packages and features that differ between two builds",
        DIFF_EXAMPLE,
    );
    let command = with_arg(
        command,
        word(
            alloc,
            "old",
            "OLD",
            "The output of `cargo metadata --format-version 1 --all-features` before a change; `-` is standard input",
        ),
    );
    let command = with_arg(
        command,
        word(
            alloc,
            "new",
            "NEW",
            "That after the change; `-` is standard input",
        ),
    );
    let command = with_arg(
        command,
        option(
            alloc,
            "old-manifest",
            "FILE",
            "The root manifest of the workspace of OLD; --manifest is that of NEW",
        ),
    );
    let command = with_arg(command, report_flag(alloc, false));
    with_common(alloc, command, DIFF_RESOLVER_HELP, false)
}

/// Returns the command `slim`.
fn slim_command<'a>(alloc: Global) -> Made<'a>
    ensures { IfOk result (λ r. IsMade r (alone spec.slim_shape)) }
{
    worded(
        alloc,
        "slim",
        "Prints which single edits of the members' dependencies make the build smaller, and by how much",
        SLIM_EXAMPLE,
        option(
            alloc,
            "member-manifests",
            "FILE",
            "The manifests of the members and the root manifest, each ended by a NUL byte; they say what is inherited from [workspace.dependencies]",
        ),
    )
}

/// Returns the program without its commands.
fn bare_command<'a>(alloc: Global) -> Command<'a>
    ensures { app_of result ≡ spec.bare_app }
{
    Command::new(alloc, "feats")
        .about("Says which features Cargo turns on in a build, and why")
        .after_help("`feats --version` prints the version, and whether the program is proved.\n")
        .subcommand_required(true)
}

/// Adds the command `added` to the program `command`.
#[tactic(auto, using(crate::proofs::Building::with_command))]
fn with_command<'a>(command: Made<'a>, added: Made<'a>) -> Made<'a>
    ensures { (app : App) (shape : Shape) → IfOk command.entry (λ c. app_of c ≡ app) → IfOk added.entry (λ c. IsMade c (alone shape)) → IfOk result (λ r. app_of r ≡ with_subcommand app shape) }
{
    command?.subcommand(added?)
}

/// Returns the program with its commands.
pub(crate) fn feats_command<'a>(alloc: Global) -> Result<Command<'a>, AllocError>
    ensures { IfOk result (λ r. app_of r ≡ spec.feats_app) }
{
    let command = with_command(Ok(bare_command(alloc)), plan_command(alloc));
    let command = with_command(command, why_command(alloc));
    let command = with_command(command, why_not_command(alloc));
    let command = with_command(command, specs_command(alloc));
    let command = with_command(command, list_command(alloc));
    let command = with_command(command, duplicates_command(alloc));
    let command = with_command(command, tree_command(alloc));
    let command = with_command(command, dot_command(alloc));
    let command = with_command(command, report_command(alloc));
    let command = with_command(command, check_command(alloc));
    let command = with_command(command, diff_command(alloc));
    with_command(command, slim_command(alloc))
}
