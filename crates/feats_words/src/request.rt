//! What a command line asks for.
ghost use Rattle.std.specs.Prelude.{◌≡◌, IfOk, option_map, option_and_then};
ghost use Rattle.clap.specs.Words.{FailsBy, fault_of, found_of, rows_of, subcommand_of, subcommand_rows_of};
ghost use Rattle.feats_words.specs.Commands.{feats_app};
ghost use Rattle.feats_words.specs.Requests as spec;
ghost use Rattle.feats_words.specs.Requests.{texts};
ghost use Rattle.feats_words.specs.Views.{question_text, request_text};

use crate::command::feats_command;
use crate::target_words::{TargetWords, copied_words, target_words};
use crate::values::{copied, is_given, values};
use clap::{ArgMatches, Error};
use std::alloc::{AllocError, Global};

/// The question that a command asks about a build.
#[derive(Clone, Copy)]
pub enum Question<'a> {
    /// Which packages are built?
    Plan,
    /// Which packages are built, as a summary in the form of guppy-summaries?
    Summary,
    /// Why is this feature on? With `all`, every direct reason is wanted.
    Why {
        feature: &'a str,
        all: bool,
    },
    /// What is a shortest chain of dependencies to the package of this word, from each selected member that leads to it?
    Routes(&'a str),
    /// Why is this feature off?
    WhyNot(&'a str),
    /// Which platform specs hold?
    Specs,
    /// Which features does the package of this spec have?
    List(&'a str),
    /// Which features of members does no other package turn on?
    Unused,
    /// What is built several times? With `alone`, where do features differ if each selected member is built alone? With `places`, what is built
    /// in several places, with the same features too?
    Duplicates {
        alone: bool,
        places: bool,
    },
    /// What depends on what? With `invert`, what depends on the part that this word names?
    Tree {
        invert: Option<&'a str>,
    },
    /// What depends on what, as a graph?
    Dot,
    /// Which data does the page about the build contain?
    Report,
    /// Which rules of the policy in this file are broken? With `every_choice`, which `deny` may some choice break? With `strict`, each word
    /// must name something.
    Check {
        policy: &'a str,
        every_choice: bool,
        strict: bool,
    },
    /// Which edit of a declaration makes the build smaller? The file has the manifests, which say what the members inherit.
    Slim {
        manifests: Option<&'a str>,
    },
}

/// What a command line asks for.
#[derive(Drop)]
pub struct Request<'a> {
    pub question: Question<'a>,
    /// True if `--all` is given, which excludes `--routes`.
    pub all: bool,
    /// The package of `list`.
    pub spec: Option<&'a str>,
    /// The path of the document, or `-`.
    pub metadata: &'a str,
    /// The path of the document with which `diff` compares it, or `-`.
    pub new: Option<&'a str>,
    /// The word of the host, as `TRIPLE=CFGFILE`.
    pub host: &'a str,
    /// The words of the target platforms.
    pub targets: Vec<&'a str>,
    /// The version of the resolver.
    pub resolver: Option<&'a str>,
    /// The path of the root manifest. For `diff` with two documents it is that of the second.
    pub manifest: Option<&'a str>,
    /// The path of the root manifest of the first document of `diff`.
    pub old_manifest: Option<&'a str>,
    pub packages: Vec<&'a str>,
    pub workspace: bool,
    /// The members that `workspace` leaves out.
    pub exclude: Vec<&'a str>,
    /// The values of `--features`, each with one or more words.
    pub features: Vec<&'a str>,
    pub all_features: bool,
    pub no_default_features: bool,
    /// The command of cargo whose build is asked for.
    pub command: Option<&'a str>,
    pub target_words: TargetWords<'a>,
    pub format: Option<&'a str>,
    /// How deep a tree is.
    pub depth: Option<&'a str>,
    /// What the nodes of a tree or a graph are.
    pub edges: Option<&'a str>,
}

/// Returns the value of an option or a word that is required.
fn required_value<'a>(matches: &ArgMatches<'a>, name: &str) -> &'a str
    ensures { result.now ≡ spec.required_value name.now (rows_of (found_of matches.now)) }
{
    match matches.get_str(name) {
        Some(value) => value,
        None => "",
    }
}

/// Returns the value of an option or a word.
fn value<'a>(matches: &ArgMatches<'a>, name: &str) -> Option<&'a str>
    ensures { option_map (λ s. s.now) result ≡ spec.value name.now (rows_of (found_of matches.now)) }
{
    matches.get_str(name)
}

/// Returns the path of the document: the value of `--metadata`, or the first word of `diff`.
fn document<'a>(matches: &ArgMatches<'a>) -> &'a str
    ensures { result.now ≡ spec.document (rows_of (found_of matches.now)) }
{
    match value(matches, "metadata") {
        Some(path) => path,
        None => required_value(matches, "old"),
    }
}

/// Returns the question about what is built. With `--report` it is about the data of the page.
fn built<'a>(matches: &ArgMatches<'_>) -> Question<'a>
    ensures { question_text result ≡ spec.built (rows_of (found_of matches.now)) }
{
    if is_given(matches, "report") {
        Question::Report
    } else {
        Question::Plan
    }
}

/// Returns the question of `plan`. With `--summary` it is about the summary.
fn planned<'a>(matches: &ArgMatches<'_>) -> Question<'a>
    ensures { question_text result ≡ spec.planned (rows_of (found_of matches.now)) }
{
    if is_given(matches, "summary") {
        Question::Summary
    } else {
        built(matches)
    }
}

/// Returns the question of `why`. With `--routes` it is about the shortest routes.
fn explained<'a>(matches: &ArgMatches<'a>) -> Question<'a>
    ensures { question_text result ≡ spec.explained (rows_of (found_of matches.now)) }
{
    let feature = required_value(matches, "feature");
    if is_given(matches, "routes") {
        Question::Routes(feature)
    } else {
        Question::Why {
            feature,
            all: is_given(matches, "all"),
        }
    }
}

/// Returns the question about the features of a package. With `--unused` it is about the features that nothing uses.
fn listed<'a>(matches: &ArgMatches<'a>) -> Question<'a>
    ensures { question_text result ≡ spec.listed (rows_of (found_of matches.now)) }
{
    if is_given(matches, "unused") {
        Question::Unused
    } else {
        Question::List(required_value(matches, "spec"))
    }
}

/// Returns the question of the command with this name; `diff` compares what is built. None if there is no such command.
fn question_of<'a>(name: &str, matches: &ArgMatches<'a>) -> Option<Question<'a>>
    ensures { option_map question_text result ≡ spec.question_of name.now (rows_of (found_of matches.now)) }
{
    match name {
        "plan" => Some(planned(matches)),
        "why" => Some(explained(matches)),
        "why-not" => Some(Question::WhyNot(required_value(matches, "feature"))),
        "specs" => Some(Question::Specs),
        "list" => Some(listed(matches)),
        "duplicates" => Some(Question::Duplicates {
            alone: is_given(matches, "alone"),
            places: is_given(matches, "places"),
        }),
        "tree" => Some(Question::Tree {
            invert: value(matches, "invert"),
        }),
        "dot" => Some(Question::Dot),
        "report" => Some(Question::Report),
        "check" => Some(Question::Check {
            policy: required_value(matches, "policy"),
            every_choice: is_given(matches, "every-choice"),
            strict: is_given(matches, "strict"),
        }),
        "diff" => Some(built(matches)),
        "slim" => Some(Question::Slim {
            manifests: value(matches, "member-manifests"),
        }),
        _ => None,
    }
}

/// Returns what a question and the options of its command ask for.
fn asked<'a>(
    alloc: Global,
    question: Question<'a>,
    matches: &ArgMatches<'a>,
) -> Result<Request<'a>, AllocError>
    ensures { IfOk result (λ request. request_text request ≡ spec.asked (question_text question.entry) (rows_of (found_of matches.now))) }
{
    Ok(Request {
        question,
        all: is_given(matches, "all"),
        spec: value(matches, "spec"),
        metadata: document(matches),
        new: value(matches, "new"),
        host: required_value(matches, "host"),
        targets: values(alloc, matches, "target")?,
        resolver: value(matches, "resolver"),
        manifest: value(matches, "manifest"),
        old_manifest: value(matches, "old-manifest"),
        packages: values(alloc, matches, "package")?,
        workspace: is_given(matches, "workspace"),
        exclude: values(alloc, matches, "exclude")?,
        features: values(alloc, matches, "features")?,
        all_features: is_given(matches, "all-features"),
        no_default_features: is_given(matches, "no-default-features"),
        command: value(matches, "command"),
        target_words: target_words(alloc, matches)?,
        format: value(matches, "format"),
        depth: value(matches, "depth"),
        edges: value(matches, "edges"),
    })
}

/// Returns `request` about the document at `metadata` alone, whose root manifest is at `manifest`. The only error is out of memory.
pub fn document_request<'a>(
    alloc: Global,
    request: &Request<'a>,
    metadata: &'a str,
    manifest: Option<&'a str>,
) -> Result<Request<'a>, AllocError>
    ensures { IfOk result (λ one. request_text one ≡ spec.document_request (request_text request.now) metadata.entry.now (option_map (λ t. t.now) manifest.entry)) }
{
    Ok(Request {
        question: request.question,
        all: request.all,
        spec: request.spec,
        metadata,
        new: None,
        host: request.host,
        targets: copied(alloc, &request.targets)?,
        resolver: request.resolver,
        manifest,
        old_manifest: None,
        packages: copied(alloc, &request.packages)?,
        workspace: request.workspace,
        exclude: copied(alloc, &request.exclude)?,
        features: copied(alloc, &request.features)?,
        all_features: request.all_features,
        no_default_features: request.no_default_features,
        command: request.command,
        target_words: copied_words(alloc, &request.target_words)?,
        format: request.format,
        depth: request.depth,
        edges: request.edges,
    })
}

/// Returns what the command with this name is asked for by its options. None if there is no such command.
fn request_of<'a>(
    alloc: Global,
    name: &str,
    matches: &ArgMatches<'a>,
) -> Result<Option<Request<'a>>, AllocError>
    ensures { IfOk result (λ request. option_map request_text request ≡ spec.request_of (name.now, rows_of (found_of matches.now))) }
{
    match question_of(name, matches) {
        Some(question) => {
            let request = asked(alloc, question, matches)?;
            Ok(Some(request))
        }
        None => Ok(None),
    }
}

/// Returns the values of the options of `words`; the first word is the program's name.
fn matches_of<'a>(alloc: Global, words: &'a [&str]) -> Result<ArgMatches<'a>, Error>
    ensures command { IfOk result (λ matches. subcommand_rows_of matches ≡ subcommand_of feats_app (texts words.now)) }
    ensures fault { FailsBy (fault_of feats_app (texts words.now)) result }
{
    let command = feats_command(alloc)?;
    command.try_get_matches_from(words)
}

/// Returns what the matches of the program ask for.
fn request_in<'a>(
    alloc: Global,
    matches: &ArgMatches<'a>,
) -> Result<Option<Request<'a>>, AllocError>
    ensures { IfOk result (λ request. option_map request_text request ≡ option_and_then spec.request_of (subcommand_rows_of matches.now)) }
{
    match matches.subcommand() {
        Some((name, matches)) => request_of(alloc, name, matches),
        None => Ok(None),
    }
}

/// Returns what `words` ask for; the first is the program's name. None if they name no command. The error is the first mistake in the
/// words, a request for help, or `OutOfMemory`; its text is `clap`'s.
pub fn parse<'a>(alloc: Global, words: &'a [&str]) -> Result<Option<Request<'a>>, Error>
    ensures request { IfOk result (λ request. option_map request_text request ≡ spec.request_in (texts words.now)) }
    ensures fault { FailsBy (fault_of feats_app (texts words.now)) result }
{
    let matches = matches_of(alloc, words)?;
    Ok(request_in(alloc, &matches)?)
}
