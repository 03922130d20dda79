//! The arguments of a command, parsed from the words of a request.
ghost use Rattle.std.specs.Prelude.{map, option_map};
ghost use Rattle.feats_words.specs.Arguments as spec;
ghost use Rattle.feats_words.specs.Refusals.{Gives};
ghost use Rattle.feats_words.specs.Requests.{texts};
ghost use Rattle.feats_words.specs.Views.{arguments_text, platform_text, question_text, request_text, source_text};

use crate::depths::depth_of;
use crate::edges::{Edges, edges_of};
use crate::fault::WordsFault;
use crate::platform_words::{PlatformWord, platform_word};
use crate::request::{Question, Request};
use crate::splitting::feature_words;
use crate::target_words::{TargetWords, is_old, is_test};
use cargo_manifests::resolvers::Resolver;
use std::alloc::Global;

/// Where the version of the resolver comes from.
#[derive(Clone, Copy)]
pub enum ResolverSource<'a> {
    Version(Resolver),
    /// The root manifest at this path.
    Manifest(&'a str),
}

/// The forms of an answer.
#[derive(Clone, Copy, PartialEq, Eq, Debug)]
pub enum Format {
    Text,
    Json,
}

/// The arguments of a command.
pub struct CommandArguments<'a> {
    pub question: Question<'a>,
    /// The path of the document, or `-`.
    pub metadata: &'a str,
    pub host: PlatformWord<'a>,
    pub targets: Vec<PlatformWord<'a>>,
    pub resolver: ResolverSource<'a>,
    pub packages: Vec<&'a str>,
    pub workspace: bool,
    /// The members that `workspace` leaves out.
    pub exclude: Vec<&'a str>,
    /// The feature words, which are split already.
    pub features: Vec<&'a str>,
    pub all_features: bool,
    pub no_default_features: bool,
    /// True for the build of `cargo test`.
    pub test: bool,
    /// True if it is that build because of `--tests` with its old meaning.
    pub has_old_tests: bool,
    pub target_words: TargetWords<'a>,
    pub format: Format,
    /// How deep a tree is; `None` without the word.
    pub depth: Option<usize>,
    /// What the nodes of a tree or a graph are.
    pub edges: Edges,
}

impl Drop for CommandArguments<'_> {
    // Written out, so that a crate above calls it. A derived drop is proved in each crate that drops a value, with those of all fields.
    fn drop(self) {
        let CommandArguments {
            question: _question,
            metadata: _metadata,
            host: _host,
            targets: _targets,
            resolver: _resolver,
            packages: _packages,
            workspace: _workspace,
            exclude: _exclude,
            features: _features,
            all_features: _all_features,
            no_default_features: _no_default_features,
            test: _test,
            has_old_tests: _has_old_tests,
            target_words: _target_words,
            format: _format,
            depth: _depth,
            edges: _edges,
        } = self;
    }
}

/// Returns the platform of `word`, or `Platform` if it isn't `TRIPLE=CFGFILE`.
fn platform(word: &str) -> Result<PlatformWord<'_>, WordsFault<'_>>
    ensures { Gives platform_text result (spec.platform word.now) }
{
    match platform_word(word) {
        Some(platform) => Ok(platform),
        None => Err(WordsFault::Platform(word)),
    }
}

/// Returns the platforms of `words`, or `Platform` with the first that isn't `TRIPLE=CFGFILE`.
fn platforms<'a>(alloc: Global, words: &[&'a str]) -> Result<Vec<PlatformWord<'a>>, WordsFault<'a>>
    ensures { Gives (λ platforms. map platform_text platforms.items) result (spec.platforms (texts words.now)) }
{
    let mut platforms = Vec::new(alloc);
    for word in words {
        platforms.push(platform(word)?)?;
    }
    Ok(platforms)
}

/// Returns the version of the resolver that `word` names.
fn version(word: &str) -> Result<ResolverSource<'_>, WordsFault<'_>>
    ensures { Gives source_text result (spec.version word.now) }
{
    match Resolver::named(word) {
        Some(resolver) => Ok(ResolverSource::Version(resolver)),
        None => Err(WordsFault::Resolver(word)),
    }
}

/// Returns the source of the resolver's version: 2, if neither is given.
fn resolver_source<'a>(
    word: Option<&'a str>,
    manifest: Option<&'a str>,
) -> Result<ResolverSource<'a>, WordsFault<'a>>
    ensures { Gives source_text result (spec.resolver_source (option_map (λ t. t.now) word.entry) (option_map (λ t. t.now) manifest.entry)) }
{
    match (word, manifest) {
        (Some(_), Some(_)) => Err(WordsFault::TwoResolvers),
        (Some(word), None) => version(word),
        (None, Some(path)) => Ok(ResolverSource::Manifest(path)),
        (None, None) => Ok(ResolverSource::Version(Resolver::V2)),
    }
}

/// Returns the format that `word` names: text, if there is none.
fn format_of(word: Option<&str>) -> Result<Format, WordsFault<'_>>
    ensures { Gives (λ f. f) result (spec.format (option_map (λ t. t.now) word.entry)) }
{
    match word {
        None | Some("text") => Ok(Format::Text),
        Some("json") => Ok(Format::Json),
        Some(word) => Err(WordsFault::Format(word)),
    }
}

/// Returns JSON, the only format of the data of a page, or `Format` if `word` isn't a format.
fn report_format(word: Option<&str>) -> Result<Format, WordsFault<'_>>
    ensures { Gives (λ f. f) result (spec.report_format (option_map (λ t. t.now) word.entry)) }
{
    match format_of(word) {
        Ok(_) => Ok(Format::Json),
        Err(fault) => Err(fault),
    }
}

/// Returns the format that `word` names for the answer to `question`, or JSON for the data of a page. Returns `GraphFormat` if `dot` is
/// given a format, and `SummaryFormat` if `plan --summary` is.
fn format_for<'a>(question: Question<'_>, word: Option<&'a str>) -> Result<Format, WordsFault<'a>>
    ensures { Gives (λ f. f) result (spec.format_for (question_text question.entry) (option_map (λ t. t.now) word.entry)) }
{
    match (question, word) {
        (Question::Dot, Some(_)) => Err(WordsFault::GraphFormat),
        (Question::Summary, Some(_)) => Err(WordsFault::SummaryFormat),
        (Question::Report, word) => report_format(word),
        (_, word) => format_of(word),
    }
}

/// Returns `RoutesOfAll` if `question` is about routes and `all` is true.
fn not_both<'a>(question: Question<'_>, all: bool) -> Result<(), WordsFault<'a>>
    ensures { Gives (λ u. u) result (spec.not_both (question_text question.entry) all) }
{
    match (question, all) {
        (Question::Routes(_), true) => Err(WordsFault::RoutesOfAll),
        _ => Ok(()),
    }
}

/// Returns `ListOfNothing` if `question` is about the features of one package and `named` is none. Returns `UnusedOfOne` if it is about features
/// that nothing uses and `named` is some.
fn of_one<'a>(question: Question<'_>, named: Option<&str>) -> Result<(), WordsFault<'a>>
    ensures { Gives (λ u. u) result (spec.of_one (question_text question.entry) (option_map (λ t. t.now) named.entry)) }
{
    match (question, named) {
        (Question::List(_), None) => Err(WordsFault::ListOfNothing),
        (Question::Unused, Some(_)) => Err(WordsFault::UnusedOfOne),
        _ => Ok(()),
    }
}

/// Returns `PackagesOfEveryChoice` if `question` is about every choice, and `packages`, which are selected or excluded, aren't empty.
fn all_members<'a>(question: Question<'_>, packages: &[&str]) -> Result<(), WordsFault<'a>>
    ensures { Gives (λ u. u) result (spec.all_members (question_text question.entry) (texts packages.now)) }
{
    match (question, packages) {
        (
            Question::Check {
                policy: _,
                every_choice: true,
                strict: _,
            },
            [_, ..],
        ) => Err(WordsFault::PackagesOfEveryChoice),
        _ => Ok(()),
    }
}

/// Returns `ExcludeAlone` if there is a word in `exclude` and `workspace` is false: `--exclude` needs `--workspace`.
fn of_all_members<'a>(workspace: bool, exclude: &[&str]) -> Result<(), WordsFault<'a>>
    ensures { Gives (λ u. u) result (spec.of_all_members workspace (texts exclude.now)) }
{
    match (workspace, exclude) {
        (false, [_, ..]) => Err(WordsFault::ExcludeAlone),
        _ => Ok(()),
    }
}

/// Returns the arguments of a request. The error is the first word that can't be read: of the host, of the targets, of the resolver, of
/// the format, of the depth, of the edges; `RoutesOfAll`; `ListOfNothing`; `UnusedOfOne`; `PackagesOfEveryChoice`; `ExcludeAlone`;
/// `Command`; or `Memory`.
pub fn arguments<'a>(
    alloc: Global,
    request: Request<'a>,
) -> Result<CommandArguments<'a>, WordsFault<'a>>
    ensures { Gives arguments_text result (spec.arguments (request_text request.entry)) }
{
    let host = platform(request.host)?;
    let targets = platforms(alloc, &request.targets)?;
    let resolver = resolver_source(request.resolver, request.manifest)?;
    let format = format_for(request.question, request.format)?;
    let depth = depth_of(request.depth)?;
    let edges = edges_of(request.edges)?;
    not_both(request.question, request.all)?;
    of_one(request.question, request.spec)?;
    all_members(request.question, &request.packages)?;
    all_members(request.question, &request.exclude)?;
    of_all_members(request.workspace, &request.exclude)?;
    let test = is_test(request.command)?;
    let has_old_tests = is_old(request.command, &request.target_words);
    let features = feature_words(alloc, &request.features)?;
    Ok(CommandArguments {
        question: request.question,
        metadata: request.metadata,
        host,
        targets,
        resolver,
        packages: request.packages,
        workspace: request.workspace,
        exclude: request.exclude,
        features,
        all_features: request.all_features,
        no_default_features: request.no_default_features,
        test: test || has_old_tests,
        has_old_tests,
        target_words: request.target_words,
        format,
        depth,
        edges,
    })
}
