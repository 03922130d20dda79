//! The command line: its words, and the command that they ask for.
ghost use Rattle.std.specs.Prelude.{◌≡◌, ℕ, List, map};
ghost use Rattle.std.specs.List.{before_first, after_first, position};
ghost use Rattle.std.specs.Option.{option_map};
ghost use Rattle.guppy_packages.specs.Rows.{Text, texts};
ghost use Rattle.feature_labels.specs.Names.{label_of, id_of, LabelName};
ghost use Rattle.guppy_tool.specs.Faults.{Gives};
ghost use Rattle.guppy_tool.specs.Words.{given_of, command_text, cut_at_last_slash as slash_cut, label_in, id_in, ids_in, words_ask, id_or_refusal, direction_in, directed_ids, command_in, one_direction, one_package, kind_in, kinds_in, is_dashes, build_in};

use crate::fault::Fault;
use feature_labels::{FeatureId, FeatureLabel};
use guppy_packages::{DependencyDirection, DependencyKind, PackageId};
use std::alloc::{AllocError, AllocFailed, Global};

/// A feature id as a word of the command line; the feature may not exist.
#[derive(Drop)]
pub struct GivenId<'a> {
    pub package_id: PackageId,
    pub label: FeatureLabel<'a>,
}

/// A command of the program.
#[derive(Drop)]
pub enum Command<'a> {
    /// Prints the features reachable from `ids` in `direction`, including `ids`.
    Resolve {
        direction: DependencyDirection,
        ids: Vec<GivenId<'a>>,
    },
    /// Prints the least set that contains `ids` and is closed in `direction` if every link is accepted.
    Visit {
        direction: DependencyDirection,
        ids: Vec<GivenId<'a>>,
    },
    /// Prints all features in the order of their graph, or in its reverse.
    Order {
        direction: DependencyDirection,
    },
    /// Prints the components of the graph that have a cycle.
    Cycles,
    /// Prints the labels of one package.
    List {
        package_id: PackageId,
    },
    /// Prints the warnings from building the graph: items and listed names that refer to nothing, and self-loops.
    Warnings,
    /// Prints each feature that `ids` turn on, with the reason, for the dependency kinds `kinds` and the platform specs
    /// `specs`.
    Build {
        kinds: Vec<DependencyKind>,
        ids: Vec<GivenId<'a>>,
        specs: Vec<&'a str>,
    },
}

/// Splits a word at its last slash; `None` if it has none.
fn cut_at_last_slash(word: &str) -> Option<(&str, &str)>
    ensures { option_map (λ parts. (parts.0.now, parts.1.now)) result ≡ slash_cut word.now }
{
    word.rsplit_once('/')
}

/// Returns the label of a text: `[base]`, `dep:` with a name, or a name.
fn label(text: &str) -> FeatureLabel<'_>
    ensures { label_of result ≡ label_in text.now }
{
    if text == "[base]" {
        return FeatureLabel::Base;
    }
    match text.strip_prefix("dep:") {
        Some(name) => FeatureLabel::OptionalDependency(name),
        None => FeatureLabel::Named(text),
    }
}

/// Returns the id in a word. The error is `BadId` if it has no slash, or `Memory`.
fn id<'a>(alloc: Global, word: &'a str) -> Result<GivenId<'a>, Fault>
    ensures { Gives given_of result (id_or_refusal word.now (id_in word.now)) }
{
    let Some((package_id, rest)) = cut_at_last_slash(word) else {
        let argument = String::from_str(alloc, word)?;
        return Err(Fault::BadId { argument });
    };
    Ok(GivenId {
        package_id: PackageId::new(alloc, package_id)?,
        label: label(rest),
    })
}

/// Returns the ids in `words`. The error is `BadId` with the first word that has no slash, or `Memory`.
fn ids<'a>(alloc: Global, words: &[&'a str]) -> Result<Vec<GivenId<'a>>, Fault>
    ensures { Gives (λ ids. map given_of ids.items) result (ids_in (texts words.now)) }
{
    let mut ids = Vec::new(alloc);
    for word in words {
        ids.push(id(alloc, word)?)?;
    }
    Ok(ids)
}

/// Returns the direction that a word names.
fn direction(word: &str) -> Option<DependencyDirection>
    ensures { result ≡ direction_in word.now }
{
    if word == "forward" {
        return Some(DependencyDirection::Forward);
    }
    if word == "reverse" {
        return Some(DependencyDirection::Reverse);
    }
    None
}

/// Returns the direction and the ids of `arguments`. The error is `Usage` without a direction, `BadId` or `Memory`.
fn directed<'a>(
    alloc: Global,
    arguments: &[&'a str],
) -> Result<(DependencyDirection, Vec<GivenId<'a>>), Fault>
    ensures { Gives (λ asked. (asked.0, map given_of asked.1.items)) result (directed_ids (texts arguments.now)) }
{
    let [word, rest @ ..] = arguments else {
        return Err(Fault::Usage);
    };
    let Some(direction) = direction(word) else {
        return Err(Fault::Usage);
    };
    Ok((direction, ids(alloc, rest)?))
}

/// Returns the command `order` with the one direction in `arguments`, or `Usage`.
fn ordering<'a>(arguments: &[&'a str]) -> Result<Command<'a>, Fault>
    ensures { Gives command_text result (one_direction (texts arguments.now)) }
{
    let [word] = arguments else {
        return Err(Fault::Usage);
    };
    match direction(word) {
        Some(direction) => Ok(Command::Order { direction }),
        None => Err(Fault::Usage),
    }
}

/// Returns the command `list` with the one package in `arguments`, or `Usage` or `Memory`.
fn listing<'a>(alloc: Global, arguments: &[&'a str]) -> Result<Command<'a>, Fault>
    ensures { Gives command_text result (one_package (texts arguments.now)) }
{
    let [package_id] = arguments else {
        return Err(Fault::Usage);
    };
    Ok(Command::List {
        package_id: PackageId::new(alloc, package_id)?,
    })
}

/// Returns the dependency kind that a word names.
fn kind(word: &str) -> Option<DependencyKind>
    ensures { result ≡ kind_in word.now }
{
    if word == "normal" {
        return Some(DependencyKind::Normal);
    }
    if word == "build" {
        return Some(DependencyKind::Build);
    }
    if word == "dev" {
        return Some(DependencyKind::Development);
    }
    None
}

/// Returns the dependency kinds in a word, separated by commas. The error is `Usage` if a part is no kind, or `Memory`.
fn kinds(alloc: Global, word: &str) -> Result<Vec<DependencyKind>, Fault>
    ensures { Gives (λ kinds. kinds.items) result (kinds_in word.now) }
{
    let mut kinds = Vec::new(alloc);
    for part in word.split(',') {
        let Some(kind) = kind(part) else {
            return Err(Fault::Usage);
        };
        kinds.push(kind)?;
    }
    Ok(kinds)
}

/// Returns the index of the first `--`.
fn place_of_dashes(words: &[&str]) -> Option<usize>
    ensures { result ≡ position (λ word. is_dashes word.now) words.now }
{
    words.iter().position(|word| *word == "--")
}

/// Returns the words before the first `--` and the words after it.
fn cut_at_dashes<'w, 'a>(words: &'w [&'a str]) -> (&'w [&'a str], &'w [&'a str])
    ensures before { texts result.0.now ≡ before_first is_dashes (texts words.now) }
    ensures after { texts result.1.now ≡ after_first is_dashes (texts words.now) }
{
    match place_of_dashes(words) {
        Some(place) => (&words[..place], &words[place + 1..]),
        None => (words, &words[words.len()..]),
    }
}

/// Returns the command `build` with these arguments. The error is `Usage`, `BadId` or `Memory`.
fn building<'a>(alloc: Global, arguments: &[&'a str]) -> Result<Command<'a>, Fault>
    ensures { Gives command_text result (build_in (texts arguments.now)) }
{
    let [word, rest @ ..] = arguments else {
        return Err(Fault::Usage);
    };
    let kinds = kinds(alloc, word)?;
    let (given, specs) = cut_at_dashes(rest);
    Ok(Command::Build {
        kinds,
        ids: ids(alloc, given)?,
        specs: specs.to_vec(alloc)?,
    })
}

/// Returns the command named `word` with these arguments. The error is `Usage`, `BadId` or `Memory`.
fn asked<'a>(alloc: Global, word: &str, arguments: &[&'a str]) -> Result<Command<'a>, Fault>
    ensures { Gives command_text result (command_in word.now (texts arguments.now)) }
{
    if word == "resolve" {
        let (direction, ids) = directed(alloc, arguments)?;
        return Ok(Command::Resolve { direction, ids });
    }
    if word == "visit" {
        let (direction, ids) = directed(alloc, arguments)?;
        return Ok(Command::Visit { direction, ids });
    }
    if word == "order" {
        return ordering(arguments);
    }
    if word == "cycles" && arguments.is_empty() {
        return Ok(Command::Cycles);
    }
    if word == "list" {
        return listing(alloc, arguments);
    }
    if word == "warnings" && arguments.is_empty() {
        return Ok(Command::Warnings);
    }
    if word == "build" {
        return building(alloc, arguments);
    }
    Err(Fault::Usage)
}

/// Parses the words after the program's name into the file and the command.
///
/// The forms are `FILE resolve DIRECTION ID...`, `FILE visit DIRECTION ID...`, `FILE order DIRECTION`, `FILE cycles`,
/// `FILE list PACKAGE`, `FILE warnings` and `FILE build KINDS ID... [-- SPEC...]`. DIRECTION is `forward` or `reverse`.
/// KINDS is one or more of `normal`, `build` and `dev`, separated by commas.
///
/// The error is `BadId` with the first ID that has no slash, `Usage` for every other form, or `Memory`.
pub fn parse_words<'a>(alloc: Global, words: &[&'a str]) -> Result<(&'a str, Command<'a>), Fault>
    ensures { Gives (λ asked. (asked.0.now, command_text asked.1)) result (words_ask (texts words.now)) }
{
    let [file, word, arguments @ ..] = words else {
        return Err(Fault::Usage);
    };
    Ok((file, asked(alloc, word, arguments)?))
}
