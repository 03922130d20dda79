//! Parsing of a call's words.
use crate::shared::failure::Failure;
use feature_labels::FeatureLabel;
use guppy_packages::{DependencyDirection, DependencyKind, PackageId, Spec};
use guppy_support::Edge;
use std::alloc::{AllocError, Global};

/// Returns the parts of `text` before and after its first space; all of `text` and an empty part without a space.
pub fn cut(text: &str) -> (&str, &str) {
    text.split_once(' ').unwrap_or((text, ""))
}

/// Returns word number `place` of `text`, counted from 0; an empty word if there are fewer.
pub fn word_at(text: &str, place: usize) -> &str {
    text.split(' ').nth(place).unwrap_or("")
}

/// Returns the parts of `text` before and after the first `between`; `Words` if `text` doesn't contain it.
pub fn halves<'t>(text: &'t str, between: &str) -> Result<(&'t str, &'t str), Failure> {
    match text.split_once(between) {
        Some(halves) => Ok(halves),
        None => Err(Failure::Words),
    }
}

/// Parses `word` as a number; `Words` if it isn't a `usize`.
pub fn number(word: &str) -> Result<usize, Failure> {
    match word.parse::<usize>() {
        Ok(number) => Ok(number),
        Err(_) => Err(Failure::Words),
    }
}

/// Returns `Reverse` if `word` is `reverse`, and `Forward` otherwise.
pub fn direction_of(word: &str) -> DependencyDirection {
    if word == "reverse" {
        DependencyDirection::Reverse
    } else {
        DependencyDirection::Forward
    }
}

/// Splits the id `word` at its last slash into package and label. Without a slash, the label is `[base]`.
pub fn parts(word: &str) -> (&str, &str) {
    word.rsplit_once('/').unwrap_or((word, "[base]"))
}

/// Returns the label that `text` names: the base for `[base]`, an optional dependency after `dep:`, and else a named feature.
pub fn label_of(text: &str) -> FeatureLabel<'_> {
    if text == "[base]" {
        return FeatureLabel::Base;
    }
    match text.strip_prefix("dep:") {
        Some(name) => FeatureLabel::OptionalDependency(name),
        None => FeatureLabel::Named(text),
    }
}

/// A value that is read from one word of a call.
pub trait FromWord<'w>: Drop {
    /// Parses `word`. `Words` if it names no value, `Memory` if an allocation fails.
    fn from_word(alloc: Global, word: &'w str) -> Result<Self, Failure>;
}

impl<'w> FromWord<'w> for &'w str {
    fn from_word(_: Global, word: &'w str) -> Result<&'w str, Failure> {
        Ok(word)
    }
}

impl<'w> FromWord<'w> for FeatureLabel<'w> {
    fn from_word(_: Global, word: &'w str) -> Result<FeatureLabel<'w>, Failure> {
        Ok(label_of(word))
    }
}

impl<'w> FromWord<'w> for PackageId {
    /// Reads `''` as the empty id.
    fn from_word(alloc: Global, word: &'w str) -> Result<PackageId, Failure> {
        Ok(PackageId::new(alloc, if word == "''" { "" } else { word })?)
    }
}

impl<'w> FromWord<'w> for Spec {
    fn from_word(alloc: Global, word: &'w str) -> Result<Spec, Failure> {
        Ok(Spec::new(alloc, word)?)
    }
}

impl<'w> FromWord<'w> for Edge {
    /// Reads `1>0` as an edge from 1 to 0, and `1~0` as a dev-only one.
    fn from_word(_: Global, word: &'w str) -> Result<Edge, Failure> {
        let non_dev = word.contains('>');
        let (from, to) = halves(word, if non_dev { ">" } else { "~" })?;
        Ok(Edge {
            from: number(from)?,
            to: number(to)?,
            non_dev,
        })
    }
}

/// Parses each word of `text`, in order. `Words` if one names no value, `Memory` if an allocation fails.
pub fn all_of<'w, T: FromWord<'w>>(alloc: Global, text: &'w str) -> Result<Vec<T>, Failure> {
    let mut all = Vec::new(alloc);
    for word in text.split_whitespace() {
        all.push(T::from_word(alloc, word)?)?;
    }
    Ok(all)
}

/// Returns the dependency kinds that `words` name, separated by commas; other words are skipped. `AllocError` if an
/// allocation fails.
pub fn kinds_of(alloc: Global, words: &str) -> Result<Vec<DependencyKind>, AllocError> {
    let mut kinds = Vec::new(alloc);
    for word in words.split(',') {
        match word {
            "normal" => kinds.push(DependencyKind::Normal)?,
            "build" => kinds.push(DependencyKind::Build)?,
            "dev" => kinds.push(DependencyKind::Development)?,
            _ => {}
        }
    }
    Ok(kinds)
}
