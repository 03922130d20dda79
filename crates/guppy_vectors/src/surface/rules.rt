//! Rules by which a visitor accepts links.
use crate::shared::cut;
use guppy_features::{ConditionalLink, DependencyKind, PlatformStatus, Spec};
use std::alloc::Global;

/// Returns the spec of this number. A boxed visitor holds no strings, so a rule keeps the number of its spec.
fn spec_at(number: u8) -> &'static str {
    match number {
        1 => "cfg(unix)",
        2 => "cfg(any())",
        3 => "cfg(a)",
        4 => "cfg(b)",
        _ => "no spec",
    }
}

/// Returns the number of the spec `word`, or 0 for any other word.
fn spec_number(word: &str) -> u8 {
    for number in 1..5 {
        if spec_at(number) == word {
            return number;
        }
    }
    0
}

/// The dependency kinds and the spec of one platform.
#[derive(Clone, Copy)]
pub struct Platform {
    normal: bool,
    build: bool,
    dev: bool,
    /// The number of its spec, for `spec_at`.
    spec: u8,
}

/// A rule by which a visitor accepts links.
#[derive(Clone, Copy)]
pub enum Rule {
    /// Accepts all links.
    All,
    /// Accepts all links, and logs a copy of the context.
    Copies(Global),
    /// Accepts all links, and logs the `Debug` texts of the link and its context.
    Debug,
    /// Accepts no link.
    Nothing,
    /// Accepts a link if the bit of its call is set; calls are counted from 0.
    Only(u64),
    /// Accepts the links that are present on a platform.
    On(Platform),
}

impl Platform {
    /// Returns the platform of `words`: kinds separated by commas, then a spec or nothing.
    fn of(words: &str) -> Self {
        let (kinds, spec) = cut(words);
        Platform {
            normal: kinds.contains("normal"),
            build: kinds.contains("build"),
            dev: kinds.contains("dev"),
            spec: spec_number(spec),
        }
    }

    /// Returns whether `status` holds on the platform.
    fn meets(self, status: PlatformStatus<'_>) -> bool {
        match status {
            PlatformStatus::Never => false,
            PlatformStatus::Always => true,
            PlatformStatus::PlatformDependent(specs) => is_among(spec_at(self.spec), specs),
        }
    }

    /// Returns whether `link` is present on the platform for one of its kinds.
    fn has(self, link: ConditionalLink<'_>) -> bool {
        (self.normal && self.meets(link.status_for_kind(DependencyKind::Normal)))
            || (self.build && self.meets(link.status_for_kind(DependencyKind::Build)))
            || (self.dev && self.meets(link.status_for_kind(DependencyKind::Development)))
    }
}

/// Returns whether one of `specs` has the text `text`.
fn is_among(text: &str, specs: &[Spec]) -> bool {
    for spec in specs {
        if spec.text() == text {
            return true;
        }
    }
    false
}

impl Rule {
    /// Returns the rule that `words` name; `Nothing` for any other words.
    pub fn of(alloc: Global, words: &str) -> Self {
        let (name, options) = cut(words);
        match name {
            "all" => Rule::All,
            "copies" => Rule::Copies(alloc),
            "debug" => Rule::Debug,
            "only" => Rule::Only(options.parse::<u64>().unwrap_or(0)),
            "on" => Rule::On(Platform::of(options)),
            _ => Rule::Nothing,
        }
    }

    /// Returns whether `link` is accepted as call `place`, counted from 0.
    pub fn accepts(self, place: usize, link: ConditionalLink<'_>) -> bool {
        match self {
            Rule::All | Rule::Copies(_) | Rule::Debug => true,
            Rule::Nothing => false,
            Rule::Only(places) => place < 64 && places & (1 << place) != 0,
            Rule::On(platform) => platform.has(link),
        }
    }
}
