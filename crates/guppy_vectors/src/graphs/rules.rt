//! An offerer that accepts by a rule and logs the offers.
use crate::shared::{Out, cut};
use feature_core::engine::{Half, Offerer};

/// A rule by which an offerer accepts offers.
#[derive(Clone, Copy)]
pub enum Rule<'a> {
    /// Accepts each offer.
    All,
    /// Refuses each offer.
    Nothing,
    /// Accepts this many offers, and refuses the rest.
    First(usize),
    /// Accepts the first offer, refuses the second, and so on.
    Alternate,
    /// Accepts the offers that the text lists, separated by commas.
    These(&'a str),
}

/// Returns the letter for `half`.
pub fn letter(half: Half) -> &'static str {
    match half {
        Half::Full => "F",
        Half::Required => "R",
        Half::Optional => "O",
    }
}

/// Returns whether `offers`, separated by commas, contain the number `edge` followed by the letter of `half`.
fn lists(offers: &str, edge: usize, half: Half) -> bool {
    for word in offers.split(',') {
        if let Some(number) = word.strip_suffix(letter(half)) {
            if number.parse::<usize>() == Ok(edge) {
                return true;
            }
        }
    }
    false
}

impl<'a> Rule<'a> {
    /// Returns the rule that `words` name; `Nothing` for any other words.
    pub fn of(words: &'a str) -> Self {
        let (name, options) = cut(words);
        match name {
            "all" => Rule::All,
            "first" => Rule::First(options.parse::<usize>().unwrap_or(0)),
            "alternate" => Rule::Alternate,
            "these" => Rule::These(options),
            _ => Rule::Nothing,
        }
    }

    /// Returns whether an offer is accepted after `before` others.
    fn accepts(self, before: usize, edge: usize, half: Half) -> bool {
        match self {
            Rule::All => true,
            Rule::Nothing => false,
            Rule::First(count) => before < count,
            Rule::Alternate => before % 2 == 0,
            Rule::These(offers) => lists(offers, edge, half),
        }
    }
}

/// An offerer that accepts by `rule`, counts the offers in `count`, and writes each to `out`.
#[derive(Clone, Copy)]
pub struct Asked<'a> {
    pub rule: Rule<'a>,
    pub count: usize,
    pub out: &'a Out,
}

impl Offerer for Asked<'_> {
    ghost can_offer = { λ _ _ _. Unit {0} };

    ghost gives = { λ _ _ _ _ _. Unit {0} };

    fn offer(&mut self, edge: usize, half: Half) -> bool {
        let accepted = self.rule.accepts(self.count, edge, half);
        self.count = self.count.saturating_add(1);
        self.out.number("- ", edge);
        self.out.part(letter(half));
        self.out.line(if accepted { " yes" } else { " no" });
        accepted
    }
}
