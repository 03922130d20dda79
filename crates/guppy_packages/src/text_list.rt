//! Texts one after the other, in one buffer.
ghost use Rattle.std.specs.Prelude.{◌≡◌, ◌<◌, ◌≤◌, ◌∷◌, Some, length, slice_get, slice_index};
ghost use Rattle.std.specs.String.{string_bytes};
ghost use Rattle.guppy_packages.specs.Parts.{AreEnds, parts};

use std::marker::Model;

/// Texts one after the other, in one buffer. A contract sees it as the list of its texts.
#[derive(Drop)]
pub(crate) struct TextList {
    text: String,
    // the end of each text
    ends: Vec<usize>,
}

impl Model for TextList {
    ghost use Rattle.std.specs.Prelude.{List};
    ghost use Rattle.std.specs.String.{string_bytes};
    ghost use Rattle.guppy_packages.specs.Parts.{AreEnds, parts};
    ghost use Rattle.guppy_packages.specs.Rows.{Text};

    ghost Value = { List Text };

    ghost view = { λ l. parts 0 l.ends.items (string_bytes l.text) };

    ghost invariant = { λ l. AreEnds 0 l.ends.items (string_bytes l.text) };
}

/// Returns the start of text `at`.
#[inline(always)]
fn start(ends: &[usize], at: usize) -> usize
    requires { at ≤ length ends.now }
    ensures { result ≡ slice_index (0 ∷ ends.now) at }
{
    if at == 0 {
        return 0;
    }
    ends[at - 1]
}

/// Returns the end of text `at`.
#[inline(always)]
fn end(ends: &[usize], at: usize) -> usize
    requires { at < length ends.now }
    ensures { result ≡ slice_index ends.now at }
{
    ends[at]
}

/// Returns text `at` of those that end at `ends`, one after the other in `text`.
#[inline(always)]
fn part<'t>(text: &'t str, ends: &[usize], at: usize) -> &'t str
    requires within { at < length ends.now }
    requires cut { AreEnds 0 ends.now text.now }
    ensures { slice_get (parts 0 ends.now text.now) at ≡ Some result.now }
{
    let start = start(ends, at);
    let end = end(ends, at);
    &text[start..end]
}

impl TextList {
    /// Returns the list of the texts that end at `ends`, one after the other in `text`.
    pub(crate) fn new(text: String, ends: Vec<usize>) -> TextList
        requires { AreEnds 0 ends.items (string_bytes text) }
        ensures { result ≡ parts 0 ends.items (string_bytes text) }
    {
        TextList { text, ends }
    }

    /// Returns the number of texts.
    pub(crate) fn len(&self) -> usize
        ensures { result ≡ length self.now }
    {
        self.ends.len()
    }

    /// Returns text `at`.
    #[inline(always)]
    pub(crate) fn text(&self, at: usize) -> &str
        requires { at < length self.now }
        ensures { slice_get self.now at ≡ Some result.now }
    {
        part(self.text.as_str(), self.ends.as_slice(), at)
    }
}
