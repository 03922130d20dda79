//! The parts of words.
ghost use Rattle.std.specs.Prelude.{◌≡◌, option_map};
ghost use Rattle.plan_words.specs.FeatureWords as spec;
ghost use Rattle.plan_words.specs.inner.Views.{parts_text};

/// The parts of a word `DEPENDENCY/FEATURE` or `DEPENDENCY?/FEATURE`.
#[derive(Clone, Copy)]
pub(crate) struct Parts<'s> {
    pub(crate) name: &'s str,
    pub(crate) feature: &'s str,
}

/// Returns `name` without one `?` at its end.
fn without_mark<'s>(name: &'s str) -> &'s str
    ensures { result.now ≡ spec.without_mark name.now }
{
    match name.strip_suffix('?') {
        Some(front) => front,
        None => name,
    }
}

/// Returns the parts of `word`, which is cut at its first slash; None if it has no slash.
pub(crate) fn parts_of<'s>(word: &'s str) -> Option<Parts<'s>>
    ensures { option_map parts_text result ≡ spec.parts_of word.now }
{
    match word.split_once('/') {
        Some((front, feature)) => Some(Parts {
            name: without_mark(front),
            feature,
        }),
        None => None,
    }
}
