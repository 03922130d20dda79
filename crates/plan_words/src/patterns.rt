//! Patterns of names.
ghost use Rattle.std.specs.Prelude.{◌≡◌};
ghost use Rattle.std.specs.List.{list_any};
ghost use Rattle.plan_words.specs.Patterns as spec;

/// Returns whether one of the ends of `text`, which may be the whole text, fits `pattern`.
fn end_fits(pattern: &str, text: &str) -> bool
    ensures { result ≡ list_any (spec.fits pattern.now) (spec.ends_of text.now) }
{
    let mut pattern_left = pattern;
    let mut text_left = text;
    // The first place of a part between two stars is the best one: it leaves the most for the rest.
    while let Some((part, rest)) = pattern_left.split_once('*') {
        match text_left.split_once(part) {
            Some((_, after)) => text_left = after,
            None => return false,
        }
        pattern_left = rest;
    }
    text_left.ends_with(pattern_left)
}

/// Returns whether `text` fits `pattern`, in which a star stands for any text, also for none. Other characters stand for themselves.
pub fn fits(pattern: &str, text: &str) -> bool
    ensures { result ≡ spec.fits pattern.now text.now }
{
    match pattern.split_once('*') {
        Some((front, rest)) => match text.strip_prefix(front) {
            Some(tail) => end_fits(rest, tail),
            None => false,
        },
        None => pattern == text,
    }
}
