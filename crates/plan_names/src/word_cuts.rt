//! Words cut at their last slash.
ghost use Rattle.std.specs.Prelude.{◌≡◌, option_map};
ghost use Rattle.std.specs.List.{list_any};
ghost use Rattle.plan_names.specs.Names as spec;
ghost use Rattle.plan_names.specs.inner.Cuts.{cut_of, cut_text};

/// The parts of a word before and after its last slash.
#[derive(Clone, Copy)]
pub(crate) struct Cut<'w> {
    pub(crate) front: &'w str,
    pub(crate) name: &'w str,
}

/// Returns the parts of `word`; None if it has no slash.
pub(crate) fn cut_word<'w>(word: &'w str) -> Option<Cut<'w>>
    ensures { option_map cut_text result ≡ cut_of word.now }
{
    match word.rsplit_once('/') {
        Some((front, name)) => Some(Cut { front, name }),
        None => None,
    }
}

/// Returns whether the name in `word` has a star. The name is what follows the last slash, or the whole word.
pub(crate) fn has_star(word: &str) -> bool
    ensures { result ≡ spec.has_star word.now }
{
    match cut_word(word) {
        Some(cut) => cut.name.contains('*'),
        None => word.contains('*'),
    }
}
