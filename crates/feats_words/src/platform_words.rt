//! Platform words: a triple, and the file with its facts.
ghost use Rattle.std.specs.Prelude.{◌≡◌, option_map};
ghost use Rattle.feats_words.specs.PlatformWords as spec;
ghost use Rattle.feats_words.specs.Views.{platform_text};

/// A platform of the command line.
#[derive(Clone, Copy)]
pub struct PlatformWord<'a> {
    pub triple: &'a str,
    /// The path of the file with its facts.
    pub path: &'a str,
}

/// Returns the platform of a word `TRIPLE=CFGFILE`, which is split at its first `=`. None if it has none, or if a part is empty.
pub fn platform_word(word: &str) -> Option<PlatformWord<'_>>
    ensures { option_map platform_text result ≡ spec.platform_word word.now }
{
    match word.split_once('=') {
        Some((triple, path)) => {
            if triple.is_empty() || path.is_empty() {
                None
            } else {
                Some(PlatformWord { triple, path })
            }
        }
        None => None,
    }
}
