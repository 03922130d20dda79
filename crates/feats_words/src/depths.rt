//! How deep a tree is.
ghost use Rattle.std.specs.Prelude.{◌≡◌, option_map};
ghost use Rattle.feats_words.specs.Depths as spec;
ghost use Rattle.feats_words.specs.Refusals.{Gives};

use crate::fault::WordsFault;

/// Returns whether each of `bytes` is a decimal digit.
fn are_digits(bytes: &[u8]) -> bool
    ensures { result ≡ spec.are_digits bytes.now }
{
    for byte in bytes {
        if !byte.is_ascii_digit() {
            return false;
        }
    }
    true
}

/// Returns whether `word` is a decimal number, of any size.
fn is_decimal(word: &str) -> bool
    ensures { result ≡ spec.is_decimal word.now }
{
    !word.is_empty() && are_digits(word.as_bytes())
}

/// Returns the number that `word` is, or `Depth` if it is no decimal number or too large.
fn number_of(word: &str) -> Result<usize, WordsFault<'_>>
    ensures { Gives (λ n. n) result (spec.number_of word.now) }
{
    if !is_decimal(word) {
        return Err(WordsFault::Depth(word));
    }
    match word.parse::<usize>() {
        Ok(number) => Ok(number),
        Err(_) => Err(WordsFault::Depth(word)),
    }
}

/// Returns the depth that `word` is: none, if there is no word.
pub(crate) fn depth_of(word: Option<&str>) -> Result<Option<usize>, WordsFault<'_>>
    ensures { Gives (λ d. d) result (spec.depth (option_map (λ t. t.now) word.entry)) }
{
    match word {
        None => Ok(None),
        Some(word) => Ok(Some(number_of(word)?)),
    }
}
