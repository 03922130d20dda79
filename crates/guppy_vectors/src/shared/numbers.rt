//! Sets of numbers, read from words.
use crate::shared::failure::Failure;
use crate::shared::words::number;
use guppy_support::IxBitSet;

/// Inserts the numbers of `words` into `set`, in order. `Words` if a word is no number or isn't below the size of `set`;
/// the numbers before it stay inserted.
pub fn insert(set: &mut IxBitSet, words: &str) -> Result<(), Failure> {
    for word in words.split_whitespace() {
        let number = number(word)?;
        if number >= set.size() {
            return Err(Failure::Words);
        }
        set.insert(number);
    }
    Ok(())
}
