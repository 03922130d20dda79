//! Words of a call that name features.
use crate::shared::failure::Failure;
use crate::shared::words::{FromWord, label_of, parts};
use feature_labels::{FeatureId, FeatureLabel};
use guppy_packages::PackageId;
use std::alloc::{AllocError, Global};
use std::slice;

/// A word of a call, and the feature that it names.
#[derive(Drop)]
pub struct Given<'a> {
    pub word: &'a str,
    package_id: PackageId,
    label: FeatureLabel<'a>,
}

/// The words of a call that aren't read yet.
pub type Words<'a> = slice::Iter<'a, Given<'a>>;

impl<'a> FromWord<'a> for Given<'a> {
    /// Reads `word` without a comma at its end; `Memory` is the only error.
    fn from_word(alloc: Global, word: &'a str) -> Result<Given<'a>, Failure> {
        let word = word.strip_suffix(',').unwrap_or(word);
        let (package, label) = parts(word);
        Ok(Given {
            word,
            package_id: PackageId::new(alloc, package)?,
            label: label_of(label),
        })
    }
}

/// Reads the next word and returns the id that it names; `None` at the end of `words` or for the word `;`.
pub fn next_id<'a>(words: &mut Words<'a>) -> Option<FeatureId<'a>> {
    let given = words.next()?;
    if given.word == ";" {
        None
    } else {
        Some(FeatureId::new(&given.package_id, given.label))
    }
}

/// Reads and returns the ids up to the next word `;` or the end of `words`, and reads past the `;`.
/// `AllocError` if an allocation fails.
pub fn ids_of<'a>(alloc: Global, words: &mut Words<'a>) -> Result<Vec<FeatureId<'a>>, AllocError> {
    let mut ids = Vec::new(alloc);
    for _ in 0..words.len() {
        let Some(id) = next_id(words) else { break };
        ids.push(id)?;
    }
    Ok(ids)
}
