//! Feature words.
ghost use Rattle.std.specs.Prelude.{◌≡◌, ◌++◌, ◌∷◌, [], IfOk, OnOk, filter, flat_map};
ghost use Rattle.feats_words.specs.FeatureWords as spec;
ghost use Rattle.feats_words.specs.Requests.{texts};

use std::alloc::{AllocError, Global};

/// Appends `text`, unless it is empty.
fn push_word<'a>(words: &mut Vec<&'a str>, text: &'a str) -> Result<(), AllocError>
    ensures { OnOk result (texts words.new.items ≡ texts words.old.items ++ filter spec.is_word (text.entry.now ∷ [])) }
{
    if text.is_empty() {
        return Ok(());
    }
    words.push(text)?;
    Ok(())
}

/// Appends the parts of `text` between commas that aren't empty.
fn push_between_commas<'a>(words: &mut Vec<&'a str>, text: &'a str) -> Result<(), AllocError>
    ensures { OnOk result (texts words.new.items ≡ texts words.old.items ++ spec.between_commas text.entry.now) }
{
    for part in text.split(',') {
        push_word(words, part)?;
    }
    Ok(())
}

/// Appends the words of `text`, which ASCII white space and commas separate.
fn push_words<'a>(words: &mut Vec<&'a str>, text: &'a str) -> Result<(), AllocError>
    ensures { OnOk result (texts words.new.items ≡ texts words.old.items ++ spec.words_in text.entry.now) }
{
    for part in text.split_ascii_whitespace() {
        push_between_commas(words, part)?;
    }
    Ok(())
}

/// Returns the words of `values`, the values of `--features`: ASCII white space and commas separate them.
pub fn feature_words<'a>(alloc: Global, values: &[&'a str]) -> Result<Vec<&'a str>, AllocError>
    ensures { IfOk result (λ words. texts words.items ≡ flat_map spec.words_in (texts values.now)) }
{
    let mut words = Vec::new(alloc);
    for value in values {
        push_words(&mut words, value)?;
    }
    Ok(words)
}
