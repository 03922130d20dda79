//! The texts of the columns.
ghost use Rattle.std.specs.Prelude.{◌≡◌, ◌++◌, IfOk, OnOk, codes, flat_map, map, string_bytes};
ghost use Rattle.cargo_workspaces.specs.Views.{texts};
ghost use Rattle.feats_lines.specs.Lines.{spaced};
ghost use Rattle.feats_diff.specs.texts.Lines as spec;
ghost use Rattle.feats_diff.specs.texts.Views.{turned_text};
ghost use Rattle.feats_diff.specs.texts.inner.Words.{word_text};

use crate::texts::shown::Turned;
use std::alloc::{AllocError, Global};

/// The name of a feature, after a mark.
#[derive(Clone, Copy)]
struct Word<'w> {
    mark: &'w str,
    name: &'w str,
}

/// Returns `mark` and `place`.
pub(crate) fn place_cell(alloc: Global, mark: &str, place: &str) -> Result<String, AllocError>
    ensures { IfOk result (λ cell. string_bytes cell ≡ mark.now ++ place.now) }
{
    let mut cell = String::from_str(alloc, mark)?;
    cell.push_str(place)?;
    Ok(cell)
}

/// Appends each of `words`, after a space.
fn push_words(text: &mut String, words: &[Word<'_>]) -> Result<(), AllocError>
    ensures { OnOk result (string_bytes text.new ≡ string_bytes text.old ++ flat_map spaced (map word_text words.now)) }
{
    for word in words {
        text.push_str(" ")?;
        text.push_str(word.mark)?;
        text.push_str(word.name)?;
    }
    Ok(())
}

/// Returns `words` with a space between two.
fn joined(alloc: Global, words: &[Word<'_>]) -> Result<String, AllocError>
    ensures { IfOk result (λ text. string_bytes text ≡ spec.words (map word_text words.now)) }
{
    match words {
        [] => Ok(String::new(alloc)),
        [first, more @ ..] => {
            let mut text = String::from_str(alloc, first.mark)?;
            text.push_str(first.name)?;
            push_words(&mut text, more)?;
            Ok(text)
        }
    }
}

/// Appends `names`, each after `mark`.
fn push_names<'w>(
    words: &mut Vec<Word<'w>>,
    mark: &'w str,
    names: &[&'w str],
) -> Result<(), AllocError>
    ensures { OnOk result (map word_text words.new.items ≡ map word_text words.old.items ++ map (λ name. mark.now ++ name) (texts names.now)) }
{
    for name in names {
        words.push(Word { mark, name: *name })?;
    }
    Ok(())
}

/// Appends the names of `comes`, each after a plus sign.
fn push_comes<'w>(words: &mut Vec<Word<'w>>, comes: &[Turned<'w>]) -> Result<(), AllocError>
    ensures { OnOk result (map word_text words.new.items ≡ map word_text words.old.items ++ map (λ t. codes "+" ++ t.name) (map turned_text comes.now)) }
{
    for one in comes {
        words.push(Word {
            mark: "+",
            name: one.name,
        })?;
    }
    Ok(())
}

/// Returns `features` with a space between two.
pub(crate) fn features_cell(alloc: Global, features: &[&str]) -> Result<String, AllocError>
    ensures { IfOk result (λ text. string_bytes text ≡ spec.words (texts features.now)) }
{
    let mut words = Vec::with_capacity(alloc, features.len())?;
    push_names(&mut words, "", features)?;
    joined(alloc, &words)
}

/// Returns the features that come, and then those that go.
pub(crate) fn marks_cell(
    alloc: Global,
    comes: &[Turned<'_>],
    goes: &[&str],
) -> Result<String, AllocError>
    ensures { IfOk result (λ text. string_bytes text ≡ spec.marks (map turned_text comes.now) (texts goes.now)) }
{
    let mut words = Vec::new(alloc);
    push_comes(&mut words, comes)?;
    push_names(&mut words, "-", goes)?;
    joined(alloc, &words)
}
