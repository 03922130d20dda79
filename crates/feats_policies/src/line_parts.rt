//! The words and the reason of a line.
ghost use Rattle.std.specs.Prelude.{◌≡◌, ◌≤◌, ◌<◌, ◌==◌, ◌++◌, IfOk, OnOk, map, option_map, flat_map, filter, length, take, drop, slice_index};
ghost use Rattle.std.specs.List.{slice_split};
ghost use Rattle.feats_policies.specs.Lines as spec;
ghost use Rattle.feats_policies.specs.Views.{texts};

use std::alloc::{AllocError, Global};

/// Returns whether `byte` begins a reason, if it follows `previous`.
fn begins_reason(previous: u8, byte: u8) -> bool
    ensures { result ≡ spec.begins_reason (previous, byte) }
{
    (previous == b' ' || previous == b'\t') && byte == b'#'
}

/// Returns the number of bytes of `line` before its reason, which begins with a mark after a blank; its length, if it has none.
fn reason_at(line: &[u8]) -> usize
    ensures place { result ≡ spec.reason_at line.now }
    ensures bound { result ≤ length line.now }
    ensures mark { result < length line.now → slice_index line.now result ≡ 35 }
{
    let mut previous = b' ';
    for (ix, byte) in line.iter().enumerate() {
        if begins_reason(previous, *byte) {
            return ix;
        }
        previous = *byte;
    }
    line.len()
}

/// Returns what is between the spaces of `text`.
fn spaced(alloc: Global, text: &str) -> Result<Vec<&str>, AllocError>
    ensures { IfOk result (λ parts. texts parts.items ≡ slice_split spec.is_space text.now) }
{
    text.split(' ').collect(alloc)
}

/// Returns what is between the tabs of `text`.
fn tabbed(alloc: Global, text: &str) -> Result<Vec<&str>, AllocError>
    ensures { IfOk result (λ parts. texts parts.items ≡ slice_split spec.is_tab text.now) }
{
    text.split('\t').collect(alloc)
}

/// Appends those of `parts` that aren't empty.
fn push_filled<'p>(words: &mut Vec<&'p str>, parts: &[&'p str]) -> Result<(), AllocError>
    ensures { OnOk result (texts words.new.items ≡ texts words.old.items ++ filter spec.is_text (texts parts.now)) }
{
    for part in parts {
        if !part.is_empty() {
            words.push(*part)?;
        }
    }
    Ok(())
}

/// Appends the words of `text`, which has no spaces.
fn push_words<'p>(alloc: Global, words: &mut Vec<&'p str>, text: &'p str) -> Result<(), AllocError>
    ensures { OnOk result (texts words.new.items ≡ texts words.old.items ++ filter spec.is_text (slice_split spec.is_tab text.now)) }
{
    let parts = tabbed(alloc, text)?;
    push_filled(words, &parts)
}

/// Returns the words of `parts`, which have no spaces.
fn words_among<'p>(alloc: Global, parts: &[&'p str]) -> Result<Vec<&'p str>, AllocError>
    ensures { IfOk result (λ words. texts words.items ≡ filter spec.is_text (flat_map (slice_split spec.is_tab) (texts parts.now))) }
{
    let mut words = Vec::new(alloc);
    for part in parts {
        push_words(alloc, &mut words, part)?;
    }
    Ok(words)
}

/// Returns the words of `text`.
fn words_in(alloc: Global, text: &str) -> Result<Vec<&str>, AllocError>
    ensures { IfOk result (λ words. texts words.items ≡ spec.words_in text.now) }
{
    let parts = spaced(alloc, text)?;
    words_among(alloc, &parts)
}

/// Returns the words of `line` before its reason.
pub(crate) fn words_of(alloc: Global, line: &str) -> Result<Vec<&str>, AllocError>
    ensures { IfOk result (λ words. texts words.items ≡ spec.words_of line.now) }
{
    let at = reason_at(line.as_bytes());
    words_in(alloc, &line[..at])
}

/// Returns `text`, unless it is empty.
fn some_text(text: &str) -> Option<&str>
    ensures { option_map (λ t. t.now) result ≡ spec.some_text text.now }
{
    if text.is_empty() { None } else { Some(text) }
}

/// Returns the reason of `line`.
pub(crate) fn reason_of(line: &str) -> Option<&str>
    ensures { option_map (λ t. t.now) result ≡ spec.reason_of line.now }
{
    let at = reason_at(line.as_bytes());
    if at < line.len() {
        some_text(line[at + 1..].trim())
    } else {
        None
    }
}
