//! Paths from a folder.
ghost use Rattle.std.specs.Prelude.{◌≡◌, ◌<◌, ◌++◌, IfOk, OnOk, drop, filter, flat_map, length};
ghost use Rattle.std.specs.List.{slice_split};
ghost use Rattle.build_summaries.specs.Paths as spec;
ghost use Rattle.build_summaries.specs.Views.{texts};
ghost use Rattle.build_summaries.specs.inner.Ways.{begin_alike};

use std::alloc::{AllocError, Global};

/// Returns whether `byte` is between two names of a path.
fn is_separator(byte: u8) -> bool
    ensures { result ≡ spec.is_separator byte }
{
    byte == b'/' || byte == b'\\'
}

/// Returns the texts between the separators of `path`.
fn pieces_of(alloc: Global, path: &[u8]) -> Result<Vec<&[u8]>, AllocError>
    ensures { IfOk result (λ pieces. texts pieces.items ≡ slice_split spec.is_separator path.now) }
{
    path.split(|byte| is_separator(*byte)).collect(alloc)
}

/// Returns those of `pieces` that aren't empty.
fn filled<'p>(alloc: Global, pieces: &[&'p [u8]]) -> Result<Vec<&'p [u8]>, AllocError>
    ensures { IfOk result (λ names. texts names.items ≡ filter spec.is_filled (texts pieces.now)) }
{
    let mut names = Vec::new(alloc);
    for piece in pieces {
        if piece.len() != 0 {
            names.push(*piece)?;
        }
    }
    Ok(names)
}

/// Returns the names in `path`.
fn names_in(alloc: Global, path: &str) -> Result<Vec<&[u8]>, AllocError>
    ensures { IfOk result (λ names. texts names.items ≡ spec.names_in path.now) }
{
    let pieces = pieces_of(alloc, path.as_bytes())?;
    filled(alloc, &pieces)
}

/// Returns the names of the folder of `file`.
fn folder_of(alloc: Global, file: &str) -> Result<Vec<&[u8]>, AllocError>
    ensures { IfOk result (λ names. texts names.items ≡ spec.folder_of file.now) }
{
    let mut names = names_in(alloc, file)?;
    let _last = names.pop();
    Ok(names)
}

/// Returns whether both begin with the same name.
fn begin_alike(from: &[&[u8]], to: &[&[u8]]) -> bool
    ensures { result ≡ begin_alike (texts from.now) (texts to.now) }
{
    match (from, to) {
        ([a, ..], [b, ..]) => *a == *b,
        _ => false,
    }
}

/// Appends a way up for each of `names`.
fn push_up(way: &mut Vec<&[u8]>, names: &[&[u8]]) -> Result<(), AllocError>
    ensures { OnOk result (texts way.new.items ≡ texts way.old.items ++ spec.up (texts names.now)) }
{
    for _name in names {
        way.push(b"..")?;
    }
    Ok(())
}

/// Appends `names`.
fn push_down<'p>(way: &mut Vec<&'p [u8]>, names: &[&'p [u8]]) -> Result<(), AllocError>
    ensures { OnOk result (texts way.new.items ≡ texts way.old.items ++ texts names.now) }
{
    for name in names {
        way.push(*name)?;
    }
    Ok(())
}

/// Returns `names` without the first.
fn after_first<'s, 'p>(names: &'s [&'p [u8]]) -> &'s [&'p [u8]]
    ensures names { texts result.now ≡ drop 1 (texts names.entry.now) }
    ensures shorter { 0 < length names.entry.now → length result.now < length names.entry.now }
{
    match names {
        [_, after @ ..] => after,
        [] => names,
    }
}

/// Returns the rest of `from` and the rest of `to` after the names with which both begin.
#[tactic(auto, using(crate::proofs::Ways::alike_filled, crate::proofs::Ways::way_alike, crate::proofs::Ways::way_apart))]
fn parted<'s, 'p>(from: &'s [&'p [u8]], to: &'s [&'p [u8]]) -> (&'s [&'p [u8]], &'s [&'p [u8]])
    ensures { spec.way (texts from.entry.now) (texts to.entry.now) ≡ spec.up (texts result.0.now) ++ texts result.1.now }
{
    let mut left = from;
    let mut right = to;
    'names: while begin_alike(left, right) {
        left = after_first(left);
        right = after_first(right);
    }
    (left, right)
}

/// Returns the names on the way from the folder `from` to the folder `to`.
fn way<'p>(alloc: Global, from: &[&'p [u8]], to: &[&'p [u8]]) -> Result<Vec<&'p [u8]>, AllocError>
    ensures { IfOk result (λ way. texts way.items ≡ spec.way (texts from.now) (texts to.now)) }
{
    let (left, right) = parted(from, to);
    let mut way = Vec::new(alloc);
    push_up(&mut way, left)?;
    push_down(&mut way, right)?;
    Ok(way)
}

/// Appends each of `names` after a slash.
fn push_more(text: &mut Vec<u8>, names: &[&[u8]]) -> Result<(), AllocError>
    ensures { OnOk result (text.new.items ≡ text.old.items ++ flat_map spec.after_slash (texts names.now)) }
{
    for name in names {
        text.push(b'/')?;
        text.extend_from_slice(name)?;
    }
    Ok(())
}

/// Returns `names` with a slash between two of them.
fn slashed(alloc: Global, names: &[&[u8]]) -> Result<Vec<u8>, AllocError>
    ensures { IfOk result (λ text. text.items ≡ spec.slashed (texts names.now)) }
{
    let mut text = Vec::new(alloc);
    if let [first, more @ ..] = names {
        text.extend_from_slice(first)?;
        push_more(&mut text, more)?;
    }
    Ok(text)
}

/// Returns the path from the folder `root` to the folder of the file `file`, with forward slashes. Both are absolute paths, of Unix or of
/// Windows. The only error is out of memory.
pub fn path_from(alloc: Global, root: &str, file: &str) -> Result<Vec<u8>, AllocError>
    ensures { IfOk result (λ path. path.items ≡ spec.path_from root.now file.now) }
{
    let from = names_in(alloc, root)?;
    let to = folder_of(alloc, file)?;
    let way = way(alloc, &from, &to)?;
    slashed(alloc, &way)
}
