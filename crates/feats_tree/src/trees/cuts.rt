//! Trees without a given limit: where they end, and the line that says so.
ghost use Rattle.std.specs.Prelude.{◌≡◌, ◌++◌, IfOk};
ghost use Rattle.feats_tree.specs.trees.Cuts as spec;

use feats_lines::parts::{begin_line, end_line, write_number};
use std::alloc::AllocError;

/// The greatest depth of a branch, if no limit is given.
const GREATEST_DEPTH: usize = 1000;

/// The last line, if the greatest depth cuts the trees.
const CUT_LINE: &str = "(the tree goes on below 1,000 levels: --depth N shows N levels)\n";

/// Returns `limit`, or without one the greatest depth: 1,000.
pub fn limit_of(limit: Option<usize>) -> usize
    ensures { result ≡ spec.limit_of limit }
{
    match limit {
        Some(limit) => limit,
        None => GREATEST_DEPTH,
    }
}

/// Returns `text` with the line that says that trees go on below the greatest depth.
pub fn with_cut_line(text: Vec<u8>) -> Result<Vec<u8>, AllocError>
    ensures { IfOk result (λ new. new.items ≡ text.items ++ spec.cut_line) }
{
    let mut text = text;
    text.extend_from_slice(CUT_LINE.as_bytes())?;
    Ok(text)
}

/// Returns `text` with the JSON object that says that trees go on below the greatest depth.
pub fn with_cut_object(text: Vec<u8>) -> Result<Vec<u8>, AllocError>
    ensures { IfOk result (λ new. new.items ≡ text.items ++ spec.cut_object) }
{
    let mut writer = begin_line(text)?;
    write_number(&mut writer, "cut-at-depth", GREATEST_DEPTH)?;
    end_line(writer)
}
