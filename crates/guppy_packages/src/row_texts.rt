//! The texts of all rows, in one list.
ghost use Rattle.std.specs.Prelude.{◌≡◌, ◌+◌, ◌++◌, ◌∷◌, [], List, IfOk, OnOk, length};
ghost use Rattle.std.specs.String.{string_bytes};
ghost use Rattle.guppy_packages.specs.Parts.{AreEnds, parts};
ghost use Rattle.guppy_packages.specs.Rows.{Text, row_text, texts};
ghost use Rattle.guppy_packages.specs.inner.Pushed.{IsPushed};
ghost use Rattle.guppy_packages.specs.inner.RowTexts.{row_texts, stored_texts};

use crate::narrow::narrow;
use crate::pushing::push_to;
use crate::row::Row;
use crate::row_source::RowSource;
use crate::text_list::TextList;
use std::alloc::{AllocError, Global};
use std::rc::Rc;

/// Appends `added` to `text`, and its end in `text` to `ends`. `AllocError` is the only error.
#[inline]
fn push_text(text: &mut String, ends: &mut Vec<usize>, added: &str) -> Result<(), AllocError>
    ensures { OnOk result ((before : List Text) → IsPushed before (string_bytes text.old) ends.old.items → IsPushed (before ++ added.now ∷ []) (string_bytes text.new) ends.new.items) }
{
    text.push_str(added)?;
    push_to(ends, text.as_str().len())?;
    Ok(())
}

/// Appends each of `added`. `AllocError` is the only error.
fn push_texts(text: &mut String, ends: &mut Vec<usize>, added: &[&str]) -> Result<(), AllocError>
    ensures { OnOk result ((before : List Text) → IsPushed before (string_bytes text.old) ends.old.items → IsPushed (before ++ texts added.now) (string_bytes text.new) ends.new.items) }
{
    for item in added {
        push_text(text, ends, item)?;
    }
    Ok(())
}

/// Appends the name in `row` and the features or items that it lists. `AllocError` is the only error.
fn push_names(text: &mut String, ends: &mut Vec<usize>, row: Row) -> Result<(), AllocError>
    ensures { OnOk result ((before : List Text) → IsPushed before (string_bytes text.old) ends.old.items → IsPushed (before ++ row_texts (row_text row.entry)) (string_bytes text.new) ends.new.items) }
{
    let (name, others) = match row {
        Row::Package { .. } => return Ok(()),
        Row::Feature { name, items } => (name, items),
        Row::Dep { name, features, .. } => (name, features),
    };
    push_text(text, ends, name)?;
    push_texts(text, ends, others)
}

/// Returns the number of the first name of the next row, if that of `row` is `at`. Returns `AllocError` if it doesn't fit in 32 bits.
pub(crate) fn next_name(at: usize, row: Row) -> Result<usize, AllocError>
    ensures { IfOk result (λ next. next ≡ at + length (row_texts (row_text row.entry))) }
{
    let count = match row {
        Row::Package { .. } => 0,
        Row::Feature { items, .. } => items.len().saturating_add(1),
        Row::Dep { features, .. } => features.len().saturating_add(1),
    };
    Ok(narrow(at.saturating_add(count))? as usize)
}

/// Appends the names of all rows, in row order. `AllocError` is the only error.
fn push_rows<S: RowSource>(
    text: &mut String,
    ends: &mut Vec<usize>,
    source: &S,
) -> Result<(), AllocError>
    requires text { string_bytes text.old ≡ [] }
    requires ends { ends.old.items ≡ [] }
    ensures { OnOk result (IsPushed (stored_texts (S.rows source.now)) (string_bytes text.new) ends.new.items) }
{
    for ix in 0..source.row_count() {
        push_names(text, ends, source.row(ix))?;
    }
    Ok(())
}

/// Returns the list of the texts that end at `ends`, one after the other in `text`, without spare capacity.
fn trimmed(text: String, ends: Vec<usize>) -> TextList
    requires { AreEnds 0 ends.items (string_bytes text) }
    ensures { result ≡ parts 0 ends.items (string_bytes text) }
{
    let mut text = text;
    let mut ends = ends;
    text.shrink_to_fit();
    ends.shrink_to_fit();
    TextList::new(text, ends)
}

/// Returns the names of all rows, in row order. `AllocError` is the only error.
pub(crate) fn stored_texts<S: RowSource>(
    alloc: Global,
    source: &S,
) -> Result<Rc<TextList>, AllocError>
    ensures { IfOk result (λ list. list.value ≡ stored_texts (S.rows source.now)) }
{
    let mut text = String::new(alloc);
    let mut ends = Vec::new(alloc);
    push_rows(&mut text, &mut ends, source)?;
    Ok(Rc::new(alloc, trimmed(text, ends))?)
}
