//! The lines of a text and their fields.
ghost use Rattle.std.specs.Prelude.{◌≡◌, ◌+◌, ◌<◌, ◌≤◌, ◌^◌, ◌++◌, [], ◌∷◌, if◌then◌else◌, length, map, slice_index, take, IfOk, OnErr, OnOk};
ghost use Rattle.guppy_packages.specs.Rows.{texts};
ghost use Rattle.row_files.specs.inner.KeptFields.{AreKept, AreKept-prop, kept_of};

use crate::cuts::skips;
use crate::form::form_of;
use crate::keeping::keep;
use crate::line::{Form, Line};
use memchr::memchr2_iter;
use std::alloc::{AllocError, Global};

/// The lines that aren't skipped, and the kept fields of all of them in one list.
#[derive(Drop)]
pub struct Lines<'t> {
    pub(crate) kept: Vec<&'t str>,
    pub(crate) lines: Vec<Line>,
    ghost each_kept: { AreKept (texts kept.items) 0 lines.items } by { AreKept-prop (texts kept.items) 0 lines.items },
}

/// Appends the kept fields of a line of this form, and the line. Returns `AllocError` if an allocation fails, or if the number of all
/// kept fields is over 4294967295. Fields may be appended even then, but no line.
fn push_line<'t>(
    kept: &mut Vec<&'t str>,
    lines: &mut Vec<Line>,
    number: usize,
    form: Form,
    fields: &[&'t str],
) -> Result<(), AllocError>
    ensures added { OnOk result (texts kept.new.items ≡ texts kept.old.items ++ kept_of form (texts fields.now)) }
    ensures line { OnOk result (lines.new.items ≡ lines.old.items ++ record { number = number; end = length (texts kept.new.items); form = form } ∷ []) }
    ensures grows { take (length kept.old.items) kept.new.items ≡ kept.old.items }
    ensures none { OnErr result (lines.new.items ≡ lines.old.items) }
{
    keep(kept, form, fields)?;
    let line = Line::new(number, kept.len(), form)?;
    match lines.push(line) {
        Ok(()) => Ok(()),
        Err(_) => Err(AllocError),
    }
}

/// Returns the start of the kept fields of the line at place `at`.
#[inline(always)]
pub(crate) fn start(lines: &[Line], at: usize) -> usize
    requires { at ≤ length lines.now }
    ensures { result ≡ slice_index (0 ∷ map (λ line. line.end) lines.now) at }
{
    if at == 0 {
        return 0;
    }
    lines[at - 1].end as usize
}

impl<'t> Lines<'t> {
    ghost use Rattle.std.specs.Prelude.{Some, is_none, slice_get};
    ghost use Rattle.std.specs.Option.{option_map};
    ghost use Rattle.row_files.specs.RowOfLine.{row_of};
    ghost use Rattle.row_files.specs.Lines.{lines_in, kept_lines};
    ghost use Rattle.row_files.specs.RowFile.{line_of, lines_of};
    ghost use Rattle.row_files.specs.inner.CutLines.{kept_line};

    /// Appends a line. Returns `AllocError` if an allocation fails, or if the number of all kept fields is over 4294967295. Then the lines
    /// are unchanged.
    fn push(&mut self, number: usize, fields: &[&'t str]) -> Result<(), AllocError>
        ensures { OnOk result (lines_of self.new ≡ lines_of self.old ++ (number, texts fields.now) ∷ []) }
    {
        let form = form_of(fields);
        let start = self.kept.len();
        match push_line(&mut self.kept, &mut self.lines, number, form, fields) {
            Ok(()) => Ok(()),
            Err(error) => {
                self.kept.truncate(start);
                Err(error)
            }
        }
    }

    /// Appends a line that has ended, unless it is skipped. The errors are those of `push`.
    fn end_line(&mut self, number: usize, fields: &[&'t str]) -> Result<(), AllocError>
        ensures { OnOk result (lines_of self.new ≡ lines_of self.old ++ kept_line number (texts fields.now)) }
    {
        if skips(fields) {
            Ok(())
        } else {
            self.push(number, fields)
        }
    }

    /// Appends a field to those of its line. If `ends`, also appends the line, and clears `fields`.
    /// Returns the number of the line that the next field belongs to. The errors are those of `push`.
    #[inline(always)]
    fn end_field(
        &mut self,
        fields: &mut Vec<&'t str>,
        number: usize,
        field: &'t str,
        ends: bool,
    ) -> Result<usize, AllocError>
        requires { number + 1 < 2 ^ 64 }
        ensures lines { OnOk result (lines_of self.new ≡ lines_of self.old ++ (if ends then kept_line number (texts fields.old.items ++ field.now ∷ []) else [])) }
        ensures fields { OnOk result (texts fields.new.items ≡ (if ends then [] else texts fields.old.items ++ field.now ∷ [])) }
        ensures number { IfOk result (λ next. next ≡ (if ends then number + 1 else number)) }
    {
        fields.push(field)?;
        if ends {
            self.end_line(number, fields)?;
            fields.clear();
            return Ok(number + 1);
        }
        Ok(number)
    }

    /// Splits `text` into lines and fields, without the lines that are skipped. Returns `AllocError` if an allocation fails, or if the
    /// number of all kept fields is over 4294967295. Kept are the ids, names, targets, items, specs and listed features of rows, and all
    /// fields of lines that are no rows ([limits](../../../docs/DIFFERENCES.md#limits)).
    pub fn of(alloc: Global, text: &'t str) -> Result<Self, AllocError>
        ensures { IfOk result (λ l. lines_of l ≡ kept_lines 1 (lines_in text.now)) }
    {
        let bytes = text.as_bytes();
        let mut lines = Lines {
            kept: Vec::new(alloc),
            lines: Vec::new(alloc),
        };
        let mut fields = Vec::new(alloc);
        let mut number = 1;
        let mut start = 0;
        for end in memchr2_iter(b'\t', b'\n', bytes) {
            let ends = bytes[end] == b'\n';
            number = lines.end_field(&mut fields, number, &text[start..end], ends)?;
            start = end + 1;
        }
        lines.end_field(&mut fields, number, &text[start..], true)?;
        Ok(lines)
    }

    /// Returns the number of lines that aren't skipped.
    pub(crate) fn line_count(&self) -> usize
        ensures { result ≡ length (lines_of self.now) }
    {
        self.lines.len()
    }

    /// Returns true if the line at place `at` is no row.
    pub(crate) fn is_malformed(&self, at: usize) -> bool
        requires { at < length (lines_of self.now) }
        ensures { option_map (λ line. is_none (row_of line.1)) (slice_get (lines_of self.now) at) ≡ Some result }
    {
        self.lines[at].form.is_malformed()
    }

    /// Returns the number of the line at place `at`, counted from 1 in the whole text.
    pub(crate) fn line_number(&self, at: usize) -> usize
        requires { at < length (lines_of self.now) }
        ensures { result ≡ line_of (lines_of self.now) at }
    {
        self.lines[at].number
    }
}
