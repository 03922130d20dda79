//! The rows of lines, from their kept fields.
ghost use Rattle.std.specs.Prelude.{◌≡◌, ◌-◌, ◌<◌, ◌≤◌, Some, drop, false, is_none, length, slice_get, take};
ghost use Rattle.std.specs.Option.{option_map};
ghost use Rattle.guppy_packages.specs.Rows.{texts, row_text};
ghost use Rattle.row_files.specs.RowOfLine.{row_of};
ghost use Rattle.row_files.specs.inner.KeptFields.{form_row, dep_row_of, platform_dep_row_of};
ghost use Rattle.row_files.specs.RowFile.{lines_of, rows_of};
ghost use Rattle.row_files.specs.WellFormed.{AreWellFormed, rows_in};

use crate::error::RowFileError;
use crate::line::Form;
use crate::lines::{Lines, start};
use guppy_packages::{DependencyKind, Row, RowSource};

/// Returns the row of a dependency on every platform, from its kept fields.
#[inline(always)]
fn dep<'a>(
    kind: DependencyKind,
    optional: bool,
    default_features: bool,
    kept: &'a [&'a str],
) -> Row<'a>
    requires { is_none (dep_row_of kind optional default_features (texts kept.now)) ≡ false }
    ensures { dep_row_of kind optional default_features (texts kept.now) ≡ Some (row_text result) }
{
    let [name, target, features @ ..] = kept else {
        unreachable!()
    };
    Row::Dep {
        name,
        target,
        kind,
        optional,
        platform: None,
        default_features,
        features,
    }
}

/// Returns the row of a dependency on some platforms, from its kept fields.
#[inline(always)]
fn platform_dep<'a>(
    kind: DependencyKind,
    optional: bool,
    default_features: bool,
    kept: &'a [&'a str],
) -> Row<'a>
    requires { is_none (platform_dep_row_of kind optional default_features (texts kept.now)) ≡ false }
    ensures { platform_dep_row_of kind optional default_features (texts kept.now) ≡ Some (row_text result) }
{
    let [name, target, at, features @ ..] = kept else {
        unreachable!()
    };
    Row::Dep {
        name,
        target,
        kind,
        optional,
        platform: Some(at),
        default_features,
        features,
    }
}

/// Returns the row of a line of this form, from its kept fields. This function and its callers are
/// inlined, so that a caller's match on the row becomes a match on the form.
#[inline(always)]
fn row<'a>(form: Form, kept: &'a [&'a str]) -> Row<'a>
    requires { is_none (form_row form (texts kept.now)) ≡ false }
    ensures { form_row form (texts kept.now) ≡ Some (row_text result) }
{
    match form {
        Form::Malformed => unreachable!(),
        Form::Package { in_workspace } => match kept {
            [id] => Row::Package { id, in_workspace },
            _ => unreachable!(),
        },
        Form::Feature => match kept {
            [name, items @ ..] => Row::Feature { name, items },
            [] => unreachable!(),
        },
        Form::Dep {
            kind,
            optional,
            default_features,
        } => dep(kind, optional, default_features, kept),
        Form::PlatformDep {
            kind,
            optional,
            default_features,
        } => platform_dep(kind, optional, default_features, kept),
    }
}

/// Returns the fields of `kept` from `start` up to, not including, `end`.
#[inline(always)]
fn fields_between<'a, 't>(kept: &'a [&'t str], start: usize, end: usize) -> &'a [&'t str]
    requires ascends { start ≤ end }
    requires within { end ≤ length kept.now }
    ensures { result.now ≡ take (end - start) (drop start kept.now) }
{
    &kept[start..end]
}

/// Returns the row of the line at place `at`.
#[inline(always)]
fn row_at<'l>(lines: &'l Lines<'_>, at: usize) -> Row<'l>
    requires within { at < length (lines_of lines.now) }
    requires row { option_map (λ line. is_none (row_of line.1)) (slice_get (lines_of lines.now) at) ≡ Some false }
    ensures { option_map (λ line. row_of line.1) (slice_get (lines_of lines.now) at) ≡ Some (Some (row_text result)) }
{
    let line = lines.lines[at];
    let start = start(&lines.lines, at);
    row(
        line.form,
        fields_between(&lines.kept, start, line.end as usize),
    )
}

/// The rows of lines that are all well-formed. Each row is made when it is read.
#[derive(Drop)]
pub struct LineRows<'l, 't> {
    lines: &'l Lines<'t>,
    ghost well_formed: { AreWellFormed (lines_of lines.now) },
}

impl<'l, 't> LineRows<'l, 't> {
    ghost use Rattle.std.specs.Prelude.{Ok, Err, IfErr, IfOk};
    ghost use Rattle.row_files.specs.RowLines.{row_lines};

    /// Returns the rows of `lines`, or `Malformed` for the first malformed line.
    pub fn of(lines: &'l Lines<'t>) -> Result<Self, RowFileError>
        ensures ok { IfOk result (λ rows. row_lines rows ≡ lines_of lines.now) }
        ensures rows { IfOk result (λ rows. rows_of (lines_of lines.now) ≡ Ok (rows_in (row_lines rows))) }
        ensures err { IfErr result (λ error. rows_of (lines_of lines.now) ≡ Err error) }
    {
        for at in 0..lines.line_count() {
            if lines.is_malformed(at) {
                let line = lines.line_number(at);
                return Err(RowFileError::Malformed { line });
            }
        }
        Ok(LineRows { lines })
    }
}

impl RowSource for LineRows<'_, '_> {
    ghost use Rattle.row_files.specs.RowLines.{row_lines};

    ghost rows = { λ source. rows_in (row_lines source) };

    fn row_count(&self) -> usize {
        self.lines.line_count()
    }

    #[inline(always)]
    fn row(&self, ix: usize) -> Row<'_> {
        row_at(self.lines, ix)
    }
}
