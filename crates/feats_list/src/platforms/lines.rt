//! The specs as text in columns.
ghost use Rattle.std.specs.Prelude.{◌≡◌, ◌++◌, IfOk, OnOk, map, flat_map, string_bytes};
ghost use Rattle.cargo_workspaces.specs.Views.{texts};
ghost use Rattle.feats_lines.specs.parts.Views.{row_text};
ghost use Rattle.plan_rows.specs.platforms.Views.{declared_text};
ghost use Rattle.feats_list.specs.platforms.Lines as spec;
ghost use Rattle.feats_list.specs.platforms.Lines.{IsSpecLines};
ghost use Rattle.feats_list.specs.platforms.Views.{place_text};
ghost use Rattle.feats_list.specs.platforms.inner.Listed.{listed_text};

use crate::platforms::listed::{Listed, listed_specs};
use crate::platforms::places::NamedPlatform;
use feats_lines::parts::{Row, table_of};
use plan_rows::Platform;
use plan_rows::platforms::DeclaredSpec;
use std::alloc::{AllocError, Global};

/// Returns the text of `count` declarations.
fn count_text(alloc: Global, count: usize) -> Result<String, AllocError>
    ensures { IfOk result (λ text. string_bytes text ≡ spec.count_text count) }
{
    let mut text = format!(in alloc; "{count}")?;
    text.push_str(if count == 1 {
        " declaration"
    } else {
        " declarations"
    })?;
    Ok(text)
}

/// Appends each of `names`, after a comma and a space.
fn push_more(text: &mut String, names: &[&str]) -> Result<(), AllocError>
    ensures { OnOk result (string_bytes text.new ≡ string_bytes text.old ++ flat_map spec.after_comma (texts names.now)) }
{
    for name in names {
        text.push_str(", ")?;
        text.push_str(name)?;
    }
    Ok(())
}

/// Returns the text of a spec that holds in these places, of which `first` is one and `more` are the others.
fn holds_on(alloc: Global, first: &str, more: &[&str]) -> Result<String, AllocError>
    ensures { IfOk result (λ text. string_bytes text ≡ spec.holds_on first.now (texts more.now)) }
{
    let mut text = String::from_str(alloc, "holds on ")?;
    text.push_str(first)?;
    push_more(&mut text, more)?;
    Ok(text)
}

/// Returns the text of a spec that holds in the places `names`, of one place or of several.
fn truth_text(alloc: Global, several: bool, names: &[&str]) -> Result<String, AllocError>
    ensures { IfOk result (λ text. string_bytes text ≡ spec.truth_text several (texts names.now)) }
{
    match names {
        [] => String::from_str(
            alloc,
            if several {
                "holds nowhere"
            } else {
                "doesn't hold"
            },
        ),
        [first, more @ ..] => {
            if several {
                holds_on(alloc, first, more)
            } else {
                String::from_str(alloc, "holds")
            }
        }
    }
}

/// Returns the row of `listed`, of one place or of several.
fn row_of(alloc: Global, several: bool, listed: &Listed<'_, '_>) -> Result<Row, AllocError>
    ensures { IfOk result (λ row. row_text row ≡ spec.row_of several (listed_text listed.now)) }
{
    let first = count_text(alloc, listed.count)?;
    let second = truth_text(alloc, several, &listed.holds)?;
    let third = String::from_str(alloc, listed.spec)?;
    Ok(Row {
        first,
        second,
        third,
    })
}

/// Returns the table of `list`, of one place or of several.
fn table(alloc: Global, several: bool, list: &[Listed<'_, '_>]) -> Result<String, AllocError>
    ensures { IfOk result (λ text. string_bytes text ≡ spec.table several (map listed_text list.now)) }
{
    let mut rows = Vec::with_capacity(alloc, list.len())?;
    for one in list {
        rows.push(row_of(alloc, several, one)?)?;
    }
    table_of(alloc, &rows)
}

/// Returns a line for each of `specs`, once each and in the order of their bytes: the number of declarations that name it, in which of
/// `places` it holds, and the spec. With one place it says whether the spec holds.
pub fn spec_lines<P: Platform>(
    alloc: Global,
    specs: &[DeclaredSpec<'_>],
    places: &[NamedPlatform<'_, P>],
) -> Result<String, AllocError>
    ensures { IfOk result (λ text. IsSpecLines (map declared_text specs.now) (map (place_text P.holds) places.now) (string_bytes text)) }
{
    let list = listed_specs(alloc, specs, places)?;
    table(alloc, places.len() > 1, &list)
}
