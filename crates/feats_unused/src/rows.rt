//! The rows of the table.
ghost use Rattle.std.specs.Prelude.{◌≡◌, List, IfOk, string_bytes};
ghost use Rattle.cargo_workspaces.specs.Workspaces.{Text};
ghost use Rattle.cargo_workspaces.specs.Views.{package_text};
ghost use Rattle.feats_lines.specs.parts.Views.{row_text};
ghost use Rattle.feats_lines.specs.Repeats.{HasRepeated};
ghost use Rattle.feats_unused.specs.Lines as spec;
ghost use Rattle.feats_unused.specs.Views.{shown_text};

use crate::shown::Shown;
use cargo_workspaces::Package;
use feats_lines::label_of;
use feats_lines::parts::Row;
use std::alloc::{AllocError, Global};
use std::collections::BTreeSet;

/// Returns the word for the kind of `shown`.
pub(crate) fn kind_of(shown: &Shown<'_, '_>) -> &'static str
    ensures { result.now ≡ spec.kind_of (shown_text shown.now) }
{
    match shown {
        Shown::Unused { .. } => "unused",
        Shown::Dead { .. } => "dead",
    }
}

/// Returns the package that `shown` is about.
pub(crate) fn package_of<'u, 'v>(shown: &Shown<'u, 'v>) -> &'u Package<'v>
    ensures { package_text result.now ≡ spec.package_of (shown_text shown.now) }
{
    match shown {
        Shown::Unused { package, .. } => package,
        Shown::Dead { package, .. } => package,
    }
}

/// Returns `item` after the name `feature` of its feature.
fn dead_detail(alloc: Global, feature: &str, item: &str) -> Result<String, AllocError>
    ensures { IfOk result (λ text. string_bytes text ≡ spec.dead_detail feature.now item.now) }
{
    let mut text = String::from_str(alloc, feature)?;
    text.push_str(": ")?;
    text.push_str(item)?;
    Ok(text)
}

/// Returns what `shown` says of its package.
fn detail_of(alloc: Global, shown: &Shown<'_, '_>) -> Result<String, AllocError>
    ensures { IfOk result (λ text. string_bytes text ≡ spec.detail_of (shown_text shown.now)) }
{
    match shown {
        Shown::Unused { feature, .. } => String::from_str(alloc, feature),
        Shown::Dead { feature, item, .. } => dead_detail(alloc, feature, item),
    }
}

/// Returns the row of `shown`. `repeated` is the set of the names that several packages have.
pub(crate) fn row_of(
    alloc: Global,
    repeated: &BTreeSet<&str>,
    shown: &Shown<'_, '_>,
) -> Result<Row, AllocError>
    ensures { (names : List Text) → HasRepeated repeated.now names → IfOk result (λ row. row_text row ≡ spec.row_of names (shown_text shown.now)) }
{
    let first = String::from_str(alloc, kind_of(shown))?;
    let second = label_of(alloc, repeated, package_of(shown))?;
    let third = detail_of(alloc, shown)?;
    Ok(Row {
        first,
        second,
        third,
    })
}
