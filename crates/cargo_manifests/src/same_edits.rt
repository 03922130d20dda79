//! Edits, each listed once.
ghost use Rattle.std.specs.Prelude.{◌≡◌, [], IfOk, OnOk, map};
ghost use Rattle.std.specs.List.{list_any};
ghost use Rattle.cargo_manifests.specs.EditViews.{edit_text, place_text, without_text};
ghost use Rattle.cargo_manifests.specs.Edits as spec;

use crate::edits::{Edit, EditPlace, Without};
use std::alloc::{AllocError, Global};

/// Returns whether `x` and `y` are the same part.
fn is_same_part(x: Without<'_>, y: Without<'_>) -> bool
    ensures { result ≡ spec.is_same_part (without_text x.entry) (without_text y.entry) }
{
    match (x, y) {
        (Without::Defaults, Without::Defaults) => true,
        (Without::Feature(a), Without::Feature(b)) => a == b,
        _ => false,
    }
}

/// Returns whether `x` and `y` are the same place.
fn is_same_place(x: EditPlace<'_>, y: EditPlace<'_>) -> bool
    ensures { result ≡ spec.is_same_place (place_text x.entry) (place_text y.entry) }
{
    match (x, y) {
        (
            EditPlace::Declaration {
                package: p,
                declaration: n,
            },
            EditPlace::Declaration {
                package: q,
                declaration: k,
            },
        ) => p == q && n == k,
        (EditPlace::TableEntry(a), EditPlace::TableEntry(b)) => a == b,
        _ => false,
    }
}

/// Returns whether `x` and `y` are the same edit.
fn is_same_edit(x: &Edit<'_>, y: &Edit<'_>) -> bool
    ensures { result ≡ spec.is_same_edit (edit_text x.now) (edit_text y.now) }
{
    is_same_place(x.place, y.place) && is_same_part(x.without, y.without)
}

/// Returns whether `edit` is one of `listed`.
fn is_listed(listed: &[Edit<'_>], edit: &Edit<'_>) -> bool
    ensures { result ≡ list_any (spec.is_same_edit (edit_text edit.now)) (map edit_text listed.now) }
{
    for other in listed {
        if is_same_edit(edit, other) {
            return true;
        }
    }
    false
}

/// Appends `edit` to `listed`, unless it is listed.
fn push_once<'v>(listed: &mut Vec<Edit<'v>>, edit: &Edit<'v>) -> Result<(), AllocError>
    ensures { OnOk result (map edit_text listed.new.items ≡ spec.with_edit (map edit_text listed.old.items) (edit_text edit.now)) }
{
    if !is_listed(listed, edit) {
        listed.push(*edit)?;
    }
    Ok(())
}

/// Returns `edits`, each once.
pub(crate) fn each_once<'v>(alloc: Global, edits: &[Edit<'v>]) -> Result<Vec<Edit<'v>>, AllocError>
    ensures { IfOk result (λ listed. map edit_text listed.items ≡ spec.with_edits [] (map edit_text edits.now)) }
{
    let mut listed = Vec::new(alloc);
    for edit in edits {
        push_once(&mut listed, edit)?;
    }
    Ok(listed)
}
