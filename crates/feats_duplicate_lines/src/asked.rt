//! By which packages a package is asked for, as text.
ghost use Rattle.std.specs.Prelude.{◌≡◌, ◌++◌, ◌∷◌, List, IfOk, OnOk, flat_map, string_bytes};
ghost use Rattle.cargo_workspaces.specs.Workspaces.{Text};
ghost use Rattle.cargo_workspaces.specs.Views.{package_text};
ghost use Rattle.feats_lines.specs.Lines.{label_of as label_text};
ghost use Rattle.feats_lines.specs.Repeats.{HasRepeated};
ghost use Rattle.feats_duplicate_lines.specs.Lines as spec;
ghost use Rattle.feats_duplicate_lines.specs.Views.{dependents_text};

use crate::shown::Dependent;
use cargo_workspaces::Package;
use feats_lines::label_of;
use std::alloc::{AllocError, Global};
use std::collections::BTreeSet;

/// Appends the label of `package`. `repeated` is the set of the names that several packages have.
fn push_label(
    alloc: Global,
    text: &mut String,
    repeated: &BTreeSet<&str>,
    package: &Package<'_>,
) -> Result<(), AllocError>
    ensures { (names : List Text) → HasRepeated repeated.now names → OnOk result (string_bytes text.new ≡ string_bytes text.old ++ label_text names (package_text «package».now)) }
{
    let label = label_of(alloc, repeated, package)?;
    text.push_str(label.as_str())
}

/// Appends the label of each of `dependents`, after a comma. `repeated` is the set of the names that several packages have.
fn push_more(
    alloc: Global,
    text: &mut String,
    repeated: &BTreeSet<&str>,
    dependents: &[Dependent<'_, '_>],
) -> Result<(), AllocError>
    ensures { (names : List Text) → HasRepeated repeated.now names → OnOk result (string_bytes text.new ≡ string_bytes text.old ++ flat_map (spec.label_more names) (dependents_text dependents.now)) }
{
    for dependent in dependents {
        text.push_str(", ")?;
        push_label(alloc, text, repeated, dependent.package)?;
    }
    Ok(())
}

/// Returns that `first` and each of `more` ask for a package. `repeated` is the set of the names that several packages have.
fn asked_by_some(
    alloc: Global,
    repeated: &BTreeSet<&str>,
    first: &Package<'_>,
    more: &[Dependent<'_, '_>],
) -> Result<String, AllocError>
    ensures { (names : List Text) → HasRepeated repeated.now names → IfOk result (λ text. string_bytes text ≡ spec.asked_by names (package_text first.now ∷ dependents_text more.now)) }
{
    let mut text = String::from_str(alloc, "asked by ")?;
    push_label(alloc, &mut text, repeated, first)?;
    push_more(alloc, &mut text, repeated, more)?;
    Ok(text)
}

/// Returns by which packages a package is asked for: `dependents`, or that it is selected if there are none. `repeated` is the set of the
/// names that several packages have.
pub(crate) fn asked_by(
    alloc: Global,
    repeated: &BTreeSet<&str>,
    dependents: &[Dependent<'_, '_>],
) -> Result<String, AllocError>
    ensures { (names : List Text) → HasRepeated repeated.now names → IfOk result (λ text. string_bytes text ≡ spec.asked_by names (dependents_text dependents.now)) }
{
    match dependents {
        [] => String::from_str(alloc, "selected"),
        [first, more @ ..] => asked_by_some(alloc, repeated, first.package, more),
    }
}
