//! The labels of packages.
ghost use Rattle.std.specs.Prelude.{◌≡◌, List, IfOk, string_bytes};
ghost use Rattle.cargo_workspaces.specs.Workspaces.{Text};
ghost use Rattle.cargo_workspaces.specs.Views.{package_text};
ghost use Rattle.feats_lines.specs.Lines as spec;
ghost use Rattle.feats_lines.specs.Repeats.{HasRepeated};

use crate::names::name_of;
use cargo_workspaces::Package;
use std::alloc::{AllocError, Global};
use std::collections::BTreeSet;

/// Returns the source of `package`, or its id if it is at a path.
fn source_of<'p>(package: &'p Package<'_>) -> &'p str
    ensures { result.now ≡ spec.source_text (package_text «package».now) }
{
    match package.source {
        Some(source) => source,
        None => package.id,
    }
}

/// Returns the name and the version of `package`, with its source if `repeated` has them. `repeated` is the set of those that
/// several packages have.
pub fn label_of(
    alloc: Global,
    repeated: &BTreeSet<&str>,
    package: &Package<'_>,
) -> Result<String, AllocError>
    ensures { (names : List Text) → HasRepeated repeated.now names → IfOk result (λ label. string_bytes label ≡ spec.label_of names (package_text «package».now)) }
{
    let mut label = name_of(alloc, package)?;
    if repeated.contains(label.as_str()) {
        label.push_str(" (")?;
        label.push_str(source_of(package))?;
        label.push_str(")")?;
    }
    Ok(label)
}
