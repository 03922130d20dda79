//! The names of packages with their versions.
ghost use Rattle.std.specs.Prelude.{◌≡◌, ◌++◌, ◌∷◌, [], List, IfOk, OnOk, map, string_bytes};
ghost use Rattle.cargo_workspaces.specs.Workspaces.{Text};
ghost use Rattle.cargo_workspaces.specs.Views.{package_text};
ghost use Rattle.feats_lines.specs.Lines as spec;
ghost use Rattle.feats_lines.specs.Repeats.{HasRepeated};
ghost use Rattle.feats_lines.specs.inner.Sets.{HasTexts};

use cargo_workspaces::Package;
use std::alloc::{AllocError, Global};
use std::collections::BTreeSet;

/// Returns the name and the version of `package`.
pub(crate) fn name_of(alloc: Global, package: &Package<'_>) -> Result<String, AllocError>
    ensures { IfOk result (λ name. string_bytes name ≡ spec.name_of (package_text «package».now)) }
{
    let mut name = String::from_str(alloc, package.name)?;
    name.push_str(" ")?;
    name.push_str(package.version)?;
    Ok(name)
}

/// Returns the name and the version of each of `packages`.
pub fn names_of(alloc: Global, packages: &[Package<'_>]) -> Result<Vec<String>, AllocError>
    ensures { IfOk result (λ names. map string_bytes names.items ≡ map spec.name_of (map package_text packages.now)) }
{
    let mut names = Vec::with_capacity(alloc, packages.len())?;
    for package in packages {
        names.push(name_of(alloc, package)?)?;
    }
    Ok(names)
}

/// Inserts `name` into `seen`, and into `repeated` if `seen` has it.
fn note<'n>(
    seen: &mut BTreeSet<&'n str>,
    repeated: &mut BTreeSet<&'n str>,
    name: &'n str,
) -> Result<(), AllocError>
    ensures { OnOk result ((names : List Text) → HasTexts seen.old names → HasRepeated repeated.old names → HasTexts seen.new (names ++ name.entry.now ∷ []) × HasRepeated repeated.new (names ++ name.entry.now ∷ [])) }
{
    if !seen.insert(name)? {
        let _is_new = repeated.insert(name)?;
    }
    Ok(())
}

/// Returns the texts that are in `names` more than once.
pub fn repeated_in<'n>(alloc: Global, names: &'n [String]) -> Result<BTreeSet<&'n str>, AllocError>
    ensures { IfOk result (λ set. HasRepeated set (map string_bytes names.now)) }
{
    let mut seen = BTreeSet::new(alloc);
    let mut repeated = BTreeSet::new(alloc);
    for name in names {
        note(&mut seen, &mut repeated, name.as_str())?;
    }
    Ok(repeated)
}

/// Returns the names that more than one of `packages` has.
pub fn repeated_names<'n>(
    alloc: Global,
    packages: &'n [Package<'_>],
) -> Result<BTreeSet<&'n str>, AllocError>
    ensures { IfOk result (λ set. HasRepeated set (map (λ p. p.name) (map package_text packages.now))) }
{
    let mut seen = BTreeSet::new(alloc);
    let mut repeated = BTreeSet::new(alloc);
    for package in packages {
        note(&mut seen, &mut repeated, package.name)?;
    }
    Ok(repeated)
}
