//! The packages that a package calls by several names.
ghost use Rattle.std.specs.Prelude.{◌≡◌, ◌||◌, IfOk, OnOk};
ghost use Rattle.std.specs.List.{list_any};
ghost use Rattle.cargo_json.specs.Faults.{Text};
ghost use Rattle.workspace_documents.specs.Views.{dependency_view};
ghost use Rattle.workspace_documents.specs.inner.Aliases as spec;

use crate::dependencies::Dependency;
use std::alloc::{AllocError, Global};
use std::collections::{BTreeMap, BTreeSet};

/// Names of packages, by their ids.
type NamesById<'v> = BTreeMap<&'v str, &'v str>;

/// Returns the last name in `dependencies` for each package that they lead to. The only error is out of memory.
fn last_names<'v>(
    alloc: Global,
    dependencies: &[Dependency<'_, 'v>],
) -> Result<NamesById<'v>, AllocError> {
    // (no contract: `miscalled` may take any names; with the last ones its set has only ids of packages with several names)
    let mut names = BTreeMap::new(alloc);
    for dependency in dependencies {
        let _earlier = names.insert(dependency.target.id, dependency.name())?;
    }
    Ok(names)
}

/// Returns whether `names` has the name of `dependency` for its package.
fn is_called(names: &NamesById<'_>, dependency: &Dependency<'_, '_>) -> bool
    ensures { result ≡ spec.is_called names.now (dependency_view dependency.now) }
{
    match names.get(dependency.target.id) {
        Some(name) => *name == dependency.name(),
        None => false,
    }
}

/// Inserts the id of the package that `dependency` leads to, unless `names` has its name. The only error is out of memory.
fn insert_unless_called<'v>(
    ids: &mut BTreeSet<&'v str>,
    names: &NamesById<'_>,
    dependency: &Dependency<'_, 'v>,
) -> Result<(), AllocError>
    ensures { OnOk result ((q : Text) → spec.has_id ids.new q ≡ (spec.has_id ids.old q || spec.is_miscalled names.now q dependency.now)) }
{
    if !is_called(names, dependency) {
        let _is_new = ids.insert(dependency.target.id)?;
    }
    Ok(())
}

/// Returns the ids of the packages that one of `dependencies` calls by another name than `names` does. The only error is out of
/// memory.
fn miscalled<'v>(
    alloc: Global,
    names: &NamesById<'_>,
    dependencies: &[Dependency<'_, 'v>],
) -> Result<BTreeSet<&'v str>, AllocError>
    ensures { IfOk result (λ ids. (q : Text) → spec.has_id ids q ≡ list_any (spec.is_miscalled names.now q) dependencies.now) }
{
    let mut ids = BTreeSet::new(alloc);
    for dependency in dependencies {
        insert_unless_called(&mut ids, names, dependency)?;
    }
    Ok(ids)
}

/// Returns the ids of the packages to which `dependencies` lead by several names. The only error is out of memory.
pub(crate) fn aliased<'v>(
    alloc: Global,
    dependencies: &[Dependency<'_, 'v>],
) -> Result<BTreeSet<&'v str>, AllocError>
    ensures { IfOk result (λ ids. spec.HasAliased ids dependencies.now) }
{
    let names = last_names(alloc, dependencies)?;
    let ids = miscalled(alloc, &names, dependencies)?;
    Ok(ids)
}
