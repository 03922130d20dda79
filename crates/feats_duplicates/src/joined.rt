//! The workspace after members have got their lines.
ghost use Rattle.std.specs.Prelude.{◌≡◌, ◌++◌, IfOk, map};
ghost use Rattle.cargo_workspaces.specs.Views.{package_text};
ghost use Rattle.cargo_workspaces.specs.WorkspaceView.{workspace_text};
ghost use Rattle.feats_duplicates.specs.Views.{alone_text};
ghost use Rattle.feats_duplicates.specs.Joined as spec;
ghost use Rattle.feats_duplicates.specs.inner.JoinViews.{join_text};

use crate::alone::Alone;
use crate::declarations::joined_declarations;
use crate::joins::{Join, joins_of};
use cargo_manifests::package_with;
use cargo_workspaces::{Package, Workspace};
use std::alloc::{AllocError, Global};

/// Returns a copy of `package`, which has number `member`, with the declarations of those of `joins` that are for it.
fn joined_package<'v>(
    alloc: Global,
    joins: &[Join<'v>],
    member: usize,
    package: &Package<'v>,
) -> Result<Package<'v>, AllocError>
    ensures { IfOk result (λ joined. package_text joined ≡ spec.joined_package (map join_text joins.now) member (package_text «package».now)) }
{
    let declarations = joined_declarations(alloc, joins, member, &package.declarations)?;
    package_with(alloc, package, declarations)
}

/// Returns copies of `packages`, each with the declarations of those of `joins` that are for it.
fn joined_packages<'v>(
    alloc: Global,
    joins: &[Join<'v>],
    packages: &[Package<'v>],
) -> Result<Vec<Package<'v>>, AllocError>
    ensures { IfOk result (λ joined. map package_text joined.items ≡ spec.joined_packages (map join_text joins.now) (map package_text packages.now)) }
{
    let mut joined = Vec::with_capacity(alloc, packages.len())?;
    for (ix, package) in packages.iter().enumerate() {
        joined.push(joined_package(alloc, joins, ix, package)?)?;
    }
    Ok(joined)
}

/// Returns `workspace` in which each member of `alone` has one more declaration for each package of crates.io there: that of exactly this
/// package, with the features that it has in all these plans together. It is a build dependency for the host, else a normal one. An
/// allocation's failure is the only error.
pub fn joined_workspace<'v>(
    alloc: Global,
    workspace: &Workspace<'v>,
    alone: &[Alone<'_, '_>],
) -> Result<Workspace<'v>, AllocError>
    ensures { IfOk result (λ joined. workspace_text joined ≡ spec.joined_workspace (workspace_text workspace.now) (map alone_text alone.now)) }
{
    // (calls named facts() carry the invariant into the proof)
    workspace.facts();
    let joins = joins_of(alloc, workspace.packages(), alone)?;
    let members = Vec::from_slice(alloc, workspace.members())?;
    let default_members = Vec::from_slice(alloc, workspace.default_members())?;
    let packages = joined_packages(alloc, &joins, workspace.packages())?;
    Ok(Workspace::new(packages, members, default_members, workspace.root()))
}
