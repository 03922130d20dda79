//! The parts that a name means in packages.
ghost use Rattle.std.specs.Prelude.{◌≡◌, IfOk, length, map, slice_index_or, false};
ghost use Rattle.cargo_workspaces.specs.Views.{package_text};
ghost use Rattle.cargo_workspaces.specs.WorkspaceView.{workspace_text};
ghost use Rattle.plan_names.specs.Names as spec;
ghost use Rattle.plan_names.specs.Views.{named_text};

use crate::marks::{marked, repeated};
use crate::named::Named;
use crate::package_parts::push_parts;
use cargo_workspaces::{Package, Workspace};
use std::alloc::{AllocError, Global};

/// Returns the parts that `name` means in those of `packages` at whose numbers `list` is true.
fn parts_at<'w>(
    alloc: Global,
    packages: &'w [Package<'_>],
    list: &[bool],
    name: &str,
) -> Result<Vec<Named<'w>>, AllocError>
    requires { length list.now ≡ length packages.now }
    ensures { IfOk result (λ named. map named_text named.items ≡ spec.parts_from (λ k. slice_index_or list.now k false) name.now 0 (map package_text packages.now)) }
{
    let mut named = Vec::new(alloc);
    for (ix, package) in packages.iter().enumerate() {
        if list[ix] {
            push_parts(alloc, &mut named, ix, package, name)?;
        }
    }
    Ok(named)
}

/// Returns the parts that `name` means in the packages `numbers` of `workspace`.
pub(crate) fn parts_among<'w>(
    alloc: Global,
    workspace: &'w Workspace<'_>,
    numbers: &[usize],
    name: &str,
) -> Result<Vec<Named<'w>>, AllocError>
    ensures { IfOk result (λ named. map named_text named.items ≡ spec.parts_among (workspace_text workspace.now).packages numbers.now name.now) }
{
    let list = marked(alloc, workspace.package_count(), numbers)?;
    parts_at(alloc, workspace.packages(), &list, name)
}

/// Returns the parts that `name` means in all packages of `workspace`.
pub(crate) fn parts_anywhere<'w>(
    alloc: Global,
    workspace: &'w Workspace<'_>,
    name: &str,
) -> Result<Vec<Named<'w>>, AllocError>
    ensures { IfOk result (λ named. map named_text named.items ≡ spec.parts_anywhere (workspace_text workspace.now).packages name.now) }
{
    let list = repeated(alloc, workspace.package_count(), true)?;
    parts_at(alloc, workspace.packages(), &list, name)
}
