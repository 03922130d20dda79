//! The platform specs that the declarations of a workspace name.
ghost use Rattle.std.specs.Prelude.{◌≡◌, ◌++◌, IfOk, OnOk, map};
ghost use Rattle.cargo_workspaces.specs.Views.{declaration_text};
ghost use Rattle.cargo_workspaces.specs.WorkspaceView.{workspace_text};
ghost use Rattle.plan_rows.specs.platforms.DeclaredSpecs as spec;
ghost use Rattle.plan_rows.specs.platforms.Views.{declared_text};

use cargo_workspaces::{Declaration, Workspace};
use std::alloc::{AllocError, Global};

/// A platform spec that a declaration of a package names.
#[derive(Clone, Copy)]
pub struct DeclaredSpec<'w> {
    /// The number of the package.
    pub package: usize,
    pub text: &'w str,
}

/// Appends the specs of `declarations`, which are those of package `package`.
fn push_specs<'w>(
    specs: &mut Vec<DeclaredSpec<'w>>,
    package: usize,
    declarations: &'w [Declaration<'_>],
) -> Result<(), AllocError>
    ensures { OnOk result (map declared_text specs.new.items ≡ map declared_text specs.old.items ++ spec.specs_of «package» (map declaration_text declarations.now)) }
{
    for declaration in declarations {
        if let Some(text) = declaration.platform {
            specs.push(DeclaredSpec { package, text })?;
        }
    }
    Ok(())
}

/// Returns the platform specs of the workspace's declarations, package by package, each as often as it is named.
pub fn declared_specs<'w>(
    alloc: Global,
    workspace: &'w Workspace<'_>,
) -> Result<Vec<DeclaredSpec<'w>>, AllocError>
    ensures { IfOk result (λ specs. map declared_text specs.items ≡ spec.declared_specs (workspace_text workspace.now).packages) }
{
    let mut specs = Vec::new(alloc);
    for (package, described) in workspace.packages().iter().enumerate() {
        push_specs(&mut specs, package, &described.declarations)?;
    }
    Ok(specs)
}
