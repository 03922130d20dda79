//! Selected packages whose tests can't be built.
ghost use Rattle.std.specs.Prelude.{◌≡◌, ℕ, IfOk, IsTrue, length, map, nat_lt};
ghost use Rattle.std.specs.List.{list_all, list_any};
ghost use Rattle.digraphs.specs.Bits.{has};
ghost use Rattle.cargo_workspaces.specs.Views.{declaration_text};
ghost use Rattle.cargo_workspaces.specs.WorkspaceView.{workspace_text};
ghost use Rattle.plan_rows.specs.Steps.{is_development};
ghost use Rattle.plan_starts.specs.Starts as spec;
ghost use Rattle.plan_starts.specs.Starts.{is_among};

use crate::marks::marks_of;
use cargo_workspaces::{Declaration, Kind, Workspace};
use digraphs::IxBitSet;
use std::alloc::{AllocError, Global};

/// Returns whether one of `declarations` is for development.
fn any_development(declarations: &[Declaration<'_>]) -> bool
    ensures { result ≡ list_any (λ d. is_development d.kind) (map declaration_text declarations.now) }
{
    for declaration in declarations {
        if declaration.kind == Kind::Development {
            return true;
        }
    }
    false
}

/// Returns whether package `ix` isn't one of `members`, and declares dependencies for development.
fn lacks_tests(workspace: &Workspace<'_>, members: &IxBitSet, ix: usize) -> bool
    requires size { length members.now ≡ length (workspace_text workspace.now).packages }
    requires members { (k : ℕ) → has members.now k ≡ is_among (workspace_text workspace.now).members k }
    requires ix { IsTrue (nat_lt ix (length (workspace_text workspace.now).packages)) }
    ensures { result ≡ spec.lacks_tests (workspace_text workspace.now) ix }
{
    !members.contains(ix) && any_development(&workspace.package(ix).declarations)
}

/// Returns the first of `selected` whose tests can't be built: it is no member, and declares dependencies for development.
pub fn first_without_tests(
    alloc: Global,
    workspace: &Workspace<'_>,
    selected: &[usize],
) -> Result<Option<usize>, AllocError>
    requires { IsTrue (list_all (λ n. nat_lt n (length (workspace_text workspace.now).packages)) selected.now) }
    ensures { IfOk result (λ found. found ≡ spec.first_without_tests (workspace_text workspace.now) selected.now) }
{
    // (calls named facts() carry the invariant into the proof)
    workspace.facts();
    let members = marks_of(alloc, workspace.package_count(), workspace.members())?;
    for &ix in selected {
        if lacks_tests(workspace, &members, ix) {
            return Ok(Some(ix));
        }
    }
    Ok(None)
}
