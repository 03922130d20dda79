//! A line for each lost dependency.
ghost use Rattle.std.specs.Prelude.{◌≡◌, ◌++◌, IfOk, OnOk, false, flat_map, map, option_map, slice_get, string_bytes};
ghost use Rattle.cargo_workspaces.specs.Views.{declaration_text, package_text};
ghost use Rattle.cargo_workspaces.specs.WorkspaceView.{workspace_text};
ghost use Rattle.feats_plans.specs.tool.lost_dependencies.Lost as spec;
ghost use Rattle.feats_plans.specs.tool.lost_dependencies.Strings.{string_texts};
ghost use Rattle.shown_texts.specs.Shown.{escaped};

use crate::tool::lost_dependencies::lost::is_lost;
use cargo_workspaces::{Declaration, Package, Workspace};
use plan_rows::Platform;
use shown_texts::escaped;
use std::alloc::{AllocError, Global};

/// The end of a line.
const QUESTION: &str =
    ", leads to no package of the document: was it made with --filter-platform, or has the dependency no library?";

/// Appends `part`, with its control characters escaped.
fn push_escaped(alloc: Global, line: &mut String, part: &str) -> Result<(), AllocError>
    ensures { OnOk result (string_bytes line.new ≡ string_bytes line.old ++ escaped part.now) }
{
    let part = escaped(alloc, part)?;
    line.push_str(part.as_str())
}

/// Returns the line about the dependency `name` of the package `id`.
fn line_about(alloc: Global, id: &str, name: &str) -> Result<String, AllocError>
    ensures { IfOk result (λ line. string_bytes line ≡ spec.line_about id.now name.now) }
{
    let mut line = String::new(alloc);
    line.push_str("`")?;
    push_escaped(alloc, &mut line, name)?;
    line.push_str("`, a required dependency of ")?;
    push_escaped(alloc, &mut line, id)?;
    line.push_str(QUESTION)?;
    Ok(line)
}

/// Appends the lines about lost dependencies among `declarations` of the package `id`.
fn push_lines<P: Platform>(
    alloc: Global,
    lines: &mut Vec<String>,
    host: &P,
    targets: &[P],
    for_tests: bool,
    id: &str,
    declarations: &[Declaration<'_>],
) -> Result<(), AllocError>
    ensures { OnOk result (string_texts lines.new.items ≡ string_texts lines.old.items ++ spec.lines_of (P.holds host.now) (map P.holds targets.now) for_tests id.now (map declaration_text declarations.now)) }
{
    for declaration in declarations {
        if is_lost(host, targets, for_tests, declaration) {
            lines.push(line_about(alloc, id, declaration.name)?)?;
        }
    }
    Ok(())
}

/// Appends the lines about lost dependencies of `packages` that aren't for tests.
fn push_of_packages<P: Platform>(
    alloc: Global,
    lines: &mut Vec<String>,
    host: &P,
    targets: &[P],
    packages: &[Package<'_>],
) -> Result<(), AllocError>
    ensures { OnOk result (string_texts lines.new.items ≡ string_texts lines.old.items ++ flat_map (spec.package_lines (P.holds host.now) (map P.holds targets.now) false) (map package_text packages.now)) }
{
    for package in packages {
        push_lines(
            alloc,
            lines,
            host,
            targets,
            false,
            package.id,
            &package.declarations,
        )?;
    }
    Ok(())
}

/// Returns package `number`, if the workspace has it.
fn package_at<'w, 'v>(workspace: &'w Workspace<'v>, number: usize) -> Option<&'w Package<'v>>
    ensures { option_map (λ p. package_text p.now) result ≡ slice_get (workspace_text workspace.now).packages number }
{
    workspace.packages().get(number)
}

/// Appends the lines about lost dependencies for tests of package `number`.
fn push_of_member<P: Platform>(
    alloc: Global,
    lines: &mut Vec<String>,
    host: &P,
    targets: &[P],
    workspace: &Workspace<'_>,
    number: usize,
) -> Result<(), AllocError>
    ensures { OnOk result (string_texts lines.new.items ≡ string_texts lines.old.items ++ spec.member_lines (P.holds host.now) (map P.holds targets.now) (workspace_text workspace.now).packages number) }
{
    match package_at(workspace, number) {
        Some(package) => push_lines(
            alloc,
            lines,
            host,
            targets,
            true,
            package.id,
            &package.declarations,
        ),
        None => Ok(()),
    }
}

/// Returns a line for each dependency that a build for `host` and `targets` needs and the document has no package for: those of all
/// packages, and those for tests of the members. Cargo leaves dependencies for tests of other packages out of every document.
///
/// The only error is out of memory.
pub fn lost_lines<P: Platform>(
    alloc: Global,
    workspace: &Workspace<'_>,
    host: &P,
    targets: &[P],
) -> Result<Vec<String>, AllocError>
    ensures { IfOk result (λ lines. string_texts lines.items ≡ spec.lost_lines (P.holds host.now) (map P.holds targets.now) (workspace_text workspace.now)) }
{
    let mut lines = Vec::new(alloc);
    push_of_packages(alloc, &mut lines, host, targets, workspace.packages())?;
    for member in workspace.members() {
        push_of_member(alloc, &mut lines, host, targets, workspace, *member)?;
    }
    Ok(lines)
}
