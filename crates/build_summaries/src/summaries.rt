//! The text of a summary.
ghost use Rattle.std.specs.Prelude.{◌≡◌, ◌++◌, IfOk, OnOk, codes, map};
ghost use Rattle.build_summaries.specs.Orders.{IsSummary};
ghost use Rattle.build_summaries.specs.Strings.{string, string_array};
ghost use Rattle.build_summaries.specs.Summaries as spec;
ghost use Rattle.build_summaries.specs.Views.{package_text, source_text, texts};

use crate::orders::sort_packages;
use crate::packages::{Status, SummaryPackage, SummarySource};
use crate::strings::{push_array, push_str, push_string};
use std::alloc::{AllocError, Global};

/// Appends the line of `key` whose value is the string `value`.
#[tactic(auto, unfolding(crate::specs::Summaries::line))]
fn push_line(alloc: Global, text: &mut Vec<u8>, key: &str, value: &[u8]) -> Result<(), AllocError>
    ensures { OnOk result (text.new.items ≡ text.old.items ++ spec.line key.now (string value.now)) }
{
    push_str(text, key)?;
    push_str(text, " = ")?;
    push_string(alloc, text, value)?;
    push_str(text, "\n")
}

/// Appends the line of `key` whose value is the array of the strings `values`.
#[tactic(auto, unfolding(crate::specs::Summaries::line))]
fn push_array_line(
    alloc: Global,
    text: &mut Vec<u8>,
    key: &str,
    values: &[&str],
) -> Result<(), AllocError>
    ensures { OnOk result (text.new.items ≡ text.old.items ++ spec.line key.now (string_array (texts values.now))) }
{
    push_str(text, key)?;
    push_str(text, " = ")?;
    push_array(alloc, text, values)?;
    push_str(text, "\n")
}

/// Appends the line of `source`.
#[tactic(auto, unfolding(crate::specs::Summaries::line))]
fn push_source(
    alloc: Global,
    text: &mut Vec<u8>,
    source: &SummarySource<'_>,
) -> Result<(), AllocError>
    ensures { OnOk result (text.new.items ≡ text.old.items ++ spec.source_line (source_text source.now)) }
{
    match source {
        SummarySource::Workspace(path) => push_line(alloc, text, "workspace-path", path),
        SummarySource::Path(path) => push_line(alloc, text, "path", path),
        SummarySource::CratesIo => push_str(text, "crates-io = true\n"),
        SummarySource::External(name) => push_line(alloc, text, "source", name.as_bytes()),
    }
}

/// Returns the word for `status`.
fn status_word(status: Status) -> &'static str
    ensures { result.now ≡ spec.status_word status }
{
    match status {
        Status::Initial => "initial",
        Status::Workspace => "workspace",
        Status::Direct => "direct",
        Status::Transitive => "transitive",
    }
}

/// Appends the line before a table of the array of tables `name`, after an empty line.
fn push_head(text: &mut Vec<u8>, name: &str) -> Result<(), AllocError>
    ensures { OnOk result (text.new.items ≡ text.old.items ++ spec.head name.now) }
{
    push_str(text, "\n[[")?;
    push_str(text, name)?;
    push_str(text, "]]\n")
}

/// Appends the lines of what `package` is.
#[tactic(auto, unfolding(crate::specs::Summaries::id_lines))]
fn push_id(
    alloc: Global,
    text: &mut Vec<u8>,
    package: &SummaryPackage<'_>,
) -> Result<(), AllocError>
    ensures { OnOk result (text.new.items ≡ text.old.items ++ spec.id_lines (package_text «package».now)) }
{
    push_line(alloc, text, "name", package.name.as_bytes())?;
    push_line(alloc, text, "version", package.version.as_bytes())?;
    push_source(alloc, text, &package.source)
}

/// Appends the line of `status`.
fn push_status(alloc: Global, text: &mut Vec<u8>, status: Status) -> Result<(), AllocError>
    ensures { OnOk result (text.new.items ≡ text.old.items ++ spec.line (codes "status") (string (spec.status_word status))) }
{
    push_line(alloc, text, "status", status_word(status).as_bytes())
}

/// Appends the lines of how `package` is built.
#[tactic(auto, unfolding(crate::specs::Summaries::state_lines))]
fn push_state(
    alloc: Global,
    text: &mut Vec<u8>,
    package: &SummaryPackage<'_>,
) -> Result<(), AllocError>
    ensures { OnOk result (text.new.items ≡ text.old.items ++ spec.state_lines (package_text «package».now)) }
{
    push_status(alloc, text, package.status)?;
    push_array_line(alloc, text, "features", &package.features)?;
    push_array_line(alloc, text, "optional-deps", &package.optional_dependencies)
}

/// Appends the table of `package` in the array of tables `name`.
#[tactic(auto, unfolding(crate::specs::Summaries::table))]
fn push_table(
    alloc: Global,
    text: &mut Vec<u8>,
    name: &str,
    package: &SummaryPackage<'_>,
) -> Result<(), AllocError>
    ensures { OnOk result (text.new.items ≡ text.old.items ++ spec.table name.now (package_text «package».now)) }
{
    push_head(text, name)?;
    push_id(alloc, text, package)?;
    push_state(alloc, text, package)
}

/// Appends the tables of `packages` in the array of tables `name`.
fn push_tables(
    alloc: Global,
    text: &mut Vec<u8>,
    name: &str,
    packages: &[SummaryPackage<'_>],
) -> Result<(), AllocError>
    ensures { OnOk result (text.new.items ≡ text.old.items ++ spec.tables name.now (map package_text packages.now)) }
{
    for package in packages {
        push_table(alloc, text, name, package)?;
    }
    Ok(())
}

/// Returns the summary of the packages for the target and of those for the host, as they are ordered.
fn ordered_text(
    alloc: Global,
    targets: &[SummaryPackage<'_>],
    hosts: &[SummaryPackage<'_>],
) -> Result<Vec<u8>, AllocError>
    ensures { IfOk result (λ text. text.items ≡ spec.summary (map package_text targets.now) (map package_text hosts.now)) }
{
    let mut text = Vec::new(alloc);
    push_str(&mut text, "# This build summary is @generated by feats.\n")?;
    push_tables(alloc, &mut text, "target-package", targets)?;
    push_tables(alloc, &mut text, "host-package", hosts)?;
    Ok(text)
}

/// Returns the summary of the packages that are built for the target and of those for the host, as TOML. Initial packages are first, and
/// those of one status are in the order of their names. Packages of one name and status stay in their order. The only error is out of memory.
pub fn summary_text(
    alloc: Global,
    mut targets: Vec<SummaryPackage<'_>>,
    mut hosts: Vec<SummaryPackage<'_>>,
) -> Result<Vec<u8>, AllocError>
    ensures { IfOk result (λ text. IsSummary (map package_text targets.entry.items) (map package_text hosts.entry.items) text.items) }
{
    sort_packages(&mut targets)?;
    sort_packages(&mut hosts)?;
    ordered_text(alloc, &targets, &hosts)
}
