//! Messages about words that name nothing, or several things.
ghost use Rattle.std.specs.Prelude.{◌≡◌, ◌++◌, IfOk, OnOk, map, string_bytes};
ghost use Rattle.cargo_workspaces.specs.WorkspaceView.{workspace_text};
ghost use Rattle.plan_names.specs.Faults.{refusal_of};
ghost use Rattle.plan_names.specs.Views.{named_text, part_text};
ghost use Rattle.feats_files.specs.Messages.{Says};
ghost use Rattle.feats_answers.specs.NameMessages as spec;

use cargo_workspaces::Workspace;
use feats_files::{Fault, push_escaped, push_package};
use plan_names::{NameFault, Named, Part, suggestions};
use std::alloc::{AllocError, Global};

/// Returns what follows the package in the name of `part`.
fn part_mark(part: Part<'_>) -> &'static str
    ensures { result.now ≡ spec.part_mark (part_text part.entry) }
{
    match part {
        Part::Package => "",
        Part::Feature(_) => "/",
        Part::Dependency(_) => "/dep:",
    }
}

/// Returns the name of the feature or of the dependency that is `part`.
fn part_name(part: Part<'_>) -> &str
    ensures { result.now ≡ spec.part_name (part_text part.entry) }
{
    match part {
        Part::Package => "",
        Part::Feature(name) | Part::Dependency(name) => name,
    }
}

/// Appends the line of `candidate`.
fn push_candidate(
    alloc: Global,
    text: &mut String,
    workspace: &Workspace<'_>,
    candidate: Named<'_>,
) -> Result<(), AllocError>
    ensures { OnOk result (string_bytes text.new ≡ string_bytes text.old ++ spec.part_line (workspace_text workspace.now).packages (named_text candidate.entry)) }
{
    text.push_str("\n  ")?;
    push_package(alloc, text, workspace, candidate.package)?;
    text.push_str(part_mark(candidate.part))?;
    push_escaped(alloc, text, part_name(candidate.part))?;
    Ok(())
}

/// Returns the message about `word`, which `candidates` fit.
fn several_message(
    alloc: Global,
    workspace: &Workspace<'_>,
    word: &str,
    candidates: &[Named<'_>],
) -> Result<String, AllocError>
    ensures { IfOk result (λ text. string_bytes text ≡ spec.several_message (workspace_text workspace.now).packages word.now (map named_text candidates.now)) }
{
    let mut text = String::from_str(alloc, "`")?;
    push_escaped(alloc, &mut text, word)?;
    text.push_str("` has several meanings: write one of these")?;
    for candidate in candidates {
        push_candidate(alloc, &mut text, workspace, *candidate)?;
    }
    Ok(text)
}

/// Returns the text of parts that may be meant.
fn text_of_suggestions(
    alloc: Global,
    workspace: &Workspace<'_>,
    named: &[Named<'_>],
) -> Result<String, AllocError> {
    if named.is_empty() {
        return Ok(String::new(alloc));
    }
    let mut text = String::from_str(alloc, ": did you mean one of these?")?;
    for one in named {
        push_candidate(alloc, &mut text, workspace, *one)?;
    }
    Ok(text)
}

/// Returns the end of the message about `word`, which names nothing: parts whose names are near to it.
fn suggested(alloc: Global, workspace: &Workspace<'_>, word: &str) -> Result<String, AllocError> {
    let named = suggestions(alloc, workspace, word)?;
    text_of_suggestions(alloc, workspace, &named)
}

/// Returns the message about `word`, which names nothing.
fn unknown_message(
    alloc: Global,
    workspace: &Workspace<'_>,
    word: &str,
) -> Result<String, AllocError>
    ensures { IfOk result (λ text. spec.IsUnknownMessage word.now (string_bytes text)) }
{
    let end = suggested(alloc, workspace, word)?;
    let mut text = String::from_str(alloc, "nothing in the document has the name `")?;
    push_escaped(alloc, &mut text, word)?;
    text.push_str("`")?;
    text.push_str(end.as_str())?;
    Ok(text)
}

/// Returns the refusal of `word`, which names nothing.
fn unknown_refused(alloc: Global, workspace: &Workspace<'_>, word: &str) -> Fault
    ensures { Says result (spec.IsUnknownMessage word.now) }
{
    match unknown_message(alloc, workspace, word) {
        Ok(message) => Fault::Listed { message },
        Err(_) => Fault::Memory,
    }
}

/// Returns the refusal of `word`, which `candidates` fit.
fn several_refused(
    alloc: Global,
    workspace: &Workspace<'_>,
    word: &str,
    candidates: &[Named<'_>],
) -> Fault
    ensures { Says result (λ message. message ≡ spec.several_message (workspace_text workspace.now).packages word.now (map named_text candidates.now)) }
{
    match several_message(alloc, workspace, word, candidates) {
        Ok(message) => Fault::Listed { message },
        Err(_) => Fault::Memory,
    }
}

/// Returns the refusal of a word that doesn't name what is wanted.
pub(crate) fn name_refused(alloc: Global, workspace: &Workspace<'_>, fault: NameFault<'_>) -> Fault
    ensures { Says result (spec.IsNameMessage (workspace_text workspace.now).packages (refusal_of fault.entry)) }
{
    match fault {
        NameFault::Unknown { word } => unknown_refused(alloc, workspace, word),
        NameFault::Several { word, candidates } => {
            several_refused(alloc, workspace, word, &candidates)
        }
        NameFault::Memory => Fault::Memory,
    }
}
