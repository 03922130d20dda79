//! Messages about policies that can't be checked.
ghost use Rattle.std.specs.Prelude.{◌≡◌, ◌++◌, IfOk, OnOk, filter, flat_map, map, string_bytes};
ghost use Rattle.cargo_workspaces.specs.Views.{texts};
ghost use Rattle.cargo_workspaces.specs.Workspaces.{Text};
ghost use Rattle.cargo_workspaces.specs.WorkspaceView.{workspace_text};
ghost use Rattle.feats_files.specs.Messages.{Says};
ghost use Rattle.plan_names.specs.Views.{named_text, part_text};
ghost use Rattle.feats_policies.specs.checks.Views.{build_text, refusal_text};
ghost use Rattle.feats_check.specs.texts.Lines.{place};
ghost use Rattle.feats_check.specs.texts.Messages as spec;

use crate::texts::words::digits_of;
use cargo_workspaces::Workspace;
use feats_files::{Fault, push_escaped, push_package};
use feats_policies::checks::{Build, CheckFault};
use feats_policies::{PolicyFault, Problem};
use plan_names::{Named, Part};
use shown_texts::escaped;
use std::alloc::{AllocError, Global};

/// Returns the refusal with this message, or `Memory` if there is none.
pub(crate) fn refused_by(message: Result<String, AllocError>) -> Fault
    ensures { (text : Text) → IfOk message (λ m. string_bytes m ≡ text) → Says result (λ m. m ≡ text) }
{
    match message {
        Ok(message) => Fault::Refused { message },
        Err(_) => Fault::Memory,
    }
}

/// Returns the refusal with this message of several lines, or `Memory` if there is none.
fn listed_by(message: Result<String, AllocError>) -> Fault
    ensures { (text : Text) → IfOk message (λ m. string_bytes m ≡ text) → Says result (λ m. m ≡ text) }
{
    match message {
        Ok(message) => Fault::Listed { message },
        Err(_) => Fault::Memory,
    }
}

/// Returns the place of line `line` in `file`.
fn place_of(alloc: Global, file: &str, line: usize) -> Result<String, AllocError>
    ensures { IfOk result (λ text. string_bytes text ≡ place file.now line) }
{
    let digits = digits_of(alloc, line)?;
    let mut text = escaped(alloc, file)?;
    text.push_str(":")?;
    text.push_str(digits.as_str())?;
    text.push_str(": ")?;
    Ok(text)
}

/// Returns the message about a malformed line.
fn malformed_message(
    alloc: Global,
    file: &str,
    line: usize,
    problem: Problem,
) -> Result<String, AllocError>
    ensures { IfOk result (λ text. string_bytes text ≡ spec.malformed_message file.now line problem) }
{
    let mut text = place_of(alloc, file, line)?;
    text.push_str(problem.text())?;
    Ok(text)
}

/// Returns the refusal of the policy `file`: its first malformed line, and what is wrong with it.
pub fn policy_refused(alloc: Global, file: &str, fault: PolicyFault) -> Fault
    ensures { Says result (spec.IsPolicyMessage file.now fault) }
{
    match fault {
        PolicyFault::Malformed { line, problem } => {
            refused_by(malformed_message(alloc, file, line, problem))
        }
        PolicyFault::Memory => Fault::Memory,
    }
}

/// Returns the beginning of a message about `word` in line `line`.
pub(crate) fn about(
    alloc: Global,
    file: &str,
    line: usize,
    word: &str,
    wrong: &str,
) -> Result<String, AllocError>
    ensures { IfOk result (λ text. string_bytes text ≡ spec.about file.now line word.now wrong.now) }
{
    let mut text = place_of(alloc, file, line)?;
    text.push_str("`")?;
    push_escaped(alloc, &mut text, word)?;
    text.push_str(wrong)?;
    Ok(text)
}

/// Appends what follows the package in the name of `part`.
fn push_part(alloc: Global, text: &mut String, part: Part<'_>) -> Result<(), AllocError>
    ensures { OnOk result (string_bytes text.new ≡ string_bytes text.old ++ spec.part_end (part_text part.entry)) }
{
    match part {
        Part::Package => Ok(()),
        Part::Feature(name) => {
            text.push_str("/")?;
            push_escaped(alloc, text, name)
        }
        Part::Dependency(name) => {
            text.push_str("/dep:")?;
            push_escaped(alloc, text, name)
        }
    }
}

/// Appends the line of `candidate`.
fn push_candidate(
    alloc: Global,
    text: &mut String,
    workspace: &Workspace<'_>,
    candidate: Named<'_>,
) -> Result<(), AllocError>
    ensures { OnOk result (string_bytes text.new ≡ string_bytes text.old ++ spec.candidate_line (workspace_text workspace.now).packages (named_text candidate.entry)) }
{
    text.push_str("\n  ")?;
    push_package(alloc, text, workspace, candidate.package)?;
    push_part(alloc, text, candidate.part)
}

/// Appends the lines of `candidates`.
fn push_candidates(
    alloc: Global,
    text: &mut String,
    workspace: &Workspace<'_>,
    candidates: &[Named<'_>],
) -> Result<(), AllocError>
    ensures { OnOk result (string_bytes text.new ≡ string_bytes text.old ++ flat_map (spec.candidate_line (workspace_text workspace.now).packages) (map named_text candidates.now)) }
{
    for candidate in candidates {
        push_candidate(alloc, text, workspace, *candidate)?;
    }
    Ok(())
}

/// Appends the line of `triple`.
fn push_triple(alloc: Global, text: &mut String, triple: &str) -> Result<(), AllocError>
    ensures { OnOk result (string_bytes text.new ≡ string_bytes text.old ++ spec.triple_line triple.now) }
{
    text.push_str("\n  ")?;
    push_escaped(alloc, text, triple)
}

/// Appends the lines of those of `triples` that aren't `host`.
fn push_others(
    alloc: Global,
    text: &mut String,
    host: &str,
    triples: &[&str],
) -> Result<(), AllocError>
    ensures { OnOk result (string_bytes text.new ≡ string_bytes text.old ++ flat_map spec.triple_line (spec.others_than host.now (texts triples.now))) }
{
    for triple in triples {
        if *triple != host {
            push_triple(alloc, text, triple)?;
        }
    }
    Ok(())
}

/// Returns the message about `word` in line `line`, which means one of `candidates`.
fn several_message(
    alloc: Global,
    workspace: &Workspace<'_>,
    file: &str,
    line: usize,
    word: &str,
    candidates: &[Named<'_>],
) -> Result<String, AllocError>
    ensures { IfOk result (λ text. string_bytes text ≡ spec.several_message (workspace_text workspace.now).packages file.now line word.now (map named_text candidates.now)) }
{
    let wrong = "` has several meanings: write one of these";
    let mut text = about(alloc, file, line, word, wrong)?;
    push_candidates(alloc, &mut text, workspace, candidates)?;
    Ok(text)
}

/// Returns the message about `triple` in line `line`, which is that of no platform of `build`.
fn platform_message(
    alloc: Global,
    build: Build<'_, '_, '_, '_>,
    file: &str,
    line: usize,
    triple: &str,
) -> Result<String, AllocError>
    ensures { IfOk result (λ text. string_bytes text ≡ spec.platform_message (build_text build.entry) file.now line triple.now) }
{
    let wrong = "` is neither the host nor a target of this build: write one of these";
    let mut text = about(alloc, file, line, triple, wrong)?;
    push_triple(alloc, &mut text, build.host)?;
    push_others(alloc, &mut text, build.host, build.targets)?;
    Ok(text)
}

/// Returns the refusal of the policy `file`: the first rule that can't be checked in `build`, and why.
pub fn check_refused(
    alloc: Global,
    build: Build<'_, '_, '_, '_>,
    file: &str,
    fault: CheckFault<'_>,
) -> Fault
    ensures { Says result (spec.IsCheckMessage (build_text build.entry) file.now (refusal_text fault.entry)) }
{
    match fault {
        CheckFault::Several {
            line,
            word,
            candidates,
        } => listed_by(several_message(alloc, build.workspace, file, line, word, &candidates)),
        CheckFault::NoPlatform { line, triple } => {
            listed_by(platform_message(alloc, build, file, line, triple))
        }
        CheckFault::Memory => Fault::Memory,
    }
}
