//! The refusals of selections that have no plan.
ghost use Rattle.std.specs.Prelude.{◌≡◌, ◌++◌, IfOk, OnOk, Some, flat_map, string_bytes};
ghost use Rattle.cargo_workspaces.specs.Views.{texts};
ghost use Rattle.cargo_workspaces.specs.WorkspaceView.{workspace_text};
ghost use Rattle.cargo_plans.specs.Refusals.{is_memory};
ghost use Rattle.cargo_plans.specs.plan_starts.UnfitWords.{unfit_text};
ghost use Rattle.feats_files.specs.Messages.{IsRefused};
ghost use Rattle.feats_files.specs.plan_messages.Messages as spec;

use crate::message::text_of;
use crate::platforms::id_at;
use crate::{Fault, push_escaped, push_package, refused};
use cargo_plans::{PlanFault, Side, StepFault, UnfitWord, WordFault};
use cargo_workspaces::Workspace;
use std::alloc::{AllocError, Global};

/// Returns whether `fault` is that an allocation failed.
pub fn is_memory(fault: &PlanFault<'_>) -> bool
    ensures { result ≡ is_memory fault.now }
{
    matches!(fault, PlanFault::Steps(StepFault::Memory))
}

/// Appends the line with the word for `package`.
fn push_line(
    alloc: Global,
    text: &mut String,
    workspace: &Workspace<'_>,
    package: usize,
) -> Result<(), AllocError>
    ensures { OnOk result (string_bytes text.new ≡ string_bytes text.old ++ spec.package_line (workspace_text workspace.now).packages «package») }
{
    text.push_str("\n  ")?;
    push_package(alloc, text, workspace, package)
}

/// Returns the message about `word`, which `candidates` fit.
fn several_message(
    alloc: Global,
    workspace: &Workspace<'_>,
    word: &str,
    candidates: &[usize],
) -> Result<String, AllocError>
    ensures { IfOk result (λ text. string_bytes text ≡ spec.several_message (workspace_text workspace.now).packages word.now candidates.now) }
{
    let mut text = String::from_str(alloc, "several packages fit `")?;
    push_escaped(alloc, &mut text, word)?;
    text.push_str("`: write one of these")?;
    for candidate in candidates {
        push_line(alloc, &mut text, workspace, *candidate)?;
    }
    Ok(text)
}

/// Returns the refusal of a word that several packages fit.
fn several_refused(
    alloc: Global,
    workspace: &Workspace<'_>,
    word: &str,
    candidates: &[usize],
) -> Fault
    ensures { IsRefused (spec.several_message (workspace_text workspace.now).packages word.now candidates.now) result }
{
    match several_message(alloc, workspace, word, candidates) {
        Ok(message) => Fault::Listed { message },
        Err(_) => Fault::Memory,
    }
}

/// Returns the refusal of words with the feature or the dependency `name`, which `package` doesn't declare. `lacks` is the text
/// before the name, and says what is missing.
fn lacks_refused(
    alloc: Global,
    workspace: &Workspace<'_>,
    package: usize,
    lacks: &str,
    name: &str,
) -> Fault
    ensures { IsRefused (spec.lacks_message (workspace_text workspace.now).packages «package» lacks.now name.now) result }
{
    refused(
        alloc,
        &[
            "package ",
            id_at(workspace, package),
            lacks,
            name,
            "`: look it up in its manifest",
        ],
    )
}

/// Returns the refusal of the words of a selection.
fn selection_refused<'p>(alloc: Global, workspace: &'p Workspace<'_>, fault: WordFault<'p>) -> Fault
    ensures { IsRefused (spec.word_message (workspace_text workspace.now).packages fault.entry) result }
{
    match fault {
        WordFault::UnknownPackage(word) => refused(
            alloc,
            &[
                "no package of the document fits `",
                word,
                "`: write NAME, NAME@VERSION, an id, or a pattern of members' names with `*`",
            ],
        ),
        WordFault::AmbiguousPackage { word, candidates } => {
            several_refused(alloc, workspace, word, &candidates)
        }
        WordFault::NoPackages => refused(
            alloc,
            &[
                "no package is selected: the workspace has no default members, no members at all, or all are excluded; select packages by -p or --workspace",
            ],
        ),
        WordFault::NoMember => refused(
            alloc,
            &[
                "features are asked for, and no selected package is a member of the workspace: select a member, or leave the features out",
            ],
        ),
        WordFault::UnknownFeature(word) => refused(
            alloc,
            &[
                "no selected member has `",
                word,
                "`: write a feature of a selected member, or DEPENDENCY/FEATURE",
            ],
        ),
        WordFault::NoFeature { package, feature } => {
            lacks_refused(alloc, workspace, package, " has no feature `", feature)
        }
        WordFault::NoDependency {
            package,
            dependency,
        } => lacks_refused(
            alloc,
            workspace,
            package,
            " declares no dependency `",
            dependency,
        ),
        WordFault::Memory => Fault::Memory,
    }
}

/// Returns the word for `side`.
fn side_word(side: Side) -> &'static str
    ensures { result.now ≡ spec.side_word side }
{
    match side {
        Side::Target => "target",
        Side::Host => "host",
    }
}

/// Returns the refusal of a package that isn't on, on the side with this word.
fn not_on_refused<'p>(
    alloc: Global,
    workspace: &'p Workspace<'_>,
    package: usize,
    side: &'p str,
) -> Fault
    ensures { IsRefused (spec.not_on_message (workspace_text workspace.now).packages «package» side.now) result }
{
    refused(
        alloc,
        &[
            "package ",
            id_at(workspace, package),
            " isn't built for the ",
            side,
            ": select a member that depends on it too",
        ],
    )
}

/// Returns the refusal of `name`, which fits no target of the kind `kind` in the selected packages.
fn unfit_refused<'p>(alloc: Global, kind: &'p str, name: &'p str) -> Fault
    ensures { IsRefused (spec.no_target_message (kind.now, Some name.now)) result }
{
    refused(
        alloc,
        &[
            "no selected package has a target of the kind `",
            kind,
            "` that fits `",
            name,
            "`: write its name, or a pattern with `*`",
        ],
    )
}

/// Returns the refusal of a word for targets that chooses none of the selected packages.
fn no_target_refused(alloc: Global, word: UnfitWord<'_>) -> Fault
    ensures { IsRefused (spec.no_target_message (unfit_text word.entry)) result }
{
    match word.name {
        Some(name) => unfit_refused(alloc, word.kind, name),
        None => refused(
            alloc,
            &["no selected package has a library: leave --lib out"],
        ),
    }
}

/// Returns the name of target `target` of package `package`; an empty text if there is none.
fn target_name<'w>(workspace: &'w Workspace<'_>, package: usize, target: usize) -> &'w str
    ensures { result.now ≡ spec.target_name (workspace_text workspace.now).packages «package» target }
{
    match workspace.packages().get(package) {
        Some(found) => match found.targets.get(target) {
            Some(chosen) => chosen.name,
            None => "",
        },
        None => "",
    }
}

/// Appends the name of a feature.
fn push_feature(text: &mut String, feature: &str) -> Result<(), AllocError>
    ensures { OnOk result (string_bytes text.new ≡ string_bytes text.old ++ spec.needed_feature feature.now) }
{
    text.push_str(" `")?;
    text.push_str(feature)?;
    text.push_str("`")?;
    Ok(())
}

/// Appends the names of `features`.
fn push_features(text: &mut String, features: &[&str]) -> Result<(), AllocError>
    ensures { OnOk result (string_bytes text.new ≡ string_bytes text.old ++ flat_map spec.needed_feature (texts features.now)) }
{
    for feature in features {
        push_feature(text, feature)?;
    }
    Ok(())
}

/// Appends the names of the features that target `target` of package `package` requires; nothing if there is no such target.
fn push_needs(
    text: &mut String,
    workspace: &Workspace<'_>,
    package: usize,
    target: usize,
) -> Result<(), AllocError>
    ensures { OnOk result (string_bytes text.new ≡ string_bytes text.old ++ flat_map spec.needed_feature (spec.needs_of (workspace_text workspace.now).packages «package» target)) }
{
    let Some(found) = workspace.packages().get(package) else {
        return Ok(());
    };
    let Some(chosen) = found.targets.get(target) else {
        return Ok(());
    };
    push_features(text, &chosen.required_features)
}

/// Returns the begin of the message about a target that is chosen by its name.
fn unmet_begin<'w>(
    alloc: Global,
    workspace: &'w Workspace<'_>,
    package: usize,
    target: usize,
) -> Result<String, AllocError>
    ensures { IfOk result (λ text. string_bytes text ≡ spec.unmet_begin (workspace_text workspace.now).packages «package» target) }
{
    text_of(
        alloc,
        &[
            "the target `",
            target_name(workspace, package, target),
            "` of package ",
            id_at(workspace, package),
            " requires features, and not all are on: add --features for",
        ],
    )
}

/// Returns the message about a target that is chosen by its name, and requires a feature that isn't on.
fn unmet_message(
    alloc: Global,
    workspace: &Workspace<'_>,
    package: usize,
    target: usize,
) -> Result<String, AllocError>
    ensures { IfOk result (λ text. string_bytes text ≡ spec.unmet_message (workspace_text workspace.now).packages «package» target) }
{
    let mut text = unmet_begin(alloc, workspace, package, target)?;
    push_needs(&mut text, workspace, package, target)?;
    Ok(text)
}

/// Returns the refusal of a target that is chosen by its name, and requires a feature that isn't on.
fn unmet_refused(alloc: Global, workspace: &Workspace<'_>, package: usize, target: usize) -> Fault
    ensures { IsRefused (spec.unmet_message (workspace_text workspace.now).packages «package» target) result }
{
    match unmet_message(alloc, workspace, package, target) {
        Ok(message) => Fault::Refused { message },
        Err(_) => Fault::Memory,
    }
}

/// Returns the refusal of a selection that a step refuses.
fn step_refused<'p>(alloc: Global, workspace: &'p Workspace<'_>, fault: StepFault<'p>) -> Fault
    ensures { IsRefused (spec.step_message (workspace_text workspace.now).packages fault.entry) result }
{
    match fault {
        StepFault::NoTests { package } => refused(
            alloc,
            &[
                "package ",
                id_at(workspace, package),
                " isn't a member of the workspace, and its tests need its dependencies for development: leave `--command test` out",
            ],
        ),
        StepFault::NoTarget(word) => no_target_refused(alloc, word),
        StepFault::Unmet { package, target } => unmet_refused(alloc, workspace, package, target),
        StepFault::NotOn { package, side } => {
            not_on_refused(alloc, workspace, package, side_word(side))
        }
        StepFault::Lacking {
            package,
            dependency,
        } => refused(
            alloc,
            &[
                "the document has no package for the optional dependency `",
                dependency,
                "` of ",
                id_at(workspace, package),
                ": make it by `cargo metadata --format-version 1 --all-features --features WORDS` with the words of the selection",
            ],
        ),
        StepFault::Memory => Fault::Memory,
    }
}

/// Returns the refusal of a selection that has no plan.
pub fn plan_refused<'p>(alloc: Global, workspace: &'p Workspace<'_>, fault: PlanFault<'p>) -> Fault
    ensures { IsRefused (spec.plan_message (workspace_text workspace.now).packages fault.entry) result }
{
    match fault {
        PlanFault::Words(fault) => selection_refused(alloc, workspace, fault),
        PlanFault::Steps(fault) => step_refused(alloc, workspace, fault),
    }
}
