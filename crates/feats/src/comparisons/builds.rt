//! The builds that are compared.
ghost use Rattle.std.specs.Prelude.{◌≡◌, IfOk, map};
ghost use Rattle.cargo_workspaces.specs.Views.{texts};
ghost use Rattle.cargo_plans.specs.Plans.{IsPlanOf};
ghost use Rattle.feats_answers.specs.AnswerViews.{answer_text};
ghost use Rattle.feats_answers.specs.PlanTexts as places;
ghost use Rattle.feats.specs.comparisons.Builds as spec;
ghost use Rattle.feats.specs.comparisons.differences.Answers.{IsDiffAnswer};
ghost use Rattle.feats.specs.comparisons.differences.Forms as forms;
ghost use Rattle.feats.specs.comparisons.differences.Views.{build_text};
ghost use Rattle.feats_files.specs.FileViews.{file_text};
ghost use Rattle.feats_plans.specs.PlannedView.{planned_text};

use crate::comparisons::differences::{Answer, Build, form_of, run_diff};
use feats_files::PlatformFile;
use feats_plans::Planned;
use std::alloc::{AllocError, Global};

/// Returns the triples of `files`.
fn triples_of<'f>(alloc: Global, files: &[PlatformFile<'f>]) -> Result<Vec<&'f str>, AllocError>
    ensures { IfOk result (λ names. texts names.items ≡ map (λ f. f.triple) (map file_text files.now)) }
{
    let mut names = Vec::with_capacity(alloc, files.len())?;
    for file in files {
        names.push(file.triple)?;
    }
    Ok(names)
}

/// Returns the names of the target platforms of `files`: a single one is `target`, and several have their triples.
fn target_names<'f>(alloc: Global, files: &[PlatformFile<'f>]) -> Result<Vec<&'f str>, AllocError>
    ensures { IfOk result (λ names. texts names.items ≡ places.target_names (map file_text files.now)) }
{
    match files {
        [] | [_] => {
            let mut names = Vec::with_capacity(alloc, 1)?;
            names.push("target")?;
            Ok(names)
        }
        [_, _, ..] => triples_of(alloc, files),
    }
}

/// Returns the build of `planned`; `targets` are the names of its target platforms.
fn build_of<'b, 'n, 's, 'v, 'w>(
    planned: &Planned<'b, 'n, 's, 'v, 'w>,
    targets: &'b [&'b str],
) -> Build<'b, 'v, 'w, 'n, 's>
    requires { texts targets.now ≡ places.target_names (planned_text planned.now).inputs.targets }
    ensures { build_text result ≡ spec.build_of (planned_text planned.now) }
{
    Build {
        targets,
        workspace: planned.workspace,
        words: planned.words,
        plan: planned.plan,
    }
}

/// Returns the answer to `diff` about the builds of `old` and `new`. The only error is out of memory.
pub(crate) fn difference(
    alloc: Global,
    old: &Planned<'_, '_, '_, '_, '_>,
    new: &Planned<'_, '_, '_, '_, '_>,
) -> Result<Answer, AllocError>
    requires { IsPlanOf (planned_text new.now).workspace (planned_text new.now).words (planned_text new.now).plan }
    ensures { IfOk result (λ answer. IsDiffAnswer (forms.form_of (planned_text old.now).inputs.arguments.question (planned_text old.now).inputs.arguments.format) (spec.build_of (planned_text old.now)) (spec.build_of (planned_text new.now)) (answer_text answer)) }
{
    let old_names = target_names(alloc, &old.files.targets)?;
    let new_names = target_names(alloc, &new.files.targets)?;
    let old_build = build_of(old, &old_names);
    let new_build = build_of(new, &new_names);
    run_diff(alloc, form_of(old.arguments), &old_build, &new_build)
}
