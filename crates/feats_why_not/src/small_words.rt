//! The smallest words that turn parts on.
ghost use Rattle.std.specs.Prelude.{◌≡◌, IfOk, IsFalse, false, map, option_map};
ghost use Rattle.std.specs.List.{AllZip};
ghost use Rattle.cargo_plans.specs.WordsView.{words_text};
ghost use Rattle.cargo_plans.specs.plan_steps.PlanViews.{plan_text};
ghost use Rattle.cargo_workspaces.specs.WorkspaceView.{workspace_text};
ghost use Rattle.plan_rows.specs.platforms.HeldSpecs.{holds_on};
ghost use Rattle.plan_words.specs.TargetChoices.{needs_development};
ghost use Rattle.plan_whys.specs.StepViews.{why_text};
ghost use Rattle.cargo_plans.specs.Refusals.{is_memory};
ghost use Rattle.feats_why_not.specs.PartView.{part_text};
ghost use Rattle.feats_why_not.specs.StandingView.{standing_text};
ghost use Rattle.feats_why_not.specs.Standings.{standing_of as standing_in_plan};
ghost use Rattle.feats_why_not.specs.Tries.{tries_of as words_tried};
ghost use Rattle.feats_why_not.specs.Typed.{IsBuiltIf, IsFirst, IsTyped, is_built_standing, typed_words};
ghost use Rattle.feats_why_not.specs.inner.Lists.{IsTold, about_value, answer_text, told_value, typed_value};

use crate::answer::Answer;
use crate::base::Base;
use crate::parts::OffPart;
use crate::standings::{Standing, standing_of};
use crate::told::{PartAnswer, Told};
use crate::tries::tries_of;
use crate::typed_words::{TypedWords, words_of};
use cargo_plans::built_parts::BuiltParts;
use cargo_plans::{Plan, PlanFault, PlanWords, StepFault, plan};
use cargo_workspaces::Workspace;
use plan_rows::platforms::HeldSpecs;
use plan_whys::WhyStep;
use std::alloc::{AllocError, Global};

/// Returns whether a part is built that stands so.
fn is_built(standing: Standing) -> bool
    ensures { result ≡ is_built_standing (standing_text standing) }
{
    match standing {
        Standing::BuiltOn(_) => true,
        Standing::UnbuiltOn(_) | Standing::Off => false,
    }
}

/// Returns whether `part` is built in `plan`. `split` is whether its resolver tells the sides apart.
fn is_built_in(
    alloc: Global,
    split: bool,
    plan: &Plan<'_>,
    part: OffPart<'_>,
) -> Result<bool, AllocError>
    ensures { IfOk result (λ is. is ≡ is_built_standing (standing_in_plan split (plan_text plan.now) (part_text part.entry))) }
{
    let built = BuiltParts::of_plan(alloc, split, plan)?;
    Ok(is_built(standing_of(&built, part)))
}

/// Returns false, unless `fault` is that an allocation failed.
fn without_plan(fault: PlanFault<'_>) -> Result<bool, AllocError>
    ensures { IfOk result (λ is. (is ≡ false) × IsFalse (is_memory fault.entry)) }
{
    match fault {
        PlanFault::Steps(StepFault::Memory) => Err(AllocError),
        _ => Ok(false),
    }
}

/// Returns whether `words` have a plan in which `part` is built.
fn is_built_by(
    alloc: Global,
    workspace: &Workspace<'_>,
    words: &PlanWords<'_, '_, HeldSpecs<'_>>,
    part: OffPart<'_>,
) -> Result<bool, AllocError>
    ensures { IfOk result (IsBuiltIf (workspace_text workspace.now) (words_text holds_on words.now) (part_text part.entry)) }
{
    match plan(alloc, workspace, words) {
        Ok(plan) => {
            let is = is_built_in(alloc, words.selection.split, &plan, part);
            drop(plan);
            is
        }
        Err(fault) => without_plan(fault),
    }
}

/// Returns whether `part` is built in the plan of the words `typed`. The resolver and the platforms are those of `words`.
fn is_built_by_typed(
    alloc: Global,
    workspace: &Workspace<'_>,
    words: &PlanWords<'_, '_, HeldSpecs<'_>>,
    part: OffPart<'_>,
    typed: TypedWords<'_>,
) -> Result<bool, AllocError>
    ensures { IfOk result (IsBuiltIf (workspace_text workspace.now) (typed_words (words_text holds_on words.now) (typed_value typed.entry)) (part_text part.entry)) }
{
    is_built_by(alloc, workspace, &words_of(words, &typed), part)
}

/// Returns the first of `tries` in whose plan `part` is built. The resolver and the platforms are those of `words`.
fn first_built<'t>(
    alloc: Global,
    workspace: &Workspace<'_>,
    words: &PlanWords<'_, '_, HeldSpecs<'_>>,
    part: OffPart<'_>,
    tries: &[TypedWords<'t>],
) -> Result<Option<TypedWords<'t>>, AllocError>
    ensures { IfOk result (λ typed. IsFirst (workspace_text workspace.now) (words_text holds_on words.now) (part_text part.entry) (map typed_value tries.now) (option_map typed_value typed)) }
{
    for typed in tries {
        if is_built_by_typed(alloc, workspace, words, part, *typed)? {
            return Ok(Some(*typed));
        }
    }
    Ok(None)
}

/// Returns the words to type for `part`, which is on by `steps`. `test` is whether dependencies for development count in the plan of the
/// steps.
fn small_words<'p>(
    alloc: Global,
    base: Base<'p, '_, '_, '_, '_, '_>,
    test: bool,
    part: OffPart<'_>,
    steps: &[WhyStep<'p>],
) -> Result<Option<TypedWords<'p>>, AllocError>
    ensures { IfOk result (λ typed. IsFirst (workspace_text base.entry.workspace.now) (words_text holds_on base.entry.words.now) (part_text part.entry)
        (words_tried base.entry.alone (workspace_text base.entry.workspace.now).packages (needs_development (words_text holds_on base.entry.words.now).choice) test (map why_text steps.now)) (option_map typed_value typed)) }
{
    let tries = tries_of(alloc, base, test, steps)?;
    first_built(alloc, base.workspace, base.words, part, &tries)
}

/// Returns the words to type for the part and the answer of `about`, by the plan of `words`.
fn words_for<'p>(
    alloc: Global,
    base: Base<'p, '_, '_, '_, '_, '_>,
    words: &PlanWords<'_, '_, HeldSpecs<'_>>,
    about: PartAnswer<'_, 'p, '_>,
) -> Result<Option<TypedWords<'p>>, AllocError>
    ensures { IfOk result (λ typed. IsTyped base.entry.alone (workspace_text base.entry.workspace.now) (words_text holds_on base.entry.words.now) (words_text holds_on words.now) (part_text about.entry.part) (answer_text about.entry.answer) (option_map typed_value typed)) }
{
    match about.answer {
        Answer::Explained(steps) => small_words(
            alloc,
            base,
            words.choice.needs_development(),
            about.part,
            steps,
        ),
        Answer::Unbuilt(_) | Answer::Off | Answer::NotPlanned(_) => Ok(None),
    }
}

/// Returns each of `abouts` with the words to type, by the plan of `words`.
pub(crate) fn told_each<'a, 'p, 'w>(
    alloc: Global,
    base: Base<'p, '_, '_, '_, '_, '_>,
    words: &PlanWords<'_, '_, HeldSpecs<'_>>,
    abouts: &[PartAnswer<'a, 'p, 'w>],
) -> Result<Vec<Told<'a, 'p, 'w>>, AllocError>
    ensures { IfOk result (λ tolds. AllZip (λ about. IsTold base.entry.alone (workspace_text base.entry.workspace.now) (words_text holds_on base.entry.words.now) (words_text holds_on words.now) (about_value about)) abouts.now (map told_value tolds.items)) }
{
    let mut tolds = Vec::with_capacity(alloc, abouts.len())?;
    for about in abouts {
        let typed = words_for(alloc, base, words, *about)?;
        tolds.push(Told {
            about: *about,
            typed,
        })?;
    }
    Ok(tolds)
}
