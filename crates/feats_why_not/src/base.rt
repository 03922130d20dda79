//! The build in which parts are off.
ghost use Rattle.std.specs.Prelude.{◌≡◌, IfOk, map};
ghost use Rattle.std.specs.List.{AllZip};
ghost use Rattle.cargo_plans.specs.Plans.{IsPlanOf};
ghost use Rattle.cargo_plans.specs.WordsView.{words_text};
ghost use Rattle.cargo_plans.specs.plan_steps.PlanViews.{plan_text};
ghost use Rattle.cargo_workspaces.specs.WorkspaceView.{workspace_text};
ghost use Rattle.plan_rows.specs.platforms.HeldSpecs.{holds_on};
ghost use Rattle.plan_names.specs.wider.widenings.Widenings as spec;
ghost use Rattle.feats_why_not.specs.PartView.{part_text};
ghost use Rattle.feats_why_not.specs.Texts.{IsSection};
ghost use Rattle.feats_why_not.specs.inner.Lists.{texts_of};

use crate::parts::OffPart;
use crate::widened_sections::{planned_sections, widened_sections};
use cargo_plans::{Plan, PlanWords};
use cargo_workspaces::Workspace;
use feats_words::Format;
use plan_names::wider::widenings::{Widening, adds, widened};
use plan_rows::platforms::HeldSpecs;
use std::alloc::{AllocError, Global};

/// The build in which parts are off.
#[derive(Clone, Copy)]
pub(crate) struct Base<'b, 'v, 'w, 'n, 's, 'p> {
    pub(crate) workspace: &'b Workspace<'v>,
    pub(crate) words: &'b PlanWords<'w, 'n, HeldSpecs<'s>>,
    /// The plan for `words`.
    pub(crate) plan: &'b Plan<'p>,
    /// The platform on which each platform spec of `workspace` holds.
    pub(crate) every: &'n HeldSpecs<'s>,
    /// True if the answer is about one part. Then words to type are looked for.
    pub(crate) alone: bool,
}

/// Returns the sections about `widening` of the build `base` and each of `parts`. A widening that adds nothing has the plan of the build.
pub(crate) fn sections_by(
    alloc: Global,
    form: Format,
    base: Base<'_, '_, '_, '_, '_, '_>,
    widening: Widening,
    parts: &[OffPart<'_>],
) -> Result<Vec<Vec<u8>>, AllocError>
    requires { IsPlanOf (workspace_text base.workspace.now) (words_text holds_on base.words.now) (plan_text base.plan.now) }
    ensures { IfOk result (λ sections. AllZip (IsSection form base.entry.alone (workspace_text base.entry.workspace.now) (words_text holds_on base.entry.words.now) (spec.widened (holds_on base.entry.every.now) widening (words_text holds_on base.entry.words.now)) widening) (map part_text parts.now) (texts_of sections.items)) }
{
    if adds(base.words, widening) {
        let wider = widened(base.words, widening, base.every);
        widened_sections(alloc, form, base, &wider, widening, parts)
    } else {
        planned_sections(alloc, form, base, base.words, widening, parts, base.plan)
    }
}
