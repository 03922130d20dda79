//! Plans, and visitors of them.
ghost use Rattle.std.specs.Prelude.{◌≡◌, IfOk, IfErr, map};
ghost use Rattle.cargo_workspaces.specs.Workspaces.{Text};
ghost use Rattle.cargo_plans.specs.Plans.{IsPlanOf};
ghost use Rattle.plan_rows.specs.platforms.DeclaredSpecs.{declared_specs};
ghost use Rattle.plan_rows.specs.platforms.Views.{declared_text};
ghost use Rattle.feats_files.specs.Messages.{Says};
ghost use Rattle.feats_plans.specs.Planned.{PlannedText};
ghost use Rattle.feats_plans.specs.PlannedView.{planned_text};

use crate::inputs::PlanFiles;
use cargo_plans::{Plan, PlanWords};
use cargo_workspaces::Workspace;
use feats_files::Fault;
use feats_words::CommandArguments;
use plan_rows::platforms::{DeclaredSpec, HeldSpecs};
use std::alloc::Global;

/// A plan, with the arguments, the files and the workspace that it is made from.
#[derive(Clone, Copy)]
pub struct Planned<'p, 'n, 's, 'v, 'w> {
    pub arguments: &'p CommandArguments<'w>,
    pub files: &'p PlanFiles<'n>,
    pub workspace: &'w Workspace<'v>,
    /// The platform specs that the workspace declares.
    pub specs: &'p [DeclaredSpec<'s>],
    /// What the arguments say about the plan.
    pub words: &'p PlanWords<'w, 'n, HeldSpecs<'s>>,
    /// The plan for `words`.
    pub plan: &'p Plan<'w>,
}

/// A visitor of a plan.
pub trait PlanVisitor {
    type Output;

    /// The visitor may return this output for the plan.
    ghost gives: { Self → PlannedText → Self.Output → Type 0 };

    /// The visitor may refuse the plan with this message.
    ghost refuses: { Self → PlannedText → Text → Type 0 };

    /// Returns the output for the plan of `planned`. Returns `Refused` if there is none, and `Memory` if an allocation fails.
    fn visit(
        &self,
        alloc: Global,
        planned: &Planned<'_, '_, '_, '_, '_>,
    ) -> Result<Self::Output, Fault>
        requires specs { map declared_text planned.now.specs.now ≡ declared_specs (planned_text planned.now).workspace.packages }
        requires plan { IsPlanOf (planned_text planned.now).workspace (planned_text planned.now).words (planned_text planned.now).plan }
        ensures output { IfOk result (λ output. gives self.now (planned_text planned.now) output) }
        ensures fault { IfErr result (λ fault. Says fault (refuses self.now (planned_text planned.now))) };
}
