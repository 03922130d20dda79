//! Plans in which rules are judged.
ghost use Rattle.std.specs.Prelude.{◌≡◌, IfOk, IfErr};
ghost use Rattle.cargo_plans.specs.Plans.{IsPlanOf};
ghost use Rattle.cargo_plans.specs.WordsView.{words_text};
ghost use Rattle.cargo_plans.specs.plan_steps.PlanViews.{plan_text};
ghost use Rattle.cargo_workspaces.specs.WorkspaceView.{workspace_text};
ghost use Rattle.feats_files.specs.Messages.{Says};
ghost use Rattle.plan_rows.specs.platforms.HeldSpecs.{holds_on};
ghost use Rattle.feats_check.specs.checking.Answers.{IsUnplanned};
ghost use Rattle.feats_check.specs.checking.Scenes as spec;
ghost use Rattle.feats_check.specs.checking.inner.WidePlans.{AreWidePlans, IsNoWidePlan};

use cargo_plans::{Plan, PlanFault, PlanWords, StepFault, plan};
use cargo_workspaces::Workspace;
use feats_files::Fault;
use feats_files::plan_messages::plan_refused;
use feats_policies::checks::Judged;
use plan_names::wider::widenings::{Widening, widened};
use plan_rows::platforms::HeldSpecs;
use std::alloc::Global;

/// A plan, its words, and the build that it is of.
#[derive(Clone, Copy)]
pub(crate) struct Planned<'a, 'b, 'w, 'n, 's> {
    pub words: &'a PlanWords<'w, 'n, HeldSpecs<'s>>,
    pub plan: &'b Plan<'w>,
    pub judged: Judged,
}

/// The plans in which a `deny` is judged for every choice.
#[derive(Clone, Copy)]
pub(crate) struct Wide<'a, 'b, 'w, 'n, 's> {
    /// With all members, all their features, and tests, for the platforms of the command line.
    pub all: Planned<'a, 'b, 'w, 'n, 's>,
    /// That of the widest words.
    pub widest: Planned<'a, 'b, 'w, 'n, 's>,
}

/// The words of those plans.
#[derive(Drop)]
pub(crate) struct WideWords<'w, 'n, 's> {
    /// With all members, all their features, and tests, for the platforms of the command line.
    pub all: PlanWords<'w, 'n, HeldSpecs<'s>>,
    /// The widest words.
    pub widest: PlanWords<'w, 'n, HeldSpecs<'s>>,
}

/// The plans of such words.
#[derive(Drop)]
pub(crate) struct WidePlans<'w> {
    pub all: Plan<'w>,
    pub widest: Plan<'w>,
}

/// Returns `words` with all members, all their features, and tests. The platforms stay, so nothing depends on `every`.
fn all_words<'w, 'n, 's>(
    words: &PlanWords<'w, 'n, HeldSpecs<'s>>,
    every: &'n HeldSpecs<'s>,
) -> PlanWords<'w, 'n, HeldSpecs<'s>>
    ensures { words_text holds_on result ≡ spec.all_words (holds_on every.now) (words_text holds_on words.now) }
{
    let with_features = widened(words, Widening::AllFeatures, every);
    let with_members = widened(&with_features, Widening::AllMembers, every);
    widened(&with_members, Widening::Tests, every)
}

/// Returns the wider words for every choice. Each platform spec holds on the platform `every`.
pub(crate) fn wide_words<'w, 'n, 's>(
    words: &PlanWords<'w, 'n, HeldSpecs<'s>>,
    every: &'n HeldSpecs<'s>,
) -> WideWords<'w, 'n, 's>
    ensures all { words_text holds_on result.all ≡ spec.all_words (holds_on every.now) (words_text holds_on words.now) }
    ensures widest { words_text holds_on result.widest ≡ spec.widest_words (holds_on every.now) (words_text holds_on words.now) }
{
    WideWords {
        all: all_words(words, every),
        widest: widened(words, Widening::Together, every),
    }
}

/// Returns the plan of `words`; `Refused` if there is none, `Memory` if an allocation fails.
fn plan_of_words<'w>(
    alloc: Global,
    workspace: &'w Workspace<'_>,
    words: &PlanWords<'w, '_, HeldSpecs<'_>>,
) -> Result<Plan<'w>, Fault>
    ensures plan { IfOk result (λ plan. IsPlanOf (workspace_text workspace.now) (words_text holds_on words.now) (plan_text plan)) }
    ensures fault { IfErr result (λ fault. Says fault (IsUnplanned (workspace_text workspace.now) (words_text holds_on words.now))) }
{
    match plan(alloc, workspace, words) {
        Ok(plan) => Ok(plan),
        Err(PlanFault::Steps(StepFault::Memory)) => Err(Fault::Memory),
        Err(fault) => Err(plan_refused(alloc, workspace, fault)),
    }
}

/// Returns the plans of `words`; `Refused` if one of these has none, `Memory` if an allocation fails.
pub(crate) fn wide_plans<'w>(
    alloc: Global,
    workspace: &'w Workspace<'_>,
    words: &WideWords<'w, '_, '_>,
) -> Result<WidePlans<'w>, Fault>
    ensures plans { IfOk result (λ plans. AreWidePlans (workspace_text workspace.now) words.now plans) }
    ensures fault { IfErr result (λ fault. Says fault (IsNoWidePlan (workspace_text workspace.now) words.now)) }
{
    let all = plan_of_words(alloc, workspace, &words.all)?;
    let widest = plan_of_words(alloc, workspace, &words.widest)?;
    Ok(WidePlans { all, widest })
}
