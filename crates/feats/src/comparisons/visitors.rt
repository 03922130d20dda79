//! The visitors of the two plans.
ghost use Rattle.std.specs.Prelude.{◌≡◌};
ghost use Rattle.feats_answers.specs.AnswerViews.{answer_text};
ghost use Rattle.feats.specs.comparisons.Builds.{build_of};
ghost use Rattle.feats.specs.comparisons.Comparisons.{IsAnswerFor, IsNewRefusal};
ghost use Rattle.feats.specs.comparisons.SideView.{side_text};
ghost use Rattle.feats.specs.comparisons.differences.Answers.{IsDiffAnswer};
ghost use Rattle.feats.specs.comparisons.differences.Forms.{form_of};
ghost use Rattle.feats_plans.specs.PlannedView.{planned_text};

use crate::comparisons::builds::difference;
use crate::comparisons::differences::Answer;
use crate::comparisons::sides::Side;
use feats_files::Fault;
use feats_plans::{PlanVisitor, Planned, visit_plan};
use std::alloc::Global;

/// The visitor of the new plan: it compares the build of `old` with the new one.
#[derive(Clone, Copy)]
struct NewVisitor<'o, 'p, 'n, 's, 'v, 'w> {
    old: &'o Planned<'p, 'n, 's, 'v, 'w>,
}

impl PlanVisitor for NewVisitor<'_, '_, '_, '_, '_, '_> {
    type Output = Answer;

    ghost gives = { λ v new answer. IsDiffAnswer (form_of (planned_text v.old.now).inputs.arguments.question (planned_text v.old.now).inputs.arguments.format) (build_of (planned_text v.old.now)) (build_of new) (answer_text answer) };

    ghost refuses = { λ _ _ _. ⊥ };

    fn visit(&self, alloc: Global, planned: &Planned<'_, '_, '_, '_, '_>) -> Result<Answer, Fault> {
        Ok(difference(alloc, self.old, planned)?)
    }
}

/// The visitor of the old plan: it makes the plan of `new`, and compares the builds.
#[derive(Clone, Copy)]
pub(crate) struct OldVisitor<'s, 'a, 'f> {
    pub(crate) new: Side<'s, 'a, 'f>,
}

impl PlanVisitor for OldVisitor<'_, '_, '_> {
    type Output = Answer;

    ghost gives = { λ v old answer. IsAnswerFor old (side_text v.new) (answer_text answer) };

    ghost refuses = { λ v old message. IsNewRefusal (side_text v.new) message };

    fn visit(&self, alloc: Global, planned: &Planned<'_, '_, '_, '_, '_>) -> Result<Answer, Fault> {
        let visitor = NewVisitor { old: planned };
        visit_plan(
            alloc,
            self.new.arguments,
            self.new.files,
            self.new.document,
            &visitor,
        )
    }
}
