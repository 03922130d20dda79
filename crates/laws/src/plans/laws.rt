//! Laws of visits and of plans. Each function does nothing: its contract is the law.
ghost use Rattle.laws.specs.plans.Growth.{GrownTablesReachMore, MoreTurnsNothingOff, MoreWordsTurnNothingOff};
ghost use Rattle.laws.specs.plans.Laws.{MoreStartsReachMore, MoreStartsVisitMore, OnePlan, OnePlanOfWords, PlanExcludesRefusal, PlanOfWordsExcludesRefusal, PlansFollowDeclarations, ResolversAgree};
ghost use Rattle.laws.specs.plans.Widening.{LargerTurnsNothingOff, NoSelectionTurnsOn, WidestTurnsAllOn};

use feature_core::laws::least_monotone;
use plan_starts::step_visits::one_visit;

/// States that more starts reach more over the same tables, and so do visits of the same rows.
pub fn more_starts_reach_more()
    ensures reach { MoreStartsReachMore }
    ensures visit { MoreStartsVisitMore }
{
    least_monotone();
}

/// States that larger tables reach more, also where packages have other numbers: a visit of them, from these starts and more, reaches all
/// that a visit of the smaller ones does.
pub fn grown_tables_reach_more()
    ensures { GrownTablesReachMore }
{}

/// States that more command features and more selected packages, and so more feature words, turn nothing off: each package of a plan is
/// in the plan for more of them, in the same place and with all its features.
pub fn more_turns_nothing_off()
    ensures settings { MoreTurnsNothingOff }
    ensures words { MoreWordsTurnNothingOff }
{}

/// States that larger settings turn nothing off: with dependencies for development, more command features, and more platform specs that
/// hold, all that was on is on, on the same side.
pub fn larger_turns_nothing_off()
    ensures { LargerTurnsNothingOff }
{}

/// States that all members with all their features, with dependencies for development, and with each platform spec of the workspace, turn
/// on all that any other words do, if these have the same resolver and ask for no feature of a dependency on their own. So what is off in
/// that plan is off in each of theirs.
pub fn no_selection_turns_on()
    ensures widest { WidestTurnsAllOn }
    ensures off { NoSelectionTurnsOn }
{}

/// States that each package of a plan is one that declarations lead to from the selected packages.
pub fn plans_follow_declarations()
    ensures { PlansFollowDeclarations }
{}

/// States that all plans of a workspace for the same settings and selected packages, or for the same words, have the same units.
pub fn one_plan()
    ensures settings { OnePlan }
    ensures words { OnePlanOfWords }
{
    one_visit();
}

/// States that no refusal, but that an allocation fails, is one of settings and selected packages, or of words, that have a plan.
pub fn plan_excludes_refusal()
    ensures settings { PlanExcludesRefusal }
    ensures words { PlanOfWordsExcludesRefusal }
{
    one_visit();
}

/// States that resolvers 1 and 2 make the same tables for the targets, if nothing is for the host alone and no declaration depends on
/// the resolver.
pub fn resolvers_agree()
    ensures { ResolversAgree }
{}
