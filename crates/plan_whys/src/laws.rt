//! Laws of whys: a contract is the law, and the body is empty.
ghost use Rattle.cargo_workspaces.specs.Workspaces.{WorkspaceText};
ghost use Rattle.cargo_plans.specs.plan_rows.Steps.{SettingsText};
ghost use Rattle.cargo_plans.specs.plan_starts.PackageVisits.{PairVisit};
ghost use Rattle.plan_whys.specs.Steps.{AreBacked, EndsAt, SpotText, WhyText};
ghost use Rattle.plan_whys.specs.Whys.{Explains};
ghost use Rattle.std.specs.Prelude.{List};

/// States that the last step of a why is that of the spot, and that each reason names spots of earlier steps alone.
pub fn whys_lead_to_spots()
    ensures last { (w : WorkspaceText) (s : SettingsText) (on : PairVisit) (spot : SpotText) (whys : List WhyText) → Explains w s on spot whys → EndsAt whys spot }
    ensures backed { (w : WorkspaceText) (s : SettingsText) (on : PairVisit) (spot : SpotText) (whys : List WhyText) → Explains w s on spot whys → AreBacked whys }
{}
