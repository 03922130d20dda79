//! Laws of visits: a contract is the law, and the body is empty.
ghost use Rattle.std.specs.Prelude.{◌≡◌, ℕ, List};
ghost use Rattle.guppy_packages.specs.Rows.{RowText};
ghost use Rattle.feature_labels.specs.Names.{LabelName};
ghost use Rattle.plan_starts.specs.step_visits.Visits.{IsVisitOf, Visit, reaches};

/// States that all visits of the same rows from the same starts reach the same labels.
pub fn one_visit()
    ensures { (rows : List RowText) (starts : List (ℕ × LabelName)) (u v : Visit) → IsVisitOf rows starts u → IsVisitOf rows starts v
        → (k : ℕ) (label : LabelName) → reaches u k label ≡ reaches v k label }
{}
