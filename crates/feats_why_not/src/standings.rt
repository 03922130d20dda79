//! How parts stand in plans.
ghost use Rattle.std.specs.Prelude.{◌≡◌};
ghost use Rattle.cargo_plans.specs.built_parts.BuiltViews.{state_in};
ghost use Rattle.feats_why_not.specs.PartView.{part_text};
ghost use Rattle.feats_why_not.specs.StandingView.{standing_text};
ghost use Rattle.feats_why_not.specs.Standings as spec;

use crate::parts::OffPart;
use cargo_plans::built_parts::{BuiltParts, PartState};
use plan_rows::Side;

/// How a part stands in a plan.
#[derive(Clone, Copy)]
pub(crate) enum Standing {
    /// It is on and its package is built, on this side. It's the target side, if that is so on both.
    BuiltOn(Side),
    /// It is on, on this side, but its package isn't built where it is on. It's the target side, if it is on on both.
    UnbuiltOn(Side),
    Off,
}

/// Returns how a part stands whose states on the two sides are these.
fn standing_by(target: PartState, host: PartState) -> Standing
    ensures { standing_text result ≡ spec.standing_by target host }
{
    match (target, host) {
        (PartState::Built, _) => Standing::BuiltOn(Side::Target),
        (_, PartState::Built) => Standing::BuiltOn(Side::Host),
        (PartState::Off, PartState::Off) => Standing::Off,
        (PartState::Unbuilt, _) => Standing::UnbuiltOn(Side::Target),
        (_, PartState::Unbuilt) => Standing::UnbuiltOn(Side::Host),
    }
}

/// Returns how `part` stands in the plan whose built parts are `built`.
pub(crate) fn standing_of(built: &BuiltParts<'_>, part: OffPart<'_>) -> Standing
    ensures { standing_text result ≡ spec.standing_in (state_in built.now) (part_text part.entry) }
{
    let target = built.state(Side::Target, part.package, part.label);
    let host = built.state(Side::Host, part.package, part.label);
    standing_by(target, host)
}
