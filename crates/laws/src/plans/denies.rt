//! The laws of `check --every-choice`. Each function does nothing: its contract is the law.
ghost use Rattle.laws.specs.plans.EveryChoice.{DenyForPlatformStaysKept, DenyStaysKept, NoChoiceBreaksDeny, NoChoiceBreaksDenyForPlatform};

use crate::plans::laws::no_selection_turns_on;

/// States that a deny that is kept in a build is kept in each one in which no more is on; and one for a platform, if no more is built too.
pub fn a_deny_stays_kept()
    ensures everywhere { DenyStaysKept }
    ensures on_platform { DenyForPlatformStaysKept }
{}

/// States that no choice of members, features of members, tests and platforms breaks a deny that is kept in the plan of the widest words,
/// nor the same deny for a platform.
pub fn no_choice_breaks_a_deny()
    ensures everywhere { NoChoiceBreaksDeny }
    ensures on_platform { NoChoiceBreaksDenyForPlatform }
{
    no_selection_turns_on();
}
