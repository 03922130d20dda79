//! The laws of what `why-not` states. Each function does nothing: its contract is the law.
ghost use Rattle.laws.specs.plans.NoChoice.{NoChoiceTurnsOn};
ghost use Rattle.laws.specs.plans.Sentence.{SentenceIsTrue};

use crate::plans::laws::no_selection_turns_on;
use plan_names::wider::texts::sentence_says_off;

/// States that no choice of members, features of members, tests and platforms turns on what is off with all widenings of a command line
/// together.
pub fn no_choice_turns_on()
    ensures { NoChoiceTurnsOn }
{
    no_selection_turns_on();
}

/// States that the sentence is true: if a text of `why-not` ends with it, no choice of members, features of members, tests and platforms
/// turns the part on.
pub fn the_sentence_is_true()
    ensures { SentenceIsTrue }
{
    no_choice_turns_on();
    sentence_says_off();
}
