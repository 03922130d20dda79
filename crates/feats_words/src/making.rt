//! Commands in the making.
ghost use Rattle.std.specs.Prelude.{◌≡◌, ◌∷◌, [], false, IfOk};
ghost use Rattle.clap.specs.Words.{App, Rule, rule_of};
ghost use Rattle.feats_words.specs.inner.Building.{IsMade, with_rules};

use clap::{Arg, Command};
use std::alloc::AllocError;

/// A command in the making, or the error of an allocation. The functions below take it whole: a function that returns early past a
/// `Command` of its own takes ten seconds of proof for each.
pub(crate) type Made<'a> = Result<Command<'a>, AllocError>;

/// Adds `arg` to `command`.
#[tactic(auto, using(crate::proofs::Building::with_one))]
pub(crate) fn with_arg<'a>(command: Made<'a>, arg: Arg<'a>) -> Made<'a>
    requires { arg.global ≡ false }
    ensures { (app : App) (rule : Rule) → rule_of arg.entry ≡ rule → IfOk command.entry (λ c. IsMade c app) → IfOk result (λ r. IsMade r (with_rules app (rule ∷ []))) }
{
    match command {
        Ok(command) => command.arg(arg),
        Err(error) => Err(error),
    }
}
