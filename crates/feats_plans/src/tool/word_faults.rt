//! The arguments of a request, or the fault of its words.
ghost use Rattle.std.specs.Prelude.{◌≡◌, Ok, IfOk, IfErr};
ghost use Rattle.feats_words.specs.Arguments as words;
ghost use Rattle.feats_words.specs.Views.{arguments_text, request_text};
ghost use Rattle.feats_files.specs.Messages.{Says};
ghost use Rattle.feats_plans.specs.tool.WordFaults.{IsWordsRefusal};

use feats_files::{Fault, words_refused};
use feats_words::{CommandArguments, Request, WordsFault, arguments};
use std::alloc::Global;

/// Returns the arguments of `request`. It is refused for its first word that can't be read.
pub fn command_arguments<'a>(
    alloc: Global,
    request: Request<'a>,
) -> Result<CommandArguments<'a>, Fault>
    ensures arguments { IfOk result (λ a. words.arguments (request_text request.entry) ≡ Ok (arguments_text a)) }
    ensures fault { IfErr result (λ fault. Says fault (IsWordsRefusal (request_text request.entry))) }
{
    match arguments(alloc, request) {
        Ok(arguments) => Ok(arguments),
        Err(WordsFault::Memory) => Err(Fault::Memory),
        Err(fault) => Err(words_refused(alloc, fault)),
    }
}
