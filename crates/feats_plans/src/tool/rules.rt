//! The rules of the policy that a question names.
ghost use Rattle.std.specs.Prelude.{◌≡◌, IfOk, IfErr, IsUtf8, map};
ghost use Rattle.feats_files.specs.Messages.{Says};
ghost use Rattle.feats_plans.specs.tool.Rules as spec;
ghost use Rattle.feats_words.specs.Views.{question_text};
ghost use Rattle.feats_policies.specs.Policies.{ArePolicy};
ghost use Rattle.feats_policies.specs.Views.{rule_text};

use feats_check::texts::policy_refused;
use feats_files::{Fault, refused};
use feats_policies::{PolicyFault, Rule, parse};
use feats_words::Question;
use std::alloc::Global;
use std::str;

/// Returns the rules of the policy `file` with these bytes. It is refused if they aren't UTF-8, and else for its first malformed line.
fn rules_in<'p>(alloc: Global, file: &str, bytes: &'p [u8]) -> Result<Vec<Rule<'p>>, Fault>
    ensures rules { IfOk result (λ rules. IsUtf8 bytes.entry.now × ArePolicy bytes.entry.now (map rule_text rules.items)) }
    ensures fault { IfErr result (λ fault. Says fault (spec.IsFileRefusal file.now bytes.entry.now)) }
{
    let Ok(text) = str::from_utf8(bytes) else {
        return Err(refused(alloc, &["the policy ", file, " isn't UTF-8"]));
    };
    match parse(alloc, text) {
        Ok(rules) => Ok(rules),
        Err(PolicyFault::Memory) => Err(Fault::Memory),
        Err(fault) => Err(policy_refused(alloc, file, fault)),
    }
}

/// Returns the rules of the policy that `question` names, which has these bytes; none, if it names no policy. A policy is refused if
/// it isn't UTF-8, and else for its first malformed line.
pub(crate) fn rules_of<'p>(
    alloc: Global,
    question: Question<'_>,
    bytes: &'p [u8],
) -> Result<Vec<Rule<'p>>, Fault>
    ensures rules { IfOk result (λ rules. spec.AreRules (question_text question.entry) bytes.entry.now (map rule_text rules.items)) }
    ensures fault { IfErr result (λ fault. Says fault (spec.IsRulesRefusal (question_text question.entry) bytes.entry.now)) }
{
    match question {
        Question::Check { policy, .. } => rules_in(alloc, policy, bytes),
        _ => Ok(Vec::new(alloc)),
    }
}
