//! Warnings about policies.
ghost use Rattle.std.specs.Prelude.{◌≡◌, IfOk, string_bytes};
ghost use Rattle.feats_files.specs.Messages.{Says};
ghost use Rattle.feats_policies.specs.Views.{kind_text, rule_text};
ghost use Rattle.feats_check.specs.texts.Messages as spec;

use crate::texts::messages::{about, refused_by};
use feats_files::Fault;
use feats_policies::{Rule, RuleKind};
use shown_texts::escaped;
use std::alloc::{AllocError, Global};

/// Returns the word that a rule of this kind is about.
fn word_of<'p>(kind: RuleKind<'p>) -> &'p str
    ensures { result.now ≡ spec.word_of (kind_text kind.entry) }
{
    match kind {
        RuleKind::Deny { feature, on: _ } => feature,
        RuleKind::Require { feature } => feature,
        RuleKind::DenyDuplicates { spec } => spec,
    }
}

/// Returns the message about `rule` of the policy `file`, whose word names nothing.
pub fn unmatched_message(alloc: Global, file: &str, rule: Rule<'_>) -> Result<String, AllocError>
    ensures { IfOk result (λ text. string_bytes text ≡ spec.unmatched_message file.now (rule_text rule.entry)) }
{
    let wrong = "` names nothing in the document: check the spelling, or leave the rule out";
    about(alloc, file, rule.line, word_of(rule.kind), wrong)
}

/// Returns the refusal of the policy `file`, because the word of `rule` names nothing.
pub fn unmatched_refused(alloc: Global, file: &str, rule: Rule<'_>) -> Fault
    ensures { Says result (λ message. message ≡ spec.unmatched_message file.now (rule_text rule.entry)) }
{
    refused_by(unmatched_message(alloc, file, rule))
}

/// Returns the message about the policy `file`, which has rules that aren't judged for every choice.
pub fn build_message(alloc: Global, file: &str) -> Result<String, AllocError>
    ensures { IfOk result (λ text. string_bytes text ≡ spec.build_message file.now) }
{
    let mut text = escaped(alloc, file)?;
    text.push_str(": `require` and `deny-duplicates` are judged for this build alone")?;
    Ok(text)
}
