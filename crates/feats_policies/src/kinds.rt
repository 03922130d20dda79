//! The rules that words spell.
ghost use Rattle.feats_policies.specs.Rules as spec;
ghost use Rattle.feats_policies.specs.Views.{texts};
ghost use Rattle.feats_policies.specs.inner.Reads.{Reads};

use crate::problem::Problem;
use crate::rule::RuleKind;

/// Returns the rule `deny FEATURE on`, with `feature`, that goes on with `words`.
fn denied_on<'p>(feature: &'p str, words: &[&'p str]) -> Result<RuleKind<'p>, Problem>
    ensures { Reads result (spec.denied_on feature.now (texts words.now)) }
{
    match words {
        [] => Err(Problem::NoTriple),
        [triple] => Ok(RuleKind::Deny {
            feature,
            on: Some(*triple),
        }),
        _ => Err(Problem::ExtraWord),
    }
}

/// Returns the rule `deny` that goes on with `words`.
fn denied<'p>(words: &[&'p str]) -> Result<RuleKind<'p>, Problem>
    ensures { Reads result (spec.denied (texts words.now)) }
{
    match words {
        [] => Err(Problem::NoWord),
        [feature] => Ok(RuleKind::Deny {
            feature: *feature,
            on: None,
        }),
        [feature, word, others @ ..] => {
            if *word == "on" {
                denied_on(feature, others)
            } else {
                Err(Problem::ExtraWord)
            }
        }
    }
}

/// Returns the rule `require` that goes on with `words`.
fn required<'p>(words: &[&'p str]) -> Result<RuleKind<'p>, Problem>
    ensures { Reads result (spec.with_word spec.require (texts words.now)) }
{
    match words {
        [] => Err(Problem::NoWord),
        [feature] => Ok(RuleKind::Require { feature: *feature }),
        _ => Err(Problem::ExtraWord),
    }
}

/// Returns the rule `deny-duplicates` that goes on with `words`.
fn denied_duplicates<'p>(words: &[&'p str]) -> Result<RuleKind<'p>, Problem>
    ensures { Reads result (spec.with_word spec.deny_duplicates (texts words.now)) }
{
    match words {
        [] => Err(Problem::NoWord),
        [spec] => Ok(RuleKind::DenyDuplicates { spec: *spec }),
        _ => Err(Problem::ExtraWord),
    }
}

/// Returns the rule that begins with `verb` and goes on with `words`, or why there is none.
pub(crate) fn kind_of<'p>(verb: &str, words: &[&'p str]) -> Result<RuleKind<'p>, Problem>
    ensures { Reads result (spec.kind_of verb.now (texts words.now)) }
{
    if verb == "deny" {
        denied(words)
    } else if verb == "require" {
        required(words)
    } else if verb == "deny-duplicates" {
        denied_duplicates(words)
    } else {
        Err(Problem::NoRule)
    }
}
