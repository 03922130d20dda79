//! Reads policies.
ghost use Rattle.std.specs.Prelude.{◌≡◌, IfOk, IfErr, OnOk, map};
ghost use Rattle.std.specs.List.{enumerate_from};
ghost use Rattle.std.specs.Str.Lines.{lines};
ghost use Rattle.feats_policies.specs.Lines as line_parts;
ghost use Rattle.feats_policies.specs.Policies.{ArePolicy, IsPolicyFault};
ghost use Rattle.feats_policies.specs.Views.{rule_text, texts};
ghost use Rattle.feats_policies.specs.inner.Reads.{Adds, AreRules, IsFirstProblem, IsProblemOf};

use crate::fault::PolicyFault;
use crate::kinds::kind_of;
use crate::line_parts::{reason_of, words_of};
use crate::rule::Rule;
use std::alloc::{AllocError, Global};

/// Returns the lines of `text`.
fn lines_of(alloc: Global, text: &str) -> Result<Vec<&str>, AllocError>
    ensures { IfOk result (λ list. texts list.items ≡ lines text.now) }
{
    text.lines().collect(alloc)
}

/// Appends the rule that `words` spell. They are the words of `line`, which has the number `number`.
fn push_rule<'p>(
    rules: &mut Vec<Rule<'p>>,
    number: usize,
    line: &'p str,
    words: &[&'p str],
) -> Result<(), PolicyFault>
    ensures added { OnOk result (Adds (map rule_text rules.old.items) (map rule_text rules.new.items) number line.now (texts words.now)) }
    ensures fault { IfErr result (IsProblemOf number (texts words.now)) }
{
    let [verb, others @ ..] = words else {
        return Ok(());
    };
    match kind_of(verb, others) {
        Ok(kind) => {
            let reason = reason_of(line);
            rules.push(Rule {
                line: number,
                kind,
                reason,
            })?;
            Ok(())
        }
        Err(problem) => Err(PolicyFault::Malformed {
            line: number,
            problem,
        }),
    }
}

/// Appends the rule of `line`, which has the number `number`.
fn push_line<'p>(
    alloc: Global,
    rules: &mut Vec<Rule<'p>>,
    number: usize,
    line: &'p str,
) -> Result<(), PolicyFault>
    ensures added { OnOk result (Adds (map rule_text rules.old.items) (map rule_text rules.new.items) number line.now (line_parts.words_of line.now)) }
    ensures fault { IfErr result (IsProblemOf number (line_parts.words_of line.now)) }
{
    let words = words_of(alloc, line)?;
    push_rule(rules, number, line, &words)
}

/// Returns the rules of `lines`, of which the first has number 1.
fn rules_of<'p>(alloc: Global, lines: &[&'p str]) -> Result<Vec<Rule<'p>>, PolicyFault>
    ensures rules { IfOk result (λ rules. AreRules (enumerate_from 1 (texts lines.now)) (map rule_text rules.items)) }
    ensures fault { IfErr result (IsFirstProblem (enumerate_from 1 (texts lines.now))) }
{
    let mut rules = Vec::new(alloc);
    for (ix, line) in lines.iter().enumerate() {
        push_line(alloc, &mut rules, ix + 1, line)?;
    }
    Ok(rules)
}

/// Returns the rules of the policy `text`, in the order of their lines. A line is blank, or one of `deny FEATURE`, `deny FEATURE on TRIPLE`,
/// `require FEATURE` and `deny-duplicates SPEC`, and may end with a reason, which begins with a `#` that begins a word. Returns `Malformed`
/// with the first other line, and `Memory` if an allocation fails.
pub fn parse(alloc: Global, text: &str) -> Result<Vec<Rule<'_>>, PolicyFault>
    ensures rules { IfOk result (λ rules. ArePolicy text.now (map rule_text rules.items)) }
    ensures fault { IfErr result (IsPolicyFault text.now) }
{
    let lines = lines_of(alloc, text)?;
    rules_of(alloc, &lines)
}
