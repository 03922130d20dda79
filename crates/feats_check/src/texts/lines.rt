//! The lines about broken rules.
ghost use Rattle.std.specs.Prelude.{◌≡◌, ◌++◌, ◌∷◌, [], OnOk, ◌&&◌, not, codes, if◌then◌else◌};
ghost use Rattle.feats_policies.specs.Views.{rule_text};
ghost use Rattle.feats_check.specs.texts.Lines as spec;

use crate::texts::words::{breach, push, push_kind, push_place, push_reason};
use feats_policies::Rule;
use feats_policies::checks::Judged;
use std::alloc::{AllocError, Global};

/// Appends `byte`, after four spaces if a line starts with it and it doesn't end that line.
fn push_byte(text: &mut Vec<u8>, starts: bool, byte: u8) -> Result<(), AllocError>
    ensures { OnOk result (text.new.items ≡ text.old.items ++ ((if starts && not (spec.is_line_feed byte) then codes "    " else []) ++ byte ∷ [])) }
{
    if starts && byte != b'\n' {
        push(text, "    ")?;
    }
    text.push(byte)?;
    Ok(())
}

/// Appends `lines`, each that isn't empty after four spaces.
fn push_indented(text: &mut Vec<u8>, lines: &[u8]) -> Result<(), AllocError>
    ensures { OnOk result (text.new.items ≡ text.old.items ++ spec.indented lines.now) }
{
    let mut starts = true;
    for byte in lines {
        push_byte(text, starts, *byte)?;
        starts = *byte == b'\n';
    }
    Ok(())
}

/// Appends the first line about the broken rule `rule` of `file`, which is judged in `judged`.
fn push_first(
    alloc: Global,
    text: &mut Vec<u8>,
    file: &str,
    judged: Judged,
    rule: Rule<'_>,
) -> Result<(), AllocError>
    ensures { OnOk result (text.new.items ≡ text.old.items ++ spec.first_line file.now judged (rule_text rule.entry)) }
{
    push_place(alloc, text, file, rule.line)?;
    push_kind(text, rule.kind)?;
    push(text, breach(judged, rule.kind))?;
    push_reason(text, rule.reason)?;
    push(text, "\n")
}

/// Appends the lines about the broken rule `rule` of `file`, which is judged in `judged`: the place of the rule, the rule, what breaks it and
/// the reason; and, each after four spaces, the lines `whys`, which explain what is on.
pub fn push_verdict(
    alloc: Global,
    text: &mut Vec<u8>,
    file: &str,
    judged: Judged,
    rule: Rule<'_>,
    whys: &[u8],
) -> Result<(), AllocError>
    ensures { OnOk result (text.new.items ≡ text.old.items ++ spec.verdict_lines file.now judged (rule_text rule.entry) whys.now) }
{
    push_first(alloc, text, file, judged, rule)?;
    push_indented(text, whys)
}
