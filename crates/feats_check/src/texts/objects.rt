//! Broken rules as JSON objects.
ghost use Rattle.std.specs.Prelude.{◌≡◌, ◌++◌, IfOk, OnOk, option_map};
ghost use Rattle.feats_lines.specs.parts.Members.{Appends};
ghost use Rattle.feats_policies.specs.Views.{kind_text, rule_text};
ghost use Rattle.feats_check.specs.texts.Objects as spec;

use feats_lines::parts::{begin_line, end_line, write_member, write_number, write_optional};
use feats_policies::checks::Judged;
use feats_policies::{Rule, RuleKind};
use json::Writer;
use std::alloc::AllocError;

/// Writes the members of a rule that begins with `verb`, about `word` and for the platform `on`.
fn write_words(
    writer: &mut Writer,
    verb: &str,
    word: &str,
    on: Option<&str>,
) -> Result<(), AllocError>
    ensures { OnOk result (Appends writer.old writer.new (spec.kind_members verb.now word.now (option_map (λ t. t.now) on.entry))) }
{
    write_member(writer, "rule", verb)?;
    write_member(writer, "word", word)?;
    write_optional(writer, "platform", on)
}

/// Writes the members of a rule of this kind.
fn write_kind(writer: &mut Writer, kind: RuleKind<'_>) -> Result<(), AllocError>
    ensures { OnOk result (Appends writer.old writer.new (spec.members_of (kind_text kind.entry))) }
{
    match kind {
        RuleKind::Deny { feature, on } => write_words(writer, "deny", feature, on),
        RuleKind::Require { feature } => write_words(writer, "require", feature, None),
        RuleKind::DenyDuplicates { spec } => write_words(writer, "deny-duplicates", spec, None),
    }
}

/// Returns where a rule is judged, in a word.
fn judged_word(judged: Judged) -> &'static str
    ensures { result.now ≡ spec.judged_word judged }
{
    match judged {
        Judged::InBuild => "build",
        Judged::WithAll => "all",
        Judged::ForEveryChoice => "every-choice",
    }
}

/// Writes the members of `rule`: its line, its first word, the word that it is about, its platform or null, its reason or null, and where it
/// is judged.
pub fn write_rule(writer: &mut Writer, judged: Judged, rule: Rule<'_>) -> Result<(), AllocError>
    ensures { OnOk result (Appends writer.old writer.new (spec.rule_members judged (rule_text rule.entry))) }
{
    write_number(writer, "line", rule.line)?;
    write_kind(writer, rule.kind)?;
    write_optional(writer, "reason", rule.reason)?;
    write_member(writer, "judged", judged_word(judged))
}

/// Appends the object of `rule`, which is judged in `judged`, and a line feed.
pub fn push_object(text: Vec<u8>, judged: Judged, rule: Rule<'_>) -> Result<Vec<u8>, AllocError>
    ensures { IfOk result (λ new. new.items ≡ text.items ++ spec.rule_line judged (rule_text rule.entry)) }
{
    let mut writer = begin_line(text)?;
    write_rule(&mut writer, judged, rule)?;
    end_line(writer)
}
