//! The words of rules.
ghost use Rattle.std.specs.Prelude.{◌≡◌, ◌++◌, IfOk, OnOk, option_map, string_bytes};
ghost use Rattle.std.specs.Fmt.{decimal};
ghost use Rattle.feats_policies.specs.Rules.{deny};
ghost use Rattle.feats_policies.specs.Views.{kind_text};
ghost use Rattle.feats_check.specs.texts.Lines as spec;

use feats_policies::RuleKind;
use feats_policies::checks::Judged;
use shown_texts::escaped;
use std::alloc::{AllocError, Global};

/// Appends `part`.
pub(crate) fn push(text: &mut Vec<u8>, part: &str) -> Result<(), AllocError>
    ensures { OnOk result (text.new.items ≡ text.old.items ++ part.now) }
{
    text.extend_from_slice(part.as_bytes())
}

/// Returns the decimal digits of `number`.
pub(crate) fn digits_of(alloc: Global, number: usize) -> Result<String, AllocError>
    ensures { IfOk result (λ digits. string_bytes digits ≡ decimal number) }
{
    format!(in alloc; "{number}")
}

/// Appends the place of line `line` in `file`. Control characters in the name of the file are escaped.
pub(crate) fn push_place(
    alloc: Global,
    text: &mut Vec<u8>,
    file: &str,
    line: usize,
) -> Result<(), AllocError>
    ensures { OnOk result (text.new.items ≡ text.old.items ++ spec.place file.now line) }
{
    let digits = digits_of(alloc, line)?;
    let shown = escaped(alloc, file)?;
    push(text, shown.as_str())?;
    push(text, ":")?;
    push(text, digits.as_str())?;
    push(text, ": ")
}

/// Appends the end of a rule for the platform `on`.
fn push_platform(text: &mut Vec<u8>, on: Option<&str>) -> Result<(), AllocError>
    ensures { OnOk result (text.new.items ≡ text.old.items ++ spec.platform_end (option_map (λ t. t.now) on.entry)) }
{
    match on {
        Some(triple) => {
            push(text, " on ")?;
            push(text, triple)
        }
        None => Ok(()),
    }
}

/// Appends `verb` and `word`.
fn push_words(text: &mut Vec<u8>, verb: &str, word: &str) -> Result<(), AllocError>
    ensures { OnOk result (text.new.items ≡ text.old.items ++ (verb.now ++ word.now)) }
{
    push(text, verb)?;
    push(text, word)
}

/// Appends a `deny` in its own words.
fn push_deny(text: &mut Vec<u8>, feature: &str, on: Option<&str>) -> Result<(), AllocError>
    ensures { OnOk result (text.new.items ≡ text.old.items ++ spec.kind_words (deny feature.now (option_map (λ t. t.now) on.entry))) }
{
    push(text, "deny ")?;
    push(text, feature)?;
    push_platform(text, on)
}

/// Appends a rule of this kind in its own words.
pub(crate) fn push_kind(text: &mut Vec<u8>, kind: RuleKind<'_>) -> Result<(), AllocError>
    ensures { OnOk result (text.new.items ≡ text.old.items ++ spec.kind_words (kind_text kind.entry)) }
{
    match kind {
        RuleKind::Deny { feature, on } => push_deny(text, feature, on),
        RuleKind::Require { feature } => push_words(text, "require ", feature),
        RuleKind::DenyDuplicates { spec } => push_words(text, "deny-duplicates ", spec),
    }
}

/// Returns what breaks a `deny` that is judged in `judged`.
fn denied_breach(judged: Judged) -> &'static str
    ensures { result.now ≡ spec.denied_breach judged }
{
    match judged {
        Judged::InBuild => ": it is on",
        Judged::WithAll => ": it is on with all members, features and tests",
        Judged::ForEveryChoice => ": some choice may break it",
    }
}

/// Returns what breaks a rule of this kind that is judged in `judged`.
pub(crate) fn breach(judged: Judged, kind: RuleKind<'_>) -> &'static str
    ensures { result.now ≡ spec.breach judged (kind_text kind.entry) }
{
    match kind {
        RuleKind::Deny { feature: _, on: _ } => denied_breach(judged),
        RuleKind::Require { feature: _ } => ": it is off",
        RuleKind::DenyDuplicates { spec: _ } => ": several are built",
    }
}

/// Appends `reason` in brackets, if there is one.
pub(crate) fn push_reason(text: &mut Vec<u8>, reason: Option<&str>) -> Result<(), AllocError>
    ensures { OnOk result (text.new.items ≡ text.old.items ++ spec.reason_end (option_map (λ t. t.now) reason.entry)) }
{
    match reason {
        Some(reason) => {
            push(text, " (")?;
            push(text, reason)?;
            push(text, ")")
        }
        None => Ok(()),
    }
}
