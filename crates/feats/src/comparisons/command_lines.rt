//! The command lines that `diff` compares.
ghost use Rattle.std.specs.Prelude.{◌≡◌, true, false, IfOk, IfErr, OnOk, map, option_map};
ghost use Rattle.std.specs.List.{slice_split};
ghost use Rattle.feats.specs.comparisons.CommandLines as spec;
ghost use Rattle.feats.specs.comparisons.CommandLines.{compared_text};
ghost use Rattle.feats_files.specs.Messages.{IsRefused, Says};
ghost use Rattle.feats_words.specs.Requests.{texts};

use feats_files::{Fault, refused};
use std::alloc::{AllocError, Global};

/// The words of two command lines of `plan`. The first word of each is the program's name.
#[derive(Drop)]
pub struct ComparedWords<'a> {
    pub before: Vec<&'a str>,
    pub after: Vec<&'a str>,
}

/// Returns the parts of `words` before, between and after the words `--`.
fn parts_of<'s, 'a>(alloc: Global, words: &'s [&'a str]) -> Result<Vec<&'s [&'a str]>, AllocError>
    ensures { IfOk result (λ parts. map (λ p. texts p.now) parts.items ≡ slice_split spec.is_mark (texts words.now)) }
{
    words.split(|word| *word == "--").collect(alloc)
}

/// Returns the command line of `plan` with the words `common` and `own`.
fn plan_line<'a>(
    alloc: Global,
    name: &'a str,
    common: &[&'a str],
    own: &[&'a str],
) -> Result<Vec<&'a str>, AllocError>
    ensures { IfOk result (λ line. texts line.items ≡ spec.plan_line name.entry.now (texts common.now) (texts own.now)) }
{
    let mut line = Vec::new(alloc);
    line.push(name)?;
    line.push("plan")?;
    line.extend_from_slice(common)?;
    line.extend_from_slice(own)?;
    Ok(line)
}

/// Returns the refusal of a third `--`.
fn third_mark(alloc: Global) -> Fault
    ensures { IsRefused spec.mark_message result }
{
    refused(
        alloc,
        &["`diff` has a third `--`: leave it out, as in `diff -- WORDS -- WORDS`"],
    )
}

/// Returns the command lines by `parts`, those of the words after `diff`, or `None` if there are less than three parts. The refusal of a
/// fourth part and `Memory` are the only errors.
fn lines_of<'a>(
    alloc: Global,
    name: &'a str,
    parts: &[&[&'a str]],
) -> Result<Option<ComparedWords<'a>>, Fault>
    ensures lines { IfOk result (λ lines. option_map compared_text lines ≡ spec.lines_of name.entry.now (map (λ p. texts p.now) parts.now)) }
    ensures few { OnOk result (spec.has_extra (map (λ p. texts p.now) parts.now) ≡ false) }
    ensures fault { IfErr result (λ fault. Says fault (λ message. (spec.has_extra (map (λ p. texts p.now) parts.now) ≡ true) × (message ≡ spec.mark_message))) }
{
    match parts {
        [_, _, _, _, ..] => Err(third_mark(alloc)),
        [common, before, after] => Ok(Some(ComparedWords {
            before: plan_line(alloc, name, common, before)?,
            after: plan_line(alloc, name, common, after)?,
        })),
        _ => Ok(None),
    }
}

/// Returns the command lines of `feats diff COMMON -- WORDS -- WORDS`: those of `plan` with the words before the first `--`, and with
/// those after the first or the second. Returns `None` if the second of `words` isn't `diff`, or if there is at most one `--` after it. The
/// refusal of a third `--` and `Memory` are the only errors.
pub fn compared_words<'a>(
    alloc: Global,
    words: &[&'a str],
) -> Result<Option<ComparedWords<'a>>, Fault>
    ensures lines { IfOk result (λ lines. option_map compared_text lines ≡ spec.compared (texts words.now)) }
    ensures few { OnOk result (spec.has_extra_mark (texts words.now) ≡ false) }
    ensures fault { IfErr result (λ fault. Says fault (spec.IsMarkRefusal (texts words.now))) }
{
    match words {
        [name, command, rest @ ..] if *command == "diff" => {
            let parts = parts_of(alloc, rest)?;
            lines_of(alloc, name, &parts)
        }
        _ => Ok(None),
    }
}
