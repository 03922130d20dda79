//! An answer as text.
ghost use Rattle.std.specs.Prelude.{◌≡◌, ◌++◌, ◌∷◌, [], OnOk, codes, option_map, if◌then◌else◌};
ghost use Rattle.plan_names.specs.wider.texts.Lines as spec;
ghost use Rattle.plan_names.specs.wider.texts.SaidView.{said_text};

use crate::wider::texts::names::heading;
use crate::wider::texts::said::Said;
use crate::wider::widenings::Widening;
use shown_texts::escaped;
use std::alloc::{AllocError, Global};

/// Appends `part`.
fn push(text: &mut Vec<u8>, part: &str) -> Result<(), AllocError>
    ensures { OnOk result (text.new.items ≡ text.old.items ++ part.now) }
{
    text.extend_from_slice(part.as_bytes())
}

/// Appends `byte`, after four spaces if a line starts with it.
fn push_byte(text: &mut Vec<u8>, starts: bool, byte: u8) -> Result<(), AllocError>
    ensures { OnOk result (text.new.items ≡ text.old.items ++ ((if starts then codes "    " else []) ++ byte ∷ [])) }
{
    if starts {
        push(text, "    ")?;
    }
    text.push(byte)?;
    Ok(())
}

/// Appends `lines`, each after four spaces, but for the first one if `at_start` is false.
fn push_indented(text: &mut Vec<u8>, at_start: bool, lines: &str) -> Result<(), AllocError>
    ensures { OnOk result (text.new.items ≡ text.old.items ++ spec.indented_from at_start lines.now) }
{
    let mut starts = at_start;
    for byte in lines.as_bytes() {
        push_byte(text, starts, *byte)?;
        starts = *byte == b'\n';
    }
    Ok(())
}

/// Appends `begins` and `message`, which end a line.
fn push_message(text: &mut Vec<u8>, begins: &str, message: &str) -> Result<(), AllocError>
    ensures { OnOk result (text.new.items ≡ text.old.items ++ spec.message_line begins.now message.now) }
{
    push(text, begins)?;
    push_indented(text, false, message)?;
    push(text, "\n")
}

/// Appends what follows the heading.
fn push_said(text: &mut Vec<u8>, said: Said<'_>) -> Result<(), AllocError>
    ensures { OnOk result (text.new.items ≡ text.old.items ++ spec.said_lines (said_text said.entry)) }
{
    match said {
        Said::On(lines) => {
            push(text, ": on\n")?;
            push_indented(text, true, lines)
        }
        Said::Unbuilt(message) => push_message(text, ": ", message),
        Said::Off => push(text, ": off\n"),
        Said::NotPlanned(message) => push_message(text, ": not planned: ", message),
    }
}

/// Appends the line that ends an answer, if the feature is off with all widenings together.
fn push_closing(text: &mut Vec<u8>, widening: Widening, said: Said<'_>) -> Result<(), AllocError>
    ensures { OnOk result (text.new.items ≡ text.old.items ++ spec.closing widening (said_text said.entry)) }
{
    match (widening, said) {
        (Widening::Together, Said::Off) => push(
            text,
            "no choice of members, features of members, tests and platforms turns it on\n",
        ),
        _ => Ok(()),
    }
}

/// Appends the line that begins an answer about the feature `name`: that it is off, or is
/// what `unbuilt` says if it is asked for and not built. Control characters in the name are escaped.
pub fn push_head(
    alloc: Global,
    text: &mut Vec<u8>,
    name: &str,
    unbuilt: Option<&str>,
) -> Result<(), AllocError>
    ensures { OnOk result (text.new.items ≡ text.old.items ++ spec.head_line name.now (option_map (λ t. t.now) unbuilt.entry)) }
{
    let name = escaped(alloc, name)?;
    push(text, name.as_str())?;
    match unbuilt {
        None => push(text, " is off\n"),
        Some(message) => push_message(text, " is ", message),
    }
}

/// Appends the lines about `widening`: whether the feature is on there, and why. If it is off with all widenings together, the last line
/// says that no choice turns it on.
pub fn push_widening(
    text: &mut Vec<u8>,
    widening: Widening,
    said: Said<'_>,
) -> Result<(), AllocError>
    ensures { OnOk result (text.new.items ≡ text.old.items ++ spec.widening_lines widening (said_text said.entry)) }
{
    push(text, heading(widening))?;
    push_said(text, said)?;
    push_closing(text, widening, said)
}
