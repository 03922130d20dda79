//! How control characters are written.
ghost use Rattle.std.specs.Prelude.{◌≡◌, ◌<◌, ◌++◌, OnOk};
ghost use Rattle.std.specs.Char.{digit_char};
ghost use Rattle.shown_texts.specs.Escapes as spec;
ghost use Rattle.shown_texts.specs.inner.Forms.{written_in};

use std::alloc::AllocError;

/// How the control characters of a text are written.
#[derive(Clone, Copy)]
pub(crate) enum Form {
    /// A part of a line: all are escaped.
    Line,
    /// A text of lines: all but line feeds are escaped.
    Text,
    /// JSON: all but line feeds are escaped, as in strings of JSON.
    Json,
}

/// Appends `part`.
fn push_str(text: &mut Vec<u8>, part: &str) -> Result<(), AllocError>
    ensures { OnOk result (text.new.items ≡ text.old.items ++ part.now) }
{
    text.extend_from_slice(part.as_bytes())
}

/// Returns the hexadecimal digit of `value`.
fn digit(value: u8) -> u8
    requires { value < 16 }
    ensures { result ≡ digit_char value }
{
    if value < 10 {
        b'0' + value
    } else {
        b'a' - 10 + value
    }
}

/// Appends the two hexadecimal digits of `code`.
fn push_digits(text: &mut Vec<u8>, code: u8) -> Result<(), AllocError>
    ensures { OnOk result (text.new.items ≡ text.old.items ++ spec.two_digits code) }
{
    text.push(digit(code / 16))?;
    text.push(digit(code % 16))?;
    Ok(())
}

/// Appends the hexadecimal digits of `code`, without a zero before them.
fn push_number(text: &mut Vec<u8>, code: u8) -> Result<(), AllocError>
    ensures { OnOk result (text.new.items ≡ text.old.items ++ spec.hexadecimal code) }
{
    if code < 16 {
        text.push(digit(code))?;
        return Ok(());
    }
    push_digits(text, code)
}

/// Appends the escape of the character `code`, as Rust writes it.
fn push_escape(text: &mut Vec<u8>, code: u8) -> Result<(), AllocError>
    ensures { OnOk result (text.new.items ≡ text.old.items ++ spec.escape code) }
{
    push_str(text, "\\u{")?;
    push_number(text, code)?;
    push_str(text, "}")
}

/// Appends the escape of the character `code`, as JSON writes it.
fn push_json_escape(text: &mut Vec<u8>, code: u8) -> Result<(), AllocError>
    ensures { OnOk result (text.new.items ≡ text.old.items ++ spec.json_escape code) }
{
    push_str(text, "\\u00")?;
    push_digits(text, code)
}

/// Appends the control character `code` in this form.
pub(crate) fn push_control(text: &mut Vec<u8>, form: Form, code: u8) -> Result<(), AllocError>
    ensures { OnOk result (text.new.items ≡ text.old.items ++ written_in form code) }
{
    match form {
        Form::Text | Form::Json if code == b'\n' => push_str(text, "\n"),
        Form::Line | Form::Text => push_escape(text, code),
        Form::Json => push_json_escape(text, code),
    }
}
