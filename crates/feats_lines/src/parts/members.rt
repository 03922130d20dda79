//! Members of JSON objects, and lines that are JSON objects.
ghost use Rattle.std.specs.Prelude.{◌≡◌, ◌++◌, ◌∷◌, [], IfOk, OnOk, map, option_map};
ghost use Rattle.json.specs.Token.{begin_object, end_object, string};
ghost use Rattle.json.specs.Print.{print};
ghost use Rattle.feats_lines.specs.parts.Members as spec;
ghost use Rattle.feats_lines.specs.parts.Members.{Appends};

use json::Writer;
use std::alloc::AllocError;

/// Writes the member `name`, whose value is the string `value`.
pub fn write_member(writer: &mut Writer, name: &str, value: &str) -> Result<(), AllocError>
    ensures { OnOk result (Appends writer.old writer.new (spec.text_member name.now value.now)) }
{
    writer.key(name)?;
    writer.string(value)
}

/// Writes the member `name`, whose value is the string `value`, or null if there is none.
pub fn write_optional(
    writer: &mut Writer,
    name: &str,
    value: Option<&str>,
) -> Result<(), AllocError>
    ensures { OnOk result (Appends writer.old writer.new (spec.optional_member name.now (option_map (λ t. t.now) value.entry))) }
{
    writer.key(name)?;
    match value {
        Some(text) => writer.string(text),
        None => writer.null(),
    }
}

/// Writes the member `name`, whose value is `value`.
pub fn write_flag(writer: &mut Writer, name: &str, value: bool) -> Result<(), AllocError>
    ensures { OnOk result (Appends writer.old writer.new (spec.flag_member name.now value)) }
{
    writer.key(name)?;
    writer.boolean(value)
}

/// Writes the member `name`, whose value is `value`.
pub fn write_number(writer: &mut Writer, name: &str, value: usize) -> Result<(), AllocError>
    ensures { OnOk result (Appends writer.old writer.new (spec.number_member name.now value)) }
{
    writer.key(name)?;
    writer.u64(value as u64)
}

/// Writes each of `values` as a string.
fn write_strings(writer: &mut Writer, values: &[&str]) -> Result<(), AllocError>
    ensures { OnOk result (Appends writer.old writer.new (map string (map (λ t. t.now) values.now))) }
{
    for value in values {
        writer.string(value)?;
    }
    Ok(())
}

/// Writes the member `name`, whose value is the array of the strings `values`.
pub fn write_texts(writer: &mut Writer, name: &str, values: &[&str]) -> Result<(), AllocError>
    ensures { OnOk result (Appends writer.old writer.new (spec.texts_member name.now (map (λ t. t.now) values.now))) }
{
    writer.key(name)?;
    writer.begin_array()?;
    write_strings(writer, values)?;
    writer.end_array()
}

/// Begins an object after `text`.
pub fn begin_line(text: Vec<u8>) -> Result<Writer, AllocError>
    ensures before { IfOk result (λ writer. writer.before ≡ text.items) }
    ensures tokens { IfOk result (λ writer. writer.tokens ≡ begin_object ∷ []) }
{
    let mut writer = Writer::new(text);
    writer.begin_object()?;
    Ok(writer)
}

/// Ends the object and the line, and returns the text.
pub fn end_line(writer: Writer) -> Result<Vec<u8>, AllocError>
    ensures { IfOk result (λ text. text.items ≡ writer.before ++ spec.object_line writer.tokens) }
{
    let mut writer = writer;
    writer.end_object()?;
    let mut text = writer.into_inner();
    text.push(b'\n')?;
    Ok(text)
}
