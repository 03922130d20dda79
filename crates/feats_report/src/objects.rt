//! Objects of JSON whose members are texts of JSON.
ghost use Rattle.std.specs.Prelude.{◌≡◌, ◌++◌, IfOk, OnOk, false, flat_map, map};
ghost use Rattle.std.specs.List.{list_any};
ghost use Rattle.page_data.specs.Pages.{is_markup, page_safe};
ghost use Rattle.feats_report.specs.Objects as spec;
ghost use Rattle.feats_report.specs.inner.Members.{member_text};

use page_data::page_safe;
use std::alloc::{AllocError, Global};

/// A member of an object: its name, which has no character that JSON escapes, and the JSON text of its value.
#[derive(Clone, Copy)]
pub(crate) struct Member<'m> {
    pub(crate) name: &'m str,
    pub(crate) value: &'m [u8],
}

/// Appends `part`.
fn push_str(text: &mut Vec<u8>, part: &str) -> Result<(), AllocError>
    ensures { OnOk result (text.new.items ≡ text.old.items ++ part.now) }
{
    text.extend_from_slice(part.as_bytes())
}

/// Appends a comma, a line feed and `member`.
fn push_member(text: &mut Vec<u8>, member: Member<'_>) -> Result<(), AllocError>
    ensures { OnOk result (text.new.items ≡ text.old.items ++ spec.member_after (member_text member.entry)) }
{
    push_str(text, ",\n\"")?;
    push_str(text, member.name)?;
    push_str(text, "\":")?;
    text.extend_from_slice(member.value)
}

/// Appends each of `members`.
fn push_members(text: &mut Vec<u8>, members: &[Member<'_>]) -> Result<(), AllocError>
    ensures { OnOk result (text.new.items ≡ text.old.items ++ flat_map spec.member_after (map member_text members.now)) }
{
    for member in members {
        push_member(text, *member)?;
    }
    Ok(())
}

/// Returns the object of the version and `members`, and a line feed.
fn object_text(alloc: Global, members: &[Member<'_>]) -> Result<Vec<u8>, AllocError>
    ensures { IfOk result (λ text. text.items ≡ spec.object_text (map member_text members.now)) }
{
    let mut text = Vec::new(alloc);
    push_str(&mut text, "{\"version\":2")?;
    push_members(&mut text, members)?;
    push_str(&mut text, "}\n")?;
    Ok(text)
}

/// Returns the object of the version and `members`, and a line feed. No byte of it is `<`, `>` or `&`.
pub(crate) fn page_object(alloc: Global, members: &[Member<'_>]) -> Result<Vec<u8>, AllocError>
    ensures text { IfOk result (λ text. text.items ≡ page_safe (spec.object_text (map member_text members.now))) }
    ensures safe { IfOk result (λ text. list_any is_markup text.items ≡ false) }
{
    let text = object_text(alloc, members)?;
    page_safe(alloc, &text)
}
