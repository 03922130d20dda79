//! The declarations by which packages that are built lead to packages that are built.
ghost use Rattle.std.specs.Prelude.{◌≡◌, ◌++◌, [], IfOk, OnOk, codes, flat_map, map, option_map};
ghost use Rattle.std.specs.Option.{option_map_or};
ghost use Rattle.cargo_plans.specs.built_parts.BuiltViews.{builds_in};
ghost use Rattle.cargo_workspaces.specs.Views.{declaration_text, package_text};
ghost use Rattle.feats_lines.specs.Kinds.{kind_word as word_of};
ghost use Rattle.feats_lines.specs.parts.Members.{Appends, text_member};
ghost use Rattle.feats_report.specs.Declarations as spec;

use crate::features::is_anywhere;
use cargo_plans::built_parts::BuiltParts;
use cargo_workspaces::{Declaration, Kind, Package};
use feats_lines::kind_word;
use feats_lines::parts::{
    begin_line, end_line, write_flag, write_member, write_optional, write_texts,
};
use json::Writer;
use std::alloc::{AllocError, Global};

/// Writes `kind`, the kind of a declaration.
fn write_kind(writer: &mut Writer, kind: Kind) -> Result<(), AllocError>
    ensures { OnOk result (Appends writer.old writer.new (text_member (codes "kind") (word_of kind))) }
{
    write_member(writer, "kind", kind_word(kind))
}

/// Writes when `declaration` counts: its kind, whether it is optional, and its platform spec.
fn write_conditions(writer: &mut Writer, declaration: &Declaration<'_>) -> Result<(), AllocError>
    ensures { OnOk result (Appends writer.old writer.new (spec.condition_members (declaration_text declaration.now))) }
{
    write_kind(writer, declaration.kind)?;
    write_flag(writer, "optional", declaration.optional)?;
    write_optional(writer, "platform", declaration.platform)
}

/// Writes what `declaration` asks for: the default features, or not, and the features that it names.
fn write_asked(writer: &mut Writer, declaration: &Declaration<'_>) -> Result<(), AllocError>
    ensures { OnOk result (Appends writer.old writer.new (spec.asked_members (declaration_text declaration.now))) }
{
    write_flag(writer, "default-features", declaration.default_features)?;
    write_texts(writer, "features", &declaration.features)
}

/// Writes the members of the line of `declaration`, by which `package` leads to `target`.
fn write_members(
    writer: &mut Writer,
    package: &Package<'_>,
    declaration: &Declaration<'_>,
    target: &Package<'_>,
) -> Result<(), AllocError>
    ensures { OnOk result (Appends writer.old writer.new (spec.members (package_text «package».now) (declaration_text declaration.now) (package_text target.now))) }
{
    write_member(writer, "package", package.id)?;
    write_member(writer, "dependency", declaration.name)?;
    write_conditions(writer, declaration)?;
    write_asked(writer, declaration)?;
    write_member(writer, "to", target.id)
}

/// Appends the line of `declaration`, by which `package` leads to `target`.
fn push_line(
    text: Vec<u8>,
    package: &Package<'_>,
    declaration: &Declaration<'_>,
    target: &Package<'_>,
) -> Result<Vec<u8>, AllocError>
    ensures { IfOk result (λ new. new.items ≡ text.items ++ spec.line_of (package_text «package».now) (declaration_text declaration.now) (package_text target.now)) }
{
    let mut writer = begin_line(text)?;
    write_members(&mut writer, package, declaration, target)?;
    end_line(writer)
}

/// Appends the line of `declaration`, by which `package` leads to `target`, if there is a target.
fn push_if(
    text: Vec<u8>,
    package: &Package<'_>,
    declaration: &Declaration<'_>,
    target: Option<&Package<'_>>,
) -> Result<Vec<u8>, AllocError>
    ensures { IfOk result (λ new. new.items ≡ text.items ++ option_map_or (spec.line_of (package_text «package».now) (declaration_text declaration.now)) (option_map (λ p. package_text p.now) target.entry) []) }
{
    match target {
        Some(target) => push_line(text, package, declaration, target),
        None => Ok(text),
    }
}

/// Returns package `number`, if there is one and it is built.
fn built_package<'u, 'v>(
    parts: &BuiltParts<'_>,
    packages: &'u [Package<'v>],
    number: usize,
) -> Option<&'u Package<'v>>
    ensures { option_map (λ p. package_text p.now) result ≡ spec.built_package (builds_in parts.now) (map package_text packages.now) number }
{
    if is_anywhere(parts, number) {
        packages.get(number)
    } else {
        None
    }
}

/// Returns the package to which `declaration` leads, if there is one and it is built.
fn target_of<'u, 'v>(
    parts: &BuiltParts<'_>,
    packages: &'u [Package<'v>],
    declaration: &Declaration<'_>,
) -> Option<&'u Package<'v>>
    ensures { option_map (λ p. package_text p.now) result ≡ spec.target_of (builds_in parts.now) (map package_text packages.now) (declaration_text declaration.now) }
{
    built_package(parts, packages, declaration.leads_to?)
}

/// Appends the line of `declaration`, which `package` declares, if it leads to a package that is built.
fn push_declaration(
    text: Vec<u8>,
    parts: &BuiltParts<'_>,
    packages: &[Package<'_>],
    package: &Package<'_>,
    declaration: &Declaration<'_>,
) -> Result<Vec<u8>, AllocError>
    ensures { IfOk result (λ new. new.items ≡ text.items ++ spec.declaration_line (builds_in parts.now) (map package_text packages.now) (package_text «package».now) (declaration_text declaration.now)) }
{
    push_if(
        text,
        package,
        declaration,
        target_of(parts, packages, declaration),
    )
}

/// Appends the lines of those of `declarations`, which `package` declares, that lead to packages that are built.
fn push_declarations(
    text: Vec<u8>,
    parts: &BuiltParts<'_>,
    packages: &[Package<'_>],
    package: &Package<'_>,
    declarations: &[Declaration<'_>],
) -> Result<Vec<u8>, AllocError>
    ensures { IfOk result (λ new. new.items ≡ text.items ++ flat_map (spec.declaration_line (builds_in parts.now) (map package_text packages.now) (package_text «package».now)) (map declaration_text declarations.now)) }
{
    let mut text = text;
    for declaration in declarations {
        text = push_declaration(text, parts, packages, package, declaration)?;
    }
    Ok(text)
}

/// Appends the lines of the declarations of `package`, which is package `ix` of `packages`, if it is built.
fn push_package(
    text: Vec<u8>,
    parts: &BuiltParts<'_>,
    packages: &[Package<'_>],
    ix: usize,
    package: &Package<'_>,
) -> Result<Vec<u8>, AllocError>
    ensures { IfOk result (λ new. new.items ≡ text.items ++ spec.package_lines (builds_in parts.now) (map package_text packages.now) ix (package_text «package».now)) }
{
    if is_anywhere(parts, ix) {
        push_declarations(text, parts, packages, package, &package.declarations)
    } else {
        Ok(text)
    }
}

/// Returns a line for each declaration of one of `packages` that is built, if it leads to one that is built, in the order of the
/// packages' numbers.
pub(crate) fn declarations_of(
    alloc: Global,
    parts: &BuiltParts<'_>,
    packages: &[Package<'_>],
) -> Result<Vec<u8>, AllocError>
    ensures { IfOk result (λ text. text.items ≡ spec.declarations_of (builds_in parts.now) (map package_text packages.now)) }
{
    let mut text = Vec::new(alloc);
    for (ix, package) in packages.iter().enumerate() {
        text = push_package(text, parts, packages, ix, package)?;
    }
    Ok(text)
}
