//! The rows of the table of duplicates.
ghost use Rattle.std.specs.Prelude.{◌≡◌, List, IfOk, map, string_bytes};
ghost use Rattle.cargo_workspaces.specs.Workspaces.{Text};
ghost use Rattle.cargo_workspaces.specs.Views.{package_text, texts};
ghost use Rattle.feats_lines.specs.parts.Views.{row_text};
ghost use Rattle.feats_lines.specs.Lines.{label_of as label_text};
ghost use Rattle.feats_lines.specs.Repeats.{HasRepeated};
ghost use Rattle.feats_duplicate_lines.specs.Lines as spec;
ghost use Rattle.feats_duplicate_lines.specs.Shown as shown_spec;
ghost use Rattle.feats_duplicate_lines.specs.Views.{shown_text};

use crate::asked::asked_by;
use crate::manifest_lines::{joined_detail, push_features};
use crate::shown::Shown;
use cargo_workspaces::Package;
use feats_lines::label_of;
use feats_lines::parts::Row;
use std::alloc::{AllocError, Global};
use std::collections::BTreeSet;

/// Returns the word for the kind of `shown`.
pub(crate) fn kind_of(shown: &Shown<'_, '_, '_>) -> &'static str
    ensures { result.now ≡ shown_spec.kind_of (shown_text shown.now) }
{
    match shown {
        Shown::Version { .. } => "versions",
        Shown::InPlace { .. } => "places",
        Shown::Alone { .. } => "alone",
        Shown::Joined { .. } => "join",
        Shown::NotPlanned { .. } => "refused",
    }
}

/// Returns the package that `shown` is about.
pub(crate) fn package_of<'u, 'v>(shown: &Shown<'u, 'v, '_>) -> &'u Package<'v>
    ensures { package_text result.now ≡ shown_spec.package_of (shown_text shown.now) }
{
    match shown {
        Shown::Version { package, .. } => package,
        Shown::InPlace { package, .. } => package,
        Shown::Alone { package, .. } => package,
        Shown::Joined { package, .. } => package,
        Shown::NotPlanned { member, .. } => member,
    }
}

/// Returns the features `features` after `place`.
fn place_detail(alloc: Global, place: &str, features: &[&str]) -> Result<String, AllocError>
    ensures { IfOk result (λ text. string_bytes text ≡ spec.place_detail place.now (texts features.now)) }
{
    let mut text = String::from_str(alloc, place)?;
    push_features(&mut text, features)?;
    Ok(text)
}

/// Returns the features `features` after `place` and the member with the label `label`.
fn member_detail(
    alloc: Global,
    place: &str,
    label: &str,
    features: &[&str],
) -> Result<String, AllocError>
    ensures { IfOk result (λ text. string_bytes text ≡ spec.member_detail place.now label.now (texts features.now)) }
{
    let mut text = String::from_str(alloc, place)?;
    text.push_str(" with ")?;
    text.push_str(label)?;
    text.push_str(" alone")?;
    push_features(&mut text, features)?;
    Ok(text)
}

/// Returns what `shown` says of its package. `repeated` is the set of the names that several packages have.
fn detail_of(
    alloc: Global,
    repeated: &BTreeSet<&str>,
    shown: &Shown<'_, '_, '_>,
) -> Result<String, AllocError>
    ensures { (names : List Text) → HasRepeated repeated.now names → IfOk result (λ text. string_bytes text ≡ spec.detail_of names (shown_text shown.now)) }
{
    match shown {
        Shown::Version { dependents, .. } => asked_by(alloc, repeated, dependents),
        Shown::InPlace {
            place,
            features,
            ..
        } => place_detail(alloc, place, features),
        Shown::Alone {
            place,
            member,
            features,
            ..
        } => alone_detail(alloc, repeated, place, member, features),
        Shown::Joined {
            package,
            features,
            agrees,
            ..
        } => joined_detail(alloc, package, features, *agrees),
        Shown::NotPlanned { message, .. } => String::from_str(alloc, message),
    }
}

/// Returns the features `features` after `place` and the label of `member`. `repeated` is the set of the names that several packages
/// have.
fn alone_detail(
    alloc: Global,
    repeated: &BTreeSet<&str>,
    place: &str,
    member: &Package<'_>,
    features: &[&str],
) -> Result<String, AllocError>
    ensures { (names : List Text) → HasRepeated repeated.now names → IfOk result (λ text. string_bytes text ≡ spec.member_detail place.now (label_text names (package_text member.now)) (texts features.now)) }
{
    let label = label_of(alloc, repeated, member)?;
    member_detail(alloc, place, label.as_str(), features)
}

/// Returns the row of `shown`. `repeated` is the set of the names that several packages have.
pub(crate) fn row_of(
    alloc: Global,
    repeated: &BTreeSet<&str>,
    shown: &Shown<'_, '_, '_>,
) -> Result<Row, AllocError>
    ensures { (names : List Text) → HasRepeated repeated.now names → IfOk result (λ row. row_text row ≡ spec.row_of names (shown_text shown.now)) }
{
    let first = String::from_str(alloc, kind_of(shown))?;
    let second = label_of(alloc, repeated, package_of(shown))?;
    let third = detail_of(alloc, repeated, shown)?;
    Ok(Row {
        first,
        second,
        third,
    })
}
