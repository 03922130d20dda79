//! What is shown of the differences of two builds.
ghost use Rattle.std.specs.Prelude.{◌≡◌, ◌++◌, ◌∷◌, [], IfOk, OnOk, drop, if◌then◌else◌, length, map, string_bytes};
ghost use Rattle.cargo_workspaces.specs.Views.{texts};
ghost use Rattle.feats_diff.specs.texts.Shown.{gone as text_of_gone};
ghost use Rattle.feats_diff.specs.texts.Views.{difference_text, turned_text};
ghost use Rattle.feats.specs.comparisons.differences.Shown as spec;
ghost use Rattle.feats_diff.specs.changes.Views.{change_text, part_text};
ghost use Rattle.feats_lines.specs.Views.{shown_text};

use feats_diff::changes::{Change, Part};
use feats_diff::texts::{Difference, Turned};
use feats_lines::Shown;
use std::alloc::{AllocError, Global};

/// Returns `part` as it is shown.
fn shown_of<'u, 'v, 'w>(part: &Part<'u, 'v, 'w>) -> Shown<'u, 'v, 'w>
    ensures { shown_text result ≡ spec.shown_of (part_text part.now) }
{
    Shown {
        place: part.place,
        package: part.package,
        features: part.features,
    }
}

/// Returns a copy of the text with this number; an empty one, if there is none.
fn copy_at(alloc: Global, texts: &[String], number: usize) -> Result<String, AllocError>
    ensures { IfOk result (λ text. string_bytes text ≡ spec.text_at (map string_bytes texts.now) number) }
{
    match texts.get(number) {
        Some(text) => String::from_str(alloc, text.as_str()),
        None => Ok(String::new(alloc)),
    }
}

/// Returns the texts after those of `names`.
fn rest_after<'t>(texts: &'t [String], names: &[&str]) -> &'t [String]
    ensures { result.now ≡ drop (length names.now) texts.now }
{
    if names.len() < texts.len() {
        &texts[names.len()..]
    } else {
        &[]
    }
}

/// Appends the parts that come, with their texts.
pub(crate) fn push_comes<'u, 'v, 'w>(
    alloc: Global,
    shown: &mut Vec<Difference<'u, 'v, 'w>>,
    comes: &[Part<'u, 'v, 'w>],
    whys: &[String],
) -> Result<(), AllocError>
    ensures { OnOk result (map difference_text shown.new.items ≡ map difference_text shown.old.items ++ spec.comes_from (map string_bytes whys.now) 0 (map part_text comes.now)) }
{
    for (number, part) in comes.iter().enumerate() {
        let why = copy_at(alloc, whys, number)?;
        shown.push(Difference::Comes {
            new: shown_of(part),
            why,
        })?;
    }
    Ok(())
}

/// Appends the parts that go.
pub(crate) fn push_gone<'u, 'v, 'w>(
    shown: &mut Vec<Difference<'u, 'v, 'w>>,
    gone: &[Part<'u, 'v, 'w>],
) -> Result<(), AllocError>
    ensures { OnOk result (map difference_text shown.new.items ≡ map difference_text shown.old.items ++ map (λ p. text_of_gone (spec.shown_of p)) (map part_text gone.now)) }
{
    for part in gone {
        shown.push(Difference::Goes {
            old: shown_of(part),
        })?;
    }
    Ok(())
}

/// Returns the features `names`, which come, with their texts.
fn turned_of<'w>(
    alloc: Global,
    names: &[&'w str],
    whys: &[String],
) -> Result<Vec<Turned<'w>>, AllocError>
    ensures { IfOk result (λ turned. map turned_text turned.items ≡ spec.turned_from (map string_bytes whys.now) 0 (texts names.now)) }
{
    let mut turned = Vec::with_capacity(alloc, names.len())?;
    for (number, name) in names.iter().enumerate() {
        let why = copy_at(alloc, whys, number)?;
        turned.push(Turned { name: *name, why })?;
    }
    Ok(turned)
}

/// Returns `change` as it is shown; `whys` begin with the texts of the features that come in it.
fn shown_change<'u, 'v, 'w>(
    alloc: Global,
    change: &Change<'u, 'v, 'w>,
    whys: &[String],
) -> Result<Difference<'u, 'v, 'w>, AllocError>
    ensures { IfOk result (λ shown. difference_text shown ≡ spec.change_shown (map string_bytes whys.now) (change_text change.now)) }
{
    let comes = turned_of(alloc, &change.comes, whys)?;
    let goes = Vec::from_slice(alloc, &change.goes)?;
    Ok(Difference::Changes {
        old: shown_of(&change.old),
        new: shown_of(&change.new),
        comes,
        goes,
    })
}

/// Appends `change`, if `all` or if a feature comes or goes in it; `whys` begin with the texts of the features that come.
fn push_change<'u, 'v, 'w>(
    alloc: Global,
    shown: &mut Vec<Difference<'u, 'v, 'w>>,
    all: bool,
    change: &Change<'u, 'v, 'w>,
    whys: &[String],
) -> Result<(), AllocError>
    ensures { OnOk result (map difference_text shown.new.items ≡ map difference_text shown.old.items ++ (if spec.is_shown all (change_text change.now) then spec.change_shown (map string_bytes whys.now) (change_text change.now) ∷ [] else [])) }
{
    if all || !change.keeps_features() {
        let one = shown_change(alloc, change, whys)?;
        shown.push(one)?;
    }
    Ok(())
}

/// Appends `changes`, or those in which a feature comes or goes if `all` is false. `whys` are the texts of the features that come in
/// all of them.
pub(crate) fn push_changes<'u, 'v, 'w>(
    alloc: Global,
    shown: &mut Vec<Difference<'u, 'v, 'w>>,
    all: bool,
    changes: &[Change<'u, 'v, 'w>],
    whys: &[String],
) -> Result<(), AllocError>
    ensures { OnOk result (map difference_text shown.new.items ≡ map difference_text shown.old.items ++ spec.changes_shown all (map string_bytes whys.now) (map change_text changes.now)) }
{
    let mut left = whys;
    for change in changes {
        push_change(alloc, shown, all, change, left)?;
        left = rest_after(left, change.comes.as_slice());
    }
    Ok(())
}
