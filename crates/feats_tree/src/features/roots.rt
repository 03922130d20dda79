//! The roots of trees.
ghost use Rattle.std.specs.Prelude.{◌≡◌, ◌++◌, ◌∷◌, ◌||◌, ◌&&◌, ◌<◌, [], ℕ, IfOk, OnOk, if◌then◌else◌, length, map, not};
ghost use Rattle.digraphs.specs.Bits.{has};
ghost use Rattle.plan_whys.specs.links.Links.{indexes_of};
ghost use Rattle.plan_whys.specs.links.SpotLinks as links;
ghost use Rattle.plan_whys.specs.StepViews.{spot_text};
ghost use Rattle.feats_tree.specs.features.Roots as spec;
ghost use Rattle.feats_tree.specs.features.Roots.{numbers_in};
ghost use Rattle.feats_tree.specs.features.inner.Keys.{has_key};

use crate::features::commands::{is_command, is_command_at};
use crate::features::keys::{SpotKey, has_spot, keys_of};
use digraphs::IxBitSet;
use plan_whys::links::Spot;
use std::alloc::{AllocError, Global};
use std::collections::BTreeSet;

/// Inserts the end of `link` into `asked`, if the link starts at a command feature.
fn note(asked: &mut IxBitSet, spots: &[Spot<'_>], link: (usize, usize))
    ensures size { length asked.new ≡ length asked.old }
    ensures marks { (k : ℕ) → k < length asked.old → has asked.new k ≡ (has asked.old k || spec.is_asked_by (map spot_text spots.now) k link) }
{
    if is_command_at(spots, link.0) && link.1 < asked.size() {
        asked.insert(link.1);
    }
}

/// Returns the set of the ends of `links` that start at a command feature.
fn ends_of_commands(
    alloc: Global,
    spots: &[Spot<'_>],
    links: &[(usize, usize)],
) -> Result<IxBitSet, AllocError>
    ensures size { IfOk result (λ asked. length asked ≡ length spots.now) }
    ensures marks { IfOk result (λ asked. (k : ℕ) → k < length spots.now → has asked k ≡ spec.is_asked (map spot_text spots.now) links.now k) }
{
    let mut asked = IxBitSet::empty(alloc, spots.len())?;
    for link in links {
        note(&mut asked, spots, *link);
    }
    Ok(asked)
}

/// Appends `number`, if `flag`.
fn push_if(numbers: &mut Vec<usize>, number: usize, flag: bool) -> Result<(), AllocError>
    ensures { OnOk result (numbers.new.items ≡ numbers.old.items ++ (if flag then number ∷ [] else [])) }
{
    if flag {
        numbers.push(number)?;
    }
    Ok(())
}

/// Returns whether `spot`, which has this number, is in `asked`, and isn't a command feature.
fn is_root(asked: &IxBitSet, number: usize, spot: Spot<'_>) -> bool
    requires { number < length asked.now }
    ensures { result ≡ (has asked.now number && not (links.is_command (spot_text spot.entry).label)) }
{
    asked.contains(number) && !is_command(spot.label)
}

/// Returns the numbers of those of `spots` that are in `asked`, and aren't command features.
fn asked_of(alloc: Global, spots: &[Spot<'_>], asked: &IxBitSet) -> Result<Vec<usize>, AllocError>
    requires { length asked.now ≡ length spots.now }
    ensures { IfOk result (λ roots. roots.items ≡ numbers_in (has asked.now) (map spot_text spots.now)) }
{
    let mut roots = Vec::new(alloc);
    for (number, spot) in spots.iter().enumerate() {
        push_if(&mut roots, number, is_root(asked, number, *spot))?;
    }
    Ok(roots)
}

/// Returns the numbers of the spots that the command line turns on: each to which a link leads from a command feature.
pub(crate) fn asked_spots(
    alloc: Global,
    spots: &[Spot<'_>],
    links: &[(usize, usize)],
) -> Result<Vec<usize>, AllocError>
    ensures { IfOk result (λ roots. roots.items ≡ spec.asked_spots (map spot_text spots.now) links.now) }
{
    let asked = ends_of_commands(alloc, spots, links)?;
    let roots = asked_of(alloc, spots, &asked)?;
    Ok(roots)
}

/// Returns whether `keys` has the key of `spot`, and `spot` isn't a command feature.
fn is_wanted<'w>(keys: &BTreeSet<SpotKey<'w>>, spot: Spot<'w>) -> bool
    ensures { result ≡ (has_key keys.now spot.entry && not (links.is_command (spot_text spot.entry).label)) }
{
    has_spot(keys, spot) && !is_command(spot.label)
}

/// Returns the numbers of those of `spots` whose keys are in `keys`, and that aren't command features.
fn found_in<'w>(
    alloc: Global,
    keys: &BTreeSet<SpotKey<'w>>,
    spots: &[Spot<'w>],
) -> Result<Vec<usize>, AllocError>
    ensures { IfOk result (λ roots. roots.items ≡ indexes_of (λ s. has_key keys.now s && not (links.is_command (spot_text s).label)) spots.now) }
{
    let mut roots = Vec::new(alloc);
    for (number, spot) in spots.iter().enumerate() {
        push_if(&mut roots, number, is_wanted(keys, *spot))?;
    }
    Ok(roots)
}

/// Returns the numbers of those of `spots` that are `wanted`, and aren't command features.
pub(crate) fn wanted_spots<'w>(
    alloc: Global,
    wanted: &[Spot<'w>],
    spots: &[Spot<'w>],
) -> Result<Vec<usize>, AllocError>
    ensures { IfOk result (λ roots. roots.items ≡ spec.wanted_spots (map spot_text wanted.now) (map spot_text spots.now)) }
{
    let keys = keys_of(alloc, wanted)?;
    let roots = found_in(alloc, &keys, spots)?;
    Ok(roots)
}
