//! Sets of spots.
ghost use Rattle.std.specs.Prelude.{◌≡◌, ◌||◌, IfOk, OnOk};
ghost use Rattle.plan_rows.specs.Steps as steps;
ghost use Rattle.plan_whys.specs.StepViews.{spot_text};
ghost use Rattle.plan_whys.specs.declared.steps.Spot as declared;
ghost use Rattle.feats_tree.specs.features.Roots.{is_same};
ghost use Rattle.feats_tree.specs.features.inner.Keys as spec;
ghost use Rattle.feats_tree.specs.features.inner.Keys.{HasSpots, has_key};

use feature_labels::FeatureLabel;
use plan_whys::links::Spot;
use std::alloc::{AllocError, Global};
use std::collections::BTreeSet;

/// What a set of spots has of a spot: the package's number, whether the side is the host, and the label.
pub(crate) type SpotKey<'w> = (usize, bool, FeatureLabel<'w>);

/// Returns the key of `spot`.
fn key_of<'w>(spot: Spot<'w>) -> SpotKey<'w>
    ensures { result ≡ spec.key_of spot.entry }
{
    (spot.package, spot.side.is_host(), spot.label)
}

/// Inserts the key of `spot` into `keys`.
fn insert<'w>(keys: &mut BTreeSet<SpotKey<'w>>, spot: Spot<'w>) -> Result<(), AllocError>
    ensures { OnOk result ((s : declared.Spot) → has_key keys.new s ≡ (has_key keys.old s || is_same (spot_text s) (spot_text spot.entry))) }
{
    let _is_new = keys.insert(key_of(spot))?;
    Ok(())
}

/// Returns the keys of `spots`.
pub(crate) fn keys_of<'w>(
    alloc: Global,
    spots: &[Spot<'w>],
) -> Result<BTreeSet<SpotKey<'w>>, AllocError>
    ensures { IfOk result (λ keys. HasSpots keys spots.now) }
{
    let mut keys = BTreeSet::new(alloc);
    for spot in spots {
        insert(&mut keys, *spot)?;
    }
    Ok(keys)
}

/// Returns whether `keys` has the key of `spot`.
pub(crate) fn has_spot<'w>(keys: &BTreeSet<SpotKey<'w>>, spot: Spot<'w>) -> bool
    ensures { result ≡ has_key keys.now spot.entry }
{
    keys.contains(&key_of(spot))
}
