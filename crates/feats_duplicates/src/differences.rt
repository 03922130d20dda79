//! Lists of features that differ.
ghost use Rattle.std.specs.Prelude.{◌≡◌, map, not};
ghost use Rattle.std.specs.List.{list_any};
ghost use Rattle.cargo_workspaces.specs.Views.{texts};
ghost use Rattle.feats_duplicates.specs.Built as spec;
ghost use Rattle.feats_duplicates.specs.Views.{member_unit_text, placed_text};

use crate::member_units::MemberUnit;
use crate::placed::PlaceFeatures;

/// Returns whether both lists have the same texts in the same order.
fn same_texts(features: &[&str], others: &[&str]) -> bool
    ensures { result ≡ spec.same_texts (texts features.now) (texts others.now) }
{
    features == others
}

/// Returns whether one of `places` has other features than `features`.
fn any_other_place(features: &[&str], places: &[PlaceFeatures<'_, '_>]) -> bool
    ensures { result ≡ list_any (λ f. not (spec.same_texts (texts features.now) f)) (map (λ p. p.features) (map placed_text places.now)) }
{
    for place in places {
        if !same_texts(features, place.features) {
            return true;
        }
    }
    false
}

/// Returns whether one of `places` has other features than the first.
pub(crate) fn places_differ(places: &[PlaceFeatures<'_, '_>]) -> bool
    ensures { result ≡ spec.differ (map (λ p. p.features) (map placed_text places.now)) }
{
    match places {
        [] => false,
        [first, more @ ..] => any_other_place(first.features, more),
    }
}

/// Returns whether one of `rows` has other features than `features`.
fn any_other_row(features: &[&str], rows: &[MemberUnit<'_, '_>]) -> bool
    ensures { result ≡ list_any (λ f. not (spec.same_texts (texts features.now) f)) (map (λ r. r.unit.features) (map member_unit_text rows.now)) }
{
    for row in rows {
        if !same_texts(features, &row.unit.features) {
            return true;
        }
    }
    false
}

/// Returns whether one of `rows` has other features than the first.
pub(crate) fn rows_differ(rows: &[MemberUnit<'_, '_>]) -> bool
    ensures { result ≡ spec.differ (map (λ r. r.unit.features) (map member_unit_text rows.now)) }
{
    match rows {
        [] => false,
        [first, more @ ..] => any_other_row(&first.unit.features, more),
    }
}
