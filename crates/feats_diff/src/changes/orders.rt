//! The order of parts.
ghost use Rattle.std.specs.Prelude.{◌≡◌, Some};
ghost use Rattle.std.specs.Ordering.{is_eq};
ghost use Rattle.feats_diff.specs.changes.Orders as spec;
ghost use Rattle.feats_diff.specs.changes.Views.{part_text};
ghost use Rattle.feats_diff.specs.changes.inner.Joined.{cmp_by};

use crate::changes::parts::{Part, source_of};
use std::cmp::Ordering;

/// What two parts are compared by.
#[derive(Clone, Copy)]
pub(crate) enum By {
    /// By place and name.
    Name,
    /// By place, name, version and source.
    Version,
}

/// Compares by place, and then by name.
fn compare_names(x: &Part<'_, '_, '_>, y: &Part<'_, '_, '_>) -> Ordering
    ensures { result ≡ spec.name_cmp (part_text x.now) (part_text y.now) }
{
    let places = x.place.cmp(y.place);
    places.then(x.package.name.cmp(y.package.name))
}

/// Compares by the ranks and texts of the versions.
fn compare_versions(x: &Part<'_, '_, '_>, y: &Part<'_, '_, '_>) -> Ordering
    ensures { result ≡ spec.version_cmp (part_text x.now) (part_text y.now) }
{
    let texts = x.package.version.cmp(y.package.version);
    let releases = x.rank.is_release.cmp(&y.rank.is_release).then(texts);
    let patches = x.rank.patch.cmp(&y.rank.patch).then(releases);
    let minors = x.rank.minor.cmp(&y.rank.minor).then(patches);
    x.rank.major.cmp(&y.rank.major).then(minors)
}

/// Compares by place, name, version and source.
fn compare(x: &Part<'_, '_, '_>, y: &Part<'_, '_, '_>) -> Ordering
    ensures { result ≡ spec.part_cmp (part_text x.now) (part_text y.now) }
{
    let sources = source_of(x).cmp(source_of(y));
    compare_names(x, y).then(compare_versions(x, y).then(sources))
}

/// Compares by `by`.
pub(crate) fn compare_by(by: By, x: &Part<'_, '_, '_>, y: &Part<'_, '_, '_>) -> Ordering
    ensures { result ≡ cmp_by by (part_text x.now) (part_text y.now) }
{
    match by {
        By::Name => compare_names(x, y),
        By::Version => compare(x, y),
    }
}

impl PartialEq for Part<'_, '_, '_> {
    ghost use Rattle.std.specs.Cmp.{eq_by_cmp_equiv, on_total, partial_equiv_from_equiv};

    ghost eq = { λ x y. is_eq (spec.part_cmp (part_text x) (part_text y)) };

    ghost laws = { partial_equiv_from_equiv (eq_by_cmp_equiv (on_total part_text spec.part_total)) };

    fn eq(&self, other: &Self) -> bool {
        compare(self, other).is_eq()
    }
}

impl Eq for Part<'_, '_, '_> {
    ghost use Rattle.std.specs.Cmp.{eq_by_cmp_equiv, on_total};

    ghost laws = { eq_by_cmp_equiv (on_total part_text spec.part_total) };
}

impl PartialOrd for Part<'_, '_, '_> {
    ghost use Rattle.std.specs.Cmp.{on_total, partial_order_from_total};

    ghost partial_cmp = { λ x y. Some (spec.part_cmp (part_text x) (part_text y)) };

    ghost laws = { partial_order_from_total (on_total part_text spec.part_total) };

    fn partial_cmp(&self, other: &Self) -> Option<Ordering> {
        Some(compare(self, other))
    }
}

impl Ord for Part<'_, '_, '_> {
    ghost use Rattle.std.specs.Prelude.{refl};
    ghost use Rattle.std.specs.Cmp.{on_total};

    ghost cmp = { λ x y. spec.part_cmp (part_text x) (part_text y) };

    ghost total = { on_total part_text spec.part_total };

    ghost matches_partial_cmp = { λ x y. refl };

    ghost matches_eq = { λ x y. refl };

    fn cmp(&self, other: &Self) -> Ordering {
        compare(self, other)
    }
}
