//! The order of edits, by the numbers of packages and features that fall away.
ghost use Rattle.std.specs.Prelude.{◌≡◌, OnOk, map};
ghost use Rattle.feats_slim.specs.edits.Orders as spec;
ghost use Rattle.feats_slim.specs.edits.Orders.{IsInOrder};
ghost use Rattle.feats_slim.specs.edits.SlimViews.{slim_text};

use crate::edits::lost::Slim;
use std::alloc::AllocError;
use std::cmp::Ordering;

/// Compares `x` and `y`: `Less` if more packages fall away by `x`, or as many packages and more features.
fn compare(x: &Slim<'_>, y: &Slim<'_>) -> Ordering
    ensures { result ≡ spec.slim_cmp (slim_text x.now) (slim_text y.now) }
{
    let features = y.features.cmp(&x.features);
    y.packages.cmp(&x.packages).then(features)
}

/// Sorts `slims`: most packages first, then most features. Those with equal numbers keep their order.
pub(crate) fn sort_slims(slims: &mut Vec<Slim<'_>>) -> Result<(), AllocError>
    ensures { OnOk result (IsInOrder (map slim_text slims.old.items) (map slim_text slims.new.items)) }
{
    slims.sort_by(|x, y| compare(x, y))
}
