//! The order of the packages in a summary.
ghost use Rattle.std.specs.Prelude.{◌≡◌, OnOk, map};
ghost use Rattle.build_summaries.specs.Orders as spec;
ghost use Rattle.build_summaries.specs.Orders.{IsInOrder};
ghost use Rattle.build_summaries.specs.Views.{package_text};

use crate::packages::{Status, SummaryPackage};
use std::alloc::AllocError;
use std::cmp::Ordering;

/// Returns the place of `status` in the order of statuses.
fn status_rank(status: Status) -> u8
    ensures { result ≡ spec.status_rank status }
{
    match status {
        Status::Initial => 0,
        Status::Workspace => 1,
        Status::Direct => 2,
        Status::Transitive => 3,
    }
}

/// Compares `x` and `y` by status and then by name.
fn compare(x: &SummaryPackage<'_>, y: &SummaryPackage<'_>) -> Ordering
    ensures { result ≡ spec.package_cmp (package_text x.now) (package_text y.now) }
{
    let names = x.name.cmp(y.name);
    status_rank(x.status)
        .cmp(&status_rank(y.status))
        .then(names)
}

/// Sorts `packages` by status and then by name. Those of one name keep their order.
pub(crate) fn sort_packages(packages: &mut Vec<SummaryPackage<'_>>) -> Result<(), AllocError>
    ensures { OnOk result (IsInOrder (map package_text packages.old.items) (map package_text packages.new.items)) }
{
    packages.sort_by(|x, y| compare(x, y))
}
