//! The number of each package's first link. Links are ordered by the packages that they leave.
ghost use Rattle.std.specs.Prelude.{length, IfOk};
ghost use Rattle.guppy_packages.specs.inner.Begins.{AreAllBegun};
ghost use Rattle.guppy_packages.specs.Stored.{link_tables, package_tables};
ghost use Rattle.guppy_packages.specs.Tables.{AreTables};

use crate::contents::Link;
use crate::narrow::LAST_PLACE;
use crate::package_list::PackageList;
use guppy_support::begin_up_to;
use std::alloc::{AllocError, Global};

/// Returns the number of each package's first link, followed by the number of links. Returns `AllocError` if that number doesn't
/// fit in 32 bits.
pub(crate) fn link_begins(
    alloc: Global,
    packages: &PackageList,
    links: &[Link],
) -> Result<Vec<u32>, AllocError>
    requires { AreTables (record { packages = package_tables packages.now; links = link_tables links.now }) }
    ensures { IfOk result (λ begins. AreAllBegun (length (package_tables packages.now)) (link_tables links.now) begins.items) }
{
    let count = packages.len();
    let end = links.len();
    if end > LAST_PLACE {
        return Err(AllocError);
    }
    let mut begins = Vec::with_capacity(alloc, count.saturating_add(1))?;
    for place in 0..end {
        begin_up_to(&mut begins, links[place].0.0 as usize, place as u32)?;
    }
    begin_up_to(&mut begins, count, end as u32)?;
    Ok(begins)
}
