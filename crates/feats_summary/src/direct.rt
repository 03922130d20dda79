//! The units on which members depend.
ghost use Rattle.std.specs.Prelude.{◌≡◌, ◌<◌, ◌||◌, ℕ, IfOk, length, map};
ghost use Rattle.digraphs.specs.Bits.{has};
ghost use Rattle.cargo_plans.specs.plan_units.UnitViews.{unit_text};
ghost use Rattle.feats_summary.specs.Summaries as spec;

use crate::packages::is_among;
use cargo_plans::Unit;
use digraphs::IxBitSet;
use std::alloc::{AllocError, Global};

/// Returns whether unit `number` is that of a member.
fn is_of_member(members: &[usize], units: &[Unit<'_>], number: usize) -> bool
    ensures { result ≡ spec.is_of_member members.now (map unit_text units.now) number }
{
    match units.get(number) {
        Some(unit) => is_among(members, unit.package),
        None => false,
    }
}

/// Inserts the end of `link` into `direct`, if the link starts at a member.
fn note(direct: &mut IxBitSet, members: &[usize], units: &[Unit<'_>], link: (usize, usize))
    ensures size { length direct.new ≡ length direct.old }
    ensures marks { (k : ℕ) → k < length direct.old → has direct.new k ≡ (has direct.old k || spec.is_from_member members.now (map unit_text units.now) k link) }
{
    if is_of_member(members, units, link.0) && link.1 < direct.size() {
        direct.insert(link.1);
    }
}

/// Returns the numbers of the units on which a member depends.
pub(crate) fn direct_units(
    alloc: Global,
    members: &[usize],
    units: &[Unit<'_>],
    links: &[(usize, usize)],
) -> Result<IxBitSet, AllocError>
    ensures size { IfOk result (λ direct. length direct ≡ length units.now) }
    ensures marks { IfOk result (λ direct. (k : ℕ) → k < length units.now → has direct k ≡ spec.is_direct members.now (map unit_text units.now) links.now k) }
{
    let mut direct = IxBitSet::empty(alloc, units.len())?;
    for link in links {
        note(&mut direct, members, units, *link);
    }
    Ok(direct)
}
