//! Parts of two plans, paired by an order.
ghost use Rattle.std.specs.Prelude.{◌≡◌, ◌++◌, ◌<◌, ◌≤◌, ◌&&◌, IfOk, IsFalse, OnOk, drop, length, map, nat_lt};
ghost use Rattle.feats_diff.specs.changes.Orders.{Ascends, name_cmp, part_cmp};
ghost use Rattle.feats_diff.specs.changes.Pairings.{AreAscending, ArePaired, IsPartition};
ghost use Rattle.feats_diff.specs.changes.Differences.{AreInOrder};
ghost use Rattle.feats_diff.specs.changes.Views.{pair_text, part_text};
ghost use Rattle.feats_diff.specs.changes.inner.Joined.{cmp_by, followed_by, joined};
ghost use Rattle.feats_diff.specs.declared.changes.orders.By.{By as AnyBy};
ghost use Rattle.feats_diff.specs.changes.inner.Merges.{IsStep, finished, pairing_text};

use crate::changes::orders::{By, compare_by};
use crate::changes::parts::Part;
use std::alloc::{AllocError, Global};
use std::cmp::Ordering;

/// An old part and the new part that it is paired with.
#[derive(Clone, Copy)]
pub struct Pair<'u, 'v, 'w> {
    pub old: Part<'u, 'v, 'w>,
    pub new: Part<'u, 'v, 'w>,
}

/// Parts that go, pairs, and parts that come.
#[derive(Drop)]
pub(crate) struct Pairing<'u, 'v, 'w> {
    pub(crate) gone: Vec<Part<'u, 'v, 'w>>,
    pub(crate) pairs: Vec<Pair<'u, 'v, 'w>>,
    pub(crate) comes: Vec<Part<'u, 'v, 'w>>,
}

/// How many parts of each list are taken.
#[derive(Clone, Copy)]
struct Taken {
    old: usize,
    new: usize,
}

/// Takes the less of the next two parts, or both if they are equal, into `found`. Returns how many parts are taken.
fn take_next<'u, 'v, 'w>(
    by: By,
    old: &[Part<'u, 'v, 'w>],
    new: &[Part<'u, 'v, 'w>],
    taken: Taken,
    found: &mut Pairing<'u, 'v, 'w>,
) -> Result<Taken, AllocError>
    requires { (taken.old < length old.now) × (taken.new < length new.now) }
    ensures step { IfOk result (IsStep (length old.now) (length new.now) taken) }
    ensures found { IfOk result (λ next. finished by old.now new.now next found.new ≡ finished by old.now new.now taken found.old) }
{
    let x = old[taken.old];
    let y = new[taken.new];
    match compare_by(by, &x, &y) {
        Ordering::Less => {
            found.gone.push(x)?;
            Ok(Taken {
                old: taken.old + 1,
                new: taken.new,
            })
        }
        Ordering::Equal => {
            found.pairs.push(Pair { old: x, new: y })?;
            Ok(Taken {
                old: taken.old + 1,
                new: taken.new + 1,
            })
        }
        Ordering::Greater => {
            found.comes.push(y)?;
            Ok(Taken {
                old: taken.old,
                new: taken.new + 1,
            })
        }
    }
}

/// Appends `parts` from number `from` on.
fn push_rest<'u, 'v, 'w>(
    list: &mut Vec<Part<'u, 'v, 'w>>,
    parts: &[Part<'u, 'v, 'w>],
    from: usize,
) -> Result<(), AllocError>
    requires { from ≤ length parts.now }
    ensures { OnOk result (list.new.items ≡ list.old.items ++ drop from parts.now) }
{
    list.extend_from_slice(&parts[from..])
}

/// Returns `found` with the parts that are left of one list, where the other has none left.
fn finish<'u, 'v, 'w>(
    old: &[Part<'u, 'v, 'w>],
    new: &[Part<'u, 'v, 'w>],
    taken: Taken,
    found: Pairing<'u, 'v, 'w>,
) -> Result<Pairing<'u, 'v, 'w>, AllocError>
    requires within { (taken.old ≤ length old.now) × (taken.new ≤ length new.now) }
    requires end { IsFalse (nat_lt taken.old (length old.now) && nat_lt taken.new (length new.now)) }
    ensures { (by : AnyBy) → IfOk result (λ all. pairing_text all ≡ finished by old.now new.now taken found.entry) }
{
    let mut found = found;
    push_rest(&mut found.gone, old, taken.old)?;
    push_rest(&mut found.comes, new, taken.new)?;
    Ok(found)
}

/// Returns the parts of `old` and `new`, paired by `by`.
fn joined<'u, 'v, 'w>(
    alloc: Global,
    by: By,
    old: &[Part<'u, 'v, 'w>],
    new: &[Part<'u, 'v, 'w>],
) -> Result<Pairing<'u, 'v, 'w>, AllocError>
    ensures { IfOk result (λ found. pairing_text found ≡ joined (cmp_by by) (map part_text old.now) (map part_text new.now)) }
{
    let mut found = Pairing {
        gone: Vec::new(alloc),
        pairs: Vec::new(alloc),
        comes: Vec::new(alloc),
    };
    let mut taken = Taken { old: 0, new: 0 };
    while taken.old < old.len() && taken.new < new.len() {
        taken = take_next(by, old, new, taken, &mut found)?;
    }
    finish(old, new, taken, found)
}

/// Returns `parts` in the order of place, name, version and source.
pub(crate) fn in_order<'u, 'v, 'w>(
    alloc: Global,
    parts: &[Part<'u, 'v, 'w>],
) -> Result<Vec<Part<'u, 'v, 'w>>, AllocError>
    ensures { IfOk result (λ sorted. AreInOrder (map part_text parts.now) (map part_text sorted.items)) }
{
    let mut sorted = Vec::from_slice(alloc, parts)?;
    sorted.sort()?;
    Ok(sorted)
}

/// Returns the parts of `old` and `new`, paired by place, name, version and source.
pub(crate) fn paired_by_version<'u, 'v, 'w>(
    alloc: Global,
    old: &[Part<'u, 'v, 'w>],
    new: &[Part<'u, 'v, 'w>],
) -> Result<Pairing<'u, 'v, 'w>, AllocError>
    requires { Ascends part_cmp (map part_text old.now) × Ascends part_cmp (map part_text new.now) }
    ensures paired { IfOk result (λ found. ArePaired part_cmp (map part_text old.now) (map part_text new.now) (pairing_text found)) }
    ensures partition { IfOk result (λ found. IsPartition (map part_text old.now) (map part_text new.now) (pairing_text found)) }
    ensures ascends { IfOk result (λ found. AreAscending (pairing_text found)) }
{
    joined(alloc, By::Version, old, new)
}

/// Returns the parts of `old` and `new`, paired by place and name.
pub(crate) fn paired_by_name<'u, 'v, 'w>(
    alloc: Global,
    old: &[Part<'u, 'v, 'w>],
    new: &[Part<'u, 'v, 'w>],
) -> Result<Pairing<'u, 'v, 'w>, AllocError>
    requires { Ascends part_cmp (map part_text old.now) × Ascends part_cmp (map part_text new.now) }
    ensures paired { IfOk result (λ found. ArePaired name_cmp (map part_text old.now) (map part_text new.now) (pairing_text found)) }
    ensures partition { IfOk result (λ found. IsPartition (map part_text old.now) (map part_text new.now) (pairing_text found)) }
    ensures ascends { IfOk result (λ found. AreAscending (pairing_text found)) }
{
    joined(alloc, By::Name, old, new)
}
