//! The specs that declarations name, and on how many declarations each is.
ghost use Rattle.std.specs.Prelude.{◌≡◌, IfOk, map};
ghost use Rattle.std.specs.BTreeMap.{IsOrdered};
ghost use Rattle.plan_rows.specs.platforms.Views.{declared_text};
ghost use Rattle.feats_list.specs.platforms.Lists.{specs_of};
ghost use Rattle.feats_list.specs.platforms.inner.Counts.{AreCounted, HasCounts, counted_text, key_cmp, pair_text};

use crate::platforms::counts::count;
use plan_rows::platforms::DeclaredSpec;
use std::alloc::{AllocError, Global};
use std::collections::BTreeMap;

/// A spec, and the number of declarations that name it.
#[derive(Clone, Copy)]
pub(crate) struct Counted<'w> {
    pub(crate) spec: &'w str,
    pub(crate) count: usize,
}

/// Returns the texts of `counts` with their counts, in order.
fn in_order<'w>(
    alloc: Global,
    counts: &BTreeMap<&'w str, usize>,
) -> Result<Vec<Counted<'w>>, AllocError>
    ensures entries { IfOk result (λ list. map counted_text list.items ≡ map pair_text counts.now.entries) }
    ensures ordered { IsOrdered key_cmp counts.now }
{
    let mut list = Vec::with_capacity(alloc, counts.len())?;
    for (spec, count) in counts {
        list.push(Counted {
            spec: *spec,
            count: *count,
        })?;
    }
    Ok(list)
}

/// Returns the number of declarations that name each spec.
fn counts_of<'w>(
    alloc: Global,
    specs: &[DeclaredSpec<'w>],
) -> Result<BTreeMap<&'w str, usize>, AllocError>
    ensures { IfOk result (λ counts. HasCounts counts (specs_of (map declared_text specs.now))) }
{
    let mut counts = BTreeMap::new(alloc);
    for declared in specs {
        count(&mut counts, declared.text)?;
    }
    Ok(counts)
}

/// Returns each of `specs` once, in the order of the bytes of their texts, with the number of declarations that name it.
pub(crate) fn counted_specs<'w>(
    alloc: Global,
    specs: &[DeclaredSpec<'w>],
) -> Result<Vec<Counted<'w>>, AllocError>
    ensures { IfOk result (λ list. AreCounted (specs_of (map declared_text specs.now)) (map counted_text list.items)) }
{
    let counts = counts_of(alloc, specs)?;
    in_order(alloc, &counts)
}
