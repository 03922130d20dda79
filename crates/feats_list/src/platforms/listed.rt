//! What a list shows of each spec.
ghost use Rattle.std.specs.Prelude.{◌≡◌, IfOk, map};
ghost use Rattle.plan_rows.specs.platforms.Views.{declared_text};
ghost use Rattle.feats_list.specs.platforms.Lists.{AreListed, listed_of};
ghost use Rattle.feats_list.specs.platforms.Views.{place_text};
ghost use Rattle.feats_list.specs.platforms.inner.Counts.{counted_text};
ghost use Rattle.feats_list.specs.platforms.inner.Listed.{listed_text};

use crate::platforms::counted::{Counted, counted_specs};
use crate::platforms::places::{NamedPlatform, failing, holding};
use plan_rows::Platform;
use plan_rows::platforms::DeclaredSpec;
use std::alloc::{AllocError, Global};

/// A spec, the number of declarations that name it, and the names of the places where it holds and where it doesn't.
#[derive(Drop)]
pub(crate) struct Listed<'n, 'w> {
    pub(crate) spec: &'w str,
    pub(crate) count: usize,
    pub(crate) holds: Vec<&'n str>,
    pub(crate) fails: Vec<&'n str>,
}

/// Returns what is shown of `counted`.
fn listed_one<'n, 'w, P: Platform>(
    alloc: Global,
    counted: Counted<'w>,
    places: &[NamedPlatform<'n, P>],
) -> Result<Listed<'n, 'w>, AllocError>
    ensures { IfOk result (λ listed. listed_text listed ≡ listed_of (map (place_text P.holds) places.now) (counted_text counted.entry)) }
{
    let holds = holding(alloc, places, counted.spec)?;
    let fails = failing(alloc, places, counted.spec)?;
    Ok(Listed {
        spec: counted.spec,
        count: counted.count,
        holds,
        fails,
    })
}

/// Returns what is shown of each of `counted`.
fn listed_each<'n, 'w, P: Platform>(
    alloc: Global,
    counted: &[Counted<'w>],
    places: &[NamedPlatform<'n, P>],
) -> Result<Vec<Listed<'n, 'w>>, AllocError>
    ensures { IfOk result (λ list. map listed_text list.items ≡ map (listed_of (map (place_text P.holds) places.now)) (map counted_text counted.now)) }
{
    let mut list = Vec::with_capacity(alloc, counted.len())?;
    for one in counted {
        list.push(listed_one(alloc, *one, places)?)?;
    }
    Ok(list)
}

/// Returns what is shown of `specs`.
pub(crate) fn listed_specs<'n, 'w, P: Platform>(
    alloc: Global,
    specs: &[DeclaredSpec<'w>],
    places: &[NamedPlatform<'n, P>],
) -> Result<Vec<Listed<'n, 'w>>, AllocError>
    ensures { IfOk result (λ list. AreListed (map declared_text specs.now) (map (place_text P.holds) places.now) (map listed_text list.items)) }
{
    let counted = counted_specs(alloc, specs)?;
    listed_each(alloc, &counted, places)
}
