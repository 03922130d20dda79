//! Places, and the specs that hold there.
ghost use Rattle.std.specs.Prelude.{◌≡◌, IfOk, map};
ghost use Rattle.cargo_workspaces.specs.Views.{texts};
ghost use Rattle.feats_list.specs.platforms.Lists as spec;
ghost use Rattle.feats_list.specs.platforms.Views.{place_text};

use plan_rows::Platform;
use std::alloc::{AllocError, Global};

/// The platform of a place, with the place's name.
#[derive(Clone, Copy)]
pub struct NamedPlatform<'n, P> {
    pub name: &'n str,
    pub platform: &'n P,
}

/// Returns the names of the places where the spec `text` holds.
pub(crate) fn holding<'n, P: Platform>(
    alloc: Global,
    places: &[NamedPlatform<'n, P>],
    text: &str,
) -> Result<Vec<&'n str>, AllocError>
    ensures { IfOk result (λ names. texts names.items ≡ spec.holding (map (place_text P.holds) places.now) text.now) }
{
    let mut names = Vec::new(alloc);
    for place in places {
        if place.platform.holds(text) {
            names.push(place.name)?;
        }
    }
    Ok(names)
}

/// Returns the names of the places where the spec `text` doesn't hold.
pub(crate) fn failing<'n, P: Platform>(
    alloc: Global,
    places: &[NamedPlatform<'n, P>],
    text: &str,
) -> Result<Vec<&'n str>, AllocError>
    ensures { IfOk result (λ names. texts names.items ≡ spec.failing (map (place_text P.holds) places.now) text.now) }
{
    let mut names = Vec::new(alloc);
    for place in places {
        if !place.platform.holds(text) {
            names.push(place.name)?;
        }
    }
    Ok(names)
}
