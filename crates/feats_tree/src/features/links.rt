//! The links that are shown.
ghost use Rattle.std.specs.Prelude.{◌≡◌, IfOk, map};
ghost use Rattle.plan_whys.specs.StepViews.{spot_text};
ghost use Rattle.feats_tree.specs.features.Links as spec;

use crate::features::commands::is_command_at;
use plan_whys::links::Spot;
use std::alloc::{AllocError, Global};

/// Returns whether `link` is shown.
fn is_shown(spots: &[Spot<'_>], link: (usize, usize)) -> bool
    ensures { result ≡ spec.is_shown (map spot_text spots.now) link }
{
    !is_command_at(spots, link.0) && !is_command_at(spots, link.1)
}

/// Returns those of `links` that are shown: neither of their spots is a command feature.
pub(crate) fn shown_links(
    alloc: Global,
    spots: &[Spot<'_>],
    links: &[(usize, usize)],
) -> Result<Vec<(usize, usize)>, AllocError>
    ensures { IfOk result (λ shown. shown.items ≡ spec.shown_links (map spot_text spots.now) links.now) }
{
    let mut shown = Vec::new(alloc);
    for link in links {
        if is_shown(spots, *link) {
            shown.push(*link)?;
        }
    }
    Ok(shown)
}
