//! The places of a build, and the platform specs that hold there.
ghost use Rattle.std.specs.Prelude.{◌≡◌, ◌++◌, IfOk, OnOk, map};
ghost use Rattle.cargo_workspaces.specs.Views.{texts};
ghost use Rattle.plan_rows.specs.platforms.HeldSpecs.{holds_on};
ghost use Rattle.feats_list.specs.platforms.Views.{place_text};
ghost use Rattle.feats_files.specs.FileViews.{file_text};
ghost use Rattle.feats_answers.specs.SpecTexts as spec;

use crate::plan_texts::target_names;
use feats_files::PlatformFile;
use feats_list::platforms::NamedPlatform;
use plan_rows::platforms::HeldSpecs;
use std::alloc::{AllocError, Global};

/// Appends the target platforms, each with its name.
fn push_targets<'n, 's>(
    places: &mut Vec<NamedPlatform<'n, HeldSpecs<'s>>>,
    names: &[&'n str],
    targets: &'n [HeldSpecs<'s>],
) -> Result<(), AllocError>
    ensures { OnOk result (map (place_text holds_on) places.new.items ≡ map (place_text holds_on) places.old.items ++ spec.named_places (texts names.now) (map holds_on targets.entry.now)) }
{
    for (name, platform) in names.iter().zip(targets) {
        places.push(NamedPlatform { name, platform })?;
    }
    Ok(())
}

/// Returns the places of a build: the host, and then the target platforms of `files`, on which the specs of `targets` hold.
pub(crate) fn places_of<'n, 's>(
    alloc: Global,
    files: &[PlatformFile<'n>],
    host: &'n HeldSpecs<'s>,
    targets: &'n [HeldSpecs<'s>],
) -> Result<Vec<NamedPlatform<'n, HeldSpecs<'s>>>, AllocError>
    ensures { IfOk result (λ places. map (place_text holds_on) places.items ≡ spec.places (map file_text files.now) (holds_on host.entry.now) (map holds_on targets.entry.now)) }
{
    let mut places = Vec::new(alloc);
    places.push(NamedPlatform {
        name: "host",
        platform: host,
    })?;
    if !files.is_empty() {
        let names = target_names(alloc, files)?;
        push_targets(&mut places, &names, targets)?;
    }
    Ok(places)
}
