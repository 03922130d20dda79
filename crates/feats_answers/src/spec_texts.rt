//! The text about the platform specs of a workspace.
ghost use Rattle.std.specs.Prelude.{IfOk, map};
ghost use Rattle.plan_rows.specs.platforms.HeldSpecs.{holds_on};
ghost use Rattle.plan_rows.specs.platforms.Views.{declared_text};
ghost use Rattle.feats_list.specs.platforms.Views.{place_text};
ghost use Rattle.feats_files.specs.FileViews.{file_text};
ghost use Rattle.feats_answers.specs.SpecTexts as spec;

use crate::places::places_of;
use feats_files::PlatformFile;
use feats_list::platforms::{NamedPlatform, spec_lines, spec_objects};
use feats_words::Format;
use plan_rows::platforms::{DeclaredSpec, HeldSpecs};
use std::alloc::{AllocError, Global};

/// Returns the text about `specs` in these places.
fn text_in(
    alloc: Global,
    format: Format,
    specs: &[DeclaredSpec<'_>],
    places: &[NamedPlatform<'_, HeldSpecs<'_>>],
) -> Result<Vec<u8>, AllocError>
    ensures { IfOk result (λ text. spec.IsSpecText format (map declared_text specs.now) (map (place_text holds_on) places.now) text.items) }
{
    match format {
        Format::Text => Ok(spec_lines(alloc, specs, places)?.into_bytes()),
        Format::Json => spec_objects(alloc, specs, places),
    }
}

/// Returns the text about `specs`, on the host and on the target platforms of `files`.
pub(crate) fn spec_text<'n, 's>(
    alloc: Global,
    format: Format,
    specs: &[DeclaredSpec<'_>],
    files: &[PlatformFile<'n>],
    host: &'n HeldSpecs<'s>,
    targets: &'n [HeldSpecs<'s>],
) -> Result<Vec<u8>, AllocError>
    ensures { IfOk result (λ text. spec.IsSpecText format (map declared_text specs.now) (spec.places (map file_text files.now) (holds_on host.now) (map holds_on targets.now)) text.items) }
{
    let places = places_of(alloc, files, host, targets)?;
    text_in(alloc, format, specs, &places)
}
