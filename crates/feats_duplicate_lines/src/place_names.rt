//! The names of places.
ghost use Rattle.std.specs.Prelude.{◌≡◌};
ghost use Rattle.cargo_workspaces.specs.Views.{texts};
ghost use Rattle.feats_duplicate_lines.specs.Shown as spec;

use feats_duplicates::Place;

/// Returns the name of `place`: `host`, or the name of the target platform.
pub(crate) fn place_name<'n>(names: &[&'n str], place: Place) -> &'n str
    ensures { result.now ≡ spec.place_name (texts names.now) place }
{
    match place {
        Place::Host => "host",
        Place::Target(number) => match names.get(number) {
            Some(name) => *name,
            None => "",
        },
    }
}
