//! The places at which steps `resolved` and `on` start.
ghost use Rattle.std.specs.Prelude.{◌≡◌, ◌+◌, ◌<◌, ◌^◌, ◌++◌, ◌∷◌, ◌||◌, [], OnOk, if◌then◌else◌, length, map};
ghost use Rattle.cargo_workspaces.specs.Views.{package_text};
ghost use Rattle.plan_rows.specs.Commands.{command_texts};
ghost use Rattle.plan_starts.specs.Targets.{has_macro};
ghost use Rattle.plan_starts.specs.step_visits.Visits.{place_view};
ghost use Rattle.cargo_plans.specs.plan_units.Commands as spec;
ghost use Rattle.cargo_plans.specs.plan_units.Commands.{command_label};

use cargo_workspaces::{Feature, Package};
use plan_starts::{FeatureLabel, has_macro_at};
use std::alloc::AllocError;

/// Appends the command feature of entry `ix`, if `flag`.
fn push_command<'s>(
    places: &mut Vec<(usize, FeatureLabel<'s>)>,
    ix: usize,
    flag: bool,
) -> Result<(), AllocError>
    ensures { OnOk result (map place_view places.new.items ≡ map place_view places.old.items ++ (if flag then (ix, command_label) ∷ [] else [])) }
{
    if flag {
        places.push((ix, FeatureLabel::Named("[command]")))?;
    }
    Ok(())
}

/// Appends the command features of the packages that have one: of all, or of those with a target that is a procedural macro. The entry
/// of package 0 has number `first`.
pub fn push_commands<'s>(
    places: &mut Vec<(usize, FeatureLabel<'s>)>,
    all: bool,
    packages: &[Package<'_>],
    commands: &[Option<Feature<'_>>],
    first: usize,
) -> Result<(), AllocError>
    requires { first + length commands.now < 2 ^ 64 }
    ensures { OnOk result (map place_view places.new.items ≡ map place_view places.old.items
        ++ spec.command_places (λ p. all || has_macro (map package_text packages.now) p) first (command_texts commands.now)) }
{
    for (ix, command) in commands.iter().enumerate() {
        let flag = command.is_some() && (all || has_macro_at(packages, ix));
        push_command(places, first + ix, flag)?;
    }
    Ok(())
}
