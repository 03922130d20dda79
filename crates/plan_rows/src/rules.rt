//! Rules that the steps have in common, and what explains a plan has too: where declarations apply, and to which sides they lead.
ghost use Rattle.std.specs.Prelude.{◌≡◌, map, option_map, true};
ghost use Rattle.cargo_workspaces.specs.Views.{declaration_text, package_text};
ghost use Rattle.plan_rows.specs.Commands.{command_texts, is_started};
ghost use Rattle.plan_rows.specs.Steps as steps;
ghost use Rattle.plan_rows.specs.Tables.{flag_at};

use crate::settings::Platform;
use crate::side::Side;
use cargo_workspaces::{Declaration, Feature, Kind, Package};

/// Returns whether a declaration with this platform applies on `holder`.
pub fn admits<P: Platform>(holder: &P, platform: Option<&str>) -> bool
    ensures { result ≡ steps.admits (P.holds holder.now) (option_map (λ t. t.now) platform.entry) }
{
    match platform {
        None => true,
        Some(spec) => holder.holds(spec),
    }
}

/// Returns whether a declaration with this platform applies on one of `targets`.
pub fn admits_any<P: Platform>(targets: &[P], platform: Option<&str>) -> bool
    ensures { result ≡ steps.admits_any (map P.holds targets.now) (option_map (λ t. t.now) platform.entry) }
{
    for target in targets {
        if admits(target, platform) {
            return true;
        }
    }
    false
}

/// Returns whether `declaration` applies for a package on `side`: one for builds on the host, another on the side's platforms.
pub fn applies_on<P: Platform>(
    host: &P,
    targets: &[P],
    side: Side,
    declaration: &Declaration<'_>,
) -> bool
    ensures { result ≡ steps.applies_on (P.holds host.now) (map P.holds targets.now) side (declaration_text declaration.now) }
{
    if declaration.kind == Kind::Build || side.is_host() {
        admits(host, declaration.platform)
    } else {
        admits_any(targets, declaration.platform)
    }
}

/// Returns the side on which `declaration` of a package on `side` leads to a package: `is_macro` is whether that is a procedural macro.
pub fn lands(split: bool, declaration: &Declaration<'_>, is_macro: bool, side: Side) -> Side
    ensures { result ≡ steps.lands split (declaration_text declaration.now) is_macro side }
{
    if split && (declaration.kind == Kind::Build || is_macro) {
        Side::Host
    } else {
        side
    }
}

/// Returns the side whose features the host place has.
pub fn host_side(split: bool) -> Side
    ensures { result ≡ steps.side_of split true }
{
    if split { Side::Host } else { Side::Target }
}

/// Returns whether package `ix` is a procedural macro for those that depend on it.
pub fn is_macro_at(packages: &[Package<'_>], ix: usize) -> bool
    ensures { result ≡ steps.is_macro (map package_text packages.now) ix }
{
    match packages.get(ix) {
        Some(package) => package.is_proc_macro(),
        None => false,
    }
}

/// Returns whether package `ix` has a command feature.
pub fn has_command(commands: &[Option<Feature<'_>>], ix: usize) -> bool
    ensures { result ≡ is_started (command_texts commands.now) ix }
{
    matches!(commands.get(ix), Some(Some(_)))
}

/// Returns the flag at `ix`, false past the end.
pub fn flag_of(flags: &[bool], ix: usize) -> bool
    ensures { result ≡ flag_at flags.now ix }
{
    match flags.get(ix) {
        Some(flag) => *flag,
        None => false,
    }
}
