//! The settings of a plan.
ghost use Rattle.std.specs.Prelude.{◌≡◌, ℕ, Bool};
ghost use Rattle.cargo_workspaces.specs.Workspaces.{Text};
ghost use Rattle.plan_rows.specs.declared.side.Side.{Side as AnySide};

use crate::side::Side;
use cargo_workspaces::Feature;
use plan_words::TargetChoice;

/// A platform, on which platform specs hold or don't.
pub trait Platform {
    /// The test of a spec: true if it holds.
    ghost holds: { Self → Text → Bool };

    /// Returns whether `spec` holds on the platform.
    fn holds(&self, spec: &str) -> bool
        ensures { result ≡ holds self.now spec.now };
}

/// The optional dependencies that version resolving turns on.
pub trait Kept {
    /// The test of a package's number and a dependency's name: true if the dependency is turned on.
    ghost kept: { Self → ℕ → Text → Bool };

    /// Returns whether the optional dependency `name` of package `ix` is turned on.
    fn is_kept(&self, ix: usize, name: &str) -> bool
        ensures { result ≡ kept self.now ix name.now };
}

/// The optional dependencies that are on.
pub trait TurnedOn {
    /// The test of a side, a package's number and a dependency's name: true if the dependency is on.
    ghost turned_on: { Self → AnySide → ℕ → Text → Bool };

    /// Returns whether the optional dependency `name` of package `ix` is on, on `side`.
    fn is_on(&self, side: Side, ix: usize, name: &str) -> bool
        ensures { result ≡ turned_on self.now side ix name.now };
}

/// The settings of a plan: all that it is made of, besides the workspace.
#[derive(Drop)]
pub struct Settings<'n, 'c, P> {
    /// True if the resolver tells the sides apart, as 2 and 3 do.
    pub split: bool,
    /// The targets that are chosen. By these the dependencies for development of the started members count.
    pub choice: TargetChoice<'c>,
    /// The command feature of each package that is started, by the number of the package.
    pub commands: &'n [Option<Feature<'c>>],
    pub host: &'n P,
    /// The target platforms.
    pub targets: &'n [P],
}
