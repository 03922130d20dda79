//! Which declarations are lost.
ghost use Rattle.std.specs.Prelude.{◌≡◌, map};
ghost use Rattle.cargo_workspaces.specs.Views.{declaration_text};
ghost use Rattle.feats_plans.specs.tool.lost_dependencies.Lost as spec;
ghost use Rattle.plan_rows.specs.Steps.{admits};

use cargo_workspaces::{Declaration, Kind};
use plan_rows::Platform;
use plan_rows::rules::{admits, admits_any};

/// Returns whether a declaration of this kind is looked at: those for tests if `for_tests`, and else the others.
fn counts(for_tests: bool, kind: Kind) -> bool
    ensures { result ≡ spec.counts for_tests kind }
{
    match kind {
        Kind::Development => for_tests,
        Kind::Normal | Kind::Build => !for_tests,
    }
}

/// Returns whether the build needs the dependency that `declaration` names, and the document has no package for it. Declarations for
/// tests are looked at if `for_tests`, and else the others.
pub(crate) fn is_lost<P: Platform>(
    host: &P,
    targets: &[P],
    for_tests: bool,
    declaration: &Declaration<'_>,
) -> bool
    ensures { result ≡ spec.is_lost (P.holds host.now) (map P.holds targets.now) for_tests (declaration_text declaration.now) }
{
    counts(for_tests, declaration.kind)
        && !declaration.optional
        && declaration.leads_to.is_none()
        && (admits(host, declaration.platform) || admits_any(targets, declaration.platform))
}
