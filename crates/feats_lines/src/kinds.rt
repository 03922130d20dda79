//! The words for the kinds of declarations.
ghost use Rattle.std.specs.Prelude.{◌≡◌};
ghost use Rattle.feats_lines.specs.Kinds as spec;

use cargo_workspaces::Kind;

/// Returns the word for a declaration of kind `kind`: `normal`, `build` or `dev`.
pub fn kind_word(kind: Kind) -> &'static str
    ensures { result.now ≡ spec.kind_word kind }
{
    match kind {
        Kind::Normal => "normal",
        Kind::Build => "build",
        Kind::Development => "dev",
    }
}
