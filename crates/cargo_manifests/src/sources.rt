//! Whether a declaration or the workspace's entry has a part.
ghost use Rattle.std.specs.Prelude.{◌≡◌};
ghost use Rattle.toml.specs.View.{view};
ghost use Rattle.cargo_manifests.specs.inherited.InheritanceView.{entry_view};
ghost use Rattle.cargo_manifests.specs.EditViews.{without_text};
ghost use Rattle.cargo_manifests.specs.Edits as spec;

use crate::edits::Without;
use crate::inherited::{default_features, lists};
use toml::Value;

/// Returns whether `own`, the entry by which a member inherits a dependency, has the part `without` itself.
fn has_itself(without: Without<'_>, own: &Value) -> bool
    ensures { result ≡ spec.has_itself (without_text without.entry) (view own.now) }
{
    match without {
        Without::Defaults => default_features(own) == Some(true),
        Without::Feature(name) => lists(own, name),
    }
}

/// Returns whether `entry`, one of the workspace's table, has the part `without`.
fn has_part(without: Without<'_>, entry: &Value) -> bool
    ensures { result ≡ spec.has_part (without_text without.entry) (view entry.now) }
{
    match without {
        Without::Defaults => default_features(entry) != Some(false),
        Without::Feature(name) => lists(entry, name),
    }
}

/// Returns whether `shared`, the workspace's entry of an inherited dependency, may have the part `without`.
fn may_have_part(without: Without<'_>, shared: Option<&Value>) -> bool
    ensures { result ≡ spec.may_have_part (without_text without.entry) (entry_view shared.entry) }
{
    match shared {
        Some(entry) => has_part(without, entry),
        None => true,
    }
}

/// Returns whether an edit of a declaration alone takes the part `without` out of it. It inherits `shared` by the entry `own`, if any.
pub(crate) fn is_own(shared: Option<&Value>, own: Option<&Value>, without: Without<'_>) -> bool
    ensures { result ≡ spec.is_own (entry_view shared.entry) (entry_view own.entry) (without_text without.entry) }
{
    match own {
        Some(entry) => has_itself(without, entry) && !may_have_part(without, shared),
        None => true,
    }
}

/// Returns whether an edit of the workspace's entry takes the part `without` out of a declaration. It inherits by the
/// entry `own`, if any.
pub(crate) fn is_shared(own: Option<&Value>, without: Without<'_>) -> bool
    ensures { result ≡ spec.is_shared (entry_view own.entry) (without_text without.entry) }
{
    match own {
        Some(entry) => !has_itself(without, entry),
        None => false,
    }
}
