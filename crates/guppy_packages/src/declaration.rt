//! The declaration in a Dep row.
ghost use Rattle.std.specs.Prelude.{◌≡◌, ◌<◌, ◌∷◌, [], IfOk, Some, length, slice_get};
ghost use Rattle.std.specs.List.{list_all};
ghost use Rattle.std.specs.Option.{option_map};
ghost use Rattle.guppy_packages.specs.Parts.{first_text};
ghost use Rattle.guppy_packages.specs.Platform.{platform_text, platform_specs};
ghost use Rattle.guppy_packages.specs.Tables.{is_development};

use crate::listed_features::ListedFeatures;
use crate::platform::PlatformStatusImpl;
use crate::row::DependencyKind;
use crate::text_run::TextRun;
use std::alloc::AllocError;
use std::fmt;
use std::rc::Rc;

/// The declaration in one Dep row: how the package depends on the row's target.
#[derive(Drop)]
pub struct Declaration {
    pub(crate) kind: DependencyKind,
    pub(crate) optional: bool,
    pub(crate) default_features: bool,
    // equal platforms are shared
    pub(crate) platform: Rc<PlatformStatusImpl>,
    // the name in the row, followed by the features that it lists
    pub(crate) texts: TextRun,
    ghost of_a_row: { platform_specs platform.value ≡ option_map (λ spec. spec ∷ []) (platform_text platform.value) },
    ghost named: { 0 < length texts },
}

impl Declaration {
    ghost use Rattle.guppy_packages.specs.Stored.{declared};

    /// Returns the name of the dependency in the package that has the row.
    pub(crate) fn name(&self) -> &str
        ensures { result.now ≡ first_text self.now.texts }
    {
        self.texts.first()
    }

    /// Returns the kind of the dependency.
    pub fn kind(&self) -> DependencyKind
        ensures { result ≡ (declared self.now).kind }
    {
        self.kind
    }

    /// Returns whether the dependency is optional.
    pub fn optional(&self) -> bool
        ensures { result ≡ (declared self.now).optional }
    {
        self.optional
    }

    /// Returns the platforms that the declaration applies to: all, or those of one spec.
    pub fn platform(&self) -> &PlatformStatusImpl
        ensures { platform_specs result.now ≡ option_map (λ spec. spec ∷ []) (declared self.now).platform }
    {
        self.platform.as_ref()
    }

    /// Returns the platforms as `platform` does, shared and not copied. `AllocError` is the only error, and means that they have as many
    /// owners as fit.
    pub fn shared_platform(&self) -> Result<Rc<PlatformStatusImpl>, AllocError>
        ensures { IfOk result (λ p. platform_specs p.value ≡ option_map (λ spec. spec ∷ []) (declared self.now).platform) }
    {
        self.platform.clone()
    }

    /// Returns whether the declaration requests the default feature.
    pub fn default_features(&self) -> bool
        ensures { result ≡ (declared self.now).default_features }
    {
        self.default_features
    }

    /// Returns the features that the declaration lists, in row order.
    pub fn features(&self) -> ListedFeatures<'_>
        ensures { result ≡ (declared self.now).features }
    {
        ListedFeatures::new(&self.texts)
    }

    /// Returns the number of features that the declaration lists.
    pub fn feature_count(&self) -> usize
        ensures { result ≡ length (declared self.now).features }
    {
        self.texts.len() - 1
    }

    /// Returns the name of listed feature `ix`, in row order.
    pub fn feature(&self, ix: usize) -> &str
        requires { ix < length (declared self.now).features }
        ensures { slice_get (declared self.now).features ix ≡ Some result.now }
    {
        self.texts.later(ix)
    }
}

impl fmt::Debug for Declaration {
    fn fmt<W: fmt::Write>(&self, f: &mut fmt::Formatter<W>) -> fmt::Result {
        f.debug_struct("Declaration")
            .field("kind", &self.kind)
            .field("optional", &self.optional)
            .field("default_features", &self.default_features)
            .field("platform", self.platform())
            .field("features", &self.features())
            .finish()
    }
}

/// Returns whether every declaration of `declarations` is for development.
pub(crate) fn are_for_development(declarations: &[Declaration]) -> bool
    ensures { result ≡ list_all (λ d. is_development d.kind) declarations.now }
{
    declarations
        .iter()
        .all(|declaration| declaration.kind.is_development())
}
