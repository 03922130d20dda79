//! What declarations share: platforms.
ghost use Rattle.std.specs.Prelude.{◌≡◌, ◌<◌, ◌∷◌, [], IfOk, Some, drop, length};
ghost use Rattle.std.specs.Option.{option_map};
ghost use Rattle.guppy_packages.specs.Platform.{platform_specs, platform_text};
ghost use Rattle.guppy_packages.specs.Stored.{declared};
ghost use Rattle.guppy_packages.specs.declared.platform.PlatformStatusImpl.TheVariants.{Always};
ghost use Rattle.guppy_packages.specs.inner.SpecPlatforms.{AreOfSpecs};

use crate::declaration::Declaration;
use crate::platform::{PlatformStatusImpl, Spec};
use crate::pushing::push_to;
use crate::row::DependencyKind;
use crate::text_map::TextMap;
use crate::text_run::TextRun;
use indexmap::IndexMap;
use std::alloc::{AllocError, Global};
use std::hash::BuildHasherDefault;
use std::rc::Rc;

/// Returns the platforms of the spec `text`.
fn one_spec(alloc: Global, text: &str) -> Result<PlatformStatusImpl, AllocError>
    ensures { IfOk result (λ p. platform_specs p ≡ Some (text.now ∷ [])) }
{
    let mut specs = Vec::with_capacity(alloc, 1)?;
    push_to(&mut specs, Spec::new(alloc, text)?)?;
    Ok(PlatformStatusImpl::Specs(specs))
}

/// Returns the platforms of the spec `text` in `specs`, where they are inserted if there are none.
fn shared_spec(
    alloc: Global,
    specs: &mut TextMap<String, Rc<PlatformStatusImpl>>,
    text: &str,
) -> Result<Rc<PlatformStatusImpl>, AllocError>
    requires { AreOfSpecs specs.old.entries }
    ensures specs { AreOfSpecs specs.new.entries }
    ensures platform { IfOk result (λ p. platform_specs p.value ≡ Some (text.now ∷ [])) }
{
    if let Some(one) = specs.get(text) {
        return one.clone();
    }
    let one = Rc::new(alloc, one_spec(alloc, text)?)?;
    let key = String::from_str(alloc, text)?;
    specs.insert(key, one.clone()?)?;
    Ok(one)
}

/// What declarations share. Equal platforms are stored once.
#[derive(Drop)]
pub(crate) struct Shared {
    always: Rc<PlatformStatusImpl>,
    specs: TextMap<String, Rc<PlatformStatusImpl>>,
    ghost always_is: { always.value ≡ Always },
    ghost specs_are: { AreOfSpecs specs.entries },
}

impl Shared {
    /// Returns the platforms of all declarations for all platforms, and nothing else. `AllocError` is the only error.
    pub(crate) fn new(alloc: Global) -> Result<Shared, AllocError> {
        Ok(Shared {
            always: Rc::new(alloc, PlatformStatusImpl::Always)?,
            specs: IndexMap::with_hasher(alloc, BuildHasherDefault::new()),
        })
    }

    /// Returns the platforms of a Dep row: all, or those of the spec `platform`.
    fn platform(
        &mut self,
        alloc: Global,
        platform: Option<&str>,
    ) -> Result<Rc<PlatformStatusImpl>, AllocError>
        ensures specs { IfOk result (λ p. platform_specs p.value ≡ option_map (λ spec. spec ∷ []) (platform_text p.value)) }
        ensures text { IfOk result (λ p. platform_text p.value ≡ option_map (λ t. t.now) platform.entry) }
    {
        match platform {
            None => self.always.clone(),
            Some(text) => shared_spec(alloc, &mut self.specs, text),
        }
    }

    /// Returns the declaration of a Dep row with these columns. `texts` has the row's name, followed by the features that it lists.
    pub(crate) fn declaration(
        &mut self,
        alloc: Global,
        kind: DependencyKind,
        optional: bool,
        platform: Option<&str>,
        default_features: bool,
        texts: TextRun,
    ) -> Result<Declaration, AllocError>
        requires { 0 < length texts }
        ensures texts { IfOk result (λ d. d.texts ≡ texts) }
        ensures declared { IfOk result (λ d. declared d ≡ record {
          kind = kind;
          optional = optional;
          platform = option_map (λ t. t.now) platform.entry;
          default_features = default_features;
          features = drop 1 texts;
        }) }
    {
        let platform = self.platform(alloc, platform)?;
        Ok(Declaration {
            kind,
            optional,
            default_features,
            platform,
            texts,
        })
    }
}
