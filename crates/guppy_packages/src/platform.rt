//! Platform statuses.
ghost use Rattle.std.specs.Prelude.{◌≡◌, IsTrue, ◌↔◌, IfOk, map};
ghost use Rattle.guppy_packages.specs.Platform.{Status, spec_text, status_of, impl_status, platform_specs, always_status, never_status, IsPresent};

use crate::pushing::push_to;
use std::alloc::{AllocError, Global};

/// A platform spec: an opaque text.
#[derive(PartialEq, Eq, Debug, Drop)]
pub struct Spec {
    text: String,
}

impl Spec {
    /// Returns the spec with the text `text`. `AllocError` is the only error.
    pub fn new(alloc: Global, text: &str) -> Result<Spec, AllocError>
        ensures { IfOk result (λ spec. spec_text spec ≡ text.now) }
    {
        Ok(Spec {
            text: String::from_str(alloc, text)?,
        })
    }

    /// Returns an equal spec. `AllocError` is the only error.
    pub fn try_clone(&self, alloc: Global) -> Result<Spec, AllocError>
        ensures { IfOk result (λ spec. spec_text spec ≡ spec_text self.now) }
    {
        Spec::new(alloc, self.text())
    }

    /// Returns the spec's text.
    pub fn text(&self) -> &str
        ensures { result.now ≡ spec_text self.now }
    {
        self.text.as_str()
    }
}

/// A platform status that owns its specs. An empty list of specs means never.
#[derive(PartialEq, Eq, Debug, Drop)]
pub enum PlatformStatusImpl {
    Always,
    Specs(Vec<Spec>),
}

/// Returns copies of `specs`, in order.
fn copied(alloc: Global, specs: &[Spec]) -> Result<Vec<Spec>, AllocError>
    ensures { IfOk result (λ copy. map spec_text copy.items ≡ map spec_text specs.now) }
{
    let mut all = Vec::with_capacity(alloc, specs.len())?;
    for spec in specs {
        push_to(&mut all, spec.try_clone(alloc)?)?;
    }
    Ok(all)
}

impl PlatformStatusImpl {
    /// Returns an equal status, with specs of its own. `AllocError` is the only error.
    pub fn try_clone(&self, alloc: Global) -> Result<PlatformStatusImpl, AllocError>
        ensures specs { IfOk result (λ status. platform_specs status ≡ platform_specs self.now) }
        ensures status { IfOk result (λ status. impl_status status ≡ impl_status self.now) }
    {
        match self {
            PlatformStatusImpl::Always => Ok(PlatformStatusImpl::Always),
            PlatformStatusImpl::Specs(specs) => {
                Ok(PlatformStatusImpl::Specs(copied(alloc, specs.as_slice())?))
            }
        }
    }
}

/// The platforms on which something is enabled.
#[derive(Clone, Copy, PartialEq, Eq, Debug)]
pub enum PlatformStatus<'g> {
    /// On no platform.
    Never,
    /// On the platforms of these specs. The slice isn't empty.
    PlatformDependent(&'g [Spec]),
    /// On all platforms.
    Always,
}

impl<'g> PlatformStatus<'g> {
    /// Returns the status of `specs`; an empty list of specs means `Never`.
    pub fn new(specs: &'g PlatformStatusImpl) -> Self
        ensures { status_of result ≡ impl_status specs.now }
    {
        match specs {
            PlatformStatusImpl::Always => PlatformStatus::Always,
            PlatformStatusImpl::Specs(specs) => {
                if specs.is_empty() {
                    PlatformStatus::Never
                } else {
                    PlatformStatus::PlatformDependent(specs.as_slice())
                }
            }
        }
    }

    /// Returns whether the status is `Never`.
    pub fn is_never(self) -> bool
        ensures { IsTrue result ↔ (status_of self.entry ≡ never_status) }
    {
        matches!(&self, PlatformStatus::Never)
    }

    /// Returns whether the status is `Always`.
    pub fn is_always(self) -> bool
        ensures { IsTrue result ↔ (status_of self.entry ≡ always_status) }
    {
        matches!(&self, PlatformStatus::Always)
    }

    /// Returns whether the status is `Always` or `PlatformDependent`.
    pub fn is_present(self) -> bool
        ensures { IsTrue result ↔ IsPresent (status_of self.entry) }
    {
        !self.is_never()
    }
}
