//! The link of a conditional edge.
ghost use Rattle.std.specs.Prelude.{◌≡◌, IfOk, option_copied};
ghost use Rattle.std.specs.Option.{option_map};
ghost use Rattle.guppy_packages.specs.Platform.{status_of};
ghost use Rattle.feature_links.specs.Facts.{is_dev_link, is_present};
ghost use Rattle.feature_links.specs.Values.{link_facts, half_facts};

pub(crate) mod from_declarations;
mod held;
mod statuses;

use crate::link::held::LinkStatuses;
pub use crate::link::held::SharedStatuses;
use feature_labels::LinkDeclarations;
use guppy_packages::PlatformStatus;
use smallvec::SmallVec;
use std::alloc::{AllocError, Global};
use std::fmt;
use std::rc::Rc;

/// The link of a conditional edge: the declarations that it covers, their platforms for each kind of dependency, and the package
/// links that have one of them. Links share equal platforms.
pub struct ConditionalLinkImpl {
    statuses: Rc<LinkStatuses>,
    package_link_ixs: SmallVec<usize, 1>,
}

impl Drop for ConditionalLinkImpl {
    // Written out, so that a crate above calls it. A derived drop is proved in each crate that drops a value, with those of all fields.
    fn drop(self) {
        let ConditionalLinkImpl {
            statuses: _statuses,
            package_link_ixs: _package_link_ixs,
        } = self;
    }
}

impl ConditionalLinkImpl {
    /// Returns which declarations the link covers: all, or one half.
    pub fn declarations(&self) -> LinkDeclarations
        ensures { result ≡ (link_facts self.now).declarations }
    {
        self.statuses.declarations
    }

    /// Returns the platforms of the covered declarations for normal use.
    pub fn normal(&self) -> PlatformStatus<'_>
        ensures { status_of result ≡ (link_facts self.now).normal }
    {
        self.statuses.normal.get()
    }

    /// Returns the platforms of the covered declarations for build scripts.
    pub fn build(&self) -> PlatformStatus<'_>
        ensures { status_of result ≡ (link_facts self.now).build }
    {
        self.statuses.build.get()
    }

    /// Returns the platforms of the covered declarations for development.
    pub fn dev(&self) -> PlatformStatus<'_>
        ensures { status_of result ≡ (link_facts self.now).dev }
    {
        self.statuses.dev.get()
    }

    /// Returns the numbers of the package links that have a covered declaration, ascending.
    pub fn package_link_ixs(&self) -> &[usize]
        ensures { result.now ≡ (link_facts self.now).package_links }
    {
        self.package_link_ixs.as_slice()
    }

    /// Returns whether no covered declaration is for normal use or for build scripts.
    pub fn is_dev_only(&self) -> bool
        ensures { result ≡ is_dev_link (link_facts self.now) }
    {
        self.normal().is_never() && self.build().is_never()
    }

    /// Returns whether some kind has a covered declaration that applies on some platform.
    pub fn is_present(&self) -> bool
        ensures { result ≡ is_present (link_facts self.now) }
    {
        !(self.is_dev_only() && self.dev().is_never())
    }

    /// Returns an equal link. `AllocError` is the only error.
    pub fn try_clone(&self, alloc: Global) -> Result<ConditionalLinkImpl, AllocError>
        ensures { IfOk result (λ link. link_facts link ≡ link_facts self.now) }
    {
        let statuses = self.statuses.clone()?;
        let package_link_ixs = SmallVec::from_slice(alloc, self.package_link_ixs.as_slice())?;
        Ok(ConditionalLinkImpl {
            statuses,
            package_link_ixs,
        })
    }
}

// Equal links print the same, however they are stored.
impl fmt::Debug for ConditionalLinkImpl {
    fn fmt<W: fmt::Write>(&self, f: &mut fmt::Formatter<W>) -> fmt::Result {
        f.debug_struct("ConditionalLinkImpl")
            .field("declarations", &self.declarations())
            .field("normal", &self.normal())
            .field("build", &self.build())
            .field("dev", &self.dev())
            .field("package_link_ixs", &self.package_link_ixs())
            .finish()
    }
}

/// One half of a weak edge: its link, if the half has a declaration.
#[derive(Debug, Drop)]
pub struct EnabledLink {
    // in a box, because a half is often missing
    link: Option<Box<ConditionalLinkImpl>>,
}

impl EnabledLink {
    /// Returns the half's link, or `None` if the half has no declaration.
    pub fn get(&self) -> Option<&ConditionalLinkImpl>
        ensures { option_map link_facts (option_copied result) ≡ half_facts self.now }
    {
        match &self.link {
            Some(link) => Some(link),
            None => None,
        }
    }

    /// Returns an equal half. `AllocError` is the only error.
    pub fn try_clone(&self, alloc: Global) -> Result<EnabledLink, AllocError>
        ensures { IfOk result (λ half. half_facts half ≡ half_facts self.now) }
    {
        match &self.link {
            Some(link) => {
                let link = Box::new(alloc, link.try_clone(alloc)?)?;
                Ok(EnabledLink { link: Some(link) })
            }
            None => Ok(EnabledLink { link: None }),
        }
    }
}
