//! The statuses of links, which are shared where they are equal.
ghost use Rattle.std.specs.Prelude.{◌≡◌, ◌∷◌, [], IfOk};
ghost use Rattle.guppy_packages.specs.Platform.{always_status, impl_status, never_status, status_of};
ghost use Rattle.guppy_packages.specs.Stored.{declared};
ghost use Rattle.feature_labels.specs.declared.link_declarations.LinkDeclarations.TheVariants.{Unsplit, Required, Optional};
ghost use Rattle.feature_links.specs.Values.{held_status, statuses_of};
ghost use Rattle.feature_links.specs.inner.Collected.{statuses_over};
ghost use Rattle.feature_links.specs.inner.Shared.{AreShared, kind_over};

use feature_labels::LinkDeclarations;
use guppy_packages::{Declaration, DependencyKind, PlatformStatus, PlatformStatusImpl};
use std::alloc::{AllocError, Global};
use std::rc::Rc;

/// The status of a link for one kind of dependency: its platforms, which declarations and links share, or `None` for no platform.
#[derive(Drop)]
pub(crate) struct HeldStatus {
    platform: Option<Rc<PlatformStatusImpl>>,
}

impl HeldStatus {
    /// Returns the status on no platform.
    pub(crate) fn never() -> Self
        ensures { held_status result ≡ never_status }
    {
        HeldStatus { platform: None }
    }

    /// Returns the status `platform`.
    pub(crate) fn new(platform: Rc<PlatformStatusImpl>) -> Self
        ensures { held_status result ≡ impl_status platform.value }
    {
        HeldStatus {
            platform: Some(platform),
        }
    }

    /// Returns the status.
    pub(crate) fn get(&self) -> PlatformStatus<'_>
        ensures { status_of result ≡ held_status self.now }
    {
        match &self.platform {
            Some(platform) => PlatformStatus::new(platform.as_ref()),
            None => PlatformStatus::Never,
        }
    }

    /// Returns an equal status, which shares its platforms with this. `AllocError` is the only error, and means that they have as many
    /// owners as fit.
    pub(crate) fn try_clone(&self) -> Result<HeldStatus, AllocError>
        ensures { IfOk result (λ status. held_status status ≡ held_status self.now) }
    {
        match &self.platform {
            Some(platform) => Ok(HeldStatus {
                platform: Some(platform.clone()?),
            }),
            None => Ok(HeldStatus { platform: None }),
        }
    }
}

/// The declarations that a link covers, and its status for each kind of dependency.
#[derive(Drop)]
pub(crate) struct LinkStatuses {
    pub(crate) declarations: LinkDeclarations,
    pub(crate) normal: HeldStatus,
    pub(crate) build: HeldStatus,
    pub(crate) dev: HeldStatus,
}

impl LinkStatuses {
    /// Returns the status `only` for `kind`, and no platform for the other kinds.
    fn of_kind(which: LinkDeclarations, kind: DependencyKind, only: HeldStatus) -> LinkStatuses
        ensures { statuses_of result ≡ kind_over which kind (held_status only) }
    {
        match kind {
            DependencyKind::Normal => LinkStatuses {
                declarations: which,
                normal: only,
                build: HeldStatus::never(),
                dev: HeldStatus::never(),
            },
            DependencyKind::Build => LinkStatuses {
                declarations: which,
                normal: HeldStatus::never(),
                build: only,
                dev: HeldStatus::never(),
            },
            DependencyKind::Development => LinkStatuses {
                declarations: which,
                normal: HeldStatus::never(),
                build: HeldStatus::never(),
                dev: only,
            },
        }
    }

    /// Returns the statuses of a declaration of `kind` on all platforms.
    fn always(
        alloc: Global,
        which: LinkDeclarations,
        kind: DependencyKind,
    ) -> Result<Rc<LinkStatuses>, AllocError>
        ensures { IfOk result (λ s. statuses_of s.value ≡ kind_over which kind always_status) }
    {
        let platform = Rc::new(alloc, PlatformStatusImpl::Always)?;
        let statuses = LinkStatuses::of_kind(which, kind, HeldStatus::new(platform));
        Ok(Rc::new(alloc, statuses)?)
    }

    /// Returns the statuses of one declaration. `AllocError` is the only error.
    pub(crate) fn of_one(
        alloc: Global,
        shared: &SharedStatuses,
        which: LinkDeclarations,
        declaration: &Declaration,
    ) -> Result<Rc<LinkStatuses>, AllocError>
        ensures { IfOk result (λ s. statuses_of s.value ≡ statuses_over which (declared declaration.now ∷ [])) }
    {
        let kind = declaration.kind();
        if let PlatformStatusImpl::Always = declaration.platform() {
            return shared.always(which, kind);
        }
        let only = HeldStatus::new(declaration.shared_platform()?);
        let statuses = LinkStatuses::of_kind(which, kind, only);
        Ok(Rc::new(alloc, statuses)?)
    }
}

/// The statuses of a declaration on all platforms, for each kind.
#[derive(Drop)]
struct KindShares {
    normal: Rc<LinkStatuses>,
    build: Rc<LinkStatuses>,
    dev: Rc<LinkStatuses>,
}

impl KindShares {
    /// Returns the statuses for links that cover the declarations `which`.
    fn new(alloc: Global, which: LinkDeclarations) -> Result<KindShares, AllocError>
        ensures { IfOk result (λ s. AreShared which s) }
    {
        let normal = LinkStatuses::always(alloc, which, DependencyKind::Normal)?;
        let build = LinkStatuses::always(alloc, which, DependencyKind::Build)?;
        let dev = LinkStatuses::always(alloc, which, DependencyKind::Development)?;
        Ok(KindShares { normal, build, dev })
    }
}

/// The statuses of links over one declaration on all platforms, by the declarations that the link covers and by the kind. Such links
/// share them.
#[derive(Drop)]
pub struct SharedStatuses {
    unsplit: KindShares,
    required: KindShares,
    optional: KindShares,
    ghost unsplit_is: { AreShared Unsplit unsplit },
    ghost required_is: { AreShared Required required },
    ghost optional_is: { AreShared Optional optional },
}

impl SharedStatuses {
    /// Returns the statuses. `AllocError` is the only error.
    pub fn new(alloc: Global) -> Result<SharedStatuses, AllocError> {
        let unsplit = KindShares::new(alloc, LinkDeclarations::Unsplit)?;
        let required = KindShares::new(alloc, LinkDeclarations::Required)?;
        let optional = KindShares::new(alloc, LinkDeclarations::Optional)?;
        Ok(SharedStatuses {
            unsplit,
            required,
            optional,
        })
    }

    /// Returns the statuses by kind of links that cover the declarations `which`.
    fn by_kind(&self, which: LinkDeclarations) -> &KindShares
        ensures { AreShared which result.now }
    {
        match which {
            LinkDeclarations::Unsplit => &self.unsplit,
            LinkDeclarations::Required => &self.required,
            LinkDeclarations::Optional => &self.optional,
        }
    }

    /// Returns the statuses of a declaration of `kind` on all platforms. `AllocError` means that they have as many owners as fit.
    fn always(
        &self,
        which: LinkDeclarations,
        kind: DependencyKind,
    ) -> Result<Rc<LinkStatuses>, AllocError>
        ensures { IfOk result (λ s. statuses_of s.value ≡ kind_over which kind always_status) }
    {
        let statuses = self.by_kind(which);
        match kind {
            DependencyKind::Normal => statuses.normal.clone(),
            DependencyKind::Build => statuses.build.clone(),
            DependencyKind::Development => statuses.dev.clone(),
        }
    }
}
