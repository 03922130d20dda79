//! Collecting the statuses of declarations, one for each kind of dependency.
ghost use Rattle.std.specs.Prelude.{◌≡◌, ◌++◌, ◌∷◌, [], List, Option, map, IfOk, OnOk};
ghost use Rattle.std.specs.Str.{bytes_eq};
ghost use Rattle.guppy_packages.specs.Graph.{firsts};
ghost use Rattle.guppy_packages.specs.Platform.{spec_text};
ghost use Rattle.guppy_packages.specs.Rows.{Text, Declared};
ghost use Rattle.guppy_packages.specs.Stored.{declared};
ghost use Rattle.feature_links.specs.Links.{platforms_status};
ghost use Rattle.feature_links.specs.inner.Collected.{HasPlatforms, HasKinds, statuses_over, texts_in};
ghost use Rattle.feature_links.specs.Values.{held_status, statuses_of};

use crate::link::held::{HeldStatus, LinkStatuses};
use feature_labels::LinkDeclarations;
use guppy_packages::{Declaration, DependencyKind, PlatformStatusImpl, Spec};
use indexmap::IndexSet;
use std::alloc::{AllocError, Global};
use std::hash::{BuildHasherDefault, DefaultHasher};
use std::rc::Rc;

/// A set of texts from outside. It hashes by SipHash with a fixed key, so collisions don't follow a simple pattern.
type TextSet<T> = IndexSet<T, BuildHasherDefault<DefaultHasher>>;

/// The platforms so far: the status of a declaration that applies on all, or never, and the specs in the order of first appearance.
#[derive(Drop)]
pub(crate) struct StatusCollector<'g> {
    always: HeldStatus,
    specs: TextSet<&'g str>,
}

/// Inserts the texts of `specs` into `set`.
fn insert_all<'g>(set: &mut TextSet<&'g str>, specs: &'g [Spec]) -> Result<(), AllocError>
    ensures { OnOk result ((before : List Text) → texts_in set.old ≡ firsts bytes_eq before → texts_in set.new ≡ firsts bytes_eq (before ++ map spec_text specs.now)) }
{
    for spec in specs {
        set.insert(spec.text())?;
    }
    Ok(())
}

/// Returns a spec for each text of `set`.
fn specs_of(alloc: Global, set: &TextSet<&str>) -> Result<Vec<Spec>, AllocError>
    ensures { IfOk result (λ specs. map spec_text specs.items ≡ texts_in set.now) }
{
    let texts = set.as_slice();
    let mut specs = Vec::with_capacity(alloc, texts.len())?;
    for text in texts {
        specs.push(Spec::new(alloc, text)?)?;
    }
    Ok(specs)
}

impl<'g> StatusCollector<'g> {
    /// Returns a collector with no platforms.
    fn new(alloc: Global) -> Self
        ensures { HasPlatforms result [] }
    {
        StatusCollector {
            always: HeldStatus::never(),
            specs: IndexSet::with_hasher(alloc, BuildHasherDefault::new()),
        }
    }

    /// Adds the platforms of `declaration`.
    fn add(&mut self, declaration: &'g Declaration) -> Result<(), AllocError>
        ensures { OnOk result ((before : List (Option Text)) → HasPlatforms self.old before → HasPlatforms self.new (before ++ (declared declaration.now).platform ∷ [])) }
    {
        match declaration.platform() {
            PlatformStatusImpl::Always => {
                self.always = HeldStatus::new(declaration.shared_platform()?);
                Ok(())
            }
            PlatformStatusImpl::Specs(specs) => insert_all(&mut self.specs, specs.as_slice()),
        }
    }

    /// Returns the status that joins the platforms. If it is `Always`, it is shared with a declaration.
    fn status(&self, alloc: Global) -> Result<HeldStatus, AllocError>
        ensures { IfOk result (λ status. (platforms : List (Option Text)) → HasPlatforms self.now platforms → held_status status ≡ platforms_status platforms) }
    {
        if self.always.get().is_always() {
            return self.always.try_clone();
        }
        if self.specs.is_empty() {
            return Ok(HeldStatus::never());
        }
        let specs = specs_of(alloc, &self.specs)?;
        let joined = Rc::new(alloc, PlatformStatusImpl::Specs(specs))?;
        Ok(HeldStatus::new(joined))
    }
}

/// The statuses of the declarations so far, one for each kind.
#[derive(Drop)]
pub(crate) struct KindCollectors<'g> {
    normal: StatusCollector<'g>,
    build: StatusCollector<'g>,
    dev: StatusCollector<'g>,
}

impl<'g> KindCollectors<'g> {
    /// Returns collectors with no declarations.
    pub(crate) fn new(alloc: Global) -> Self
        ensures { HasKinds result [] }
    {
        KindCollectors {
            normal: StatusCollector::new(alloc),
            build: StatusCollector::new(alloc),
            dev: StatusCollector::new(alloc),
        }
    }

    /// Adds the platforms of `declaration` to its kind.
    pub(crate) fn add(&mut self, declaration: &'g Declaration) -> Result<(), AllocError>
        ensures { OnOk result ((before : List Declared) → HasKinds self.old before → HasKinds self.new (before ++ declared declaration.now ∷ [])) }
    {
        match declaration.kind() {
            DependencyKind::Normal => self.normal.add(declaration),
            DependencyKind::Build => self.build.add(declaration),
            DependencyKind::Development => self.dev.add(declaration),
        }
    }

    /// Returns the statuses that join the platforms of each kind; `which` is recorded as the declarations that the link covers.
    /// `AllocError` is the only error.
    pub(crate) fn statuses(
        &self,
        alloc: Global,
        which: LinkDeclarations,
    ) -> Result<Rc<LinkStatuses>, AllocError>
        ensures { IfOk result (λ s. (declarations : List Declared) → HasKinds self.now declarations → statuses_of s.value ≡ statuses_over which declarations) }
    {
        let normal = self.normal.status(alloc)?;
        let build = self.build.status(alloc)?;
        let dev = self.dev.status(alloc)?;
        let statuses = LinkStatuses {
            declarations: which,
            normal,
            build,
            dev,
        };
        Ok(Rc::new(alloc, statuses)?)
    }
}
