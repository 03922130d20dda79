//! Finds the package that each declaration leads to.
ghost use Rattle.std.specs.Prelude.{◌≡◌, ◌++◌, [], IfOk, OnOk, None, false, map, option_map, string_bytes};
ghost use Rattle.std.specs.List.{find};
ghost use Rattle.cargo_json.specs.Faults.{Gives, refusal_of};
ghost use Rattle.cargo_json.specs.Faults as fault;
ghost use Rattle.workspace_documents.specs.Dependencies as spec;
ghost use Rattle.workspace_documents.specs.declared.dependencies.Asked.TheVariants as asked;
ghost use Rattle.workspace_documents.specs.inner.Aliases.{has_id};
ghost use Rattle.workspace_documents.specs.inner.Picks as picks;
ghost use Rattle.workspace_documents.specs.Names.{HasNames, at_places};
ghost use Rattle.workspace_documents.specs.Views.{text_view, declaration_view, dep_view, package_view, dependency_view};

use crate::aliases::aliased;
use crate::names::{Names, names_of};
use crate::nodes::Dep;
use crate::packages::{Declaration, Package};
use crate::requirements::admits;
use crate::uses::has_use;
use cargo_json::DocumentFault;
use std::alloc::{AllocError, Global};
use std::collections::BTreeSet;

/// A declaration and the package that it leads to.
#[derive(Clone, Copy)]
pub struct Dependency<'p, 'v> {
    pub declaration: &'p Declaration<'v>,
    pub target: &'p Package<'v>,
}

impl<'p, 'v> Dependency<'p, 'v> {
    ghost use Rattle.workspace_documents.specs.Dependencies.{name_of};
    ghost use Rattle.workspace_documents.specs.Views.{declaration_view};

    /// The name by which the package calls it.
    pub fn name(&self) -> &'v str
        ensures { result.now ≡ name_of (declaration_view self.now.declaration.now) }
    {
        name_of(self.declaration)
    }
}

/// Returns the name by which a declaration's package calls the dependency.
pub fn name_of<'v>(declaration: &Declaration<'v>) -> &'v str
    ensures { result.now ≡ spec.name_of (declaration_view declaration.now) }
{
    match declaration.rename {
        Some(name) => name,
        None => declaration.name,
    }
}

/// Returns `_` for `-`, as Rust code spells a package's name, and any other byte unchanged.
fn in_code(byte: u8) -> u8
    ensures { result ≡ spec.in_code byte }
{
    if byte == b'-' { b'_' } else { byte }
}

/// Returns whether `given` is `plain` with `_` for each `-`.
#[tactic(auto, using(crate::proofs::CodeNames::in_code_same, crate::proofs::CodeNames::in_code_other, crate::proofs::CodeNames::in_code_long, crate::proofs::CodeNames::in_code_end))]
fn is_in_code(given: &[u8], plain: &[u8]) -> bool
    ensures { result ≡ spec.is_in_code given.now plain.now }
{
    if given.len() != plain.len() {
        return false;
    }
    for i in 0..given.len() {
        if given[i] != in_code(plain[i]) {
            return false;
        }
    }
    true
}

/// Returns the name of `package` in code: `rename` if there is one, else its library's name, else its own.
fn called<'v>(rename: Option<&'v str>, package: &Package<'v>) -> &'v str
    ensures { result.now ≡ spec.called (option_map text_view rename.entry) (package_view «package».now) }
{
    match (rename, package.library) {
        (Some(rename), _) => rename,
        (None, Some(library)) => library,
        (None, None) => package.name,
    }
}

/// Returns the new name that `dep` has in the code of the package `owner`, if it has one. Cargo ignores the rename of a package
/// that depends on itself.
fn rename_of<'v>(owner: &str, declaration: &Declaration<'v>, dep: &Dep<'_, '_>) -> Option<&'v str>
    ensures { option_map text_view result ≡ spec.rename_of owner.now (declaration_view declaration.now) (dep_view dep.now) }
{
    if dep.target.id == owner {
        None
    } else {
        declaration.rename
    }
}

/// Returns whether `dep` may be the package that `owner` declares, by its names.
fn fits(owner: &str, declaration: &Declaration<'_>, dep: &Dep<'_, '_>) -> bool
    ensures { result ≡ spec.fits owner.now (declaration_view declaration.now) (dep_view dep.now) }
{
    dep.target.name == declaration.name
        && is_in_code(
            dep.extern_name.as_bytes(),
            called(rename_of(owner, declaration, dep), dep.target).as_bytes(),
        )
}

/// Returns whether `dep` is used for the kind and the platform of `declaration`.
fn is_used(declaration: &Declaration<'_>, dep: &Dep<'_, '_>) -> bool
    ensures { result ≡ spec.is_used (declaration_view declaration.now) (dep_view dep.now) }
{
    has_use(&dep.uses, declaration.kind, declaration.platform)
}

/// Returns whether `dep` has the declared name in code, even if it is the package itself.
fn is_as_named(declaration: &Declaration<'_>, dep: &Dep<'_, '_>) -> bool
    ensures { result ≡ spec.is_as_named (declaration_view declaration.now) (dep_view dep.now) }
{
    is_in_code(
        dep.extern_name.as_bytes(),
        called(declaration.rename, dep.target).as_bytes(),
    )
}

/// The further condition for a used package that fits a declaration by its names.
#[derive(Clone, Copy)]
pub(crate) enum Asked {
    /// The package is used for the declaration's kind and platform.
    Use,
    /// The declaration's requirement admits the package's version.
    Version,
    /// Both conditions.
    Both,
    /// The package is used for the declaration's kind and platform, and has the declared name in code.
    Name,
}

/// Returns whether the condition `asked` holds for `dep`. The only error is out of memory.
fn answers(
    alloc: Global,
    asked: Asked,
    declaration: &Declaration<'_>,
    dep: &Dep<'_, '_>,
) -> Result<bool, AllocError>
    ensures { IfOk result (λ b. b ≡ picks.answers asked (declaration_view declaration.now) (dep_view dep.now)) }
{
    match asked {
        Asked::Use => Ok(is_used(declaration, dep)),
        Asked::Version => admits(alloc, declaration.requirement, dep.target.version),
        Asked::Name => Ok(is_used(declaration, dep) && is_as_named(declaration, dep)),
        Asked::Both => {
            if is_used(declaration, dep) {
                admits(alloc, declaration.requirement, dep.target.version)
            } else {
                Ok(false)
            }
        }
    }
}

/// Returns whether `dep` fits `declaration` by its names and the condition `asked` holds. The only error is out of memory.
#[tactic(auto, unfolding(crate::specs::inner::Picks::meets))]
fn meets(
    alloc: Global,
    asked: Asked,
    owner: &str,
    declaration: &Declaration<'_>,
    dep: &Dep<'_, '_>,
) -> Result<bool, AllocError>
    ensures { IfOk result (λ b. b ≡ picks.meets asked owner.now (declaration_view declaration.now) (dep_view dep.now)) }
{
    if fits(owner, declaration, dep) {
        answers(alloc, asked, declaration, dep)
    } else {
        Ok(false)
    }
}

/// The result of a search among packages: none, one or several.
#[derive(Clone, Copy)]
pub enum Found<'p, 'v> {
    Nothing,
    One(&'p Package<'v>),
    Several,
}

impl<'p, 'v> Found<'p, 'v> {
    /// Returns the result with `package` added.
    fn with(self, package: &'p Package<'v>) -> Found<'p, 'v>
        ensures { picks.found_view result ≡ picks.with_one (picks.found_view self.entry) (package_view «package».now) }
    {
        match self {
            Found::Nothing => Found::One(package),
            _ => Found::Several,
        }
    }
}

/// Returns `found` with the target of `dep` added if `dep` meets `declaration` and `asked`. The only error is out of memory.
fn and_one<'p, 'v>(
    alloc: Global,
    asked: Asked,
    owner: &str,
    declaration: &Declaration<'_>,
    dep: &Dep<'p, 'v>,
    found: Found<'p, 'v>,
) -> Result<Found<'p, 'v>, AllocError>
    ensures { IfOk result (λ new. picks.found_view new ≡ picks.and_one (picks.meets asked owner.now (declaration_view declaration.now) (dep_view dep.now)) (picks.found_view found.entry) (package_view dep.now.target.now)) }
{
    if meets(alloc, asked, owner, declaration, dep)? {
        Ok(found.with(dep.target))
    } else {
        Ok(found)
    }
}

/// Searches those of `deps` at `places` for the packages that fit `declaration` and meet `asked`. The only error is out of memory.
fn pick<'p, 'v>(
    alloc: Global,
    asked: Asked,
    owner: &str,
    declaration: &Declaration<'_>,
    deps: &[Dep<'p, 'v>],
    places: &[usize],
) -> Result<Found<'p, 'v>, AllocError>
    ensures { IfOk result (λ found. picks.found_view found ≡ spec.pick (picks.answers asked) owner.now (declaration_view declaration.now) (at_places (map dep_view deps.now) places.now)) }
{
    let mut found = Found::Nothing;
    for place in places {
        if let Some(dep) = deps.get(*place) {
            found = and_one(alloc, asked, owner, declaration, dep, found)?;
        }
    }
    Ok(found)
}

/// Returns the package that is used for `declaration` and has a version that it admits: `Several` if none has, or if several have.
fn by_requirement<'p, 'v>(
    alloc: Global,
    owner: &str,
    declaration: &Declaration<'_>,
    deps: &[Dep<'p, 'v>],
    places: &[usize],
) -> Result<Found<'p, 'v>, AllocError>
    ensures { IfOk result (λ found. picks.found_view found ≡ spec.if_nothing (spec.pick (picks.answers asked.Both) owner.now (declaration_view declaration.now) (at_places (map dep_view deps.now) places.now)) spec.several) }
{
    match pick(alloc, Asked::Both, owner, declaration, deps, places)? {
        Found::Nothing => Ok(Found::Several),
        narrowed => Ok(narrowed),
    }
}

/// Returns what the declaration of the package `owner` leads to among those of `deps` at `places`. The only error is out of memory.
fn choice_at<'p, 'v>(
    alloc: Global,
    owner: &str,
    declaration: &Declaration<'_>,
    deps: &[Dep<'p, 'v>],
    places: &[usize],
) -> Result<Found<'p, 'v>, AllocError>
    ensures { IfOk result (λ found. picks.found_view found ≡ spec.choice owner.now (declaration_view declaration.now) (at_places (map dep_view deps.now) places.now)) }
{
    match pick(alloc, Asked::Use, owner, declaration, deps, places)? {
        Found::One(package) => Ok(Found::One(package)),
        Found::Nothing => {
            if declaration.is_optional {
                pick(alloc, Asked::Version, owner, declaration, deps, places)
            } else {
                Ok(Found::Nothing)
            }
        }
        Found::Several => match pick(alloc, Asked::Name, owner, declaration, deps, places)? {
            Found::One(package) => Ok(Found::One(package)),
            _ => by_requirement(alloc, owner, declaration, deps, places),
        },
    }
}

/// What the declaration of the package `owner` leads to: the package that is used for it. If several are, the declared name in code
/// decides, and then the requirement; if none is, the requirement decides for an optional dependency alone. `names` has the places of
/// `deps`, as `names_of` returns them. The only error is out of memory.
pub fn choice<'p, 'v>(
    alloc: Global,
    owner: &str,
    declaration: &Declaration<'_>,
    deps: &[Dep<'p, 'v>],
    names: &Names<'_>,
) -> Result<Found<'p, 'v>, AllocError>
    requires { HasNames names.now (map dep_view deps.now) }
    ensures { IfOk result (λ found. picks.found_view found ≡ spec.choice owner.now (declaration_view declaration.now) (map dep_view deps.now)) }
{
    match names.get(declaration.name) {
        Some(places) => choice_at(alloc, owner, declaration, deps, places),
        None => Ok(Found::Nothing),
    }
}

/// Returns the fault `Ambiguous` for the declaration `name` of the package `package`.
pub(crate) fn ambiguous(
    alloc: Global,
    package: &str,
    name: &str,
) -> Result<DocumentFault, AllocError>
    ensures { IfOk result (λ e. refusal_of e ≡ fault.ambiguous «package».now name.now) }
{
    Ok(DocumentFault::Ambiguous {
        package: String::from_str(alloc, package)?,
        name: String::from_str(alloc, name)?,
    })
}

/// Returns the package that `declaration` of the package `id` leads to, if there is one. Returns `Ambiguous` if there are several.
#[tactic(auto, unfolding(crate::specs::Dependencies::target_of))]
fn target_of<'p, 'v>(
    alloc: Global,
    id: &str,
    declaration: &Declaration<'_>,
    deps: &[Dep<'p, 'v>],
    names: &Names<'_>,
) -> Result<Option<&'p Package<'v>>, DocumentFault>
    requires { HasNames names.now (map dep_view deps.now) }
    ensures { Gives (λ o. option_map (λ p. package_view p.now) o) result (spec.target_of id.now (declaration_view declaration.now) (map dep_view deps.now)) }
{
    match choice(alloc, id, declaration, deps, names)? {
        Found::Nothing => Ok(None),
        Found::One(target) => Ok(Some(target)),
        Found::Several => Err(ambiguous(alloc, id, declaration.name)?),
    }
}

/// Appends `declaration` with the package that it leads to, if it leads to one. The only error is out of memory.
fn push_led<'p, 'v>(
    dependencies: &mut Vec<Dependency<'p, 'v>>,
    declaration: &'p Declaration<'v>,
    target: Option<&'p Package<'v>>,
) -> Result<(), AllocError>
    ensures { OnOk result (map dependency_view dependencies.new.items ≡ map dependency_view dependencies.old.items ++ spec.with_target (declaration_view declaration.now) (option_map (λ p. package_view p.now) target.entry) []) }
{
    if let Some(target) = target {
        dependencies.push(Dependency {
            declaration,
            target,
        })?;
    }
    Ok(())
}

/// Returns the declarations of `package` that lead to a package, in their order. Returns `Ambiguous` for the first declaration that
/// leads to several.
#[tactic(auto, unfolding(crate::specs::Dependencies::dependencies_of))]
pub fn dependencies_of<'p, 'v>(
    alloc: Global,
    package: &'p Package<'v>,
    deps: &[Dep<'p, 'v>],
) -> Result<Vec<Dependency<'p, 'v>>, DocumentFault>
    ensures { Gives (λ ds. map dependency_view ds.items) result (spec.dependencies_of (package_view «package».now) (map dep_view deps.now)) }
{
    let names = names_of(alloc, deps)?;
    let mut dependencies = Vec::new(alloc);
    for declaration in &package.declarations {
        let target = target_of(alloc, package.id, declaration, deps, &names)?;
        push_led(&mut dependencies, declaration, target)?;
    }
    Ok(dependencies)
}

/// Returns the fault `TwoNames` for `one` and `other`, which lead from `package` to the same package.
fn two_names(
    alloc: Global,
    package: &str,
    one: &Dependency<'_, '_>,
    other: &Dependency<'_, '_>,
) -> Result<DocumentFault, AllocError>
    ensures { IfOk result (λ e. refusal_of e ≡ fault.two_names «package».now one.now.target.now.id.now (spec.name_of (declaration_view one.now.declaration.now)) (spec.name_of (declaration_view other.now.declaration.now))) }
{
    Ok(DocumentFault::TwoNames {
        package: String::from_str(alloc, package)?,
        target: String::from_str(alloc, one.target.id)?,
        first: String::from_str(alloc, one.name())?,
        second: String::from_str(alloc, other.name())?,
    })
}

/// Returns the first of `dependencies` that leads to the same package as `one` by another name.
fn other_name<'a, 'p, 'v>(
    dependencies: &'a [Dependency<'p, 'v>],
    one: &Dependency<'p, 'v>,
) -> Option<&'a Dependency<'p, 'v>>
    ensures { option_map (λ d. dependency_view d.now) result ≡ find (spec.is_other_name (dependency_view one.now)) (map dependency_view dependencies.now) }
{
    for other in dependencies {
        if other.target.id == one.target.id && other.name() != one.name() {
            return Some(other);
        }
    }
    None
}

/// Returns the same as `other_name`, without a search if the id of the package isn't in `aliased`. This has the ids of all packages
/// to which `dependencies` lead by several names.
fn other_name_if_aliased<'a, 'p, 'v>(
    aliased: &BTreeSet<&str>,
    dependencies: &'a [Dependency<'p, 'v>],
    one: &Dependency<'p, 'v>,
) -> Option<&'a Dependency<'p, 'v>>
    requires { has_id aliased.now one.now.target.now.id.now ≡ false → find (spec.is_other_name (dependency_view one.now)) (map dependency_view dependencies.now) ≡ None }
    ensures { option_map (λ d. dependency_view d.now) result ≡ find (spec.is_other_name (dependency_view one.now)) (map dependency_view dependencies.now) }
{
    if aliased.contains(one.target.id) {
        other_name(dependencies, one)
    } else {
        None
    }
}

/// Refuses two names for one pair of packages, since a link has one.
pub fn check_names(
    alloc: Global,
    package: &Package<'_>,
    dependencies: &[Dependency<'_, '_>],
) -> Result<(), DocumentFault>
    ensures { Gives (λ _. tt) result (spec.agree «package».now.id.now (map dependency_view dependencies.now) (map dependency_view dependencies.now)) }
{
    let aliased = aliased(alloc, dependencies)?;
    for one in dependencies {
        if let Some(other) = other_name_if_aliased(&aliased, dependencies, one) {
            return Err(two_names(alloc, package.id, one, other)?);
        }
    }
    Ok(())
}
