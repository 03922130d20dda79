//! The packages that words name.
ghost use Rattle.std.specs.Prelude.{◌≡◌, IfOk, IsTrue, length, map, nat_lt};
ghost use Rattle.std.specs.List.{list_all, list_any};
ghost use Rattle.cargo_workspaces.specs.Views.{package_text, texts};
ghost use Rattle.cargo_workspaces.specs.WorkspaceView.{workspace_text};
ghost use Rattle.plan_words.specs.PackageWords as spec;
ghost use Rattle.plan_words.specs.inner.Urls.{may_be_url};
ghost use Rattle.plan_words.specs.Refusals.{Gives};
ghost use Rattle.plan_words.specs.Selections.{choice_text};

use crate::fault::WordFault;
use crate::patterns::fits;
use crate::selection::PackageChoice;
use cargo_workspaces::{Package, Workspace};
use std::alloc::{AllocError, Global};

/// Returns whether `word` begins the numbers of `version`, at a dot.
fn begins_numbers(word: &str, version: &str) -> bool
    ensures { result ≡ spec.begins_numbers word.now version.now }
{
    match version.strip_prefix(word) {
        Some(rest) => rest.starts_with('.'),
        None => false,
    }
}

/// Returns `version` without its build metadata.
fn without_build<'v>(version: &'v str) -> &'v str
    ensures { result.now ≡ spec.without_build version.now }
{
    match version.split_once('+') {
        Some((front, _)) => front,
        None => version,
    }
}

/// Returns whether `version`, which has no build metadata, is that of a prerelease.
fn has_dash(version: &str) -> bool
    ensures { result ≡ spec.has_dash version.now }
{
    version.contains('-')
}

/// Returns whether `word` is `version`, with or without its build metadata, or a beginning of its numbers. A beginning of the
/// numbers fits no prerelease.
fn fits_version(word: &str, version: &str) -> bool
    ensures { result ≡ spec.fits_version word.now version.now }
{
    let front = without_build(version);
    word == version || word == front || !has_dash(front) && begins_numbers(word, front)
}

/// Returns whether `rest`, which follows a package's name, is nothing, or `@` or `:` and a version that fits.
fn fits_rest(rest: &str, version: &str) -> bool
    ensures { result ≡ spec.fits_rest rest.now version.now }
{
    match rest.strip_prefix('@') {
        Some(word) => fits_version(word, version),
        None => match rest.strip_prefix(':') {
            Some(word) => fits_version(word, version),
            None => rest.is_empty(),
        },
    }
}

/// Returns whether `word` is the name of `package`, or its name, `@` or `:`, and a version that fits.
fn fits_name(word: &str, package: &Package<'_>) -> bool
    ensures { result ≡ spec.fits_name word.now (package_text «package».now) }
{
    match word.strip_prefix(package.name) {
        Some(rest) => fits_rest(rest, package.version),
        None => false,
    }
}

/// Returns `text` without its beginning, if that is `front`.
fn without<'t>(front: &str, text: &'t str) -> &'t str
    ensures { result.now ≡ spec.without front.now text.now }
{
    match text.strip_prefix(front) {
        Some(rest) => rest,
        None => text,
    }
}

/// Returns the source in the id of `package`.
fn source_of<'p>(package: &Package<'p>) -> &'p str
    ensures { result.now ≡ spec.source_of (package_text «package».now) }
{
    match package.id.split_once('#') {
        Some((source, _)) => source,
        None => package.id,
    }
}

/// Returns the URL of the source of `package`, without its kind and its query.
fn url_of<'p>(package: &Package<'p>) -> &'p str
    ensures { result.now ≡ spec.url_of (package_text «package».now) }
{
    let url = without(
        "path+",
        without("git+", without("registry+", source_of(package))),
    );
    match url.split_once('?') {
        Some((front, _)) => front,
        None => url,
    }
}

/// Returns whether the last part of the URL of `package` is its name.
fn is_last_part(package: &Package<'_>) -> bool
    ensures { result ≡ spec.is_last_part (package_text «package».now) }
{
    match url_of(package).strip_suffix(package.name) {
        Some(front) => front.ends_with('/'),
        None => false,
    }
}

/// Returns whether `fragment`, which follows the `#` of a URL, names `package`. It may be a version if the last part of the URL is the
/// name.
fn fits_fragment(fragment: &str, package: &Package<'_>) -> bool
    ensures { result ≡ spec.fits_fragment fragment.now (package_text «package».now) }
{
    fits_name(fragment, package) || is_last_part(package) && fits_version(fragment, package.version)
}

/// Returns whether `place` is the source of `package` or its URL.
fn is_place(place: &str, package: &Package<'_>) -> bool
    ensures { result ≡ spec.is_place place.now (package_text «package».now) }
{
    place == source_of(package) || place == url_of(package)
}

/// Returns whether `word` is the source of `package` or its URL, `#`, and what names the package; or one of the first two alone, if
/// its last part is the name.
fn fits_url(word: &str, package: &Package<'_>) -> bool
    ensures { result ≡ spec.fits_url word.now (package_text «package».now) }
{
    match word.split_once('#') {
        Some((place, fragment)) => is_place(place, package) && fits_fragment(fragment, package),
        None => is_place(word, package) && is_last_part(package),
    }
}

/// Returns whether `word` contains a `#` or a `/`. A word without both is the URL of no package.
fn may_be_url(word: &str) -> bool
    ensures { result ≡ may_be_url word.now }
{
    word.contains('#') || word.contains('/')
}

/// Returns whether `word` names `package`: by its name, perhaps with a version, or by its URL. `has_marks` is whether `word` may be a URL.
fn is_named(word: &str, has_marks: bool, package: &Package<'_>) -> bool
    requires { has_marks ≡ may_be_url word.now }
    ensures { result ≡ spec.is_named word.now (package_text «package».now) }
{
    fits_name(word, package) || has_marks && fits_url(word, package)
}

/// Returns the numbers of the packages whose id is `word`.
fn packages_with_id(
    alloc: Global,
    packages: &[Package<'_>],
    word: &str,
) -> Result<Vec<usize>, AllocError>
    ensures { IfOk result (λ numbers. numbers.items ≡ spec.numbers_from (spec.has_id word.now) 0 (map package_text packages.now)) }
{
    let mut numbers = Vec::new(alloc);
    for (ix, package) in packages.iter().enumerate() {
        if word == package.id {
            numbers.push(ix)?;
        }
    }
    Ok(numbers)
}

/// Returns the numbers of the packages that `word` names.
fn packages_named(
    alloc: Global,
    packages: &[Package<'_>],
    word: &str,
) -> Result<Vec<usize>, AllocError>
    ensures { IfOk result (λ numbers. numbers.items ≡ spec.numbers_from (spec.is_named word.now) 0 (map package_text packages.now)) }
{
    let has_marks = may_be_url(word);
    let mut numbers = Vec::new(alloc);
    for (ix, package) in packages.iter().enumerate() {
        if is_named(word, has_marks, package) {
            numbers.push(ix)?;
        }
    }
    Ok(numbers)
}

/// Returns the numbers of the packages that `word` names, ascending: the package with this id alone, else those with this `NAME`,
/// `NAME@VERSION` or `NAME:VERSION`, or with this URL. The version may be a beginning of the package's numbers, as in `clap@4`.
pub fn packages_of_word(
    alloc: Global,
    workspace: &Workspace<'_>,
    word: &str,
) -> Result<Vec<usize>, AllocError>
    ensures { IfOk result (λ numbers. numbers.items ≡ spec.packages_of_word (workspace_text workspace.now).packages word.now) }
{
    let packages = workspace.packages();
    let with_id = packages_with_id(alloc, packages, word)?;
    if with_id.is_empty() {
        packages_named(alloc, packages, word)
    } else {
        Ok(with_id)
    }
}

/// Returns the members of `workspace` whose names fit `pattern`, in which a star stands for any text.
fn members_fitting(
    alloc: Global,
    workspace: &Workspace<'_>,
    pattern: &str,
) -> Result<Vec<usize>, AllocError>
    ensures { IfOk result (λ fitting. fitting.items ≡ spec.members_fitting (workspace_text workspace.now) pattern.now) }
{
    // (calls named facts() carry the invariant into the proof)
    workspace.facts();
    let mut fitting = Vec::new(alloc);
    for member in workspace.members() {
        if fits(pattern, workspace.package(*member).name) {
            fitting.push(*member)?;
        }
    }
    Ok(fitting)
}

/// Returns the one of `numbers`, the packages that `word` names; if there is none, `fitting`, the members that fit it as a pattern.
fn selected_of<'s>(
    word: &'s str,
    numbers: Vec<usize>,
    fitting: Vec<usize>,
) -> Result<Vec<usize>, WordFault<'s>>
    ensures { Gives (λ packages. packages.items) result (spec.selected_of word.now numbers.items fitting.items) }
{
    match (numbers.as_slice(), fitting.as_slice()) {
        ([], []) => Err(WordFault::UnknownPackage(word)),
        ([], _) => Ok(fitting),
        ([_], _) => Ok(numbers),
        _ => Err(WordFault::AmbiguousPackage {
            word,
            candidates: numbers,
        }),
    }
}

/// Returns the numbers of the packages that `word` selects: the one that it names; if it names none, the members that fit it as a
/// pattern.
fn selected_by<'s>(
    alloc: Global,
    workspace: &Workspace<'_>,
    word: &'s str,
) -> Result<Vec<usize>, WordFault<'s>>
    ensures packages { Gives (λ packages. packages.items) result (spec.selected_by (workspace_text workspace.now) word.now) }
    ensures within { IfOk result (λ packages. IsTrue (list_all (λ p. nat_lt p (length (workspace_text workspace.now).packages)) packages.items)) }
{
    // (calls named facts() carry the invariant into the proof)
    workspace.facts();
    let numbers = packages_of_word(alloc, workspace, word)?;
    let fitting = members_fitting(alloc, workspace, word)?;
    selected_of(word, numbers, fitting)
}

/// Returns the numbers of the packages that `words` select, one after the other, or the first fault.
#[tactic(auto, using(crate::proofs::Lists::list_all_both, crate::proofs::Within::one_more_word))]
fn selected_by_words<'s>(
    alloc: Global,
    workspace: &Workspace<'_>,
    words: &[&'s str],
) -> Result<Vec<usize>, WordFault<'s>>
    ensures packages { Gives (λ packages. packages.items) result (spec.selected_by_words (workspace_text workspace.now) (texts words.now)) }
    ensures within { IfOk result (λ packages. IsTrue (list_all (λ p. nat_lt p (length (workspace_text workspace.now).packages)) packages.items)) }
{
    let mut packages = Vec::with_capacity(alloc, words.len())?;
    for word in words {
        let more = selected_by(alloc, workspace, word)?;
        packages.extend_from_slice(&more)?;
    }
    Ok(packages)
}

/// Returns whether `word` names `package`, or the package's name fits it as a pattern.
fn excludes(package: &Package<'_>, word: &str) -> bool
    ensures { result ≡ spec.excludes (package_text «package».now) word.now }
{
    word == package.id || is_named(word, may_be_url(word), package) || fits(word, package.name)
}

/// Returns whether one of `words` excludes `package`.
fn is_excluded(package: &Package<'_>, words: &[&str]) -> bool
    ensures { result ≡ list_any (spec.excludes (package_text «package».now)) (texts words.now) }
{
    for word in words {
        if excludes(package, word) {
            return true;
        }
    }
    false
}

/// Returns the members of `workspace` that none of `words` excludes.
#[tactic(auto, using(crate::proofs::Lists::list_all_more))]
fn members_but(
    alloc: Global,
    workspace: &Workspace<'_>,
    words: &[&str],
) -> Result<Vec<usize>, AllocError>
    ensures members { IfOk result (λ kept. kept.items ≡ spec.members_but (workspace_text workspace.now) (texts words.now)) }
    ensures within { IfOk result (λ kept. IsTrue (list_all (λ p. nat_lt p (length (workspace_text workspace.now).packages)) kept.items)) }
{
    // (calls named facts() carry the invariant into the proof)
    workspace.facts();
    let mut kept = Vec::new(alloc);
    for member in workspace.members() {
        if !is_excluded(workspace.package(*member), words) {
            kept.push(*member)?;
        }
    }
    Ok(kept)
}

/// Returns `numbers`, those of the selected packages; NoPackages if there are none.
fn some_of<'s>(alloc: Global, numbers: &[usize]) -> Result<Vec<usize>, WordFault<'s>>
    ensures { Gives (λ packages. packages.items) result (spec.some_of numbers.now) }
{
    if numbers.is_empty() {
        return Err(WordFault::NoPackages);
    }
    Ok(Vec::from_slice(alloc, numbers)?)
}

/// Returns the numbers of the packages that `choice` selects, in the order of the workspace or of the words; NoPackages if that
/// is none.
pub(crate) fn selected<'s>(
    alloc: Global,
    workspace: &Workspace<'_>,
    choice: PackageChoice<'s>,
) -> Result<Vec<usize>, WordFault<'s>>
    ensures packages { Gives (λ packages. packages.items) result (spec.selected (workspace_text workspace.now) (choice_text choice.entry)) }
    ensures within { IfOk result (λ packages. IsTrue (list_all (λ p. nat_lt p (length (workspace_text workspace.now).packages)) packages.items)) }
{
    // (calls named facts() carry the invariant into the proof)
    workspace.facts();
    match choice {
        PackageChoice::Default => some_of(alloc, workspace.default_members()),
        PackageChoice::Workspace => some_of(alloc, workspace.members()),
        PackageChoice::Named(words) => selected_by_words(alloc, workspace, words),
        PackageChoice::AllBut(words) => {
            let members = members_but(alloc, workspace, words)?;
            some_of(alloc, &members)
        }
    }
}
