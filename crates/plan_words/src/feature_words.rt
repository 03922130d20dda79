//! The items that feature words become.
ghost use Rattle.std.specs.Prelude.{◌≡◌, ◌<◌, ◌++◌, IfOk, OnOk, IsTrue, length, map, nat_eq, option_map, Some};
ghost use Rattle.std.specs.List.{filter_map};
ghost use Rattle.cargo_workspaces.specs.Views.{package_text, texts};
ghost use Rattle.cargo_workspaces.specs.WorkspaceView.{workspace_text};
ghost use Rattle.plan_words.specs.FeatureWords as spec;
ghost use Rattle.plan_words.specs.inner.Lookups.{HasSortedFeatures};
ghost use Rattle.plan_words.specs.inner.Views.{addressed_text, parts_text, words_text};

use crate::lookups::{declares, may_ask};
use crate::word_parts::{Parts, parts_of};
use cargo_workspaces::{Package, Workspace};
use std::alloc::{AllocError, Global};

/// An item of one package.
#[derive(Drop)]
pub(crate) struct Addressed<'s> {
    /// The number of the package.
    pub(crate) to: usize,
    pub(crate) item: &'s str,
}

/// How feature words reach the started members.
#[derive(Drop)]
pub(crate) enum Words<'s> {
    /// Each member takes the words that fit it.
    Each(&'s [&'s str]),
    /// A root package takes the words, but for those of other members.
    Root {
        root: usize,
        items: Vec<Addressed<'s>>,
    },
}

/// Returns the item of `package` that `word` becomes, whose parts are `parts`, if it becomes one.
fn item_of_parts<'s>(word: &'s str, parts: Parts<'s>, package: &Package<'_>) -> Option<&'s str>
    requires { HasSortedFeatures (package_text «package».now) }
    ensures { option_map (λ t. t.now) result ≡ spec.own_item_by word.now (package_text «package».now) (Some (parts_text parts.entry)) }
{
    if declares(package, parts.name) {
        Some(word)
    } else if parts.name == package.name && may_ask(package, parts.feature) {
        Some(parts.feature)
    } else {
        None
    }
}

/// Returns the item of `package` that `word` becomes, if it becomes one.
pub(crate) fn own_item<'s>(word: &'s str, package: &Package<'_>) -> Option<&'s str>
    requires { HasSortedFeatures (package_text «package».now) }
    ensures { option_map (λ t. t.now) result ≡ spec.own_item word.now (package_text «package».now) }
{
    match parts_of(word) {
        Some(parts) => item_of_parts(word, parts, package),
        None if may_ask(package, word) => Some(word),
        None => None,
    }
}

/// Returns the items of `package` that `words` become.
fn own_items<'s>(
    alloc: Global,
    words: &[&'s str],
    package: &Package<'_>,
) -> Result<Vec<&'s str>, AllocError>
    requires { HasSortedFeatures (package_text «package».now) }
    ensures { IfOk result (λ items. texts items.items ≡ filter_map (λ word. spec.own_item word (package_text «package».now)) (texts words.now)) }
{
    let mut items = Vec::with_capacity(alloc, words.len())?;
    for word in words {
        if let Some(item) = own_item(word, package) {
            items.push(item)?;
        }
    }
    Ok(items)
}

/// Returns the items among `items` that are those of package `ix`.
fn items_to<'s>(
    alloc: Global,
    items: &[Addressed<'s>],
    ix: usize,
) -> Result<Vec<&'s str>, AllocError>
    ensures { IfOk result (λ own. texts own.items ≡ filter_map (λ a. spec.value_if (nat_eq a.to ix) a.item) (map addressed_text items.now)) }
{
    let mut own = Vec::new(alloc);
    for item in items {
        if item.to == ix {
            own.push(item.item)?;
        }
    }
    Ok(own)
}

impl<'s> Words<'s> {
    /// Returns the items of package `ix`, `package`, that the words become.
    pub(crate) fn items(
        &self,
        alloc: Global,
        ix: usize,
        package: &Package<'_>,
    ) -> Result<Vec<&'s str>, AllocError>
        requires { HasSortedFeatures (package_text «package».now) }
        ensures { IfOk result (λ items. texts items.items ≡ spec.items_of_words (words_text self.now) ix (package_text «package».now)) }
    {
        match self {
            Words::Each(words) => own_items(alloc, words, package),
            Words::Root { items, .. } => items_to(alloc, items, ix),
        }
    }

    /// Returns whether the command line's defaults are those of package `ix`.
    pub(crate) fn takes_defaults(&self, ix: usize) -> bool
        ensures { result ≡ spec.takes_defaults (words_text self.now) ix }
    {
        match self {
            Words::Each(_) => true,
            Words::Root { root, .. } => *root == ix,
        }
    }
}

/// Returns the number of the last member of `workspace` with the name `name`.
fn member_called(workspace: &Workspace<'_>, name: &str) -> Option<usize>
    ensures { result ≡ spec.member_called (workspace_text workspace.now) name.now }
{
    // (calls named facts() carry the invariant into the proof)
    workspace.facts();
    let mut found = None;
    for member in workspace.members() {
        if workspace.package(*member).name == name {
            found = Some(*member);
        }
    }
    found
}

/// Returns the item that `word` becomes where package `root` takes the words: an item of `root`, or of another member among `chosen`.
fn address_word<'s>(
    workspace: &Workspace<'_>,
    root: usize,
    chosen: &[usize],
    word: &'s str,
) -> Addressed<'s>
    ensures { addressed_text result ≡ spec.addressed (workspace_text workspace.now) root chosen.now word.now }
{
    if let Some(parts) = parts_of(word)
        && let Some(to) = member_called(workspace, parts.name)
        && to != root
        && chosen.contains(&to)
    {
        return Addressed {
            to,
            item: parts.feature,
        };
    }
    Addressed {
        to: root,
        item: word,
    }
}

/// Returns the items that `words` become where package `root` takes the words.
pub(crate) fn addressed_words<'s>(
    alloc: Global,
    workspace: &Workspace<'_>,
    root: usize,
    chosen: &[usize],
    words: &[&'s str],
) -> Result<Vec<Addressed<'s>>, AllocError>
    ensures { IfOk result (λ items. map addressed_text items.items ≡ map (spec.addressed (workspace_text workspace.now) root chosen.now) (texts words.now)) }
{
    let mut items = Vec::with_capacity(alloc, words.len())?;
    for word in words {
        items.push(address_word(workspace, root, chosen, word))?;
    }
    Ok(items)
}
