//! The members that a command line starts.
ghost use Rattle.std.specs.Prelude.{◌≡◌, ◌<◌, IfOk, IfSome, IsTrue, length, nat_lt, slice_index_or, false, Ok};
ghost use Rattle.std.specs.List.{filter, list_all};
ghost use Rattle.cargo_workspaces.specs.WorkspaceView.{workspace_text};
ghost use Rattle.plan_words.specs.Choices as spec;
ghost use Rattle.plan_words.specs.Refusals.{Gives};
ghost use Rattle.plan_words.specs.Selections.{selection_text};
ghost use Rattle.plan_words.specs.inner.Views.{started_text};

use crate::fault::WordFault;
use crate::feature_words::{Words, addressed_words};
use crate::item_checks::check_words;
use crate::lookups::marked;
use crate::selection::Selection;
use cargo_workspaces::Workspace;
use std::alloc::{AllocError, Global};

/// The started members, and how the feature words reach them.
#[derive(Drop)]
pub(crate) struct Started<'s> {
    pub(crate) members: Vec<usize>,
    pub(crate) words: Words<'s>,
}

/// Returns the numbers among `numbers` at which `list` is true.
fn marked_among(alloc: Global, list: &[bool], numbers: &[usize]) -> Result<Vec<usize>, AllocError>
    requires { IsTrue (list_all (λ n. nat_lt n (length list.now)) numbers.now) }
    ensures { IfOk result (λ some. some.items ≡ filter (λ n. slice_index_or list.now n false) numbers.now) }
{
    let mut some = Vec::new(alloc);
    for number in numbers {
        if list[*number] {
            some.push(*number)?;
        }
    }
    Ok(some)
}

/// Returns the members of `workspace` among `packages`.
pub(crate) fn members_among(
    alloc: Global,
    workspace: &Workspace<'_>,
    packages: &[usize],
) -> Result<Vec<usize>, AllocError>
    requires { IsTrue (list_all (λ p. nat_lt p (length (workspace_text workspace.now).packages)) packages.now) }
    ensures members { IfOk result (λ members. members.items ≡ spec.members_among (workspace_text workspace.now) packages.now) }
    ensures within { IfOk result (λ members. IsTrue (list_all (λ p. nat_lt p (length (workspace_text workspace.now).packages)) members.items)) }
{
    // (calls named facts() carry the invariant into the proof)
    workspace.facts();
    let list = marked(alloc, workspace.package_count(), workspace.members())?;
    marked_among(alloc, &list, packages)
}

/// Returns the package of `workspace` that takes the feature words: the root package, where the resolver doesn't tell sides apart.
fn root_of(workspace: &Workspace<'_>, selection: &Selection<'_>) -> Option<usize>
    ensures root { result ≡ spec.root_of (workspace_text workspace.now) (selection_text selection.now) }
    ensures within { IfSome result (λ root. root < length (workspace_text workspace.now).packages) }
{
    // (calls named facts() carry the invariant into the proof)
    workspace.facts();
    if selection.split {
        None
    } else {
        workspace.root()
    }
}

/// Returns whether `selection` says anything about features.
fn asks_features(selection: &Selection<'_>) -> bool
    ensures { result ≡ spec.asks_features (selection_text selection.now) }
{
    !selection.features.is_empty() || selection.all_features || selection.no_default_features
}

/// Returns all members of `workspace`; NoMember if `selection` says anything about features.
fn all_members<'s>(
    alloc: Global,
    workspace: &Workspace<'_>,
    selection: &Selection<'s>,
) -> Result<Started<'s>, WordFault<'s>>
    ensures started { Gives started_text result (spec.all_members (workspace_text workspace.now) (selection_text selection.now)) }
    ensures within { IfOk result (λ begun. IsTrue (list_all (λ p. nat_lt p (length (workspace_text workspace.now).packages)) begun.members.items)) }
{
    // (calls named facts() carry the invariant into the proof)
    workspace.facts();
    if asks_features(selection) {
        return Err(WordFault::NoMember);
    }
    Ok(Started {
        members: Vec::from_slice(alloc, workspace.members())?,
        words: Words::Each(selection.features),
    })
}

/// Returns the members `chosen`; UnknownFeature if a word is an item of none of them.
fn chosen_members<'s>(
    workspace: &Workspace<'_>,
    selection: &Selection<'s>,
    chosen: Vec<usize>,
) -> Result<Started<'s>, WordFault<'s>>
    requires { IsTrue (list_all (λ p. nat_lt p (length (workspace_text workspace.now).packages)) chosen.items) }
    ensures started { Gives started_text result (spec.chosen_members (workspace_text workspace.now) (selection_text selection.now) chosen.items) }
    ensures within { IfOk result (λ begun. IsTrue (list_all (λ p. nat_lt p (length (workspace_text workspace.now).packages)) begun.members.items)) }
{
    check_words(workspace, &chosen, selection.features)?;
    Ok(Started {
        members: chosen,
        words: Words::Each(selection.features),
    })
}

/// Returns the members `chosen` and the package `root`, which takes the words.
#[tactic(auto, using(crate::proofs::Lists::list_all_more))]
fn with_root<'s>(
    alloc: Global,
    workspace: &Workspace<'_>,
    selection: &Selection<'s>,
    root: usize,
    mut chosen: Vec<usize>,
) -> Result<Started<'s>, WordFault<'s>>
    requires root { root < length (workspace_text workspace.now).packages }
    requires within { IsTrue (list_all (λ p. nat_lt p (length (workspace_text workspace.now).packages)) chosen.items) }
    ensures started { Gives started_text result (Ok (spec.with_root (workspace_text workspace.now) (selection_text selection.now) root chosen.items)) }
    ensures within { IfOk result (λ begun. IsTrue (list_all (λ p. nat_lt p (length (workspace_text workspace.now).packages)) begun.members.items)) }
{
    let items = addressed_words(alloc, workspace, root, &chosen, selection.features)?;
    chosen.push(root)?;
    Ok(Started {
        members: chosen,
        words: Words::Root { root, items },
    })
}

/// Returns the members of `workspace` that `selection` starts, of which `chosen` are the selected ones.
fn started_of<'s>(
    alloc: Global,
    workspace: &Workspace<'_>,
    selection: &Selection<'s>,
    chosen: Vec<usize>,
) -> Result<Started<'s>, WordFault<'s>>
    requires { IsTrue (list_all (λ p. nat_lt p (length (workspace_text workspace.now).packages)) chosen.items) }
    ensures started { Gives started_text result (spec.started (workspace_text workspace.now) (selection_text selection.now) (spec.root_of (workspace_text workspace.now) (selection_text selection.now)) chosen.items) }
    ensures within { IfOk result (λ begun. IsTrue (list_all (λ p. nat_lt p (length (workspace_text workspace.now).packages)) begun.members.items)) }
{
    match root_of(workspace, selection) {
        Some(root) => with_root(alloc, workspace, selection, root, chosen),
        None if chosen.is_empty() => all_members(alloc, workspace, selection),
        None => chosen_members(workspace, selection, chosen),
    }
}

/// Returns the members of `workspace` that `selection` starts, if `packages` are the selected packages.
pub(crate) fn start<'s>(
    alloc: Global,
    workspace: &Workspace<'_>,
    selection: &Selection<'s>,
    packages: &[usize],
) -> Result<Started<'s>, WordFault<'s>>
    requires { IsTrue (list_all (λ p. nat_lt p (length (workspace_text workspace.now).packages)) packages.now) }
    ensures started { Gives started_text result (spec.started (workspace_text workspace.now) (selection_text selection.now) (spec.root_of (workspace_text workspace.now) (selection_text selection.now)) (spec.members_among (workspace_text workspace.now) packages.now)) }
    ensures within { IfOk result (λ begun. IsTrue (list_all (λ p. nat_lt p (length (workspace_text workspace.now).packages)) begun.members.items)) }
{
    let chosen = members_among(alloc, workspace, packages)?;
    started_of(alloc, workspace, selection, chosen)
}
