//! The packages that a command line selects, and the features that it asks for.
ghost use Rattle.std.specs.Prelude.{◌≡◌, IfOk, IsTrue, length, nat_lt};
ghost use Rattle.std.specs.List.{list_all};
ghost use Rattle.cargo_workspaces.specs.WorkspaceView.{workspace_text};
ghost use Rattle.plan_words.specs.Choices as spec;
ghost use Rattle.plan_words.specs.Choices.{are_commands, chosen_text};
ghost use Rattle.plan_words.specs.Refusals.{Gives};
ghost use Rattle.plan_words.specs.Selections.{selection_text};

use crate::commands::commands_of;
use crate::fault::WordFault;
use crate::package_words::selected;
use crate::selection::Selection;
use cargo_workspaces::{Feature, Workspace};
use std::alloc::Global;

/// The packages that a command line selects, and the features that it asks for.
#[derive(Drop)]
pub struct Chosen<'s> {
    /// The numbers of the selected packages, in the order of the workspace or of the words.
    pub selected: Vec<usize>,
    /// The command feature of each package that is started, by the number of the package. Its name is `[command]`, and its items are
    /// what the command line asks of the package.
    pub commands: Vec<Option<Feature<'s>>>,
}

/// Returns the packages that `selection` selects in `workspace`, and the command feature of each package that it starts; else the
/// first fault: of a package word, of the feature words, then of the items of each member.
pub fn choose<'s>(
    alloc: Global,
    workspace: &'s Workspace<'_>,
    selection: &Selection<'s>,
) -> Result<Chosen<'s>, WordFault<'s>>
    ensures chosen { Gives chosen_text result (spec.choose (workspace_text workspace.now) (selection_text selection.now)) }
    ensures count { IfOk result (λ chosen. length chosen.commands.items ≡ length (workspace_text workspace.now).packages) }
    ensures named { IfOk result (λ chosen. IsTrue (are_commands (chosen_text chosen).commands)) }
    ensures within { IfOk result (λ chosen. IsTrue (list_all (λ p. nat_lt p (length (workspace_text workspace.now).packages)) chosen.selected.items)) }
{
    let selected = selected(alloc, workspace, selection.packages)?;
    let commands = commands_of(alloc, workspace, selection, &selected)?;
    Ok(Chosen { selected, commands })
}
