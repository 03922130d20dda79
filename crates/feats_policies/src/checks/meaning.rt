//! What the words of rules mean.
ghost use Rattle.std.specs.Prelude.{◌≡◌, Err, IfOk, List, Result};
ghost use Rattle.cargo_workspaces.specs.WorkspaceView.{workspace_text};
ghost use Rattle.plan_names.specs.Faults.{IfNotMemory, NameRefusal, refusal_of};
ghost use Rattle.plan_names.specs.Names.{NamedText};
ghost use Rattle.feats_policies.specs.checks.Meanings as spec;
ghost use Rattle.feats_policies.specs.checks.inner.Returned.{meaning_text};

use cargo_workspaces::Workspace;
use plan_names::{NameFault, Named, parts_matching};
use std::alloc::{AllocError, Global};

/// What a word means.
#[derive(Drop)]
pub(crate) enum Meaning<'w> {
    /// These parts of packages; none, if the word names nothing.
    Parts(Vec<Named<'w>>),
    /// One of these, and the word doesn't say which.
    Several {
        word: &'w str,
        candidates: Vec<Named<'w>>,
    },
}

/// Returns the meaning of a word that has this fault.
fn meaning_by<'w>(alloc: Global, fault: NameFault<'w>) -> Result<Meaning<'w>, AllocError>
    ensures { (given : Result (List NamedText) NameRefusal) → IfNotMemory (refusal_of fault.entry) (given ≡ Err (refusal_of fault.entry)) → IfOk result (λ meaning. meaning_text meaning ≡ spec.meaning_of given) }
{
    match fault {
        NameFault::Unknown { word: _ } => Ok(Meaning::Parts(Vec::new(alloc))),
        NameFault::Several { word, candidates } => Ok(Meaning::Several { word, candidates }),
        NameFault::Memory => Err(AllocError),
    }
}

/// Returns what `word` means in `workspace`. A feature's name alone is looked up in the packages `selected` first.
pub(crate) fn meaning_of<'b>(
    alloc: Global,
    workspace: &'b Workspace<'_>,
    selected: &[usize],
    word: &'b str,
) -> Result<Meaning<'b>, AllocError>
    ensures { IfOk result (λ meaning. meaning_text meaning ≡ spec.meaning_among (workspace_text workspace.now).packages selected.now word.now) }
{
    match parts_matching(alloc, workspace, selected, word) {
        Ok(named) => Ok(Meaning::Parts(named)),
        Err(fault) => meaning_by(alloc, fault),
    }
}
