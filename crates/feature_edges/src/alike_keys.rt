//! Keys whose edges are equal.
ghost use Rattle.std.specs.Prelude.{◌≡◌, ◌<◌, IsTrue, length};
ghost use Rattle.feature_edges.specs.inner.Alike.{AreAlike, IsSingle, SharesSubject};
ghost use Rattle.feature_edges.specs.inner.Parts.{IsOfTables};

use crate::candidate::{CandidateKind, Key};
use crate::node_numbers::Numbers;

/// Returns whether package link `link_ix` has exactly one declaration.
fn is_single(numbers: Numbers<'_>, link_ix: usize) -> bool
    requires { link_ix < length numbers.graph.now.links }
    ensures { IsTrue result → IsSingle numbers.entry.graph.now link_ix }
{
    numbers.graph.link(link_ix).declarations().len() == 1
}

/// Returns whether two section keys have one source node and one package link with a single declaration.
fn shares_declaration(numbers: Numbers<'_>, earlier: Key, key: Key) -> bool
    requires of_tables { IsOfTables numbers.graph.now key }
    requires kind { key.kind ≡ CandidateKind.Section }
    ensures { IsTrue result → SharesSubject numbers.entry.graph.now earlier key }
{
    numbers.graph.facts();
    if earlier.source == key.source && earlier.from == key.from {
        return is_single(numbers, key.source as usize);
    }
    false
}

/// Returns whether two keys of one kind are over the same package link or declaration, so that their edges are equal.
pub(crate) fn are_alike(numbers: Numbers<'_>, earlier: Key, key: Key) -> bool
    requires { IsOfTables numbers.graph.now key }
    ensures { IsTrue result → AreAlike numbers.entry.graph.now earlier key }
{
    match (earlier.kind, key.kind) {
        (CandidateKind::SlashFull, CandidateKind::SlashFull)
        | (CandidateKind::SlashWeak, CandidateKind::SlashWeak) => earlier.source == key.source,
        (CandidateKind::Section, CandidateKind::Section) => {
            shares_declaration(numbers, earlier, key)
        }
        _ => false,
    }
}
