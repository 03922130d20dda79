//! What the nodes of a tree or a graph are.
ghost use Rattle.std.specs.Prelude.{option_map};
ghost use Rattle.feats_words.specs.Edges as spec;
ghost use Rattle.feats_words.specs.Refusals.{Gives};

use crate::fault::WordsFault;

/// What the nodes of a tree or a graph are.
#[derive(Clone, Copy, PartialEq, Eq, Debug)]
pub enum Edges {
    /// Packages: what depends on what.
    Packages,
    /// Features: what turns on what.
    Features,
}

/// Returns the nodes that `word` names: packages, if there is none.
pub(crate) fn edges_of(word: Option<&str>) -> Result<Edges, WordsFault<'_>>
    ensures { Gives (λ e. e) result (spec.edges (option_map (λ t. t.now) word.entry)) }
{
    match word {
        None | Some("packages") => Ok(Edges::Packages),
        Some("features") => Ok(Edges::Features),
        Some(word) => Err(WordsFault::Edges(word)),
    }
}
