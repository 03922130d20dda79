//! Answers to offers that depend on the link alone.
ghost use Rattle.std.specs.Prelude.{◌≡◌};
ghost use Rattle.std.specs.Option.{option_map};
ghost use Rattle.feature_graph_c.specs.requests.Requests as spec;
ghost use Rattle.feature_graph_c.specs.requests.Choices.{choice_of};

use crate::requests::requests::are_below;
use walk_engine::{Half, Offerer};

/// The answers to the offers of a walk.
#[derive(Clone, Copy)]
pub(crate) enum Choice<'a> {
    /// Each offer is refused.
    Refuse,
    /// Each offer is accepted.
    Accept,
    /// A number for each edge: 1 accepts the full link or the required half, 2 the optional half, and 3 each.
    ByEdge(&'a [usize]),
}

/// Returns the answers in the words of a request, for a graph with `edges` edges, or `None`.
pub(crate) fn choice_in(words: &[usize], edges: usize) -> Option<Choice<'_>>
    ensures { option_map choice_of result ≡ spec.choice_in edges words.now }
{
    match words {
        [] => None,
        [0] => Some(Choice::Refuse),
        [1] => Some(Choice::Accept),
        [_] => None,
        [n, count, table @ ..] => {
            if *n == 2 && *count == edges && table.len() == edges && are_below(table, 4) {
                Some(Choice::ByEdge(table))
            } else {
                None
            }
        }
    }
}

/// Returns whether `n` accepts `half`.
fn accepts_by(n: usize, half: Half) -> bool
    ensures { result ≡ spec.accepts_by n half }
{
    match half {
        Half::Full | Half::Required => n == 1 || n == 3,
        Half::Optional => n == 2 || n == 3,
    }
}

impl Choice<'_> {
    /// Returns whether `half` of `edge` is accepted.
    fn accepts(self, edge: usize, half: Half) -> bool
        ensures { result ≡ spec.accepts (choice_of self.entry) edge half }
    {
        match self {
            Choice::Refuse => false,
            Choice::Accept => true,
            Choice::ByEdge(table) => match table.get(edge) {
                Some(n) => accepts_by(*n, half),
                None => false,
            },
        }
    }
}

impl Offerer for Choice<'_> {
    ghost can_offer = { λ _ _ _. Unit {0} };

    ghost gives = { λ s e h answer t. (answer ≡ spec.accepts (choice_of s) e h) × (choice_of t ≡ choice_of s) };

    fn offer(&mut self, edge: usize, half: Half) -> bool {
        self.accepts(edge, half)
    }
}
