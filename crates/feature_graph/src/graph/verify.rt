//! Checks that the link of each conditional edge is present.
ghost use Rattle.std.specs.Prelude.{◌≡◌, ◌↔◌, Some, IsTrue, IfErr, not, position};
ghost use Rattle.std.specs.Result.{is_ok};
ghost use Rattle.feature_core.specs.Errors.{refusal_of};
ghost use Rattle.feature_core.specs.Present.{ArePresent};
ghost use Rattle.feature_links.specs.Facts.{has_present_link};
ghost use Rattle.feature_graph.specs.Verified.{RefusesEdges};

use crate::graph::FeatureGraph;
use feature_core::Error;
use feature_core::graph_laws::content_of_graph;
use feature_core::laws::links_are_present;

impl<'g> FeatureGraph<'g> {
    ghost use Rattle.feature_graph.specs.Views.{tables_of_graph, built_of};

    /// Returns the error with the two features of edge `number`, the first whose link is present for no kind.
    fn absent_link(&self, number: usize) -> Error<'g>
        requires { position (λ e. not (has_present_link e.2)) (built_of self.now).edges ≡ Some number }
        ensures { RefusesEdges (tables_of_graph self.now) (built_of self.now).edges (refusal_of result) }
    {
        content_of_graph(self.graph);
        let (from, to, _) = self.built.edge(number);
        Error::FeatureGraphInternalError {
            from: self.built.id(self.graph, from),
            to: self.built.id(self.graph, to),
        }
    }

    /// Checks that the link of each conditional edge is present for normal use, for builds or for development. The
    /// error names the two features of the first edge that fails, by source and then by target. A graph built from a
    /// package graph always passes.
    pub fn verify(&self) -> Result<(), Error<'g>>
        ensures exact { IsTrue (is_ok result) ↔ ArePresent (built_of self.now).edges }
        ensures first { IfErr result (λ e. RefusesEdges (tables_of_graph self.now) (built_of self.now).edges (refusal_of e)) }
        ensures ok { IsTrue (is_ok result) }
    {
        links_are_present(self.graph);
        match self.built.first_absent_link() {
            Some(number) => Err(self.absent_link(number)),
            None => Ok(()),
        }
    }
}
