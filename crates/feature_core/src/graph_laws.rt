//! Laws of built feature graphs. Each function does nothing: its contract is the law, for each build of `graph`.

ghost use Rattle.std.specs.Prelude.{◌≡◌, ◌↔◌, ◌<◌, ℕ, Bool, Some, length, map, slice_get};
ghost use Rattle.digraphs.specs.Paths.{Path};
ghost use Rattle.feature_edges.specs.guppy_packages.Rows.{Text};
ghost use Rattle.feature_edges.specs.guppy_packages.declared.direction.DependencyDirection.{DependencyDirection};
ghost use Rattle.feature_edges.specs.guppy_packages.declared.direction.DependencyDirection.TheVariants.{Forward, Reverse};
ghost use Rattle.feature_edges.specs.feature_labels.Names.{LabelName};
ghost use Rattle.walk_engine.specs.declared.walks.Half.{Half};
ghost use Rattle.walk_engine.specs.Laws.{every, only, AreReverse, IsUngated};
ghost use Rattle.walk_engine.specs.Walks.{EndsAreNodes, Reach as ReachOver};
ghost use Rattle.feature_core.specs.Built.{Built, IsBuilt, NodeNamed, NamesAreLabels, digraph_of};
ghost use Rattle.feature_edges.specs.Candidates.{Edge, IsEdge};
ghost use Rattle.feature_edges.specs.feature_links.Facts.{EdgeFacts, WeakFacts, weak_edge};
ghost use Rattle.feature_edges.specs.Edges.{EdgeSays, facts_of};
ghost use Rattle.feature_edges.specs.feature_links.Links.{LinkFacts};
ghost use Rattle.feature_edges.specs.Nodes.{nodes};
ghost use Rattle.feature_core.specs.Offers.{content_of, IsOffer, IsLinkOf, HaveOneName, IsWeakEdge};
ghost use Rattle.feature_edges.specs.Pairs.{Reach};

use feature_edges::PackageGraph;

/// States that each built edge is the edge of its pair by the tables, and that a pair has one edge.
pub fn edges_say(graph: &PackageGraph)
    ensures says { (b : Built) (k : ℕ) (x : ℕ × ℕ × EdgeFacts) → IsBuilt graph.now b → slice_get b.edges k ≡ Some x
        → EdgeSays graph.now (map (λ w. w.0) b.weak) x.0 x.1 x.2 }
    ensures same { (b : Built) (k : ℕ) (x : ℕ × ℕ × EdgeFacts) (e : Edge) → IsBuilt graph.now b → slice_get b.edges k ≡ Some x
        → IsEdge graph.now x.0 x.1 e → x.2 ≡ facts_of graph.now (map (λ w. w.0) b.weak) e }
    ensures once { (b : Built) (j k : ℕ) (x y : ℕ × ℕ × EdgeFacts) → IsBuilt graph.now b → slice_get b.edges j ≡ Some x
        → slice_get b.edges k ≡ Some y → x.0 ≡ y.0 → x.1 ≡ y.1 → j ≡ k }
{
    graph.facts();
}

/// States that each offer of the graph, in either direction, has a link.
pub fn offers_are_links(graph: &PackageGraph)
    ensures { (b : Built) (direction : DependencyDirection) (e : ℕ) (h : Half) → IsBuilt graph.now b
        → IsOffer (content_of direction b) e h → (l : LinkFacts) × IsLinkOf b e h l }
{
    graph.facts();
}

/// States that its two nodes and the declarations that its link covers determine an offer. A package's id and a label determine a
/// node.
pub fn link_names_offer(graph: &PackageGraph)
    ensures offers { (b : Built) (direction : DependencyDirection) (d : ℕ) (g : Half) (e : ℕ) (h : Half) → IsBuilt graph.now b
        → IsOffer (content_of direction b) d g → IsOffer (content_of direction b) e h → HaveOneName b d g e h
        → (d ≡ e) × (g ≡ h) }
    ensures nodes { (name : Text × LabelName) (m n : ℕ) → NodeNamed graph.now m name → NodeNamed graph.now n name → m ≡ n }
{
    graph.facts();
}

/// States that the names of nodes are exactly the labels of the packages, each with its package's id.
pub fn node_names(graph: &PackageGraph)
    ensures { NamesAreLabels graph.now }
{}

/// States that the package links of each link are links of the package graph.
pub fn link_numbers(graph: &PackageGraph)
    ensures { (b : Built) (e : ℕ) (h : Half) (l : LinkFacts) (i k : ℕ) → IsBuilt graph.now b → IsLinkOf b e h l
        → slice_get l.package_links i ≡ Some k → k < length graph.now.links }
{}

/// States that each weak edge has an index among the weak links, a gate and an optional half.
pub fn weak_edges(graph: &PackageGraph)
    ensures { (b : Built) (k u w : ℕ) (l : LinkFacts) (halves : WeakFacts) → IsBuilt graph.now b
        → slice_get b.edges k ≡ Some (u, w, weak_edge l halves) → IsWeakEdge graph.now b l halves }
{
    graph.facts();
}

/// States properties of the ways of a built graph. Their ends and gates are nodes, the two directions are each other's reverse,
/// and in reverse no half waits for a gate. The reach over all offers is the reach over the candidates of the tables.
pub fn content_of_graph(graph: &PackageGraph)
    ensures count { (b : Built) → IsBuilt graph.now b → length b.packages ≡ length (nodes graph.now) }
    ensures ends { (b : Built) (direction : DependencyDirection) → IsBuilt graph.now b → EndsAreNodes (content_of direction b) }
    ensures reverse { (b : Built) → AreReverse (content_of Forward b) (content_of Reverse b) }
    ensures back { (b : Built) → AreReverse (content_of Reverse b) (content_of Forward b) }
    ensures ungated { (b : Built) → IsUngated (content_of Reverse b) }
    ensures reach { (b : Built) (direction : DependencyDirection) (initials : ℕ → Bool) (n : ℕ) → IsBuilt graph.now b
        → ReachOver (content_of direction b) initials every n ↔ Reach graph.now direction initials n }
{
    graph.facts();
}

/// States that the paths of the built digraph are the reach of resolving: forward from a path's start, in reverse from its end.
pub fn paths_are_reach(graph: &PackageGraph)
    ensures forward { (b : Built) (a n : ℕ) → IsBuilt graph.now b
        → Path (digraph_of b).edges a n ↔ Reach graph.now Forward (only a) n }
    ensures reverse { (b : Built) (a n : ℕ) → IsBuilt graph.now b
        → Path (digraph_of b).edges n a ↔ Reach graph.now Reverse (only a) n }
{}

/// States that the package graph determines the ways of each direction: any two builds have the same.
pub fn one_content(graph: &PackageGraph)
    ensures { (a b : Built) (direction : DependencyDirection) → IsBuilt graph.now a → IsBuilt graph.now b
        → content_of direction a ≡ content_of direction b }
{
    graph.facts();
}
