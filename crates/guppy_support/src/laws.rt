//! Laws of the views. Each function does nothing; its contract is the law.
ghost use Rattle.guppy_support.specs.Laws.{MembersComeOnce, LinksComeOnce, LinksAscend, MembersAreNodes, LinksAreEdges, RootsAreNodes, CyclesAreNumbered, OneList, CyclicByCycles};

/// The members in order are exactly the members, each once.
pub fn members_come_once()
    ensures { MembersComeOnce }
{}

/// The links in order are exactly the edges with both ends in the set, each once.
pub fn links_come_once()
    ensures { LinksComeOnce }
{}

/// The links in order that have one start ascend by the number of their other end.
pub fn links_ascend()
    ensures { LinksAscend }
{}

/// Each member, link, root and component in a view is a number of its kind.
pub fn views_stay_within()
    ensures members { MembersAreNodes }
    ensures links { LinksAreEdges }
    ensures roots { RootsAreNodes }
    ensures components { CyclesAreNumbered }
{}

/// Two orders of one digraph have the same list.
pub fn one_list()
    ensures { OneList }
{
    digraph_orders::laws::one_order();
}

/// A node's component has a cycle exactly if the node is on one.
pub fn cyclic_by_cycles()
    ensures { CyclicByCycles }
{
    digraph_orders::laws::cycles_are_components();
    digraph_orders::laws::order_lists_each();
}
