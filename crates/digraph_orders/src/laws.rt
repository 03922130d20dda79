//! Laws of orders and components. Each function does nothing; its contract is the law.
ghost use Rattle.digraph_orders.specs.Laws.{OneOrder, OrderExists, OrderListsEach, ComponentsFollowEdges, FirmEdgesFollow, CyclesAreComponents, CyclesAreMutual};

/// A digraph has at most one order.
pub fn one_order()
    ensures { OneOrder }
{}

/// Each digraph has an order.
pub fn order_exists()
    ensures { OrderExists }
{}

/// An order lists each node once, and nothing else.
pub fn order_lists_each()
    ensures { OrderListsEach }
{}

/// If an edge leads from one component to another, its source is before its target.
pub fn components_follow_edges()
    ensures { ComponentsFollowEdges }
{}

/// If the edges that aren't dev-only form no cycle, the source of each is before its target.
pub fn firm_edges_follow()
    ensures { FirmEdgesFollow }
{}

/// Two different nodes are in one component exactly if they are on a common cycle.
pub fn cycles_are_components()
    ensures { CyclesAreComponents }
{}

/// If a node is on a common cycle with another, so is the other with it.
pub fn cycles_are_mutual()
    ensures { CyclesAreMutual }
{}
