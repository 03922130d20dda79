//! Digraphs, sets of numbers, and the order of a digraph's nodes. Also views of a set in an order: its members,
//! the edges between them, and their roots; the components that have a cycle; whether one node depends on
//! another; and the nodes that a set reaches over chosen edges. Nodes and edges are numbers.
#![tactic(auto)]

mod cycles;
mod depending;
mod in_order;
pub mod laws;
mod links_in_order;
mod reached_nodes;
mod reading;
mod root_nodes;
mod search;

pub use cycles::{cyclic_components, is_cyclic};
pub use depending::depends_on;
pub use digraph_orders::Order;
pub use digraphs::{
    Digraph, DigraphError, Edge, EdgeColumns, IxBitSet, Ones, begin_up_to, collect_exactly,
};
pub use in_order::InOrder;
pub use links_in_order::LinksInOrder;
pub use reached_nodes::reach;
pub use reading::Reading;
pub use root_nodes::roots;
pub use search::EdgeFilter;
