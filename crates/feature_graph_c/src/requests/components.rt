//! The cycles of a feature graph.
ghost use Rattle.std.specs.Prelude.{◌≡◌, ◌<◌, ◌++◌, All, IfOk, OnOk, map};
ghost use Rattle.feature_graph_c.specs.binary.Records.{list, number};
ghost use Rattle.guppy_support.specs.Cycles.{nodes_of};
ghost use Rattle.feature_graph_c.specs.requests.Answers.{Has, answer_with};
ghost use Rattle.feature_graph_c.specs.requests.Contents.{Cyclic};

use crate::binary::{Entries, Numbers, push_list};
use crate::requests::answers::status;
use digraph_orders::Order;
use feature_core::FeatureGraphData;
use guppy_support::laws::views_stay_within;
use std::alloc::{AllocError, Global};

/// Components of an order.
#[derive(Clone, Copy)]
struct Components<'a> {
    order: &'a Order,
    numbers: &'a [usize],
    ghost within: { All (λ c. c < order.now.count) numbers.now },
}

impl Entries for Components<'_> {
    ghost entries = { λ components. map (λ c. list number (nodes_of components.order.now c)) components.numbers.now };

    fn count(&self) -> usize {
        self.numbers.len()
    }

    fn push(&self, at: usize, bytes: &mut Vec<u8>) -> Result<(), AllocError> {
        push_list(
            bytes,
            &Numbers(self.order.component_nodes(self.numbers[at])),
        )
    }
}

/// Returns the answer whose content is the list of the nodes of each component in `numbers`.
fn with_components(alloc: Global, order: &Order, numbers: &[usize]) -> Result<Vec<u8>, AllocError>
    requires { All (λ c. c < order.now.count) numbers.now }
    ensures { IfOk result (λ answer. answer.items ≡ answer_with (list (λ c. list number (nodes_of order.now c)) numbers.now)) }
{
    let mut answer = status(alloc)?;
    push_list(&mut answer, &Components { order, numbers })?;
    Ok(answer)
}

/// Returns the answer with the nodes of each component that has a cycle. `AllocError` is the only error.
pub fn cycles(alloc: Global, built: &FeatureGraphData) -> Result<Vec<u8>, AllocError>
    ensures { IfOk result (λ answer. Has (Cyclic built.now) answer.items) }
{
    views_stay_within();
    let (order, components) = built.cyclic_components();
    with_components(alloc, order, components)
}
