//! Laws of the program's output. Each function does nothing: its contract is the law.
ghost use Rattle.guppy_tool.specs.Laws.{OneAnswer, OneBuildSet, OneRefusal};

use digraph_orders::laws::{one_order, order_lists_each};
use feature_labels::laws::label_order_is_total;

/// One command over the same bytes has one text or one fault, except that `build` may have several texts. Failures of
/// allocations and of devices are not covered.
pub fn one_answer()
    ensures answer { OneAnswer }
    ensures refusal { OneRefusal }
{
    label_order_is_total();
    one_order();
    order_lists_each();
}

/// Two texts of one `build` over the same tables name the same features.
pub fn one_build_set()
    ensures { OneBuildSet }
{}
