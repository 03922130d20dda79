//! The calls of `feature_graph_c` for C: a row file and a request, as bytes, and the answer in a buffer of the caller.

ghost use Rattle.std.specs.Prelude.{[]};
ghost use Rattle.feature_graph_c.specs.answers.Answers.{Wrote};
ghost use Rattle.feature_graph_c.specs.declared.answers.call.Call.TheVariants as call;

use crate::answers::{Call, write};
use std::alloc::Global;

/// Writes the description of the feature graph of `rows`.
#[unsafe(no_mangle)]
pub extern "C" fn feature_graph_describe(alloc: Global, rows: &[u8], out: &mut [u8]) -> usize
    ensures { Wrote call.Describe rows.now [] out.old result out.new }
{
    write(alloc, Call::Describe, rows, &[], out)
}

/// Writes the steps and the refused offers of a walk that answers each offer by the request.
#[unsafe(no_mangle)]
pub extern "C" fn feature_graph_resolve(
    alloc: Global,
    rows: &[u8],
    request: &[u8],
    out: &mut [u8],
) -> usize
    ensures { Wrote call.Resolve rows.now request.now out.old result out.new }
{
    write(alloc, Call::Resolve, rows, request, out)
}

/// Writes the nodes that the request's nodes reach over all edges.
#[unsafe(no_mangle)]
pub extern "C" fn feature_graph_reach(
    alloc: Global,
    rows: &[u8],
    request: &[u8],
    out: &mut [u8],
) -> usize
    ensures { Wrote call.Reach rows.now request.now out.old result out.new }
{
    write(alloc, Call::Reach, rows, request, out)
}

/// Writes the request's nodes in order.
#[unsafe(no_mangle)]
pub extern "C" fn feature_graph_order(
    alloc: Global,
    rows: &[u8],
    request: &[u8],
    out: &mut [u8],
) -> usize
    ensures { Wrote call.Order rows.now request.now out.old result out.new }
{
    write(alloc, Call::Order, rows, request, out)
}

/// Writes the roots among the request's nodes.
#[unsafe(no_mangle)]
pub extern "C" fn feature_graph_roots(
    alloc: Global,
    rows: &[u8],
    request: &[u8],
    out: &mut [u8],
) -> usize
    ensures { Wrote call.Roots rows.now request.now out.old result out.new }
{
    write(alloc, Call::Roots, rows, request, out)
}

/// Writes the edges between the request's nodes.
#[unsafe(no_mangle)]
pub extern "C" fn feature_graph_links(
    alloc: Global,
    rows: &[u8],
    request: &[u8],
    out: &mut [u8],
) -> usize
    ensures { Wrote call.Links rows.now request.now out.old result out.new }
{
    write(alloc, Call::Links, rows, request, out)
}

/// Writes the components that have a cycle.
#[unsafe(no_mangle)]
pub extern "C" fn feature_graph_cycles(alloc: Global, rows: &[u8], out: &mut [u8]) -> usize
    ensures { Wrote call.Cycles rows.now [] out.old result out.new }
{
    write(alloc, Call::Cycles, rows, &[], out)
}

/// Writes whether the request's steps are an exact explanation.
#[unsafe(no_mangle)]
pub extern "C" fn feature_graph_check(
    alloc: Global,
    rows: &[u8],
    request: &[u8],
    out: &mut [u8],
) -> usize
    ensures { Wrote call.Check rows.now request.now out.old result out.new }
{
    write(alloc, Call::Check, rows, request, out)
}
