//! Calls that walk over a feature graph.
ghost use Rattle.std.specs.Prelude.{◌≡◌, IfOk, length};

use crate::graphs::checks::Start;
use crate::graphs::listed::edges_listed;
use crate::graphs::rules::{Asked, Rule};
use crate::graphs::steps::tell_steps;
use crate::graphs::watched::Watched;
use crate::shared::{Failure, Out, cut, direction_of, halves, insert};
use feature_core::engine::{Half, Step, Walk, walk_explained, walk_over};
use feature_core::{EdgeChoice, Error, FeatureGraphData, Packed, walk, walk_all};
use guppy_support::IxBitSet;
use std::alloc::Global;

/// A walk, a step for each member, and the refused offers.
type Explained = (Walk, Vec<Step>, Vec<(usize, Half)>);

/// Returns the set of the node numbers in `words`. `Words` if one is no node of `built`, or `Memory`.
pub fn initials_of(
    alloc: Global,
    built: &FeatureGraphData,
    words: &str,
) -> Result<IxBitSet, Failure>
    ensures { IfOk result (λ set. length set ≡ length built.now.packages) }
{
    let mut set = IxBitSet::empty(alloc, built.node_count())?;
    insert(&mut set, words)?;
    if set.size() == built.node_count() {
        Ok(set)
    } else {
        Err(Failure::Words)
    }
}

/// Writes the members of `set` on a line.
fn tell_members(out: &Out, set: &IxBitSet) {
    out.part("members");
    for node in set.ones() {
        out.number(" ", node);
    }
    out.line("");
}

/// Writes the number of reads on a line.
fn tell_reads(out: &Out, reads: u128) {
    out.part("reads ");
    out.shown(reads);
    out.line("");
}

/// Writes the members of `walk`, or returns `Memory`.
fn tell_walk(out: &Out, walk: Result<Walk, Error<'_>>) -> Result<(), Failure> {
    match walk {
        Ok(walk) => {
            tell_members(out, &walk.members);
            Ok(())
        }
        Err(_) => Err(Failure::Memory),
    }
}

/// Writes the members of `walk` and the number of its reads, or returns `Memory`.
fn tell_read(out: &Out, walk: Result<Walk, Error<'_>>, reads: u128) -> Result<(), Failure> {
    tell_walk(out, walk)?;
    tell_reads(out, reads);
    Ok(())
}

/// Walks over the graph and writes the members; `Memory` is the only error.
fn over_graph(out: &Out, start: Start<'_>, offerer: &mut Asked<'_>) -> Result<(), Failure>
    requires { length start.initials.now ≡ length start.built.now.packages }
{
    tell_walk(
        out,
        walk(
            start.alloc,
            start.built,
            start.direction,
            start.initials,
            offerer,
        ),
    )
}

/// Walks over the graph as a source that logs its reads; writes the members and the number of reads. `Memory` is the only
/// error.
fn over_source(out: &Out, start: Start<'_>, offerer: &mut Asked<'_>) -> Result<(), Failure>
    requires { length start.initials.now ≡ length start.built.now.packages }
{
    let mut source = Watched {
        source: Packed::new(start.built, start.direction),
        out: out.another(),
    };
    let walk = walk_over(start.alloc, &mut source, start.initials, offerer);
    out.join(&source.out);
    tell_read(out, walk, source.source.reads())
}

/// Walks over a list of the edges, as a source that logs its reads; writes the members and the number of reads. `Words` if an
/// end or a gate of an edge is no node, or `Memory`.
fn over_list(out: &Out, start: Start<'_>, offerer: &mut Asked<'_>) -> Result<(), Failure>
    requires { length start.initials.now ≡ length start.built.now.packages }
{
    let Some(source) = edges_listed(start.alloc, start.built, start.direction)? else {
        return Err(Failure::Words);
    };
    let mut source = Watched {
        source,
        out: out.another(),
    };
    let walk = walk_over(start.alloc, &mut source, start.initials, offerer);
    out.join(&source.out);
    tell_read(out, walk, source.source.reads())
}

/// Writes an explained walk and the number of its reads, or returns `Memory`.
fn tell_explained(
    out: &Out,
    walk: Result<Explained, Error<'_>>,
    reads: u128,
) -> Result<(), Failure> {
    match walk {
        Ok((walk, steps, refused)) => {
            tell_members(out, &walk.members);
            tell_steps(out, &steps, &refused);
            tell_reads(out, reads);
            Ok(())
        }
        Err(_) => Err(Failure::Memory),
    }
}

/// Walks over the graph as a source that logs its reads, and writes the walk, its steps and the refused offers. `Memory` is
/// the only error.
fn explained(out: &Out, start: Start<'_>, offerer: &mut Asked<'_>) -> Result<(), Failure>
    requires { length start.initials.now ≡ length start.built.now.packages }
{
    let mut source = Watched {
        source: Packed::new(start.built, start.direction),
        out: out.another(),
    };
    let walk = walk_explained(start.alloc, &mut source, start.initials, offerer);
    out.join(&source.out);
    tell_explained(out, walk, source.source.reads())
}

/// Makes a walk. `words` are its form (`graph`, `list`, `source`, `explained`), the direction and the rule, then the initial
/// nodes after `: `. `Words` if these can't be read, or `Memory`.
pub fn walk_from(
    out: &Out,
    alloc: Global,
    built: &FeatureGraphData,
    words: &str,
) -> Result<(), Failure> {
    let (options, nodes) = halves(words, ": ")?;
    let (over, options) = cut(options);
    let (direction, rule) = cut(options);
    let initials = initials_of(alloc, built, nodes)?;
    let start = Start {
        alloc,
        built,
        direction: direction_of(direction),
        initials: &initials,
    };
    let mut offerer = Asked {
        rule: Rule::of(rule),
        count: 0,
        out,
    };
    match over {
        "graph" => over_graph(out, start, &mut offerer),
        "list" => over_list(out, start, &mut offerer),
        "source" => over_source(out, start, &mut offerer),
        "explained" => explained(out, start, &mut offerer),
        _ => Err(Failure::Words),
    }
}

/// Writes the members of `set`, or their count if `told` is `count`; or returns `Memory`.
fn tell_reached(out: &Out, told: &str, set: Result<IxBitSet, Error<'_>>) -> Result<(), Failure> {
    match set {
        Ok(set) if told == "count" => {
            out.number("", set.count());
            out.line("");
            Ok(())
        }
        Ok(set) => {
            tell_members(out, &set);
            Ok(())
        }
        Err(_) => Err(Failure::Memory),
    }
}

/// Writes the nodes that are reached over all chosen edges, or their count if the first of `words` is `count`. The direction
/// and the choice of edges follow, then the initial nodes after `: `. `Words` if these can't be read, or `Memory`.
pub fn reach(
    out: &Out,
    alloc: Global,
    built: &FeatureGraphData,
    words: &str,
) -> Result<(), Failure> {
    let (options, nodes) = halves(words, ": ")?;
    let (told, options) = cut(options);
    let (direction, which) = cut(options);
    let choice = if which == "inside" {
        EdgeChoice::FeatureToBaseAndNamed
    } else {
        EdgeChoice::All
    };
    let initials = initials_of(alloc, built, nodes)?;
    let set = walk_all(alloc, built, direction_of(direction), &initials, choice);
    tell_reached(out, told, set)
}
