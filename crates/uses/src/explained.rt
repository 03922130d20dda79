//! An explanation and its check: a right one, and one without the gate of an optional half.
use crate::failure::Failure;
use crate::out::Out;
use guppy_features::{
    DependencyDirection, DependencyKind, Error, Explained, FeatureGraph, FeatureId,
    LinkDeclarations, PackageId, PlatformVisitor, Reason,
};
use std::alloc::Global;

/// Prints an id and the reason why it is on.
fn show_step(out: &Out, id: FeatureId<'_>, reason: Reason<'_>) {
    out.part("step:");
    out.id(id);
    match reason {
        Reason::Initial => out.line(" initial"),
        Reason::Edge { from, to: _ } => {
            out.part(" by an edge of");
            out.id(from);
            out.line("");
        }
        Reason::Link {
            from,
            to: _,
            declarations: _,
        } => {
            out.part(" by a link of");
            out.id(from);
            out.line("");
        }
    }
}

/// Prints whether the check accepts an explanation, or returns the error of the check.
fn show_check(out: &Out, is_right: Result<bool, Error<'_>>) -> Result<(), Failure> {
    match is_right {
        Ok(true) => out.line("accepted"),
        Ok(false) => out.line("refused"),
        Err(error) => return Err(Failure::from(error)),
    }
    Ok(())
}

/// Returns the features that `id` turns on over normal dependencies, with their explanation.
fn resolved<'g>(
    alloc: Global,
    graph: FeatureGraph<'g>,
    id: FeatureId<'g>,
) -> Result<Explained<'g>, Error<'g>> {
    let query = graph.query_forward(alloc, &[id])?;
    PlatformVisitor::new(&[DependencyKind::Normal], &[]).resolve(alloc, query)
}

/// Prints the explanation of a resolve, which the check accepts.
fn show_right<'g>(
    out: &Out,
    alloc: Global,
    graph: FeatureGraph<'g>,
    id: FeatureId<'g>,
) -> Result<(), Failure> {
    let explained = resolved(alloc, graph, id)?;
    for (id, reason) in explained.steps() {
        show_step(out, *id, *reason);
    }
    let forward = DependencyDirection::Forward;
    let is_right = graph.check_explanation(alloc, forward, &[id], explained.steps());
    drop(explained);
    show_check(out, is_right)
}

/// Prints an explanation that the check refuses: the optional half of a weak item is no reason if its dependency is off.
fn show_wrong<'g>(
    out: &Out,
    alloc: Global,
    graph: FeatureGraph<'g>,
    from: FeatureId<'g>,
    to: FeatureId<'g>,
) -> Result<(), Failure> {
    let link = Reason::Link {
        from,
        to,
        declarations: LinkDeclarations::Optional,
    };
    let steps = [(from, Reason::Initial), (to, link)];
    let forward = DependencyDirection::Forward;
    show_check(
        out,
        graph.check_explanation(alloc, forward, &[from], &steps),
    )
}

/// Prints the features that a weak item turns on, with their explanation and its check.
pub fn show(out: &Out, alloc: Global, graph: FeatureGraph<'_>) -> Result<(), Failure> {
    let main = PackageId::new(alloc, "main")?;
    let sv = PackageId::new(alloc, "sv")?;
    let from = FeatureId::named(&main, "smallvec-union");
    let to = FeatureId::named(&sv, "union");
    show_right(out, alloc, graph, from)?;
    show_wrong(out, alloc, graph, from, to)
}
