//! The output of `build`: each feature that is on, with the reason.
ghost use Rattle.std.specs.Prelude.{◌≡◌, ◌++◌, IfOk, OnOk, map};
ghost use Rattle.std.specs.String.{string_bytes};
ghost use Rattle.guppy_packages.specs.Rows.{texts};
ghost use Rattle.feature_graph.specs.Told.{step_name};
ghost use Rattle.feature_core.specs.Built.{IsBuilt};
ghost use Rattle.guppy_tool.specs.Words.{given_of};
ghost use Rattle.guppy_tool.specs.Words.CommandText.{build};
ghost use Rattle.guppy_tool.specs.Answers.{IsOutput, declarations_word, step_line, step_lines};
ghost use Rattle.guppy_tool.specs.Run.{GivesAnswer};

use crate::fault::Fault;
use crate::resolving::queried;
use crate::words::GivenId;
use feature_core::graph_laws::{edges_say, one_content};
use guppy_features::{
    FeatureGraphData, FeatureGraphExt, FeatureId, LinkDeclarations, PlatformVisitor, Reason,
};
use guppy_packages::{DependencyDirection, DependencyKind, PackageGraph};
use std::alloc::{AllocError, Global};

/// Returns the word for the declarations that a link covers.
fn word_of(declarations: LinkDeclarations) -> &'static str
    ensures { result.now ≡ declarations_word declarations }
{
    match declarations {
        LinkDeclarations::Unsplit => "unsplit",
        LinkDeclarations::Required => "required",
        LinkDeclarations::Optional => "optional",
    }
}

/// Appends the line of one step: the id, the reason and its source, with tabs between them.
fn push_step(text: &mut String, id: FeatureId<'_>, reason: Reason<'_>) -> Result<(), AllocError>
    ensures { OnOk result (string_bytes text.new ≡ string_bytes text.old ++ step_line (step_name (id.entry, reason.entry))) }
{
    match reason {
        Reason::Initial => writeln!(text, "{id}\tinitial"),
        Reason::Edge { from, .. } => writeln!(text, "{id}\tedge\t{from}"),
        Reason::Link {
            from,
            declarations,
            ..
        } => writeln!(text, "{id}\tlink\t{from}\t{}", word_of(declarations)),
    }
}

/// Returns the lines of `steps`, in their order.
fn lines_of(alloc: Global, steps: &[(FeatureId<'_>, Reason<'_>)]) -> Result<Vec<u8>, AllocError>
    ensures { IfOk result (λ text. text.items ≡ step_lines (map step_name steps.now)) }
{
    let mut text = String::new(alloc);
    for step in steps {
        push_step(&mut text, step.0, step.1)?;
    }
    Ok(text.into_bytes())
}

/// Returns a line for each feature that `given` turns on, with the reason, for the dependency kinds `kinds` and the
/// platform specs `specs`. The error is `UnknownFeature` with the first unknown id of `given`, or `Memory`.
pub fn explained(
    alloc: Global,
    graph: &PackageGraph,
    built: &FeatureGraphData,
    kinds: &[DependencyKind],
    given: &[GivenId],
    specs: &[&str],
) -> Result<Vec<u8>, Fault>
    requires { IsBuilt graph.now built.now }
    ensures { GivesAnswer (λ text. text.items) result (IsOutput (build kinds.now (map given_of given.now) (texts specs.now)) graph.now) }
{
    let query = queried(
        alloc,
        graph.feature_graph(built),
        DependencyDirection::Forward,
        given,
    )?;
    one_content(graph);
    edges_say(graph);
    let Ok(found) = PlatformVisitor::new(kinds, specs).resolve(alloc, query) else {
        return Err(Fault::Memory);
    };
    Ok(lines_of(alloc, found.steps())?)
}
