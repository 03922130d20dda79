//! The output of `list` and `warnings`: the features of one package, and the warnings of a build.
ghost use Rattle.std.specs.Prelude.{◌≡◌, ◌++◌, ◌∷◌, [], IfOk, IfErr, OnOk, map};
ghost use Rattle.std.specs.String.{string_bytes};
ghost use Rattle.feature_core.specs.Errors.{refusal_of as graph_refusal_of};
ghost use Rattle.feature_core.specs.Warnings.{warning_of, warnings};
ghost use Rattle.feature_labels.specs.Lists.{joined};
ghost use Rattle.feature_graph.specs.Names.{ListsPackage, RefusesPackage};
ghost use Rattle.feature_core.specs.Built.{IsBuilt};
ghost use Rattle.guppy_tool.specs.Answers.{IsOutput, IsPackageToldAs, warning_line, warning_lines, MayRefusePackage};
ghost use Rattle.guppy_tool.specs.Faults.{refusal_of};
ghost use Rattle.guppy_tool.specs.Run.{GivesAnswer};
ghost use Rattle.guppy_tool.specs.Words.CommandText.{all_warnings, list_of};

use crate::fault::Fault;
use feature_labels::FeatureList;
use guppy_features::{Error, FeatureGraphData, FeatureGraphExt, FeatureGraphWarning};
use guppy_packages::{PackageGraph, PackageId};
use std::alloc::{AllocError, Global};

/// Returns the fault for an error of a package look-up.
fn fault_of(alloc: Global, error: Error<'_>) -> Fault
    requires { MayRefusePackage (graph_refusal_of error) }
    ensures { IsPackageToldAs (refusal_of result) (graph_refusal_of error.entry) }
{
    match error {
        Error::UnknownPackageId(id) => match String::from_str(alloc, id.repr()) {
            Ok(id) => Fault::UnknownPackage { id },
            Err(_) => Fault::Memory,
        },
        Error::Memory => Fault::Memory,
        Error::UnknownFeatureId(_) | Error::FeatureGraphInternalError { .. } => unreachable!(),
    }
}

/// Returns the line of the labels in `labels`.
fn line_of(alloc: Global, labels: &FeatureList<'_>) -> Result<Vec<u8>, AllocError>
    ensures { IfOk result (λ text. text.items ≡ joined labels.now.labels ++ 10 ∷ []) }
{
    let mut text = String::new(alloc);
    writeln!(text, "{}", labels.display_features())?;
    Ok(text.into_bytes())
}

/// Returns the line of the package's labels. The error is `UnknownPackage` if no package has this id, or `Memory`.
pub fn listed(
    alloc: Global,
    graph: &PackageGraph,
    built: &FeatureGraphData,
    package_id: &PackageId,
) -> Result<Vec<u8>, Fault>
    requires { IsBuilt graph.now built.now }
    ensures { GivesAnswer (λ text. text.items) result (IsOutput (list_of package_id.now) graph.now) }
{
    graph.facts();
    match graph
        .feature_graph(built)
        .all_features_for(alloc, package_id)
    {
        Ok(labels) => Ok(line_of(alloc, &labels)?),
        Err(error) => Err(fault_of(alloc, error)),
    }
}

/// Appends the line of one warning.
fn push_warning(text: &mut String, warning: &FeatureGraphWarning) -> Result<(), AllocError>
    ensures { OnOk result (string_bytes text.new ≡ string_bytes text.old ++ warning_line (warning_of warning.now)) }
{
    match warning {
        FeatureGraphWarning::MissingFeature {
            package_id,
            feature_name,
        } => writeln!(text, "missing\t{package_id}\t{feature_name}"),
        FeatureGraphWarning::SelfLoop {
            package_id,
            feature_name,
        } => writeln!(text, "self-loop\t{package_id}\t{feature_name}"),
    }
}

/// Returns the lines of the warnings in `found`, in their order.
fn lines_of(alloc: Global, found: &[FeatureGraphWarning]) -> Result<Vec<u8>, AllocError>
    ensures { IfOk result (λ text. text.items ≡ warning_lines (map warning_of found.now)) }
{
    let mut text = String::new(alloc);
    for warning in found {
        push_warning(&mut text, warning)?;
    }
    Ok(text.into_bytes())
}

/// Returns the lines of the warnings from building the feature graph of `graph`.
pub fn warned(
    alloc: Global,
    graph: &PackageGraph,
    built: &FeatureGraphData,
) -> Result<Vec<u8>, Fault>
    requires { IsBuilt graph.now built.now }
    ensures { GivesAnswer (λ text. text.items) result (IsOutput all_warnings graph.now) }
{
    Ok(lines_of(alloc, graph.feature_graph(built).build_warnings())?)
}
