//! The difference of two sets: the features that default features add, package by package.
ghost use Rattle.std.specs.Prelude.{◌↔◌, ℕ, IsTrue, IfOk};
ghost use Rattle.guppy_features.specs.digraphs.Bits.{has};
ghost use Rattle.guppy_features.specs.feature_labels.Names.{id_of};
ghost use Rattle.guppy_features.specs.feature_graph.Views.{tables_of_graph};
ghost use Rattle.uses.specs.Answers.{IsLedTo};

use crate::brings_in::brings_in;
use crate::failure::Failure;
use crate::out::Out;
use guppy_features::{
    DependencyDirection, Error, FeatureGraph, FeatureId, FeatureList, FeatureSet, PackageId,
};
use std::alloc::Global;

/// Returns the features to which `first` leads and `second` doesn't.
pub fn besides<'g, 'a>(
    alloc: Global,
    graph: FeatureGraph<'g>,
    first: FeatureId<'a>,
    second: FeatureId<'a>,
) -> Result<FeatureSet<'g>, Error<'a>>
    ensures { IfOk result (λ set. (n : ℕ) → IsTrue (has set.members n)
        ↔ (IsLedTo (tables_of_graph graph.entry) DependencyDirection.Forward (id_of first.entry) n
        × ¬ IsLedTo (tables_of_graph graph.entry) DependencyDirection.Forward (id_of second.entry) n)) }
{
    let with = brings_in(alloc, graph, first)?;
    let without = brings_in(alloc, graph, second)?;
    let rest = with.difference(alloc, &without);
    drop(with);
    drop(without);
    rest
}

/// Prints the features of `list` on a line, after their package.
fn show_list(out: &Out, list: Result<FeatureList<'_>, Error<'_>>) -> Result<(), Failure> {
    match list {
        Ok(list) => {
            out.part(list.package().id().repr());
            out.part(": ");
            out.line(list.display_features());
            drop(list);
            Ok(())
        }
        Err(error) => Err(Failure::from(error)),
    }
}

/// Prints the features of `set`, a line for each package that has one.
fn show_by_package(out: &Out, alloc: Global, set: &FeatureSet<'_>) -> Result<(), Failure> {
    for list in set.packages_with_features(alloc, DependencyDirection::Forward) {
        show_list(out, list)?;
    }
    Ok(())
}

/// Prints the features of `set` on one line, and then by package; or returns the error of `set`.
fn show_set(
    out: &Out,
    alloc: Global,
    set: Result<FeatureSet<'_>, Error<'_>>,
) -> Result<(), Failure> {
    match set {
        Ok(set) => {
            out.members("by default features", &set);
            let shown = show_by_package(out, alloc, &set);
            drop(set);
            shown
        }
        Err(error) => Err(Failure::from(error)),
    }
}

/// Prints the features that an application's default features add.
pub fn show(out: &Out, alloc: Global, graph: FeatureGraph<'_>) -> Result<(), Failure> {
    let app = PackageId::new(alloc, "app")?;
    let default = FeatureId::named(&app, "default");
    let set = besides(alloc, graph, default, FeatureId::base(&app));
    show_set(out, alloc, set)
}
