//! A call on a feature list that is too long for a script.
use crate::shared::{Failure, Out, number};
use feature_labels::{FeatureLabel, FeatureList};
use guppy_packages::PackageGraph;
use std::alloc::Global;

/// Returns the numbers below `bound` as names of at least five digits; `Memory` is the only error.
fn names_below(alloc: Global, bound: usize) -> Result<Vec<String>, Failure> {
    let mut names = Vec::new(alloc);
    for number in 0..bound {
        names.push(format!(in alloc; "{number:05}")?)?;
    }
    Ok(names)
}

/// Returns the named features of `names`, from the last to the first; `Memory` is the only error.
fn labels_of(alloc: Global, names: &[String]) -> Result<Vec<FeatureLabel<'_>>, Failure> {
    let mut labels = Vec::new(alloc);
    for name in names.iter().rev() {
        labels.push(FeatureLabel::Named(name.as_str()))?;
    }
    Ok(labels)
}

/// Writes the count of labels in `list`. Then writes the first name that is out of order, isn't found as a named feature, or
/// is found as an optional dependency.
fn tell_found(out: &Out, list: &FeatureList<'_>, names: &[String]) {
    out.number("", list.labels().len());
    for (name, label) in names.iter().zip(list.labels()) {
        if *label != FeatureLabel::Named(name.as_str())
            || !list.has_named_feature(name.as_str())
            || list.has_optional_dependency(name.as_str())
        {
            return out.line(name.as_str());
        }
    }
    out.line(" labels, each in order and found");
}

/// Builds the list of `names` for the first package, passing them from the last to the first, and writes its facts. `Words` if
/// `graph` is empty, or `Memory`.
fn tell(out: &Out, alloc: Global, graph: &PackageGraph, names: &[String]) -> Result<(), Failure> {
    if graph.package_count() == 0 {
        return Err(Failure::Words);
    }
    let labels = labels_of(alloc, names)?;
    let list = FeatureList::new(alloc, graph.package(0), &labels)?;
    tell_found(out, &list, names);
    Ok(())
}

/// Writes the facts about a list of the first package with as many features as the number `word`. `Words` if `word` is no
/// number or `graph` is empty, or `Memory`.
pub fn long_list(
    out: &Out,
    alloc: Global,
    graph: &PackageGraph,
    word: &str,
) -> Result<(), Failure> {
    let names = names_below(alloc, number(word)?)?;
    tell(out, alloc, graph, &names)
}
