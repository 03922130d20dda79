//! Calls on the specs of a package graph.
use crate::platforms::Start;
use crate::shared::{Failure, Given, all_of, halves, ids_of, kinds_of};
use crate::surface::tell_counted;
use guppy_features::graph_platforms::{PlatformFault, held_specs, resolve_for};
use guppy_features::{DependencyKind, Error, FeatureId, FeatureQuery};

/// Writes the first malformed spec.
fn tell_fault(start: Start<'_>, fault: PlatformFault<'_>) -> Result<(), Failure> {
    match fault {
        PlatformFault::Memory => Err(Failure::Memory),
        PlatformFault::Malformed { spec, at } => {
            start.out.number("malformed at ", at);
            start.out.text(": ", spec);
            start.out.line("");
            Ok(())
        }
    }
}

/// Writes the spec texts of the graph that hold.
pub fn held(start: Start<'_>) -> Result<(), Failure> {
    match held_specs(start.alloc, start.graph.package_graph(), start.target) {
        Ok(texts) => {
            for text in &texts {
                start.out.line(text);
            }
            Ok(())
        }
        Err(fault) => tell_fault(start, fault),
    }
}

/// Writes the features that are on for the target.
fn tell_on(
    start: Start<'_>,
    query: FeatureQuery<'_>,
    kinds: &[DependencyKind],
) -> Result<(), Failure> {
    match resolve_for(start.alloc, query, kinds, start.target) {
        Ok(explained) => {
            tell_counted(start.out, ":", explained.set().ids_by_node());
            drop(explained);
            Ok(())
        }
        Err(fault) => tell_fault(start, fault),
    }
}

/// Resolves from these features. A feature that the graph lacks is `Words`.
fn from_ids(
    start: Start<'_>,
    ids: &[FeatureId<'_>],
    kinds: &[DependencyKind],
) -> Result<(), Failure> {
    match start.graph.query_forward(start.alloc, ids) {
        Ok(query) => tell_on(start, query, kinds),
        Err(Error::Memory) => Err(Failure::Memory),
        Err(_) => Err(Failure::Words),
    }
}

/// Resolves from the features that `words` name.
fn from_words(start: Start<'_>, words: &str, kinds: &[DependencyKind]) -> Result<(), Failure> {
    let given = all_of::<Given<'_>>(start.alloc, words)?;
    let ids = ids_of(start.alloc, &mut given.iter())?;
    from_ids(start, &ids, kinds)
}

/// Resolves for the kinds before `: `, from the features after it.
pub fn on(start: Start<'_>, words: &str) -> Result<(), Failure> {
    let (kinds, words) = halves(words, ": ")?;
    let kinds = kinds_of(start.alloc, kinds)?;
    from_words(start, words, &kinds)
}
