//! Calls on feature items and package ids.
use crate::shared::{Failure, Out, all_of};
use guppy_packages::{NamedFeatureDep, PackageId};
use std::alloc::Global;
use std::cmp::Ordering;

/// Writes the parts of the feature item `text`, with names in brackets. Returns no error.
pub fn item(out: &Out, text: &str) -> Result<(), Failure> {
    match NamedFeatureDep::from_cargo_string(text) {
        NamedFeatureDep::NamedFeature(name) => out.text("feature [", name),
        NamedFeatureDep::OptionalDependency(name) => out.text("dependency [", name),
        NamedFeatureDep::DependencyNamedFeature {
            dep_name,
            feature,
            weak,
        } => {
            out.part_if(weak, "weak ");
            out.text("feature [", feature);
            out.text("] of [", dep_name);
        }
    }
    out.line("]");
    Ok(())
}

/// Returns the sign of `order`, after a space.
pub fn sign(order: Ordering) -> &'static str {
    match order {
        Ordering::Less => " <",
        Ordering::Equal => " =",
        Ordering::Greater => " >",
    }
}

/// Writes the order of `id` and each of `ids`, and whether a copy of `id` is equal to it.
fn tell_id(out: &Out, alloc: Global, id: &PackageId, ids: &[PackageId]) {
    out.text(id.repr(), ":");
    for other in ids {
        out.part(sign(id.cmp(other)));
    }
    out.line("");
    match id.try_clone(alloc) {
        Ok(copy) => out.answer("copy ", copy == *id),
        Err(_) => out.part("out of memory"),
    }
    out.line("");
}

/// Compares each package id of `words` with each, and with its copy; `Memory` is the only error.
pub fn package_ids(out: &Out, alloc: Global, words: &str) -> Result<(), Failure> {
    let ids = all_of::<PackageId>(alloc, words)?;
    for id in &ids {
        tell_id(out, alloc, id, &ids);
    }
    Ok(())
}
