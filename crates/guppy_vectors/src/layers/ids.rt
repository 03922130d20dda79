//! Calls on feature ids.
use crate::layers::names::sign;
use crate::shared::{Failure, Out, label_of, parts};
use feature_labels::{FeatureId, FeatureLabel, LinkDeclarations};
use guppy_packages::PackageId;
use std::alloc::Global;
use std::hash::{DefaultHasher, Hash, Hasher};

/// Returns the id of `package` and `label`, made by the constructor for the kind of `label`.
fn constructed<'g>(package: &'g PackageId, label: FeatureLabel<'g>) -> FeatureId<'g> {
    match label {
        FeatureLabel::Base => FeatureId::base(package),
        FeatureLabel::Named(name) => FeatureId::named(package, name),
        FeatureLabel::OptionalDependency(name) => FeatureId::optional_dependency(package, name),
    }
}

/// Writes `id` and its kind, and whether two constructors return the same id from its parts.
fn tell_id(out: &Out, id: FeatureId<'_>) {
    let package = id.package_id();
    out.shown(id);
    out.part_if(id.is_base(), ", base");
    out.part_if(id.is_named(), ", named");
    out.part_if(id.is_optional_dependency(), ", optional");
    out.answer(", again ", constructed(package, id.label()) == id);
    out.answer_line(" ", FeatureId::from((package, id.label())) == id);
}

/// Writes the facts about the id that `word` names; `Memory` is the only error.
pub fn id(out: &Out, alloc: Global, word: &str) -> Result<(), Failure> {
    let (package, label) = parts(word);
    let package = PackageId::new(alloc, package)?;
    tell_id(out, FeatureId::new(&package, label_of(label)));
    Ok(())
}

/// Returns the hash of `id`.
fn hash_of(id: FeatureId<'_>) -> u64 {
    let mut hasher = DefaultHasher::new();
    id.hash(&mut hasher);
    hasher.finish()
}

/// Writes the order of `id` and `other`, and whether they and their hashes are equal.
fn tell_compared(out: &Out, id: FeatureId<'_>, other: FeatureId<'_>) {
    out.shown(id);
    out.text(sign(id.cmp(&other)), " ");
    out.shown(other);
    out.answer(", equal ", id == other);
    out.answer_line(", alike ", hash_of(id) == hash_of(other));
}

/// Compares the two ids that `words` name, or a single one with itself; `Memory` is the only error.
pub fn compare(out: &Out, alloc: Global, words: &str) -> Result<(), Failure> {
    let (word, other) = words.split_once(' ').unwrap_or((words, words));
    let (id, label) = parts(word);
    let (other_id, other_label) = parts(other);
    let id = PackageId::new(alloc, id)?;
    let other_id = PackageId::new(alloc, other_id)?;
    tell_compared(
        out,
        FeatureId::new(&id, label_of(label)),
        FeatureId::new(&other_id, label_of(other_label)),
    );
    Ok(())
}

/// Writes the declarations that each kind of link covers. Returns no error.
pub fn covered(out: &Out) -> Result<(), Failure> {
    for link in [
        LinkDeclarations::Unsplit,
        LinkDeclarations::Required,
        LinkDeclarations::Optional,
    ] {
        out.debug(link);
        out.answer(": required ", link.includes_required());
        out.answer_line(", optional ", link.includes_optional());
    }
    Ok(())
}
