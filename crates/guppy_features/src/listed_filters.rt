//! Filters that extend another filter by a list of names or ids.
ghost use Rattle.std.specs.Prelude.{◌≡◌, ◌↔◌, ◌⊎◌, IsTrue, IfOk, IfErr, Contains, map};
ghost use Rattle.std.specs.List.{list_any};
ghost use Rattle.std.specs.HashSet.{contains};
ghost use Rattle.feature_labels.specs.Names.{id_of, label_of};
ghost use Rattle.guppy_features.specs.Accepted.{AddsToBase, ListsLabel, SameElements};
ghost use Rattle.guppy_features.specs.ListedFilters.{base_of_ids, base_of_names, listed_ids, listed_names};

use feature_graph::{Error, FeatureFilter, FeatureGraph};
use feature_labels::{FeatureId, FeatureLabel};
use std::alloc::{AllocError, Global};
use std::collections::HashSet;
use std::fmt;
use std::hash::{BuildHasherDefault, DefaultHasher, Hash};

/// The hasher of the lists. Its key is fixed, so items that collide can be searched for.
type Hashes = BuildHasherDefault<DefaultHasher>;

/// Returns the set of the elements of `items`.
fn set_of<T: Eq + Hash + Copy>(alloc: Global, items: &[T]) -> Result<HashSet<T, Hashes>, AllocError>
    ensures { IfOk result (λ set. (item : T) → contains T.eq set item ≡ list_any (T.eq item) items.now) }
{
    let mut set = HashSet::with_hasher(alloc, BuildHasherDefault::new());
    'items: for item in items {
        set.insert(*item)?;
    }
    Ok(set)
}

/// A filter that accepts the features that its base accepts, and the named features with a listed name.
#[derive(Drop)]
pub struct NamedFeatureFilter<'a, B> {
    base: B,
    names: HashSet<&'a str, Hashes>,
}

/// Returns the filter that accepts a feature if `base` does, or if it is a named feature whose name is in
/// `names`. The base is called for every feature. `Memory` is the only error.
pub fn named_feature_filter<'g, 'a, B: FeatureFilter<'g> + Drop>(
    alloc: Global,
    base: B,
    names: &[&'a str],
) -> Result<NamedFeatureFilter<'a, B>, Error<'static>>
    ensures base { IfOk result (λ filter. base_of_names filter ≡ base) }
    ensures names { IfOk result (λ filter. SameElements (listed_names filter) (map (λ name. name.now) names.now)) }
    ensures refused { IfErr result (λ e. e ≡ Error.Memory) }
{
    let names = set_of(alloc, names)?;
    Ok(NamedFeatureFilter { base, names })
}

impl<'a, B> NamedFeatureFilter<'a, B> {
    /// Returns true if the label is a named feature with a listed name.
    fn lists(&self, label: FeatureLabel<'_>) -> bool
        ensures { IsTrue result ↔ ListsLabel (listed_names self.now) (label_of label.entry) }
    {
        match label {
            FeatureLabel::Named(name) => self.names.contains(name),
            FeatureLabel::Base | FeatureLabel::OptionalDependency(_) => false,
        }
    }
}

impl<'g, 'a, B: FeatureFilter<'g>> FeatureFilter<'g> for NamedFeatureFilter<'a, B> {
    ghost can_accept = { λ s g i. B.can_accept (base_of_names s) g i };

    ghost accept_gives = { λ s g i r t. (listed_names t ≡ listed_names s) × AddsToBase B.accept_gives (base_of_names s) g i r (base_of_names t) (ListsLabel (listed_names s) i.1) };

    fn accept(&mut self, graph: &FeatureGraph<'g>, feature_id: FeatureId<'g>) -> bool {
        self.base.accept(graph, feature_id) || self.lists(feature_id.label())
    }
}

impl<'a, B> fmt::Debug for NamedFeatureFilter<'a, B> {
    fn fmt<W: fmt::Write>(&self, f: &mut fmt::Formatter<W>) -> fmt::Result {
        f.write_str("NamedFeatureFilter { .. }")
    }
}

/// A filter that accepts the features that its base accepts, and the features with a listed id.
#[derive(Drop)]
pub struct FeatureIdFilter<'a, B> {
    base: B,
    ids: HashSet<FeatureId<'a>, Hashes>,
}

/// Returns the filter that accepts a feature if `base` does, or if its id is in `feature_ids`. The base is
/// called for every feature. An id that the graph lacks has no effect. `Memory` is the only error.
pub fn feature_id_filter<'g, 'a, B: FeatureFilter<'g> + Drop>(
    alloc: Global,
    base: B,
    feature_ids: &[FeatureId<'a>],
) -> Result<FeatureIdFilter<'a, B>, Error<'static>>
    ensures base { IfOk result (λ filter. base_of_ids filter ≡ base) }
    ensures ids { IfOk result (λ filter. SameElements (listed_ids filter) (map id_of feature_ids.now)) }
    ensures refused { IfErr result (λ e. e ≡ Error.Memory) }
{
    let ids = set_of(alloc, feature_ids)?;
    Ok(FeatureIdFilter { base, ids })
}

impl<'a, B> FeatureIdFilter<'a, B> {
    /// Returns true if the id is listed.
    fn lists(&self, id: FeatureId<'_>) -> bool
        ensures { IsTrue result ↔ Contains (listed_ids self.now) (id_of id.entry) }
    {
        self.ids.contains(&id)
    }
}

impl<'g, 'a, B: FeatureFilter<'g>> FeatureFilter<'g> for FeatureIdFilter<'a, B> {
    ghost can_accept = { λ s g i. B.can_accept (base_of_ids s) g i };

    ghost accept_gives = { λ s g i r t. (listed_ids t ≡ listed_ids s) × AddsToBase B.accept_gives (base_of_ids s) g i r (base_of_ids t) (Contains (listed_ids s) i) };

    fn accept(&mut self, graph: &FeatureGraph<'g>, feature_id: FeatureId<'g>) -> bool {
        self.base.accept(graph, feature_id) || self.lists(feature_id)
    }
}

impl<'a, B> fmt::Debug for FeatureIdFilter<'a, B> {
    fn fmt<W: fmt::Write>(&self, f: &mut fmt::Formatter<W>) -> fmt::Result {
        f.write_str("FeatureIdFilter { .. }")
    }
}
