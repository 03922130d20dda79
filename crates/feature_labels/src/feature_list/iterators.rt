//! Iterators over a list of features. A contract sees each as the list of its remaining items.
ghost use Rattle.std.specs.Prelude.{◌≡◌, IsSome, IfSome, Some, length, map};
ghost use Rattle.std.specs.List.{filter_map};
ghost use Rattle.std.specs.Iterator.{YieldsFirstBy, UpTo, item_count};
ghost use Rattle.std.specs.Iterator.SizeHint.{IsWithinCount};
ghost use Rattle.feature_labels.specs.Names.{id_of, label_of};
ghost use Rattle.feature_labels.specs.Lists.{ids_of_labels, name_if_named, name_if_optional};

use crate::feature_id::FeatureId;
use crate::feature_label::FeatureLabel;
use crate::feature_list::FeatureList;
use guppy_packages::PackageId;
use std::iter::FusedIterator;
use std::marker::Model;
use std::{slice, vec};

/// An iterator over the ids of a borrowed list, in the order of the labels.
#[derive(Drop)]
pub struct Iter<'g, 'a> {
    package_id: &'g PackageId,
    labels: slice::Iter<'a, FeatureLabel<'g>>,
}

impl<'g, 'a> Model for Iter<'g, 'a> {
    ghost use Rattle.std.specs.Prelude.{List, map};
    ghost use Rattle.std.specs.Slice.Iter.{iter_rest};
    ghost use Rattle.guppy_packages.specs.Rows.{Text};
    ghost use Rattle.feature_labels.specs.Names.{LabelName};

    ghost Value = { List (Text × LabelName) };

    ghost use Rattle.feature_labels.specs.Names.{label_of};
    ghost use Rattle.feature_labels.specs.Lists.{ids_of_labels};

    ghost view = { λ it. ids_of_labels it.package_id.now (map label_of (iter_rest it.labels)) };
}

impl<'g, 'a> Iter<'g, 'a> {
    /// Returns an iterator over the ids of `feature_list`.
    pub fn new(feature_list: &'a FeatureList<'g>) -> Self
        ensures { result ≡ ids_of_labels feature_list.now.package_id feature_list.now.labels }
    {
        Iter {
            package_id: feature_list.package().id(),
            labels: feature_list.labels().iter(),
        }
    }
}

impl<'g, 'a> Iterator for Iter<'g, 'a> {
    type Item = FeatureId<'g>;

    ghost next_gives = { YieldsFirstBy id_of (λ rest. rest) };

    ghost remaining = { item_count (λ rest. rest) };

    fn next(&mut self) -> Option<FeatureId<'g>> {
        let label = self.labels.next()?;
        Some(FeatureId::new(self.package_id, *label))
    }

    fn size_hint(&self) -> (usize, Option<usize>)
        ensures lower { IsWithinCount result.0 (item_count (λ rest. rest) self.now) }
        ensures upper { IfSome result.1 (UpTo (item_count (λ rest. rest) self.now)) }
        ensures exact { result ≡ (length self.now, Some (length self.now)) }
    {
        let len = self.len();
        (len, Some(len))
    }
}

impl<'g, 'a> ExactSizeIterator for Iter<'g, 'a> {
    fn len(&self) -> usize {
        self.labels.len()
    }
}

impl<'g, 'a> FusedIterator for Iter<'g, 'a> {}

impl<'g, 'a> IntoIterator for &'a FeatureList<'g> {
    type Item = FeatureId<'g>;

    type IntoIter = Iter<'g, 'a>;

    ghost into_iter_gives = { λ list it. it ≡ ids_of_labels list.now.package_id list.now.labels };

    fn into_iter(self) -> Iter<'g, 'a> {
        Iter::new(self)
    }
}

/// An iterator over the ids of an owned list, in the order of the labels.
#[derive(Drop)]
pub struct IntoIter<'g> {
    package_id: &'g PackageId,
    labels: vec::IntoIter<FeatureLabel<'g>>,
}

impl<'g> Model for IntoIter<'g> {
    ghost use Rattle.std.specs.Prelude.{List, map};
    ghost use Rattle.std.specs.Vec.Iter.{into_iter_items};
    ghost use Rattle.guppy_packages.specs.Rows.{Text};
    ghost use Rattle.feature_labels.specs.Names.{LabelName};

    ghost Value = { List (Text × LabelName) };

    ghost use Rattle.feature_labels.specs.Names.{label_of};
    ghost use Rattle.feature_labels.specs.Lists.{ids_of_labels};

    ghost view = { λ it. ids_of_labels it.package_id.now (map label_of (into_iter_items it.labels)) };
}

impl<'g> IntoIter<'g> {
    /// Returns an iterator over the ids of `feature_list`.
    pub fn new(feature_list: FeatureList<'g>) -> Self
        ensures { result ≡ ids_of_labels feature_list.entry.package_id feature_list.entry.labels }
    {
        IntoIter {
            package_id: feature_list.package().id(),
            labels: feature_list.into_labels().into_iter(),
        }
    }
}

impl<'g> Iterator for IntoIter<'g> {
    type Item = FeatureId<'g>;

    ghost next_gives = { YieldsFirstBy id_of (λ rest. rest) };

    ghost remaining = { item_count (λ rest. rest) };

    fn next(&mut self) -> Option<FeatureId<'g>> {
        let label = self.labels.next()?;
        Some(FeatureId::new(self.package_id, label))
    }

    fn size_hint(&self) -> (usize, Option<usize>)
        ensures lower { IsWithinCount result.0 (item_count (λ rest. rest) self.now) }
        ensures upper { IfSome result.1 (UpTo (item_count (λ rest. rest) self.now)) }
        ensures exact { result ≡ (length self.now, Some (length self.now)) }
    {
        let len = self.len();
        (len, Some(len))
    }
}

impl<'g> ExactSizeIterator for IntoIter<'g> {
    fn len(&self) -> usize {
        self.labels.len()
    }
}

impl<'g> FusedIterator for IntoIter<'g> {}

impl<'g> IntoIterator for FeatureList<'g> {
    type Item = FeatureId<'g>;

    type IntoIter = IntoIter<'g>;

    ghost into_iter_gives = { λ list it. it ≡ ids_of_labels list.package_id list.labels };

    fn into_iter(self) -> IntoIter<'g> {
        IntoIter::new(self)
    }
}

/// An iterator over the names of a list's named features, ascending.
#[derive(Drop)]
pub struct NamedFeatures<'g, 'a> {
    labels: slice::Iter<'a, FeatureLabel<'g>>,
}

impl<'g, 'a> Model for NamedFeatures<'g, 'a> {
    ghost use Rattle.std.specs.Prelude.{List, map};
    ghost use Rattle.std.specs.List.{filter_map};
    ghost use Rattle.std.specs.Slice.Iter.{iter_rest};
    ghost use Rattle.guppy_packages.specs.Rows.{Text};

    ghost Value = { List Text };

    ghost use Rattle.feature_labels.specs.Names.{label_of};
    ghost use Rattle.feature_labels.specs.Lists.{name_if_named};

    ghost view = { λ it. filter_map name_if_named (map label_of (iter_rest it.labels)) };
}

impl<'g, 'a> NamedFeatures<'g, 'a> {
    pub(crate) fn new(labels: &'a [FeatureLabel<'g>]) -> Self
        ensures { result ≡ filter_map name_if_named (map label_of labels.now) }
    {
        NamedFeatures {
            labels: labels.iter(),
        }
    }
}

impl<'g, 'a> Iterator for NamedFeatures<'g, 'a> {
    type Item = &'g str;

    ghost next_gives = { YieldsFirstBy (λ name. name.now) (λ rest. rest) };

    ghost remaining = { item_count (λ rest. rest) };

    fn next(&mut self) -> Option<&'g str> {
        while let Some(label) = self.labels.next() {
            if let FeatureLabel::Named(feature_name) = label {
                return Some(feature_name);
            }
        }
        None
    }

    fn size_hint(&self) -> (usize, Option<usize>)
        ensures lower { IsWithinCount result.0 (item_count (λ rest. rest) self.now) }
        ensures upper { IfSome result.1 (UpTo (item_count (λ rest. rest) self.now)) }
        ensures bounded { IsSome result.1 }
    {
        (0, Some(self.labels.len()))
    }
}

impl<'g, 'a> FusedIterator for NamedFeatures<'g, 'a> {}

/// An iterator over the names of a list's optional dependencies, ascending.
#[derive(Drop)]
pub struct OptionalDeps<'g, 'a> {
    labels: slice::Iter<'a, FeatureLabel<'g>>,
}

impl<'g, 'a> Model for OptionalDeps<'g, 'a> {
    ghost use Rattle.std.specs.Prelude.{List, map};
    ghost use Rattle.std.specs.List.{filter_map};
    ghost use Rattle.std.specs.Slice.Iter.{iter_rest};
    ghost use Rattle.guppy_packages.specs.Rows.{Text};

    ghost Value = { List Text };

    ghost use Rattle.feature_labels.specs.Names.{label_of};
    ghost use Rattle.feature_labels.specs.Lists.{name_if_optional};

    ghost view = { λ it. filter_map name_if_optional (map label_of (iter_rest it.labels)) };
}

impl<'g, 'a> OptionalDeps<'g, 'a> {
    pub(crate) fn new(labels: &'a [FeatureLabel<'g>]) -> Self
        ensures { result ≡ filter_map name_if_optional (map label_of labels.now) }
    {
        OptionalDeps {
            labels: labels.iter(),
        }
    }
}

impl<'g, 'a> Iterator for OptionalDeps<'g, 'a> {
    type Item = &'g str;

    ghost next_gives = { YieldsFirstBy (λ name. name.now) (λ rest. rest) };

    ghost remaining = { item_count (λ rest. rest) };

    fn next(&mut self) -> Option<&'g str> {
        while let Some(label) = self.labels.next() {
            if let FeatureLabel::OptionalDependency(dep_name) = label {
                return Some(dep_name);
            }
        }
        None
    }

    fn size_hint(&self) -> (usize, Option<usize>)
        ensures lower { IsWithinCount result.0 (item_count (λ rest. rest) self.now) }
        ensures upper { IfSome result.1 (UpTo (item_count (λ rest. rest) self.now)) }
        ensures bounded { IsSome result.1 }
    {
        (0, Some(self.labels.len()))
    }
}

impl<'g, 'a> FusedIterator for OptionalDeps<'g, 'a> {}
