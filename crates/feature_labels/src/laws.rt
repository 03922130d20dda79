//! Laws of ids, labels and kinds: they are compared and hashed by value, wherever their texts are stored.
ghost use Rattle.std.specs.Prelude.{◌≡◌, ◌↔◌, IsTrue};
ghost use Rattle.std.specs.Cmp.{IsTotalOrder};
ghost use Rattle.feature_labels.specs.Names.{label_of, label_cmp, id_of, id_cmp, kind_cmp};

use crate::feature_id::FeatureId;
use crate::feature_label::{FeatureKind, FeatureLabel};
use std::cmp::Ordering;
use std::hash::Hash;

/// Compares two labels: they are equal if and only if their kinds and names are.
pub fn label_equality(a: FeatureLabel<'_>, b: FeatureLabel<'_>) -> bool
    ensures { IsTrue result ↔ (label_of a.entry ≡ label_of b.entry) }
{
    a == b
}

/// Orders labels by kind, and labels of one kind by the bytes of their names.
pub fn label_order(a: FeatureLabel<'_>, b: FeatureLabel<'_>) -> Ordering
    ensures { result ≡ label_cmp (label_of a.entry) (label_of b.entry) }
{
    a.cmp(&b)
}

/// States that equal labels make the same writes to a hasher.
pub fn label_hash(a: FeatureLabel<'_>, b: FeatureLabel<'_>)
    ensures { label_of a.entry ≡ label_of b.entry →
        ⟦<FeatureLabel<'static> as Hash>⟧.hash_input a.entry ≡ ⟦<FeatureLabel<'static> as Hash>⟧.hash_input b.entry }
{}

/// States that the order of labels is total.
pub fn label_order_is_total()
    ensures { IsTotalOrder label_cmp }
{}

/// Compares two kinds: they are equal if and only if they are the same variant.
pub fn kind_equality(a: FeatureKind, b: FeatureKind) -> bool
    ensures { IsTrue result ↔ (a ≡ b) }
{
    a == b
}

/// Orders kinds as labels: the base, named features, optional dependencies.
pub fn kind_order(a: FeatureKind, b: FeatureKind) -> Ordering
    ensures { result ≡ kind_cmp a b }
{
    a.cmp(&b)
}

/// States that equal kinds make the same writes to a hasher.
pub fn kind_hash(a: FeatureKind, b: FeatureKind)
    ensures { a ≡ b → ⟦<FeatureKind as Hash>⟧.hash_input a ≡ ⟦<FeatureKind as Hash>⟧.hash_input b }
{}

/// States that the order of kinds is total.
pub fn kind_order_is_total()
    ensures { IsTotalOrder kind_cmp }
{}

/// Compares two ids: they are equal if and only if their packages' ids and their labels are.
pub fn id_equality(a: FeatureId<'_>, b: FeatureId<'_>) -> bool
    ensures { IsTrue result ↔ (id_of a.entry ≡ id_of b.entry) }
{
    a == b
}

/// Orders ids by the bytes of the package's id, then by label.
pub fn id_order(a: FeatureId<'_>, b: FeatureId<'_>) -> Ordering
    ensures { result ≡ id_cmp (id_of a.entry) (id_of b.entry) }
{
    a.cmp(&b)
}

/// States that equal ids make the same writes to a hasher.
pub fn id_hash(a: FeatureId<'_>, b: FeatureId<'_>)
    ensures { id_of a.entry ≡ id_of b.entry →
        ⟦<FeatureId<'static> as Hash>⟧.hash_input a.entry ≡ ⟦<FeatureId<'static> as Hash>⟧.hash_input b.entry }
{}

/// States that the order of ids is total.
pub fn id_order_is_total()
    ensures { IsTotalOrder id_cmp }
{}
