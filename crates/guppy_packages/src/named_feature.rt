//! A named feature of a package.
ghost use Rattle.std.specs.Prelude.{◌≡◌, ◌<◌, Some, length, slice_get};

use crate::text_run::TextRun;
use indexmap::Equivalent;
use std::fmt;
use std::hash::{Hash, Hasher};

/// A named feature with its items. Names are distinct within a package, so equality compares names only.
///
/// The name and the items are consecutive texts of a list, which all features of a graph share.
#[derive(Drop)]
pub struct NamedFeature {
    texts: TextRun,
    ghost named: { 0 < length texts },
}

impl NamedFeature {
    ghost use Rattle.guppy_packages.specs.NamedFeature.{feature_table, table_of_texts};

    /// Returns the feature with these texts: its name, followed by its items.
    pub(crate) fn new(texts: TextRun) -> NamedFeature
        requires { 0 < length texts }
        ensures { feature_table result ≡ table_of_texts texts }
    {
        NamedFeature { texts }
    }

    /// Returns the feature's name.
    pub fn name(&self) -> &str
        ensures { result.now ≡ (feature_table self.now).name }
    {
        self.texts.first()
    }

    /// Returns the number of items.
    pub fn item_count(&self) -> usize
        ensures { result ≡ length (feature_table self.now).items }
    {
        self.texts.len() - 1
    }

    /// Returns the text of item `ix`, in row order.
    pub fn item(&self, ix: usize) -> &str
        requires { ix < length (feature_table self.now).items }
        ensures { slice_get (feature_table self.now).items ix ≡ Some result.now }
    {
        self.texts.later(ix)
    }
}

impl PartialEq for NamedFeature {
    ghost use Rattle.guppy_packages.specs.NamedFeature.{name_text};
    ghost use Rattle.std.specs.Str.{bytes_eq};
    ghost use Rattle.std.specs.Cmp.{on_per, partial_equiv_from_equiv};
    ghost use Rattle.std.specs.Cmp.Lexicographic.{nat_list_eq_equiv};

    ghost eq = { λ x y. bytes_eq (name_text x) (name_text y) };

    ghost laws = { on_per name_text (partial_equiv_from_equiv nat_list_eq_equiv) };

    fn eq(&self, other: &NamedFeature) -> bool {
        self.name() == other.name()
    }
}

impl Eq for NamedFeature {
    ghost use Rattle.guppy_packages.specs.NamedFeature.{name_text};
    ghost use Rattle.std.specs.Cmp.{on_equiv};
    ghost use Rattle.std.specs.Cmp.Lexicographic.{nat_list_eq_equiv};

    ghost laws = { on_equiv name_text nat_list_eq_equiv };
}

impl Hash for NamedFeature {
    ghost use Rattle.guppy_packages.specs.NamedFeature.{name_text};
    ghost use Rattle.std.specs.Cmp.Lexicographic.{bytes_decides};
    ghost use Rattle.std.specs.Hash as fed;
    ghost use Rattle.std.proofs.Common.{ap};

    ghost hash_input = { λ f. fed.str (name_text f) };

    ghost respects_eq = { λ x y h. ap fed.str ((bytes_decides (name_text x) (name_text y)).0 h) };

    fn hash<H: Hasher>(&self, state: &mut H) {
        self.name().hash(state);
    }
}

impl Equivalent<NamedFeature> for &str {
    ghost use Rattle.guppy_packages.specs.NamedFeature.{name_text};
    ghost use Rattle.std.specs.Str.{bytes_eq};
    ghost use Rattle.std.specs.Cmp.Lexicographic.{bytes_decides, nat_list_eq_equiv};
    ghost use Rattle.std.specs.Hash as fed;
    ghost use Rattle.std.proofs.Common.{ap};

    ghost equivalent = { λ name f. bytes_eq name.now (name_text f) };

    ghost respects_hash = { λ name f h. ap fed.str ((bytes_decides name.now (name_text f)).0 h) };

    ghost respects_eq = { λ name f g. nat_list_eq_equiv.congr name.now (name_text f) (name_text g) };

    fn equivalent(&self, key: &NamedFeature) -> bool {
        *self == key.name()
    }
}

impl fmt::Debug for NamedFeature {
    fn fmt<W: fmt::Write>(&self, f: &mut fmt::Formatter<W>) -> fmt::Result {
        let mut told = f.debug_tuple("NamedFeature");
        told.field(&self.name());
        for ix in 0..self.item_count() {
            told.field(&self.item(ix));
        }
        told.finish()
    }
}
