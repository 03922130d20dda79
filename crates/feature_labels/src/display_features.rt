//! Printing of a list of labels.
ghost use Rattle.std.specs.Prelude.{◌≡◌, Some, map};
ghost use Rattle.feature_labels.specs.Lists.{joined, labels_shown};
ghost use Rattle.feature_labels.specs.Names.{label_of};

use crate::feature_label::FeatureLabel;
use std::fmt;

/// A wrapper that prints labels with `, ` between neighbours, and nothing if there are none.
///
/// `FeatureList::display_features` returns it.
#[derive(Clone, Copy)]
pub struct DisplayFeatures<'g, 'a>(&'a [FeatureLabel<'g>]);

impl<'g, 'a> DisplayFeatures<'g, 'a> {
    pub(crate) fn new(labels: &'a [FeatureLabel<'g>]) -> Self
        ensures { labels_shown result ≡ map label_of labels.now }
    {
        DisplayFeatures(labels)
    }
}

impl fmt::Display for DisplayFeatures<'_, '_> {
    ghost output = { λ shown. Some (joined (labels_shown shown)) };

    fn fmt<W: fmt::Write>(&self, f: &mut fmt::Formatter<W>) -> fmt::Result {
        let Some((first, rest)) = self.0.split_first() else {
            return Ok(());
        };
        write!(f, "{first}")?;
        'rest: for label in rest {
            write!(f, ", {label}")?;
        }
        Ok(())
    }
}

/// Prints the same as `Display`, which is easier to read than the labels' structure.
impl fmt::Debug for DisplayFeatures<'_, '_> {
    ghost debug_output = { λ shown. Some (joined (labels_shown shown)) };

    fn fmt<W: fmt::Write>(&self, f: &mut fmt::Formatter<W>) -> fmt::Result {
        write!(f, "{self}")
    }
}
