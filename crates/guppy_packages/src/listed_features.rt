//! The features that a declaration lists.
ghost use Rattle.std.specs.Prelude.{◌≡◌, IfSome, Some, drop, length};
ghost use Rattle.std.specs.Iterator.{YieldsFirstBy, UpTo, item_count};
ghost use Rattle.std.specs.Iterator.SizeHint.{IsWithinCount};

use crate::text_run::TextRun;
use std::fmt;
use std::iter::FusedIterator;
use std::marker::Model;

/// An iterator over the features that a declaration lists, in row order. A contract sees it as the list of their remaining names.
#[derive(Drop)]
pub struct ListedFeatures<'d> {
    // the name of the dependency, followed by the features
    texts: &'d TextRun,
    // the number of features that were returned
    returned: usize,
}

impl<'d> Model for ListedFeatures<'d> {
    ghost use Rattle.std.specs.Prelude.{List, drop};
    ghost use Rattle.guppy_packages.specs.Rows.{Text};

    ghost Value = { List Text };

    ghost view = { λ it. drop it.returned (drop 1 it.texts.now) };
}

impl<'d> ListedFeatures<'d> {
    /// Returns an iterator over the texts after the first of `texts`.
    pub(crate) fn new(texts: &'d TextRun) -> Self
        ensures { result ≡ drop 1 texts.now }
    {
        ListedFeatures { texts, returned: 0 }
    }

    /// Returns the number of features that are left.
    fn left(&self) -> usize
        ensures { result ≡ length self.now }
    {
        self.texts
            .len()
            .saturating_sub(1)
            .saturating_sub(self.returned)
    }
}

impl<'d> Iterator for ListedFeatures<'d> {
    type Item = &'d str;

    ghost next_gives = { YieldsFirstBy (λ name. name.now) (λ rest. rest) };

    ghost remaining = { item_count (λ rest. rest) };

    fn next(&mut self) -> Option<&'d str> {
        if self.returned >= self.texts.len().saturating_sub(1) {
            return None;
        }
        let name = self.texts.later(self.returned);
        self.returned += 1;
        Some(name)
    }

    fn size_hint(&self) -> (usize, Option<usize>)
        ensures lower { IsWithinCount result.0 (item_count (λ rest. rest) self.now) }
        ensures upper { IfSome result.1 (UpTo (item_count (λ rest. rest) self.now)) }
        ensures exact { result ≡ (length self.now, Some (length self.now)) }
    {
        let left = self.left();
        (left, Some(left))
    }
}

impl ExactSizeIterator for ListedFeatures<'_> {
    fn len(&self) -> usize {
        self.left()
    }
}

impl FusedIterator for ListedFeatures<'_> {}

impl fmt::Debug for ListedFeatures<'_> {
    fn fmt<W: fmt::Write>(&self, f: &mut fmt::Formatter<W>) -> fmt::Result {
        let mut list = f.debug_list();
        let rest = ListedFeatures {
            texts: self.texts,
            returned: self.returned,
        };
        for name in rest {
            list.entry(&name);
        }
        list.finish()
    }
}
